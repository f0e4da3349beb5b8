//! Frames that a kernel sent and received: `tests/steps/captured.py` passes the frames and the datagrams
//! of `examples/captured` to these tests on standard input, and checks what they write.

use netlink_generic::{ControllerMessage, family_groups, family_id, family_named};
use netlink_packet_core::normalize;
use std::alloc::Global;
use std::io;
use std::io::{Read, Write};
use std::test::Fail;

/// Returns all bytes of standard input.
fn input(rt: &HostRuntime) -> Result<Vec<u8>, Fail> {
    let mut bytes = Vec::new(rt.alloc());
    rt.reader().read_to_end(&mut bytes)?;
    Ok(bytes)
}

/// Writes the canonical form of the bytes on standard input, or the error text.
#[test]
fn standard_input_is_normalized(rt: HostRuntime) -> Result<(), Fail> {
    let alloc = rt.alloc();
    let bytes = input(&rt)?;
    match normalize::<ControllerMessage>(alloc, &bytes) {
        Ok(frame) => io::writer(&rt).write_all(&frame)?,
        Err(error) => io::writer(&rt).write_all(error.to_string(alloc)?.as_bytes())?,
    }
    Ok(())
}

/// Returns the id of a family in a datagram and its groups, one per line.
fn described(alloc: Global, datagram: &[u8], name: &str) -> Result<String, Fail> {
    let mut text = String::new(alloc);
    let Some(family) = family_named(datagram, name) else {
        text.push_str("none\n")?;
        return Ok(text);
    };
    if let Some(id) = family_id(&family) {
        text.push_str(format!(in alloc; "{id}\n")?.as_str())?;
    }
    for (group, id) in family_groups(&family) {
        if let (Some(group), Some(id)) = (group, id) {
            let group = str::from_utf8(group).unwrap_or("?");
            text.push_str(format!(in alloc; "{group} {id}\n")?.as_str())?;
        }
    }
    Ok(text)
}

/// Splits the bytes after a string that ends with a NUL.
fn split(bytes: &[u8]) -> Option<(&str, &[u8])> {
    for at in 0..bytes.len() {
        if bytes[at] == 0 {
            let (name, rest) = bytes.split_at(at);
            return Some((str::from_utf8(name).ok()?, &rest[1..]));
        }
    }
    None
}

/// Standard input is the name of a family, a NUL and a datagram. Writes the family's id and groups.
#[test]
fn a_family_of_standard_input_is_found(rt: HostRuntime) -> Result<(), Fail> {
    let alloc = rt.alloc();
    let bytes = input(&rt)?;
    if let Some((name, datagram)) = split(&bytes) {
        let text = described(alloc, datagram, name)?;
        io::writer(&rt).write_all(text.as_bytes())?;
    }
    Ok(())
}
