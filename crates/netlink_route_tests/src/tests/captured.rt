//! Frames on standard input. `tests/steps/captured.py` passes each frame of `examples/captured` to these
//! tests, and `tests/steps/kinds.py` frames that it makes of `tests/kinds.txt`. They check what is written.

use netlink_packet_core::{NetlinkMessage, NetlinkPayload, normalize};
use netlink_route::RouteMessage;
use std::alloc::{AllocError, Global};
use std::io;
use std::io::{Read, Write};
use std::test::Fail;

/// Writes the canonical form of the bytes on standard input, or the error text.
#[test]
fn standard_input_is_normalized(rt: HostRuntime) -> Result<(), Fail> {
    let alloc = rt.alloc();
    let mut bytes = Vec::new(alloc);
    rt.reader().read_to_end(&mut bytes)?;
    match normalize::<RouteMessage>(alloc, &bytes) {
        Ok(frame) => io::writer(&rt).write_all(&frame)?,
        Err(error) => io::writer(&rt).write_all(error.to_string(alloc)?.as_bytes())?,
    }
    Ok(())
}

/// Writes the text of the message on standard input, or the error text.
#[test]
fn standard_input_is_shown(rt: HostRuntime) -> Result<(), Fail> {
    let alloc = rt.alloc();
    let mut bytes = Vec::new(alloc);
    rt.reader().read_to_end(&mut bytes)?;
    match NetlinkMessage::<RouteMessage>::deserialize(alloc, &bytes) {
        Ok(message) => io::writer(&rt).write_all(text_of(alloc, &message)?.as_bytes())?,
        Err(error) => io::writer(&rt).write_all(error.to_string(alloc)?.as_bytes())?,
    }
    Ok(())
}

/// Returns the text of a message of this protocol, and no text for one of the core's own types.
fn text_of(alloc: Global, message: &NetlinkMessage<RouteMessage>) -> Result<String, AllocError> {
    match &message.payload {
        NetlinkPayload::InnerMessage(message) => message.message_view().show(alloc),
        _ => Ok(String::new(alloc)),
    }
}
