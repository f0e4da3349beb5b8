//! What is written: attributes, lists, and what is appended to a block.

ghost use Rattle.std.specs.Prelude.{◌∷◌, []};

use super::calls::{are_same, is_appended};
use netlink_attributes::{
    DefaultNla, Nla, NlaBuffer, Nlas, append_padding, emit_nla, nla_buffer_len, nla_fits,
    write_nlas,
};
use netlink_bytes::{DecodeError, Emitable, Parseable};
use std::alloc::{AllocError, Global};
use std::test::Fail;

/// An attribute of one byte in network byte order.
#[derive(Drop)]
struct Flag(u8);

impl Nla for Flag {
    ghost kind_of = { λ _. 0x4007 };

    ghost value_of = { λ flag. flag.0 ∷ [] };

    fn value_len(&self) -> usize {
        1
    }

    fn kind(&self) -> u16 {
        0x4007
    }

    fn emit_value(&self, buffer: &mut [u8]) {
        buffer[0] = self.0;
    }
}

#[test]
fn a_type_of_its_own_is_asked(rt: HostRuntime) {
    let flag = Flag(9);
    assert!(rt; nla_fits(&flag));
    assert!(rt; nla_buffer_len(&flag) == 8);
    assert!(rt; flag.is_network_byteorder());
    assert!(rt; !flag.is_nested());
}

#[test]
fn a_type_of_its_own_is_written(rt: HostRuntime) {
    let flag = Flag(9);
    let mut buffer = [0x77; 10];
    assert!(rt; nla_buffer_len(&flag) == 8);
    emit_nla(&flag, &mut buffer);
    assert!(rt; buffer == [5, 0, 7, 0x40, 9, 0, 0, 0, 0x77, 0x77]);
}

/// Returns an attribute of this kind and value.
fn nla_of(alloc: Global, kind: u16, value: &[u8]) -> Result<DefaultNla, AllocError> {
    match value.to_vec(alloc) {
        Ok(value) => Ok(DefaultNla::new(kind, value)),
        Err(error) => Err(error),
    }
}

/// Returns the encoding of an attribute, or nothing if it does not fit.
fn written(alloc: Global, nla: &DefaultNla) -> Result<Vec<u8>, AllocError> {
    if !nla_fits(nla) {
        return Ok(Vec::new(alloc));
    }
    let mut bytes = vec![in alloc; 0xff; nla_buffer_len(nla)]?;
    emit_nla(nla, &mut bytes);
    Ok(bytes)
}

#[test]
fn both_flag_bits_are_kept(rt: HostRuntime) -> Result<(), Fail> {
    let nla = nla_of(rt.alloc(), 0xc006, &[1])?;
    assert!(rt; nla.is_nested());
    assert!(rt; nla.is_network_byteorder());
    assert!(rt; emitted(&nla) == [5, 0, 6, 0xc0, 1, 0, 0, 0]);
    Ok(())
}

/// Returns the encoding of an attribute, by the methods of the trait, or zeros if it does not have 8
/// bytes.
#[tactic(auto, using(netlink_attributes::specs::Sizes::written_sizes))]
fn emitted(nla: &DefaultNla) -> [u8; 8] {
    let mut buffer = [0; 8];
    if nla_fits(nla) && nla.buffer_len() == 8 {
        buffer.fill(0xff);
        nla.emit(&mut buffer);
    }
    buffer
}

/// Reads the attribute at the start of the bytes.
fn read(alloc: Global, bytes: &[u8]) -> Result<DefaultNla, DecodeError> {
    match NlaBuffer::new_checked(bytes) {
        Ok(view) => DefaultNla::parse(alloc, &view),
        Err(error) => Err(error),
    }
}

/// Returns whether the encoding of an attribute is these bytes.
fn is_written_as(alloc: Global, nla: &DefaultNla, bytes: &[u8]) -> bool {
    match written(alloc, nla) {
        Ok(found) => found.as_slice() == bytes,
        Err(_) => false,
    }
}

/// Returns whether a copy of an attribute equals it, and has this kind and a value of this size.
fn is_copied(alloc: Global, nla: &DefaultNla, kind: u16, size: usize) -> bool {
    match nla.try_clone(alloc) {
        Ok(copy) => are_same(&copy, nla) && copy.kind() == kind && copy.value_len() == size,
        Err(_) => false,
    }
}

/// Bytes, and the kind and the size of the value of their attribute.
const READ: [(&[u8], u16, usize); 2] = [
    (&[8, 0, 6, 0x40, 0, 0, 0x0e, 0x10], 0x4006, 4),
    (&[4, 0, 6, 0xc0], 0xc006, 0),
];

/// Returns whether the attribute in the bytes has this kind and a value of this size, is written as
/// the bytes, and is copied.
fn is_kept(alloc: Global, bytes: &[u8], kind: u16, size: usize) -> bool {
    match read(alloc, bytes) {
        Ok(nla) => {
            nla.kind() == kind
                && nla.value_len() == size
                && is_written_as(alloc, &nla, bytes)
                && is_copied(alloc, &nla, kind, size)
        }
        Err(_) => false,
    }
}

#[test]
fn what_is_parsed_is_written_again(rt: HostRuntime) {
    for (bytes, kind, size) in READ {
        assert!(rt; is_kept(rt.alloc(), bytes, kind, size));
    }
}

#[test]
fn an_attribute_is_copied(rt: HostRuntime) -> Result<(), Fail> {
    let nla = nla_of(rt.alloc(), 6, &[1])?;
    assert!(rt; is_copied(rt.alloc(), &nla, 6, 1));
    let copy = nla.try_clone(rt.alloc())?;
    assert!(rt; value_of(&copy) == [1]);
    Ok(())
}

/// Returns the value of an attribute, or zero if it does not have 1 byte.
fn value_of(nla: &DefaultNla) -> [u8; 1] {
    let mut value = [0];
    if nla.value_len() == 1 {
        value[0] = 0xff;
        nla.emit_value(&mut value);
    }
    value
}

/// Returns whether two flags are written into a vector as these bytes.
fn are_flags_written(alloc: Global, flags: &[Flag; 2], bytes: &[u8]) -> bool {
    match write_nlas(alloc, flags) {
        Ok(block) => block.as_slice() == bytes,
        Err(_) => false,
    }
}

#[test]
fn a_list_is_written_into_a_vector(rt: HostRuntime) {
    let bytes: &[u8] = &[5, 0, 7, 0x40, 9, 0, 0, 0, 5, 0, 7, 0x40, 8, 0, 0, 0];
    assert!(rt; are_flags_written(rt.alloc(), &[Flag(9), Flag(8)], bytes));
}

#[test]
fn an_empty_list_is_written_into_a_vector(rt: HostRuntime) {
    let none: [Flag; 0] = [];
    assert!(rt; write_nlas(rt.alloc(), &none).is_ok_and(|block| block.is_empty()));
}

#[test]
fn a_list_is_copied(rt: HostRuntime) {
    let list = [Flag(9), Flag(8)];
    let nlas = Nlas(&list);
    let copy = nlas;
    assert!(rt; copy.0.len() == 2 && nlas.0.len() == 2);
    assert!(rt; copy.0[1].0 == 8);
}

#[test]
fn a_list_leaves_the_rest(rt: HostRuntime) -> Result<(), Fail> {
    let list = [
        DefaultNla::new(1, vec![in rt.alloc(); 0xaa]?),
        DefaultNla::new(2, Vec::new(rt.alloc())),
    ];
    let mut buffer = [0x77; 13];
    let nlas = Nlas(&list);
    assert!(rt; nlas.buffer_len() == 12);
    nlas.emit(&mut buffer);
    assert!(rt; buffer == [5, 0, 1, 0, 0xaa, 0, 0, 0, 4, 0, 2, 0, 0x77]);
    Ok(())
}

/// The maximum size of a value in bytes: the largest 16-bit length, less a 4-byte header.
const LONGEST: usize = 65531;

/// Returns the encoding of an attribute of kind 1 whose value is this many nines.
fn written_nines(alloc: Global, size: usize) -> Result<Vec<u8>, AllocError> {
    written(alloc, &DefaultNla::new(1, vec![in alloc; 9; size]?))
}

/// Offsets in the encoding of the longest value, and the bytes there.
const BYTES: [(usize, u8); 7] = [
    (0, 0xff),
    (1, 0xff),
    (2, 1),
    (3, 0),
    (4, 9),
    (65534, 9),
    (65535, 0),
];

#[test]
fn the_longest_value(rt: HostRuntime) -> Result<(), Fail> {
    let bytes = written_nines(rt.alloc(), LONGEST)?;
    assert!(rt; bytes.len() == 65536);
    for (at, byte) in BYTES {
        assert!(rt; bytes.get(at) == Some(&byte));
    }
    Ok(())
}

#[test]
fn a_longer_value_does_not_fit(rt: HostRuntime) -> Result<(), Fail> {
    let longer = DefaultNla::new(1, vec![in rt.alloc(); 9; LONGEST + 1]?);
    assert!(rt; !nla_fits(&longer));
    Ok(())
}

#[test]
fn an_attribute_is_added(rt: HostRuntime) {
    let mut block = Vec::new(rt.alloc());
    assert!(rt; is_appended(rt.alloc(), &mut block, 2, &[0xaa]));
    assert!(rt; is_appended(rt.alloc(), &mut block, 0xc003, &[]));
    assert!(rt; block.as_slice() == [5, 0, 2, 0, 0xaa, 0, 0, 0, 4, 0, 3, 0xc0].as_slice());
}

#[test]
fn padding_is_added(rt: HostRuntime) -> Result<(), Fail> {
    let mut bytes = Vec::new(rt.alloc());
    for count in 0..4 {
        append_padding(&mut bytes, count)?;
        bytes.push(7)?;
    }
    assert!(rt; bytes.as_slice() == [7, 0, 7, 0, 0, 7, 0, 0, 0, 7].as_slice());
    Ok(())
}
