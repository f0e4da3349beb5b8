//! Attributes and blocks.

ghost use Rattle.std.specs.Prelude.{◌∷◌, []};

use crate::tests::attributes::{FLAGGED, SHORT, TWO};
use crate::tests::mark::refuse_from_here;
use crate::tests::overwriting::is_overwritten;
use crate::tests::refusals::refuses;
use netlink_packet_core::{
    DecodeError, DefaultNla, Emitable, Nla, NlaBuffer, Nlas, NlasIterator, Parseable, append_nla,
    append_padding, emit_nla, is_canonical_nlas, nla_align, nla_buffer_len, nla_find, nla_find_raw,
    nla_fits, nla_place, nlas_fault, nlas_value_mut, normalize_nlas, write_nla_value, write_nlas,
};
use std::alloc::Global;
use std::test::Fail;

#[test]
fn views_of_an_attribute(rt: HostRuntime) {
    refuse_from_here(rt.alloc());
    match NlaBuffer::new_checked(&FLAGGED[..]) {
        Ok(mut view) => {
            assert!(rt; view.check_buffer_length().is_ok());
            assert!(rt; view.length() == 8 && view.value_length() == 4);
            assert!(rt; view.kind() == 6 && view.raw_kind() == 0x4006);
            assert!(rt; view.network_byte_order_flag() && !view.nested_flag());
            assert!(rt; view.value() == &FLAGGED[4..]);
            assert!(rt; view.inner().len() == 8);
            assert!(rt; view.into_inner() == &FLAGGED[..]);
        }
        Err(_) => assert!(rt; false),
    }
}

#[test]
fn views_that_are_refused(rt: HostRuntime) {
    refuse_from_here(rt.alloc());
    let rows: [(&[u8], u8); 3] = [(&[5, 0, 1], 5), (&[5, 0, 1, 0], 6), (&[3, 0, 1, 0], 7)];
    for (bytes, number) in rows.iter() {
        assert!(rt; refuses(NlaBuffer::new_checked(*bytes), *number));
        let view = NlaBuffer::new(*bytes);
        assert!(rt; refuses(view.check_buffer_length(), *number));
    }
}

#[test]
fn fields_of_an_attribute(rt: HostRuntime) {
    refuse_from_here(rt.alloc());
    let mut bytes = FLAGGED;
    NlaBuffer::new(&mut bytes[..]).set_nested_flag();
    assert!(rt; bytes == [8, 0, 6, 0x80, 0, 0, 0x0e, 0x10]);
    NlaBuffer::new(&mut bytes[..]).set_network_byte_order_flag();
    assert!(rt; bytes == FLAGGED);
    NlaBuffer::new(&mut bytes[..]).set_kind(0xc007);
    assert!(rt; bytes == [8, 0, 7, 0, 0, 0, 0x0e, 0x10]);
    NlaBuffer::new(&mut bytes[..]).set_length(6);
    assert!(rt; bytes == [6, 0, 7, 0, 0, 0, 0x0e, 0x10]);
    let mut view = NlaBuffer::new(&mut bytes[..]);
    if view.check_buffer_length().is_ok() {
        view.value_mut().fill(9);
    }
    assert!(rt; view.inner_mut().len() == 8);
    assert!(rt; bytes == [6, 0, 7, 0, 9, 9, 0x0e, 0x10]);
}

/// A flag of one byte.
#[derive(Drop)]
pub(crate) struct Flag(pub(crate) u8);

impl Nla for Flag {
    ghost kind_of = { λ _. 0x4007 };

    ghost value_of = { λ flag. flag.0 ∷ [] };

    fn value_len(&self) -> usize {
        1
    }

    fn kind(&self) -> u16 {
        0x4007
    }

    fn emit_value(&self, buffer: &mut [u8]) {
        buffer[0] = self.0;
    }
}

#[test]
fn attributes_are_written(rt: HostRuntime) -> Result<(), Fail> {
    let value = [9u8].to_vec(rt.alloc())?;
    refuse_from_here(rt.alloc());
    let nla = DefaultNla::new(0xc006, value);
    assert!(rt; nla.kind() == 0xc006 && nla.value_len() == 1);
    assert!(rt; nla.is_nested() && nla.is_network_byteorder());
    assert!(rt; nla_buffer_len(&nla) == 8);
    assert!(rt; nla_fits(&nla));
    let mut buffer = [0x55u8; 9];
    emit_nla(&nla, &mut buffer);
    assert!(rt; buffer == [5, 0, 6, 0xc0, 9, 0, 0, 0, 0x55]);
    assert!(rt; nla.buffer_len() == 8);
    let mut again = [0x55u8; 9];
    nla.emit(&mut again);
    assert!(rt; again == buffer);
    Ok(())
}

#[test]
fn a_list_is_written(rt: HostRuntime) -> Result<(), Fail> {
    refuse_from_here(rt.alloc());
    assert!(rt; nla_align(5) == 8);
    let list = [Flag(9)];
    let nlas = Nlas(&list);
    let mut again = [0x55u8; 9];
    assert!(rt; nlas.buffer_len() == 8);
    nlas.emit(&mut again);
    assert!(rt; again == [5, 0, 7, 0x40, 9, 0, 0, 0, 0x55]);
    let none: [Flag; 0] = [];
    assert!(rt; write_nlas(rt.alloc(), &none)?.is_empty());
    Ok(())
}

#[test]
fn blocks_are_walked(rt: HostRuntime) {
    refuse_from_here(rt.alloc());
    let mut walk = NlasIterator::new(&SHORT);
    assert!(rt; matches!(walk.next(), Some(Ok(_))));
    match walk.next() {
        Some(item) => assert!(rt; refuses(item, 7)),
        None => assert!(rt; false),
    }
    assert!(rt; walk.next().is_none());
    assert!(rt; walk == NlasIterator::new(&[]));
}

#[test]
fn attributes_are_found(rt: HostRuntime) {
    refuse_from_here(rt.alloc());
    assert!(rt; nla_place(&TWO, 1) == Some((12, 16)) && nla_place(&TWO, 2).is_none());
    assert!(rt; nla_find(&TWO, 2) == Some(1) && nla_find(&TWO, 3).is_none());
    assert!(rt; nla_find_raw(&TWO, 2) == Some(1) && nla_find_raw(&TWO, 0x8002).is_none());
    assert!(rt; nlas_fault(&TWO).is_none());
    match nlas_fault(&SHORT) {
        Some(fault) => assert!(rt; fault.number() == 7),
        None => assert!(rt; false),
    }
}

#[test]
fn blocks_are_normalised(rt: HostRuntime) -> Result<(), Fail> {
    let alloc = rt.alloc();
    refuse_from_here(alloc);
    assert!(rt; is_canonical_nlas(&TWO) && !is_canonical_nlas(&SHORT));
    assert!(rt; normal_block(alloc, &[])?.is_empty());
    let damaged: [(&[u8], u8); 3] = [(&TWO[..9], 5), (&TWO[..15], 6), (&SHORT, 7)];
    for (block, number) in damaged.iter() {
        assert!(rt; refuses(normal_block(alloc, block), *number));
    }
    Ok(())
}

/// Normalizes a block. Has no contract, so that the proofs of tests are short.
pub(crate) fn normal_block(alloc: Global, block: &[u8]) -> Result<Vec<u8>, DecodeError> {
    normalize_nlas(alloc, block)
}

#[test]
fn values_are_written_over(rt: HostRuntime) {
    refuse_from_here(rt.alloc());
    let mut block = TWO;
    assert!(rt; is_overwritten(&mut block, 0, &[0xbb]));
    assert!(rt; !is_overwritten(&mut block, 1, &[0xbb]));
    assert!(rt; is_written(&mut block, 0, &[0xbb]) && !is_written(&mut block, 2, &[]));
    assert!(rt; block == [5, 0, 1, 0, 0xbb, 0, 0, 0, 8, 0, 2, 0, 1, 2, 3, 4]);
    assert!(rt; lent_size(&mut block, 0) == Some(1) && lent_size(&mut block, 2).is_none());
}

fn is_written(block: &mut [u8; 16], index: usize, value: &[u8]) -> bool {
    write_nla_value(block, index, value)
}

/// Returns the size of a value that is mutably borrowed.
fn lent_size(block: &mut [u8; 16], index: usize) -> Option<usize> {
    match nlas_value_mut(block, index) {
        Some(value) => Some(value.len()),
        None => None,
    }
}

/// An attribute goes into a block with room for it and its padding.
#[test]
fn an_attribute_is_appended(rt: HostRuntime) -> Result<(), Fail> {
    let alloc = rt.alloc();
    let mut block = Vec::with_capacity(alloc, 8)?;
    refuse_from_here(alloc);
    assert!(rt; append_nla(alloc, &mut block, 2, &[0xaa]).is_ok());
    assert!(rt; block.as_slice() == [5, 0, 2, 0, 0xaa, 0, 0, 0].as_slice());
    Ok(())
}

/// Padding goes into a vector with room for it.
#[test]
fn padding_is_appended(rt: HostRuntime) -> Result<(), Fail> {
    let alloc = rt.alloc();
    let mut bytes = Vec::with_capacity(alloc, 3)?;
    refuse_from_here(alloc);
    assert!(rt; append_padding(&mut bytes, 3).is_ok());
    assert!(rt; bytes.as_slice() == [0, 0, 0].as_slice());
    Ok(())
}

#[test]
fn attributes_without_a_value(rt: HostRuntime) -> Result<(), Fail> {
    let alloc = rt.alloc();
    refuse_from_here(alloc);
    let nla = DefaultNla::new(0xc006, Vec::new(alloc));
    assert!(rt; nla_of(alloc, &[4, 0, 6, 0xc0])? == nla);
    assert!(rt; nla.try_clone(alloc)? == nla);
    Ok(())
}

/// Reads an attribute.
pub(crate) fn nla_of(alloc: Global, bytes: &[u8]) -> Result<DefaultNla, DecodeError> {
    DefaultNla::parse(alloc, &NlaBuffer::new_checked(bytes)?)
}
