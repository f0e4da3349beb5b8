//! Views: what they read, what they reject, and what they write.

use super::calls::{are_same, prints_as};
use netlink_attributes::{
    NLA_ALIGNTO, NLA_F_NESTED, NLA_F_NET_BYTEORDER, NLA_HEADER_SIZE, NLA_TYPE_MASK, NlaBuffer,
    nla_align,
};
use std::alloc::Global;
use std::test::Fail;

#[test]
fn constants(rt: HostRuntime) {
    assert!(rt; NLA_F_NESTED == 32768);
    assert!(rt; NLA_F_NET_BYTEORDER == 16384);
    assert!(rt; NLA_TYPE_MASK == 16383);
    assert!(rt; NLA_ALIGNTO == 4);
    assert!(rt; NLA_HEADER_SIZE == 4);
}

#[test]
fn aligned_sizes(rt: HostRuntime) {
    for (size, whole) in [(13, 16), (16, 16), (0, 0), (1, 4)] {
        assert!(rt; nla_align(size) == whole);
    }
    assert!(rt; nla_align(18446744073709551611) == 18446744073709551612);
}

/// Bytes, the kind with its flag bits, these two bits, and the value.
const READ: [(&[u8], u16, bool, bool, &[u8]); 4] = [
    (
        &[8, 0, 6, 0x40, 0, 0, 0x0e, 0x10],
        0x4006,
        false,
        true,
        &[0, 0, 0x0e, 0x10],
    ),
    (&[4, 0, 6, 0xc0], 0xc006, true, true, &[]),
    (&[5, 0, 1, 0x80, 0xaa, 7], 0x8001, true, false, &[0xaa]),
    (&[4, 0, 0xff, 0x3f, 9], 0x3fff, false, false, &[]),
];

/// Returns whether the attribute has this kind, with and without its flag bits, and these two bits.
fn has_kind(bytes: &[u8], kind: u16, nested: bool, network: bool) -> bool {
    if bytes.len() < 4 {
        return false;
    }
    let view = NlaBuffer::new(bytes);
    view.raw_kind() == kind
        && view.kind() == kind & 0x3fff
        && view.nested_flag() == nested
        && view.network_byte_order_flag() == network
}

/// Returns whether the bytes hold an attribute with this value.
fn has_value(bytes: &[u8], value: &[u8]) -> bool {
    match NlaBuffer::new_checked(bytes) {
        Ok(view) => {
            usize::from(view.length()) == value.len() + 4
                && view.value_length() == value.len()
                && view.value() == value
        }
        Err(_) => false,
    }
}

/// Returns whether a view that was checked is the one over its bytes.
fn is_checked(bytes: &[u8]) -> bool {
    match NlaBuffer::new_checked(bytes) {
        Ok(view) => {
            view.check_buffer_length().is_ok()
                && view == NlaBuffer::new(bytes)
                && view.into_inner() == bytes
        }
        Err(_) => false,
    }
}

#[test]
fn fields_are_read(rt: HostRuntime) {
    for (bytes, kind, nested, network, value) in READ {
        assert!(rt; has_kind(bytes, kind, nested, network));
        assert!(rt; has_value(bytes, value) && is_checked(bytes));
    }
}

#[test]
fn a_view_is_copied(rt: HostRuntime) {
    let bytes: &[u8] = &[5, 0, 1, 0x80, 0xaa];
    let view = NlaBuffer::new(bytes);
    let copy = view;
    assert!(rt; copy == view);
    assert!(rt; copy.into_inner() == view.into_inner());
}

/// Bytes that hold no attribute, and the number and the text of the error.
const REFUSED: [(&[u8], u8, &str); 4] = [
    (&[], 5, "buffer has length 0, but an NLA header is 4 bytes"),
    (
        &[5, 0, 1],
        5,
        "buffer has length 3, but an NLA header is 4 bytes",
    ),
    (
        &[8, 0, 1, 0, 0xaa],
        6,
        "buffer has length: 5, but the NLA is 8 bytes",
    ),
    (
        &[3, 0, 1, 0],
        7,
        "NLA has invalid length: 3 (should be at least 4 bytes)",
    ),
];

/// Returns whether the bytes are refused with this number and text.
fn is_refused(alloc: Global, bytes: &[u8], number: u8, text: &str) -> bool {
    match NlaBuffer::new_checked(bytes) {
        Ok(_) => false,
        Err(fault) => fault.number() == number && prints_as(alloc, &fault, text),
    }
}

#[test]
fn damaged_bytes_are_refused(rt: HostRuntime) {
    for (bytes, number, text) in REFUSED {
        assert!(rt; is_refused(rt.alloc(), bytes, number, text));
        assert!(rt; NlaBuffer::new(bytes).check_buffer_length().is_err());
    }
}

/// A setter, with its argument.
#[derive(Clone, Copy)]
enum Setter {
    NestedFlag,
    NetworkByteOrderFlag,
    Kind(u16),
    Length(u16),
    RawKind(u16),
}

impl Setter {
    /// Calls the setter on an attribute of 8 bytes.
    fn set(self, bytes: &mut [u8; 8]) {
        let mut view = NlaBuffer::new(&mut bytes[..]);
        match self {
            Setter::NestedFlag => view.set_nested_flag(),
            Setter::NetworkByteOrderFlag => view.set_network_byte_order_flag(),
            Setter::Kind(kind) => view.set_kind(kind),
            Setter::Length(length) => view.set_length(length),
            Setter::RawKind(kind) => view.set_raw_kind(kind),
        }
    }
}

/// Setters that are called one after another, and the bytes after each.
const SET: [(Setter, [u8; 8]); 5] = [
    (Setter::NestedFlag, [8, 0, 6, 0x80, 0, 0, 0x0e, 0x10]),
    (
        Setter::NetworkByteOrderFlag,
        [8, 0, 6, 0x40, 0, 0, 0x0e, 0x10],
    ),
    (Setter::Kind(0xc006), [8, 0, 6, 0, 0, 0, 0x0e, 0x10]),
    (Setter::Length(0x0605), [5, 6, 6, 0, 0, 0, 0x0e, 0x10]),
    (Setter::RawKind(0xc006), [5, 6, 6, 0xc0, 0, 0, 0x0e, 0x10]),
];

#[test]
fn setters_change_their_own_bits(rt: HostRuntime) {
    let mut bytes = [8, 0, 6, 0x40, 0, 0, 0x0e, 0x10];
    for (setter, expected) in SET {
        setter.set(&mut bytes);
        assert!(rt; bytes == expected);
    }
}

#[test]
fn a_flag_of_an_attribute_without_a_value_is_set(rt: HostRuntime) {
    let mut short = [4, 0, 6, 0x80];
    NlaBuffer::new(&mut short[..]).set_network_byte_order_flag();
    assert!(rt; short == [4, 0, 6, 0x40]);
}

#[test]
fn a_value_is_lent(rt: HostRuntime) {
    let mut bytes = [6, 0, 1, 0, 1, 2, 3, 4];
    let mut view = NlaBuffer::new(&mut bytes[..]);
    if view.check_buffer_length().is_ok() {
        view.value_mut().fill(9);
    }
    assert!(rt; bytes == [6, 0, 1, 0, 9, 9, 3, 4]);
}

#[test]
fn a_storage_is_lent(rt: HostRuntime) -> Result<(), Fail> {
    let mut view = NlaBuffer::new(vec![in rt.alloc(); 6, 0, 1, 0, 1, 2]?);
    let same = NlaBuffer::new(&[6u8, 0, 1, 0, 1, 2][..]);
    assert!(rt; are_same(&view.borrowed(), &same));
    view.set_kind(2);
    assert!(rt; view.inner().as_slice() == [6, 0, 2, 0, 1, 2].as_slice());
    Ok(())
}

#[test]
fn a_storage_is_replaced(rt: HostRuntime) -> Result<(), Fail> {
    let mut view = NlaBuffer::new(vec![in rt.alloc(); 6, 0, 2, 0, 1, 2]?);
    *view.inner_mut() = vec![in rt.alloc(); 4, 0, 2, 0]?;
    assert!(rt; view.into_inner().as_slice() == [4, 0, 2, 0].as_slice());
    Ok(())
}
