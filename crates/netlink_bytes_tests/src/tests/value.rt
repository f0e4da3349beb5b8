//! A single byte or an address with its type, so that its function can be called from a table.

use netlink_bytes::{DecodeError, IpAddr, parse_i8, parse_ip, parse_ipv6, parse_mac, parse_u8};

/// A value of one of the types of fixed size that have only a `parse` function.
#[derive(Clone, Copy, PartialEq)]
pub(super) enum Value {
    U8(u8),
    I8(i8),
    Mac([u8; 6]),
    Ipv6([u8; 16]),
    Ip(IpAddr),
}

impl Value {
    /// Calls the `parse` function of this type. The value of `self` is ignored.
    pub(super) fn parse_same_type(self, bytes: &[u8]) -> Result<Value, DecodeError> {
        Ok(match self {
            Value::U8(_) => Value::U8(parse_u8(bytes)?),
            Value::I8(_) => Value::I8(parse_i8(bytes)?),
            Value::Mac(_) => Value::Mac(parse_mac(bytes)?),
            Value::Ipv6(_) => Value::Ipv6(parse_ipv6(bytes)?),
            Value::Ip(_) => Value::Ip(parse_ip(bytes)?),
        })
    }

    /// Returns whether the bytes are read as this value.
    pub(super) fn is_read_from(self, bytes: &[u8]) -> bool {
        self.parse_same_type(bytes).ok() == Some(self)
    }
}

/// Bytes, and the value that they are read as.
pub(super) const READ: [(Value, &[u8]); 6] = [
    (Value::U8(7), &[7]),
    (Value::I8(-128), &[0x80]),
    (Value::Mac([1, 2, 3, 4, 5, 6]), &[1, 2, 3, 4, 5, 6]),
    (Value::Ipv6([9; 16]), &[9; 16]),
    (Value::Ip(IpAddr::V4([127, 0, 0, 1])), &[127, 0, 0, 1]),
    (Value::Ip(IpAddr::V6([9; 16])), &[9; 16]),
];

/// Bytes that the function of the value's type rejects, and the number and the text of the error.
pub(super) const REFUSED: [(Value, &[u8], u8, &str); 5] = [
    (
        Value::U8(0),
        &[],
        4,
        "Invalid number. Expected 1 bytes, received 0 bytes",
    ),
    (
        Value::I8(0),
        &[1, 2],
        4,
        "Invalid number. Expected 1 bytes, received 2 bytes",
    ),
    (
        Value::Mac([0; 6]),
        &[0; 5],
        2,
        "Invalid MAC address. Expected 6 bytes, received 5 bytes",
    ),
    (
        Value::Ipv6([0; 16]),
        &[0; 4],
        3,
        "Invalid IP address. Expected 4 or 16 bytes, received 4 bytes",
    ),
    (
        Value::Ip(IpAddr::V4([0; 4])),
        &[0; 5],
        3,
        "Invalid IP address. Expected 4 or 16 bytes, received 5 bytes",
    ),
];
