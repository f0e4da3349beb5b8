//! Constants of linux/netlink.h for attributes.

/// The bit of a kind that marks a value that holds attributes.
pub const NLA_F_NESTED: u16 = 0x8000;

/// The bit of a kind that marks a value in network byte order.
pub const NLA_F_NET_BYTEORDER: u16 = 0x4000;

/// The bits of a kind other than its two flags.
pub const NLA_TYPE_MASK: u16 = 0x3fff;

/// The alignment of attributes in bytes: the distance from the start of one to the start of the
/// next is a multiple of it.
pub const NLA_ALIGNTO: usize = 4;

/// The size of an attribute header in bytes (`NLA_HDRLEN` of linux/netlink.h): a 16-bit length and
/// a 16-bit kind.
pub const NLA_HEADER_SIZE: usize = 4;

/// The offset of an attribute's length field, in bytes.
pub(crate) const LENGTH: usize = 0;

/// The offset of its kind field, in bytes.
pub(crate) const KIND: usize = 2;

/// The maximum size of a value in bytes: the 16-bit length field also counts the header.
pub const NLA_VALUE_MAX: usize = 65531;
