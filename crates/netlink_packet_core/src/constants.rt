//! Constants of the format, from linux/netlink.h, with the names of the Rust crate.

ghost use Rattle.std.specs.Prelude.{◌≡◌, ◌+◌, ◌-◌, ◌%◌, ◌<◌, ◌≤◌};

/// The size of a message header in bytes (`NLMSG_HDRLEN`).
pub const NETLINK_HEADER_LEN: usize = 16;

/// The offset of a message's length field, in bytes.
pub(crate) const LENGTH: usize = 0;

/// The offset of its type.
pub(crate) const MESSAGE_TYPE: usize = 4;

/// The offset of its flags.
pub(crate) const FLAGS: usize = 6;

/// The offset of its sequence number.
pub(crate) const SEQUENCE_NUMBER: usize = 8;

/// The offset of its port number.
pub(crate) const PORT_NUMBER: usize = 12;

/// The offset of the code in the payload of a done or error message.
pub(crate) const CODE: usize = 0;

/// The size of that code in bytes. What follows it starts there.
pub(crate) const CODE_SIZE: usize = 4;

/// Message type: the message is to be ignored.
pub const NLMSG_NOOP: u16 = 1;

/// Message type: the message carries a code, which is 0 for an acknowledgment.
pub const NLMSG_ERROR: u16 = 2;

/// Message type: the message ends a multipart message.
pub const NLMSG_DONE: u16 = 3;

/// Message type: data was lost.
pub const NLMSG_OVERRUN: u16 = 4;

/// The alignment in bytes of the messages in a datagram.
pub const NLMSG_ALIGNTO: u16 = 4;

/// Flag: a request.
pub const NLM_F_REQUEST: u16 = 1;

/// Flag: part of a multipart message, which `NLMSG_DONE` ends (`NLM_F_MULTI`).
pub const NLM_F_MULTIPART: u16 = 2;

/// Flag: asks for a reply with a code.
pub const NLM_F_ACK: u16 = 4;

/// Flag: asks for the request to be echoed.
pub const NLM_F_ECHO: u16 = 8;

/// Flag: a dump was inconsistent, because what it lists changed.
pub const NLM_F_DUMP_INTR: u16 = 16;

/// Flag: a dump was filtered as the request asked.
pub const NLM_F_DUMP_FILTERED: u16 = 32;

/// Flag of a get request: asks for the root of the tree.
pub const NLM_F_ROOT: u16 = 256;

/// Flag of a get request: asks for everything that matches.
pub const NLM_F_MATCH: u16 = 512;

/// Flag of a get request: asks for one consistent snapshot.
pub const NLM_F_ATOMIC: u16 = 1024;

/// Flag of a get request: a dump, which is the root and everything that matches.
pub const NLM_F_DUMP: u16 = 768;

/// Flag of a new request: replaces what exists.
pub const NLM_F_REPLACE: u16 = 256;

/// Flag of a new request: leaves what exists untouched.
pub const NLM_F_EXCL: u16 = 512;

/// Flag of a new request: creates what does not exist.
pub const NLM_F_CREATE: u16 = 1024;

/// Flag of a new request: adds at the end of the list.
pub const NLM_F_APPEND: u16 = 2048;

/// Flag of a delete request: does not delete recursively.
pub const NLM_F_NONREC: u16 = 256;

/// Flag of an acknowledgment: the request after the code was truncated.
pub const NLM_F_CAPPED: u16 = 256;

/// Flag of an acknowledgment: the attributes of an extended acknowledgment follow.
pub const NLM_F_ACK_TLVS: u16 = 512;

/// Returns the smallest multiple of `NLMSG_ALIGNTO` that is at least `len`: the size of a frame in
/// bytes with the padding after it (`NLMSG_ALIGN`). Requires `len <= usize::MAX - 4`.
#[inline]
pub fn nlmsg_align(len: usize) -> usize
    requires room { len ≤ usize.MAX - 4 }
    ensures multiple { result % 4 ≡ 0 }
    ensures least { (len ≤ result) × (result < len + 4) }
{
    let unit = usize::from(NLMSG_ALIGNTO);
    (len + unit - 1) / unit * unit
}
