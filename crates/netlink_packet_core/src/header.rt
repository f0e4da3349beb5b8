//! The header of a message.

ghost use Rattle.std.specs.Prelude.{◌≡◌, ◌≤◌, length, true};

use crate::buffer::{NetlinkBuffer, read_header};
use crate::constants::{
    FLAGS, LENGTH, MESSAGE_TYPE, NETLINK_HEADER_LEN, PORT_NUMBER, SEQUENCE_NUMBER,
};
use netlink_bytes::{DecodeError, Emitable, Parseable, put_u16, put_u32};
use std::alloc::Global;

/// The header of a message (`struct nlmsghdr`), 16 bytes on the wire, with all numbers in native
/// byte order.
#[derive(Clone, Copy, Debug, PartialEq, Eq, Hash)]
#[repr(C)]
pub struct NetlinkHeader {
    /// The size of the message in bytes, including this header.
    pub length: u32,
    /// The type of the message: one of `NLMSG_*`, or a type of the sub-protocol.
    pub message_type: u16,
    /// The `NLM_F_*` bits.
    pub flags: u16,
    /// The number that matches a reply to its request.
    pub sequence_number: u32,
    /// The address of the sending socket.
    pub port_number: u32,
}

impl NetlinkHeader {
    ghost use Rattle.netlink_packet_core.specs.Header.{header_bytes, HeaderInRange};

    /// Establishes that each field is within its width, for the proof of a caller.
    pub(crate) fn in_widths(&self)
        ensures { HeaderInRange self.now }
    {
        let _length = self.length;
        let _message_type = self.message_type;
        let _flags = self.flags;
        let _sequence_number = self.sequence_number;
        let _port_number = self.port_number;
    }

    /// Writes the five fields. Requires that `buffer` has exactly 16 bytes.
    #[tactic(auto, unfolding(netlink_bytes::specs::Numbers::bytes_le))]
    pub(crate) fn write(&self, buffer: &mut [u8])
        requires { length buffer.old ≡ 16 }
        ensures { buffer.new ≡ header_bytes self.now }
    {
        put_u32(buffer, LENGTH, self.length);
        put_u16(buffer, MESSAGE_TYPE, self.message_type);
        put_u16(buffer, FLAGS, self.flags);
        put_u32(buffer, SEQUENCE_NUMBER, self.sequence_number);
        put_u32(buffer, PORT_NUMBER, self.port_number);
    }

    /// Returns the encoding of the five fields.
    pub(crate) fn bytes(&self) -> [u8; NETLINK_HEADER_LEN]
        ensures { result ≡ header_bytes self.now }
    {
        let mut bytes = [0; NETLINK_HEADER_LEN];
        self.write(&mut bytes);
        bytes
    }
}

impl Default for NetlinkHeader {
    ghost use Rattle.netlink_packet_core.specs.Header.{default_header};

    ghost is_default = { λ h. h ≡ default_header };

    /// Returns a header of five zeros.
    fn default() -> Self {
        NetlinkHeader {
            length: 0,
            message_type: 0,
            flags: 0,
            sequence_number: 0,
            port_number: 0,
        }
    }
}

impl Emitable for NetlinkHeader {
    ghost use Rattle.netlink_packet_core.specs.Header.{header_bytes};

    ghost bytes = { header_bytes };

    ghost can_emit = { λ _. Unit {0} };

    ghost takes_longer = { true };

    /// Returns 16.
    #[tactic(auto, using(crate::specs::Sizes::text_sizes))]
    fn buffer_len(&self) -> usize {
        NETLINK_HEADER_LEN
    }

    /// Writes the five fields into the first 16 bytes and leaves the rest unchanged. Requires that
    /// `buffer` has at least 16 bytes.
    #[tactic(auto, using(crate::specs::Sizes::text_sizes))]
    fn emit(&self, buffer: &mut [u8]) {
        let (head, _) = buffer.split_at_mut(NETLINK_HEADER_LEN);
        self.write(head);
    }
}

impl<'a> Parseable<NetlinkBuffer<&'a [u8]>> for NetlinkHeader {
    ghost use Rattle.netlink_packet_core.specs.Header.{IsHeader};

    ghost can_parse = { λ view. 16 ≤ length view.buffer.now };

    ghost reads = { λ view h. IsHeader view.buffer.now h };

    ghost refusal = { λ _ _. ⊥ };

    ghost needs_no_memory = { λ _. Unit {0} };

    /// Returns the header at the start of the bytes; always `Ok`. Requires at least 16 bytes.
    fn parse(_alloc: Global, buf: &NetlinkBuffer<&'a [u8]>) -> Result<Self, DecodeError> {
        Ok(read_header(buf.buffer))
    }
}
