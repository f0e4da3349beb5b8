//! A request, as far as it determines its answer.

ghost use Rattle.std.specs.Prelude.{◌≡◌, true, false};
ghost use Rattle.netlink_packet_core.specs.declared.constants.TheConstants.{NLM_F_ACK};
ghost use Rattle.netlink_replies.specs.Headers.{has_flag};

use netlink_packet_core::{NLM_F_ACK, NetlinkHeader};

/// What identifies the answer to a request, and what ends it.
#[derive(Clone, Copy, Debug, PartialEq, Eq)]
pub struct Request {
    /// The sequence number of the request and of its answer.
    pub sequence_number: u32,
    /// The port number of the answer, or 0 to accept every port number.
    pub port_number: u32,
    /// Whether the request is a dump.
    pub is_dump: bool,
    /// Whether the request asks for an acknowledgement.
    pub wants_ack: bool,
}

impl Request {
    /// Returns a request that is not a dump. Takes the numbers from the header that is sent, and
    /// `NLM_F_ACK` from its flags.
    #[inline]
    pub fn single(header: &NetlinkHeader) -> Self
        ensures { result ≡ record {
          sequence_number = header.now.sequence_number;
          port_number = header.now.port_number;
          is_dump = false;
          wants_ack = has_flag header.now.flags NLM_F_ACK;
        } }
    {
        Request {
            sequence_number: header.sequence_number,
            port_number: header.port_number,
            is_dump: false,
            wants_ack: has_flag(header.flags, NLM_F_ACK),
        }
    }

    /// Returns a dump request. Takes the numbers from the header that is sent, and `NLM_F_ACK` from
    /// its flags. The flags do not show a dump: the two bits of `NLM_F_DUMP` also mean
    /// `NLM_F_REPLACE` and `NLM_F_EXCL`.
    #[inline]
    pub fn dump(header: &NetlinkHeader) -> Self
        ensures { result ≡ record {
          sequence_number = header.now.sequence_number;
          port_number = header.now.port_number;
          is_dump = true;
          wants_ack = has_flag header.now.flags NLM_F_ACK;
        } }
    {
        Request {
            sequence_number: header.sequence_number,
            port_number: header.port_number,
            is_dump: true,
            wants_ack: has_flag(header.flags, NLM_F_ACK),
        }
    }
}

/// Returns whether the flags have a bit of `flag`.
#[inline]
pub(crate) fn has_flag(flags: u16, flag: u16) -> bool
    ensures { result ≡ has_flag flags flag }
{
    flags & flag != 0
}
