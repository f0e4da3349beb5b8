//! The message types of sub-protocols.

ghost use Rattle.std.specs.Prelude.{◌≡◌, ◌≤◌, ◌↔◌, IsSome, IfSome};

/// The minimum message type of a sub-protocol (`NLMSG_MIN_TYPE` of linux/netlink.h).
pub const NLMSG_MIN_TYPE: u16 = 16;

/// A message type that a sub-protocol may use.
#[derive(Clone, Copy, Debug, PartialEq, Eq)]
pub struct ProtocolType {
    /// The message type, which is at least `NLMSG_MIN_TYPE`.
    pub number: u16,
    pub ghost own: { 16 ≤ number },
}

impl ProtocolType {
    /// Returns the message type with this number, or `None` if and only if it is less than
    /// `NLMSG_MIN_TYPE`.
    pub fn new(number: u16) -> Option<Self>
        ensures own { IsSome result ↔ (16 ≤ number) }
        ensures number { IfSome result (λ own. own.number ≡ number) }
    {
        if number < NLMSG_MIN_TYPE {
            return None;
        }
        Some(ProtocolType { number })
    }
}
