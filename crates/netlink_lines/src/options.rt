//! What is printed besides the lines.

ghost use Rattle.std.specs.Prelude.{◌≡◌, ◌++◌, IfOk, string_bytes};
ghost use Rattle.netlink_lines.specs.Options.{label_in, label_of};

use crate::families::family_of;
use netlink_route_lines::multicast::is_multicast;
use std::alloc::{AllocError, Global};

/// What a run prints besides the lines of the messages.
#[derive(Clone, Copy, Debug, PartialEq, Eq)]
pub struct Options {
    /// Whether a label, such as `[LINK]`, precedes the line of a message, as with `ip monitor label`
    /// and `bridge monitor all`.
    pub labels: bool,
    /// Whether the time of a packet precedes each of its messages.
    pub times: bool,
    /// Whether the bytes of a message follow its line, one line per field.
    pub bytes: bool,
    /// Whether an object of JSON takes the place of the lines of a message. Labels and bytes are not
    /// printed then.
    pub json: bool,
}

/// The group of the types of routes.
const ROUTES: u16 = 6;

/// Returns the line of a message with this type and this payload after its label.
pub(crate) fn labelled(
    alloc: Global,
    message_type: u16,
    payload: &[u8],
    line: &str,
) -> Result<String, AllocError>
    ensures { IfOk result (λ text. string_bytes text ≡ label_of message_type payload.now ++ line.now) }
{
    let label = label_of(message_type, payload);
    format!(in alloc; "{label}{line}")
}

/// Returns the label of a message with this type and this payload: that of its group of types, except
/// that routes of multicast routing have their own.
fn label_of(message_type: u16, payload: &[u8]) -> &'static str
    ensures { result.now ≡ label_of message_type payload.now }
{
    let group = message_type / 4;
    if (group == ROUTES) & is_multicast(family_of(payload)) {
        return "[MROUTE]";
    }
    label_in(group)
}

/// Returns the label of a group of four types (`RTM_BASE` of linux/rtnetlink.h): that of `ip`, or of
/// `bridge`. Neighbour tables and traffic control have none.
fn label_in(group: u16) -> &'static str
    ensures { result.now ≡ label_in group }
{
    match group {
        4 => "[LINK]",
        5 => "[ADDR]",
        6 => "[ROUTE]",
        7 => "[NEIGH]",
        8 => "[RULE]",
        13 => "[PREFIX]",
        20 => "[NETCONF]",
        21 => "[MDB]",
        22 => "[NSID]",
        23 => "[STATS]",
        26 => "[NEXTHOP]",
        28 => "[VLAN]",
        29 => "[NEXTHOPBUCKET]",
        30 => "[TUNNEL]",
        _ => "",
    }
}
