//! The address families of messages (linux/socket.h, linux/rtnetlink.h).

ghost use Rattle.std.specs.Prelude.{◌≡◌};
ghost use Rattle.netlink_lines.specs.Families.{family_of, is_foreign};

use netlink_route::addresses::RTM_NEWADDR;
use netlink_route::neighbours::RTM_GETNEIGH;

/// The families that the tables of addresses, routes and neighbours describe: `AF_UNSPEC`,
/// `AF_INET`, `AF_BRIDGE`, `AF_INET6`, `AF_MPLS`, `RTNL_FAMILY_IPMR` and `RTNL_FAMILY_IP6MR`.
const DESCRIBED: [u8; 7] = [0, 2, 7, 10, 28, 128, 129];

/// Returns the address family in a payload, its first byte; 0 without one.
pub(crate) fn family_of(payload: &[u8]) -> u8
    ensures { result ≡ family_of payload.now }
{
    match payload {
        [family, ..] => *family,
        [] => 0,
    }
}

/// Returns whether a message with this type and this payload is about an address, a route or a
/// neighbour of another family. An address of MCTP, for one, has one byte.
pub(crate) fn is_foreign(message_type: u16, payload: &[u8]) -> bool
    ensures { result ≡ is_foreign message_type payload.now }
{
    if payload.is_empty() {
        return false;
    }
    let has_family = (RTM_NEWADDR <= message_type) & (message_type <= RTM_GETNEIGH);
    has_family & !DESCRIBED.contains(&payload[0])
}
