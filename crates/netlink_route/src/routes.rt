//! Routes (linux/rtnetlink.h).

ghost use Rattle.std.specs.Prelude.{◌==◌, refl};
ghost use Rattle.netlink_family.specs.Shapes.{named, named_fields};
ghost use Rattle.netlink_route.specs.declared.route_rows.TheConstants.{ROWS};
ghost use Rattle.netlink_route.specs.declared.routes.TheConstants.{FIELDS, RTM_GETROUTE, TYPES};

use crate::route_rows::ROWS;
use netlink_family::{Family, Field, OwnedMessage, Row, Shape, Table, is_among};
use netlink_packet_core::NLA_TYPE_MASK;

pub const RTM_NEWROUTE: u16 = 24;

pub const RTM_DELROUTE: u16 = 25;

pub const RTM_GETROUTE: u16 = 26;

// The fields of `struct rtmsg`.
pub const RTM_FAMILY: Field = ("rtm_family", 0, Shape::U8);

pub const RTM_DST_LEN: Field = ("rtm_dst_len", 1, Shape::U8);

pub const RTM_SRC_LEN: Field = ("rtm_src_len", 2, Shape::U8);

pub const RTM_TOS: Field = ("rtm_tos", 3, Shape::U8);

pub const RTM_TABLE: Field = ("rtm_table", 4, Shape::U8);

pub const RTM_PROTOCOL: Field = ("rtm_protocol", 5, Shape::U8);

pub const RTM_SCOPE: Field = ("rtm_scope", 6, Shape::U8);

pub const RTM_TYPE: Field = ("rtm_type", 7, Shape::U8);

pub const RTM_FLAGS: Field = ("rtm_flags", 8, Shape::U32);

pub const RTA_DST: u16 = 1;

pub const RTA_SRC: u16 = 2;

pub const RTA_IIF: u16 = 3;

pub const RTA_OIF: u16 = 4;

pub const RTA_GATEWAY: u16 = 5;

pub const RTA_PRIORITY: u16 = 6;

pub const RTA_PREFSRC: u16 = 7;

pub const RTA_METRICS: u16 = 8;

pub const RTA_MULTIPATH: u16 = 9;

pub const RTA_FLOW: u16 = 11;

pub const RTA_CACHEINFO: u16 = 12;

pub const RTA_TABLE: u16 = 15;

pub const RTA_MARK: u16 = 16;

pub const RTA_MFC_STATS: u16 = 17;

pub const RTA_VIA: u16 = 18;

pub const RTA_NEWDST: u16 = 19;

pub const RTA_PREF: u16 = 20;

pub const RTA_ENCAP_TYPE: u16 = 21;

pub const RTA_ENCAP: u16 = 22;

pub const RTA_EXPIRES: u16 = 23;

pub const RTA_UID: u16 = 25;

pub const RTA_TTL_PROPAGATE: u16 = 26;

pub const RTA_IP_PROTO: u16 = 27;

pub const RTA_SPORT: u16 = 28;

pub const RTA_DPORT: u16 = 29;

pub const RTA_NH_ID: u16 = 30;

/// The policy of `RTA_METRICS`.
pub const METRICS: u16 = 1;

pub const RTAX_LOCK: u16 = 1;

pub const RTAX_MTU: u16 = 2;

pub const RTAX_WINDOW: u16 = 3;

pub const RTAX_RTT: u16 = 4;

pub const RTAX_RTTVAR: u16 = 5;

pub const RTAX_SSTHRESH: u16 = 6;

pub const RTAX_CWND: u16 = 7;

pub const RTAX_ADVMSS: u16 = 8;

pub const RTAX_REORDERING: u16 = 9;

pub const RTAX_HOPLIMIT: u16 = 10;

pub const RTAX_INITCWND: u16 = 11;

pub const RTAX_FEATURES: u16 = 12;

pub const RTAX_RTO_MIN: u16 = 13;

pub const RTAX_INITRWND: u16 = 14;

pub const RTAX_QUICKACK: u16 = 15;

pub const RTAX_CC_ALGO: u16 = 16;

pub const RTAX_FASTOPEN_NO_COOKIE: u16 = 17;

/// The policy of `RTA_MULTIPATH`, a list of `struct rtnexthop`. Like an attribute, each begins with its
/// length and starts at a multiple of 4. So each is read as an attribute, whose kind is
/// `rtnh_flags + 256 * rtnh_hops`, and whose value is `rtnh_ifindex` and attributes of a route. `NextHops`
/// yields them.
pub const NEXT_HOPS: u16 = 2;

/// The field of a next hop's value before its attributes.
pub const RTNH_IFINDEX: Field = ("rtnh_ifindex", 0, Shape::I32);

const TYPES: &'static [u16] = &[RTM_NEWROUTE, RTM_DELROUTE, RTM_GETROUTE];

const FIELDS: &'static [Field] = &[
    RTM_FAMILY,
    RTM_DST_LEN,
    RTM_SRC_LEN,
    RTM_TOS,
    RTM_TABLE,
    RTM_PROTOCOL,
    RTM_SCOPE,
    RTM_TYPE,
    RTM_FLAGS,
];

/// The family of routes.
#[derive(Clone, Copy, Debug, PartialEq, Eq)]
pub struct Routes;

impl Table for Routes {
    ghost types = { TYPES.now };

    ghost header_len = { λ _. 12 };

    ghost short = { λ t. t == RTM_GETROUTE };

    ghost rows = { λ _. named ROWS.now (λ name. name.now) };

    ghost fields = { λ _. named_fields FIELDS.now (λ name. name.now) };

    fn has(message_type: u16) -> bool {
        is_among(TYPES, message_type)
    }

    fn header_len(_message_type: u16) -> usize {
        12
    }

    fn allows_short(message_type: u16) -> bool {
        message_type == RTM_GETROUTE
    }

    fn rows(_message_type: u16) -> &'static [Row] {
        ROWS
    }

    fn fields(_message_type: u16) -> &'static [Field] {
        FIELDS
    }

    fn chooses_shape(_message_type: u16, kind: u16) -> bool {
        kind & NLA_TYPE_MASK == RTA_ENCAP_TYPE
    }

    ghost sorted = { λ _. refl };
}

impl Family for Routes {
    ghost own = { refl };
}

/// A message about a route.
pub type RouteEntryMessage = OwnedMessage<Routes>;
