//! Next hops that routes refer to by an id, their groups, and the buckets of groups (linux/nexthop.h).

ghost use Rattle.std.specs.Prelude.{◌==◌, ◌||◌, refl};
ghost use Rattle.netlink_family.specs.Shapes.{named, named_fields};
ghost use Rattle.netlink_route.specs.declared.next_hop_objects.TheConstants.{FIELDS, ROWS, RTM_GETNEXTHOP, RTM_GETNEXTHOPBUCKET, TYPES};

use netlink_family::{Family, Field, OwnedMessage, Row, Shape, TOP, Table, is_among};

pub const RTM_NEWNEXTHOP: u16 = 104;

pub const RTM_DELNEXTHOP: u16 = 105;

pub const RTM_GETNEXTHOP: u16 = 106;

pub const RTM_NEWNEXTHOPBUCKET: u16 = 116;

pub const RTM_DELNEXTHOPBUCKET: u16 = 117;

pub const RTM_GETNEXTHOPBUCKET: u16 = 118;

// The fields of `struct nhmsg`.
pub const NH_FAMILY: Field = ("nh_family", 0, Shape::U8);

pub const NH_SCOPE: Field = ("nh_scope", 1, Shape::U8);

pub const NH_PROTOCOL: Field = ("nh_protocol", 2, Shape::U8);

pub const NH_FLAGS: Field = ("nh_flags", 4, Shape::U32);

pub const NHA_ID: u16 = 1;

/// The members of a group, each a `struct nexthop_grp`: the id of the next hop in 4 bytes, the lower and
/// the upper byte of its weight less 1, and two more bytes.
pub const NHA_GROUP: u16 = 2;

pub const NHA_GROUP_TYPE: u16 = 3;

pub const NHA_BLACKHOLE: u16 = 4;

pub const NHA_OIF: u16 = 5;

pub const NHA_GATEWAY: u16 = 6;

pub const NHA_ENCAP_TYPE: u16 = 7;

pub const NHA_ENCAP: u16 = 8;

pub const NHA_GROUPS: u16 = 9;

pub const NHA_MASTER: u16 = 10;

pub const NHA_FDB: u16 = 11;

pub const NHA_RES_GROUP: u16 = 12;

pub const NHA_RES_BUCKET: u16 = 13;

pub const NHA_OP_FLAGS: u16 = 14;

pub const NHA_GROUP_STATS: u16 = 15;

pub const NHA_HW_STATS_ENABLE: u16 = 16;

pub const NHA_HW_STATS_USED: u16 = 17;

/// The policy of `NHA_RES_GROUP`, a resilient group. Its times are in hundredths of a second.
pub const RES_GROUP: u16 = 1;

pub const NHA_RES_GROUP_BUCKETS: u16 = 1;

pub const NHA_RES_GROUP_IDLE_TIMER: u16 = 2;

pub const NHA_RES_GROUP_UNBALANCED_TIMER: u16 = 3;

pub const NHA_RES_GROUP_UNBALANCED_TIME: u16 = 4;

/// The policy of `NHA_RES_BUCKET`, a bucket of such a group. Its time is in hundredths of a second.
pub const RES_BUCKET: u16 = 2;

pub const NHA_RES_BUCKET_INDEX: u16 = 1;

pub const NHA_RES_BUCKET_IDLE_TIME: u16 = 2;

pub const NHA_RES_BUCKET_NH_ID: u16 = 3;

const TYPES: &'static [u16] = &[
    RTM_NEWNEXTHOP,
    RTM_DELNEXTHOP,
    RTM_GETNEXTHOP,
    RTM_NEWNEXTHOPBUCKET,
    RTM_DELNEXTHOPBUCKET,
    RTM_GETNEXTHOPBUCKET,
];

const FIELDS: &'static [Field] = &[NH_FAMILY, NH_SCOPE, NH_PROTOCOL, NH_FLAGS];

// The kernel's `rtm_nh_policy_new`, `rtm_nh_policy_dump`, `nh_fill_node` and `nh_fill_res_bucket`.
// `NHA_ENCAP` stays bytes: its rows are in the table of routes.
const ROWS: &'static [Row] = &[
    (TOP, NHA_ID, "NHA_ID", Shape::U32),
    (TOP, NHA_GROUP, "NHA_GROUP", Shape::Elements(8)),
    (TOP, NHA_GROUP_TYPE, "NHA_GROUP_TYPE", Shape::U16),
    (TOP, NHA_BLACKHOLE, "NHA_BLACKHOLE", Shape::Flag),
    (TOP, NHA_OIF, "NHA_OIF", Shape::U32),
    (TOP, NHA_GATEWAY, "NHA_GATEWAY", Shape::Ip),
    (TOP, NHA_ENCAP_TYPE, "NHA_ENCAP_TYPE", Shape::U16),
    (TOP, NHA_ENCAP, "NHA_ENCAP", Shape::Bytes),
    (TOP, NHA_GROUPS, "NHA_GROUPS", Shape::Flag),
    (TOP, NHA_MASTER, "NHA_MASTER", Shape::U32),
    (TOP, NHA_FDB, "NHA_FDB", Shape::Flag),
    (
        TOP,
        NHA_RES_GROUP,
        "NHA_RES_GROUP",
        Shape::Nested(RES_GROUP),
    ),
    (
        TOP,
        NHA_RES_BUCKET,
        "NHA_RES_BUCKET",
        Shape::Nested(RES_BUCKET),
    ),
    (TOP, NHA_OP_FLAGS, "NHA_OP_FLAGS", Shape::U32),
    (TOP, NHA_GROUP_STATS, "NHA_GROUP_STATS", Shape::Bytes),
    (TOP, NHA_HW_STATS_ENABLE, "NHA_HW_STATS_ENABLE", Shape::U32),
    (TOP, NHA_HW_STATS_USED, "NHA_HW_STATS_USED", Shape::U32),
    (
        RES_GROUP,
        NHA_RES_GROUP_BUCKETS,
        "NHA_RES_GROUP_BUCKETS",
        Shape::U16,
    ),
    (
        RES_GROUP,
        NHA_RES_GROUP_IDLE_TIMER,
        "NHA_RES_GROUP_IDLE_TIMER",
        Shape::U32,
    ),
    (
        RES_GROUP,
        NHA_RES_GROUP_UNBALANCED_TIMER,
        "NHA_RES_GROUP_UNBALANCED_TIMER",
        Shape::U32,
    ),
    (
        RES_GROUP,
        NHA_RES_GROUP_UNBALANCED_TIME,
        "NHA_RES_GROUP_UNBALANCED_TIME",
        Shape::U64,
    ),
    (
        RES_BUCKET,
        NHA_RES_BUCKET_INDEX,
        "NHA_RES_BUCKET_INDEX",
        Shape::U16,
    ),
    (
        RES_BUCKET,
        NHA_RES_BUCKET_IDLE_TIME,
        "NHA_RES_BUCKET_IDLE_TIME",
        Shape::U64,
    ),
    (
        RES_BUCKET,
        NHA_RES_BUCKET_NH_ID,
        "NHA_RES_BUCKET_NH_ID",
        Shape::U32,
    ),
];

/// The family of next hops that have an id.
#[derive(Clone, Copy, Debug, PartialEq, Eq)]
pub struct NextHopObjects;

impl Table for NextHopObjects {
    ghost types = { TYPES.now };

    ghost header_len = { λ _. 8 };

    ghost short = { λ t. t == RTM_GETNEXTHOP || t == RTM_GETNEXTHOPBUCKET };

    ghost rows = { λ _. named ROWS.now (λ name. name.now) };

    ghost fields = { λ _. named_fields FIELDS.now (λ name. name.now) };

    fn has(message_type: u16) -> bool {
        is_among(TYPES, message_type)
    }

    fn header_len(_message_type: u16) -> usize {
        8
    }

    fn allows_short(message_type: u16) -> bool {
        message_type == RTM_GETNEXTHOP || message_type == RTM_GETNEXTHOPBUCKET
    }

    fn rows(_message_type: u16) -> &'static [Row] {
        ROWS
    }

    fn fields(_message_type: u16) -> &'static [Field] {
        FIELDS
    }

    #[tactic(auto, using(netlink_family::specs::PushingLaws::none_choose))]
    fn chooses_shape(_message_type: u16, _kind: u16) -> bool {
        false
    }

    ghost sorted = { λ _. refl };
}

impl Family for NextHopObjects {
    ghost own = { refl };
}

/// A message about a next hop, a group of next hops or a bucket of a group.
pub type NextHopObjectMessage = OwnedMessage<NextHopObjects>;
