//! Actions of traffic control (linux/rtnetlink.h, linux/pkt_cls.h).

ghost use Rattle.std.specs.Prelude.{◌==◌, refl};
ghost use Rattle.netlink_family.specs.Shapes.{named, named_fields};
ghost use Rattle.netlink_route.specs.declared.traffic_actions.TheConstants.{FIELDS, ROWS, RTM_GETACTION, TYPES};

use crate::traffic_control::{
    STATISTICS, TCA_STATS_APP, TCA_STATS_BASIC, TCA_STATS_BASIC_HW, TCA_STATS_PKT64,
    TCA_STATS_QUEUE, TCA_STATS_RATE_EST, TCA_STATS_RATE_EST64,
};
use netlink_family::{ANY, Family, Field, OwnedMessage, Row, Shape, TOP, Table, is_among};

pub const RTM_NEWACTION: u16 = 48;

pub const RTM_DELACTION: u16 = 49;

pub const RTM_GETACTION: u16 = 50;

// The field of `struct tcamsg`.
pub const TCA_FAMILY: Field = ("tca_family", 0, Shape::U8);

pub const TCA_ROOT_TAB: u16 = 1;

pub const TCA_ROOT_FLAGS: u16 = 2;

pub const TCA_ROOT_COUNT: u16 = 3;

pub const TCA_ROOT_TIME_DELTA: u16 = 4;

pub const TCA_ROOT_EXT_WARN_MSG: u16 = 5;

/// The policy of `TCA_ROOT_TAB`, a list of actions. The kind of each is its number in the list.
pub const ACTIONS: u16 = 2;

/// The policy of an action in that list.
pub const ACTION: u16 = 3;

pub const TCA_ACT_KIND: u16 = 1;

pub const TCA_ACT_OPTIONS: u16 = 2;

pub const TCA_ACT_INDEX: u16 = 3;

pub const TCA_ACT_STATS: u16 = 4;

pub const TCA_ACT_COOKIE: u16 = 6;

pub const TCA_ACT_FLAGS: u16 = 7;

pub const TCA_ACT_HW_STATS: u16 = 8;

pub const TCA_ACT_USED_HW_STATS: u16 = 9;

pub const TCA_ACT_IN_HW_COUNT: u16 = 10;

const TYPES: &'static [u16] = &[RTM_NEWACTION, RTM_DELACTION, RTM_GETACTION];

const FIELDS: &'static [Field] = &[TCA_FAMILY];

// The kernel's `tcaa_policy`, `tcf_action_policy`, `tca_get_fill` and `tcf_action_dump_1`. `STATISTICS`
// has the rows that it has in the table of traffic control. In the message about the removal of all
// actions of a kind, the kind of the cookie is `TCA_FCNT`, a `u32`. Each row has one line, which `rt fmt`
// would break.
#[rattlefmt::skip]
const ROWS: &'static [Row] = &[
    (TOP, TCA_ROOT_TAB, "TCA_ROOT_TAB", Shape::Nested(ACTIONS)),
    (TOP, TCA_ROOT_FLAGS, "TCA_ROOT_FLAGS", Shape::ExactLen(8)),
    (TOP, TCA_ROOT_COUNT, "TCA_ROOT_COUNT", Shape::U32),
    (TOP, TCA_ROOT_TIME_DELTA, "TCA_ROOT_TIME_DELTA", Shape::U32),
    (TOP, TCA_ROOT_EXT_WARN_MSG, "TCA_ROOT_EXT_WARN_MSG", Shape::Str),
    (STATISTICS, TCA_STATS_BASIC, "TCA_STATS_BASIC", Shape::MinLen(12)),
    (STATISTICS, TCA_STATS_RATE_EST, "TCA_STATS_RATE_EST", Shape::MinLen(8)),
    (STATISTICS, TCA_STATS_QUEUE, "TCA_STATS_QUEUE", Shape::MinLen(20)),
    (STATISTICS, TCA_STATS_APP, "TCA_STATS_APP", Shape::Bytes),
    (STATISTICS, TCA_STATS_RATE_EST64, "TCA_STATS_RATE_EST64", Shape::MinLen(16)),
    (STATISTICS, 6, "TCA_STATS_PAD", Shape::Bytes),
    (STATISTICS, TCA_STATS_BASIC_HW, "TCA_STATS_BASIC_HW", Shape::MinLen(12)),
    (STATISTICS, TCA_STATS_PKT64, "TCA_STATS_PKT64", Shape::U64),
    (ACTIONS, ANY, "", Shape::Nested(ACTION)),
    (ACTION, TCA_ACT_KIND, "TCA_ACT_KIND", Shape::Str),
    (ACTION, TCA_ACT_OPTIONS, "TCA_ACT_OPTIONS", Shape::Bytes),
    (ACTION, TCA_ACT_INDEX, "TCA_ACT_INDEX", Shape::U32),
    (ACTION, TCA_ACT_STATS, "TCA_ACT_STATS", Shape::Nested(STATISTICS)),
    (ACTION, 5, "TCA_ACT_PAD", Shape::Bytes),
    (ACTION, TCA_ACT_COOKIE, "TCA_ACT_COOKIE", Shape::Bytes),
    (ACTION, TCA_ACT_FLAGS, "TCA_ACT_FLAGS", Shape::ExactLen(8)),
    (ACTION, TCA_ACT_HW_STATS, "TCA_ACT_HW_STATS", Shape::ExactLen(8)),
    (ACTION, TCA_ACT_USED_HW_STATS, "TCA_ACT_USED_HW_STATS", Shape::ExactLen(8)),
    (ACTION, TCA_ACT_IN_HW_COUNT, "TCA_ACT_IN_HW_COUNT", Shape::U32),
];

/// The family of actions of traffic control.
#[derive(Clone, Copy, Debug, PartialEq, Eq)]
pub struct TrafficActions;

impl Table for TrafficActions {
    ghost types = { TYPES.now };

    ghost header_len = { λ _. 4 };

    ghost short = { λ t. t == RTM_GETACTION };

    ghost rows = { λ _. named ROWS.now (λ name. name.now) };

    ghost fields = { λ _. named_fields FIELDS.now (λ name. name.now) };

    fn has(message_type: u16) -> bool {
        is_among(TYPES, message_type)
    }

    fn header_len(_message_type: u16) -> usize {
        4
    }

    fn allows_short(message_type: u16) -> bool {
        message_type == RTM_GETACTION
    }

    fn rows(_message_type: u16) -> &'static [Row] {
        ROWS
    }

    fn fields(_message_type: u16) -> &'static [Field] {
        FIELDS
    }

    #[tactic(auto, using(netlink_family::specs::PushingLaws::none_choose))]
    fn chooses_shape(_message_type: u16, _kind: u16) -> bool {
        false
    }

    ghost sorted = { λ _. refl };
}

impl Family for TrafficActions {
    ghost own = { refl };
}

/// A message about actions.
pub type TrafficActionMessage = OwnedMessage<TrafficActions>;
