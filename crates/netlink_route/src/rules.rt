//! Routing rules (linux/fib_rules.h).

ghost use Rattle.std.specs.Prelude.{◌==◌, refl};
ghost use Rattle.netlink_family.specs.Shapes.{named, named_fields};
ghost use Rattle.netlink_route.specs.declared.rules.TheConstants.{FIELDS, ROWS, RTM_GETRULE, TYPES};

use netlink_family::{Family, Field, OwnedMessage, Row, Shape, TOP, Table, is_among};

pub const RTM_NEWRULE: u16 = 32;

pub const RTM_DELRULE: u16 = 33;

pub const RTM_GETRULE: u16 = 34;

// The fields of `struct fib_rule_hdr`.
pub const FRH_FAMILY: Field = ("family", 0, Shape::U8);

pub const FRH_DST_LEN: Field = ("dst_len", 1, Shape::U8);

pub const FRH_SRC_LEN: Field = ("src_len", 2, Shape::U8);

pub const FRH_TOS: Field = ("tos", 3, Shape::U8);

pub const FRH_TABLE: Field = ("table", 4, Shape::U8);

pub const FRH_ACTION: Field = ("action", 7, Shape::U8);

pub const FRH_FLAGS: Field = ("flags", 8, Shape::U32);

pub const FRA_DST: u16 = 1;

pub const FRA_SRC: u16 = 2;

pub const FRA_IIFNAME: u16 = 3;

pub const FRA_GOTO: u16 = 4;

pub const FRA_PRIORITY: u16 = 6;

pub const FRA_FWMARK: u16 = 10;

pub const FRA_FLOW: u16 = 11;

pub const FRA_TUN_ID: u16 = 12;

pub const FRA_SUPPRESS_IFGROUP: u16 = 13;

pub const FRA_SUPPRESS_PREFIXLEN: u16 = 14;

pub const FRA_TABLE: u16 = 15;

pub const FRA_FWMASK: u16 = 16;

pub const FRA_OIFNAME: u16 = 17;

pub const FRA_L3MDEV: u16 = 19;

pub const FRA_UID_RANGE: u16 = 20;

pub const FRA_PROTOCOL: u16 = 21;

pub const FRA_IP_PROTO: u16 = 22;

pub const FRA_SPORT_RANGE: u16 = 23;

pub const FRA_DPORT_RANGE: u16 = 24;

pub const FRA_DSCP: u16 = 25;

pub const FRA_FLOWLABEL: u16 = 26;

pub const FRA_FLOWLABEL_MASK: u16 = 27;

pub const FRA_SPORT_MASK: u16 = 28;

pub const FRA_DPORT_MASK: u16 = 29;

pub const FRA_DSCP_MASK: u16 = 30;

const TYPES: &'static [u16] = &[RTM_NEWRULE, RTM_DELRULE, RTM_GETRULE];

const FIELDS: &'static [Field] = &[
    FRH_FAMILY,
    FRH_DST_LEN,
    FRH_SRC_LEN,
    FRH_TOS,
    FRH_TABLE,
    FRH_ACTION,
    FRH_FLAGS,
];

// The kernel's `fib_rule_policy`, `fib_nl2rule` and `fib_nl_fill_rule`. `ip rule add from all` sends
// an address of no bytes.
const ROWS: &'static [Row] = &[
    (TOP, FRA_DST, "FRA_DST", Shape::Bytes),
    (TOP, FRA_SRC, "FRA_SRC", Shape::Bytes),
    (TOP, FRA_IIFNAME, "FRA_IIFNAME", Shape::Str),
    (TOP, FRA_GOTO, "FRA_GOTO", Shape::U32),
    (TOP, 5, "FRA_UNUSED2", Shape::Bytes),
    (TOP, FRA_PRIORITY, "FRA_PRIORITY", Shape::U32),
    (TOP, 7, "FRA_UNUSED3", Shape::Bytes),
    (TOP, 8, "FRA_UNUSED4", Shape::Bytes),
    (TOP, 9, "FRA_UNUSED5", Shape::Bytes),
    (TOP, FRA_FWMARK, "FRA_FWMARK", Shape::U32),
    (TOP, FRA_FLOW, "FRA_FLOW", Shape::U32),
    (TOP, FRA_TUN_ID, "FRA_TUN_ID", Shape::Be64),
    (
        TOP,
        FRA_SUPPRESS_IFGROUP,
        "FRA_SUPPRESS_IFGROUP",
        Shape::U32,
    ),
    (
        TOP,
        FRA_SUPPRESS_PREFIXLEN,
        "FRA_SUPPRESS_PREFIXLEN",
        Shape::U32,
    ),
    (TOP, FRA_TABLE, "FRA_TABLE", Shape::U32),
    (TOP, FRA_FWMASK, "FRA_FWMASK", Shape::U32),
    (TOP, FRA_OIFNAME, "FRA_OIFNAME", Shape::Str),
    (TOP, 18, "FRA_PAD", Shape::Bytes),
    (TOP, FRA_L3MDEV, "FRA_L3MDEV", Shape::U8),
    (TOP, FRA_UID_RANGE, "FRA_UID_RANGE", Shape::MinLen(8)),
    (TOP, FRA_PROTOCOL, "FRA_PROTOCOL", Shape::U8),
    (TOP, FRA_IP_PROTO, "FRA_IP_PROTO", Shape::U8),
    (TOP, FRA_SPORT_RANGE, "FRA_SPORT_RANGE", Shape::MinLen(4)),
    (TOP, FRA_DPORT_RANGE, "FRA_DPORT_RANGE", Shape::MinLen(4)),
    (TOP, FRA_DSCP, "FRA_DSCP", Shape::U8),
    (TOP, FRA_FLOWLABEL, "FRA_FLOWLABEL", Shape::Be32),
    (TOP, FRA_FLOWLABEL_MASK, "FRA_FLOWLABEL_MASK", Shape::Be32),
    (TOP, FRA_SPORT_MASK, "FRA_SPORT_MASK", Shape::U16),
    (TOP, FRA_DPORT_MASK, "FRA_DPORT_MASK", Shape::U16),
    (TOP, FRA_DSCP_MASK, "FRA_DSCP_MASK", Shape::U8),
];

/// The family of routing rules.
#[derive(Clone, Copy, Debug, PartialEq, Eq)]
pub struct Rules;

impl Table for Rules {
    ghost types = { TYPES.now };

    ghost header_len = { λ _. 12 };

    ghost short = { λ t. t == RTM_GETRULE };

    ghost rows = { λ _. named ROWS.now (λ name. name.now) };

    ghost fields = { λ _. named_fields FIELDS.now (λ name. name.now) };

    fn has(message_type: u16) -> bool {
        is_among(TYPES, message_type)
    }

    fn header_len(_message_type: u16) -> usize {
        12
    }

    fn allows_short(message_type: u16) -> bool {
        message_type == RTM_GETRULE
    }

    fn rows(_message_type: u16) -> &'static [Row] {
        ROWS
    }

    fn fields(_message_type: u16) -> &'static [Field] {
        FIELDS
    }

    #[tactic(auto, using(netlink_family::specs::PushingLaws::none_choose))]
    fn chooses_shape(_message_type: u16, _kind: u16) -> bool {
        false
    }

    ghost sorted = { λ _. refl };
}

impl Family for Rules {
    ghost own = { refl };
}

/// A message about a routing rule.
pub type RuleMessage = OwnedMessage<Rules>;
