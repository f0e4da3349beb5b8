//! The attributes of extended acknowledgements as a table (linux/netlink.h).

ghost use Rattle.std.specs.Prelude.{false, refl};
ghost use Rattle.netlink_family.specs.Shapes.{named, named_fields};
ghost use Rattle.netlink_lines.specs.declared.ack_table.TheConstants.{FIELDS, ROWS, TYPES};

use netlink_family::{Field, Row, Shape, TOP, Table, is_among};
use netlink_packet_core::{NLMSG_DONE, NLMSG_ERROR};

/// The policy of `NLMSGERR_ATTR_POLICY`.
const POLICY: u16 = 1;

const TYPES: &'static [u16] = &[NLMSG_ERROR, NLMSG_DONE];

const FIELDS: &'static [Field] = &[];

// `enum nlmsgerr_attrs` and `enum netlink_policy_type_attr`.
const ROWS: &'static [Row] = &[
    (TOP, 1, "NLMSGERR_ATTR_MSG", Shape::Str),
    (TOP, 2, "NLMSGERR_ATTR_OFFS", Shape::U32),
    (TOP, 3, "NLMSGERR_ATTR_COOKIE", Shape::Bytes),
    (TOP, 4, "NLMSGERR_ATTR_POLICY", Shape::Nested(POLICY)),
    (TOP, 5, "NLMSGERR_ATTR_MISS_TYPE", Shape::U32),
    (TOP, 6, "NLMSGERR_ATTR_MISS_NEST", Shape::U32),
    (POLICY, 1, "NL_POLICY_TYPE_ATTR_TYPE", Shape::U32),
    (POLICY, 2, "NL_POLICY_TYPE_ATTR_MIN_VALUE_S", Shape::I64),
    (POLICY, 3, "NL_POLICY_TYPE_ATTR_MAX_VALUE_S", Shape::I64),
    (POLICY, 4, "NL_POLICY_TYPE_ATTR_MIN_VALUE_U", Shape::U64),
    (POLICY, 5, "NL_POLICY_TYPE_ATTR_MAX_VALUE_U", Shape::U64),
    (POLICY, 6, "NL_POLICY_TYPE_ATTR_MIN_LENGTH", Shape::U32),
    (POLICY, 7, "NL_POLICY_TYPE_ATTR_MAX_LENGTH", Shape::U32),
    (POLICY, 8, "NL_POLICY_TYPE_ATTR_POLICY_IDX", Shape::U32),
    (POLICY, 9, "NL_POLICY_TYPE_ATTR_POLICY_MAXTYPE", Shape::U32),
    (
        POLICY,
        10,
        "NL_POLICY_TYPE_ATTR_BITFIELD32_MASK",
        Shape::U32,
    ),
    (POLICY, 11, "NL_POLICY_TYPE_ATTR_PAD", Shape::Bytes),
    (POLICY, 12, "NL_POLICY_TYPE_ATTR_MASK", Shape::U64),
];

/// What a message says of a request. The fields before the attributes are not a part of the table.
pub(crate) struct Acknowledgements;

impl Table for Acknowledgements {
    ghost types = { TYPES.now };

    ghost header_len = { λ _. 0 };

    ghost short = { λ _. false };

    ghost rows = { λ _. named ROWS.now (λ name. name.now) };

    ghost fields = { λ _. named_fields FIELDS.now (λ name. name.now) };

    fn has(message_type: u16) -> bool {
        is_among(TYPES, message_type)
    }

    fn header_len(_message_type: u16) -> usize {
        0
    }

    fn allows_short(_message_type: u16) -> bool {
        false
    }

    fn rows(_message_type: u16) -> &'static [Row] {
        ROWS
    }

    fn fields(_message_type: u16) -> &'static [Field] {
        FIELDS
    }

    ghost sorted = { λ _. refl };
}
