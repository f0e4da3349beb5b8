//! A table in which the value of an attribute chooses the shape of another.

ghost use Rattle.std.specs.Prelude.{[], false, refl};
ghost use Rattle.netlink_family.specs.Shapes.{named};
ghost use Rattle.netlink_family_tests.specs.declared.choices.TheConstants.{ROWS, TYPES};

use netlink_family::{Field, OwnedMessage, Row, Shape, TOP, Table, is_among};
use netlink_packet_core::NLA_TYPE_MASK;

pub const CHOOSING: u16 = 101;

/// The kind and the data that it chooses, at the top and in `LINKINFO`.
pub const KIND: u16 = 1;

pub const DATA: u16 = 2;
/// The data that kind 4 chooses.
pub const OTHER_DATA: u16 = 5;
/// `IFLA_LINKINFO`
pub const LINKINFO: u16 = 18;

/// Policies: that of `LINKINFO`, the choices, and what they choose.
pub const INFO: u16 = 1;

pub const CHOICES: u16 = 2;

pub const VLAN: u16 = 3;

pub const VETH: u16 = 4;

const TYPES: &'static [u16] = &[CHOOSING];

const CHOSEN: Shape = Shape::Chosen {
    by: 1,
    policy: CHOICES,
};

const ROWS: &'static [Row] = &[
    (TOP, 1, "kind", Shape::Str),
    (TOP, 2, "data", CHOSEN),
    (TOP, 18, "linkinfo", Shape::Nested(INFO)),
    (INFO, 1, "kind", Shape::Str),
    (INFO, 2, "data", CHOSEN),
    (INFO, 4, "other-kind", Shape::Str),
    (
        INFO,
        5,
        "other-data",
        Shape::Chosen {
            by: 4,
            policy: CHOICES,
        },
    ),
    (CHOICES, 1, "vlan", Shape::Nested(VLAN)),
    (
        CHOICES,
        2,
        "veth",
        Shape::HeaderNested {
            size: 4,
            policy: VETH,
        },
    ),
    (CHOICES, 3, "mark", Shape::U32),
    (VLAN, 1, "id", Shape::U16),
    (VETH, 1, "peer", Shape::U32),
];

/// The table.
#[derive(Clone, Copy, Debug, PartialEq, Eq)]
pub struct Choosing;

impl Table for Choosing {
    ghost types = { TYPES.now };

    ghost header_len = { λ _. 0 };

    ghost short = { λ _. false };

    ghost rows = { λ _. named ROWS.now (λ name. name.now) };

    ghost fields = { λ _. [] };

    fn has(message_type: u16) -> bool {
        is_among(TYPES, message_type)
    }

    fn header_len(_message_type: u16) -> usize {
        0
    }

    fn allows_short(_message_type: u16) -> bool {
        false
    }

    fn rows(_message_type: u16) -> &'static [Row] {
        ROWS
    }

    fn fields(_message_type: u16) -> &'static [Field] {
        &[]
    }

    fn chooses_shape(_message_type: u16, kind: u16) -> bool {
        kind & NLA_TYPE_MASK == KIND
    }

    ghost sorted = { λ _. refl };
}

/// A message of the table, without a header.
pub type ChoosingMessage = OwnedMessage<Choosing>;
