//! A table with one kind of each shape that `push` appends.

ghost use Rattle.std.specs.Prelude.{[], false, refl};
ghost use Rattle.netlink_family.specs.Shapes.{named};
ghost use Rattle.netlink_family_tests.specs.declared.shapes.TheConstants.{ROWS, TYPES};

use netlink_family::{ANY, Field, OwnedMessage, Row, Shape, TOP, Table, is_among};

pub const EVERY: u16 = 100;

/// The header of a peer, kind 16.
pub const PEER_INDEX: Field = ("index", 0, Shape::U32);

/// The policy of a list of records, kind 17.
pub const RECORDS: u16 = 1;

const TYPES: &'static [u16] = &[EVERY];

const ROWS: &'static [Row] = &[
    (TOP, 1, "flag", Shape::Flag),
    (TOP, 2, "u8", Shape::U8),
    (TOP, 3, "u16", Shape::U16),
    (TOP, 4, "u32", Shape::U32),
    (TOP, 5, "u64", Shape::U64),
    (TOP, 6, "i32", Shape::I32),
    (TOP, 7, "i64", Shape::I64),
    (TOP, 8, "be16", Shape::Be16),
    (TOP, 9, "be32", Shape::Be32),
    (TOP, 10, "be64", Shape::Be64),
    (TOP, 11, "exact", Shape::ExactLen(2)),
    (TOP, 12, "ip", Shape::Ip),
    (TOP, 13, "nul", Shape::NulStr),
    (TOP, 14, "str", Shape::Str),
    (TOP, 15, "min", Shape::MinLen(1)),
    (
        TOP,
        16,
        "peer",
        Shape::HeaderNested {
            size: 4,
            policy: TOP,
        },
    ),
    (TOP, 17, "records", Shape::Nested(RECORDS)),
    (TOP, 18, "be_i32", Shape::BeI32),
    (TOP, 19, "pairs", Shape::Elements(4)),
    (TOP, 20, "nothings", Shape::Elements(0)),
    (
        RECORDS,
        ANY,
        "",
        Shape::HeaderNested {
            size: 4,
            policy: TOP,
        },
    ),
];

/// The table.
#[derive(Clone, Copy, Debug, PartialEq, Eq)]
pub struct Every;

impl Table for Every {
    ghost types = { TYPES.now };

    ghost header_len = { λ _. 0 };

    ghost short = { λ _. false };

    ghost rows = { λ _. named ROWS.now (λ name. name.now) };

    ghost fields = { λ _. [] };

    fn has(message_type: u16) -> bool {
        is_among(TYPES, message_type)
    }

    fn header_len(_message_type: u16) -> usize {
        0
    }

    fn allows_short(_message_type: u16) -> bool {
        false
    }

    fn rows(_message_type: u16) -> &'static [Row] {
        ROWS
    }

    fn fields(_message_type: u16) -> &'static [Field] {
        &[]
    }

    ghost sorted = { λ _. refl };
}

/// A message of the table, without a header.
pub type EveryMessage = OwnedMessage<Every>;
