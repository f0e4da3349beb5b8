//! A table in which a number, the value of an attribute, chooses the shape of another.

ghost use Rattle.std.specs.Prelude.{[], false, refl};
ghost use Rattle.netlink_family.specs.Shapes.{named};
ghost use Rattle.netlink_family_tests.specs.declared.numbered.TheConstants.{ROWS, TYPES};

use netlink_family::{Field, OwnedMessage, Row, Shape, TOP, Table, is_among};

pub const NUMBERED: u16 = 102;

/// The kind whose number chooses, and the data that it chooses, as `RTA_ENCAP_TYPE` does `RTA_ENCAP`.
pub const TYPE: u16 = 21;

pub const DATA: u16 = 22;

/// The same with a big-endian number, with one of 4 bytes, and with a string.
pub const BIG: u16 = 23;

pub const BIG_DATA: u16 = 24;

pub const LONG: u16 = 25;

pub const LONG_DATA: u16 = 26;

pub const WORD: u16 = 27;

pub const WORD_DATA: u16 = 28;

/// Policies: the choices, and what they choose.
pub const CHOICES: u16 = 1;

pub const LABELS: u16 = 2;

const TYPES: &'static [u16] = &[NUMBERED];

const ROWS: &'static [Row] = &[
    (TOP, 21, "type", Shape::U16),
    (
        TOP,
        22,
        "data",
        Shape::ChosenByNumber {
            by: 21,
            policy: CHOICES,
        },
    ),
    (TOP, 23, "big", Shape::Be16),
    (
        TOP,
        24,
        "big-data",
        Shape::ChosenByNumber {
            by: 23,
            policy: CHOICES,
        },
    ),
    (TOP, 25, "long", Shape::U32),
    (
        TOP,
        26,
        "long-data",
        Shape::ChosenByNumber {
            by: 25,
            policy: CHOICES,
        },
    ),
    (TOP, 27, "word", Shape::Str),
    (
        TOP,
        28,
        "word-data",
        Shape::ChosenByNumber {
            by: 27,
            policy: CHOICES,
        },
    ),
    (CHOICES, 0, "zero", Shape::Flag),
    (CHOICES, 1, "labels", Shape::Nested(LABELS)),
    (CHOICES, 300, "mark", Shape::U32),
    (LABELS, 1, "label", Shape::U16),
];

/// The table.
#[derive(Clone, Copy, Debug, PartialEq, Eq)]
pub struct Numbering;

impl Table for Numbering {
    ghost types = { TYPES.now };

    ghost header_len = { λ _. 0 };

    ghost short = { λ _. false };

    ghost rows = { λ _. named ROWS.now (λ name. name.now) };

    ghost fields = { λ _. [] };

    fn has(message_type: u16) -> bool {
        is_among(TYPES, message_type)
    }

    fn header_len(_message_type: u16) -> usize {
        0
    }

    fn allows_short(_message_type: u16) -> bool {
        false
    }

    fn rows(_message_type: u16) -> &'static [Row] {
        ROWS
    }

    fn fields(_message_type: u16) -> &'static [Field] {
        &[]
    }

    ghost sorted = { λ _. refl };
}

/// A message of the table, without a header.
pub type NumberedMessage = OwnedMessage<Numbering>;
