//! Routing rules (linux/fib_rules.h).

ghost use Rattle.std.specs.Prelude.{false, refl};
ghost use Rattle.netlink_family.specs.Shapes.{named, named_fields};
ghost use Rattle.netlink_family_tests.specs.declared.rules.TheConstants.{FIELDS, ROWS, TYPES};

use netlink_family::{ANY, Family, Field, Row, Shape, TOP, Table, is_among};

pub const RTM_NEWRULE: u16 = 32;

pub const RTM_DELRULE: u16 = 33;

pub const RTM_GETRULE: u16 = 34;

// Fields of `struct fib_rule_hdr`.
pub const FRH_FAMILY: Field = ("family", 0, Shape::U8);

pub const FRH_TABLE: Field = ("table", 4, Shape::U8);

pub const FRH_ACTION: Field = ("action", 7, Shape::U8);

pub const FRH_FLAGS: Field = ("flags", 8, Shape::U32);

pub const FRA_DST: u16 = 1;

pub const FRA_IIFNAME: u16 = 3;

pub const FRA_PRIORITY: u16 = 6;

pub const FRA_TUN_ID: u16 = 12;

pub const FRA_L3MDEV: u16 = 19;

/// A list of marks, which the kernel does not have: an example of a list.
pub const FRA_MARKS: u16 = 0x3000;

/// The policies of `FRA_MARKS` and of its elements.
pub const MARKS: u16 = 1;

pub const MARK: u16 = 2;

pub const MARK_VALUE: u16 = 1;

pub const MARK_REST: u16 = 2;

pub const MARK_OFFSET: u16 = 3;

pub const MARK_INNER: u16 = 4;

const TYPES: &'static [u16] = &[RTM_NEWRULE, RTM_DELRULE, RTM_GETRULE];

const FIELDS: &'static [Field] = &[FRH_FAMILY, FRH_TABLE, FRH_ACTION, FRH_FLAGS];

const ROWS: &'static [Row] = &[
    (TOP, FRA_DST, "FRA_DST", Shape::Ip),
    (TOP, FRA_IIFNAME, "FRA_IIFNAME", Shape::Str),
    (TOP, FRA_PRIORITY, "FRA_PRIORITY", Shape::U32),
    (TOP, FRA_TUN_ID, "FRA_TUN_ID", Shape::Be64),
    (TOP, FRA_L3MDEV, "FRA_L3MDEV", Shape::U8),
    (TOP, FRA_MARKS, "FRA_MARKS", Shape::Nested(MARKS)),
    (MARKS, ANY, "", Shape::Nested(MARK)),
    (MARK, MARK_VALUE, "MARK_VALUE", Shape::U32),
    (MARK, MARK_REST, "MARK_REST", Shape::MinLen(2)),
    (MARK, MARK_OFFSET, "MARK_OFFSET", Shape::I64),
    (MARK, MARK_INNER, "MARK_INNER", Shape::Nested(MARK)),
];

/// The family of rules.
#[derive(Clone, Copy, Debug, PartialEq, Eq)]
pub struct Rules;

impl Table for Rules {
    ghost types = { TYPES.now };

    ghost header_len = { λ _. 12 };

    ghost short = { λ _. false };

    ghost rows = { λ _. named ROWS.now (λ name. name.now) };

    ghost fields = { λ _. named_fields FIELDS.now (λ name. name.now) };

    fn has(message_type: u16) -> bool {
        is_among(TYPES, message_type)
    }

    fn header_len(_message_type: u16) -> usize {
        12
    }

    fn allows_short(_message_type: u16) -> bool {
        false
    }

    fn rows(_message_type: u16) -> &'static [Row] {
        ROWS
    }

    fn fields(_message_type: u16) -> &'static [Field] {
        FIELDS
    }

    ghost sorted = { λ _. refl };
}

impl Family for Rules {
    ghost own = { refl };
}
