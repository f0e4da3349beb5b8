//! Neighbour tables (linux/rtnetlink.h, linux/neighbour.h).

ghost use Rattle.std.specs.Prelude.{false, refl};
ghost use Rattle.netlink_family.specs.Shapes.{named, named_fields};
ghost use Rattle.netlink_family_tests.specs.declared.tables.TheConstants.{FIELDS, ROWS, TYPES};

use netlink_family::{Family, Field, OwnedMessage, Row, Shape, TOP, Table, is_among};

pub const RTM_NEWNEIGHTBL: u16 = 64;

pub const RTM_GETNEIGHTBL: u16 = 66;

pub const RTM_SETNEIGHTBL: u16 = 67;

pub const NDTM_FAMILY: Field = ("ndtm_family", 0, Shape::U8);

pub const NDTA_NAME: u16 = 1;

pub const NDTA_THRESH1: u16 = 2;

pub const NDTA_THRESH2: u16 = 3;

pub const NDTA_THRESH3: u16 = 4;

pub const NDTA_CONFIG: u16 = 5;

pub const NDTA_PARMS: u16 = 6;

pub const NDTA_STATS: u16 = 7;

pub const NDTA_GC_INTERVAL: u16 = 8;

/// The policy of `NDTA_PARMS`.
pub const PARMS: u16 = 1;

pub const NDTPA_IFINDEX: u16 = 1;

pub const NDTPA_REFCNT: u16 = 2;

pub const NDTPA_REACHABLE_TIME: u16 = 3;

const TYPES: &'static [u16] = &[RTM_NEWNEIGHTBL, RTM_GETNEIGHTBL, RTM_SETNEIGHTBL];

const FIELDS: &'static [Field] = &[NDTM_FAMILY];

const ROWS: &'static [Row] = &[
    (TOP, NDTA_NAME, "NDTA_NAME", Shape::NulStr),
    (TOP, NDTA_THRESH1, "NDTA_THRESH1", Shape::U32),
    (TOP, NDTA_THRESH2, "NDTA_THRESH2", Shape::U32),
    (TOP, NDTA_THRESH3, "NDTA_THRESH3", Shape::U32),
    (TOP, NDTA_CONFIG, "NDTA_CONFIG", Shape::ExactLen(32)),
    (TOP, NDTA_PARMS, "NDTA_PARMS", Shape::Nested(PARMS)),
    (TOP, NDTA_STATS, "NDTA_STATS", Shape::ExactLen(88)),
    (TOP, NDTA_GC_INTERVAL, "NDTA_GC_INTERVAL", Shape::U64),
    (PARMS, NDTPA_IFINDEX, "NDTPA_IFINDEX", Shape::U32),
    (PARMS, NDTPA_REFCNT, "NDTPA_REFCNT", Shape::U32),
    (
        PARMS,
        NDTPA_REACHABLE_TIME,
        "NDTPA_REACHABLE_TIME",
        Shape::U64,
    ),
];

/// The family of neighbour tables.
#[derive(Clone, Copy, Debug, PartialEq, Eq)]
pub struct NeighbourTables;

impl Table for NeighbourTables {
    ghost types = { TYPES.now };

    ghost header_len = { λ _. 4 };

    ghost short = { λ _. false };

    ghost rows = { λ _. named ROWS.now (λ name. name.now) };

    ghost fields = { λ _. named_fields FIELDS.now (λ name. name.now) };

    fn has(message_type: u16) -> bool {
        is_among(TYPES, message_type)
    }

    fn header_len(_message_type: u16) -> usize {
        4
    }

    fn allows_short(_message_type: u16) -> bool {
        false
    }

    fn rows(_message_type: u16) -> &'static [Row] {
        ROWS
    }

    fn fields(_message_type: u16) -> &'static [Field] {
        FIELDS
    }

    ghost sorted = { λ _. refl };
}

impl Family for NeighbourTables {
    ghost own = { refl };
}

/// A message about a neighbour table.
pub type NeighbourTableMessage = OwnedMessage<NeighbourTables>;
