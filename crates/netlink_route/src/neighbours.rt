//! Neighbours (linux/rtnetlink.h, linux/neighbour.h).

ghost use Rattle.std.specs.Prelude.{◌==◌, refl};
ghost use Rattle.netlink_family.specs.Shapes.{named, named_fields};
ghost use Rattle.netlink_route.specs.declared.neighbours.TheConstants.{FIELDS, ROWS, RTM_GETNEIGH, TYPES};

use netlink_family::{Family, Field, OwnedMessage, Row, Shape, TOP, Table, is_among};

pub const RTM_NEWNEIGH: u16 = 28;

pub const RTM_DELNEIGH: u16 = 29;

pub const RTM_GETNEIGH: u16 = 30;

// The fields of `struct ndmsg`.
pub const NDM_FAMILY: Field = ("ndm_family", 0, Shape::U8);

pub const NDM_IFINDEX: Field = ("ndm_ifindex", 4, Shape::I32);

pub const NDM_STATE: Field = ("ndm_state", 8, Shape::U16);

pub const NDM_FLAGS: Field = ("ndm_flags", 10, Shape::U8);

pub const NDM_TYPE: Field = ("ndm_type", 11, Shape::U8);

pub const NDA_DST: u16 = 1;

pub const NDA_LLADDR: u16 = 2;

pub const NDA_CACHEINFO: u16 = 3;

pub const NDA_PROBES: u16 = 4;

pub const NDA_VLAN: u16 = 5;

pub const NDA_PORT: u16 = 6;

pub const NDA_VNI: u16 = 7;

pub const NDA_IFINDEX: u16 = 8;

pub const NDA_MASTER: u16 = 9;

pub const NDA_LINK_NETNSID: u16 = 10;

pub const NDA_SRC_VNI: u16 = 11;

pub const NDA_PROTOCOL: u16 = 12;

pub const NDA_NH_ID: u16 = 13;

pub const NDA_FDB_EXT_ATTRS: u16 = 14;

pub const NDA_FLAGS_EXT: u16 = 15;

pub const NDA_NDM_STATE_MASK: u16 = 16;

pub const NDA_NDM_FLAGS_MASK: u16 = 17;

const TYPES: &'static [u16] = &[RTM_NEWNEIGH, RTM_DELNEIGH, RTM_GETNEIGH];

const FIELDS: &'static [Field] = &[NDM_FAMILY, NDM_IFINDEX, NDM_STATE, NDM_FLAGS, NDM_TYPE];

// The kernel's `nda_policy`, `neigh_fill_info` and `vxlan_fdb_info`.
const ROWS: &'static [Row] = &[
    (TOP, NDA_DST, "NDA_DST", Shape::Ip),
    (TOP, NDA_LLADDR, "NDA_LLADDR", Shape::Bytes),
    (TOP, NDA_CACHEINFO, "NDA_CACHEINFO", Shape::MinLen(16)),
    (TOP, NDA_PROBES, "NDA_PROBES", Shape::U32),
    (TOP, NDA_VLAN, "NDA_VLAN", Shape::U16),
    (TOP, NDA_PORT, "NDA_PORT", Shape::Be16),
    (TOP, NDA_VNI, "NDA_VNI", Shape::U32),
    (TOP, NDA_IFINDEX, "NDA_IFINDEX", Shape::U32),
    (TOP, NDA_MASTER, "NDA_MASTER", Shape::U32),
    (TOP, NDA_LINK_NETNSID, "NDA_LINK_NETNSID", Shape::I32),
    (TOP, NDA_SRC_VNI, "NDA_SRC_VNI", Shape::U32),
    (TOP, NDA_PROTOCOL, "NDA_PROTOCOL", Shape::U8),
    (TOP, NDA_NH_ID, "NDA_NH_ID", Shape::U32),
    (TOP, NDA_FDB_EXT_ATTRS, "NDA_FDB_EXT_ATTRS", Shape::Bytes),
    (TOP, NDA_FLAGS_EXT, "NDA_FLAGS_EXT", Shape::U32),
    (TOP, NDA_NDM_STATE_MASK, "NDA_NDM_STATE_MASK", Shape::U16),
    (TOP, NDA_NDM_FLAGS_MASK, "NDA_NDM_FLAGS_MASK", Shape::U8),
];

/// The family of neighbours.
#[derive(Clone, Copy, Debug, PartialEq, Eq)]
pub struct Neighbours;

impl Table for Neighbours {
    ghost types = { TYPES.now };

    ghost header_len = { λ _. 12 };

    ghost short = { λ t. t == RTM_GETNEIGH };

    ghost rows = { λ _. named ROWS.now (λ name. name.now) };

    ghost fields = { λ _. named_fields FIELDS.now (λ name. name.now) };

    fn has(message_type: u16) -> bool {
        is_among(TYPES, message_type)
    }

    fn header_len(_message_type: u16) -> usize {
        12
    }

    fn allows_short(message_type: u16) -> bool {
        message_type == RTM_GETNEIGH
    }

    fn rows(_message_type: u16) -> &'static [Row] {
        ROWS
    }

    fn fields(_message_type: u16) -> &'static [Field] {
        FIELDS
    }

    #[tactic(auto, using(netlink_family::specs::PushingLaws::none_choose))]
    fn chooses_shape(_message_type: u16, _kind: u16) -> bool {
        false
    }

    ghost sorted = { λ _. refl };
}

impl Family for Neighbours {
    ghost own = { refl };
}

/// A message about a neighbour.
pub type NeighbourMessage = OwnedMessage<Neighbours>;
