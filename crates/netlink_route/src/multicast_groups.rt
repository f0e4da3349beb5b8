//! The multicast groups and router ports of bridges (linux/if_bridge.h).

ghost use Rattle.std.specs.Prelude.{◌==◌, refl};
ghost use Rattle.netlink_family.specs.Shapes.{named, named_fields};
ghost use Rattle.netlink_route.specs.declared.multicast_groups.TheConstants.{FIELDS, ROWS, RTM_GETMDB, TYPES};

use netlink_family::{Family, Field, OwnedMessage, Row, Shape, TOP, Table, is_among};

pub const RTM_NEWMDB: u16 = 84;

pub const RTM_DELMDB: u16 = 85;

pub const RTM_GETMDB: u16 = 86;

// The fields of `struct br_port_msg`.
pub const BR_PORT_FAMILY: Field = ("family", 0, Shape::U8);

pub const BR_PORT_IFINDEX: Field = ("ifindex", 4, Shape::U32);

/// In a message of the kernel, the entries: `nest_as(MDBA_MDB, MDB)`. In a request it is
/// `MDBA_SET_ENTRY`, so its shape is `Bytes`.
pub const MDBA_MDB: u16 = 1;

/// In a message of the kernel, the router ports: `nest_as(MDBA_ROUTER, ROUTER)`. In a request it is
/// `MDBA_SET_ENTRY_ATTRS`, so its shape is `Bytes`.
pub const MDBA_ROUTER: u16 = 2;

/// In a request, the entry: a `struct br_mdb_entry`.
pub const MDBA_SET_ENTRY: u16 = 1;

/// In a request, the attributes of the entry: `nest_as(MDBA_SET_ENTRY_ATTRS, SET_ENTRY_ATTRS)`.
pub const MDBA_SET_ENTRY_ATTRS: u16 = 2;

/// The policy of `MDBA_MDB`.
pub const MDB: u16 = 1;

pub const MDBA_MDB_ENTRY: u16 = 1;

/// The policy of `MDBA_MDB_ENTRY`.
pub const MDB_ENTRY: u16 = 2;

/// A `struct br_mdb_entry` with attributes after it.
pub const MDBA_MDB_ENTRY_INFO: u16 = 1;

// The fields of `struct br_mdb_entry`.
pub const MDB_ENTRY_IFINDEX: Field = ("ifindex", 0, Shape::U32);

pub const MDB_ENTRY_STATE: Field = ("state", 4, Shape::U8);

pub const MDB_ENTRY_FLAGS: Field = ("flags", 5, Shape::U8);

pub const MDB_ENTRY_VID: Field = ("vid", 6, Shape::U16);

/// An address of IPv4 or IPv6, or a MAC address, by `MDB_ENTRY_PROTO`, and zeros after it.
pub const MDB_ENTRY_ADDRESS: Field = ("addr.u", 8, Shape::ExactLen(16));

/// `ETH_P_IP`, `ETH_P_IPV6`, or 0 for a MAC address.
pub const MDB_ENTRY_PROTO: Field = ("addr.proto", 24, Shape::Be16);

pub const MDB_TEMPORARY: u8 = 0;

pub const MDB_PERMANENT: u8 = 1;

pub const MDB_FLAGS_OFFLOAD: u8 = 1;

pub const MDB_FLAGS_FAST_LEAVE: u8 = 2;

pub const MDB_FLAGS_STAR_EXCL: u8 = 4;

pub const MDB_FLAGS_BLOCKED: u8 = 8;

pub const MDB_FLAGS_OFFLOAD_FAILED: u8 = 16;

/// The policy of the attributes in `MDBA_MDB_ENTRY_INFO`. Its time is in hundredths of a second.
pub const MDB_EATTR: u16 = 3;

pub const MDBA_MDB_EATTR_TIMER: u16 = 1;

pub const MDBA_MDB_EATTR_SRC_LIST: u16 = 2;

pub const MDBA_MDB_EATTR_GROUP_MODE: u16 = 3;

pub const MDBA_MDB_EATTR_SOURCE: u16 = 4;

pub const MDBA_MDB_EATTR_RTPROT: u16 = 5;

pub const MDBA_MDB_EATTR_DST: u16 = 6;

pub const MDBA_MDB_EATTR_DST_PORT: u16 = 7;

pub const MDBA_MDB_EATTR_VNI: u16 = 8;

pub const MDBA_MDB_EATTR_IFINDEX: u16 = 9;

pub const MDBA_MDB_EATTR_SRC_VNI: u16 = 10;

/// The policy of `MDBA_MDB_EATTR_SRC_LIST`.
pub const MDB_SRCLIST: u16 = 4;

pub const MDBA_MDB_SRCLIST_ENTRY: u16 = 1;

/// The policy of `MDBA_MDB_SRCLIST_ENTRY`. Its time is in hundredths of a second.
pub const MDB_SRCATTR: u16 = 5;

pub const MDBA_MDB_SRCATTR_ADDRESS: u16 = 1;

pub const MDBA_MDB_SRCATTR_TIMER: u16 = 2;

/// The policy of `MDBA_ROUTER`.
pub const ROUTER: u16 = 6;

/// The index of a port in 4 bytes, with attributes after it.
pub const MDBA_ROUTER_PORT: u16 = 1;

/// The index of the port before the attributes in `MDBA_ROUTER_PORT`
pub const ROUTER_PORT_IFINDEX: Field = ("port", 0, Shape::U32);

/// The policy of the attributes in `MDBA_ROUTER_PORT`. Its times are in hundredths of a second.
pub const ROUTER_PATTR: u16 = 7;

pub const MDBA_ROUTER_PATTR_TIMER: u16 = 1;

pub const MDBA_ROUTER_PATTR_TYPE: u16 = 2;

pub const MDBA_ROUTER_PATTR_INET_TIMER: u16 = 3;

pub const MDBA_ROUTER_PATTR_INET6_TIMER: u16 = 4;

pub const MDBA_ROUTER_PATTR_VID: u16 = 5;

/// The policy of `MDBA_SET_ENTRY_ATTRS`.
pub const SET_ENTRY_ATTRS: u16 = 8;

pub const MDBE_ATTR_SOURCE: u16 = 1;

pub const MDBE_ATTR_SRC_LIST: u16 = 2;

pub const MDBE_ATTR_GROUP_MODE: u16 = 3;

pub const MDBE_ATTR_RTPROT: u16 = 4;

pub const MDBE_ATTR_DST: u16 = 5;

pub const MDBE_ATTR_DST_PORT: u16 = 6;

pub const MDBE_ATTR_VNI: u16 = 7;

pub const MDBE_ATTR_IFINDEX: u16 = 8;

pub const MDBE_ATTR_SRC_VNI: u16 = 9;

pub const MDBE_ATTR_STATE_MASK: u16 = 10;

/// The policy of `MDBE_ATTR_SRC_LIST`.
pub const SRC_LIST: u16 = 9;

pub const MDBE_SRC_LIST_ENTRY: u16 = 1;

/// The policy of `MDBE_SRC_LIST_ENTRY`.
pub const SRCATTR: u16 = 10;

pub const MDBE_SRCATTR_ADDRESS: u16 = 1;

const TYPES: &'static [u16] = &[RTM_NEWMDB, RTM_DELMDB, RTM_GETMDB];

const FIELDS: &'static [Field] = &[BR_PORT_FAMILY, BR_PORT_IFINDEX];

// The kernel's `br_mdb_fill_info`, `nlmsg_populate_mdb_fill`, `br_rports_fill_info`,
// `nlmsg_populate_rtr_fill`, `vxlan_mdb_entry_info_fill`, `br_mdbe_attrs_pol` and
// `vxlan_mdbe_attrs_pol`. A request has the message types of the kernel's own messages, so the kinds
// outside any nest stay bytes. Each row has one line, which `rt fmt` would break.
#[rattlefmt::skip]
const ROWS: &'static [Row] = &[
    (TOP, MDBA_MDB, "MDBA_MDB", Shape::Bytes),
    (TOP, MDBA_ROUTER, "MDBA_ROUTER", Shape::Bytes),
    (MDB, MDBA_MDB_ENTRY, "MDBA_MDB_ENTRY", Shape::Nested(MDB_ENTRY)),
    (MDB_ENTRY, MDBA_MDB_ENTRY_INFO, "MDBA_MDB_ENTRY_INFO", Shape::HeaderNested { size: 28, policy: MDB_EATTR }),
    (MDB_EATTR, MDBA_MDB_EATTR_TIMER, "MDBA_MDB_EATTR_TIMER", Shape::U32),
    (MDB_EATTR, MDBA_MDB_EATTR_SRC_LIST, "MDBA_MDB_EATTR_SRC_LIST", Shape::Nested(MDB_SRCLIST)),
    (MDB_EATTR, MDBA_MDB_EATTR_GROUP_MODE, "MDBA_MDB_EATTR_GROUP_MODE", Shape::U8),
    (MDB_EATTR, MDBA_MDB_EATTR_SOURCE, "MDBA_MDB_EATTR_SOURCE", Shape::Ip),
    (MDB_EATTR, MDBA_MDB_EATTR_RTPROT, "MDBA_MDB_EATTR_RTPROT", Shape::U8),
    (MDB_EATTR, MDBA_MDB_EATTR_DST, "MDBA_MDB_EATTR_DST", Shape::Ip),
    (MDB_EATTR, MDBA_MDB_EATTR_DST_PORT, "MDBA_MDB_EATTR_DST_PORT", Shape::U16),
    (MDB_EATTR, MDBA_MDB_EATTR_VNI, "MDBA_MDB_EATTR_VNI", Shape::U32),
    (MDB_EATTR, MDBA_MDB_EATTR_IFINDEX, "MDBA_MDB_EATTR_IFINDEX", Shape::U32),
    (MDB_EATTR, MDBA_MDB_EATTR_SRC_VNI, "MDBA_MDB_EATTR_SRC_VNI", Shape::U32),
    (MDB_SRCLIST, MDBA_MDB_SRCLIST_ENTRY, "MDBA_MDB_SRCLIST_ENTRY", Shape::Nested(MDB_SRCATTR)),
    (MDB_SRCATTR, MDBA_MDB_SRCATTR_ADDRESS, "MDBA_MDB_SRCATTR_ADDRESS", Shape::Ip),
    (MDB_SRCATTR, MDBA_MDB_SRCATTR_TIMER, "MDBA_MDB_SRCATTR_TIMER", Shape::U32),
    (ROUTER, MDBA_ROUTER_PORT, "MDBA_ROUTER_PORT", Shape::HeaderNested { size: 4, policy: ROUTER_PATTR }),
    (ROUTER_PATTR, MDBA_ROUTER_PATTR_TIMER, "MDBA_ROUTER_PATTR_TIMER", Shape::U32),
    (ROUTER_PATTR, MDBA_ROUTER_PATTR_TYPE, "MDBA_ROUTER_PATTR_TYPE", Shape::U8),
    (ROUTER_PATTR, MDBA_ROUTER_PATTR_INET_TIMER, "MDBA_ROUTER_PATTR_INET_TIMER", Shape::U32),
    (ROUTER_PATTR, MDBA_ROUTER_PATTR_INET6_TIMER, "MDBA_ROUTER_PATTR_INET6_TIMER", Shape::U32),
    (ROUTER_PATTR, MDBA_ROUTER_PATTR_VID, "MDBA_ROUTER_PATTR_VID", Shape::U16),
    (SET_ENTRY_ATTRS, MDBE_ATTR_SOURCE, "MDBE_ATTR_SOURCE", Shape::Ip),
    (SET_ENTRY_ATTRS, MDBE_ATTR_SRC_LIST, "MDBE_ATTR_SRC_LIST", Shape::Nested(SRC_LIST)),
    (SET_ENTRY_ATTRS, MDBE_ATTR_GROUP_MODE, "MDBE_ATTR_GROUP_MODE", Shape::U8),
    (SET_ENTRY_ATTRS, MDBE_ATTR_RTPROT, "MDBE_ATTR_RTPROT", Shape::U8),
    (SET_ENTRY_ATTRS, MDBE_ATTR_DST, "MDBE_ATTR_DST", Shape::Ip),
    (SET_ENTRY_ATTRS, MDBE_ATTR_DST_PORT, "MDBE_ATTR_DST_PORT", Shape::U16),
    (SET_ENTRY_ATTRS, MDBE_ATTR_VNI, "MDBE_ATTR_VNI", Shape::U32),
    (SET_ENTRY_ATTRS, MDBE_ATTR_IFINDEX, "MDBE_ATTR_IFINDEX", Shape::I32),
    (SET_ENTRY_ATTRS, MDBE_ATTR_SRC_VNI, "MDBE_ATTR_SRC_VNI", Shape::U32),
    (SET_ENTRY_ATTRS, MDBE_ATTR_STATE_MASK, "MDBE_ATTR_STATE_MASK", Shape::U8),
    (SRC_LIST, MDBE_SRC_LIST_ENTRY, "MDBE_SRC_LIST_ENTRY", Shape::Nested(SRCATTR)),
    (SRCATTR, MDBE_SRCATTR_ADDRESS, "MDBE_SRCATTR_ADDRESS", Shape::Ip),
];

/// The family of multicast groups.
#[derive(Clone, Copy, Debug, PartialEq, Eq)]
pub struct MulticastGroups;

impl Table for MulticastGroups {
    ghost types = { TYPES.now };

    ghost header_len = { λ _. 8 };

    ghost short = { λ t. t == RTM_GETMDB };

    ghost rows = { λ _. named ROWS.now (λ name. name.now) };

    ghost fields = { λ _. named_fields FIELDS.now (λ name. name.now) };

    fn has(message_type: u16) -> bool {
        is_among(TYPES, message_type)
    }

    fn header_len(_message_type: u16) -> usize {
        8
    }

    fn allows_short(message_type: u16) -> bool {
        message_type == RTM_GETMDB
    }

    fn rows(_message_type: u16) -> &'static [Row] {
        ROWS
    }

    fn fields(_message_type: u16) -> &'static [Field] {
        FIELDS
    }

    #[tactic(auto, using(netlink_family::specs::PushingLaws::none_choose))]
    fn chooses_shape(_message_type: u16, _kind: u16) -> bool {
        false
    }

    ghost sorted = { λ _. refl };
}

impl Family for MulticastGroups {
    ghost own = { refl };
}

/// A message about multicast groups or router ports of a bridge.
pub type MulticastGroupMessage = OwnedMessage<MulticastGroups>;
