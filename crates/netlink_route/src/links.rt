//! Links (linux/rtnetlink.h, linux/if_link.h).

ghost use Rattle.std.specs.Prelude.{◌==◌, refl};
ghost use Rattle.netlink_family.specs.Shapes.{named, named_fields};
ghost use Rattle.netlink_route.specs.declared.link_rows.TheConstants.{ROWS};
ghost use Rattle.netlink_route.specs.declared.links.TheConstants.{FIELDS, RTM_GETLINK, TYPES};

use crate::link_rows::ROWS;
use netlink_family::{Family, Field, OwnedMessage, Row, Shape, Table, is_among};

pub const RTM_NEWLINK: u16 = 16;

pub const RTM_DELLINK: u16 = 17;

pub const RTM_GETLINK: u16 = 18;

pub const RTM_SETLINK: u16 = 19;

// The fields of `struct ifinfomsg`.
pub const IFI_FAMILY: Field = ("ifi_family", 0, Shape::U8);

pub const IFI_TYPE: Field = ("ifi_type", 2, Shape::U16);

pub const IFI_INDEX: Field = ("ifi_index", 4, Shape::I32);

pub const IFI_FLAGS: Field = ("ifi_flags", 8, Shape::U32);

pub const IFI_CHANGE: Field = ("ifi_change", 12, Shape::U32);

pub const IFLA_ADDRESS: u16 = 1;

pub const IFLA_BROADCAST: u16 = 2;

pub const IFLA_IFNAME: u16 = 3;

pub const IFLA_MTU: u16 = 4;

pub const IFLA_LINK: u16 = 5;

pub const IFLA_QDISC: u16 = 6;

pub const IFLA_STATS: u16 = 7;

pub const IFLA_COST: u16 = 8;

pub const IFLA_PRIORITY: u16 = 9;

pub const IFLA_MASTER: u16 = 10;

pub const IFLA_WIRELESS: u16 = 11;

pub const IFLA_PROTINFO: u16 = 12;

pub const IFLA_TXQLEN: u16 = 13;

pub const IFLA_MAP: u16 = 14;

pub const IFLA_WEIGHT: u16 = 15;

pub const IFLA_OPERSTATE: u16 = 16;

pub const IFLA_LINKMODE: u16 = 17;

pub const IFLA_LINKINFO: u16 = 18;

pub const IFLA_NET_NS_PID: u16 = 19;

pub const IFLA_IFALIAS: u16 = 20;

pub const IFLA_NUM_VF: u16 = 21;

pub const IFLA_VFINFO_LIST: u16 = 22;

pub const IFLA_STATS64: u16 = 23;

pub const IFLA_VF_PORTS: u16 = 24;

pub const IFLA_PORT_SELF: u16 = 25;

pub const IFLA_AF_SPEC: u16 = 26;

pub const IFLA_GROUP: u16 = 27;

pub const IFLA_NET_NS_FD: u16 = 28;

pub const IFLA_EXT_MASK: u16 = 29;

pub const IFLA_PROMISCUITY: u16 = 30;

pub const IFLA_NUM_TX_QUEUES: u16 = 31;

pub const IFLA_NUM_RX_QUEUES: u16 = 32;

pub const IFLA_CARRIER: u16 = 33;

pub const IFLA_PHYS_PORT_ID: u16 = 34;

pub const IFLA_CARRIER_CHANGES: u16 = 35;

pub const IFLA_PHYS_SWITCH_ID: u16 = 36;

pub const IFLA_LINK_NETNSID: u16 = 37;

pub const IFLA_PHYS_PORT_NAME: u16 = 38;

pub const IFLA_PROTO_DOWN: u16 = 39;

pub const IFLA_GSO_MAX_SEGS: u16 = 40;

pub const IFLA_GSO_MAX_SIZE: u16 = 41;

pub const IFLA_PAD: u16 = 42;

pub const IFLA_XDP: u16 = 43;

pub const IFLA_EVENT: u16 = 44;

pub const IFLA_NEW_NETNSID: u16 = 45;

pub const IFLA_TARGET_NETNSID: u16 = 46;

pub const IFLA_CARRIER_UP_COUNT: u16 = 47;

pub const IFLA_CARRIER_DOWN_COUNT: u16 = 48;

pub const IFLA_NEW_IFINDEX: u16 = 49;

pub const IFLA_MIN_MTU: u16 = 50;

pub const IFLA_MAX_MTU: u16 = 51;

pub const IFLA_PROP_LIST: u16 = 52;

pub const IFLA_ALT_IFNAME: u16 = 53;

pub const IFLA_PERM_ADDRESS: u16 = 54;

pub const IFLA_PROTO_DOWN_REASON: u16 = 55;

pub const IFLA_PARENT_DEV_NAME: u16 = 56;

pub const IFLA_PARENT_DEV_BUS_NAME: u16 = 57;

pub const IFLA_GRO_MAX_SIZE: u16 = 58;

pub const IFLA_TSO_MAX_SIZE: u16 = 59;

pub const IFLA_TSO_MAX_SEGS: u16 = 60;

pub const IFLA_ALLMULTI: u16 = 61;

pub const IFLA_DEVLINK_PORT: u16 = 62;

pub const IFLA_GSO_IPV4_MAX_SIZE: u16 = 63;

pub const IFLA_GRO_IPV4_MAX_SIZE: u16 = 64;

pub const IFLA_DPLL_PIN: u16 = 65;

pub const IFLA_MAX_PACING_OFFLOAD_HORIZON: u16 = 66;

pub const IFLA_NETNS_IMMUTABLE: u16 = 67;

pub const IFLA_HEADROOM: u16 = 68;

pub const IFLA_TAILROOM: u16 = 69;

/// The policy of `IFLA_LINKINFO`.
pub const INFO: u16 = 1;

pub const IFLA_INFO_KIND: u16 = 1;

pub const IFLA_INFO_DATA: u16 = 2;

pub const IFLA_INFO_XSTATS: u16 = 3;

pub const IFLA_INFO_SLAVE_KIND: u16 = 4;

pub const IFLA_INFO_SLAVE_DATA: u16 = 5;

/// The policy of `IFLA_PROP_LIST`. Its kind is `IFLA_ALT_IFNAME`.
pub const PROPERTIES: u16 = 2;

/// The policy of `IFLA_AF_SPEC`, whose attributes are bytes. Their kinds are address families, except
/// in a message with the family `AF_BRIDGE`, which has the attributes of a bridge there.
pub const SPECIFICS: u16 = 3;

const TYPES: &'static [u16] = &[RTM_NEWLINK, RTM_DELLINK, RTM_GETLINK, RTM_SETLINK];

const FIELDS: &'static [Field] = &[IFI_FAMILY, IFI_TYPE, IFI_INDEX, IFI_FLAGS, IFI_CHANGE];

/// The family of links.
#[derive(Clone, Copy, Debug, PartialEq, Eq)]
pub struct Links;

impl Table for Links {
    ghost types = { TYPES.now };

    ghost header_len = { λ _. 16 };

    ghost short = { λ t. t == RTM_GETLINK };

    ghost rows = { λ _. named ROWS.now (λ name. name.now) };

    ghost fields = { λ _. named_fields FIELDS.now (λ name. name.now) };

    fn has(message_type: u16) -> bool {
        is_among(TYPES, message_type)
    }

    fn header_len(_message_type: u16) -> usize {
        16
    }

    fn allows_short(message_type: u16) -> bool {
        message_type == RTM_GETLINK
    }

    fn rows(_message_type: u16) -> &'static [Row] {
        ROWS
    }

    fn fields(_message_type: u16) -> &'static [Field] {
        FIELDS
    }

    #[tactic(auto, using(netlink_family::specs::PushingLaws::none_choose))]
    fn chooses_shape(_message_type: u16, _kind: u16) -> bool {
        false
    }

    ghost sorted = { λ _. refl };
}

impl Family for Links {
    ghost own = { refl };
}

/// A message about a link.
pub type LinkMessage = OwnedMessage<Links>;
