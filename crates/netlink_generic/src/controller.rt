//! The controller's table (linux/genetlink.h; linux/netlink.h for the attributes of policies).

ghost use Rattle.std.specs.Prelude.{false, refl};
ghost use Rattle.netlink_family.specs.Shapes.{named, named_fields};
ghost use Rattle.netlink_generic.specs.declared.controller.TheConstants.{FIELDS, GENL_HDRLEN, ROWS, TYPES};

use netlink_family::{
    ANY, Family, Field, MessageView, OwnedMessage, Row, Shape, TOP, Table, is_among,
};

/// The message type of the controller. The types of other families are assigned by the kernel at
/// run time; the controller's replies contain them.
pub const GENL_ID_CTRL: u16 = 16;

/// The size of `struct genlmsghdr` in bytes.
pub const GENL_HDRLEN: usize = 4;

/// The maximum size of a family's name in bytes, with its NUL.
pub const GENL_NAMSIZ: usize = 16;

// The fields of `struct genlmsghdr`. The two bytes after them are reserved.
pub const GENL_CMD: Field = ("cmd", 0, Shape::U8);

pub const GENL_VERSION: Field = ("version", 1, Shape::U8);

// The commands.
pub const CTRL_CMD_NEWFAMILY: u8 = 1;

pub const CTRL_CMD_DELFAMILY: u8 = 2;

pub const CTRL_CMD_GETFAMILY: u8 = 3;

pub const CTRL_CMD_NEWOPS: u8 = 4;

pub const CTRL_CMD_DELOPS: u8 = 5;

pub const CTRL_CMD_GETOPS: u8 = 6;

pub const CTRL_CMD_NEWMCAST_GRP: u8 = 7;

pub const CTRL_CMD_DELMCAST_GRP: u8 = 8;

pub const CTRL_CMD_GETMCAST_GRP: u8 = 9;

pub const CTRL_CMD_GETPOLICY: u8 = 10;

pub const CTRL_ATTR_FAMILY_ID: u16 = 1;

pub const CTRL_ATTR_FAMILY_NAME: u16 = 2;

pub const CTRL_ATTR_VERSION: u16 = 3;

pub const CTRL_ATTR_HDRSIZE: u16 = 4;

pub const CTRL_ATTR_MAXATTR: u16 = 5;

pub const CTRL_ATTR_OPS: u16 = 6;

pub const CTRL_ATTR_MCAST_GROUPS: u16 = 7;

pub const CTRL_ATTR_POLICY: u16 = 8;

pub const CTRL_ATTR_OP_POLICY: u16 = 9;

pub const CTRL_ATTR_OP: u16 = 10;

/// The policy of `CTRL_ATTR_OPS`: an array of operations.
pub const OPS: u16 = 1;

/// The policy of an operation.
pub const OP: u16 = 2;

pub const CTRL_ATTR_OP_ID: u16 = 1;

pub const CTRL_ATTR_OP_FLAGS: u16 = 2;

/// The policy of `CTRL_ATTR_MCAST_GROUPS`: an array of multicast groups.
pub const GROUPS: u16 = 3;

/// The policy of a multicast group.
pub const GROUP: u16 = 4;

pub const CTRL_ATTR_MCAST_GRP_NAME: u16 = 1;

pub const CTRL_ATTR_MCAST_GRP_ID: u16 = 2;

/// The policy of `CTRL_ATTR_POLICY`: the family's policies, by index.
pub const POLICIES: u16 = 5;

/// The policy of one of them: its attributes, by kind.
pub const POLICY: u16 = 6;

/// The policy of the description of an attribute.
pub const POLICY_ATTR: u16 = 7;

pub const NL_POLICY_TYPE_ATTR_TYPE: u16 = 1;

pub const NL_POLICY_TYPE_ATTR_MIN_VALUE_S: u16 = 2;

pub const NL_POLICY_TYPE_ATTR_MAX_VALUE_S: u16 = 3;

pub const NL_POLICY_TYPE_ATTR_MIN_VALUE_U: u16 = 4;

pub const NL_POLICY_TYPE_ATTR_MAX_VALUE_U: u16 = 5;

pub const NL_POLICY_TYPE_ATTR_MIN_LENGTH: u16 = 6;

pub const NL_POLICY_TYPE_ATTR_MAX_LENGTH: u16 = 7;

pub const NL_POLICY_TYPE_ATTR_POLICY_IDX: u16 = 8;

pub const NL_POLICY_TYPE_ATTR_POLICY_MAXTYPE: u16 = 9;

pub const NL_POLICY_TYPE_ATTR_BITFIELD32_MASK: u16 = 10;

pub const NL_POLICY_TYPE_ATTR_PAD: u16 = 11;

pub const NL_POLICY_TYPE_ATTR_MASK: u16 = 12;

/// The policy of `CTRL_ATTR_OP_POLICY`: operations, by id.
pub const OP_POLICIES: u16 = 8;

/// The policy of one of them: the indices of the policies of its requests.
pub const OP_POLICY: u16 = 9;

pub const CTRL_ATTR_POLICY_DO: u16 = 1;

pub const CTRL_ATTR_POLICY_DUMP: u16 = 2;

const TYPES: &'static [u16] = &[GENL_ID_CTRL];

const FIELDS: &'static [Field] = &[GENL_CMD, GENL_VERSION];

const ROWS: &'static [Row] = &[
    (TOP, CTRL_ATTR_FAMILY_ID, "CTRL_ATTR_FAMILY_ID", Shape::U16),
    (
        TOP,
        CTRL_ATTR_FAMILY_NAME,
        "CTRL_ATTR_FAMILY_NAME",
        Shape::Str,
    ),
    (TOP, CTRL_ATTR_VERSION, "CTRL_ATTR_VERSION", Shape::U32),
    (TOP, CTRL_ATTR_HDRSIZE, "CTRL_ATTR_HDRSIZE", Shape::U32),
    (TOP, CTRL_ATTR_MAXATTR, "CTRL_ATTR_MAXATTR", Shape::U32),
    (TOP, CTRL_ATTR_OPS, "CTRL_ATTR_OPS", Shape::Nested(OPS)),
    (
        TOP,
        CTRL_ATTR_MCAST_GROUPS,
        "CTRL_ATTR_MCAST_GROUPS",
        Shape::Nested(GROUPS),
    ),
    (
        TOP,
        CTRL_ATTR_POLICY,
        "CTRL_ATTR_POLICY",
        Shape::Nested(POLICIES),
    ),
    (
        TOP,
        CTRL_ATTR_OP_POLICY,
        "CTRL_ATTR_OP_POLICY",
        Shape::Nested(OP_POLICIES),
    ),
    (TOP, CTRL_ATTR_OP, "CTRL_ATTR_OP", Shape::U32),
    (OPS, ANY, "", Shape::Nested(OP)),
    (OP, CTRL_ATTR_OP_ID, "CTRL_ATTR_OP_ID", Shape::U32),
    (OP, CTRL_ATTR_OP_FLAGS, "CTRL_ATTR_OP_FLAGS", Shape::U32),
    (GROUPS, ANY, "", Shape::Nested(GROUP)),
    (
        GROUP,
        CTRL_ATTR_MCAST_GRP_NAME,
        "CTRL_ATTR_MCAST_GRP_NAME",
        Shape::Str,
    ),
    (
        GROUP,
        CTRL_ATTR_MCAST_GRP_ID,
        "CTRL_ATTR_MCAST_GRP_ID",
        Shape::U32,
    ),
    (POLICIES, ANY, "", Shape::Nested(POLICY)),
    (POLICY, ANY, "", Shape::Nested(POLICY_ATTR)),
    (
        POLICY_ATTR,
        NL_POLICY_TYPE_ATTR_TYPE,
        "NL_POLICY_TYPE_ATTR_TYPE",
        Shape::U32,
    ),
    (
        POLICY_ATTR,
        NL_POLICY_TYPE_ATTR_MIN_VALUE_S,
        "NL_POLICY_TYPE_ATTR_MIN_VALUE_S",
        Shape::I64,
    ),
    (
        POLICY_ATTR,
        NL_POLICY_TYPE_ATTR_MAX_VALUE_S,
        "NL_POLICY_TYPE_ATTR_MAX_VALUE_S",
        Shape::I64,
    ),
    (
        POLICY_ATTR,
        NL_POLICY_TYPE_ATTR_MIN_VALUE_U,
        "NL_POLICY_TYPE_ATTR_MIN_VALUE_U",
        Shape::U64,
    ),
    (
        POLICY_ATTR,
        NL_POLICY_TYPE_ATTR_MAX_VALUE_U,
        "NL_POLICY_TYPE_ATTR_MAX_VALUE_U",
        Shape::U64,
    ),
    (
        POLICY_ATTR,
        NL_POLICY_TYPE_ATTR_MIN_LENGTH,
        "NL_POLICY_TYPE_ATTR_MIN_LENGTH",
        Shape::U32,
    ),
    (
        POLICY_ATTR,
        NL_POLICY_TYPE_ATTR_MAX_LENGTH,
        "NL_POLICY_TYPE_ATTR_MAX_LENGTH",
        Shape::U32,
    ),
    (
        POLICY_ATTR,
        NL_POLICY_TYPE_ATTR_POLICY_IDX,
        "NL_POLICY_TYPE_ATTR_POLICY_IDX",
        Shape::U32,
    ),
    (
        POLICY_ATTR,
        NL_POLICY_TYPE_ATTR_POLICY_MAXTYPE,
        "NL_POLICY_TYPE_ATTR_POLICY_MAXTYPE",
        Shape::U32,
    ),
    (
        POLICY_ATTR,
        NL_POLICY_TYPE_ATTR_BITFIELD32_MASK,
        "NL_POLICY_TYPE_ATTR_BITFIELD32_MASK",
        Shape::U32,
    ),
    (
        POLICY_ATTR,
        NL_POLICY_TYPE_ATTR_PAD,
        "NL_POLICY_TYPE_ATTR_PAD",
        Shape::Bytes,
    ),
    (
        POLICY_ATTR,
        NL_POLICY_TYPE_ATTR_MASK,
        "NL_POLICY_TYPE_ATTR_MASK",
        Shape::U64,
    ),
    (OP_POLICIES, ANY, "", Shape::Nested(OP_POLICY)),
    (
        OP_POLICY,
        CTRL_ATTR_POLICY_DO,
        "CTRL_ATTR_POLICY_DO",
        Shape::U32,
    ),
    (
        OP_POLICY,
        CTRL_ATTR_POLICY_DUMP,
        "CTRL_ATTR_POLICY_DUMP",
        Shape::U32,
    ),
];

/// The family of the controller.
///
/// Its message type, 16, is also `RTM_NEWLINK` of route netlink. A `Join` is for families of one
/// netlink protocol: only the socket that a message comes from distinguishes two protocols.
#[derive(Clone, Copy, Debug, PartialEq, Eq)]
pub struct ControllerFamily;

impl Table for ControllerFamily {
    ghost types = { TYPES.now };

    ghost header_len = { λ _. GENL_HDRLEN };

    ghost short = { λ _. false };

    ghost rows = { λ _. named ROWS.now (λ name. name.now) };

    ghost fields = { λ _. named_fields FIELDS.now (λ name. name.now) };

    fn has(message_type: u16) -> bool {
        is_among(TYPES, message_type)
    }

    fn header_len(_message_type: u16) -> usize {
        GENL_HDRLEN
    }

    fn allows_short(_message_type: u16) -> bool {
        false
    }

    fn rows(_message_type: u16) -> &'static [Row] {
        ROWS
    }

    fn fields(_message_type: u16) -> &'static [Field] {
        FIELDS
    }

    #[tactic(auto, using(netlink_family::specs::PushingLaws::none_choose))]
    fn chooses_shape(_message_type: u16, _kind: u16) -> bool {
        false
    }

    ghost sorted = { λ _. refl };
}

impl Family for ControllerFamily {
    ghost own = { refl };
}

/// A message of the controller.
pub type ControllerMessage = OwnedMessage<ControllerFamily>;

/// A message of the controller, read in place.
pub type ControllerView<'a> = MessageView<'a, ControllerFamily>;
