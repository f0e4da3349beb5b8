//! The multicast groups of a family.

ghost use Rattle.std.specs.Prelude.{◌≡◌};
ghost use Rattle.std.specs.Iterator.{at_most};
ghost use Rattle.netlink_family.specs.Shapes.{rows_in};
ghost use Rattle.netlink_generic.specs.Groups.{YieldsGroup, groups_in};
ghost use Rattle.netlink_generic.specs.Replies.{controller_rows};
ghost use Rattle.netlink_packet_core.specs.Steps.{item_bound, unread};
ghost use Rattle.netlink_generic.specs.declared.controller.TheConstants.{GROUPS};

use crate::controller::{
    CTRL_ATTR_MCAST_GROUPS, CTRL_ATTR_MCAST_GRP_ID, CTRL_ATTR_MCAST_GRP_NAME, ControllerView,
    GROUPS,
};
use netlink_family::{Attributes, BlockView, Value};

/// An iterator over the multicast groups of a family, in order. It yields the name of each, without
/// its NUL, and its id, which a socket joins. Either is `None` if the group does not have it. Does
/// not allocate.
#[derive(Debug, Drop)]
pub struct Groups<'a> {
    /// The rest of the array.
    pub array: Attributes<'a>,
    pub ghost rows: { rows_in array.rows.list.now ≡ controller_rows },
    pub ghost policy: { array.policy ≡ GROUPS },
}

/// Returns an iterator over the multicast groups in a message; it is empty if the message has no
/// `CTRL_ATTR_MCAST_GROUPS`.
pub fn family_groups<'a>(message: &ControllerView<'a>) -> Groups<'a>
    ensures { unread result.array.walk ≡ groups_in message.now.payload.now }
{
    Groups {
        array: groups_view(message).attributes(),
    }
}

/// Returns a view of the array of multicast groups in a message, an empty one if there is none.
fn groups_view<'a>(message: &ControllerView<'a>) -> BlockView<'a>
    ensures rows { rows_in result.rows.list.now ≡ controller_rows }
    ensures policy { result.policy ≡ GROUPS }
    ensures block { result.block.now ≡ groups_in message.now.payload.now }
{
    let view = message.view();
    if let Some(array) = view.nest(CTRL_ATTR_MCAST_GROUPS) {
        return array;
    }
    BlockView {
        rows: view.rows,
        policy: GROUPS,
        block: &[],
    }
}

impl<'a> Iterator for Groups<'a> {
    type Item = (Option<&'a [u8]>, Option<u32>);

    ghost next_gives = { λ before item after. YieldsGroup (unread before.array.walk) item (unread after.array.walk) };

    ghost remaining = { λ all. at_most (item_bound (unread all.array.walk)) };

    fn next(&mut self) -> Option<(Option<&'a [u8]>, Option<u32>)> {
        let (_, value) = self.array.next()?;
        match value {
            Value::Nested(group) => Some((
                group.str_bytes(CTRL_ATTR_MCAST_GRP_NAME),
                group.u32(CTRL_ATTR_MCAST_GRP_ID),
            )),
            _ => None,
        }
    }
}
