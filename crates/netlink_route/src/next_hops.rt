//! The next hops of a route (`struct rtnexthop` of linux/rtnetlink.h).

ghost use Rattle.std.specs.Iterator.{at_most};
ghost use Rattle.std.specs.Prelude.{◌≡◌, None, Some, IfNone, IfSome};
ghost use Rattle.netlink_packet_core.specs.Steps.{item_bound, unread};
ghost use Rattle.netlink_family.specs.Finding.{found_at, nest_by, shape_at};
ghost use Rattle.netlink_route.specs.NextHops.{YieldsHop, hop_of};

use crate::routes::{RTA_MULTIPATH, RTNH_IFINDEX};
use netlink_family::{Attributes, BlockView, Value};

/// A next hop of a route.
#[derive(Clone, Copy, Debug, PartialEq, Eq)]
pub struct NextHop<'a> {
    /// `rtnh_flags`, such as `RTNH_F_ONLINK`.
    pub flags: u8,
    /// `rtnh_hops`, the weight less 1.
    pub hops: u8,
    /// `rtnh_ifindex`, the index of the link.
    pub ifindex: i32,
    /// The attributes, such as `RTA_GATEWAY`.
    pub attributes: BlockView<'a>,
}

/// An iterator over the next hops in `RTA_MULTIPATH`, in order. It does not check them again and does
/// not allocate.
#[derive(Debug, Drop)]
pub struct NextHops<'a> {
    /// The rest of the list.
    pub list: Attributes<'a>,
}

impl<'a> NextHops<'a> {
    /// Returns the next hops of a route, given its attributes. Returns `None` if and only if there is no
    /// `RTA_MULTIPATH` or the table does not give it the shape of a nest.
    pub fn new(route: &BlockView<'a>) -> Option<Self>
        ensures some { IfSome result (λ all. nest_by (shape_at route.now RTA_MULTIPATH)
            (found_at route.now RTA_MULTIPATH) ≡ Some (unread all.list.walk)) }
        ensures none { IfNone result (nest_by (shape_at route.now RTA_MULTIPATH)
            (found_at route.now RTA_MULTIPATH) ≡ None) }
    {
        let list = route.nest(RTA_MULTIPATH)?;
        Some(NextHops {
            list: list.attributes(),
        })
    }
}

impl<'a> Iterator for NextHops<'a> {
    type Item = NextHop<'a>;

    ghost next_gives = { λ before item after. YieldsHop before.list item after.list };

    ghost remaining = { λ all. at_most (item_bound (unread all.list.walk)) };

    fn next(&mut self) -> Option<NextHop<'a>> {
        let (word, value) = self.list.next()?;
        hop_of(word, value)
    }
}

/// Returns the next hop that an attribute of the list is, or `None` if it is none.
fn hop_of<'a>(word: u16, value: Value<'a>) -> Option<NextHop<'a>>
    ensures { result ≡ hop_of word value.entry }
{
    match value {
        Value::HeaderNested(header, attributes) => {
            if header.bytes.len() != 4 {
                return None;
            }
            Some(NextHop {
                flags: (word % 256) as u8,
                hops: (word / 256) as u8,
                ifindex: header.i32(RTNH_IFINDEX),
                attributes,
            })
        }
        _ => None,
    }
}
