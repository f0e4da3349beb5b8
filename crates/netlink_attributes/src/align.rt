//! Sizes with padding.

ghost use Rattle.std.specs.Prelude.{◌≡◌, ◌+◌, ◌-◌, ◌%◌, ◌<◌, ◌≤◌};

use crate::constants::NLA_ALIGNTO;

/// Returns the smallest multiple of 4 that is at least `len`: the size in bytes with padding
/// (`NLA_ALIGN` of linux/netlink.h). Requires `len <= usize::MAX - 4`.
#[inline]
pub fn nla_align(len: usize) -> usize
    requires room { len ≤ usize.MAX - 4 }
    ensures multiple { result % 4 ≡ 0 }
    ensures least { (len ≤ result) × (result < len + 4) }
{
    (len + NLA_ALIGNTO - 1) / NLA_ALIGNTO * NLA_ALIGNTO
}
