//! Finding the first attribute of a kind.

ghost use Rattle.std.specs.Prelude.{◌≡◌, ◌≤◌, List, Option, IfNone, IfSome, length};
ghost use Rattle.netlink_bytes.specs.declared.error.DecodeError.{DecodeError};
ghost use Rattle.netlink_attributes.specs.Attribute.{Attribute};
ghost use Rattle.netlink_attributes.specs.Kinds.{HasNone, IsFirst, kind_by, whole_kind};
ghost use Rattle.netlink_attributes.specs.Views.{masked, raw_kind, shown};
ghost use Rattle.netlink_attributes.specs.Walk.{Walk};

use crate::buffer::NlaBuffer;
use crate::iterator::NlasIterator;

/// Returns the index of the first attribute whose kind, without its two flag bits, is `kind`.
///
/// The index counts from 0, as it does for `nla_place`, `nlas_value_mut` and `write_nla_value`.
/// Returns `None` if and only if no attribute has this kind, counting those before an error. So a
/// `kind` with a flag bit is never found. Does not allocate.
pub fn nla_find(block: &[u8], kind: u16) -> Option<usize>
    ensures first { IfSome result (λ index. (all : List Attribute) (fault : Option DecodeError)
        → Walk block.now all fault → IsFirst masked all kind index) }
    ensures none { IfNone result ((all : List Attribute) (fault : Option DecodeError)
        → Walk block.now all fault → HasNone masked all kind) }
{
    find(block, false, kind)
}

/// Returns the index of the first attribute whose kind, with its two flag bits, is `raw_kind`. The
/// index counts from 0. Returns `None` if and only if no attribute has this kind, counting those
/// before an error. Does not allocate.
pub fn nla_find_raw(block: &[u8], raw_kind: u16) -> Option<usize>
    ensures first { IfSome result (λ index. (all : List Attribute) (fault : Option DecodeError)
        → Walk block.now all fault → IsFirst whole_kind all raw_kind index) }
    ensures none { IfNone result ((all : List Attribute) (fault : Option DecodeError)
        → Walk block.now all fault → HasNone whole_kind all raw_kind) }
{
    find(block, true, raw_kind)
}

/// Returns the index of the first attribute of this kind. Compares the flag bits only if `whole` is
/// true.
fn find(block: &[u8], whole: bool, kind: u16) -> Option<usize>
    ensures first { IfSome result (λ index. (all : List Attribute) (fault : Option DecodeError)
        → Walk block.now all fault → IsFirst (kind_by whole) all kind index) }
    ensures none { IfNone result ((all : List Attribute) (fault : Option DecodeError)
        → Walk block.now all fault → HasNone (kind_by whole) all kind) }
{
    let mut index = 0;
    for item in NlasIterator::new(block) {
        match item {
            Ok(nla) => {
                let found = kind_of(&nla, whole);
                if found == kind {
                    return Some(index);
                }
                index += 1;
            }
            Err(_) => return None,
        }
    }
    None
}

/// Returns the kind of an attribute, with its two flag bits if `whole` is true and without them
/// otherwise. Requires that the view has at least 4 bytes.
#[inline(always)]
fn kind_of(nla: &NlaBuffer<&[u8]>, whole: bool) -> u16
    requires { 4 ≤ length (shown nla.now) }
    ensures { result ≡ kind_by whole (raw_kind (shown nla.now)) }
{
    if whole { nla.raw_kind() } else { nla.kind() }
}
