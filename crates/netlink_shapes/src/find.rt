//! Finding the first attribute of a kind.

ghost use Rattle.std.specs.Prelude.{◌≡◌, ◌<◌, IfNone, IfSome, None, Some, drop, length};
ghost use Rattle.netlink_attributes.specs.Views.{HoldsAttribute, shown};
ghost use Rattle.netlink_shapes.specs.Listing.{first_of, listed};
ghost use Rattle.netlink_shapes.specs.Whole.{IsWhole};

use netlink_attributes::{NlaBuffer, nla_align};

/// Returns the value of the first attribute of a kind, whatever its flag bits. Returns `None` if no
/// such attribute precedes an error of the walk.
pub fn first_value(block: &[u8], kind: u16) -> Option<&[u8]>
    ensures some { IfSome result (λ v. first_of kind (listed block.now) ≡ Some v.now) }
    ensures none { IfNone result (first_of kind (listed block.now) ≡ None) }
{
    let mut rest = block;
    loop {
        match NlaBuffer::new_checked(rest) {
            Ok(nla) => {
                let size = nla_align(nla.length() as usize);
                let found = nla.kind();
                if found == kind {
                    return Some(nla.value());
                }
                if rest.len() <= size {
                    return None;
                }
                rest = &rest[size..];
            }
            Err(_) => return None,
        }
    }
}

/// Returns the value of the first attribute of a kind, whatever its flag bits, in a block whose
/// attributes are all whole, as those of a `BlockView` are. Returns `None` if there is none. Does not
/// check their lengths again, and moves an offset, not a slice: half the instructions of
/// `first_value` for each attribute.
pub fn first_whole(block: &[u8], kind: u16) -> Option<&[u8]>
    requires whole { IsWhole block.now }
    ensures some { IfSome result (λ v. first_of kind (listed block.now) ≡ Some v.now) }
    ensures none { IfNone result (first_of kind (listed block.now) ≡ None) }
{
    let mut at = 0;
    while at < block.len() {
        let nla = attribute_at(block, at);
        let nla_kind = nla.kind();
        if nla_kind == kind {
            return Some(nla.value());
        }
        at += nla_align(nla.length() as usize);
    }
    None
}

/// Returns the attribute at an offset in a block.
#[inline(always)]
pub fn attribute_at(block: &[u8], at: usize) -> NlaBuffer<&[u8]>
    requires inside { at < length block.now }
    requires whole { IsWhole (drop at block.now) }
    ensures bytes { shown result ≡ drop at block.now }
    ensures whole { HoldsAttribute (shown result) }
{
    NlaBuffer::new(&block[at..])
}
