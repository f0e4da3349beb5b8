//! The attributes of a request that contain an offset.

ghost use Rattle.std.specs.Prelude.{◌≡◌, [], List, None, IfSome, IfNone, length, nat_lt, if◌then◌else◌};
ghost use Rattle.std.specs.Iterator.{at_most};
ghost use Rattle.netlink_packet_core.specs.Attribute.{Attribute};
ghost use Rattle.netlink_packet_core.specs.Walk.{Walk};
ghost use Rattle.netlink_replies.specs.FoundAttributes.{IsFound};
ghost use Rattle.netlink_replies.specs.Paths.{attribute_at};

use netlink_packet_core::{NLA_HEADER_SIZE, NlasIterator, nla_align, nlas_fault};

/// An iterator over the kinds of the attributes that contain an offset, without their two flag
/// bits: that of the outermost, then that of the one in its value, as far as a value is only
/// attributes. The padding after an attribute is not part of it. No method allocates.
#[derive(Clone, Copy, Debug, PartialEq, Eq)]
pub struct Path<'a> {
    block: &'a [u8],
    offset: usize,
}

impl<'a> Path<'a> {
    ghost use Rattle.netlink_replies.specs.PathSteps.{GivesPath, block_of, offset_of};

    /// Returns the path to an offset in a block of attributes. It is empty if the offset is outside
    /// of every attribute, or if the block is malformed.
    #[inline]
    pub fn new(block: &'a [u8], offset: usize) -> Self
        ensures block { block_of result ≡ block.now }
        ensures offset { offset_of result ≡ offset }
        ensures path { GivesPath result }
    {
        Path { block, offset }
    }
}

impl<'a> Iterator for Path<'a> {
    ghost use Rattle.netlink_replies.specs.PathSteps.{block_of, path_steps};

    type Item = u16;

    ghost next_gives = { path_steps };

    ghost remaining = { λ path. at_most (length (block_of path)) };

    fn next(&mut self) -> Option<u16> {
        match find(self.block, self.offset) {
            Some(found) => {
                self.block = found.block_inside();
                self.offset = found.inside.saturating_sub(NLA_HEADER_SIZE);
                Some(found.kind)
            }
            None => {
                self.block = &[];
                None
            }
        }
    }
}

/// An attribute that contains an offset.
#[derive(Clone, Copy)]
struct Found<'a> {
    /// Its kind without the two flag bits.
    kind: u16,
    /// Its value.
    value: &'a [u8],
    /// The offset from its start.
    inside: usize,
}

impl<'a> Found<'a> {
    /// Returns the value, or nothing if the offset is in the header.
    fn block_inside(&self) -> &'a [u8]
        ensures { result.now ≡ (if nat_lt self.now.inside 4 then [] else self.now.value.now) }
    {
        if self.inside < NLA_HEADER_SIZE {
            &[]
        } else {
            self.value
        }
    }
}

/// Returns the attribute that contains the offset, or `None` if there is none, or if the block is
/// malformed.
fn find(block: &[u8], offset: usize) -> Option<Found<'_>>
    ensures found { IfSome result (IsFound block.now offset) }
    ensures none { IfNone result (attribute_at block.now offset ≡ None) }
{
    if nlas_fault(block).is_some() {
        return None;
    }
    seek(block, offset)
}

/// Returns the attribute that contains the offset, or `None` if there is none. Requires a block that
/// is not malformed.
fn seek(block: &[u8], offset: usize) -> Option<Found<'_>>
    requires { (all : List Attribute) × Walk block.now all None }
    ensures found { IfSome result (IsFound block.now offset) }
    ensures none { IfNone result (attribute_at block.now offset ≡ None) }
{
    let mut left = offset;
    for item in NlasIterator::new(block) {
        match item {
            Ok(nla) => {
                let size = nla.length() as usize;
                if left < size {
                    let kind = nla.kind();
                    let value = nla.value();
                    return Some(Found {
                        kind,
                        value,
                        inside: left,
                    });
                }
                let end = nla_align(size);
                if left < end {
                    return None;
                }
                left -= end;
            }
            Err(_) => return None,
        }
    }
    None
}
