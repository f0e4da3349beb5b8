//! The walk over the attributes of a block.

ghost use Rattle.std.specs.Prelude.{◌≡◌, ◌+◌, ◌≤◌, ◌<◌, ◌^◌, length};
ghost use Rattle.std.specs.Iterator.{at_most};
ghost use Rattle.netlink_attributes.specs.Views.{attribute_of, length_field, HoldsAttribute};
ghost use Rattle.netlink_attributes.specs.Walk.{Starts};
ghost use Rattle.netlink_attributes.specs.Steps.{unread, steps, item_bound, GivesWalk};

use crate::align::nla_align;
use crate::buffer::{NlaBuffer, checked_length};
use netlink_bytes::DecodeError;

/// An iterator over the attributes of a block, in order. An error is the last item; from then on,
/// `next` returns `None`.
///
/// An item is a view over all unread bytes, and its value is a part of them. Two iterators are
/// equal if and only if the bytes still to be walked are equal. No method allocates.
#[derive(Clone, Copy, Debug, PartialEq, Eq)]
pub struct NlasIterator<T> {
    rest: T,
}

impl<'a> NlasIterator<&'a [u8]> {
    /// Returns an iterator over the attributes of `buffer`.
    #[inline]
    pub fn new(buffer: &'a [u8]) -> Self
        ensures keeps { unread result ≡ buffer.now }
        ensures items { GivesWalk result }
    {
        NlasIterator { rest: buffer }
    }
}

impl<'a> Iterator for NlasIterator<&'a [u8]> {
    type Item = Result<NlaBuffer<&'a [u8]>, DecodeError>;

    ghost next_gives = { steps };

    ghost remaining = { λ walk. at_most (item_bound (unread walk)) };

    #[inline]
    fn next(&mut self) -> Option<Result<NlaBuffer<&'a [u8]>, DecodeError>> {
        let bytes = self.rest;
        if bytes.is_empty() {
            return None;
        }
        match checked_length(bytes) {
            Ok(size) => {
                self.rest = after(bytes, size as usize);
                Some(Ok(NlaBuffer::new(bytes)))
            }
            Err(fault) => {
                self.rest = &[];
                Some(Err(fault))
            }
        }
    }
}

/// Returns what follows the attribute that the bytes start with, and its padding. Requires that the
/// bytes hold a complete attribute, and that `size` is its length field and less than 2^16.
#[inline(always)]
fn after(bytes: &[u8], size: usize) -> &[u8]
    requires whole { HoldsAttribute bytes.now }
    requires size { size ≡ length_field bytes.now }
    requires fits { size < 2 ^ 16 }
    ensures starts { Starts bytes.now (attribute_of bytes.now) result.now }
    ensures shorter { length result.now + 4 ≤ length bytes.now }
{
    let end = nla_align(size);
    if end < bytes.len() {
        &bytes[end..]
    } else {
        &[]
    }
}
