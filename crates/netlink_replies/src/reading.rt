//! An iterator over the items of a datagram.

ghost use Rattle.std.specs.Prelude.{◌≡◌};
ghost use Rattle.std.specs.Iterator.{at_most};

use crate::replies::Replies;
use crate::reply::Reply;
use netlink_packet_core::DecodeError;

/// An iterator over the items of a datagram, in order. It borrows the state of the answer, which
/// moves as items are taken: an iterator that is dropped early leaves the state where it is, and
/// the rest of the datagram counts as not read. No method allocates.
#[derive(Drop)]
pub struct Reading<'r, 'a> {
    replies: &'r mut Replies,
    datagram: &'a [u8],
    cursor: usize,
}

impl Replies {
    ghost use Rattle.netlink_replies.specs.ReadingSteps.{state_of, unread_of, GivesReplies};

    /// Returns an iterator over the items of a datagram. It continues the answer in this state, which
    /// moves as items are taken.
    #[inline]
    pub fn read<'r, 'a>(&'r mut self, datagram: &'a [u8]) -> Reading<'r, 'a>
        ensures same_reference { result.replies.ghost_name ≡ self.entry.ghost_name }
        ensures state { state_of result ≡ self.old }
        ensures unread { unread_of result ≡ datagram.now }
        ensures items { GivesReplies result }
    {
        Reading {
            replies: self,
            datagram,
            cursor: 0,
        }
    }
}

impl<'r, 'a> Iterator for Reading<'r, 'a> {
    ghost use Rattle.netlink_replies.specs.ReadingSteps.{left_of, reading_steps};

    type Item = Result<Reply<&'a [u8]>, DecodeError>;

    ghost next_gives = { reading_steps };

    ghost remaining = { λ reading. at_most (left_of reading) };

    #[inline]
    fn next(&mut self) -> Option<Result<Reply<&'a [u8]>, DecodeError>> {
        self.replies.next(self.datagram, &mut self.cursor)
    }
}
