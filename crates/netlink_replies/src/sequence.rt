//! Sequence numbers for requests.

ghost use Rattle.std.specs.Prelude.{◌≡◌, ◌≢◌, ◌+◌, nat_lt, if◌then◌else◌};

/// A counter of sequence numbers. It never gives 0, which the kernel uses for notifications, and
/// wraps from 2^32 - 1 to 1.
#[derive(Clone, Copy, Debug, PartialEq, Eq)]
pub struct SequenceNumbers {
    /// The number that was given last, or 0.
    pub last: u32,
}

impl SequenceNumbers {
    ghost use Rattle.netlink_replies.specs.Sequence.{number_after};

    /// Returns a counter that continues after a number.
    #[inline]
    pub fn new(last: u32) -> Self
        ensures { result.last ≡ last }
    {
        SequenceNumbers { last }
    }

    /// Returns the next number, which is never 0.
    #[inline]
    pub fn next(&mut self) -> u32
        ensures number { result ≡ number_after self.old.last }
        ensures last { self.new.last ≡ result }
        ensures some { result ≢ 0 }
    {
        self.last = if self.last == u32::MAX {
            1
        } else {
            self.last + 1
        };
        self.last
    }
}
