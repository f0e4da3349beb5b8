//! An integer that is not zero.

ghost use Rattle.std.specs.Prelude.{◌≡◌, ◌≢◌, pos, MatchOption};

/// An `i32` that is not zero, such as the code of an error message.
#[derive(Clone, Copy, Debug, PartialEq, Eq)]
pub struct NonZeroI32 {
    value: i32,
    ghost not_zero: { value ≢ pos 0 },
}

impl NonZeroI32 {
    ghost use Rattle.netlink_bytes.specs.NonZero.{number_of};

    /// Returns the number, or `None` if and only if it is 0. Does not allocate.
    pub fn new(value: i32) -> Option<NonZeroI32>
        ensures number { MatchOption result (value ≡ pos 0) (λ n. number_of n ≡ value) }
    {
        if value == 0 {
            None
        } else {
            Some(NonZeroI32 { value })
        }
    }

    /// Returns the number that was passed to `new`. It is never 0.
    pub fn get(&self) -> i32
        ensures number { result ≡ number_of self.now }
        ensures not_zero { result ≢ pos 0 }
    {
        self.value
    }
}
