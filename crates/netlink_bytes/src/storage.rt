//! The storage of views.

ghost use Rattle.std.specs.Prelude.{◌≡◌, ◌≤◌, slice_range, ℕ, List, length};
ghost use Rattle.std.specs.Borrow.{Lends, Array, sem, u8 as byte};
ghost use Rattle.std.specs.Vec.{with_items};
ghost use Rattle.netlink_bytes.specs.Storage.{put_at};
ghost use Rattle.netlink_bytes.specs.StorageLaws.{with_items-with_items};
ghost use denote.Ref.{at_last};
ghost use Rattle.std.proofs.Common.{refl, arith};
ghost use Rattle.std.proofs.lemmas.Grind.{common_steps};

/// A type that holds bytes, which a view reads in place.
pub trait Storage: Drop {
    /// The bytes that it holds.
    ghost contents: { Self → List ℕ };

    /// Borrows the bytes that it holds. Does not allocate.
    fn bytes(&self) -> &[u8]
        ensures contents { result.now ≡ contents self.now };
}

/// A type that holds bytes which can be written in place. Writing does not change their number.
pub trait StorageMut: Storage {
    /// The same value holding the given bytes instead of its own.
    ghost with_contents: { Self → List ℕ → Self };

    /// Mutably borrows the bytes that it holds. Does not allocate.
    fn bytes_mut(&mut self) -> &mut [u8]
        ensures* writes_back { sem 𝓛 (Lends Self.row (Array byte 0) self.entry result
            (with_contents self.old)) }
        ensures value { result.now ≡ Self.contents self.old };

    /// Mutably borrows the bytes from `start` up to, but not including, `end`. Requires
    /// `start <= end`, and that it holds at least `end` bytes. Does not allocate.
    fn part_mut(&mut self, start: usize, end: usize) -> &mut [u8]
        requires order { start ≤ end }
        requires inside { end ≤ length (Self.contents self.old) }
        ensures* writes_back { sem 𝓛 (Lends Self.row (Array byte 0) self.entry result
            (λ part. with_contents self.old (put_at (Self.contents self.old) start part))) }
        ensures value { result.now ≡ slice_range (Self.contents self.old) start end };

    /// After a write that keeps the number of bytes, it holds the bytes that were written.
    ghost contents_of_with_contents: { (s : Self) (bytes : List ℕ)
        → length bytes ≡ length (Self.contents s) → Self.contents (with_contents s bytes) ≡ bytes };

    /// Of two writes that keep the number of bytes, the later one remains.
    ghost with_contents_twice: { (s : Self) (first later : List ℕ)
        → length first ≡ length (Self.contents s) → length later ≡ length (Self.contents s)
        → with_contents (with_contents s first) later ≡ with_contents s later };
}

impl<'a> Storage for &'a [u8] {
    ghost contents = { λ slice. slice.now };

    /// Returns the slice itself.
    fn bytes(&self) -> &[u8] {
        *self
    }
}

impl<'a> Storage for &'a mut [u8] {
    ghost contents = { λ slice. slice.now };

    /// Reborrows the slice.
    fn bytes(&self) -> &[u8] {
        &self[..]
    }
}

impl Storage for Vec<u8> {
    ghost contents = { λ vec. vec.items };

    /// Borrows the items.
    fn bytes(&self) -> &[u8] {
        self.as_slice()
    }
}

impl<'a> StorageMut for &'a mut [u8] {
    ghost with_contents = { at_last };

    ghost contents_of_with_contents = { λ _ _ _. refl };

    ghost with_contents_twice = { λ _ _ _ _ _. refl };

    /// Reborrows the slice.
    fn bytes_mut(&mut self) -> &mut [u8] {
        &mut **self
    }

    /// Reborrows a part of the slice.
    fn part_mut(&mut self, start: usize, end: usize) -> &mut [u8] {
        &mut self[start..end]
    }
}

impl StorageMut for Vec<u8> {
    ghost with_contents = { with_items };

    ghost contents_of_with_contents = { λ s bytes same. Prim.grind (arith, common_steps) };

    ghost with_contents_twice = { with_items-with_items };

    /// Mutably borrows the items.
    fn bytes_mut(&mut self) -> &mut [u8] {
        self.as_mut_slice()
    }

    /// Mutably borrows a part of the items.
    fn part_mut(&mut self, start: usize, end: usize) -> &mut [u8] {
        self.slice_mut(start..end)
    }
}
