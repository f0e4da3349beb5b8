//! A short name of a link.

ghost use Rattle.std.specs.Prelude.{◌≡◌, ◌≤◌, length};

use std::marker::Model;

/// The size in bytes of the longest name of a link (`IFNAMSIZ` of linux/if.h, without the NUL).
pub(crate) const LONGEST_NAME: usize = 15;

/// A name of at most 15 bytes, in place, so that an index of names takes no block for each.
#[derive(Drop)]
pub struct Short {
    bytes: [u8; LONGEST_NAME],
    len: u8,
}

impl Model for Short {
    ghost use Rattle.std.specs.Prelude.{◌≤◌, ℕ, List, take};

    ghost Value = { List ℕ };

    ghost view = { λ name. take name.len name.bytes };

    ghost invariant = { λ name. name.len ≤ 15 };
}

impl Short {
    /// Copies the bytes of a name. Requires that they are at most 15.
    pub(crate) fn new(name: &[u8]) -> Short
        requires short { length name.now ≤ 15 }
        ensures copies { result ≡ name.now }
    {
        let mut bytes = [0; LONGEST_NAME];
        bytes[..name.len()].copy_from_slice(name);
        Short {
            bytes,
            len: name.len() as u8,
        }
    }

    /// Returns the bytes.
    pub(crate) fn bytes(&self) -> &[u8]
        ensures bytes { result.now ≡ self.now }
    {
        &self.bytes[..self.len as usize]
    }
}
