//! The name of a link.

ghost use Rattle.std.specs.Prelude.{◌≡◌, IfOk, List, ℕ};

use std::alloc::{AllocError, Global};
use std::marker::Model;

/// The bytes of a name.
#[derive(Drop)]
pub struct Name {
    bytes: Vec<u8>,
}

impl Model for Name {
    ghost Value = { List ℕ };

    ghost view = { λ name. name.bytes.items };
}

impl Name {
    /// Copies the bytes of a name. Returns `AllocError` if an allocation fails.
    pub fn new(alloc: Global, bytes: &[u8]) -> Result<Name, AllocError>
        ensures copies { IfOk result (λ name. name ≡ bytes.now) }
    {
        Ok(Name {
            bytes: Vec::from_slice(alloc, bytes)?,
        })
    }

    /// Returns the bytes.
    pub fn bytes(&self) -> &[u8]
        ensures bytes { result.now ≡ self.now }
    {
        &self.bytes
    }
}
