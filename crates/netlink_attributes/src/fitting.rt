//! Attributes that fit in a message.

ghost use Rattle.std.specs.Prelude.{◌≡◌, ◌↔◌, ◌⊎◌, ◌∷◌, ◌++◌, ◌≤◌, [], All, Err, IfErr, IfSome, IsSome, true, IsErr, IfOk, length};
ghost use Rattle.std.specs.Cmp.{on_equiv, on_per};
ghost use Rattle.std.specs.Cmp.Lexicographic.{lists_equiv, lists_per, pointwise};
ghost use Rattle.netlink_bytes.specs.declared.error.DecodeError.{DecodeError};
ghost use Rattle.netlink_attributes.specs.Attribute.{FitsAttribute};
ghost use Rattle.netlink_attributes.specs.Nla.{attributes_of, block_max, written_block, FitBlock};

use crate::nla::{Nla, nla_buffer_len, nla_fits};
use crate::nlas::Nlas;
use netlink_bytes::{DecodeError, Emitable};

/// The maximum size in bytes of a block that fits in a message: 4095 less than the largest 32-bit
/// length, which leaves room for the message header and for a fixed header of the protocol.
pub const NLA_BLOCK_MAX: usize = 4294963200;

/// Attributes that fit in a message: each value has at most `NLA_VALUE_MAX` bytes, and the block at
/// most `NLA_BLOCK_MAX`. So a message that holds them can be encoded, whatever they are.
#[derive(Debug, Drop)]
pub struct NlaBlock<T: Nla> {
    /// The attributes, in order.
    pub list: Vec<T>,
    /// The size of the block, in bytes.
    pub size: usize,
    pub ghost each: { All FitsAttribute (attributes_of T.kind_of T.value_of list.items) },
    pub ghost counted: { size ≡ length (written_block T.kind_of T.value_of list.items) },
    pub ghost whole: { size ≤ block_max },
}

impl<T: Nla + Drop> NlaBlock<T> {
    /// Returns the block of these attributes, or `None` if a value has more than `NLA_VALUE_MAX`
    /// bytes or the block more than `NLA_BLOCK_MAX`. Does not allocate.
    pub fn new(list: Vec<T>) -> Option<Self>
        ensures fits { IsSome result ↔ FitBlock T.kind_of T.value_of list.items }
        ensures list { IfSome result (λ block. block.list ≡ list) }
    {
        match block_size(list.as_slice()) {
            Some(size) => Some(NlaBlock { list, size }),
            None => None,
        }
    }

    /// Appends an attribute. Returns `TooLong`, whether or not there is memory, if its value has
    /// more than `NLA_VALUE_MAX` bytes or if the block would have more than `NLA_BLOCK_MAX`.
    /// Returns `OutOfMemory` if an allocation fails. After an error, the block is unchanged, and
    /// the attribute is dropped.
    pub fn push(&mut self, nla: T) -> Result<(), DecodeError>
        ensures ok { IfOk result (λ _. self.new.list.items ≡ self.old.list.items ++ (nla ∷ [])) }
        ensures too_long { (FitBlock T.kind_of T.value_of (self.old.list.items ++ (nla ∷ [])) → ⊥)
            → result ≡ Err DecodeError.TooLong }
        ensures memory { FitBlock T.kind_of T.value_of (self.old.list.items ++ (nla ∷ []))
            → IfErr result (λ e. e ≡ DecodeError.OutOfMemory) }
        ensures unchanged { IfErr result (λ _. self.new.list.items ≡ self.old.list.items) }
    {
        if !nla_fits(&nla) {
            return Err(DecodeError::TooLong);
        }
        let more = nla_buffer_len(&nla);
        if more > NLA_BLOCK_MAX - self.size {
            return Err(DecodeError::TooLong);
        }
        let _width = nla.kind();
        self.list.push(nla)?;
        self.size += more;
        Ok(())
    }
}

impl<T: Nla> Emitable for NlaBlock<T> {
    ghost bytes = { λ block. written_block T.kind_of T.value_of block.list.items };

    ghost can_emit = { λ _. Unit {0} };

    ghost takes_longer = { true };

    fn buffer_len(&self) -> usize {
        self.size
    }

    /// Writes the block at the start of `buffer` and leaves the rest unchanged. Requires that
    /// `buffer` has at least `buffer_len` bytes.
    fn emit(&self, buffer: &mut [u8]) {
        Nlas(self.list.as_slice()).emit(buffer);
    }
}

impl<T: Nla + PartialEq> PartialEq for NlaBlock<T> {
    ghost eq = { λ a b. pointwise T.eq a.list.items b.list.items };

    ghost laws = { on_per (λ block. block.list.items) (lists_per T.PartialEq.laws) };

    fn eq(&self, other: &Self) -> bool {
        self.list.as_slice() == other.list.as_slice()
    }
}

impl<T: Nla + Eq> Eq for NlaBlock<T> {
    ghost laws = { on_equiv (λ block. block.list.items) (lists_equiv T.Eq.laws) };
}

/// Returns the size in bytes of the block that encodes the attributes, or `None` if they do not
/// fit.
fn block_size<T: Nla>(list: &[T]) -> Option<usize>
    ensures some { IfSome result
        (λ size. size ≡ length (written_block T.kind_of T.value_of list.now)) }
    ensures fits { IsSome result ↔ FitBlock T.kind_of T.value_of list.now }
    ensures each { IfSome result
        (λ _. All FitsAttribute (attributes_of T.kind_of T.value_of list.now)) }
{
    let mut size = 0;
    for nla in list {
        let _width = nla.kind();
        if !nla_fits(nla) {
            return None;
        }
        size += nla_buffer_len(nla);
        if size > NLA_BLOCK_MAX {
            return None;
        }
    }
    Some(size)
}
