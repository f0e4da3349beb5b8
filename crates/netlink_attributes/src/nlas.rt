//! Writing attributes one after another.

ghost use Rattle.std.specs.Prelude.{◌≡◌, ◌≤◌, ◌++◌, [], None, IfErr, IfOk, IsOk, true, drop, length};
ghost use Rattle.netlink_bytes.specs.declared.error.DecodeError.{DecodeError};
ghost use Rattle.netlink_attributes.specs.Nla.{attributes_of, written_block, AllFit};
ghost use Rattle.netlink_attributes.specs.Walk.{Walk};

use crate::nla::{Nla, emit_nla, nla_buffer_len};
use netlink_bytes::{DecodeError, Emitable};
use std::alloc::Global;

/// Attributes to be written one after another, each with its padding.
#[derive(Debug)]
#[derive_where(Clone, Copy)]
pub struct Nlas<'a, T: Nla>(pub &'a [T]);

impl<'a, T: Nla> Emitable for Nlas<'a, T> {
    ghost bytes = { λ nlas. written_block T.kind_of T.value_of nlas.0.now };

    ghost can_emit = { λ nlas. AllFit T.value_of nlas.0.now };

    ghost takes_longer = { true };

    fn buffer_len(&self) -> usize {
        let mut size = 0;
        for nla in self.0 {
            size += nla_buffer_len(nla);
        }
        size
    }

    /// Writes the attributes at the start of `buffer` and leaves the rest unchanged. Walking what
    /// is written yields the list. Requires that each value has at most `NLA_VALUE_MAX` bytes, and
    /// that `buffer` has at least `buffer_len` bytes.
    fn emit(&self, buffer: &mut [u8])
        requires can { AllFit T.value_of self.now.0.now }
        requires room { length (written_block T.kind_of T.value_of self.now.0.now)
            ≤ length buffer.old }
        ensures written { buffer.new
            ≡ written_block T.kind_of T.value_of self.now.0.now
            ++ drop (length (written_block T.kind_of T.value_of self.now.0.now)) buffer.old }
        ensures walks { Walk (written_block T.kind_of T.value_of self.now.0.now)
            (attributes_of T.kind_of T.value_of self.now.0.now) None }
    {
        let mut at = 0;
        for nla in self.0 {
            emit_nla(nla, &mut buffer[at..]);
            at += nla_buffer_len(nla);
        }
    }
}

/// Returns the block that `Nlas` writes for these attributes, in a vector of its own.
///
/// Requires that each value has at most `NLA_VALUE_MAX` bytes, which `nla_fits` checks. Returns
/// `OutOfMemory` if an allocation fails, and no other error. Does not allocate if `nlas` is empty.
#[tactic(auto, using(crate::specs::Sizes::written_sizes))]
pub fn write_nlas<T: Nla>(alloc: Global, nlas: &[T]) -> Result<Vec<u8>, DecodeError>
    requires fit { AllFit T.value_of nlas.now }
    ensures written { IfOk result
        (λ block. block.items ≡ written_block T.kind_of T.value_of nlas.now) }
    ensures memory { IfErr result (λ e. e ≡ DecodeError.OutOfMemory) }
    ensures empty { nlas.now ≡ [] → IsOk result }
{
    let mut block = Vec::new(alloc);
    for nla in nlas {
        let start = block.len();
        block.resize(start + nla_buffer_len(nla), 0)?;
        emit_nla(nla, &mut block[start..]);
    }
    Ok(block)
}
