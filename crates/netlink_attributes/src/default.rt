//! An attribute that holds its value as bytes.

ghost use Rattle.std.specs.Prelude.{◌≡◌, ◌≤◌, [], IfErr, IfOk, IsOk, IsTrue, true, length};
ghost use Rattle.netlink_attributes.specs.Attribute.{padded, value_max};
ghost use Rattle.netlink_attributes.specs.Nla.{kept_attribute};
ghost use Rattle.netlink_attributes.specs.Views.{attribute_of, shown, HoldsAttribute};

use crate::buffer::NlaBuffer;
use crate::nla::{Nla, emit_nla, nla_buffer_len};
use netlink_bytes::{DecodeError, Emitable, Parseable, copy_of};
use std::alloc::Global;

/// An attribute of any kind, with its value as bytes. The kind keeps its two flag bits.
#[derive(Debug, PartialEq, Eq, Drop)]
pub struct DefaultNla {
    kind: u16,
    value: Vec<u8>,
}

impl DefaultNla {
    /// Returns an attribute with this kind and value. Does not allocate.
    #[inline]
    pub fn new(kind: u16, value: Vec<u8>) -> Self
        ensures kind { (kept_attribute result).kind ≡ kind }
        ensures value { (kept_attribute result).value ≡ value.items }
    {
        DefaultNla { kind, value }
    }

    /// Returns an equal attribute, or `OutOfMemory` if the allocation for its value fails. Does not
    /// allocate if the value is empty.
    pub fn try_clone(&self, alloc: Global) -> Result<Self, DecodeError>
        ensures same { IfOk result (λ copy. kept_attribute copy ≡ kept_attribute self.now) }
        ensures equal { IfOk result
            (λ copy. IsTrue (⟦<DefaultNla as PartialEq>⟧.eq copy self.now)) }
        ensures memory { IfErr result (λ e. e ≡ DecodeError.OutOfMemory) }
        ensures empty { (kept_attribute self.now).value ≡ [] → IsOk result }
    {
        Ok(DefaultNla {
            kind: self.kind,
            value: copy_of(alloc, &self.value)?,
        })
    }
}

impl Nla for DefaultNla {
    ghost kind_of = { λ nla. (kept_attribute nla).kind };

    ghost value_of = { λ nla. (kept_attribute nla).value };

    fn value_len(&self) -> usize {
        self.value.len()
    }

    fn kind(&self) -> u16 {
        self.kind
    }

    fn emit_value(&self, buffer: &mut [u8]) {
        buffer.copy_from_slice(self.value.as_slice());
    }
}

impl Emitable for DefaultNla {
    ghost bytes = { λ nla. padded (kept_attribute nla) };

    ghost can_emit = { λ nla. length (kept_attribute nla).value ≤ value_max };

    ghost takes_longer = { true };

    fn buffer_len(&self) -> usize {
        nla_buffer_len(self)
    }

    fn emit(&self, buffer: &mut [u8]) {
        emit_nla(self, buffer)
    }
}

impl<'a> Parseable<NlaBuffer<&'a [u8]>> for DefaultNla {
    ghost can_parse = { λ view. HoldsAttribute (shown view) };

    ghost reads = { λ view nla. kept_attribute nla ≡ attribute_of (shown view) };

    ghost refusal = { λ _ _. ⊥ };

    ghost needs_no_memory = { λ view. (attribute_of (shown view)).value ≡ [] };

    /// Returns the kind, with both flag bits, and a copy of the value. Requires that the view holds
    /// a complete attribute, which `check_buffer_length` checks. Returns `OutOfMemory` if the
    /// allocation for the value fails. Does not allocate if the value is empty.
    fn parse(alloc: Global, buf: &NlaBuffer<&'a [u8]>) -> Result<Self, DecodeError> {
        Ok(DefaultNla {
            kind: buf.raw_kind(),
            value: copy_of(alloc, buf.value())?,
        })
    }
}
