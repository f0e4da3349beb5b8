//! Values that can be written as attributes.

ghost use Rattle.std.specs.Prelude.{◌≡◌, ◌↔◌, ◌-◌, ◌<◌, ◌≤◌, ◌^◌, ◌++◌, ℕ, List, IsTrue, drop, length};
ghost use Rattle.netlink_attributes.specs.Attribute.{padded, padded_size, value_max};
ghost use Rattle.netlink_attributes.specs.Nla.{attribute_with};
ghost use Rattle.netlink_attributes.specs.Views.{is_nested, is_network_byteorder};

use crate::align::nla_align;
use crate::block::attribute_header;
use crate::buffer::{is_nested_kind, is_network_kind};
use crate::constants::{NLA_HEADER_SIZE, NLA_VALUE_MAX};

/// A value that represents an attribute: a kind, and the bytes of its value.
pub trait Nla {
    /// The kind with its two flag bits.
    ghost kind_of: { Self → ℕ };

    /// The bytes of the value.
    ghost value_of: { Self → List ℕ };

    /// Returns the size of the value in bytes.
    fn value_len(&self) -> usize
        ensures size { result ≡ length (value_of self.now) };

    /// Returns the kind with its two flag bits.
    fn kind(&self) -> u16
        ensures kind { result ≡ kind_of self.now };

    /// Writes the value over all of `buffer`. Requires that `buffer` has exactly `value_len` bytes.
    fn emit_value(&self, buffer: &mut [u8])
        requires size { length buffer.old ≡ length (value_of self.now) }
        ensures value { buffer.new ≡ value_of self.now };

    /// Returns whether the kind has the bit `NLA_F_NESTED`.
    fn is_nested(&self) -> bool
        ensures flag { result ≡ is_nested (kind_of self.now) }
    {
        is_nested_kind(self.kind())
    }

    /// Returns whether the kind has the bit `NLA_F_NET_BYTEORDER`.
    fn is_network_byteorder(&self) -> bool
        ensures flag { result ≡ is_network_byteorder (kind_of self.now) }
    {
        is_network_kind(self.kind())
    }
}

/// Returns the size in bytes of what `emit_nla` writes: header, value and padding. Requires that
/// the value has at most `usize::MAX - 7` bytes.
#[tactic(auto, using(crate::specs::Sizes::written_sizes))]
#[inline]
pub fn nla_buffer_len<T: Nla>(nla: &T) -> usize
    requires room { length (T.value_of nla.now) ≤ usize.MAX - 7 }
    ensures size { result
        ≡ length (padded (attribute_with (T.kind_of nla.now) (T.value_of nla.now))) }
    ensures number { result
        ≡ padded_size (attribute_with (T.kind_of nla.now) (T.value_of nla.now)) }
{
    nla_align(nla.value_len()) + NLA_HEADER_SIZE
}

/// Returns whether the value has at most `NLA_VALUE_MAX` bytes, so that the 16-bit length field can
/// count it and its header.
#[inline]
pub fn nla_fits<T: Nla>(nla: &T) -> bool
    ensures fits { IsTrue result ↔ (length (T.value_of nla.now) ≤ value_max) }
{
    nla.value_len() <= NLA_VALUE_MAX
}

/// Writes the attribute at the start of `buffer`, with its kind unchanged and padded with zeros,
/// and leaves the rest unchanged. Does not allocate.
///
/// Requires that the value has at most `NLA_VALUE_MAX` bytes, which `nla_fits` checks, and that
/// `buffer` has at least `nla_buffer_len` bytes.
#[tactic(auto, using(crate::specs::Sizes::written_sizes))]
#[inline]
pub fn emit_nla<T: Nla>(nla: &T, buffer: &mut [u8])
    requires fits { length (T.value_of nla.now) ≤ value_max }
    requires room { length (padded (attribute_with (T.kind_of nla.now) (T.value_of nla.now)))
        ≤ length buffer.old }
    ensures written { buffer.new
        ≡ padded (attribute_with (T.kind_of nla.now) (T.value_of nla.now))
        ++ drop (length (padded (attribute_with (T.kind_of nla.now) (T.value_of nla.now))))
        buffer.old }
    ensures kind { T.kind_of nla.now < 2 ^ 16 }
{
    let value_len = nla.value_len();
    let size = value_len + NLA_HEADER_SIZE;
    let (header, after_header) = buffer.split_at_mut(NLA_HEADER_SIZE);
    header.copy_from_slice(&attribute_header(size as u16, nla.kind()));
    let (value, after_value) = after_header.split_at_mut(value_len);
    nla.emit_value(value);
    let (padding, _) = after_value.split_at_mut(nla_align(size) - size);
    padding.fill(0);
}
