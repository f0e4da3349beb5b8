//! Appending attributes to an owned message.

ghost use Rattle.std.specs.Prelude.{◌≡◌, ◌≤◌, ◌++◌, drop, length, Err, None, Some, IfErr, OnOk, false, true};
ghost use Rattle.netlink_packet_core.specs.Attribute.{padded, value_max};
ghost use Rattle.netlink_packet_core.specs.Nla.{attribute_with};
ghost use Rattle.netlink_shapes.specs.ErrorTexts.{wants_memory};
ghost use Rattle.netlink_shapes.specs.Pushing.{added_error, has_room, late_error, push_error, room_error, satisfied_error};
ghost use Rattle.netlink_shapes.specs.Shapes.{fits_kind, shape_in, within};
ghost use Rattle.netlink_blocks.specs.Values.{is_satisfied, value_bytes, value_shape};
ghost use Rattle.netlink_shapes.specs.declared.attribute_error.AttributeError.{AttributeError};

use crate::family::Table;
use crate::late::{added_error, late_error};
use crate::owned::{OwnedMessage, header_fits};
use netlink_blocks::value::Value;
use netlink_packet_core::{
    DecodeError, NLA_BLOCK_MAX, NLA_HEADER_SIZE, NLA_VALUE_MAX, append_nla, nla_align,
};
use netlink_shapes::error::FamilyError;
use std::alloc::{AllocError, Global};

impl<F: Table> OwnedMessage<F> {
    /// Appends an attribute whose kind is known only at run time, or a nest. A short message becomes
    /// whole. Returns `InvalidAttribute`, with the offset counted from the start of the new attribute,
    /// if the value does not have the shape of its kind, or if the attribute would choose its own shape
    /// or that of an attribute before it (`LateChoice`); `TooLong` if the value or the message would be
    /// too long; `OutOfMemory` if the allocation fails. After an error the message is unchanged.
    #[inline(always)]
    #[tactic(auto, using(crate::specs::PushingLaws::push_by_value, crate::specs::PushingLaws::no_error_fits))]
    pub fn try_push(&mut self, alloc: Global, kind: u16, value: &[u8]) -> Result<(), FamilyError>
        ensures ok { OnOk result
            (self.new.bytes.items ≡ self.old.bytes.items ++ padded (attribute_with kind value.now)) }
        ensures good { OnOk result (push_error (F.header_len self.old.message_type) (F.rows self.old.message_type)
            self.old.bytes.items kind value.now ≡ None) }
        ensures error { IfErr result (λ e. wants_memory e ≡ false
            → push_error (F.header_len self.old.message_type) (F.rows self.old.message_type)
            self.old.bytes.items kind value.now ≡ Some e) }
        ensures invalid { (f : AttributeError)
            → added_error (within (F.rows self.old.message_type)
            (drop (F.header_len self.old.message_type) self.old.bytes.items)) kind value.now ≡ Some f
            → result ≡ Err (FamilyError.InvalidAttribute f) }
        ensures unchanged { IfErr result (λ _. self.new.bytes.items ≡ self.old.bytes.items) }
        ensures whole { OnOk result (self.new.short ≡ 0) }
        ensures unchanged_short { IfErr result (λ _. self.new.short ≡ self.old.short) }
        ensures message_type { self.new.message_type ≡ self.old.message_type }
    {
        match added_error::<F>(self.message_type, self.block(), kind, value) {
            Some(error) => Err(FamilyError::InvalidAttribute(error)),
            None => self.append_attribute(alloc, kind, value),
        }
    }

    /// Appends an attribute. A short message becomes whole. Requires that the table gives the kind
    /// the shape of the value, and that the value satisfies its shape. Nests are appended by
    /// `try_push`. Returns `InvalidAttribute` with `LateChoice` if the attribute would choose the shape
    /// of one before it, `TooLong` if the value or the message would be too long, and `OutOfMemory` if
    /// an allocation fails; the message is then unchanged.
    #[inline(always)]
    #[tactic(auto, using(crate::proofs::PushedNumbers::pushed_numbers))]
    pub fn push(&mut self, alloc: Global, kind: u16, value: Value<'_>) -> Result<(), FamilyError>
        requires shape { shape_in (F.rows self.old.message_type) 0 kind ≡ value_shape value }
        requires satisfied { is_satisfied value ≡ true }
        ensures ok { OnOk result
            (self.new.bytes.items ≡ self.old.bytes.items ++ padded (attribute_with kind (value_bytes value.entry))) }
        ensures room { OnOk result (satisfied_error (F.header_len self.old.message_type) (F.rows self.old.message_type)
            self.old.bytes.items kind (value_bytes value.entry) ≡ None) }
        ensures error { IfErr result (λ e. wants_memory e ≡ false
            → satisfied_error (F.header_len self.old.message_type) (F.rows self.old.message_type)
            self.old.bytes.items kind (value_bytes value.entry) ≡ Some e) }
        ensures unchanged { IfErr result (λ _. self.new.bytes.items ≡ self.old.bytes.items) }
        ensures whole { OnOk result (self.new.short ≡ 0) }
        ensures unchanged_short { IfErr result (λ _. self.new.short ≡ self.old.short) }
        ensures message_type { self.new.message_type ≡ self.old.message_type }
    {
        value_fits(self, kind, value);
        if let Some(error) = late_error::<F>(self.message_type, self.block(), kind) {
            return Err(FamilyError::InvalidAttribute(error));
        }
        match value {
            Value::Flag => self.append_attribute(alloc, kind, &[]),
            Value::U8(number) => self.append_attribute(alloc, kind, &[number]),
            Value::U16(number) => self.append_attribute(alloc, kind, &number.to_le_bytes()),
            Value::U32(number) => self.append_attribute(alloc, kind, &number.to_le_bytes()),
            Value::U64(number) => self.append_attribute(alloc, kind, &number.to_le_bytes()),
            Value::I32(number) => self.append_attribute(alloc, kind, &number.to_le_bytes()),
            Value::I64(number) => self.append_attribute(alloc, kind, &number.to_le_bytes()),
            Value::Be16(number) => self.append_attribute(alloc, kind, &number.to_be_bytes()),
            Value::Be32(number) => self.append_attribute(alloc, kind, &number.to_be_bytes()),
            Value::Be64(number) => self.append_attribute(alloc, kind, &number.to_be_bytes()),
            Value::BeI32(number) => self.append_attribute(alloc, kind, &number.to_be_bytes()),
            Value::ExactLen(bytes)
            | Value::Ip(bytes)
            | Value::NulStr(bytes)
            | Value::Str(bytes)
            | Value::MinLen(_, bytes)
            | Value::Elements(_, bytes)
            | Value::Bytes(bytes) => self.append_attribute(alloc, kind, bytes),
            Value::Nested(_) | Value::HeaderNested(_, _) => unreachable!(),
        }
    }

    /// Returns the attributes.
    fn block(&self) -> &[u8]
        ensures { result.now ≡ drop (F.header_len self.now.message_type) self.now.bytes.items }
    {
        header_fits(self);
        &self.bytes[F::header_len(self.message_type)..]
    }

    /// Appends an attribute whose value has the shape of its kind, and that does not change other
    /// shapes.
    #[inline(always)]
    fn append_attribute(
        &mut self,
        alloc: Global,
        kind: u16,
        value: &[u8],
    ) -> Result<(), FamilyError>
        requires shape { fits_kind (within (F.rows self.old.message_type)
            (drop (F.header_len self.old.message_type) self.old.bytes.items)) kind value.now ≡ true }
        requires late { late_error (within (F.rows self.old.message_type)
            (drop (F.header_len self.old.message_type) self.old.bytes.items)) kind ≡ None }
        ensures ok { OnOk result
            (self.new.bytes.items ≡ self.old.bytes.items ++ padded (attribute_with kind value.now)) }
        ensures room { OnOk result
            (room_error (F.header_len self.old.message_type) self.old.bytes.items value.now ≡ None) }
        ensures error { IfErr result (λ e. wants_memory e ≡ false
            → room_error (F.header_len self.old.message_type) self.old.bytes.items value.now ≡ Some e) }
        ensures unchanged { IfErr result (λ _. self.new.bytes.items ≡ self.old.bytes.items) }
        ensures whole { OnOk result (self.new.short ≡ 0) }
        ensures unchanged_short { IfErr result (λ _. self.new.short ≡ self.old.short) }
        ensures message_type { self.new.message_type ≡ self.old.message_type }
    {
        if !self.has_room(value) {
            return Err(FamilyError::TooLong);
        }
        match self.append_fitting(alloc, kind, value) {
            Ok(()) => Ok(()),
            Err(_) => Err(FamilyError::OutOfMemory),
        }
    }

    /// Appends an attribute that fits in the message. It is a separate function so that each call of
    /// `push` stays small, and its error is small, so that no space for a large one is written.
    #[inline(never)]
    fn append_fitting(&mut self, alloc: Global, kind: u16, value: &[u8]) -> Result<(), AllocError>
        requires shape { fits_kind (within (F.rows self.old.message_type)
            (drop (F.header_len self.old.message_type) self.old.bytes.items)) kind value.now ≡ true }
        requires late { late_error (within (F.rows self.old.message_type)
            (drop (F.header_len self.old.message_type) self.old.bytes.items)) kind ≡ None }
        requires room { has_room (F.header_len self.old.message_type) self.old.bytes.items value.now ≡ true }
        ensures ok { OnOk result
            (self.new.bytes.items ≡ self.old.bytes.items ++ padded (attribute_with kind value.now)) }
        ensures unchanged { IfErr result (λ _. self.new.bytes.items ≡ self.old.bytes.items) }
        ensures whole { OnOk result (self.new.short ≡ 0) }
        ensures unchanged_short { IfErr result (λ _. self.new.short ≡ self.old.short) }
        ensures message_type { self.new.message_type ≡ self.old.message_type }
    {
        match append_value(alloc, &mut self.bytes, kind, value) {
            Ok(()) => {
                self.short = 0;
                Ok(())
            }
            Err(_) => Err(AllocError),
        }
    }

    /// Returns whether an attribute with this value fits in the message.
    fn has_room(&self, value: &[u8]) -> bool
        ensures { result ≡ has_room (F.header_len self.now.message_type) self.now.bytes.items value.now }
    {
        header_fits(self);
        let used = self.bytes.len() - F::header_len(self.message_type);
        value.len() <= NLA_VALUE_MAX
            && used <= NLA_BLOCK_MAX - nla_align(NLA_HEADER_SIZE + value.len())
    }
}

/// Appends an attribute to a block, as `append_nla` does. Most values have 4 bytes, which the compiler
/// copies without a call.
#[inline(always)]
fn append_value(
    alloc: Global,
    block: &mut Vec<u8>,
    kind: u16,
    value: &[u8],
) -> Result<(), DecodeError>
    requires fits { length value.now ≤ value_max }
    ensures ok { OnOk result
        (block.new.items ≡ block.old.items ++ padded (attribute_with kind value.now)) }
    ensures err { IfErr result (λ _. block.new.items ≡ block.old.items) }
{
    match value {
        [first, second, third, fourth] => {
            append_nla(alloc, block, kind, &[*first, *second, *third, *fourth])
        }
        _ => append_nla(alloc, block, kind, value),
    }
}

/// A law: a value that satisfies the shape of its kind fits. Does nothing at run time.
#[tactic(auto, using(crate::specs::PushingLaws::satisfied_fits))]
fn value_fits<F: Table>(message: &OwnedMessage<F>, kind: u16, value: Value<'_>)
    requires shape { shape_in (F.rows message.now.message_type) 0 kind ≡ value_shape value }
    requires satisfied { is_satisfied value ≡ true }
    ensures { fits_kind (within (F.rows message.now.message_type)
        (drop (F.header_len message.now.message_type) message.now.bytes.items)) kind (value_bytes value.entry) ≡ true }
{}
