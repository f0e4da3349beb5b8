//! A message read in place, without a copy.

ghost use Rattle.std.specs.Prelude.{◌≡◌, ◌+◌, ◌++◌, ℕ, List, Option, None, OnOk, Some, IfErr, IfOk, drop, false, length, take, true, ⊤};
ghost use Rattle.netlink_packet_core.specs.Attribute.{Attribute};
ghost use Rattle.netlink_packet_core.specs.Block.{canonical_block};
ghost use Rattle.netlink_packet_core.specs.DecodeError.{DecodeError};
ghost use Rattle.netlink_packet_core.specs.Frame.{Begins, Frame};
ghost use Rattle.netlink_packet_core.specs.Walk.{Walk};
ghost use Rattle.netlink_family.specs.PayloadReading.{short_reading};
ghost use Rattle.netlink_family.specs.Tables.{table_error};
ghost use Rattle.netlink_shapes.specs.Shapes.{has_type, reading_by, rows_in};
ghost use Rattle.netlink_shapes.specs.Short.{is_short, sent};

use crate::checked::CheckedAttributes;
use crate::family::{Family, Table, is_short, rows_of};
use crate::owned::OwnedMessage;
use netlink_blocks::block_view::BlockView;
use netlink_blocks::header_view::HeaderView;
use netlink_packet_core::{
    NetlinkDeserializable, NetlinkHeader, NetlinkMessage, NetlinkPayload, is_canonical_nlas,
};
use netlink_shapes::block::{append_attributes, block_error, has_shapes};
use netlink_shapes::error::FamilyError;
use netlink_shapes::shape::TOP;
use std::alloc::{AllocError, Global};
use std::marker::PhantomData;

/// A view of a message in the received bytes: its type, and a payload without errors. The padding
/// of the attributes may be any bytes. Only `to_owned`, `to_message` and `show` allocate.
#[derive(Debug)]
pub struct MessageView<'a, F: Table> {
    /// The message type, which is one of the family's.
    pub message_type: u16,
    /// The fixed header and the attributes, or a short payload, as received.
    pub payload: &'a [u8],
    /// The family of the message.
    pub family: PhantomData<F>,
    pub ghost good: { table_error F.Table message_type payload.now ≡ None },
}

impl<'a, F: Table> Clone for MessageView<'a, F> {
    ghost is_clone = { λ view copy. copy ≡ view };

    ghost is_infallible = { λ _. ⊤ };

    fn clone(&self) -> Result<Self, AllocError> {
        Ok(*self)
    }
}

impl<'a, F: Table> Copy for MessageView<'a, F> {}

impl<'a, F: Table> MessageView<'a, F> {
    /// Checks a payload of this message type. Returns the payload's error if it has one.
    #[tactic(auto, using(netlink_shapes::specs::ErrorLaws::block_shaped, netlink_shapes::specs::Checking::has_no_error))]
    pub fn new(message_type: u16, payload: &'a [u8]) -> Result<Self, FamilyError>
        ensures message_type { IfOk result (λ v. v.message_type ≡ message_type) }
        ensures payload { IfOk result (λ v. v.payload.now ≡ payload.now) }
        ensures good { IfOk result (λ _. table_error F.Table message_type payload.now ≡ None) }
        ensures error { IfErr result (λ e. table_error F.Table message_type payload.now ≡ Some e) }
    {
        let all = CheckedAttributes::<F>::new(message_type, payload)?;
        if !has_shapes(all.rows, all.block, all.walk) {
            return Err(FamilyError::InvalidAttribute(block_error(all.rows, all.end, all.block)));
        }
        Ok(MessageView {
            message_type,
            payload,
            family: PhantomData,
        })
    }

    /// Returns whether the payload is short: 1 to 4 bytes in place of header and attributes.
    pub fn is_short(&self) -> bool
        ensures { result ≡ is_short (F.short self.now.message_type) (F.header_len self.now.message_type) self.now.payload.now }
    {
        is_short::<F>(self.message_type, self.payload)
    }

    /// Returns the fixed header, with getters by field. The bytes that a short payload lacks are
    /// read as 0.
    pub fn header(&self) -> HeaderView<'a>
        ensures bytes { result.bytes.now ≡ take (F.header_len self.now.message_type) self.now.payload.now }
        ensures size { length result.bytes.now + result.missing ≡ F.header_len self.now.message_type }
        ensures whole { is_short (F.short self.now.message_type) (F.header_len self.now.message_type) self.now.payload.now ≡ false
            → length result.bytes.now ≡ F.header_len self.now.message_type }
    {
        let size = F::header_len(self.message_type);
        if self.payload.len() < size {
            return HeaderView {
                bytes: self.payload,
                missing: size - self.payload.len(),
            };
        }
        HeaderView {
            bytes: &self.payload[..size],
            missing: 0,
        }
    }

    /// Returns the attributes, as a block that `NlasIterator` walks.
    pub fn block(&self) -> &'a [u8]
        ensures { result.now ≡ drop (F.header_len self.now.message_type) self.now.payload.now }
    {
        let size = F::header_len(self.message_type);
        if self.payload.len() < size {
            return &[];
        }
        &self.payload[size..]
    }

    /// Returns a view of the attributes, with getters by kind and an iterator.
    pub fn view(&self) -> BlockView<'a>
        ensures rows { rows_in result.rows.list.now ≡ F.rows self.now.message_type }
        ensures policy { result.policy ≡ 0 }
        ensures block { result.block.now ≡ drop (F.header_len self.now.message_type) self.now.payload.now }
    {
        BlockView {
            rows: rows_of::<F>(self.message_type),
            policy: TOP,
            block: self.block(),
        }
    }

    /// Copies the message, in the form that `deserialize` returns, without checking it again.
    /// Returns an error if an allocation fails.
    #[tactic(auto, using(crate::specs::ShortLaws::short_read))]
    pub fn to_owned(&self, alloc: Global) -> Result<OwnedMessage<F>, AllocError>
        ensures message_type { IfOk result (λ m. m.message_type ≡ self.now.message_type) }
        ensures reads { IfOk result (λ m. (t : ℕ) → short_reading (F.short self.now.message_type)
            (F.header_len self.now.message_type) (reading_by (F.rows self.now.message_type)) t self.now.payload.now
            ≡ Some (t, sent m.short m.bytes.items)) }
    {
        if self.is_short() {
            own_type(self);
            return OwnedMessage::new_short(alloc, self.message_type, self.payload);
        }
        let mut bytes = Vec::with_capacity(alloc, self.payload.len())?;
        bytes.extend_from_slice(self.header().bytes)?;
        copy_block(alloc, &mut bytes, self.block())?;
        Ok(OwnedMessage {
            message_type: self.message_type,
            bytes,
            short: 0,
            family: PhantomData,
        })
    }
}

impl<'a, F: Family> MessageView<'a, F> {
    /// Copies the message of a frame whose header is `header` and whose payload is the view's: the
    /// message that `NetlinkMessage::deserialize` returns for it. Requires that the header has the
    /// view's message type. Returns an error if an allocation fails.
    pub fn to_message(
        &self,
        alloc: Global,
        header: NetlinkHeader,
    ) -> Result<NetlinkMessage<OwnedMessage<F>>, AllocError>
        requires message_type { header.message_type ≡ self.now.message_type }
        ensures header { IfOk result (λ m. m.header ≡ header) }
        ensures frame { IfOk result (λ m. (bytes : List ℕ) → Begins bytes header self.now.payload.now
            → Frame ⟦<OwnedMessage<F> as NetlinkDeserializable>⟧.decoding bytes m) }
    {
        let message = self.to_owned(alloc)?;
        Ok(NetlinkMessage::new(header, NetlinkPayload::InnerMessage(message)))
    }
}

/// Appends the attributes of a block in canonical form; if the walk has an error, those before it.
fn copy_block(alloc: Global, bytes: &mut Vec<u8>, block: &[u8]) -> Result<(), AllocError>
    ensures ok { OnOk result
        ((all : List Attribute) × (error : Option DecodeError) × Walk block.now all error
        × (bytes.new.items ≡ bytes.old.items ++ canonical_block all)) }
{
    if is_canonical_nlas(block) {
        bytes.extend_from_slice(block)?;
        return Ok(());
    }
    append_attributes(alloc, bytes, block)
}

/// A law: the message type is one of the family's. Does nothing at run time.
fn own_type<F: Table>(view: &MessageView<'_, F>)
    ensures { has_type F.types view.now.message_type ≡ true }
{}

impl<F: Table> OwnedMessage<F> {
    /// Returns a view of the message.
    pub fn message_view(&self) -> MessageView<'_, F>
        ensures message_type { result.message_type ≡ self.now.message_type }
        ensures payload { result.payload.now ≡ sent self.now.short self.now.bytes.items }
    {
        MessageView {
            message_type: self.message_type,
            payload: self.payload(),
            family: PhantomData,
        }
    }

    /// Returns a view of the attributes, with getters by kind and an iterator.
    #[tactic(auto, using(crate::specs::ShortLaws::sent_block))]
    pub fn view(&self) -> BlockView<'_>
        ensures rows { rows_in result.rows.list.now ≡ F.rows self.now.message_type }
        ensures policy { result.policy ≡ 0 }
        ensures block { result.block.now ≡ drop (F.header_len self.now.message_type) self.now.bytes.items }
    {
        self.message_view().view()
    }
}
