//! A message that owns its bytes.

ghost use Rattle.std.specs.Prelude.{◌≡◌, Err, ◌≤◌, ◌<◌, replicate, take, ◌++◌, false, true, length, ℕ, None, Some, IfErr, IfOk, IfSome, IsTrue, not, refl, vec_capacity};
ghost use Rattle.netlink_shapes.specs.ErrorTexts.{wants_memory};
ghost use Rattle.netlink_family.specs.PayloadReading.{short_reading};
ghost use Rattle.netlink_shapes.specs.Errors.{short_error};
ghost use Rattle.netlink_family.specs.Tables.{table_error};
ghost use Rattle.netlink_family.specs.Message.{message_decoding, message_reading, is_canonical_payload};
ghost use Rattle.netlink_shapes.specs.Shapes.{has_type, keeps_by, reading_by};
ghost use Rattle.netlink_shapes.specs.Short.{filled, is_cut, is_short, sent};
ghost use Rattle.netlink_packet_core.specs.Protocol.{IsNormalFrame};

use crate::family::{Family, Table, is_short};
use crate::normal::{append_payload, header_room};
use netlink_blocks::header_view::HeaderView;
use netlink_packet_core::{
    NetlinkDeserializable, NetlinkHeader, NetlinkProtocol, NetlinkSerializable,
};
use netlink_shapes::error::{FamilyError, header_short};
use std::alloc::{AllocError, Global};
use std::marker::PhantomData;

/// A message of a family: its type, and its payload in canonical form, which is a fixed header
/// followed by attributes that have the shapes of their kinds. A short message has a payload of 1
/// to 4 bytes instead; setting a field or appending an attribute makes it whole.
#[derive(Debug, Drop, PartialEq, Eq)]
pub struct OwnedMessage<F: Table> {
    /// The message type, which is one of the family's.
    pub message_type: u16,
    /// The fixed header and the attributes. They are the payload, unless the message is short: then
    /// there are no attributes, and the bytes of the header after its payload are 0.
    pub bytes: Vec<u8>,
    /// The size of the payload if the message is short, which is at most 4; else 0.
    pub short: usize,
    /// The family of the message.
    pub family: PhantomData<F>,
    pub ghost own: { has_type F.types message_type ≡ true },
    pub ghost canonical: { is_canonical_payload (F.header_len message_type) (F.rows message_type) bytes.items ≡ true },
    pub ghost cut: { is_cut (F.short message_type) (F.header_len message_type) short bytes.items ≡ true },
}

impl<F: Table> OwnedMessage<F> {
    /// Returns a message of this type with a header of zeros and no attributes. Requires that the
    /// family has the message type. Returns `OutOfMemory` if the allocation fails.
    #[tactic(auto, using(crate::proofs::CanonicalPayloads::zeros_canonical))]
    pub fn new(alloc: Global, message_type: u16) -> Result<Self, FamilyError>
        requires own { has_type F.types message_type ≡ true }
        ensures message_type { IfOk result (λ m. m.message_type ≡ message_type) }
        ensures bytes { IfOk result (λ m. m.bytes.items ≡ replicate (F.header_len message_type) 0) }
        ensures short { IfOk result (λ m. m.short ≡ 0) }
        ensures memory { IfErr result (λ e. e ≡ FamilyError.OutOfMemory) }
    {
        let bytes = zeros(alloc, F::header_len(message_type))?;
        Ok(OwnedMessage {
            message_type,
            bytes,
            short: 0,
            family: PhantomData,
        })
    }

    /// Returns a short message of this type: its payload is `payload`. Requires that the family has
    /// the message type, and that the payload is short (`is_short`). Returns an error if the
    /// allocation fails.
    pub fn new_short(alloc: Global, message_type: u16, payload: &[u8]) -> Result<Self, AllocError>
        requires own { has_type F.types message_type ≡ true }
        requires short { is_short (F.short message_type) (F.header_len message_type) payload.now ≡ true }
        ensures message_type { IfOk result (λ m. m.message_type ≡ message_type) }
        ensures payload { IfOk result (λ m. sent m.short m.bytes.items ≡ payload.now) }
        ensures size { IfOk result (λ m. m.short ≡ length payload.now) }
    {
        short_is_less::<F>(message_type, payload);
        let bytes = filled(alloc, F::header_len(message_type), payload)?;
        Ok(OwnedMessage {
            message_type,
            bytes,
            short: payload.len(),
            family: PhantomData,
        })
    }

    /// Returns the payload.
    pub fn payload(&self) -> &[u8]
        ensures { result.now ≡ sent self.now.short self.now.bytes.items }
    {
        if self.short == 0 {
            return &self.bytes;
        }
        short_fits(self);
        &self.bytes[..self.short]
    }

    /// Returns whether the message is short.
    pub fn is_short(&self) -> bool
        ensures { result ≡ is_short (F.short self.now.message_type) (F.header_len self.now.message_type)
            (sent self.now.short self.now.bytes.items) }
    {
        self.short != 0
    }

    /// Returns the fixed header, with getters by field. In a short message, the bytes that the
    /// payload lacks are 0.
    pub fn header(&self) -> HeaderView<'_>
        ensures bytes { result.bytes.now ≡ take (F.header_len self.now.message_type) self.now.bytes.items }
        ensures size { length result.bytes.now ≡ F.header_len self.now.message_type }
        ensures missing { result.missing ≡ 0 }
    {
        header_fits(self);
        HeaderView {
            bytes: &self.bytes[..F::header_len(self.message_type)],
            missing: 0,
        }
    }

    /// Decodes a payload of this message type.
    #[tactic(auto, using(crate::specs::ShortLaws::short_read, crate::specs::ShortLaws::other_error))]
    fn decode(alloc: Global, message_type: u16, payload: &[u8]) -> Result<Self, FamilyError>
        requires own { has_type F.types message_type ≡ true }
        ensures message_type { IfOk result (λ m. m.message_type ≡ message_type) }
        ensures reads { IfOk result
            (λ m. (t : ℕ) → short_reading (F.short message_type) (F.header_len message_type)
            (reading_by (F.rows message_type)) t payload.now ≡ Some (t, sent m.short m.bytes.items)) }
        ensures error { IfErr result (λ e. wants_memory e ≡ false
            → short_error (F.short message_type) (F.header_len message_type) (F.rows message_type) payload.now ≡ Some e) }
    {
        let size = F::header_len(message_type);
        if payload.len() < size {
            if is_short::<F>(message_type, payload) {
                return match OwnedMessage::new_short(alloc, message_type, payload) {
                    Ok(message) => Ok(message),
                    Err(_) => Err(FamilyError::OutOfMemory),
                };
            }
            return Err(header_short(size, payload));
        }
        let mut bytes = Vec::with_capacity(alloc, payload.len())?;
        append_payload::<F>(alloc, message_type, size, &mut bytes, payload)?;
        Ok(OwnedMessage {
            message_type,
            bytes,
            short: 0,
            family: PhantomData,
        })
    }
}

/// The least room, in bytes, for a message with a header, so that its first few attributes need no
/// second allocation.
const LEAST_ROOM: usize = 64;

/// Returns a header of zeros, with room for a few attributes. Does not allocate for an empty header.
fn zeros(alloc: Global, size: usize) -> Result<Vec<u8>, AllocError>
    ensures zeros { IfOk result (λ header. header.items ≡ replicate size 0) }
    ensures room { IfOk result (λ header. 0 < size → 64 ≤ vec_capacity header) }
{
    let mut header = Vec::with_capacity(alloc, room_for(size))?;
    header.resize(size, 0)?;
    Ok(header)
}

/// Returns the bytes to allocate for a message with a header of this size.
#[inline(always)]
fn room_for(size: usize) -> usize
    ensures none { size ≡ 0 → result ≡ 0 }
    ensures least { 0 < size → size ≤ 64 → result ≡ 64 }
    ensures long { 64 < size → result ≡ size }
{
    if size == 0 || size > LEAST_ROOM {
        return size;
    }
    LEAST_ROOM
}

/// Returns the bytes of a payload, with zeros up to a size that is at least its own.
fn filled(alloc: Global, size: usize, payload: &[u8]) -> Result<Vec<u8>, AllocError>
    requires fits { length payload.now ≤ size }
    ensures { IfOk result (λ bytes. bytes.items ≡ filled size payload.now) }
{
    let mut bytes = Vec::with_capacity(alloc, size)?;
    bytes.extend_from_slice(payload)?;
    bytes.resize(size, 0)?;
    Ok(bytes)
}

/// A law: a short payload is shorter than the header, and has a byte. Does nothing at run time.
fn short_is_less<F: Table>(message_type: u16, payload: &[u8])
    requires short { is_short (F.short message_type) (F.header_len message_type) payload.now ≡ true }
    ensures less { length payload.now < F.header_len message_type }
    ensures some { 0 < length payload.now }
{}

/// A law: the bytes of a message contain its header. Does nothing at run time.
pub(crate) fn header_fits<F: Table>(message: &OwnedMessage<F>)
    ensures { F.header_len message.now.message_type ≤ length message.now.bytes.items }
{}

/// A law: the bytes of a message contain its payload. Does nothing at run time.
fn short_fits<F: Table>(message: &OwnedMessage<F>)
    ensures { message.now.short ≤ length message.now.bytes.items }
{}

impl<F: Family> NetlinkSerializable for OwnedMessage<F> {
    ghost encoding = { record {
      type_of = λ m. m.message_type;
      bytes_of = λ m. sent m.short m.bytes.items;
    } };

    fn message_type(&self) -> u16 {
        self.message_type
    }

    fn buffer_len(&self) -> usize {
        self.payload().len()
    }

    fn serialize(&self, buffer: &mut [u8]) {
        buffer.copy_from_slice(self.payload());
    }

    fn append(&self, frame: &mut Vec<u8>) -> Result<(), AllocError> {
        frame.extend_from_slice(self.payload())?;
        Ok(())
    }

    fn is_written_as(&self, _alloc: Global, bytes: &[u8]) -> Result<bool, AllocError> {
        Ok(self.payload() == bytes)
    }
}

impl<F: Family> NetlinkDeserializable for OwnedMessage<F> {
    type Error = FamilyError;

    ghost decoding = { message_decoding (λ m. (m.message_type, sent m.short m.bytes.items)) (has_type F.types)
        F.short F.header_len (λ t. reading_by (F.rows t)) };

    ghost wants_memory = { wants_memory };

    fn deserialize(
        alloc: Global,
        header: &NetlinkHeader,
        payload: &[u8],
    ) -> Result<Self, FamilyError>
        ensures in_range { IfOk result (λ v. IsTrue true) }
        ensures reads { IfOk result
            (λ v. message_reading (has_type F.types) F.short F.header_len (λ t. reading_by (F.rows t)) header.now payload.now
            ≡ Some (v.message_type, sent v.short v.bytes.items)) }
        ensures refuses { IfErr result (λ e. wants_memory e ≡ false
            → message_reading (has_type F.types) F.short F.header_len (λ t. reading_by (F.rows t)) header.now payload.now
            ≡ None) }
        // each error other than `OutOfMemory` is the payload's one error
        ensures error { IfErr result (λ e. wants_memory e ≡ false
            → table_error F.Table header.now.message_type payload.now ≡ Some e) }
    {
        if F::has(header.message_type) {
            let message = OwnedMessage::decode(alloc, header.message_type, payload)?;
            return Ok(message);
        }
        Err(FamilyError::UnknownType {
            message_type: header.message_type,
        })
    }

    fn is_out_of_memory(error: &FamilyError) -> bool {
        matches!(error, FamilyError::OutOfMemory)
    }

    /// Writes the frame without the message, unless the payload is shorter than the header or the type
    /// is unknown.
    fn normal_frame(
        alloc: Global,
        header: &NetlinkHeader,
        payload: &[u8],
    ) -> Result<Option<Vec<u8>>, FamilyError>
        ensures writes { IfOk result (λ found. IfSome found
            (λ frame. IsNormalFrame ⟦<OwnedMessage<F> as NetlinkDeserializable>⟧.decoding header.now payload.now frame.items)) }
        ensures refuses { IfErr result (λ e. wants_memory e ≡ false
            → message_reading (has_type F.types) F.short F.header_len (λ t. reading_by (F.rows t)) header.now payload.now
            ≡ None) }
        // each error other than `OutOfMemory` is the payload's one error
        ensures error { IfErr result (λ e. wants_memory e ≡ false
            → table_error F.Table header.now.message_type payload.now ≡ Some e) }
    {
        let message_type = header.message_type;
        if !F::has(message_type) {
            return Ok(None);
        }
        let size = F::header_len(message_type);
        if payload.len() < size {
            return Ok(None);
        }
        let mut frame = header_room(alloc, size, payload)?;
        append_payload::<F>(alloc, message_type, size, &mut frame, payload)?;
        Ok(Some(frame))
    }
}

impl<F: Family> NetlinkProtocol for OwnedMessage<F> {
    ghost use Rattle.netlink_family.specs.MessageLaws.{own_types, reading_lawful};
    ghost use Rattle.netlink_family.specs.CanonicalPayloadLaws.{equal_messages, canonical_lawful};

    fn in_widths(&self) {}

    ghost own_pair = { λ m. refl };

    ghost equal_pairs = { λ v w first second.
        equal_messages F.short F.header_len F.rows v.message_type w.message_type v.short w.short v.bytes.items w.bytes.items
        (record { canonical = v.canonical; cut = v.cut }) (record { canonical = w.canonical; cut = w.cut }) };

    ghost value_is_lawful = { λ v in_range.
        canonical_lawful _ (has_type F.types) F.short F.header_len F.rows (own_types F.types F.own) v.message_type v.short
        v.bytes.items v.own v.canonical v.cut };

    ghost reading_is_lawful = { reading_lawful _ (has_type F.types) F.short F.header_len
        (λ t. reading_by (F.rows t)) (own_types F.types F.own) (λ t. keeps_by (F.rows t)) };
}
