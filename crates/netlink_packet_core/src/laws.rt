//! Laws about the definitions alone. Calling a law does nothing at run time: its contract is the
//! theorem. The laws of `netlink_attributes`, and those about equality in the other crates below,
//! are re-exported here.

ghost use Rattle.std.specs.Prelude.{◌≡◌, ◌≢◌, ◌↔◌, ◌+◌, ◌<◌, ◌≤◌, ◌^◌, ◌++◌, ℕ, List, Some, true, IsTrue, take, length};
ghost use Rattle.netlink_packet_core.specs.Canonical.{Fits, IsCanonicalFrame, canonical_frame, finalized};
ghost use Rattle.netlink_packet_core.specs.Frame.{Frame, SamePayload};
ghost use Rattle.netlink_packet_core.specs.Header.{HeaderInRange, field, header_bytes};
ghost use Rattle.netlink_packet_core.specs.Payload.{InnerInRange, raw_code};
ghost use Rattle.netlink_packet_core.specs.Protocol.{IsOwnType};
ghost use Rattle.netlink_packet_core.specs.Refusal.{IsCutLater, IsCutShort, IsRefusal, SameRefusal};
ghost use Rattle.netlink_bytes.specs.declared.error.DecodeError.{DecodeError};
ghost use Rattle.netlink_packet_core.specs.declared.buffer.NetlinkBuffer.{NetlinkBuffer};
ghost use Rattle.netlink_packet_core.specs.declared.done.DoneBuffer.{DoneBuffer};
ghost use Rattle.netlink_packet_core.specs.declared.done.DoneMessage.{DoneMessage};
ghost use Rattle.netlink_packet_core.specs.declared.error.ErrorBuffer.{ErrorBuffer};
ghost use Rattle.netlink_packet_core.specs.declared.error.ErrorMessage.{ErrorMessage};
ghost use Rattle.netlink_packet_core.specs.declared.header.NetlinkHeader.{NetlinkHeader};
ghost use Rattle.netlink_packet_core.specs.declared.message.NetlinkMessage.{NetlinkMessage};
ghost use Rattle.netlink_packet_core.specs.declared.payload.NetlinkPayload.{NetlinkPayload};

use crate::buffer::NetlinkBuffer;
use crate::done::{DoneBuffer, DoneMessage};
use crate::error::{ErrorBuffer, ErrorMessage};
use crate::header::NetlinkHeader;
use crate::message::NetlinkMessage;
use crate::payload::NetlinkPayload;
use crate::traits::{NetlinkDeserializable, NetlinkProtocol};
pub use netlink_attributes::laws::{
    attributes_equal, attributes_read, block_unique, canonical_walks, fixed_points,
    older_block_kept, slice_views_equal, value_replaced, views_equal, walk_cut, walk_given,
    walk_join, walk_stops, walk_total, walk_unique, walks_equal, written_reads_back, written_walks,
};
pub use netlink_bytes::laws::{causes_equal, values_equal};
use netlink_bytes::{DecodeError, Storage};
pub use netlink_ethernet::laws::protocols_equal;

/// Establishes that the inner value of a payload is in range, for the proof of a caller.
fn inner_in_widths<I: NetlinkProtocol>(payload: &NetlinkPayload<I>)
    ensures { InnerInRange I.decoding payload.now }
{
    if let NetlinkPayload::InnerMessage(message) = payload {
        message.in_widths();
    }
}

/// States that two views are equal if and only if their storages are, by `==`.
pub fn message_views_equal<T: Storage + PartialEq>()
    ensures message { (a b : NetlinkBuffer T)
        → ⟦<NetlinkBuffer<T> as PartialEq>⟧.eq a b ≡ T.eq a.buffer b.buffer }
    ensures done { (a b : DoneBuffer T)
        → ⟦<DoneBuffer<T> as PartialEq>⟧.eq a b ≡ T.eq a.buffer b.buffer }
    ensures error { (a b : ErrorBuffer T)
        → ⟦<ErrorBuffer<T> as PartialEq>⟧.eq a b ≡ T.eq a.buffer b.buffer }
{}

/// States that two headers are equal if and only if they are the same value.
pub fn headers_equal()
    ensures equal { (a b : NetlinkHeader)
        → IsTrue (⟦<NetlinkHeader as PartialEq>⟧.eq a b) ↔ (a ≡ b) }
{}

/// States that two done messages, and two error messages, are equal if and only if their codes and
/// their bytes are.
pub fn bodies_equal()
    ensures done { (a b : DoneMessage) → IsTrue (⟦<DoneMessage as PartialEq>⟧.eq a b)
        ↔ ((a.code ≡ b.code) × (a.extended_ack.items ≡ b.extended_ack.items)) }
    ensures error { (a b : ErrorMessage) → IsTrue (⟦<ErrorMessage as PartialEq>⟧.eq a b)
        ↔ ((raw_code a.code ≡ raw_code b.code) × (a.header.items ≡ b.header.items)) }
{}

/// States that two messages are equal if and only if their headers are the same value and their
/// payloads are equal, and that two payloads are equal if and only if they have the same content:
/// the same code and bytes, or for inner messages the same (type, bytes) pair. Inner messages must
/// be in range, which `in_widths` establishes for every value at run time.
pub fn messages_equal<I: NetlinkProtocol>()
    ensures message { (a b : NetlinkMessage I)
        → InnerInRange I.decoding a.payload → InnerInRange I.decoding b.payload
        → IsTrue (⟦<NetlinkMessage<I> as PartialEq>⟧.eq a b)
        ↔ ((a.header ≡ b.header) × SamePayload I.decoding a.payload b.payload) }
    ensures payload { (a b : NetlinkPayload I)
        → InnerInRange I.decoding a → InnerInRange I.decoding b
        → IsTrue (⟦<NetlinkPayload<I> as PartialEq>⟧.eq a b) ↔ SamePayload I.decoding a b }
{}

/// States that bytes begin with the frame of at most one message, by `==`, and have at most one
/// canonical frame: messages of the same frame fit or do not fit together, and have the same
/// encoding.
pub fn frame_unique<I: NetlinkProtocol>()
    ensures unique { (bytes : List ℕ) (m n : NetlinkMessage I) → Frame I.decoding bytes m
        → Frame I.decoding bytes n
        → IsTrue (⟦<NetlinkMessage<I> as PartialEq>⟧.eq m n) }
    ensures same { (bytes : List ℕ) (m n : NetlinkMessage I) → Frame I.decoding bytes m
        → Frame I.decoding bytes n
        → (m.header ≡ n.header) × SamePayload I.decoding m.payload n.payload }
    ensures fits { (bytes : List ℕ) (m n : NetlinkMessage I) → Frame I.decoding bytes m
        → Frame I.decoding bytes n
        → Fits I.encoding m → Fits I.encoding n }
    ensures written { (bytes : List ℕ) (m n : NetlinkMessage I) → Frame I.decoding bytes m
        → Frame I.decoding bytes n
        → canonical_frame I.encoding m ≡ canonical_frame I.encoding n }
{
    messages_equal::<I>();
}

/// States that bytes are rejected with at most one error, apart from `OutOfMemory` and a protocol's
/// own words, and that bytes that begin with the frame of a message are rejected only with
/// `OutOfMemory`.
pub fn refusal_unique<I: NetlinkDeserializable>()
    ensures unique { (bytes : List ℕ) (e f : DecodeError)
        → IsRefusal I.decoding I.wants_memory bytes e → IsRefusal I.decoding I.wants_memory bytes f
        → e ≢ DecodeError.OutOfMemory → f ≢ DecodeError.OutOfMemory → SameRefusal e f }
    ensures frame { (bytes : List ℕ) (m : NetlinkMessage I) (e : DecodeError)
        → Frame I.decoding bytes m → IsRefusal I.decoding I.wants_memory bytes e
        → e ≡ DecodeError.OutOfMemory }
{}

/// States that the encoding of a message is its one canonical frame: it decodes to the finalized
/// message, whatever bytes follow, and no proper prefix of it is a frame. The canonical frames of
/// two messages are equal if and only if their finalized messages are, by `==`. Requires that both
/// messages fit.
pub fn reads_back<I: NetlinkProtocol>(m: &NetlinkMessage<I>, n: &NetlinkMessage<I>, c: &[u8])
    requires first { Fits I.encoding m.now }
    requires second { Fits I.encoding n.now }
    ensures canonical { IsCanonicalFrame I.decoding (canonical_frame I.encoding m.now) }
    ensures only { (b : List ℕ) → IsCanonicalFrame I.decoding b
        → Frame I.decoding b (finalized I.encoding m.now) → b ≡ canonical_frame I.encoding m.now }
    ensures before { Frame I.decoding (canonical_frame I.encoding m.now ++ c.now)
        (finalized I.encoding m.now) }
    ensures cut { (k : ℕ) → k < length (canonical_frame I.encoding m.now) → (x : NetlinkMessage I)
        → Frame I.decoding (take k (canonical_frame I.encoding m.now)) x → ⊥ }
    ensures cut_short { (k : ℕ) → k < 16
        → IsCutShort (canonical_frame I.encoding m.now) k }
    ensures cut_later { (k : ℕ) → 16 ≤ k → k < length (canonical_frame I.encoding m.now)
        → IsCutLater (canonical_frame I.encoding m.now) k }
    ensures equal { (canonical_frame I.encoding m.now ≡ canonical_frame I.encoding n.now)
        ↔ IsTrue (⟦<NetlinkMessage<I> as PartialEq>⟧.eq
        (finalized I.encoding m.now) (finalized I.encoding n.now)) }
{
    inner_in_widths(&m.payload);
    inner_in_widths(&n.payload);
    messages_equal::<I>();
}

/// States that what a protocol decodes, from any header and payload, is encoded as a canonical
/// frame. Its type is one of the protocol's own and fits its field. A header with that type and the
/// matching length, whatever its other fields are, followed by the encoding, is a canonical frame.
pub fn reading_is_canonical<I: NetlinkProtocol>()
    ensures own_type { (h : NetlinkHeader) (payload : List ℕ) (pair : ℕ × List ℕ)
        → I.decoding.reading h payload ≡ Some pair → IsOwnType pair.0 × (pair.0 < 2 ^ 16) }
    ensures canonical { (h : NetlinkHeader) (payload : List ℕ) (pair : ℕ × List ℕ)
        → I.decoding.reading h payload ≡ Some pair
        → (front : NetlinkHeader) → HeaderInRange front
        → front.message_type ≡ pair.0 → front.length ≡ 16 + length pair.1
        → IsCanonicalFrame I.decoding (header_bytes front ++ pair.1) }
{}

/// States that a proper prefix of a canonical frame is the frame of no message (`FrameShort` if it
/// has fewer than 16 bytes, else `FrameCut`), and is not canonical: no canonical frame is a proper
/// prefix of another.
pub fn cut_refused<I: NetlinkProtocol>(bytes: &[u8], cut: usize)
    ensures cut { IsCanonicalFrame I.decoding bytes.now → cut < length bytes.now
        → (m : NetlinkMessage I) → Frame I.decoding (take cut bytes.now) m → ⊥ }
    ensures cut_short { IsCanonicalFrame I.decoding bytes.now → cut < 16
        → IsCutShort bytes.now cut }
    ensures cut_later { IsCanonicalFrame I.decoding bytes.now → 16 ≤ cut → cut < length bytes.now
        → IsCutLater bytes.now cut }
    ensures beginning { IsCanonicalFrame I.decoding bytes.now → cut < length bytes.now
        → IsCanonicalFrame I.decoding (take cut bytes.now) → ⊥ }
{}

/// States that what follows a complete frame does not matter: with it and without it, the bytes
/// begin with the frame of the same messages.
pub fn tail_ignored<I: NetlinkProtocol>(bytes: &[u8], more: &[u8])
    ensures ignored { 16 ≤ field 0 4 bytes.now → field 0 4 bytes.now ≤ length bytes.now
        → (m : NetlinkMessage I)
        → (Frame I.decoding (bytes.now ++ more.now) m) ↔ (Frame I.decoding bytes.now m) }
{}

/// States that bytes that begin with the frame of a message that fits are the encoding of the
/// message if and only if they are canonical, and that the encoding is canonical.
pub fn frames_fixed<I: NetlinkProtocol>(bytes: &[u8])
    ensures fixed { (m : NetlinkMessage I) → Frame I.decoding bytes.now m → Fits I.encoding m
        → (canonical_frame I.encoding m ≡ bytes.now) ↔ IsCanonicalFrame I.decoding bytes.now }
    ensures canonical { (m : NetlinkMessage I) → Frame I.decoding bytes.now m → Fits I.encoding m
        → IsCanonicalFrame I.decoding (canonical_frame I.encoding m) }
{}
