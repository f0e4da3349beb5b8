//! Attributes, written into a caller's buffer at a cursor.

ghost use Rattle.std.specs.Prelude.{◌≡◌, ◌≢◌, ◌+◌, ◌<◌, ◌≤◌, ◌^◌, ◌++◌, ◌∷◌, [], drop, length};
ghost use Rattle.netlink_packet_core.specs.Attribute.{padded, value_max};
ghost use Rattle.netlink_packet_core.specs.Nla.{attribute_with};
ghost use Rattle.netlink_packet_core.specs.Numbers.{bytes_be, bytes_le};
ghost use Rattle.netlink_packet_core.specs.Storage.{put_at};
ghost use Rattle.netlink_packet_core.specs.Views.{nested};
ghost use Rattle.netlink_packet_core.specs.Walk.{Starts};
ghost use Rattle.netlink_c.specs.Put.{IsPutResult, GrowsBlock, Puts, PutsAttribute};

use crate::results::{NO_ROOM, OK, TOO_LONG};
use netlink_packet_core::{
    NLA_F_NESTED, NLA_F_NET_BYTEORDER, Nla, emit_nla, emit_u16, emit_u16_be, emit_u32, emit_u32_be,
    emit_u64, emit_u64_be, nla_buffer_len, nla_fits,
};

/// Puts an attribute at the cursor, its kind unchanged, padded with zeros.
///
/// Returns 0, and moves the cursor past the padding; `TOO_LONG` if the value has more than
/// `NLA_VALUE_MAX` bytes; otherwise `NO_ROOM` if there is no room. Only 0 changes the buffer or the
/// cursor. `nlp_attrs_next` reads the attribute back at the old cursor. Wraps `emit_nla`. Does not
/// allocate.
#[unsafe(no_mangle)]
pub extern "C" fn nlp_attr_put(
    buffer: &mut [u8],
    cursor: &mut usize,
    kind: u16,
    value: &[u8],
) -> u32
    ensures puts { Puts (attribute_with kind value.now) buffer.old cursor.old
        buffer.new cursor.new result }
{
    put(buffer, cursor, &Value { kind, value })
}

/// Puts an attribute whose value is a `u8`, as `nlp_attr_put` does.
#[unsafe(no_mangle)]
pub extern "C" fn nlp_attr_put_u8(
    buffer: &mut [u8],
    cursor: &mut usize,
    kind: u16,
    value: u8,
) -> u32
    ensures puts { Puts (attribute_with kind (value ∷ [])) buffer.old cursor.old
        buffer.new cursor.new result }
{
    let text = [value];
    put(buffer, cursor, &Value { kind, value: &text })
}

/// Puts an attribute whose value is a `u16` in native byte order, as `nlp_attr_put` does.
#[unsafe(no_mangle)]
pub extern "C" fn nlp_attr_put_u16(
    buffer: &mut [u8],
    cursor: &mut usize,
    kind: u16,
    value: u16,
) -> u32
    ensures puts { Puts (attribute_with kind (bytes_le value 2)) buffer.old cursor.old
        buffer.new cursor.new result }
{
    let mut text = [0u8; 2];
    let _written = emit_u16(&mut text, value);
    put(buffer, cursor, &Value { kind, value: &text })
}

/// Puts an attribute whose value is a `u32` in native byte order, as `nlp_attr_put` does.
#[unsafe(no_mangle)]
pub extern "C" fn nlp_attr_put_u32(
    buffer: &mut [u8],
    cursor: &mut usize,
    kind: u16,
    value: u32,
) -> u32
    ensures puts { Puts (attribute_with kind (bytes_le value 4)) buffer.old cursor.old
        buffer.new cursor.new result }
{
    let mut text = [0u8; 4];
    let _written = emit_u32(&mut text, value);
    put(buffer, cursor, &Value { kind, value: &text })
}

/// Puts an attribute whose value is a `u64` in native byte order, as `nlp_attr_put` does.
#[unsafe(no_mangle)]
pub extern "C" fn nlp_attr_put_u64(
    buffer: &mut [u8],
    cursor: &mut usize,
    kind: u16,
    value: u64,
) -> u32
    ensures puts { Puts (attribute_with kind (bytes_le value 8)) buffer.old cursor.old
        buffer.new cursor.new result }
{
    let mut text = [0u8; 8];
    let _written = emit_u64(&mut text, value);
    put(buffer, cursor, &Value { kind, value: &text })
}

/// Puts an attribute whose value is a `u16` in big-endian byte order, as `nlp_attr_put` does. Does
/// not set the byte-order bit of the kind.
#[unsafe(no_mangle)]
pub extern "C" fn nlp_attr_put_be16(
    buffer: &mut [u8],
    cursor: &mut usize,
    kind: u16,
    value: u16,
) -> u32
    ensures puts { Puts (attribute_with kind (bytes_be value 2)) buffer.old cursor.old
        buffer.new cursor.new result }
{
    let mut text = [0u8; 2];
    let _written = emit_u16_be(&mut text, value);
    put(buffer, cursor, &Value { kind, value: &text })
}

/// Puts an attribute whose value is a `u32` in big-endian byte order, as `nlp_attr_put` does. Does
/// not set the byte-order bit of the kind.
#[unsafe(no_mangle)]
pub extern "C" fn nlp_attr_put_be32(
    buffer: &mut [u8],
    cursor: &mut usize,
    kind: u16,
    value: u32,
) -> u32
    ensures puts { Puts (attribute_with kind (bytes_be value 4)) buffer.old cursor.old
        buffer.new cursor.new result }
{
    let mut text = [0u8; 4];
    let _written = emit_u32_be(&mut text, value);
    put(buffer, cursor, &Value { kind, value: &text })
}

/// Puts an attribute whose value is a `u64` in big-endian byte order, as `nlp_attr_put` does. Does
/// not set the byte-order bit of the kind.
#[unsafe(no_mangle)]
pub extern "C" fn nlp_attr_put_be64(
    buffer: &mut [u8],
    cursor: &mut usize,
    kind: u16,
    value: u64,
) -> u32
    ensures puts { Puts (attribute_with kind (bytes_be value 8)) buffer.old cursor.old
        buffer.new cursor.new result }
{
    let mut text = [0u8; 8];
    let _written = emit_u64_be(&mut text, value);
    put(buffer, cursor, &Value { kind, value: &text })
}

/// Puts an attribute without a value, whose presence is a flag, as `nlp_attr_put` does.
#[unsafe(no_mangle)]
pub extern "C" fn nlp_attr_put_flag(buffer: &mut [u8], cursor: &mut usize, kind: u16) -> u32
    ensures puts { Puts (attribute_with kind []) buffer.old cursor.old
        buffer.new cursor.new result }
{
    nlp_attr_put(buffer, cursor, kind, &[])
}

/// Puts an attribute whose value is the bytes followed by one zero, as a C string has it, as
/// `nlp_attr_put` does.
#[unsafe(no_mangle)]
pub extern "C" fn nlp_attr_put_str(
    buffer: &mut [u8],
    cursor: &mut usize,
    kind: u16,
    text: &[u8],
) -> u32
    ensures puts { Puts (attribute_with kind (text.now ++ 0 ∷ [])) buffer.old cursor.old
        buffer.new cursor.new result }
{
    put(buffer, cursor, &Text { kind, text })
}

/// Begins a nest: puts an attribute without a value, whose kind has the nested bit set and the
/// byte-order bit clear. What is put after that becomes its value once `nlp_nest_end` is called
/// with the old cursor. Returns what `nlp_attr_put` returns.
#[unsafe(no_mangle)]
pub extern "C" fn nlp_nest_begin(buffer: &mut [u8], cursor: &mut usize, kind: u16) -> u32
    ensures puts { Puts (attribute_with (nested kind) []) buffer.old cursor.old
        buffer.new cursor.new result }
{
    let kind = kind % NLA_F_NET_BYTEORDER + NLA_F_NESTED;
    put(buffer, cursor, &Value { kind, value: &[] })
}

/// Puts an attribute at the cursor if there is room.
#[tactic(auto, using(crate::proofs::PutLemmas::put_reads_back))]
fn put<T: Nla>(buffer: &mut [u8], cursor: &mut usize, nla: &T) -> u32
    ensures outcome { IsPutResult (attribute_with (T.kind_of nla.now) (T.value_of nla.now))
        buffer.old cursor.old result }
    ensures written { result ≡ 0
        → PutsAttribute (attribute_with (T.kind_of nla.now) (T.value_of nla.now)) buffer.old
        cursor.old buffer.new cursor.new }
    ensures block { result ≡ 0
        → GrowsBlock (attribute_with (T.kind_of nla.now) (T.value_of nla.now)) buffer.old cursor.old
        buffer.new cursor.new }
    ensures reads_back { result ≡ 0
        → Starts (drop cursor.old buffer.new)
        (attribute_with (T.kind_of nla.now) (T.value_of nla.now)) (drop cursor.new buffer.new) }
    ensures unchanged { result ≢ 0 → (buffer.new ≡ buffer.old) × (cursor.new ≡ cursor.old) }
{
    if !nla_fits(nla) {
        return TOO_LONG;
    }
    let size = nla_buffer_len(nla);
    let at = *cursor;
    if at > buffer.len() || buffer.len() - at < size {
        return NO_ROOM;
    }
    emit_at(nla, buffer, at, size);
    *cursor = at + size;
    OK
}

/// Writes an attribute of this size at an offset.
#[tactic(auto, using(crate::proofs::PutLemmas::put_sizes))]
fn emit_at<T: Nla>(nla: &T, buffer: &mut [u8], at: usize, size: usize)
    requires fits { length (T.value_of nla.now) ≤ value_max }
    requires size { size
        ≡ length (padded (attribute_with (T.kind_of nla.now) (T.value_of nla.now))) }
    requires room { at + size ≤ length buffer.old }
    ensures written { buffer.new
        ≡ put_at buffer.old at (padded (attribute_with (T.kind_of nla.now) (T.value_of nla.now))) }
    ensures kind { T.kind_of nla.now < 2 ^ 16 }
{
    emit_nla(nla, &mut buffer[at..at + size]);
}

/// An attribute of a kind and a value.
#[derive(Clone, Copy)]
struct Value<'a> {
    kind: u16,
    value: &'a [u8],
}

impl<'a> Nla for Value<'a> {
    ghost kind_of = { λ v. v.kind };

    ghost value_of = { λ v. v.value.now };

    fn value_len(&self) -> usize {
        self.value.len()
    }

    fn kind(&self) -> u16 {
        self.kind
    }

    fn emit_value(&self, buffer: &mut [u8]) {
        buffer.copy_from_slice(self.value);
    }
}

/// An attribute of a kind and a C string: the bytes and one zero.
#[derive(Clone, Copy)]
struct Text<'a> {
    kind: u16,
    text: &'a [u8],
}

impl<'a> Nla for Text<'a> {
    ghost kind_of = { λ v. v.kind };

    ghost value_of = { λ v. v.text.now ++ 0 ∷ [] };

    fn value_len(&self) -> usize {
        self.text.len() + 1
    }

    fn kind(&self) -> u16 {
        self.kind
    }

    fn emit_value(&self, buffer: &mut [u8]) {
        let (text, end) = buffer.split_at_mut(self.text.len());
        text.copy_from_slice(self.text);
        end.fill(0);
    }
}
