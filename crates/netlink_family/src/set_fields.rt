//! Setters for the fields of a message's fixed header.

ghost use Rattle.std.specs.Prelude.{◌≡◌, ◌+◌, ◌≤◌, ◌∷◌, [], length};
ghost use Rattle.netlink_packet_core.specs.Numbers.{bytes_be, bytes_le, unsigned};
ghost use Rattle.netlink_packet_core.specs.Storage.{put_at};
ghost use Rattle.netlink_shapes.specs.declared.shape.Shape.TheVariants.{Be16, Be32, Be64, ExactLen, I32, U16, U32, U64, U8};

use crate::family::Table;
use crate::owned::{OwnedMessage, header_fits};
use netlink_blocks::header_view::Field;
use netlink_packet_core::{put_i32, put_u16, put_u32};

impl<F: Table> OwnedMessage<F> {
    /// Sets a `u8` of the header. Requires that the field has the shape `U8` and is inside the header.
    /// A short message becomes whole.
    pub fn set_u8(&mut self, field: Field, value: u8)
        requires shape { field.2 ≡ U8 }
        requires inside { field.1 + 1 ≤ F.header_len self.old.message_type }
        ensures written { self.new.bytes.items ≡ put_at self.old.bytes.items field.entry.1 (value ∷ []) }
        ensures message_type { self.new.message_type ≡ self.old.message_type }
        ensures whole { self.new.short ≡ 0 }
    {
        header_fits(self);
        self.short = 0;
        self.bytes[field.1] = value;
    }

    /// Sets a `u16` of the header. Requires that the field has the shape `U16` and is inside the header.
    /// A short message becomes whole.
    #[tactic(auto, using(crate::proofs::CanonicalPayloads::put_canonical))]
    pub fn set_u16(&mut self, field: Field, value: u16)
        requires shape { field.2 ≡ U16 }
        requires inside { field.1 + 2 ≤ F.header_len self.old.message_type }
        ensures written { self.new.bytes.items ≡ put_at self.old.bytes.items field.entry.1 (bytes_le value 2) }
        ensures message_type { self.new.message_type ≡ self.old.message_type }
        ensures whole { self.new.short ≡ 0 }
    {
        header_fits(self);
        self.short = 0;
        put_u16(&mut self.bytes, field.1, value);
    }

    /// Sets a `u32` of the header. Requires that the field has the shape `U32` and is inside the header.
    /// A short message becomes whole.
    #[tactic(auto, using(crate::proofs::CanonicalPayloads::put_canonical))]
    pub fn set_u32(&mut self, field: Field, value: u32)
        requires shape { field.2 ≡ U32 }
        requires inside { field.1 + 4 ≤ F.header_len self.old.message_type }
        ensures written { self.new.bytes.items ≡ put_at self.old.bytes.items field.entry.1 (bytes_le value 4) }
        ensures message_type { self.new.message_type ≡ self.old.message_type }
        ensures whole { self.new.short ≡ 0 }
    {
        header_fits(self);
        self.short = 0;
        put_u32(&mut self.bytes, field.1, value);
    }

    /// Sets an `i32` of the header. Requires that the field has the shape `I32` and is inside the header.
    /// A short message becomes whole.
    #[tactic(auto, using(crate::proofs::CanonicalPayloads::put_canonical))]
    pub fn set_i32(&mut self, field: Field, value: i32)
        requires shape { field.2 ≡ I32 }
        requires inside { field.1 + 4 ≤ F.header_len self.old.message_type }
        ensures written { self.new.bytes.items ≡ put_at self.old.bytes.items field.entry.1 (bytes_le (unsigned 4 value) 4) }
        ensures message_type { self.new.message_type ≡ self.old.message_type }
        ensures whole { self.new.short ≡ 0 }
    {
        header_fits(self);
        self.short = 0;
        put_i32(&mut self.bytes, field.1, value);
    }

    /// Sets a `u64` of the header. Requires that the field has the shape `U64` and is inside the
    /// header. A short message becomes whole.
    #[tactic(auto, using(crate::proofs::PushedNumbers::pushed_numbers))]
    pub fn set_u64(&mut self, field: Field, value: u64)
        requires shape { field.2 ≡ U64 }
        requires inside { field.1 + 8 ≤ F.header_len self.old.message_type }
        ensures written { self.new.bytes.items ≡ put_at self.old.bytes.items field.entry.1 (bytes_le value 8) }
        ensures message_type { self.new.message_type ≡ self.old.message_type }
        ensures whole { self.new.short ≡ 0 }
    {
        let bytes: [u8; 8] = value.to_ne_bytes();
        self.put(field.1, &bytes);
    }

    /// Sets a big-endian `u16` of the header. Requires that the field has the shape `Be16` and is inside the
    /// header. A short message becomes whole.
    #[tactic(auto, using(crate::proofs::PushedNumbers::pushed_numbers))]
    pub fn set_be16(&mut self, field: Field, value: u16)
        requires shape { field.2 ≡ Be16 }
        requires inside { field.1 + 2 ≤ F.header_len self.old.message_type }
        ensures written { self.new.bytes.items ≡ put_at self.old.bytes.items field.entry.1 (bytes_be value 2) }
        ensures message_type { self.new.message_type ≡ self.old.message_type }
        ensures whole { self.new.short ≡ 0 }
    {
        let bytes: [u8; 2] = value.to_be_bytes();
        self.put(field.1, &bytes);
    }

    /// Sets a big-endian `u32` of the header. Requires that the field has the shape `Be32` and is inside the
    /// header. A short message becomes whole.
    #[tactic(auto, using(crate::proofs::PushedNumbers::pushed_numbers))]
    pub fn set_be32(&mut self, field: Field, value: u32)
        requires shape { field.2 ≡ Be32 }
        requires inside { field.1 + 4 ≤ F.header_len self.old.message_type }
        ensures written { self.new.bytes.items ≡ put_at self.old.bytes.items field.entry.1 (bytes_be value 4) }
        ensures message_type { self.new.message_type ≡ self.old.message_type }
        ensures whole { self.new.short ≡ 0 }
    {
        let bytes: [u8; 4] = value.to_be_bytes();
        self.put(field.1, &bytes);
    }

    /// Sets a big-endian `u64` of the header. Requires that the field has the shape `Be64` and is inside the
    /// header. A short message becomes whole.
    #[tactic(auto, using(crate::proofs::PushedNumbers::pushed_numbers))]
    pub fn set_be64(&mut self, field: Field, value: u64)
        requires shape { field.2 ≡ Be64 }
        requires inside { field.1 + 8 ≤ F.header_len self.old.message_type }
        ensures written { self.new.bytes.items ≡ put_at self.old.bytes.items field.entry.1 (bytes_be value 8) }
        ensures message_type { self.new.message_type ≡ self.old.message_type }
        ensures whole { self.new.short ≡ 0 }
    {
        let bytes: [u8; 8] = value.to_be_bytes();
        self.put(field.1, &bytes);
    }

    /// Sets a field of bytes, such as an address. Requires that the field has the shape `ExactLen` with
    /// the size of the value, and is inside the header. A short message becomes whole.
    pub fn set_exact(&mut self, field: Field, value: &[u8])
        requires shape { field.2 ≡ ExactLen (length value.now) }
        requires inside { field.1 + length value.now ≤ F.header_len self.old.message_type }
        ensures written { self.new.bytes.items ≡ put_at self.old.bytes.items field.entry.1 value.now }
        ensures message_type { self.new.message_type ≡ self.old.message_type }
        ensures whole { self.new.short ≡ 0 }
    {
        self.put(field.1, value);
    }

    /// Writes bytes over those of the header at an offset. A short message becomes whole.
    #[inline(always)]
    fn put(&mut self, at: usize, value: &[u8])
        requires inside { at + length value.now ≤ F.header_len self.old.message_type }
        ensures written { self.new.bytes.items ≡ put_at self.old.bytes.items at value.now }
        ensures message_type { self.new.message_type ≡ self.old.message_type }
        ensures whole { self.new.short ≡ 0 }
    {
        header_fits(self);
        self.short = 0;
        put_bytes(&mut self.bytes, at, value);
    }
}

/// Writes bytes over those at an offset, and leaves all others unchanged.
#[inline(always)]
fn put_bytes(bytes: &mut [u8], at: usize, value: &[u8])
    requires inside { at + length value.now ≤ length bytes.old }
    ensures written { bytes.new ≡ put_at bytes.old at value.now }
{
    bytes[at..at + value.len()].copy_from_slice(value);
}
