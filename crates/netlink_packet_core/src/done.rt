//! The end of a multipart message.
//!
//! `error` has the same functions. A common body would save no line, because each contract names
//! its own view and error.

ghost use Rattle.std.specs.Prelude.{◌≡◌, ◌<◌, ◌≤◌, [], pos, length, drop, OnOk, OnErr, IfOk, IfErr, IsTrue, false};
ghost use Rattle.std.specs.Borrow.{Lends, Array, sem, u8 as byte};
ghost use Rattle.netlink_packet_core.specs.contracts.done.DoneBuffer.{the_row};
ghost use Rattle.netlink_bytes.specs.Numbers.{signed};
ghost use Rattle.netlink_bytes.specs.Storage.{put_at};
ghost use Rattle.netlink_packet_core.specs.Header.{field};
ghost use Rattle.netlink_packet_core.specs.Payload.{code_bytes};

use crate::bytes::{put_code, split_code};
use crate::constants::{CODE, CODE_SIZE};
use netlink_bytes::{
    DecodeError, Emitable, Parseable, Storage, StorageMut, copy_of, i32_at, put_i32,
};
use std::alloc::Global;

/// The body of a message of type `NLMSG_DONE`, read in place: a 4-byte code in native byte order,
/// and what follows it. No method allocates.
#[derive(Clone, Copy, Debug, PartialEq, Eq, Drop)]
pub struct DoneBuffer<T: Storage> {
    /// The storage of the bytes.
    pub buffer: T,
}

impl<T: Storage> DoneBuffer<T> {
    /// Returns a view over any bytes, without checking them. Each other method states what the
    /// bytes must hold.
    #[inline]
    pub fn new(buffer: T) -> Self
        ensures keeps { result.buffer ≡ buffer }
    {
        DoneBuffer { buffer }
    }

    /// Returns a view over at least 4 bytes. Returns `DoneShort`, with `inside` set to false, if
    /// there are fewer; the storage is then dropped.
    pub fn new_checked(buffer: T) -> Result<Self, DecodeError>
        ensures keeps { IfOk result (λ view. view.buffer ≡ buffer) }
        ensures whole { OnOk result (4 ≤ length (T.contents buffer)) }
        ensures refuses { IfErr result
            (λ e. (length (T.contents buffer) < 4)
            × (e ≡ DecodeError.DoneShort (length (T.contents buffer)) false)) }
    {
        let size = buffer.bytes().len();
        if size < CODE_SIZE {
            return Err(DecodeError::DoneShort {
                size,
                inside: false,
            });
        }
        Ok(DoneBuffer { buffer })
    }

    /// Returns a view that borrows the same bytes as a slice, so that the methods for slices work
    /// with any storage.
    #[inline]
    pub fn borrowed(&self) -> DoneBuffer<&[u8]>
        ensures bytes { result.buffer.now ≡ T.contents self.now.buffer }
    {
        DoneBuffer::new(self.buffer.bytes())
    }

    /// Returns the storage of the bytes.
    #[inline]
    pub fn into_inner(self) -> T
        ensures keeps { result ≡ self.buffer }
    {
        self.buffer
    }

    /// Returns the code: 0, or a negative errno. Requires at least 4 bytes of storage, which
    /// `new_checked` checks.
    #[inline]
    pub fn code(&self) -> i32
        requires field { 4 ≤ length (T.contents self.now.buffer) }
        ensures number { result ≡ signed 4 (field 0 4 (T.contents self.now.buffer)) }
    {
        i32_at(self.buffer.bytes(), CODE)
    }
}

impl<'a> DoneBuffer<&'a [u8]> {
    /// Returns the bytes after the code. Requires at least 4 bytes in all, which `new_checked`
    /// checks. If the storage is not a slice, call this on the view that `borrowed` returns.
    #[inline]
    pub fn extended_ack(&self) -> &'a [u8]
        requires field { 4 ≤ length self.now.buffer.now }
        ensures bytes { result.now ≡ drop 4 self.now.buffer.now }
    {
        &self.buffer[CODE_SIZE..]
    }
}

impl<T: StorageMut> DoneBuffer<T> {
    /// Sets the code and leaves all other bytes unchanged. Requires at least 4 bytes of storage.
    #[inline]
    pub fn set_code(&mut self, code: i32)
        requires field { 4 ≤ length (T.contents self.old.buffer) }
        ensures bytes { T.contents self.new.buffer
            ≡ put_at (T.contents self.old.buffer) 0 (code_bytes code) }
        ensures same_storage { self.new.buffer ≡ T.with_contents self.old.buffer
            (put_at (T.contents self.old.buffer) 0 (code_bytes code)) }
    {
        put_i32(self.buffer.bytes_mut(), CODE, code);
    }

    /// Mutably borrows the bytes after the code; no other bytes change. Requires at least 4 bytes
    /// of storage.
    pub fn extended_ack_mut(&mut self) -> &mut [u8]
        requires field { 4 ≤ length (T.contents self.old.buffer) }
        ensures* writes_back { sem 𝓛 (Lends (the_row T.row) (Array byte 0) self.entry result
            (λ part. record {
              buffer = T.with_contents self.old.buffer
                  (put_at (T.contents self.old.buffer) 4 part);
            })) }
        ensures value { result.now ≡ drop 4 (T.contents self.old.buffer) }
    {
        let end = self.buffer.bytes().len();
        self.buffer.part_mut(CODE_SIZE, end)
    }
}

/// The body of a message of type `NLMSG_DONE`: a 4-byte code in native byte order, and what the
/// kernel adds to it.
#[derive(Debug, Drop, PartialEq, Eq)]
pub struct DoneMessage {
    /// 0, or a negative errno.
    pub code: i32,
    /// The bytes after the code, such as the attributes of an extended acknowledgment.
    pub extended_ack: Vec<u8>,
}

impl DoneMessage {
    ghost use Rattle.netlink_packet_core.specs.Frame.{IsCodeAndRest, IsDone};
    ghost use Rattle.netlink_packet_core.specs.Refusal.{IsDoneFault};

    /// Returns a body with code 0 and no bytes. Does not allocate.
    pub fn empty(alloc: Global) -> Self
        ensures code { result.code ≡ pos 0 }
        ensures bytes { result.extended_ack.items ≡ [] }
    {
        DoneMessage {
            code: 0,
            extended_ack: Vec::new(alloc),
        }
    }

    /// Returns a body with the same code and bytes, which is equal by `==`, or `OutOfMemory` if the
    /// allocation fails. Does not allocate if there are no bytes to copy.
    pub fn try_clone(&self, alloc: Global) -> Result<Self, DecodeError>
        ensures code { IfOk result (λ copy. copy.code ≡ self.now.code) }
        ensures bytes { IfOk result
            (λ copy. copy.extended_ack.items ≡ self.now.extended_ack.items) }
        ensures equal { IfOk result
            (λ copy. IsTrue (⟦<DoneMessage as PartialEq>⟧.eq copy self.now)) }
        ensures memory { IfErr result (λ e. e ≡ DecodeError.OutOfMemory) }
        ensures empty { OnErr result (0 < length self.now.extended_ack.items) }
    {
        Ok(DoneMessage {
            code: self.code,
            extended_ack: copy_of(alloc, &self.extended_ack)?,
        })
    }

    /// Decodes a payload; an empty one means code 0. Returns `DoneShort`, with `inside` set to
    /// true, if it has 1 to 3 bytes, and `OutOfMemory` if the allocation for the bytes after the
    /// code fails.
    pub(crate) fn of_payload(alloc: Global, payload: &[u8]) -> Result<Self, DecodeError>
        ensures ok { IfOk result (IsDone payload.now) }
        ensures err { IfErr result (IsDoneFault payload.now) }
    {
        let size = payload.len();
        if size == 0 {
            return Ok(DoneMessage::empty(alloc));
        }
        if size < CODE_SIZE {
            return Err(DecodeError::DoneShort { size, inside: true });
        }
        DoneMessage::of_code_and_rest(alloc, payload)
    }

    /// Returns the code, and a copy of what follows it. Requires at least 4 bytes. Returns
    /// `OutOfMemory` if the allocation for the copy fails.
    fn of_code_and_rest(alloc: Global, bytes: &[u8]) -> Result<Self, DecodeError>
        requires { 4 ≤ length bytes.now }
        ensures ok { IfOk result (λ m. IsCodeAndRest bytes.now m.code m.extended_ack.items) }
        ensures memory { IfErr result (λ e. e ≡ DecodeError.OutOfMemory) }
        ensures copied { OnErr result (4 < length bytes.now) }
    {
        let (code, rest) = split_code(bytes);
        let extended_ack = copy_of(alloc, rest)?;
        Ok(DoneMessage { code, extended_ack })
    }
}

impl Emitable for DoneMessage {
    ghost use Rattle.std.specs.Prelude.{◌++◌};

    ghost bytes = { λ m. code_bytes m.code ++ m.extended_ack.items };

    ghost can_emit = { λ _. Unit {0} };

    ghost takes_longer = { false };

    /// Returns 4 plus the number of bytes after the code.
    #[tactic(auto, using(crate::specs::Sizes::text_sizes))]
    fn buffer_len(&self) -> usize {
        CODE_SIZE + self.extended_ack.len()
    }

    /// Writes the code and the bytes over all of `buffer`. Requires that `buffer` has exactly
    /// `buffer_len` bytes.
    #[tactic(auto, using(crate::specs::Sizes::text_sizes))]
    fn emit(&self, buffer: &mut [u8]) {
        put_code(buffer, self.code, &self.extended_ack);
    }
}

impl<'a> Parseable<DoneBuffer<&'a [u8]>> for DoneMessage {
    ghost use Rattle.netlink_packet_core.specs.Frame.{IsCodeAndRest};

    ghost can_parse = { λ view. 4 ≤ length view.buffer.now };

    ghost reads = { λ view m. IsCodeAndRest view.buffer.now m.code m.extended_ack.items };

    ghost refusal = { λ _ _. ⊥ };

    ghost needs_no_memory = { λ view. length view.buffer.now ≡ 4 };

    /// Returns the code, and a copy of the bytes after it. Requires a view over at least 4 bytes.
    /// Returns `OutOfMemory` if there are bytes after the code and the allocation for them fails.
    fn parse(alloc: Global, buf: &DoneBuffer<&'a [u8]>) -> Result<Self, DecodeError> {
        DoneMessage::of_code_and_rest(alloc, buf.buffer)
    }
}
