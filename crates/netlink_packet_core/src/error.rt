//! An acknowledgment or an error. `done` explains why each of the two views has its own body.

ghost use Rattle.std.specs.Prelude.{◌≡◌, ◌<◌, ◌≤◌, [], length, drop, unsigned_abs, OnOk, OnErr, IfOk, IfErr, IsTrue, MatchOption, None, Some, false, pos};
ghost use Rattle.std.specs.Borrow.{Lends, Array, sem, u8 as byte};
ghost use Rattle.netlink_packet_core.specs.contracts.error.ErrorBuffer.{the_row};
ghost use Rattle.netlink_bytes.specs.NonZero.{number_of};
ghost use Rattle.netlink_bytes.specs.Numbers.{signed};
ghost use Rattle.netlink_bytes.specs.Storage.{put_at};
ghost use Rattle.netlink_packet_core.specs.Header.{field};
ghost use Rattle.netlink_packet_core.specs.Payload.{code_bytes, errno_text, raw_code};

use crate::bytes::{put_code, split_code};
use crate::constants::{CODE, CODE_SIZE};
use netlink_bytes::{
    DecodeError, Emitable, NonZeroI32, Parseable, Storage, StorageMut, copy_of, i32_at, put_i32,
};
use std::alloc::Global;
use std::fmt;

/// The body of a message of type `NLMSG_ERROR`, read in place: a 4-byte code in native byte order,
/// and what follows it. No method allocates.
#[derive(Clone, Copy, Debug, PartialEq, Eq, Drop)]
pub struct ErrorBuffer<T: Storage> {
    /// The storage of the bytes.
    pub buffer: T,
}

impl<T: Storage> ErrorBuffer<T> {
    /// Returns a view over any bytes, without checking them. Each other method states what the
    /// bytes must hold.
    #[inline]
    pub fn new(buffer: T) -> Self
        ensures keeps { result.buffer ≡ buffer }
    {
        ErrorBuffer { buffer }
    }

    /// Returns a view over at least 4 bytes. Returns `ErrorShort`, with `inside` set to false, if
    /// there are fewer; the storage is then dropped.
    pub fn new_checked(buffer: T) -> Result<Self, DecodeError>
        ensures keeps { IfOk result (λ view. view.buffer ≡ buffer) }
        ensures whole { OnOk result (4 ≤ length (T.contents buffer)) }
        ensures refuses { IfErr result
            (λ e. (length (T.contents buffer) < 4)
            × (e ≡ DecodeError.ErrorShort (length (T.contents buffer)) false)) }
    {
        let size = buffer.bytes().len();
        if size < CODE_SIZE {
            return Err(DecodeError::ErrorShort {
                size,
                inside: false,
            });
        }
        Ok(ErrorBuffer { buffer })
    }

    /// Returns a view that borrows the same bytes as a slice, so that the methods for slices work
    /// with any storage.
    #[inline]
    pub fn borrowed(&self) -> ErrorBuffer<&[u8]>
        ensures bytes { result.buffer.now ≡ T.contents self.now.buffer }
    {
        ErrorBuffer::new(self.buffer.bytes())
    }

    /// Returns the storage of the bytes.
    #[inline]
    pub fn into_inner(self) -> T
        ensures keeps { result ≡ self.buffer }
    {
        self.buffer
    }

    /// Returns the code, or `None` if and only if it is 0. Requires at least 4 bytes of storage,
    /// which `new_checked` checks.
    #[inline]
    pub fn code(&self) -> Option<NonZeroI32>
        requires field { 4 ≤ length (T.contents self.now.buffer) }
        ensures number { MatchOption result
            (signed 4 (field 0 4 (T.contents self.now.buffer)) ≡ pos 0)
            (λ code. number_of code ≡ signed 4 (field 0 4 (T.contents self.now.buffer))) }
    {
        NonZeroI32::new(i32_at(self.buffer.bytes(), CODE))
    }
}

impl<'a> ErrorBuffer<&'a [u8]> {
    /// Returns the bytes after the code: the header of the message that this one answers, and what
    /// follows it. Requires at least 4 bytes in all, which `new_checked` checks. If the storage is
    /// not a slice, call this on the view that `borrowed` returns.
    #[inline]
    pub fn payload(&self) -> &'a [u8]
        requires field { 4 ≤ length self.now.buffer.now }
        ensures bytes { result.now ≡ drop 4 self.now.buffer.now }
    {
        &self.buffer[CODE_SIZE..]
    }
}

impl<T: StorageMut> ErrorBuffer<T> {
    /// Sets the code and leaves all other bytes unchanged. Requires at least 4 bytes of storage.
    #[inline]
    pub fn set_code(&mut self, code: i32)
        requires field { 4 ≤ length (T.contents self.old.buffer) }
        ensures bytes { T.contents self.new.buffer
            ≡ put_at (T.contents self.old.buffer) 0 (code_bytes code) }
        ensures same_storage { self.new.buffer ≡ T.with_contents self.old.buffer
            (put_at (T.contents self.old.buffer) 0 (code_bytes code)) }
    {
        put_i32(self.buffer.bytes_mut(), CODE, code);
    }

    /// Mutably borrows the bytes after the code: the header of the message that this one answers,
    /// and what follows it. No other bytes change. Requires at least 4 bytes of storage.
    pub fn payload_mut(&mut self) -> &mut [u8]
        requires field { 4 ≤ length (T.contents self.old.buffer) }
        ensures* writes_back { sem 𝓛 (Lends (the_row T.row) (Array byte 0) self.entry result
            (λ part. record {
              buffer = T.with_contents self.old.buffer
                  (put_at (T.contents self.old.buffer) 4 part);
            })) }
        ensures value { result.now ≡ drop 4 (T.contents self.old.buffer) }
    {
        let end = self.buffer.bytes().len();
        self.buffer.part_mut(CODE_SIZE, end)
    }
}

/// The body of a message of type `NLMSG_ERROR` (`struct nlmsgerr`): a 4-byte code in native byte
/// order, and the header of the message that it answers. Without a code it is an acknowledgment;
/// with any code it reports an error (RFC 3549, section 2.3.2.2).
#[derive(Debug, Drop, PartialEq, Eq)]
pub struct ErrorMessage {
    /// The negative errno, or `None` if the code on the wire is 0.
    pub code: Option<NonZeroI32>,
    /// The bytes after the code.
    pub header: Vec<u8>,
}

impl ErrorMessage {
    ghost use Rattle.netlink_packet_core.specs.Frame.{IsError};
    ghost use Rattle.netlink_packet_core.specs.Refusal.{IsErrorFault};

    /// Returns a body without a code and without bytes: an acknowledgment of nothing. Does not
    /// allocate.
    pub fn empty(alloc: Global) -> Self
        ensures code { result.code ≡ None }
        ensures bytes { result.header.items ≡ [] }
    {
        ErrorMessage {
            code: None,
            header: Vec::new(alloc),
        }
    }

    /// Returns the code as it is on the wire, 0 for `None`.
    pub fn raw_code(&self) -> i32
        ensures code { result ≡ raw_code self.now.code }
    {
        match self.code {
            None => 0,
            Some(code) => code.get(),
        }
    }

    /// Returns the errno: the absolute value of the code, which is 2147483648 for `i32::MIN`.
    pub fn errno(&self) -> u32
        ensures number { result ≡ unsigned_abs (raw_code self.now.code) }
    {
        self.raw_code().unsigned_abs()
    }

    /// Returns a body with the same code and bytes, which is equal by `==`, or `OutOfMemory` if the
    /// allocation fails. Does not allocate if there are no bytes to copy.
    pub fn try_clone(&self, alloc: Global) -> Result<Self, DecodeError>
        ensures code { IfOk result (λ copy. copy.code ≡ self.now.code) }
        ensures bytes { IfOk result (λ copy. copy.header.items ≡ self.now.header.items) }
        ensures equal { IfOk result
            (λ copy. IsTrue (⟦<ErrorMessage as PartialEq>⟧.eq copy self.now)) }
        ensures memory { IfErr result (λ e. e ≡ DecodeError.OutOfMemory) }
        ensures empty { OnErr result (0 < length self.now.header.items) }
    {
        Ok(ErrorMessage {
            code: self.code,
            header: copy_of(alloc, &self.header)?,
        })
    }

    /// Decodes a payload. Returns `ErrorShort`, with `inside` set to true, if it has fewer than 4
    /// bytes, and `OutOfMemory` if the allocation for the bytes after the code fails.
    pub(crate) fn of_payload(alloc: Global, payload: &[u8]) -> Result<Self, DecodeError>
        ensures ok { IfOk result (IsError payload.now) }
        ensures err { IfErr result (IsErrorFault payload.now) }
    {
        let size = payload.len();
        if size < CODE_SIZE {
            return Err(DecodeError::ErrorShort { size, inside: true });
        }
        ErrorMessage::of_code_and_rest(alloc, payload)
    }

    /// Returns the code, and a copy of what follows it. Requires at least 4 bytes. Returns
    /// `OutOfMemory` if the allocation for the copy fails.
    fn of_code_and_rest(alloc: Global, bytes: &[u8]) -> Result<Self, DecodeError>
        requires { 4 ≤ length bytes.now }
        ensures ok { IfOk result (IsError bytes.now) }
        ensures memory { IfErr result (λ e. e ≡ DecodeError.OutOfMemory) }
        ensures copied { OnErr result (4 < length bytes.now) }
    {
        let (code, rest) = split_code(bytes);
        let header = copy_of(alloc, rest)?;
        Ok(ErrorMessage {
            code: NonZeroI32::new(code),
            header,
        })
    }
}

impl fmt::Display for ErrorMessage {
    ghost output = { λ m. Some (errno_text (raw_code m.code)) };

    fn fmt<W: fmt::Write>(&self, f: &mut fmt::Formatter<W>) -> fmt::Result {
        let errno = self.errno();
        write!(f, "os error {errno}")
    }
}

impl Emitable for ErrorMessage {
    ghost use Rattle.std.specs.Prelude.{◌++◌};

    ghost bytes = { λ m. code_bytes (raw_code m.code) ++ m.header.items };

    ghost can_emit = { λ _. Unit {0} };

    ghost takes_longer = { false };

    /// Returns 4 plus the number of bytes after the code.
    #[tactic(auto, using(crate::specs::Sizes::text_sizes))]
    fn buffer_len(&self) -> usize {
        CODE_SIZE + self.header.len()
    }

    /// Writes the code and the bytes over all of `buffer`. Requires that `buffer` has exactly
    /// `buffer_len` bytes.
    #[tactic(auto, using(crate::specs::Sizes::text_sizes))]
    fn emit(&self, buffer: &mut [u8]) {
        put_code(buffer, self.raw_code(), &self.header);
    }
}

impl<'a> Parseable<ErrorBuffer<&'a [u8]>> for ErrorMessage {
    ghost use Rattle.netlink_packet_core.specs.Frame.{IsError};

    ghost can_parse = { λ view. 4 ≤ length view.buffer.now };

    ghost reads = { λ view m. IsError view.buffer.now m };

    ghost refusal = { λ _ _. ⊥ };

    ghost needs_no_memory = { λ view. length view.buffer.now ≡ 4 };

    /// Returns the code, and a copy of the bytes after it. Requires a view over at least 4 bytes.
    /// Returns `OutOfMemory` if there are bytes after the code and the allocation for them fails.
    fn parse(alloc: Global, buf: &ErrorBuffer<&'a [u8]>) -> Result<Self, DecodeError> {
        ErrorMessage::of_code_and_rest(alloc, buf.buffer)
    }
}
