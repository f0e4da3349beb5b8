//! The error type.

ghost use Rattle.std.specs.Prelude.{◌≡◌, ◌≢◌, ◌↔◌, ◌++◌, List, ℕ, [], IsTrue, IfOk, codes, string_bytes};
ghost use Rattle.netlink_bytes.specs.Causes.{HoldsText, IsInvalidBuffer, TextBegins, cause_number};

mod display;

use crate::copies::text_copy_of;
use std::alloc::{AllocError, AllocFailed, Global};
use std::error::Error;
use std::str::Utf8Error;
use std::string::FromUtf8Error;

/// The reason why a function failed, from a closed list. Sizes and lengths are in bytes.
///
/// Only `InvalidBuffer` and `Message` own memory. `inside` records whether the error was detected
/// inside a larger call. If it is true, the error text is prefixed with that call's line.
#[derive(Debug, Drop, PartialEq, Eq)]
pub enum DecodeError {
    /// C1: a buffer, which the caller names, is too short.
    InvalidBuffer {
        /// The caller's name for the buffer.
        name: String,
        /// The size of the buffer, in bytes.
        received: usize,
        /// The minimum size, in bytes.
        minimum_length: usize,
    },
    /// C2: a MAC address does not have 6 bytes.
    InvalidMacAddress {
        /// The size received, in bytes.
        received: usize,
    },
    /// C3: an IP address has neither 4 nor 16 bytes.
    InvalidIpAddress {
        /// The size received, in bytes.
        received: usize,
    },
    /// C4: an integer does not have exactly the size of its type.
    InvalidNumber {
        /// The size of the integer's type, in bytes.
        expected: usize,
        /// The size received, in bytes.
        received: usize,
    },
    /// C5: there are fewer bytes than an attribute header has.
    NlaBufferTooSmall {
        /// The number of bytes available.
        buffer_len: usize,
        /// The size of an attribute header, which is 4 bytes.
        nla_len: usize,
    },
    /// C6: an attribute's length field is larger than the number of bytes available.
    NlaLengthMismatch {
        /// The number of bytes available.
        buffer_len: usize,
        /// The length field: the size of the attribute in bytes, with its header but without its
        /// padding.
        nla_len: usize,
    },
    /// C7: an attribute's length field is smaller than its header.
    NlaInvalidLength {
        /// The minimum length, which is 4 bytes.
        buffer_len: usize,
        /// The length field, in bytes.
        nla_len: usize,
    },
    /// C8: an integer does not fit in its buffer.
    BufferTooSmall {
        /// The size of the buffer, in bytes.
        buffer_len: usize,
        /// The size of the integer's type, in bytes.
        value_len: usize,
    },
    /// C9: there are fewer bytes than a message header has, which is 16.
    FrameShort {
        /// The number of bytes available.
        size: usize,
        /// Whether the error was detected inside a larger call.
        inside: bool,
    },
    /// C10: a message's length field is larger than the number of bytes available.
    FrameCut {
        /// The length field: the size of the message in bytes, with its header.
        length: u32,
        /// The number of bytes available.
        size: usize,
        /// Whether the error was detected inside a larger call.
        inside: bool,
    },
    /// C11: a message's length field is smaller than its header, which has 16 bytes.
    FrameLength {
        /// The length field, in bytes.
        length: u32,
        /// Whether the error was detected inside a larger call.
        inside: bool,
    },
    /// C12: the body of a done message has fewer than 4 bytes. In a whole message, an empty body is
    /// accepted and means code 0.
    DoneShort {
        /// The size of the body, in bytes.
        size: usize,
        /// Whether the error was detected inside a larger call.
        inside: bool,
    },
    /// C13: the body of an error message has fewer than 4 bytes.
    ErrorShort {
        /// The size of the body, in bytes.
        size: usize,
        /// Whether the error was detected inside a larger call.
        inside: bool,
    },
    /// C14: free text, for example from a protocol that rejects a payload. It is the whole error
    /// text.
    Message(String),
    /// C15: a message's length does not fit in 32 bits.
    TooLong,
    /// C16: an allocation failed.
    OutOfMemory,
}

impl DecodeError {
    /// Returns `InvalidBuffer` with a copy of `name`, or `OutOfMemory` if the allocation fails.
    /// Does not allocate if `name` is empty.
    pub fn invalid_buffer(alloc: Global, name: &str, received: usize, minimum_length: usize) -> Self
        ensures says { IsInvalidBuffer name.now received minimum_length result }
        ensures empty { name.now ≡ [] → result ≢ DecodeError.OutOfMemory }
    {
        match text_copy_of(alloc, name) {
            Ok(name) => DecodeError::InvalidBuffer {
                name,
                received,
                minimum_length,
            },
            Err(_) => DecodeError::OutOfMemory,
        }
    }

    /// Returns `InvalidMacAddress` with the size received. Does not allocate.
    pub fn invalid_mac_address(received: usize) -> Self
        ensures is { result ≡ DecodeError.InvalidMacAddress received }
    {
        DecodeError::InvalidMacAddress { received }
    }

    /// Returns `InvalidIpAddress` with the size received. Does not allocate.
    pub fn invalid_ip_address(received: usize) -> Self
        ensures is { result ≡ DecodeError.InvalidIpAddress received }
    {
        DecodeError::InvalidIpAddress { received }
    }

    /// Returns `InvalidNumber` with the size of the type and the size received. Does not allocate.
    pub fn invalid_number(expected: usize, received: usize) -> Self
        ensures is { result ≡ DecodeError.InvalidNumber expected received }
    {
        DecodeError::InvalidNumber { expected, received }
    }

    /// Returns `NlaBufferTooSmall` with the number of bytes available and the number required. Does
    /// not allocate.
    pub fn nla_buffer_too_small(buffer_len: usize, nla_len: usize) -> Self
        ensures is { result ≡ DecodeError.NlaBufferTooSmall buffer_len nla_len }
    {
        DecodeError::NlaBufferTooSmall {
            buffer_len,
            nla_len,
        }
    }

    /// Returns `NlaLengthMismatch` with the number of bytes available and the length field. Does
    /// not allocate.
    pub fn nla_length_mismatch(buffer_len: usize, nla_len: usize) -> Self
        ensures is { result ≡ DecodeError.NlaLengthMismatch buffer_len nla_len }
    {
        DecodeError::NlaLengthMismatch {
            buffer_len,
            nla_len,
        }
    }

    /// Returns `NlaInvalidLength` with the minimum length and the length field. Does not allocate.
    pub fn nla_invalid_length(buffer_len: usize, nla_len: usize) -> Self
        ensures is { result ≡ DecodeError.NlaInvalidLength buffer_len nla_len }
    {
        DecodeError::NlaInvalidLength {
            buffer_len,
            nla_len,
        }
    }

    /// Returns `BufferTooSmall` with the size of the buffer and the size of the integer. Does not
    /// allocate.
    pub fn buffer_too_small(buffer_len: usize, value_len: usize) -> Self
        ensures is { result ≡ DecodeError.BufferTooSmall buffer_len value_len }
    {
        DecodeError::BufferTooSmall {
            buffer_len,
            value_len,
        }
    }

    /// Returns `FrameShort` with the number of bytes available. Does not allocate.
    pub fn frame_short(size: usize, inside: bool) -> Self
        ensures is { result ≡ DecodeError.FrameShort size inside }
    {
        DecodeError::FrameShort { size, inside }
    }

    /// Returns `FrameCut` with the length field and the number of bytes available. Does not
    /// allocate.
    pub fn frame_cut(length: u32, size: usize, inside: bool) -> Self
        ensures is { result ≡ DecodeError.FrameCut length size inside }
    {
        DecodeError::FrameCut {
            length,
            size,
            inside,
        }
    }

    /// Returns `FrameLength` with the length field. Does not allocate.
    pub fn frame_length(length: u32, inside: bool) -> Self
        ensures is { result ≡ DecodeError.FrameLength length inside }
    {
        DecodeError::FrameLength { length, inside }
    }

    /// Returns `DoneShort` with the size of the body. Does not allocate.
    pub fn done_short(size: usize, inside: bool) -> Self
        ensures is { result ≡ DecodeError.DoneShort size inside }
    {
        DecodeError::DoneShort { size, inside }
    }

    /// Returns `ErrorShort` with the size of the body. Does not allocate.
    pub fn error_short(size: usize, inside: bool) -> Self
        ensures is { result ≡ DecodeError.ErrorShort size inside }
    {
        DecodeError::ErrorShort { size, inside }
    }

    /// Returns `TooLong`. Does not allocate.
    pub fn too_long() -> Self
        ensures is { result ≡ DecodeError.TooLong }
    {
        DecodeError::TooLong
    }

    /// Returns `OutOfMemory`. Does not allocate.
    pub fn out_of_memory() -> Self
        ensures is { result ≡ DecodeError.OutOfMemory }
    {
        Self::OutOfMemory
    }

    /// Returns `Message` with a copy of `text`, or `OutOfMemory` if the allocation fails. Does not
    /// allocate if `text` is empty.
    pub fn from_text(alloc: Global, text: &str) -> Self
        ensures says { HoldsText text.now result }
        ensures empty { text.now ≡ [] → result ≢ DecodeError.OutOfMemory }
    {
        match text_copy_of(alloc, text) {
            Ok(text) => DecodeError::Message(text),
            Err(_) => DecodeError::OutOfMemory,
        }
    }

    /// Returns `Message` with `Invalid UTF-8 sequence: ` and std's text for the error, or
    /// `OutOfMemory` if an allocation fails.
    pub fn from_utf8_error(alloc: Global, error: FromUtf8Error) -> Self
        ensures begins { TextBegins (codes "Invalid UTF-8 sequence: ") result }
    {
        match utf8_text(alloc, error.utf8_error()) {
            Ok(text) => DecodeError::Message(text),
            Err(_) => DecodeError::OutOfMemory,
        }
    }

    /// Returns the number of the error, 1 to 16.
    pub fn number(&self) -> u8
        ensures number { result ≡ cause_number self.now }
    {
        match self {
            DecodeError::InvalidBuffer { .. } => 1,
            DecodeError::InvalidMacAddress { .. } => 2,
            DecodeError::InvalidIpAddress { .. } => 3,
            DecodeError::InvalidNumber { .. } => 4,
            DecodeError::NlaBufferTooSmall { .. } => 5,
            DecodeError::NlaLengthMismatch { .. } => 6,
            DecodeError::NlaInvalidLength { .. } => 7,
            DecodeError::BufferTooSmall { .. } => 8,
            DecodeError::FrameShort { .. } => 9,
            DecodeError::FrameCut { .. } => 10,
            DecodeError::FrameLength { .. } => 11,
            DecodeError::DoneShort { .. } => 12,
            DecodeError::ErrorShort { .. } => 13,
            DecodeError::Message(_) => 14,
            DecodeError::TooLong => 15,
            DecodeError::OutOfMemory => 16,
        }
    }

    /// Returns whether the error is `OutOfMemory`.
    pub fn is_out_of_memory(&self) -> bool
        ensures memory { IsTrue result ↔ (self.now ≡ DecodeError.OutOfMemory) }
    {
        matches!(self, DecodeError::OutOfMemory)
    }
}

/// Returns std's text for the error, prefixed with `Invalid UTF-8 sequence: `, or `AllocError` if
/// an allocation fails.
pub(crate) fn utf8_text(alloc: Global, error: Utf8Error) -> Result<String, AllocError>
    ensures { IfOk result
        (λ text. (rest : List ℕ) × (string_bytes text ≡ codes "Invalid UTF-8 sequence: " ++ rest)) }
{
    let fault = error.to_string(alloc)?;
    format!(in alloc; "Invalid UTF-8 sequence: {fault}")
}

impl Error for DecodeError {}

impl From<String> for DecodeError {
    ghost use Rattle.netlink_bytes.specs.declared.error.DecodeError.TheVariants.{Message};

    ghost from_gives = { λ text e. e ≡ Message text };

    /// Returns `Message` with `text` itself. Does not allocate.
    fn from(text: String) -> Self {
        DecodeError::Message(text)
    }
}

impl From<AllocError> for DecodeError {
    ghost use Rattle.netlink_bytes.specs.declared.error.DecodeError.TheVariants.{OutOfMemory};

    ghost from_gives = { λ _ e. e ≡ OutOfMemory };

    /// Returns `OutOfMemory`, so that `?` propagates a failed allocation.
    fn from(_refused: AllocError) -> Self {
        DecodeError::OutOfMemory
    }
}

impl<T: Drop> From<AllocFailed<T>> for DecodeError {
    ghost use Rattle.netlink_bytes.specs.declared.error.DecodeError.TheVariants.{OutOfMemory};

    ghost from_gives = { λ _ e. e ≡ OutOfMemory };

    /// Returns `OutOfMemory` and drops the value for which there was no room, so that
    /// `list.push(value)?` propagates a failed allocation.
    fn from(_refused: AllocFailed<T>) -> Self {
        DecodeError::from(AllocError)
    }
}
