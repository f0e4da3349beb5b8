//! A sub-protocol with two messages, each of which carries bytes.

ghost use Rattle.std.specs.Prelude.{◌≡◌, refl, Some};
ghost use Rattle.netlink_frame.specs.PingPong.{error_text, ping_pong_decoding, ping_pong_encoding, wants_memory};
ghost use Rattle.netlink_frame.specs.PingPongLaws.{equal_pairs, reading_is_lawful, value_is_lawful};

use netlink_packet_core::{
    NetlinkDeserializable, NetlinkHeader, NetlinkProtocol, NetlinkSerializable, copy_of,
};
use std::alloc::{AllocError, Global};
use std::error::Error;
use std::fmt;

/// The message type of a ping.
pub const PING_MESSAGE: u16 = 18;

/// The message type of a pong.
pub const PONG_MESSAGE: u16 = 20;

/// A ping or a pong. Its encoding is the bytes that it carries.
#[derive(Debug, Drop, PartialEq, Eq)]
pub enum PingPongMessage {
    /// Type 18.
    Ping(Vec<u8>),
    /// Type 20.
    Pong(Vec<u8>),
}

/// Why a payload cannot be decoded.
#[derive(Clone, Copy, Debug, PartialEq, Eq)]
pub enum DeserializeError {
    /// The message type is neither 18 nor 20. `Zeros` returns this for everything that it rejects.
    InvalidType,
    /// An allocation failed.
    OutOfMemory,
}

impl fmt::Display for DeserializeError {
    ghost output = { λ e. Some (error_text e) };

    fn fmt<W: fmt::Write>(&self, f: &mut fmt::Formatter<W>) -> fmt::Result {
        match self {
            DeserializeError::InvalidType => {
                f.write_str("invalid ping-pong message: invalid message type")
            }
            DeserializeError::OutOfMemory => f.write_str("out of memory"),
        }
    }
}

impl Error for DeserializeError {}

impl From<AllocError> for DeserializeError {
    ghost use Rattle.netlink_frame.specs.declared.ping_pong.DeserializeError.TheVariants.{OutOfMemory};

    ghost from_gives = { λ _ e. e ≡ OutOfMemory };

    /// Returns `OutOfMemory`, so that `?` propagates a failed allocation.
    fn from(_refused: AllocError) -> Self {
        Self::OutOfMemory
    }
}

impl NetlinkSerializable for PingPongMessage {
    ghost encoding = { ping_pong_encoding };

    fn message_type(&self) -> u16 {
        match self {
            PingPongMessage::Ping(_) => PING_MESSAGE,
            PingPongMessage::Pong(_) => PONG_MESSAGE,
        }
    }

    fn buffer_len(&self) -> usize {
        match self {
            PingPongMessage::Ping(bytes) | PingPongMessage::Pong(bytes) => bytes.len(),
        }
    }

    fn serialize(&self, buffer: &mut [u8]) {
        match self {
            PingPongMessage::Ping(bytes) | PingPongMessage::Pong(bytes) => {
                buffer.copy_from_slice(bytes);
            }
        }
    }

    fn append(&self, frame: &mut Vec<u8>) -> Result<(), AllocError> {
        match self {
            PingPongMessage::Ping(bytes) | PingPongMessage::Pong(bytes) => {
                frame.extend_from_slice(bytes)
            }
        }
    }

    /// Does not allocate.
    fn is_written_as(&self, _alloc: Global, bytes: &[u8]) -> Result<bool, AllocError> {
        match self {
            PingPongMessage::Ping(text) | PingPongMessage::Pong(text) => {
                Ok(bytes == text.as_slice())
            }
        }
    }
}

impl NetlinkDeserializable for PingPongMessage {
    type Error = DeserializeError;

    ghost decoding = { ping_pong_decoding };

    ghost wants_memory = { wants_memory };

    fn deserialize(
        alloc: Global,
        header: &NetlinkHeader,
        payload: &[u8],
    ) -> Result<Self, DeserializeError> {
        match header.message_type {
            PING_MESSAGE => Ok(PingPongMessage::Ping(copy_of(alloc, payload)?)),
            PONG_MESSAGE => Ok(PingPongMessage::Pong(copy_of(alloc, payload)?)),
            _ => Err(DeserializeError::InvalidType),
        }
    }

    fn is_out_of_memory(error: &DeserializeError) -> bool {
        match error {
            DeserializeError::InvalidType => false,
            DeserializeError::OutOfMemory => true,
        }
    }
}

impl NetlinkProtocol for PingPongMessage {
    fn in_widths(&self) {}

    ghost own_pair = { λ v. refl };

    ghost equal_pairs = { λ v w _ _.
        equal_pairs Self.eq (λ a b. refl) (λ a b. refl) (λ a b. refl) (λ a b. refl) v w };

    ghost value_is_lawful = { λ v _. value_is_lawful v };

    ghost reading_is_lawful = { reading_is_lawful };
}
