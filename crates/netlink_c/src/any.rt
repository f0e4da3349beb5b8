//! A protocol that accepts any bytes.

ghost use Rattle.std.proofs.Common.{rules};
ghost use Rattle.std.proofs.lemmas.Grind.{common_steps};
ghost use Rattle.std.specs.Prelude.{◌≡◌, Some, refl};
ghost use Rattle.netlink_c.specs.Any.{any_decoding, any_encoding, error_text, wants_memory};

use crate::protocol_type::ProtocolType;
use netlink_packet_core::{
    NETLINK_HEADER_LEN, NetlinkDeserializable, NetlinkHeader, NetlinkProtocol, NetlinkSerializable,
    copy_of,
};
use std::alloc::{AllocError, Global};
use std::error::Error;
use std::fmt;

/// A message with any type of 16 or greater, and with any bytes.
#[derive(Debug, Drop, PartialEq, Eq)]
pub struct AnyMessage {
    kind: ProtocolType,
    bytes: Vec<u8>,
}

/// Why a payload cannot be decoded.
#[derive(Clone, Copy, Debug, PartialEq, Eq)]
pub enum AnyError {
    /// The message type is less than 16.
    BelowLeastType,
    /// An allocation failed.
    OutOfMemory,
}

impl fmt::Display for AnyError {
    ghost output = { λ e. Some (error_text e) };

    fn fmt<W: fmt::Write>(&self, f: &mut fmt::Formatter<W>) -> fmt::Result {
        match self {
            AnyError::BelowLeastType => f.write_str("the message type is below 16"),
            AnyError::OutOfMemory => f.write_str("out of memory"),
        }
    }
}

impl Error for AnyError {}

impl From<AllocError> for AnyError {
    ghost use Rattle.netlink_c.specs.declared.any.AnyError.TheVariants.{OutOfMemory};

    ghost from_gives = { λ _ e. e ≡ OutOfMemory };

    /// Returns `OutOfMemory`, so that `?` propagates a failed allocation.
    fn from(_refused: AllocError) -> Self {
        Self::OutOfMemory
    }
}

impl NetlinkSerializable for AnyMessage {
    ghost encoding = { any_encoding };

    fn message_type(&self) -> u16 {
        self.kind.number
    }

    fn buffer_len(&self) -> usize {
        self.bytes.len()
    }

    fn serialize(&self, buffer: &mut [u8]) {
        buffer.copy_from_slice(&self.bytes);
    }

    fn append(&self, frame: &mut Vec<u8>) -> Result<(), AllocError> {
        frame.extend_from_slice(&self.bytes)
    }

    /// Does not allocate.
    fn is_written_as(&self, _alloc: Global, bytes: &[u8]) -> Result<bool, AllocError> {
        Ok(bytes == self.bytes.as_slice())
    }
}

impl NetlinkDeserializable for AnyMessage {
    type Error = AnyError;

    ghost decoding = { any_decoding };

    ghost wants_memory = { wants_memory };

    /// Returns the type and a copy of the payload. Returns `BelowLeastType` if the type is less
    /// than 16, and `OutOfMemory` if the allocation for the copy fails.
    fn deserialize(
        alloc: Global,
        header: &NetlinkHeader,
        payload: &[u8],
    ) -> Result<Self, AnyError> {
        let Some(kind) = ProtocolType::new(header.message_type) else {
            return Err(AnyError::BelowLeastType);
        };
        let bytes = copy_of(alloc, payload)?;
        Ok(AnyMessage { kind, bytes })
    }

    fn is_out_of_memory(error: &AnyError) -> bool {
        matches!(error, AnyError::OutOfMemory)
    }

    /// Writes the frame without the message, so that the payload is copied once. Leaves a type less
    /// than 16 to `deserialize`.
    fn normal_frame(
        alloc: Global,
        header: &NetlinkHeader,
        payload: &[u8],
    ) -> Result<Option<Vec<u8>>, AnyError> {
        let Some(_kind) = ProtocolType::new(header.message_type) else {
            return Ok(None);
        };
        let mut frame = Vec::with_capacity(alloc, NETLINK_HEADER_LEN + payload.len())?;
        frame.extend_from_slice(&[0; NETLINK_HEADER_LEN])?;
        frame.extend_from_slice(payload)?;
        Ok(Some(frame))
    }
}

impl NetlinkProtocol for AnyMessage {
    fn in_widths(&self) {
        let _number = self.kind.number;
    }

    ghost own_pair = { λ m. refl };

    ghost equal_pairs = { Prim.search (rules, common_steps) };

    ghost value_is_lawful = { Prim.search (rules, common_steps) };

    ghost reading_is_lawful = { Prim.search (rules, common_steps) };
}
