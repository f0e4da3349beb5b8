//! Messages of any type with any bytes.

ghost use Rattle.std.specs.Prelude.{◌≡◌, Some, true, false};

use crate::output::hand_out;
use netlink_packet_core::{
    NetlinkDeserializable, NetlinkHeader, NetlinkMessage, NetlinkSerializable, copy_of,
};
use std::alloc::{AllocError, Global};
use std::error::Error;
use std::fmt;

/// A message with any type and any bytes.
#[derive(Debug, Drop)]
struct Raw {
    kind: u16,
    bytes: Vec<u8>,
}

/// The allocation for the bytes failed.
#[derive(Debug, Drop)]
struct OutOfMemory;

impl fmt::Display for OutOfMemory {
    fn fmt<W: fmt::Write>(&self, f: &mut fmt::Formatter<W>) -> fmt::Result {
        f.write_str("out of memory")
    }
}

impl Error for OutOfMemory {}

impl From<AllocError> for OutOfMemory {
    fn from(_refused: AllocError) -> Self {
        OutOfMemory
    }
}

impl NetlinkSerializable for Raw {
    ghost encoding = { record { type_of = λ m. m.kind; bytes_of = λ m. m.bytes.items } };

    fn message_type(&self) -> u16 {
        self.kind
    }

    fn buffer_len(&self) -> usize {
        self.bytes.len()
    }

    fn serialize(&self, buffer: &mut [u8]) {
        buffer.copy_from_slice(&self.bytes);
    }

    fn append(&self, frame: &mut Vec<u8>) -> Result<(), AllocError> {
        frame.extend_from_slice(&self.bytes)
    }
}

impl NetlinkDeserializable for Raw {
    type Error = OutOfMemory;

    ghost decoding = { record {
      reading = λ header payload. Some (header.message_type, payload);
      stands_for = λ m. (m.kind, m.bytes.items);
      in_range = λ _. true;
    } };

    ghost wants_memory = { λ _. true };

    fn deserialize(
        alloc: Global,
        header: &NetlinkHeader,
        payload: &[u8],
    ) -> Result<Self, OutOfMemory> {
        let kind = header.message_type;
        let bytes = copy_of(alloc, payload)?;
        Ok(Raw { kind, bytes })
    }

    fn is_out_of_memory(_error: &OutOfMemory) -> bool {
        true
    }
}

/// Decodes a message and drops it. Returns its length field.
#[unsafe(no_mangle)]
pub extern "C" fn raw_read(alloc: Global, frame: &[u8]) -> usize {
    match NetlinkMessage::<Raw>::deserialize(alloc, frame) {
        Ok(message) => message.header.length as usize,
        Err(_) => 0,
    }
}

/// Decodes a message and writes it again.
#[unsafe(no_mangle)]
pub extern "C" fn raw_read_output(alloc: Global, frame: &[u8], out: &mut [u8]) -> usize {
    match NetlinkMessage::<Raw>::deserialize(alloc, frame) {
        Ok(message) => message
            .into_frame(alloc)
            .map_or(0, |bytes| hand_out(bytes, out)),
        Err(_) => 0,
    }
}
