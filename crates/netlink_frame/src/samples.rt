//! A sub-protocol of zeros, for tests of long messages without their bytes.

ghost use Rattle.std.specs.Prelude.{◌≡◌, ◌↔◌, IfErr, IfOk, IsOk, IsTrue, None, OnErr, Some, false, length, refl};
ghost use Rattle.netlink_frame.specs.Zeros.{are_zeros, zeros_decoding, zeros_encoding};
ghost use Rattle.netlink_frame.specs.ZerosLaws.{equal_pairs, reading_is_lawful, value_is_lawful};

use crate::ping_pong::DeserializeError;
use netlink_packet_core::{
    NetlinkDeserializable, NetlinkHeader, NetlinkProtocol, NetlinkSerializable, parse_u64_le,
};
use std::alloc::{AllocError, Global};

/// The message type of zeros.
const ZEROS_MESSAGE: u16 = 18;

/// The message type of a count of zeros, which is read and never written.
const COUNT_MESSAGE: u16 = 19;

/// A number of zeros. Its encoding is that many zero bytes.
///
/// Type 18 with a payload of zeros decodes to the number of these zeros. Type 19 with a payload of
/// 8 bytes decodes to the little-endian integer in them. Everything else is an `InvalidType`.
/// Decoding does not allocate.
#[derive(Clone, Copy, Debug, PartialEq, Eq)]
pub struct Zeros(pub u64);

impl NetlinkSerializable for Zeros {
    ghost encoding = { zeros_encoding };

    fn message_type(&self) -> u16 {
        ZEROS_MESSAGE
    }

    fn buffer_len(&self) -> usize {
        self.0 as usize
    }

    fn serialize(&self, buffer: &mut [u8]) {
        buffer.fill(0);
    }

    /// Appends the zeros. Allocates only with the vector's own allocator, and only if there is no
    /// room.
    fn append(&self, frame: &mut Vec<u8>) -> Result<(), AllocError> {
        frame.resize(frame.len() + self.0 as usize, 0)
    }

    /// Returns whether the bytes are that many zeros. Compares them in place. Does not allocate.
    #[tactic(auto, using(crate::proofs::Zeros::zeros_are))]
    fn is_written_as(&self, _alloc: Global, bytes: &[u8]) -> Result<bool, AllocError>
        ensures says { IfOk result
            (λ yes. IsTrue yes ↔ (bytes.now ≡ zeros_encoding.bytes_of self.now)) }
        ensures size { OnErr result (length bytes.now ≡ length (zeros_encoding.bytes_of self.now)) }
        ensures in_place { IsOk result }
    {
        Ok(bytes.len() == self.0 as usize && are_zeros(bytes))
    }
}

impl NetlinkDeserializable for Zeros {
    type Error = DeserializeError;

    ghost decoding = { zeros_decoding };

    ghost wants_memory = { λ _. false };

    #[tactic(auto, using(crate::proofs::Zeros::reads_zeros))]
    fn deserialize(
        _alloc: Global,
        header: &NetlinkHeader,
        payload: &[u8],
    ) -> Result<Self, DeserializeError>
        ensures in_range { IfOk result (λ v. IsTrue (zeros_decoding.in_range v)) }
        ensures reads { IfOk result
            (λ v. zeros_decoding.reading header.now payload.now
            ≡ Some (zeros_decoding.stands_for v)) }
        ensures refuses { OnErr result (zeros_decoding.reading header.now payload.now ≡ None) }
        // There is one error, which does not mean out of memory.
        ensures fault { IfErr result (λ e. e ≡ DeserializeError.InvalidType) }
    {
        match header.message_type {
            ZEROS_MESSAGE if are_zeros(payload) => Ok(Zeros(payload.len() as u64)),
            COUNT_MESSAGE => match parse_u64_le(payload) {
                Ok(count) => Ok(Zeros(count)),
                Err(_) => Err(DeserializeError::InvalidType),
            },
            _ => Err(DeserializeError::InvalidType),
        }
    }

    fn is_out_of_memory(_error: &DeserializeError) -> bool {
        false
    }
}

impl NetlinkProtocol for Zeros {
    fn in_widths(&self) {
        let _count = self.0;
    }

    ghost own_pair = { λ v. refl };

    ghost equal_pairs = { λ v w _ _. equal_pairs v w };

    ghost value_is_lawful = { λ v _. value_is_lawful v };

    ghost reading_is_lawful = { reading_is_lawful };
}

/// Returns whether every byte is zero.
fn are_zeros(bytes: &[u8]) -> bool
    ensures { result ≡ are_zeros bytes.now }
{
    bytes.iter().all(|byte| *byte == 0)
}
