//! The numbers of an error.

ghost use Rattle.std.specs.Prelude.{◌≡◌, ◌<◌, ◌≤◌, if◌then◌else◌};
ghost use Rattle.netlink_packet_core.specs.Causes.{cause_number};
ghost use Rattle.netlink_c.specs.Fault.{numbers_of};

use netlink_packet_core::DecodeError;

/// The numbers of an error (`struct nlp_fault`).
#[derive(Clone, Copy, Debug, PartialEq, Eq)]
#[repr(C)]
pub struct FaultNumbers {
    /// The number of the `DecodeError` variant, 1 to 16.
    pub cause: u32,
    /// 1 if the error was found inside a larger call, else 0.
    pub inside: u32,
    /// The number of bytes available, if the error has it, else 0. For `NlaInvalidLength` it is the
    /// minimum length, 4.
    pub size: usize,
    /// The value of a length field, or the number of bytes needed, if the error has it, else 0.
    pub wanted: usize,
}

/// Writes the numbers of an error into `fault`, and returns the number of its variant, 1 to 16.
#[tactic(auto, using(crate::proofs::RefusalLemmas::cause_some, crate::proofs::RefusalLemmas::cause_below))]
pub(crate) fn refused(fault: &mut FaultNumbers, cause: &DecodeError) -> u32
    ensures number { result ≡ cause_number cause.now }
    ensures numbers { fault.new ≡ numbers_of cause.now }
    ensures some { 0 < result }
    ensures below { result ≤ 16 }
{
    let (inside, size, wanted) = other_numbers(cause);
    let number = u32::from(cause.number());
    *fault = FaultNumbers {
        cause: number,
        inside: u32::from(inside),
        size,
        wanted,
    };
    number
}

/// Returns `inside`, `size` and `wanted` for an error.
fn other_numbers(cause: &DecodeError) -> (bool, usize, usize)
    ensures inside { (if result.0 then 1 else 0) ≡ (numbers_of cause.now).inside }
    ensures size { result.1 ≡ (numbers_of cause.now).size }
    ensures wanted { result.2 ≡ (numbers_of cause.now).wanted }
{
    match cause {
        DecodeError::InvalidBuffer {
            received,
            minimum_length,
            ..
        } => (false, *received, *minimum_length),
        DecodeError::InvalidMacAddress { received } => (false, *received, 0),
        DecodeError::InvalidIpAddress { received } => (false, *received, 0),
        DecodeError::InvalidNumber { expected, received } => (false, *received, *expected),
        DecodeError::NlaBufferTooSmall {
            buffer_len,
            nla_len,
        } => (false, *buffer_len, *nla_len),
        DecodeError::NlaLengthMismatch {
            buffer_len,
            nla_len,
        } => (false, *buffer_len, *nla_len),
        DecodeError::NlaInvalidLength {
            buffer_len,
            nla_len,
        } => (false, *buffer_len, *nla_len),
        DecodeError::BufferTooSmall {
            buffer_len,
            value_len,
        } => (false, *buffer_len, *value_len),
        DecodeError::FrameShort { size, inside } => (*inside, *size, 0),
        DecodeError::FrameCut {
            length,
            size,
            inside,
        } => (*inside, *size, *length as usize),
        DecodeError::FrameLength { length, inside } => (*inside, 0, *length as usize),
        DecodeError::DoneShort { size, inside } => (*inside, *size, 0),
        DecodeError::ErrorShort { size, inside } => (*inside, *size, 0),
        DecodeError::Message(_) | DecodeError::TooLong | DecodeError::OutOfMemory => (false, 0, 0),
    }
}
