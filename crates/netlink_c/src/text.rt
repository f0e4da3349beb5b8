//! The text of an error, written into the caller's buffer.

ghost use Rattle.std.specs.Prelude.{◌≡◌, ◌≢◌, None, Some};
ghost use Rattle.netlink_packet_core.specs.DecodeError.{DecodeError};
ghost use Rattle.netlink_c.specs.Fault.{numbers_of};
ghost use Rattle.netlink_c.specs.declared.results.TheConstants.{NO_MEMORY, NO_PLACE};
ghost use Rattle.netlink_c.specs.Texts.{HasNumbersAlone, IsTextOut, cause_from};

use crate::fault::FaultNumbers;
use crate::normal::copy_out;
use crate::results::{NO_MEMORY, NO_PLACE};
use netlink_packet_core::DecodeError;
use std::alloc::Global;

/// Writes the text of the error that these numbers identify, in UTF-8, without a zero at its end.
///
/// Returns 0 on success; the text is then the first `size` bytes of `buffer`. Returns `NO_PLACE` if
/// the numbers identify no error, or one that holds a string (`InvalidBuffer` or `Message`).
/// Returns `NO_ROOM`, and sets `size` to the size that is needed, if the text does not fit in
/// `buffer`. Returns `NO_MEMORY` if an allocation fails. Changes `buffer` only if it returns 0.
/// Wraps the `Display` of `DecodeError`, and allocates for the text.
#[unsafe(no_mangle)]
pub extern "C" fn nlp_fault_text(
    alloc: Global,
    fault: &FaultNumbers,
    buffer: &mut [u8],
    size: &mut usize,
) -> u32
    ensures text { (e : DecodeError) → HasNumbersAlone e → fault.now ≡ numbers_of e
        → IsTextOut e buffer.old buffer.new size.new result }
    ensures told { (e : DecodeError) → cause_from fault.now ≡ Some e
        → IsTextOut e buffer.old buffer.new size.new result }
    ensures none { cause_from fault.now ≡ None → (result ≡ NO_PLACE) × (size.new ≡ size.old) }
    ensures unchanged { result ≢ 0 → buffer.new ≡ buffer.old }
    ensures memory { result ≡ NO_MEMORY → size.new ≡ size.old }
{
    let Some(cause) = cause_of(fault) else {
        return NO_PLACE;
    };
    text_out(alloc, &cause, buffer, size)
}

/// Writes the text of an error as `nlp_fault_text` does. Returns 0, `NO_ROOM` or `NO_MEMORY`.
fn text_out(alloc: Global, cause: &DecodeError, buffer: &mut [u8], size: &mut usize) -> u32
    ensures text { IsTextOut cause.now buffer.old buffer.new size.new result }
    ensures unchanged { result ≢ 0 → buffer.new ≡ buffer.old }
    ensures memory { result ≡ NO_MEMORY → size.new ≡ size.old }
{
    match cause.to_string(alloc) {
        Ok(text) => copy_out(text.as_str().as_bytes(), buffer, size),
        Err(_) => NO_MEMORY,
    }
}

/// Returns the error that these numbers identify, or `None` if there is none or it holds a string.
fn cause_of(fault: &FaultNumbers) -> Option<DecodeError>
    ensures { result ≡ cause_from fault.now }
{
    let inside = fault.inside != 0;
    let size = fault.size;
    let wanted = fault.wanted;
    match fault.cause {
        2 => Some(DecodeError::invalid_mac_address(size)),
        3 => Some(DecodeError::invalid_ip_address(size)),
        4 => Some(DecodeError::invalid_number(wanted, size)),
        5 => Some(DecodeError::nla_buffer_too_small(size, wanted)),
        6 => Some(DecodeError::nla_length_mismatch(size, wanted)),
        7 => Some(DecodeError::nla_invalid_length(size, wanted)),
        8 => Some(DecodeError::buffer_too_small(size, wanted)),
        9 => Some(DecodeError::frame_short(size, inside)),
        10 if wanted <= u32::MAX as usize => {
            Some(DecodeError::frame_cut(wanted as u32, size, inside))
        }
        11 if wanted <= u32::MAX as usize => Some(DecodeError::frame_length(wanted as u32, inside)),
        12 => Some(DecodeError::done_short(size, inside)),
        13 => Some(DecodeError::error_short(size, inside)),
        15 => Some(DecodeError::TooLong),
        16 => Some(DecodeError::OutOfMemory),
        _ => None,
    }
}
