//! Laws about integers and their encodings, about fields, errors and equality, for callers to cite.

ghost use Rattle.std.specs.Prelude.{◌≡◌, ◌↔◌, IsTrue};
ghost use Rattle.netlink_bytes.specs.Causes.{SameCause};
ghost use Rattle.netlink_bytes.specs.Contexts.{LinesChain};
ghost use Rattle.netlink_bytes.specs.Fields.{FieldsKept, PlacedIsRead};
ghost use Rattle.netlink_bytes.specs.Laws.{BytesReadBack, NumberIsSum, SignedReadsBack, TextIsBytes, TextReadsBack, UnsignedReadsBack, WrittenIsRead, WrittenSignedIsRead};
ghost use Rattle.netlink_bytes.specs.NonZero.{number_of};
ghost use Rattle.netlink_bytes.specs.declared.addresses.IpAddr.{IpAddr};
ghost use Rattle.netlink_bytes.specs.declared.error.DecodeError.{DecodeError};
ghost use Rattle.netlink_bytes.specs.declared.nonzero.NonZeroI32.{NonZeroI32};

use crate::addresses::IpAddr;
use crate::error::DecodeError;
use crate::nonzero::NonZeroI32;

/// States that bytes encode the sum of each byte times 256 to the power of its position, counted
/// from the lowest byte, and that an encoding in `w` bytes is a list of `w` bytes.
pub fn numbers_are_sums()
    ensures sums { NumberIsSum }
    ensures bytes { TextIsBytes }
{}

/// States that an encoding in `w` bytes decodes to the integer modulo 256^w, and that encoding what
/// `w` bytes decode to, which is less than 256^w, gives those bytes again.
pub fn numbers_read_back()
    ensures numbers { TextReadsBack }
    ensures bytes { BytesReadBack }
{}

/// States that two's complement is a bijection at each width of at least one byte.
pub fn signed_numbers_read_back()
    ensures signed { SignedReadsBack }
    ensures unsigned { UnsignedReadsBack }
{}

/// States that what a writer puts at the start of a buffer is what the matching reader reads,
/// whatever bytes follow.
pub fn written_is_read()
    ensures numbers { WrittenIsRead }
    ensures signed { WrittenSignedIsRead }
{}

/// States that of two lines added to an error, the later one comes first: `b caused by a caused by`
/// and the old text, unless the error is or becomes `OutOfMemory`.
pub fn contexts_chain()
    ensures chain { LinesChain }
{}

/// States that two addresses are equal if and only if they are the same value, and that two nonzero
/// integers are equal if and only if they hold the same number.
pub fn values_equal()
    ensures address { (a b : IpAddr) → IsTrue (⟦<IpAddr as PartialEq>⟧.eq a b) ↔ (a ≡ b) }
    ensures number { (a b : NonZeroI32)
        → IsTrue (⟦<NonZeroI32 as PartialEq>⟧.eq a b) ↔ (number_of a ≡ number_of b) }
{}

/// States that two errors are equal if and only if they have the same number, hold the same text
/// and the same sizes, and were both detected inside a larger call or both not.
pub fn causes_equal()
    ensures equal { (a b : DecodeError)
        → IsTrue (⟦<DecodeError as PartialEq>⟧.eq a b) ↔ SameCause a b }
{}

/// States that reading consecutive fields and writing them again gives the bytes that were read.
pub fn fields_kept()
    ensures kept { FieldsKept }
{}

/// States that an integer written at an offset is what is read there.
pub fn placed_is_read()
    ensures read { PlacedIsRead }
{}
