//! Why trees cannot be read or written.

ghost use Rattle.std.specs.Prelude.{◌≡◌};
ghost use Rattle.netlink_tree.specs.Fault.{fault_text};

use netlink_packet_core::{DecodeError, NLA_VALUE_MAX};
use std::alloc::{AllocError, AllocFailed};
use std::error::Error;
use std::fmt;

/// Why trees cannot be read or written. Only `Decode` owns memory.
#[derive(Debug, Drop, PartialEq, Eq)]
pub enum TreeFault {
    /// Something is nested deeper than 16, where the outer attributes have depth 1.
    TooDeep,
    /// A value, or the encoded block inside a nest, has more than `NLA_VALUE_MAX` bytes.
    TooLong,
    /// Bytes are not attributes (`NlaBufferTooSmall`, `NlaLengthMismatch` or `NlaInvalidLength`),
    /// or an allocation failed (`OutOfMemory`).
    Decode(DecodeError),
}

impl fmt::Display for TreeFault {
    ghost use Rattle.std.specs.Prelude.{Some};

    ghost output = { λ fault. Some (fault_text fault) };

    fn fmt<W: fmt::Write>(&self, f: &mut fmt::Formatter<W>) -> fmt::Result {
        match self {
            TreeFault::TooDeep => f.write_str("attributes are nested deeper than 16"),
            TreeFault::TooLong => {
                write!(
                    f,
                    "the value of an attribute is longer than {NLA_VALUE_MAX} bytes"
                )
            }
            TreeFault::Decode(cause) => write!(f, "{cause}"),
        }
    }
}

impl Error for TreeFault {}

impl From<DecodeError> for TreeFault {
    ghost use Rattle.netlink_tree.specs.declared.fault.TreeFault.TheVariants.{Decode};

    ghost from_gives = { λ cause fault. fault ≡ Decode cause };

    /// Returns `Decode` with this error.
    fn from(refusal: DecodeError) -> Self {
        TreeFault::Decode(refusal)
    }
}

impl From<AllocError> for TreeFault {
    ghost use Rattle.netlink_packet_core.specs.DecodeError.TheVariants.{OutOfMemory};
    ghost use Rattle.netlink_tree.specs.declared.fault.TreeFault.TheVariants.{Decode};

    ghost from_gives = { λ _ fault. fault ≡ Decode OutOfMemory };

    /// Returns `Decode` with `OutOfMemory`, so that `?` propagates a failed allocation.
    fn from(_refused: AllocError) -> Self {
        TreeFault::Decode(DecodeError::OutOfMemory)
    }
}

impl<T: Drop> From<AllocFailed<T>> for TreeFault {
    ghost use Rattle.netlink_packet_core.specs.DecodeError.TheVariants.{OutOfMemory};
    ghost use Rattle.netlink_tree.specs.declared.fault.TreeFault.TheVariants.{Decode};

    ghost from_gives = { λ _ fault. fault ≡ Decode OutOfMemory };

    /// Returns `Decode` with `OutOfMemory`, and drops the value for which there was no room.
    fn from(_refused: AllocFailed<T>) -> Self {
        TreeFault::from(AllocError)
    }
}
