//! Why a run failed.

ghost use Rattle.std.specs.Prelude.{◌≡◌, Some};
ghost use Rattle.netlink_input.specs.Faults.{fault_text, read_fault};

use crate::stream::Stop;
use netlink_program::{ReadFault, WriteFault};
use std::alloc::AllocError;
use std::fmt;

/// Why a run failed.
#[derive(Debug, Drop, PartialEq, Eq)]
pub enum Fault {
    /// The reader failed, or did not reach its end within 2^64 - 1 calls or bytes.
    Read,
    /// The writer failed. It may have written a part of what it was given.
    Write,
    /// An allocation failed.
    OutOfMemory,
    /// The whole input was shown, and a message or packet in it is malformed.
    Malformed,
    /// A message or packet of the input cannot be read, or the input as a whole.
    Stopped(Stop),
}

impl fmt::Display for Fault {
    ghost output = { λ fault. Some (fault_text fault) };

    fn fmt<W: fmt::Write>(&self, f: &mut fmt::Formatter<W>) -> fmt::Result {
        match self {
            Fault::Read => f.write_str("read failed"),
            Fault::Write => f.write_str("write failed"),
            Fault::OutOfMemory => f.write_str("out of memory"),
            Fault::Malformed => f.write_str("a message is malformed"),
            Fault::Stopped(stop) => write!(f, "{stop}"),
        }
    }
}

impl From<ReadFault> for Fault {
    ghost from_gives = { λ cause fault. fault ≡ read_fault cause };

    fn from(cause: ReadFault) -> Fault {
        match cause {
            ReadFault::Read => Fault::Read,
            ReadFault::OutOfMemory => Fault::OutOfMemory,
        }
    }
}

impl From<WriteFault> for Fault {
    ghost use Rattle.netlink_input.specs.declared.fault.Fault.TheVariants.{Write};

    ghost from_gives = { λ _ fault. fault ≡ Write };

    fn from(_failed: WriteFault) -> Fault {
        Fault::Write
    }
}

impl From<AllocError> for Fault {
    ghost use Rattle.netlink_input.specs.declared.fault.Fault.TheVariants.{OutOfMemory};

    ghost from_gives = { λ _ fault. fault ≡ OutOfMemory };

    fn from(_failed: AllocError) -> Fault {
        Fault::OutOfMemory
    }
}
