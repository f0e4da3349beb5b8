//! How a program ends.

ghost use Rattle.std.specs.Prelude.{◌≡◌};
ghost use Rattle.std.specs.Process.{exit_status};
ghost use Rattle.netlink_program.specs.Ending.{ending_of, ending_text, status_of};

use std::fmt;
use std::process::{ExitCode, Termination};

/// How a program ends, with its own types for an error and for the usage. `Display` writes what
/// goes to standard error.
#[derive(Debug, Drop)]
pub enum Ending<F, U> {
    /// The whole output is written. Prints nothing; the status is 0.
    Done,
    /// The run ended with this error. Prints its text and a line feed; the status is 1.
    Failed(F),
    /// The arguments do not ask for a run. Prints the usage and a line feed; the status is 2.
    Usage(U),
}

impl<F, U> Ending<F, U> {
    /// Returns the exit status of the process.
    pub fn status(&self) -> u8
        ensures status { result ≡ status_of self.now }
    {
        match self {
            Ending::Done => 0,
            Ending::Failed(_) => 1,
            Ending::Usage(_) => 2,
        }
    }
}

impl<F: Drop, U> From<Result<(), F>> for Ending<F, U> {
    ghost from_gives = { λ run ending. ending ≡ ending_of run };

    /// Returns how the program ends after a run: `Done` if it succeeded, else `Failed` with its
    /// error.
    fn from(run: Result<(), F>) -> Self {
        match run {
            Ok(()) => Ending::Done,
            Err(fault) => Ending::Failed(fault),
        }
    }
}

impl<F: fmt::Display, U: fmt::Display> fmt::Display for Ending<F, U> {
    ghost output = { ending_text F.output U.output };

    fn fmt<W: fmt::Write>(&self, f: &mut fmt::Formatter<W>) -> fmt::Result {
        match self {
            Ending::Done => Ok(()),
            Ending::Failed(fault) => writeln!(f, "{fault}"),
            Ending::Usage(usage) => writeln!(f, "{usage}"),
        }
    }
}

impl<F: fmt::Display + Drop, U: fmt::Display + Drop> Termination for Ending<F, U> {
    /// Prints the text to standard error, and returns the exit status. Ignores a failure to print.
    fn report<R: Eprint>(self, rt: &R) -> ExitCode
        ensures status { exit_status result ≡ status_of self }
    {
        let _ = eprint!(rt; "{self}");
        ExitCode::from(self.status())
    }
}
