//! The statuses, and what goes to standard error.

use crate::Ending;
use std::alloc::Global;
use std::cell::RefCell;
use std::fmt::Display;
use std::io;
use std::process::{ExitCode, Termination};
use std::test::Fail;

/// Stores what is printed to standard error.
#[derive(Drop)]
struct Said {
    alloc: Global,
    text: RefCell<String>,
}

impl Eprint for Said {
    fn eprint<D: Display + Drop>(&self, value: D) -> io::Result<()> {
        let said = value.to_string(self.alloc)?;
        if let Ok(mut text) = self.text.try_borrow_mut() {
            text.push_str(said.as_str())?;
        }
        Ok(())
    }

    fn eprintln<D: Display + Drop>(&self, value: D) -> io::Result<()> {
        self.eprint(value)?;
        self.eprint("\n")
    }
}

#[test]
fn each_ending_has_its_status_and_its_text(rt: HostRuntime) -> Result<(), Fail> {
    let alloc = rt.alloc();
    let rows = [
        (Ending::Done, 0u8, ""),
        (Ending::Failed(40u8), 1, "40\n"),
        (
            Ending::Usage("usage: program < FILE"),
            2,
            "usage: program < FILE\n",
        ),
    ];
    for (ending, status, text) in rows {
        assert_eq!(rt; ending.status(), status);
        assert_eq!(rt; ending.to_string(alloc)?.as_str(), text);
        let said = Said {
            alloc,
            text: RefCell::new(String::new(alloc)),
        };
        assert!(rt; ending.report(&said) == ExitCode::from(status));
        assert_eq!(rt; said.text.into_inner().as_str(), text);
    }
    Ok(())
}

/// Fails each time something is printed.
#[derive(Drop)]
struct Closed;

impl Eprint for Closed {
    fn eprint<D: Display + Drop>(&self, _value: D) -> io::Result<()> {
        Err(io::Error::from(io::ErrorKind::BrokenPipe))
    }

    fn eprintln<D: Display + Drop>(&self, _value: D) -> io::Result<()> {
        Err(io::Error::from(io::ErrorKind::BrokenPipe))
    }
}

/// The status is the same if nothing can be printed.
#[test]
fn a_failed_write_is_no_fault(rt: HostRuntime) {
    let ending: Ending<u8, &str> = Ending::Failed(40);
    assert!(rt; ending.report(&Closed) == ExitCode::from(1));
}
