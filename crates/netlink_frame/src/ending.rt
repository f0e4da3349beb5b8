//! What the arguments ask for, and how the program ends.

ghost use Rattle.std.specs.Prelude.{◌≡◌, ◌↔◌, None, Some, IfSome, option_map};
ghost use Rattle.std.specs.Io.KnownBytes.{Keeps};
ghost use Rattle.std.specs.Vec.Iter.{into_iter_items};
ghost use Rattle.netlink_program.specs.Ending.{IsUsage};
ghost use Rattle.netlink_frame.specs.Ending.{Asks, Ends, usage_text};
ghost use Rattle.netlink_frame.specs.Run.{IsEarly};
ghost use Rattle.netlink_frame.specs.declared.command.Command.{Command};

use crate::command::Command;
use crate::run::{Fault, run};
use netlink_program::Ending;
use std::alloc::Global;
use std::env::Args;
use std::fmt;
use std::io::{Read, Write};

/// The usage, which is printed if the arguments name no command.
#[derive(Debug, Drop)]
pub struct Usage;

impl fmt::Display for Usage {
    ghost output = { λ _. Some usage_text };

    fn fmt<W: fmt::Write>(&self, f: &mut fmt::Formatter<W>) -> fmt::Result {
        f.write_str("usage: netlink_frame normalize|show|nlas|canon|frames")
    }
}

/// Returns the command that the arguments name: the program's name is followed by one word, which
/// is that of the command. Returns `None` for all other arguments, and if they could not be read
/// because one is not UTF-8 or an allocation failed.
pub fn asked(args: Option<Args>) -> Option<Command>
    ensures asks { (command : Command)
        → (result ≡ Some command) ↔ Asks (option_map into_iter_items args) command }
{
    let mut args = args?;
    let _name = args.next()?;
    let word = args.next()?;
    match args.next() {
        None => Command::from_text(word.as_str()),
        Some(_) => None,
    }
}

/// Runs the command over the reader and the writer, and returns how the program ends. Without a
/// command, returns `Usage` and uses neither.
pub fn ended<R: Read, W: Write>(
    alloc: Global,
    command: Option<Command>,
    reader: &mut R,
    writer: &mut W,
) -> Ending<Fault, Usage>
    ensures usage { IsUsage result ↔ (command ≡ None) }
    ensures untouched { command ≡ None → (reader.new ≡ reader.old) × (writer.new ≡ writer.old) }
    ensures early { (fault : Fault) → result ≡ Ending.Failed fault → IsEarly fault
        → Keeps (W.contents writer.old) (W.contents writer.new) }
    ensures ends { IfSome command (λ asked. IfSome (R.remaining reader.old) (λ input.
        Ends asked input (W.contents writer.old) (W.contents writer.new) result)) }
{
    let Some(command) = command else {
        return Ending::Usage(Usage);
    };
    Ending::from(run(alloc, command, reader, writer))
}
