//! What a run over a reader and a writer in memory comes to.

use crate::command::Command;
use crate::run::{Fault, run};
use std::alloc::Global;
use std::process::Abort;
use std::test::Fail;

/// A command and its input; what a run writes; and the number and the text of the error that it
/// returns, or 0 and nothing.
pub(crate) type Row<'a> = (Command, &'a [u8], &'a [u8], u8, &'a str);

/// Runs the command of each row.
pub(crate) fn come_to(rt: &impl Abort, alloc: Global, rows: &[Row<'_>]) -> Result<(), Fail> {
    for (command, input, wanted, wanted_number, wanted_text) in rows.iter() {
        let (output, number, text) = outcome_of(alloc, *command, input)?;
        assert_eq!(rt; output.as_slice(), *wanted);
        assert_eq!(rt; number, *wanted_number);
        assert_eq!(rt; text.as_str(), *wanted_text);
    }
    Ok(())
}

/// Returns what a run writes, and the number and the text of its error.
fn outcome_of(
    alloc: Global,
    command: Command,
    input: &[u8],
) -> Result<(Vec<u8>, u8, String), Fail> {
    let mut reader = input;
    let mut output = Vec::new(alloc);
    match run(alloc, command, &mut reader, &mut output) {
        Ok(()) => Ok((output, 0, String::new(alloc))),
        Err(Fault::Decode(cause)) => Ok((output, cause.number(), cause.to_string(alloc)?)),
        Err(_) => Err(Fail::from("the run ended early")),
    }
}
