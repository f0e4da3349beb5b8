//! Reads standard input, and writes what the command makes of it to standard output.
#![tactic(auto)]

mod command;
mod ending;
mod frames;
pub mod laws;
mod nlas;
pub mod overwrite;
mod ping_pong;
mod run;
pub mod samples;
#[cfg(test)]
mod tests;
mod text;

use crate::ending::{Usage, asked, ended};
use crate::run::Fault;
use netlink_program::Ending;
use std::{env, io};

/// Runs the command that the arguments name. Exits with status 0 if the whole output is written. If
/// the run fails, prints the error text to standard error and exits with status 1. If the arguments
/// name no command, prints the usage there and exits with status 2.
fn main(rt: HostRuntime) -> Ending<Fault, Usage> {
    let command = asked(env::args(&rt).ok());
    ended(rt.alloc(), command, &mut rt.reader(), &mut io::writer(&rt))
}
