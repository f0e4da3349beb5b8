//! Reads messages of route netlink from standard input, and writes the lines of each to standard
//! output as soon as it has arrived.
#![tactic(auto)]

mod ending;
#[cfg(test)]
mod tests;

use crate::ending::{Usage, asked, ended};
use netlink_family::Joined;
use netlink_lines::Fault;
use netlink_program::Ending;
use netlink_route::RouteTables;
use std::io::BufReader;
use std::{env, io};

/// Ends with status 0; with 1 and the fault's text on standard error; or with 2 and the usage.
fn main(rt: HostRuntime) -> Ending<Fault, Usage> {
    let options = asked(env::args(&rt).ok());
    match BufReader::new(rt.alloc(), rt.reader()) {
        Ok(mut reader) => ended::<Joined<RouteTables>, _, _>(
            rt.alloc(),
            options,
            &mut reader,
            &mut io::writer(&rt),
        ),
        Err(_) => Ending::Failed(Fault::OutOfMemory),
    }
}
