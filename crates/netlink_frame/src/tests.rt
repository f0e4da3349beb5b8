//! Tests of the program, and tests that need more than one crate.

mod ample;
mod attributes;
mod cuts;
mod datagrams;
mod devices;
mod endings;
mod lengths;
mod mark;
mod memory_not_asked;
mod memory_refused;
mod messages;
mod outcomes;
mod overwriting;
mod refusals;
mod runs;
mod shown;
mod verdicts;
