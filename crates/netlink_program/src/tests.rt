//! Inputs, and how programs end.

mod endings;
mod inputs;
mod memory_refused;
