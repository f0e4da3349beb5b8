//! Structs and flags by the headers of Linux.

mod flags;
mod structs;
