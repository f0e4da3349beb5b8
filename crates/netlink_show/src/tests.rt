//! The arguments, and how the program ends.

mod endings;
