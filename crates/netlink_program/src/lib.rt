//! What a program does around its own work: it reads its input, writes its output, and ends with a
//! status and a text.
#![tactic(auto)]

mod ending;
mod filling;
mod reading;
#[cfg(test)]
mod tests;
mod writing;

pub use crate::ending::Ending;
pub use crate::filling::fill;
pub use crate::reading::{ReadFault, read_all};
pub use crate::writing::{WriteFault, write_through};
