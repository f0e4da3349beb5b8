//! The names of links, from the messages about them.
//!
//! A definition `File::name` is in `specs/File.antt`.
//!
//! | what | function | definition |
//! |---|---|---|
//! | the name of a link by its index, `eth0`, `if3` or `*`, appended | `device::push_device_name` | `Device::device_text` |
//! | the same, returned | `device::device_name`, `device::device_text` | `Device::device_text` |
//! | a key and the name of a link, `dev eth0` | `device::push_device` | `Device::device_part` |
//! | the known name of an index, if there is one | `name_table::name_of` | `Device::name_of` |
//! | the names after a message about a link | `name_table::NameTable::learn` | `Known::link_known` |
//! | the same for a list of names | `known::learn_link` | `Known::link_known` |
//! | the list after a link got a name | `known::enter_name` | `Known::with_name` |
#![tactic(auto)]

pub mod device;
pub mod known;
pub mod name;
pub mod name_queue;
pub mod name_table;
pub mod short_name;
