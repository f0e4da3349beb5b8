//! Messages of generic netlink's controller. The bytes are in `examples/captured`, or written by
//! hand from linux/netlink.h and linux/genetlink.h.

mod captured;
mod commands;
mod errors;
mod first;
mod mark;
mod memory_not_asked;
mod memory_refused;
mod replies;
mod requests;
mod samples;
mod show;
