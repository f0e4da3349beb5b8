//! Answers as the kernel sends them, and invalid ones. The bytes are in `examples/captured`, or are
//! written by hand from linux/netlink.h. The expected items are written by hand.

mod acks;
mod calling;
mod captured;
mod dumps;
mod helpers;
mod malformed;
mod mark;
mod memory_not_asked;
mod paths;
mod places;
mod sequence;
mod shared;
mod singles;
