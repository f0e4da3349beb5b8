//! The input of a run: the frames of a stream, the packets of a pcap file and the blocks of a
//! pcapng file, one at a time.
#![tactic(auto)]

pub mod block;
pub mod blocks;
pub mod fault;
pub mod packet;
pub mod pcap;
pub mod start;
pub mod stream;
pub mod time;
