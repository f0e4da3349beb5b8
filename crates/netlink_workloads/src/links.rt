//! Whole messages of links, from samples.

use crate::fields::{set_u32, u16_of};
use crate::random::Random;
use netlink_packet_core::{nla_find, nla_place};
use netlink_tree::Frames;
use std::alloc::{AllocError, Global};

/// The least size of a sample in bytes: the captured messages with all attributes are longer.
const LEAST: usize = 1000;

/// The number of links of each sample.
const ALIKE: u32 = 80;

/// A message about a link. Each message made from it differs in its index, flags and MTU.
#[derive(Drop)]
struct Sample {
    frame: Vec<u8>,
    mtu: usize,
}

/// Makes messages of links that appear again and again, with other flags and another MTU.
#[derive(Drop)]
pub(crate) struct Links {
    random: Random,
    samples: Vec<Sample>,
    made: u32,
}

impl Links {
    /// Takes the long messages of links among the samples. Returns `None` if there are none, or if an
    /// allocation fails.
    pub(crate) fn new(alloc: Global, datagram: &[u8], seed: u32) -> Option<Links> {
        let samples = samples(alloc, datagram).ok()?;
        if samples.is_empty() {
            return None;
        }
        Some(Links {
            random: Random::new(seed),
            samples,
            made: 0,
        })
    }

    /// Appends the next message. A link keeps its sample, and so its name.
    pub(crate) fn put(&mut self, out: &mut Vec<u8>) -> Result<(), AllocError> {
        let made = self.made;
        self.made = made.wrapping_add(1);
        let number = u32::try_from(self.samples.len()).unwrap_or(1);
        let chosen = self.random.below(number);
        let alike = self.random.below(ALIKE);
        let index = alike
            .wrapping_mul(number)
            .wrapping_add(chosen)
            .wrapping_add(1);
        let mtu = self.random.below(8).wrapping_mul(1000).wrapping_add(1500);
        let flags = 0x1002u32 | self.random.below(2) | (self.random.below(2) << 16);
        let Some(sample) = self.samples.get_mut(chosen as usize) else {
            return Ok(());
        };
        let at = sample.mtu;
        let frame = sample.frame.as_mut_slice();
        set_u32(frame, 8, made);
        set_u32(frame, 20, index);
        set_u32(frame, 24, flags);
        set_u32(frame, at, mtu);
        out.extend_from_slice(&sample.frame)
    }
}

/// Returns the long messages of links in a datagram, each with the place of its MTU.
fn samples(alloc: Global, datagram: &[u8]) -> Result<Vec<Sample>, AllocError> {
    let mut samples = Vec::new(alloc);
    for frame in long_links(alloc, datagram)? {
        if let Some(mtu) = mtu_of(&frame) {
            samples.push(Sample { frame, mtu })?;
        }
    }
    Ok(samples)
}

/// Returns the long messages of links in a datagram.
pub(crate) fn long_links(alloc: Global, datagram: &[u8]) -> Result<Vec<Vec<u8>>, AllocError> {
    let mut long = Vec::new(alloc);
    for item in Frames::new(datagram) {
        let Ok(frame) = item else { return Ok(long) };
        if frame.len() >= LEAST && u16_of(frame, 4) == 16 {
            long.push(Vec::from_slice(alloc, frame)?)?;
        }
    }
    Ok(long)
}

/// Returns the offset of the MTU's value.
fn mtu_of(frame: &[u8]) -> Option<usize> {
    let block = frame.get(32..)?;
    let index = nla_find(block, 4)?;
    let (start, _) = nla_place(block, index)?;
    start.checked_add(32)
}
