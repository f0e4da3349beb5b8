//! Nested attributes, and blocks of attributes, that no table describes.

use crate::digest::Digest;
use crate::fields::{put_attr, set_u32};
use crate::random::Random;
use netlink_packet_core::{append_nla, normalize_nlas};
use netlink_tree::{NlaTree, is_well_formed, read_tree, write_tree};
use std::alloc::{AllocError, Global};

/// The number of different rules.
const RULES: u32 = 64;

/// The size in bytes of a large block.
const LARGE: usize = 64_000;

/// The bit of the kind of a nest.
const NESTED: u16 = 0x8000;

/// Reads, changes and writes this number of rules, as a program for nftables does, and normalizes a
/// small block for each and a large one for every 64. Returns the digest of what is written.
pub(crate) fn digest(alloc: Global, count: u32, seed: u32) -> Option<u64> {
    let mut random = Random::new(seed);
    let mut digest = Digest::new();
    let mut rules = rules(alloc, &mut random).ok()?;
    let mut large = block(alloc, &mut random, LARGE).ok()?;
    let mut small = block(alloc, &mut random, 200).ok()?;
    for number in 0..count {
        let rule = rules.get_mut((number % RULES) as usize)?;
        set_u32(rule, 4, number);
        digest.bytes(&changed(alloc, rule, number)?);
        set_u32(&mut small, 4, number);
        digest.bytes(&normalize_nlas(alloc, &small).ok()?);
        if number % RULES == 0 {
            set_u32(&mut large, 4, number);
            digest.bytes(&normalize_nlas(alloc, &large).ok()?);
        }
    }
    Some(digest.value())
}

/// Reads a rule, appends a comment to it, and writes it.
fn changed(alloc: Global, rule: &[u8], number: u32) -> Option<Vec<u8>> {
    let mut trees = read_tree(alloc, rule).ok()?;
    let value = Vec::from_slice(alloc, &number.to_le_bytes()).ok()?;
    trees.push(NlaTree::Leaf { kind: 7, value }).ok()?;
    if !is_well_formed(&trees) {
        return None;
    }
    write_tree(alloc, &trees).ok()
}

/// Makes the blocks of rules, each with a handle first, and then a list of expressions.
fn rules(alloc: Global, random: &mut Random) -> Result<Vec<Vec<u8>>, AllocError> {
    let mut rules = Vec::new(alloc);
    for _ in 0..RULES {
        let mut list = Vec::new(alloc);
        let expressions = random.below(8).wrapping_add(3);
        for _ in 0..expressions {
            let inside = expression(alloc, random)?;
            put_attr(&mut list, 1 | NESTED, &inside)?;
        }
        let mut rule = Vec::new(alloc);
        put_attr(&mut rule, 3, &[0; 8])?;
        put_attr(&mut rule, 1, b"filter\0")?;
        put_attr(&mut rule, 2, b"forward\0")?;
        put_attr(&mut rule, 4 | NESTED, &list)?;
        rules.push(rule)?;
    }
    Ok(rules)
}

/// Makes the attributes of an expression: its name, and a nest of numbers and a value.
fn expression(alloc: Global, random: &mut Random) -> Result<Vec<u8>, AllocError> {
    let mut value = Vec::new(alloc);
    put_attr(&mut value, 1, &random.next().to_be_bytes())?;
    let mut numbers = Vec::new(alloc);
    for kind in 1..=4u16 {
        put_attr(&mut numbers, kind, &random.below(32).to_be_bytes())?;
    }
    put_attr(&mut numbers, 5 | NESTED, &value)?;
    let mut all = Vec::new(alloc);
    put_attr(&mut all, 1, b"payload\0")?;
    put_attr(&mut all, 2 | NESTED, &numbers)?;
    Ok(all)
}

/// Makes a block of at least this size with values of 1 to 40 bytes, and bytes other than 0 in the
/// padding.
fn block(alloc: Global, random: &mut Random, size: usize) -> Result<Vec<u8>, AllocError> {
    let mut block = Vec::new(alloc);
    put_attr(&mut block, 1, &[0; 4])?;
    for _ in 0..size {
        if block.len() >= size {
            return Ok(block);
        }
        let long = random.below(40).wrapping_add(1) as usize;
        let value = [0x5au8; 40];
        let _unpadded = append_nla(alloc, &mut block, 9, &value[..long.min(40)]);
        if long % 4 != 0 {
            if let Some(last) = block.last_mut() {
                *last = 0xee;
            }
        }
    }
    Ok(block)
}
