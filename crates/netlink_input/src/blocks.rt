//! The blocks of a pcapng file, one at a time.

ghost use Rattle.std.specs.Prelude.{◌≡◌, ◌≤◌, ◌<◌, ◌+◌, ◌⊎◌, ℕ, List, IfErr, IfOk, IfSome, OnOk, length};
ghost use Rattle.std.specs.Io.KnownBytes.{Consumes, IsAtEnd, prepend_known};
ghost use Rattle.netlink_input.specs.Block.{kept_size};
ghost use Rattle.netlink_input.specs.Blocks.{EndsBlock, GivesBlock, GivesExtent, StartsHead, TriesBlock, TriesHead};
ghost use Rattle.netlink_input.specs.Reading.{TriesUpTo};

use crate::block::{BLOCK_END_LEN, BLOCK_HEAD_LEN, Block, Section, block_of, head_size, kept_size};
use crate::fault::Fault;
use crate::pcap::{Order, PcapFault, u32_in};
use crate::stream::read_up_to;
use netlink_program::fill;
use std::io::Read;

/// The size in bytes of the buffer through which bytes are skipped.
const CHUNK: usize = 512;

/// What follows in a pcapng file.
#[derive(Debug)]
pub enum NextBlock {
    /// A block.
    Block(Block),
    /// Nothing: the file ends.
    End,
    /// Bytes that no block starts with that can be read.
    Stop(PcapFault),
}

/// Reads the next block of a pcapng file, and no byte after it. The vector has its first bytes, at
/// most 8, if they were read before. Afterwards it has what the block starts with, and its captured
/// bytes, if it has a packet: the rest of the block is skipped.
///
/// Returns `Stop` if the file ends within the block, if its two lengths differ, or as `block_of`
/// says. Returns `Read` if the reader fails; it has then not given a whole block. Returns
/// `OutOfMemory` if an allocation for the block fails.
pub fn read_block<R: Read>(
    section: Section,
    reader: &mut R,
    block: &mut Vec<u8>,
) -> Result<NextBlock, Fault>
    requires few { length block.old.items ≤ 8 }
    ensures next { IfOk result (GivesBlock section (prepend_known block.old.items (R.remaining reader.old))
        (R.remaining reader.new) block.new.items) }
    ensures extent { IfOk result (GivesExtent block.new.items) }
    ensures fault { IfErr result (λ fault. (fault ≡ Fault.OutOfMemory) ⊎ ((fault ≡ Fault.Read)
        × TriesBlock section (prepend_known block.old.items (R.remaining reader.old)) (R.remaining reader.new))) }
{
    read_head(section.order, reader, block)?;
    let size = block.len();
    if size == 0 {
        return Ok(NextBlock::End);
    }
    let least = head_size(section.order, block);
    if size < least {
        return Ok(NextBlock::Stop(PcapFault::BlockShort(size, least)));
    }
    match block_of(section, block) {
        Ok(next) => match read_rest(next, reader, block)? {
            None => Ok(NextBlock::Block(next)),
            Some(why) => Ok(NextBlock::Stop(why)),
        },
        Err(why) => Ok(NextBlock::Stop(why)),
    }
}

/// Reads what a block starts with into a vector that has the first bytes of it, at most 8; less if
/// the reader ends.
///
/// Returns `Read` if the reader fails; it has then not given all of these bytes. Returns
/// `OutOfMemory` if an allocation fails.
fn read_head<R: Read>(order: Order, reader: &mut R, block: &mut Vec<u8>) -> Result<(), Fault>
    requires few { length block.old.items ≤ 8 }
    ensures head { OnOk result (StartsHead order (prepend_known block.old.items (R.remaining reader.old))
        (R.remaining reader.new) block.new.items) }
    ensures fault { IfErr result (λ fault. (fault ≡ Fault.OutOfMemory) ⊎ ((fault ≡ Fault.Read)
        × TriesHead order (prepend_known block.old.items (R.remaining reader.old)) (R.remaining reader.new))) }
{
    read_up_to(reader, block, BLOCK_HEAD_LEN)?;
    if block.len() < BLOCK_HEAD_LEN {
        return Ok(());
    }
    let size = head_size(order, block);
    read_up_to(reader, block, size)?;
    Ok(())
}

/// Reads the rest of a block whose start is in a vector, and leaves in the vector what is kept of
/// it. Returns why it does not end as it should: `BlockCut` if the reader ends in it, and
/// `BlockEnds` if it has another length at its end.
///
/// Returns `Read` if the reader fails; it has then not given the whole block. Returns `OutOfMemory`
/// if an allocation fails.
fn read_rest<R: Read>(
    block: Block,
    reader: &mut R,
    head: &mut Vec<u8>,
) -> Result<Option<PcapFault>, Fault>
    requires room { kept_size block head.old.items + 4 ≤ block.size }
    requires kept { length head.old.items ≤ kept_size block head.old.items }
    requires short { IfSome block.packet (λ packet. packet.from ≤ 28) }
    ensures ends { IfOk result (EndsBlock block (R.remaining reader.old) (R.remaining reader.new)
        head.old.items head.new.items) }
    ensures fault { IfErr result (λ fault. (fault ≡ Fault.OutOfMemory) ⊎ ((fault ≡ Fault.Read)
        × TriesUpTo (R.remaining reader.old) (R.remaining reader.new) head.old.items block.size)) }
{
    let kept = kept_size(&block, head);
    read_up_to(reader, head, kept)?;
    if head.len() < kept {
        return Ok(Some(PcapFault::BlockCut(block.size, head.len())));
    }
    let gap = block.size as usize - (kept + BLOCK_END_LEN);
    let skipped = skip(reader, gap)?;
    if skipped < gap {
        return Ok(Some(PcapFault::BlockCut(block.size, kept + skipped)));
    }
    read_up_to(reader, head, kept + BLOCK_END_LEN)?;
    if head.len() < kept + BLOCK_END_LEN {
        return Ok(Some(PcapFault::BlockCut(block.size, head.len() + gap)));
    }
    let end = u32_in(block.section.order, head, kept);
    head.truncate(kept);
    if end != block.size {
        return Ok(Some(PcapFault::BlockEnds(block.size, end)));
    }
    Ok(None)
}

/// Reads this number of bytes, or what the reader has, drops them, and returns how many there were.
/// Returns `Read` if the reader fails; it has then given fewer bytes.
fn skip<R: Read>(reader: &mut R, size: usize) -> Result<usize, Fault>
    ensures taken { IfOk result (λ n. (bytes : List ℕ) × Consumes (R.remaining reader.old) (R.remaining reader.new) bytes
        × (length bytes ≡ n)) }
    ensures most { IfOk result (λ n. n ≤ size) }
    ensures end { IfOk result (λ n. n < size → IsAtEnd (R.remaining reader.new)) }
    ensures fault { IfErr result (λ fault. (fault ≡ Fault.Read) × ((bytes : List ℕ)
        × Consumes (R.remaining reader.old) (R.remaining reader.new) bytes × (length bytes < size))) }
{
    let mut chunk = [0u8; CHUNK];
    let mut left = size;
    while left > 0 {
        let part = if left < CHUNK { left } else { CHUNK };
        let n = fill(reader, &mut chunk[..part])?;
        left -= n;
        if n < part {
            return Ok(size - left);
        }
    }
    Ok(size)
}
