//! The attributes of a block by kind, in one pass.

ghost use Rattle.std.specs.Prelude.{◌≡◌, ◌-◌, ◌≤◌, length, replicate, if◌then◌else◌};
ghost use Rattle.netlink_packet_core.specs.Views.{HoldsAttribute, attribute_of, shown};
ghost use Rattle.netlink_c.specs.Items.{EndsAs, OfWalk, absent, entered, has_kind, is_kind, item_at, last_or, table_of};

use crate::fault::{FaultNumbers, refused};
use crate::results::{NO_PLACE, OK};
use crate::walk::AttributeItem;
use netlink_packet_core::{NLA_F_NET_BYTEORDER, NLA_HEADER_SIZE, NlaBuffer, NlasIterator};

/// The entry of a table for a kind that no attribute has.
pub(crate) const ABSENT: AttributeItem = AttributeItem {
    kind: 0,
    offset: 0,
    size: 0,
};

/// Finds the last attribute whose kind, without its two flag bits, is `kind`, and writes its kind
/// and the location of its value into `item`. So a `kind` with a flag bit is never found. The
/// offset is relative to the start of the block.
///
/// Returns 0 if there is one, and `NO_PLACE` otherwise. If the walk of the block ends in an error,
/// returns that error instead; then `item` is the last attribute of the kind before the error.
/// Leaves `item` unchanged if and only if no attribute has the kind, counting those before an
/// error. `nla_find` finds the first attribute of a kind instead. Does not allocate.
#[unsafe(no_mangle)]
pub extern "C" fn nlp_attrs_find(
    block: &[u8],
    kind: u16,
    item: &mut AttributeItem,
    fault: &mut FaultNumbers,
) -> u32
    ensures item { OfWalk block.now (λ items _. item.new ≡ last_or kind item.old items) }
    ensures outcome { OfWalk block.now (λ items end.
        EndsAs end (if has_kind kind items then 0 else 34) fault.old fault.new result) }
{
    let mut found = NO_PLACE;
    for step in NlasIterator::new(block) {
        match step {
            Ok(nla) => {
                let here = item_of(block.len(), &nla);
                found = keep(here, kind, item, found);
            }
            Err(cause) => return refused(fault, &cause),
        }
    }
    found
}

/// Fills a table by kind: the entry with index `k` becomes the last attribute whose kind, without
/// its two flag bits, is `k`, or an entry whose three numbers are 0 if there is none. A value never
/// starts at offset 0. The offsets are relative to the start of the block. Ignores attributes whose
/// kind is not less than the size of the table.
///
/// Returns 0. If the walk of the block ends in an error, returns that error; then the table has the
/// attributes before it. Does not allocate.
#[unsafe(no_mangle)]
pub extern "C" fn nlp_attrs_table(
    block: &[u8],
    table: &mut [AttributeItem],
    fault: &mut FaultNumbers,
) -> u32
    ensures table { OfWalk block.now (λ items _. table.new ≡ table_of (length table.old) items) }
    ensures outcome { OfWalk block.now (λ _ end. EndsAs end 0 fault.old fault.new result) }
{
    clear(table);
    for step in NlasIterator::new(block) {
        match step {
            Ok(nla) => {
                let here = item_of(block.len(), &nla);
                enter(here, table);
            }
            Err(cause) => return refused(fault, &cause),
        }
    }
    OK
}

/// Clears each entry of a table.
fn clear(table: &mut [AttributeItem])
    ensures { table.new ≡ replicate (length table.old) absent }
{
    table.fill(ABSENT);
}

/// Returns the attribute that a view begins with as an item of its block, which has this size and
/// ends where the view ends.
#[tactic(auto, using(crate::proofs::ItemLemmas::item_held))]
#[inline(always)]
pub(crate) fn item_of(size: usize, nla: &NlaBuffer<&[u8]>) -> AttributeItem
    requires whole { HoldsAttribute (shown nla.now) }
    requires inside { length (shown nla.now) ≤ size }
    ensures { result ≡ item_at (size - length (shown nla.now)) (attribute_of (shown nla.now)) }
{
    AttributeItem {
        kind: nla.raw_kind(),
        offset: size - nla.into_inner().len() + NLA_HEADER_SIZE,
        size: nla.value_length(),
    }
}

/// Writes the attribute into `item` if it is of the kind. Returns 0 then, and `found` otherwise.
#[inline(always)]
fn keep(here: AttributeItem, kind: u16, item: &mut AttributeItem, found: u32) -> u32
    ensures item { item.new ≡ (if is_kind kind here then here else item.old) }
    ensures found { result ≡ (if is_kind kind here then 0 else found) }
{
    if here.kind % NLA_F_NET_BYTEORDER == kind {
        *item = here;
        OK
    } else {
        found
    }
}

/// Writes the attribute into the entry of its kind, if the table has one.
#[inline(always)]
fn enter(here: AttributeItem, table: &mut [AttributeItem])
    ensures { table.new ≡ entered here table.old }
{
    let index = (here.kind % NLA_F_NET_BYTEORDER) as usize;
    if index < table.len() {
        table[index] = here;
    }
}
