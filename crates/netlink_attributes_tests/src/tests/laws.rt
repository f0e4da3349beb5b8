//! Calls of the laws. A law is stated by its clauses, and a call does nothing at run time.

use super::TWO;
use netlink_attributes::laws::{
    attributes_equal, attributes_read, block_unique, canonical_walks, fixed_points,
    older_block_kept, slice_views_equal, value_replaced, views_equal, walk_cut, walk_given,
    walk_join, walk_stops, walk_total, walk_unique, walks_equal, written_reads_back, written_walks,
};
use netlink_attributes::nla_place;

#[test]
fn the_laws_of_walks_are_called() {
    walk_total();
    walk_unique();
    walk_given();
    walk_stops();
}

#[test]
fn the_laws_of_equality_are_called() {
    walks_equal();
    views_equal::<&[u8]>();
    slice_views_equal();
    attributes_equal();
}

#[test]
fn the_laws_of_written_attributes_are_called() {
    written_reads_back();
    written_walks();
    attributes_read();
}

#[test]
fn the_laws_of_one_block_are_called() {
    walk_cut(&TWO, 15);
    canonical_walks(&TWO);
    fixed_points(&TWO);
    older_block_kept(&TWO);
}

#[test]
fn the_laws_of_two_blocks_are_called() {
    walk_join(&TWO, &TWO);
    block_unique(&TWO, &TWO);
}

/// Returns whether there is an attribute at `index` whose value has the size of `value`, so that it
/// can be replaced by it.
fn can_replace(block: &[u8], index: usize, value: &[u8]) -> bool {
    match nla_place(block, index) {
        Some((start, end)) if end - start == value.len() => {
            value_replaced(block, index, value);
            true
        }
        _ => false,
    }
}

#[test]
fn a_value_of_the_same_size_can_be_replaced(rt: HostRuntime) {
    assert!(rt; can_replace(&TWO, 1, &[5, 6, 7, 8]));
    assert!(rt; !can_replace(&TWO, 1, &[5]));
    assert!(rt; !can_replace(&TWO, 2, &[5]));
}
