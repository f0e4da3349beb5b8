//! Attributes nested in one another.

ghost use Rattle.std.specs.Prelude.{◌≡◌, ◌↔◌, IsTrue};
ghost use Rattle.netlink_packet_core.specs.Views.{is_nested};
ghost use Rattle.netlink_tree.specs.Tree.{views, AreWellFormed};

use netlink_packet_core::NLA_F_NESTED;

/// The maximum depth of an attribute; the outer ones have depth 1.
pub(crate) const GREATEST_DEPTH: usize = 16;

/// An attribute with a value, or with attributes inside. Both variants hold the kind as it is on
/// the wire, with its two flag bits.
#[derive(Debug, PartialEq, Eq, Drop)]
pub enum NlaTree {
    /// The value is bytes. The kind of a well-formed leaf lacks the bit `NLA_F_NESTED`.
    Leaf { kind: u16, value: Vec<u8> },
    /// The value is a block of attributes. The kind of a well-formed nest has that bit.
    Nest { kind: u16, children: Vec<NlaTree> },
}

/// Returns whether, at every depth, the kinds of leaves lack the bit `NLA_F_NESTED` and those of
/// nests have it. An empty list is well formed. Does not allocate.
pub fn is_well_formed(trees: &[NlaTree]) -> bool
    ensures formed { IsTrue result ↔ AreWellFormed (views trees.now) }
{
    for tree in trees {
        match tree {
            NlaTree::Leaf { kind, .. } => {
                if is_nested_kind(*kind) {
                    return false;
                }
            }
            NlaTree::Nest { kind, children } => {
                if !is_nested_kind(*kind) || !is_well_formed(children) {
                    return false;
                }
            }
        }
    }
    true
}

/// Returns whether a kind has the bit `NLA_F_NESTED`.
#[inline(always)]
fn is_nested_kind(kind: u16) -> bool
    ensures { result ≡ is_nested kind }
{
    kind & NLA_F_NESTED != 0
}
