//! Laws about the definitions alone. Calling a law does nothing at run time: its contract is the
//! theorem.

ghost use Rattle.std.specs.Prelude.{◌≡◌, ◌↔◌, ℕ, List, [], Option, None, Ok, All, IsTrue};
ghost use denote.Ref.{Bor};
ghost use Rattle.netlink_packet_core.specs.DecodeError.{DecodeError};
ghost use Rattle.netlink_packet_core.specs.Header.{HoldsFrame};
ghost use Rattle.netlink_packet_core.specs.Numbers.{IsBytes};
ghost use Rattle.netlink_tree.specs.Fault.{SameFault};
ghost use Rattle.netlink_tree.specs.FrameSteps.{FrameItem, GivesFrame, GivesFrames, unread_frames};
ghost use Rattle.netlink_packet_core.specs.FrameWalk.{FrameWalk};
ghost use Rattle.netlink_tree.specs.Reading.{Outcome, Trees};
ghost use Rattle.netlink_tree.specs.Tree.{Forest, view, AreWellFormed, TreesInRange};
ghost use Rattle.netlink_tree.specs.Writing.{writing, IsCanonicalDeep};
ghost use Rattle.netlink_tree.specs.declared.fault.TreeFault.{TreeFault};
ghost use Rattle.netlink_tree.specs.declared.frames.Frames.{Frames};
ghost use Rattle.netlink_tree.specs.declared.tree.NlaTree.{NlaTree};

use crate::fault::TreeFault;
use crate::frames::Frames;
use netlink_packet_core::laws::{causes_equal, walk_total, walk_unique, written_walks};

/// States that walking any byte list yields frames, and then the end or one error.
pub fn frames_total()
    ensures exists { (bytes : List ℕ)
        → (all : List (List ℕ)) × (fault : Option DecodeError) × FrameWalk bytes all fault }
{}

/// States that a byte list has only one walk: the same frames, and then the end or the same error.
pub fn frames_unique()
    ensures unique { (bytes : List ℕ) (a b : List (List ℕ)) (f g : Option DecodeError)
        → FrameWalk bytes a f → FrameWalk bytes b g → (a ≡ b) × (f ≡ g) }
{}

/// States that calls of `next` on any iterator yield exactly the walk of its unread bytes.
pub fn frames_given()
    ensures given { (walk : Frames (Bor (List ℕ))) → GivesFrames walk }
{}

/// States that each frame of a datagram is complete: `NetlinkBuffer::new_checked` accepts it.
pub fn frames_hold()
    ensures holds { (bytes : List ℕ) (all : List (List ℕ)) (fault : Option DecodeError)
        → FrameWalk bytes all fault → All HoldsFrame all }
{}

/// States that `next` returns `None` from then on if nothing is unread, as after an error.
pub fn frames_stop()
    ensures stops { (item : Option FrameItem) (rest : List ℕ) → GivesFrame [] item rest
        → (item ≡ None) × (rest ≡ []) }
{}

/// States that two iterators are equal if and only if the bytes still to be walked are.
pub fn frames_equal()
    ensures equal { (a b : Frames (Bor (List ℕ)))
        → IsTrue (⟦<Frames<&'static [u8]> as PartialEq>⟧.eq a b)
        ↔ (unread_frames a ≡ unread_frames b) }
{}

/// States that two errors are equal if and only if they are the same variant and, for `Decode`,
/// hold equal errors.
pub fn faults_equal()
    ensures equal { (a b : TreeFault) → IsTrue (⟦<TreeFault as PartialEq>⟧.eq a b) ↔ SameFault a b }
{
    causes_equal()
}

/// States that any byte list reads as trees or has an error, whatever number of levels is allowed.
pub fn trees_total()
    ensures exists { (levels : ℕ) (bytes : List ℕ) → IsBytes bytes
        → (outcome : Outcome) × Trees levels bytes outcome }
{
    walk_total()
}

/// States that bytes have only one result, whatever number of levels is allowed.
pub fn trees_unique()
    ensures unique { (levels : ℕ) (bytes : List ℕ) (r s : Outcome) → Trees levels bytes r
        → Trees levels bytes s → r ≡ s }
{
    walk_unique()
}

/// States that the encoding of well-formed trees, with kinds that fit in 16 bits, reads back as the
/// same trees.
pub fn trees_read_back()
    ensures back { (ts : Forest) (text : List ℕ) → AreWellFormed ts → TreesInRange ts
        → writing ts ≡ Ok text → Trees 16 text (Ok ts) }
{
    written_walks()
}

/// States that trees that were read from bytes are written as the same bytes if and only if these
/// are canonical at every depth.
pub fn trees_write_back()
    ensures unchanged { (bytes : List ℕ) (ts : Forest) → Trees 16 bytes (Ok ts)
        → (writing ts ≡ Ok bytes) ↔ IsCanonicalDeep bytes }
{
    walk_unique();
    written_walks();
}

/// States that two trees are equal, by `==`, if and only if they have the same shape, kinds and
/// values.
pub fn trees_equal()
    ensures equal { (a b : NlaTree)
        → IsTrue (⟦<crate::NlaTree as PartialEq>⟧.eq a b) ↔ (view a ≡ view b) }
{}
