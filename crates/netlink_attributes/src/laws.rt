//! Laws about the definitions alone. Calling a law does nothing at run time: its contract is the
//! theorem.

ghost use Rattle.std.specs.Prelude.{◌≡◌, ◌↔◌, ◌≤◌, ◌++◌, ℕ, List, [], Option, Some, None, All, IsSomeAnd, IsTrue, length, take};
ghost use denote.Ref.{Bor};
ghost use Rattle.netlink_bytes.specs.Numbers.{IsBytes};
ghost use Rattle.netlink_bytes.specs.Storage.{put_at};
ghost use Rattle.netlink_bytes.specs.declared.error.DecodeError.{DecodeError};
ghost use Rattle.netlink_attributes.specs.Attribute.{Attribute, FitsAttribute, padded};
ghost use Rattle.netlink_attributes.specs.Block.{canonical_block, IsCanonicalBlock};
ghost use Rattle.netlink_attributes.specs.Cuts.{kept_by, IsCutAt, cut_fault};
ghost use Rattle.netlink_attributes.specs.Steps.{unread, GivesWalk};
ghost use Rattle.netlink_attributes.specs.Nla.{kept_attribute};
ghost use Rattle.netlink_attributes.specs.OlderBlock.{older_canonical_block, IsOlderCanonicalBlock};
ghost use Rattle.netlink_attributes.specs.Places.{value_place, replaced, HasValueOf, IsWritten};
ghost use Rattle.netlink_attributes.specs.Reading.{attributes_in};
ghost use Rattle.netlink_attributes.specs.Views.{attribute_of, shown, storage_of, HoldsAttribute};
ghost use Rattle.netlink_attributes.specs.Walk.{Walk, Item, Gives};
ghost use Rattle.netlink_attributes.specs.declared.buffer.NlaBuffer.{NlaBuffer};
ghost use Rattle.netlink_attributes.specs.declared.default.DefaultNla.{DefaultNla};
ghost use Rattle.netlink_attributes.specs.declared.iterator.NlasIterator.{NlasIterator};

use crate::buffer::NlaBuffer;
use crate::default::DefaultNla;
use crate::iterator::NlasIterator;
use netlink_bytes::Storage;

/// States that walking any byte list yields attributes, and then the end or one error.
pub fn walk_total()
    ensures exists { (bytes : List ℕ) → IsBytes bytes
        → (all : List Attribute) × (fault : Option DecodeError) × Walk bytes all fault }
{}

/// States that a byte list has only one walk: two walks of the same bytes are the same.
pub fn walk_unique()
    ensures unique { (bytes : List ℕ) (a b : List Attribute) (f g : Option DecodeError)
        → Walk bytes a f → Walk bytes b g → (a ≡ b) × (f ≡ g) }
{}

/// States that calls of `next` on any iterator yield exactly the walk of its unread bytes.
pub fn walk_given()
    ensures given { (walk : NlasIterator (Bor (List ℕ))) → IsBytes (unread walk) → GivesWalk walk }
{}

/// States that `next` returns `None` from then on if nothing is unread, as after an error.
pub fn walk_stops()
    ensures stops { (item : Option Item) (rest : List ℕ) → Gives [] item rest
        → (item ≡ None) × (rest ≡ []) }
{}

/// States that two iterators are equal if and only if the bytes still to be walked are.
pub fn walks_equal()
    ensures equal { (a b : NlasIterator (Bor (List ℕ)))
        → IsTrue (⟦<NlasIterator<&'static [u8]> as PartialEq>⟧.eq a b) ↔ (unread a ≡ unread b) }
{}

/// States that two views are equal if and only if their storages are, by `==`.
pub fn views_equal<T: Storage + PartialEq>()
    ensures equal { (a b : NlaBuffer T)
        → ⟦<NlaBuffer<T> as PartialEq>⟧.eq a b ≡ T.eq (storage_of a) (storage_of b) }
{}

/// States that two views over slices are equal if and only if the bytes that they show are.
pub fn slice_views_equal()
    ensures equal { (a b : NlaBuffer (Bor (List ℕ)))
        → IsTrue (⟦<NlaBuffer<&'static [u8]> as PartialEq>⟧.eq a b) ↔ (shown a ≡ shown b) }
{}

/// States that two attributes are equal if and only if their kinds and the bytes of their values
/// are.
pub fn attributes_equal()
    ensures equal { (a b : DefaultNla)
        → IsTrue (⟦<DefaultNla as PartialEq>⟧.eq a b) ↔ (kept_attribute a ≡ kept_attribute b) }
{}

/// States that the encoding of an attribute holds it and reads back as it, whatever bytes follow.
pub fn written_reads_back()
    ensures holds { (a : Attribute) (rest : List ℕ) → FitsAttribute a
        → HoldsAttribute (padded a ++ rest) }
    ensures back { (a : Attribute) (rest : List ℕ) → FitsAttribute a
        → attribute_of (padded a ++ rest) ≡ a }
{}

/// States that walking the encoding of a list yields that list, and that the encoding is a
/// canonical block.
pub fn written_walks()
    ensures walk { (all : List Attribute) → All FitsAttribute all
        → Walk (canonical_block all) all None }
    ensures canonical { (all : List Attribute) → All FitsAttribute all
        → IsCanonicalBlock (canonical_block all) }
{}

/// States that walking the first `cut` bytes yields the attributes that end at or before the cut.
/// One error follows if and only if the cut falls inside the header or the value of an attribute,
/// or past the start of an error. Requires `cut <= bytes.len()`.
pub fn walk_cut(bytes: &[u8], cut: usize)
    requires inside { cut ≤ length bytes.now }
    ensures attributes { (all : List Attribute) (fault : Option DecodeError)
        → Walk bytes.now all fault
        → (end : Option DecodeError) × Walk (take cut bytes.now) (kept_by cut all) end }
    ensures fault { (all left : List Attribute) (fault end : Option DecodeError) (start : ℕ)
        → Walk bytes.now all fault → Walk (take cut bytes.now) left end
        → IsCutAt all fault cut start → end ≡ Some (cut_fault bytes.now start cut) }
    ensures no_fault { (all left : List Attribute) (fault end : Option DecodeError)
        → Walk bytes.now all fault → Walk (take cut bytes.now) left end
        → ((start : ℕ) → IsCutAt all fault cut start → ⊥) → end ≡ None }
{}

/// States that a canonical block is walked without an error, and that encoding that walk gives the
/// block.
pub fn canonical_walks(bytes: &[u8])
    ensures exists { IsCanonicalBlock bytes.now
        → (all : List Attribute) × Walk bytes.now all None × (canonical_block all ≡ bytes.now) }
    ensures every { (all : List Attribute) (fault : Option DecodeError) → IsCanonicalBlock bytes.now
        → Walk bytes.now all fault → (fault ≡ None) × (canonical_block all ≡ bytes.now) }
{}

/// States that bytes after a canonical block are walked as they are alone. This need not hold if
/// the block lacks its last padding.
pub fn walk_join(block: &[u8], bytes: &[u8])
    ensures joined { (more : List Attribute) (fault : Option DecodeError)
        → IsCanonicalBlock block.now → Walk bytes.now more fault
        → (all : List Attribute) × Walk block.now all None
        × Walk (block.now ++ bytes.now) (all ++ more) fault }

    // the same for a walk of the block that the caller already has
    ensures after { (all more : List Attribute) (end fault : Option DecodeError)
        → IsCanonicalBlock block.now → Walk block.now all end → Walk bytes.now more fault
        → Walk (block.now ++ bytes.now) (all ++ more) fault }
{}

/// States that two blocks that are walked without an error have the same encoding if and only if
/// they have the same attributes.
pub fn block_unique(a: &[u8], b: &[u8])
    ensures unique { (x y : List Attribute) → Walk a.now x None → Walk b.now y None
        → (canonical_block x ≡ canonical_block y) ↔ (x ≡ y) }
{}

/// States that encoding the walk of a block that has no error gives the block itself if and only if
/// the block is canonical, and always gives a canonical block.
pub fn fixed_points(bytes: &[u8])
    ensures fixed { (all : List Attribute) → Walk bytes.now all None
        → (canonical_block all ≡ bytes.now) ↔ IsCanonicalBlock bytes.now }
    ensures canonical { (all : List Attribute) → Walk bytes.now all None
        → IsCanonicalBlock (canonical_block all) }
{}

/// States that the function that reads a block returns the attributes of its walk if and only if
/// the walk has no error, that encoding them gives the bytes if and only if these are canonical,
/// and that the encoding of attributes that fit reads back as them.
pub fn attributes_read()
    ensures walk { (bytes : List ℕ) (all : List Attribute) → IsBytes bytes
        → (attributes_in bytes ≡ Some all) ↔ Walk bytes all None }
    ensures canonical { (bytes : List ℕ) (all : List Attribute) → attributes_in bytes ≡ Some all
        → (canonical_block all ≡ bytes) ↔ IsCanonicalBlock bytes }
    ensures written { (all : List Attribute) → All FitsAttribute all
        → attributes_in (canonical_block all) ≡ Some all }
{}

/// States that a block that was canonical while an attribute with both flag bits lost the one for
/// byte order is still canonical, and that encoding its walk gave the block then and gives it now.
pub fn older_block_kept(bytes: &[u8])
    ensures canonical { IsOlderCanonicalBlock bytes.now → IsCanonicalBlock bytes.now }
    ensures written { (all : List Attribute) (fault : Option DecodeError)
        → IsOlderCanonicalBlock bytes.now → Walk bytes.now all fault
        → (fault ≡ None) × (canonical_block all ≡ bytes.now)
        × (older_canonical_block all ≡ bytes.now) }
{}

/// States that if the value of the attribute at `index` is overwritten by one of the same size,
/// then the walk, with its error, stays the same except for that value. Requires that there is such
/// an attribute, and that its value has the size of `value`.
pub fn value_replaced(block: &[u8], index: usize, value: &[u8])
    requires size { (all : List Attribute) (fault : Option DecodeError) → Walk block.now all fault
        → HasValueOf all index (length value.now) }
    ensures walk { (all : List Attribute) (fault : Option DecodeError) → Walk block.now all fault
        → IsSomeAnd (value_place all index)
        (λ place. Walk (put_at block.now place.0 value.now) (replaced all index value.now) fault) }

    // the same for any block written in this way, in the terms of `nlas_value_mut`
    ensures written { (new : List ℕ) → IsWritten block.now index value.now new
        → (all : List Attribute) (fault : Option DecodeError) → Walk block.now all fault
        → Walk new (replaced all index value.now) fault }
{}
