//! A queue of the names of links.

ghost use Rattle.std.specs.Prelude.{◌≡◌, ◌++◌, ◌∷◌, ◌≤◌, [], drop, length, nat_lt, IfErr, IfOk, OnOk, if◌then◌else◌};
ghost use Rattle.std.specs.Option.{option_copied};
ghost use Rattle.netlink_names.specs.Device.{name_of};
ghost use Rattle.netlink_names.specs.Known.{most_links, with_name, without};
ghost use Rattle.netlink_names.specs.NameQueue.{link_at, names_by};

use crate::device::Known;
use crate::known::{MOST_LINKS, is_settled};
use crate::name::Name;
use crate::name_table::Names;
use crate::short_name::Short;
use std::alloc::{AllocError, Global};
use std::collections::BTreeMap;
use std::marker::Model;

/// The place of a link in the order, and its name.
#[derive(Drop)]
pub struct Place {
    number: u64,
    name: Short,
}

/// The names of links, the oldest first. The link that got its name last has the highest number, so
/// that no change moves other names.
#[derive(Drop)]
pub struct NameQueue {
    /// The indexes of links by their numbers.
    order: BTreeMap<u64, u32>,
    /// The places of links by their indexes.
    places: BTreeMap<u32, Place>,
    /// The number of the next name.
    next: u64,
}

impl Model for NameQueue {
    ghost use Rattle.std.specs.Prelude.{List};
    ghost use Rattle.netlink_names.specs.declared.device.Known.{Known};
    ghost use Rattle.netlink_names.specs.NameQueue.{IsQueue, names_by};

    ghost Value = { List Known };

    ghost view = { λ queue. names_by queue.places.entries queue.order.entries };

    ghost invariant = { λ queue. IsQueue queue.places.entries queue.order.entries queue.next };
}

impl NameQueue {
    /// Returns a queue without names. Does not allocate.
    pub(crate) fn new(alloc: Global) -> NameQueue
        ensures { result ≡ [] }
    {
        NameQueue {
            order: BTreeMap::new(alloc),
            places: BTreeMap::new(alloc),
            next: 0,
        }
    }

    /// Returns the name of the link with this index.
    pub(crate) fn name_of(&self, index: u32) -> Option<&[u8]>
        ensures { option_copied result ≡ name_of self.now index }
    {
        match self.places.get(&index) {
            Some(place) => Some(place.name.bytes()),
            None => None,
        }
    }

    /// Returns the names as a list. Returns `AllocError` if an allocation fails.
    pub(crate) fn list(&self, alloc: Global) -> Result<Vec<Known>, AllocError>
        ensures { IfOk result (λ list. list.items ≡ self.now) }
    {
        list_of(alloc, &self.order, &self.places)
    }

    /// Enters a name as `enter_name` does. Returns `AllocError` if an allocation fails, or after
    /// 2^64 - 1 names, which no run reaches; the names are then unchanged.
    #[tactic(auto, unfolding(crate::specs::Known::with_name))]
    pub(crate) fn enter(&mut self, index: u32, name: &[u8]) -> Result<(), AllocError>
        ensures list { OnOk result (self.new ≡ with_name index name.now self.old) }
        ensures unchanged { IfErr result (λ _. self.new ≡ self.old) }
    {
        if is_settled(&Names::queued(self), index, name) {
            return Ok(());
        }
        self.push(index, name)?;
        self.make_room();
        Ok(())
    }

    /// Adds the name of a link as the newest, in place of the one that it has. Returns `AllocError` if
    /// an allocation fails, or after 2^64 - 1 names; the names are then unchanged.
    fn push(&mut self, index: u32, name: &[u8]) -> Result<(), AllocError>
        requires short { length name.now ≤ 15 }
        ensures list { OnOk result (self.new
            ≡ without index self.old ++ record { index = index; name = name.now } ∷ []) }
        ensures unchanged { IfErr result (λ _. self.new ≡ self.old) }
    {
        let number = self.next;
        let Some(next) = number.checked_add(1) else {
            return Err(AllocError);
        };
        let name = Short::new(name);
        self.order.insert(number, index)?;
        match self.places.insert(index, Place { number, name }) {
            Ok(old) => {
                self.next = next;
                if let Some(old) = old {
                    self.order.remove(&old.number);
                }
                Ok(())
            }
            Err(_) => {
                self.order.remove(&number);
                Err(AllocError)
            }
        }
    }

    /// Removes the oldest name if there are too many.
    #[tactic(auto, using(crate::proofs::Queue::length_names))]
    fn make_room(&mut self)
        ensures { self.new ≡ (if nat_lt most_links (length self.old) then drop 1 self.old else self.old) }
    {
        if self.order.len() > MOST_LINKS {
            self.forget_oldest();
        }
    }

    /// Removes the name of the link with this index, if it is known.
    pub(crate) fn forget(&mut self, index: u32)
        ensures { self.new ≡ without index self.old }
    {
        let Some(place) = self.places.remove(&index) else {
            return;
        };
        self.order.remove(&place.number);
    }

    /// Removes the oldest name, if there is one.
    fn forget_oldest(&mut self)
        ensures { self.new ≡ drop 1 self.old }
    {
        let Some((_, oldest)) = self.order.first_key_value() else {
            return;
        };
        let oldest = *oldest;
        self.forget(oldest);
    }
}

/// Returns the links in this order as a list, with the names in their places.
fn list_of(
    alloc: Global,
    order: &BTreeMap<u64, u32>,
    places: &BTreeMap<u32, Place>,
) -> Result<Vec<Known>, AllocError>
    ensures { IfOk result (λ list. list.items ≡ names_by places.now.entries order.now.entries) }
{
    let mut list = Vec::new(alloc);
    for index in order.values() {
        list.push(link_at(alloc, places, *index)?)?;
    }
    Ok(list)
}

/// Returns a link with the name in its place, which is empty if it has no place.
fn link_at(alloc: Global, places: &BTreeMap<u32, Place>, index: u32) -> Result<Known, AllocError>
    ensures { IfOk result (λ link. link ≡ link_at places.now.entries index) }
{
    let name = match places.get(&index) {
        Some(place) => place.name.bytes(),
        None => &[],
    };
    Ok(Known {
        index,
        name: Name::new(alloc, name)?,
    })
}
