//! Names of links.

ghost use Rattle.std.specs.Prelude.{◌≡◌, [], IfOk, OnOk};
ghost use Rattle.std.specs.Option.{option_copied};
ghost use Rattle.netlink_names.specs.Device.{name_of};
ghost use Rattle.netlink_names.specs.Known.{link_known, with_name, without};

use crate::device::{Known, first_name};
use crate::known::{News, enter_name, forget, news_of};
use crate::name_queue::NameQueue;
use netlink_family::MessageView;
use netlink_route::Links;
use std::alloc::{AllocError, Global};
use std::marker::Model;
use std::mem;

/// Names of links to print, the oldest first: those of a queue, if there is one, and else a list.
#[derive(Drop)]
pub struct Names<'a> {
    list: &'a [Known],
    queue: Option<&'a NameQueue>,
}

impl<'a> Model for Names<'a> {
    ghost use Rattle.std.specs.Prelude.{List};
    ghost use Rattle.std.specs.Option.{option_copied};
    ghost use Rattle.netlink_names.specs.declared.device.Known.{Known};
    ghost use Rattle.netlink_names.specs.NameTable.{names_in};

    ghost Value = { List Known };

    ghost view = { λ names. names_in (option_copied names.queue) names.list.now };
}

impl<'a> Names<'a> {
    /// Returns the names of a list.
    pub fn of(list: &'a [Known]) -> Names<'a>
        ensures { result ≡ list.now }
    {
        Names { list, queue: None }
    }

    /// Returns the names of a queue.
    pub fn queued(queue: &'a NameQueue) -> Names<'a>
        ensures { result ≡ queue.now }
    {
        Names {
            list: &[],
            queue: Some(queue),
        }
    }

    /// Returns the names as a list, which is in `room` if they are in a queue. Returns `AllocError` if an
    /// allocation fails.
    pub fn listed<'b>(
        &'b self,
        alloc: Global,
        room: &'b mut Vec<Known>,
    ) -> Result<&'b [Known], AllocError>
        ensures { IfOk result (λ list. list.now ≡ self.now) }
    {
        match self.queue {
            Some(queue) => {
                *room = queue.list(alloc)?;
                Ok(room)
            }
            None => Ok(self.list),
        }
    }
}

/// Returns the name of the first link with this index.
pub fn name_of<'a>(names: &'a Names<'a>, index: u32) -> Option<&'a [u8]>
    ensures { option_copied result ≡ name_of names.now index }
{
    match names.queue {
        Some(queue) => queue.name_of(index),
        None => first_name(names.list, index),
    }
}

/// The names of links, the oldest first: those of a queue, if there is one, and else a list.
#[derive(Drop)]
pub struct NameTable {
    list: Vec<Known>,
    queue: Option<NameQueue>,
}

impl Model for NameTable {
    ghost use Rattle.std.specs.Prelude.{List};
    ghost use Rattle.netlink_names.specs.declared.device.Known.{Known};
    ghost use Rattle.netlink_names.specs.NameTable.{names_in};

    ghost Value = { List Known };

    ghost view = { λ table. names_in table.queue table.list.items };
}

impl NameTable {
    /// Returns a table without names. Does not allocate.
    pub fn new(alloc: Global) -> NameTable
        ensures { result ≡ [] }
    {
        NameTable {
            list: Vec::new(alloc),
            queue: Some(NameQueue::new(alloc)),
        }
    }

    /// Returns the names.
    pub fn names(&self) -> Names<'_>
        ensures { result ≡ self.now }
    {
        match &self.queue {
            Some(queue) => Names::queued(queue),
            None => Names::of(&self.list),
        }
    }

    /// Returns the names as a list, for the caller to change and to set.
    pub fn take_list(&mut self, alloc: Global) -> Result<Vec<Known>, AllocError>
        ensures { IfOk result (λ list. list.items ≡ self.old) }
    {
        match &self.queue {
            Some(queue) => queue.list(alloc),
            None => Ok(mem::replace(&mut self.list, Vec::new(alloc))),
        }
    }

    /// Sets the names, which are a list from then on.
    pub fn set_list(&mut self, list: Vec<Known>)
        ensures { self.new ≡ list.items }
    {
        self.list = list;
        self.queue = None;
    }

    /// Enters the name of a link that exists, or removes that of a link that is deleted, as
    /// `learn_link` does.
    pub fn learn(&mut self, alloc: Global, link: &MessageView<'_, Links>) -> Result<(), AllocError>
        ensures { OnOk result (self.new
            ≡ link_known link.now.message_type link.now.payload.now self.old) }
    {
        match news_of(link) {
            News::Named(index, name) => self.enter(alloc, index, name),
            News::Deleted(index) => {
                self.forget(index);
                Ok(())
            }
            News::Nothing => Ok(()),
        }
    }

    /// Enters a name as `enter_name` does.
    fn enter(&mut self, alloc: Global, index: u32, name: &[u8]) -> Result<(), AllocError>
        ensures { OnOk result (self.new ≡ with_name index name.now self.old) }
    {
        match &mut self.queue {
            Some(queue) => queue.enter(index, name),
            None => enter_name(alloc, &mut self.list, index, name),
        }
    }

    /// Removes the name of the link with this index, if it is known.
    fn forget(&mut self, index: u32)
        ensures { self.new ≡ without index self.old }
    {
        match &mut self.queue {
            Some(queue) => queue.forget(index),
            None => forget(&mut self.list, index),
        }
    }
}
