//! What the messages so far leave to the next.

ghost use Rattle.std.specs.Prelude.{◌≡◌};
ghost use Rattle.netlink_lines.specs.Messages.{memory_of, no_memory, stamped};

use crate::options::Options;
use netlink_input::time::Time;
use netlink_names::name_table::NameTable;
use std::alloc::Global;

/// What the lines of the next message depend on.
#[derive(Drop)]
pub struct State {
    /// What is printed besides the lines.
    pub options: Options,
    /// The time that precedes them.
    pub time: Option<Time>,
    /// The time of the packet, which precedes each of its lines, if times are printed.
    pub stamp: Option<Time>,
    /// The names of links, the oldest first.
    pub known: NameTable,
}

impl State {
    /// Returns the state before the first message. Does not allocate.
    pub(crate) fn new(alloc: Global, options: Options) -> State
        ensures { memory_of result ≡ no_memory options }
    {
        State {
            options,
            time: None,
            stamp: None,
            known: NameTable::new(alloc),
        }
    }

    /// Sets the time of the packet that follows, if times are printed.
    pub(crate) fn stamp(&mut self, time: Option<Time>)
        ensures { memory_of self.new ≡ stamped (memory_of self.old) time }
    {
        if self.options.times {
            self.time = time;
            self.stamp = time;
        }
    }
}
