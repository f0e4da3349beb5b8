//! Three families joined into one.

ghost use Rattle.std.specs.Prelude.{refl};

use crate::neighbours::{NDM_IFINDEX, Neighbours, RTM_NEWNEIGH};
use crate::rules::{FRA_PRIORITY, Rules};
use crate::tables::{NDTA_THRESH1, NeighbourTables};
use netlink_family::{
    Both, FamilyError, Join, Joined, OwnedMessage, Reason, Table, Value, name_of,
};

/// The tables of neighbours, neighbour tables and rules.
#[derive(Clone, Copy, Debug, PartialEq, Eq)]
pub struct RouteTables;

impl Join for RouteTables {
    type All = Both<Neighbours, Both<NeighbourTables, Rules>>;

    ghost disjoint = { refl };
}

/// The three families.
pub type Families = Joined<RouteTables>;

/// A message about a neighbour, a neighbour table or a rule.
pub type Route = OwnedMessage<Families>;

/// The link of a new neighbour, selected by the message type.
pub fn link_of(message: &Route) -> Option<i32> {
    match message.message_type {
        RTM_NEWNEIGH => Some(message.header().i32(NDM_IFINDEX)),
        _ => None,
    }
}

/// The link of a neighbour, selected by its table.
pub fn neighbour_link(message: Route) -> Option<i32> {
    match message.tables().split() {
        Ok(neighbour) => Some(neighbour.header().i32(NDM_IFINDEX)),
        Err(_other) => None,
    }
}

/// The threshold of a neighbour table, or the priority of a rule.
pub fn threshold_or_priority<'a>(message: &'a Route) -> Option<Value<'a>> {
    match message.message_type {
        32..=34 => message.view().value(FRA_PRIORITY),
        _ => message.view().value(NDTA_THRESH1),
    }
}

/// The name of the kind whose value has a wrong size; empty for other errors.
pub fn name_of_error(message_type: u16, error: &FamilyError) -> &'static str {
    match *error {
        FamilyError::InvalidAttribute(error) => match error.reason {
            Reason::WrongSize { kind, .. } => name_of::<Families>(message_type, error.policy, kind),
            _ => "",
        },
        _ => "",
    }
}
