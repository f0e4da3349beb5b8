//! Callers of the getters of a view.

ghost use Rattle.std.specs.Prelude.{◌≡◌, ◌==◌, IfErr, IfNone, IfOk, IfSome, None, Some};
ghost use Rattle.std.specs.Option.{option_map};
ghost use Rattle.netlink_packet_core.specs.Numbers.{number_le};
ghost use Rattle.netlink_family.specs.Errors.{message_error};
ghost use Rattle.netlink_family.specs.Finding.{first_at, found_within};
ghost use Rattle.netlink_family.specs.Shapes.{has_type, named};
ghost use Rattle.netlink_family.specs.Strings.{until_nul};
ghost use Rattle.netlink_family_tests.specs.declared.neighbours.TheConstants.{NDA_PROBES, ROWS, RTM_GETNEIGH, TYPES};
ghost use Rattle.netlink_family_tests.specs.declared.tables.TheConstants.{NDTA_NAME, NDTA_PARMS, NDTPA_IFINDEX};
ghost use Rattle.netlink_family_tests.specs.declared.rules.TheConstants.{FRA_MARKS, MARK_REST, MARK_VALUE};

use crate::neighbours::{NDA_LLADDR, NDA_PROBES, Neighbours};
use crate::rules::{FRA_MARKS, MARK_REST, MARK_VALUE, Rules};
use crate::tables::{NDTA_NAME, NDTA_PARMS, NDTPA_IFINDEX, NeighbourTables};
use netlink_family::{CheckedAttributes, FamilyError, MessageView, OwnedMessage, Value};

/// The number of probes, in a payload as received.
pub fn probes_seen(message: &MessageView<'_, Neighbours>) -> Option<u32>
    ensures { result ≡ option_map number_le (first_at 12 message.now.payload.now NDA_PROBES) }
{
    message.view().u32(NDA_PROBES)
}

/// The name of a neighbour table. It borrows from the message.
pub fn name(message: &OwnedMessage<NeighbourTables>) -> Option<&[u8]>
    ensures some { IfSome result (λ v. option_map until_nul (first_at 4 message.now.bytes.items NDTA_NAME)
        ≡ Some v.now) }
    ensures none { IfNone result (option_map until_nul (first_at 4 message.now.bytes.items NDTA_NAME)
        ≡ None) }
{
    message.view().str_bytes(NDTA_NAME)
}

/// The link in the parameters of a neighbour table: an integer in a nest.
pub fn parms_link(message: &OwnedMessage<NeighbourTables>) -> Option<u32>
    ensures { result ≡ option_map number_le
        (found_within (first_at 4 message.now.bytes.items NDTA_PARMS) NDTPA_IFINDEX) }
{
    message.view().nest(NDTA_PARMS)?.u32(NDTPA_IFINDEX)
}

/// Returns `None`: the table of the nest gives the kind the shape `U32`.
pub fn no_parms(message: &OwnedMessage<NeighbourTables>) -> Option<u64>
    ensures { result ≡ None }
{
    message.view().nest(NDTA_PARMS)?.u64(NDTPA_IFINDEX)
}

/// The value of the first mark of a rule: two nests deep, the inner one an element of a list.
pub fn first_mark(message: &MessageView<'_, Rules>) -> Option<u32>
    ensures { result ≡ option_map number_le
        (found_within (found_within (first_at 12 message.now.payload.now FRA_MARKS) 0) MARK_VALUE) }
{
    message.view().nest(FRA_MARKS)?.nest(0)?.u32(MARK_VALUE)
}

/// The rest of the first mark. It borrows from the received bytes.
pub fn mark_rest<'a>(message: &MessageView<'a, Rules>) -> Option<&'a [u8]>
    ensures some { IfSome result (λ v. found_within (found_within (first_at 12 message.now.payload.now FRA_MARKS) 0)
        MARK_REST ≡ Some v.now) }
    ensures none { IfNone result (found_within (found_within (first_at 12 message.now.payload.now FRA_MARKS) 0)
        MARK_REST ≡ None) }
{
    message.view().nest(FRA_MARKS)?.nest(0)?.bytes(MARK_REST)
}

/// The link-layer address. It borrows from the received bytes.
pub fn link_address<'a>(message: &MessageView<'a, Neighbours>) -> Option<&'a [u8]> {
    message.view().bytes(NDA_LLADDR)
}

/// Counts the attributes of a payload that are a `u32`, in one pass. Returns the payload's error if
/// it has one.
pub fn numbers(message_type: u16, payload: &[u8]) -> Result<u32, FamilyError>
    ensures good { IfOk result (λ _. message_error (has_type TYPES.now message_type) (message_type == RTM_GETNEIGH) 12
        (named ROWS.now (λ name. name.now)) message_type payload.now ≡ None) }
    ensures error { IfErr result (λ e. message_error (has_type TYPES.now message_type) (message_type == RTM_GETNEIGH) 12
        (named ROWS.now (λ name. name.now)) message_type payload.now ≡ Some e) }
{
    let mut count = 0u32;
    for item in CheckedAttributes::<Neighbours>::new(message_type, payload)? {
        match item {
            Ok((_kind, Value::U32(_number))) => count = count.wrapping_add(1),
            Ok(_) => {}
            Err(error) => return Err(FamilyError::InvalidAttribute(error)),
        }
    }
    Ok(count)
}
