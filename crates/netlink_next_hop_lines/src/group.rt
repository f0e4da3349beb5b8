//! The members of a group of next hops, its type, and what a resilient group has.

ghost use Rattle.std.specs.Prelude.{◌≡◌, ◌<◌, IfOk, OnOk, string_bytes};
ghost use Rattle.std.specs.Option.{option_copied};
ghost use Rattle.netlink_family.specs.Finding.{first_at};
ghost use Rattle.netlink_family.specs.Shapes.{rows_in};
ghost use Rattle.netlink_next_hop_lines.specs.Group.{group_part, group_parts, id_of, member_text, members_text, resilience_in, resilience_parts, type_part, with_member};
ghost use Rattle.netlink_route.specs.declared.next_hop_objects.TheConstants.{NHA_RES_GROUP, RES_GROUP};
ghost use Rattle.netlink_words.specs.Parts.{AddsPart, AddsParts};

use crate::time::{long_or_zero, push_seconds, short_or_zero};
use netlink_family::{BlockView, MessageView, Table};
use netlink_route::NextHopObjects;
use netlink_route::next_hop_objects::{
    NHA_GROUP, NHA_GROUP_TYPE, NHA_RES_GROUP, NHA_RES_GROUP_BUCKETS, NHA_RES_GROUP_IDLE_TIMER,
    NHA_RES_GROUP_UNBALANCED_TIME, NHA_RES_GROUP_UNBALANCED_TIMER,
};
use netlink_words::parts::{or_zero, push_keyed, push_number};
use netlink_words::text::push_separated;
use std::alloc::{AllocError, Global};

/// Appends the members of a group and its type.
#[tactic(auto, unfolding(crate::specs::Group::group_parts))]
pub(crate) fn push_group(
    alloc: Global,
    text: &mut String,
    next_hop: &MessageView<'_, NextHopObjects>,
) -> Result<(), AllocError>
    ensures { OnOk result (AddsParts text.old text.new (group_parts next_hop.now.payload.now)) }
{
    push_members(alloc, text, next_hop.view().first(NHA_GROUP))?;
    push_type(alloc, text, next_hop.view().u16(NHA_GROUP_TYPE))
}

/// Appends the members, unless there are none.
#[tactic(auto, unfolding(crate::specs::Group::group_part, netlink_words::specs::Parts::with_part))]
fn push_members(alloc: Global, text: &mut String, group: Option<&[u8]>) -> Result<(), AllocError>
    ensures { OnOk result (AddsPart text.old text.new (group_part (option_copied group.entry))) }
{
    match group {
        None => Ok(()),
        Some(group) => push_keyed(text, "group", members_text(alloc, group)?.as_str()),
    }
}

/// Returns the members with slashes between them, given as a `struct nexthop_grp` each.
#[tactic(auto, unfolding(crate::specs::Group::members_text))]
fn members_text(alloc: Global, bytes: &[u8]) -> Result<String, AllocError>
    ensures { IfOk result (λ text. string_bytes text ≡ members_text bytes.now) }
{
    let mut text = String::new(alloc);
    let mut rest = bytes;
    while let [a, b, c, d, low, high, _, _, more @ ..] = rest {
        let weight = *high as u32 * 256 + *low as u32;
        push_member(alloc, &mut text, id_of(*a, *b, *c, *d), weight)?;
        rest = more;
    }
    Ok(text)
}

/// Returns the id of a member, given its bytes from the lowest on.
fn id_of(a: u8, b: u8, c: u8, d: u8) -> u32
    ensures { result ≡ id_of a b c d }
{
    d as u32 * 0x100_0000 + c as u32 * 0x1_0000 + b as u32 * 0x100 + a as u32
}

/// Appends a member by its id and its weight less 1, after a slash if the text is not empty.
fn push_member(alloc: Global, text: &mut String, id: u32, weight: u32) -> Result<(), AllocError>
    requires { weight < 65536 }
    ensures { OnOk result (string_bytes text.new ≡ with_member (string_bytes text.old) id weight) }
{
    push_separated(text, "/", member_text(alloc, id, weight)?.as_str())
}

/// Returns the id of a member and, unless that is 1, its weight.
fn member_text(alloc: Global, id: u32, weight: u32) -> Result<String, AllocError>
    requires { weight < 65536 }
    ensures { IfOk result (λ text. string_bytes text ≡ member_text id weight) }
{
    if weight == 0 {
        return format!(in alloc; "{id}");
    }
    let weight = weight + 1;
    format!(in alloc; "{id},{weight}")
}

/// Appends the type of a group, unless it spreads packets by their hash.
#[tactic(auto, unfolding(crate::specs::Group::type_part, netlink_words::specs::Parts::with_part))]
fn push_type(alloc: Global, text: &mut String, kind: Option<u16>) -> Result<(), AllocError>
    ensures { OnOk result (AddsPart text.old text.new (type_part kind)) }
{
    match kind {
        None => Ok(()),
        Some(0) => Ok(()),
        Some(1) => push_keyed(text, "type", "resilient"),
        Some(kind) => push_keyed(text, "type", format!(in alloc; "{kind}")?.as_str()),
    }
}

/// Appends what a resilient group has.
#[tactic(auto, unfolding(crate::specs::Group::resilience_in))]
pub(crate) fn push_resilience(
    alloc: Global,
    text: &mut String,
    next_hop: &MessageView<'_, NextHopObjects>,
) -> Result<(), AllocError>
    ensures { OnOk result (AddsParts text.old text.new
        (resilience_in (first_at 8 next_hop.now.payload.now NHA_RES_GROUP))) }
{
    match next_hop.view().nest(NHA_RES_GROUP) {
        None => Ok(()),
        Some(group) => push_args(alloc, text, &group),
    }
}

/// Appends the number of buckets and the times of a resilient group, 0 for each that is missing.
#[tactic(auto, unfolding(crate::specs::Group::resilience_parts))]
fn push_args(alloc: Global, text: &mut String, group: &BlockView<'_>) -> Result<(), AllocError>
    requires rows { rows_in group.now.rows.list.now ≡ ⟦<NextHopObjects as Table>⟧.rows 104 }
    requires policy { group.now.policy ≡ RES_GROUP }
    ensures { OnOk result (AddsParts text.old text.new (resilience_parts group.now.block.now)) }
{
    let buckets = short_or_zero(group.u16(NHA_RES_GROUP_BUCKETS));
    let idle = or_zero(group.u32(NHA_RES_GROUP_IDLE_TIMER));
    let limit = or_zero(group.u32(NHA_RES_GROUP_UNBALANCED_TIMER));
    let since = long_or_zero(group.u64(NHA_RES_GROUP_UNBALANCED_TIME));
    push_number(text, "buckets", Some(buckets))?;
    push_seconds(alloc, text, "idle_timer", idle as u64)?;
    push_seconds(alloc, text, "unbalanced_timer", limit as u64)?;
    push_seconds(alloc, text, "unbalanced_time", since)
}
