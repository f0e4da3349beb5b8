//! The line of a message about actions of traffic control.

ghost use Rattle.std.specs.Prelude.{◌≡◌, IfOk, OnOk, string_bytes};
ghost use Rattle.std.specs.Option.{option_copied};
ghost use Rattle.netlink_traffic_lines.specs.Action.{action_front, action_in, action_line, action_parts, count_of, first_or, kind_in, list_of};
ghost use Rattle.netlink_words.specs.Parts.{AddsParts};

use crate::traffic::verb_text;
use crate::values::number_in;
use netlink_family::{MessageView, bytes_until_nul};
use netlink_route::TrafficActions;
use netlink_route::traffic_actions::{TCA_ACT_INDEX, TCA_ACT_KIND, TCA_ROOT_COUNT, TCA_ROOT_TAB};
use netlink_shapes::find::first_value;
use netlink_words::parts::{or_empty, or_zero, push_named, push_number, push_part};
use std::alloc::{AllocError, Global};

/// Returns the line of a message about actions: the verb, how many there are, as `tc monitor` prints it,
/// and the kind and the index of the first one. Returns `AllocError` if an allocation fails.
pub fn action_text(
    alloc: Global,
    actions: &MessageView<'_, TrafficActions>,
) -> Result<String, AllocError>
    ensures line { IfOk result (λ text. string_bytes text
        ≡ action_line actions.now.message_type actions.now.payload.now) }
{
    action_line(alloc, actions)
}

/// Returns the line of a message about actions, as `action_text` does.
#[tactic(auto, unfolding(crate::specs::Action::action_line))]
pub fn action_line(
    alloc: Global,
    actions: &MessageView<'_, TrafficActions>,
) -> Result<String, AllocError>
    ensures { IfOk result (λ text. string_bytes text
        ≡ action_line actions.now.message_type actions.now.payload.now) }
{
    let mut text = String::new(alloc);
    push_front(&mut text, actions)?;
    push_action(&mut text, action_in(list_of(actions)))?;
    text.push_str("\n")?;
    Ok(text)
}

/// Appends the verb, and how many actions there are.
#[tactic(auto, unfolding(crate::specs::Action::action_front))]
fn push_front(
    text: &mut String,
    actions: &MessageView<'_, TrafficActions>,
) -> Result<(), AllocError>
    ensures { OnOk result (AddsParts text.old text.new
        (action_front actions.now.message_type actions.now.payload.now)) }
{
    push_part(text, verb_text(actions.message_type))?;
    push_number(text, "total acts", Some(count_of(actions)))
}

/// Returns how many actions there are; 0 if the message does not say so.
fn count_of(actions: &MessageView<'_, TrafficActions>) -> u32
    ensures { result ≡ count_of actions.now.payload.now }
{
    or_zero(actions.view().u32(TCA_ROOT_COUNT))
}

/// Returns the list of the actions; empty if there is none.
fn list_of<'a>(actions: &MessageView<'a, TrafficActions>) -> &'a [u8]
    ensures { result.now ≡ list_of actions.now.payload.now }
{
    or_empty(actions.view().first(TCA_ROOT_TAB))
}

/// Returns the first action of a list, whose number is 0 or 1; empty if there is none.
fn action_in(list: &[u8]) -> &[u8]
    ensures { result.now ≡ action_in list.now }
{
    first_or(first_value(list, 0), first_value(list, 1))
}

/// Returns the first of two values; empty if there is none.
#[tactic(auto, unfolding(crate::specs::Action::first_or))]
fn first_or<'a>(first: Option<&'a [u8]>, second: Option<&'a [u8]>) -> &'a [u8]
    ensures { result.now ≡ first_or (option_copied first.entry) (option_copied second.entry) }
{
    match first {
        None => or_empty(second),
        Some(action) => action,
    }
}

/// Appends the kind and the index of an action.
#[tactic(auto, unfolding(crate::specs::Action::action_parts))]
fn push_action(text: &mut String, action: &[u8]) -> Result<(), AllocError>
    ensures { OnOk result (AddsParts text.old text.new (action_parts action.now)) }
{
    push_named(text, "action", kind_in(action))?;
    push_number(text, "index", number_in(action, TCA_ACT_INDEX))
}

/// Returns the kind of an action; empty if it is missing.
fn kind_in(action: &[u8]) -> &[u8]
    ensures { result.now ≡ kind_in action.now }
{
    bytes_until_nul(or_empty(first_value(action, TCA_ACT_KIND)))
}
