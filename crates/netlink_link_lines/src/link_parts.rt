//! The settings of a link: the parts of its line before the type of the device.

ghost use Rattle.std.specs.Prelude.{◌≡◌, ◌++◌, IfOk, OnOk, string_bytes};
ghost use Rattle.netlink_link_lines.specs.LinkParts.{event_part, event_text, group_part, group_text, mode_part, mode_text, queue_part, setting_parts, state_part};
ghost use Rattle.netlink_words.specs.Parts.{AddsPart, AddsParts};

use netlink_family::MessageIndex;
use netlink_names::device::push_device;
use netlink_names::name_table::Names;
use netlink_route::Links;
use netlink_route::links::{
    IFLA_EVENT, IFLA_GROUP, IFLA_LINKMODE, IFLA_MASTER, IFLA_MTU, IFLA_OPERSTATE, IFLA_QDISC,
    IFLA_TXQLEN,
};
use netlink_words::digits::push_decimal;
use netlink_words::number_names::push_state;
use netlink_words::parts::{push_key, push_keyed, push_number, push_string};
use std::alloc::{AllocError, Global};

/// Appends the MTU, the queueing discipline, the master, the operational state, the mode, the
/// group, the length of the queue and the event.
#[tactic(auto, unfolding(crate::specs::LinkParts::setting_parts))]
pub(crate) fn push_settings(
    alloc: Global,
    text: &mut String,
    known: &Names<'_>,
    link: &MessageIndex<'_, Links>,
) -> Result<(), AllocError>
    ensures { OnOk result
        (AddsParts text.old text.new (setting_parts known.now link.now.message.payload.now)) }
{
    push_number(text, "mtu", link.index().u32(IFLA_MTU))?;
    push_string(text, "qdisc", link.index().str_bytes(IFLA_QDISC))?;
    push_device(text, known, "master", link.index().u32(IFLA_MASTER))?;
    push_state_part(text, link.index().u8(IFLA_OPERSTATE))?;
    push_mode(text, link.index().u8(IFLA_LINKMODE))?;
    push_group(text, link.index().u32(IFLA_GROUP))?;
    push_queue(text, link.index().u32(IFLA_TXQLEN))?;
    push_event(alloc, text, link.index().u32(IFLA_EVENT))
}

/// Appends the operational state.
#[tactic(auto, using(netlink_words::specs::Pieces::state_more), unfolding(crate::specs::LinkParts::state_part, netlink_words::specs::Parts::with_part))]
fn push_state_part(text: &mut String, state: Option<u8>) -> Result<(), AllocError>
    ensures { OnOk result (AddsPart text.old text.new (state_part state)) }
{
    match state {
        Some(state) => {
            push_key(text, "state")?;
            push_state(text, state)
        }
        None => Ok(()),
    }
}

/// Appends the mode, which determines whether the link becomes dormant.
#[tactic(auto, using(crate::proofs::Pieces::mode_more), unfolding(crate::specs::LinkParts::mode_part, netlink_words::specs::Parts::with_part))]
fn push_mode(text: &mut String, mode: Option<u8>) -> Result<(), AllocError>
    ensures { OnOk result (AddsPart text.old text.new (mode_part mode)) }
{
    match mode {
        Some(mode) => {
            push_key(text, "mode")?;
            push_mode_name(text, mode)
        }
        None => Ok(()),
    }
}

/// Appends the name of a mode (`IF_LINK_MODE_*` of linux/if.h), or the number in decimal.
#[tactic(auto, unfolding(crate::specs::LinkParts::mode_text))]
pub fn push_mode_name(text: &mut String, mode: u8) -> Result<(), AllocError>
    ensures { OnOk result (string_bytes text.new ≡ string_bytes text.old ++ mode_text mode) }
{
    let name = match mode {
        0 => "DEFAULT",
        1 => "DORMANT",
        _ => return push_decimal(text, mode as u32),
    };
    text.push_str(name)
}

/// Appends the group.
#[tactic(auto, using(crate::proofs::Pieces::group_more), unfolding(crate::specs::LinkParts::group_part, netlink_words::specs::Parts::with_part))]
fn push_group(text: &mut String, group: Option<u32>) -> Result<(), AllocError>
    ensures { OnOk result (AddsPart text.old text.new (group_part group)) }
{
    match group {
        Some(group) => {
            push_key(text, "group")?;
            push_group_name(text, group)
        }
        None => Ok(()),
    }
}

/// Appends the name of a group. Only the group 0 has a name, `default`, without a file of names.
#[tactic(auto, unfolding(crate::specs::LinkParts::group_text))]
pub fn push_group_name(text: &mut String, group: u32) -> Result<(), AllocError>
    ensures { OnOk result (string_bytes text.new ≡ string_bytes text.old ++ group_text group) }
{
    if group == 0 {
        return text.push_str("default");
    }
    push_decimal(text, group)
}

/// Appends a length of the queue other than 0.
#[tactic(auto, unfolding(crate::specs::LinkParts::queue_part, netlink_words::specs::Parts::when, netlink_words::specs::Parts::with_part))]
fn push_queue(text: &mut String, length: Option<u32>) -> Result<(), AllocError>
    ensures { OnOk result (AddsPart text.old text.new (queue_part length)) }
{
    match length {
        None => Ok(()),
        Some(length) => {
            if length == 0 {
                return Ok(());
            }
            push_number(text, "qlen", Some(length))
        }
    }
}

/// Appends an event other than 0, for which the kernel sent the message.
#[tactic(auto, unfolding(crate::specs::LinkParts::event_part, netlink_words::specs::Parts::when, netlink_words::specs::Parts::with_part))]
fn push_event(alloc: Global, text: &mut String, event: Option<u32>) -> Result<(), AllocError>
    ensures { OnOk result (AddsPart text.old text.new (event_part event)) }
{
    match event {
        None => Ok(()),
        Some(event) => {
            if event == 0 {
                return Ok(());
            }
            push_keyed(text, "event", event_text(alloc, event)?.as_str())
        }
    }
}

/// Returns the name of an event (`IFLA_EVENT_*` of linux/if_link.h), or the number in decimal.
#[tactic(auto, unfolding(crate::specs::LinkParts::event_text))]
pub fn event_text(alloc: Global, event: u32) -> Result<String, AllocError>
    ensures { IfOk result (λ text. string_bytes text ≡ event_text event) }
{
    let name = match event {
        1 => "REBOOT",
        2 => "FEATURE CHANGE",
        3 => "BONDING FAILOVER",
        4 => "NOTIFY PEERS",
        5 => "RESEND IGMP",
        6 => "BONDING OPTION",
        _ => return format!(in alloc; "{event}"),
    };
    String::from_str(alloc, name)
}
