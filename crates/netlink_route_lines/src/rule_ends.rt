//! What a rule does.

ghost use Rattle.std.specs.Prelude.{◌≡◌, IfOk, OnOk, string_bytes};
ghost use Rattle.netlink_packet_core.specs.Numbers.{signed};
ghost use Rattle.netlink_words.specs.Parts.{AddsPart, AddsParts};
ghost use Rattle.netlink_route_lines.specs.RuleParts.{action_part, action_text, goto_part, group_part, group_text, installer_part, lookup_parts, rule_table, suppressed_part, table_parts};

use netlink_family::MessageView;
use netlink_route::Rules;
use netlink_route::rules::{
    FRA_FLOW, FRA_GOTO, FRA_SUPPRESS_IFGROUP, FRA_SUPPRESS_PREFIXLEN, FRA_TABLE, FRH_ACTION,
    FRH_FLAGS, FRH_TABLE,
};
use netlink_words::number_names::{push_protocol, push_table, route_type_text};
use netlink_words::parts::{push_key, push_part, push_realms};
use std::alloc::{AllocError, Global};

pub const FIB_RULE_UNRESOLVED: u32 = 0x4;

/// Appends the table to look in unless it is 0, what of it is not used, and the realms.
#[tactic(auto, unfolding(crate::specs::RuleParts::lookup_parts))]
pub(crate) fn push_lookup(
    alloc: Global,
    text: &mut String,
    rule: &MessageView<'_, Rules>,
) -> Result<(), AllocError>
    ensures { OnOk result (AddsParts text.old text.new (lookup_parts rule.now.payload.now)) }
{
    let table = table_of(rule);
    if table != 0 {
        push_lookup_table(alloc, text, table, rule)?;
    }
    push_realms(alloc, text, "realms", "realms", rule.view().u32(FRA_FLOW))
}

/// Appends the table to look in and what of it is not used.
#[tactic(auto, using(netlink_words::specs::Pieces::table_more), unfolding(crate::specs::RuleParts::table_parts))]
fn push_lookup_table(
    alloc: Global,
    text: &mut String,
    table: u32,
    rule: &MessageView<'_, Rules>,
) -> Result<(), AllocError>
    ensures { OnOk result (AddsParts text.old text.new (table_parts table rule.now.payload.now)) }
{
    push_key(text, "lookup")?;
    push_table(text, table)?;
    push_suppressed(alloc, text, rule.view().u32(FRA_SUPPRESS_PREFIXLEN))?;
    push_group(alloc, text, rule.view().u32(FRA_SUPPRESS_IFGROUP))
}

/// Returns the number of the table, from the attribute or the header.
#[tactic(auto, unfolding(crate::specs::RuleParts::rule_table))]
pub fn table_of(rule: &MessageView<'_, Rules>) -> u32
    ensures { result ≡ rule_table rule.now.payload.now }
{
    match rule.view().u32(FRA_TABLE) {
        Some(table) => table,
        None => rule.header().u8(FRH_TABLE) as u32,
    }
}

/// Appends the length of the prefixes that are not used; -1 is none.
#[tactic(auto, unfolding(crate::specs::RuleParts::suppressed_part, netlink_words::specs::Parts::with_part))]
fn push_suppressed(alloc: Global, text: &mut String, size: Option<u32>) -> Result<(), AllocError>
    ensures { OnOk result (AddsPart text.old text.new (suppressed_part size)) }
{
    match size {
        None => Ok(()),
        Some(size) => {
            if size == u32::MAX {
                return Ok(());
            }
            let size = signed(size);
            push_part(
                text,
                format!(in alloc; "suppress_prefixlength {size}")?.as_str(),
            )
        }
    }
}

/// Appends the group of links whose routes are not used.
#[tactic(auto, unfolding(crate::specs::RuleParts::group_part, netlink_words::specs::Parts::with_part))]
fn push_group(alloc: Global, text: &mut String, group: Option<u32>) -> Result<(), AllocError>
    ensures { OnOk result (AddsPart text.old text.new (group_part group)) }
{
    match group {
        None => Ok(()),
        Some(group) => push_part(text, group_text(alloc, group)?.as_str()),
    }
}

/// Returns a group of links whose routes are not used; -1 is none, and 0 has a name.
#[tactic(auto, unfolding(crate::specs::RuleParts::group_text))]
fn group_text(alloc: Global, group: u32) -> Result<String, AllocError>
    ensures { IfOk result (λ text. string_bytes text ≡ group_text group) }
{
    if group == u32::MAX {
        return Ok(String::new(alloc));
    }
    if group == 0 {
        return String::from_str(alloc, "suppress_ifgroup default");
    }
    let group = signed(group);
    format!(in alloc; "suppress_ifgroup {group}")
}

/// Returns the number that 4 bytes represent in two's complement.
#[tactic(auto, using(netlink_words::specs::Signed::signed_cast))]
pub fn signed(number: u32) -> i32
    ensures { result ≡ signed 4 number }
{
    number.cast_signed()
}

/// Appends the action of a rule, unless it looks in a table.
#[tactic(auto, unfolding(crate::specs::RuleParts::action_part, netlink_words::specs::Parts::with_part))]
pub(crate) fn push_action(
    alloc: Global,
    text: &mut String,
    rule: &MessageView<'_, Rules>,
) -> Result<(), AllocError>
    ensures { OnOk result (AddsPart text.old text.new (action_part rule.now.payload.now)) }
{
    let action = rule.header().u8(FRH_ACTION);
    if action == 2 {
        let flags = rule.header().u32(FRH_FLAGS);
        return push_goto(alloc, text, flags, rule.view().u32(FRA_GOTO));
    }
    push_part(text, action_text(alloc, action)?.as_str())
}

/// Returns the name of an action; empty for one that looks in a table.
#[tactic(auto, unfolding(crate::specs::RuleParts::action_text))]
fn action_text(alloc: Global, action: u8) -> Result<String, AllocError>
    ensures { IfOk result (λ text. string_bytes text ≡ action_text action) }
{
    match action {
        1 => Ok(String::new(alloc)),
        3 => String::from_str(alloc, "nop"),
        10 => String::from_str(alloc, "masquerade"),
        _ => route_type_text(alloc, action),
    }
}

/// Appends the priority of the rule that follows this one, and whether there is none.
#[tactic(auto, unfolding(crate::specs::RuleParts::goto_part, netlink_words::specs::Parts::with_part))]
fn push_goto(
    alloc: Global,
    text: &mut String,
    flags: u32,
    target: Option<u32>,
) -> Result<(), AllocError>
    ensures { OnOk result (AddsPart text.old text.new (goto_part flags target)) }
{
    let lost = if flags & FIB_RULE_UNRESOLVED != 0 {
        " [unresolved]"
    } else {
        ""
    };
    match target {
        Some(priority) => push_part(text, format!(in alloc; "goto {priority}{lost}")?.as_str()),
        None => push_part(text, format!(in alloc; "goto none{lost}")?.as_str()),
    }
}

/// Appends who installed a rule, unless that is nobody or the kernel.
#[tactic(auto, using(netlink_words::specs::Pieces::protocol_more), unfolding(crate::specs::RuleParts::installer_part, netlink_words::specs::Parts::with_part))]
pub(crate) fn push_installer(text: &mut String, protocol: Option<u8>) -> Result<(), AllocError>
    ensures { OnOk result (AddsPart text.old text.new (installer_part protocol)) }
{
    match protocol {
        None => Ok(()),
        Some(protocol) => {
            if protocol == 0 || protocol == 2 {
                return Ok(());
            }
            push_key(text, "proto")?;
            push_protocol(text, protocol)
        }
    }
}
