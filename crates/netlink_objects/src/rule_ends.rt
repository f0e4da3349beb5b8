//! What a rule does, as members of its object.

ghost use Rattle.std.specs.Prelude.{◌≡◌, IfOk, OnOk, string_bytes};
ghost use Rattle.netlink_json.specs.Fields.{Adds, AddsAll};
ghost use Rattle.netlink_objects.specs.RuleEnds.{action_field, action_fields, flow_fields, goto_fields, group_field, lookup_fields, realms_fields, suppressed_field, suppressed_group, table_fields, target_field, translation_field};

use crate::form::{put_null, put_word};
use crate::route_values::{from_word, realm_text};
use crate::word::table_word;
use netlink_family::MessageView;
use netlink_json::Object;
use netlink_route::Rules;
use netlink_route::rules::{
    FRA_FLOW, FRA_GOTO, FRA_SUPPRESS_IFGROUP, FRA_SUPPRESS_PREFIXLEN, FRH_ACTION, FRH_FLAGS,
};
use netlink_route_lines::rule_ends::{FIB_RULE_UNRESOLVED, signed, table_of};
use netlink_words::number_names::route_type_text;
use netlink_words::parts::or_empty;
use netlink_words::text::ip_words;
use std::alloc::{AllocError, Global};

/// The attribute that has the address of a translation, the kind of `RTA_GATEWAY`.
const GATEWAY: u16 = 5;

/// Appends the table to look in and what of it is not used, unless the table is 0.
#[tactic(auto, unfolding(crate::specs::RuleEnds::lookup_fields))]
pub(crate) fn put_lookup(
    alloc: Global,
    object: &mut Object,
    rule: &MessageView<'_, Rules>,
) -> Result<(), AllocError>
    ensures { OnOk result (AddsAll object.old object.new (lookup_fields rule.now.payload.now)) }
{
    let table = table_of(rule);
    if table == 0 {
        return Ok(());
    }
    put_table(alloc, object, table, rule)
}

/// Appends the table to look in and what of it is not used.
#[tactic(auto, unfolding(crate::specs::RuleEnds::table_fields))]
fn put_table(
    alloc: Global,
    object: &mut Object,
    table: u32,
    rule: &MessageView<'_, Rules>,
) -> Result<(), AllocError>
    ensures { OnOk result (AddsAll object.old object.new (table_fields table rule.now.payload.now)) }
{
    put_word(alloc, object, "table", table_word(alloc, table)?.as_str())?;
    put_suppressed(object, rule.view().u32(FRA_SUPPRESS_PREFIXLEN))?;
    put_group(alloc, object, rule.view().u32(FRA_SUPPRESS_IFGROUP))
}

/// Appends the length of the prefixes that are not used; -1 is none.
#[tactic(auto, unfolding(crate::specs::RuleEnds::suppressed_field, netlink_json::specs::Fields::with_field))]
fn put_suppressed(object: &mut Object, size: Option<u32>) -> Result<(), AllocError>
    ensures { OnOk result (Adds object.old object.new (suppressed_field size)) }
{
    match size {
        None => Ok(()),
        Some(size) => {
            if size == u32::MAX {
                return Ok(());
            }
            object.put_signed("suppress_prefixlen", signed(size) as i64)
        }
    }
}

/// Appends the group of links whose routes are not used.
#[tactic(auto, unfolding(crate::specs::RuleEnds::group_field, netlink_json::specs::Fields::with_field))]
fn put_group(alloc: Global, object: &mut Object, group: Option<u32>) -> Result<(), AllocError>
    ensures { OnOk result (Adds object.old object.new (group_field group)) }
{
    match group {
        None => Ok(()),
        Some(group) => {
            let word = suppressed_group(alloc, group)?;
            put_word(alloc, object, "suppress_ifgroup", word.as_str())
        }
    }
}

/// Returns a group of links whose routes are not used; -1 is none, and 0 has a name.
#[tactic(auto, unfolding(crate::specs::RuleEnds::suppressed_group))]
fn suppressed_group(alloc: Global, group: u32) -> Result<String, AllocError>
    ensures { IfOk result (λ text. string_bytes text ≡ suppressed_group group) }
{
    if group == u32::MAX {
        return Ok(String::new(alloc));
    }
    if group == 0 {
        return String::from_str(alloc, "default");
    }
    let group = signed(group);
    format!(in alloc; "{group}")
}

/// Appends the realms.
#[tactic(auto, unfolding(crate::specs::RuleEnds::flow_fields))]
pub(crate) fn put_flow(
    alloc: Global,
    object: &mut Object,
    rule: &MessageView<'_, Rules>,
) -> Result<(), AllocError>
    ensures { OnOk result (AddsAll object.old object.new (flow_fields rule.now.payload.now)) }
{
    put_realms(alloc, object, rule.view().u32(FRA_FLOW))
}

/// Appends the two realms of a flow, the first unless it is 0.
#[tactic(auto, unfolding(crate::specs::RuleEnds::realms_fields))]
fn put_realms(alloc: Global, object: &mut Object, flow: Option<u32>) -> Result<(), AllocError>
    ensures { OnOk result (AddsAll object.old object.new (realms_fields flow)) }
{
    match flow {
        None => Ok(()),
        Some(flow) => {
            let from = from_word(alloc, flow / 65536)?;
            put_word(alloc, object, "flow_from", from.as_str())?;
            let to = realm_text(alloc, flow % 65536)?;
            object.put_text(alloc, "flow_to", to.as_bytes())
        }
    }
}

/// Appends the action of a rule, unless it looks in a table.
#[tactic(auto, unfolding(crate::specs::RuleEnds::action_fields))]
pub(crate) fn put_action(
    alloc: Global,
    object: &mut Object,
    rule: &MessageView<'_, Rules>,
) -> Result<(), AllocError>
    ensures { OnOk result (AddsAll object.old object.new (action_fields rule.now.payload.now)) }
{
    let action = rule.header().u8(FRH_ACTION);
    if action == 2 {
        let flags = rule.header().u32(FRH_FLAGS);
        return put_goto(alloc, object, flags, rule.view().u32(FRA_GOTO));
    }
    let gateway = or_empty(rule.view().bytes(GATEWAY));
    put_other_action(alloc, object, action, gateway)
}

/// Appends the priority of the rule that follows this one, and whether there is none.
#[tactic(auto, unfolding(crate::specs::RuleEnds::goto_fields))]
fn put_goto(
    alloc: Global,
    object: &mut Object,
    flags: u32,
    target: Option<u32>,
) -> Result<(), AllocError>
    ensures { OnOk result (AddsAll object.old object.new (goto_fields flags target)) }
{
    put_target(alloc, object, target)?;
    put_null(object, "unresolved", flags & FIB_RULE_UNRESOLVED != 0)
}

/// Appends the priority of the rule that follows this one; `none` if the message has none.
#[tactic(auto, unfolding(crate::specs::RuleEnds::target_field))]
fn put_target(alloc: Global, object: &mut Object, target: Option<u32>) -> Result<(), AllocError>
    ensures { OnOk result (Adds object.old object.new (target_field target)) }
{
    match target {
        Some(priority) => object.put_number("goto", priority as u64),
        None => object.put_text(alloc, "goto", b"none"),
    }
}

/// Appends an action other than `goto`, unless it looks in a table.
#[tactic(auto, unfolding(crate::specs::RuleEnds::action_field, netlink_json::specs::Fields::with_field))]
fn put_other_action(
    alloc: Global,
    object: &mut Object,
    action: u8,
    gateway: &[u8],
) -> Result<(), AllocError>
    ensures { OnOk result (Adds object.old object.new (action_field action gateway.now)) }
{
    match action {
        1 => Ok(()),
        3 => object.put_null("nop"),
        10 => put_translation(alloc, object, ip_words(alloc, gateway)?.as_str()),
        _ => {
            let word = route_type_text(alloc, action)?;
            object.put_text(alloc, "action", word.as_bytes())
        }
    }
}

/// Appends the address that a rule translates to; without one that of the outgoing link.
#[tactic(auto, unfolding(crate::specs::RuleEnds::translation_field))]
fn put_translation(alloc: Global, object: &mut Object, ip: &str) -> Result<(), AllocError>
    ensures { OnOk result (Adds object.old object.new (translation_field ip.now)) }
{
    if ip.is_empty() {
        return object.put_null("masquerade");
    }
    object.put_text(alloc, "nat_gateway", ip.as_bytes())
}
