//! The line of a routing rule.

ghost use Rattle.std.specs.Prelude.{◌≡◌, [], IfOk, OnOk, string_bytes};
ghost use Rattle.std.specs.Option.{option_copied};
ghost use Rattle.netlink_route.specs.declared.rules.TheConstants.{FRA_IIFNAME, FRA_OIFNAME};
ghost use Rattle.netlink_words.specs.Parts.{AddsPart, AddsParts, with_parts};
ghost use Rattle.netlink_route_lines.specs.Rule.{destination_part, iif_part, ip_protocol_part, is_set, mark_part, oif_part, protocol_words, rule_front, rule_heading, rule_line, rule_links, rule_marks, rule_name, rule_parts, rule_ranges, rule_where, source_part, tunnel_part, word_or_all};
ghost use Rattle.netlink_route_lines.specs.RuleParts.{rule_byte};

use crate::ip_protocols::ip_protocol_name;
use crate::rule_ends::{push_action, push_installer, push_lookup};
use crate::rule_matches::{push_link, push_ports, push_users};
use netlink_family::MessageView;
use netlink_route::Rules;
use netlink_route::rules::{
    FRA_DPORT_RANGE, FRA_DST, FRA_FWMARK, FRA_FWMASK, FRA_IIFNAME, FRA_IP_PROTO, FRA_L3MDEV,
    FRA_OIFNAME, FRA_PRIORITY, FRA_PROTOCOL, FRA_SPORT_RANGE, FRA_SRC, FRA_TUN_ID, FRA_UID_RANGE,
    FRH_DST_LEN, FRH_FAMILY, FRH_FLAGS, FRH_SRC_LEN, FRH_TOS, RTM_DELRULE, RTM_GETRULE,
};
use netlink_words::parts::{
    hex_text, host_length, or_empty, or_zero, prefix_text, push_keyed, push_part, push_tos,
    push_when,
};
use std::alloc::{AllocError, Global};

// The flags of a rule that have names (linux/fib_rules.h).
pub const FIB_RULE_INVERT: u32 = 0x2;

pub const FIB_RULE_IIF_DETACHED: u32 = 0x8;

pub const FIB_RULE_OIF_DETACHED: u32 = 0x10;

/// Returns the line of a message about a rule, as `ip rule show` prints it, with one space between
/// its parts: the verb, the priority, what the rule matches, and what it does.
#[tactic(auto, unfolding(crate::specs::Rule::rule_line))]
pub fn rule_text(alloc: Global, rule: &MessageView<'_, Rules>) -> Result<String, AllocError>
    ensures line { IfOk result (λ text. string_bytes text
        ≡ rule_line rule.now.message_type rule.now.payload.now) }
{
    let mut text = parts_text(alloc, rule)?;
    text.push_str("\n")?;
    Ok(text)
}

/// Returns the parts of a rule.
#[tactic(auto, unfolding(crate::specs::Rule::rule_parts), using(netlink_words::specs::Joined::with_parts_append))]
fn parts_text(alloc: Global, rule: &MessageView<'_, Rules>) -> Result<String, AllocError>
    ensures { IfOk result (λ text. string_bytes text
        ≡ with_parts [] (rule_parts rule.now.message_type rule.now.payload.now)) }
{
    let mut text = String::new(alloc);
    push_front(alloc, &mut text, rule)?;
    push_where(alloc, &mut text, rule)?;
    push_lookup(alloc, &mut text, rule)?;
    push_action(alloc, &mut text, rule)?;
    push_installer(&mut text, rule.view().u8(FRA_PROTOCOL))?;
    Ok(text)
}

/// Appends the verb, the priority, `not`, the source, the destination, the type of service and the
/// mark.
#[tactic(auto, unfolding(crate::specs::Rule::rule_front), using(netlink_words::specs::Joined::with_parts_append))]
fn push_front(
    alloc: Global,
    text: &mut String,
    rule: &MessageView<'_, Rules>,
) -> Result<(), AllocError>
    ensures { OnOk result
        (AddsParts text.old text.new (rule_front rule.now.message_type rule.now.payload.now)) }
{
    push_heading(alloc, text, rule)?;
    push_source(alloc, text, rule)?;
    push_destination(alloc, text, rule)?;
    push_marks(alloc, text, rule)
}

/// Appends the verb, the priority and `not`.
#[tactic(auto, unfolding(crate::specs::Rule::rule_heading))]
fn push_heading(
    alloc: Global,
    text: &mut String,
    rule: &MessageView<'_, Rules>,
) -> Result<(), AllocError>
    ensures { OnOk result
        (AddsParts text.old text.new (rule_heading rule.now.message_type rule.now.payload.now)) }
{
    push_when(text, rule.message_type == RTM_DELRULE, "Deleted")?;
    push_when(text, rule.message_type == RTM_GETRULE, "Get")?;
    let priority = or_zero(rule.view().u32(FRA_PRIORITY));
    push_part(text, format!(in alloc; "{priority}:")?.as_str())?;
    let flags = rule.header().u32(FRH_FLAGS);
    push_when(text, flags & FIB_RULE_INVERT != 0, "not")
}

/// Appends the source; `all` if there is none.
#[tactic(auto, unfolding(crate::specs::Rule::source_part))]
fn push_source(
    alloc: Global,
    text: &mut String,
    rule: &MessageView<'_, Rules>,
) -> Result<(), AllocError>
    ensures { OnOk result (AddsPart text.old text.new (source_part rule.now.payload.now)) }
{
    let whole = host_length(rule.header().u8(FRH_FAMILY));
    let length = rule.header().u8(FRH_SRC_LEN);
    let from = prefix_text(alloc, or_empty(rule.view().bytes(FRA_SRC)), length, whole)?;
    push_keyed(text, "from", word_or_all(from.as_str()))
}

/// Appends the destination, if there is one.
#[tactic(auto, unfolding(crate::specs::Rule::destination_part))]
fn push_destination(
    alloc: Global,
    text: &mut String,
    rule: &MessageView<'_, Rules>,
) -> Result<(), AllocError>
    ensures { OnOk result (AddsPart text.old text.new (destination_part rule.now.payload.now)) }
{
    let whole = host_length(rule.header().u8(FRH_FAMILY));
    let length = destination_length(rule);
    let to = prefix_text(alloc, or_empty(rule.view().bytes(FRA_DST)), length, whole)?;
    push_keyed(text, "to", to.as_str())
}

/// Returns the length of the prefix of the destination in bits.
pub fn destination_length(rule: &MessageView<'_, Rules>) -> u8
    ensures { result ≡ rule_byte rule.now.payload.now 1 }
{
    rule.header().u8(FRH_DST_LEN)
}

/// Appends the type of service and the mark.
#[tactic(auto, unfolding(crate::specs::Rule::rule_marks))]
fn push_marks(
    alloc: Global,
    text: &mut String,
    rule: &MessageView<'_, Rules>,
) -> Result<(), AllocError>
    ensures { OnOk result (AddsParts text.old text.new (rule_marks rule.now.payload.now)) }
{
    push_tos(alloc, text, rule.header().u8(FRH_TOS))?;
    let mask = rule.view().u32(FRA_FWMASK);
    push_mark(alloc, text, rule.view().u32(FRA_FWMARK), mask)
}

/// Returns a word, or `all` if it is empty.
#[tactic(auto, unfolding(crate::specs::Rule::word_or_all))]
pub fn word_or_all<'a>(word: &'a str) -> &'a str
    ensures { result.now ≡ word_or_all word.now }
{
    if word.is_empty() {
        return "all";
    }
    word
}

/// Appends the mark and, unless it is all ones, its mask, if there is one of the two.
#[tactic(auto, unfolding(crate::specs::Rule::mark_part, netlink_words::specs::Parts::with_part))]
fn push_mark(
    alloc: Global,
    text: &mut String,
    mark: Option<u32>,
    mask: Option<u32>,
) -> Result<(), AllocError>
    ensures { OnOk result (AddsPart text.old text.new (mark_part mark mask)) }
{
    if mark.is_none() && mask.is_none() {
        return Ok(());
    }
    let value = hex_text(alloc, or_zero(mark))?;
    match mask {
        None => push_keyed(text, "fwmark", value.as_str()),
        Some(mask) => {
            if mask == u32::MAX {
                return push_keyed(text, "fwmark", value.as_str());
            }
            let mask = hex_text(alloc, mask)?;
            push_part(text, format!(in alloc; "fwmark {value}/{mask}")?.as_str())
        }
    }
}

/// Appends the links, the users, the protocol, the ports and the tunnel that a rule matches.
#[tactic(auto, unfolding(crate::specs::Rule::rule_where), using(netlink_words::specs::Joined::with_parts_append))]
fn push_where(
    alloc: Global,
    text: &mut String,
    rule: &MessageView<'_, Rules>,
) -> Result<(), AllocError>
    ensures { OnOk result (AddsParts text.old text.new (rule_where rule.now.payload.now)) }
{
    push_links(alloc, text, rule)?;
    push_ranges(alloc, text, rule)?;
    push_tunnel(alloc, text, rule.view().be64(FRA_TUN_ID))
}

/// Appends the links, and whether the table is that of their master.
#[tactic(auto, unfolding(crate::specs::Rule::rule_links))]
fn push_links(
    alloc: Global,
    text: &mut String,
    rule: &MessageView<'_, Rules>,
) -> Result<(), AllocError>
    ensures { OnOk result (AddsParts text.old text.new (rule_links rule.now.payload.now)) }
{
    push_iif(alloc, text, rule)?;
    push_oif(alloc, text, rule)?;
    let is_own = is_set(rule.view().u8(FRA_L3MDEV));
    push_when(text, is_own, "lookup [l3mdev-table]")
}

/// Appends the incoming link.
#[tactic(auto, unfolding(crate::specs::Rule::iif_part))]
fn push_iif(
    alloc: Global,
    text: &mut String,
    rule: &MessageView<'_, Rules>,
) -> Result<(), AllocError>
    ensures { OnOk result (AddsPart text.old text.new (iif_part rule.now.payload.now)) }
{
    let is_gone = rule.header().u32(FRH_FLAGS) & FIB_RULE_IIF_DETACHED != 0;
    push_link(alloc, text, "iif", iif_of(rule), is_gone)
}

/// Appends the outgoing link.
#[tactic(auto, unfolding(crate::specs::Rule::oif_part))]
fn push_oif(
    alloc: Global,
    text: &mut String,
    rule: &MessageView<'_, Rules>,
) -> Result<(), AllocError>
    ensures { OnOk result (AddsPart text.old text.new (oif_part rule.now.payload.now)) }
{
    let is_gone = rule.header().u32(FRH_FLAGS) & FIB_RULE_OIF_DETACHED != 0;
    push_link(alloc, text, "oif", oif_of(rule), is_gone)
}

/// Returns the name of the incoming link.
#[tactic(auto, unfolding(crate::specs::Rule::rule_name))]
pub fn iif_of<'a>(rule: &MessageView<'a, Rules>) -> Option<&'a [u8]>
    ensures { option_copied result ≡ rule_name rule.now.payload.now FRA_IIFNAME }
{
    rule.view().str_bytes(FRA_IIFNAME)
}

/// Returns the name of the outgoing link.
#[tactic(auto, unfolding(crate::specs::Rule::rule_name))]
pub fn oif_of<'a>(rule: &MessageView<'a, Rules>) -> Option<&'a [u8]>
    ensures { option_copied result ≡ rule_name rule.now.payload.now FRA_OIFNAME }
{
    rule.view().str_bytes(FRA_OIFNAME)
}

/// Returns whether there is a number other than 0.
fn is_set(number: Option<u8>) -> bool
    ensures { result ≡ is_set number }
{
    match number {
        Some(number) => number != 0,
        None => false,
    }
}

/// Appends the users, the protocol and the ports.
#[tactic(auto, unfolding(crate::specs::Rule::rule_ranges))]
fn push_ranges(
    alloc: Global,
    text: &mut String,
    rule: &MessageView<'_, Rules>,
) -> Result<(), AllocError>
    ensures { OnOk result (AddsParts text.old text.new (rule_ranges rule.now.payload.now)) }
{
    push_users(alloc, text, or_empty(rule.view().bytes(FRA_UID_RANGE)))?;
    push_ip_protocol(alloc, text, rule.view().u8(FRA_IP_PROTO))?;
    let source = or_empty(rule.view().bytes(FRA_SPORT_RANGE));
    push_ports(alloc, text, "sport", source)?;
    let destination = or_empty(rule.view().bytes(FRA_DPORT_RANGE));
    push_ports(alloc, text, "dport", destination)
}

/// Appends an IP protocol, if there is one.
#[tactic(auto, unfolding(crate::specs::Rule::ip_protocol_part, netlink_words::specs::Parts::with_part))]
fn push_ip_protocol(alloc: Global, text: &mut String, number: Option<u8>) -> Result<(), AllocError>
    ensures { OnOk result (AddsPart text.old text.new (ip_protocol_part number)) }
{
    match number {
        Some(number) => push_protocol_words(alloc, text, number, ip_protocol_name(number)),
        None => Ok(()),
    }
}

/// Appends an IP protocol by its name, or by its number if the name is empty.
#[tactic(auto, unfolding(crate::specs::Rule::protocol_words, netlink_words::specs::Parts::with_part))]
fn push_protocol_words(
    alloc: Global,
    text: &mut String,
    number: u8,
    name: &str,
) -> Result<(), AllocError>
    ensures { OnOk result (AddsPart text.old text.new (protocol_words number name.now)) }
{
    if name.is_empty() {
        return push_part(
            text,
            format!(in alloc; "ipproto ipproto-{number}")?.as_str(),
        );
    }
    push_keyed(text, "ipproto", name)
}

/// Appends the id of a tunnel.
#[tactic(auto, unfolding(crate::specs::Rule::tunnel_part, netlink_words::specs::Parts::with_part))]
fn push_tunnel(alloc: Global, text: &mut String, id: Option<u64>) -> Result<(), AllocError>
    ensures { OnOk result (AddsPart text.old text.new (tunnel_part id)) }
{
    match id {
        Some(id) => push_part(text, format!(in alloc; "tun_id {id}")?.as_str()),
        None => Ok(()),
    }
}
