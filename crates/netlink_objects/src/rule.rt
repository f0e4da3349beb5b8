//! The object of a rule.

ghost use Rattle.std.specs.Prelude.{◌≡◌, IfOk, OnOk, string_bytes};
ghost use Rattle.std.specs.Option.{option_copied};
ghost use Rattle.netlink_json.specs.Fields.{Adds, AddsAll, AddsParts};
ghost use Rattle.netlink_objects.specs.Rows.{rows_in};
ghost use Rattle.netlink_objects.specs.Rule.{destination_fields, dport_fields, iif_fields, installer_rows, ip_protocol_field, length_unless, link_fields, mark_fields, mask_field, oif_fields, prefix_length, prefix_word, protocol_word, range_fields, rule_heading, rule_parts, source_fields, sport_fields, tos_fields, tunnel_field, where_rows};

use crate::form::{Form, put_null, put_number, put_true, put_word};
use crate::row::{Place, Row, put_rows, source_of};
use crate::rule_ends::{put_action, put_flow, put_lookup};
use crate::word::tos_word;
use netlink_family::MessageView;
use netlink_json::Object;
use netlink_names::name_table::Names;
use netlink_packet_core::u16_at;
use netlink_route::Rules;
use netlink_route::rules::{
    FRA_DPORT_RANGE, FRA_DST, FRA_FWMARK, FRA_FWMASK, FRA_IP_PROTO, FRA_L3MDEV, FRA_PRIORITY,
    FRA_PROTOCOL, FRA_SPORT_RANGE, FRA_SRC, FRA_TUN_ID, FRA_UID_RANGE, FRH_FAMILY, FRH_FLAGS,
    FRH_SRC_LEN, FRH_TOS, RTM_DELRULE,
};
use netlink_route_lines::ip_protocols::ip_protocol_name;
use netlink_route_lines::rule::{
    FIB_RULE_IIF_DETACHED, FIB_RULE_INVERT, FIB_RULE_OIF_DETACHED, destination_length, iif_of,
    oif_of, word_or_all,
};
use netlink_words::parts::{hex_text, host_length, or_empty, or_zero};
use netlink_words::text::ip_words;
use std::alloc::{AllocError, Global};

/// Whether the table is that of the links' master, and the users.
const WHERE_ROWS: [Row; 3] = [
    ("l3mdev", Place::Attribute(FRA_L3MDEV), Form::NullIf(0xff)),
    (
        "uid_start",
        Place::Inside(FRA_UID_RANGE, 0, 4),
        Form::Number,
    ),
    ("uid_end", Place::Inside(FRA_UID_RANGE, 4, 4), Form::Number),
];

/// Who installed a rule, unless that is nobody or the kernel.
const INSTALLER_ROWS: [Row; 1] = [(
    "protocol",
    Place::Attribute(FRA_PROTOCOL),
    Form::Protocol(0, 2),
)];

/// Returns the rows of the links' master and the users.
fn where_rows() -> &'static [Row]
    ensures { rows_in result.now ≡ where_rows }
{
    &WHERE_ROWS
}

/// Returns the row of who installed a rule.
fn installer_rows() -> &'static [Row]
    ensures { rows_in result.now ≡ installer_rows }
{
    &INSTALLER_ROWS
}

/// Appends the members of a message about a rule, with the keys of `ip -j rule` and in its order: the
/// priority, what the rule matches, and what it does. Returns `AllocError` if an allocation
/// fails.
#[tactic(auto, unfolding(crate::specs::Rule::rule_parts))]
pub fn put_rule(
    alloc: Global,
    object: &mut Object,
    rule: &MessageView<'_, Rules>,
) -> Result<(), AllocError>
    ensures parts { OnOk result (AddsParts object.old object.new
        (rule_parts rule.now.message_type rule.now.payload.now)) }
{
    let none = Names::of(&[]);
    let mask = rule.view().u32(FRA_FWMASK);
    put_heading(object, rule)?;
    put_source(alloc, object, rule)?;
    put_destination(alloc, object, rule)?;
    put_tos(alloc, object, rule)?;
    put_mark(alloc, object, rule.view().u32(FRA_FWMARK), mask)?;
    put_iif(alloc, object, rule)?;
    put_oif(alloc, object, rule)?;
    put_rows(alloc, object, &none, &source_of(rule), where_rows())?;
    put_ip_protocol(alloc, object, rule.view().u8(FRA_IP_PROTO))?;
    put_sport(object, rule)?;
    put_dport(object, rule)?;
    put_tunnel(object, rule)?;
    put_lookup(alloc, object, rule)?;
    put_flow(alloc, object, rule)?;
    put_action(alloc, object, rule)?;
    put_rows(alloc, object, &none, &source_of(rule), installer_rows())
}

/// Appends whether it is gone, the priority and `not`.
#[tactic(auto, unfolding(crate::specs::Rule::rule_heading))]
fn put_heading(object: &mut Object, rule: &MessageView<'_, Rules>) -> Result<(), AllocError>
    ensures { OnOk result (AddsAll object.old object.new
        (rule_heading rule.now.message_type rule.now.payload.now)) }
{
    put_true(object, "deleted", rule.message_type == RTM_DELRULE)?;
    let priority = or_zero(rule.view().u32(FRA_PRIORITY));
    object.put_number("priority", priority as u64)?;
    let flags = rule.header().u32(FRH_FLAGS);
    put_null(object, "not", flags & FIB_RULE_INVERT != 0)
}

/// Appends the source; `all` if there is none.
#[tactic(auto, unfolding(crate::specs::Rule::source_fields))]
fn put_source(
    alloc: Global,
    object: &mut Object,
    rule: &MessageView<'_, Rules>,
) -> Result<(), AllocError>
    ensures { OnOk result (AddsAll object.old object.new (source_fields rule.now.payload.now)) }
{
    let whole = host_length(rule.header().u8(FRH_FAMILY));
    let size = rule.header().u8(FRH_SRC_LEN);
    let ip = ip_words(alloc, or_empty(rule.view().bytes(FRA_SRC)))?;
    put_word(
        alloc,
        object,
        "src",
        word_or_all(prefix_word(ip.as_str(), size)),
    )?;
    put_number(object, "srclen", prefix_length(ip.as_str(), size, whole))
}

/// Appends the destination, if there is one.
#[tactic(auto, unfolding(crate::specs::Rule::destination_fields))]
fn put_destination(
    alloc: Global,
    object: &mut Object,
    rule: &MessageView<'_, Rules>,
) -> Result<(), AllocError>
    ensures { OnOk result (AddsAll object.old object.new (destination_fields rule.now.payload.now)) }
{
    let whole = host_length(rule.header().u8(FRH_FAMILY));
    let size = destination_length(rule);
    let ip = ip_words(alloc, or_empty(rule.view().bytes(FRA_DST)))?;
    put_word(alloc, object, "dst", prefix_word(ip.as_str(), size))?;
    put_number(object, "dstlen", prefix_length(ip.as_str(), size, whole))
}

/// Returns an address; without one `0`, or nothing if the length of the prefix is 0.
#[tactic(auto, unfolding(crate::specs::Rule::prefix_word))]
fn prefix_word<'a>(ip: &'a str, size: u8) -> &'a str
    ensures { result.now ≡ prefix_word ip.now size }
{
    if ip.is_empty() {
        if size == 0 {
            return "";
        }
        return "0";
    }
    ip
}

/// Returns the length of a prefix, unless it is that of a whole address, or 0 without an address.
#[tactic(auto, unfolding(crate::specs::Rule::prefix_length))]
fn prefix_length(ip: &str, size: u8, whole: u8) -> Option<u64>
    ensures { result ≡ prefix_length ip.now size whole }
{
    if ip.is_empty() {
        return length_unless(0, size);
    }
    length_unless(whole, size)
}

/// Returns a length, unless it is the other one.
fn length_unless(other: u8, size: u8) -> Option<u64>
    ensures { result ≡ length_unless other size }
{
    if size == other {
        return None;
    }
    Some(size as u64)
}

/// Appends the type of service.
#[tactic(auto, unfolding(crate::specs::Rule::tos_fields))]
fn put_tos(
    alloc: Global,
    object: &mut Object,
    rule: &MessageView<'_, Rules>,
) -> Result<(), AllocError>
    ensures { OnOk result (AddsAll object.old object.new (tos_fields rule.now.payload.now)) }
{
    let word = tos_word(alloc, rule.header().u8(FRH_TOS))?;
    put_word(alloc, object, "tos", word.as_str())
}

/// Appends the mark and, unless it is all ones, its mask, if there is one of the two.
#[tactic(auto, unfolding(crate::specs::Rule::mark_fields))]
fn put_mark(
    alloc: Global,
    object: &mut Object,
    mark: Option<u32>,
    mask: Option<u32>,
) -> Result<(), AllocError>
    ensures { OnOk result (AddsAll object.old object.new (mark_fields mark mask)) }
{
    if mark.is_none() && mask.is_none() {
        return Ok(());
    }
    let value = hex_text(alloc, or_zero(mark))?;
    object.put_text(alloc, "fwmark", value.as_bytes())?;
    put_mask(alloc, object, mask)
}

/// Appends the mask of a mark, unless it is all ones.
#[tactic(auto, unfolding(crate::specs::Rule::mask_field, netlink_json::specs::Fields::with_field))]
fn put_mask(alloc: Global, object: &mut Object, mask: Option<u32>) -> Result<(), AllocError>
    ensures { OnOk result (Adds object.old object.new (mask_field mask)) }
{
    match mask {
        None => Ok(()),
        Some(mask) => {
            if mask == u32::MAX {
                return Ok(());
            }
            let value = hex_text(alloc, mask)?;
            object.put_text(alloc, "fwmask", value.as_bytes())
        }
    }
}

/// Appends the incoming link.
#[tactic(auto, unfolding(crate::specs::Rule::iif_fields))]
fn put_iif(
    alloc: Global,
    object: &mut Object,
    rule: &MessageView<'_, Rules>,
) -> Result<(), AllocError>
    ensures { OnOk result (AddsAll object.old object.new (iif_fields rule.now.payload.now)) }
{
    let is_gone = rule.header().u32(FRH_FLAGS) & FIB_RULE_IIF_DETACHED != 0;
    put_link(alloc, object, "iif", "iif_detached", iif_of(rule), is_gone)
}

/// Appends the outgoing link.
#[tactic(auto, unfolding(crate::specs::Rule::oif_fields))]
fn put_oif(
    alloc: Global,
    object: &mut Object,
    rule: &MessageView<'_, Rules>,
) -> Result<(), AllocError>
    ensures { OnOk result (AddsAll object.old object.new (oif_fields rule.now.payload.now)) }
{
    let is_gone = rule.header().u32(FRH_FLAGS) & FIB_RULE_OIF_DETACHED != 0;
    put_link(alloc, object, "oif", "oif_detached", oif_of(rule), is_gone)
}

/// Appends the name of a link, and whether there is no such link.
#[tactic(auto, unfolding(crate::specs::Rule::link_fields))]
fn put_link(
    alloc: Global,
    object: &mut Object,
    key: &str,
    gone_key: &str,
    name: Option<&[u8]>,
    is_gone: bool,
) -> Result<(), AllocError>
    ensures { OnOk result (AddsAll object.old object.new
        (link_fields key.now gone_key.now (option_copied name.entry) is_gone)) }
{
    match name {
        None => Ok(()),
        Some(name) => {
            object.put_text(alloc, key, name)?;
            put_null(object, gone_key, is_gone)
        }
    }
}

/// Appends an IP protocol, if there is one.
#[tactic(auto, unfolding(crate::specs::Rule::ip_protocol_field, netlink_json::specs::Fields::with_field))]
fn put_ip_protocol(alloc: Global, object: &mut Object, number: Option<u8>) -> Result<(), AllocError>
    ensures { OnOk result (Adds object.old object.new (ip_protocol_field number)) }
{
    match number {
        None => Ok(()),
        Some(number) => {
            let word = protocol_word(alloc, number, ip_protocol_name(number))?;
            object.put_text(alloc, "ipproto", word.as_bytes())
        }
    }
}

/// Returns the name of an IP protocol, or a word with its number if the name is empty.
#[tactic(auto, unfolding(crate::specs::Rule::protocol_word))]
fn protocol_word(alloc: Global, number: u8, name: &str) -> Result<String, AllocError>
    ensures { IfOk result (λ text. string_bytes text ≡ protocol_word number name.now) }
{
    if name.is_empty() {
        return format!(in alloc; "ipproto-{number}");
    }
    String::from_str(alloc, name)
}

/// Appends the source ports.
#[tactic(auto, unfolding(crate::specs::Rule::sport_fields))]
fn put_sport(object: &mut Object, rule: &MessageView<'_, Rules>) -> Result<(), AllocError>
    ensures { OnOk result (AddsAll object.old object.new (sport_fields rule.now.payload.now)) }
{
    let range = or_empty(rule.view().bytes(FRA_SPORT_RANGE));
    put_range(object, "sport", "sport_start", "sport_end", range)
}

/// Appends the destination ports.
#[tactic(auto, unfolding(crate::specs::Rule::dport_fields))]
fn put_dport(object: &mut Object, rule: &MessageView<'_, Rules>) -> Result<(), AllocError>
    ensures { OnOk result (AddsAll object.old object.new (dport_fields rule.now.payload.now)) }
{
    let range = or_empty(rule.view().bytes(FRA_DPORT_RANGE));
    put_range(object, "dport", "dport_start", "dport_end", range)
}

/// Appends the first and the last port of a range, of 4 bytes or none; a range of one port is that
/// port, with a key of its own.
#[tactic(auto, unfolding(crate::specs::Rule::range_fields))]
fn put_range(
    object: &mut Object,
    key: &str,
    first_key: &str,
    last_key: &str,
    range: &[u8],
) -> Result<(), AllocError>
    ensures { OnOk result (AddsAll object.old object.new
        (range_fields key.now first_key.now last_key.now range.now)) }
{
    if range.len() < 4 {
        return Ok(());
    }
    let first = u16_at(range, 0);
    let last = u16_at(range, 2);
    if first == last {
        return object.put_number(key, first as u64);
    }
    object.put_number(first_key, first as u64)?;
    object.put_number(last_key, last as u64)
}

/// Appends the id of a tunnel.
#[tactic(auto, unfolding(crate::specs::Rule::tunnel_field))]
fn put_tunnel(object: &mut Object, rule: &MessageView<'_, Rules>) -> Result<(), AllocError>
    ensures { OnOk result (Adds object.old object.new (tunnel_field rule.now.payload.now)) }
{
    put_number(object, "tun_id", rule.view().be64(FRA_TUN_ID))
}
