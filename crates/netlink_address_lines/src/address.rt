//! The line of an address.

ghost use Rattle.std.specs.Prelude.{◌≡◌, IfOk, OnOk, codes, string_bytes};
ghost use Rattle.std.specs.Option.{option_copied};
ghost use Rattle.netlink_route.specs.declared.addresses.TheConstants.{IFA_ADDRESS, IFA_ANYCAST, IFA_BROADCAST, IFA_LOCAL};
ghost use Rattle.netlink_address_lines.specs.Address.{address_flags, address_front, address_ip, address_line, label_part, metric_part, or_byte, own_text, peer_words, place_parts};
ghost use Rattle.netlink_words.specs.NumberNames.{address_verb_text, scope_text};
ghost use Rattle.netlink_words.specs.Text.{name_text};
ghost use Rattle.netlink_words.specs.Parts.{AddsPart, AddsParts, keyed, or_empty};

use crate::address_flags::{push_flags, push_lifetimes};
use netlink_family::MessageView;
use netlink_names::device::{Known, device_name};
use netlink_names::name_table::Names;
use netlink_route::Addresses;
use netlink_route::addresses::{
    IFA_ADDRESS, IFA_ANYCAST, IFA_BROADCAST, IFA_CACHEINFO, IFA_FAMILY, IFA_FLAGS, IFA_INDEX,
    IFA_LABEL, IFA_LOCAL, IFA_LOW_FLAGS, IFA_PREFIXLEN, IFA_RT_PRIORITY, IFA_SCOPE, RTM_DELADDR,
    RTM_GETADDR,
};
use netlink_words::number_names::{family_text, push_scope};
use netlink_words::parts::{or_empty, push_address, push_key, push_number, push_part, push_space};
use netlink_words::text::{ip_words, push_name};
use std::alloc::{AllocError, Global};

/// More bytes than the lines of most addresses have, so that a line does not grow step by step.
const USUAL: usize = 192;

/// Returns the line of a message about an address, as `ip -o addr` prints it, with one space
/// between its parts: the verb, the index and the name of the link, the family, the link's own
/// address, the peer's address if it is another one, the length of the prefix, the metric, the
/// broadcast and the anycast address, the scope, the flags, the label and the lifetimes. Parts
/// without an attribute are left out. A known link is printed by its name, and another one as `if` and its index.
pub fn address_text(
    alloc: Global,
    known: &[Known],
    address: &MessageView<'_, Addresses>,
) -> Result<String, AllocError>
    ensures line { IfOk result (λ text. string_bytes text
        ≡ address_line known.now address.now.message_type address.now.payload.now) }
{
    address_line(alloc, &Names::of(known), address)
}

/// Returns the line of a message about an address, as `address_text` does.
#[tactic(auto, unfolding(crate::specs::Address::address_line))]
pub fn address_line(
    alloc: Global,
    known: &Names<'_>,
    address: &MessageView<'_, Addresses>,
) -> Result<String, AllocError>
    ensures { IfOk result (λ text. string_bytes text
        ≡ address_line known.now address.now.message_type address.now.payload.now) }
{
    let mut text = front_text(alloc, known, address)?;
    push_places(alloc, &mut text, address)?;
    let flags = flags_of(address);
    push_flags(alloc, &mut text, address.header().u8(IFA_FAMILY), flags)?;
    push_label(&mut text, address.view().str_bytes(IFA_LABEL))?;
    push_lifetimes(alloc, &mut text, flags, address.view().bytes(IFA_CACHEINFO))?;
    text.push_str("\n")?;
    Ok(text)
}

/// Returns the verb, the index and the name of the link, and the family.
#[tactic(auto, unfolding(crate::specs::Address::address_front))]
fn front_text(
    alloc: Global,
    known: &Names<'_>,
    address: &MessageView<'_, Addresses>,
) -> Result<String, AllocError>
    ensures { IfOk result (λ text. string_bytes text
        ≡ address_front known.now address.now.message_type address.now.payload.now) }
{
    let verb = verb_text(address.message_type);
    let index = address.header().u32(IFA_INDEX);
    let name = device_name(alloc, known, index)?;
    let family = family_text(alloc, address.header().u8(IFA_FAMILY))?;
    let mut text = String::with_capacity(alloc, USUAL)?;
    write!(text, "{verb}{index}: {name} {family}")?;
    Ok(text)
}

/// Appends the addresses, the length of the prefix, the metric and the scope.
#[tactic(auto, unfolding(crate::specs::Address::place_parts))]
fn push_places(
    alloc: Global,
    text: &mut String,
    address: &MessageView<'_, Addresses>,
) -> Result<(), AllocError>
    ensures { OnOk result (AddsParts text.old text.new (place_parts address.now.payload.now)) }
{
    let prefix = address.header().u8(IFA_PREFIXLEN);
    let own = own_text(alloc, local_ip(address), far_ip(address), prefix)?;
    push_part(text, own.as_str())?;
    push_metric(text, own.as_str(), address.view().u32(IFA_RT_PRIORITY))?;
    push_address(alloc, text, "brd", broadcast_ip(address))?;
    push_address(alloc, text, "any", anycast_ip(address))?;
    push_scope_part(text, address.header().u8(IFA_SCOPE))
}

/// Appends the scope.
#[tactic(auto, using(netlink_words::specs::Pieces::scope_more))]
fn push_scope_part(text: &mut String, scope: u8) -> Result<(), AllocError>
    ensures { OnOk result (AddsPart text.old text.new (keyed (codes "scope") (scope_text scope))) }
{
    push_key(text, "scope")?;
    push_scope(text, scope)
}

/// Appends the label.
#[tactic(auto, unfolding(netlink_words::specs::Parts::with_part))]
fn push_label(text: &mut String, label: Option<&[u8]>) -> Result<(), AllocError>
    ensures { OnOk result (AddsPart text.old text.new (label_part (option_copied label.entry))) }
{
    match label {
        Some(label) => push_bare(text, label),
        None => Ok(()),
    }
}

/// Appends a name without a key, unless it is empty.
#[tactic(auto, using(netlink_words::specs::Pieces::label_more), unfolding(netlink_words::specs::Parts::with_part, netlink_words::specs::Text::printable_text))]
fn push_bare(text: &mut String, name: &[u8]) -> Result<(), AllocError>
    ensures { OnOk result (AddsPart text.old text.new (name_text name.now)) }
{
    if name.is_empty() {
        return Ok(());
    }
    push_space(text)?;
    push_name(text, name)
}

/// Appends the metric, unless the text of the address is empty.
#[tactic(auto, unfolding(crate::specs::Address::metric_part, netlink_words::specs::Parts::with_part))]
fn push_metric(text: &mut String, own: &str, metric: Option<u32>) -> Result<(), AllocError>
    ensures { OnOk result (AddsPart text.old text.new (metric_part own.now metric)) }
{
    if own.is_empty() {
        return Ok(());
    }
    push_number(text, "metric", metric)
}

/// Returns the verb of a message type.
fn verb_text(message_type: u16) -> &'static str
    ensures { result.now ≡ address_verb_text message_type }
{
    match message_type {
        RTM_DELADDR => "Deleted ",
        RTM_GETADDR => "Get ",
        _ => "",
    }
}

/// Returns the link's own address; empty if there is none.
fn local_ip<'a>(address: &MessageView<'a, Addresses>) -> &'a [u8]
    ensures { result.now ≡ address_ip address.now.payload.now IFA_LOCAL }
{
    or_empty(address.view().ip(IFA_LOCAL))
}

/// Returns the address of the prefix, or the peer's; empty if there is none.
fn far_ip<'a>(address: &MessageView<'a, Addresses>) -> &'a [u8]
    ensures { result.now ≡ address_ip address.now.payload.now IFA_ADDRESS }
{
    or_empty(address.view().ip(IFA_ADDRESS))
}

/// Returns the broadcast address; empty if there is none.
fn broadcast_ip<'a>(address: &MessageView<'a, Addresses>) -> &'a [u8]
    ensures { result.now ≡ address_ip address.now.payload.now IFA_BROADCAST }
{
    or_empty(address.view().ip(IFA_BROADCAST))
}

/// Returns the anycast address; empty if there is none.
fn anycast_ip<'a>(address: &MessageView<'a, Addresses>) -> &'a [u8]
    ensures { result.now ≡ address_ip address.now.payload.now IFA_ANYCAST }
{
    or_empty(address.view().ip(IFA_ANYCAST))
}

/// Returns the flags: those of the attribute, or those of the header if there is none.
fn flags_of(address: &MessageView<'_, Addresses>) -> u32
    ensures { result ≡ address_flags address.now.payload.now }
{
    or_byte(
        address.view().u32(IFA_FLAGS),
        address.header().u8(IFA_LOW_FLAGS),
    )
}

/// Returns a number, or a byte if there is none.
fn or_byte(number: Option<u32>, byte: u8) -> u32
    ensures { result ≡ or_byte number byte }
{
    match number {
        Some(number) => number,
        None => byte as u32,
    }
}

/// Returns the link's own address, the peer's address, and the length of the prefix in bits.
fn own_text(alloc: Global, local: &[u8], far: &[u8], prefix: u8) -> Result<String, AllocError>
    ensures { IfOk result (λ text. string_bytes text ≡ own_text local.now far.now prefix) }
{
    if far.is_empty() && local.is_empty() {
        return Ok(String::new(alloc));
    }
    if local.is_empty() {
        let own = ip_words(alloc, far)?;
        return format!(in alloc; "{own}/{prefix}");
    }
    let own = ip_words(alloc, local)?;
    let peer = peer_words(alloc, local, far)?;
    format!(in alloc; "{own}{peer}/{prefix}")
}

/// Returns the peer's address, if it is another one.
fn peer_words(alloc: Global, local: &[u8], far: &[u8]) -> Result<String, AllocError>
    ensures { IfOk result (λ text. string_bytes text ≡ peer_words local.now far.now) }
{
    if far.is_empty() || far == local {
        return Ok(String::new(alloc));
    }
    let peer = ip_words(alloc, far)?;
    format!(in alloc; " peer {peer}")
}
