//! The type of a device and its addresses.

ghost use Rattle.std.specs.Prelude.{◌≡◌, ◌++◌, OnOk, codes};
ghost use Rattle.netlink_link_lines.specs.LinkAddress.{broadcast_key, hardware_parts, ip_size, link_address, link_own, permanent_part};
ghost use Rattle.netlink_link_lines.specs.Hardware.{hardware_text};
ghost use Rattle.netlink_words.specs.Parts.{AddsPart, AddsParts, keyed};
ghost use Rattle.netlink_route.specs.declared.links.TheConstants.{IFLA_ADDRESS, IFLA_BROADCAST, IFLA_PERM_ADDRESS};

use crate::hardware::push_type;
use netlink_family::MessageIndex;
use netlink_route::Links;
use netlink_route::links::{IFI_FLAGS, IFI_TYPE, IFLA_ADDRESS, IFLA_BROADCAST, IFLA_PERM_ADDRESS};
use netlink_words::parts::{or_empty, push_address, push_hardware, push_ip, push_part, push_space};
use netlink_words::text::push_colons;
use std::alloc::{AllocError, Global};

const IFF_POINTOPOINT: u32 = 0x10;

/// Appends the type of the device, its address, the broadcast address or that of the peer, and the
/// permanent address if it is another one.
#[tactic(auto, unfolding(crate::specs::LinkAddress::hardware_parts))]
pub(crate) fn push_hardware_parts(
    alloc: Global,
    text: &mut String,
    link: &MessageIndex<'_, Links>,
) -> Result<(), AllocError>
    ensures { OnOk result (AddsParts text.old text.new (hardware_parts link.now.message.payload.now)) }
{
    let layer = link.header().u16(IFI_TYPE);
    push_layer(text, layer)?;
    push_own(alloc, text, layer, own_of(link))?;
    let key = broadcast_key(link.header().u32(IFI_FLAGS));
    push_keyed_address(alloc, text, layer, key, broadcast_of(link))?;
    push_permanent(alloc, text, layer, own_of(link), permanent_of(link))
}

/// Appends the type of the device.
#[tactic(auto, using(netlink_words::specs::Pieces::part_more), unfolding(netlink_words::specs::Parts::with_part))]
fn push_layer(text: &mut String, layer: u16) -> Result<(), AllocError>
    ensures { OnOk result (AddsPart text.old text.new (codes "link/" ++ hardware_text layer)) }
{
    push_part(text, "link/")?;
    push_type(text, layer)
}

/// Returns the address of the device; empty if there is none.
pub fn own_of<'a>(link: &MessageIndex<'a, Links>) -> &'a [u8]
    ensures { result.now ≡ link_own link.now.message.payload.now IFLA_ADDRESS }
{
    or_empty(link.index().bytes(IFLA_ADDRESS))
}

/// Returns the broadcast address, or that of the peer; empty if there is none.
pub fn broadcast_of<'a>(link: &MessageIndex<'a, Links>) -> &'a [u8]
    ensures { result.now ≡ link_own link.now.message.payload.now IFLA_BROADCAST }
{
    or_empty(link.index().bytes(IFLA_BROADCAST))
}

/// Returns the permanent address; empty if there is none.
pub fn permanent_of<'a>(link: &MessageIndex<'a, Links>) -> &'a [u8]
    ensures { result.now ≡ link_own link.now.message.payload.now IFLA_PERM_ADDRESS }
{
    or_empty(link.index().bytes(IFLA_PERM_ADDRESS))
}

/// Returns the key before the broadcast address, which is that of the peer if a link has one.
fn broadcast_key(flags: u32) -> &'static str
    ensures { result.now ≡ broadcast_key flags }
{
    if flags & IFF_POINTOPOINT == 0 {
        "brd"
    } else {
        "peer"
    }
}

/// Appends the address of a device: that of a tunnel as an IP address, and any other in hexadecimal.
#[tactic(auto, using(netlink_words::specs::Pieces::bytes_part), unfolding(crate::specs::LinkAddress::link_address))]
pub fn push_own(
    alloc: Global,
    text: &mut String,
    layer: u16,
    bytes: &[u8],
) -> Result<(), AllocError>
    ensures { OnOk result (AddsPart text.old text.new (link_address layer bytes.now)) }
{
    if bytes.len() == ip_size(layer) {
        return push_ip(alloc, text, bytes);
    }
    if bytes.is_empty() {
        return Ok(());
    }
    push_space(text)?;
    push_colons(text, bytes)
}

/// Appends a key and an address of a device in the same form, unless the address is empty.
#[tactic(auto, unfolding(crate::specs::LinkAddress::link_address))]
fn push_keyed_address(
    alloc: Global,
    text: &mut String,
    layer: u16,
    key: &str,
    bytes: &[u8],
) -> Result<(), AllocError>
    ensures { OnOk result (AddsPart text.old text.new (keyed key.now (link_address layer bytes.now))) }
{
    if bytes.len() == ip_size(layer) {
        return push_address(alloc, text, key, bytes);
    }
    push_hardware(text, key, bytes)
}

/// Returns the size of the IP addresses of a type of tunnel (`ARPHRD_*` of linux/if_arp.h); 0 for
/// any other type.
#[tactic(auto, unfolding(crate::specs::LinkAddress::ip_size))]
fn ip_size(layer: u16) -> usize
    ensures { result ≡ ip_size layer }
{
    match layer {
        768 => 4,
        776 => 4,
        778 => 4,
        769 => 16,
        823 => 16,
        _ => 0,
    }
}

/// Appends a permanent address, if it is another one than the own address.
#[tactic(auto, unfolding(crate::specs::LinkAddress::permanent_part, netlink_words::specs::Parts::with_part))]
fn push_permanent(
    alloc: Global,
    text: &mut String,
    layer: u16,
    own: &[u8],
    permanent: &[u8],
) -> Result<(), AllocError>
    ensures { OnOk result (AddsPart text.old text.new (permanent_part layer own.now permanent.now)) }
{
    if permanent == own {
        return Ok(());
    }
    push_keyed_address(alloc, text, layer, "permaddr", permanent)
}
