//! The line of the VNIs of a VXLAN link.

ghost use Rattle.std.specs.Prelude.{◌≡◌, IfOk, OnOk, string_bytes};
ghost use Rattle.std.specs.Option.{option_copied};
ghost use Rattle.netlink_bridge_lines.specs.Vni.{is_zero, one_of, shown_address, vni_line, vni_parts, vni_text, vnis_in};
ghost use Rattle.netlink_family.specs.Finding.{first_at, found_in};
ghost use Rattle.netlink_family.specs.Shapes.{rows_in};
ghost use Rattle.netlink_route.specs.declared.vni_filters.TheConstants.{ENTRY, VXLAN_VNIFILTER_ENTRY, VXLAN_VNIFILTER_ENTRY_GROUP, VXLAN_VNIFILTER_ENTRY_GROUP6};
ghost use Rattle.netlink_words.specs.Parts.{AddsParts};

use crate::words::{push_front, range_text};
use netlink_family::{BlockView, MessageView, Table};
use netlink_names::device::Known;
use netlink_names::name_table::Names;
use netlink_route::VniFilters;
use netlink_route::vni_filters::{
    TUNNEL_IFINDEX, VXLAN_VNIFILTER_ENTRY, VXLAN_VNIFILTER_ENTRY_END, VXLAN_VNIFILTER_ENTRY_GROUP,
    VXLAN_VNIFILTER_ENTRY_GROUP6, VXLAN_VNIFILTER_ENTRY_START,
};
use netlink_words::parts::{or_empty, or_zero, push_ip, push_part};
use std::alloc::{AllocError, Global};

/// More bytes than most lines have, so that a line does not grow step by step.
const USUAL: usize = 64;

/// Returns the line of a message about the VNIs of a VXLAN link, as `bridge monitor vni` prints it, with
/// one space between its parts: the verb, the link, the first VNI and the last, and the address to which
/// their packets go. A known link is named, and any other is `if` and its index. Returns `AllocError` if
/// an allocation fails.
pub fn vni_text(
    alloc: Global,
    known: &[Known],
    vnis: &MessageView<'_, VniFilters>,
) -> Result<String, AllocError>
    ensures line { IfOk result (λ text. string_bytes text
        ≡ vni_line known.now vnis.now.message_type vnis.now.payload.now) }
{
    vni_line(alloc, &Names::of(known), vnis)
}

/// Returns the line of a message about the VNIs of a VXLAN link, as `vni_text` does.
#[tactic(auto, unfolding(crate::specs::Vni::vni_line))]
pub fn vni_line(
    alloc: Global,
    known: &Names<'_>,
    vnis: &MessageView<'_, VniFilters>,
) -> Result<String, AllocError>
    ensures { IfOk result (λ text. string_bytes text
        ≡ vni_line known.now vnis.now.message_type vnis.now.payload.now) }
{
    let mut text = String::with_capacity(alloc, USUAL)?;
    let index = vnis.header().u32(TUNNEL_IFINDEX);
    push_front(alloc, &mut text, known, vnis.message_type, index)?;
    push_entry(alloc, &mut text, vnis)?;
    text.push_str("\n")?;
    Ok(text)
}

/// Appends what is in the first `VXLAN_VNIFILTER_ENTRY`, if there is one.
#[tactic(auto, unfolding(crate::specs::Vni::vnis_in))]
fn push_entry(
    alloc: Global,
    text: &mut String,
    vnis: &MessageView<'_, VniFilters>,
) -> Result<(), AllocError>
    ensures { OnOk result (AddsParts text.old text.new
        (vnis_in (first_at 8 vnis.now.payload.now VXLAN_VNIFILTER_ENTRY))) }
{
    match vnis.view().nest(VXLAN_VNIFILTER_ENTRY) {
        None => Ok(()),
        Some(entry) => push_vnis(alloc, text, &entry),
    }
}

/// Appends the VNIs of an entry, and the address to which their packets go.
#[tactic(auto, unfolding(crate::specs::Vni::vni_parts))]
fn push_vnis(alloc: Global, text: &mut String, entry: &BlockView<'_>) -> Result<(), AllocError>
    requires rows { rows_in entry.now.rows.list.now ≡ ⟦<VniFilters as Table>⟧.rows 120 }
    requires policy { entry.now.policy ≡ ENTRY }
    ensures { OnOk result (AddsParts text.old text.new (vni_parts entry.now.block.now)) }
{
    let first = or_zero(entry.u32(VXLAN_VNIFILTER_ENTRY_START));
    let last = or_zero(entry.u32(VXLAN_VNIFILTER_ENTRY_END));
    push_part(text, range_of(alloc, first, last)?.as_str())?;
    push_ip(alloc, text, shown_address(group_of(entry)))
}

/// Returns the first VNI and the last, if that is not 0.
fn range_of(alloc: Global, first: u32, last: u32) -> Result<String, AllocError>
    ensures { IfOk result (λ text. string_bytes text ≡ vni_text first last) }
{
    if last == 0 {
        return format!(in alloc; "{first}");
    }
    range_text(alloc, first, last)
}

/// Returns the IPv4 address of an entry, or else the IPv6 address; empty if there is neither.
fn group_of<'a>(entry: &BlockView<'a>) -> &'a [u8]
    ensures { result.now ≡ one_of (found_in entry.now.block.now VXLAN_VNIFILTER_ENTRY_GROUP)
        (found_in entry.now.block.now VXLAN_VNIFILTER_ENTRY_GROUP6) }
{
    one_of(
        entry.first(VXLAN_VNIFILTER_ENTRY_GROUP),
        entry.first(VXLAN_VNIFILTER_ENTRY_GROUP6),
    )
}

/// Returns the first of two addresses that is there; empty if there is none.
fn one_of<'a>(four: Option<&'a [u8]>, six: Option<&'a [u8]>) -> &'a [u8]
    ensures { result.now ≡ one_of (option_copied four.entry) (option_copied six.entry) }
{
    match four {
        Some(four) => four,
        None => or_empty(six),
    }
}

/// Returns an address unless it consists of zeros.
fn shown_address(address: &[u8]) -> &[u8]
    ensures { result.now ≡ shown_address address.now }
{
    if is_zero(address) {
        return &[];
    }
    address
}

/// Returns whether an IP address consists of zeros.
fn is_zero(address: &[u8]) -> bool
    ensures { result ≡ is_zero address.now }
{
    (address == [0; 4].as_slice()) | (address == [0; 16].as_slice())
}
