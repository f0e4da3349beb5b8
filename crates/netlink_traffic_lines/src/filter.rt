//! What a filter and a chain of filters have.

ghost use Rattle.std.specs.Prelude.{◌≡◌, ◌<◌, OnOk, string_bytes};
ghost use Rattle.netlink_traffic_lines.specs.Filter.{chain_parts, chain_text, filter_parts, filter_text, hook_part, place_parts, protocol_part, swapped};
ghost use Rattle.netlink_words.specs.Parts.{AddsPart, AddsParts};

use crate::ids::{index_of, info_of, kind_of, parent_of, push_parent};
use crate::packet_protocols::protocol_text;
use crate::values::push_counted;
use netlink_family::MessageView;
use netlink_names::device::push_device;
use netlink_names::name_table::Names;
use netlink_route::TrafficControl;
use netlink_route::traffic_control::TCA_CHAIN;
use netlink_words::parts::{push_keyed, push_number, push_part};
use netlink_words::text::name_text;
use std::alloc::{AllocError, Global};

/// The index in place of that of a link if filters belong to a block that links share
/// (`TCM_IFINDEX_MAGIC_BLOCK` of linux/rtnetlink.h).
const BLOCK: u32 = 0xffff_ffff;

/// The ids of the two sides of a link (`TC_H_MAKE` of `TC_H_CLSACT` with `TC_H_MIN_INGRESS` or
/// `TC_H_MIN_EGRESS`, linux/pkt_sched.h).
const INGRESS: u32 = 0xffff_fff2;

const EGRESS: u32 = 0xffff_fff3;

/// Appends what a filter has.
#[tactic(auto, unfolding(crate::specs::Filter::filter_text))]
pub(crate) fn push_filter(
    alloc: Global,
    text: &mut String,
    known: &Names<'_>,
    packet: &MessageView<'_, TrafficControl>,
) -> Result<(), AllocError>
    ensures { OnOk result (string_bytes text.new
        ≡ filter_text known.now packet.now.payload.now (string_bytes text.old)) }
{
    push_place(alloc, text, known, index_of(packet), parent_of(packet))?;
    push_own(alloc, text, packet)
}

/// Appends what a chain has.
#[tactic(auto, unfolding(crate::specs::Filter::chain_text))]
pub(crate) fn push_chain(
    alloc: Global,
    text: &mut String,
    known: &Names<'_>,
    packet: &MessageView<'_, TrafficControl>,
) -> Result<(), AllocError>
    ensures { OnOk result (string_bytes text.new
        ≡ chain_text known.now packet.now.payload.now (string_bytes text.old)) }
{
    push_place(alloc, text, known, index_of(packet), parent_of(packet))?;
    push_number_of_chain(alloc, text, packet)
}

/// Appends a block that links share, or the link and what filters are attached to there.
#[tactic(auto, unfolding(crate::specs::Filter::place_parts))]
fn push_place(
    alloc: Global,
    text: &mut String,
    known: &Names<'_>,
    index: u32,
    parent: u32,
) -> Result<(), AllocError>
    ensures { OnOk result (AddsParts text.old text.new (place_parts known.now index parent)) }
{
    if index == BLOCK {
        return push_number(text, "block", Some(parent));
    }
    push_device(text, known, "dev", Some(index))?;
    push_hook(alloc, text, parent)
}

/// Appends what filters are attached to.
#[tactic(auto, unfolding(crate::specs::Filter::hook_part))]
fn push_hook(alloc: Global, text: &mut String, parent: u32) -> Result<(), AllocError>
    ensures { OnOk result (AddsPart text.old text.new (hook_part parent)) }
{
    if parent == INGRESS {
        return push_part(text, "ingress");
    }
    if parent == EGRESS {
        return push_part(text, "egress");
    }
    push_parent(alloc, text, parent)
}

/// Appends the protocol, the preference, the kind and the chain of a filter.
#[tactic(auto, unfolding(crate::specs::Filter::filter_parts))]
fn push_own(
    alloc: Global,
    text: &mut String,
    packet: &MessageView<'_, TrafficControl>,
) -> Result<(), AllocError>
    ensures { OnOk result (AddsParts text.old text.new (filter_parts packet.now.payload.now)) }
{
    let info = info_of(packet);
    push_protocol(alloc, text, swapped(info % 65536))?;
    push_counted(text, "pref", info / 65536)?;
    push_part(text, name_text(alloc, kind_of(packet))?.as_str())?;
    push_number(text, "chain", packet.view().u32(TCA_CHAIN))
}

/// Returns a number of 16 bits with its two bytes swapped.
fn swapped(number: u32) -> u32
    requires { number < 65536 }
    ensures { result ≡ swapped number }
{
    number % 256 * 256 + number / 256
}

/// Appends the protocol of packets, unless it is 0.
#[tactic(auto, unfolding(crate::specs::Filter::protocol_part, netlink_words::specs::Parts::with_part))]
fn push_protocol(alloc: Global, text: &mut String, protocol: u32) -> Result<(), AllocError>
    ensures { OnOk result (AddsPart text.old text.new (protocol_part protocol)) }
{
    if protocol == 0 {
        return Ok(());
    }
    push_keyed(text, "protocol", protocol_text(alloc, protocol)?.as_str())
}

/// Appends the kind and the number of a chain.
#[tactic(auto, unfolding(crate::specs::Filter::chain_parts))]
fn push_number_of_chain(
    alloc: Global,
    text: &mut String,
    packet: &MessageView<'_, TrafficControl>,
) -> Result<(), AllocError>
    ensures { OnOk result (AddsParts text.old text.new (chain_parts packet.now.payload.now)) }
{
    push_part(text, name_text(alloc, kind_of(packet))?.as_str())?;
    push_number(text, "chain", packet.view().u32(TCA_CHAIN))
}
