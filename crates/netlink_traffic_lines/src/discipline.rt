//! What a queueing discipline has.

ghost use Rattle.std.specs.Prelude.{◌≡◌, OnOk, string_bytes};
ghost use Rattle.netlink_traffic_lines.specs.Discipline.{above_part, block_parts, discipline_front, discipline_state, discipline_text, egress_of, ingress_of, offload_of, offload_part, users_part};
ghost use Rattle.netlink_words.specs.Parts.{AddsPart, AddsParts};

use crate::ids::{handle_of, handle_text, index_of, info_of, kind_of, parent_of, push_parent};
use crate::options::push_options;
use crate::values::push_counted;
use netlink_family::MessageView;
use netlink_names::device::push_device;
use netlink_names::name_table::Names;
use netlink_route::TrafficControl;
use netlink_route::traffic_control::{
    TCA_EGRESS_BLOCK, TCA_HW_OFFLOAD, TCA_INGRESS_BLOCK, TCA_OPTIONS,
};
use netlink_words::parts::{or_zero, push_number, push_part};
use netlink_words::text::name_text;
use std::alloc::{AllocError, Global};

/// Appends what a queueing discipline has.
#[tactic(auto, unfolding(crate::specs::Discipline::discipline_text))]
pub(crate) fn push_discipline(
    alloc: Global,
    text: &mut String,
    known: &Names<'_>,
    packet: &MessageView<'_, TrafficControl>,
) -> Result<(), AllocError>
    ensures { OnOk result (string_bytes text.new
        ≡ discipline_text known.now packet.now.payload.now (string_bytes text.old)) }
{
    push_front(alloc, text, known, packet)?;
    push_state(text, packet)?;
    push_blocks(text, ingress_of(packet), egress_of(packet))?;
    let options = packet.view().first(TCA_OPTIONS);
    push_options(alloc, text, kind_of(packet), options)
}

/// Appends the kind, the id, the link and the parent.
#[tactic(auto, unfolding(crate::specs::Discipline::discipline_front))]
fn push_front(
    alloc: Global,
    text: &mut String,
    known: &Names<'_>,
    packet: &MessageView<'_, TrafficControl>,
) -> Result<(), AllocError>
    ensures { OnOk result (AddsParts text.old text.new
        (discipline_front known.now packet.now.payload.now)) }
{
    push_part(text, name_text(alloc, kind_of(packet))?.as_str())?;
    push_part(text, handle_text(alloc, handle_of(packet))?.as_str())?;
    push_device(text, known, "dev", Some(index_of(packet)))?;
    push_above(alloc, text, parent_of(packet))
}

/// Appends the parent, unless it is 0.
#[tactic(auto, unfolding(crate::specs::Discipline::above_part, netlink_words::specs::Parts::with_part))]
fn push_above(alloc: Global, text: &mut String, parent: u32) -> Result<(), AllocError>
    ensures { OnOk result (AddsPart text.old text.new (above_part parent)) }
{
    if parent == 0 {
        return Ok(());
    }
    push_parent(alloc, text, parent)
}

/// Appends how many use the discipline, and whether the hardware does the work.
#[tactic(auto, unfolding(crate::specs::Discipline::discipline_state))]
fn push_state(text: &mut String, packet: &MessageView<'_, TrafficControl>) -> Result<(), AllocError>
    ensures { OnOk result (AddsParts text.old text.new (discipline_state packet.now.payload.now)) }
{
    push_users(text, info_of(packet))?;
    push_offload(text, offload_of(packet))
}

/// Appends the blocks of filters at the two sides, unless they are 0.
#[tactic(auto, unfolding(crate::specs::Discipline::block_parts))]
fn push_blocks(text: &mut String, ingress: u32, egress: u32) -> Result<(), AllocError>
    ensures { OnOk result (AddsParts text.old text.new (block_parts ingress egress)) }
{
    push_counted(text, "ingress_block", ingress)?;
    push_counted(text, "egress_block", egress)
}

/// Returns the block of filters for what comes in, 0 without one.
fn ingress_of(packet: &MessageView<'_, TrafficControl>) -> u32
    ensures { result ≡ ingress_of packet.now.payload.now }
{
    or_zero(packet.view().u32(TCA_INGRESS_BLOCK))
}

/// Returns the block of filters for what goes out, 0 without one.
fn egress_of(packet: &MessageView<'_, TrafficControl>) -> u32
    ensures { result ≡ egress_of packet.now.payload.now }
{
    or_zero(packet.view().u32(TCA_EGRESS_BLOCK))
}

/// Appends how many use the discipline, unless it is one.
#[tactic(auto, unfolding(crate::specs::Discipline::users_part, netlink_words::specs::Parts::with_part))]
fn push_users(text: &mut String, users: u32) -> Result<(), AllocError>
    ensures { OnOk result (AddsPart text.old text.new (users_part users)) }
{
    if users == 1 {
        return Ok(());
    }
    push_number(text, "refcnt", Some(users))
}

/// Returns the number that says whether the hardware does the work.
fn offload_of(packet: &MessageView<'_, TrafficControl>) -> Option<u8>
    ensures { result ≡ offload_of packet.now.payload.now }
{
    packet.view().u8(TCA_HW_OFFLOAD)
}

/// Appends that the hardware does the work, if a number other than 0 says so.
#[tactic(auto, unfolding(crate::specs::Discipline::offload_part, netlink_words::specs::Parts::with_part))]
fn push_offload(text: &mut String, offload: Option<u8>) -> Result<(), AllocError>
    ensures { OnOk result (AddsPart text.old text.new (offload_part offload)) }
{
    match offload {
        None | Some(0) => Ok(()),
        Some(_) => push_part(text, "offloaded"),
    }
}
