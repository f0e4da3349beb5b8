//! What a class of a queueing discipline has.

ghost use Rattle.std.specs.Prelude.{OnOk};
ghost use Rattle.netlink_traffic_lines.specs.Class.{class_parts, leaf_part, own_id};
ghost use Rattle.netlink_words.specs.Parts.{AddsPart, AddsParts};

use crate::ids::{
    handle_of, handle_text, id_text, index_of, info_of, kind_of, parent_of, push_parent,
};
use netlink_family::MessageView;
use netlink_names::device::push_device;
use netlink_names::name_table::Names;
use netlink_route::TrafficControl;
use netlink_words::parts::{push_keyed, push_part};
use netlink_words::text::name_text;
use std::alloc::{AllocError, Global};

/// Appends the kind, the id, the link, the parent and the leaf.
#[tactic(auto, unfolding(crate::specs::Class::class_parts))]
pub(crate) fn push_class(
    alloc: Global,
    text: &mut String,
    known: &Names<'_>,
    packet: &MessageView<'_, TrafficControl>,
) -> Result<(), AllocError>
    ensures { OnOk result (AddsParts text.old text.new (class_parts known.now packet.now.payload.now)) }
{
    push_part(text, name_text(alloc, kind_of(packet))?.as_str())?;
    push_own_id(alloc, text, handle_of(packet))?;
    push_device(text, known, "dev", Some(index_of(packet)))?;
    push_parent(alloc, text, parent_of(packet))?;
    push_leaf(alloc, text, info_of(packet))
}

/// Appends the id of a class, unless it is 0.
#[tactic(auto, unfolding(crate::specs::Class::own_id, netlink_words::specs::Parts::with_part))]
fn push_own_id(alloc: Global, text: &mut String, id: u32) -> Result<(), AllocError>
    ensures { OnOk result (AddsPart text.old text.new (own_id id)) }
{
    if id == 0 {
        return Ok(());
    }
    push_part(text, id_text(alloc, id)?.as_str())
}

/// Appends the id of the queueing discipline of a class, unless it is 0.
#[tactic(auto, unfolding(crate::specs::Class::leaf_part, netlink_words::specs::Parts::with_part))]
fn push_leaf(alloc: Global, text: &mut String, leaf: u32) -> Result<(), AllocError>
    ensures { OnOk result (AddsPart text.old text.new (leaf_part leaf)) }
{
    if leaf == 0 {
        return Ok(());
    }
    push_keyed(text, "leaf", handle_text(alloc, leaf)?.as_str())
}
