//! The header of a message, and the ids of queueing disciplines and classes.

ghost use Rattle.std.specs.Prelude.{◌≡◌, IfOk, OnOk, string_bytes};
ghost use Rattle.netlink_traffic_lines.specs.Ids.{handle_of, handle_text, id_text, index_of, info_of, kind_of, pair_text, parent_of, parent_part};
ghost use Rattle.netlink_words.specs.Parts.{AddsPart};

use netlink_family::MessageView;
use netlink_route::TrafficControl;
use netlink_route::traffic_control::{TCA_KIND, TCM_HANDLE, TCM_IFINDEX, TCM_INFO, TCM_PARENT};
use netlink_words::parts::{or_empty, push_keyed, push_part};
use std::alloc::{AllocError, Global};

/// The id that stands for the root of a link (`TC_H_ROOT` of linux/pkt_sched.h).
const ROOT: u32 = 0xffff_ffff;

/// Returns the index of the link.
pub(crate) fn index_of(packet: &MessageView<'_, TrafficControl>) -> u32
    ensures { result ≡ index_of packet.now.payload.now }
{
    packet.header().i32(TCM_IFINDEX).cast_unsigned()
}

/// Returns the id of a queueing discipline or a class.
pub(crate) fn handle_of(packet: &MessageView<'_, TrafficControl>) -> u32
    ensures { result ≡ handle_of packet.now.payload.now }
{
    packet.header().u32(TCM_HANDLE)
}

/// Returns the id of the parent.
pub(crate) fn parent_of(packet: &MessageView<'_, TrafficControl>) -> u32
    ensures { result ≡ parent_of packet.now.payload.now }
{
    packet.header().u32(TCM_PARENT)
}

/// Returns the number whose meaning depends on what the message is about.
pub(crate) fn info_of(packet: &MessageView<'_, TrafficControl>) -> u32
    ensures { result ≡ info_of packet.now.payload.now }
{
    packet.header().u32(TCM_INFO)
}

/// Returns the kind; empty if it is missing.
pub(crate) fn kind_of<'a>(packet: &MessageView<'a, TrafficControl>) -> &'a [u8]
    ensures { result.now ≡ kind_of packet.now.payload.now }
{
    or_empty(packet.view().str_bytes(TCA_KIND))
}

/// Returns the id of a queueing discipline.
pub(crate) fn handle_text(alloc: Global, id: u32) -> Result<String, AllocError>
    ensures { IfOk result (λ text. string_bytes text ≡ handle_text id) }
{
    let major = id / 65536;
    format!(in alloc; "{major:x}:")
}

/// Returns the id of a class.
#[tactic(auto, unfolding(crate::specs::Ids::id_text))]
pub(crate) fn id_text(alloc: Global, id: u32) -> Result<String, AllocError>
    ensures { IfOk result (λ text. string_bytes text ≡ id_text id) }
{
    if id == ROOT {
        return String::from_str(alloc, "root");
    }
    if id == 0 {
        return String::from_str(alloc, "none");
    }
    pair_text(alloc, id / 65536, id % 65536)
}

/// Returns the two numbers of an id, without one that is 0.
fn pair_text(alloc: Global, major: u32, minor: u32) -> Result<String, AllocError>
    ensures { IfOk result (λ text. string_bytes text ≡ pair_text major minor) }
{
    if major == 0 {
        return format!(in alloc; ":{minor:x}");
    }
    if minor == 0 {
        return format!(in alloc; "{major:x}:");
    }
    format!(in alloc; "{major:x}:{minor:x}")
}

/// Appends the parent of a class.
#[tactic(auto, unfolding(crate::specs::Ids::parent_part))]
pub(crate) fn push_parent(alloc: Global, text: &mut String, parent: u32) -> Result<(), AllocError>
    ensures { OnOk result (AddsPart text.old text.new (parent_part parent)) }
{
    if parent == ROOT {
        return push_part(text, "root");
    }
    push_keyed(text, "parent", id_text(alloc, parent)?.as_str())
}
