//! The line of a queueing discipline, a class, a filter or a chain of filters.

ghost use Rattle.std.specs.Prelude.{◌≡◌, ◌/◌, IfOk, OnOk, string_bytes};
ghost use Rattle.netlink_traffic_lines.specs.Traffic.{group_text, own_text, traffic_front, traffic_line, verb_text};
ghost use Rattle.netlink_words.specs.Parts.{AddsParts};

use crate::class::push_class;
use crate::discipline::push_discipline;
use crate::filter::{push_chain, push_filter};
use netlink_family::MessageView;
use netlink_names::device::Known;
use netlink_names::name_table::Names;
use netlink_route::TrafficControl;
use netlink_words::parts::push_part;
use std::alloc::{AllocError, Global};

/// More bytes than most lines have, so that a line does not grow step by step.
const USUAL: usize = 128;

/// Returns the line of a message of traffic control, as `tc monitor` prints the first one, with one space
/// between its parts: the verb, what the message is about, and what the queueing discipline, the class,
/// the filter or the chain has. A known link is named, and any other is `if` and its index. Returns
/// `AllocError` if an allocation fails.
pub fn traffic_text(
    alloc: Global,
    known: &[Known],
    packet: &MessageView<'_, TrafficControl>,
) -> Result<String, AllocError>
    ensures line { IfOk result (λ text. string_bytes text ≡ traffic_line known.now
        packet.now.message_type packet.now.payload.now) }
{
    traffic_line(alloc, &Names::of(known), packet)
}

/// Returns the line of a message of traffic control, as `traffic_text` does.
#[tactic(auto, unfolding(crate::specs::Traffic::traffic_line))]
pub fn traffic_line(
    alloc: Global,
    known: &Names<'_>,
    packet: &MessageView<'_, TrafficControl>,
) -> Result<String, AllocError>
    ensures { IfOk result (λ text. string_bytes text ≡ traffic_line known.now
        packet.now.message_type packet.now.payload.now) }
{
    let mut text = String::with_capacity(alloc, USUAL)?;
    push_front(&mut text, packet.message_type)?;
    push_own(alloc, &mut text, known, packet)?;
    text.push_str("\n")?;
    Ok(text)
}

/// Appends the verb and what the message is about.
#[tactic(auto, unfolding(crate::specs::Traffic::traffic_front))]
fn push_front(text: &mut String, message_type: u16) -> Result<(), AllocError>
    ensures { OnOk result (AddsParts text.old text.new (traffic_front message_type)) }
{
    push_part(text, verb_text(message_type))?;
    push_part(text, group_text(message_type / 4))
}

/// Returns the verb of a message type.
#[tactic(auto, unfolding(crate::specs::Traffic::verb_text))]
pub(crate) fn verb_text(message_type: u16) -> &'static str
    ensures { result.now ≡ verb_text message_type }
{
    match message_type % 4 {
        1 => "deleted",
        2 => "Get",
        _ => "",
    }
}

/// Returns what the messages of a group of four types are about.
#[tactic(auto, unfolding(crate::specs::Traffic::group_text))]
fn group_text(group: u16) -> &'static str
    ensures { result.now ≡ group_text group }
{
    match group {
        9 => "qdisc",
        10 => "class",
        11 => "filter",
        _ => "chain",
    }
}

/// Appends what a queueing discipline, a class, a filter or a chain has.
#[tactic(auto, unfolding(crate::specs::Traffic::own_text))]
fn push_own(
    alloc: Global,
    text: &mut String,
    known: &Names<'_>,
    packet: &MessageView<'_, TrafficControl>,
) -> Result<(), AllocError>
    ensures { OnOk result (string_bytes text.new ≡ own_text known.now
        (packet.now.message_type / 4) packet.now.payload.now (string_bytes text.old)) }
{
    match packet.message_type / 4 {
        9 => push_discipline(alloc, text, known, packet),
        10 => push_class(alloc, text, known, packet),
        11 => push_filter(alloc, text, known, packet),
        _ => push_chain(alloc, text, known, packet),
    }
}
