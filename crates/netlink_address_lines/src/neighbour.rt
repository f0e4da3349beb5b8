//! The line of a neighbour.

ghost use Rattle.std.specs.Prelude.{◌≡◌, IfOk, OnOk, string_bytes};
ghost use Rattle.netlink_packet_core.specs.Fields.{number_at};
ghost use Rattle.netlink_packet_core.specs.Numbers.{signed};
ghost use Rattle.netlink_route.specs.declared.neighbours.TheConstants.{NDA_DST};
ghost use Rattle.netlink_address_lines.specs.Neighbour.{flag_parts, neighbour_bytes, neighbour_device, neighbour_front, neighbour_index, neighbour_line, neighbour_verb_text, protocol_part, state_name, states_text, with_state};
ghost use Rattle.netlink_words.specs.Parts.{AddsPart, AddsParts};

use netlink_family::MessageView;
use netlink_names::device::{Known, push_device};
use netlink_names::name_table::Names;
use netlink_route::Neighbours;
use netlink_route::neighbours::{
    NDA_DST, NDA_FLAGS_EXT, NDA_LLADDR, NDA_PROTOCOL, NDM_FLAGS, NDM_IFINDEX, NDM_STATE,
    RTM_DELNEIGH, RTM_GETNEIGH,
};
use netlink_words::number_names::push_protocol;
use netlink_words::parts::{
    or_empty, or_zero, push_hardware, push_ip, push_key, push_part, push_when,
};
use std::alloc::{AllocError, Global};

// The flags of a neighbour that have names (linux/neighbour.h).
const NTF_PROXY: u8 = 0x08;

const NTF_EXT_LEARNED: u8 = 0x10;

const NTF_OFFLOADED: u8 = 0x20;

const NTF_ROUTER: u8 = 0x80;

const NTF_EXT_MANAGED: u32 = 0x1;

/// More bytes than the lines of most neighbours have, so that a line does not grow step by step.
const USUAL: usize = 128;

/// The states of a neighbour (`NUD_*` of linux/neighbour.h), in the order in which `ip` names them.
const ORDER: [u16; 8] = [0x01, 0x02, 0x04, 0x08, 0x10, 0x20, 0x40, 0x80];

/// Returns the line of a message about a neighbour, as `ip -o neigh show` and `ip monitor neigh`
/// print it, with one space between its parts: the verb, the address, the link, the link address,
/// the flags, the states and the protocol.
pub fn neighbour_text(
    alloc: Global,
    known: &[Known],
    neighbour: &MessageView<'_, Neighbours>,
) -> Result<String, AllocError>
    ensures line { IfOk result (λ text. string_bytes text
        ≡ neighbour_line known.now neighbour.now.message_type neighbour.now.payload.now) }
{
    neighbour_line(alloc, &Names::of(known), neighbour)
}

/// Returns the line of a message about a neighbour, as `neighbour_text` does.
#[tactic(auto, unfolding(crate::specs::Neighbour::neighbour_line))]
pub fn neighbour_line(
    alloc: Global,
    known: &Names<'_>,
    neighbour: &MessageView<'_, Neighbours>,
) -> Result<String, AllocError>
    ensures { IfOk result (λ text. string_bytes text
        ≡ neighbour_line known.now neighbour.now.message_type neighbour.now.payload.now) }
{
    let mut text = String::with_capacity(alloc, USUAL)?;
    push_front(alloc, &mut text, known, neighbour)?;
    let more = or_zero(neighbour.view().u32(NDA_FLAGS_EXT));
    push_flags(&mut text, neighbour.header().u8(NDM_FLAGS), more)?;
    push_states(&mut text, neighbour.header().u16(NDM_STATE))?;
    push_protocol_part(&mut text, neighbour.view().u8(NDA_PROTOCOL))?;
    text.push_str("\n")?;
    Ok(text)
}

/// Appends the verb, the address, the link and the link address.
#[tactic(auto, unfolding(crate::specs::Neighbour::neighbour_front))]
fn push_front(
    alloc: Global,
    text: &mut String,
    known: &Names<'_>,
    neighbour: &MessageView<'_, Neighbours>,
) -> Result<(), AllocError>
    ensures { OnOk result
        (AddsParts text.old text.new (neighbour_front known.now neighbour.now.message_type neighbour.now.payload.now)) }
{
    push_part(text, verb_text(neighbour.message_type))?;
    push_ip(alloc, text, address_of(neighbour))?;
    push_link(text, known, index_of(neighbour))?;
    push_hardware(text, "lladdr", or_empty(neighbour.view().bytes(NDA_LLADDR)))
}

/// Returns the address of the neighbour; empty if there is none.
fn address_of<'a>(neighbour: &MessageView<'a, Neighbours>) -> &'a [u8]
    ensures { result.now ≡ neighbour_bytes neighbour.now.payload.now NDA_DST }
{
    or_empty(neighbour.view().ip(NDA_DST))
}

/// Returns the index of the link in the header.
fn index_of(neighbour: &MessageView<'_, Neighbours>) -> u32
    ensures { result ≡ neighbour_index neighbour.now.payload.now }
{
    let header = neighbour.header();
    index_in(header.bytes, header.i32(NDM_IFINDEX))
}

/// Returns the index of a link without a sign, given a header and the index that was read in it.
fn index_in(header: &[u8], index: i32) -> u32
    requires { index ≡ signed 4 (number_at 4 4 header.now) }
    ensures { result ≡ number_at 4 4 header.now }
{
    index.cast_unsigned()
}

/// Appends the name of a link other than 0.
#[tactic(auto, unfolding(crate::specs::Neighbour::neighbour_device, netlink_words::specs::Parts::when, netlink_words::specs::Parts::with_part))]
fn push_link(text: &mut String, known: &Names<'_>, index: u32) -> Result<(), AllocError>
    ensures { OnOk result (AddsPart text.old text.new (neighbour_device known.now index)) }
{
    if index == 0 {
        return Ok(());
    }
    push_device(text, known, "dev", Some(index))
}

/// Returns the verb of a message type. The kernel sends a request if it has no entry for an address.
#[tactic(auto, unfolding(crate::specs::Neighbour::neighbour_verb_text))]
fn verb_text(message_type: u16) -> &'static str
    ensures { result.now ≡ neighbour_verb_text message_type }
{
    match message_type {
        RTM_DELNEIGH => "Deleted",
        RTM_GETNEIGH => "miss",
        _ => "",
    }
}

/// Appends the names of the flags that are set, in the header and in the attribute for more flags.
#[tactic(auto, unfolding(crate::specs::Neighbour::flag_parts))]
fn push_flags(text: &mut String, flags: u8, more: u32) -> Result<(), AllocError>
    ensures { OnOk result (AddsParts text.old text.new (flag_parts flags more)) }
{
    push_when(text, flags & NTF_ROUTER != 0, "router")?;
    push_when(text, flags & NTF_PROXY != 0, "proxy")?;
    push_when(text, more & NTF_EXT_MANAGED != 0, "managed")?;
    push_when(text, flags & NTF_EXT_LEARNED != 0, "extern_learn")?;
    push_when(text, flags & NTF_OFFLOADED != 0, "offload")
}

/// Appends the names of the states that are set.
#[tactic(auto, unfolding(crate::specs::Neighbour::states_text))]
fn push_states(text: &mut String, states: u16) -> Result<(), AllocError>
    ensures { OnOk result (string_bytes text.new ≡ states_text states (string_bytes text.old)) }
{
    for bit in ORDER {
        push_state(text, states, bit)?;
    }
    Ok(())
}

/// Appends the name of a state if it is set.
fn push_state(text: &mut String, states: u16, bit: u16) -> Result<(), AllocError>
    ensures { OnOk result (string_bytes text.new ≡ with_state states (string_bytes text.old) bit) }
{
    push_when(text, states & bit != 0, state_name(bit))
}

/// Returns the name of a state; nothing for other numbers.
#[tactic(auto, unfolding(crate::specs::Neighbour::state_name))]
fn state_name(bit: u16) -> &'static str
    ensures { result.now ≡ state_name bit }
{
    match bit {
        0x01 => "INCOMPLETE",
        0x02 => "REACHABLE",
        0x04 => "STALE",
        0x08 => "DELAY",
        0x10 => "PROBE",
        0x20 => "FAILED",
        0x40 => "NOARP",
        0x80 => "PERMANENT",
        _ => "",
    }
}

/// Appends a protocol other than 0.
#[tactic(auto, using(netlink_words::specs::Pieces::protocol_more), unfolding(crate::specs::Neighbour::protocol_part, netlink_words::specs::Parts::when, netlink_words::specs::Parts::with_part))]
fn push_protocol_part(text: &mut String, protocol: Option<u8>) -> Result<(), AllocError>
    ensures { OnOk result (AddsPart text.old text.new (protocol_part protocol)) }
{
    match protocol {
        None => Ok(()),
        Some(protocol) => {
            if protocol == 0 {
                return Ok(());
            }
            push_key(text, "proto")?;
            push_protocol(text, protocol)
        }
    }
}
