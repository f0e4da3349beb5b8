//! Encapsulation by IOAM (linux/ioam6.h, linux/ioam6_iptunnel.h).

ghost use Rattle.std.specs.Prelude.{◌≡◌, ◌≤◌, IfOk, OnOk, length, string_bytes};
ghost use Rattle.netlink_words.specs.Parts.{AddsPart, AddsParts};
ghost use Rattle.netlink_route_lines.specs.Ioam6.{IsIoam6, destination_part, frequency_text, insertion_name, insertion_parts, ioam6_parts, ioam6_words, trace_parts, type_text};

use crate::values::value_of;
use netlink_family::BlockView;
use netlink_packet_core::hex_pair;
use netlink_route::encapsulations::{
    IOAM6_IPTUNNEL_DST, IOAM6_IPTUNNEL_FREQ_K, IOAM6_IPTUNNEL_FREQ_N, IOAM6_IPTUNNEL_MODE,
    IOAM6_IPTUNNEL_TRACE,
};
use netlink_words::parts::{push_address, push_keyed, push_number, push_part};
use std::alloc::{AllocError, Global};

/// The mode without a destination (`IOAM6_IPTUNNEL_MODE_INLINE` of linux/ioam6_iptunnel.h).
const INLINE: u8 = 1;

/// Appends how many packets get a trace, how they get it, and the trace.
#[tactic(auto, unfolding(crate::specs::Ioam6::ioam6_parts))]
pub(crate) fn push_ioam6(
    alloc: Global,
    text: &mut String,
    nest: &BlockView<'_>,
) -> Result<(), AllocError>
    requires { IsIoam6 nest.now }
    ensures { OnOk result (AddsParts text.old text.new (ioam6_parts nest.now.block.now)) }
{
    let k = nest.u32(IOAM6_IPTUNNEL_FREQ_K);
    let n = nest.u32(IOAM6_IPTUNNEL_FREQ_N);
    let mode = nest.u8(IOAM6_IPTUNNEL_MODE);
    let to = value_of(nest, IOAM6_IPTUNNEL_DST);
    push_words(
        alloc,
        text,
        k,
        n,
        mode,
        to,
        value_of(nest, IOAM6_IPTUNNEL_TRACE),
    )
}

/// Appends the same; nothing unless there are two frequencies, a mode and a trace.
#[tactic(auto, unfolding(crate::specs::Ioam6::ioam6_words))]
fn push_words(
    alloc: Global,
    text: &mut String,
    k: Option<u32>,
    n: Option<u32>,
    mode: Option<u8>,
    to: &[u8],
    trace: &[u8],
) -> Result<(), AllocError>
    ensures { OnOk result (AddsParts text.old text.new (ioam6_words k n mode to.now trace.now)) }
{
    let Some(k) = k else {
        return Ok(());
    };
    let Some(n) = n else {
        return Ok(());
    };
    let Some(mode) = mode else {
        return Ok(());
    };
    if trace.len() < 8 {
        return Ok(());
    }
    push_part(text, frequency_text(alloc, k, n)?.as_str())?;
    push_insertion(alloc, text, mode, to, trace)
}

/// Returns how many packets get a trace: `k` of `n`.
#[tactic(auto, unfolding(crate::specs::Ioam6::frequency_text))]
fn frequency_text(alloc: Global, k: u32, n: u32) -> Result<String, AllocError>
    ensures { IfOk result (λ text. string_bytes text ≡ frequency_text k n) }
{
    format!(in alloc; "freq {k}/{n}")
}

/// Appends the mode, the destination and the trace; nothing if a mode with a destination has none.
#[tactic(auto, unfolding(crate::specs::Ioam6::insertion_parts))]
fn push_insertion(
    alloc: Global,
    text: &mut String,
    mode: u8,
    to: &[u8],
    trace: &[u8],
) -> Result<(), AllocError>
    requires { 8 ≤ length trace.now }
    ensures { OnOk result (AddsParts text.old text.new (insertion_parts mode to.now trace.now)) }
{
    if mode != INLINE && to.is_empty() {
        return Ok(());
    }
    push_keyed(text, "mode", insertion_name(mode))?;
    push_destination(alloc, text, mode, to)?;
    push_trace(alloc, text, trace)
}

/// Returns the name of a mode; `<unknown>` for those without a name.
#[tactic(auto, unfolding(crate::specs::Ioam6::insertion_name))]
pub fn insertion_name(mode: u8) -> &'static str
    ensures { result.now ≡ insertion_name mode }
{
    match mode {
        1 => "inline",
        2 => "encap",
        3 => "auto",
        _ => "<unknown>",
    }
}

/// Appends the destination, unless the mode has none.
#[tactic(auto, unfolding(netlink_words::specs::Parts::with_part))]
fn push_destination(alloc: Global, text: &mut String, mode: u8, to: &[u8]) -> Result<(), AllocError>
    ensures { OnOk result (AddsPart text.old text.new (destination_part mode to.now)) }
{
    if mode == INLINE {
        return Ok(());
    }
    push_address(alloc, text, "tundst", to)
}

/// Appends the type of a trace, its namespace, and the room that is left in bytes.
#[tactic(auto, unfolding(crate::specs::Ioam6::trace_parts))]
fn push_trace(alloc: Global, text: &mut String, trace: &[u8]) -> Result<(), AllocError>
    requires { 8 ≤ length trace.now }
    ensures { OnOk result (AddsParts text.old text.new (trace_parts trace.now)) }
{
    push_part(
        text,
        type_text(alloc, trace[4], trace[5], trace[6])?.as_str(),
    )?;
    push_number(text, "ns", Some(trace[0] as u32 * 256 + trace[1] as u32))?;
    push_number(text, "size", Some((trace[3] % 128) as u32 * 4))
}

/// Returns the type of a trace by its three bytes.
#[tactic(auto, unfolding(crate::specs::Ioam6::type_text))]
fn type_text(alloc: Global, first: u8, second: u8, third: u8) -> Result<String, AllocError>
    ensures { IfOk result (λ text. string_bytes text ≡ type_text first second third) }
{
    let (first, second, third) = (hex_pair(first), hex_pair(second), hex_pair(third));
    format!(in alloc; "trace prealloc type 0x{first}{second}{third}")
}
