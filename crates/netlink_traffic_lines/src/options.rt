//! The options of a queueing discipline.

ghost use Rattle.std.specs.Prelude.{◌≡◌, OnOk, bytes_eq, string_bytes};
ghost use Rattle.std.specs.Option.{option_copied};
ghost use Rattle.netlink_traffic_lines.specs.Options.{codel_rest, codel_sizes, codel_text, codel_times, direct_parts, global_parts, htb_text, known_options, options_text};
ghost use Rattle.netlink_words.specs.Parts.{AddsPart, AddsParts, hex_part, keyed};

use crate::values::{is_set, number_in, push_counted, push_unit};
use netlink_packet_core::u32_at;
use netlink_route::traffic_control::{
    TCA_FQ_CODEL_CE_THRESHOLD, TCA_FQ_CODEL_DROP_BATCH_SIZE, TCA_FQ_CODEL_ECN, TCA_FQ_CODEL_FLOWS,
    TCA_FQ_CODEL_INTERVAL, TCA_FQ_CODEL_LIMIT, TCA_FQ_CODEL_MEMORY_LIMIT, TCA_FQ_CODEL_QUANTUM,
    TCA_FQ_CODEL_TARGET, TCA_HTB_DIRECT_QLEN, TCA_HTB_INIT, TCA_HTB_OFFLOAD,
};
use netlink_shapes::find::first_value;
use netlink_words::parts::{hex_text, or_zero, push_keyed, push_number, push_when};
use std::alloc::{AllocError, Global};

/// Appends the options of a kind, if there are some; nothing of kinds other than `fq_codel` and `htb`.
#[tactic(auto, unfolding(crate::specs::Options::options_text))]
pub(crate) fn push_options(
    alloc: Global,
    text: &mut String,
    kind: &[u8],
    options: Option<&[u8]>,
) -> Result<(), AllocError>
    ensures { OnOk result (string_bytes text.new
        ≡ options_text kind.now (option_copied options.entry) (string_bytes text.old)) }
{
    match options {
        None => Ok(()),
        Some(options) => push_known(alloc, text, kind, options),
    }
}

/// Appends the options of a kind.
#[tactic(auto, unfolding(crate::specs::Options::known_options))]
fn push_known(
    alloc: Global,
    text: &mut String,
    kind: &[u8],
    options: &[u8],
) -> Result<(), AllocError>
    ensures { OnOk result (string_bytes text.new
        ≡ known_options kind.now options.now (string_bytes text.old)) }
{
    if is_named(kind, "fq_codel") {
        return push_codel(alloc, text, options);
    }
    if is_named(kind, "htb") {
        return push_htb(alloc, text, options);
    }
    Ok(())
}

/// Returns whether a kind has this name.
fn is_named(kind: &[u8], name: &str) -> bool
    ensures { result ≡ bytes_eq kind.now name.now }
{
    kind == name.as_bytes()
}

/// Appends the options of `fq_codel`.
#[tactic(auto, unfolding(crate::specs::Options::codel_text))]
fn push_codel(alloc: Global, text: &mut String, options: &[u8]) -> Result<(), AllocError>
    ensures { OnOk result (string_bytes text.new ≡ codel_text options.now (string_bytes text.old)) }
{
    push_codel_sizes(alloc, text, options)?;
    push_codel_times(alloc, text, options)?;
    push_codel_rest(alloc, text, options)
}

/// Appends how many packets and flows there are at most, and how many bytes a flow sends in a round.
#[tactic(auto, unfolding(crate::specs::Options::codel_sizes))]
fn push_codel_sizes(alloc: Global, text: &mut String, options: &[u8]) -> Result<(), AllocError>
    ensures { OnOk result (AddsParts text.old text.new (codel_sizes options.now)) }
{
    let limit = number_in(options, TCA_FQ_CODEL_LIMIT);
    push_unit(alloc, text, "limit", "p", limit)?;
    push_number(text, "flows", number_in(options, TCA_FQ_CODEL_FLOWS))?;
    push_number(text, "quantum", number_in(options, TCA_FQ_CODEL_QUANTUM))
}

/// Appends the times in microseconds.
#[tactic(auto, unfolding(crate::specs::Options::codel_times))]
fn push_codel_times(alloc: Global, text: &mut String, options: &[u8]) -> Result<(), AllocError>
    ensures { OnOk result (AddsParts text.old text.new (codel_times options.now)) }
{
    let target = number_in(options, TCA_FQ_CODEL_TARGET);
    push_unit(alloc, text, "target", "us", target)?;
    let threshold = number_in(options, TCA_FQ_CODEL_CE_THRESHOLD);
    push_unit(alloc, text, "ce_threshold", "us", threshold)?;
    let interval = number_in(options, TCA_FQ_CODEL_INTERVAL);
    push_unit(alloc, text, "interval", "us", interval)
}

/// Appends the memory in bytes, whether packets are marked, and how many are dropped at once.
#[tactic(auto, unfolding(crate::specs::Options::codel_rest))]
fn push_codel_rest(alloc: Global, text: &mut String, options: &[u8]) -> Result<(), AllocError>
    ensures { OnOk result (AddsParts text.old text.new (codel_rest options.now)) }
{
    let memory = number_in(options, TCA_FQ_CODEL_MEMORY_LIMIT);
    push_unit(alloc, text, "memory_limit", "b", memory)?;
    push_when(text, is_set(number_in(options, TCA_FQ_CODEL_ECN)), "ecn")?;
    let batch = or_zero(number_in(options, TCA_FQ_CODEL_DROP_BATCH_SIZE));
    push_counted(text, "drop_batch", batch)
}

/// Appends the options of `htb`.
#[tactic(auto, unfolding(crate::specs::Options::htb_text))]
fn push_htb(alloc: Global, text: &mut String, options: &[u8]) -> Result<(), AllocError>
    ensures { OnOk result (string_bytes text.new ≡ htb_text options.now (string_bytes text.old)) }
{
    push_global(alloc, text, first_value(options, TCA_HTB_INIT))?;
    push_direct(text, options)
}

/// Appends what a `struct tc_htb_glob` has: the quotient of rate and quantum, the default class, and how
/// many packets had no class.
#[tactic(auto, unfolding(crate::specs::Options::global_parts))]
fn push_global(alloc: Global, text: &mut String, init: Option<&[u8]>) -> Result<(), AllocError>
    ensures { OnOk result (AddsParts text.old text.new (global_parts (option_copied init.entry))) }
{
    match init {
        None => Ok(()),
        Some(init) => {
            if init.len() < 20 {
                return Ok(());
            }
            push_number(text, "r2q", Some(u32_at(init, 4)))?;
            push_hex(alloc, text, "default", u32_at(init, 8))?;
            push_number(text, "direct_packets_stat", Some(u32_at(init, 16)))
        }
    }
}

/// Appends a key and a number in hexadecimal.
fn push_hex(alloc: Global, text: &mut String, key: &str, number: u32) -> Result<(), AllocError>
    ensures { OnOk result (AddsPart text.old text.new (keyed key.now (hex_part number))) }
{
    push_keyed(text, key, hex_text(alloc, number)?.as_str())
}

/// Appends how many packets without a class there are at most, and whether the hardware does the work.
#[tactic(auto, unfolding(crate::specs::Options::direct_parts))]
fn push_direct(text: &mut String, options: &[u8]) -> Result<(), AllocError>
    ensures { OnOk result (AddsParts text.old text.new (direct_parts options.now)) }
{
    push_number(text, "direct_qlen", number_in(options, TCA_HTB_DIRECT_QLEN))?;
    let is_offloaded = first_value(options, TCA_HTB_OFFLOAD).is_some();
    push_when(text, is_offloaded, "offload")
}
