//! The line of the statistics of a link.

ghost use Rattle.std.specs.Prelude.{◌≡◌, IfOk, OnOk, string_bytes};
ghost use Rattle.netlink_bridge_lines.specs.Statistics.{count_parts, counts_of, hardware_of, hardware_parts, on_part, statistics_front, statistics_line};
ghost use Rattle.netlink_words.specs.Parts.{AddsPart, AddsParts};

use crate::words::{byte_in, long_at, push_long, value_in, verb_text};
use netlink_family::MessageView;
use netlink_names::device::{Known, push_device};
use netlink_names::name_table::Names;
use netlink_route::LinkStatistics;
use netlink_route::link_statistics::{
    IFLA_OFFLOAD_XSTATS_HW_S_INFO, IFLA_OFFLOAD_XSTATS_HW_S_INFO_REQUEST,
    IFLA_OFFLOAD_XSTATS_HW_S_INFO_USED, IFLA_OFFLOAD_XSTATS_L3_STATS, IFLA_STATS_LINK_64,
    IFLA_STATS_LINK_OFFLOAD_XSTATS, IFSM_IFINDEX, RTM_NEWSTATS,
};
use netlink_words::parts::{or_empty, push_keyed, push_part};
use std::alloc::{AllocError, Global};

/// More bytes than most lines have, so that a line does not grow step by step.
const USUAL: usize = 128;

/// Returns the line of a message about the statistics of a link, which no program prints in one line:
/// the verb, `stats`, the link, its packets and bytes, and whether hardware collects statistics of
/// routing. A known link is named, and any other is `if` and its index. Returns `AllocError` if an
/// allocation fails.
pub fn statistics_text(
    alloc: Global,
    known: &[Known],
    statistics: &MessageView<'_, LinkStatistics>,
) -> Result<String, AllocError>
    ensures line { IfOk result (λ text. string_bytes text
        ≡ statistics_line known.now statistics.now.message_type statistics.now.payload.now) }
{
    statistics_line(alloc, &Names::of(known), statistics)
}

/// Returns the line of a message about the statistics of a link, as `statistics_text` does.
#[tactic(auto, unfolding(crate::specs::Statistics::statistics_line))]
pub fn statistics_line(
    alloc: Global,
    known: &Names<'_>,
    statistics: &MessageView<'_, LinkStatistics>,
) -> Result<String, AllocError>
    ensures { IfOk result (λ text. string_bytes text
        ≡ statistics_line known.now statistics.now.message_type statistics.now.payload.now) }
{
    let mut text = String::with_capacity(alloc, USUAL)?;
    push_front(&mut text, known, statistics)?;
    push_counts(alloc, &mut text, counts_of(statistics))?;
    push_hardware(&mut text, hardware_of(statistics))?;
    text.push_str("\n")?;
    Ok(text)
}

/// Appends the verb, `stats` and the link.
#[tactic(auto, unfolding(crate::specs::Statistics::statistics_front))]
fn push_front(
    text: &mut String,
    known: &Names<'_>,
    statistics: &MessageView<'_, LinkStatistics>,
) -> Result<(), AllocError>
    ensures { OnOk result (AddsParts text.old text.new
        (statistics_front known.now statistics.now.message_type statistics.now.payload.now)) }
{
    push_part(text, verb_text(statistics.message_type))?;
    push_part(text, "stats")?;
    push_device(
        text,
        known,
        "dev",
        Some(statistics.header().u32(IFSM_IFINDEX)),
    )
}

/// Returns the `struct rtnl_link_stats64` of a link; empty if there is none.
fn counts_of<'a>(statistics: &MessageView<'a, LinkStatistics>) -> &'a [u8]
    ensures { result.now ≡ counts_of statistics.now.message_type statistics.now.payload.now }
{
    if statistics.message_type != RTM_NEWSTATS {
        return &[];
    }
    or_empty(statistics.view().first(IFLA_STATS_LINK_64))
}

/// Appends the packets and bytes that a link received and sent, given its `struct rtnl_link_stats64`.
#[tactic(auto, unfolding(crate::specs::Statistics::count_parts))]
fn push_counts(alloc: Global, text: &mut String, counts: &[u8]) -> Result<(), AllocError>
    ensures { OnOk result (AddsParts text.old text.new (count_parts counts.now)) }
{
    if counts.len() < 32 {
        return Ok(());
    }
    push_long(alloc, text, "rx_packets", Some(long_at(counts, 0)))?;
    push_long(alloc, text, "rx_bytes", Some(long_at(counts, 16)))?;
    push_long(alloc, text, "tx_packets", Some(long_at(counts, 8)))?;
    push_long(alloc, text, "tx_bytes", Some(long_at(counts, 24)))
}

/// Returns the attributes about statistics of routing that hardware collects; empty if there are none.
fn hardware_of<'a>(statistics: &MessageView<'a, LinkStatistics>) -> &'a [u8]
    ensures { result.now ≡ hardware_of statistics.now.message_type statistics.now.payload.now }
{
    if statistics.message_type != RTM_NEWSTATS {
        return &[];
    }
    let offload = or_empty(statistics.view().first(IFLA_STATS_LINK_OFFLOAD_XSTATS));
    let infos = value_in(offload, IFLA_OFFLOAD_XSTATS_HW_S_INFO);
    value_in(infos, IFLA_OFFLOAD_XSTATS_L3_STATS)
}

/// Appends whether statistics of routing are requested, and whether hardware collects them, given
/// their attributes.
#[tactic(auto, unfolding(crate::specs::Statistics::hardware_parts))]
fn push_hardware(text: &mut String, info: &[u8]) -> Result<(), AllocError>
    ensures { OnOk result (AddsParts text.old text.new (hardware_parts info.now)) }
{
    let requested = byte_in(info, IFLA_OFFLOAD_XSTATS_HW_S_INFO_REQUEST);
    let used = byte_in(info, IFLA_OFFLOAD_XSTATS_HW_S_INFO_USED);
    push_on(text, "l3_stats", requested)?;
    push_on(text, "used", used)
}

/// Appends a key, and whether a number is not 0, if there is one.
#[tactic(auto, unfolding(crate::specs::Statistics::on_part, netlink_words::specs::Parts::with_part))]
fn push_on(text: &mut String, key: &str, number: Option<u8>) -> Result<(), AllocError>
    ensures { OnOk result (AddsPart text.old text.new (on_part key.now number)) }
{
    match number {
        None => Ok(()),
        Some(0) => push_keyed(text, key, "off"),
        Some(_) => push_keyed(text, key, "on"),
    }
}
