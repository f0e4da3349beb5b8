//! The metrics of a route.

ghost use Rattle.std.specs.Prelude.{◌≡◌, ◌≢◌, IfOk, OnOk, string_bytes, true};
ghost use Rattle.std.specs.Option.{option_copied, option_map};
ghost use Rattle.netlink_family.specs.Finding.{first_at, found_in};
ghost use Rattle.netlink_family.specs.Shapes.{has_type};
ghost use Rattle.netlink_family.specs.Strings.{until_nul};
ghost use Rattle.netlink_packet_core.specs.Numbers.{number_le};
ghost use Rattle.netlink_route.specs.declared.routes.TheConstants.{RTA_METRICS, RTAX_CC_ALGO};
ghost use Rattle.netlink_words.specs.Parts.{AddsPart};
ghost use Rattle.netlink_route_lines.specs.RouteMetrics.{IsMetrics, control_part, decimals, ecn_word, feature_text, has_lock, is_locked, lock_word, metric_kinds, metric_name, metric_of, metric_or_lock, metric_part, metric_value, metrics_text, nest_text, time_text};

use netlink_family::{BlockIndex, MessageIndex, Table};
use netlink_route::Routes;
use netlink_route::routes::{
    RTA_METRICS, RTAX_CC_ALGO, RTAX_FEATURES, RTAX_HOPLIMIT, RTAX_LOCK, RTAX_RTO_MIN, RTAX_RTT,
    RTAX_RTTVAR,
};
use netlink_words::parts::push_part;
use netlink_words::text::sentence_text;
use std::alloc::{AllocError, Global};

/// The kinds of metrics, in their order.
pub const KINDS: [u16; 16] = [2, 3, 4, 5, 6, 7, 8, 9, 10, 11, 12, 13, 14, 15, 16, 17];

/// Appends the metrics in `RTA_METRICS`, each after its name, and `lock` before the value of a
/// locked one. A hop limit of 2^32 - 1 is left out.
#[tactic(auto, unfolding(crate::specs::RouteMetrics::metrics_text, netlink_words::specs::Parts::with_part))]
pub(crate) fn push_metrics(
    alloc: Global,
    text: &mut String,
    route: &MessageIndex<'_, Routes>,
) -> Result<(), AllocError>
    ensures { OnOk result
        (AddsPart text.old text.new (metrics_text (first_at 12 route.now.message.payload.now RTA_METRICS))) }
{
    match route.index().nest(RTA_METRICS) {
        None => Ok(()),
        Some(metrics) => push_part(text, nest_text(alloc, &metrics.indexed())?.as_str()),
    }
}

/// Returns the metrics of a nest, found by their places, since each of 16 kinds is asked for.
#[tactic(auto, unfolding(crate::specs::RouteMetrics::nest_text))]
fn nest_text(alloc: Global, metrics: &BlockIndex<'_>) -> Result<String, AllocError>
    requires { IsMetrics (⟦<Routes as Table>⟧.rows 24) metrics.now.view }
    ensures { IfOk result (λ text. string_bytes text ≡ nest_text metrics.now.view.block.now) }
{
    let mut text = String::new(alloc);
    for kind in KINDS {
        push_part(&mut text, metric_text(alloc, metrics, kind)?.as_str())?;
    }
    Ok(text)
}

/// Returns a metric, if it is there or locked.
#[tactic(auto, unfolding(crate::specs::RouteMetrics::metric_of))]
fn metric_text(alloc: Global, metrics: &BlockIndex<'_>, kind: u16) -> Result<String, AllocError>
    requires view { IsMetrics (⟦<Routes as Table>⟧.rows 24) metrics.now.view }
    requires kind { has_type metric_kinds kind ≡ true }
    ensures { IfOk result (λ text. string_bytes text ≡ metric_of metrics.now.view.block.now kind) }
{
    let locked = has_lock(metrics, kind);
    if kind == RTAX_CC_ALGO {
        return control_text(alloc, locked, control_of(metrics));
    }
    number_text(alloc, locked, kind, number_of(metrics, kind))
}

/// Returns whether a kind is locked in a nest.
pub fn has_lock(metrics: &BlockIndex<'_>, kind: u16) -> bool
    requires { IsMetrics (⟦<Routes as Table>⟧.rows 24) metrics.now.view }
    ensures { result ≡ has_lock metrics.now.view.block.now kind }
{
    is_locked(metrics.u32(RTAX_LOCK), kind)
}

/// Returns the name of the congestion control in a nest.
pub fn control_of<'a>(metrics: &BlockIndex<'a>) -> Option<&'a [u8]>
    requires { IsMetrics (⟦<Routes as Table>⟧.rows 24) metrics.now.view }
    ensures { option_copied result ≡ option_map until_nul (found_in metrics.now.view.block.now RTAX_CC_ALGO) }
{
    metrics.str_bytes(RTAX_CC_ALGO)
}

/// Returns the value of any other metric in a nest.
pub fn number_of(metrics: &BlockIndex<'_>, kind: u16) -> Option<u32>
    requires view { IsMetrics (⟦<Routes as Table>⟧.rows 24) metrics.now.view }
    requires kind { has_type metric_kinds kind ≡ true }
    requires other { kind ≢ RTAX_CC_ALGO }
    ensures { result ≡ option_map number_le (found_in metrics.now.view.block.now kind) }
{
    metrics.u32(kind)
}

/// Returns whether a kind is locked: whether the bit of its number is set.
fn is_locked(lock: Option<u32>, kind: u16) -> bool
    ensures { result ≡ is_locked lock kind }
{
    match lock {
        Some(bits) => kind < 32 && (bits >> kind) % 2 == 1,
        None => false,
    }
}

/// Returns the word before the value of a locked metric.
fn lock_word(locked: bool) -> &'static str
    ensures { result.now ≡ lock_word locked }
{
    if locked { " lock" } else { "" }
}

/// Returns a metric by its value, if it is there or locked.
fn number_text(
    alloc: Global,
    locked: bool,
    kind: u16,
    value: Option<u32>,
) -> Result<String, AllocError>
    ensures { IfOk result (λ text. string_bytes text ≡ metric_or_lock locked kind value) }
{
    match value {
        Some(value) => part_text(alloc, locked, kind, value),
        None => {
            if locked {
                return part_text(alloc, locked, kind, 0);
            }
            Ok(String::new(alloc))
        }
    }
}

/// Returns the name of a metric and its value.
fn part_text(alloc: Global, locked: bool, kind: u16, value: u32) -> Result<String, AllocError>
    ensures { IfOk result (λ text. string_bytes text ≡ metric_part locked kind value) }
{
    if kind == RTAX_HOPLIMIT && value == u32::MAX {
        return Ok(String::new(alloc));
    }
    let name = metric_name(kind);
    let lock = lock_word(locked);
    let value = value_text(alloc, kind, value)?;
    format!(in alloc; "{name}{lock}{value}")
}

/// Returns a value of a metric, after a space: times with their unit, features by name, and any other
/// in decimal.
fn value_text(alloc: Global, kind: u16, value: u32) -> Result<String, AllocError>
    ensures { IfOk result (λ text. string_bytes text ≡ metric_value kind value) }
{
    match kind {
        RTAX_FEATURES => feature_text(alloc, value),
        RTAX_RTT => time_text(alloc, value / 8),
        RTAX_RTTVAR => time_text(alloc, value / 4),
        RTAX_RTO_MIN => time_text(alloc, value),
        _ => format!(in alloc; " {value}"),
    }
}

/// Returns a time that is given in milliseconds, after a space: in seconds if it is 1000 or greater,
/// and else in milliseconds. It is exact; `ip` rounds seconds to six digits.
fn time_text(alloc: Global, time: u32) -> Result<String, AllocError>
    ensures { IfOk result (λ text. string_bytes text ≡ time_text time) }
{
    if time < 1000 {
        return format!(in alloc; " {time}ms");
    }
    let seconds = time / 1000;
    let decimals = decimals(alloc, time / 100 % 10, time / 10 % 10, time % 10)?;
    format!(in alloc; " {seconds}{decimals}s")
}

/// Returns the decimals of a time after a point, without zeros at their end.
fn decimals(
    alloc: Global,
    tenths: u32,
    hundredths: u32,
    thousandths: u32,
) -> Result<String, AllocError>
    ensures { IfOk result (λ text. string_bytes text ≡ decimals tenths hundredths thousandths) }
{
    if thousandths != 0 {
        return format!(in alloc; ".{tenths}{hundredths}{thousandths}");
    }
    if hundredths != 0 {
        return format!(in alloc; ".{tenths}{hundredths}");
    }
    if tenths != 0 {
        return format!(in alloc; ".{tenths}");
    }
    Ok(String::new(alloc))
}

/// Returns the features: `ecn` for the lowest bit, and all in hexadecimal if there are others.
fn feature_text(alloc: Global, features: u32) -> Result<String, AllocError>
    ensures { IfOk result (λ text. string_bytes text ≡ feature_text features) }
{
    let name = ecn_word(features % 2 == 1);
    if features < 2 {
        return String::from_str(alloc, name);
    }
    format!(in alloc; "{name} 0x{features:x}")
}

/// Returns the name of the lowest bit of the features, if it is set.
fn ecn_word(set: bool) -> &'static str
    ensures { result.now ≡ ecn_word set }
{
    if set { " ecn" } else { "" }
}

/// Returns the name of the congestion control, if it is there or locked.
fn control_text(alloc: Global, locked: bool, control: Option<&[u8]>) -> Result<String, AllocError>
    ensures { IfOk result (λ text. string_bytes text
        ≡ control_part locked (option_copied control.entry)) }
{
    match control {
        Some(name) => {
            let lock = lock_word(locked);
            let name = sentence_text(alloc, name)?;
            format!(in alloc; "congctl{lock} {name}")
        }
        None => {
            if locked {
                return String::from_str(alloc, "congctl lock");
            }
            Ok(String::new(alloc))
        }
    }
}

/// Returns the name of a metric (`RTAX_*` of linux/rtnetlink.h).
#[tactic(auto, unfolding(crate::specs::RouteMetrics::metric_name))]
pub fn metric_name(kind: u16) -> &'static str
    ensures { result.now ≡ metric_name kind }
{
    match kind {
        2 => "mtu",
        3 => "window",
        4 => "rtt",
        5 => "rttvar",
        6 => "ssthresh",
        7 => "cwnd",
        8 => "advmss",
        9 => "reordering",
        10 => "hoplimit",
        11 => "initcwnd",
        12 => "features",
        13 => "rto_min",
        14 => "initrwnd",
        15 => "quickack",
        17 => "fastopen_no_cookie",
        _ => "",
    }
}
