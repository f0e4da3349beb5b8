//! The metrics of a route.

ghost use Rattle.std.specs.Prelude.{◌≡◌, IfOk, OnOk, ◌++◌, [], codes, false, if◌then◌else◌, map, nat_lt, string_bytes, true};
ghost use Rattle.std.specs.Fmt.{digits};
ghost use Rattle.std.specs.Option.{option_copied, option_map};
ghost use Rattle.netlink_family.specs.Finding.{first_at};
ghost use Rattle.netlink_family.specs.Shapes.{has_type};
ghost use Rattle.netlink_json.specs.Fields.{Adds, AddsAll, AddsParts, present};
ghost use Rattle.netlink_json.specs.Json as json;
ghost use Rattle.netlink_objects.specs.RouteMetrics.{feature_fields, metric_fields, metric_number, metrics_json, nest_json, number_fields, value_fields};
ghost use Rattle.netlink_objects.specs.Rows.{field_of};
ghost use Rattle.netlink_route.specs.declared.routes.TheConstants.{RTA_METRICS};
ghost use Rattle.netlink_route_lines.specs.RouteMetrics.{IsMetrics, metric_kinds};

use crate::form::{put_null, put_word};
use netlink_family::{BlockIndex, MessageIndex, Table};
use netlink_json::{Array, Object};
use netlink_route::Routes;
use netlink_route::routes::{
    RTA_METRICS, RTAX_CC_ALGO, RTAX_FEATURES, RTAX_HOPLIMIT, RTAX_RTT, RTAX_RTTVAR,
};
use netlink_route_lines::route_metrics::{KINDS, control_of, has_lock, metric_name, number_of};
use std::alloc::{AllocError, Global};

/// Appends the metrics in `RTA_METRICS`, if it is there, as an array of one object. A hop limit of
/// 2^32 - 1 is left out.
#[tactic(auto, unfolding(netlink_json::specs::Fields::with_field))]
pub(crate) fn put_metrics(
    alloc: Global,
    object: &mut Object,
    route: &MessageIndex<'_, Routes>,
) -> Result<(), AllocError>
    ensures { OnOk result (Adds object.old object.new (field_of (codes "metrics")
        (metrics_json (first_at 12 route.now.message.payload.now RTA_METRICS)))) }
{
    match route.index().nest(RTA_METRICS) {
        None => Ok(()),
        Some(nest) => put_nest_array(alloc, object, &nest.indexed()),
    }
}

/// Appends the metrics of a nest, as an array of one object. They are found by their places, since each
/// of 16 kinds is asked for.
fn put_nest_array(
    alloc: Global,
    object: &mut Object,
    nest: &BlockIndex<'_>,
) -> Result<(), AllocError>
    requires { IsMetrics (⟦<Routes as Table>⟧.rows 24) nest.now.view }
    ensures { OnOk result (Adds object.old object.new
        (present (codes "metrics") (nest_json nest.now.view.block.now))) }
{
    let mut metrics = Object::new(alloc);
    put_nest(alloc, &mut metrics, nest)?;
    let mut items = Array::new(alloc);
    items.put_object(metrics)?;
    object.put_array("metrics", &items)?;
    Ok(())
}

/// Appends the metrics of a nest.
fn put_nest(alloc: Global, object: &mut Object, metrics: &BlockIndex<'_>) -> Result<(), AllocError>
    requires { IsMetrics (⟦<Routes as Table>⟧.rows 24) metrics.now.view }
    ensures { OnOk result (AddsParts object.old object.new
        (map (metric_fields metrics.now.view.block.now) metric_kinds)) }
{
    for kind in KINDS {
        put_metric(alloc, object, metrics, kind)?;
    }
    Ok(())
}

/// Appends a metric, if it is there or locked.
#[tactic(auto, unfolding(crate::specs::RouteMetrics::metric_fields))]
fn put_metric(
    alloc: Global,
    object: &mut Object,
    metrics: &BlockIndex<'_>,
    kind: u16,
) -> Result<(), AllocError>
    requires view { IsMetrics (⟦<Routes as Table>⟧.rows 24) metrics.now.view }
    requires kind { has_type metric_kinds kind ≡ true }
    ensures { OnOk result (AddsAll object.old object.new (metric_fields metrics.now.view.block.now kind)) }
{
    if kind == RTAX_CC_ALGO {
        return put_control(alloc, object, control_of(metrics));
    }
    let locked = has_lock(metrics, kind);
    put_number(alloc, object, locked, kind, number_of(metrics, kind))
}

/// Appends the name of the congestion control, if it is there.
#[tactic(auto, unfolding(netlink_json::specs::Fields::with_field))]
fn put_control(alloc: Global, object: &mut Object, name: Option<&[u8]>) -> Result<(), AllocError>
    ensures { OnOk result (Adds object.old object.new
        (field_of (codes "congestion") (option_map json.text (option_copied name.entry)))) }
{
    match name {
        Some(name) => object.put_text(alloc, "congestion", name),
        None => Ok(()),
    }
}

/// Appends a metric by its value, if it is there or locked.
fn put_number(
    alloc: Global,
    object: &mut Object,
    locked: bool,
    kind: u16,
    value: Option<u32>,
) -> Result<(), AllocError>
    ensures { OnOk result (AddsAll object.old object.new (number_fields locked kind value)) }
{
    match value {
        Some(value) => put_value(alloc, object, kind, value),
        None => {
            if locked {
                return put_value(alloc, object, kind, 0);
            }
            Ok(())
        }
    }
}

/// Appends a metric: the features by name, times in milliseconds, and any other as a number.
fn put_value(alloc: Global, object: &mut Object, kind: u16, value: u32) -> Result<(), AllocError>
    ensures { OnOk result (AddsAll object.old object.new (value_fields kind value)) }
{
    if kind == RTAX_FEATURES {
        return put_features(alloc, object, value);
    }
    if kind == RTAX_HOPLIMIT && value == u32::MAX {
        return Ok(());
    }
    object.put_number(metric_name(kind), metric_number(kind, value) as u64)
}

/// Returns the number that a metric is shown as: a round-trip time is in eighths of a millisecond,
/// and its variation in quarters.
fn metric_number(kind: u16, value: u32) -> u32
    ensures { result ≡ metric_number kind value }
{
    match kind {
        RTAX_RTT => value / 8,
        RTAX_RTTVAR => value / 4,
        _ => value,
    }
}

/// Appends the features: `null` for the lowest bit, and all in hexadecimal if there are others.
fn put_features(alloc: Global, object: &mut Object, features: u32) -> Result<(), AllocError>
    ensures { OnOk result (AddsAll object.old object.new (feature_fields features)) }
{
    put_null(object, "ecn", features % 2 == 1)?;
    let word = feature_word(alloc, features)?;
    put_word(alloc, object, "features", word.as_str())
}

/// Returns features in hexadecimal; nothing if there is at most the lowest bit.
fn feature_word(alloc: Global, features: u32) -> Result<String, AllocError>
    ensures { IfOk result (λ text. string_bytes text
        ≡ (if nat_lt features 2 then [] else codes "0x" ++ digits 16 false features)) }
{
    if features < 2 {
        return Ok(String::new(alloc));
    }
    format!(in alloc; "0x{features:x}")
}
