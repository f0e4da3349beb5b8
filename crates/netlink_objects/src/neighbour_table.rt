//! The object of a neighbour table.

ghost use Rattle.std.specs.Prelude.{◌≡◌, OnOk, drop};
ghost use Rattle.netlink_family.specs.Finding.{found_in};
ghost use Rattle.netlink_family.specs.Shapes.{rows_in as table_rows_in};
ghost use Rattle.netlink_json.specs.Fields.{AddsAll, AddsParts};
ghost use Rattle.netlink_objects.specs.NeighbourTable.{neighbour_table_parts, parm_fields, parm_rows, parms_fields, table_rows};
ghost use Rattle.netlink_objects.specs.Rows.{rows_in};
ghost use Rattle.netlink_route.specs.declared.neighbour_tables.TheConstants.{NDTA_PARMS, PARMS};

use crate::form::Form;
use crate::route_values::put_link;
use crate::row::{Place, Row, Source, put_rows, source_of};
use netlink_family::{BlockView, MessageView, Table};
use netlink_json::Object;
use netlink_names::name_table::Names;
use netlink_route::NeighbourTables;
use netlink_route::neighbour_tables::{
    NDTA_GC_INTERVAL, NDTA_NAME, NDTA_PARMS, NDTA_THRESH1, NDTA_THRESH2, NDTA_THRESH3,
    NDTPA_ANYCAST_DELAY, NDTPA_APP_PROBES, NDTPA_BASE_REACHABLE_TIME, NDTPA_DELAY_PROBE_TIME,
    NDTPA_GC_STALETIME, NDTPA_IFINDEX, NDTPA_LOCKTIME, NDTPA_MCAST_PROBES, NDTPA_PROXY_DELAY,
    NDTPA_PROXY_QLEN, NDTPA_QUEUE_LEN, NDTPA_REACHABLE_TIME, NDTPA_REFCNT, NDTPA_RETRANS_TIME,
    NDTPA_UCAST_PROBES,
};
use std::alloc::{AllocError, Global};

/// The family, the name and the limits of a table.
const ROWS: [Row; 6] = [
    ("family", Place::Header(0, 1), Form::Family),
    ("name", Place::Attribute(NDTA_NAME), Form::Name),
    ("thresh1", Place::Attribute(NDTA_THRESH1), Form::Number),
    ("thresh2", Place::Attribute(NDTA_THRESH2), Form::Number),
    ("thresh3", Place::Attribute(NDTA_THRESH3), Form::Number),
    (
        "gc_interval",
        Place::Attribute(NDTA_GC_INTERVAL),
        Form::Number,
    ),
];

/// The parameters of a link, or of all links, except the link, with times in milliseconds.
const PARM_ROWS: [Row; 14] = [
    ("refcnt", Place::Attribute(NDTPA_REFCNT), Form::Number),
    (
        "reachable",
        Place::Attribute(NDTPA_REACHABLE_TIME),
        Form::Number,
    ),
    (
        "base_reachable",
        Place::Attribute(NDTPA_BASE_REACHABLE_TIME),
        Form::Number,
    ),
    (
        "retrans",
        Place::Attribute(NDTPA_RETRANS_TIME),
        Form::Number,
    ),
    (
        "gc_stale",
        Place::Attribute(NDTPA_GC_STALETIME),
        Form::Number,
    ),
    (
        "delay_probe",
        Place::Attribute(NDTPA_DELAY_PROBE_TIME),
        Form::Number,
    ),
    ("queue", Place::Attribute(NDTPA_QUEUE_LEN), Form::Number),
    (
        "app_probes",
        Place::Attribute(NDTPA_APP_PROBES),
        Form::Number,
    ),
    (
        "ucast_probes",
        Place::Attribute(NDTPA_UCAST_PROBES),
        Form::Number,
    ),
    (
        "mcast_probes",
        Place::Attribute(NDTPA_MCAST_PROBES),
        Form::Number,
    ),
    (
        "anycast_delay",
        Place::Attribute(NDTPA_ANYCAST_DELAY),
        Form::Number,
    ),
    (
        "proxy_delay",
        Place::Attribute(NDTPA_PROXY_DELAY),
        Form::Number,
    ),
    (
        "proxy_queue",
        Place::Attribute(NDTPA_PROXY_QLEN),
        Form::Number,
    ),
    ("locktime", Place::Attribute(NDTPA_LOCKTIME), Form::Number),
];

/// Returns the rows of a table.
fn table_rows() -> &'static [Row]
    ensures { rows_in result.now ≡ table_rows }
{
    &ROWS
}

/// Returns the rows of the parameters.
fn parm_rows() -> &'static [Row]
    ensures { rows_in result.now ≡ parm_rows }
{
    &PARM_ROWS
}

/// Appends the members of a message about a neighbour table, with the keys of `ip -j ntable` and in its
/// order: the family, the name, the limits and the parameters. Returns
/// `AllocError` if an allocation fails.
#[tactic(auto, unfolding(crate::specs::NeighbourTable::neighbour_table_parts))]
pub fn put_neighbour_table(
    alloc: Global,
    object: &mut Object,
    known: &Names<'_>,
    table: &MessageView<'_, NeighbourTables>,
) -> Result<(), AllocError>
    ensures parts { OnOk result (AddsParts object.old object.new
        (neighbour_table_parts known.now table.now.message_type table.now.payload.now)) }
{
    put_rows(alloc, object, known, &source_of(table), table_rows())?;
    put_parms(alloc, object, known, table)
}

/// Appends the parameters, if the message has them.
fn put_parms(
    alloc: Global,
    object: &mut Object,
    known: &Names<'_>,
    table: &MessageView<'_, NeighbourTables>,
) -> Result<(), AllocError>
    ensures { OnOk result (AddsAll object.old object.new
        (parms_fields known.now (found_in (drop 4 table.now.payload.now) NDTA_PARMS))) }
{
    match table.view().nest(NDTA_PARMS) {
        Some(parms) => put_parm_rows(alloc, object, known, &parms),
        None => Ok(()),
    }
}

/// Appends the link and the other parameters.
#[tactic(auto, unfolding(crate::specs::NeighbourTable::parm_fields))]
fn put_parm_rows(
    alloc: Global,
    object: &mut Object,
    known: &Names<'_>,
    parms: &BlockView<'_>,
) -> Result<(), AllocError>
    requires rows { table_rows_in parms.now.rows.list.now ≡ ⟦<NeighbourTables as Table>⟧.rows 64 }
    requires policy { parms.now.policy ≡ PARMS }
    ensures { OnOk result (AddsAll object.old object.new (parm_fields known.now parms.now.block.now)) }
{
    put_link(alloc, object, known, "dev", parms.u32(NDTPA_IFINDEX))?;
    let source = Source {
        header: &[],
        block: *parms,
    };
    put_rows(alloc, object, known, &source, parm_rows())
}
