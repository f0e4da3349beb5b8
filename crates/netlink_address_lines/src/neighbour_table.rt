//! The line of a neighbour table.

ghost use Rattle.std.specs.Prelude.{◌≡◌, IfOk, OnOk, string_bytes};
ghost use Rattle.std.specs.Option.{option_copied};
ghost use Rattle.netlink_family.specs.Shapes.{rows_in};
ghost use Rattle.netlink_route.specs.declared.neighbour_tables.TheConstants.{PARMS};
ghost use Rattle.netlink_address_lines.specs.NeighbourTable.{delay_parts, limit_parts, long_part, neighbour_table_line, parm_parts, probe_parts, table_front, table_name, table_text, time_parts};
ghost use Rattle.netlink_words.specs.Parts.{AddsPart, AddsParts};

use netlink_family::{BlockView, MessageView, Table};
use netlink_names::device::{Known, push_device};
use netlink_names::name_table::Names;
use netlink_route::NeighbourTables;
use netlink_route::neighbour_tables::{
    NDTA_GC_INTERVAL, NDTA_NAME, NDTA_PARMS, NDTA_THRESH1, NDTA_THRESH2, NDTA_THRESH3, NDTM_FAMILY,
    NDTPA_ANYCAST_DELAY, NDTPA_APP_PROBES, NDTPA_BASE_REACHABLE_TIME, NDTPA_DELAY_PROBE_TIME,
    NDTPA_GC_STALETIME, NDTPA_IFINDEX, NDTPA_LOCKTIME, NDTPA_MCAST_PROBES, NDTPA_PROXY_DELAY,
    NDTPA_PROXY_QLEN, NDTPA_QUEUE_LEN, NDTPA_REACHABLE_TIME, NDTPA_REFCNT, NDTPA_RETRANS_TIME,
    NDTPA_UCAST_PROBES, RTM_GETNEIGHTBL, RTM_SETNEIGHTBL,
};
use netlink_words::number_names::family_text;
use netlink_words::parts::{push_number, push_part, push_when};
use netlink_words::text::name_text;
use std::alloc::{AllocError, Global};

/// Returns the line of a message about a neighbour table, as `ip -o ntable show` prints it, with one
/// space between its parts: the family and the name, the limits, the link, the times in milliseconds
/// and the numbers of probes. `Get` or `Set` precedes them in a request.
pub fn neighbour_table_text(
    alloc: Global,
    known: &[Known],
    table: &MessageView<'_, NeighbourTables>,
) -> Result<String, AllocError>
    ensures line { IfOk result (λ text. string_bytes text
        ≡ neighbour_table_line known.now table.now.message_type table.now.payload.now) }
{
    neighbour_table_line(alloc, &Names::of(known), table)
}

/// Returns the line of a message about a neighbour table, as `neighbour_table_text` does.
#[tactic(auto, unfolding(crate::specs::NeighbourTable::neighbour_table_line))]
pub fn neighbour_table_line(
    alloc: Global,
    known: &Names<'_>,
    table: &MessageView<'_, NeighbourTables>,
) -> Result<String, AllocError>
    ensures { IfOk result (λ text. string_bytes text
        ≡ neighbour_table_line known.now table.now.message_type table.now.payload.now) }
{
    let mut text = table_text(alloc, known, table)?;
    text.push_str("\n")?;
    Ok(text)
}

/// Returns the verb, the family, the name, the limits and the parameters.
#[tactic(auto, unfolding(crate::specs::NeighbourTable::table_text), using(netlink_words::specs::Joined::with_parts_append))]
fn table_text(
    alloc: Global,
    known: &Names<'_>,
    table: &MessageView<'_, NeighbourTables>,
) -> Result<String, AllocError>
    ensures { IfOk result (λ text. string_bytes text
        ≡ table_text known.now table.now.message_type table.now.payload.now) }
{
    let mut text = String::new(alloc);
    push_front(alloc, &mut text, table)?;
    push_name(alloc, &mut text, table.view().str_bytes(NDTA_NAME))?;
    push_limits(alloc, &mut text, table)?;
    if let Some(parms) = table.view().nest(NDTA_PARMS) {
        push_parms(alloc, &mut text, known, &parms)?;
    }
    Ok(text)
}

/// Appends the verb of a request and the family.
#[tactic(auto, unfolding(crate::specs::NeighbourTable::table_front))]
fn push_front(
    alloc: Global,
    text: &mut String,
    table: &MessageView<'_, NeighbourTables>,
) -> Result<(), AllocError>
    ensures { OnOk result (AddsParts text.old text.new
        (table_front table.now.message_type table.now.payload.now)) }
{
    push_when(text, table.message_type == RTM_GETNEIGHTBL, "Get")?;
    push_when(text, table.message_type == RTM_SETNEIGHTBL, "Set")?;
    let family = family_text(alloc, table.header().u8(NDTM_FAMILY))?;
    push_part(text, family.as_str())
}

/// Appends the link, the times, the numbers of probes and the delays.
#[tactic(auto, unfolding(crate::specs::NeighbourTable::parm_parts), using(netlink_words::specs::Joined::with_parts_append))]
fn push_parms(
    alloc: Global,
    text: &mut String,
    known: &Names<'_>,
    parms: &BlockView<'_>,
) -> Result<(), AllocError>
    requires rows { rows_in parms.now.rows.list.now ≡ ⟦<NeighbourTables as Table>⟧.rows 64 }
    requires policy { parms.now.policy ≡ PARMS }
    ensures { OnOk result (AddsParts text.old text.new (parm_parts known.now parms.now.block.now)) }
{
    push_device(text, known, "dev", parms.u32(NDTPA_IFINDEX))?;
    push_times(alloc, text, parms)?;
    push_probes(text, parms)?;
    push_delays(alloc, text, parms)
}

/// Appends the name of a table.
#[tactic(auto, unfolding(crate::specs::NeighbourTable::table_name, netlink_words::specs::Parts::with_part))]
fn push_name(alloc: Global, text: &mut String, name: Option<&[u8]>) -> Result<(), AllocError>
    ensures { OnOk result (AddsPart text.old text.new (table_name (option_copied name.entry))) }
{
    match name {
        Some(name) => push_part(text, name_text(alloc, name)?.as_str()),
        None => Ok(()),
    }
}

/// Appends a key and a number of 8 bytes, if there is one.
#[tactic(auto, unfolding(netlink_words::specs::Parts::number_part, netlink_words::specs::Parts::with_part))]
fn push_long(
    alloc: Global,
    text: &mut String,
    key: &str,
    number: Option<u64>,
) -> Result<(), AllocError>
    ensures { OnOk result (AddsPart text.old text.new (long_part key.now number)) }
{
    match number {
        Some(number) => push_part(text, format!(in alloc; "{key} {number}")?.as_str()),
        None => Ok(()),
    }
}

/// Appends the limits of a table and how often it is cleaned.
fn push_limits(
    alloc: Global,
    text: &mut String,
    table: &MessageView<'_, NeighbourTables>,
) -> Result<(), AllocError>
    ensures { OnOk result (AddsParts text.old text.new (limit_parts table.now.payload.now)) }
{
    push_number(text, "thresh1", table.view().u32(NDTA_THRESH1))?;
    push_number(text, "thresh2", table.view().u32(NDTA_THRESH2))?;
    push_number(text, "thresh3", table.view().u32(NDTA_THRESH3))?;
    push_long(alloc, text, "gc_int", table.view().u64(NDTA_GC_INTERVAL))
}

/// Appends the number of references, the times and the length of the queue.
#[tactic(auto, unfolding(crate::specs::NeighbourTable::time_parts))]
fn push_times(alloc: Global, text: &mut String, parms: &BlockView<'_>) -> Result<(), AllocError>
    requires rows { rows_in parms.now.rows.list.now ≡ ⟦<NeighbourTables as Table>⟧.rows 64 }
    requires policy { parms.now.policy ≡ PARMS }
    ensures { OnOk result (AddsParts text.old text.new (time_parts parms.now.block.now)) }
{
    push_number(text, "refcnt", parms.u32(NDTPA_REFCNT))?;
    push_long(alloc, text, "reachable", parms.u64(NDTPA_REACHABLE_TIME))?;
    push_long(
        alloc,
        text,
        "base_reachable",
        parms.u64(NDTPA_BASE_REACHABLE_TIME),
    )?;
    push_long(alloc, text, "retrans", parms.u64(NDTPA_RETRANS_TIME))?;
    push_long(alloc, text, "gc_stale", parms.u64(NDTPA_GC_STALETIME))?;
    push_long(
        alloc,
        text,
        "delay_probe",
        parms.u64(NDTPA_DELAY_PROBE_TIME),
    )?;
    push_number(text, "queue", parms.u32(NDTPA_QUEUE_LEN))
}

/// Appends the numbers of probes.
#[tactic(auto, unfolding(crate::specs::NeighbourTable::probe_parts))]
fn push_probes(text: &mut String, parms: &BlockView<'_>) -> Result<(), AllocError>
    requires rows { rows_in parms.now.rows.list.now ≡ ⟦<NeighbourTables as Table>⟧.rows 64 }
    requires policy { parms.now.policy ≡ PARMS }
    ensures { OnOk result (AddsParts text.old text.new (probe_parts parms.now.block.now)) }
{
    push_number(text, "app_probes", parms.u32(NDTPA_APP_PROBES))?;
    push_number(text, "ucast_probes", parms.u32(NDTPA_UCAST_PROBES))?;
    push_number(text, "mcast_probes", parms.u32(NDTPA_MCAST_PROBES))
}

/// Appends the delays and the queue for addresses of others, and how long an entry is kept.
#[tactic(auto, unfolding(crate::specs::NeighbourTable::delay_parts))]
fn push_delays(alloc: Global, text: &mut String, parms: &BlockView<'_>) -> Result<(), AllocError>
    requires rows { rows_in parms.now.rows.list.now ≡ ⟦<NeighbourTables as Table>⟧.rows 64 }
    requires policy { parms.now.policy ≡ PARMS }
    ensures { OnOk result (AddsParts text.old text.new (delay_parts parms.now.block.now)) }
{
    push_long(alloc, text, "anycast_delay", parms.u64(NDTPA_ANYCAST_DELAY))?;
    push_long(alloc, text, "proxy_delay", parms.u64(NDTPA_PROXY_DELAY))?;
    push_number(text, "proxy_queue", parms.u32(NDTPA_PROXY_QLEN))?;
    push_long(alloc, text, "locktime", parms.u64(NDTPA_LOCKTIME))
}
