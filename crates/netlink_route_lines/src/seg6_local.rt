//! Routes to segments of this host (linux/seg6_local.h).

ghost use Rattle.std.specs.Prelude.{◌≡◌, IfOk, OnOk, codes, string_bytes};
ghost use Rattle.netlink_family.specs.Finding.{found_in};
ghost use Rattle.netlink_route.specs.declared.encapsulations.TheConstants.{SEG6_LOCAL_BPF, SEG6_LOCAL_FLAVORS};
ghost use Rattle.netlink_words.specs.Parts.{AddsPart, AddsParts};
ghost use Rattle.netlink_route_lines.specs.Program.{found_program};
ghost use Rattle.netlink_route_lines.specs.Seg6Local.{HasFlavors, HasLinks, HasTables, IsLocal, action_name, flavor_names, flavor_parts, found_flavors, local_parts, named_table, operation_parts, rest_parts, table_parts, way_parts, with_flavor};

use crate::program::push_program;
use crate::seg6::push_srh;
use crate::values::{push_byte, value_of};
use netlink_family::{BlockView, Table};
use netlink_names::device::push_device;
use netlink_names::name_table::Names;
use netlink_route::Routes;
use netlink_route::encapsulations::{
    SEG6_LOCAL_ACTION, SEG6_LOCAL_BPF, SEG6_LOCAL_FLAVORS, SEG6_LOCAL_FLV_LCBLOCK_BITS,
    SEG6_LOCAL_FLV_LCNODE_FN_BITS, SEG6_LOCAL_FLV_OPERATION, SEG6_LOCAL_IIF, SEG6_LOCAL_NH4,
    SEG6_LOCAL_NH6, SEG6_LOCAL_OIF, SEG6_LOCAL_SRH, SEG6_LOCAL_TABLE, SEG6_LOCAL_VRFTABLE,
};
use netlink_words::number_names::push_table;
use netlink_words::parts::{push_address, push_key, push_keyed, push_part};
use netlink_words::text::push_separated;
use std::alloc::{AllocError, Global};

/// The flavors that have names: bits by `SEG6_LOCAL_FLV_OP_*` of linux/seg6_local.h.
const PSP: u32 = 0x2;

const USP: u32 = 0x4;

const USD: u32 = 0x8;

const NEXT_CSID: u32 = 0x10;

/// Appends the action of a route to a segment of this host, and what belongs to it; nothing if
/// there is no action. The counters are left out.
#[tactic(auto, unfolding(crate::specs::Seg6Local::action_parts))]
pub(crate) fn push_local(
    alloc: Global,
    text: &mut String,
    known: &Names<'_>,
    nest: &BlockView<'_>,
) -> Result<(), AllocError>
    requires { IsLocal (⟦<Routes as Table>⟧.rows 24) nest.now }
    ensures { OnOk result (AddsParts text.old text.new (local_parts known.now nest.now.block.now)) }
{
    match nest.u32(SEG6_LOCAL_ACTION) {
        None => Ok(()),
        Some(action) => {
            push_keyed(text, "action", action_name(action))?;
            push_rest(alloc, text, known, nest)
        }
    }
}

/// Returns the name of an action; `<unknown>` for 0, and `<invalid>` for others without a name.
#[tactic(auto, unfolding(crate::specs::Seg6Local::action_name))]
pub fn action_name(action: u32) -> &'static str
    ensures { result.now ≡ action_name action }
{
    match action {
        0 => "<unknown>",
        1 => "End",
        2 => "End.X",
        3 => "End.T",
        4 => "End.DX2",
        5 => "End.DX6",
        6 => "End.DX4",
        7 => "End.DT6",
        8 => "End.DT4",
        9 => "End.B6",
        10 => "End.B6.Encaps",
        11 => "End.BM",
        12 => "End.S",
        13 => "End.AS",
        14 => "End.AM",
        15 => "End.BPF",
        16 => "End.DT46",
        _ => "<invalid>",
    }
}

/// Appends the segments, the tables, the next hops and the links, the program and the flavors.
#[tactic(auto, unfolding(crate::specs::Seg6Local::rest_parts), using(netlink_words::specs::Joined::with_parts_append))]
fn push_rest(
    alloc: Global,
    text: &mut String,
    known: &Names<'_>,
    nest: &BlockView<'_>,
) -> Result<(), AllocError>
    requires { IsLocal (⟦<Routes as Table>⟧.rows 24) nest.now }
    ensures { OnOk result (AddsParts text.old text.new (rest_parts known.now nest.now.block.now)) }
{
    push_srh(alloc, text, value_of(nest, SEG6_LOCAL_SRH))?;
    push_tables(text, nest)?;
    push_ways(alloc, text, known, nest)?;
    push_endpoint(alloc, text, nest)?;
    push_found_flavors(alloc, text, nest)
}

/// Appends the table, and that of a virtual router.
#[tactic(auto, unfolding(crate::specs::Seg6Local::table_parts))]
fn push_tables(text: &mut String, nest: &BlockView<'_>) -> Result<(), AllocError>
    requires { HasTables nest.now }
    ensures { OnOk result (AddsParts text.old text.new (table_parts nest.now.block.now)) }
{
    push_named_table(text, "table", nest.u32(SEG6_LOCAL_TABLE))?;
    push_named_table(text, "vrftable", nest.u32(SEG6_LOCAL_VRFTABLE))
}

/// Appends a key and a table, if there is one.
#[tactic(auto, using(netlink_words::specs::Pieces::table_more), unfolding(crate::specs::Seg6Local::named_table, netlink_words::specs::Parts::with_part))]
fn push_named_table(text: &mut String, key: &str, table: Option<u32>) -> Result<(), AllocError>
    ensures { OnOk result (AddsPart text.old text.new (named_table key.now table)) }
{
    match table {
        None => Ok(()),
        Some(table) => {
            push_key(text, key)?;
            push_table(text, table)
        }
    }
}

/// Appends the next hops of IPv4 and IPv6, and the incoming and the outgoing link.
#[tactic(auto, unfolding(crate::specs::Seg6Local::way_parts))]
fn push_ways(
    alloc: Global,
    text: &mut String,
    known: &Names<'_>,
    nest: &BlockView<'_>,
) -> Result<(), AllocError>
    requires { HasLinks nest.now }
    ensures { OnOk result (AddsParts text.old text.new (way_parts known.now nest.now.block.now)) }
{
    push_address(alloc, text, "nh4", value_of(nest, SEG6_LOCAL_NH4))?;
    push_address(alloc, text, "nh6", value_of(nest, SEG6_LOCAL_NH6))?;
    push_device(text, known, "iif", nest.u32(SEG6_LOCAL_IIF))?;
    push_device(text, known, "oif", nest.u32(SEG6_LOCAL_OIF))
}

/// Appends the program, if there is one.
#[tactic(auto, unfolding(crate::specs::Program::found_program))]
fn push_endpoint(alloc: Global, text: &mut String, nest: &BlockView<'_>) -> Result<(), AllocError>
    requires { IsLocal (⟦<Routes as Table>⟧.rows 24) nest.now }
    ensures { OnOk result (AddsParts text.old text.new (found_program (codes "endpoint") (found_in nest.now.block.now SEG6_LOCAL_BPF))) }
{
    match nest.nest(SEG6_LOCAL_BPF) {
        None => Ok(()),
        Some(program) => push_program(alloc, text, "endpoint", &program),
    }
}

/// Appends the flavors, if they are there.
#[tactic(auto, unfolding(crate::specs::Seg6Local::found_flavors))]
fn push_found_flavors(
    alloc: Global,
    text: &mut String,
    nest: &BlockView<'_>,
) -> Result<(), AllocError>
    requires { IsLocal (⟦<Routes as Table>⟧.rows 24) nest.now }
    ensures { OnOk result (AddsParts text.old text.new (found_flavors (found_in nest.now.block.now SEG6_LOCAL_FLAVORS))) }
{
    match nest.nest(SEG6_LOCAL_FLAVORS) {
        None => Ok(()),
        Some(flavors) => push_flavors(alloc, text, &flavors),
    }
}

/// Appends the names of the flavors, and the lengths of the two parts of a compressed segment.
#[tactic(auto, unfolding(crate::specs::Seg6Local::flavor_parts), using(netlink_words::specs::Joined::with_parts_append))]
fn push_flavors(alloc: Global, text: &mut String, flavors: &BlockView<'_>) -> Result<(), AllocError>
    requires { HasFlavors flavors.now }
    ensures { OnOk result (AddsParts text.old text.new (flavor_parts flavors.now.block.now)) }
{
    push_operation(alloc, text, flavors.u32(SEG6_LOCAL_FLV_OPERATION))?;
    push_byte(text, "lblen", flavors.u8(SEG6_LOCAL_FLV_LCBLOCK_BITS))?;
    push_byte(text, "nflen", flavors.u8(SEG6_LOCAL_FLV_LCNODE_FN_BITS))
}

/// Appends `flavors` and the names of the flavors that are set, if there is a number of flavors.
#[tactic(auto, unfolding(crate::specs::Seg6Local::operation_parts))]
fn push_operation(alloc: Global, text: &mut String, flavors: Option<u32>) -> Result<(), AllocError>
    ensures { OnOk result (AddsParts text.old text.new (operation_parts flavors)) }
{
    match flavors {
        None => Ok(()),
        Some(flavors) => {
            push_part(text, "flavors")?;
            push_part(text, flavor_names(alloc, flavors)?.as_str())
        }
    }
}

/// Returns the names of the flavors that are set, with commas between them.
#[tactic(auto, unfolding(crate::specs::Seg6Local::flavor_names))]
fn flavor_names(alloc: Global, flavors: u32) -> Result<String, AllocError>
    ensures { IfOk result (λ text. string_bytes text ≡ flavor_names flavors) }
{
    let mut names = String::new(alloc);
    push_flavor(&mut names, flavors & PSP != 0, "psp")?;
    push_flavor(&mut names, flavors & USP != 0, "usp")?;
    push_flavor(&mut names, flavors & USD != 0, "usd")?;
    push_flavor(&mut names, flavors & NEXT_CSID != 0, "next-csid")?;
    Ok(names)
}

/// Appends the name of a flavor if it is set.
fn push_flavor(names: &mut String, holds: bool, name: &str) -> Result<(), AllocError>
    ensures { OnOk result
        (string_bytes names.new ≡ with_flavor (string_bytes names.old) holds name.now) }
{
    if !holds {
        return Ok(());
    }
    push_separated(names, ",", name)
}
