//! Programs of encapsulations (linux/lwtunnel.h).

ghost use Rattle.std.specs.Prelude.{◌≡◌, OnOk};
ghost use Rattle.netlink_family.specs.Finding.{found_in, shape_at};
ghost use Rattle.netlink_family.specs.Shapes.{rows_in};
ghost use Rattle.netlink_family.specs.declared.shape.Shape.TheVariants.{Nested};
ghost use Rattle.netlink_route.specs.declared.encapsulations.TheConstants.{PROGRAM};
ghost use Rattle.netlink_words.specs.Parts.{AddsPart, AddsParts};
ghost use Rattle.netlink_route_lines.specs.Program.{IsBpf, IsProgram, bpf_parts, found_program, headroom_part, program_name, program_parts};

use netlink_family::{BlockView, Table};
use netlink_route::Routes;
use netlink_route::encapsulations::{
    LWT_BPF_IN, LWT_BPF_OUT, LWT_BPF_PROG_NAME, LWT_BPF_XMIT, LWT_BPF_XMIT_HEADROOM,
};
use netlink_words::parts::{or_empty, push_part};
use netlink_words::text::name_text;
use std::alloc::{AllocError, Global};

/// Appends the programs for packets that come in, that go out and that are sent, and the room
/// before a packet.
#[tactic(auto, unfolding(crate::specs::Program::bpf_parts), using(netlink_words::specs::Joined::with_parts_append))]
pub(crate) fn push_bpf(
    alloc: Global,
    text: &mut String,
    nest: &BlockView<'_>,
) -> Result<(), AllocError>
    requires { IsBpf (⟦<Routes as Table>⟧.rows 24) nest.now }
    ensures { OnOk result (AddsParts text.old text.new (bpf_parts nest.now.block.now)) }
{
    push_found(alloc, text, "in", LWT_BPF_IN, nest)?;
    push_found(alloc, text, "out", LWT_BPF_OUT, nest)?;
    push_found(alloc, text, "xmit", LWT_BPF_XMIT, nest)?;
    push_headroom(alloc, text, nest.u32(LWT_BPF_XMIT_HEADROOM))
}

/// Appends a key and the program of a kind, if there is one.
#[tactic(auto, unfolding(crate::specs::Program::found_program))]
fn push_found(
    alloc: Global,
    text: &mut String,
    key: &str,
    kind: u16,
    nest: &BlockView<'_>,
) -> Result<(), AllocError>
    requires rows { rows_in nest.now.rows.list.now ≡ ⟦<Routes as Table>⟧.rows 24 }
    requires shape { shape_at nest.now kind ≡ Nested PROGRAM }
    ensures { OnOk result (AddsParts text.old text.new (found_program key.now (found_in nest.now.block.now kind))) }
{
    match nest.nest(kind) {
        None => Ok(()),
        Some(program) => push_program(alloc, text, key, &program),
    }
}

/// Appends the room before a packet, if it is there. `ip` prints it without a key.
#[tactic(auto, unfolding(crate::specs::Program::headroom_part, netlink_words::specs::Parts::with_part))]
fn push_headroom(alloc: Global, text: &mut String, room: Option<u32>) -> Result<(), AllocError>
    ensures { OnOk result (AddsPart text.old text.new (headroom_part room)) }
{
    match room {
        None => Ok(()),
        Some(room) => push_part(text, format!(in alloc; "{room}")?.as_str()),
    }
}

/// Appends a key and the name of a program, if it has one. The attributes in `SEG6_LOCAL_BPF` have
/// the kinds of those in `LWT_BPF_IN`.
#[tactic(auto, unfolding(crate::specs::Program::program_parts))]
pub(crate) fn push_program(
    alloc: Global,
    text: &mut String,
    key: &str,
    program: &BlockView<'_>,
) -> Result<(), AllocError>
    requires { IsProgram program.now }
    ensures { OnOk result (AddsParts text.old text.new (program_parts key.now program.now.block.now)) }
{
    push_part(text, key)?;
    push_part(text, name_text(alloc, program_name(program))?.as_str())
}

/// Returns the name of a program; empty if it has none.
pub fn program_name<'a>(program: &BlockView<'a>) -> &'a [u8]
    requires { IsProgram program.now }
    ensures { result.now ≡ program_name program.now.block.now }
{
    or_empty(program.str_bytes(LWT_BPF_PROG_NAME))
}
