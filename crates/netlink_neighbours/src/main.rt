//! Prints the link, the state and the addresses of each neighbour in the messages of standard input.
#![tactic(auto)]

ghost use Rattle.std.specs.Prelude.{None, IfOk};
ghost use Rattle.netlink_packet_core.specs.FrameWalk.{FrameWalk};

use netlink_family::MessageView;
use netlink_packet_core::{DecodeError, NetlinkBuffer, push_hex};
use netlink_program::{Ending, read_all};
use netlink_route::neighbours::{
    NDA_DST, NDA_LLADDR, NDM_IFINDEX, NDM_STATE, Neighbours, RTM_NEWNEIGH,
};
use netlink_tree::{Frames, frames_fault};
use std::alloc::{AllocError, Global};
use std::convert::Infallible;

/// Returns a line for each neighbour in these messages, or the first error. Damaged input has none.
fn lines_of(alloc: Global, input: &[u8]) -> Result<String, DecodeError>
    ensures whole { IfOk result (λ _. (frames : _) × FrameWalk input.now frames None) }
{
    if let Some(error) = frames_fault(input) {
        return Err(error);
    }
    let mut lines = String::new(alloc);
    for item in Frames::new(input) {
        let frame = NetlinkBuffer::new(item?);
        if frame.message_type() != RTM_NEWNEIGH {
            continue;
        }
        match MessageView::new(RTM_NEWNEIGH, frame.payload()) {
            Ok(neighbour) => push_line(&mut lines, &neighbour)?,
            Err(error) => return Err(DecodeError::from(error.to_string(alloc)?)),
        }
    }
    Ok(lines)
}

/// Appends the line of a neighbour. Its addresses are in hexadecimal, or `-` if there is none.
fn push_line(
    lines: &mut String,
    neighbour: &MessageView<'_, Neighbours>,
) -> Result<(), AllocError> {
    let link = neighbour.header().i32(NDM_IFINDEX);
    let state = neighbour.header().u16(NDM_STATE);
    write!(lines, "link {link} state {state} address ")?;
    push_hex(lines, neighbour.view().ip(NDA_DST).unwrap_or(&[]))?;
    lines.push_str(" at ")?;
    push_hex(lines, neighbour.view().bytes(NDA_LLADDR).unwrap_or(&[]))?;
    lines.push('\n')
}

/// Exits with status 0, or prints the error text to standard error and exits with status 1.
fn main(rt: HostRuntime) -> Ending<DecodeError, Infallible> {
    let Ok(input) = read_all(rt.alloc(), &mut rt.reader()) else {
        return Ending::Failed(DecodeError::from_text(rt.alloc(), "read failed"));
    };
    match lines_of(rt.alloc(), &input) {
        Ok(lines) => match print!(rt; "{lines}") {
            Ok(()) => Ending::Done,
            Err(_) => Ending::Failed(DecodeError::from_text(rt.alloc(), "write failed")),
        },
        Err(error) => Ending::Failed(error),
    }
}
