//! Prints the type of the route netlink message that standard input begins with.
#![tactic(auto)]

ghost use Rattle.std.specs.Prelude.{◌≡◌, IfErr, IfOk};
ghost use Rattle.netlink_packet_core.specs.Frame.{Frame};
ghost use Rattle.netlink_packet_core.specs.Refusal.{IsRefusal};
ghost use Rattle.netlink_packet_core.specs.declared.message.NetlinkMessage.{NetlinkMessage};
ghost use Rattle.netlink_family.specs.ErrorTexts.{wants_memory};

use netlink_packet_core::{DecodeError, NetlinkDeserializable, NetlinkMessage};
use netlink_program::{Ending, read_all};
use netlink_route::RouteMessage;
use std::alloc::Global;
use std::convert::Infallible;

/// Returns the type of the message at the start of `bytes`, or the error of `deserialize`.
fn message_type(alloc: Global, bytes: &[u8]) -> Result<u16, DecodeError>
    ensures accepts { IfOk result (λ number. (m : NetlinkMessage _)
        × Frame ⟦<RouteMessage as NetlinkDeserializable>⟧.decoding bytes.now m
        × (number ≡ m.header.message_type)) }
    ensures refuses { IfErr result
        (IsRefusal ⟦<RouteMessage as NetlinkDeserializable>⟧.decoding wants_memory bytes.now) }
{
    let message = NetlinkMessage::<RouteMessage>::deserialize(alloc, bytes)?;
    Ok(message.header.message_type)
}

/// Exits with status 0, or prints the error text to standard error and exits with status 1.
fn main(rt: HostRuntime) -> Ending<DecodeError, Infallible> {
    let alloc = rt.alloc();
    let Ok(input) = read_all(alloc, &mut rt.reader()) else {
        return Ending::Failed(DecodeError::from_text(alloc, "read failed"));
    };
    let number = match message_type(alloc, &input) {
        Ok(number) => number,
        Err(error) => return Ending::Failed(error),
    };
    match println!(rt; "{number}") {
        Ok(()) => Ending::Done,
        Err(_) => Ending::Failed(DecodeError::from_text(alloc, "write failed")),
    }
}
