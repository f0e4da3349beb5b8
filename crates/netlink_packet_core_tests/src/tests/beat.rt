//! A protocol with one message, for tests.

ghost use Rattle.std.proofs.Common.{rules};
ghost use Rattle.std.proofs.lemmas.Grind.{common_steps};
ghost use Rattle.std.specs.Prelude.{◌==◌, [], Some, None, true, false, refl, if◌then◌else◌};

use netlink_packet_core::{
    NetlinkDeserializable, NetlinkHeader, NetlinkProtocol, NetlinkSerializable,
};
use std::alloc::Global;
use std::error::Error;
use std::fmt;

/// A message of type 16 without bytes. Bytes in its payload are dropped.
#[derive(Debug, Drop, PartialEq, Eq)]
pub struct Beat;

/// The error for a header whose type is not 16.
#[derive(Debug, Drop)]
pub struct NotABeat;

impl fmt::Display for NotABeat {
    fn fmt<W: fmt::Write>(&self, f: &mut fmt::Formatter<W>) -> fmt::Result {
        f.write_str("not a beat")
    }
}

impl Error for NotABeat {}

impl NetlinkSerializable for Beat {
    ghost encoding = { record { type_of = λ _. 16; bytes_of = λ _. [] } };

    fn message_type(&self) -> u16 {
        16
    }

    fn buffer_len(&self) -> usize {
        0
    }

    fn serialize(&self, _buffer: &mut [u8]) {}
}

impl NetlinkDeserializable for Beat {
    type Error = NotABeat;

    ghost decoding = { record {
      reading = λ h _. if h.message_type == 16 then Some (16, []) else None;
      stands_for = λ _. (16, []);
      in_range = λ _. true;
    } };

    ghost wants_memory = { λ _. false };

    fn deserialize(
        _alloc: Global,
        header: &NetlinkHeader,
        _payload: &[u8],
    ) -> Result<Self, NotABeat> {
        if header.message_type == 16 {
            Ok(Beat)
        } else {
            Err(NotABeat)
        }
    }

    fn is_out_of_memory(_error: &NotABeat) -> bool {
        false
    }
}

impl NetlinkProtocol for Beat {
    fn in_widths(&self) {}

    ghost own_pair = { λ v. refl };

    ghost equal_pairs = { Prim.search (rules, common_steps) };

    ghost value_is_lawful = { Prim.search (rules, common_steps) };

    ghost reading_is_lawful = { Prim.search (rules, common_steps) };
}
