//! The first bytes of an input.

ghost use Rattle.std.specs.Prelude.{◌≡◌, ◌⊎◌, [], IfErr, OnOk};
ghost use Rattle.netlink_input.specs.Reading.{Starts, TriesStart};

use crate::fault::Fault;
use crate::pcap::{FILE_HEADER_LEN, MAGIC_LEN, is_pcap};
use crate::stream::read_up_to;
use std::io::Read;

/// Reads the first 4 bytes of an input into an empty vector, and the rest of the header of 24 bytes
/// if they are those of a pcap file; fewer if the input ends.
///
/// Returns `Read` if the reader fails; it has then not given all of these bytes. Returns
/// `OutOfMemory` if an allocation fails.
pub fn read_start<R: Read>(reader: &mut R, first: &mut Vec<u8>) -> Result<(), Fault>
    requires empty { first.old.items ≡ [] }
    ensures start { OnOk result (Starts (R.remaining reader.old) (R.remaining reader.new) first.new.items) }
    ensures fault { IfErr result (λ fault. (fault ≡ Fault.OutOfMemory) ⊎ ((fault ≡ Fault.Read)
        × TriesStart (R.remaining reader.old) (R.remaining reader.new))) }
{
    read_up_to(reader, first, MAGIC_LEN)?;
    if is_pcap(first) {
        read_up_to(reader, first, FILE_HEADER_LEN)?;
    }
    Ok(())
}
