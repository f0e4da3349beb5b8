//! A value overwritten in place.

ghost use Rattle.std.specs.Prelude.{◌≡◌, ◌≢◌, ◌↔◌, List, Option, length};
ghost use Rattle.netlink_packet_core.specs.Attribute.{Attribute};
ghost use Rattle.netlink_packet_core.specs.DecodeError.{DecodeError};
ghost use Rattle.netlink_packet_core.specs.Places.{HasValueOf, IsWritten};
ghost use Rattle.netlink_packet_core.specs.Walk.{Walk};
ghost use Rattle.netlink_c.specs.declared.results.TheConstants.{NO_PLACE};

use crate::results::{NO_PLACE, OK};
use netlink_packet_core::write_nla_value;

/// Overwrites the value of the attribute at `index`, which counts from 0, even if the block is
/// malformed further on.
///
/// Returns 0 if and only if there is such an attribute and its value has the same size in bytes.
/// Otherwise returns `NO_PLACE`, and the block is unchanged. Wraps `write_nla_value`. Does not
/// allocate.
#[unsafe(no_mangle)]
pub extern "C" fn nlp_attr_write(block: &mut [u8], index: usize, value: &[u8]) -> u32
    ensures done { (all : List Attribute) (fault : Option DecodeError) → Walk block.old all fault
        → (result ≡ 0) ↔ HasValueOf all index (length value.now) }
    ensures written { result ≡ 0 → IsWritten block.old index value.now block.new }
    ensures unchanged { result ≢ 0 → (result ≡ NO_PLACE) × (block.new ≡ block.old) }
{
    if write_nla_value(block, index, value) {
        OK
    } else {
        NO_PLACE
    }
}
