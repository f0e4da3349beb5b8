//! Overwriting the value of an attribute in place.

ghost use Rattle.std.specs.Prelude.{◌≡◌, ◌↔◌, List, Option, IsTrue, false, length};
ghost use Rattle.netlink_packet_core.specs.Attribute.{Attribute};
ghost use Rattle.netlink_packet_core.specs.DecodeError.{DecodeError};
ghost use Rattle.netlink_packet_core.specs.Places.{HasValueOf, IsWritten};
ghost use Rattle.netlink_packet_core.specs.Walk.{Walk};

use netlink_packet_core::write_nla_value;

/// Overwrites the value of the attribute at `index`, which counts from 0, even if the block is
/// malformed further on. Returns true if and only if there is such an attribute and its value has
/// the same size as `value`. Otherwise the block is unchanged. Does not allocate.
pub fn overwrite(block: &mut [u8], index: usize, value: &[u8]) -> bool
    ensures succeeds { (all : List Attribute) (fault : Option DecodeError) → Walk block.old all fault
        → IsTrue result ↔ HasValueOf all index (length value.now) }
    ensures written { IsTrue result → IsWritten block.old index value.now block.new }
    ensures unchanged { result ≡ false → block.new ≡ block.old }
{
    write_nla_value(block, index, value)
}
