//! Laws about the conversions. Calling a law does nothing at run time: its contract is the theorem,
//! for any argument.

ghost use Rattle.std.specs.Prelude.{◌≡◌, ◌↔◌, IsTrue};
ghost use Rattle.netlink_ethernet.specs.Table.{IsProper, number_of, protocol_of};
ghost use Rattle.netlink_ethernet.specs.declared.protocol.EthernetProtocol.{EthernetProtocol};

use crate::protocol::EthernetProtocol;

/// States that a number's protocol has that number: `EthernetProtocol::from(number).value()` is
/// `number`.
pub fn number_kept(number: u16)
    ensures kept { number_of (protocol_of number) ≡ number }
{}

/// States that converting a protocol to its number and back with `EthernetProtocol::from` gives the
/// same protocol, unless it is `Other` with a number for which there is a variant.
pub fn protocol_kept(protocol: EthernetProtocol)
    ensures kept { IsProper protocol → protocol_of (number_of protocol) ≡ protocol }
{}

/// States that two protocols are equal if and only if they are the same variant and, for `Other`,
/// have the same number.
pub fn protocols_equal()
    ensures equal { (a b : EthernetProtocol)
        → IsTrue (⟦<EthernetProtocol as PartialEq>⟧.eq a b) ↔ (a ≡ b) }
{}
