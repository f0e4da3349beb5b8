//! The round trip of every number, and printed names.

mod memory_not_asked;

use crate::laws::{number_kept, protocol_kept, protocols_equal};
use crate::{Comparisons, EthernetProtocol, look_up};
use std::test::Fail;

#[test]
fn converts_every_number_there_and_back(rt: HostRuntime) {
    let mut with_a_variant = 0u32;
    for number in 0..=u16::MAX {
        let mut comparisons = Comparisons::new();
        let protocol = look_up(number, &mut comparisons);
        assert!(rt; comparisons.count() >= 1 && comparisons.count() <= 7);
        assert_eq!(rt; protocol, EthernetProtocol::from(number));
        assert_eq!(rt; protocol.value(), number);
        assert_eq!(rt; u16::from(protocol), number);
        number_kept(number);
        protocol_kept(protocol);
        match protocol {
            EthernetProtocol::Other(_) => {}
            _ => with_a_variant = with_a_variant.saturating_add(1),
        }
    }
    assert_eq!(rt; with_a_variant, 102);
}

#[test]
fn other_of_a_table_number_becomes_its_variant(rt: HostRuntime) {
    let number = u16::from(EthernetProtocol::Other(0x0800));
    assert_eq!(rt; number, 0x0800);
    assert_eq!(rt; EthernetProtocol::from(number), EthernetProtocol::Ip);
}

#[test]
fn prints_names_and_hexadecimal_numbers(rt: HostRuntime) -> Result<(), Fail> {
    let alloc = rt.alloc();
    for (protocol, text) in [
        (EthernetProtocol::from(0x0800), "ip"),
        (EthernetProtocol::from(0x1234), "0x1234"),
        (EthernetProtocol::from(0x0001), "802_3"),
        (EthernetProtocol::from(0x0060), "loop"),
        (EthernetProtocol::from(0x9000), "loopback"),
        (EthernetProtocol::Other(0), "0x0"),
        (EthernetProtocol::Other(0xffff), "0xffff"),
    ] {
        assert_eq!(rt; protocol.to_string(alloc)?.as_str(), text);
    }
    Ok(())
}

#[test]
fn protocols_are_copied_and_told_apart(rt: HostRuntime) {
    protocols_equal();
    for protocol in [EthernetProtocol::Ip, EthernetProtocol::Other(7)] {
        let copy = protocol;
        assert!(rt; copy == protocol);
        assert_eq!(rt; copy.value(), protocol.value());
    }
    assert!(rt; EthernetProtocol::Ip == EthernetProtocol::Ip);
    assert!(rt; EthernetProtocol::Ip != EthernetProtocol::Ipv6);
    assert!(rt; EthernetProtocol::Ip != EthernetProtocol::Other(0x0800));
    assert!(rt; EthernetProtocol::Other(1) == EthernetProtocol::Other(1));
    assert!(rt; EthernetProtocol::Other(1) != EthernetProtocol::Other(2));
}
