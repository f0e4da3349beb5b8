//! Calls that do not allocate. `tests/memory` runs the test with every allocation failing, starting
//! at its marker.

use crate::{Comparisons, EthernetProtocol, look_up};
use std::alloc::Global;
use std::fmt;
use std::fmt::Write;

/// The size of the allocation that is the marker.
const MARKER: usize = 7_654_321;

/// A buffer of few bytes that text is written to.
#[derive(Drop)]
struct Line {
    text: [u8; 8],
    len: usize,
}

impl fmt::Write for Line {
    fn write_str(&mut self, s: &str) -> fmt::Result {
        for byte in s.as_bytes().iter() {
            match self.text.get_mut(self.len) {
                Some(place) => *place = *byte,
                None => return Err(fmt::Error),
            }
            self.len += 1;
        }
        Ok(())
    }
}

/// If `tests/memory` runs the test, this allocation and every later one fail.
fn fail_from_here(alloc: Global) {
    let _ = Vec::<u8>::with_capacity(alloc, MARKER);
}

#[test]
fn ethernet_protocols(rt: HostRuntime) {
    fail_from_here(rt.alloc());
    assert!(rt; EthernetProtocol::from(0x0800) == EthernetProtocol::Ip);
    assert!(rt; EthernetProtocol::from(0x1234).value() == 0x1234);
    assert!(rt; EthernetProtocol::Other(0x0800).value() == 0x0800);
    assert!(rt; u16::from(EthernetProtocol::Ip) == 0x0800);
    let mut comparisons = Comparisons::new();
    assert!(rt; look_up(0x0800, &mut comparisons) == EthernetProtocol::Ip);
    assert!(rt; comparisons.count() <= 7);
    let mut line = Line {
        text: [0; 8],
        len: 0,
    };
    assert!(rt; write!(line, "{}", EthernetProtocol::Ip).is_ok());
    assert!(rt; write!(line, "{}", EthernetProtocol::Other(0x1234)).is_ok());
    assert!(rt; line.text == *b"ip0x1234");
}
