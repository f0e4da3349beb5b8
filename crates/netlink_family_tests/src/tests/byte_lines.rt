//! The bytes of messages, one line per field.

use crate::route::Families;
use crate::rules::{FRH_ACTION, FRH_FLAGS, RTM_NEWRULE};
use crate::tables::RTM_NEWNEIGHTBL;
use netlink_family::byte_lines::{push_block_lines, push_field_lines, push_payload_lines};
use std::alloc::{AllocError, Global};
use std::test::Fail;

/// A neighbour table, of which the name and the interface have three bytes of padding.
const TABLE: [u8; 44] = [
    2, 0, 0, 0, // AF_INET
    6, 0, 1, 0, b'a', 0, 0, 0, // NDTA_NAME
    24, 0, 6, 0, // NDTA_PARMS
    8, 0, 1, 0, 3, 0, 0, 0, // NDTPA_IFINDEX
    12, 0, 3, 0, 0x30, 0x75, 0, 0, 0, 0, 0, 0, // NDTPA_REACHABLE_TIME
    5, 0, 77, 0, 1, 0, 0, 0, // a kind without a row
];

const TABLE_LINES: &str = "  16  02  ndtm_family: 2
  17  00 00 00
  20  06 00 01 00 61 00 00 00  NDTA_NAME: a
  28  18 00 06 00  NDTA_PARMS:
    32  08 00 01 00 03 00 00 00  NDTPA_IFINDEX: 3
    40  0c 00 03 00 30 75 00 00 00 00 00 00  NDTPA_REACHABLE_TIME: 30000
  52  05 00 4d 00 01 00 00 00  77: 01
";

/// Returns the lines of a payload at offset 16.
fn lines(
    alloc: Global,
    message_type: u16,
    fault: Option<u64>,
    payload: &[u8],
) -> Result<String, AllocError> {
    let mut text = String::new(alloc);
    push_payload_lines::<Families>(&mut text, message_type, fault, 16, payload)?;
    Ok(text)
}

#[test]
fn each_byte_has_a_line(rt: HostRuntime) -> Result<(), Fail> {
    let text = lines(rt.alloc(), RTM_NEWNEIGHTBL, None, &TABLE)?;
    assert_eq!(rt; text.as_str(), TABLE_LINES);
    Ok(())
}

/// The value of a string has a NUL in it, and the bytes after it are no attribute.
#[test]
fn the_line_of_the_fault_is_marked(rt: HostRuntime) -> Result<(), Fail> {
    let payload = [
        2, 0, 0, 0, // AF_INET
        7, 0, 1, 0, b'a', 0, b'b', 0, // NDTA_NAME
        9, 0, 2, 0, 1, // cut
    ];
    let before = "  16  02  ndtm_family: 2\n  17  00 00 00\n";
    let name = "20  07 00 01 00 61 00 62 00  NDTA_NAME: 610062\n";
    let rest = "28  09 00 02 00 01\n";
    for (fault, name_mark, rest_mark) in [
        (None, " ", " "),
        (Some(20), "!", " "),
        (Some(28), " ", "!"),
    ] {
        let text = lines(rt.alloc(), RTM_NEWNEIGHTBL, fault, &payload)?;
        let wanted = format!(in rt.alloc(); "{before}{name_mark} {name}{rest_mark} {rest}")?;
        assert_eq!(rt; text.as_str(), wanted.as_str());
    }
    Ok(())
}

/// Fields in any order, and a header that is cut in one.
#[test]
fn fields_have_lines(rt: HostRuntime) -> Result<(), Fail> {
    let header = [0, 0, 0, 0, 0, 0, 0, 6, 1, 2];
    let mut text = String::new(rt.alloc());
    push_field_lines(&mut text, &[FRH_ACTION, FRH_FLAGS], None, 0, &header)?;
    assert_eq!(rt;
        text.as_str(),
        "  0  00 00 00 00 00 00 00\n  7  06  action: 6\n  8  01 02  flags: 0102\n"
    );
    let mut text = String::new(rt.alloc());
    push_field_lines(&mut text, &[FRH_ACTION], Some(108), 100, &header)?;
    assert_eq!(rt;
        text.as_str(),
        "  100  00 00 00 00 00 00 00\n  107  06  action: 6\n! 108  01 02\n"
    );
    Ok(())
}

/// A block alone, by the rows of rules. Its end is at 60.
#[test]
fn blocks_have_lines(rt: HostRuntime) -> Result<(), Fail> {
    let block = [8, 0, 6, 0, 1, 0, 0, 0]; // FRA_PRIORITY
    let mut text = String::new(rt.alloc());
    push_block_lines::<Families>(&mut text, RTM_NEWRULE, None, 60, &block)?;
    assert_eq!(rt;
        text.as_str(),
        "  52  08 00 06 00 01 00 00 00  FRA_PRIORITY: 1\n"
    );
    Ok(())
}
