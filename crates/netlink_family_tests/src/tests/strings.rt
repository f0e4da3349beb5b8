//! Strings with and without a NUL, lists of nests, and minimum sizes.

use crate::route::Route;
use crate::rules::{FRA_IIFNAME, MARK, MARK_REST, RTM_NEWRULE};
use netlink_family::{AttributeError, FamilyError, Reason, Value, bytes_until_nul, str_until_nul};
use netlink_packet_core::{NetlinkDeserializable, NetlinkHeader};
use std::test::Fail;

/// The header of a new rule.
fn rule() -> NetlinkHeader {
    NetlinkHeader {
        message_type: RTM_NEWRULE,
        ..NetlinkHeader::default()
    }
}

/// Returns the value of a rule's interface.
fn name_of<'a>(rule: &'a Route) -> Option<&'a [u8]> {
    match rule.view().value(FRA_IIFNAME) {
        Some(Value::Str(bytes)) => Some(bytes),
        _ => None,
    }
}

#[test]
fn strings_need_no_nul(rt: HostRuntime) -> Result<(), Fail> {
    let rows: [(&[u8], Option<&str>); 4] = [
        (
            &[
                2, 0, 0, 0, 0, 0, 0, 0, 0, 0, 0, 0, 7, 0, 3, 0, b'e', b't', b'h', 0,
            ],
            Some("eth"),
        ),
        (
            &[
                2, 0, 0, 0, 0, 0, 0, 0, 0, 0, 0, 0, 8, 0, 3, 0, b'e', b't', b'h', 0,
            ],
            Some("eth"),
        ),
        (&[2, 0, 0, 0, 0, 0, 0, 0, 0, 0, 0, 0, 4, 0, 3, 0], Some("")),
        (
            &[
                2, 0, 0, 0, 0, 0, 0, 0, 0, 0, 0, 0, 6, 0, 3, 0, 0xff, 0xfe, 0, 0,
            ],
            None,
        ),
    ];
    for (payload, text) in rows.iter() {
        let message = Route::deserialize(rt.alloc(), &rule(), payload)?;
        assert_eq!(rt; message.bytes.as_slice(), *payload);
        match name_of(&message) {
            Some(bytes) => assert!(rt; str_until_nul(bytes) == *text),
            None => assert!(rt; false),
        }
    }
    Ok(())
}

#[test]
fn a_string_ends_at_its_first_nul(rt: HostRuntime) -> Result<(), Fail> {
    for size in 0..10usize {
        let text = [b'x'; 10];
        assert_eq!(rt; bytes_until_nul(&text[..size]), &text[..size]);
        for at in 0..size {
            let mut bytes = [b'x'; 10];
            bytes[9] = 0;
            bytes[at] = 0;
            assert_eq!(rt; bytes_until_nul(&bytes[..size]), &text[..at]);
        }
    }
    Ok(())
}

#[test]
fn a_nul_inside_a_string_is_rejected(rt: HostRuntime) -> Result<(), Fail> {
    let payload = [
        2, 0, 0, 0, 0, 0, 0, 0, 0, 0, 0, 0, 7, 0, 3, 0, b'e', 0, b'h', 0,
    ];
    let found = Route::deserialize(rt.alloc(), &rule(), &payload).err();
    assert!(rt;
        found
            == Some(FamilyError::InvalidAttribute(AttributeError {
                offset: 12,
                policy: 0,
                reason: Reason::InteriorNul { kind: FRA_IIFNAME },
            }))
    );
    Ok(())
}

#[test]
fn errors_in_lists_have_their_offset(rt: HostRuntime) -> Result<(), Fail> {
    let payload = [
        2, 0, 0, 0, 0, 0, 0, 0, 0, 0, 0, 0, // header
        32, 0, 0, 0x30, // FRA_MARKS
        12, 0, 0, 0, 8, 0, 1, 0, 7, 0, 0, 0, // the first: MARK_VALUE
        16, 0, 1, 0, // the second
        6, 0, 2, 0, 1, 2, 0, 0, // MARK_REST
        4, 0, 2, 0, // MARK_REST, too short
    ];
    let found = Route::deserialize(rt.alloc(), &rule(), &payload).err();
    assert!(rt;
        found
            == Some(FamilyError::InvalidAttribute(AttributeError {
                offset: 40,
                policy: MARK,
                reason: Reason::TooSmall {
                    kind: MARK_REST,
                    expected: 2,
                    received: 0,
                },
            }))
    );
    Ok(())
}
