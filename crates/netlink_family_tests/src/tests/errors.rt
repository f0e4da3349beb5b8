//! Errors have their offsets, also inside nests.

use crate::route::{Route, name_of_error};
use crate::rules::{MARK, MARK_INNER, RTM_NEWRULE};
use crate::tables::{NDTPA_IFINDEX, NDTPA_REFCNT, PARMS, RTM_NEWNEIGHTBL};
use netlink_family::{AttributeError, FamilyError, Reason, TOP};
use netlink_packet_core::{NetlinkDeserializable, NetlinkHeader};
use std::alloc::{AllocError, Global};
use std::test::Fail;

/// Returns the error of a payload of a message with this type.
fn error_of(rt: HostRuntime, message_type: u16, payload: &[u8]) -> Option<FamilyError> {
    let header = NetlinkHeader {
        message_type,
        ..NetlinkHeader::default()
    };
    Route::deserialize(rt.alloc(), &header, payload).err()
}

/// Returns an error as text.
pub(super) fn text_of(alloc: Global, error: FamilyError) -> Result<String, AllocError> {
    format!(in alloc; "{error}")
}

#[test]
fn errors_in_nests_have_their_offset(rt: HostRuntime) -> Result<(), Fail> {
    // the second attribute of the nest has 3 bytes
    let payload = [
        2, 0, 0, 0, // AF_INET
        8, 0, 2, 0, 128, 0, 0, 0, // NDTA_THRESH1
        20, 0, 6, 0, // NDTA_PARMS
        8, 0, 1, 0, 3, 0, 0, 0, // NDTPA_IFINDEX
        7, 0, 2, 0, 1, 2, 3, 0, // NDTPA_REFCNT
    ];
    let found = error_of(rt, RTM_NEWNEIGHTBL, &payload);
    assert!(rt;
        found
            == Some(FamilyError::InvalidAttribute(AttributeError {
                offset: 24,
                policy: PARMS,
                reason: Reason::WrongSize {
                    kind: NDTPA_REFCNT,
                    expected: 4,
                    received: 3,
                },
            }))
    );
    Ok(())
}

#[test]
fn truncated_attributes_in_nests_have_their_offset(rt: HostRuntime) -> Result<(), Fail> {
    // the second attribute of the nest has length 9
    let payload = [
        2, 0, 0, 0, // AF_INET
        20, 0, 6, 0, // NDTA_PARMS
        8, 0, 1, 0, 3, 0, 0, 0, // NDTPA_IFINDEX
        9, 0, 2, 0, 1, 2, 3, 0, // NDTPA_REFCNT
    ];
    let found = error_of(rt, RTM_NEWNEIGHTBL, &payload);
    assert!(rt;
        found
            == Some(FamilyError::InvalidAttribute(AttributeError {
                offset: 16,
                policy: PARMS,
                reason: Reason::Truncated {
                    expected: 9,
                    received: 8,
                },
            }))
    );
    Ok(())
}

#[test]
fn errors_outside_nests_have_their_offset(rt: HostRuntime) -> Result<(), Fail> {
    let payload = [
        2, 0, 0, 0, // AF_INET
        8, 0, 2, 0, 128, 0, 0, 0, // NDTA_THRESH1
        1, 2, 3, // too few bytes for an attribute
    ];
    let found = error_of(rt, RTM_NEWNEIGHTBL, &payload);
    assert!(rt;
        found
            == Some(FamilyError::InvalidAttribute(AttributeError {
                offset: 12,
                policy: TOP,
                reason: Reason::Short { received: 3 },
            }))
    );
    Ok(())
}

#[test]
fn errors_have_a_text(rt: HostRuntime) -> Result<(), Fail> {
    let error = FamilyError::InvalidAttribute(AttributeError {
        offset: 24,
        policy: PARMS,
        reason: Reason::WrongSize {
            kind: NDTPA_IFINDEX,
            expected: 4,
            received: 3,
        },
    });
    assert_eq!(rt;
        text_of(rt.alloc(), error)?.as_str(),
        "at byte 24, in policy 1: attribute 1 has a value of 3 bytes instead of 4"
    );
    assert_eq!(rt; name_of_error(RTM_NEWNEIGHTBL, &error), "NDTPA_IFINDEX");
    Ok(())
}

#[test]
fn nests_are_at_most_eight_deep(rt: HostRuntime) -> Result<(), Fail> {
    let eight = [
        2, 0, 0, 0, 0, 0, 0, 0, 0, 0, 0, 0, // header
        32, 0, 0, 0x30, 28, 0, 0, 0, // FRA_MARKS, its element 0
        24, 0, 4, 0, 20, 0, 4, 0, 16, 0, 4, 0, 12, 0, 4, 0, 8, 0, 4, 0, 4, 0, 4, 0, // MARK_INNER
    ];
    let nine = [
        2, 0, 0, 0, 0, 0, 0, 0, 0, 0, 0, 0, // header
        36, 0, 0, 0x30, 32, 0, 0, 0, // FRA_MARKS, its element 0
        28, 0, 4, 0, 24, 0, 4, 0, 20, 0, 4, 0, 16, 0, 4, 0, 12, 0, 4, 0, 8, 0, 4, 0, // MARK_INNER
        4, 0, 4, 0, // and one more
    ];
    assert!(rt; error_of(rt, RTM_NEWRULE, &eight) == None);
    let found = error_of(rt, RTM_NEWRULE, &nine);
    assert!(rt;
        found
            == Some(FamilyError::InvalidAttribute(AttributeError {
                offset: 44,
                policy: MARK,
                reason: Reason::TooDeep { kind: MARK_INNER },
            }))
    );
    Ok(())
}
