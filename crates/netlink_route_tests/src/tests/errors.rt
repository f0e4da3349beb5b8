//! Each error of a payload, with the offset of its attribute.

use crate::tests::samples::{decoded, invalid, wrong_size};
use netlink_family::{AttributeError, FamilyError, Reason};
use netlink_route::links::{IFLA_CARRIER, IFLA_IFNAME, IFLA_INFO_KIND, IFLA_MTU, INFO};
use std::test::Fail;

/// Returns the error of a payload of this message type: a header of 16 zeros and an attribute.
fn error_of(
    rt: &HostRuntime,
    message_type: u16,
    attribute: &[u8],
) -> Result<Option<FamilyError>, Fail> {
    let mut payload = vec![in rt.alloc(); 0u8; 16]?;
    payload.extend_from_slice(attribute)?;
    Ok(decoded(rt.alloc(), message_type, &payload).err())
}

#[test]
fn each_invalid_attribute_has_its_error(rt: HostRuntime) -> Result<(), Fail> {
    let truncated = Reason::Truncated {
        expected: 9,
        received: 8,
    };
    let in_nest = AttributeError {
        offset: 20,
        policy: INFO,
        reason: Reason::InteriorNul {
            kind: IFLA_INFO_KIND,
        },
    };
    let rows: [(&[u8], Option<FamilyError>); 12] = [
        (&[], None),
        (&[8, 0, 4, 0, 0, 0, 0, 0], None),
        (&[7, 0, 4, 0, 1, 2, 3, 0], wrong_size(16, IFLA_MTU, 4, 3)),
        (&[4, 0, 4, 0], wrong_size(16, IFLA_MTU, 4, 0)),
        (
            &[9, 0, 4, 0, 1, 2, 3, 4, 5, 0, 0, 0],
            wrong_size(16, IFLA_MTU, 4, 5),
        ),
        (&[4, 0, 33, 0], wrong_size(16, IFLA_CARRIER, 1, 0)),
        (&[6, 0, 3, 0, b'l', b'o', 0, 0], None),
        (
            &[8, 0, 3, 0, b'l', b'o', 0, 0],
            invalid(16, Reason::InteriorNul { kind: IFLA_IFNAME }),
        ),
        (&[6, 0, 3, 0, 0xff, 0, 0, 0], None),
        (&[4, 0, 3, 0], None),
        (
            &[12, 0, 18, 0, 7, 0, 1, 0, b'a', 0, b'b', 0],
            Some(FamilyError::InvalidAttribute(in_nest)),
        ),
        (&[9, 0, 4, 0, 0, 0, 0, 0], invalid(16, truncated)),
    ];
    for (attribute, expected) in rows.iter() {
        assert!(rt; error_of(&rt, 16, attribute)? == *expected);
    }
    Ok(())
}

#[test]
fn other_payloads_have_their_error(rt: HostRuntime) -> Result<(), Fail> {
    let alloc = rt.alloc();
    let unknown = FamilyError::UnknownType { message_type: 31 };
    assert!(rt; error_of(&rt, 31, &[])? == Some(unknown));
    let rows: [(u16, usize, usize); 22] = [
        (19, 16, 15),
        (22, 8, 7),
        (30, 12, 11),
        (25, 12, 11),
        (33, 12, 11),
        (67, 4, 3),
        (89, 4, 3),
        (52, 12, 11),
        (81, 4, 3),
        (105, 8, 7),
        (117, 8, 7),
        (37, 20, 19),
        (41, 20, 4),
        (46, 20, 19),
        (101, 20, 16),
        (49, 4, 3),
        (85, 8, 7),
        (92, 12, 11),
        (94, 12, 11),
        (95, 12, 4),
        (113, 8, 7),
        (121, 8, 7),
    ];
    for (message_type, expected, received) in rows.iter() {
        let error = FamilyError::HeaderShort {
            expected: *expected,
            received: *received,
        };
        let zeros = vec![in alloc; 0u8; *received]?;
        assert!(rt; decoded(alloc, *message_type, &zeros).err() == Some(error));
    }
    Ok(())
}
