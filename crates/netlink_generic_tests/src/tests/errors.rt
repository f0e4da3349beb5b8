//! Errors of messages, each with its kind and its offset.

use crate::tests::samples::{NLCTRL, decoded, invalid};
use netlink_family::{FamilyError, Reason};
use netlink_generic::controller::{
    CTRL_ATTR_FAMILY_ID, CTRL_ATTR_FAMILY_NAME, CTRL_ATTR_MCAST_GRP_NAME, CTRL_ATTR_OP_ID, GROUP,
    GROUPS, OP, OPS,
};
use std::alloc::Global;
use std::test::Fail;

/// Returns the error of a payload: a header of zeros and these attributes.
fn error_of(alloc: Global, attributes: &[u8]) -> Result<Option<FamilyError>, Fail> {
    let mut payload = vec![in alloc; 0u8; 4]?;
    payload.extend_from_slice(attributes)?;
    Ok(decoded(alloc, &payload).err())
}

/// Returns the error of a value of the wrong size.
fn wrong_size(
    offset: usize,
    policy: u16,
    kind: u16,
    expected: usize,
    received: usize,
) -> Option<FamilyError> {
    let reason = Reason::WrongSize {
        kind,
        expected,
        received,
    };
    invalid(offset, policy, reason)
}

#[test]
fn each_invalid_attribute_has_its_error(rt: HostRuntime) -> Result<(), Fail> {
    let truncated = Reason::Truncated {
        expected: 8,
        received: 6,
    };
    let interior_nul = Reason::InteriorNul {
        kind: CTRL_ATTR_FAMILY_NAME,
    };
    let group_nul = Reason::InteriorNul {
        kind: CTRL_ATTR_MCAST_GRP_NAME,
    };
    let rows: [(&[u8], Option<FamilyError>); 9] = [
        (&[], None),
        (&[4, 0, 6, 0], None),
        (
            &[5, 0, 1, 0, 1, 0, 0, 0],
            wrong_size(4, 0, CTRL_ATTR_FAMILY_ID, 2, 1),
        ),
        (&[7, 0, 2, 0, b'a', 0, 0, 0], invalid(4, 0, interior_nul)),
        // an operation is cut after two bytes of its header
        (
            &[6, 0, 6, 0, 8, 0, 0, 0],
            invalid(8, OPS, Reason::Short { received: 2 }),
        ),
        // an operation is cut inside the value of its id
        (
            &[14, 0, 6, 0, 10, 0, 1, 0, 8, 0, 1, 0, 3, 0, 0, 0],
            invalid(12, OP, truncated),
        ),
        (
            &[16, 0, 6, 0, 12, 0, 1, 0, 6, 0, 1, 0, 3, 0, 0, 0],
            wrong_size(12, OP, CTRL_ATTR_OP_ID, 4, 2),
        ),
        (
            &[8, 0, 7, 0, 3, 0, 1, 0],
            invalid(8, GROUPS, Reason::InvalidLength { received: 3 }),
        ),
        (
            &[16, 0, 7, 0, 12, 0, 1, 0, 8, 0, 1, 0, b'a', 0, b'b', 0],
            invalid(12, GROUP, group_nul),
        ),
    ];
    for (attributes, expected) in rows.iter() {
        assert!(rt; error_of(rt.alloc(), attributes)? == *expected);
    }
    Ok(())
}

/// The last attribute of the captured reply is cut at each of its bytes: the array of groups is
/// truncated, whatever is left of it.
#[test]
fn a_truncated_nest_has_its_offset(rt: HostRuntime) {
    for left in 4usize..28 {
        let reason = Reason::Truncated {
            expected: 28,
            received: left,
        };
        let payload = &NLCTRL[16..108 + left];
        assert!(rt; decoded(rt.alloc(), payload).err() == invalid(92, 0, reason));
    }
}
