//! Requests for a dump with a `struct rtgenmsg` in place of header and attributes
//! (linux/rtnetlink.h), and the message types that do not allow it.

use crate::tests::samples::decoded;
use netlink_family::FamilyError;
use std::alloc::Global;
use std::test::Fail;

// A message type, a payload, and the size of the header if the payload is rejected, else 0.
const PAYLOADS: [(u16, &[u8], usize); 62] = [
    (18, &[17, 0, 0, 0], 0),
    (22, &[0, 7, 8, 9], 0),
    (26, &[10], 0),
    (30, &[2, 0, 0, 0], 0),
    (34, &[2, 0], 0),
    (66, &[2, 0, 0], 0),
    (18, &[17, 0, 0, 0, 0], 16),
    (18, &[], 16),
    (22, &[0; 7], 8),
    (16, &[0; 4], 16),
    (17, &[0; 4], 16),
    (19, &[0; 4], 16),
    (20, &[0; 4], 8),
    (21, &[0; 4], 8),
    (24, &[0; 4], 12),
    (28, &[0; 4], 12),
    (32, &[0; 4], 12),
    (64, &[0; 3], 4),
    (67, &[0; 3], 4),
    (90, &[2], 0),
    (90, &[0; 3], 0),
    (90, &[], 4),
    (88, &[0; 3], 4),
    (82, &[2], 0),
    (82, &[], 4),
    (80, &[0; 3], 4),
    (106, &[10, 0, 0, 0], 0),
    (118, &[10], 0),
    (118, &[0; 5], 8),
    (116, &[0; 4], 8),
    (52, &[0; 4], 12),
    (38, &[0], 0),
    (42, &[0; 4], 0),
    (46, &[1, 2], 0),
    (102, &[0; 3], 0),
    (50, &[7], 0),
    (38, &[], 20),
    (42, &[0; 5], 20),
    (36, &[0; 4], 20),
    (41, &[0; 4], 20),
    (44, &[0; 4], 20),
    (100, &[0; 4], 20),
    (48, &[0; 3], 4),
    (50, &[], 4),
    (86, &[7], 0),
    (86, &[7, 0, 0, 0], 0),
    (86, &[0; 5], 8),
    (86, &[], 8),
    (84, &[0; 4], 8),
    (85, &[0; 4], 8),
    (94, &[0; 4], 0),
    (94, &[0; 5], 12),
    (94, &[], 12),
    (92, &[0; 4], 12),
    (95, &[0; 4], 12),
    (114, &[7, 0, 0, 0], 0),
    (114, &[0; 7], 8),
    (112, &[0; 4], 8),
    (113, &[0; 4], 8),
    (122, &[7, 0], 0),
    (122, &[0; 5], 8),
    (120, &[0; 4], 8),
];

#[test]
fn requests_with_a_family_alone_are_kept(rt: HostRuntime) -> Result<(), Fail> {
    for (message_type, payload, expected) in PAYLOADS.iter() {
        assert!(rt; is_row(rt.alloc(), *message_type, payload, *expected));
    }
    Ok(())
}

/// Returns whether a payload is kept as it is, or rejected because a header of this size is missing.
fn is_row(alloc: Global, message_type: u16, payload: &[u8], expected: usize) -> bool {
    match decoded(alloc, message_type, payload) {
        Ok(message) => expected == 0 && message.is_short() && message.payload() == payload,
        Err(error) => {
            error
                == FamilyError::HeaderShort {
                    expected,
                    received: payload.len(),
                }
        }
    }
}
