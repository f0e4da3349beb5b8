//! Code that does not allocate.
//!
//! `tests/memory` runs each test with every allocation failing, starting at its marker: the test
//! passes and allocates nothing after the marker.

use crate::tests::mark::refuse_from_here;
use crate::tests::samples::{NLCTRL, has_groups, message_in};
use netlink_generic::{family_id, family_name, family_named, is_family_name};

#[test]
fn frames_in_hand(rt: HostRuntime) {
    refuse_from_here(rt.alloc());
    match message_in(&NLCTRL) {
        Some(family) => {
            assert!(rt; family_id(&family) == Some(16));
            assert!(rt; family_name(&family) == Some(b"nlctrl".as_slice()));
            let groups: [(Option<&[u8]>, Option<u32>); 1] = [(Some(b"notify"), Some(16))];
            assert!(rt; has_groups(&family, &groups));
        }
        None => assert!(rt; false),
    }
    assert!(rt; family_named(&NLCTRL, "nlctrl").is_some());
    assert!(rt; is_family_name("nlctrl"));
}
