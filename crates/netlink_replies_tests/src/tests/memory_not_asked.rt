//! Code that does not allocate, which is the whole of `netlink_replies`.
//!
//! `tests/memory` runs the test with every allocation failing, starting at its marker: the test
//! passes and allocates nothing after the marker.

use crate::tests::captured::{ADDRESSES_1, LINK_MTU_REFUSED_0};
use crate::tests::helpers::{Value, acknowledged, done, dump, gives, gives_next, has_values};
use crate::tests::mark::refuse_from_here;
use crate::tests::paths::leads;
use netlink_replies::{Reply, SequenceNumbers};

/// The values of the captured error.
const REFUSED: [Value<'static>; 6] = [
    Value::Text(Some("mtu less than device minimum")),
    Value::Offset(None),
    Value::Cookie(None),
    Value::Policy(None),
    Value::MissingType(None),
    Value::MissingNest(None),
];

/// Whether the captured error is read as it was captured.
fn is_refused() -> bool {
    let mut cursor = 0;
    let rejected = Reply::Rejected {
        code: -22,
        request: &LINK_MTU_REFUSED_0[20..36],
        attributes: &LINK_MTU_REFUSED_0[36..],
    };
    gives_next(
        &mut acknowledged(),
        &LINK_MTU_REFUSED_0,
        &mut cursor,
        rejected,
    ) && acknowledged().take(&LINK_MTU_REFUSED_0).is_some()
}

#[test]
fn answers(rt: HostRuntime) {
    refuse_from_here(rt.alloc());
    assert!(rt; SequenceNumbers::new(0).next() == 1);
    assert!(rt; gives(&mut dump(), &ADDRESSES_1, &[done()]));
    assert!(rt; is_refused());
    assert!(rt; has_values(&LINK_MTU_REFUSED_0[36..], &REFUSED));
    assert!(rt; leads(68, &[18, 2, 5]));
}
