//! Shapes that are chosen by the value of another attribute.

use super::errors::text_of;
use crate::choices::{
    CHOOSING, Choosing, ChoosingMessage, DATA, KIND, LINKINFO, OTHER_DATA, VETH, VLAN,
};
use netlink_family::{
    AttributeError, Attributes, BlockView, CheckedAttributes, FamilyError, MessageView,
    OwnedMessage, Reason, Shape, TOP, Value,
};
use std::alloc::Global;
use std::test::Fail;

// the kernel's bytes: the kind with its NUL, before the data
const KERNEL: [u8; 28] = [
    28, 0, 18, 0, // linkinfo
    9, 0, 1, 0, b'v', b'l', b'a', b'n', 0, 0, 0, 0, // kind
    12, 0, 2, 0, 6, 0, 1, 0, 10, 0, 0, 0, // data, and the id in it
];

// the data before the kind, which has no NUL
const BEFORE: [u8; 24] = [
    24, 0, 18, 0, // linkinfo
    12, 0, 2, 0, 6, 0, 1, 0, 10, 0, 0, 0, // data
    8, 0, 1, 0, b'v', b'l', b'a', b'n', // kind
];

// the second kind does not count
const TWICE: [u8; 32] = [
    32, 0, 18, 0, // linkinfo
    8, 0, 1, 0, b'v', b'l', b'a', b'n', // kind
    8, 0, 1, 0, b'v', b'e', b't', b'h', // another kind
    12, 0, 2, 0, 6, 0, 1, 0, 10, 0, 0, 0, // data
];

// each kind chooses for its own data
const PAIR: [u8; 40] = [
    40, 0, 18, 0, // linkinfo
    8, 0, 1, 0, b'v', b'l', b'a', b'n', // kind
    8, 0, 4, 0, b'm', b'a', b'r', b'k', // other kind
    8, 0, 5, 0, 7, 0, 0, 0, // other data
    12, 0, 2, 0, 6, 0, 1, 0, 10, 0, 0, 0, // data
];

// no choice is known for this kind, so the data is any bytes
const UNKNOWN: [u8; 20] = [
    20, 0, 18, 0, // linkinfo
    8, 0, 1, 0, b'v', b'l', b'a', b'M', // kind
    7, 0, 2, 0, 1, 2, 3, 0, // data
];

const MISSING: [u8; 12] = [12, 0, 18, 0, 7, 0, 2, 0, 1, 2, 3, 0];

/// Returns a view of the nest `linkinfo` of a payload.
fn info<'a>(payload: &'a [u8]) -> Option<BlockView<'a>> {
    match MessageView::<Choosing>::new(CHOOSING, payload) {
        Ok(view) => view.view().nest(LINKINFO),
        Err(_) => None,
    }
}

/// Returns a view of the data in `linkinfo`.
fn data_of<'a>(payload: &'a [u8]) -> Option<BlockView<'a>> {
    info(payload)?.nest(DATA)
}

/// Returns the VLAN's id, by the chosen policy.
fn vlan_id(payload: &[u8]) -> Option<u16> {
    let data = data_of(payload)?;
    if data.policy == VLAN {
        data.u16(1)
    } else {
        None
    }
}

/// Returns the number that the other kind chooses.
fn other_data(payload: &[u8]) -> Option<u32> {
    info(payload)?.u32(OTHER_DATA)
}

/// Returns the shape of the data, and its bytes if it is no nest.
fn shape_of_data<'a>(payload: &'a [u8]) -> Option<(Shape, Option<&'a [u8]>)> {
    let info = info(payload)?;
    Some((info.shape(DATA), info.bytes(DATA)))
}

/// Returns the id in the data as a value.
fn id_in_value(payload: &[u8]) -> Option<u16> {
    match info(payload)?.value(DATA) {
        Some(Value::Nested(data)) => data.u16(1),
        _ => None,
    }
}

/// Returns whether the attributes begin with the kind and a nest with the policy that it chooses.
fn begins_with_vlan(mut all: Attributes<'_>) -> bool {
    let kind = all.next() == Some((KIND, Value::Str(b"vlan\0")));
    match all.next() {
        Some((2, Value::Nested(data))) => kind && data.policy == VLAN,
        _ => false,
    }
}

#[test]
fn the_first_kind_chooses(rt: HostRuntime) -> Result<(), Fail> {
    assert!(rt; vlan_id(&KERNEL) == Some(10));
    assert!(rt; vlan_id(&BEFORE) == Some(10));
    assert!(rt; vlan_id(&TWICE) == Some(10));
    assert!(rt; vlan_id(&PAIR) == Some(10));
    assert!(rt; other_data(&PAIR) == Some(7));
    assert!(rt; shape_of_data(&KERNEL) == Some((Shape::Nested(VLAN), None)));
    assert!(rt; id_in_value(&KERNEL) == Some(10));
    match info(&KERNEL) {
        Some(info) => assert!(rt; begins_with_vlan(info.attributes())),
        None => assert!(rt; false),
    }
    Ok(())
}

#[test]
fn without_a_known_kind_there_are_bytes(rt: HostRuntime) -> Result<(), Fail> {
    let bytes: &[u8] = &[1, 2, 3];
    for payload in [UNKNOWN.as_slice(), MISSING.as_slice()].iter() {
        assert!(rt; shape_of_data(payload) == Some((Shape::Bytes, Some(bytes))));
        assert!(rt; data_of(payload) == None);
    }
    Ok(())
}

/// Returns the error of a payload.
fn error_of(payload: &[u8]) -> Option<FamilyError> {
    MessageView::<Choosing>::new(CHOOSING, payload).err()
}

/// Returns the error that ends the iteration over a payload.
fn last_error(payload: &[u8]) -> Result<Option<AttributeError>, FamilyError> {
    let mut last = None;
    for item in CheckedAttributes::<Choosing>::new(CHOOSING, payload)? {
        last = item.err();
    }
    Ok(last)
}

const WRONG_ID: Reason = Reason::WrongSize {
    kind: 1,
    expected: 2,
    received: 1,
};

// A payload, and the offset, the policy and the reason of its error.
const ERRORS: [(&[u8], usize, u16, Reason); 6] = [
    // in the chosen nest, at the top and in `linkinfo`
    (
        &[
            8, 0, 1, 0, b'v', b'l', b'a', b'n', 9, 0, 2, 0, 5, 0, 1, 0, 7, 0, 0, 0,
        ],
        12,
        VLAN,
        WRONG_ID,
    ),
    (
        &[
            24, 0, 18, 0, 12, 0, 2, 0, 5, 0, 1, 0, 7, 0, 0, 0, 8, 0, 1, 0, b'v', b'l', b'a', b'n',
        ],
        8,
        VLAN,
        WRONG_ID,
    ),
    // also if the walk has an error later
    (
        &[
            8, 0, 1, 0, b'v', b'l', b'a', b'n', 12, 0, 2, 0, 5, 0, 1, 0, 7, 0, 0, 0, 9, 0, 9, 0,
        ],
        12,
        VLAN,
        WRONG_ID,
    ),
    // in a nest after a header
    (
        &[
            8, 0, 1, 0, b'v', b'e', b't', b'h', 13, 0, 2, 0, 0, 0, 0, 0, 5, 0, 1, 0, 7, 0, 0, 0,
        ],
        16,
        VETH,
        Reason::WrongSize {
            kind: 1,
            expected: 4,
            received: 1,
        },
    ),
    // the value itself
    (
        &[8, 0, 1, 0, b'v', b'e', b't', b'h', 4, 0, 2, 0],
        8,
        TOP,
        Reason::TooSmall {
            kind: DATA,
            expected: 4,
            received: 0,
        },
    ),
    (
        &[5, 0, 2, 0, 1, 0, 0, 0, 8, 0, 1, 0, b'm', b'a', b'r', b'k'],
        0,
        TOP,
        Reason::WrongSize {
            kind: DATA,
            expected: 4,
            received: 1,
        },
    ),
];

#[test]
fn errors_in_chosen_nests_have_their_offset(rt: HostRuntime) -> Result<(), Fail> {
    for (payload, offset, policy, reason) in ERRORS.iter() {
        let error = AttributeError {
            offset: *offset,
            policy: *policy,
            reason: *reason,
        };
        assert!(rt; error_of(payload) == Some(FamilyError::InvalidAttribute(error)));
        assert!(rt; last_error(payload)? == Some(error));
    }
    Ok(())
}

/// Returns a payload as text.
fn shown(alloc: Global, payload: &[u8]) -> Result<String, FamilyError> {
    let view = MessageView::<Choosing>::new(CHOOSING, payload)?;
    Ok(view.show(alloc)?)
}

#[test]
fn chosen_nests_are_shown(rt: HostRuntime) -> Result<(), Fail> {
    let alloc = rt.alloc();
    assert_eq!(rt;
        shown(alloc, &BEFORE)?.as_str(),
        "type 101\nlinkinfo:\n  data:\n    id: 10\n  kind: vlan\n"
    );
    assert_eq!(rt;
        shown(alloc, &UNKNOWN)?.as_str(),
        "type 101\nlinkinfo:\n  kind: vlaM\n  data: 010203\n"
    );
    Ok(())
}

/// Returns whether the copy of a payload has the same bytes.
fn is_copied(alloc: Global, payload: &[u8]) -> Result<bool, FamilyError> {
    let message = MessageView::<Choosing>::new(CHOOSING, payload)?.to_owned(alloc)?;
    Ok(message.bytes.as_slice() == payload)
}

/// Padding in a nest is kept, as in any value.
#[test]
fn chosen_nests_are_copied(rt: HostRuntime) -> Result<(), Fail> {
    let mut dirty = KERNEL;
    dirty[13] = 9;
    assert!(rt; is_copied(rt.alloc(), &BEFORE)?);
    assert!(rt; is_copied(rt.alloc(), &dirty)?);
    Ok(())
}

/// Returns a message without attributes.
fn empty(alloc: Global) -> Result<ChoosingMessage, FamilyError> {
    OwnedMessage::new(alloc, CHOOSING)
}

/// Appends the kind `vlan`.
fn push_vlan(alloc: Global, message: &mut ChoosingMessage) -> Result<(), FamilyError> {
    message.push(alloc, KIND, Value::Str(b"vlan"))
}

/// Appends the kind `veth`.
fn push_veth(alloc: Global, message: &mut ChoosingMessage) -> Result<(), FamilyError> {
    message.push(alloc, KIND, Value::Str(b"veth"))
}

/// Appends a value.
fn try_push(
    alloc: Global,
    message: &mut ChoosingMessage,
    kind: u16,
    value: &[u8],
) -> Result<(), FamilyError> {
    message.try_push(alloc, kind, value)
}

#[test]
fn a_kind_chooses_for_those_after_it(rt: HostRuntime) -> Result<(), Fail> {
    let alloc = rt.alloc();
    let wrong = FamilyError::InvalidAttribute(AttributeError {
        offset: 4,
        policy: VLAN,
        reason: WRONG_ID,
    });
    let mut message = empty(alloc)?;
    push_vlan(alloc, &mut message)?;
    let found = try_push(alloc, &mut message, DATA, &[5, 0, 1, 0, 7, 0, 0, 0]).err();
    assert!(rt; found == Some(wrong));
    try_push(alloc, &mut message, DATA, &[6, 0, 1, 0, 7, 0, 0, 0])?;
    // a second one chooses nothing
    push_veth(alloc, &mut message)?;
    let same: [u8; 28] = [
        8, 0, 1, 0, b'v', b'l', b'a', b'n', 12, 0, 2, 0, 6, 0, 1, 0, 7, 0, 0, 0, 8, 0, 1, 0, b'v',
        b'e', b't', b'h',
    ];
    assert!(rt; message.bytes.as_slice() == same.as_slice());
    Ok(())
}

#[test]
fn an_attribute_must_not_choose_for_those_before_it(rt: HostRuntime) -> Result<(), Fail> {
    let alloc = rt.alloc();
    let late = FamilyError::InvalidAttribute(AttributeError {
        offset: 0,
        policy: TOP,
        reason: Reason::LateChoice { kind: KIND },
    });
    let mut message = empty(alloc)?;
    try_push(alloc, &mut message, DATA, &[1])?;
    assert!(rt; push_vlan(alloc, &mut message).err() == Some(late));
    assert!(rt; try_push(alloc, &mut message, KIND, b"vlan").err() == Some(late));
    assert!(rt; message.bytes.as_slice() == [5, 0, 2, 0, 1, 0, 0, 0].as_slice());
    assert_eq!(rt;
        text_of(alloc, late)?.as_str(),
        "at byte 0, in policy 0: attribute 1 comes after an attribute whose shape it chooses"
    );
    Ok(())
}
