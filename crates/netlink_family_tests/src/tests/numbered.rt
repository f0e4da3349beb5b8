//! Shapes that are chosen by the number in another attribute.

use crate::numbered::{
    BIG, BIG_DATA, DATA, LABELS, LONG, LONG_DATA, NUMBERED, NumberedMessage, Numbering, TYPE, WORD,
    WORD_DATA,
};
use netlink_family::{
    AttributeError, BlockView, FamilyError, MessageView, OwnedMessage, Reason, Shape, TOP,
};
use std::alloc::Global;
use std::test::Fail;

/// A nest with the label 7, as data.
const NEST: [u8; 12] = [12, 0, 22, 0, 6, 0, 1, 0, 7, 0, 0, 0];

/// Returns a view of a payload.
fn view_of(payload: &[u8]) -> Option<BlockView<'_>> {
    match MessageView::<Numbering>::new(NUMBERED, payload) {
        Ok(view) => Some(view.view()),
        Err(_) => None,
    }
}

/// Returns the shape of a kind in a payload.
fn shape_of(payload: &[u8], kind: u16) -> Option<Shape> {
    Some(view_of(payload)?.shape(kind))
}

/// Returns the label in the data.
fn label_of(payload: &[u8]) -> Option<u16> {
    view_of(payload)?.nest(DATA)?.u16(1)
}

/// Returns the error of a payload.
fn error_of(payload: &[u8]) -> Option<FamilyError> {
    MessageView::<Numbering>::new(NUMBERED, payload).err()
}

/// Returns a payload: an attribute of 2 bytes, and then one of none.
fn pair(kind: u8, number: [u8; 2], data: u8) -> [u8; 12] {
    let [low, high] = number;
    [6, 0, kind, 0, low, high, 0, 0, 4, 0, data, 0]
}

#[test]
fn a_number_chooses(rt: HostRuntime) -> Result<(), Fail> {
    let before = [
        6, 0, 21, 0, 1, 0, 0, 0, // type 1
        12, 0, 22, 0, 6, 0, 1, 0, 7, 0, 0, 0, // data
    ];
    let after = [
        12, 0, 22, 0, 6, 0, 1, 0, 7, 0, 0, 0, // data
        6, 0, 21, 0, 1, 0, 0, 0, // type 1
        6, 0, 21, 0, 44, 1, 0, 0, // type 300, which does not count
    ];
    assert!(rt; label_of(&before) == Some(7));
    assert!(rt; label_of(&after) == Some(7));
    assert!(rt; label_of(&NEST) == None);
    assert!(rt; shape_of(&before, DATA) == Some(Shape::Nested(LABELS)));
    assert!(rt; shape_of(&NEST, DATA) == Some(Shape::Bytes));
    Ok(())
}

#[test]
fn the_number_is_read_by_its_shape(rt: HostRuntime) -> Result<(), Fail> {
    let nest = Some(Shape::Nested(LABELS));
    assert!(rt; shape_of(&pair(21, [1, 0], 22), TYPE) == Some(Shape::U16));
    assert!(rt; shape_of(&pair(21, [1, 0], 22), DATA) == nest);
    assert!(rt; shape_of(&pair(21, [0, 1], 22), DATA) == Some(Shape::Bytes));
    assert!(rt; shape_of(&pair(23, [0, 1], 24), BIG) == Some(Shape::Be16));
    assert!(rt; shape_of(&pair(23, [0, 1], 24), BIG_DATA) == nest);
    assert!(rt; shape_of(&pair(23, [1, 0], 24), BIG_DATA) == Some(Shape::Bytes));
    assert!(rt; shape_of(&pair(21, [0, 0], 22), DATA) == Some(Shape::Flag));
    assert!(rt; shape_of(&pair(21, [0xff, 0xff], 22), DATA) == Some(Shape::Bytes));
    assert!(rt; shape_of(&pair(27, [1, 0], 28), WORD) == Some(Shape::Str));
    assert!(rt; shape_of(&pair(27, [1, 0], 28), WORD_DATA) == Some(Shape::Bytes));
    Ok(())
}

#[test]
fn a_long_number_is_no_small_one(rt: HostRuntime) -> Result<(), Fail> {
    let one = [8, 0, 25, 0, 1, 0, 0, 0, 4, 0, 26, 0];
    let more = [8, 0, 25, 0, 1, 0, 1, 0, 4, 0, 26, 0];
    let mark = [8, 0, 25, 0, 44, 1, 0, 0, 8, 0, 26, 0, 1, 2, 3, 4];
    assert!(rt; shape_of(&one, LONG) == Some(Shape::U32));
    assert!(rt; shape_of(&one, LONG_DATA) == Some(Shape::Nested(LABELS)));
    assert!(rt; shape_of(&more, LONG_DATA) == Some(Shape::Bytes));
    assert!(rt; shape_of(&mark, LONG_DATA) == Some(Shape::U32));
    Ok(())
}

/// Returns the error of an attribute of a policy at an offset.
fn invalid(offset: usize, policy: u16, reason: Reason) -> Option<FamilyError> {
    Some(FamilyError::InvalidAttribute(AttributeError {
        offset,
        policy,
        reason,
    }))
}

#[test]
fn chosen_values_have_their_errors(rt: HostRuntime) -> Result<(), Fail> {
    let label = [
        6, 0, 21, 0, 1, 0, 0, 0, // type 1
        9, 0, 22, 0, 5, 0, 1, 0, 7, 0, 0, 0, // a label of 1 byte
    ];
    let wrong = |kind, expected, received| Reason::WrongSize {
        kind,
        expected,
        received,
    };
    assert!(rt; error_of(&label) == invalid(12, LABELS, wrong(1, 2, 1)));
    let mark = [6, 0, 21, 0, 44, 1, 0, 0, 5, 0, 22, 0, 1, 0, 0, 0];
    assert!(rt; error_of(&mark) == invalid(8, TOP, wrong(22, 4, 1)));
    // the data has any bytes, and then the number has no size of its own
    let number = [5, 0, 22, 0, 1, 0, 0, 0, 5, 0, 21, 0, 1, 0, 0, 0];
    assert!(rt; error_of(&number) == invalid(8, TOP, wrong(21, 2, 1)));
    Ok(())
}

/// Appends a number and its data, the number before or after it, and returns the last error.
fn pushed(alloc: Global, is_late: bool) -> Result<Option<FamilyError>, FamilyError> {
    let mut message: NumberedMessage = OwnedMessage::new(alloc, NUMBERED)?;
    if is_late {
        message.try_push(alloc, DATA, &NEST[4..])?;
        return Ok(message.try_push(alloc, TYPE, &[1, 0]).err());
    }
    message.try_push(alloc, TYPE, &[1, 0])?;
    Ok(message.try_push(alloc, DATA, &NEST[4..]).err())
}

#[test]
fn a_number_comes_before_its_data(rt: HostRuntime) -> Result<(), Fail> {
    let alloc = rt.alloc();
    assert!(rt; pushed(alloc, false)? == None);
    assert!(rt; pushed(alloc, true)? == invalid(0, TOP, Reason::LateChoice { kind: TYPE }));
    Ok(())
}
