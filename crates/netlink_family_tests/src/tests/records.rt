//! Lists of records that carry their own length, as `struct rtnexthop` does.

use super::nests::{error_of, message_with, shown};
use crate::shapes::{EveryMessage, RECORDS};
use netlink_family::{AttributeError, Attributes, FamilyError, Reason, TOP, Value};
use std::test::Fail;

// two records: the length, two bytes, a header of 4 bytes, and attributes
const LIST: [u8; 28] = [
    28, 0, 17, 0, // records
    14, 0, 1, 2, 9, 8, 7, 6, 6, 0, 3, 0, 2, 1, // with a u16
    0, 0, // padding
    8, 0, 0, 0, 5, 4, 3, 2, // without attributes
];

/// Returns the parts of the next record: the word after its length, its header, the number in it,
/// and whether it has attributes.
fn next_record<'a>(all: &mut Attributes<'a>) -> Option<(u16, &'a [u8], Option<u16>, bool)> {
    match all.next() {
        Some((word, Value::HeaderNested(header, inner))) => {
            Some((word, header.bytes, inner.u16(3), !inner.block.is_empty()))
        }
        _ => None,
    }
}

/// Returns whether the list is that of `LIST`.
fn has_records(mut all: Attributes<'_>) -> bool {
    next_record(&mut all) == Some((0x0201, [9, 8, 7, 6].as_slice(), Some(0x0102), true))
        && next_record(&mut all) == Some((0, [5, 4, 3, 2].as_slice(), None, false))
        && all.next() == None
}

/// Returns the records of a message.
fn records_of<'a>(message: &'a EveryMessage) -> Option<Attributes<'a>> {
    Some(message.view().nest(17)?.attributes())
}

#[test]
fn records_are_read(rt: HostRuntime) -> Result<(), Fail> {
    let alloc = rt.alloc();
    let message = message_with(alloc, 17, &LIST[4..])?;
    assert!(rt; message.bytes.as_slice() == LIST.as_slice());
    match records_of(&message) {
        Some(all) => assert!(rt; has_records(all)),
        None => assert!(rt; false),
    }
    assert_eq!(rt;
        shown(alloc, &message)?.as_str(),
        "type 100\nrecords:\n  513: 09080706\n    u16: 258\n  0: 05040302\n"
    );
    Ok(())
}

#[test]
fn errors_in_records_have_their_offset(rt: HostRuntime) -> Result<(), Fail> {
    let short = Reason::TooSmall {
        kind: 0x0201,
        expected: 4,
        received: 3,
    };
    let size = Reason::WrongSize {
        kind: 3,
        expected: 2,
        received: 1,
    };
    let truncated = Reason::Truncated {
        expected: 12,
        received: 8,
    };
    let rows: [(&[u8], usize, u16, Reason); 6] = [
        // a length of 7, 3, and more than there is
        (&[7, 0, 1, 2, 9, 8, 7, 0], 4, RECORDS, short),
        (
            &[3, 0, 1, 2, 9, 8, 7, 6],
            4,
            RECORDS,
            Reason::InvalidLength { received: 3 },
        ),
        (&[12, 0, 1, 2, 9, 8, 7, 6], 4, RECORDS, truncated),
        // the same in the second record
        (
            &[8, 0, 1, 2, 9, 8, 7, 6, 12, 0, 1, 2, 9, 8, 7, 6],
            12,
            RECORDS,
            truncated,
        ),
        (
            &[8, 0, 1, 2, 9, 8, 7, 6, 8, 0, 0],
            12,
            RECORDS,
            Reason::Short { received: 3 },
        ),
        // in an attribute of the second record
        (
            &[
                8, 0, 1, 2, 9, 8, 7, 6, 13, 0, 1, 2, 9, 8, 7, 6, 5, 0, 3, 0, 1,
            ],
            20,
            TOP,
            size,
        ),
    ];
    for (value, offset, policy, reason) in rows.iter() {
        let error = FamilyError::InvalidAttribute(AttributeError {
            offset: *offset,
            policy: *policy,
            reason: *reason,
        });
        assert!(rt; message_with(rt.alloc(), 17, value).err() == Some(error));
    }
    let cut = AttributeError {
        offset: 0,
        policy: TOP,
        reason: Reason::Truncated {
            expected: 28,
            received: 26,
        },
    };
    assert!(rt; error_of(&LIST[..26]) == Some(FamilyError::InvalidAttribute(cut)));
    Ok(())
}
