//! Views accept any padding.

use crate::getters::{port, probes};
use crate::neighbours::{NDA_IFINDEX, NDA_LLADDR, NDA_VLAN, Neighbours, RTM_NEWNEIGH};
use crate::route::Families;
use crate::rules::{FRA_MARKS, MARK_OFFSET, MARK_VALUE, RTM_NEWRULE, Rules};
use crate::tables::{
    NDTA_NAME, NDTA_PARMS, NDTA_THRESH1, NDTPA_IFINDEX, NDTPA_REACHABLE_TIME, NeighbourTables,
    PARMS, RTM_NEWNEIGHTBL,
};
use crate::views::{
    first_mark, link_address, mark_rest, name, no_parms, numbers, parms_link, probes_seen,
};
use netlink_family::{
    AttributeError, CheckedAttributes, FamilyError, MessageView, OwnedMessage, Reason, TOP, Value,
};
use std::test::Fail;

const NEIGHBOUR: [u8; 50] = [
    2, 0, 0, 0, 3, 0, 0, 0, 2, 0, 0x80, 1, // AF_INET, link 3
    8, 0, 4, 0, 5, 0, 0, 0, // NDA_PROBES
    10, 0, 2, 0, 2, 0, 0, 0, 0, 7, 9, 9, // NDA_LLADDR, padded with bytes other than 0
    6, 0, 6, 0, 0x12, 0x34, 0, 0, // NDA_PORT
    6, 0, 5, 0, 9, 0, 0, 0, // NDA_VLAN
    1, 0, // too few bytes for another
];

const PADDED: [u8; 48] = [
    2, 0, 0, 0, 3, 0, 0, 0, 2, 0, 0x80, 1, // AF_INET, link 3
    8, 0, 4, 0, 5, 0, 0, 0, // NDA_PROBES
    10, 0, 2, 0, 2, 0, 0, 0, 0, 7, 0, 0, // NDA_LLADDR
    6, 0, 6, 0, 0x12, 0x34, 0, 0, // NDA_PORT
    6, 0, 5, 0, 9, 0, 0, 0, // NDA_VLAN
];

#[test]
fn views_keep_the_received_bytes(rt: HostRuntime) -> Result<(), Fail> {
    let message = MessageView::<Neighbours>::new(RTM_NEWNEIGH, &NEIGHBOUR[..48])?;
    assert!(rt; probes_seen(&message) == Some(5));
    assert!(rt; message.view().u16(NDA_VLAN) == Some(9));
    assert!(rt; message.view().u32(NDA_IFINDEX) == None);
    assert!(rt; link_address(&message) == Some([2, 0, 0, 0, 0, 7].as_slice()));
    assert!(rt; message.block().len() == 36);
    assert!(rt; numbers(RTM_NEWNEIGH, &NEIGHBOUR[..48]) == Ok(1));
    // the owned message is padded with zeros
    let message = message.to_owned(rt.alloc())?;
    assert!(rt; message.bytes.as_slice() == PADDED.as_slice());
    assert!(rt; probes(&message) == Some(5));
    assert!(rt; port(&message) == Some(0x1234));
    assert!(rt; message.view().bytes(NDA_LLADDR) == Some([2, 0, 0, 0, 0, 7].as_slice()));
    Ok(())
}

#[test]
fn views_return_the_error_of_the_payload(rt: HostRuntime) -> Result<(), Fail> {
    // two bytes are left after the last attribute
    let error = FamilyError::InvalidAttribute(AttributeError {
        offset: 48,
        policy: TOP,
        reason: Reason::Short { received: 2 },
    });
    assert!(rt; MessageView::<Neighbours>::new(RTM_NEWNEIGH, &NEIGHBOUR).err() == Some(error));
    assert!(rt; numbers(RTM_NEWNEIGH, &NEIGHBOUR) == Err(error));
    assert!(rt;
        numbers(RTM_NEWRULE, &NEIGHBOUR)
            == Err(FamilyError::UnknownType {
                message_type: RTM_NEWRULE
            })
    );
    assert!(rt;
        numbers(RTM_NEWNEIGH, &NEIGHBOUR[..8])
            == Err(FamilyError::HeaderShort {
                expected: 12,
                received: 8
            })
    );
    Ok(())
}

/// Returns whether this is the next item.
fn is_next(
    all: &mut CheckedAttributes<'_, Families>,
    item: Option<Result<(u16, Value<'_>), AttributeError>>,
) -> bool {
    all.next() == item
}

#[test]
fn attributes_before_an_error_are_yielded(rt: HostRuntime) -> Result<(), Fail> {
    let payload = [
        2, 0, 0, 0, // AF_INET
        8, 0, 2, 0, 128, 0, 0, 0, // NDTA_THRESH1
        7, 0, 3, 0, 1, 2, 3, 0, // NDTA_THRESH2, of 3 bytes
        8, 0, 4, 0, 1, 0, 0, 0, // NDTA_THRESH3
    ];
    let mut all = CheckedAttributes::<Families>::new(RTM_NEWNEIGHTBL, &payload)?;
    assert!(rt; is_next(&mut all, Some(Ok((NDTA_THRESH1, Value::U32(128))))));
    let error = AttributeError {
        offset: 12,
        policy: TOP,
        reason: Reason::WrongSize {
            kind: 3,
            expected: 4,
            received: 3,
        },
    };
    assert!(rt; is_next(&mut all, Some(Err(error))));
    assert!(rt; is_next(&mut all, None));
    Ok(())
}

#[test]
fn owned_messages_have_views(rt: HostRuntime) -> Result<(), Fail> {
    let alloc = rt.alloc();
    let mut message = OwnedMessage::<NeighbourTables>::new(alloc, RTM_NEWNEIGHTBL)?;
    message.push(alloc, NDTA_NAME, Value::NulStr(b"arp_cache\0"))?;
    message.push(alloc, NDTA_THRESH1, Value::U32(128))?;
    assert!(rt; name(&message) == Some(b"arp_cache".as_slice()));
    assert!(rt; message.view().u32(NDTA_THRESH1) == Some(128));
    Ok(())
}

#[test]
fn nests_have_getters(rt: HostRuntime) -> Result<(), Fail> {
    let alloc = rt.alloc();
    let mut message = OwnedMessage::<NeighbourTables>::new(alloc, RTM_NEWNEIGHTBL)?;
    assert!(rt; parms_link(&message) == None);
    let parms = [
        8, 0, 1, 0, 3, 0, 0, 0, // NDTPA_IFINDEX
        12, 0, 3, 0, 0x30, 0x75, 0, 0, 0, 0, 0, 0, // NDTPA_REACHABLE_TIME
    ];
    message.push(alloc, NDTA_THRESH1, Value::U32(128))?;
    message.try_push(alloc, NDTA_PARMS, &parms)?;
    assert!(rt; parms_link(&message) == Some(3));
    assert!(rt; no_parms(&message) == None);
    assert!(rt; message.view().nest(NDTA_THRESH1).is_none());
    match message.view().nest(NDTA_PARMS) {
        Some(parms) => {
            assert!(rt; parms.policy == PARMS);
            assert!(rt; parms.u64(NDTPA_REACHABLE_TIME) == Some(30000));
            let mut all = parms.attributes();
            assert!(rt; all.next() == Some((NDTPA_IFINDEX, Value::U32(3))));
            assert!(rt; all.next() == Some((NDTPA_REACHABLE_TIME, Value::U64(30000))));
            assert!(rt; all.next() == None);
        }
        None => assert!(rt; false),
    }
    Ok(())
}

#[test]
fn list_elements_are_found_by_index(rt: HostRuntime) -> Result<(), Fail> {
    let payload = [
        2, 0, 0, 0, 0, 0, 0, 0, 0, 0, 0, 0, // header
        52, 0, 0, 0xb0, // FRA_MARKS with NLA_F_NESTED
        20, 0, 0, 0x80, 8, 0, 1, 0, 7, 0, 0, 0, // the first: MARK_VALUE
        8, 0, 2, 0x40, 1, 2, 3, 4, // and MARK_REST with NLA_F_NET_BYTEORDER
        12, 0, 1, 0, 8, 0, 1, 0, 9, 0, 0, 0, // the second: MARK_VALUE
        16, 0, 2, 0, 12, 0, 3, 0, 0xff, 0xff, 0xff, 0xff, 0xff, 0xff, 0xff, 0xff, // the third: MARK_OFFSET
    ];
    let message = MessageView::<Rules>::new(RTM_NEWRULE, &payload)?;
    assert!(rt; first_mark(&message) == Some(7));
    assert!(rt; mark_rest(&message) == Some([1, 2, 3, 4].as_slice()));
    let mut sum = 0u32;
    match message.view().nest(FRA_MARKS) {
        Some(marks) => {
            let third = marks.nest(2);
            assert!(rt; third.is_some_and(|mark| mark.i64(MARK_OFFSET) == Some(-1)));
            for (_number, mark) in marks.attributes() {
                if let Value::Nested(mark) = mark {
                    sum = sum.wrapping_add(mark.u32(MARK_VALUE).unwrap_or(0));
                }
            }
        }
        None => {}
    }
    assert!(rt; sum == 16);
    Ok(())
}
