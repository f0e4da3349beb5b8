//! Acknowledgements and errors, and their attributes.

use crate::tests::captured::{LINK_MTU_0, LINK_MTU_REFUSED_0, LINK_UNKNOWN_0};
use crate::tests::helpers::{Value, acknowledged, dump, gives, has_values};
use netlink_replies::{ErrorBody, Reply};
use std::test::Fail;

#[test]
fn an_acknowledgement_ends_the_answer(rt: HostRuntime) -> Result<(), Fail> {
    let mut replies = acknowledged();
    assert!(rt;
        gives(
            &mut replies,
            &LINK_MTU_0,
            &[Reply::Acknowledged { attributes: &[] }]
        )
    );
    assert!(rt; replies.has_ended());
    Ok(())
}

/// The values of `LINK_MTU_REFUSED_0`.
const REFUSED: [Value<'static>; 3] = [
    Value::Text(Some("mtu less than device minimum")),
    Value::Message(Some(b"mtu less than device minimum")),
    Value::Offset(None),
];

#[test]
fn a_capped_error_has_its_attributes_after_the_header(rt: HostRuntime) -> Result<(), Fail> {
    let mut replies = acknowledged();
    assert!(rt;
        gives(
            &mut replies,
            &LINK_MTU_REFUSED_0,
            &[Reply::Rejected {
                code: -22,
                request: &LINK_MTU_REFUSED_0[20..36],
                attributes: &LINK_MTU_REFUSED_0[36..],
            }]
        )
    );
    assert!(rt; replies.has_ended());
    assert!(rt; has_values(&LINK_MTU_REFUSED_0[36..], &REFUSED));
    Ok(())
}

#[test]
fn an_error_that_is_not_capped_has_the_whole_request(rt: HostRuntime) -> Result<(), Fail> {
    let mut replies = acknowledged();
    assert!(rt;
        gives(
            &mut replies,
            &LINK_UNKNOWN_0,
            &[Reply::Rejected {
                code: -19,
                request: &LINK_UNKNOWN_0[20..],
                attributes: &[],
            }]
        )
    );
    assert!(rt; replies.has_ended());
    Ok(())
}

/// An error that is not capped, for a request of 18 bytes and two bytes of padding, with
/// attributes.
const NOT_CAPPED: [u8; 56] = [
    56, 0, 0, 0, 2, 0, 0, 2, 1, 0, 0, 0, 0, 0, 0, 0, // NLMSG_ERROR, NLM_F_ACK_TLVS
    0xea, 0xff, 0xff, 0xff, // -22
    18, 0, 0, 0, 16, 0, 5, 0, 1, 0, 0, 0, 0, 0, 0, 0, 7, 7, 0, 0, // the request
    8, 0, 2, 0, 16, 0, 0, 0, // NLMSGERR_ATTR_OFFS
    8, 0, 5, 0, 3, 0, 0, 0, // NLMSGERR_ATTR_MISS_TYPE
];

const NOT_CAPPED_VALUES: [Value<'static>; 4] = [
    Value::Offset(Some(16)),
    Value::MissingType(Some(3)),
    Value::MissingNest(None),
    Value::Text(None),
];

#[test]
fn attributes_follow_the_padding_of_the_request(rt: HostRuntime) -> Result<(), Fail> {
    let mut replies = dump();
    assert!(rt;
        gives(
            &mut replies,
            &NOT_CAPPED,
            &[Reply::Rejected {
                code: -22,
                request: &NOT_CAPPED[20..38],
                attributes: &NOT_CAPPED[40..],
            }]
        )
    );
    assert!(rt; replies.has_ended());
    assert!(rt; has_values(&NOT_CAPPED[40..], &NOT_CAPPED_VALUES));
    Ok(())
}

/// An error whose request states a length of 12. The kernel copies a whole header first, so the request
/// has 16 bytes, and the attributes follow them.
const BELOW_A_HEADER: [u8; 44] = [
    44, 0, 0, 0, 2, 0, 0, 2, 1, 0, 0, 0, 0, 0, 0, 0, // NLMSG_ERROR, NLM_F_ACK_TLVS
    0xea, 0xff, 0xff, 0xff, // -22
    12, 0, 0, 0, 16, 0, 5, 0, 1, 0, 0, 0, 0, 0, 0, 0, // the request
    8, 0, 2, 0, 16, 0, 0, 0, // NLMSGERR_ATTR_OFFS
];

#[test]
fn a_request_has_at_least_a_header(rt: HostRuntime) -> Result<(), Fail> {
    let mut replies = dump();
    assert!(rt;
        gives(
            &mut replies,
            &BELOW_A_HEADER,
            &[Reply::Rejected {
                code: -22,
                request: &BELOW_A_HEADER[20..36],
                attributes: &BELOW_A_HEADER[36..],
            }]
        )
    );
    let body = ErrorBody::new(0x200, &BELOW_A_HEADER[20..]);
    assert!(rt; body.request == &BELOW_A_HEADER[20..36]);
    assert!(rt; body.attributes == &BELOW_A_HEADER[36..]);
    Ok(())
}

/// A done message with code -28 and an error text.
const DONE: [u8; 32] = [
    32, 0, 0, 0, 3, 0, 2, 2, 1, 0, 0, 0, 0, 0, 0, 0, // NLM_F_MULTIPART and NLM_F_ACK_TLVS
    0xe4, 0xff, 0xff, 0xff, 9, 0, 1, 0, b'f', b'u', b'l', b'l', 0, 0, 0, 0,
];

#[test]
fn a_done_message_has_a_code_and_attributes(rt: HostRuntime) -> Result<(), Fail> {
    let mut replies = dump();
    assert!(rt;
        gives(
            &mut replies,
            &DONE,
            &[Reply::Done {
                code: -28,
                attributes: &DONE[20..],
            }]
        )
    );
    assert!(rt; replies.has_ended());
    assert!(rt; has_values(&DONE[20..], &[Value::Text(Some("full"))]));
    Ok(())
}

/// A cookie, a policy, a nest that lacks an attribute, and a text that is not UTF-8.
const ATTRIBUTES: [u8; 32] = [
    7, 0, 3, 0, 1, 2, 3, 0, // NLMSGERR_ATTR_COOKIE
    8, 0, 4, 0x80, 4, 0, 9, 0, // NLMSGERR_ATTR_POLICY with NLA_F_NESTED
    8, 0, 6, 0, 32, 0, 0, 0, // NLMSGERR_ATTR_MISS_NEST
    6, 0, 1, 0, 0xff, 0, 0, 0, // NLMSGERR_ATTR_MSG
];

const VALUES: [Value<'static>; 6] = [
    Value::Cookie(Some(&[1, 2, 3])),
    Value::Policy(Some(&[4, 0, 9, 0])),
    Value::MissingNest(Some(32)),
    Value::Message(Some(&[0xff])),
    Value::Text(None),
    Value::MissingType(None),
];

#[test]
fn each_value_is_found_by_its_kind(rt: HostRuntime) -> Result<(), Fail> {
    assert!(rt; has_values(&ATTRIBUTES, &VALUES));
    Ok(())
}

#[test]
fn a_number_has_4_bytes(rt: HostRuntime) -> Result<(), Fail> {
    assert!(rt; has_values(&[6, 0, 2, 0, 1, 0, 0, 0], &[Value::Offset(None)]));
    Ok(())
}

#[test]
fn values_before_an_error_are_found(rt: HostRuntime) -> Result<(), Fail> {
    let attributes = [8, 0, 2, 0, 20, 0, 0, 0, 3, 0, 1, 0];
    let values = [Value::Offset(Some(20)), Value::Message(None)];
    assert!(rt; has_values(&attributes, &values));
    Ok(())
}
