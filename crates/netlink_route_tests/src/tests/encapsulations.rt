//! Encapsulations of routes.

use crate::tests::encapsulation_samples::{
    ERSPAN, FLAVORED, GENEVE, ID_KERNEL, INTERFACE, IP_ENDS, IP6_ENDS, LABELS, LOCATOR, LOOKUP,
    SECOND_HOP, SEGMENTS, TRACE, VXLAN,
};
use crate::tests::samples::{decoded, invalid, wrong_size};
use netlink_family::{
    AttributeError, BlockView, FamilyError, MessageView, OwnedMessage, Reason, Shape,
};
use netlink_route::encapsulations::*;
use netlink_route::routes::{RTA_ENCAP, RTA_ENCAP_TYPE, RTA_GATEWAY, RTM_NEWROUTE};
use netlink_route::{NextHops, RouteEntryMessage, Routes};
use std::alloc::Global;
use std::test::Fail;

/// Returns a view of a route.
fn view_of(payload: &[u8]) -> Option<BlockView<'_>> {
    match MessageView::<Routes>::new(RTM_NEWROUTE, payload) {
        Ok(route) => Some(route.view()),
        Err(_) => None,
    }
}

/// Returns the encapsulation of a route.
fn encapsulation(payload: &[u8]) -> Option<BlockView<'_>> {
    view_of(payload)?.nest(RTA_ENCAP)
}

/// Returns the number of labels of a route, and the last one.
fn labels_of(payload: &[u8]) -> Option<(usize, u32)> {
    let mut count = 0usize;
    let mut last = 0u32;
    for word in encapsulation(payload)?.elements(MPLS_IPTUNNEL_DST)? {
        count = count.wrapping_add(1);
        last = label_of(word);
    }
    Some((count, last))
}

/// Returns the label of a big-endian word of the label stack: its upper 20 bits.
fn label_of(word: &[u8]) -> u32 {
    match word {
        [a, b, c, _] => u32::from_be_bytes([0, *a, *b, *c]) >> 4,
        _ => 0,
    }
}

#[test]
fn labels_are_read(rt: HostRuntime) -> Result<(), Fail> {
    assert!(rt; labels_of(&LABELS) == Some((2, 200)));
    match encapsulation(&LABELS) {
        Some(mpls) => assert!(rt; mpls.u8(MPLS_IPTUNNEL_TTL) == Some(7)),
        None => assert!(rt; false),
    }
    Ok(())
}

/// Returns the shape of the encapsulation of a route.
fn shape_of(payload: &[u8]) -> Option<Shape> {
    Some(view_of(payload)?.shape(RTA_ENCAP))
}

/// Returns a payload: a header of zeros, a type, and an encapsulation of no bytes.
fn of_type(low: u8, high: u8) -> [u8; 24] {
    [
        0, 0, 0, 0, 0, 0, 0, 0, 0, 0, 0, 0, 6, 0, 21, 0, low, high, 0, 0, 4, 0, 22, 0,
    ]
}

#[test]
fn each_type_has_its_policy(rt: HostRuntime) -> Result<(), Fail> {
    let policies = [MPLS, IP, ILA, IP6, SEG6, BPF, SEG6_LOCAL, RPL, IOAM6, XFRM];
    let mut number = 0u8;
    for policy in policies.iter() {
        number = number.wrapping_add(1);
        assert!(rt; shape_of(&of_type(number, 0)) == Some(Shape::Nested(*policy)));
    }
    for (low, high) in [(0, 0), (11, 0), (0, 1), (1, 1), (255, 255)] {
        assert!(rt; shape_of(&of_type(low, high)) == Some(Shape::Bytes));
    }
    Ok(())
}

#[test]
fn a_tunnel_is_read(rt: HostRuntime) -> Result<(), Fail> {
    match encapsulation(&IP_ENDS) {
        Some(ip) => {
            assert!(rt; ip.be64(LWTUNNEL_IP_ID) == Some(5));
            assert!(rt; ip.exact(LWTUNNEL_IP_SRC) == Some([192, 0, 2, 9].as_slice()));
            assert!(rt; ip.exact(LWTUNNEL_IP_DST) == Some([192, 0, 2, 10].as_slice()));
            assert!(rt; ip.u8(LWTUNNEL_IP_TTL) == Some(7));
            assert!(rt; ip.u8(LWTUNNEL_IP_TOS) == Some(4));
            assert!(rt; ip.be16(LWTUNNEL_IP_FLAGS) == Some(5));
        }
        None => assert!(rt; false),
    }
    Ok(())
}

/// Returns an option of a tunnel.
fn option_of(payload: &[u8], kind: u16) -> Option<BlockView<'_>> {
    encapsulation(payload)?.nest(LWTUNNEL_IP_OPTS)?.nest(kind)
}

#[test]
fn options_of_tunnels_are_read(rt: HostRuntime) -> Result<(), Fail> {
    match option_of(&GENEVE, LWTUNNEL_IP_OPTS_GENEVE) {
        Some(geneve) => {
            assert!(rt; geneve.be16(LWTUNNEL_IP_OPT_GENEVE_CLASS) == Some(0x0102));
            assert!(rt; geneve.u8(LWTUNNEL_IP_OPT_GENEVE_TYPE) == Some(0x80));
            assert!(rt; geneve.bytes(LWTUNNEL_IP_OPT_GENEVE_DATA) == Some(&GENEVE[72..76]));
        }
        None => assert!(rt; false),
    }
    match option_of(&ERSPAN, LWTUNNEL_IP_OPTS_ERSPAN) {
        Some(erspan) => {
            assert!(rt; erspan.u8(LWTUNNEL_IP_OPT_ERSPAN_VER) == Some(1));
            assert!(rt; erspan.be32(LWTUNNEL_IP_OPT_ERSPAN_INDEX) == Some(123));
        }
        None => assert!(rt; false),
    }
    match encapsulation(&ID_KERNEL) {
        Some(ip) => assert!(rt; ip.be64(LWTUNNEL_IP_ID) == Some(5)),
        None => assert!(rt; false),
    }
    Ok(())
}

#[test]
fn numbers_in_native_order_are_read(rt: HostRuntime) -> Result<(), Fail> {
    match option_of(&VXLAN, LWTUNNEL_IP_OPTS_VXLAN) {
        Some(vxlan) => assert!(rt; vxlan.u32(LWTUNNEL_IP_OPT_VXLAN_GBP) == Some(456)),
        None => assert!(rt; false),
    }
    match encapsulation(&INTERFACE) {
        Some(xfrm) => {
            assert!(rt; xfrm.u32(LWT_XFRM_IF_ID) == Some(258));
            assert!(rt; xfrm.u32(LWT_XFRM_LINK) == Some(1));
        }
        None => assert!(rt; false),
    }
    Ok(())
}

#[test]
fn a_tunnel_of_ipv6_is_read(rt: HostRuntime) -> Result<(), Fail> {
    match encapsulation(&IP6_ENDS) {
        Some(ip6) => {
            assert!(rt; ip6.be64(LWTUNNEL_IP6_ID) == Some(258));
            assert!(rt; ip6.exact(LWTUNNEL_IP6_SRC) == Some(&IP6_ENDS[52..68]));
            assert!(rt; ip6.exact(LWTUNNEL_IP6_DST) == Some(&IP6_ENDS[72..88]));
            assert!(rt; ip6.u8(LWTUNNEL_IP6_HOPLIMIT) == Some(7));
            assert!(rt; ip6.u8(LWTUNNEL_IP6_TC) == Some(4));
            assert!(rt; ip6.be16(LWTUNNEL_IP6_FLAGS) == Some(5));
        }
        None => assert!(rt; false),
    }
    Ok(())
}

#[test]
fn segments_are_read(rt: HostRuntime) -> Result<(), Fail> {
    match encapsulation(&SEGMENTS) {
        Some(seg6) => assert!(rt; seg6.bytes(SEG6_IPTUNNEL_SRH) == Some(&SEGMENTS[40..84])),
        None => assert!(rt; false),
    }
    match encapsulation(&LOOKUP) {
        Some(local) => {
            assert!(rt; local.u32(SEG6_LOCAL_ACTION) == Some(7));
            assert!(rt; local.u32(SEG6_LOCAL_TABLE) == Some(300));
        }
        None => assert!(rt; false),
    }
    Ok(())
}

/// Returns the flavors of an action.
fn flavors(payload: &[u8]) -> Option<BlockView<'_>> {
    encapsulation(payload)?.nest(SEG6_LOCAL_FLAVORS)
}

#[test]
fn flavors_are_read(rt: HostRuntime) -> Result<(), Fail> {
    match flavors(&FLAVORED) {
        Some(flavors) => {
            assert!(rt; flavors.u32(SEG6_LOCAL_FLV_OPERATION) == Some(16));
            assert!(rt; flavors.u8(SEG6_LOCAL_FLV_LCBLOCK_BITS) == Some(48));
            assert!(rt; flavors.u8(SEG6_LOCAL_FLV_LCNODE_FN_BITS) == Some(16));
        }
        None => assert!(rt; false),
    }
    Ok(())
}

#[test]
fn locators_and_traces_are_read(rt: HostRuntime) -> Result<(), Fail> {
    match encapsulation(&LOCATOR) {
        Some(ila) => {
            assert!(rt; ila.be64(ILA_ATTR_LOCATOR) == Some(0x2001_0db8_0003_0004));
            assert!(rt; ila.u8(ILA_ATTR_CSUM_MODE) == Some(0));
            assert!(rt; ila.u8(ILA_ATTR_IDENT_TYPE) == Some(1));
            assert!(rt; ila.u8(ILA_ATTR_HOOK_TYPE) == Some(1));
        }
        None => assert!(rt; false),
    }
    match encapsulation(&TRACE) {
        Some(ioam6) => {
            assert!(rt; ioam6.u8(IOAM6_IPTUNNEL_MODE) == Some(2));
            assert!(rt; ioam6.exact(IOAM6_IPTUNNEL_DST) == Some(&TRACE[64..80]));
            assert!(rt; ioam6.bytes(IOAM6_IPTUNNEL_TRACE) == Some(&TRACE[84..92]));
            assert!(rt; ioam6.u32(IOAM6_IPTUNNEL_FREQ_N) == Some(258));
        }
        None => assert!(rt; false),
    }
    Ok(())
}

/// Returns the attributes of the second next hop of a route.
fn second_hop(payload: &[u8]) -> Option<BlockView<'_>> {
    let mut hops = NextHops::new(&view_of(payload)?)?;
    hops.next()?;
    Some(hops.next()?.attributes)
}

#[test]
fn a_next_hop_has_an_encapsulation(rt: HostRuntime) -> Result<(), Fail> {
    match second_hop(&SECOND_HOP) {
        Some(hop) => {
            assert!(rt; hop.ip(RTA_GATEWAY) == Some([192, 0, 2, 2].as_slice()));
            match hop.nest(RTA_ENCAP) {
                Some(mpls) => assert!(rt; mpls.u8(MPLS_IPTUNNEL_TTL) == Some(7)),
                None => assert!(rt; false),
            }
        }
        None => assert!(rt; false),
    }
    assert!(rt; encapsulation(&SECOND_HOP).is_none());
    Ok(())
}

/// Returns the error of a route with these attributes, after a header of zeros.
fn error_of(alloc: Global, attributes: &[u8]) -> Result<Option<FamilyError>, Fail> {
    let mut payload = vec![in alloc; 0u8; 12]?;
    payload.extend_from_slice(attributes)?;
    Ok(decoded(alloc, RTM_NEWROUTE, &payload).err())
}

/// Returns the error of an attribute in a nest.
fn nested(offset: usize, policy: u16, reason: Reason) -> Option<FamilyError> {
    Some(FamilyError::InvalidAttribute(AttributeError {
        offset,
        policy,
        reason,
    }))
}

/// Returns the reason for which a value has another size.
fn size_of(kind: u16, expected: usize, received: usize) -> Reason {
    Reason::WrongSize {
        kind,
        expected,
        received,
    }
}

#[test]
fn invalid_values_have_their_errors(rt: HostRuntime) -> Result<(), Fail> {
    let labels = Reason::NoMultiple {
        kind: MPLS_IPTUNNEL_DST,
        expected: 4,
        received: 7,
    };
    let header = Reason::TooSmall {
        kind: SEG6_IPTUNNEL_SRH,
        expected: 12,
        received: 11,
    };
    let rows: [(&[u8], Option<FamilyError>); 7] = [
        // the identifier of a tunnel, after and before the type
        (
            &[
                15, 0, 22, 0, 11, 0, 1, 0, 1, 2, 3, 4, 5, 6, 7, 0, 6, 0, 21, 0, 2, 0, 0, 0,
            ],
            nested(16, IP, size_of(LWTUNNEL_IP_ID, 8, 7)),
        ),
        (
            &[
                6, 0, 21, 0, 4, 0, 0, 0, 15, 0, 22, 0, 11, 0, 1, 0, 1, 2, 3, 4, 5, 6, 7, 0,
            ],
            nested(24, IP6, size_of(LWTUNNEL_IP6_ID, 8, 7)),
        ),
        (
            &[
                6, 0, 21, 0, 1, 0, 0, 0, 15, 0, 22, 0, 11, 0, 1, 0, 1, 2, 3, 4, 5, 6, 7, 0,
            ],
            nested(24, MPLS, labels),
        ),
        (
            &[
                6, 0, 21, 0, 5, 0, 0, 0, 19, 0, 22, 0, 15, 0, 1, 0, 1, 2, 3, 4, 5, 6, 7, 8, 9, 10,
                11, 0,
            ],
            nested(24, SEG6, header),
        ),
        // an attribute that is cut, and the same in a type that has no attributes
        (
            &[6, 0, 21, 0, 10, 0, 0, 0, 7, 0, 22, 0, 8, 0, 1, 0],
            nested(24, XFRM, Reason::Short { received: 3 }),
        ),
        (&[6, 0, 21, 0, 11, 0, 0, 0, 7, 0, 22, 0, 8, 0, 1, 0], None),
        // a type of one byte chooses nothing
        (
            &[5, 0, 21, 0, 2, 0, 0, 0, 7, 0, 22, 0, 8, 0, 1, 0],
            wrong_size(12, RTA_ENCAP_TYPE, 2, 1),
        ),
    ];
    for (attributes, expected) in rows.iter() {
        assert!(rt; error_of(rt.alloc(), attributes)? == *expected);
    }
    Ok(())
}

/// Appends a type and labels, the type before or after them, and returns the last error.
fn pushed(alloc: Global, is_late: bool) -> Result<Option<FamilyError>, FamilyError> {
    let labels = &LABELS[24..44];
    let mut route: RouteEntryMessage = OwnedMessage::new(alloc, RTM_NEWROUTE)?;
    if is_late {
        route.try_push(alloc, RTA_ENCAP, labels)?;
        return Ok(route.try_push(alloc, RTA_ENCAP_TYPE, &[1, 0]).err());
    }
    route.try_push(alloc, RTA_ENCAP_TYPE, &[1, 0])?;
    Ok(route.try_push(alloc, RTA_ENCAP, labels).err())
}

#[test]
fn a_type_comes_before_its_encapsulation(rt: HostRuntime) -> Result<(), Fail> {
    let alloc = rt.alloc();
    let late = Reason::LateChoice {
        kind: RTA_ENCAP_TYPE,
    };
    assert!(rt; pushed(alloc, false)? == None);
    assert!(rt; pushed(alloc, true)? == invalid(0, late));
    Ok(())
}
