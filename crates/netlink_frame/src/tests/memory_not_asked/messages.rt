//! Messages.

use crate::ping_pong::PingPongMessage;
use crate::samples::Zeros;
use crate::tests::lengths::{normal_zeros, zeros_fit};
use crate::tests::mark::refuse_from_here;
use crate::tests::messages::{
    CODED_DONE, EMPTY_DONE, ERROR, Message, NOOP, PING, is_finalized, is_written_as, read,
    read_view, verdict_of,
};
use crate::tests::refusals::{UNKNOWN, refuses};
use netlink_packet_core::{NetlinkHeader, NetlinkMessage, NetlinkPayload, NetlinkSerializable};
use std::test::Fail;

#[test]
fn a_message_is_written(rt: HostRuntime) -> Result<(), Fail> {
    let alloc = rt.alloc();
    let bytes = [0u8, 1, 2, 3].to_vec(alloc)?;
    refuse_from_here(alloc);
    let ping = PingPongMessage::Ping(bytes);
    assert!(rt; ping.is_written_as(alloc, &PING[16..]).ok() == Some(true));
    assert!(rt; ping.is_written_as(alloc, &PING[17..]).ok() == Some(false));
    let mut message = Message::from_inner(ping);
    is_written_as(&rt, &mut message, &PING);
    Ok(())
}

#[test]
fn a_message_comes_apart(rt: HostRuntime) -> Result<(), Fail> {
    let mut message = read(rt.alloc(), &PING)?;
    refuse_from_here(rt.alloc());
    assert!(rt; is_finalized(&mut message));
    assert!(rt; message.payload.message_type() == 18);
    let (header, payload) = message.into_parts();
    assert!(rt; header.length == 20);
    let renewed = Message::new(NetlinkHeader::default(), payload);
    assert!(rt; renewed.fits());
    assert!(rt; !zeros_fit(4294967280));
    Ok(())
}

const BARE_DONE: [u8; 20] = [
    0x14, 0, 0, 0, 3, 0, 0, 0, 0, 0, 0, 0, 0, 0, 0, 0, 5, 0, 0, 0,
];

const EMPTY_OVERRUN: [u8; 16] = [0x10, 0, 0, 0, 4, 0, 0, 0, 0, 0, 0, 0, 0, 0, 0, 0];

/// A frame with its type and code, and whether it is canonical.
const BARE: [(&[u8], u16, i32, bool); 5] = [
    (&NOOP, 1, 0, false),
    (&ERROR, 2, -8765, true),
    (&EMPTY_DONE, 3, 0, false),
    (&BARE_DONE, 3, 5, true),
    (&EMPTY_OVERRUN, 4, 0, true),
];

/// Decoding a noop, a code that no bytes follow, or an empty overrun does not allocate.
#[test]
fn messages_with_nothing_to_copy(rt: HostRuntime) -> Result<(), Fail> {
    let alloc = rt.alloc();
    refuse_from_here(alloc);
    for (frame, kind, code, canonical) in BARE {
        let message = read(alloc, frame)?;
        assert!(rt; message.header.length as usize == frame.len());
        assert!(rt; kind_and_code(&message) == (kind, code));
        assert!(rt; read_view(alloc, frame)? == message);
        assert!(rt; verdict_of(alloc, frame).ok() == Some(canonical));
    }
    Ok(())
}

fn kind_and_code(message: &Message) -> (u16, i32) {
    match &message.payload {
        NetlinkPayload::Error(body) => (message.payload.message_type(), body.raw_code()),
        NetlinkPayload::Done(body) => (message.payload.message_type(), body.code),
        _ => (message.payload.message_type(), 0),
    }
}

#[test]
fn refusals_without_words(rt: HostRuntime) {
    let alloc = rt.alloc();
    let mut short_done = [0u8; 19];
    short_done[0] = 19;
    short_done[4] = 3;
    let mut short_error = [0u8; 19];
    short_error[0] = 19;
    short_error[4] = 2;
    refuse_from_here(alloc);
    let rows: [(&[u8], u8); 5] = [
        (&PING[..15], 9),
        (&PING[..19], 10),
        (&[0; 16], 11),
        (&short_done, 12),
        (&short_error, 13),
    ];
    for (bytes, number) in rows.iter() {
        assert!(rt; refuses(read(alloc, bytes), *number));
        assert!(rt; verdict_of(alloc, bytes).ok() == Some(false));
    }
    assert!(rt; refuses(normal_zeros(alloc, 4294967280), 15));
    let long = NetlinkMessage::from_inner(Zeros(4294967280));
    assert!(rt; refuses(long.into_frame(alloc), 15));
}

/// `is_canonical_frame` copies no body, and builds no error text if the protocol rejects the
/// payload.
#[test]
fn verdicts(rt: HostRuntime) {
    let alloc = rt.alloc();
    refuse_from_here(alloc);
    assert!(rt; verdict_of(alloc, &CODED_DONE).ok() == Some(true));
    assert!(rt; verdict_of(alloc, &UNKNOWN).ok() == Some(false));
}
