//! The state of an answer.

ghost use Rattle.std.specs.Prelude.{◌≡◌, ◌+◌, ◌<◌, ◌≤◌, max, min, drop, length, IfNone, IfSome, OnOk, OnSome};
ghost use Rattle.netlink_packet_core.specs.Attribute.{padding};
ghost use Rattle.netlink_packet_core.specs.Header.{HoldsFrame};
ghost use Rattle.netlink_replies.specs.Meaning.{shown_item};

use crate::reply::{Reply, meaning, other};
use crate::request::{Request, has_flag};
use netlink_packet_core::{DecodeError, NLM_F_DUMP_INTR, NLM_F_MULTIPART, NetlinkBuffer};
use netlink_tree::Frames;

/// The state of the answer to a request: waiting or ended, and whether it was interrupted.
///
/// It reads datagrams in the order in which they arrive. Two requests can share a socket: each has
/// its own `Replies`, which reads every datagram.
#[derive(Clone, Copy, Debug, PartialEq, Eq)]
pub struct Replies {
    request: Request,
    ended: bool,
    interrupted: bool,
}

impl Replies {
    ghost use Rattle.netlink_replies.specs.Answers.{after, belongs, concerns, ends, has_ended, is_interrupted, item_of, request_in, resumed, waiting};
    ghost use Rattle.netlink_replies.specs.FramePlaces.{MeansFrame};
    ghost use Rattle.netlink_replies.specs.Reads.{Gives, StepsFrame, TakesFrame};

    /// Returns the state in which the answer is open and nothing was read.
    #[inline]
    pub fn new(request: Request) -> Self
        ensures { result ≡ waiting request }
    {
        Replies {
            request,
            ended: false,
            interrupted: false,
        }
    }

    /// Returns the state that `request`, `has_ended` and `is_interrupted` describe.
    #[inline]
    pub fn resume(request: Request, ended: bool, interrupted: bool) -> Self
        ensures { result ≡ resumed request ended interrupted }
    {
        Replies {
            request,
            ended,
            interrupted,
        }
    }

    /// Returns the request.
    #[inline]
    pub fn request(&self) -> Request
        ensures { result ≡ request_in self.now }
    {
        self.request
    }

    /// Returns whether the answer has ended.
    #[inline]
    pub fn has_ended(&self) -> bool
        ensures { result ≡ has_ended self.now }
    {
        self.ended
    }

    /// Returns whether a frame of the answer had the flag `NLM_F_DUMP_INTR`: what the dump lists
    /// changed while it was listed.
    #[inline]
    pub fn is_interrupted(&self) -> bool
        ensures { result ≡ is_interrupted self.now }
    {
        self.interrupted
    }

    /// Reads the frame at the start of the bytes, and ignores what follows it. Returns `None` if it
    /// is a noop.
    ///
    /// Returns `FrameShort`, `FrameCut` or `FrameLength` if the bytes hold no complete frame, and
    /// `DoneShort` or `ErrorShort` if a done or error message of the answer is too short. After
    /// each of these errors, the answer is still open. Does not allocate.
    pub fn take<'a>(&mut self, frame: &'a [u8]) -> Option<Result<Reply<&'a [u8]>, DecodeError>>
        ensures { TakesFrame self.old frame.now result self.new }
    {
        match NetlinkBuffer::new_checked(frame) {
            Ok(view) => self.take_frame(&frame[..view.length() as usize]),
            Err(error) => Some(Err(error)),
        }
    }

    /// Reads frames of the datagram, starting at the cursor, until one is not a noop, and moves the
    /// cursor past it. Set the cursor to 0 before the first call for a datagram. Returns `None` if
    /// nothing is left; the cursor is then at or past the end of the datagram.
    ///
    /// Returns `FrameShort`, `FrameCut` or `FrameLength` if the datagram is malformed at the
    /// cursor, which is then at its end, and `DoneShort` or `ErrorShort` if a done or error message
    /// of the answer is too short. After each of these errors, the answer is still open. Does not
    /// allocate.
    pub fn next<'a>(
        &mut self,
        datagram: &'a [u8],
        cursor: &mut usize,
    ) -> Option<Result<Reply<&'a [u8]>, DecodeError>>
        ensures items { Gives self.old (drop cursor.old datagram.now) (shown_item result) self.new
            (drop cursor.new datagram.now) }
        ensures moves { OnSome result (cursor.old < cursor.new) }
        ensures inside { OnSome result (cursor.new ≤ length datagram.now) }
        ensures end { IfNone result (cursor.new ≡ max cursor.old (length datagram.now)) }
    {
        let mut start = 0;
        self.next_at(datagram, cursor, &mut start)
    }

    /// Does what `next` does. If it returns a reply, it also sets `start` to where the frame of the
    /// reply starts, in bytes from the start of the datagram. The frame ends where its length field
    /// says, and the cursor is then past its padding.
    pub fn next_at<'a>(
        &mut self,
        datagram: &'a [u8],
        cursor: &mut usize,
        start: &mut usize,
    ) -> Option<Result<Reply<&'a [u8]>, DecodeError>>
        ensures items { Gives self.old (drop cursor.old datagram.now) (shown_item result) self.new
            (drop cursor.new datagram.now) }
        ensures moves { OnSome result (cursor.old < cursor.new) }
        ensures inside { OnSome result (cursor.new ≤ length datagram.now) }
        ensures end { IfNone result (cursor.new ≡ max cursor.old (length datagram.now)) }
        ensures frame { IfSome result (λ item. OnOk item (MeansFrame datagram.now start.new
            (shown_item result) self.new cursor.new)) }
        ensures between { OnSome result
            ((cursor.old ≤ start.new) × (start.new < length datagram.now)) }
    {
        while *cursor < datagram.len() {
            *start = *cursor;
            match self.step(datagram, cursor) {
                Some(item) => return Some(item),
                None => {}
            }
        }
        None
    }

    /// Reads the frame at the cursor, and moves the cursor past it; if there is none, to the end.
    fn step<'a>(
        &mut self,
        datagram: &'a [u8],
        cursor: &mut usize,
    ) -> Option<Result<Reply<&'a [u8]>, DecodeError>>
        requires inside { cursor.old < length datagram.now }
        ensures frame { StepsFrame self.old (drop cursor.old datagram.now) (shown_item result)
            self.new (drop cursor.new datagram.now) }
        ensures place { IfSome result (λ item. OnOk item (MeansFrame datagram.now cursor.old
            (shown_item result) self.new cursor.new)) }
        ensures moves { cursor.old < cursor.new }
        ensures inside { cursor.new ≤ length datagram.now }
    {
        let mut walk = Frames::new(&datagram[*cursor..]);
        match walk.next() {
            Some(Ok(frame)) => {
                *cursor = padded_end(*cursor, frame.len(), datagram.len());
                self.take_frame(frame)
            }
            Some(Err(error)) => {
                *cursor = datagram.len();
                Some(Err(error))
            }
            None => {
                *cursor = datagram.len();
                None
            }
        }
    }

    /// Reads one frame. Requires that the bytes hold a complete frame.
    fn take_frame<'a>(&mut self, frame: &'a [u8]) -> Option<Result<Reply<&'a [u8]>, DecodeError>>
        requires whole { HoldsFrame frame.now }
        ensures item { shown_item result ≡ item_of self.old frame.now }
        ensures state { self.new ≡ after self.old frame.now }
    {
        if !self.concerns(frame) {
            return other(frame);
        }
        let flags = NetlinkBuffer::new(frame).flags();
        let item = meaning(frame);
        self.ended = self.request.ends(flags, &item);
        self.interrupted = self.interrupted || has_flag(flags, NLM_F_DUMP_INTR);
        item
    }

    /// Returns whether the answer is open and the frame is a part of it. Requires that the bytes
    /// hold a complete frame.
    #[inline]
    fn concerns(&self, frame: &[u8]) -> bool
        requires whole { HoldsFrame frame.now }
        ensures { result ≡ concerns self.now frame.now }
    {
        !self.ended && self.request.belongs(frame)
    }
}

impl Request {
    ghost use Rattle.netlink_replies.specs.Answers.{belongs, ends};

    /// Returns whether the frame has the numbers of the request. Requires that the bytes hold a
    /// complete frame.
    #[inline]
    fn belongs(&self, frame: &[u8]) -> bool
        requires whole { HoldsFrame frame.now }
        ensures { result ≡ belongs self.now frame.now }
    {
        let view = NetlinkBuffer::new(frame);
        (view.sequence_number() == self.sequence_number)
            & ((self.port_number == 0) | (view.port_number() == self.port_number))
    }

    /// Returns whether a frame of the answer with these flags and this meaning ends it.
    #[inline]
    fn ends(&self, flags: u16, item: &Option<Result<Reply<&[u8]>, DecodeError>>) -> bool
        ensures { result ≡ ends self.now flags (shown_item item.now) }
    {
        match item {
            Some(Ok(Reply::Done { .. })) => true,
            Some(Ok(Reply::Rejected { .. })) => true,
            Some(Ok(Reply::Acknowledged { .. })) => !self.is_dump,
            Some(Ok(Reply::Message(_))) => {
                !(self.is_dump || self.wants_ack || has_flag(flags, NLM_F_MULTIPART))
            }
            _ => false,
        }
    }
}

/// Returns where the padding of a frame of this size ends, at most at the end of the datagram.
#[inline]
fn padded_end(start: usize, size: usize, end: usize) -> usize
    requires { start + size ≤ end }
    ensures { result ≡ min (start + (size + padding size)) end }
{
    let after = start + size;
    let gap = (4 - size % 4) % 4;
    if gap < end - after { after + gap } else { end }
}
