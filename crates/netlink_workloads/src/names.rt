//! Messages of many links, in any order, among wrong ones.

use crate::fields::{put_attr, put_message, set_u32};
use crate::links::long_links;
use crate::random::Random;
use std::alloc::{AllocError, Global};

/// The number of links.
const LINKS: u32 = 24_000;

/// Makes messages of links that appear in any order, are renamed and deleted, and of routes over
/// them. A tenth of the messages is malformed, inside a nest at the end, or of an unknown type.
#[derive(Drop)]
pub(crate) struct Names {
    random: Random,
    made: u32,
    payload: Vec<u8>,
    inner: Vec<u8>,
    long: Vec<u8>,
}

impl Names {
    /// Takes the last long message of a link among the samples. Returns `None` if there is none, or if
    /// an allocation fails.
    pub(crate) fn new(alloc: Global, datagram: &[u8], seed: u32) -> Option<Names> {
        let mut all = long_links(alloc, datagram).ok()?;
        Some(Names {
            random: Random::new(seed),
            made: 0,
            payload: Vec::new(alloc),
            inner: Vec::new(alloc),
            long: all.pop()?,
        })
    }

    /// Appends the next message.
    pub(crate) fn put(&mut self, out: &mut Vec<u8>) -> Result<(), AllocError> {
        let made = self.made;
        self.made = made.wrapping_add(1);
        let index = self.random.below(LINKS).wrapping_add(1);
        self.payload.clear();
        let message_type = match self.random.below(60) {
            0..=29 => {
                self.put_link(index, 0)?;
                16
            }
            30 => {
                self.put_link(index, made)?;
                16
            }
            31 => {
                self.put_link(7, made)?;
                16
            }
            32 | 33 | 34 => {
                self.put_header(index)?;
                17
            }
            35 | 36 => {
                self.put_cut(index)?;
                16
            }
            37 => {
                self.put_header(index)?;
                1000
            }
            38 | 39 | 40 => return self.put_long(out, made, index),
            _ => {
                self.put_route(index)?;
                24
            }
        };
        put_message(out, message_type, made, &self.payload)
    }

    /// Makes the payload of a link with a name; another one for each number.
    fn put_link(&mut self, index: u32, number: u32) -> Result<(), AllocError> {
        self.put_header(index)?;
        let [a, b, c, d] = letters(index);
        let [e, f, g, h] = letters(number);
        let name = [118, 101, 116, 104, a, b, c, d, e, f, g, h, 0];
        put_attr(&mut self.payload, 3, &name)?;
        put_attr(&mut self.payload, 4, &1500u32.to_le_bytes())
    }

    /// Makes the header of a link.
    fn put_header(&mut self, index: u32) -> Result<(), AllocError> {
        self.payload.extend_from_slice(&[0, 0, 1, 0])?;
        self.payload.extend_from_slice(&index.to_le_bytes())?;
        self.payload
            .extend_from_slice(&[0x43, 0x10, 1, 0, 0, 0, 0, 0])
    }

    /// Makes the payload of a link whose last nest is cut.
    fn put_cut(&mut self, index: u32) -> Result<(), AllocError> {
        self.put_link(index, 0)?;
        self.inner.clear();
        put_attr(&mut self.inner, 1, b"bridge\0")?;
        let cut = self.random.below(60000).wrapping_add(5);
        self.inner.extend_from_slice(&cut.to_le_bytes())?;
        put_attr(&mut self.payload, 18, &self.inner)
    }

    /// Appends a whole message of a link whose last attribute has a wrong length.
    fn put_long(&mut self, out: &mut Vec<u8>, made: u32, index: u32) -> Result<(), AllocError> {
        let frame = self.long.as_mut_slice();
        set_u32(frame, 8, made);
        set_u32(frame, 20, index);
        let length = u32::try_from(frame.len().saturating_add(4)).unwrap_or(20);
        let start = out.len();
        out.extend_from_slice(&self.long)?;
        set_u32(out.as_mut_slice(), start, length);
        out.extend_from_slice(&[3, 0, 40, 0])
    }

    /// Makes the payload of a route over a link.
    fn put_route(&mut self, index: u32) -> Result<(), AllocError> {
        let to = self.random.next();
        self.payload
            .extend_from_slice(&[2, 32, 0, 0, 254, 186, 0, 1, 0, 0, 0, 0])?;
        put_attr(&mut self.payload, 1, &to.to_be_bytes())?;
        put_attr(&mut self.payload, 4, &index.to_le_bytes())
    }
}

/// Returns the last 16 bits of a number as four letters from `a` to `p`.
fn letters(number: u32) -> [u8; 4] {
    [
        97 + (number % 16) as u8,
        97 + (number / 16 % 16) as u8,
        97 + (number / 256 % 16) as u8,
        97 + (number / 4096 % 16) as u8,
    ]
}
