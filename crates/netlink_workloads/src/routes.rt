//! Messages of routes and neighbours, as a router sends them.

use crate::fields::{put_attr, put_message};
use crate::random::Random;
use std::alloc::{AllocError, Global};

/// The number of links that the routes use.
const LINKS: u32 = 48;

/// Makes the messages about a few links, and then those of routes, a ninth of which are about
/// neighbours instead.
#[derive(Drop)]
pub(crate) struct Routes {
    random: Random,
    made: u32,
    payload: Vec<u8>,
    inner: Vec<u8>,
}

impl Routes {
    /// Returns the source with a seed.
    pub(crate) fn new(alloc: Global, seed: u32) -> Routes {
        Routes {
            random: Random::new(seed),
            made: 0,
            payload: Vec::new(alloc),
            inner: Vec::new(alloc),
        }
    }

    /// Appends the next message.
    pub(crate) fn put(&mut self, out: &mut Vec<u8>) -> Result<(), AllocError> {
        let made = self.made;
        self.made = made.wrapping_add(1);
        self.payload.clear();
        let message_type = if made < LINKS {
            self.put_link(made)?;
            16
        } else {
            match self.random.below(18) {
                0 | 1 => {
                    self.put_neighbour()?;
                    28
                }
                2 => {
                    self.put_multipath()?;
                    24
                }
                3 | 4 | 5 => {
                    self.put_route6()?;
                    24
                }
                _ => {
                    self.put_route4()?;
                    24
                }
            }
        };
        put_message(out, message_type, made, &self.payload)
    }

    /// Makes the payload of a link with a name.
    fn put_link(&mut self, made: u32) -> Result<(), AllocError> {
        let index = made.wrapping_add(1).to_le_bytes();
        self.payload.extend_from_slice(&[0, 0, 1, 0])?;
        self.payload.extend_from_slice(&index)?;
        self.payload
            .extend_from_slice(&[0x43, 0x10, 1, 0, 0, 0, 0, 0])?;
        let tens = 48u8.saturating_add((made / 10 % 10) as u8);
        let ones = 48u8.saturating_add((made % 10) as u8);
        put_attr(&mut self.payload, 3, &[101, 116, 104, tens, ones, 0])?;
        put_attr(&mut self.payload, 4, &1500u32.to_le_bytes())
    }

    /// Makes the payload of an IPv4 route with five attributes.
    fn put_route4(&mut self) -> Result<(), AllocError> {
        self.put_header(2, 24)?;
        let to = self.random.next() | 0x0000_0001;
        let gateway = self.random.next() | 0x0a00_0000;
        let metric = self.random.below(4).wrapping_mul(100).wrapping_add(20);
        let link = self.random.below(LINKS).wrapping_add(1);
        put_attr(&mut self.payload, 15, &254u32.to_le_bytes())?;
        put_attr(&mut self.payload, 1, &to.to_be_bytes())?;
        put_attr(&mut self.payload, 6, &metric.to_le_bytes())?;
        put_attr(&mut self.payload, 5, &gateway.to_be_bytes())?;
        put_attr(&mut self.payload, 4, &link.to_le_bytes())
    }

    /// Makes the payload of an IPv6 route with seven attributes.
    fn put_route6(&mut self) -> Result<(), AllocError> {
        self.put_header(10, 48)?;
        let to = self.address6();
        let gateway = self.address6();
        let link = self.random.below(LINKS).wrapping_add(1);
        let mut cache = [0u8; 32];
        cache[0] = 1;
        put_attr(&mut self.payload, 15, &254u32.to_le_bytes())?;
        put_attr(&mut self.payload, 1, &to)?;
        put_attr(&mut self.payload, 6, &1024u32.to_le_bytes())?;
        put_attr(&mut self.payload, 5, &gateway)?;
        put_attr(&mut self.payload, 4, &link.to_le_bytes())?;
        put_attr(&mut self.payload, 12, &cache)?;
        put_attr(&mut self.payload, 20, &[0])
    }

    /// Makes the payload of an IPv4 route with 2 to 17 next hops.
    fn put_multipath(&mut self) -> Result<(), AllocError> {
        self.put_header(2, 16)?;
        let to = self.random.next();
        let hops = self.random.below(16).wrapping_add(2);
        self.inner.clear();
        for _ in 0..hops {
            let link = self.random.below(LINKS).wrapping_add(1);
            let gateway = self.random.next();
            self.inner.extend_from_slice(&[16, 0, 0, 0])?;
            self.inner.extend_from_slice(&link.to_le_bytes())?;
            put_attr(&mut self.inner, 5, &gateway.to_be_bytes())?;
        }
        put_attr(&mut self.payload, 15, &254u32.to_le_bytes())?;
        put_attr(&mut self.payload, 1, &to.to_be_bytes())?;
        put_attr(&mut self.payload, 6, &20u32.to_le_bytes())?;
        put_attr(&mut self.payload, 9, &self.inner)
    }

    /// Makes the payload of a neighbour.
    fn put_neighbour(&mut self) -> Result<(), AllocError> {
        let link = self.random.below(LINKS).wrapping_add(1);
        let state = match self.random.below(7) {
            0 => 1,
            1 => 2,
            2 => 4,
            3 => 8,
            4 => 16,
            5 => 32,
            _ => 64,
        };
        let address = self.random.next();
        let device = self.random.next().to_le_bytes();
        let used = self.random.below(60000);
        let mut cache = [0u8; 16];
        cache[..4].copy_from_slice(&used.to_le_bytes());
        self.payload.extend_from_slice(&[2, 0, 0, 0])?;
        self.payload.extend_from_slice(&link.to_le_bytes())?;
        self.payload.extend_from_slice(&[state, 0, 0, 1])?;
        put_attr(&mut self.payload, 1, &address.to_be_bytes())?;
        put_attr(
            &mut self.payload,
            2,
            &[2, 0, device[0], device[1], device[2], device[3]],
        )?;
        put_attr(&mut self.payload, 4, &1u32.to_le_bytes())?;
        put_attr(&mut self.payload, 3, &cache)
    }

    /// Makes the header of a route with a destination of this family and of this number of bits.
    fn put_header(&mut self, family: u8, bits: u8) -> Result<(), AllocError> {
        let protocol = match self.random.below(8) {
            0 => 2,
            1 => 3,
            2 => 4,
            _ => 186,
        };
        self.payload
            .extend_from_slice(&[family, bits, 0, 0, 254, protocol, 0, 1, 0, 0, 0, 0])
    }

    /// Returns an IPv6 address.
    fn address6(&mut self) -> [u8; 16] {
        let mut address = [0u8; 16];
        address[..4].copy_from_slice(&[0x20, 0x01, 0x0d, 0xb8]);
        address[4..8].copy_from_slice(&self.random.next().to_be_bytes());
        if self.random.below(2) == 0 {
            address[12..16].copy_from_slice(&self.random.next().to_be_bytes());
        }
        address
    }
}
