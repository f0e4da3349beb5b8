//! The extended acknowledgement of an error or done message.

ghost use Rattle.std.specs.Prelude.{◌≡◌, ◌<◌, ◌≤◌, ◌^◌, ◌↔◌, IfSome, IsSome, IsUtf8, Some, length, option_and_then};
ghost use Rattle.std.specs.Option.{option_copied, option_map};
ghost use Rattle.netlink_replies.specs.AckValues.{FirstValue, ShowsText, bytes_at, number_of_value, without_nul};
ghost use Rattle.netlink_replies.specs.PathSteps.{GivesPath, block_of, offset_of};
ghost use Rattle.netlink_replies.specs.Paths.{place_in};

use crate::path::Path;
use netlink_packet_core::{NETLINK_HEADER_LEN, NLA_HEADER_SIZE, NlasIterator, u32_at};
use std::str;

/// The error text (`NLMSGERR_ATTR_MSG`).
const MSG: u16 = 1;

/// The offset of the attribute in the request that caused the error (`NLMSGERR_ATTR_OFFS`).
const OFFS: u16 = 2;

/// A value of the sub-protocol (`NLMSGERR_ATTR_COOKIE`).
const COOKIE: u16 = 3;

/// The policy for a rejected attribute (`NLMSGERR_ATTR_POLICY`).
const POLICY: u16 = 4;

/// The kind of a missing attribute (`NLMSGERR_ATTR_MISS_TYPE`).
const MISS_TYPE: u16 = 5;

/// The offset of the nest that lacks an attribute (`NLMSGERR_ATTR_MISS_NEST`).
const MISS_NEST: u16 = 6;

/// The attributes of an error or done message, read in place. Each method reads the first attribute
/// of its kind, counting those before an error. No method allocates.
#[derive(Clone, Copy, Debug, PartialEq, Eq)]
pub struct ExtendedAck<'a> {
    /// The attributes, as in `Reply`.
    pub attributes: &'a [u8],
}

impl<'a> ExtendedAck<'a> {
    /// Returns the bytes of the error text, without the zero byte at their end. Returns `None` if
    /// there is none.
    pub fn message(&self) -> Option<&'a [u8]>
        ensures { FirstValue 1 self.now.attributes.now
            (λ value. option_copied result ≡ option_map without_nul value) }
    {
        match self.value(MSG) {
            Some(value) => Some(without_nul(value)),
            None => None,
        }
    }

    /// Returns the error text. Returns `None` if there is none, or if it is not UTF-8.
    pub fn text(&self) -> Option<&'a str>
        ensures { FirstValue 1 self.now.attributes.now
            (λ value. ShowsText (option_map without_nul value) result) }
    {
        match self.message() {
            Some(bytes) => text_of(bytes),
            None => None,
        }
    }

    /// Returns the offset, in the request, of the attribute that caused the error. Returns `None`
    /// if there is none, or if its value does not have 4 bytes.
    pub fn offset(&self) -> Option<u32>
        ensures { FirstValue 2 self.now.attributes.now
            (λ value. result ≡ option_and_then number_of_value value) }
    {
        self.number(OFFS)
    }

    /// Returns the value that the sub-protocol added. Returns `None` if there is none.
    pub fn cookie(&self) -> Option<&'a [u8]>
        ensures { FirstValue 3 self.now.attributes.now (λ value. option_copied result ≡ value) }
    {
        self.value(COOKIE)
    }

    /// Returns the attributes that describe which values the kernel accepts for the attribute that
    /// caused the error. Returns `None` if there is none.
    pub fn policy(&self) -> Option<&'a [u8]>
        ensures { FirstValue 4 self.now.attributes.now (λ value. option_copied result ≡ value) }
    {
        self.value(POLICY)
    }

    /// Returns the kind of the attribute that the request lacks. Returns `None` if there is none,
    /// or if its value does not have 4 bytes.
    pub fn missing_type(&self) -> Option<u32>
        ensures { FirstValue 5 self.now.attributes.now
            (λ value. result ≡ option_and_then number_of_value value) }
    {
        self.number(MISS_TYPE)
    }

    /// Returns the offset, in the request, of the nest that lacks an attribute. Returns `None` if
    /// there is none, which means the top level, or if its value does not have 4 bytes.
    pub fn missing_nest(&self) -> Option<u32>
        ensures { FirstValue 6 self.now.attributes.now
            (λ value. result ≡ option_and_then number_of_value value) }
    {
        self.number(MISS_NEST)
    }

    /// Returns the path of kinds to the attribute of the request that caused the error. `request` is
    /// the request that was sent, from its header to its end, and `size` the size of its fixed
    /// header in bytes, with padding. The path is empty if there is no offset, or if it is outside of
    /// the request's attributes.
    pub fn path<'b>(&self, request: &'b [u8], size: usize) -> Path<'b>
        ensures block { FirstValue 2 self.now.attributes.now (λ value. block_of result
            ≡ (place_in (option_and_then number_of_value value) request.now size).0) }
        ensures offset { FirstValue 2 self.now.attributes.now (λ value. offset_of result
            ≡ (place_in (option_and_then number_of_value value) request.now size).1) }
        ensures path { GivesPath result }
    {
        match self.offset() {
            Some(offset) => path_in(offset as usize, request, size),
            None => Path::new(&[], 0),
        }
    }

    /// Returns where the value of the first attribute of a kind starts and ends, in bytes from the
    /// start of the attributes. Kinds are compared without their two flag bits. Returns `None` if
    /// there is none.
    pub fn place(&self, kind: u16) -> Option<(usize, usize)>
        ensures place { FirstValue kind self.now.attributes.now
            (λ value. option_map (bytes_at self.now.attributes.now) result ≡ value) }
        ensures inside { IfSome result
            (λ place. (place.0 ≤ place.1) × (place.1 ≤ length self.now.attributes.now)) }
    {
        for item in NlasIterator::new(self.attributes) {
            match item {
                Ok(nla) => {
                    let found = nla.kind();
                    if found == kind {
                        let size = nla.length() as usize;
                        let start = self.attributes.len() - nla.into_inner().len();
                        return Some((start + NLA_HEADER_SIZE, start + size));
                    }
                }
                Err(_) => return None,
            }
        }
        None
    }

    /// Returns the value of the first attribute of a kind.
    fn value(&self, kind: u16) -> Option<&'a [u8]>
        ensures { FirstValue kind self.now.attributes.now (λ value. option_copied result ≡ value) }
    {
        match self.place(kind) {
            Some((start, end)) => Some(&self.attributes[start..end]),
            None => None,
        }
    }

    /// Returns the integer in the first attribute of a kind.
    fn number(&self, kind: u16) -> Option<u32>
        ensures { FirstValue kind self.now.attributes.now
            (λ value. result ≡ option_and_then number_of_value value) }
    {
        match self.value(kind) {
            Some(value) => number_of(value),
            None => None,
        }
    }
}

/// Returns the path to an offset of the request, which is less than 2^32.
fn path_in(offset: usize, request: &[u8], size: usize) -> Path<'_>
    requires { offset < 2 ^ 32 }
    ensures block { block_of result ≡ (place_in (Some offset) request.now size).0 }
    ensures offset { offset_of result ≡ (place_in (Some offset) request.now size).1 }
    ensures path { GivesPath result }
{
    if offset < NETLINK_HEADER_LEN || offset - NETLINK_HEADER_LEN < size {
        return Path::new(&[], 0);
    }
    let start = NETLINK_HEADER_LEN + size;
    let block = if start < request.len() {
        &request[start..]
    } else {
        &[]
    };
    Path::new(block, offset - start)
}

/// Returns the integer in a value of 4 bytes.
fn number_of(value: &[u8]) -> Option<u32>
    ensures { result ≡ number_of_value value.now }
{
    if value.len() == 4 {
        Some(u32_at(value, 0))
    } else {
        None
    }
}

/// Returns the bytes as text, or `None` if they are not UTF-8.
fn text_of(bytes: &[u8]) -> Option<&str>
    ensures text { IfSome result (λ text. text.now ≡ bytes.now) }
    ensures utf8 { IsSome result ↔ IsUtf8 bytes.now }
{
    match str::from_utf8(bytes) {
        Ok(text) => Some(text),
        Err(_) => None,
    }
}

/// Returns the bytes without one zero byte at the end, if there is one.
fn without_nul(bytes: &[u8]) -> &[u8]
    ensures { result.now ≡ without_nul bytes.now }
{
    let size = bytes.len();
    if size > 0 && bytes[size - 1] == 0 {
        &bytes[..size - 1]
    } else {
        bytes
    }
}
