//! Segments of routes by IPv6 (linux/seg6.h, linux/seg6_iptunnel.h, linux/seg6_hmac.h,
//! linux/rpl.h).

ghost use Rattle.std.specs.Prelude.{◌≡◌, ◌≤◌, ◌+◌, ◌++◌, IfOk, OnOk, codes, decimal, drop, length, string_bytes, take};
ghost use Rattle.netlink_packet_core.specs.Numbers.{number_be};
ghost use Rattle.netlink_words.specs.Parts.{AddsPart, AddsParts};
ghost use Rattle.netlink_route_lines.specs.Seg6.{hmac_part, list_parts, mode_name, rpl_parts, seg6_parts, segment_at, segments_of, srh_parts};

use netlink_packet_core::{parse_u32_be, u32_at};
use netlink_words::parts::{push_ip, push_keyed, push_part};
use std::alloc::{AllocError, Global};

/// The flag of a header that has an HMAC (`SR6_FLAG1_HMAC` of linux/seg6.h).
const SR6_FLAG1_HMAC: u8 = 0x8;

/// Appends the mode of a route by segments and what its header has, given the value of
/// `SEG6_IPTUNNEL_SRH`; nothing if that ends before the header.
#[tactic(auto, unfolding(crate::specs::Seg6::seg6_parts))]
pub fn push_seg6(alloc: Global, text: &mut String, value: &[u8]) -> Result<(), AllocError>
    ensures { OnOk result (AddsParts text.old text.new (seg6_parts value.now)) }
{
    if value.len() < 4 {
        return Ok(());
    }
    push_keyed(text, "mode", mode_name(u32_at(value, 0)))?;
    push_srh(alloc, text, value.split_at(4).1)
}

/// Returns the name of a mode; `<unknown>` for those without a name.
#[tactic(auto, unfolding(crate::specs::Seg6::mode_name))]
pub fn mode_name(mode: u32) -> &'static str
    ensures { result.now ≡ mode_name mode }
{
    match mode {
        0 => "inline",
        1 => "encap",
        2 => "l2encap",
        3 => "encap.red",
        4 => "l2encap.red",
        _ => "<unknown>",
    }
}

/// Appends the segments and the key of the HMAC of a `struct ipv6_sr_hdr`; nothing if that ends
/// before the segments.
#[tactic(auto, unfolding(crate::specs::Seg6::srh_parts), using(netlink_words::specs::Joined::with_parts_append))]
pub fn push_srh(alloc: Global, text: &mut String, srh: &[u8]) -> Result<(), AllocError>
    ensures { OnOk result (AddsParts text.old text.new (srh_parts srh.now)) }
{
    if srh.len() < 8 {
        return Ok(());
    }
    push_list(alloc, text, srh.split_at(8).1, srh[4] as usize + 1)?;
    push_part(text, hmac_text(alloc, srh[1], srh[5], srh)?.as_str())
}

/// Appends the segments that are left, given the value of `RPL_IPTUNNEL_SRH`; nothing if that ends
/// before the segments.
#[tactic(auto, unfolding(crate::specs::Seg6::rpl_parts))]
pub fn push_rpl(alloc: Global, text: &mut String, srh: &[u8]) -> Result<(), AllocError>
    ensures { OnOk result (AddsParts text.old text.new (rpl_parts srh.now)) }
{
    if srh.len() < 8 {
        return Ok(());
    }
    push_list(alloc, text, srh.split_at(8).1, srh[3] as usize)
}

/// Appends the number of segments, and the segments in brackets.
#[tactic(auto, unfolding(crate::specs::Seg6::list_parts), using(netlink_words::specs::Joined::with_parts_append))]
fn push_list(alloc: Global, text: &mut String, bytes: &[u8], count: usize) -> Result<(), AllocError>
    requires { count ≤ 256 }
    ensures { OnOk result (AddsParts text.old text.new (list_parts bytes.now count)) }
{
    push_part(text, list_start(alloc, count)?.as_str())?;
    push_segments(alloc, text, bytes, count)?;
    push_part(text, "]")
}

/// Returns the number of segments and the bracket before them.
fn list_start(alloc: Global, count: usize) -> Result<String, AllocError>
    ensures { IfOk result (λ text. string_bytes text ≡ codes "segs " ++ (decimal count ++ codes " [")) }
{
    format!(in alloc; "segs {count} [")
}

/// Appends this many segments, the last one first, without those that the bytes end in or before.
fn push_segments(
    alloc: Global,
    text: &mut String,
    bytes: &[u8],
    count: usize,
) -> Result<(), AllocError>
    requires { count ≤ 256 }
    ensures { OnOk result (AddsParts text.old text.new (segments_of bytes.now count)) }
{
    let mut left = count;
    while left > 0 {
        left -= 1;
        push_ip(alloc, text, segment_at(bytes, left))?;
    }
    Ok(())
}

/// Returns the segment with an index; empty if the bytes end before its end.
#[tactic(auto, unfolding(crate::specs::Seg6::segment_at))]
fn segment_at(bytes: &[u8], index: usize) -> &[u8]
    requires { index ≤ 256 }
    ensures { result.now ≡ segment_at bytes.now index }
{
    if bytes.len() < index * 16 + 16 {
        return &[];
    }
    bytes.split_at(index * 16).1.split_at(16).0
}

/// Returns the key of the HMAC at the end of a header, given its size in words of eight bytes after
/// the first eight, and its flags. Empty if the flags have none, or if it does not fit.
#[tactic(auto, unfolding(crate::specs::Seg6::hmac_part))]
fn hmac_text(alloc: Global, words: u8, flags: u8, srh: &[u8]) -> Result<String, AllocError>
    ensures { IfOk result (λ text. string_bytes text ≡ hmac_part words flags srh.now) }
{
    if flags & SR6_FLAG1_HMAC == 0 || words < 4 || srh.len() < words as usize * 8 - 24 {
        return Ok(String::new(alloc));
    }
    let key = key_at(srh, words as usize * 8 - 28);
    format!(in alloc; "hmac {key:X}")
}

/// Returns the big-endian number in the four bytes at an offset.
fn key_at(bytes: &[u8], at: usize) -> u32
    requires { at + 4 ≤ length bytes.now }
    ensures { result ≡ number_be (take 4 (drop at bytes.now)) }
{
    parse_u32_be(bytes.split_at(at).1.split_at(4).0).unwrap()
}
