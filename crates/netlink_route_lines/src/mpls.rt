//! Labels of MPLS (linux/mpls.h).

ghost use Rattle.std.specs.Prelude.{◌≡◌, IfOk, OnOk, codes, string_bytes};
ghost use Rattle.netlink_words.specs.Parts.{AddsPart, keyed, prefix_of};
ghost use Rattle.netlink_route_lines.specs.Mpls.{label_of, label_target, labels_text, propagation_part, propagation_text, with_label};

use netlink_words::digits::push_decimal;
use netlink_words::parts::{push_keyed, push_part};
use std::alloc::{AllocError, Global};

/// The address family of MPLS (linux/socket.h).
pub const AF_MPLS: u8 = 28;

/// The number of bits of a label.
const LABEL_BITS: u8 = 20;

/// Returns labels with slashes between them, up to the bottom of the stack or the end of the bytes.
#[tactic(auto, unfolding(crate::specs::Mpls::labels_text))]
pub fn labels_text(alloc: Global, bytes: &[u8]) -> Result<String, AllocError>
    ensures { IfOk result (λ text. string_bytes text ≡ labels_text bytes.now) }
{
    let mut text = String::new(alloc);
    let mut rest = bytes;
    while let [high, middle, low, _, more @ ..] = rest {
        push_label(&mut text, label_of(*high, *middle, *low))?;
        if *low % 2 == 1 {
            return Ok(text);
        }
        rest = more;
    }
    Ok(text)
}

/// Returns the label in the first three of its four bytes. The lower half of the third has the class
/// and, in the lowest bit, whether the label is the bottom of the stack.
fn label_of(high: u8, middle: u8, low: u8) -> u32
    ensures { result ≡ label_of high middle low }
{
    high as u32 * 4096 + middle as u32 * 16 + (low / 16) as u32
}

/// Appends a label, after a slash if the text is not empty.
fn push_label(text: &mut String, label: u32) -> Result<(), AllocError>
    ensures { OnOk result (string_bytes text.new ≡ with_label (string_bytes text.old) label) }
{
    if !text.is_empty() {
        text.push('/')?;
    }
    push_decimal(text, label)
}

/// Appends the labels of a destination, and its length unless that is the length of a label;
/// `default` for every label.
#[tactic(auto, unfolding(crate::specs::Mpls::label_target, netlink_words::specs::Parts::with_part))]
pub(crate) fn push_label_target(
    alloc: Global,
    text: &mut String,
    labels: &[u8],
    length: u8,
) -> Result<(), AllocError>
    ensures { OnOk result (AddsPart text.old text.new (label_target labels.now length)) }
{
    let to = with_length(alloc, labels_text(alloc, labels)?, length)?;
    if to.is_empty() {
        return push_part(text, "default");
    }
    push_part(text, to.as_str())
}

/// Returns labels and their length, unless that is the length of a label. Without labels it is `0`
/// and the length, and empty if that is 0.
#[tactic(auto, unfolding(netlink_words::specs::Parts::prefix_of))]
fn with_length(alloc: Global, labels: String, length: u8) -> Result<String, AllocError>
    ensures { IfOk result (λ text. string_bytes text ≡ prefix_of (string_bytes labels) length 20) }
{
    if labels.is_empty() {
        if length == 0 {
            return Ok(labels);
        }
        return format!(in alloc; "0/{length}");
    }
    if length == LABEL_BITS {
        return Ok(labels);
    }
    format!(in alloc; "{labels}/{length}")
}

/// Appends the labels that replace that of the destination, in `RTA_NEWDST`, if there are some.
pub(crate) fn push_new_labels(
    alloc: Global,
    text: &mut String,
    labels: &[u8],
) -> Result<(), AllocError>
    ensures { OnOk result (AddsPart text.old text.new (keyed (codes "as to") (labels_text labels.now))) }
{
    push_keyed(text, "as to", labels_text(alloc, labels)?.as_str())
}

/// Appends whether the time to live goes on in the IP header, in `RTA_TTL_PROPAGATE`, if it is there.
/// `ip` spells it like this.
#[tactic(auto, unfolding(crate::specs::Mpls::propagation_part, netlink_words::specs::Parts::with_part))]
pub(crate) fn push_propagation(text: &mut String, propagates: Option<u8>) -> Result<(), AllocError>
    ensures { OnOk result (AddsPart text.old text.new (propagation_part propagates)) }
{
    match propagates {
        None => Ok(()),
        Some(propagates) => push_part(text, propagation_text(propagates)),
    }
}

/// Returns the words for a number; any but 0 means that it goes on.
fn propagation_text(propagates: u8) -> &'static str
    ensures { result.now ≡ propagation_text propagates }
{
    if propagates == 0 {
        return "ttl-propogate disabled";
    }
    "ttl-propogate enabled"
}
