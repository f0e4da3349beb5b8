//! What the program prints for attributes.
//!
//! The loops are those of `frames`, over a different walk. A common function for both would need a
//! trait for walks, with their items and lines, and would be longer than the two.

ghost use Rattle.std.specs.Prelude.{◌≡◌, ◌++◌, List, Option, IfOk, IfErr, OnOk, string_bytes};
ghost use Rattle.netlink_packet_core.specs.Attribute.{Attribute};
ghost use Rattle.netlink_packet_core.specs.DecodeError.{DecodeError};
ghost use Rattle.netlink_packet_core.specs.Views.{attribute_of, shown, HoldsAttribute};
ghost use Rattle.netlink_packet_core.specs.Walk.{Walk};
ghost use Rattle.netlink_frame.specs.Lines.{kind_text, nla_line, nla_lines};

use netlink_packet_core::laws::walk_unique;
use netlink_packet_core::{DecodeError, NlaBuffer, NlasIterator, hex_pair, push_hex};
use std::alloc::{AllocError, Global};
use std::fmt::Write;

/// Returns the lines of a block's attributes, up to its end or the error that ends the walk, which
/// `nlas_fault` returns. A line has the kind with its flags as four lower-case hexadecimal digits,
/// the size of the value in decimal, and the bytes of the value as two such digits each, or `-` if
/// there are none. Returns `OutOfMemory`, and no other error, if an allocation fails.
pub fn nlas_text(alloc: Global, block: &[u8]) -> Result<String, DecodeError>
    ensures lines { IfOk result
        (λ text. (all : List Attribute) × (fault : Option DecodeError) × Walk block.now all fault
        × (string_bytes text ≡ nla_lines all)) }
    ensures each { IfOk result
        (λ text. (all : List Attribute) (fault : Option DecodeError) → Walk block.now all fault
        → string_bytes text ≡ nla_lines all) }
    ensures memory { IfErr result (λ e. e ≡ DecodeError.OutOfMemory) }
{
    walk_unique();
    Ok(walked_text(alloc, block)?)
}

/// Returns the error that ends the walk of a block (`NlaBufferTooSmall`, `NlaLengthMismatch` or
/// `NlaInvalidLength`), or `None` if the walk ends without one. Wraps `nlas_fault` of
/// `netlink_packet_core`. Does not allocate.
pub fn nlas_fault(block: &[u8]) -> Option<DecodeError>
    ensures fault { (all : List Attribute) × Walk block.now all result }
    ensures each { (all : List Attribute) (fault : Option DecodeError) → Walk block.now all fault
        → result ≡ fault }
{
    netlink_packet_core::nlas_fault(block)
}

/// Returns the lines of a block's attributes, or `AllocError` if an allocation fails.
fn walked_text(alloc: Global, block: &[u8]) -> Result<String, AllocError>
    ensures { IfOk result
        (λ text. (all : List Attribute) × (fault : Option DecodeError) × Walk block.now all fault
        × (string_bytes text ≡ nla_lines all)) }
{
    let mut text = String::new(alloc);
    for item in NlasIterator::new(block) {
        match item {
            Ok(nla) => push_line(&mut text, &nla)?,
            Err(_) => return Ok(text),
        }
    }
    Ok(text)
}

/// Appends the line of an attribute. Requires a view over a complete attribute. Returns
/// `AllocError` if an allocation fails.
fn push_line(text: &mut String, nla: &NlaBuffer<&[u8]>) -> Result<(), AllocError>
    requires { HoldsAttribute (shown nla.now) }
    ensures { OnOk result
        (string_bytes text.new ≡ string_bytes text.old ++ nla_line (attribute_of (shown nla.now))) }
{
    let value = nla.value();
    let size = value.len();
    push_kind(text, nla.raw_kind())?;
    match write!(text, " {size} ") {
        Ok(()) => {}
        Err(_) => return Err(AllocError),
    }
    push_hex(text, value)?;
    text.push_str("\n")?;
    Ok(())
}

/// Appends the four digits of a kind with its flags. Returns `AllocError` if an allocation fails.
fn push_kind(text: &mut String, kind: u16) -> Result<(), AllocError>
    ensures { OnOk result
        (string_bytes text.new
        ≡ string_bytes text.old ++ kind_text kind) }
{
    let [high, low] = kind.to_be_bytes();
    text.push_str(hex_pair(high))?;
    text.push_str(hex_pair(low))
}
