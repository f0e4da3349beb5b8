//! The object of JSON that a packet is shown as, if it is no datagram of route netlink or ends early.

ghost use Rattle.std.specs.Prelude.{◌≡◌, IfOk, OnOk, string_bytes};
ghost use Rattle.netlink_json.specs.Fields.{AddsAll};
ghost use Rattle.netlink_lines.specs.Objects.{bad_object, family_object, netlink_fields};

use crate::messages::Shown;
use crate::objects::{object_line, put_why};
use netlink_json::Object;
use std::alloc::{AllocError, Global};

/// Returns the object of something malformed at this offset that is no message, as a line.
pub(crate) fn bad_object(alloc: Global, at: u64, why: &str) -> Result<Shown, AllocError>
    ensures { IfOk result (λ s. (string_bytes s.text, s.is_malformed) ≡ bad_object at why.now) }
{
    let mut object = Object::new(alloc);
    put_why(alloc, &mut object, at, why)?;
    object_line(alloc, object, true)
}

/// Returns the object of a datagram of another netlink family, by its size in bytes, as a line.
pub(crate) fn family_object(alloc: Global, family: u16, size: usize) -> Result<Shown, AllocError>
    ensures { IfOk result (λ s. (string_bytes s.text, s.is_malformed) ≡ family_object family size) }
{
    let mut object = Object::new(alloc);
    put_netlink(&mut object, family, size)?;
    object_line(alloc, object, false)
}

/// Appends a netlink family and a size in bytes.
fn put_netlink(object: &mut Object, family: u16, size: usize) -> Result<(), AllocError>
    ensures { OnOk result (AddsAll object.old object.new (netlink_fields family size)) }
{
    object.put_number("netlink_family", family as u64)?;
    object.put_number("bytes", size as u64)
}
