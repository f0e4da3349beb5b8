//! Arrays.

ghost use Rattle.std.specs.Prelude.{◌≡◌, ◌++◌, OnOk, string_bytes};
ghost use Rattle.netlink_json.specs.Fields.{AddsItem, AddsObjectItem, bracketed, items_written, no_field};
ghost use Rattle.netlink_json.specs.Json.{text};

use crate::object::{Object, after_comma, push_object};
use crate::string::{is_text, push_string};
use netlink_bytes::push_hex;
use std::alloc::{AllocError, Global};

/// An array so far.
#[derive(Drop)]
pub struct Array {
    /// Its items, each after a comma.
    pub text: String,
    /// The bytes of each string in it that is not UTF-8, in hexadecimal, as items in the same way.
    pub raw: String,
}

impl Array {
    /// Returns an array without items. Does not allocate.
    pub fn new(alloc: Global) -> Array
        ensures none { items_written result ≡ no_field }
    {
        Array {
            text: String::new(alloc),
            raw: String::new(alloc),
        }
    }

    /// Appends a string of any bytes. Returns `AllocError` if an allocation fails.
    #[tactic(auto, unfolding(crate::specs::Fields::with_item))]
    pub fn put_text(&mut self, alloc: Global, bytes: &[u8]) -> Result<(), AllocError>
        ensures adds { OnOk result (AddsItem self.old self.new (text bytes.now)) }
    {
        self.text.push(',')?;
        push_string(&mut self.text, bytes)?;
        if is_text(bytes) {
            return Ok(());
        }
        let mut digits = String::new(alloc);
        push_hex(&mut digits, bytes)?;
        self.raw.push(',')?;
        push_string(&mut self.raw, digits.as_bytes())
    }

    /// Appends an object. Returns `AllocError` if an allocation fails.
    pub fn put_object(&mut self, inner: Object) -> Result<(), AllocError>
        ensures adds { OnOk result (AddsObjectItem self.old self.new inner) }
    {
        self.text.push(',')?;
        push_object(&mut self.text, inner)?;
        Ok(())
    }
}

/// Appends an array of these items, of which each follows a comma.
pub(crate) fn push_bracketed(text: &mut String, items: &str) -> Result<(), AllocError>
    ensures { OnOk result (string_bytes text.new ≡ string_bytes text.old ++ bracketed items.now) }
{
    text.push('[')?;
    text.push_str(after_comma(items))?;
    text.push(']')
}
