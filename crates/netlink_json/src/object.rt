//! Objects.

ghost use Rattle.std.specs.Prelude.{◌≡◌, ◌++◌, IfOk, OnOk, codes, string_bytes};
ghost use Rattle.netlink_json.specs.Fields.{Adds, AddsArray, AddsObject, braced, no_field, object_text, present, raw_end, with_raw_array, written};
ghost use Rattle.netlink_json.specs.Json.{after_comma, boolean, hundredths, null, number, signed, text};
ghost use Rattle.netlink_json.specs.Strings.{string_text};

use crate::array::{Array, push_bracketed};
use crate::fraction::push_hundredths;
use crate::string::{is_text, push_string};
use netlink_bytes::push_hex;
use std::alloc::{AllocError, Global};

/// An object so far.
#[derive(Drop)]
pub struct Object {
    /// Its members, each after a comma.
    pub text: String,
    /// The members of its member `raw`, each after a comma: the bytes of each string that is not UTF-8,
    /// in hexadecimal.
    pub raw: String,
}

impl Object {
    /// Returns an object without members. Does not allocate.
    pub fn new(alloc: Global) -> Object
        ensures none { written result ≡ no_field }
    {
        Object {
            text: String::new(alloc),
            raw: String::new(alloc),
        }
    }

    /// Appends a string of any bytes. If they are not UTF-8, `raw` has them in hexadecimal. Returns
    /// `AllocError` if an allocation fails.
    #[tactic(auto, unfolding(crate::specs::Fields::with_field))]
    pub fn put_text(&mut self, alloc: Global, key: &str, bytes: &[u8]) -> Result<(), AllocError>
        ensures adds { OnOk result (Adds self.old self.new (present key.now (text bytes.now))) }
    {
        push_key(&mut self.text, key)?;
        push_string(&mut self.text, bytes)?;
        if is_text(bytes) {
            return Ok(());
        }
        let mut digits = String::new(alloc);
        push_hex(&mut digits, bytes)?;
        push_key(&mut self.raw, key)?;
        push_string(&mut self.raw, digits.as_bytes())
    }

    /// Appends a number. Returns `AllocError` if an allocation fails.
    #[tactic(auto, unfolding(crate::specs::Fields::with_field))]
    pub fn put_number(&mut self, key: &str, value: u64) -> Result<(), AllocError>
        ensures adds { OnOk result (Adds self.old self.new (present key.now (number value))) }
    {
        push_key(&mut self.text, key)?;
        write!(&mut self.text, "{value}")
    }

    /// Appends a signed number. Returns `AllocError` if an allocation fails.
    #[tactic(auto, unfolding(crate::specs::Fields::with_field))]
    pub fn put_signed(&mut self, key: &str, integer: i64) -> Result<(), AllocError>
        ensures adds { OnOk result (Adds self.old self.new (present key.now (signed integer))) }
    {
        push_key(&mut self.text, key)?;
        write!(&mut self.text, "{integer}")
    }

    /// Appends a number of hundredths as a decimal fraction, without zeros at its end: 150 is `1.5`.
    /// Returns `AllocError` if an allocation fails.
    #[tactic(auto, unfolding(crate::specs::Fields::with_field))]
    pub fn put_hundredths(&mut self, key: &str, value: u64) -> Result<(), AllocError>
        ensures adds { OnOk result (Adds self.old self.new (present key.now (hundredths value))) }
    {
        push_key(&mut self.text, key)?;
        push_hundredths(&mut self.text, value)
    }

    /// Appends `true` or `false`. Returns `AllocError` if an allocation fails.
    #[tactic(auto, unfolding(crate::specs::Fields::with_field))]
    pub fn put_boolean(&mut self, key: &str, value: bool) -> Result<(), AllocError>
        ensures adds { OnOk result (Adds self.old self.new (present key.now (boolean value))) }
    {
        push_key(&mut self.text, key)?;
        self.text.push_str(if value { "true" } else { "false" })
    }

    /// Appends `null`. Returns `AllocError` if an allocation fails.
    #[tactic(auto, unfolding(crate::specs::Fields::with_field))]
    pub fn put_null(&mut self, key: &str) -> Result<(), AllocError>
        ensures adds { OnOk result (Adds self.old self.new (present key.now null)) }
    {
        push_key(&mut self.text, key)?;
        self.text.push_str("null")
    }

    /// Appends an object. Returns `AllocError` if an allocation fails.
    pub fn put_object(&mut self, key: &str, inner: Object) -> Result<(), AllocError>
        ensures adds { OnOk result (AddsObject self.old self.new key.now inner) }
    {
        push_key(&mut self.text, key)?;
        push_object(&mut self.text, inner)?;
        Ok(())
    }

    /// Appends an array. `raw` has an array of the bytes of its strings that are not UTF-8. Returns
    /// `AllocError` if an allocation fails.
    pub fn put_array(&mut self, key: &str, items: &Array) -> Result<(), AllocError>
        ensures adds { OnOk result (AddsArray self.old self.new key.now items.now) }
    {
        push_key(&mut self.text, key)?;
        push_bracketed(&mut self.text, &items.text)?;
        push_raw_array(&mut self.raw, key, &items.raw)?;
        Ok(())
    }

    /// Returns the object. Returns `AllocError` if an allocation fails.
    pub fn into_text(self, alloc: Global) -> Result<String, AllocError>
        ensures object { IfOk result (λ text. string_bytes text ≡ object_text (written self)) }
    {
        let mut text = String::new(alloc);
        push_object(&mut text, self)?;
        Ok(text)
    }
}

/// Appends a comma, a key and a colon.
fn push_key(text: &mut String, key: &str) -> Result<(), AllocError>
    ensures { OnOk result (string_bytes text.new
        ≡ string_bytes text.old ++ (codes "," ++ (string_text key.now ++ codes ":"))) }
{
    text.push(',')?;
    push_string(text, key.as_bytes())?;
    text.push(':')
}

/// Appends an array of these items as a member, unless there are none.
fn push_raw_array(raw: &mut String, key: &str, items: &str) -> Result<(), AllocError>
    ensures { OnOk result (string_bytes raw.new ≡ with_raw_array (string_bytes raw.old) key.now items.now) }
{
    if items.is_empty() {
        return Ok(());
    }
    push_key(raw, key)?;
    push_bracketed(raw, items)
}

/// Appends an object.
#[tactic(auto, unfolding(crate::specs::Fields::object_text))]
pub(crate) fn push_object(text: &mut String, object: Object) -> Result<(), AllocError>
    ensures { OnOk result (string_bytes text.new ≡ string_bytes text.old ++ object_text (written object)) }
{
    let Object {
        text: mut members,
        raw,
    } = object;
    push_raw(&mut members, &raw)?;
    push_braced(text, &members)
}

/// Appends the member `raw`, unless it is empty.
fn push_raw(members: &mut String, raw: &str) -> Result<(), AllocError>
    ensures { OnOk result (string_bytes members.new ≡ string_bytes members.old ++ raw_end raw.now) }
{
    if raw.is_empty() {
        return Ok(());
    }
    push_key(members, "raw")?;
    push_braced(members, raw)
}

/// Appends an object with these members, of which each follows a comma.
fn push_braced(text: &mut String, members: &str) -> Result<(), AllocError>
    ensures { OnOk result (string_bytes text.new ≡ string_bytes text.old ++ braced members.now) }
{
    text.push('{')?;
    text.push_str(after_comma(members))?;
    text.push('}')
}

/// Returns a text without a first comma.
pub(crate) fn after_comma(text: &str) -> &str
    ensures { result.now ≡ after_comma text.now }
{
    match text.strip_prefix(',') {
        Some(rest) => rest,
        None => text,
    }
}
