//! How the bytes of a value are shown.

ghost use Rattle.std.specs.Prelude.{◌≡◌, ◌∷◌, [], OnOk, true};
ghost use Rattle.std.specs.Option.{option_map};
ghost use Rattle.netlink_json.specs.Fields.{Adds, items_written, present, with_items};
ghost use Rattle.netlink_json.specs.Json as json;
ghost use Rattle.netlink_objects.specs.Forms.{big_json, bit_names, boolean_json, device_json, filter_json, form_json, has_bits, lacks_bits, filter_mode_json, names_in, names_json, nonzero_json, signed_json, when_json, word_json};
ghost use Rattle.netlink_objects.specs.Rows.{field_of};

use crate::number::{four_of, number_of};
use crate::word::form_word;
use netlink_family::bytes_until_nul;
use netlink_json::{Array, Object};
use netlink_names::name_table::{Names, name_of};
use netlink_shapes::decoders::{be64_in, i32_in};
use std::alloc::{AllocError, Global};

/// The states of a neighbour in the order in which `ip` names them (linux/neighbour.h).
const NEIGHBOUR_STATES: [(u64, &'static str); 8] = [
    (0x01, "INCOMPLETE"),
    (0x02, "REACHABLE"),
    (0x04, "STALE"),
    (0x08, "DELAY"),
    (0x10, "PROBE"),
    (0x20, "FAILED"),
    (0x40, "NOARP"),
    (0x80, "PERMANENT"),
];

/// How the bytes of a value are shown. A value of another size is left out.
#[derive(Clone, Copy, Debug, PartialEq, Eq)]
pub enum Form {
    /// A number of 1, 2, 4 or 8 bytes.
    Number,
    /// The same, unless it is 0.
    NonZero,
    /// A signed number of 4 bytes.
    Signed,
    /// A big-endian number of 8 bytes.
    Big,
    /// A number of hundredths, as a decimal fraction.
    Hundredths,
    /// `true` for a number other than 0, else `false`.
    Boolean,
    /// `true` if some of these bits are set.
    TrueIf(u64),
    /// `true` if none of these bits is set.
    TrueUnless(u64),
    /// `null`, as `ip` prints some flags, if some of these bits are set.
    NullIf(u64),
    /// `null`, whatever the value is.
    Null,
    /// The name of a mode of the reverse path filter, or its number.
    Filter,
    /// An array of the names of the states of a neighbour (`NUD_*`).
    States,
    /// A string, up to its first NUL.
    Name,
    /// The name of a link other than 0 by its index.
    Device,
    /// An IP address.
    Ip,
    /// Bytes in hexadecimal, with colons between them.
    Hardware,
    /// The name of a type of device (`ARPHRD_*`).
    LinkType,
    /// The name of an operational state (`IF_OPER_*`).
    State,
    /// The name of a mode (`IF_LINK_MODE_*`).
    Mode,
    /// The name of a scope (`RT_SCOPE_*`).
    AnyScope,
    /// The name of a scope, except this one.
    Scope(u8),
    /// The name of an address family (`AF_*`).
    Family,
    /// The name of who installed something (`RTPROT_*`), except these two.
    Protocol(u8, u8),
    /// A type of service other than 0 in hexadecimal, with `0x` before it.
    Tos,
    /// The name of a group of links.
    Group,
    /// The name of an event other than 0 (`IFLA_EVENT_*`).
    Event,
    /// The name of a routing table other than 0 (`RT_TABLE_*`).
    Table,
    /// Those of these bits that are set, in hexadecimal.
    Hex(u32),
}

/// Appends a value in its form, if it has the form's size.
#[tactic(auto, unfolding(crate::specs::Forms::form_json))]
pub(crate) fn put_form(
    alloc: Global,
    object: &mut Object,
    known: &Names<'_>,
    key: &str,
    form: Form,
    value: &[u8],
) -> Result<(), AllocError>
    ensures { OnOk result (Adds object.old object.new (field_of key.now (form_json known.now form value.now))) }
{
    match form {
        Form::Number => put_number(object, key, number_of(value)),
        Form::NonZero => put_nonzero(object, key, number_of(value)),
        Form::Signed => put_signed(object, key, value),
        Form::Big => put_big(object, key, value),
        Form::Hundredths => put_hundredths(object, key, number_of(value)),
        Form::Boolean => put_boolean(object, key, number_of(value)),
        Form::TrueIf(bits) => put_true(object, key, has_bits(number_of(value), bits)),
        Form::TrueUnless(bits) => put_true(object, key, lacks_bits(number_of(value), bits)),
        Form::NullIf(bits) => put_null(object, key, has_bits(number_of(value), bits)),
        Form::Null => object.put_null(key),
        Form::Filter => put_filter(alloc, object, key, four_of(value)),
        Form::States => put_names(alloc, object, key, number_of(value), &NEIGHBOUR_STATES),
        Form::Name => object.put_text(alloc, key, bytes_until_nul(value)),
        Form::Device => put_device(alloc, object, known, key, four_of(value)),
        _ => put_word(alloc, object, key, form_word(alloc, form, value)?.as_str()),
    }
}

/// Appends a number, if there is one.
#[tactic(auto, unfolding(netlink_json::specs::Fields::with_field))]
pub(crate) fn put_number(
    object: &mut Object,
    key: &str,
    number: Option<u64>,
) -> Result<(), AllocError>
    ensures { OnOk result (Adds object.old object.new (field_of key.now (option_map json.number number))) }
{
    match number {
        Some(number) => object.put_number(key, number),
        None => Ok(()),
    }
}

/// Appends a number other than 0.
#[tactic(auto, unfolding(netlink_json::specs::Fields::with_field))]
pub(crate) fn put_nonzero(
    object: &mut Object,
    key: &str,
    number: Option<u64>,
) -> Result<(), AllocError>
    ensures { OnOk result (Adds object.old object.new (field_of key.now (nonzero_json number))) }
{
    match number {
        Some(number) => {
            if number == 0 {
                return Ok(());
            }
            object.put_number(key, number)
        }
        None => Ok(()),
    }
}

/// Appends a big-endian number of 8 bytes.
#[tactic(auto, unfolding(netlink_json::specs::Fields::with_field))]
fn put_big(object: &mut Object, key: &str, value: &[u8]) -> Result<(), AllocError>
    ensures { OnOk result (Adds object.old object.new (field_of key.now (big_json value.now))) }
{
    if value.len() == 8 {
        return object.put_number(key, be64_in(value));
    }
    Ok(())
}

/// Appends a number of hundredths, if there is one.
#[tactic(auto, unfolding(netlink_json::specs::Fields::with_field))]
fn put_hundredths(object: &mut Object, key: &str, number: Option<u64>) -> Result<(), AllocError>
    ensures { OnOk result
        (Adds object.old object.new (field_of key.now (option_map json.hundredths number))) }
{
    match number {
        Some(number) => object.put_hundredths(key, number),
        None => Ok(()),
    }
}

/// Appends whether a number is another one than 0, if there is one.
#[tactic(auto, unfolding(netlink_json::specs::Fields::with_field))]
fn put_boolean(object: &mut Object, key: &str, number: Option<u64>) -> Result<(), AllocError>
    ensures { OnOk result (Adds object.old object.new (field_of key.now (boolean_json number))) }
{
    match number {
        Some(number) => object.put_boolean(key, number != 0),
        None => Ok(()),
    }
}

/// Appends a mode of the reverse path filter, if there is one.
#[tactic(auto, unfolding(netlink_json::specs::Fields::with_field))]
fn put_filter(
    alloc: Global,
    object: &mut Object,
    key: &str,
    mode: Option<u32>,
) -> Result<(), AllocError>
    ensures { OnOk result (Adds object.old object.new (field_of key.now (filter_json mode))) }
{
    match mode {
        Some(mode) => put_filter_mode(alloc, object, key, mode),
        None => Ok(()),
    }
}

/// Appends the name of a mode, a value of `rp_filter` of the kernel's ip-sysctl.rst; for any other
/// number, the number.
fn put_filter_mode(
    alloc: Global,
    object: &mut Object,
    key: &str,
    mode: u32,
) -> Result<(), AllocError>
    ensures { OnOk result (Adds object.old object.new (present key.now (filter_mode_json mode))) }
{
    match mode {
        0 => object.put_text(alloc, key, b"off"),
        1 => object.put_text(alloc, key, b"strict"),
        2 => object.put_text(alloc, key, b"loose"),
        _ => object.put_number(key, mode as u64),
    }
}

/// Returns whether some of these bits of a number are set.
pub(crate) fn has_bits(number: Option<u64>, bits: u64) -> bool
    ensures { result ≡ has_bits bits number }
{
    match number {
        Some(number) => number & bits != 0,
        None => false,
    }
}

/// Returns whether there is a number and none of these bits is set in it.
fn lacks_bits(number: Option<u64>, bits: u64) -> bool
    ensures { result ≡ lacks_bits bits number }
{
    match number {
        Some(number) => number & bits == 0,
        None => false,
    }
}

/// Appends `true` if the condition holds. Returns `AllocError` if an allocation fails.
#[tactic(auto, unfolding(netlink_json::specs::Fields::with_field))]
pub fn put_true(object: &mut Object, key: &str, holds: bool) -> Result<(), AllocError>
    ensures adds { OnOk result (Adds object.old object.new (field_of key.now (when_json holds (json.boolean true)))) }
{
    if !holds {
        return Ok(());
    }
    object.put_boolean(key, true)
}

/// Appends `null` if the condition holds.
#[tactic(auto, unfolding(netlink_json::specs::Fields::with_field))]
pub(crate) fn put_null(object: &mut Object, key: &str, holds: bool) -> Result<(), AllocError>
    ensures { OnOk result (Adds object.old object.new (field_of key.now (when_json holds json.null))) }
{
    if !holds {
        return Ok(());
    }
    object.put_null(key)
}

/// Appends a signed number of 4 bytes.
#[tactic(auto, unfolding(netlink_json::specs::Fields::with_field))]
fn put_signed(object: &mut Object, key: &str, value: &[u8]) -> Result<(), AllocError>
    ensures { OnOk result (Adds object.old object.new (field_of key.now (signed_json value.now))) }
{
    if value.len() == 4 {
        return object.put_signed(key, i32_in(value) as i64);
    }
    Ok(())
}

/// Appends a word, unless it is empty. Returns `AllocError` if an allocation fails.
pub fn put_word(alloc: Global, object: &mut Object, key: &str, word: &str) -> Result<(), AllocError>
    ensures adds { OnOk result (Adds object.old object.new (field_of key.now (word_json word.now))) }
{
    put_bytes(alloc, object, key, word.as_bytes())
}

/// Appends a string of any bytes, unless there are none. Returns `AllocError` if an allocation fails.
#[tactic(auto, unfolding(netlink_json::specs::Fields::with_field))]
pub fn put_bytes(
    alloc: Global,
    object: &mut Object,
    key: &str,
    bytes: &[u8],
) -> Result<(), AllocError>
    ensures adds { OnOk result (Adds object.old object.new (field_of key.now (word_json bytes.now))) }
{
    if bytes.is_empty() {
        return Ok(());
    }
    object.put_text(alloc, key, bytes)
}

/// Appends the name of a link other than 0, or `if` and its index if the name is not known.
#[tactic(auto, unfolding(netlink_json::specs::Fields::with_field))]
pub(crate) fn put_device(
    alloc: Global,
    object: &mut Object,
    known: &Names<'_>,
    key: &str,
    index: Option<u32>,
) -> Result<(), AllocError>
    ensures { OnOk result (Adds object.old object.new (field_of key.now (device_json known.now index))) }
{
    match index {
        None => Ok(()),
        Some(0) => Ok(()),
        Some(index) => match name_of(known, index) {
            Some(name) => object.put_text(alloc, key, name),
            None => {
                let text = format!(in alloc; "if{index}")?;
                object.put_text(alloc, key, text.as_bytes())
            }
        },
    }
}

/// Appends an array of the names of the bits that are set in a number other than 0.
#[tactic(auto, unfolding(netlink_json::specs::Fields::with_field))]
fn put_names(
    alloc: Global,
    object: &mut Object,
    key: &str,
    number: Option<u64>,
    names: &[(u64, &'static str)],
) -> Result<(), AllocError>
    ensures { OnOk result
        (Adds object.old object.new (field_of key.now (names_json (names_in names.now) number))) }
{
    match number {
        None => Ok(()),
        Some(0) => Ok(()),
        Some(number) => {
            let mut items = Array::new(alloc);
            put_bits(alloc, &mut items, number, names)?;
            object.put_array(key, &items)
        }
    }
}

/// Appends the names of the bits that are set in a number.
#[tactic(auto, using(crate::proofs::Loops::bits_all))]
pub(crate) fn put_bits(
    alloc: Global,
    items: &mut Array,
    number: u64,
    names: &[(u64, &'static str)],
) -> Result<(), AllocError>
    ensures { OnOk result (items_written items.new
        ≡ with_items (items_written items.old) (bit_names number (names_in names.now))) }
{
    for (bit, name) in names {
        put_bit(alloc, items, number, *bit, *name)?;
    }
    Ok(())
}

/// Appends the name of a bit if it is set.
fn put_bit(
    alloc: Global,
    items: &mut Array,
    number: u64,
    bit: u64,
    name: &str,
) -> Result<(), AllocError>
    ensures { OnOk result (items_written items.new
        ≡ with_items (items_written items.old) (bit_names number ((bit, name.now) ∷ []))) }
{
    if number & bit == 0 {
        return Ok(());
    }
    items.put_text(alloc, name.as_bytes())
}
