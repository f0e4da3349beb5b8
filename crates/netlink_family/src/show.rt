//! Messages as text.

ghost use Rattle.std.specs.Prelude.{◌≡◌, ◌+◌, ◌<◌, ◌++◌, [], IfOk, OnOk, decimal, drop, string_bytes, take};
ghost use Rattle.std.specs.Fmt.{signed_decimal};
ghost use Rattle.netlink_shapes.specs.Shapes.{fields_in, rows_in, shape_among, within};
ghost use Rattle.netlink_blocks.specs.Show.{value_line, block_lines, each_of, field_lines, fixed_size, label_text, nest_line, indent, escaped, label_of, message_text, name_in, value_lines, value_text};

use crate::family::{Table, rows_of};
use crate::view::MessageView;
use netlink_blocks::header_view::{Field, field_bytes};
use netlink_packet_core::{NlasIterator, hex_pair, push_hex};
use netlink_shapes::choice::{NO_CHOICES, kept_shape_among};
use netlink_shapes::decoders::{
    be_i32_in, be16_in, be32_in, be64_in, bytes_until_nul, i32_in, i64_in, u16_in, u32_in, u64_in,
};
use netlink_shapes::rows::Rows;
use netlink_shapes::shape::{
    NEST_LEVELS, Shape, TOP, find_row, has_shape, nest_block, nest_start, policy_of,
};
use std::alloc::{AllocError, Global};
use std::fmt::Write;

impl<F: Table> MessageView<'_, F> {
    /// Returns the message as text: its type, one line per field of its header, and one line per
    /// attribute, each with its name and its value. The attributes of a nest follow it, indented.
    /// Returns an error if an allocation fails.
    pub fn show(&self, alloc: Global) -> Result<String, AllocError>
        ensures { IfOk result (λ text. string_bytes text
            ≡ message_text (F.header_len self.now.message_type) (F.fields self.now.message_type)
            (F.rows self.now.message_type) self.now.message_type self.now.payload.now) }
    {
        let mut text = String::new(alloc);
        text.push_str("type ")?;
        push_number(&mut text, u64::from(self.message_type))?;
        text.push_str("\n")?;
        push_fields(&mut text, F::fields(self.message_type), self.header().bytes)?;
        let rows = rows_of::<F>(self.message_type);
        push_block(&mut text, NEST_LEVELS, rows, TOP, 0, self.block())?;
        Ok(text)
    }
}

/// Appends the lines of the fields of a header.
fn push_fields(text: &mut String, fields: &[Field], header: &[u8]) -> Result<(), AllocError>
    ensures { OnOk result (string_bytes text.new
        ≡ string_bytes text.old ++ field_lines (fields_in fields.now) header.now) }
{
    let mut rest = fields;
    while let [field, more @ ..] = rest {
        text.push_str(field.0)?;
        push_value_line(
            text,
            field.2,
            field_bytes(header, field.1, fixed_size(field.2)),
        )?;
        rest = more;
    }
    Ok(())
}

/// Returns the size of values of a shape; 0 if it is not fixed.
pub(crate) fn fixed_size(shape: Shape) -> usize
    ensures { result ≡ fixed_size shape }
{
    match shape {
        Shape::U8 => 1,
        Shape::U16 | Shape::Be16 => 2,
        Shape::U32 | Shape::I32 | Shape::Be32 | Shape::BeI32 => 4,
        Shape::U64 | Shape::I64 | Shape::Be64 => 8,
        Shape::ExactLen(size) => usize::from(size),
        _ => 0,
    }
}

/// Returns the name that a family's table gives a kind in a policy, such as those of an
/// `AttributeError`; empty if it has no row.
pub fn name_of<F: Table>(message_type: u16, policy: u16, kind: u16) -> &'static str
    ensures { result.now ≡ name_in (F.rows message_type) policy kind }
{
    row_name(rows_of::<F>(message_type), policy, kind)
}

/// Appends the lines of the attributes of a block.
#[cycle(lines)]
fn push_block(
    text: &mut String,
    levels: u8,
    rows: Rows,
    policy: u16,
    depth: u8,
    block: &[u8],
) -> Result<(), AllocError>
    requires room { depth + levels < 256 }
    ensures { OnOk result (string_bytes text.new ≡ string_bytes text.old
        ++ block_lines levels (rows_in rows.list.now) policy depth block.now) }
{
    let mut choices = NO_CHOICES;
    for item in NlasIterator::new(block) {
        match item {
            Ok(nla) => {
                let kind = nla.raw_kind();
                let shape = kept_shape_among(rows, policy, block, kind, &mut choices);
                let value = nla.value();
                push_attribute(text, levels, rows, policy, depth, block, shape, kind, value)?;
            }
            Err(_) => return Ok(()),
        }
    }
    Ok(())
}

/// Appends the lines of an attribute, whose kind has this shape in the block around it.
#[cycle(lines)]
fn push_attribute(
    text: &mut String,
    levels: u8,
    rows: Rows,
    policy: u16,
    depth: u8,
    _around: &[u8],
    shape: Shape,
    kind: u16,
    value: &[u8],
) -> Result<(), AllocError>
    requires room { depth + levels < 256 }
    requires shape { shape ≡ shape_among (within (rows_in rows.list.now) _around.now) policy kind }
    ensures { OnOk result (string_bytes text.new ≡ string_bytes text.old
        ++ value_lines levels (within (rows_in rows.list.now) _around.now) policy depth kind value.now) }
{
    push_label(text, rows, policy, depth, kind)?;
    match policy_of(shape) {
        None => {
            push_value_line(text, shape, value)?;
            Ok(())
        }
        Some(inner) => {
            if levels == 0 {
                push_value_line(text, shape, value)?;
                return Ok(());
            }
            push_nest_line(text, nest_start(shape), value)?;
            let block = nest_block(shape, value);
            push_block(text, levels - 1, rows, inner, depth + 1, block)?;
            Ok(())
        }
    }
}

/// Appends the rest of the line of a nest: its header, if it has one.
pub(crate) fn push_nest_line(
    text: &mut String,
    start: usize,
    value: &[u8],
) -> Result<(), AllocError>
    ensures { OnOk result (string_bytes text.new ≡ string_bytes text.old ++ nest_line start value.now) }
{
    if start == 0 {
        return text.push_str(":\n");
    }
    text.push_str(": ")?;
    push_hex(text, field_bytes(value, 0, start))?;
    text.push_str("\n")?;
    Ok(())
}

/// Appends the name of a kind, indented; its number if it has no name.
fn push_label(
    text: &mut String,
    rows: Rows,
    policy: u16,
    depth: u8,
    kind: u16,
) -> Result<(), AllocError>
    ensures { OnOk result (string_bytes text.new
        ≡ string_bytes text.old ++ label_text (rows_in rows.list.now) policy depth kind) }
{
    push_indent(text, depth)?;
    push_name(text, rows, policy, kind)
}

/// Appends the name of a kind; its number if it has no name.
pub(crate) fn push_name(
    text: &mut String,
    rows: Rows,
    policy: u16,
    kind: u16,
) -> Result<(), AllocError>
    ensures { OnOk result (string_bytes text.new
        ≡ string_bytes text.old ++ label_of (name_in (rows_in rows.list.now) policy kind) kind) }
{
    let name = row_name(rows, policy, kind);
    if name.is_empty() {
        push_number(text, u64::from(kind))?;
        return Ok(());
    }
    text.push_str(name)?;
    Ok(())
}

/// Appends the value of an attribute that is not a nest, and ends the line.
pub(crate) fn push_value_line(
    text: &mut String,
    shape: Shape,
    value: &[u8],
) -> Result<(), AllocError>
    ensures { OnOk result (string_bytes text.new ≡ string_bytes text.old ++ value_line shape value.now) }
{
    text.push_str(": ")?;
    push_value(text, shape, value)?;
    text.push_str("\n")?;
    Ok(())
}

/// Returns the name of a kind in a policy; empty if it has no row.
fn row_name(rows: Rows, policy: u16, kind: u16) -> &'static str
    ensures { result.now ≡ name_in (rows_in rows.list.now) policy kind }
{
    match find_row(rows, policy, kind) {
        Some(row) => row.2,
        None => "",
    }
}

/// Appends two spaces for each level.
pub(crate) fn push_indent(text: &mut String, depth: u8) -> Result<(), AllocError>
    ensures { OnOk result (string_bytes text.new ≡ string_bytes text.old ++ indent depth) }
{
    for _level in 0..depth {
        text.push_str("  ")?;
    }
    Ok(())
}

/// Appends a value according to its shape.
fn push_value(text: &mut String, shape: Shape, value: &[u8]) -> Result<(), AllocError>
    ensures { OnOk result (string_bytes text.new ≡ string_bytes text.old ++ value_text shape value.now) }
{
    if !has_shape(shape, value) {
        return push_hex(text, value);
    }
    match shape {
        Shape::Flag => text.push_str("set"),
        Shape::U8 => push_number(text, u64::from(value[0])),
        Shape::U16 => push_number(text, u64::from(u16_in(value))),
        Shape::U32 => push_number(text, u64::from(u32_in(value))),
        Shape::U64 => push_number(text, u64_in(value)),
        Shape::I32 => push_signed(text, i64::from(i32_in(value))),
        Shape::I64 => push_signed(text, i64_in(value)),
        Shape::Be16 => push_number(text, u64::from(be16_in(value))),
        Shape::Be32 => push_number(text, u64::from(be32_in(value))),
        Shape::Be64 => push_number(text, be64_in(value)),
        Shape::BeI32 => push_signed(text, i64::from(be_i32_in(value))),
        Shape::NulStr | Shape::Str => push_escaped_bytes(text, bytes_until_nul(value)),
        Shape::ExactLen(_)
        | Shape::Ip
        | Shape::MinLen(_)
        | Shape::Elements(_)
        | Shape::Nested(_)
        | Shape::HeaderNested { .. }
        | Shape::Chosen { .. }
        | Shape::ChosenByNumber { .. }
        | Shape::Bytes => push_hex(text, value),
    }
}

/// Appends an integer in decimal.
pub(crate) fn push_number(text: &mut String, number: u64) -> Result<(), AllocError>
    ensures { OnOk result (string_bytes text.new ≡ string_bytes text.old ++ decimal number) }
{
    match write!(text, "{number}") {
        Ok(()) => Ok(()),
        Err(_) => Err(AllocError),
    }
}

/// Appends a signed integer in decimal.
fn push_signed(text: &mut String, number: i64) -> Result<(), AllocError>
    ensures { OnOk result (string_bytes text.new ≡ string_bytes text.old ++ signed_decimal number) }
{
    match write!(text, "{number}") {
        Ok(()) => Ok(()),
        Err(_) => Err(AllocError),
    }
}

/// Appends the bytes of a string, each as a printable character or escaped.
fn push_escaped_bytes(text: &mut String, bytes: &[u8]) -> Result<(), AllocError>
    ensures { OnOk result (string_bytes text.new ≡ string_bytes text.old ++ each_of escaped bytes.now) }
{
    for byte in bytes {
        push_escaped(text, *byte)?;
    }
    Ok(())
}

/// Appends a byte as a printable character, or as a backslash and two hexadecimal digits.
fn push_escaped(text: &mut String, byte: u8) -> Result<(), AllocError>
    ensures { OnOk result (string_bytes text.new ≡ string_bytes text.old ++ escaped byte) }
{
    if byte >= 32 && byte < 127 && byte != b'\\' {
        return text.push(char::from(byte));
    }
    text.push_str("\\")?;
    text.push_str(hex_pair(byte))?;
    Ok(())
}
