//! The bytes of a message, one line per field: the offset, the bytes, the name and the value.

ghost use Rattle.std.specs.Prelude.{◌≡◌, ◌+◌, ◌-◌, ◌<◌, ◌≤◌, ◌++◌, ◌^◌, OnOk, codes, drop, if◌then◌else◌, length, string_bytes, take};
ghost use Rattle.netlink_packet_core.specs.Views.{HoldsAttribute, raw_kind};
ghost use Rattle.netlink_shapes.specs.Shapes.{fields_in, nest_levels, rows_in, shape_among, within};
ghost use Rattle.netlink_blocks.specs.Show.{each_of, value_line};
ghost use Rattle.netlink_family.specs.ByteLines.{attribute_lines, block_lines_at, field_line_at, field_lines_at, is_fault, line_start, named_start, payload_lines, rest_line, spaced};

use crate::family::{Table, rows_of};
use crate::show::{
    fixed_size, push_indent, push_name, push_nest_line, push_number, push_value_line,
};
use netlink_blocks::header_view::{Field, field_bytes};
use netlink_packet_core::{NlaBuffer, hex_pair, nla_align};
use netlink_shapes::choice::{NO_CHOICES, kept_shape_among};
use netlink_shapes::rows::Rows;
use netlink_shapes::shape::{NEST_LEVELS, Shape, TOP, nest_block, nest_start, policy_of};
use std::alloc::AllocError;

/// Appends the lines of a payload at this offset: of the fields of its header, and of its
/// attributes, those of nests indented. Bytes that no field or attribute has are a line without a name.
/// The line at the offset of the fault, if there is one, begins with `!`.
///
/// The message need not be one of the family: where a value does not have its shape, it is in
/// hexadecimal. Requires that the family has the message type and that the payload ends before 2^64.
/// Returns an error if an allocation fails.
pub fn push_payload_lines<F: Table>(
    text: &mut String,
    message_type: u16,
    fault: Option<u64>,
    at: u64,
    payload: &[u8],
) -> Result<(), AllocError>
    requires room { at + length payload.now < 2 ^ 64 }
    ensures lines { OnOk result (string_bytes text.new ≡ string_bytes text.old
        ++ payload_lines (F.header_len message_type) (F.fields message_type) (F.rows message_type)
        fault at payload.now) }
{
    let size = F::header_len(message_type);
    let (header, block) = split(payload, size);
    push_field_lines(text, F::fields(message_type), fault, at, header)?;
    let end = at + payload.len() as u64;
    push_block_lines::<F>(text, message_type, fault, end, block)
}

/// Appends the lines of the attributes of a block that ends at this offset, by the rows of a message
/// type; those of nests are indented. What follows them, if it starts with no attribute, is a line
/// without a name. The line at the offset of the fault, if there is one, begins with `!`. Returns an
/// error if an allocation fails.
pub fn push_block_lines<F: Table>(
    text: &mut String,
    message_type: u16,
    fault: Option<u64>,
    end: u64,
    block: &[u8],
) -> Result<(), AllocError>
    ensures lines { OnOk result (string_bytes text.new ≡ string_bytes text.old
        ++ block_lines_at fault nest_levels (F.rows message_type) 0 0 end block.now) }
{
    push_block(
        text,
        NEST_LEVELS,
        rows_of::<F>(message_type),
        TOP,
        fault,
        0,
        end,
        block,
    )
}

/// Appends the lines of the fields of a header at this offset, and of its bytes between
/// and after them. Of a header that is cut, the fields have the bytes that are there. Requires that
/// the header ends before 2^64. Returns an error if an allocation fails.
pub fn push_field_lines(
    text: &mut String,
    fields: &[Field],
    fault: Option<u64>,
    at: u64,
    header: &[u8],
) -> Result<(), AllocError>
    requires room { at + length header.now < 2 ^ 64 }
    ensures lines { OnOk result (string_bytes text.new ≡ string_bytes text.old
        ++ field_lines_at fault (fields_in fields.now) at 0 header.now) }
{
    let mut rest = fields;
    let mut from = 0;
    while let [field, more @ ..] = rest {
        let bytes = field_bytes(header, field.1, fixed_size(field.2));
        let between = field_bytes(header, from, field.1.saturating_sub(from));
        push_part(text, fault, at, from, between)?;
        push_field(text, *field, fault, at, bytes)?;
        from = field.1 + bytes.len();
        rest = more;
    }
    let (_, after) = split(header, from);
    push_part(text, fault, at, from, after)
}

/// Appends the line of bytes without a name at this offset, if there are any. Returns an
/// error if an allocation fails.
fn push_rest_line(
    text: &mut String,
    fault: Option<u64>,
    depth: u8,
    at: u64,
    bytes: &[u8],
) -> Result<(), AllocError>
    ensures line { OnOk result (string_bytes text.new ≡ string_bytes text.old
        ++ rest_line fault depth at bytes.now) }
{
    if bytes.is_empty() {
        return Ok(());
    }
    push_line_start(text, fault, depth, at, bytes)?;
    text.push_str("\n")
}

/// Appends the line of bytes of a header without a name, if there are any, by the offset of the header.
fn push_part(
    text: &mut String,
    fault: Option<u64>,
    at: u64,
    from: usize,
    bytes: &[u8],
) -> Result<(), AllocError>
    requires room { 0 < length bytes.now → at + from < 2 ^ 64 }
    ensures { OnOk result (string_bytes text.new ≡ string_bytes text.old
        ++ rest_line fault 0 (at + from) bytes.now) }
{
    if bytes.is_empty() {
        return Ok(());
    }
    push_rest_line(text, fault, 0, at + from as u64, bytes)
}

/// Appends the line of a field with these bytes, by the offset of its header; none if there are none.
fn push_field(
    text: &mut String,
    field: Field,
    fault: Option<u64>,
    at: u64,
    bytes: &[u8],
) -> Result<(), AllocError>
    requires room { 0 < length bytes.now → at + field.1 < 2 ^ 64 }
    ensures { OnOk result (string_bytes text.new ≡ string_bytes text.old
        ++ field_line_at fault (field.entry.0.now, field.entry.1, field.entry.2) at bytes.now) }
{
    if bytes.is_empty() {
        return Ok(());
    }
    push_line_start(text, fault, 0, at + field.1 as u64, bytes)?;
    text.push_str("  ")?;
    text.push_str(field.0)?;
    push_value_line(text, field.2, bytes)
}

/// Appends the lines of the attributes of a block that ends at this offset.
#[cycle(lines)]
fn push_block(
    text: &mut String,
    levels: u8,
    rows: Rows,
    policy: u16,
    fault: Option<u64>,
    depth: u8,
    end: u64,
    block: &[u8],
) -> Result<(), AllocError>
    requires room { depth + levels < 256 }
    ensures { OnOk result (string_bytes text.new ≡ string_bytes text.old
        ++ block_lines_at fault levels (rows_in rows.list.now) policy depth end block.now) }
{
    let mut choices = NO_CHOICES;
    let mut rest = block;
    loop {
        let at = end.saturating_sub(rest.len() as u64);
        match NlaBuffer::new_checked(rest) {
            Ok(nla) => {
                let size = nla_align(nla.length() as usize);
                let kind = nla.raw_kind();
                let shape = kept_shape_among(rows, policy, block, kind, &mut choices);
                push_attribute(
                    text, levels, rows, policy, fault, depth, end, block, shape, rest,
                )?;
                let (_, after) = split(rest, size);
                rest = after;
            }
            Err(_) => return push_rest_line(text, fault, depth, at, rest),
        }
    }
}

/// Appends the lines of the attribute that bytes start with, which end at this offset, and
/// whose kind has this shape in the block around it.
#[cycle(lines)]
fn push_attribute(
    text: &mut String,
    levels: u8,
    rows: Rows,
    policy: u16,
    fault: Option<u64>,
    depth: u8,
    end: u64,
    _around: &[u8],
    shape: Shape,
    bytes: &[u8],
) -> Result<(), AllocError>
    requires room { depth + levels < 256 }
    requires whole { HoldsAttribute bytes.now }
    requires shape { shape ≡ shape_among (within (rows_in rows.list.now) _around.now) policy (raw_kind bytes.now) }
    ensures { OnOk result (string_bytes text.new ≡ string_bytes text.old
        ++ attribute_lines fault levels (within (rows_in rows.list.now) _around.now) policy depth end bytes.now) }
{
    let nla = NlaBuffer::new(bytes);
    let at = end.saturating_sub(bytes.len() as u64);
    let kind = nla.raw_kind();
    let value = nla.value();
    let size = nla_align(nla.length() as usize);
    match policy_of(shape) {
        None => push_flat(
            text, rows, policy, fault, depth, at, bytes, size, shape, kind, value,
        ),
        Some(inner) => {
            if levels == 0 {
                return push_flat(
                    text, rows, policy, fault, depth, at, bytes, size, shape, kind, value,
                );
            }
            let start = nest_start(shape);
            push_named(text, rows, policy, fault, depth, at, bytes, 4 + start, kind)?;
            push_nest_line(text, start, value)?;
            let block = nest_block(shape, value);
            let end = at + 4 + value.len() as u64;
            push_block(text, levels - 1, rows, inner, fault, depth + 1, end, block)
        }
    }
}

/// Appends the line of an attribute that is no nest and has this many bytes with its padding.
fn push_flat(
    text: &mut String,
    rows: Rows,
    policy: u16,
    fault: Option<u64>,
    depth: u8,
    at: u64,
    bytes: &[u8],
    size: usize,
    shape: Shape,
    kind: u16,
    value: &[u8],
) -> Result<(), AllocError>
    ensures { OnOk result (string_bytes text.new ≡ string_bytes text.old
        ++ (named_start fault (rows_in rows.list.now) policy depth at (take size bytes.now) kind
        ++ value_line shape value.now)) }
{
    push_named(text, rows, policy, fault, depth, at, bytes, size, kind)?;
    push_value_line(text, shape, value)
}

/// Appends the start of the line of an attribute of this kind, with the first bytes, as many as `size`,
/// and its name.
fn push_named(
    text: &mut String,
    rows: Rows,
    policy: u16,
    fault: Option<u64>,
    depth: u8,
    at: u64,
    bytes: &[u8],
    size: usize,
    kind: u16,
) -> Result<(), AllocError>
    ensures { OnOk result (string_bytes text.new ≡ string_bytes text.old
        ++ named_start fault (rows_in rows.list.now) policy depth at (take size bytes.now) kind) }
{
    let (first, _) = split(bytes, size);
    push_line_start(text, fault, depth, at, first)?;
    text.push_str("  ")?;
    push_name(text, rows, policy, kind)
}

/// Splits bytes after this many, or after all if there are fewer.
fn split(bytes: &[u8], size: usize) -> (&[u8], &[u8])
    ensures first { result.0.now ≡ take size bytes.now }
    ensures rest { result.1.now ≡ drop size bytes.now }
{
    match bytes.split_at_checked(size) {
        Some(both) => both,
        None => (bytes, &[]),
    }
}

/// Appends the start of the line of bytes at this offset: the mark if the fault is there, the
/// indentation, the offset and the bytes.
fn push_line_start(
    text: &mut String,
    fault: Option<u64>,
    depth: u8,
    at: u64,
    bytes: &[u8],
) -> Result<(), AllocError>
    ensures { OnOk result (string_bytes text.new ≡ string_bytes text.old
        ++ line_start fault depth at bytes.now) }
{
    text.push_str(mark(fault, at))?;
    push_indent(text, depth)?;
    push_number(text, at)?;
    text.push_str(" ")?;
    push_spaced(text, bytes)
}

/// Returns what a line at this offset begins with.
fn mark(fault: Option<u64>, at: u64) -> &'static str
    ensures { result.now ≡ (if is_fault fault at then codes "! " else codes "  ") }
{
    match fault {
        Some(fault) if fault == at => "! ",
        _ => "  ",
    }
}

/// Appends bytes in hexadecimal, each after a space.
fn push_spaced(text: &mut String, bytes: &[u8]) -> Result<(), AllocError>
    ensures { OnOk result (string_bytes text.new ≡ string_bytes text.old ++ each_of spaced bytes.now) }
{
    for byte in bytes {
        text.push_str(" ")?;
        text.push_str(hex_pair(*byte))?;
    }
    Ok(())
}
