//! The values of attributes, each read once.

use netlink_family::{BlockView, Value};

/// Returns the sum of the attributes of a block. An attribute counts as its number, as its size if
/// it has no number, or as the sum of what is inside if it is a nest.
#[inline(always)]
pub(crate) fn block_sum(block: BlockView<'_>) -> usize {
    let mut sum = 0usize;
    for (_, value) in block.attributes() {
        sum = sum.wrapping_add(value_number(value));
    }
    sum
}

/// Returns the number that a value counts as.
#[inline(always)]
pub(crate) fn value_number(value: Value<'_>) -> usize {
    match value {
        Value::Nested(nest) => nest_sum(nest),
        _ => flat_number(value),
    }
}

/// Returns the sum of the attributes of a nest. A nest inside it counts as its size.
#[inline(never)]
fn nest_sum(nest: BlockView<'_>) -> usize {
    let mut sum = 0usize;
    for (_, value) in nest.attributes() {
        sum = sum.wrapping_add(flat_number(value));
    }
    sum
}

/// Returns the number or the size of a value.
#[inline(always)]
fn flat_number(value: Value<'_>) -> usize {
    match value {
        Value::Flag => 1,
        Value::U8(number) => number as usize,
        Value::U16(number) | Value::Be16(number) => number as usize,
        Value::U32(number) | Value::Be32(number) => number as usize,
        Value::U64(number) | Value::Be64(number) => number as usize,
        Value::I32(number) | Value::BeI32(number) => number.cast_unsigned() as usize,
        Value::I64(number) => number.cast_unsigned() as usize,
        Value::ExactLen(bytes)
        | Value::Ip(bytes)
        | Value::NulStr(bytes)
        | Value::Str(bytes)
        | Value::MinLen(_, bytes)
        | Value::Elements(_, bytes)
        | Value::Bytes(bytes) => bytes.len(),
        Value::Nested(nest) => nest.block.len(),
        Value::HeaderNested(header, nest) => header.bytes.len().wrapping_add(nest.block.len()),
    }
}
