//! Members that are one value of a message each, in a table.

ghost use Rattle.std.specs.Prelude.{◌≡◌, OnOk, drop, take};
ghost use Rattle.std.specs.Option.{option_copied};
ghost use Rattle.netlink_json.specs.Fields.{Adds, AddsAll};
ghost use Rattle.netlink_objects.specs.Rows.{or_other, part_of, row_field, row_fields, rows_in, value_at};

use crate::form::{Form, put_form};
use netlink_family::{BlockView, MessageView, Table};
use netlink_json::Object;
use netlink_names::name_table::Names;
use std::alloc::{AllocError, Global};

/// Where a value is in a message.
#[derive(Clone, Copy, Debug, PartialEq, Eq)]
pub enum Place {
    /// In the fixed header: the offset and the size in bytes.
    Header(usize, usize),
    /// In the first attribute of this kind.
    Attribute(u16),
    /// In the first attribute of the first kind, or if there is none, in that of the second one.
    Either(u16, u16),
    /// In the first attribute of this kind, or if there is none, in the header.
    AttributeOr(u16, usize, usize),
    /// In a part of the first attribute of this kind: the offset and the size in bytes.
    Inside(u16, usize, usize),
}

/// A member: its key, where its value is, and how it is shown.
pub type Row = (&'static str, Place, Form);

/// A message, or a nest of one, whose header is empty.
#[derive(Clone, Copy)]
pub struct Source<'a> {
    /// The header.
    pub header: &'a [u8],
    /// The attributes.
    pub block: BlockView<'a>,
}

/// Appends the members of rows.
#[tactic(auto, using(crate::proofs::Loops::rows_all))]
pub(crate) fn put_rows(
    alloc: Global,
    object: &mut Object,
    known: &Names<'_>,
    source: &Source<'_>,
    rows: &[Row],
) -> Result<(), AllocError>
    ensures { OnOk result (AddsAll object.old object.new
        (row_fields known.now source.now.header.now source.now.block.block.now (rows_in rows.now))) }
{
    for row in rows {
        put_row(alloc, object, known, source, row)?;
    }
    Ok(())
}

/// Appends the member of a row, if the message has its value.
#[tactic(auto, unfolding(crate::specs::Rows::row_field, netlink_json::specs::Fields::with_field))]
pub(crate) fn put_row(
    alloc: Global,
    object: &mut Object,
    known: &Names<'_>,
    source: &Source<'_>,
    row: &Row,
) -> Result<(), AllocError>
    ensures { OnOk result (Adds object.old object.new
        (row_field known.now source.now.header.now source.now.block.block.now (row.now.0.now, row.now.1, row.now.2))) }
{
    let (key, place, form) = *row;
    match value_at(source, place) {
        Some(value) => put_form(alloc, object, known, key, form, value),
        None => Ok(()),
    }
}

/// Returns the value at a place, if the message has it.
pub(crate) fn value_at<'a>(source: &Source<'a>, place: Place) -> Option<&'a [u8]>
    ensures { option_copied result ≡ value_at source.now.header.now source.now.block.block.now place }
{
    match place {
        Place::Header(at, size) => part_of(source.header, at, size),
        Place::Attribute(kind) => source.block.first(kind),
        Place::Either(one, two) => or_other(source.block.first(one), source.block.first(two)),
        Place::AttributeOr(kind, at, size) => {
            or_other(source.block.first(kind), part_of(source.header, at, size))
        }
        Place::Inside(kind, at, size) => part_of(source.block.first(kind)?, at, size),
    }
}

/// Returns a value, or another one if there is none.
fn or_other<'a>(value: Option<&'a [u8]>, other: Option<&'a [u8]>) -> Option<&'a [u8]>
    ensures { option_copied result ≡ or_other (option_copied value.entry) (option_copied other.entry) }
{
    match value {
        Some(value) => Some(value),
        None => other,
    }
}

/// Returns the header and the attributes of a message.
pub(crate) fn source_of<'a, T: Table>(message: &MessageView<'a, T>) -> Source<'a>
    ensures header { result.header.now ≡ take (T.header_len message.now.message_type) message.now.payload.now }
    ensures block { result.block.block.now ≡ drop (T.header_len message.now.message_type) message.now.payload.now }
{
    Source {
        header: message.header().bytes,
        block: message.view(),
    }
}

/// Returns bytes of a header, if it has them.
fn part_of(header: &[u8], at: usize, size: usize) -> Option<&[u8]>
    ensures { option_copied result ≡ part_of header.now at size }
{
    let end = at.checked_add(size)?;
    if end > header.len() {
        return None;
    }
    Some(&header[at..end])
}
