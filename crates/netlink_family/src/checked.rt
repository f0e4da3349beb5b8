//! Iteration over the attributes of a payload that checks them on the way.

ghost use Rattle.std.specs.Iterator.{at_most};
ghost use Rattle.std.specs.Option.{option_map};
ghost use Rattle.std.specs.Prelude.{◌≡◌, ◌≤◌, [], List, Some, false, is_none, IfErr, IfOk, not, drop, length};
ghost use Rattle.netlink_packet_core.specs.Attribute.{Attribute};
ghost use Rattle.netlink_packet_core.specs.Reading.{attributes_in};
ghost use Rattle.netlink_packet_core.specs.Steps.{item_bound, unread};
ghost use Rattle.netlink_shapes.specs.Blocks.{block_fits};
ghost use Rattle.netlink_shapes.specs.Choices.{AreChoices};
ghost use Rattle.netlink_blocks.specs.Iteration.{YieldsChecked};
ghost use Rattle.netlink_shapes.specs.Errors.{block_error, rest_error, too_long_error};
ghost use Rattle.netlink_family.specs.Tables.{table_error};
ghost use Rattle.netlink_shapes.specs.Shapes.{or_first, rows_in, within};

use crate::family::{Table, is_short, rows_of};
use netlink_blocks::value::{Value, value_in};
use netlink_packet_core::{NLA_BLOCK_MAX, NlasIterator};
use netlink_shapes::attribute_error::{AttributeError, error_in};
use netlink_shapes::block::{block_error, fits_shape};
use netlink_shapes::choice::{Choices, NO_CHOICES, kept_shape_among};
use netlink_shapes::error::{FamilyError, header_short};
use netlink_shapes::rows::Rows;
use netlink_shapes::shape::{NEST_LEVELS, TOP};
use std::marker::PhantomData;

/// An iterator over the attributes of a payload, in order, that checks each before it yields its
/// kind and value. If the payload has an error, that error is the last item. Does not allocate.
#[derive(Debug, Drop)]
pub struct CheckedAttributes<'a, F: Table> {
    /// The rest of the walk.
    pub walk: NlasIterator<&'a [u8]>,
    /// All attributes.
    pub block: &'a [u8],
    /// The offset of their end in the payload.
    pub end: usize,
    /// The message type.
    pub message_type: u16,
    /// The rows of the family's table.
    pub rows: Rows,
    /// The last shapes that were chosen by a value.
    pub choices: Choices,
    /// The family of the message.
    pub family: PhantomData<F>,
    pub ghost table: { rows_in rows.list.now ≡ F.rows message_type },
    pub ghost inside: { length block.now ≤ end },
    // an error of the rest is that of the whole
    pub ghost passed: { is_none (rest_error (within (F.rows message_type) block.now) end (unread walk)) ≡ false
        → block_error (F.rows message_type) end block.now
        ≡ rest_error (within (F.rows message_type) block.now) end (unread walk) },
    pub ghost chosen: { AreChoices (within (rows_in rows.list.now) block.now) 0 choices },
}

impl<'a, F: Table> CheckedAttributes<'a, F> {
    /// Starts the iteration over the attributes of a payload; a short payload has none. Returns
    /// `UnknownType`, `HeaderShort`, or, for a block too long for any message, its first error or
    /// else `TooLong`. An error in the attributes is otherwise found by the iteration.
    #[inline(always)]
    pub fn new(message_type: u16, payload: &'a [u8]) -> Result<Self, FamilyError>
        ensures error { IfErr result (λ e. table_error F.Table message_type payload.now ≡ Some e) }
        ensures later { IfOk result (λ all. table_error F.Table message_type payload.now
            ≡ option_map FamilyError.InvalidAttribute
            (rest_error (within (F.rows message_type) all.block.now) (length payload.now) (unread all.walk))) }
        ensures block { IfOk result (λ all. all.block.now ≡ unread all.walk) }
        ensures walk { IfOk result (λ all. unread all.walk ≡ drop (F.header_len message_type) payload.now) }
        ensures end { IfOk result (λ all. all.end ≡ length payload.now) }
        ensures message_type { IfOk result (λ all. all.message_type ≡ message_type) }
    {
        if !F::has(message_type) {
            return Err(FamilyError::UnknownType { message_type });
        }
        let size = F::header_len(message_type);
        let rows = rows_of::<F>(message_type);
        let end = payload.len();
        if end < size {
            if is_short::<F>(message_type, payload) {
                return Ok(CheckedAttributes {
                    walk: NlasIterator::new(&[]),
                    block: &[],
                    end,
                    message_type,
                    rows,
                    choices: NO_CHOICES,
                    family: PhantomData,
                });
            }
            return Err(header_short(size, payload));
        }
        let block = &payload[size..];
        if is_too_long(block) {
            return Err(long_block_error(rows, end, block));
        }
        Ok(CheckedAttributes {
            walk: NlasIterator::new(block),
            block,
            end,
            message_type,
            rows,
            choices: NO_CHOICES,
            family: PhantomData,
        })
    }

    /// Returns the error of the rest of the walk, and ends the walk.
    #[cold]
    #[inline(never)]
    pub(crate) fn stop(&mut self) -> AttributeError
        requires { is_none (rest_error (within (F.rows self.old.message_type) self.old.block.now) self.old.end
            (unread self.old.walk)) ≡ false }
        ensures error { rest_error (within (F.rows self.old.message_type) self.old.block.now) self.old.end
            (unread self.old.walk) ≡ Some result }
        ensures walk { unread self.new.walk ≡ [] }
        ensures end { self.new.end ≡ self.old.end }
        ensures block { self.new.block ≡ self.old.block }
        ensures message_type { self.new.message_type ≡ self.old.message_type }
    {
        let error = block_error(self.rows, self.end, self.block);
        self.walk = NlasIterator::new(&[]);
        error
    }

    /// Returns the error of the rest of the walk as an item, and ends the walk. It is a separate
    /// function so that other items do not initialize the space for an error.
    #[inline(always)]
    fn last(&mut self) -> Option<Result<(u16, Value<'a>), AttributeError>>
        requires { is_none (rest_error (within (F.rows self.old.message_type) self.old.block.now) self.old.end
            (unread self.old.walk)) ≡ false }
        ensures item { YieldsChecked (within (F.rows self.old.message_type) self.old.block.now) self.old.end
            (unread self.old.walk) result (unread self.new.walk) }
        ensures walk { unread self.new.walk ≡ [] }
        ensures end { self.new.end ≡ self.old.end }
        ensures block { self.new.block ≡ self.old.block }
        ensures message_type { self.new.message_type ≡ self.old.message_type }
    {
        Some(Err(self.stop()))
    }
}

/// Returns whether a block is too long for a message in canonical form.
#[inline(always)]
fn is_too_long(block: &[u8]) -> bool
    ensures { (all : List Attribute) → attributes_in block.now ≡ Some all → block_fits all ≡ not result }
{
    block.len() > NLA_BLOCK_MAX
}

/// Returns the error of a block that is too long for a message: its first invalid attribute, or
/// else `TooLong`.
#[cold]
#[inline(never)]
fn long_block_error(rows: Rows, end: usize, block: &[u8]) -> FamilyError
    requires inside { length block.now ≤ end }
    requires long { (all : List Attribute) → attributes_in block.now ≡ Some all → block_fits all ≡ false }
    ensures { or_first (option_map FamilyError.InvalidAttribute (block_error (rows_in rows.list.now) end block.now))
        (too_long_error (attributes_in block.now)) ≡ Some result }
{
    match error_in(NEST_LEVELS, rows, TOP, end, block) {
        Some(error) => FamilyError::InvalidAttribute(error),
        None => FamilyError::TooLong,
    }
}

impl<'a, F: Table> Iterator for CheckedAttributes<'a, F> {
    type Item = Result<(u16, Value<'a>), AttributeError>;

    ghost next_gives = { λ before item after.
        YieldsChecked (within (F.rows before.message_type) before.block.now) before.end (unread before.walk) item
        (unread after.walk)
        × (after.message_type ≡ before.message_type) × (after.end ≡ before.end) × (after.block ≡ before.block) };

    ghost remaining = { λ all. at_most (item_bound (unread all.walk)) };

    #[inline(always)]
    fn next(&mut self) -> Option<Result<(u16, Value<'a>), AttributeError>> {
        let mut walk = self.walk;
        let item = walk.next()?;
        match item {
            Ok(nla) => {
                let kind = nla.raw_kind();
                let value = nla.value();
                let shape = kept_shape_among(self.rows, TOP, self.block, kind, &mut self.choices);
                if fits_shape(self.rows, self.block, shape, kind, value) {
                    self.walk = walk;
                    return Some(Ok((kind, value_in(self.rows, shape, value))));
                }
                return self.last();
            }
            Err(_) => return self.last(),
        }
    }
}
