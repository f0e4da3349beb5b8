//! What a family declares.

ghost use Rattle.std.specs.Prelude.{◌≡◌, ℕ, Bool, List, true};
ghost use Rattle.netlink_shapes.specs.Pushing.{chooses};
ghost use Rattle.netlink_shapes.specs.Shapes.{Field, Row, are_own, fields_in, has_type, rows_in, shape_in, are_sorted};
ghost use Rattle.netlink_shapes.specs.Short.{is_short};

use crate::late::chooses;
use netlink_blocks::header_view::Field;
use netlink_shapes::rows::Rows;
use netlink_shapes::shape::{Row, Shape, row_shape};
use std::fmt::Debug;

/// The size of the largest short payload.
const SHORT_MAX: usize = 4;

/// The message types of one or more families. For each, the table has the size of its fixed header,
/// whether a payload may be short, and rows for the kinds of attributes. A kind without a row may
/// have any bytes as its value.
pub trait Table {
    /// The message types.
    ghost types: { List ℕ };

    /// The size of the fixed header in bytes, by message type.
    ghost header_len: { ℕ → ℕ };

    /// The message types that also allow a payload of 1 to 4 bytes, fewer than the header, in place
    /// of header and attributes.
    ghost short: { ℕ → Bool };

    /// The rows, by message type.
    ghost rows: { ℕ → List Row };

    /// The fields of the fixed header, by message type.
    ghost fields: { ℕ → List Field };

    /// Returns whether the table has a message type.
    fn has(message_type: u16) -> bool
        ensures { result ≡ has_type types message_type };

    /// Returns the size of the fixed header in bytes.
    fn header_len(message_type: u16) -> usize
        ensures len { result ≡ header_len message_type };

    /// Returns whether a message type also allows a payload of 1 to 4 bytes, fewer than the header,
    /// in place of header and attributes.
    fn allows_short(message_type: u16) -> bool
        ensures short { result ≡ short message_type };

    /// Returns the rows.
    fn rows(message_type: u16) -> &'static [Row]
        ensures rows { rows_in result.now ≡ rows message_type };

    /// Returns the fields of the fixed header, for the text of a message.
    fn fields(message_type: u16) -> &'static [Field]
        ensures fields { fields_in result.now ≡ fields message_type };

    /// Returns whether a kind chooses the shape of some kind of a message's own attributes. The
    /// default body looks through the rows; a table may return the answer without them, which is
    /// whether the kind without its flag bits is the `by` of a row of `TOP`.
    fn chooses_shape(message_type: u16, kind: u16) -> bool
        ensures chooses { result ≡ chooses (rows message_type) kind }
    {
        let rows = Rows {
            list: Self::rows(message_type),
        };
        chooses(rows, kind)
    }

    /// The rows are in ascending order of policy, then kind.
    ghost sorted: { (t : ℕ) → are_sorted (rows t) ≡ true };
}

/// Returns the rows, which are sorted.
#[inline(always)]
pub(crate) fn rows_of<F: Table>(message_type: u16) -> Rows
    ensures rows { rows_in result.list.now ≡ F.rows message_type }
{
    Rows {
        list: F::rows(message_type),
    }
}

/// A table whose messages can be the payload of a netlink message: no message type occurs twice,
/// and none is below 5, since the core decodes those itself.
pub trait Family: Table + Copy + Debug + Eq {
    /// The message types are distinct, and none is below 5.
    ghost own: { are_own Self.types ≡ true };
}

/// Returns whether a payload of this message type is short: it has 1 to 4 bytes, fewer than the
/// header, and the table allows that. Such is the `struct rtgenmsg` of linux/rtnetlink.h, one byte
/// and its padding, with which programs request a dump.
#[tactic(auto, using(crate::specs::ShortLaws::whole_not, crate::specs::ShortLaws::short_from))]
pub fn is_short<F: Table>(message_type: u16, payload: &[u8]) -> bool
    ensures { result ≡ is_short (F.short message_type) (F.header_len message_type) payload.now }
{
    let size = payload.len();
    if size >= F::header_len(message_type) || !F::allows_short(message_type) {
        return false;
    }
    size <= SHORT_MAX && size > 0
}

/// Returns the shape that a table gives a kind in a policy.
pub fn shape_of<F: Table>(message_type: u16, policy: u16, kind: u16) -> Shape
    ensures { result ≡ shape_in (F.rows message_type) policy kind }
{
    row_shape(rows_of::<F>(message_type), policy, kind)
}

/// Returns whether a message type is in a list.
pub fn is_among(types: &[u16], message_type: u16) -> bool
    ensures { result ≡ has_type types.now message_type }
{
    let mut rest = types;
    while let [one, more @ ..] = rest {
        if *one == message_type {
            return true;
        }
        rest = more;
    }
    false
}
