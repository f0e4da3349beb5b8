//! The shapes of values, and the lookup of rows.

ghost use Rattle.std.specs.Prelude.{◌≡◌, ◌≤◌, ◌<◌, ◌+◌, ◌*◌, ◌==◌, ◌&&◌, IfSome, None, Some, true, if◌then◌else◌, drop, length};
ghost use Rattle.std.specs.Option.{option_map};
ghost use Rattle.netlink_attributes.specs.Views.{masked};
ghost use Rattle.netlink_shapes.specs.Policies.{IsPart};
ghost use Rattle.netlink_shapes.specs.Shapes.{CachesOther, any_kind, borrowed_row, has_shape, is_multiple, nest_block, nest_of, nest_start, row_at, row_in, rows_in, shape_by, shape_in, nul_terminated, nul_only_last, key_before};

use crate::rows::Rows;
use netlink_attributes::NLA_TYPE_MASK;

/// The shape of an attribute's value. Integers are in native byte order, except those named `Be`,
/// which are big-endian.
#[derive(Clone, Copy, Debug, PartialEq, Eq)]
pub enum Shape {
    /// No value: the attribute's presence is the information.
    Flag,
    /// A `u8`.
    U8,
    /// A `u16`.
    U16,
    /// A `u32`.
    U32,
    /// A `u64`.
    U64,
    /// An `i32`.
    I32,
    /// An `i64`.
    I64,
    /// A big-endian `u16`.
    Be16,
    /// A big-endian `u32`.
    Be32,
    /// A big-endian `u64`.
    Be64,
    /// A big-endian `i32`.
    BeI32,
    /// Exactly this number of bytes.
    ExactLen(u16),
    /// An IP address, 4 or 16 bytes.
    Ip,
    /// A string with a NUL as its last byte, and no other NUL.
    NulStr,
    /// A string with or without a NUL as its last byte, and no other NUL.
    Str,
    /// At least this number of bytes.
    MinLen(u16),
    /// Elements of this number of bytes, one after another. No value has elements of 0 bytes.
    Elements(u16),
    /// Attributes of this policy.
    Nested(u16),
    /// A fixed header, followed by attributes.
    HeaderNested {
        /// The size of the header.
        size: u16,
        /// The policy of the attributes.
        policy: u16,
    },
    /// Any bytes.
    Bytes,
    /// A shape that is chosen by a string, the value of another attribute of the same block.
    Chosen {
        /// The kind of that attribute. The first one of the block counts, even after the chosen one.
        by: u16,
        /// The policy with a row for each value: its name is the value without a NUL, and its shape
        /// is what the value chooses. Any other value chooses `Bytes`, and so does none at all.
        policy: u16,
    },
    /// A shape that is chosen by a number, the value of another attribute of the same block.
    ChosenByNumber {
        /// The kind of that attribute. The first one of the block counts, even after the chosen one.
        /// Its value is read by the shape of its kind in the block's policy, an unsigned integer; any
        /// other shape chooses `Bytes`.
        by: u16,
        /// The policy with a row for each number: its kind is the number, below `ANY`, and its shape
        /// is what the number chooses. Any other number chooses `Bytes`, and so does none at all.
        policy: u16,
    },
}

/// A row of a table: a policy (`TOP` for the attributes of the message itself), a kind of
/// attribute, its name, and the shape of its value.
pub type Row = (u16, u16, &'static str, Shape);

/// The policy of the attributes of the message itself, outside any nest.
pub const TOP: u16 = 0;

/// The kind of a row for every kind that has no row of its own. A policy with this row alone is a
/// list of values of one shape.
pub const ANY: u16 = 0xffff;

/// The maximum depth of nests.
pub const NEST_LEVELS: u8 = 8;

/// Returns the shape of a kind in a policy; `Bytes` if it has no row.
#[inline(always)]
pub fn row_shape(rows: Rows, policy: u16, kind: u16) -> Shape
    ensures { result ≡ shape_in (rows_in rows.list.now) policy kind }
{
    match find_row(rows, policy, kind) {
        Some(row) => row.3,
        None => Shape::Bytes,
    }
}

/// Returns the shape of a kind in a policy, for a caller that looks up many kinds: the shape of the
/// kinds without a row is looked up once and kept in `other`.
#[inline(always)]
pub(crate) fn cached_shape(rows: Rows, policy: u16, kind: u16, other: &mut Option<Shape>) -> Shape
    requires other { CachesOther (rows_in rows.list.now) policy other.old }
    ensures shape { result ≡ shape_in (rows_in rows.list.now) policy kind }
    ensures other { CachesOther (rows_in rows.list.now) policy other.new }
{
    match own_row(rows, policy, kind) {
        Some(row) => row.3,
        None => {
            let shape = match *other {
                Some(kept) => kept,
                None => other_shape(rows, policy),
            };
            *other = Some(shape);
            shape
        }
    }
}

/// Returns the shape of a kind in a policy. Searches at once, without the two tries of `near_row`.
#[inline(always)]
pub(crate) fn searched_shape(rows: Rows, policy: u16, kind: u16) -> Shape
    ensures { result ≡ shape_in (rows_in rows.list.now) policy kind }
{
    match search(rows, policy, kind & NLA_TYPE_MASK) {
        Some(row) => row.3,
        None => other_shape(rows, policy),
    }
}

/// Returns the shape of the kinds of a policy that have no row of their own.
fn other_shape(rows: Rows, policy: u16) -> Shape
    ensures { result ≡ shape_by (row_at (rows_in rows.list.now) policy any_kind) }
{
    match search_row(rows, policy, ANY) {
        Some(row) => row.3,
        None => Shape::Bytes,
    }
}

/// Returns the row of a kind in a policy, or else the policy's row for `ANY`. Ignores the flag bits
/// of the kind.
#[inline(always)]
pub fn find_row(rows: Rows, policy: u16, kind: u16) -> Option<&'static Row>
    ensures { option_map borrowed_row result ≡ row_in (rows_in rows.list.now) policy kind }
{
    match own_row(rows, policy, kind) {
        Some(row) => Some(row),
        None => search_row(rows, policy, ANY),
    }
}

/// Returns the row of a kind in a policy. Ignores the flag bits of the kind.
#[inline(always)]
fn own_row(rows: Rows, policy: u16, kind: u16) -> Option<&'static Row>
    ensures { option_map borrowed_row result ≡ row_at (rows_in rows.list.now) policy (masked kind) }
{
    row_at(rows, policy, kind & NLA_TYPE_MASK)
}

/// Returns the row of a policy and a kind.
#[inline(always)]
fn row_at(rows: Rows, policy: u16, kind: u16) -> Option<&'static Row>
    ensures { option_map borrowed_row result ≡ row_at (rows_in rows.list.now) policy kind }
{
    match near_row(rows, policy, kind) {
        Some(row) => Some(row),
        None => search_row(rows, policy, kind),
    }
}

/// Returns the row of a policy and a kind if it is where it is found without a search. First tries
/// index `kind - 1`, where the row is if the first policy has a row for every smaller kind. If some
/// of these kinds have no row, that index has a greater kind. Then goes back from there by the
/// difference of the two kinds, and tries the row there. Does not try a second row if the first one
/// belongs to another policy: that row's kind says nothing about this policy.
#[inline(always)]
pub(crate) fn near_row(rows: Rows, policy: u16, kind: u16) -> Option<&'static Row>
    ensures { IfSome result (λ row. Some (borrowed_row row) ≡ row_at (rows_in rows.list.now) policy kind) }
{
    let at = usize::from(kind.wrapping_sub(1));
    if at < rows.list.len() {
        let row = &rows.list[at];
        if is_same(row.0, row.1, policy, kind) {
            return Some(row);
        }
        if row.0 != policy {
            return None;
        }
        let near = &rows.list[earlier(at, row.1, kind)];
        if is_same(near.0, near.1, policy, kind) {
            return Some(near);
        }
    }
    None
}

/// Returns the index that is `greater - kind` before `at`, or 0 if there is none. Returns `at` if
/// `greater` is not greater than `kind`.
#[inline(always)]
fn earlier(at: usize, greater: u16, kind: u16) -> usize
    ensures { result ≤ at }
{
    at.saturating_sub(usize::from(greater.saturating_sub(kind)))
}

/// Returns the row of a policy and a kind, by `search`. It is a separate function so that its callers
/// stay small.
#[inline(never)]
pub(crate) fn search_row(rows: Rows, policy: u16, kind: u16) -> Option<&'static Row>
    ensures { option_map borrowed_row result ≡ row_at (rows_in rows.list.now) policy kind }
{
    search(rows, policy, kind)
}

/// Returns the row of a policy and a kind, by binary search. First compares the last row, because
/// many kinds without a row are greater than all those with one.
#[inline(always)]
fn search(rows: Rows, policy: u16, kind: u16) -> Option<&'static Row>
    ensures { option_map borrowed_row result ≡ row_at (rows_in rows.list.now) policy kind }
{
    if all_precede(rows, policy, kind) {
        return None;
    }
    let mut low = 0;
    let mut high = rows.list.len();
    while low < high {
        let middle = low + (high - low) / 2;
        let row = &rows.list[middle];
        if is_equal(row.0, row.1, policy, kind) {
            return Some(row);
        }
        (low, high) = half(low, middle, high, is_before(row.0, row.1, policy, kind));
    }
    None
}

/// Returns whether all rows precede a policy and a kind, which then have no row.
#[inline(always)]
fn all_precede(rows: Rows, policy: u16, kind: u16) -> bool
    ensures { result ≡ true → row_at (rows_in rows.list.now) policy kind ≡ None }
{
    let size = rows.list.len();
    if size == 0 {
        return true;
    }
    let last = &rows.list[size - 1];
    is_before(last.0, last.1, policy, kind)
}

/// Returns the rows of a policy. A caller that looks up many kinds of the policy searches these in
/// place of the whole table.
pub(crate) fn policy_rows(rows: Rows, policy: u16) -> Rows
    ensures { IsPart policy (rows_in rows.list.now) (rows_in result.list.now) }
{
    let later = Rows {
        list: rows_after(rows, policy, 0),
    };
    Rows {
        list: rows_until(later, policy),
    }
}

/// Returns the rows from the first row of a policy on. Does not search the first `start` rows, none of
/// which may be the policy's.
#[inline(always)]
pub(crate) fn rows_after(rows: Rows, policy: u16, start: usize) -> &'static [Row]
    requires inside { start ≤ length rows.list.now }
    requires part { IsPart policy (rows_in rows.list.now) (rows_in (drop start rows.list.now)) }
    ensures { IsPart policy (rows_in rows.list.now) (rows_in result.now) }
{
    let mut low = start;
    let mut high = rows.list.len();
    while low < high {
        let middle = low + (high - low) / 2;
        if rows.list[middle].0 < policy {
            low = middle + 1;
        } else {
            high = middle;
        }
    }
    &rows.list[low..]
}

/// Returns the rows up to the last row of a policy.
fn rows_until(rows: Rows, policy: u16) -> &'static [Row]
    ensures { IsPart policy (rows_in rows.list.now) (rows_in result.now) }
{
    let mut low = 0;
    let mut high = rows.list.len();
    while low < high {
        let middle = low + (high - low) / 2;
        if rows.list[middle].0 > policy {
            high = middle;
        } else {
            low = middle + 1;
        }
    }
    &rows.list[..high]
}

/// Returns the bounds of the rows after `middle`, or of those before it.
#[inline(always)]
fn half(low: usize, middle: usize, high: usize, after: bool) -> (usize, usize)
    requires inside { middle < high }
    ensures { result ≡ (if after then (middle + 1, high) else (low, middle)) }
{
    if after {
        (middle + 1, high)
    } else {
        (low, middle)
    }
}

/// Returns whether a policy and a kind are equal to another pair.
#[inline(always)]
fn is_same(policy: u16, kind: u16, other: u16, than: u16) -> bool
    ensures { result ≡ (policy == other && kind == than) }
{
    policy == other && kind == than
}

/// Returns whether a policy and a kind are equal to another pair, by the comparison that `is_before`
/// makes too.
#[inline(always)]
fn is_equal(policy: u16, kind: u16, other: u16, than: u16) -> bool
    ensures { result ≡ (policy == other && kind == than) }
{
    key_of(policy, kind) == key_of(other, than)
}

/// Returns whether a policy and a kind precede another pair.
#[inline(always)]
fn is_before(policy: u16, kind: u16, other: u16, than: u16) -> bool
    ensures { result ≡ key_before policy kind other than }
{
    key_of(policy, kind) < key_of(other, than)
}

/// Returns a policy and a kind as one integer, so that one comparison orders them.
#[inline(always)]
fn key_of(policy: u16, kind: u16) -> u32
    ensures { result ≡ policy * 65536 + kind }
{
    policy as u32 * 65536 + kind as u32
}

/// Returns the policy of a nest, or `None` for any other shape.
#[inline(always)]
pub fn policy_of(shape: Shape) -> Option<u16>
    ensures { result ≡ nest_of shape }
{
    match shape {
        Shape::Nested(policy) | Shape::HeaderNested { policy, .. } => Some(policy),
        Shape::Flag
        | Shape::U8
        | Shape::U16
        | Shape::U32
        | Shape::U64
        | Shape::I32
        | Shape::I64
        | Shape::Be16
        | Shape::Be32
        | Shape::Be64
        | Shape::BeI32
        | Shape::ExactLen(_)
        | Shape::Ip
        | Shape::NulStr
        | Shape::Str
        | Shape::MinLen(_)
        | Shape::Elements(_)
        | Shape::Chosen { .. }
        | Shape::ChosenByNumber { .. }
        | Shape::Bytes => None,
    }
}

/// Returns the size of the header before the attributes of a nest.
pub fn nest_start(shape: Shape) -> usize
    ensures { result ≡ nest_start shape }
{
    match shape {
        Shape::HeaderNested { size, .. } => size as usize,
        _ => 0,
    }
}

/// Returns the attributes of a nest.
pub fn nest_block(shape: Shape, value: &[u8]) -> &[u8]
    ensures { result.now ≡ nest_block shape value.now }
{
    let start = nest_start(shape);
    if value.len() <= start {
        return &[];
    }
    &value[start..]
}

/// Returns whether the last byte is the only NUL.
fn is_nul_terminated(bytes: &[u8]) -> bool
    ensures { result ≡ nul_terminated bytes.now }
{
    let mut rest = bytes;
    while let [first, more @ ..] = rest {
        if *first == 0 {
            return more.is_empty();
        }
        rest = more;
    }
    false
}

/// Returns whether no byte but the last may be NUL.
fn has_nul_only_last(bytes: &[u8]) -> bool
    ensures { result ≡ nul_only_last bytes.now }
{
    let mut rest = bytes;
    while let [first, more @ ..] = rest {
        if *first == 0 {
            return more.is_empty();
        }
        rest = more;
    }
    true
}

/// Returns whether a size is a multiple of that of an element, which is not 0.
fn is_multiple(size: usize, element: u16) -> bool
    ensures { result ≡ is_multiple size element }
{
    element != 0 && size % usize::from(element) == 0
}

/// Returns whether a value has a shape. The attributes inside a nest are ignored. No value has a
/// shape that is still to be chosen.
#[inline(always)]
pub fn has_shape(shape: Shape, value: &[u8]) -> bool
    ensures { result ≡ has_shape shape value.now }
{
    match shape {
        Shape::Flag => value.len() == 0,
        Shape::U8 => value.len() == 1,
        Shape::U16 | Shape::Be16 => value.len() == 2,
        Shape::U32 | Shape::I32 | Shape::Be32 | Shape::BeI32 => value.len() == 4,
        Shape::U64 | Shape::I64 | Shape::Be64 => value.len() == 8,
        Shape::ExactLen(size) => value.len() == size as usize,
        Shape::Ip => value.len() == 4 || value.len() == 16,
        Shape::NulStr => is_nul_terminated(value),
        Shape::Str => has_nul_only_last(value),
        Shape::MinLen(size) => value.len() >= size as usize,
        Shape::Elements(size) => is_multiple(value.len(), size),
        Shape::HeaderNested { size, .. } => value.len() >= size as usize,
        Shape::Chosen { .. } | Shape::ChosenByNumber { .. } => false,
        Shape::Nested(_) | Shape::Bytes => true,
    }
}
