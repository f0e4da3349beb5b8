//! Shapes that are chosen by the value of another attribute.

ghost use Rattle.std.specs.Prelude.{ℕ, ◌≡◌, ◌==◌, ◌&&◌, IfNone, IfSome, List, None, Some, bytes_eq};
ghost use Rattle.netlink_shapes.specs.Choices.{AreChoices};
ghost use Rattle.netlink_shapes.specs.Listing.{first_of, listed};
ghost use Rattle.netlink_shapes.specs.Policies.{IsPart};
ghost use Rattle.netlink_shapes.specs.Shapes.{CachesOther, choice_at, choice_by, number_at, number_by, resolved, rows_in, shape_among, shape_in, within};

use crate::decoders::{bytes_until_nul, number_of};
use crate::find::first_value;
use crate::rows::Rows;
use crate::shape::{
    ANY, Shape, TOP, cached_shape, near_row, row_shape, rows_after, search_row, searched_shape,
};
use netlink_attributes::NLA_TYPE_MASK;

/// Up to this many rows, reading all is faster than searching for the first row of a policy.
const FIRST: usize = 8;

/// Returns the shape of a kind in a policy, among the attributes of a block.
#[inline(always)]
pub(crate) fn shape_among(rows: Rows, policy: u16, block: &[u8], kind: u16) -> Shape
    ensures { result ≡ shape_among (within (rows_in rows.list.now) block.now) policy kind }
{
    resolved(rows, policy, block, row_shape(rows, policy, kind))
}

/// Returns the shape of a kind if its row is found without a search and no value chooses it. Only
/// looks for kinds outside nests, since the rows of `TOP` come first.
#[inline(always)]
pub fn near_shape(rows: Rows, policy: u16, kind: u16) -> Option<Shape>
    ensures { IfSome result (λ shape. (block : List ℕ) → shape ≡ shape_among (within (rows_in rows.list.now) block) policy kind) }
{
    if policy != TOP {
        return None;
    }
    match near_row(rows, policy, kind & NLA_TYPE_MASK)?.3 {
        Shape::Chosen { .. } | Shape::ChosenByNumber { .. } => None,
        shape => Some(shape),
    }
}

/// Returns the shape of a kind for which `near_shape` returned `None`. Outside nests, that may be because
/// a value chooses the shape, and its row is near. In nests, searches at once.
#[inline(always)]
pub fn far_row_shape(rows: Rows, policy: u16, kind: u16) -> Shape
    ensures { result ≡ shape_in (rows_in rows.list.now) policy kind }
{
    if policy == TOP {
        return row_shape(rows, policy, kind);
    }
    searched_shape(rows, policy, kind)
}

/// Returns the shape of a kind in a policy, among the attributes of a block. Keeps what they chose in
/// `choices`.
#[inline(always)]
pub fn kept_shape_among(
    rows: Rows,
    policy: u16,
    block: &[u8],
    kind: u16,
    choices: &mut Choices,
) -> Shape
    requires choices { AreChoices (within (rows_in rows.list.now) block.now) policy choices.old }
    ensures shape { result ≡ shape_among (within (rows_in rows.list.now) block.now) policy kind }
    ensures choices { AreChoices (within (rows_in rows.list.now) block.now) policy choices.new }
{
    kept(rows, policy, block, row_shape(rows, policy, kind), choices)
}

/// Returns the shape of a kind in a policy, among the attributes of a block. Looks the kind up in
/// `own`, rows among which are all of the policy, and keeps what the attributes chose in `choices`.
#[inline(always)]
pub(crate) fn own_shape_among(
    rows: Rows,
    own: Rows,
    policy: u16,
    block: &[u8],
    kind: u16,
    choices: &mut Choices,
) -> Shape
    requires own { IsPart policy (rows_in rows.list.now) (rows_in own.list.now) }
    requires choices { AreChoices (within (rows_in rows.list.now) block.now) policy choices.old }
    ensures shape { result ≡ shape_among (within (rows_in rows.list.now) block.now) policy kind }
    ensures choices { AreChoices (within (rows_in rows.list.now) block.now) policy choices.new }
{
    kept(rows, policy, block, row_shape(own, policy, kind), choices)
}

/// Returns the shape of a kind in a policy, among the attributes of a block. Looks the kind up in
/// `own`, keeps the shape of the kinds without a row in `other`, and what the attributes chose in
/// `choices`.
#[inline(always)]
pub(crate) fn cached_own_shape(
    rows: Rows,
    own: Rows,
    policy: u16,
    block: &[u8],
    kind: u16,
    other: &mut Option<Shape>,
    choices: &mut Choices,
) -> Shape
    requires own { IsPart policy (rows_in rows.list.now) (rows_in own.list.now) }
    requires other { CachesOther (rows_in own.list.now) policy other.old }
    requires choices { AreChoices (within (rows_in rows.list.now) block.now) policy choices.old }
    ensures shape { result ≡ shape_among (within (rows_in rows.list.now) block.now) policy kind }
    ensures other { CachesOther (rows_in own.list.now) policy other.new }
    ensures choices { AreChoices (within (rows_in rows.list.now) block.now) policy choices.new }
{
    kept(
        rows,
        policy,
        block,
        cached_shape(own, policy, kind, other),
        choices,
    )
}

/// Returns the shape of a kind in a policy, among the attributes of a block. Keeps the shape of the
/// kinds without a row in `other`, and what the attributes chose in `choices`.
#[inline(always)]
pub fn cached_shape_among(
    rows: Rows,
    policy: u16,
    block: &[u8],
    kind: u16,
    other: &mut Option<Shape>,
    choices: &mut Choices,
) -> Shape
    requires other { CachesOther (rows_in rows.list.now) policy other.old }
    requires choices { AreChoices (within (rows_in rows.list.now) block.now) policy choices.old }
    ensures shape { result ≡ shape_among (within (rows_in rows.list.now) block.now) policy kind }
    ensures other { CachesOther (rows_in rows.list.now) policy other.new }
    ensures choices { AreChoices (within (rows_in rows.list.now) block.now) policy choices.new }
{
    kept(
        rows,
        policy,
        block,
        cached_shape(rows, policy, kind, other),
        choices,
    )
}

/// A shape that the first attribute of a kind chooses in a policy.
#[derive(Clone, Copy, Debug, PartialEq, Eq)]
pub struct Choice {
    /// The kind of the attribute that chooses.
    pub by: u16,
    /// The policy with a row for each value.
    pub policy: u16,
    /// The shape.
    pub shape: Shape,
}

/// The last two shapes that strings chose in a block, and the last two that numbers chose. So a block
/// of many attributes is walked once for each kind that chooses, even if two choose by turns.
#[derive(Clone, Copy, Debug, PartialEq, Eq)]
pub struct Choices {
    /// What a string chose last.
    pub last: Choice,
    /// What a string chose before that.
    pub before: Choice,
    /// What a number chose last.
    pub last_number: Choice,
    /// What a number chose before that.
    pub before_number: Choice,
}

/// What attributes of a kind choose that no attribute has, since its number is larger than any.
const NO_CHOICE: Choice = Choice {
    by: ANY,
    policy: TOP,
    shape: Shape::Bytes,
};

/// Before any was looked up.
pub const NO_CHOICES: Choices = Choices {
    last: NO_CHOICE,
    before: NO_CHOICE,
    last_number: NO_CHOICE,
    before_number: NO_CHOICE,
};

/// Returns the chosen shape, or the shape itself if no value chooses it. Keeps what was chosen.
#[inline(always)]
fn kept(rows: Rows, policy: u16, block: &[u8], shape: Shape, choices: &mut Choices) -> Shape
    requires choices { AreChoices (within (rows_in rows.list.now) block.now) policy choices.old }
    ensures shape { result ≡ resolved (within (rows_in rows.list.now) block.now) policy shape }
    ensures choices { AreChoices (within (rows_in rows.list.now) block.now) policy choices.new }
{
    match shape {
        Shape::Chosen { by, policy: names } => {
            kept_choice(rows, policy, block, by, names, choices)
        }
        Shape::ChosenByNumber {
            by,
            policy: numbers,
        } => kept_number(rows, policy, block, by, numbers, choices),
        _ => shape,
    }
}

/// Returns the shape that the first attribute of a kind chooses by its string. Walks the block only
/// if it is not one of the last two.
#[inline(always)]
fn kept_choice(
    rows: Rows,
    policy: u16,
    block: &[u8],
    by: u16,
    names: u16,
    choices: &mut Choices,
) -> Shape
    requires choices { AreChoices (within (rows_in rows.list.now) block.now) policy choices.old }
    ensures shape { result ≡ choice_by (rows_in rows.list.now) names (first_of by (listed block.now)) }
    ensures choices { AreChoices (within (rows_in rows.list.now) block.now) policy choices.new }
{
    if choices.last.by == by && choices.last.policy == names {
        return choices.last.shape;
    }
    if choices.before.by == by && choices.before.policy == names {
        return choices.before.shape;
    }
    new_choice(rows, policy, block, by, names, choices);
    choices.last.shape
}

/// Walks the block for a choice by a string, and keeps it as the last one. It is a separate function
/// so that its callers stay small, and returns nothing so that they have no space for a shape to
/// clear. Only the contract uses `policy`, the block's, for the choices by numbers, which do not change.
#[inline(never)]
fn new_choice(rows: Rows, policy: u16, block: &[u8], by: u16, names: u16, choices: &mut Choices)
    requires choices { AreChoices (within (rows_in rows.list.now) block.now) policy choices.old }
    ensures last { choices.new.last.shape ≡ choice_by (rows_in rows.list.now) names (first_of by (listed block.now)) }
    ensures choices { AreChoices (within (rows_in rows.list.now) block.now) policy choices.new }
{
    let shape = chosen_by(rows, names, first_value(block, by));
    choices.before = choices.last;
    choices.last = Choice {
        by,
        policy: names,
        shape,
    };
}

/// Returns the shape that the first attribute of a kind chooses by its number, in a block of this
/// policy. Walks the block only if it is not one of the last two.
#[inline(always)]
fn kept_number(
    rows: Rows,
    policy: u16,
    block: &[u8],
    by: u16,
    numbers: u16,
    choices: &mut Choices,
) -> Shape
    requires choices { AreChoices (within (rows_in rows.list.now) block.now) policy choices.old }
    ensures shape { result ≡ number_by (rows_in rows.list.now) numbers (shape_in (rows_in rows.list.now) policy by)
        (first_of by (listed block.now)) }
    ensures choices { AreChoices (within (rows_in rows.list.now) block.now) policy choices.new }
{
    if choices.last_number.by == by && choices.last_number.policy == numbers {
        return choices.last_number.shape;
    }
    if choices.before_number.by == by && choices.before_number.policy == numbers {
        return choices.before_number.shape;
    }
    new_number(rows, policy, block, by, numbers, choices);
    choices.last_number.shape
}

/// Walks the block for a choice by a number, as `new_choice` does for one by a string.
#[inline(never)]
fn new_number(rows: Rows, policy: u16, block: &[u8], by: u16, numbers: u16, choices: &mut Choices)
    requires choices { AreChoices (within (rows_in rows.list.now) block.now) policy choices.old }
    ensures last { choices.new.last_number.shape ≡ number_by (rows_in rows.list.now) numbers
        (shape_in (rows_in rows.list.now) policy by) (first_of by (listed block.now)) }
    ensures choices { AreChoices (within (rows_in rows.list.now) block.now) policy choices.new }
{
    let shape = numbered_shape(rows, policy, numbers, block, by);
    choices.before_number = choices.last_number;
    choices.last_number = Choice {
        by,
        policy: numbers,
        shape,
    };
}

/// Returns the shape of an attribute of a block of this policy, given the shape in its row: what the
/// first attribute of the choosing kind chooses, or the row's shape itself if no value chooses it.
#[inline(always)]
pub fn resolved(rows: Rows, policy: u16, block: &[u8], shape: Shape) -> Shape
    ensures { result ≡ resolved (within (rows_in rows.list.now) block.now) policy shape }
{
    match shape {
        Shape::Chosen {
            by,
            policy: choices,
        } => chosen_shape(rows, choices, block, by),
        Shape::ChosenByNumber {
            by,
            policy: choices,
        } => numbered_shape(rows, policy, choices, block, by),
        _ => shape,
    }
}

/// Returns the shape that the first attribute of a kind chooses by its string. It is a separate
/// function so that its callers stay small.
#[inline(never)]
fn chosen_shape(rows: Rows, policy: u16, block: &[u8], by: u16) -> Shape
    ensures { result ≡ choice_by (rows_in rows.list.now) policy (first_of by (listed block.now)) }
{
    chosen_by(rows, policy, first_value(block, by))
}

/// Returns the shape that the first attribute of a kind chooses by its number, in a block of this
/// policy. It is a separate function for the same reason.
#[inline(never)]
fn numbered_shape(rows: Rows, policy: u16, choices: u16, block: &[u8], by: u16) -> Shape
    ensures { result ≡ number_by (rows_in rows.list.now) choices (shape_in (rows_in rows.list.now) policy by)
        (first_of by (listed block.now)) }
{
    numbered_by(
        rows,
        choices,
        row_shape(rows, policy, by),
        first_value(block, by),
    )
}

/// Returns the shape that a number chooses from a policy: `by` is the shape by which `value` is read.
/// Returns `Bytes` without a value, if `by` is not the shape of an unsigned integer, if the value does
/// not have it, and if the policy has no row for the number.
#[inline(always)]
pub fn numbered_by(rows: Rows, policy: u16, by: Shape, value: Option<&[u8]>) -> Shape
    ensures some { IfSome value.entry (λ v. result ≡ number_by (rows_in rows.list.now) policy by (Some v.now)) }
    ensures none { IfNone value.entry (result ≡ number_by (rows_in rows.list.now) policy by None) }
{
    match value {
        Some(value) => number_at(rows, policy, number_of(by, value)),
        None => Shape::Bytes,
    }
}

/// Returns the shape in the row of a policy whose kind is a number; `Bytes` if there is none.
fn number_at(rows: Rows, policy: u16, number: Option<u64>) -> Shape
    ensures { result ≡ number_at (rows_in rows.list.now) policy number }
{
    match number {
        Some(number) if number < u64::from(ANY) => {
            match search_row(rows, policy, number as u16) {
                Some(row) => row.3,
                None => Shape::Bytes,
            }
        }
        _ => Shape::Bytes,
    }
}

/// Returns the shape that the string of an attribute chooses; `Bytes` without an attribute.
#[inline(always)]
pub fn chosen_by(rows: Rows, policy: u16, value: Option<&[u8]>) -> Shape
    ensures some { IfSome value.entry (λ v. result ≡ choice_by (rows_in rows.list.now) policy (Some v.now)) }
    ensures none { IfNone value.entry (result ≡ choice_by (rows_in rows.list.now) policy None) }
{
    match value {
        Some(value) => choice_at(rows, policy, bytes_until_nul(value)),
        None => Shape::Bytes,
    }
}

/// Returns the shape in the first row of a policy with a name; `Bytes` if there is none. Only reads
/// the names in the policy.
#[inline(always)]
#[tactic(auto, using(crate::specs::PolicyRows::begins, crate::specs::PolicyRows::ends))]
fn choice_at(rows: Rows, policy: u16, name: &[u8]) -> Shape
    ensures { result ≡ choice_at (rows_in rows.list.now) policy name.now }
{
    let mut rest = rows_with(rows, policy).list;
    while let [row, more @ ..] = rest {
        if is_choice(row.0, row.2, policy, name) {
            return row.3;
        }
        if row.0 > policy {
            return Shape::Bytes;
        }
        rest = more;
    }
    Shape::Bytes
}

/// Returns the rows in which to look for a name of a policy: all rows if the policy begins among the
/// first ones, since it takes longer to search for its first row than to read these.
#[inline(always)]
fn rows_with(rows: Rows, policy: u16) -> Rows
    ensures { IsPart policy (rows_in rows.list.now) (rows_in result.list.now) }
{
    if rows.list.len() > FIRST && rows.list[FIRST].0 < policy {
        return Rows {
            list: rows_after(rows, policy, FIRST + 1),
        };
    }
    rows
}

/// Returns whether a row is in a policy and has a name.
#[inline(always)]
fn is_choice(row_policy: u16, row_name: &str, policy: u16, name: &[u8]) -> bool
    ensures { result ≡ (row_policy == policy && bytes_eq row_name.now name.now) }
{
    row_policy == policy && row_name.as_bytes() == name
}
