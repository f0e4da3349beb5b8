//! Joining families.

ghost use Rattle.std.specs.Prelude.{◌≡◌, ◌++◌, ◌↔◌, IsOk, IfOk, IfErr, true, if◌then◌else◌};
ghost use Rattle.netlink_shapes.specs.SortedLaws.{both_sorted};
ghost use Rattle.netlink_shapes.specs.Shapes.{are_own, has_type};

use crate::family::{Family, Table};
use crate::owned::OwnedMessage;
use crate::view::MessageView;
use netlink_blocks::header_view::Field;
use netlink_shapes::shape::Row;
use std::fmt::Debug;
use std::marker::PhantomData;

/// Two tables as one. It is not a family, because the two may share a message type.
#[derive(Clone, Copy, Debug, PartialEq, Eq)]
pub struct Both<F, G> {
    first: PhantomData<F>,
    second: PhantomData<G>,
}

impl<F: Table, G: Table> Table for Both<F, G> {
    ghost types = { F.types ++ G.types };

    ghost header_len = { λ t. if has_type F.types t then F.header_len t else G.header_len t };

    ghost short = { λ t. if has_type F.types t then F.short t else G.short t };

    ghost rows = { λ t. if has_type F.types t then F.rows t else G.rows t };

    ghost fields = { λ t. if has_type F.types t then F.fields t else G.fields t };

    #[inline(always)]
    #[tactic(auto, using(crate::specs::MessageLaws::has_append))]
    fn has(message_type: u16) -> bool {
        F::has(message_type) || G::has(message_type)
    }

    #[inline(always)]
    fn header_len(message_type: u16) -> usize {
        if F::has(message_type) {
            return F::header_len(message_type);
        }
        G::header_len(message_type)
    }

    #[inline(always)]
    fn allows_short(message_type: u16) -> bool {
        if F::has(message_type) {
            return F::allows_short(message_type);
        }
        G::allows_short(message_type)
    }

    #[inline(always)]
    fn rows(message_type: u16) -> &'static [Row] {
        if F::has(message_type) {
            return F::rows(message_type);
        }
        G::rows(message_type)
    }

    #[inline(always)]
    fn fields(message_type: u16) -> &'static [Field] {
        if F::has(message_type) {
            return F::fields(message_type);
        }
        G::fields(message_type)
    }

    #[inline(always)]
    fn chooses_shape(message_type: u16, kind: u16) -> bool {
        if F::has(message_type) {
            return F::chooses_shape(message_type, kind);
        }
        G::chooses_shape(message_type, kind)
    }

    ghost sorted = { λ t. both_sorted (has_type F.types t) (F.rows t) (G.rows t) (F.sorted t) (G.sorted t) };
}

/// Tables to be joined into one family. Implement it for a type of your own.
pub trait Join: Copy + Debug + Eq {
    /// The tables, combined with `Both`.
    type All: Table;

    /// No message type occurs in two of the tables, and none is below 5.
    ghost disjoint: { are_own Self.All.types ≡ true };
}

/// The family that joins tables with no message type in common.
#[derive(Clone, Copy, Debug, PartialEq, Eq)]
pub struct Joined<J> {
    join: PhantomData<J>,
}

impl<J: Join> Table for Joined<J> {
    ghost types = { J.All.types };

    ghost header_len = { J.All.header_len };

    ghost short = { J.All.short };

    ghost rows = { J.All.rows };

    ghost fields = { J.All.fields };

    #[inline(always)]
    fn has(message_type: u16) -> bool {
        J::All::has(message_type)
    }

    #[inline(always)]
    fn header_len(message_type: u16) -> usize {
        J::All::header_len(message_type)
    }

    #[inline(always)]
    fn allows_short(message_type: u16) -> bool {
        J::All::allows_short(message_type)
    }

    #[inline(always)]
    fn rows(message_type: u16) -> &'static [Row] {
        J::All::rows(message_type)
    }

    #[inline(always)]
    fn fields(message_type: u16) -> &'static [Field] {
        J::All::fields(message_type)
    }

    #[inline(always)]
    fn chooses_shape(message_type: u16, kind: u16) -> bool {
        J::All::chooses_shape(message_type, kind)
    }

    ghost sorted = { J.All.sorted };
}

impl<J: Join> Family for Joined<J> {
    ghost own = { J.disjoint };
}

impl<J: Join> OwnedMessage<Joined<J>> {
    /// Converts the message to one of the combined tables, so that it can be split.
    pub fn tables(self) -> OwnedMessage<J::All>
        ensures message_type { result.message_type ≡ self.message_type }
        ensures bytes { result.bytes ≡ self.bytes }
        ensures short { result.short ≡ self.short }
    {
        OwnedMessage {
            message_type: self.message_type,
            bytes: self.bytes,
            short: self.short,
            family: PhantomData,
        }
    }
}

impl<'a, J: Join> MessageView<'a, Joined<J>> {
    /// Converts the view to one of the combined tables, so that it can be split.
    pub fn tables(&self) -> MessageView<'a, J::All>
        ensures message_type { result.message_type ≡ self.now.message_type }
        ensures payload { result.payload.now ≡ self.now.payload.now }
    {
        MessageView {
            message_type: self.message_type,
            payload: self.payload,
            family: PhantomData,
        }
    }
}

impl<'a, F: Table, G: Table> MessageView<'a, Both<F, G>> {
    /// Returns a view of a message of the first table, or else of the second. Only the message type
    /// is compared.
    #[tactic(auto, using(crate::specs::MessageLaws::has_append))]
    pub fn split(&self) -> Result<MessageView<'a, F>, MessageView<'a, G>>
        ensures which { IsOk result ↔ (has_type F.types self.now.message_type ≡ true) }
        ensures first { IfOk result (λ v. (v.message_type ≡ self.now.message_type)
            × (v.payload.now ≡ self.now.payload.now)) }
        ensures second { IfErr result (λ v. (v.message_type ≡ self.now.message_type)
            × (v.payload.now ≡ self.now.payload.now)) }
    {
        let message_type = self.message_type;
        let payload = self.payload;
        if F::has(message_type) {
            return Ok(MessageView {
                message_type,
                payload,
                family: PhantomData,
            });
        }
        Err(MessageView {
            message_type,
            payload,
            family: PhantomData,
        })
    }
}

impl<F: Table, G: Table> OwnedMessage<Both<F, G>> {
    /// Returns the message as one of the first table, or else as one of the second. Only the
    /// message type is compared.
    #[tactic(auto, using(crate::specs::MessageLaws::has_append))]
    pub fn split(self) -> Result<OwnedMessage<F>, OwnedMessage<G>>
        ensures which { IsOk result ↔ (has_type F.types self.message_type ≡ true) }
        ensures first { IfOk result (λ m. (m.message_type ≡ self.message_type) × (m.bytes ≡ self.bytes)) }
        ensures first_short { IfOk result (λ m. m.short ≡ self.short) }
        ensures second { IfErr result (λ m. (m.message_type ≡ self.message_type) × (m.bytes ≡ self.bytes)) }
        ensures second_short { IfErr result (λ m. m.short ≡ self.short) }
    {
        let message_type = self.message_type;
        let bytes = self.bytes;
        let short = self.short;
        if F::has(message_type) {
            return Ok(OwnedMessage {
                message_type,
                bytes,
                short,
                family: PhantomData,
            });
        }
        Err(OwnedMessage {
            message_type,
            bytes,
            short,
            family: PhantomData,
        })
    }
}
