//! A message with the places of its attributes.

ghost use Rattle.std.specs.Prelude.{◌≡◌, ◌+◌, drop, false, length, take};
ghost use Rattle.netlink_shapes.specs.Shapes.{rows_in};
ghost use Rattle.netlink_shapes.specs.Short.{is_short};

use crate::family::Table;
use crate::view::MessageView;
use netlink_blocks::block_index::BlockIndex;
use netlink_blocks::header_view::HeaderView;

/// A view of a message, with the place of the first attribute of each kind below 64. It pays off
/// for a message of which more than a few attributes are wanted. Does not allocate.
#[derive(Debug, Drop)]
pub struct MessageIndex<'a, F: Table> {
    /// The message.
    pub message: MessageView<'a, F>,
    /// Its attributes.
    pub index: BlockIndex<'a>,
    pub ghost rows: { rows_in index.view.rows.list.now ≡ F.rows message.message_type },
    pub ghost policy: { index.view.policy ≡ 0 },
    pub ghost block: { index.view.block.now ≡ drop (F.header_len message.message_type) message.payload.now },
}

impl<'a, F: Table> MessageView<'a, F> {
    /// Returns the message with the places of its attributes, for many lookups.
    pub fn indexed(&self) -> MessageIndex<'a, F>
        ensures { result.message ≡ self.now }
    {
        MessageIndex {
            message: *self,
            index: self.view().indexed(),
        }
    }
}

impl<'a, F: Table> MessageIndex<'a, F> {
    /// Returns the fixed header, as `MessageView::header` does.
    pub fn header(&self) -> HeaderView<'a>
        ensures bytes { result.bytes.now ≡ take (F.header_len self.now.message.message_type) self.now.message.payload.now }
        ensures size { length result.bytes.now + result.missing ≡ F.header_len self.now.message.message_type }
        ensures whole { is_short (F.short self.now.message.message_type) (F.header_len self.now.message.message_type) self.now.message.payload.now ≡ false
            → length result.bytes.now ≡ F.header_len self.now.message.message_type }
    {
        self.message.header()
    }

    /// Returns the attributes by their places, with getters by kind.
    pub fn index(&self) -> &BlockIndex<'a>
        ensures rows { rows_in result.now.view.rows.list.now ≡ F.rows self.now.message.message_type }
        ensures policy { result.now.view.policy ≡ 0 }
        ensures block { result.now.view.block.now ≡ drop (F.header_len self.now.message.message_type) self.now.message.payload.now }
    {
        &self.index
    }
}
