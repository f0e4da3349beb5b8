//! Views of messages, as offsets and numbers.

ghost use Rattle.std.specs.Prelude.{◌≡◌, ◌≢◌, None, drop, false, true};
ghost use Rattle.netlink_family.specs.Shapes.{has_type, is_block_shaped, nest_levels};
ghost use Rattle.netlink_family.specs.Tables.{table_error};
ghost use Rattle.netlink_generic.specs.Replies.{controller_error};
ghost use Rattle.netlink_generic.specs.declared.controller.TheConstants.{GENL_HDRLEN, GENL_ID_CTRL};
ghost use Rattle.netlink_route_c.specs.Errors.{Refuses};
ghost use Rattle.netlink_route_c.specs.Views.{IsViewOf, whole_view};
ghost use Rattle.netlink_route_c.specs.declared.results.TheConstants.{UNKNOWN_TYPE};
ghost use Rattle.netlink_route_c.specs.declared.view.TheConstants.{CONTROLLER};

use crate::error::{ErrorNumbers, refused};
use crate::results::{OK, UNKNOWN_TYPE};
use netlink_family::{Both, Joined, MessageView, Table};
use netlink_generic::ControllerFamily;
use netlink_generic::controller::GENL_ID_CTRL;
use netlink_route::RouteTables;

/// The tables of route netlink.
pub type Route = Joined<RouteTables>;

/// The tables of all views: those of route netlink, and the controller's for any other number in
/// place of a message type, such as `CONTROLLER`.
pub type Tables = Both<Route, ControllerFamily>;

/// What a view of the controller has in place of a message type, because the controller's is also
/// that of a link.
pub const CONTROLLER: u16 = 0;

/// A part of the payload (`struct nlp_part`).
#[derive(Clone, Copy, Debug, PartialEq, Eq)]
#[repr(C)]
pub struct Part {
    /// The offset of the part, in bytes from the start of the payload.
    pub offset: usize,
    /// The size of the part in bytes.
    pub size: usize,
}

/// A view of a message or of a nest in a payload (`struct nlp_view`).
#[derive(Clone, Copy, Debug, PartialEq, Eq)]
#[repr(C)]
pub struct View {
    /// The message type, or `CONTROLLER`.
    pub message_type: u16,
    /// The policy of the attributes; 0 for those of a message.
    pub policy: u16,
    /// The number of bytes of the header that a short payload lacks; 0 for any other.
    pub missing: usize,
    /// The fixed header, as far as the payload has it; empty for a nest without one.
    pub header: Part,
    /// The attributes.
    pub attributes: Part,
}

/// Checks the payload of a message of route netlink by the table of its type, and writes a view of
/// it.
///
/// Returns 0; or the reason of the payload's error, whose numbers it writes into `error`. Changes
/// `view` only if it returns 0, and `error` only if it does not. Wraps `MessageView::new`. Does not
/// allocate.
#[tactic(auto, using(crate::proofs::Shaped::whole_is_view, crate::proofs::Shaped::has_table))]
#[unsafe(no_mangle)]
pub extern "C" fn nlp_route_view(
    message_type: u16,
    payload: &[u8],
    view: &mut View,
    error: &mut ErrorNumbers,
) -> u32
    ensures good { result ≡ 0 → table_error ⟦<Route as Table>⟧ message_type payload.now ≡ None }
    ensures view { result ≡ 0
        → view.new ≡ whole_view (⟦<Route as Table>⟧.header_len message_type) message_type payload.now }
    ensures shaped { result ≡ 0 → IsViewOf ⟦<Tables as Table>⟧ payload.now view.new }
    ensures refuses { result ≢ 0
        → Refuses (table_error ⟦<Route as Table>⟧ message_type payload.now) result error.new }
    ensures unchanged { result ≢ 0 → view.new ≡ view.old }
    ensures unfaulted { result ≡ 0 → error.new ≡ error.old }
{
    let result = write_view::<Route>(message_type, message_type, payload, view, error);
    if result == OK {
        first_rows::<Route, ControllerFamily>(message_type);
    }
    result
}

/// Checks the payload of a message of generic netlink's controller by its table, and writes a view
/// of it, as `nlp_route_view` does. Its message type is then `CONTROLLER`.
#[unsafe(no_mangle)]
pub extern "C" fn nlp_generic_view(payload: &[u8], view: &mut View, error: &mut ErrorNumbers) -> u32
    ensures good { result ≡ 0 → controller_error GENL_ID_CTRL payload.now ≡ None }
    ensures view { result ≡ 0 → view.new ≡ whole_view GENL_HDRLEN CONTROLLER payload.now }
    ensures shaped { result ≡ 0 → IsViewOf ⟦<Tables as Table>⟧ payload.now view.new }
    ensures refuses { result ≢ 0 → Refuses (controller_error GENL_ID_CTRL payload.now) result error.new }
    ensures unchanged { result ≢ 0 → view.new ≡ view.old }
    ensures unfaulted { result ≡ 0 → error.new ≡ error.old }
{
    write_view::<ControllerFamily>(GENL_ID_CTRL, CONTROLLER, payload, view, error)
}

/// Writes the size of the fixed header of a message type of route netlink, in bytes.
///
/// Returns 0; or `UNKNOWN_TYPE`, and leaves `size` unchanged, if no table has the message type. Equals
/// `Table::header_len`. Does not allocate.
#[unsafe(no_mangle)]
pub extern "C" fn nlp_route_header_size(message_type: u16, size: &mut usize) -> u32
    ensures known { has_type ⟦<Route as Table>⟧.types message_type ≡ true
        → (result ≡ 0) × (size.new ≡ ⟦<Route as Table>⟧.header_len message_type) }
    ensures unknown { has_type ⟦<Route as Table>⟧.types message_type ≡ false
        → (result ≡ UNKNOWN_TYPE) × (size.new ≡ size.old) }
{
    if !Route::has(message_type) {
        return UNKNOWN_TYPE;
    }
    *size = Route::header_len(message_type);
    OK
}

/// Checks a payload, and writes a view of it with this number in place of its message type.
fn write_view<F: Table>(
    message_type: u16,
    number: u16,
    payload: &[u8],
    view: &mut View,
    error: &mut ErrorNumbers,
) -> u32
    ensures good { result ≡ 0 → table_error F.Table message_type payload.now ≡ None }
    ensures view { result ≡ 0 → view.new ≡ whole_view (F.header_len message_type) number payload.now }
    ensures shaped { result ≡ 0 → is_block_shaped nest_levels (F.rows message_type) 0 (drop (F.header_len message_type) payload.now) ≡ true }
    ensures refuses { result ≢ 0 → Refuses (table_error F.Table message_type payload.now) result error.new }
    ensures unchanged { result ≢ 0 → view.new ≡ view.old }
    ensures unfaulted { result ≡ 0 → error.new ≡ error.old }
{
    match MessageView::<F>::new(message_type, payload) {
        Ok(message) => {
            *view = view_of(&message, number);
            OK
        }
        Err(cause) => refused(error, cause),
    }
}

/// A law: the rows of a message type of the first of two tables. Does nothing at run time.
fn first_rows<F: Table, G: Table>(message_type: u16)
    requires { has_type F.types message_type ≡ true }
    ensures { ⟦<Both<F, G> as Table>⟧.rows message_type ≡ F.rows message_type }
{}

/// Returns the view of a message, with this number in place of its message type.
fn view_of<F: Table>(message: &MessageView<'_, F>, number: u16) -> View
    ensures view { result
        ≡ whole_view (F.header_len message.now.message_type) number message.now.payload.now }
    ensures shaped { is_block_shaped nest_levels (F.rows message.now.message_type) 0
        (drop (F.header_len message.now.message_type) message.now.payload.now) ≡ true }
{
    let header = message.header();
    let attributes = message.view();
    let size = header.bytes.len();
    View {
        message_type: number,
        policy: attributes.policy,
        missing: header.missing,
        header: Part { offset: 0, size },
        attributes: Part {
            offset: size,
            size: attributes.block.len(),
        },
    }
}
