//! Messages as text.

ghost use Rattle.std.specs.Prelude.{◌≡◌, ◌≢◌, ◌⊎◌, None, Some};
ghost use Rattle.netlink_family.specs.Show.{message_text};
ghost use Rattle.netlink_family.specs.Tables.{table_error};
ghost use Rattle.netlink_generic.specs.Replies.{controller_error};
ghost use Rattle.netlink_generic.specs.declared.controller.TheConstants.{GENL_ID_CTRL};
ghost use Rattle.netlink_route_c.specs.Errors.{Refuses};
ghost use Rattle.netlink_route_c.specs.Output.{Shows};

use crate::error::{ErrorNumbers, refused};
use crate::output::copy_out;
use crate::results::NO_MEMORY;
use crate::view::Route;
use netlink_family::{MessageView, Table};
use netlink_generic::ControllerFamily;
use netlink_generic::controller::GENL_ID_CTRL;
use std::alloc::Global;

/// Writes the payload of a message of route netlink as text, without a zero at its end: its type,
/// one line per field of its header, and one line per attribute, those of nests indented.
///
/// Returns 0 on success; the text is then the first `size` bytes of `buffer`. Returns the reason of
/// the payload's error, whose numbers it writes into `error`, and leaves `size` unchanged. Returns
/// `NO_ROOM`, and sets `size` to the size that is needed, if the text does not fit in `buffer`.
/// Returns `NO_MEMORY` if an allocation fails. Changes `buffer` only if it returns 0. Wraps
/// `MessageView::show`, which allocates for the text.
#[unsafe(no_mangle)]
pub extern "C" fn nlp_route_show(
    alloc: Global,
    message_type: u16,
    payload: &[u8],
    buffer: &mut [u8],
    size: &mut usize,
    error: &mut ErrorNumbers,
) -> u32
    ensures shows { Shows ⟦<Route as Table>⟧ message_type payload.now buffer.old buffer.new size.old size.new error.old error.new result }
{
    shown::<Route>(alloc, message_type, payload, buffer, size, error)
}

/// Writes the payload of a message of generic netlink's controller as text, as `nlp_route_show`
/// does.
#[unsafe(no_mangle)]
pub extern "C" fn nlp_generic_show(
    alloc: Global,
    payload: &[u8],
    buffer: &mut [u8],
    size: &mut usize,
    error: &mut ErrorNumbers,
) -> u32
    ensures shows { Shows ⟦<ControllerFamily as Table>⟧ GENL_ID_CTRL payload.now buffer.old buffer.new size.old size.new error.old error.new result }
{
    shown::<ControllerFamily>(alloc, GENL_ID_CTRL, payload, buffer, size, error)
}

/// Writes a payload as text.
fn shown<F: Table>(
    alloc: Global,
    message_type: u16,
    payload: &[u8],
    buffer: &mut [u8],
    size: &mut usize,
    error: &mut ErrorNumbers,
) -> u32
    ensures shows { Shows F.Table message_type payload.now buffer.old buffer.new size.old size.new error.old error.new result }
{
    match MessageView::<F>::new(message_type, payload) {
        Ok(message) => match message.show(alloc) {
            Ok(text) => copy_out(text.as_str().as_bytes(), buffer, size),
            Err(_) => NO_MEMORY,
        },
        Err(cause) => refused(error, cause),
    }
}
