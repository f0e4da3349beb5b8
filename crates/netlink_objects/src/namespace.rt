//! The object of an id of a network namespace.

ghost use Rattle.std.specs.Prelude.{◌≡◌, OnOk};
ghost use Rattle.netlink_json.specs.Fields.{AddsParts};
ghost use Rattle.netlink_objects.specs.Namespace.{namespace_parts, namespace_rows};
ghost use Rattle.netlink_objects.specs.Rows.{rows_in};

use crate::form::{Form, put_true};
use crate::row::{Place, Row, put_rows, source_of};
use netlink_family::MessageView;
use netlink_json::Object;
use netlink_names::name_table::Names;
use netlink_route::Namespaces;
use netlink_route::namespaces::{
    NETNSA_CURRENT_NSID, NETNSA_FD, NETNSA_NSID, NETNSA_PID, NETNSA_TARGET_NSID, RTM_DELNSID,
};
use std::alloc::{AllocError, Global};

/// The members of an id that are one value each. An id below 0 is none.
const ROWS: [Row; 5] = [
    ("nsid", Place::Attribute(NETNSA_NSID), Form::Signed),
    ("pid", Place::Attribute(NETNSA_PID), Form::Number),
    ("fd", Place::Attribute(NETNSA_FD), Form::Number),
    (
        "target-nsid",
        Place::Attribute(NETNSA_TARGET_NSID),
        Form::Signed,
    ),
    (
        "current-nsid",
        Place::Attribute(NETNSA_CURRENT_NSID),
        Form::Signed,
    ),
];

/// Returns these rows.
fn namespace_rows() -> &'static [Row]
    ensures { rows_in result.now ≡ namespace_rows }
{
    &ROWS
}

/// Appends the members of a message about the id of a network namespace, with the keys of `ip -j netns
/// list-id` and in its order: the id, what else identifies a namespace in a request, and the
/// id in the namespace of the socket. Returns `AllocError` if an allocation fails.
#[tactic(auto, unfolding(crate::specs::Namespace::namespace_parts))]
pub fn put_namespace(
    alloc: Global,
    object: &mut Object,
    namespace: &MessageView<'_, Namespaces>,
) -> Result<(), AllocError>
    ensures parts { OnOk result (AddsParts object.old object.new
        (namespace_parts namespace.now.message_type namespace.now.payload.now)) }
{
    put_true(object, "deleted", namespace.message_type == RTM_DELNSID)?;
    put_rows(
        alloc,
        object,
        &Names::of(&[]),
        &source_of(namespace),
        namespace_rows(),
    )
}
