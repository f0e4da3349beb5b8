//! The line of the id of a network namespace.

ghost use Rattle.std.specs.Prelude.{◌≡◌, [], IfOk, OnOk, string_bytes};
ghost use Rattle.netlink_route_lines.specs.Namespace.{id_part, id_parts, ids_or_key, namespace_line};
ghost use Rattle.netlink_words.specs.Parts.{AddsPart, with_parts};

use netlink_family::MessageView;
use netlink_route::Namespaces;
use netlink_route::namespaces::{
    NETNSA_CURRENT_NSID, NETNSA_FD, NETNSA_NSID, NETNSA_PID, NETNSA_TARGET_NSID, RTM_DELNSID,
    RTM_GETNSID,
};
use netlink_words::parts::{push_number, push_part, push_when};
use std::alloc::{AllocError, Global};

/// Returns the line of a message about the id of a network namespace, as `ip netns list-id` and `ip
/// monitor nsid` print it: the verb, the id, what else identifies a namespace in a request, and the id
/// in the namespace of the socket.
#[tactic(auto, unfolding(crate::specs::Namespace::namespace_line))]
pub fn namespace_text(
    alloc: Global,
    namespace: &MessageView<'_, Namespaces>,
) -> Result<String, AllocError>
    ensures line { IfOk result (λ text. string_bytes text
        ≡ namespace_line namespace.now.message_type namespace.now.payload.now) }
{
    let ids = ids_text(alloc, namespace)?;
    let mut text = String::new(alloc);
    push_when(&mut text, namespace.message_type == RTM_DELNSID, "Deleted")?;
    push_when(&mut text, namespace.message_type == RTM_GETNSID, "Get")?;
    push_part(&mut text, ids_or_key(ids.as_str()))?;
    text.push_str("\n")?;
    Ok(text)
}

/// Returns the id, the process, the file and the namespace that a request names, and the id in the
/// namespace of the socket, each if it is there.
#[tactic(auto, unfolding(crate::specs::Namespace::id_parts))]
fn ids_text(alloc: Global, namespace: &MessageView<'_, Namespaces>) -> Result<String, AllocError>
    ensures { IfOk result (λ text. string_bytes text ≡ with_parts [] (id_parts namespace.now.payload.now)) }
{
    let mut text = String::new(alloc);
    push_id(alloc, &mut text, "nsid", namespace.view().i32(NETNSA_NSID))?;
    push_number(&mut text, "pid", namespace.view().u32(NETNSA_PID))?;
    push_number(&mut text, "fd", namespace.view().u32(NETNSA_FD))?;
    let target = namespace.view().i32(NETNSA_TARGET_NSID);
    push_id(alloc, &mut text, "target-nsid", target)?;
    let current = namespace.view().i32(NETNSA_CURRENT_NSID);
    push_id(alloc, &mut text, "current-nsid", current)?;
    Ok(text)
}

/// Returns the words, or `nsid` if there are none.
#[tactic(auto, unfolding(crate::specs::Namespace::ids_or_key))]
fn ids_or_key<'a>(words: &'a str) -> &'a str
    ensures { result.now ≡ ids_or_key words.now }
{
    if words.is_empty() {
        return "nsid";
    }
    words
}

/// Appends a key and an id, if there is one; `unassigned` for one below 0.
#[tactic(auto, unfolding(crate::specs::Namespace::id_part, netlink_words::specs::Parts::with_part))]
fn push_id(alloc: Global, text: &mut String, key: &str, id: Option<i32>) -> Result<(), AllocError>
    ensures { OnOk result (AddsPart text.old text.new (id_part key.now id)) }
{
    match id {
        None => Ok(()),
        Some(id) => {
            if id < 0 {
                return push_part(text, format!(in alloc; "{key} unassigned")?.as_str());
            }
            push_part(text, format!(in alloc; "{key} {id}")?.as_str())
        }
    }
}
