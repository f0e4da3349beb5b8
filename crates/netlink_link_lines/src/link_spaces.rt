//! The network namespaces of a link.

ghost use Rattle.std.specs.Prelude.{◌≡◌, OnOk};
ghost use Rattle.netlink_route.specs.declared.links.TheConstants.{IFLA_LINK_NETNSID, IFLA_NEW_IFINDEX, IFLA_NEW_NETNSID};
ghost use Rattle.netlink_link_lines.specs.LinkSpaces.{down_part, signed_part, space_id, space_part, space_parts};
ghost use Rattle.netlink_words.specs.Parts.{AddsPart, AddsParts};

use netlink_family::MessageIndex;
use netlink_route::Links;
use netlink_route::links::{
    IFLA_LINK_NETNSID, IFLA_NEW_IFINDEX, IFLA_NEW_NETNSID, IFLA_PROTO_DOWN,
};
use netlink_words::digits::push_signed;
use netlink_words::parts::{push_key, push_part, push_when};
use std::alloc::AllocError;

/// Appends the network namespace of the lower link, the namespace and the index that the link got,
/// and whether its protocol is down.
#[tactic(auto, unfolding(crate::specs::LinkSpaces::space_parts))]
pub(crate) fn push_spaces(
    text: &mut String,
    link: &MessageIndex<'_, Links>,
) -> Result<(), AllocError>
    ensures { OnOk result (AddsParts text.old text.new (space_parts link.now.message.payload.now)) }
{
    push_lower_space(text, lower_space(link))?;
    push_keyed_signed(text, "new-netnsid", new_space(link))?;
    push_keyed_signed(text, "new-ifindex", new_index(link))?;
    push_down(text, link.index().u8(IFLA_PROTO_DOWN))
}

/// Returns the id of the network namespace of the lower link.
fn lower_space(link: &MessageIndex<'_, Links>) -> Option<i32>
    ensures { result ≡ space_id link.now.message.payload.now IFLA_LINK_NETNSID }
{
    link.index().i32(IFLA_LINK_NETNSID)
}

/// Returns the id of the network namespace that the link moved to.
fn new_space(link: &MessageIndex<'_, Links>) -> Option<i32>
    ensures { result ≡ space_id link.now.message.payload.now IFLA_NEW_NETNSID }
{
    link.index().i32(IFLA_NEW_NETNSID)
}

/// Returns the index that the link has there.
fn new_index(link: &MessageIndex<'_, Links>) -> Option<i32>
    ensures { result ≡ space_id link.now.message.payload.now IFLA_NEW_IFINDEX }
{
    link.index().i32(IFLA_NEW_IFINDEX)
}

/// Appends the id of the network namespace of a lower link; `unknown` for one below 0.
#[tactic(auto, unfolding(crate::specs::LinkSpaces::space_part, netlink_words::specs::Parts::with_part))]
fn push_lower_space(text: &mut String, id: Option<i32>) -> Result<(), AllocError>
    ensures { OnOk result (AddsPart text.old text.new (space_part id)) }
{
    match id {
        None => Ok(()),
        Some(id) => {
            if id < 0 {
                return push_part(text, "link-netnsid unknown");
            }
            push_keyed_signed(text, "link-netnsid", Some(id))
        }
    }
}

/// Appends a key and a signed number, if there is one.
#[tactic(auto, using(netlink_words::specs::Pieces::key_more), unfolding(crate::specs::LinkSpaces::signed_part, netlink_words::specs::Parts::with_part))]
fn push_keyed_signed(text: &mut String, key: &str, number: Option<i32>) -> Result<(), AllocError>
    ensures { OnOk result (AddsPart text.old text.new (signed_part key.now number)) }
{
    match number {
        Some(number) => {
            push_key(text, key)?;
            push_signed(text, number)
        }
        None => Ok(()),
    }
}

/// Appends `protodown on` for a number other than 0.
#[tactic(auto, unfolding(crate::specs::LinkSpaces::down_part, netlink_words::specs::Parts::with_part))]
fn push_down(text: &mut String, down: Option<u8>) -> Result<(), AllocError>
    ensures { OnOk result (AddsPart text.old text.new (down_part down)) }
{
    match down {
        Some(down) => push_when(text, down != 0, "protodown on"),
        None => Ok(()),
    }
}
