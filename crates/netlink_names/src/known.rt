//! The names of links, from the messages about them.

ghost use Rattle.std.specs.Prelude.{◌≡◌, ◌<◌, ◌||◌, ◌⊎◌, IfErr, List, OnOk, length, nat_lt, vec_capacity, vec_len};
ghost use Rattle.netlink_names.specs.Device.{name_of};
ghost use Rattle.netlink_names.specs.News.{after_news};
ghost use Rattle.netlink_names.specs.declared.device.Known.{Known};
ghost use Rattle.netlink_names.specs.Known.{has_name, link_known, longest_name, with_name, with_room, without};

use crate::device::Known;
use crate::name::Name;
use crate::name_table::{Names, name_of};
use crate::short_name::LONGEST_NAME;
use netlink_family::MessageView;
use netlink_route::Links;
use netlink_route::links::{IFI_FAMILY, IFI_INDEX, IFLA_IFNAME, RTM_DELLINK, RTM_NEWLINK};
use std::alloc::{AllocError, Global};

/// The number of links whose names are kept.
pub(crate) const MOST_LINKS: usize = 65_536;

/// The address family of messages about the ports of a bridge. A port that leaves its bridge is deleted
/// there, and is still a link.
const AF_BRIDGE: u8 = 7;

/// What a message about a link says about its name.
pub(crate) enum News<'a> {
    /// The link with this index exists and has this name.
    Named(u32, &'a [u8]),
    /// The link with this index is deleted.
    Deleted(u32),
    /// Nothing.
    Nothing,
}

/// Returns what a message about a link says about its name.
#[inline(always)]
#[tactic(auto, unfolding(crate::specs::Known::link_known))]
pub(crate) fn news_of<'a>(link: &MessageView<'a, Links>) -> News<'a>
    ensures { (known : List Known) → after_news result known
        ≡ link_known link.now.message_type link.now.payload.now known }
{
    let index = link.header().i32(IFI_INDEX).cast_unsigned();
    if link.message_type == RTM_NEWLINK {
        return match link.view().str_bytes(IFLA_IFNAME) {
            Some(name) => News::Named(index, name),
            None => News::Nothing,
        };
    }
    if link.message_type == RTM_DELLINK {
        if link.header().u8(IFI_FAMILY) == AF_BRIDGE {
            return News::Nothing;
        }
        return News::Deleted(index);
    }
    News::Nothing
}

/// Enters the name of a link that exists, or removes that of a link that is deleted. A link keeps its
/// name if a message has no name or a longer one than the kernel allows, or says that it is no port of a
/// bridge any more. Returns `AllocError` if an
/// allocation fails.
pub fn learn_link(
    alloc: Global,
    known: &mut Vec<Known>,
    link: &MessageView<'_, Links>,
) -> Result<(), AllocError>
    ensures known { OnOk result (known.new.items
        ≡ link_known link.now.message_type link.now.payload.now known.old.items) }
{
    match news_of(link) {
        News::Named(index, name) => enter_name(alloc, known, index, name),
        News::Deleted(index) => {
            forget(known, index);
            Ok(())
        }
        News::Nothing => Ok(()),
    }
}

/// Enters a name as the newest, in place of another one of the same link or, if all places are taken,
/// of the oldest one. Enters no name of more than 15 bytes, and none that the link has already. Returns
/// `AllocError` if an allocation fails; the names are then unchanged.
#[tactic(auto, unfolding(crate::specs::Known::with_name))]
pub fn enter_name(
    alloc: Global,
    known: &mut Vec<Known>,
    index: u32,
    name: &[u8],
) -> Result<(), AllocError>
    ensures list { OnOk result (known.new.items ≡ with_name index name.now known.old.items) }
    ensures unchanged { IfErr result (λ _. known.new.items ≡ known.old.items) }
{
    if is_settled(&Names::of(known), index, name) {
        return Ok(());
    }
    let name = Name::new(alloc, name)?;
    forget(known, index);
    make_room(known);
    known.push(Known { index, name })?;
    Ok(())
}

/// Returns whether a name is not to be entered: it has more than 15 bytes, or the link has it already.
#[inline(always)]
pub(crate) fn is_settled(known: &Names<'_>, index: u32, name: &[u8]) -> bool
    ensures { result ≡ (nat_lt longest_name (length name.now) || has_name (name_of known.now index) name.now) }
{
    name.len() > LONGEST_NAME || has_name(known, index, name)
}

/// Returns whether the link with this index has this name.
fn has_name(known: &Names<'_>, index: u32, name: &[u8]) -> bool
    ensures { result ≡ has_name (name_of known.now index) name.now }
{
    match name_of(known, index) {
        Some(old) => old == name,
        None => false,
    }
}

/// Removes the name of the link with this index, if it is known. Keeps the capacity, so that the list
/// can take another name without an allocation.
pub(crate) fn forget(known: &mut Vec<Known>, index: u32)
    ensures list { known.new.items ≡ without index known.old.items }
    ensures room { known.new.items ≡ known.old.items ⊎ vec_len known.new < vec_capacity known.new }
{
    known.retain(|link| link.index != index);
}

/// Removes the oldest name if all places are taken. Keeps the capacity.
#[tactic(auto, unfolding(crate::specs::Known::with_room))]
fn make_room(known: &mut Vec<Known>)
    ensures list { known.new.items ≡ with_room known.old.items }
    ensures room { known.new.items ≡ known.old.items ⊎ vec_len known.new < vec_capacity known.new }
    ensures capacity { vec_capacity known.new ≡ vec_capacity known.old }
{
    if known.len() >= MOST_LINKS {
        known.remove(0);
    }
}
