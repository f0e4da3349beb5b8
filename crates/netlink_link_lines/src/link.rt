//! The line of a link.

ghost use Rattle.std.specs.Prelude.{◌≡◌, ◌++◌, IfOk, OnOk, string_bytes};
ghost use Rattle.std.specs.Option.{option_copied};
ghost use Rattle.netlink_route.specs.declared.links.TheConstants.{IFLA_IFNAME, IFLA_LINK, IFLA_LINK_NETNSID};
ghost use Rattle.netlink_link_lines.specs.Link.{below_name, below_words, link_front, link_kind, link_line, link_name, link_names, link_signed};
ghost use Rattle.netlink_names.specs.Known.{link_number, link_string};
ghost use Rattle.netlink_words.specs.NumberNames.{link_verb_text};

use crate::flags::push_flags;
use crate::link_address::push_hardware_parts;
use crate::link_parts::push_settings;
use crate::link_properties::push_alternatives;
use crate::link_spaces::push_spaces;
use netlink_family::{MessageIndex, MessageView};
use netlink_names::device::{Known, push_device_name};
use netlink_names::name_table::Names;
use netlink_route::Links;
use netlink_route::links::{
    IFI_FLAGS, IFI_INDEX, IFLA_IFALIAS, IFLA_IFNAME, IFLA_INFO_KIND, IFLA_LINK, IFLA_LINK_NETNSID,
    IFLA_LINKINFO, RTM_DELLINK, RTM_GETLINK, RTM_SETLINK,
};
use netlink_words::digits::push_signed;
use netlink_words::parts::{push_string, push_words};
use netlink_words::text::push_name;
use std::alloc::{AllocError, Global};

/// More bytes than the lines of most links have, so that a line does not grow step by step.
const USUAL: usize = 256;

/// Returns the line of a message about a link, as `ip -o link` prints it, with one space between
/// its parts: the verb, the index, the name and the lower link, the flags, the settings, the type
/// of the device and its addresses, the network namespaces, the alias and the alternative names.
/// The kind of link, which `ip` prints only with `-d`, follows. Parts without an attribute are left
/// out. A known link is printed by its name, and another one as `if` and its index.
pub fn link_text(
    alloc: Global,
    known: &[Known],
    link: &MessageView<'_, Links>,
) -> Result<String, AllocError>
    ensures line { IfOk result (λ text. string_bytes text
        ≡ link_line known.now link.now.message_type link.now.payload.now) }
{
    link_line(alloc, &Names::of(known), link)
}

/// Returns the line of a message about a link, as `link_text` does.
pub fn link_line(
    alloc: Global,
    known: &Names<'_>,
    link: &MessageView<'_, Links>,
) -> Result<String, AllocError>
    ensures { IfOk result (λ text. string_bytes text
        ≡ link_line known.now link.now.message_type link.now.payload.now) }
{
    line_of(alloc, known, &link.indexed())
}

/// Returns the line of a message about a link by its places, since it asks for many attributes.
#[tactic(auto, unfolding(crate::specs::Link::link_line))]
fn line_of(
    alloc: Global,
    known: &Names<'_>,
    link: &MessageIndex<'_, Links>,
) -> Result<String, AllocError>
    ensures { IfOk result (λ text. string_bytes text
        ≡ link_line known.now link.now.message.message_type link.now.message.payload.now) }
{
    let mut text = front_text(alloc, known, link)?;
    push_settings(alloc, &mut text, known, link)?;
    push_hardware_parts(alloc, &mut text, link)?;
    push_spaces(&mut text, link)?;
    push_words(&mut text, "alias", link.index().str_bytes(IFLA_IFALIAS))?;
    push_alternatives(&mut text, link)?;
    push_string(&mut text, "kind", kind_of(link))?;
    text.push_str("\n")?;
    Ok(text)
}

/// Returns the verb, the index, the name and the lower link, and the flags.
#[tactic(auto, unfolding(crate::specs::Link::link_front))]
fn front_text(
    alloc: Global,
    known: &Names<'_>,
    link: &MessageIndex<'_, Links>,
) -> Result<String, AllocError>
    ensures { IfOk result (λ text. string_bytes text
        ≡ link_front known.now link.now.message.message_type link.now.message.payload.now) }
{
    let mut text = String::with_capacity(alloc, USUAL)?;
    push_names(&mut text, known, link)?;
    text.push_str(": <")?;
    push_flags(alloc, &mut text, link.header().u32(IFI_FLAGS))?;
    text.push('>')?;
    Ok(text)
}

/// Appends the verb, the index, the name and the lower link.
fn push_names(
    text: &mut String,
    known: &Names<'_>,
    link: &MessageIndex<'_, Links>,
) -> Result<(), AllocError>
    ensures { OnOk result (string_bytes text.new ≡ string_bytes text.old
        ++ link_names known.now link.now.message.message_type link.now.message.payload.now) }
{
    let index = link.header().i32(IFI_INDEX);
    text.push_str(verb_text(link.message.message_type))?;
    push_signed(text, index)?;
    text.push_str(": ")?;
    push_own_name(text, index, link)?;
    push_below(text, known, link)
}

/// Returns the verb of a message type.
fn verb_text(message_type: u16) -> &'static str
    ensures { result.now ≡ link_verb_text message_type }
{
    match message_type {
        RTM_DELLINK => "Deleted ",
        RTM_GETLINK => "Get ",
        RTM_SETLINK => "Set ",
        _ => "",
    }
}

/// Appends the name of a link, or `if` and its index if it has none.
fn push_own_name(
    text: &mut String,
    index: i32,
    link: &MessageIndex<'_, Links>,
) -> Result<(), AllocError>
    ensures { OnOk result (string_bytes text.new ≡ string_bytes text.old
        ++ link_name index (link_string link.now.message.payload.now IFLA_IFNAME)) }
{
    match link.index().str_bytes(IFLA_IFNAME) {
        Some(name) => push_name(text, name),
        None => {
            text.push_str("if")?;
            push_signed(text, index)
        }
    }
}

/// Appends the lower link.
fn push_below(
    text: &mut String,
    known: &Names<'_>,
    link: &MessageIndex<'_, Links>,
) -> Result<(), AllocError>
    ensures { OnOk result (string_bytes text.new ≡ string_bytes text.old ++ below_words known.now
        (link_signed link.now.message.payload.now IFLA_LINK_NETNSID) (link_number link.now.message.payload.now IFLA_LINK)) }
{
    match link.index().u32(IFLA_LINK) {
        Some(0) => text.push_str("@NONE"),
        Some(index) => {
            text.push('@')?;
            push_below_name(text, known, link.index().i32(IFLA_LINK_NETNSID), index)
        }
        None => Ok(()),
    }
}

/// Appends the name of a lower link. One in another network namespace, which has an id here, is not
/// among the known links.
fn push_below_name(
    text: &mut String,
    known: &Names<'_>,
    namespace: Option<i32>,
    index: u32,
) -> Result<(), AllocError>
    ensures { OnOk result
        (string_bytes text.new ≡ string_bytes text.old ++ below_name known.now namespace index) }
{
    match namespace {
        Some(_) => push_device_name(text, &Names::of(&[]), index),
        None => push_device_name(text, known, index),
    }
}

/// Returns the string in `IFLA_INFO_KIND` of the nest `IFLA_LINKINFO`, if there is one.
pub fn kind_of<'a>(link: &MessageIndex<'a, Links>) -> Option<&'a [u8]>
    ensures { option_copied result ≡ link_kind link.now.message.payload.now }
{
    link.index().nest(IFLA_LINKINFO)?.str_bytes(IFLA_INFO_KIND)
}
