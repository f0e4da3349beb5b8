//! Links, users and ports that a rule matches.

ghost use Rattle.std.specs.Prelude.{OnOk};
ghost use Rattle.std.specs.Option.{option_copied};
ghost use Rattle.netlink_words.specs.Parts.{AddsPart};
ghost use Rattle.netlink_route_lines.specs.RuleParts.{link_part, ports_part, users_part};

use netlink_packet_core::{u16_at, u32_at};
use netlink_words::parts::push_part;
use netlink_words::text::name_text;
use std::alloc::{AllocError, Global};

/// Appends a key and the name of a link, and `[detached]` if there is no such link.
#[tactic(auto, unfolding(crate::specs::RuleParts::link_part, netlink_words::specs::Parts::with_part))]
pub(crate) fn push_link(
    alloc: Global,
    text: &mut String,
    key: &str,
    name: Option<&[u8]>,
    is_gone: bool,
) -> Result<(), AllocError>
    ensures { OnOk result
        (AddsPart text.old text.new (link_part key.now (option_copied name.entry) is_gone)) }
{
    match name {
        None => Ok(()),
        Some(name) => {
            let name = name_text(alloc, name)?;
            let gone = if is_gone { " [detached]" } else { "" };
            push_part(text, format!(in alloc; "{key} {name}{gone}")?.as_str())
        }
    }
}

/// Appends the first and the last user of a range, of 8 bytes or none.
#[tactic(auto, unfolding(crate::specs::RuleParts::users_part, netlink_words::specs::Parts::with_part))]
pub(crate) fn push_users(alloc: Global, text: &mut String, range: &[u8]) -> Result<(), AllocError>
    ensures { OnOk result (AddsPart text.old text.new (users_part range.now)) }
{
    if range.len() < 8 {
        return Ok(());
    }
    let first = u32_at(range, 0);
    let last = u32_at(range, 4);
    push_part(text, format!(in alloc; "uidrange {first}-{last}")?.as_str())
}

/// Appends a key and the first and the last port of a range, of 4 bytes or none; a range of one port
/// is that port.
#[tactic(auto, unfolding(crate::specs::RuleParts::ports_part, netlink_words::specs::Parts::with_part))]
pub(crate) fn push_ports(
    alloc: Global,
    text: &mut String,
    key: &str,
    range: &[u8],
) -> Result<(), AllocError>
    ensures { OnOk result (AddsPart text.old text.new (ports_part key.now range.now)) }
{
    if range.len() < 4 {
        return Ok(());
    }
    let first = u16_at(range, 0);
    let last = u16_at(range, 2);
    if first == last {
        return push_part(text, format!(in alloc; "{key} {first}")?.as_str());
    }
    push_part(text, format!(in alloc; "{key} {first}-{last}")?.as_str())
}
