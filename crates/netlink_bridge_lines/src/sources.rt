//! The list of sources of a multicast group.

ghost use Rattle.std.specs.Prelude.{◌≡◌, IfOk, OnOk, string_bytes};
ghost use Rattle.std.specs.List.{fold};
ghost use Rattle.netlink_bridge_lines.specs.Sources.{source_of, source_text, sources_part, sources_text, time_text, timed_text, with_entry, with_source};
ghost use Rattle.netlink_shapes.specs.Listing.{listed};
ghost use Rattle.netlink_words.specs.Parts.{AddsPart};

use crate::words::{number_in, value_in};
use netlink_packet_core::NlasIterator;
use netlink_route::multicast_groups::{MDBA_MDB_SRCATTR_ADDRESS, MDBA_MDB_SRCATTR_TIMER};
use netlink_words::parts::push_keyed;
use netlink_words::text::{ip_words, push_separated};
use std::alloc::{AllocError, Global};

/// Appends the sources of a group, given its `MDBA_MDB_EATTR_SRC_LIST`, unless there are none.
pub(crate) fn push_sources(alloc: Global, text: &mut String, list: &[u8]) -> Result<(), AllocError>
    ensures { OnOk result (AddsPart text.old text.new (sources_part list.now)) }
{
    push_keyed(text, "source_list", sources_text(alloc, list)?.as_str())
}

/// Returns the sources with commas between them, up to an error of the walk.
#[tactic(auto, unfolding(crate::specs::Sources::sources_text))]
fn sources_text(alloc: Global, list: &[u8]) -> Result<String, AllocError>
    ensures { IfOk result (λ text. string_bytes text ≡ sources_text list.now) }
{
    let mut text = String::new(alloc);
    push_list(alloc, &mut text, list)?;
    Ok(text)
}

/// Appends the sources in a list.
fn push_list(alloc: Global, text: &mut String, list: &[u8]) -> Result<(), AllocError>
    ensures { OnOk result (string_bytes text.new
        ≡ fold with_entry (string_bytes text.old) (listed list.now)) }
{
    for item in NlasIterator::new(list) {
        match item {
            Ok(nla) => {
                push_entry(alloc, text, nla.value())?;
            }
            Err(_) => return Ok(()),
        }
    }
    Ok(())
}

/// Appends the source in an entry, if both its address and its time are there.
fn push_entry(alloc: Global, text: &mut String, entry: &[u8]) -> Result<(), AllocError>
    ensures { OnOk result (string_bytes text.new
        ≡ with_source (string_bytes text.old) (source_of entry.now)) }
{
    push_source(text, source_of(alloc, entry)?.as_str())
}

/// Appends a source, after a comma if the text is not empty. An empty source changes nothing.
#[tactic(auto, unfolding(crate::specs::Sources::with_source))]
fn push_source(text: &mut String, source: &str) -> Result<(), AllocError>
    ensures { OnOk result (string_bytes text.new ≡ with_source (string_bytes text.old) source.now) }
{
    if source.is_empty() {
        return Ok(());
    }
    push_separated(text, ",", source)
}

/// Returns the source in an entry; empty unless both its address and its time are there.
fn source_of(alloc: Global, entry: &[u8]) -> Result<String, AllocError>
    ensures { IfOk result (λ text. string_bytes text ≡ source_of entry.now) }
{
    source_text(
        alloc,
        value_in(entry, MDBA_MDB_SRCATTR_ADDRESS),
        number_in(entry, MDBA_MDB_SRCATTR_TIMER),
    )
}

/// Returns a source and its time; empty without a time, or if the address has neither 4 nor 16 bytes.
#[tactic(auto, unfolding(crate::specs::Sources::source_text))]
fn source_text(alloc: Global, address: &[u8], time: Option<u32>) -> Result<String, AllocError>
    ensures { IfOk result (λ text. string_bytes text ≡ source_text address.now time) }
{
    match time {
        None => Ok(String::new(alloc)),
        Some(time) => timed_text(alloc, ip_words(alloc, address)?, time),
    }
}

/// Returns the text of an address and a time; empty if the text is empty.
#[tactic(auto, unfolding(crate::specs::Sources::timed_text))]
fn timed_text(alloc: Global, ip: String, time: u32) -> Result<String, AllocError>
    ensures { IfOk result (λ text. string_bytes text ≡ timed_text (string_bytes ip) time) }
{
    if ip.is_empty() {
        return Ok(ip);
    }
    let time = time_text(alloc, time)?;
    format!(in alloc; "{ip}/{time}")
}

/// Returns a time in seconds, given in hundredths, with two digits after the point.
fn time_text(alloc: Global, hundredths: u32) -> Result<String, AllocError>
    ensures { IfOk result (λ text. string_bytes text ≡ time_text hundredths) }
{
    let seconds = hundredths / 100;
    let tenths = hundredths % 100 / 10;
    let last = hundredths % 10;
    format!(in alloc; "{seconds}.{tenths}{last}")
}
