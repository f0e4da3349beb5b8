//! The names of the types of devices.

ghost use Rattle.std.specs.Prelude.{◌≡◌, ◌++◌, IfOk, OnOk, string_bytes};
ghost use Rattle.netlink_link_lines.specs.Hardware.{hardware_name, hardware_text, late_name, line_name, low_name, name_or_brackets, tunnel_name};

use netlink_words::digits::push_decimal;
use std::alloc::{AllocError, Global};

/// Returns the name of a device type, an `ARPHRD_*` of linux/if_arp.h; for any other number, the
/// number in brackets. Returns `AllocError` if an allocation fails.
#[tactic(auto, unfolding(crate::specs::Hardware::hardware_text))]
pub fn hardware_text(alloc: Global, layer_type: u16) -> Result<String, AllocError>
    ensures { IfOk result (λ text. string_bytes text ≡ hardware_text layer_type) }
{
    let mut text = String::new(alloc);
    push_type(&mut text, layer_type)?;
    Ok(text)
}

/// Appends the name of a device type as `hardware_text` returns it.
#[tactic(auto, unfolding(crate::specs::Hardware::hardware_text))]
pub(crate) fn push_type(text: &mut String, layer_type: u16) -> Result<(), AllocError>
    ensures { OnOk result (string_bytes text.new ≡ string_bytes text.old ++ hardware_text layer_type) }
{
    if layer_type >= 787 && layer_type < 800 {
        text.push_str("fcfb")?;
        return push_decimal(text, (layer_type - 787) as u32);
    }
    push_or_brackets(text, layer_type, hardware_name(layer_type))
}

/// Appends a name, or a number in brackets if the name is empty.
fn push_or_brackets(text: &mut String, layer_type: u16, name: &str) -> Result<(), AllocError>
    ensures { OnOk result
        (string_bytes text.new ≡ string_bytes text.old ++ name_or_brackets layer_type name.now) }
{
    if name.is_empty() {
        text.push('[')?;
        push_decimal(text, layer_type as u32)?;
        return text.push(']');
    }
    text.push_str(name)
}

/// Returns the name of a type; nothing for other numbers.
#[tactic(auto, unfolding(crate::specs::Hardware::hardware_name))]
fn hardware_name(layer_type: u16) -> &'static str
    ensures { result.now ≡ hardware_name layer_type }
{
    if layer_type < 256 {
        return low_name(layer_type);
    }
    if layer_type < 768 {
        return line_name(layer_type);
    }
    if layer_type < 800 {
        return tunnel_name(layer_type);
    }
    late_name(layer_type)
}

/// Returns the name of a type below 256; nothing for other numbers.
#[tactic(auto, unfolding(crate::specs::Hardware::low_name))]
fn low_name(layer_type: u16) -> &'static str
    ensures { result.now ≡ low_name layer_type }
{
    match layer_type {
        0 => "netrom",
        1 => "ether",
        2 => "eether",
        3 => "ax25",
        4 => "pronet",
        5 => "chaos",
        6 => "ieee802",
        7 => "arcnet",
        8 => "atalk",
        15 => "dlci",
        19 => "atm",
        23 => "metricom",
        24 => "ieee1394",
        32 => "infiniband",
        _ => "",
    }
}

/// Returns the name of a type from 256 to 767; nothing for other numbers.
#[tactic(auto, unfolding(crate::specs::Hardware::line_name))]
fn line_name(layer_type: u16) -> &'static str
    ensures { result.now ≡ line_name layer_type }
{
    match layer_type {
        256 => "slip",
        257 => "cslip",
        258 => "slip6",
        259 => "cslip6",
        260 => "rsrvd",
        264 => "adapt",
        270 => "rose",
        271 => "x25",
        272 => "hwx25",
        280 => "can",
        512 => "ppp",
        513 => "hdlc",
        516 => "lapb",
        517 => "ddcmp",
        518 => "rawhdlc",
        _ => "",
    }
}

/// Returns the name of a type from 768 to 786; nothing for other numbers.
#[tactic(auto, unfolding(crate::specs::Hardware::tunnel_name))]
fn tunnel_name(layer_type: u16) -> &'static str
    ensures { result.now ≡ tunnel_name layer_type }
{
    match layer_type {
        768 => "ipip",
        769 => "tunnel6",
        770 => "frad",
        771 => "skip",
        772 => "loopback",
        773 => "ltalk",
        774 => "fddi",
        775 => "bif",
        776 => "sit",
        777 => "ip/ddp",
        778 => "gre",
        779 => "pimreg",
        780 => "hippi",
        781 => "ash",
        782 => "econet",
        783 => "irda",
        784 => "fcpp",
        785 => "fcal",
        786 => "fcpl",
        _ => "",
    }
}

/// Returns the name of a type from 800 on; nothing for other numbers.
#[tactic(auto, unfolding(crate::specs::Hardware::late_name))]
fn late_name(layer_type: u16) -> &'static str
    ensures { result.now ≡ late_name layer_type }
{
    match layer_type {
        800 => "tr",
        801 => "ieee802.11",
        802 => "ieee802.11/prism",
        803 => "ieee802.11/radiotap",
        804 => "ieee802.15.4",
        805 => "ieee802.15.4/monitor",
        820 => "phonet",
        821 => "phonet_pipe",
        822 => "caif",
        823 => "gre6",
        824 => "netlink",
        825 => "6lowpan",
        65534 => "none",
        65535 => "void",
        _ => "",
    }
}
