//! The names of numbers.

ghost use Rattle.std.specs.Prelude.{◌≡◌, ◌++◌, IfOk, OnOk, string_bytes};
ghost use Rattle.netlink_words.specs.NumberNames.{family_text, protocol_text, route_type_text, scope_text, state_text, table_text};

use crate::digits::push_decimal;
use netlink_route::{RouteProtocol, RouteType};
use std::alloc::{AllocError, Global};

/// Returns the name of an operational state, an `IF_OPER_*` of linux/if.h; for any other number,
/// the number in hexadecimal. Returns `AllocError` if an allocation fails.
pub fn state_text(alloc: Global, state: u8) -> Result<String, AllocError>
    ensures { IfOk result (λ text. string_bytes text ≡ state_text state) }
{
    let mut text = String::new(alloc);
    push_state(&mut text, state)?;
    Ok(text)
}

/// Appends the name of an operational state as `state_text` returns it.
pub fn push_state(text: &mut String, state: u8) -> Result<(), AllocError>
    ensures { OnOk result (string_bytes text.new ≡ string_bytes text.old ++ state_text state) }
{
    let name = match state {
        0 => "UNKNOWN",
        1 => "NOTPRESENT",
        2 => "DOWN",
        3 => "LOWERLAYERDOWN",
        4 => "TESTING",
        5 => "DORMANT",
        6 => "UP",
        _ => return write!(text, "0x{state:x}"),
    };
    text.push_str(name)
}

/// Returns the name of an address family, an `AF_*` of linux/socket.h; for any other number,
/// `family` and the number. Returns `AllocError` if an allocation fails.
pub fn family_text(alloc: Global, family: u8) -> Result<String, AllocError>
    ensures { IfOk result (λ text. string_bytes text ≡ family_text family) }
{
    let name = match family {
        2 => "inet",
        7 => "bridge",
        10 => "inet6",
        17 => "link",
        28 => "mpls",
        _ => return format!(in alloc; "family {family}"),
    };
    String::from_str(alloc, name)
}

/// Returns the name of a scope, an `RT_SCOPE_*` of linux/rtnetlink.h; for any other number, the
/// number in decimal. Returns `AllocError` if an allocation fails.
pub fn scope_text(alloc: Global, scope: u8) -> Result<String, AllocError>
    ensures { IfOk result (λ text. string_bytes text ≡ scope_text scope) }
{
    let mut text = String::new(alloc);
    push_scope(&mut text, scope)?;
    Ok(text)
}

/// Appends the name of a scope as `scope_text` returns it.
pub fn push_scope(text: &mut String, scope: u8) -> Result<(), AllocError>
    ensures { OnOk result (string_bytes text.new ≡ string_bytes text.old ++ scope_text scope) }
{
    let name = match scope {
        0 => "global",
        200 => "site",
        253 => "link",
        254 => "host",
        255 => "nowhere",
        _ => return push_decimal(text, scope as u32),
    };
    text.push_str(name)
}

/// Appends the name of a routing table, an `RT_TABLE_*` of linux/rtnetlink.h; for any other number,
/// the number in decimal.
#[tactic(auto, unfolding(crate::specs::NumberNames::table_text))]
pub fn push_table(text: &mut String, table: u32) -> Result<(), AllocError>
    ensures { OnOk result (string_bytes text.new ≡ string_bytes text.old ++ table_text table) }
{
    let name = match table {
        253 => "default",
        254 => "main",
        255 => "local",
        _ => return push_decimal(text, table),
    };
    text.push_str(name)
}

/// Appends the name of who installed a route. `ip` itself knows no name for 17 and 99.
#[tactic(auto, unfolding(crate::specs::NumberNames::protocol_text))]
pub fn push_protocol(text: &mut String, protocol: u8) -> Result<(), AllocError>
    ensures { OnOk result (string_bytes text.new ≡ string_bytes text.old ++ protocol_text protocol) }
{
    if protocol == 17 || protocol == 99 {
        return push_decimal(text, protocol as u32);
    }
    match RouteProtocol(protocol).name() {
        Some(name) => text.push_str(name),
        None => push_decimal(text, protocol as u32),
    }
}

/// Returns the name of a type of route; `none` for the type 0.
#[tactic(auto, unfolding(crate::specs::NumberNames::route_type_text))]
pub fn route_type_text(alloc: Global, route_type: u8) -> Result<String, AllocError>
    ensures { IfOk result (λ text. string_bytes text ≡ route_type_text route_type) }
{
    if route_type == 0 {
        return String::from_str(alloc, "none");
    }
    match RouteType(route_type).name() {
        Some(name) => String::from_str(alloc, name),
        None => format!(in alloc; "{route_type}"),
    }
}
