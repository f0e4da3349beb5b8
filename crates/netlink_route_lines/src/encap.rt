//! The encapsulation of a route and of a next hop (linux/lwtunnel.h, linux/mpls_iptunnel.h). Other
//! modules have the words of most types.

ghost use Rattle.std.specs.Prelude.{◌≡◌, ◌++◌, None, Some, IfNone, IfOk, IfSome, OnOk, codes, string_bytes};
ghost use Rattle.std.specs.Option.{option_map};
ghost use Rattle.netlink_family.specs.Finding.{found_in};
ghost use Rattle.netlink_packet_core.specs.Numbers.{number_be, number_le};
ghost use Rattle.netlink_route.specs.declared.encapsulations.TheConstants.{LWTUNNEL_IP_DST, LWTUNNEL_IP_FLAGS, LWTUNNEL_IP_ID, LWTUNNEL_IP_SRC, LWTUNNEL_IP_TOS, LWTUNNEL_IP_TTL, MPLS_IPTUNNEL_DST, MPLS_IPTUNNEL_TTL};
ghost use Rattle.netlink_route.specs.declared.routes.TheConstants.{RTA_ENCAP, RTA_ENCAP_TYPE};
ghost use Rattle.netlink_words.specs.Parts.{AddsPart, AddsParts, number_part};
ghost use Rattle.netlink_route_lines.specs.Encap.{IsEncap, IsMpls, IsTunnel, encap_name, encap_part, encap_values, found_values, has_values, mpls_parts, nest_value, tunnel_ends, tunnel_flags, tunnel_rest};
ghost use Rattle.netlink_route_lines.specs.RouteHops.{IsOfHop};

use crate::ila::push_ila;
use crate::ioam6::push_ioam6;
use crate::mpls::labels_text;
use crate::program::push_bpf;
use crate::seg6::{push_rpl, push_seg6};
use crate::seg6_local::push_local;
use crate::values::{push_byte, value_of};
use crate::xfrm::push_xfrm;
use netlink_family::{BlockView, Table};
use netlink_names::name_table::Names;
use netlink_route::Routes;
use netlink_route::encapsulations::{
    LWTUNNEL_ENCAP_BPF, LWTUNNEL_ENCAP_ILA, LWTUNNEL_ENCAP_IOAM6, LWTUNNEL_ENCAP_IP,
    LWTUNNEL_ENCAP_IP6, LWTUNNEL_ENCAP_MPLS, LWTUNNEL_ENCAP_RPL, LWTUNNEL_ENCAP_SEG6,
    LWTUNNEL_ENCAP_SEG6_LOCAL, LWTUNNEL_ENCAP_XFRM, LWTUNNEL_IP_DST, LWTUNNEL_IP_FLAGS,
    LWTUNNEL_IP_ID, LWTUNNEL_IP_SRC, LWTUNNEL_IP_TOS, LWTUNNEL_IP_TTL, MPLS_IPTUNNEL_DST,
    MPLS_IPTUNNEL_TTL, RPL_IPTUNNEL_SRH, SEG6_IPTUNNEL_SRH,
};
use netlink_route::routes::RTA_ENCAP;
use netlink_words::parts::{push_address, push_part, push_when};
use std::alloc::{AllocError, Global};

/// The flags of a tunnel that have names (`TUNNEL_*` of linux/if_tunnel.h).
const TUNNEL_CSUM: u16 = 0x1;

const TUNNEL_KEY: u16 = 0x4;

const TUNNEL_SEQ: u16 = 0x8;

/// Appends the encapsulation in `RTA_ENCAP`, if it is there: `encap`, the name of the type, and what
/// belongs to it. Requires the attributes of a route or of a next hop, and `kind`, the type in their
/// `RTA_ENCAP_TYPE`.
#[tactic(auto, unfolding(crate::specs::Encap::encap_part, netlink_words::specs::Parts::with_part))]
pub(crate) fn push_encap(
    alloc: Global,
    text: &mut String,
    known: &Names<'_>,
    kind: u16,
    attributes: &BlockView<'_>,
) -> Result<(), AllocError>
    requires view { IsOfHop (⟦<Routes as Table>⟧.rows 24) attributes.now }
    requires kind { option_map number_le (found_in attributes.now.block.now RTA_ENCAP_TYPE) ≡ Some kind }
    ensures { OnOk result (AddsPart text.old text.new
        (encap_part known.now (Some kind) (found_in attributes.now.block.now RTA_ENCAP))) }
{
    match attributes.first(RTA_ENCAP) {
        None => Ok(()),
        Some(_) => {
            let mut encap = heading(alloc, kind)?;
            push_values(alloc, &mut encap, known, kind, attributes)?;
            push_part(text, encap.as_str())
        }
    }
}

/// Returns `encap` and the name of a type.
fn heading(alloc: Global, kind: u16) -> Result<String, AllocError>
    ensures { IfOk result (λ text. string_bytes text ≡ codes "encap " ++ encap_name kind) }
{
    let name = encap_name(kind);
    format!(in alloc; "encap {name}")
}

/// Returns the name of a type; `unknown` for those without a name.
#[tactic(auto, unfolding(crate::specs::Encap::encap_name))]
pub fn encap_name(kind: u16) -> &'static str
    ensures { result.now ≡ encap_name kind }
{
    match kind {
        1 => "mpls",
        2 => "ip",
        3 => "ila",
        4 => "ip6",
        5 => "seg6",
        6 => "bpf",
        7 => "seg6local",
        8 => "rpl",
        9 => "ioam6",
        10 => "xfrm",
        _ => "unknown",
    }
}

/// Appends what belongs to a type, if the type has a name.
#[tactic(auto, unfolding(crate::specs::Encap::found_values))]
fn push_values(
    alloc: Global,
    text: &mut String,
    known: &Names<'_>,
    kind: u16,
    attributes: &BlockView<'_>,
) -> Result<(), AllocError>
    requires view { IsOfHop (⟦<Routes as Table>⟧.rows 24) attributes.now }
    requires kind { option_map number_le (found_in attributes.now.block.now RTA_ENCAP_TYPE) ≡ Some kind }
    ensures { OnOk result (AddsParts text.old text.new
        (found_values known.now kind (nest_value kind (found_in attributes.now.block.now RTA_ENCAP)))) }
{
    match nest_of(attributes, kind) {
        Some(nest) => push_nest(alloc, text, known, kind, &nest),
        None => Ok(()),
    }
}

/// Returns the attributes in `RTA_ENCAP`, if the type has a name.
fn nest_of<'a>(attributes: &BlockView<'a>, kind: u16) -> Option<BlockView<'a>>
    requires view { IsOfHop (⟦<Routes as Table>⟧.rows 24) attributes.now }
    requires kind { option_map number_le (found_in attributes.now.block.now RTA_ENCAP_TYPE) ≡ Some kind }
    ensures some { IfSome result (λ v. nest_value kind (found_in attributes.now.block.now RTA_ENCAP) ≡ Some v.block.now) }
    ensures none { IfNone result (nest_value kind (found_in attributes.now.block.now RTA_ENCAP) ≡ None) }
    ensures view { IfSome result (λ v. IsEncap (⟦<Routes as Table>⟧.rows 24) kind v) }
{
    if !has_values(kind) {
        return None;
    }
    attributes.nest(RTA_ENCAP)
}

/// Returns whether a type has a name, and so values that are known here.
#[tactic(auto, unfolding(crate::specs::Encap::has_values))]
fn has_values(kind: u16) -> bool
    ensures { result ≡ has_values kind }
{
    kind == LWTUNNEL_ENCAP_MPLS
        || kind == LWTUNNEL_ENCAP_IP
        || kind == LWTUNNEL_ENCAP_ILA
        || kind == LWTUNNEL_ENCAP_IP6
        || kind == LWTUNNEL_ENCAP_SEG6
        || kind == LWTUNNEL_ENCAP_BPF
        || kind == LWTUNNEL_ENCAP_SEG6_LOCAL
        || kind == LWTUNNEL_ENCAP_RPL
        || kind == LWTUNNEL_ENCAP_IOAM6
        || kind == LWTUNNEL_ENCAP_XFRM
}

/// Appends what belongs to a type, given its attributes.
#[tactic(auto, unfolding(crate::specs::Encap::encap_values))]
fn push_nest(
    alloc: Global,
    text: &mut String,
    known: &Names<'_>,
    kind: u16,
    nest: &BlockView<'_>,
) -> Result<(), AllocError>
    requires { IsEncap (⟦<Routes as Table>⟧.rows 24) kind nest.now }
    ensures { OnOk result (AddsParts text.old text.new (encap_values known.now kind nest.now.block.now)) }
{
    match kind {
        LWTUNNEL_ENCAP_MPLS => push_mpls(alloc, text, nest),
        LWTUNNEL_ENCAP_IP => push_tunnel(alloc, text, "ttl", "tos", nest),
        LWTUNNEL_ENCAP_ILA => push_ila(alloc, text, nest),
        LWTUNNEL_ENCAP_IP6 => push_tunnel(alloc, text, "hoplimit", "tc", nest),
        LWTUNNEL_ENCAP_SEG6 => push_seg6(alloc, text, value_of(nest, SEG6_IPTUNNEL_SRH)),
        LWTUNNEL_ENCAP_BPF => push_bpf(alloc, text, nest),
        LWTUNNEL_ENCAP_SEG6_LOCAL => push_local(alloc, text, known, nest),
        LWTUNNEL_ENCAP_RPL => push_rpl(alloc, text, value_of(nest, RPL_IPTUNNEL_SRH)),
        LWTUNNEL_ENCAP_IOAM6 => push_ioam6(alloc, text, nest),
        LWTUNNEL_ENCAP_XFRM => push_xfrm(text, known, nest),
        _ => Ok(()),
    }
}

/// Appends the labels and the time to live of MPLS.
#[tactic(auto, unfolding(crate::specs::Encap::mpls_parts))]
fn push_mpls(alloc: Global, text: &mut String, nest: &BlockView<'_>) -> Result<(), AllocError>
    requires { IsMpls nest.now }
    ensures { OnOk result (AddsParts text.old text.new (mpls_parts nest.now.block.now)) }
{
    push_part(
        text,
        labels_text(alloc, value_of(nest, MPLS_IPTUNNEL_DST))?.as_str(),
    )?;
    push_byte(text, "ttl", nest.u8(MPLS_IPTUNNEL_TTL))
}

/// Appends what belongs to a tunnel of IPv4 or IPv6. The keys are those of the hop limit and of the
/// type of service. The options of a tunnel are left out.
#[tactic(auto, using(netlink_words::specs::Joined::with_parts_append))]
fn push_tunnel(
    alloc: Global,
    text: &mut String,
    limit: &str,
    service: &str,
    nest: &BlockView<'_>,
) -> Result<(), AllocError>
    requires { IsTunnel nest.now }
    ensures { OnOk result (AddsParts text.old text.new
        (tunnel_ends nest.now.block.now ++ tunnel_rest limit.now service.now nest.now.block.now)) }
{
    push_ends(alloc, text, nest)?;
    push_rest(text, limit, service, nest)
}

/// Appends the id of a tunnel, its source and its destination.
#[tactic(auto, unfolding(crate::specs::Encap::tunnel_ends))]
fn push_ends(alloc: Global, text: &mut String, nest: &BlockView<'_>) -> Result<(), AllocError>
    requires { IsTunnel nest.now }
    ensures { OnOk result (AddsParts text.old text.new (tunnel_ends nest.now.block.now)) }
{
    push_id(alloc, text, nest.be64(LWTUNNEL_IP_ID))?;
    push_address(alloc, text, "src", value_of(nest, LWTUNNEL_IP_SRC))?;
    push_address(alloc, text, "dst", value_of(nest, LWTUNNEL_IP_DST))
}

/// Appends the hop limit of a tunnel, the type of service and the flags.
#[tactic(auto, unfolding(crate::specs::Encap::tunnel_rest))]
fn push_rest(
    text: &mut String,
    limit: &str,
    service: &str,
    nest: &BlockView<'_>,
) -> Result<(), AllocError>
    requires { IsTunnel nest.now }
    ensures { OnOk result (AddsParts text.old text.new
        (tunnel_rest limit.now service.now nest.now.block.now)) }
{
    push_byte(text, limit, nest.u8(LWTUNNEL_IP_TTL))?;
    push_byte(text, service, nest.u8(LWTUNNEL_IP_TOS))?;
    push_flags(text, nest.be16(LWTUNNEL_IP_FLAGS))
}

/// Appends the id of a tunnel, if there is one.
#[tactic(auto, unfolding(netlink_words::specs::Parts::number_part, netlink_words::specs::Parts::with_part))]
fn push_id(alloc: Global, text: &mut String, id: Option<u64>) -> Result<(), AllocError>
    ensures { OnOk result (AddsPart text.old text.new (number_part (codes "id") id)) }
{
    match id {
        None => Ok(()),
        Some(id) => push_part(text, format!(in alloc; "id {id}")?.as_str()),
    }
}

/// Appends the names of the flags of a tunnel that are set.
#[tactic(auto, unfolding(crate::specs::Encap::tunnel_flags))]
fn push_flags(text: &mut String, flags: Option<u16>) -> Result<(), AllocError>
    ensures { OnOk result (AddsParts text.old text.new (tunnel_flags flags)) }
{
    match flags {
        None => Ok(()),
        Some(flags) => {
            push_when(text, flags & TUNNEL_KEY != 0, "key")?;
            push_when(text, flags & TUNNEL_CSUM != 0, "csum")?;
            push_when(text, flags & TUNNEL_SEQ != 0, "seq")
        }
    }
}
