//! The names of IP protocols.

ghost use Rattle.std.specs.Prelude.{◌≡◌};
ghost use Rattle.netlink_route_lines.specs.IpProtocols.{early_protocol, ip_protocol_name, late_protocol, middle_protocol};

/// Returns the name of an IP protocol by its number, the first one in Debian's /etc/protocols, which
/// `ip` prints there; nothing for a number without one.
#[tactic(auto, unfolding(crate::specs::IpProtocols::ip_protocol_name))]
pub fn ip_protocol_name(number: u8) -> &'static str
    ensures { result.now ≡ ip_protocol_name number }
{
    if number < 41 {
        return early_protocol(number);
    }
    if number < 100 {
        return middle_protocol(number);
    }
    late_protocol(number)
}

/// Returns the name of a protocol up to 40; nothing for other numbers.
#[tactic(auto, unfolding(crate::specs::IpProtocols::early_protocol))]
fn early_protocol(number: u8) -> &'static str
    ensures { result.now ≡ early_protocol number }
{
    match number {
        0 => "ip",
        1 => "icmp",
        2 => "igmp",
        3 => "ggp",
        4 => "ipencap",
        5 => "st",
        6 => "tcp",
        8 => "egp",
        9 => "igp",
        12 => "pup",
        17 => "udp",
        20 => "hmp",
        22 => "xns-idp",
        27 => "rdp",
        29 => "iso-tp4",
        33 => "dccp",
        36 => "xtp",
        37 => "ddp",
        38 => "idpr-cmtp",
        _ => "",
    }
}

/// Returns the name of a protocol from 41 to 99; nothing for other numbers.
#[tactic(auto, unfolding(crate::specs::IpProtocols::middle_protocol))]
fn middle_protocol(number: u8) -> &'static str
    ensures { result.now ≡ middle_protocol number }
{
    match number {
        41 => "ipv6",
        43 => "ipv6-route",
        44 => "ipv6-frag",
        45 => "idrp",
        46 => "rsvp",
        47 => "gre",
        50 => "esp",
        51 => "ah",
        57 => "skip",
        58 => "ipv6-icmp",
        59 => "ipv6-nonxt",
        60 => "ipv6-opts",
        73 => "rspf",
        81 => "vmtp",
        88 => "eigrp",
        89 => "ospf",
        93 => "ax.25",
        94 => "ipip",
        97 => "etherip",
        98 => "encap",
        _ => "",
    }
}

/// Returns the name of a protocol from 100 on; nothing for other numbers.
#[tactic(auto, unfolding(crate::specs::IpProtocols::late_protocol))]
fn late_protocol(number: u8) -> &'static str
    ensures { result.now ≡ late_protocol number }
{
    match number {
        103 => "pim",
        108 => "ipcomp",
        112 => "vrrp",
        115 => "l2tp",
        124 => "isis",
        132 => "sctp",
        133 => "fc",
        135 => "mobility-header",
        136 => "udplite",
        137 => "mpls-in-ip",
        138 => "manet",
        139 => "hip",
        140 => "shim6",
        141 => "wesp",
        142 => "rohc",
        143 => "ethernet",
        _ => "",
    }
}
