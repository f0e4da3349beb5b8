//! Numbers that people know by name. Each prints the name that `ip` prints for it, or the number in
//! decimal if it has no name.

ghost use Rattle.std.specs.Prelude.{◌≡◌, Some};
ghost use Rattle.std.specs.Option.{option_copied};
ghost use Rattle.netlink_route.specs.Names.{name_or_number, neighbour_state_name, oper_state_name, route_protocol_name, route_type_name, scope_name};

use std::fmt;

/// The operational state of a link (`IFLA_OPERSTATE`; `IF_OPER_*` of linux/if.h).
#[derive(Clone, Copy, Debug, PartialEq, Eq, Hash)]
pub struct OperState(pub u8);

impl OperState {
    /// Returns the name, or `None` if the number has none.
    pub fn name(&self) -> Option<&'static str>
        ensures name { option_copied result ≡ oper_state_name self.now.0 }
    {
        match self.0 {
            0 => Some("UNKNOWN"),
            1 => Some("NOTPRESENT"),
            2 => Some("DOWN"),
            3 => Some("LOWERLAYERDOWN"),
            4 => Some("TESTING"),
            5 => Some("DORMANT"),
            6 => Some("UP"),
            _ => None,
        }
    }
}

impl fmt::Display for OperState {
    ghost output = { λ it. Some (name_or_number (oper_state_name it.0) it.0) };

    fn fmt<W: fmt::Write>(&self, f: &mut fmt::Formatter<W>) -> fmt::Result {
        match self.name() {
            Some(name) => write!(f, "{name}"),
            None => {
                let state = self.0;
                write!(f, "{state}")
            }
        }
    }
}

/// The scope of an address or a route (`IFA_SCOPE`, `RTM_SCOPE`; `RT_SCOPE_*` of linux/rtnetlink.h).
#[derive(Clone, Copy, Debug, PartialEq, Eq, Hash)]
pub struct Scope(pub u8);

impl Scope {
    /// Returns the name, or `None` if the number has none.
    pub fn name(&self) -> Option<&'static str>
        ensures name { option_copied result ≡ scope_name self.now.0 }
    {
        match self.0 {
            0 => Some("global"),
            200 => Some("site"),
            253 => Some("link"),
            254 => Some("host"),
            255 => Some("nowhere"),
            _ => None,
        }
    }
}

impl fmt::Display for Scope {
    ghost output = { λ it. Some (name_or_number (scope_name it.0) it.0) };

    fn fmt<W: fmt::Write>(&self, f: &mut fmt::Formatter<W>) -> fmt::Result {
        match self.name() {
            Some(name) => write!(f, "{name}"),
            None => {
                let scope = self.0;
                write!(f, "{scope}")
            }
        }
    }
}

/// The type of a route (`RTM_TYPE`; `RTN_*` of linux/rtnetlink.h).
#[derive(Clone, Copy, Debug, PartialEq, Eq, Hash)]
pub struct RouteType(pub u8);

impl RouteType {
    /// Returns the name, or `None` if the number has none.
    pub fn name(&self) -> Option<&'static str>
        ensures name { option_copied result ≡ route_type_name self.now.0 }
    {
        match self.0 {
            0 => Some("unspec"),
            1 => Some("unicast"),
            2 => Some("local"),
            3 => Some("broadcast"),
            4 => Some("anycast"),
            5 => Some("multicast"),
            6 => Some("blackhole"),
            7 => Some("unreachable"),
            8 => Some("prohibit"),
            9 => Some("throw"),
            10 => Some("nat"),
            11 => Some("xresolve"),
            _ => None,
        }
    }
}

impl fmt::Display for RouteType {
    ghost output = { λ it. Some (name_or_number (route_type_name it.0) it.0) };

    fn fmt<W: fmt::Write>(&self, f: &mut fmt::Formatter<W>) -> fmt::Result {
        match self.name() {
            Some(name) => write!(f, "{name}"),
            None => {
                let route_type = self.0;
                write!(f, "{route_type}")
            }
        }
    }
}

/// Who installed a route or a rule (`RTM_PROTOCOL`, `FRA_PROTOCOL`; `RTPROT_*` of linux/rtnetlink.h).
#[derive(Clone, Copy, Debug, PartialEq, Eq, Hash)]
pub struct RouteProtocol(pub u8);

impl RouteProtocol {
    /// Returns the name, or `None` if the number has none.
    pub fn name(&self) -> Option<&'static str>
        ensures name { option_copied result ≡ route_protocol_name self.now.0 }
    {
        match self.0 {
            0 => Some("unspec"),
            1 => Some("redirect"),
            2 => Some("kernel"),
            3 => Some("boot"),
            4 => Some("static"),
            8 => Some("gated"),
            9 => Some("ra"),
            10 => Some("mrt"),
            11 => Some("zebra"),
            12 => Some("bird"),
            13 => Some("dnrouted"),
            14 => Some("xorp"),
            15 => Some("ntk"),
            16 => Some("dhcp"),
            17 => Some("mrouted"),
            18 => Some("keepalived"),
            42 => Some("babel"),
            99 => Some("openr"),
            186 => Some("bgp"),
            187 => Some("isis"),
            188 => Some("ospf"),
            189 => Some("rip"),
            192 => Some("eigrp"),
            _ => None,
        }
    }
}

impl fmt::Display for RouteProtocol {
    ghost output = { λ it. Some (name_or_number (route_protocol_name it.0) it.0) };

    fn fmt<W: fmt::Write>(&self, f: &mut fmt::Formatter<W>) -> fmt::Result {
        match self.name() {
            Some(name) => write!(f, "{name}"),
            None => {
                let protocol = self.0;
                write!(f, "{protocol}")
            }
        }
    }
}

/// The state of a neighbour (`NDM_STATE`; `NUD_*` of linux/neighbour.h).
#[derive(Clone, Copy, Debug, PartialEq, Eq, Hash)]
pub struct NeighbourState(pub u16);

impl NeighbourState {
    /// Returns the name, or `None` if the number has none.
    pub fn name(&self) -> Option<&'static str>
        ensures name { option_copied result ≡ neighbour_state_name self.now.0 }
    {
        match self.0 {
            0 => Some("NONE"),
            1 => Some("INCOMPLETE"),
            2 => Some("REACHABLE"),
            4 => Some("STALE"),
            8 => Some("DELAY"),
            16 => Some("PROBE"),
            32 => Some("FAILED"),
            64 => Some("NOARP"),
            128 => Some("PERMANENT"),
            _ => None,
        }
    }
}

impl fmt::Display for NeighbourState {
    ghost output = { λ it. Some (name_or_number (neighbour_state_name it.0) it.0) };

    fn fmt<W: fmt::Write>(&self, f: &mut fmt::Formatter<W>) -> fmt::Result {
        match self.name() {
            Some(name) => write!(f, "{name}"),
            None => {
                let bits = self.0;
                write!(f, "{bits}")
            }
        }
    }
}
