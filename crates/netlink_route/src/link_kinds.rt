//! Kinds of links: the attributes in `IFLA_INFO_DATA` (linux/if_link.h, linux/if_tunnel.h,
//! linux/veth.h). Each kind of link has a policy.

/// The policy with a row for each kind of link. The value of `IFLA_INFO_KIND` is its name.
pub const KINDS: u16 = 4;

/// The policy of the kind `bond`.
pub const BOND: u16 = 5;

pub const IFLA_BOND_MODE: u16 = 1;

pub const IFLA_BOND_ACTIVE_SLAVE: u16 = 2;

pub const IFLA_BOND_MIIMON: u16 = 3;

pub const IFLA_BOND_UPDELAY: u16 = 4;

pub const IFLA_BOND_DOWNDELAY: u16 = 5;

pub const IFLA_BOND_USE_CARRIER: u16 = 6;

pub const IFLA_BOND_ARP_INTERVAL: u16 = 7;

pub const IFLA_BOND_ARP_IP_TARGET: u16 = 8;

pub const IFLA_BOND_ARP_VALIDATE: u16 = 9;

pub const IFLA_BOND_ARP_ALL_TARGETS: u16 = 10;

pub const IFLA_BOND_PRIMARY: u16 = 11;

pub const IFLA_BOND_PRIMARY_RESELECT: u16 = 12;

pub const IFLA_BOND_FAIL_OVER_MAC: u16 = 13;

pub const IFLA_BOND_XMIT_HASH_POLICY: u16 = 14;

pub const IFLA_BOND_RESEND_IGMP: u16 = 15;

pub const IFLA_BOND_NUM_PEER_NOTIF: u16 = 16;

pub const IFLA_BOND_ALL_SLAVES_ACTIVE: u16 = 17;

pub const IFLA_BOND_MIN_LINKS: u16 = 18;

pub const IFLA_BOND_LP_INTERVAL: u16 = 19;

pub const IFLA_BOND_PACKETS_PER_SLAVE: u16 = 20;

pub const IFLA_BOND_AD_LACP_RATE: u16 = 21;

pub const IFLA_BOND_AD_SELECT: u16 = 22;

pub const IFLA_BOND_AD_INFO: u16 = 23;

pub const IFLA_BOND_AD_ACTOR_SYS_PRIO: u16 = 24;

pub const IFLA_BOND_AD_USER_PORT_KEY: u16 = 25;

pub const IFLA_BOND_AD_ACTOR_SYSTEM: u16 = 26;

pub const IFLA_BOND_TLB_DYNAMIC_LB: u16 = 27;

pub const IFLA_BOND_PEER_NOTIF_DELAY: u16 = 28;

pub const IFLA_BOND_AD_LACP_ACTIVE: u16 = 29;

pub const IFLA_BOND_MISSED_MAX: u16 = 30;

pub const IFLA_BOND_NS_IP6_TARGET: u16 = 31;

pub const IFLA_BOND_COUPLED_CONTROL: u16 = 32;

/// The policy of the kind `bridge`. Times are in hundredths of a second.
pub const BRIDGE: u16 = 6;

pub const IFLA_BR_FORWARD_DELAY: u16 = 1;

pub const IFLA_BR_HELLO_TIME: u16 = 2;

pub const IFLA_BR_MAX_AGE: u16 = 3;

pub const IFLA_BR_AGEING_TIME: u16 = 4;

pub const IFLA_BR_STP_STATE: u16 = 5;

pub const IFLA_BR_PRIORITY: u16 = 6;

pub const IFLA_BR_VLAN_FILTERING: u16 = 7;

pub const IFLA_BR_VLAN_PROTOCOL: u16 = 8;

pub const IFLA_BR_GROUP_FWD_MASK: u16 = 9;

pub const IFLA_BR_ROOT_ID: u16 = 10;

pub const IFLA_BR_BRIDGE_ID: u16 = 11;

pub const IFLA_BR_ROOT_PORT: u16 = 12;

pub const IFLA_BR_ROOT_PATH_COST: u16 = 13;

pub const IFLA_BR_TOPOLOGY_CHANGE: u16 = 14;

pub const IFLA_BR_TOPOLOGY_CHANGE_DETECTED: u16 = 15;

pub const IFLA_BR_HELLO_TIMER: u16 = 16;

pub const IFLA_BR_TCN_TIMER: u16 = 17;

pub const IFLA_BR_TOPOLOGY_CHANGE_TIMER: u16 = 18;

pub const IFLA_BR_GC_TIMER: u16 = 19;

pub const IFLA_BR_GROUP_ADDR: u16 = 20;

pub const IFLA_BR_FDB_FLUSH: u16 = 21;

pub const IFLA_BR_MCAST_ROUTER: u16 = 22;

pub const IFLA_BR_MCAST_SNOOPING: u16 = 23;

pub const IFLA_BR_MCAST_QUERY_USE_IFADDR: u16 = 24;

pub const IFLA_BR_MCAST_QUERIER: u16 = 25;

pub const IFLA_BR_MCAST_HASH_ELASTICITY: u16 = 26;

pub const IFLA_BR_MCAST_HASH_MAX: u16 = 27;

pub const IFLA_BR_MCAST_LAST_MEMBER_CNT: u16 = 28;

pub const IFLA_BR_MCAST_STARTUP_QUERY_CNT: u16 = 29;

pub const IFLA_BR_MCAST_LAST_MEMBER_INTVL: u16 = 30;

pub const IFLA_BR_MCAST_MEMBERSHIP_INTVL: u16 = 31;

pub const IFLA_BR_MCAST_QUERIER_INTVL: u16 = 32;

pub const IFLA_BR_MCAST_QUERY_INTVL: u16 = 33;

pub const IFLA_BR_MCAST_QUERY_RESPONSE_INTVL: u16 = 34;

pub const IFLA_BR_MCAST_STARTUP_QUERY_INTVL: u16 = 35;

pub const IFLA_BR_NF_CALL_IPTABLES: u16 = 36;

pub const IFLA_BR_NF_CALL_IP6TABLES: u16 = 37;

pub const IFLA_BR_NF_CALL_ARPTABLES: u16 = 38;

pub const IFLA_BR_VLAN_DEFAULT_PVID: u16 = 39;

pub const IFLA_BR_VLAN_STATS_ENABLED: u16 = 41;

pub const IFLA_BR_MCAST_STATS_ENABLED: u16 = 42;

pub const IFLA_BR_MCAST_IGMP_VERSION: u16 = 43;

pub const IFLA_BR_MCAST_MLD_VERSION: u16 = 44;

pub const IFLA_BR_VLAN_STATS_PER_PORT: u16 = 45;

pub const IFLA_BR_MULTI_BOOLOPT: u16 = 46;

pub const IFLA_BR_MCAST_QUERIER_STATE: u16 = 47;

pub const IFLA_BR_FDB_N_LEARNED: u16 = 48;

pub const IFLA_BR_FDB_MAX_LEARNED: u16 = 49;

/// The policy of the kinds `gre` and `gretap`.
pub const GRE: u16 = 7;

pub const IFLA_GRE_LINK: u16 = 1;

pub const IFLA_GRE_IFLAGS: u16 = 2;

pub const IFLA_GRE_OFLAGS: u16 = 3;

pub const IFLA_GRE_IKEY: u16 = 4;

pub const IFLA_GRE_OKEY: u16 = 5;

pub const IFLA_GRE_LOCAL: u16 = 6;

pub const IFLA_GRE_REMOTE: u16 = 7;

pub const IFLA_GRE_TTL: u16 = 8;

pub const IFLA_GRE_TOS: u16 = 9;

pub const IFLA_GRE_PMTUDISC: u16 = 10;

pub const IFLA_GRE_ENCAP_TYPE: u16 = 14;

pub const IFLA_GRE_ENCAP_FLAGS: u16 = 15;

pub const IFLA_GRE_ENCAP_SPORT: u16 = 16;

pub const IFLA_GRE_ENCAP_DPORT: u16 = 17;

pub const IFLA_GRE_COLLECT_METADATA: u16 = 18;

pub const IFLA_GRE_IGNORE_DF: u16 = 19;

pub const IFLA_GRE_FWMARK: u16 = 20;

/// The policy of the kinds `ipip` and `sit`.
pub const TUNNEL: u16 = 8;

pub const IFLA_IPTUN_LINK: u16 = 1;

pub const IFLA_IPTUN_LOCAL: u16 = 2;

pub const IFLA_IPTUN_REMOTE: u16 = 3;

pub const IFLA_IPTUN_TTL: u16 = 4;

pub const IFLA_IPTUN_TOS: u16 = 5;

pub const IFLA_IPTUN_FLAGS: u16 = 8;

pub const IFLA_IPTUN_PROTO: u16 = 9;

pub const IFLA_IPTUN_PMTUDISC: u16 = 10;

pub const IFLA_IPTUN_6RD_PREFIX: u16 = 11;

pub const IFLA_IPTUN_6RD_RELAY_PREFIX: u16 = 12;

pub const IFLA_IPTUN_6RD_PREFIXLEN: u16 = 13;

pub const IFLA_IPTUN_6RD_RELAY_PREFIXLEN: u16 = 14;

pub const IFLA_IPTUN_ENCAP_TYPE: u16 = 15;

pub const IFLA_IPTUN_ENCAP_FLAGS: u16 = 16;

pub const IFLA_IPTUN_ENCAP_SPORT: u16 = 17;

pub const IFLA_IPTUN_ENCAP_DPORT: u16 = 18;

pub const IFLA_IPTUN_COLLECT_METADATA: u16 = 19;

pub const IFLA_IPTUN_FWMARK: u16 = 20;

/// The policy of the kinds `macvlan` and `macvtap`.
pub const MACVLAN: u16 = 9;

pub const IFLA_MACVLAN_MODE: u16 = 1;

pub const IFLA_MACVLAN_FLAGS: u16 = 2;

pub const IFLA_MACVLAN_MACADDR_MODE: u16 = 3;

pub const IFLA_MACVLAN_MACADDR: u16 = 4;

pub const IFLA_MACVLAN_MACADDR_DATA: u16 = 5;

pub const IFLA_MACVLAN_MACADDR_COUNT: u16 = 6;

pub const IFLA_MACVLAN_BC_QUEUE_LEN: u16 = 7;

pub const IFLA_MACVLAN_BC_QUEUE_LEN_USED: u16 = 8;

pub const IFLA_MACVLAN_BC_CUTOFF: u16 = 9;

/// The policy of the kind `veth`.
pub const VETH: u16 = 10;

/// The other end: `struct ifinfomsg`, and attributes of a link.
pub const VETH_INFO_PEER: u16 = 1;

/// The policy of the kind `vlan`.
pub const VLAN: u16 = 11;

pub const IFLA_VLAN_ID: u16 = 1;

pub const IFLA_VLAN_FLAGS: u16 = 2;

pub const IFLA_VLAN_EGRESS_QOS: u16 = 3;

pub const IFLA_VLAN_INGRESS_QOS: u16 = 4;

pub const IFLA_VLAN_PROTOCOL: u16 = 5;

/// The policy of the kind `vxlan`.
pub const VXLAN: u16 = 12;

pub const IFLA_VXLAN_ID: u16 = 1;

pub const IFLA_VXLAN_GROUP: u16 = 2;

pub const IFLA_VXLAN_LINK: u16 = 3;

pub const IFLA_VXLAN_LOCAL: u16 = 4;

pub const IFLA_VXLAN_TTL: u16 = 5;

pub const IFLA_VXLAN_TOS: u16 = 6;

pub const IFLA_VXLAN_LEARNING: u16 = 7;

pub const IFLA_VXLAN_AGEING: u16 = 8;

pub const IFLA_VXLAN_LIMIT: u16 = 9;

pub const IFLA_VXLAN_PORT_RANGE: u16 = 10;

pub const IFLA_VXLAN_PROXY: u16 = 11;

pub const IFLA_VXLAN_RSC: u16 = 12;

pub const IFLA_VXLAN_L2MISS: u16 = 13;

pub const IFLA_VXLAN_L3MISS: u16 = 14;

pub const IFLA_VXLAN_PORT: u16 = 15;

pub const IFLA_VXLAN_GROUP6: u16 = 16;

pub const IFLA_VXLAN_LOCAL6: u16 = 17;

pub const IFLA_VXLAN_UDP_CSUM: u16 = 18;

pub const IFLA_VXLAN_UDP_ZERO_CSUM6_TX: u16 = 19;

pub const IFLA_VXLAN_UDP_ZERO_CSUM6_RX: u16 = 20;

pub const IFLA_VXLAN_REMCSUM_TX: u16 = 21;

pub const IFLA_VXLAN_REMCSUM_RX: u16 = 22;

pub const IFLA_VXLAN_GBP: u16 = 23;

pub const IFLA_VXLAN_REMCSUM_NOPARTIAL: u16 = 24;

pub const IFLA_VXLAN_COLLECT_METADATA: u16 = 25;

pub const IFLA_VXLAN_LABEL: u16 = 26;

pub const IFLA_VXLAN_GPE: u16 = 27;

pub const IFLA_VXLAN_TTL_INHERIT: u16 = 28;

pub const IFLA_VXLAN_DF: u16 = 29;

pub const IFLA_VXLAN_VNIFILTER: u16 = 30;

pub const IFLA_VXLAN_LOCALBYPASS: u16 = 31;

pub const IFLA_VXLAN_LABEL_POLICY: u16 = 32;

pub const IFLA_VXLAN_RESERVED_BITS: u16 = 33;

/// The policy of the kind `tun`.
pub const TUN: u16 = 13;

pub const IFLA_TUN_OWNER: u16 = 1;

pub const IFLA_TUN_GROUP: u16 = 2;

pub const IFLA_TUN_TYPE: u16 = 3;

pub const IFLA_TUN_PI: u16 = 4;

pub const IFLA_TUN_VNET_HDR: u16 = 5;

pub const IFLA_TUN_PERSIST: u16 = 6;

pub const IFLA_TUN_MULTI_QUEUE: u16 = 7;

pub const IFLA_TUN_NUM_QUEUES: u16 = 8;

pub const IFLA_TUN_NUM_DISABLED_QUEUES: u16 = 9;
