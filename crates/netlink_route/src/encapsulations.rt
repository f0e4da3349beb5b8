//! Encapsulations of routes: the attributes in `RTA_ENCAP` (linux/lwtunnel.h, mpls_iptunnel.h, ila.h,
//! seg6_iptunnel.h, seg6_local.h, rpl_iptunnel.h and ioam6_iptunnel.h). Each encapsulation has a
//! policy.

/// The policy with a row for each encapsulation. The kind of a row is the value of `RTA_ENCAP_TYPE`.
pub const ENCAPSULATIONS: u16 = 3;

pub const LWTUNNEL_ENCAP_MPLS: u16 = 1;

pub const LWTUNNEL_ENCAP_IP: u16 = 2;

pub const LWTUNNEL_ENCAP_ILA: u16 = 3;

pub const LWTUNNEL_ENCAP_IP6: u16 = 4;

pub const LWTUNNEL_ENCAP_SEG6: u16 = 5;

pub const LWTUNNEL_ENCAP_BPF: u16 = 6;

pub const LWTUNNEL_ENCAP_SEG6_LOCAL: u16 = 7;

pub const LWTUNNEL_ENCAP_RPL: u16 = 8;

pub const LWTUNNEL_ENCAP_IOAM6: u16 = 9;

pub const LWTUNNEL_ENCAP_XFRM: u16 = 10;

/// The policy of `LWTUNNEL_ENCAP_MPLS`.
pub const MPLS: u16 = 4;

pub const MPLS_IPTUNNEL_DST: u16 = 1;

pub const MPLS_IPTUNNEL_TTL: u16 = 2;

/// The policy of `LWTUNNEL_ENCAP_IP`.
pub const IP: u16 = 5;

pub const LWTUNNEL_IP_ID: u16 = 1;

pub const LWTUNNEL_IP_DST: u16 = 2;

pub const LWTUNNEL_IP_SRC: u16 = 3;

pub const LWTUNNEL_IP_TTL: u16 = 4;

pub const LWTUNNEL_IP_TOS: u16 = 5;

pub const LWTUNNEL_IP_FLAGS: u16 = 6;

pub const LWTUNNEL_IP_OPTS: u16 = 8;

/// The policy of `LWTUNNEL_ENCAP_ILA`.
pub const ILA: u16 = 6;

pub const ILA_ATTR_LOCATOR: u16 = 1;

pub const ILA_ATTR_CSUM_MODE: u16 = 7;

pub const ILA_ATTR_IDENT_TYPE: u16 = 8;

pub const ILA_ATTR_HOOK_TYPE: u16 = 9;

/// The policy of `LWTUNNEL_ENCAP_IP6`.
pub const IP6: u16 = 7;

pub const LWTUNNEL_IP6_ID: u16 = 1;

pub const LWTUNNEL_IP6_DST: u16 = 2;

pub const LWTUNNEL_IP6_SRC: u16 = 3;

pub const LWTUNNEL_IP6_HOPLIMIT: u16 = 4;

pub const LWTUNNEL_IP6_TC: u16 = 5;

pub const LWTUNNEL_IP6_FLAGS: u16 = 6;

pub const LWTUNNEL_IP6_OPTS: u16 = 8;

/// The policy of `LWTUNNEL_ENCAP_SEG6`.
pub const SEG6: u16 = 8;

pub const SEG6_IPTUNNEL_SRH: u16 = 1;

/// The policy of `LWTUNNEL_ENCAP_BPF`.
pub const BPF: u16 = 9;

pub const LWT_BPF_IN: u16 = 1;

pub const LWT_BPF_OUT: u16 = 2;

pub const LWT_BPF_XMIT: u16 = 3;

pub const LWT_BPF_XMIT_HEADROOM: u16 = 4;

/// The policy of `LWTUNNEL_ENCAP_SEG6_LOCAL`.
pub const SEG6_LOCAL: u16 = 10;

pub const SEG6_LOCAL_ACTION: u16 = 1;

pub const SEG6_LOCAL_SRH: u16 = 2;

pub const SEG6_LOCAL_TABLE: u16 = 3;

pub const SEG6_LOCAL_NH4: u16 = 4;

pub const SEG6_LOCAL_NH6: u16 = 5;

pub const SEG6_LOCAL_IIF: u16 = 6;

pub const SEG6_LOCAL_OIF: u16 = 7;

pub const SEG6_LOCAL_BPF: u16 = 8;

pub const SEG6_LOCAL_VRFTABLE: u16 = 9;

pub const SEG6_LOCAL_COUNTERS: u16 = 10;

pub const SEG6_LOCAL_FLAVORS: u16 = 11;

/// The policy of `LWTUNNEL_ENCAP_RPL`.
pub const RPL: u16 = 11;

pub const RPL_IPTUNNEL_SRH: u16 = 1;

/// The policy of `LWTUNNEL_ENCAP_IOAM6`.
pub const IOAM6: u16 = 12;

pub const IOAM6_IPTUNNEL_MODE: u16 = 1;

pub const IOAM6_IPTUNNEL_DST: u16 = 2;

pub const IOAM6_IPTUNNEL_TRACE: u16 = 3;

pub const IOAM6_IPTUNNEL_FREQ_K: u16 = 4;

pub const IOAM6_IPTUNNEL_FREQ_N: u16 = 5;

/// The policy of `LWTUNNEL_ENCAP_XFRM`.
pub const XFRM: u16 = 13;

pub const LWT_XFRM_IF_ID: u16 = 1;

pub const LWT_XFRM_LINK: u16 = 2;

/// The policy of `LWTUNNEL_IP_OPTS` and `LWTUNNEL_IP6_OPTS`, the options of a tunnel. Those of Geneve
/// may occur several times.
pub const OPTIONS: u16 = 14;

pub const LWTUNNEL_IP_OPTS_GENEVE: u16 = 1;

pub const LWTUNNEL_IP_OPTS_VXLAN: u16 = 2;

pub const LWTUNNEL_IP_OPTS_ERSPAN: u16 = 3;

/// The policy of `LWTUNNEL_IP_OPTS_GENEVE`.
pub const GENEVE_OPTION: u16 = 15;

pub const LWTUNNEL_IP_OPT_GENEVE_CLASS: u16 = 1;

pub const LWTUNNEL_IP_OPT_GENEVE_TYPE: u16 = 2;

pub const LWTUNNEL_IP_OPT_GENEVE_DATA: u16 = 3;

/// The policy of `LWTUNNEL_IP_OPTS_VXLAN`.
pub const VXLAN_OPTION: u16 = 16;

pub const LWTUNNEL_IP_OPT_VXLAN_GBP: u16 = 1;

/// The policy of `LWTUNNEL_IP_OPTS_ERSPAN`.
pub const ERSPAN_OPTION: u16 = 17;

pub const LWTUNNEL_IP_OPT_ERSPAN_VER: u16 = 1;

pub const LWTUNNEL_IP_OPT_ERSPAN_INDEX: u16 = 2;

pub const LWTUNNEL_IP_OPT_ERSPAN_DIR: u16 = 3;

pub const LWTUNNEL_IP_OPT_ERSPAN_HWID: u16 = 4;

/// The policy of `LWT_BPF_IN`, `LWT_BPF_OUT` and `LWT_BPF_XMIT`.
pub const PROGRAM: u16 = 18;

pub const LWT_BPF_PROG_FD: u16 = 1;

pub const LWT_BPF_PROG_NAME: u16 = 2;

/// The policy of `SEG6_LOCAL_BPF`.
pub const SEG6_PROGRAM: u16 = 19;

pub const SEG6_LOCAL_BPF_PROG: u16 = 1;

pub const SEG6_LOCAL_BPF_PROG_NAME: u16 = 2;

/// The policy of `SEG6_LOCAL_COUNTERS`.
pub const COUNTERS: u16 = 20;

pub const SEG6_LOCAL_CNT_PACKETS: u16 = 2;

pub const SEG6_LOCAL_CNT_BYTES: u16 = 3;

pub const SEG6_LOCAL_CNT_ERRORS: u16 = 4;

/// The policy of `SEG6_LOCAL_FLAVORS`.
pub const FLAVORS: u16 = 21;

pub const SEG6_LOCAL_FLV_OPERATION: u16 = 1;

pub const SEG6_LOCAL_FLV_LCBLOCK_BITS: u16 = 2;

pub const SEG6_LOCAL_FLV_LCNODE_FN_BITS: u16 = 3;
