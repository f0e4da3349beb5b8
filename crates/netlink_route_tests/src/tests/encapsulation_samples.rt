//! Routes with encapsulations. Each is the payload of a request of `ip route add` of iproute2 6.1, printed
//! in place of being sent; only `ID_KERNEL` is what the kernel sends.

/// `198.51.100.0/24 encap mpls 100/200 ttl 7 via inet 192.0.2.254 dev lo`
pub(crate) const LABELS: [u8; 68] = [
    2, 24, 0, 0, 254, 3, 0, 1, 0, 0, 0, 0, // struct rtmsg
    8, 0, 1, 0, 198, 51, 100, 0, // RTA_DST
    24, 0, 22, 0x80, // RTA_ENCAP, before its type
    12, 0, 1, 0, 0x00, 0x06, 0x40, 0x00, 0x00, 0x0c, 0x81, 0x00, // MPLS_IPTUNNEL_DST
    5, 0, 2, 0, 7, 0x10, 0, 0, // MPLS_IPTUNNEL_TTL, and padding that `ip` leaves as it was
    6, 0, 21, 0, 1, 0, 1, 0, // RTA_ENCAP_TYPE: LWTUNNEL_ENCAP_MPLS
    8, 0, 5, 0, 192, 0, 2, 254, // RTA_GATEWAY
    8, 0, 4, 0, 1, 0, 0, 0, // RTA_OIF
];

/// `198.51.100.0/24 encap ip id 5 src 192.0.2.9 dst 192.0.2.10 ttl 7 tos 4 csum key dev lo`
pub(crate) const IP_ENDS: [u8; 92] = [
    2, 24, 0, 0, 254, 3, 253, 1, 0, 0, 0, 0, // struct rtmsg
    8, 0, 1, 0, 198, 51, 100, 0, // RTA_DST
    56, 0, 22, 0x80, // RTA_ENCAP
    12, 0, 1, 0, 0, 0, 0, 0, 0, 0, 0, 5, // LWTUNNEL_IP_ID
    8, 0, 3, 0, 192, 0, 2, 9, // LWTUNNEL_IP_SRC
    8, 0, 2, 0, 192, 0, 2, 10, // LWTUNNEL_IP_DST
    5, 0, 4, 0, 7, 0, 0, 0, // LWTUNNEL_IP_TTL
    5, 0, 5, 0, 4, 0, 0, 0, // LWTUNNEL_IP_TOS
    6, 0, 6, 0, 0, 5, 0, 0, // LWTUNNEL_IP_FLAGS: TUNNEL_CSUM and TUNNEL_KEY
    6, 0, 21, 0, 2, 0, 0, 0, // RTA_ENCAP_TYPE: LWTUNNEL_ENCAP_IP
    8, 0, 4, 0, 1, 0, 0, 0, // RTA_OIF
];

/// The event of a request with `encap ip id 5 dst 192.0.2.9`, in `examples/captured/kinds.tsv`
pub(crate) const ID_KERNEL: [u8; 108] = [
    2, 24, 0, 0, 254, 3, 0, 1, 0x10, 0, 0, 0, // struct rtmsg
    8, 0, 15, 0, 254, 0, 0, 0, // RTA_TABLE
    8, 0, 1, 0, 198, 51, 112, 0, // RTA_DST
    8, 0, 5, 0, 192, 0, 2, 254, // RTA_GATEWAY
    8, 0, 4, 0, 2, 0, 0, 0, // RTA_OIF
    56, 0, 22, 0, // RTA_ENCAP, without NLA_F_NESTED
    12, 0, 1, 0, 0, 0, 0, 0, 0, 0, 0, 5, // LWTUNNEL_IP_ID
    8, 0, 2, 0, 192, 0, 2, 9, // LWTUNNEL_IP_DST
    8, 0, 3, 0, 0, 0, 0, 0, // LWTUNNEL_IP_SRC
    5, 0, 5, 0, 0, 0, 0, 0, // LWTUNNEL_IP_TOS
    5, 0, 4, 0, 0, 0, 0, 0, // LWTUNNEL_IP_TTL
    6, 0, 6, 0, 0, 0, 0, 0, // LWTUNNEL_IP_FLAGS
    6, 0, 21, 0, 2, 0, 0, 0, // RTA_ENCAP_TYPE
];

/// `198.51.100.0/24 encap ip id 5 dst 192.0.2.10
/// geneve_opts 0x0102:0x80:00112233,0x0304:0x81:44556677 dev lo`
pub(crate) const GENEVE: [u8; 120] = [
    2, 24, 0, 0, 254, 3, 253, 1, 0, 0, 0, 0, // struct rtmsg
    8, 0, 1, 0, 198, 51, 100, 0, // RTA_DST
    84, 0, 22, 0x80, // RTA_ENCAP
    12, 0, 1, 0, 0, 0, 0, 0, 0, 0, 0, 5, // LWTUNNEL_IP_ID
    8, 0, 2, 0, 192, 0, 2, 10, // LWTUNNEL_IP_DST
    60, 0, 8, 0x80, // LWTUNNEL_IP_OPTS
    28, 0, 1, 0x80, // LWTUNNEL_IP_OPTS_GENEVE
    6, 0, 1, 0, 1, 2, 0, 0, // LWTUNNEL_IP_OPT_GENEVE_CLASS
    5, 0, 2, 0, 0x80, 0, 0, 0, // LWTUNNEL_IP_OPT_GENEVE_TYPE
    8, 0, 3, 0, 0x00, 0x11, 0x22, 0x33, // LWTUNNEL_IP_OPT_GENEVE_DATA
    28, 0, 1, 0x80, // LWTUNNEL_IP_OPTS_GENEVE
    6, 0, 1, 0, 3, 4, 0, 0, // LWTUNNEL_IP_OPT_GENEVE_CLASS
    5, 0, 2, 0, 0x81, 0, 0, 0, // LWTUNNEL_IP_OPT_GENEVE_TYPE
    8, 0, 3, 0, 0x44, 0x55, 0x66, 0x77, // LWTUNNEL_IP_OPT_GENEVE_DATA
    6, 0, 21, 0, 2, 0, 0, 0, // RTA_ENCAP_TYPE
    8, 0, 4, 0, 1, 0, 0, 0, // RTA_OIF
];

/// `198.51.100.0/24 encap ip id 5 dst 192.0.2.10 erspan_opts 1:123:0:0 dev lo`
pub(crate) const ERSPAN: [u8; 100] = [
    2, 24, 0, 0, 254, 3, 253, 1, 0, 0, 0, 0, // struct rtmsg
    8, 0, 1, 0, 198, 51, 100, 0, // RTA_DST
    64, 0, 22, 0x80, // RTA_ENCAP
    12, 0, 1, 0, 0, 0, 0, 0, 0, 0, 0, 5, // LWTUNNEL_IP_ID
    8, 0, 2, 0, 192, 0, 2, 10, // LWTUNNEL_IP_DST
    40, 0, 8, 0x80, // LWTUNNEL_IP_OPTS
    36, 0, 3, 0x80, // LWTUNNEL_IP_OPTS_ERSPAN
    5, 0, 1, 0, 1, 0, 0, 0, // LWTUNNEL_IP_OPT_ERSPAN_VER
    8, 0, 2, 0, 0, 0, 0, 123, // LWTUNNEL_IP_OPT_ERSPAN_INDEX
    5, 0, 3, 0, 0, 0, 0, 0, // LWTUNNEL_IP_OPT_ERSPAN_DIR
    5, 0, 4, 0, 0, 0, 0, 0, // LWTUNNEL_IP_OPT_ERSPAN_HWID
    6, 0, 21, 0, 2, 0, 0, 0, // RTA_ENCAP_TYPE
    8, 0, 4, 0, 1, 0, 0, 0, // RTA_OIF
];

/// `198.51.100.0/24 encap ip id 5 dst 192.0.2.10 vxlan_opts 456 dev lo`
pub(crate) const VXLAN: [u8; 76] = [
    2, 24, 0, 0, 254, 3, 253, 1, 0, 0, 0, 0, // struct rtmsg
    8, 0, 1, 0, 198, 51, 100, 0, // RTA_DST
    40, 0, 22, 0x80, // RTA_ENCAP
    12, 0, 1, 0, 0, 0, 0, 0, 0, 0, 0, 5, // LWTUNNEL_IP_ID
    8, 0, 2, 0, 192, 0, 2, 10, // LWTUNNEL_IP_DST
    16, 0, 8, 0x80, // LWTUNNEL_IP_OPTS
    12, 0, 2, 0x80, // LWTUNNEL_IP_OPTS_VXLAN
    8, 0, 1, 0, 0xc8, 1, 0, 0, // LWTUNNEL_IP_OPT_VXLAN_GBP
    6, 0, 21, 0, 2, 0, 0, 0, // RTA_ENCAP_TYPE
    8, 0, 4, 0, 1, 0, 0, 0, // RTA_OIF
];

/// `2001:db8:1::/48 encap ip6 id 258 src 2001:db8::1 dst 2001:db8::2 hoplimit 7 tc 4 csum key dev lo`
pub(crate) const IP6_ENDS: [u8; 128] = [
    10, 48, 0, 0, 254, 3, 0, 1, 0, 0, 0, 0, // struct rtmsg
    20, 0, 1, 0, 0x20, 1, 0x0d, 0xb8, 0, 1, 0, 0, 0, 0, 0, 0, 0, 0, 0, 0, // RTA_DST
    80, 0, 22, 0x80, // RTA_ENCAP
    12, 0, 1, 0, 0, 0, 0, 0, 0, 0, 1, 2, // LWTUNNEL_IP6_ID
    20, 0, 3, 0, 0x20, 1, 0x0d, 0xb8, 0, 0, 0, 0, 0, 0, 0, 0, 0, 0, 0, 1, // LWTUNNEL_IP6_SRC
    20, 0, 2, 0, 0x20, 1, 0x0d, 0xb8, 0, 0, 0, 0, 0, 0, 0, 0, 0, 0, 0, 2, // LWTUNNEL_IP6_DST
    5, 0, 4, 0, 7, 0, 0, 0, // LWTUNNEL_IP6_HOPLIMIT
    5, 0, 5, 0, 4, 0, 0, 0, // LWTUNNEL_IP6_TC
    6, 0, 6, 0, 0, 5, 0x1c, 0, // LWTUNNEL_IP6_FLAGS
    6, 0, 21, 0, 4, 0, 0x1c, 0, // RTA_ENCAP_TYPE: LWTUNNEL_ENCAP_IP6
    8, 0, 4, 0, 1, 0, 0, 0, // RTA_OIF
];

/// `2001:db8:1::/48 encap seg6 mode encap segs 2001:db8::1,2001:db8::2 dev lo`
pub(crate) const SEGMENTS: [u8; 100] = [
    10, 48, 0, 0, 254, 3, 0, 1, 0, 0, 0, 0, // struct rtmsg
    20, 0, 1, 0, 0x20, 1, 0x0d, 0xb8, 0, 1, 0, 0, 0, 0, 0, 0, 0, 0, 0, 0, // RTA_DST
    52, 0, 22, 0x80, // RTA_ENCAP
    48, 0, 1, 0, 1, 0, 0, 0, // SEG6_IPTUNNEL_SRH: SEG6_IPTUN_MODE_ENCAP
    0, 4, 4, 1, 1, 0, 0, 0, // struct ipv6_sr_hdr
    0x20, 1, 0x0d, 0xb8, 0, 0, 0, 0, 0, 0, 0, 0, 0, 0, 0, 2, // the last segment
    0x20, 1, 0x0d, 0xb8, 0, 0, 0, 0, 0, 0, 0, 0, 0, 0, 0, 1, // the first one
    6, 0, 21, 0, 5, 0, 0, 0, // RTA_ENCAP_TYPE: LWTUNNEL_ENCAP_SEG6
    8, 0, 4, 0, 1, 0, 0, 0, // RTA_OIF
];

/// `2001:db8:1::/48 encap seg6local action End.DT6 table 300 dev lo`
pub(crate) const LOOKUP: [u8; 68] = [
    10, 48, 0, 0, 254, 3, 0, 1, 0, 0, 0, 0, // struct rtmsg
    20, 0, 1, 0, 0x20, 1, 0x0d, 0xb8, 0, 1, 0, 0, 0, 0, 0, 0, 0, 0, 0, 0, // RTA_DST
    20, 0, 22, 0x80, // RTA_ENCAP
    8, 0, 1, 0, 7, 0, 0, 0, // SEG6_LOCAL_ACTION: SEG6_LOCAL_ACTION_END_DT6
    8, 0, 3, 0, 44, 1, 0, 0, // SEG6_LOCAL_TABLE
    6, 0, 21, 0, 7, 0, 0, 0, // RTA_ENCAP_TYPE: LWTUNNEL_ENCAP_SEG6_LOCAL
    8, 0, 4, 0, 1, 0, 0, 0, // RTA_OIF
];

/// `2001:db8:1::/48 encap seg6local action End flavors next-csid lblen 48 nflen 16 dev lo`
pub(crate) const FLAVORED: [u8; 88] = [
    10, 48, 0, 0, 254, 3, 0, 1, 0, 0, 0, 0, // struct rtmsg
    20, 0, 1, 0, 0x20, 1, 0x0d, 0xb8, 0, 1, 0, 0, 0, 0, 0, 0, 0, 0, 0, 0, // RTA_DST
    40, 0, 22, 0x80, // RTA_ENCAP
    8, 0, 1, 0, 1, 0, 0, 0, // SEG6_LOCAL_ACTION: SEG6_LOCAL_ACTION_END
    28, 0, 11, 0x80, // SEG6_LOCAL_FLAVORS
    8, 0, 1, 0, 16, 0, 0, 0, // SEG6_LOCAL_FLV_OPERATION: 1 << SEG6_LOCAL_FLV_OP_NEXT_CSID
    5, 0, 2, 0, 48, 0xc0, 0x01, 0, // SEG6_LOCAL_FLV_LCBLOCK_BITS
    5, 0, 3, 0, 16, 0, 0, 0, // SEG6_LOCAL_FLV_LCNODE_FN_BITS
    6, 0, 21, 0, 7, 0, 0, 0, // RTA_ENCAP_TYPE
    8, 0, 4, 0, 1, 0, 0, 0, // RTA_OIF
];

/// `2001:db8:1::/48 encap ila 2001:db8:3:4 csum-mode adj-transport ident-type luid hook-type input
/// dev lo`
pub(crate) const LOCATOR: [u8; 88] = [
    10, 48, 0, 0, 254, 3, 0, 1, 0, 0, 0, 0, // struct rtmsg
    20, 0, 1, 0, 0x20, 1, 0x0d, 0xb8, 0, 1, 0, 0, 0, 0, 0, 0, 0, 0, 0, 0, // RTA_DST
    40, 0, 22, 0x80, // RTA_ENCAP
    12, 0, 1, 0, 0x20, 1, 0x0d, 0xb8, 0, 3, 0, 4, // ILA_ATTR_LOCATOR
    5, 0, 7, 0, 0, 1, 0, 0, // ILA_ATTR_CSUM_MODE: ILA_CSUM_ADJUST_TRANSPORT
    5, 0, 8, 0, 1, 0xc0, 1, 0, // ILA_ATTR_IDENT_TYPE: ILA_ATYPE_LUID
    5, 0, 9, 0, 1, 0, 0, 0, // ILA_ATTR_HOOK_TYPE: ILA_HOOK_ROUTE_INPUT
    6, 0, 21, 0, 3, 0, 0, 0, // RTA_ENCAP_TYPE: LWTUNNEL_ENCAP_ILA
    8, 0, 4, 0, 1, 0, 0, 0, // RTA_OIF
];

/// `2001:db8:1::/48 encap ioam6 freq 3/258 mode encap tundst 2001:db8::9
/// trace prealloc type 0x800000 ns 1 size 12 dev lo`
pub(crate) const TRACE: [u8; 108] = [
    10, 48, 0, 0, 254, 3, 0, 1, 0, 0, 0, 0, // struct rtmsg
    20, 0, 1, 0, 0x20, 1, 0x0d, 0xb8, 0, 1, 0, 0, 0, 0, 0, 0, 0, 0, 0, 0, // RTA_DST
    60, 0, 22, 0x80, // RTA_ENCAP
    8, 0, 4, 0, 3, 0, 0, 0, // IOAM6_IPTUNNEL_FREQ_K
    8, 0, 5, 0, 2, 1, 0, 0, // IOAM6_IPTUNNEL_FREQ_N
    5, 0, 1, 0, 2, 0, 0, 0, // IOAM6_IPTUNNEL_MODE: IOAM6_IPTUNNEL_MODE_ENCAP
    20, 0, 2, 0, 0x20, 1, 0x0d, 0xb8, 0, 0, 0, 0, 0, 0, 0, 0, 0, 0, 0, 9, // IOAM6_IPTUNNEL_DST
    12, 0, 3, 0, 0, 1, 0, 3, 0x80, 0, 0, 0, // IOAM6_IPTUNNEL_TRACE
    6, 0, 21, 0, 9, 0, 0, 0, // RTA_ENCAP_TYPE: LWTUNNEL_ENCAP_IOAM6
    8, 0, 4, 0, 1, 0, 0, 0, // RTA_OIF
];

/// `198.51.100.0/24 nexthop via 192.0.2.1 dev lo nexthop encap mpls 100 ttl 7 via inet 192.0.2.2
/// dev lo weight 3`
pub(crate) const SECOND_HOP: [u8; 84] = [
    2, 24, 0, 0, 254, 3, 0, 1, 0, 0, 0, 0, // struct rtmsg
    8, 0, 1, 0, 198, 51, 100, 0, // RTA_DST
    64, 0, 9, 0, // RTA_MULTIPATH
    16, 0, 0, 0, 1, 0, 0, 0, // struct rtnexthop
    8, 0, 5, 0, 192, 0, 2, 1, // RTA_GATEWAY
    44, 0, 0, 2, 1, 0, 0, 0, // struct rtnexthop
    20, 0, 22, 0x80, // RTA_ENCAP
    8, 0, 1, 0, 0x00, 0x06, 0x41, 0x00, // MPLS_IPTUNNEL_DST
    5, 0, 2, 0, 7, 0, 0, 0, // MPLS_IPTUNNEL_TTL
    6, 0, 21, 0, 1, 0, 0, 0, // RTA_ENCAP_TYPE
    8, 0, 5, 0, 192, 0, 2, 2, // RTA_GATEWAY
];

/// `2001:db8:1::/48 encap xfrm if_id 258 link_dev lo dev lo`, which `ip` sends without `RTA_OIF`
pub(crate) const INTERFACE: [u8; 60] = [
    10, 48, 0, 0, 254, 3, 0, 1, 0, 0, 0, 0, // struct rtmsg
    20, 0, 1, 0, 0x20, 1, 0x0d, 0xb8, 0, 1, 0, 0, 0, 0, 0, 0, 0, 0, 0, 0, // RTA_DST
    20, 0, 22, 0x80, // RTA_ENCAP
    8, 0, 1, 0, 2, 1, 0, 0, // LWT_XFRM_IF_ID
    8, 0, 2, 0, 1, 0, 0, 0, // LWT_XFRM_LINK
    6, 0, 21, 0, 10, 0, 0, 0, // RTA_ENCAP_TYPE: LWTUNNEL_ENCAP_XFRM
];
