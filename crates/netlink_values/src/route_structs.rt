//! The fields of the structs in values of route netlink, for `StructView`. Integers are in native byte
//! order, except those named `Be`. A kernel may send fewer fields than these, or more.

use netlink_blocks::header_view::Field;
use netlink_shapes::shape::Shape;

// The fields of `struct rtnl_link_stats64` (linux/if_link.h): the counters of a link, `IFLA_STATS64`.
pub const STATS64_RX_PACKETS: Field = ("rx_packets", 0, Shape::U64);

pub const STATS64_TX_PACKETS: Field = ("tx_packets", 8, Shape::U64);

pub const STATS64_RX_BYTES: Field = ("rx_bytes", 16, Shape::U64);

pub const STATS64_TX_BYTES: Field = ("tx_bytes", 24, Shape::U64);

pub const STATS64_RX_ERRORS: Field = ("rx_errors", 32, Shape::U64);

pub const STATS64_TX_ERRORS: Field = ("tx_errors", 40, Shape::U64);

pub const STATS64_RX_DROPPED: Field = ("rx_dropped", 48, Shape::U64);

pub const STATS64_TX_DROPPED: Field = ("tx_dropped", 56, Shape::U64);

pub const STATS64_MULTICAST: Field = ("multicast", 64, Shape::U64);

pub const STATS64_COLLISIONS: Field = ("collisions", 72, Shape::U64);

pub const STATS64_RX_LENGTH_ERRORS: Field = ("rx_length_errors", 80, Shape::U64);

pub const STATS64_RX_OVER_ERRORS: Field = ("rx_over_errors", 88, Shape::U64);

pub const STATS64_RX_CRC_ERRORS: Field = ("rx_crc_errors", 96, Shape::U64);

pub const STATS64_RX_FRAME_ERRORS: Field = ("rx_frame_errors", 104, Shape::U64);

pub const STATS64_RX_FIFO_ERRORS: Field = ("rx_fifo_errors", 112, Shape::U64);

pub const STATS64_RX_MISSED_ERRORS: Field = ("rx_missed_errors", 120, Shape::U64);

pub const STATS64_TX_ABORTED_ERRORS: Field = ("tx_aborted_errors", 128, Shape::U64);

pub const STATS64_TX_CARRIER_ERRORS: Field = ("tx_carrier_errors", 136, Shape::U64);

pub const STATS64_TX_FIFO_ERRORS: Field = ("tx_fifo_errors", 144, Shape::U64);

pub const STATS64_TX_HEARTBEAT_ERRORS: Field = ("tx_heartbeat_errors", 152, Shape::U64);

pub const STATS64_TX_WINDOW_ERRORS: Field = ("tx_window_errors", 160, Shape::U64);

pub const STATS64_RX_COMPRESSED: Field = ("rx_compressed", 168, Shape::U64);

pub const STATS64_TX_COMPRESSED: Field = ("tx_compressed", 176, Shape::U64);

pub const STATS64_RX_NOHANDLER: Field = ("rx_nohandler", 184, Shape::U64);

pub const STATS64_RX_OTHERHOST_DROPPED: Field = ("rx_otherhost_dropped", 192, Shape::U64);

// The fields of `struct rtnl_link_ifmap` (linux/if_link.h): what a device uses, `IFLA_MAP`.
pub const IFMAP_MEM_START: Field = ("mem_start", 0, Shape::U64);

pub const IFMAP_MEM_END: Field = ("mem_end", 8, Shape::U64);

pub const IFMAP_BASE_ADDR: Field = ("base_addr", 16, Shape::U64);

pub const IFMAP_IRQ: Field = ("irq", 24, Shape::U16);

pub const IFMAP_DMA: Field = ("dma", 26, Shape::U8);

pub const IFMAP_PORT: Field = ("port", 27, Shape::U8);

// The fields of `struct ifla_bridge_id` (linux/if_link.h): `IFLA_BR_ROOT_ID` and `IFLA_BR_BRIDGE_ID`.
pub const BRIDGE_ID_PRIO: Field = ("prio", 0, Shape::ExactLen(2));

pub const BRIDGE_ID_ADDR: Field = ("addr", 2, Shape::ExactLen(6));

// The fields of `struct ifla_vlan_flags` (linux/if_link.h): `IFLA_VLAN_FLAGS`.
pub const VLAN_FLAGS_FLAGS: Field = ("flags", 0, Shape::U32);

pub const VLAN_FLAGS_MASK: Field = ("mask", 4, Shape::U32);

// The fields of `struct ifla_vlan_qos_mapping` (linux/if_link.h): a value of `IFLA_VLAN_INGRESS_QOS` or `IFLA_VLAN_EGRESS_QOS`.
pub const QOS_MAPPING_FROM: Field = ("from", 0, Shape::U32);

pub const QOS_MAPPING_TO: Field = ("to", 4, Shape::U32);

// The fields of `struct ifla_vxlan_port_range` (linux/if_link.h): `IFLA_VXLAN_PORT_RANGE`.
pub const PORT_RANGE_LOW: Field = ("low", 0, Shape::Be16);

pub const PORT_RANGE_HIGH: Field = ("high", 2, Shape::Be16);

// The fields of `struct ifa_cacheinfo` (linux/if_addr.h): `IFA_CACHEINFO`, lifetimes in seconds and stamps in hundredths of a second.
pub const IFA_CACHEINFO_PREFERED: Field = ("ifa_prefered", 0, Shape::U32);

pub const IFA_CACHEINFO_VALID: Field = ("ifa_valid", 4, Shape::U32);

pub const IFA_CACHEINFO_CSTAMP: Field = ("cstamp", 8, Shape::U32);

pub const IFA_CACHEINFO_TSTAMP: Field = ("tstamp", 12, Shape::U32);

// The fields of `struct nda_cacheinfo` (linux/neighbour.h): `NDA_CACHEINFO`, ages in ticks of the clock (`USER_HZ`).
pub const NDA_CACHEINFO_CONFIRMED: Field = ("ndm_confirmed", 0, Shape::U32);

pub const NDA_CACHEINFO_USED: Field = ("ndm_used", 4, Shape::U32);

pub const NDA_CACHEINFO_UPDATED: Field = ("ndm_updated", 8, Shape::U32);

pub const NDA_CACHEINFO_REFCNT: Field = ("ndm_refcnt", 12, Shape::U32);

// The fields of `struct ndt_config` (linux/neighbour.h): `NDTA_CONFIG`.
pub const NDT_CONFIG_KEY_LEN: Field = ("ndtc_key_len", 0, Shape::U16);

pub const NDT_CONFIG_ENTRY_SIZE: Field = ("ndtc_entry_size", 2, Shape::U16);

pub const NDT_CONFIG_ENTRIES: Field = ("ndtc_entries", 4, Shape::U32);

pub const NDT_CONFIG_LAST_FLUSH: Field = ("ndtc_last_flush", 8, Shape::U32);

pub const NDT_CONFIG_LAST_RAND: Field = ("ndtc_last_rand", 12, Shape::U32);

pub const NDT_CONFIG_HASH_RND: Field = ("ndtc_hash_rnd", 16, Shape::U32);

pub const NDT_CONFIG_HASH_MASK: Field = ("ndtc_hash_mask", 20, Shape::U32);

pub const NDT_CONFIG_HASH_CHAIN_GC: Field = ("ndtc_hash_chain_gc", 24, Shape::U32);

pub const NDT_CONFIG_PROXY_QLEN: Field = ("ndtc_proxy_qlen", 28, Shape::U32);

// The fields of `struct ndt_stats` (linux/neighbour.h): `NDTA_STATS`.
pub const NDT_STATS_ALLOCS: Field = ("ndts_allocs", 0, Shape::U64);

pub const NDT_STATS_DESTROYS: Field = ("ndts_destroys", 8, Shape::U64);

pub const NDT_STATS_HASH_GROWS: Field = ("ndts_hash_grows", 16, Shape::U64);

pub const NDT_STATS_RES_FAILED: Field = ("ndts_res_failed", 24, Shape::U64);

pub const NDT_STATS_LOOKUPS: Field = ("ndts_lookups", 32, Shape::U64);

pub const NDT_STATS_HITS: Field = ("ndts_hits", 40, Shape::U64);

pub const NDT_STATS_RCV_PROBES_MCAST: Field = ("ndts_rcv_probes_mcast", 48, Shape::U64);

pub const NDT_STATS_RCV_PROBES_UCAST: Field = ("ndts_rcv_probes_ucast", 56, Shape::U64);

pub const NDT_STATS_PERIODIC_GC_RUNS: Field = ("ndts_periodic_gc_runs", 64, Shape::U64);

pub const NDT_STATS_FORCED_GC_RUNS: Field = ("ndts_forced_gc_runs", 72, Shape::U64);

pub const NDT_STATS_TABLE_FULLS: Field = ("ndts_table_fulls", 80, Shape::U64);

// The fields of `struct rta_cacheinfo` (linux/rtnetlink.h): `RTA_CACHEINFO`, the times in ticks of the clock (`USER_HZ`).
pub const RTA_CACHEINFO_CLNTREF: Field = ("rta_clntref", 0, Shape::U32);

pub const RTA_CACHEINFO_LASTUSE: Field = ("rta_lastuse", 4, Shape::U32);

pub const RTA_CACHEINFO_EXPIRES: Field = ("rta_expires", 8, Shape::I32);

pub const RTA_CACHEINFO_ERROR: Field = ("rta_error", 12, Shape::U32);

pub const RTA_CACHEINFO_USED: Field = ("rta_used", 16, Shape::U32);

pub const RTA_CACHEINFO_ID: Field = ("rta_id", 20, Shape::U32);

pub const RTA_CACHEINFO_TS: Field = ("rta_ts", 24, Shape::U32);

pub const RTA_CACHEINFO_TSAGE: Field = ("rta_tsage", 28, Shape::U32);

// The fields of `struct rta_mfc_stats` (linux/rtnetlink.h): `RTA_MFC_STATS`.
pub const MFC_STATS_PACKETS: Field = ("mfcs_packets", 0, Shape::U64);

pub const MFC_STATS_BYTES: Field = ("mfcs_bytes", 8, Shape::U64);

pub const MFC_STATS_WRONG_IF: Field = ("mfcs_wrong_if", 16, Shape::U64);

// The fields of `struct rtvia` (linux/rtnetlink.h): `RTA_VIA`; the address of this family begins at byte 2.
pub const RTVIA_FAMILY: Field = ("rtvia_family", 0, Shape::U16);

// The fields of `struct fib_rule_uid_range` (linux/fib_rules.h): `FRA_UID_RANGE`.
pub const UID_RANGE_START: Field = ("start", 0, Shape::U32);

pub const UID_RANGE_END: Field = ("end", 4, Shape::U32);

// The fields of `struct fib_rule_port_range` (linux/fib_rules.h): `FRA_SPORT_RANGE` and `FRA_DPORT_RANGE`.
pub const RULE_PORTS_START: Field = ("start", 0, Shape::U16);

pub const RULE_PORTS_END: Field = ("end", 2, Shape::U16);
