//! The object of a link.

ghost use Rattle.std.specs.Prelude.{◌≡◌, IfOk, OnOk, codes, string_bytes};
ghost use Rattle.std.specs.Option.{option_copied};
ghost use Rattle.netlink_json.specs.Fields.{Adds, AddsAll, AddsParts, items_of, items_written, present, with_items};
ghost use Rattle.netlink_json.specs.Json.{array};
ghost use Rattle.netlink_link_lines.specs.LinkAddress.{flags_of, layer_of, link_address, link_own};
ghost use Rattle.netlink_route.specs.declared.links.TheConstants.{IFLA_ADDRESS, IFLA_BROADCAST, IFLA_PERM_ADDRESS};
ghost use Rattle.netlink_objects.specs.Forms.{names_in, word_json};
ghost use Rattle.netlink_objects.specs.Link.{flag_values, hardware_fields, index_rows, is_peer, kind_field, link_flags, link_parts, lower_by, lower_index, name_rows, permanent_field, rest_values, setting_rows, space_rows, word_values};
ghost use Rattle.netlink_objects.specs.Rows.{field_of, rows_in};

use crate::alternatives::put_alternatives;
use crate::form::{Form, put_bits, put_device, put_true, put_word};
use crate::number::four_of;
use crate::row::{Place, Row, put_rows, source_of};
use netlink_family::MessageView;
use netlink_json::{Array, Object};
use netlink_link_lines::flags::{UNNAMED, first_flag};
use netlink_link_lines::link::kind_of;
use netlink_link_lines::link_address::{broadcast_of, own_of, permanent_of, push_own};
use netlink_names::name_table::Names;
use netlink_route::Links;
use netlink_route::links::{
    IFI_FLAGS, IFI_TYPE, IFLA_EVENT, IFLA_GROUP, IFLA_IFALIAS, IFLA_IFNAME, IFLA_LINK,
    IFLA_LINK_NETNSID, IFLA_LINKMODE, IFLA_MASTER, IFLA_MTU, IFLA_NEW_IFINDEX, IFLA_NEW_NETNSID,
    IFLA_OPERSTATE, IFLA_PROTO_DOWN, IFLA_QDISC, IFLA_TXQLEN, RTM_DELLINK,
};
use std::alloc::{AllocError, Global};

const IFF_POINTOPOINT: u32 = 0x10;

/// The index, before the lower link.
const INDEX: [Row; 1] = [("ifindex", Place::Header(4, 4), Form::Signed)];

/// The name, before the flags.
const NAME: [Row; 1] = [("ifname", Place::Attribute(IFLA_IFNAME), Form::Name)];

/// What follows the flags.
const SETTINGS: [Row; 9] = [
    ("mtu", Place::Attribute(IFLA_MTU), Form::Number),
    ("qdisc", Place::Attribute(IFLA_QDISC), Form::Name),
    ("master", Place::Attribute(IFLA_MASTER), Form::Device),
    ("operstate", Place::Attribute(IFLA_OPERSTATE), Form::State),
    ("linkmode", Place::Attribute(IFLA_LINKMODE), Form::Mode),
    ("group", Place::Attribute(IFLA_GROUP), Form::Group),
    ("txqlen", Place::Attribute(IFLA_TXQLEN), Form::NonZero),
    ("event", Place::Attribute(IFLA_EVENT), Form::Event),
    ("link_type", Place::Header(2, 2), Form::LinkType),
];

/// What follows the addresses of the device.
const SPACES: [Row; 5] = [
    (
        "link_netnsid",
        Place::Attribute(IFLA_LINK_NETNSID),
        Form::Signed,
    ),
    (
        "new_netnsid",
        Place::Attribute(IFLA_NEW_NETNSID),
        Form::Signed,
    ),
    (
        "new_ifindex",
        Place::Attribute(IFLA_NEW_IFINDEX),
        Form::Signed,
    ),
    (
        "proto_down",
        Place::Attribute(IFLA_PROTO_DOWN),
        Form::TrueIf(0xff),
    ),
    ("ifalias", Place::Attribute(IFLA_IFALIAS), Form::Name),
];

/// The names of the flags, in the order in which `ip` has them (`IFF_*` of linux/if.h).
const FLAGS: [(u64, &'static str); 18] = [
    (0x8, "LOOPBACK"),
    (0x2, "BROADCAST"),
    (0x10, "POINTOPOINT"),
    (0x1000, "MULTICAST"),
    (0x80, "NOARP"),
    (0x200, "ALLMULTI"),
    (0x100, "PROMISC"),
    (0x400, "MASTER"),
    (0x800, "SLAVE"),
    (0x4, "DEBUG"),
    (0x8000, "DYNAMIC"),
    (0x4000, "AUTOMEDIA"),
    (0x2000, "PORTSEL"),
    (0x20, "NOTRAILERS"),
    (0x1, "UP"),
    (0x10000, "LOWER_UP"),
    (0x20000, "DORMANT"),
    (0x40000, "ECHO"),
];

/// Returns the row of the index.
fn index_rows() -> &'static [Row]
    ensures { rows_in result.now ≡ index_rows }
{
    &INDEX
}

/// Returns the row of the name.
fn name_rows() -> &'static [Row]
    ensures { rows_in result.now ≡ name_rows }
{
    &NAME
}

/// Returns the rows after the flags.
fn setting_rows() -> &'static [Row]
    ensures { rows_in result.now ≡ setting_rows }
{
    &SETTINGS
}

/// Returns the rows after the addresses of the device.
fn space_rows() -> &'static [Row]
    ensures { rows_in result.now ≡ space_rows }
{
    &SPACES
}

/// Returns the names of the flags.
#[tactic(auto, unfolding(netlink_link_lines::specs::Flags::flag_name))]
fn link_flags() -> &'static [(u64, &'static str)]
    ensures { names_in result.now ≡ link_flags }
{
    &FLAGS
}

/// Appends the members of a message about a link, with the keys of `ip -j link` and in its order: the
/// index, the lower link, the name, the flags, the settings, the type of the device and its addresses,
/// the network namespaces, the alias and the alternative names. The kind of link, which `ip` prints only
/// with `-d`, follows. Returns `AllocError` if an allocation fails.
#[tactic(auto, unfolding(crate::specs::Link::link_parts))]
pub fn put_link(
    alloc: Global,
    object: &mut Object,
    known: &Names<'_>,
    link: &MessageView<'_, Links>,
) -> Result<(), AllocError>
    ensures parts { OnOk result (AddsParts object.old object.new
        (link_parts known.now link.now.message_type link.now.payload.now)) }
{
    let source = source_of(link);
    put_true(object, "deleted", link.message_type == RTM_DELLINK)?;
    put_rows(alloc, object, known, &source, index_rows())?;
    let space = source.block.first(IFLA_LINK_NETNSID);
    let lower = lower_index(source.block.first(IFLA_LINK));
    put_lower(alloc, object, known, space, lower)?;
    put_rows(alloc, object, known, &source, name_rows())?;
    put_flags(alloc, object, link.header().u32(IFI_FLAGS))?;
    put_rows(alloc, object, known, &source, setting_rows())?;
    put_hardware(alloc, object, link)?;
    put_rows(alloc, object, known, &source, space_rows())?;
    put_alternatives(alloc, object, link)?;
    put_kind(alloc, object, kind_of(&link.indexed()))
}

/// Returns the index of the lower link.
fn lower_index(value: Option<&[u8]>) -> Option<u32>
    ensures { result ≡ lower_index (option_copied value.entry) }
{
    four_of(value?)
}

/// Appends the lower link: `null` for none, and for one in another network namespace its index.
#[tactic(auto, unfolding(netlink_json::specs::Fields::with_field))]
fn put_lower(
    alloc: Global,
    object: &mut Object,
    known: &Names<'_>,
    space: Option<&[u8]>,
    index: Option<u32>,
) -> Result<(), AllocError>
    ensures { OnOk result (Adds object.old object.new (lower_by known.now (option_copied space.entry) index)) }
{
    match index {
        None => Ok(()),
        Some(0) => object.put_null("link"),
        Some(index) => match space {
            Some(_) => object.put_number("link_index", index as u64),
            None => put_device(alloc, object, known, "link", Some(index)),
        },
    }
}

/// Appends an array of the names of the flags that are set. `NO-CARRIER` comes first if a link is up and
/// not running, and the bits without a name last, as one hexadecimal number.
#[tactic(auto, using(crate::proofs::Items::three_parts), unfolding(crate::specs::Link::flag_values))]
fn put_flags(alloc: Global, object: &mut Object, flags: u32) -> Result<(), AllocError>
    ensures { OnOk result (Adds object.old object.new
        (present (codes "flags") (array (items_of (flag_values flags))))) }
{
    let mut items = Array::new(alloc);
    put_word_item(alloc, &mut items, first_flag(flags))?;
    put_bits(alloc, &mut items, flags as u64, link_flags())?;
    put_rest(alloc, &mut items, flags & UNNAMED)?;
    object.put_array("flags", &items)
}

/// Appends a word as an item, unless it is empty.
fn put_word_item(alloc: Global, items: &mut Array, word: &str) -> Result<(), AllocError>
    ensures { OnOk result (items_written items.new
        ≡ with_items (items_written items.old) (word_values word.now)) }
{
    if word.is_empty() {
        return Ok(());
    }
    items.put_text(alloc, word.as_bytes())
}

/// Appends the bits without a name as an item, if any is set.
fn put_rest(alloc: Global, items: &mut Array, rest: u32) -> Result<(), AllocError>
    ensures { OnOk result (items_written items.new
        ≡ with_items (items_written items.old) (rest_values rest)) }
{
    if rest == 0 {
        return Ok(());
    }
    items.put_text(alloc, format!(in alloc; "{rest:x}")?.as_bytes())
}

/// Appends the address of the device, that of broadcasts or of the peer, and the permanent address if it
/// is another one.
fn put_hardware(
    alloc: Global,
    object: &mut Object,
    link: &MessageView<'_, Links>,
) -> Result<(), AllocError>
    ensures { OnOk result (AddsAll object.old object.new
        (hardware_fields (layer_of link.now.payload.now) (flags_of link.now.payload.now)
        (link_own link.now.payload.now IFLA_ADDRESS) (link_own link.now.payload.now IFLA_BROADCAST)
        (link_own link.now.payload.now IFLA_PERM_ADDRESS))) }
{
    let places = link.indexed();
    put_addresses(
        alloc,
        object,
        link.header().u16(IFI_TYPE),
        link.header().u32(IFI_FLAGS),
        own_of(&places),
        broadcast_of(&places),
        permanent_of(&places),
    )
}

/// Appends the addresses of a device of this type.
fn put_addresses(
    alloc: Global,
    object: &mut Object,
    layer: u16,
    flags: u32,
    own: &[u8],
    broadcast: &[u8],
    permanent: &[u8],
) -> Result<(), AllocError>
    ensures { OnOk result (AddsAll object.old object.new
        (hardware_fields layer flags own.now broadcast.now permanent.now)) }
{
    put_device_address(alloc, object, layer, "address", own)?;
    put_true(object, "link_pointtopoint", is_peer(flags, broadcast))?;
    put_device_address(alloc, object, layer, "broadcast", broadcast)?;
    put_permanent(alloc, object, layer, own, permanent)
}

/// Returns whether the broadcast address is that of a peer.
fn is_peer(flags: u32, broadcast: &[u8]) -> bool
    ensures { result ≡ is_peer flags broadcast.now }
{
    if flags & IFF_POINTOPOINT == 0 {
        return false;
    }
    !broadcast.is_empty()
}

/// Appends an address of a device of this type, unless it is empty.
fn put_device_address(
    alloc: Global,
    object: &mut Object,
    layer: u16,
    key: &str,
    bytes: &[u8],
) -> Result<(), AllocError>
    ensures { OnOk result
        (Adds object.old object.new (field_of key.now (word_json (link_address layer bytes.now)))) }
{
    let word = address_word(alloc, layer, bytes)?;
    put_word(alloc, object, key, word.as_str())
}

/// Appends a permanent address, if it is another one than the own address.
#[tactic(auto, unfolding(netlink_json::specs::Fields::with_field))]
fn put_permanent(
    alloc: Global,
    object: &mut Object,
    layer: u16,
    own: &[u8],
    permanent: &[u8],
) -> Result<(), AllocError>
    ensures { OnOk result (Adds object.old object.new (permanent_field layer own.now permanent.now)) }
{
    if permanent == own {
        return Ok(());
    }
    put_device_address(alloc, object, layer, "permaddr", permanent)
}

/// Returns the address of a device.
#[tactic(auto, using(crate::proofs::Words::part_alone))]
fn address_word(alloc: Global, layer: u16, bytes: &[u8]) -> Result<String, AllocError>
    ensures { IfOk result (λ text. string_bytes text ≡ link_address layer bytes.now) }
{
    let mut text = String::new(alloc);
    push_own(alloc, &mut text, layer, bytes)?;
    Ok(text)
}

/// Appends an object with the kind of link, if it has one.
#[tactic(auto, unfolding(netlink_json::specs::Fields::with_field))]
fn put_kind(alloc: Global, object: &mut Object, kind: Option<&[u8]>) -> Result<(), AllocError>
    ensures { OnOk result (Adds object.old object.new (kind_field (option_copied kind.entry))) }
{
    match kind {
        None => Ok(()),
        Some(kind) => {
            let mut info = Object::new(alloc);
            info.put_text(alloc, "info_kind", kind)?;
            object.put_object("linkinfo", info)?;
            Ok(())
        }
    }
}
