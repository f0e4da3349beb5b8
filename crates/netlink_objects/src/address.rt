//! The object of an address.

ghost use Rattle.std.specs.Prelude.{◌≡◌, OnOk};
ghost use Rattle.std.specs.Option.{option_copied};
ghost use Rattle.netlink_json.specs.Fields.{Adds, AddsParts};
ghost use Rattle.netlink_objects.specs.Address.{address_parts, first_flag, flag_rows, flags_in, own_rows, peer_field, place_rows};
ghost use Rattle.netlink_objects.specs.Rows.{rows_in};

use crate::form::{Form, has_bits, put_true, put_word};
use crate::number::number_of;
use crate::row::{Place, Row, put_rows, source_of, value_at};
use netlink_family::MessageView;
use netlink_json::Object;
use netlink_names::name_table::Names;
use netlink_route::Addresses;
use netlink_route::addresses::{
    IFA_ADDRESS, IFA_ANYCAST, IFA_BROADCAST, IFA_CACHEINFO, IFA_FAMILY, IFA_FLAGS, IFA_LABEL,
    IFA_LOCAL, IFA_RT_PRIORITY, RTM_DELADDR,
};
use netlink_words::text::ip_words;
use std::alloc::{AllocError, Global};

/// The flags, which are in the header if there is no attribute.
const FLAGS: Place = Place::AttributeOr(IFA_FLAGS, 2, 1);

/// The link, the family and the own address.
const OWN: [Row; 4] = [
    ("index", Place::Header(4, 4), Form::Number),
    ("dev", Place::Header(4, 4), Form::Device),
    ("family", Place::Header(0, 1), Form::Family),
    ("local", Place::Either(IFA_LOCAL, IFA_ADDRESS), Form::Ip),
];

/// What follows the peer's address.
const PLACES: [Row; 5] = [
    ("prefixlen", Place::Header(1, 1), Form::Number),
    ("metric", Place::Attribute(IFA_RT_PRIORITY), Form::Number),
    ("broadcast", Place::Attribute(IFA_BROADCAST), Form::Ip),
    ("anycast", Place::Attribute(IFA_ANYCAST), Form::Ip),
    ("scope", Place::Header(3, 1), Form::AnyScope),
];

/// The flags after the first one, the label and the lifetimes.
const FLAG_ROWS: [Row; 15] = [
    ("nodad", FLAGS, Form::TrueIf(0x2)),
    ("optimistic", FLAGS, Form::TrueIf(0x4)),
    ("dadfailed", FLAGS, Form::TrueIf(0x8)),
    ("home", FLAGS, Form::TrueIf(0x10)),
    ("deprecated", FLAGS, Form::TrueIf(0x20)),
    ("tentative", FLAGS, Form::TrueIf(0x40)),
    ("dynamic", FLAGS, Form::TrueUnless(0x80)),
    ("mngtmpaddr", FLAGS, Form::TrueIf(0x100)),
    ("noprefixroute", FLAGS, Form::TrueIf(0x200)),
    ("autojoin", FLAGS, Form::TrueIf(0x400)),
    ("stable-privacy", FLAGS, Form::TrueIf(0x800)),
    ("ifa_flags", FLAGS, Form::Hex(0xffff_f000)),
    ("label", Place::Attribute(IFA_LABEL), Form::Name),
    (
        "valid_life_time",
        Place::Inside(IFA_CACHEINFO, 4, 4),
        Form::Number,
    ),
    (
        "preferred_life_time",
        Place::Inside(IFA_CACHEINFO, 0, 4),
        Form::Number,
    ),
];

/// Returns the rows before the peer's address.
fn own_rows() -> &'static [Row]
    ensures { rows_in result.now ≡ own_rows }
{
    &OWN
}

/// Returns the rows after it.
fn place_rows() -> &'static [Row]
    ensures { rows_in result.now ≡ place_rows }
{
    &PLACES
}

/// Returns the rows after the first flag.
fn flag_rows() -> &'static [Row]
    ensures { rows_in result.now ≡ flag_rows }
{
    &FLAG_ROWS
}

/// Appends the members of a message about an address, with the keys of an element of `addr_info` of
/// `ip -o -j addr` and in its order: the link, the family, the addresses, the scope, the flags, the label
/// and the lifetimes. Returns `AllocError` if an allocation fails.
#[tactic(auto, unfolding(crate::specs::Address::address_parts))]
pub fn put_address(
    alloc: Global,
    object: &mut Object,
    known: &Names<'_>,
    address: &MessageView<'_, Addresses>,
) -> Result<(), AllocError>
    ensures parts { OnOk result (AddsParts object.old object.new
        (address_parts known.now address.now.message_type address.now.payload.now)) }
{
    let source = source_of(address);
    put_true(object, "deleted", address.message_type == RTM_DELADDR)?;
    put_rows(alloc, object, known, &source, own_rows())?;
    let local = source.block.first(IFA_LOCAL);
    put_peer(alloc, object, local, source.block.first(IFA_ADDRESS))?;
    put_rows(alloc, object, known, &source, place_rows())?;
    let flags = flags_in(value_at(&source, FLAGS));
    put_first_flag(object, address.header().u8(IFA_FAMILY), flags)?;
    put_rows(alloc, object, known, &source, flag_rows())
}

/// Appends the peer's address, if it is another one than the local address.
#[tactic(auto, unfolding(netlink_json::specs::Fields::with_field))]
fn put_peer(
    alloc: Global,
    object: &mut Object,
    local: Option<&[u8]>,
    far: Option<&[u8]>,
) -> Result<(), AllocError>
    ensures { OnOk result (Adds object.old object.new
        (peer_field (option_copied local.entry) (option_copied far.entry))) }
{
    match (local, far) {
        (Some(local), Some(far)) => {
            if far == local {
                return Ok(());
            }
            put_word(alloc, object, "address", ip_words(alloc, far)?.as_str())
        }
        _ => Ok(()),
    }
}

/// Returns the flags, if there are any.
fn flags_in(value: Option<&[u8]>) -> Option<u64>
    ensures { result ≡ flags_in (option_copied value.entry) }
{
    number_of(value?)
}

/// Appends the first flag if it is set. Of an IPv6 address, it means that the address is temporary.
fn put_first_flag(object: &mut Object, family: u8, flags: Option<u64>) -> Result<(), AllocError>
    ensures { OnOk result (Adds object.old object.new (first_flag family flags)) }
{
    let is_set = has_bits(flags, 1);
    if family == 10 {
        return put_true(object, "temporary", is_set);
    }
    put_true(object, "secondary", is_set)
}
