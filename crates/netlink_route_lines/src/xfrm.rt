//! Encapsulation by XFRM (linux/lwtunnel.h).

ghost use Rattle.std.specs.Prelude.{OnOk};
ghost use Rattle.netlink_words.specs.Parts.{AddsParts};
ghost use Rattle.netlink_route_lines.specs.Xfrm.{IsXfrm, xfrm_parts};

use netlink_family::BlockView;
use netlink_names::device::push_device;
use netlink_names::name_table::Names;
use netlink_route::encapsulations::{LWT_XFRM_IF_ID, LWT_XFRM_LINK};
use netlink_words::parts::push_number;
use std::alloc::AllocError;

/// Appends the id of an interface and the link.
#[tactic(auto, unfolding(crate::specs::Xfrm::xfrm_parts))]
pub(crate) fn push_xfrm(
    text: &mut String,
    known: &Names<'_>,
    nest: &BlockView<'_>,
) -> Result<(), AllocError>
    requires { IsXfrm nest.now }
    ensures { OnOk result (AddsParts text.old text.new (xfrm_parts known.now nest.now.block.now)) }
{
    push_number(text, "if_id", nest.u32(LWT_XFRM_IF_ID))?;
    push_device(text, known, "link_dev", nest.u32(LWT_XFRM_LINK))
}
