//! What a bucket of a group has.

ghost use Rattle.std.specs.Prelude.{◌≡◌, OnOk, string_bytes};
ghost use Rattle.netlink_family.specs.Finding.{first_at};
ghost use Rattle.netlink_family.specs.Shapes.{rows_in};
ghost use Rattle.netlink_next_hop_lines.specs.Bucket.{bucket_in, bucket_parts, bucket_text};
ghost use Rattle.netlink_route.specs.declared.next_hop_objects.TheConstants.{NHA_RES_BUCKET, RES_BUCKET};
ghost use Rattle.netlink_words.specs.Parts.{AddsParts};

use crate::time::{push_short, push_time};
use netlink_family::{BlockView, MessageView, Table};
use netlink_route::NextHopObjects;
use netlink_route::next_hop_objects::{
    NH_FLAGS, NHA_RES_BUCKET, NHA_RES_BUCKET_IDLE_TIME, NHA_RES_BUCKET_INDEX, NHA_RES_BUCKET_NH_ID,
};
use netlink_route_lines::route_flags::push_hop_flags;
use netlink_words::parts::push_number;
use std::alloc::{AllocError, Global};

/// Appends what a bucket has, and the flags.
#[tactic(auto, unfolding(crate::specs::Bucket::bucket_text))]
pub(crate) fn push_bucket(
    alloc: Global,
    text: &mut String,
    bucket: &MessageView<'_, NextHopObjects>,
) -> Result<(), AllocError>
    ensures { OnOk result (string_bytes text.new
        ≡ bucket_text bucket.now.payload.now (string_bytes text.old)) }
{
    push_nest(alloc, text, bucket)?;
    push_hop_flags(alloc, text, bucket.header().u32(NH_FLAGS))
}

/// Appends what is in `NHA_RES_BUCKET`, if it is there.
#[tactic(auto, unfolding(crate::specs::Bucket::bucket_in))]
fn push_nest(
    alloc: Global,
    text: &mut String,
    bucket: &MessageView<'_, NextHopObjects>,
) -> Result<(), AllocError>
    ensures { OnOk result (AddsParts text.old text.new
        (bucket_in (first_at 8 bucket.now.payload.now NHA_RES_BUCKET))) }
{
    match bucket.view().nest(NHA_RES_BUCKET) {
        None => Ok(()),
        Some(nest) => push_parts(alloc, text, &nest),
    }
}

/// Appends the index of a bucket, how long it was not used, and the id of its next hop.
#[tactic(auto, unfolding(crate::specs::Bucket::bucket_parts))]
fn push_parts(alloc: Global, text: &mut String, nest: &BlockView<'_>) -> Result<(), AllocError>
    requires rows { rows_in nest.now.rows.list.now ≡ ⟦<NextHopObjects as Table>⟧.rows 104 }
    requires policy { nest.now.policy ≡ RES_BUCKET }
    ensures { OnOk result (AddsParts text.old text.new (bucket_parts nest.now.block.now)) }
{
    push_short(text, "index", nest.u16(NHA_RES_BUCKET_INDEX))?;
    push_time(alloc, text, "idle_time", nest.u64(NHA_RES_BUCKET_IDLE_TIME))?;
    push_number(text, "nhid", nest.u32(NHA_RES_BUCKET_NH_ID))
}
