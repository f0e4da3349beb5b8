//! Messages as text.

use crate::tests::samples::{NLCTRL, decoded};
use std::test::Fail;

const LINES: &'static str = "type 16
cmd: 1
version: 2
CTRL_ATTR_FAMILY_NAME: nlctrl
CTRL_ATTR_FAMILY_ID: 16
CTRL_ATTR_VERSION: 2
CTRL_ATTR_HDRSIZE: 0
CTRL_ATTR_MAXATTR: 0
CTRL_ATTR_OPS:
  1:
    CTRL_ATTR_OP_ID: 3
    CTRL_ATTR_OP_FLAGS: 14
  2:
    CTRL_ATTR_OP_ID: 10
    CTRL_ATTR_OP_FLAGS: 12
CTRL_ATTR_MCAST_GROUPS:
  1:
    CTRL_ATTR_MCAST_GRP_ID: 16
    CTRL_ATTR_MCAST_GRP_NAME: notify
";

#[test]
fn a_family_is_shown(rt: HostRuntime) -> Result<(), Fail> {
    let alloc = rt.alloc();
    let message = decoded(alloc, &NLCTRL[16..])?;
    assert_eq!(rt; message.message_view().show(alloc)?.as_str(), LINES);
    Ok(())
}
