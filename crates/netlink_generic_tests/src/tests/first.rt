//! The test of docs/PROTOCOLS.md: a captured frame is read, and written back unchanged.

use netlink_family::MessageView;
use netlink_generic::controller::{CTRL_ATTR_FAMILY_NAME, GENL_CMD, GENL_ID_CTRL};
use netlink_generic::{ControllerFamily, ControllerMessage};
use netlink_packet_core::normalize;
use std::test::Fail;

const FRAME: [u8; 32] = [
    32, 0, 0, 0, 16, 0, 1, 0, 1, 0, 0, 0, 0, 0, 0, 0, // struct nlmsghdr
    3, 1, 0, 0, // struct genlmsghdr
    11, 0, 2, 0, 110, 108, 99, 116, 114, 108, 0, 0, // CTRL_ATTR_FAMILY_NAME
];

#[test]
fn a_captured_frame_is_read_and_written_back(rt: HostRuntime) -> Result<(), Fail> {
    let message = MessageView::<ControllerFamily>::new(GENL_ID_CTRL, &FRAME[16..])?;
    assert!(rt; message.header().u8(GENL_CMD) == 3);
    assert!(rt; message.view().str(CTRL_ATTR_FAMILY_NAME) == Some("nlctrl"));
    let frame = normalize::<ControllerMessage>(rt.alloc(), &FRAME)?;
    assert_eq!(rt; frame.as_slice(), FRAME.as_slice());
    Ok(())
}
