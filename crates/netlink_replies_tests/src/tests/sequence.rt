//! Sequence numbers.

use netlink_replies::SequenceNumbers;
use std::test::Fail;

#[test]
fn sequence_numbers_skip_0(rt: HostRuntime) -> Result<(), Fail> {
    let mut numbers = SequenceNumbers::new(0);
    assert!(rt; numbers.next() == 1);
    assert!(rt; numbers.next() == 2);
    let mut last = SequenceNumbers::new(0xffff_fffe);
    assert!(rt; last.next() == 0xffff_ffff);
    assert!(rt; last.next() == 1);
    Ok(())
}
