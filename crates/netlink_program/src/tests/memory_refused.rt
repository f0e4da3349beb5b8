//! Functions that allocate.
//!
//! `tests/memory` runs each test once per allocation, with that allocation failing. The test must
//! pass, or end with an out-of-memory error that it propagates with `?`.

use crate::read_all;
use std::test::Fail;

/// Two chunks and a byte.
const INPUT: [u8; 8193] = [7; 8193];

#[test]
fn inputs_are_read(rt: HostRuntime) -> Result<(), Fail> {
    let mut reader: &[u8] = &INPUT;
    let read = read_all(rt.alloc(), &mut reader)?;
    assert!(rt; read.as_slice() == INPUT.as_slice());
    assert!(rt; reader.is_empty());
    let read = read_all(rt.alloc(), &mut reader)?;
    assert!(rt; read.is_empty());
    Ok(())
}
