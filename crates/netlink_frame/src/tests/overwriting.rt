//! Values overwritten in place, each followed by a walk of the block.

ghost use Rattle.std.specs.Prelude.{◌≡◌, ◌∷◌, []};

use crate::overwrite::overwrite;
use crate::tests::attributes::{SHORT, TWO};
use crate::tests::cuts::{Ending, WELL, is_walked, nlas_of};
use netlink_packet_core::nlas_value_mut;
use std::test::Fail;

const REPLACED: [u8; 16] = [5, 0, 1, 0, 0xaa, 0, 0, 0, 8, 0, 2, 0, 8, 0, 2, 0];

const BOTH: &str = "0001 1 aa\n0002 4 01020304\n";

/// A block, an index and a value; whether it is overwritten, the block that results, and its lines.
const OVERWRITTEN: [(&[u8], usize, &[u8], bool, &[u8], &str, Ending); 7] = [
    (
        &TWO,
        1,
        &[8, 0, 2, 0],
        true,
        &REPLACED,
        "0001 1 aa\n0002 4 08000200\n",
        WELL,
    ),
    (&TWO, 1, &[1, 2, 3], false, &TWO, BOTH, WELL),
    (&TWO, 2, &[1, 2, 3, 4], false, &TWO, BOTH, WELL),
    (&TWO, usize::MAX, &[], false, &TWO, BOTH, WELL),
    (&SHORT, 0, &[], true, &SHORT, "0001 0 -\n", (7, 4, 3)),
    (&SHORT, 1, &[], false, &SHORT, "0001 0 -\n", (7, 4, 3)),
    (
        &[5, 0, 1, 0, 0xaa, 1, 2, 3, 3, 0, 7, 0],
        0,
        &[0xbb],
        true,
        &[5, 0, 1, 0, 0xbb, 1, 2, 3, 3, 0, 7, 0],
        "0001 1 bb\n",
        (7, 4, 3),
    ),
];

/// Overwrites a value. Has no contract, so that the proofs of tests are short.
pub(crate) fn is_overwritten(block: &mut [u8], index: usize, value: &[u8]) -> bool {
    overwrite(block, index, value)
}

#[test]
fn a_value_is_written_over(rt: HostRuntime) -> Result<(), Fail> {
    for (old, index, value, answer, new, lines, ending) in OVERWRITTEN {
        let mut block = old.to_vec(rt.alloc())?;
        assert!(rt; is_overwritten(&mut block, index, value) == answer);
        assert!(rt; block.as_slice() == new);
        assert!(rt; is_walked(rt.alloc(), &block, lines, ending)?);
    }
    Ok(())
}

/// Returns a block with a value overwritten. The contract shows that a caller who knows the block
/// also knows the bytes that it becomes.
fn replaced() -> [u8; 16]
    ensures { result ≡ 5 ∷ 0 ∷ 1 ∷ 0 ∷ 0xaa ∷ 0 ∷ 0 ∷ 0 ∷ 8 ∷ 0 ∷ 2 ∷ 0 ∷ 8 ∷ 0 ∷ 2 ∷ 0 ∷ [] }
{
    let mut block = TWO;
    overwrite(&mut block, 1, &[8, 0, 2, 0]);
    block
}

#[test]
fn a_known_block(rt: HostRuntime) {
    assert_eq!(rt; replaced(), REPLACED);
}

/// A value is mutably borrowed and overwritten. The result is `None` if there is no such attribute.
#[test]
fn a_value_is_lent(rt: HostRuntime) -> Result<(), Fail> {
    let mut block = TWO;
    match lent(&mut block, 1) {
        Some(value) => {
            assert!(rt; value.len() == 4);
            assert!(rt; &*value == [1u8, 2, 3, 4].as_slice());
            value.copy_from_slice(&[5, 6, 7, 8]);
        }
        None => assert!(rt; false),
    }
    let lines = "0001 1 aa\n0002 4 05060708\n";
    assert!(rt; is_walked(rt.alloc(), &block, lines, WELL)?);
    assert!(rt; lent(&mut block, 2).is_none());
    assert!(rt; lent(&mut block, usize::MAX).is_none());
    assert!(rt; is_walked(rt.alloc(), &block, lines, WELL)?);
    Ok(())
}

/// Borrows a value mutably. Has no contract, so that the proofs of tests are short.
fn lent(block: &mut [u8], index: usize) -> Option<&mut [u8]> {
    nlas_value_mut(block, index)
}

/// An empty value is borrowed, even before an error.
#[test]
fn a_value_of_no_bytes_is_lent(rt: HostRuntime) -> Result<(), Fail> {
    let mut block = SHORT;
    assert!(rt; nlas_value_mut(&mut block, 0).is_some_and(|value| value.is_empty()));
    assert!(rt; nlas_value_mut(&mut block, 1).is_none());
    let (output, ended) = nlas_of(rt.alloc(), &block)?;
    assert_eq!(rt; output.as_slice(), b"0001 0 -\n".as_slice());
    assert!(rt; ended == (7, 4, 3));
    Ok(())
}
