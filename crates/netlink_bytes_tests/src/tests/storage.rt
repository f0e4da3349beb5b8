//! Storage of each kind, through its traits and at concrete types.

ghost use Rattle.std.specs.Prelude.{◌≡◌, ◌≤◌, ◌<◌, ◌-◌, length, replicate, slice_set};
ghost use Rattle.netlink_bytes.specs.Storage.{put_at};

use netlink_bytes::{Storage, StorageMut};
use std::process::Abort;
use std::test::Fail;

/// Returns the number of bytes.
fn count<T: Storage>(storage: &T) -> usize
    ensures { result ≡ length (T.contents storage.now) }
{
    storage.bytes().len()
}

/// Writes one byte.
fn set_at<T: StorageMut>(storage: &mut T, at: usize, value: u8)
    requires { at < length (T.contents storage.old) }
    ensures held { T.contents storage.new ≡ slice_set (T.contents storage.old) at value }
    ensures same { storage.new
        ≡ T.with_contents storage.old (slice_set (T.contents storage.old) at value) }
{
    let bytes = storage.bytes_mut();
    bytes[at] = value;
}

/// Writes one value over a part of the bytes.
fn fill_part<T: StorageMut>(storage: &mut T, start: usize, end: usize, value: u8)
    requires order { start ≤ end }
    requires inside { end ≤ length (T.contents storage.old) }
    ensures held { T.contents storage.new
        ≡ put_at (T.contents storage.old) start (replicate (end - start) value) }
{
    let part = storage.part_mut(start, end);
    part.fill(value);
}

/// A view over any storage.
#[derive(Drop)]
struct View<T> {
    storage: T,
}

impl<T: StorageMut> View<T> {
    /// Writes one byte.
    fn set(&mut self, at: usize, value: u8)
        requires { at < length (T.contents self.old.storage) }
        ensures held { T.contents self.new.storage
            ≡ slice_set (T.contents self.old.storage) at value }
        ensures same { self.new.storage
            ≡ T.with_contents self.old.storage (slice_set (T.contents self.old.storage) at value) }
    {
        set_at(&mut self.storage, at, value);
    }
}

/// Writes twice to a slice.
fn write_slice(bytes: &mut [u8])
    requires { 2 ≤ length bytes.old }
    ensures { bytes.new ≡ slice_set (slice_set bytes.old 0 1) 1 2 }
{
    let mut view = View { storage: bytes };
    view.set(0, 1);
    view.set(1, 2);
}

/// Writes twice to a vector.
fn write_vec(bytes: &mut Vec<u8>)
    requires { 2 ≤ length bytes.old.items }
    ensures { bytes.new.items ≡ slice_set (slice_set bytes.old.items 0 1) 1 2 }
{
    set_at(bytes, 0, 1);
    set_at(bytes, 1, 2);
}

/// Reads and writes slices.
fn assert_slices(rt: &impl Abort) {
    let shared: &[u8] = &[5, 6, 7, 8];
    assert!(rt; shared.bytes() == [5, 6, 7, 8].as_slice());
    assert!(rt; count(&shared) == 4);
    let mut array = [5, 6, 7, 8];
    write_slice(&mut array);
    assert!(rt; array == [1, 2, 7, 8]);
    let mut slice: &mut [u8] = &mut array;
    assert!(rt; count(&slice) == 4);
    fill_part(&mut slice, 1, 3, 9);
    assert!(rt; slice.bytes() == [1, 9, 9, 8].as_slice());
}

/// Reads and writes a vector that holds 5, 6, 7 and 8.
fn assert_vec(rt: &impl Abort, vec: &mut Vec<u8>)
    requires { length vec.old.items ≡ 4 }
{
    assert!(rt; count(vec) == 4);
    write_vec(vec);
    assert!(rt; vec.len() == 4);
    fill_part(vec, 1, 3, 9);
    assert!(rt; vec.bytes() == [1, 9, 9, 8].as_slice());
}

#[test]
fn storage(rt: HostRuntime) -> Result<(), Fail> {
    assert_slices(&rt);
    let mut vec = Vec::from_array(rt.alloc(), [5, 6, 7, 8])?;
    assert_vec(&rt, &mut vec);
    Ok(())
}
