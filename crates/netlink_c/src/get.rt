//! The values of attributes, read with a check of their size.

ghost use Rattle.std.specs.Prelude.{◌≡◌, ◌+◌, ◌<◌, ◌≤◌, length};
ghost use Rattle.netlink_packet_core.specs.Numbers.{number_be, number_le};
ghost use Rattle.netlink_c.specs.Gets.{Gets, GetsText, IsTextSize, byte_of, bytes_of, get_result};

use crate::frame::Part;
use crate::results::{NO_PLACE, OK, WRONG_SIZE};
use crate::walk::AttributeItem;
use netlink_packet_core::{
    parse_u16, parse_u16_be, parse_u32, parse_u32_be, parse_u64, parse_u64_be,
};

/// Reads the value of an attribute of the block if it has exactly 1 byte.
///
/// Returns 0; `NO_PLACE` if `item` is absent (its offset is 0) or ends after the block; otherwise
/// `WRONG_SIZE` if the value has another size. Changes `value` only if it returns 0. Does not
/// allocate.
#[unsafe(no_mangle)]
pub extern "C" fn nlp_get_u8(block: &[u8], item: &AttributeItem, value: &mut u8) -> u32
    ensures gets { Gets 1 byte_of block.now item.now value.old value.new result }
{
    let result = checked(block.len(), item, 1);
    if result != OK {
        return result;
    }
    *value = block[item.offset];
    OK
}

/// Reads the value of an attribute as a `u16` in native byte order, as `nlp_get_u8` reads a
/// byte. `WRONG_SIZE` if it does not have 2 bytes.
#[unsafe(no_mangle)]
pub extern "C" fn nlp_get_u16(block: &[u8], item: &AttributeItem, value: &mut u16) -> u32
    ensures gets { Gets 2 number_le block.now item.now value.old value.new result }
{
    let result = checked(block.len(), item, 2);
    if result != OK {
        return result;
    }
    let number = parse_u16(&block[item.offset..item.offset + 2]);
    *value = number.unwrap_or(0);
    OK
}

/// Reads the value of an attribute as a `u32` in native byte order, as `nlp_get_u8` reads a
/// byte. `WRONG_SIZE` if it does not have 4 bytes.
#[unsafe(no_mangle)]
pub extern "C" fn nlp_get_u32(block: &[u8], item: &AttributeItem, value: &mut u32) -> u32
    ensures gets { Gets 4 number_le block.now item.now value.old value.new result }
{
    let result = checked(block.len(), item, 4);
    if result != OK {
        return result;
    }
    let number = parse_u32(&block[item.offset..item.offset + 4]);
    *value = number.unwrap_or(0);
    OK
}

/// Reads the value of an attribute as a `u64` in native byte order, as `nlp_get_u8` reads a
/// byte. `WRONG_SIZE` if it does not have 8 bytes.
#[unsafe(no_mangle)]
pub extern "C" fn nlp_get_u64(block: &[u8], item: &AttributeItem, value: &mut u64) -> u32
    ensures gets { Gets 8 number_le block.now item.now value.old value.new result }
{
    let result = checked(block.len(), item, 8);
    if result != OK {
        return result;
    }
    let number = parse_u64(&block[item.offset..item.offset + 8]);
    *value = number.unwrap_or(0);
    OK
}

/// Reads the value of an attribute as a `u16` in big-endian byte order, as `nlp_get_u8` reads a
/// byte. `WRONG_SIZE` if it does not have 2 bytes.
#[unsafe(no_mangle)]
pub extern "C" fn nlp_get_be16(block: &[u8], item: &AttributeItem, value: &mut u16) -> u32
    ensures gets { Gets 2 number_be block.now item.now value.old value.new result }
{
    let result = checked(block.len(), item, 2);
    if result != OK {
        return result;
    }
    let number = parse_u16_be(&block[item.offset..item.offset + 2]);
    *value = number.unwrap_or(0);
    OK
}

/// Reads the value of an attribute as a `u32` in big-endian byte order, as `nlp_get_u8` reads a
/// byte. `WRONG_SIZE` if it does not have 4 bytes.
#[unsafe(no_mangle)]
pub extern "C" fn nlp_get_be32(block: &[u8], item: &AttributeItem, value: &mut u32) -> u32
    ensures gets { Gets 4 number_be block.now item.now value.old value.new result }
{
    let result = checked(block.len(), item, 4);
    if result != OK {
        return result;
    }
    let number = parse_u32_be(&block[item.offset..item.offset + 4]);
    *value = number.unwrap_or(0);
    OK
}

/// Reads the value of an attribute as a `u64` in big-endian byte order, as `nlp_get_u8` reads a
/// byte. `WRONG_SIZE` if it does not have 8 bytes.
#[unsafe(no_mangle)]
pub extern "C" fn nlp_get_be64(block: &[u8], item: &AttributeItem, value: &mut u64) -> u32
    ensures gets { Gets 8 number_be block.now item.now value.old value.new result }
{
    let result = checked(block.len(), item, 8);
    if result != OK {
        return result;
    }
    let number = parse_u64_be(&block[item.offset..item.offset + 8]);
    *value = number.unwrap_or(0);
    OK
}

/// Copies the value of an attribute into `bytes` if it has the size of `bytes`, as `nlp_get_u8`
/// reads a byte. `WRONG_SIZE` if it has another size.
#[unsafe(no_mangle)]
pub extern "C" fn nlp_get_bytes(block: &[u8], item: &AttributeItem, bytes: &mut [u8]) -> u32
    ensures gets { Gets (length bytes.old) bytes_of block.now item.now bytes.old bytes.new result }
{
    let size = bytes.len();
    let result = checked(block.len(), item, size);
    if result != OK {
        return result;
    }
    bytes.copy_from_slice(&block[item.offset..item.offset + size]);
    OK
}

/// Finds the C string in the value of an attribute: the bytes before the first zero, or the whole
/// value if it has no zero. The offset in `text` is relative to the start of the block.
///
/// Returns 0, or `NO_PLACE` if `item` is absent (its offset is 0) or ends after the block. Changes
/// `text` only if it returns 0. Does not allocate.
#[unsafe(no_mangle)]
pub extern "C" fn nlp_get_str(block: &[u8], item: &AttributeItem, text: &mut Part) -> u32
    ensures gets { GetsText block.now item.now text.old text.new result }
{
    let result = checked(block.len(), item, item.size);
    if result != OK {
        return result;
    }
    let size = text_size(&block[item.offset..item.offset + item.size]);
    *text = Part {
        offset: item.offset,
        size,
    };
    OK
}

/// Returns 0 if the attribute is in a block of `room` bytes and its value has this size. Returns
/// `NO_PLACE` if it is not in the block, and otherwise `WRONG_SIZE`.
#[inline(always)]
fn checked(room: usize, item: &AttributeItem, size: usize) -> u32
    ensures answers { result ≡ get_result size room item.now }
    ensures inside { result ≡ 0 → (item.now.size ≡ size) × (0 < item.now.offset)
        × (item.now.offset + size ≤ room) }
{
    if item.offset == 0 || item.offset > room || item.size > room - item.offset {
        return NO_PLACE;
    }
    if item.size == size { OK } else { WRONG_SIZE }
}

/// Returns the number of bytes before the first zero byte, or of all bytes if there is none.
fn text_size(bytes: &[u8]) -> usize
    ensures { IsTextSize bytes.now result }
{
    for index in 0..bytes.len() {
        if bytes[index] == 0 {
            return index;
        }
    }
    bytes.len()
}
