//! The basic traits, for types of the tests and through their bounds.
#![tactic(auto, using(netlink_bytes::specs::NumberLaws::text_sizes))]

ghost use Rattle.std.specs.Prelude.{◌≡◌, ◌≢◌, ◌<◌, ◌^◌, ⊤, [], true, length, if◌then◌else◌, IfOk};
ghost use Rattle.netlink_bytes.specs.Numbers.{number_be, number_le, bytes_le};
ghost use Rattle.netlink_bytes.specs.declared.error.DecodeError.TheVariants.{InvalidNumber};

use crate::tests::errors::assert_refused;
use netlink_bytes::{
    DecodeError, Emitable, Parseable, ParseableParametrized, emit_u16, parse_u16_be, parse_u16_le,
};
use std::alloc::{AllocError, Global};

/// A 16-bit integer.
#[derive(Clone, Copy, Debug, PartialEq, Eq)]
struct Word(u16);

impl Emitable for Word {
    ghost bytes = { λ word. bytes_le word.0 2 };

    ghost can_emit = { λ _. ⊤ };

    ghost takes_longer = { true };

    fn buffer_len(&self) -> usize {
        2
    }

    fn emit(&self, buffer: &mut [u8]) {
        let _written = emit_u16(buffer, self.0);
    }
}

/// The parameter is whether the highest byte comes first.
impl<'a> ParseableParametrized<&'a [u8], bool> for Word {
    ghost can_parse = { λ buf high_first. ⊤ };

    ghost reads = { λ buf high_first word. (length buf.now ≡ 2)
        × (word.0 ≡ (if high_first then number_be buf.now else number_le buf.now)) };

    ghost refusal = { λ buf high_first e. (length buf.now ≢ 2) × (e ≡ InvalidNumber 2 (length buf.now)) };

    ghost needs_no_memory = { λ buf high_first. ⊤ };

    fn parse_with_param(_alloc: Global, buf: &&'a [u8], params: bool) -> Result<Word, DecodeError> {
        let bytes = *buf;
        if params {
            Ok(Word(parse_u16_be(bytes)?))
        } else {
            Ok(Word(parse_u16_le(bytes)?))
        }
    }
}

/// Bytes in a vector of their own.
#[derive(Debug, Drop)]
struct Copied(Vec<u8>);

impl<'a> Parseable<&'a [u8]> for Copied {
    ghost can_parse = { λ buf. ⊤ };

    ghost reads = { λ buf copied. copied.0.items ≡ buf.now };

    ghost refusal = { λ buf e. ⊥ };

    ghost needs_no_memory = { λ buf. buf.now ≡ [] };

    fn parse(alloc: Global, buf: &&'a [u8]) -> Result<Copied, DecodeError> {
        let bytes = *buf;
        if bytes.is_empty() {
            return Ok(Copied(Vec::new(alloc)));
        }
        Ok(Copied(Vec::from_slice(alloc, bytes)?))
    }
}

/// Returns the encoding of a value.
fn written<E: Emitable>(alloc: Global, value: &E) -> Result<Vec<u8>, AllocError>
    requires can { E.can_emit value.now }
    requires longer { E.takes_longer ≡ true }
    requires in_size { length (E.bytes value.now) < 2 ^ 64 }
    ensures { IfOk result (λ bytes. bytes.items ≡ E.bytes value.now) }
{
    let mut bytes = vec![in alloc; 0; value.buffer_len()]?;
    value.emit(&mut bytes);
    Ok(bytes)
}

/// Returns what the bytes decode to.
fn read<'a, V: Parseable<&'a [u8]>>(alloc: Global, bytes: &'a [u8]) -> Result<V, DecodeError>
    requires can { V.can_parse bytes }
    ensures { IfOk result (V.reads bytes.entry) }
{
    V::parse(alloc, &bytes)
}

/// Returns whether a word is written as these bytes.
fn is_written(alloc: Global, word: Word, expected: &[u8]) -> bool {
    match written(alloc, &word) {
        Ok(bytes) => bytes.as_slice() == expected,
        Err(_) => false,
    }
}

/// Returns whether the bytes are read as the same bytes.
fn is_copied(alloc: Global, bytes: &[u8]) -> bool {
    let copied: Result<Copied, DecodeError> = read(alloc, bytes);
    match copied {
        Ok(copied) => copied.0.as_slice() == bytes,
        Err(_) => false,
    }
}

#[test]
fn written_and_read(rt: HostRuntime) {
    let alloc = rt.alloc();
    assert!(rt; is_written(alloc, Word(0x1234), &[0x34, 0x12]));
    let mut longer = [0x55; 3];
    Word(0x1234).emit(&mut longer);
    assert_eq!(rt; longer, [0x34, 0x12, 0x55]);
    let two: &[u8] = &[0x12, 0x34];
    for (high_first, word) in [(true, Word(0x1234)), (false, Word(0x3412))] {
        assert_eq!(rt;
            Word::parse_with_param(alloc, &two, high_first).ok(),
            Some(word)
        );
    }
    let three: &[u8] = &[1, 2, 3];
    assert_refused(
        &rt,
        alloc,
        Word::parse_with_param(alloc, &three, true),
        4,
        "Invalid number. Expected 2 bytes, received 3 bytes",
    );
    assert!(rt; is_copied(alloc, three));
}
