//! Traits for encoding values as bytes and decoding them.

ghost use Rattle.std.specs.Prelude.{◌≡◌, ◌≢◌, ◌<◌, ◌⊎◌, ◌++◌, ◌^◌, Bool, List, ℕ, length, drop, IfOk, IfErr, IsOkUnless};
ghost use Rattle.netlink_bytes.specs.Traits.{HasRoom};
ghost use Rattle.netlink_bytes.specs.declared.error.DecodeError.{DecodeError as Cause};
ghost use Rattle.netlink_bytes.specs.declared.error.DecodeError.TheVariants.{OutOfMemory};

use crate::error::DecodeError;
use std::alloc::Global;

/// A value that can be encoded as bytes.
pub trait Emitable {
    /// The encoding of a value.
    ghost bytes: { Self → List ℕ };

    /// Holds if `emit` may be called on the value.
    ghost can_emit: { Self → Type 0 };

    /// Whether `emit` accepts a buffer that is longer than the encoding. Otherwise the buffer must
    /// have exactly the size of the encoding.
    ghost takes_longer: { Bool };

    /// Returns the size of the encoding in bytes. Requires that it is less than 2^64. Does not
    /// allocate.
    fn buffer_len(&self) -> usize
        requires in_size { length (bytes self.now) < 2 ^ 64 }
        ensures size { result ≡ length (bytes self.now) };

    /// Writes the encoding at the start of `buffer` and leaves the rest unchanged. Requires
    /// `can_emit`, and that `buffer` has the size of the encoding, or at least that size if a
    /// longer one is accepted. Does not allocate.
    fn emit(&self, buffer: &mut [u8])
        requires can { can_emit self.now }
        requires room { HasRoom takes_longer (length (bytes self.now)) (length buffer.old) }
        ensures written { buffer.new
            ≡ bytes self.now ++ drop (length (bytes self.now)) buffer.old };
}

/// A value that can be decoded from a `T`.
pub trait Parseable<T> {
    /// Holds if `parse` may be called on the input.
    ghost can_parse: { T → Type 0 };

    /// Holds if the input decodes to the value. An input may decode to no value.
    ghost reads: { T → Self → Type 0 };

    /// Holds if the error is a reason to reject the input, other than `OutOfMemory`.
    ghost refusal: { T → Cause → Type 0 };

    /// Holds if the input is decoded or rejected without allocating.
    ghost needs_no_memory: { T → Type 0 };

    /// Decodes the input. Requires `can_parse`, for example that a view has the bytes that are
    /// read. Returns an error for which `refusal` holds if the input decodes to no value. May
    /// return `OutOfMemory` unless `needs_no_memory` holds.
    fn parse(alloc: Global, buf: &T) -> Result<Self, DecodeError>
        requires can { can_parse buf.now }
        ensures accepts { IfOk result (reads buf.now) }
        ensures complete { (value : Self) → reads buf.now value → IsOkUnless result OutOfMemory }
        ensures refuses { IfErr result (λ e. (e ≡ OutOfMemory) ⊎ refusal buf.now e) }
        ensures no_memory { needs_no_memory buf.now → IfErr result (λ e. e ≢ OutOfMemory) };
}

/// A value that can be decoded from a `T` and a parameter.
pub trait ParseableParametrized<T, P> {
    /// Holds if `parse_with_param` may be called on the input and the parameter.
    ghost can_parse: { T → P → Type 0 };

    /// Holds if the input decodes to the value. An input may decode to no value.
    ghost reads: { T → P → Self → Type 0 };

    /// Holds if the error is a reason to reject the input, other than `OutOfMemory`.
    ghost refusal: { T → P → Cause → Type 0 };

    /// Holds if the input is decoded or rejected without allocating.
    ghost needs_no_memory: { T → P → Type 0 };

    /// Decodes the input. Requires `can_parse` of the input and the parameter. Returns an error for
    /// which `refusal` holds if the input decodes to no value. May return `OutOfMemory` unless
    /// `needs_no_memory` holds.
    fn parse_with_param(alloc: Global, buf: &T, params: P) -> Result<Self, DecodeError>
        requires can { can_parse buf.now params }
        ensures accepts { IfOk result (reads buf.now params) }
        ensures complete { (value : Self) → reads buf.now params value
            → IsOkUnless result OutOfMemory }
        ensures refuses { IfErr result (λ e. (e ≡ OutOfMemory) ⊎ refusal buf.now params e) }
        ensures no_memory { needs_no_memory buf.now params → IfErr result (λ e. e ≢ OutOfMemory) };
}
