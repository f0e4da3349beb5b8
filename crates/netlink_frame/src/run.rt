//! A run of the program over a reader and a writer.

ghost use Rattle.std.specs.Prelude.{◌≡◌, ◌≢◌, [], Err, None, Some, IfOk, IfErr, IfSome, IsOkAnd};
ghost use Rattle.std.specs.String.{string_bytes};
ghost use Rattle.std.specs.Io.KnownBytes.{Keeps};
ghost use Rattle.netlink_packet_core.specs.Frame.{Frame};
ghost use Rattle.netlink_packet_core.specs.Refusal.{IsRefusal};
ghost use Rattle.netlink_packet_core.specs.declared.message.NetlinkMessage.{NetlinkMessage};
ghost use Rattle.netlink_frame.specs.Lines.{message_lines};
ghost use Rattle.netlink_frame.specs.PingPong.{ping_pong_decoding, wants_memory};
ghost use Rattle.netlink_frame.specs.declared.ping_pong.PingPongMessage.{PingPongMessage};
ghost use Rattle.netlink_frame.specs.Run.{RunsAs, IsEarly, Makes, fault_text, outcome, read_fault};

use crate::command::Command;
use crate::frames::{frames_fault, frames_text};
use crate::nlas::{nlas_fault, nlas_text};
use crate::ping_pong::PingPongMessage;
use crate::text::show_text;
use netlink_packet_core::{DecodeError, NetlinkMessage, normalize, normalize_nlas};
use netlink_program::{ReadFault, read_all};
use std::alloc::Global;
use std::fmt;
use std::io::{Read, Write};

/// Why a run failed.
#[derive(Debug, Drop, PartialEq, Eq)]
pub enum Fault {
    /// The reader failed, or did not end within its bound of calls.
    Read,
    /// The writer failed. It may have taken any part of the output.
    Write,
    /// The input was rejected, or an allocation failed.
    Decode(DecodeError),
}

impl fmt::Display for Fault {
    ghost output = { λ fault. Some (fault_text fault) };

    fn fmt<W: fmt::Write>(&self, f: &mut fmt::Formatter<W>) -> fmt::Result {
        match self {
            Fault::Read => f.write_str("read failed"),
            Fault::Write => f.write_str("write failed"),
            Fault::Decode(cause) => write!(f, "{cause}"),
        }
    }
}

impl From<ReadFault> for Fault {
    ghost from_gives = { λ cause fault. fault ≡ read_fault cause };

    fn from(cause: ReadFault) -> Fault {
        match cause {
            ReadFault::Read => Fault::Read,
            ReadFault::OutOfMemory => Fault::Decode(DecodeError::OutOfMemory),
        }
    }
}

impl From<DecodeError> for Fault {
    ghost use Rattle.netlink_frame.specs.declared.run.Fault.TheVariants.{Decode};

    ghost from_gives = { λ cause fault. fault ≡ Decode cause };

    fn from(cause: DecodeError) -> Fault {
        Fault::Decode(cause)
    }
}

/// What a command makes of an input: what it writes, and the error that it then ends with.
struct CommandOutput {
    output: Vec<u8>,
    fault: Option<DecodeError>,
}

/// Writes what the command makes of all that the reader gives, in one piece, and returns the error
/// that the command ends with.
///
/// Returns `Read` if a call of the reader fails, or if its end does not come within 1,048,576
/// calls, each for at most 4096 bytes (a call that is interrupted counts, and is made again), and
/// `Decode(OutOfMemory)` if an allocation fails; then nothing is written. Returns `Write` if the
/// writer fails, even if another error would have followed; then anything may have been written.
/// Empty output is not written.
pub fn run<R: Read, W: Write>(
    alloc: Global,
    command: Command,
    reader: &mut R,
    writer: &mut W,
) -> Result<(), Fault>
    ensures nothing { IfErr result
        (λ fault. IsEarly fault → Keeps (W.contents writer.old) (W.contents writer.new)) }
    ensures runs { IfSome (R.remaining reader.old) (λ input.
        RunsAs command input (W.contents writer.old) (W.contents writer.new) result) }
{
    let input = read_all(alloc, reader)?;
    let CommandOutput { output, fault } = execute(alloc, command, input)?;
    let is_written = writer.write_all(output.as_slice()).is_ok();
    outcome(is_written, fault)
}

/// Returns how a run ends: with `Write` if its output was not written, else with the error of its
/// command, if there is one.
fn outcome(is_written: bool, fault: Option<DecodeError>) -> Result<(), Fault>
    ensures is { result ≡ outcome is_written fault }
{
    if !is_written {
        return Err(Fault::Write);
    }
    match fault {
        None => Ok(()),
        Some(cause) => Err(Fault::Decode(cause)),
    }
}

/// Returns what the command writes for the input, and the error that it ends with. The only error
/// is `OutOfMemory`.
#[tactic(auto, unfolding(crate::specs::Run::Makes), using(crate::proofs::Ends::walks_end))]
fn execute(alloc: Global, command: Command, input: Vec<u8>) -> Result<CommandOutput, DecodeError>
    ensures makes { IfOk result
        (λ returned. Makes command input.items returned.output.items returned.fault) }
    ensures fault { IfOk result (λ returned. IfSome returned.fault (λ e. e ≢ DecodeError.OutOfMemory)) }
    ensures memory { IfErr result (λ e. e ≡ DecodeError.OutOfMemory) }
{
    match command {
        Command::Normalize => whole(alloc, normalize::<PingPongMessage>(alloc, &input)),
        Command::Show => whole(alloc, shown(alloc, input)),
        Command::Nlas => lines(nlas_text(alloc, &input), nlas_fault(&input)),
        Command::Canon => whole(alloc, normalize_nlas(alloc, &input)),
        Command::Frames => lines(frames_text(alloc, &input), frames_fault(&input)),
    }
}

/// Returns the lines of a message, or the error if the input does not begin with one. Drops the
/// input before it makes the lines.
fn shown(alloc: Global, input: Vec<u8>) -> Result<Vec<u8>, DecodeError>
    ensures shows { IfOk result (λ v. (m : NetlinkMessage PingPongMessage)
        × Frame ping_pong_decoding input.items m × (v.items ≡ message_lines m)) }
    ensures refuses { IfErr result (λ e. e ≢ DecodeError.OutOfMemory
        → IsRefusal ping_pong_decoding wants_memory input.items e) }
{
    match NetlinkMessage::<PingPongMessage>::deserialize(alloc, &input) {
        Ok(message) => {
            drop(input);
            Ok(show_text(alloc, &message)?.into_bytes())
        }
        Err(cause) => Err(cause),
    }
}

/// Returns the output of a command that writes everything or nothing. `OutOfMemory` is no error of
/// the input.
fn whole(alloc: Global, made: Result<Vec<u8>, DecodeError>) -> Result<CommandOutput, DecodeError>
    ensures output { IfOk made (λ output. IsOkAnd result
        (λ returned. (returned.output ≡ output) × (returned.fault ≡ None))) }
    ensures fault { IfErr made (λ e. IfOk result
        (λ returned. (returned.output.items ≡ []) × (returned.fault ≡ Some e)
        × (e ≢ DecodeError.OutOfMemory))) }
    ensures memory { IfErr result
        (λ e. (e ≡ DecodeError.OutOfMemory) × (made ≡ Err DecodeError.OutOfMemory)) }
{
    match made {
        Ok(output) => Ok(CommandOutput {
            output,
            fault: None,
        }),
        Err(DecodeError::OutOfMemory) => Err(DecodeError::OutOfMemory),
        Err(cause) => Ok(CommandOutput {
            output: Vec::new(alloc),
            fault: Some(cause),
        }),
    }
}

/// Returns the output of a command that writes lines up to an error.
fn lines(
    made: Result<String, DecodeError>,
    fault: Option<DecodeError>,
) -> Result<CommandOutput, DecodeError>
    ensures ok { IfOk made (λ text. IsOkAnd result
        (λ returned. (returned.output.items ≡ string_bytes text) × (returned.fault ≡ fault))) }
    ensures err { IfErr made (λ e. result ≡ Err e) }
{
    let text = made?;
    Ok(CommandOutput {
        output: text.into_bytes(),
        fault,
    })
}
