//! The arguments, the statuses, and what goes to standard error.

use crate::command::Command;
use crate::ending::{Usage, asked, ended};
use crate::laws::faults_equal;
use crate::run::Fault;
use crate::tests::messages::PING;
use crate::tests::runs::is_same_command;
use netlink_packet_core::DecodeError;
use netlink_program::Ending;
use std::alloc::{AllocError, Global};
use std::env::Args;
use std::test::Fail;

const USAGE: &str = "usage: netlink_frame normalize|show|nlas|canon|frames\n";

const EMPTY_INPUT: &str =
    "failed deserializing NetlinkMessage caused by invalid netlink buffer length caused by invalid netlink buffer: length is 0 but netlink packets are at least 16 bytes\n";

/// Returns the arguments as they are passed to a program.
fn args_of(alloc: Global, words: &[&str]) -> Result<Args, AllocError> {
    let mut args = Vec::new(alloc);
    for word in words {
        args.push(String::from_str(alloc, word)?)?;
    }
    Ok(args.into_iter())
}

/// Arguments, and the command that they ask for.
const ASKED: [(&[&str], Option<Command>); 12] = [
    (&["netlink_frame", "normalize"], Some(Command::Normalize)),
    (&["netlink_frame", "show"], Some(Command::Show)),
    (&["netlink_frame", "nlas"], Some(Command::Nlas)),
    (&["", "canon"], Some(Command::Canon)),
    (&["show", "frames"], Some(Command::Frames)),
    (&[], None),
    (&["netlink_frame"], None),
    (&["normalize"], None),
    (&["netlink_frame", "bogus"], None),
    (&["netlink_frame", ""], None),
    (&["netlink_frame", "normalize", "normalize"], None),
    (&["netlink_frame", "show", ""], None),
];

/// Returns the command that these arguments ask for.
fn asked_by(alloc: Global, words: &[&str]) -> Result<Option<Command>, AllocError> {
    Ok(asked(Some(args_of(alloc, words)?)))
}

#[test]
fn one_word_after_the_name_is_a_command(rt: HostRuntime) -> Result<(), Fail> {
    for (words, command) in ASKED {
        assert!(rt; is_same_command(asked_by(rt.alloc(), words)?, command));
    }
    assert!(rt; asked(None).is_none());
    Ok(())
}

/// Returns whether an ending has this status and this text.
fn says(
    alloc: Global,
    ending: &Ending<Fault, Usage>,
    status: u8,
    text: &str,
) -> Result<bool, AllocError> {
    Ok(ending.status() == status && ending.to_string(alloc)?.as_str() == text)
}

/// Returns whether a run that fails with this error ends with status 1 and this text.
fn fails_with(alloc: Global, fault: Fault, text: &str) -> Result<bool, AllocError> {
    says(alloc, &Ending::Failed(fault), 1, text)
}

fn is_same(fault: &Fault, other: &Fault) -> bool {
    fault == other
}

fn differs(fault: &Fault, other: &Fault) -> bool {
    fault != other
}

#[test]
fn each_ending_has_its_status_and_its_text(rt: HostRuntime) -> Result<(), Fail> {
    let alloc = rt.alloc();
    let too_long = Fault::Decode(DecodeError::TooLong);
    let refused = Fault::Decode(DecodeError::OutOfMemory);
    assert!(rt; says(alloc, &Ending::Done, 0, "")?);
    assert!(rt; fails_with(alloc, Fault::Read, "read failed\n")?);
    assert!(rt; fails_with(alloc, Fault::Write, "write failed\n")?);
    assert!(rt; fails_with(alloc, too_long, "message does not fit a 32-bit length\n")?);
    assert!(rt; fails_with(alloc, refused, "out of memory\n")?);
    assert!(rt; says(alloc, &Ending::Usage(Usage), 2, USAGE)?);

    let refused = Fault::Decode(DecodeError::OutOfMemory);
    assert!(rt; is_same(&refused, &Fault::Decode(DecodeError::OutOfMemory)));
    assert!(rt; differs(&refused, &Fault::Read));
    assert!(rt; is_same(&Fault::Read, &Fault::Read) && differs(&Fault::Read, &Fault::Write));
    faults_equal();
    Ok(())
}

/// A command, its input, what the program writes, its status, and its text.
const RUNS: [(Option<Command>, &[u8], &[u8], u8, &str); 4] = [
    (Some(Command::Normalize), &PING, &PING, 0, ""),
    (Some(Command::Frames), &[], &[], 0, ""),
    (Some(Command::Normalize), &[], &[], 1, EMPTY_INPUT),
    (None, &PING, &[], 2, USAGE),
];

/// Returns how a run ends, what it writes, and whether it reads its whole input.
fn ending_of(
    alloc: Global,
    command: Option<Command>,
    input: &[u8],
) -> (Ending<Fault, Usage>, Vec<u8>, bool) {
    let mut reader = input;
    let mut output = Vec::new(alloc);
    let ending = ended(alloc, command, &mut reader, &mut output);
    (ending, output, reader.is_empty())
}

/// What the program does with its command, its input and its output.
#[test]
fn runs_end_with_their_status(rt: HostRuntime) -> Result<(), Fail> {
    for (command, input, written, status, text) in RUNS {
        let (ending, output, is_read) = ending_of(rt.alloc(), command, input);
        assert!(rt; says(rt.alloc(), &ending, status, text)?);
        assert!(rt; output.as_slice() == written);
        assert!(rt; is_read == command.is_some());
    }
    Ok(())
}
