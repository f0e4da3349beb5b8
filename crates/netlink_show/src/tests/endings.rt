//! The arguments, the statuses and the texts on standard error.

use crate::ending::{Usage, asked, ended};
use netlink_family::Joined;
use netlink_lines::{Cause, Fault, Options, Stop};
use netlink_program::Ending;
use netlink_route::RouteTables;
use std::alloc::{AllocError, Global};
use std::env::Args;
use std::test::Fail;

/// A noop, whose line is `noop`.
const NOOP: [u8; 16] = [16, 0, 0, 0, 1, 0, 0, 0, 0, 0, 0, 0, 0, 0, 0, 0];

/// Returns these words as the arguments of a program.
fn args_of(alloc: Global, words: &[&str]) -> Result<Args, AllocError> {
    let mut args = Vec::new(alloc);
    for word in words {
        args.push(String::from_str(alloc, word)?)?;
    }
    Ok(args.into_iter())
}

#[test]
fn arguments_ask_for_options(rt: HostRuntime) -> Result<(), Fail> {
    let rows: [(&[&str], Option<(bool, bool, bool, bool)>); 17] = [
        (&["netlink_show"], Some((false, false, false, false))),
        (
            &["netlink_show", "--label"],
            Some((true, false, false, false)),
        ),
        (
            &["netlink_show", "--time"],
            Some((false, true, false, false)),
        ),
        (
            &["netlink_show", "--bytes"],
            Some((false, false, true, false)),
        ),
        (
            &["netlink_show", "--json"],
            Some((false, false, false, true)),
        ),
        (
            &["netlink_show", "--bytes", "--label"],
            Some((true, false, true, false)),
        ),
        (
            &["netlink_show", "--label", "--time", "--bytes"],
            Some((true, true, true, false)),
        ),
        (
            &["netlink_show", "--time", "--json"],
            Some((false, true, false, true)),
        ),
        (&[], None),
        (&["netlink_show", ""], None),
        (&["netlink_show", "--labels"], None),
        (&["netlink_show", "label"], None),
        (&["netlink_show", "--label", "more"], None),
        (&["netlink_show", "--bytes", "--bytes"], None),
        (&["netlink_show", "--json", "--json"], None),
        (&["netlink_show", "--json", "--bytes"], None),
        (&["netlink_show", "--label", "--json"], None),
    ];
    for (words, wanted) in rows.iter() {
        let wanted = wanted.map(|(labels, times, bytes, json)| Options {
            labels,
            times,
            bytes,
            json,
        });
        assert!(rt; asked(Some(args_of(rt.alloc(), words)?)) == wanted);
    }
    assert!(rt; asked(None) == None);
    Ok(())
}

#[test]
fn each_ending_has_its_status_and_its_text(rt: HostRuntime) -> Result<(), Fail> {
    let stopped = Fault::Stopped(Stop {
        at: 40,
        cause: Cause::TooLong(1_048_577),
    });
    let rows = [
        (Ending::Done, 0u8, ""),
        (Ending::Failed(Fault::Read), 1, "read failed\n"),
        (Ending::Failed(Fault::Write), 1, "write failed\n"),
        (Ending::Failed(Fault::OutOfMemory), 1, "out of memory\n"),
        (
            Ending::Failed(Fault::Malformed),
            1,
            "a message is malformed\n",
        ),
        (
            Ending::Failed(stopped),
            1,
            "byte 40: a message of 1048577 bytes is longer than 1048576\n",
        ),
        (
            Ending::Usage(Usage),
            2,
            "usage: netlink_show [--time] [--json | [--label] [--bytes]] < FILE\n",
        ),
    ];
    for (ending, status, text) in rows {
        assert_eq!(rt; ending.status(), status);
        assert_eq!(rt; ending.to_string(rt.alloc())?.as_str(), text);
    }
    Ok(())
}

/// With options the input is read to its end. Without, it is not read.
#[test]
fn runs_end_with_their_status(rt: HostRuntime) {
    let plain = Options {
        labels: false,
        times: false,
        bytes: false,
        json: false,
    };
    for (options, status, size) in [(Some(plain), 0, 5), (None, 2, 0)] {
        let mut reader: &[u8] = &NOOP;
        let mut output: Vec<u8> = Vec::new(rt.alloc());
        let ending = ended::<Joined<RouteTables>, _, _>(
            rt.alloc(),
            options,
            &mut reader,
            &mut output,
        );
        assert_eq!(rt; ending.status(), status);
        assert_eq!(rt; output.len(), size);
        assert_eq!(rt; reader.is_empty(), options.is_some());
    }
}
