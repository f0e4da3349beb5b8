//! What the arguments ask for, and how the program ends.

ghost use Rattle.std.specs.Prelude.{◌≡◌, ◌↔◌, None, Some, IfSome, option_map};
ghost use Rattle.std.specs.Vec.Iter.{into_iter_items};
ghost use Rattle.netlink_lines.specs.Check.{check_of};
ghost use Rattle.netlink_program.specs.Ending.{IsUsage};
ghost use Rattle.netlink_show.specs.Ending.{Ends, options_of, usage_text, with_option};

use netlink_lines::{Fault, Line, Options, run_with};
use netlink_program::Ending;
use std::alloc::Global;
use std::env::Args;
use std::fmt;
use std::io::{Read, Write};

/// The lines alone.
const PLAIN: Options = Options {
    labels: false,
    times: false,
    bytes: false,
    json: false,
};

/// The error for wrong arguments.
#[derive(Debug, Drop)]
pub struct Usage;

impl fmt::Display for Usage {
    ghost output = { λ _. Some usage_text };

    fn fmt<W: fmt::Write>(&self, f: &mut fmt::Formatter<W>) -> fmt::Result {
        f.write_str("usage: netlink_show [--time] [--json | [--label] [--bytes]] < FILE")
    }
}

/// Returns what the arguments after the program's name ask for: nothing more than the lines, or what
/// the words `--label`, `--time`, `--bytes` and `--json` ask for, each at most once, in any order.
/// `--json` goes with `--time` alone. Returns `None` for any others, and if the arguments could not be
/// read because one is not UTF-8 or an allocation failed.
pub fn asked(args: Option<Args>) -> Option<Options>
    ensures asks { result ≡ options_of (option_map into_iter_items args) }
{
    let mut args = args?;
    let _name = args.next()?;
    let mut options = PLAIN;
    for word in args {
        options = with_option(options, word.as_str())?;
    }
    Some(options)
}

/// Returns these options and what a word asks for, or `None` if it is no option, was there before, or
/// does not go with the others.
fn with_option(options: Options, word: &str) -> Option<Options>
    ensures adds { result ≡ with_option options word.now }
{
    let Options {
        labels,
        times,
        bytes,
        json,
    } = options;
    match word {
        "--label" if !labels && !json => Some(Options {
            labels: true,
            times,
            bytes,
            json,
        }),
        "--time" if !times => Some(Options {
            labels,
            times: true,
            bytes,
            json,
        }),
        "--bytes" if !bytes && !json => Some(Options {
            labels,
            times,
            bytes: true,
            json,
        }),
        "--json" if !json && !labels && !bytes => Some(Options {
            labels,
            times,
            bytes,
            json: true,
        }),
        _ => None,
    }
}

/// Runs over the reader and the writer with these options. Without them, returns `Usage` and uses
/// neither.
pub fn ended<F: Line, R: Read, W: Write>(
    alloc: Global,
    options: Option<Options>,
    reader: &mut R,
    writer: &mut W,
) -> Ending<Fault, Usage>
    ensures usage { IsUsage result ↔ (options ≡ None) }
    ensures untouched { options ≡ None → (reader.new ≡ reader.old) × (writer.new ≡ writer.old) }
    ensures ends { IfSome options (λ asked. IfSome (R.remaining reader.old) (λ input.
        Ends (check_of F.Table) asked input (R.remaining reader.new)
        (W.contents writer.old) (W.contents writer.new) result)) }
{
    let Some(options) = options else {
        return Ending::Usage(Usage);
    };
    Ending::from(run_with::<F, R, W>(alloc, options, reader, writer))
}
