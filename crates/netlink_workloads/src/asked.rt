//! What the arguments ask for.

use std::env::Args;

/// A job.
#[derive(Clone, Copy)]
pub(crate) enum Job {
    /// A recording of a routing table and of neighbours becomes lines.
    Routes,
    /// A recording of whole messages about links becomes lines.
    Links,
    /// A recording of many links, some of them deleted or renamed, becomes lines. A tenth of the
    /// messages is malformed or of an unknown type.
    Names,
    /// Dumps are decoded, and attributes are read by kind.
    Decode,
    /// Requests are made, written into datagrams and normalized.
    Requests,
    /// Nested attributes are read, changed and written, and blocks are normalized.
    Trees,
}

/// A job, or none for all, the number of its messages or rounds, and the seed of its inputs.
#[derive(Clone, Copy)]
pub(crate) struct Asked {
    pub(crate) job: Option<Job>,
    pub(crate) count: u32,
    pub(crate) seed: u32,
}

/// Returns what the arguments ask for, if they are a job or `all`, a count and a seed.
pub(crate) fn asked_for(args: Option<Args>) -> Option<Asked> {
    let mut args = args?;
    let _name = args.next()?;
    let word = args.next()?;
    let job = job_of(word.as_str());
    if job.is_none() && word.as_str() != "all" {
        return None;
    }
    let count = number_of(args.next()?.as_str())?;
    let seed = number_of(args.next()?.as_str())?;
    Some(Asked { job, count, seed })
}

/// Returns the job with a name.
fn job_of(word: &str) -> Option<Job> {
    match word {
        "routes" => Some(Job::Routes),
        "links" => Some(Job::Links),
        "names" => Some(Job::Names),
        "decode" => Some(Job::Decode),
        "requests" => Some(Job::Requests),
        "trees" => Some(Job::Trees),
        _ => None,
    }
}

/// Returns the number that a word writes in decimal.
fn number_of(word: &str) -> Option<u32> {
    word.parse::<u32>().ok()
}
