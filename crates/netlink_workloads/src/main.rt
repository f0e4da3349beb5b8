//! Does one of the jobs that users of the library wait for, on inputs that it makes, and prints a
//! digest of all results. bench/workloads.txt lists the jobs that are timed.
#![tactic(auto)]

mod asked;
mod decode;
mod digest;
mod fields;
mod links;
mod names;
mod random;
mod requests;
mod routes;
mod stream;
mod trees;

use crate::asked::{Asked, Job, asked_for};
use crate::digest::Digest;
use crate::stream::{Source, lines};
use netlink_program::{Ending, read_all};
use std::alloc::Global;
use std::convert::Infallible;
use std::env;

/// The jobs.
const JOBS: [Job; 6] = [
    Job::Routes,
    Job::Links,
    Job::Names,
    Job::Decode,
    Job::Requests,
    Job::Trees,
];

/// Does the job that the arguments name, or all, with messages from standard input as samples, and
/// prints the digest.
fn main(rt: HostRuntime) -> Ending<&'static str, Infallible> {
    let alloc = rt.alloc();
    let Some(asked) = asked_for(env::args(&rt).ok()) else {
        return Ending::Failed("usage: netlink_workloads JOB COUNT SEED < MESSAGES");
    };
    let Ok(samples) = read_all(alloc, &mut rt.reader()) else {
        return Ending::Failed("read failed");
    };
    let done = match asked.job {
        Some(job) => one(alloc, job, &asked, &samples),
        None => all(alloc, &asked, &samples),
    };
    let Some(digest) = done else {
        return Ending::Failed("the job failed");
    };
    match println!(rt; "{digest:016x}") {
        Ok(()) => Ending::Done,
        Err(_) => Ending::Failed("write failed"),
    }
}

/// Does every job, and returns one digest of their results.
fn all(alloc: Global, asked: &Asked, samples: &[u8]) -> Option<u64> {
    let mut digest = Digest::new();
    for job in JOBS {
        digest.number(one(alloc, job, asked, samples)?);
    }
    Some(digest.value())
}

/// Does a job, and returns the digest of its results.
fn one(alloc: Global, job: Job, asked: &Asked, samples: &[u8]) -> Option<u64> {
    let Asked { count, seed, .. } = *asked;
    match job {
        Job::Routes => lines(alloc, Source::routes(alloc, seed), count),
        Job::Links => lines(alloc, Source::links(alloc, samples, seed)?, count),
        Job::Names => lines(alloc, Source::names(alloc, samples, seed)?, count),
        Job::Decode => decode::digest(alloc, samples, count, seed),
        Job::Requests => requests::digest(alloc, count, seed),
        Job::Trees => trees::digest(alloc, count, seed),
    }
}
