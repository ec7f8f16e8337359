//! Does typical jobs of users on generated texts: `nix_workloads JOB SEED SIZE` prints the number of results and a digest of all of them. `all` does the
//! jobs of `JOBS`; `compare` compares `reparse` and `reparse_in_place` with `Root::parse`. A job calls only public functions of the libraries, and makes
//! no expensive call twice with the same text, name or offset.
#![tactic(auto)]

mod again;
mod again_compared;
mod again_rules;
mod anew;
mod awkward;
mod check;
mod convert;
mod digest;
mod draft;
mod edit;
mod index;
mod keys;
mod numbers;
mod packages;
mod pins;
mod press;
mod press_anew;
mod results;
mod small_edits;
mod source;
mod template;
mod words;

use digest::Digest;
use std::alloc::Global;
use std::{env, io};
use words::Words;

// The jobs, in the order in which `all` does them.
const JOBS: [&str; 6] = ["check", "index", "edit", "convert", "keys", "awkward"];

// How the program is called.
const USAGE: &str =
    "nix_workloads JOB SEED SIZE, with one of these jobs: check index edit convert keys awkward anew again press press-in-place press-anew break \
break-anew all compare";

// Does a job on texts of a seed, and adds its results to the digest. An unknown job has no results.
fn work(
    alloc: Global,
    words: &Words,
    job: &str,
    seed: u64,
    size: usize,
    digest: &mut Digest,
) -> io::Result<()> {
    match job {
        "check" => check::check(alloc, words, seed, size, digest),
        "index" => index::index(alloc, words, seed, size, digest),
        "edit" => edit::edit(alloc, words, seed, size, digest),
        "convert" => convert::convert(alloc, words, seed, size, digest),
        "keys" => keys::press(alloc, words, seed, size, digest),
        "awkward" => awkward::awkward(alloc, words, seed, size, digest),
        "anew" => anew::anew(alloc, words, seed, size, digest),
        "again" => again::again(alloc, words, seed, size, digest),
        "press" => Ok(press::press(alloc, words, "x", seed, size, digest)?),
        "press-in-place" => Ok(press::press_in_place(alloc, words, "x", seed, size, digest)?),
        "press-anew" => Ok(press_anew::press_anew(alloc, words, "x", seed, size, digest)?),
        "break" => Ok(press::press(alloc, words, "}", seed, size, digest)?),
        "break-anew" => Ok(press_anew::press_anew(alloc, words, "}", seed, size, digest)?),
        _ => Ok(()),
    }
}

// Does a job, and prints a line about its results.
fn report(rt: &HostRuntime, words: &Words, job: &str, seed: u64, size: usize) -> io::Result<()> {
    let mut digest = Digest::new();
    work(rt.alloc(), words, job, seed, size, &mut digest)?;
    println!(rt;
        "{job}: {} results, digest {:016x}",
        digest.count(),
        digest.sum()
    )
}

// Does each job of `JOBS`.
fn report_all(rt: &HostRuntime, words: &Words, seed: u64, size: usize) -> io::Result<()> {
    for job in JOBS {
        report(rt, words, job, seed, size)?;
    }
    Ok(())
}

fn main(rt: HostRuntime) -> io::Result<()> {
    let mut args = env::args(&rt)?;
    let _program = args.next();
    match (args.next(), args.next(), args.next()) {
        (Some(job), Some(seed), Some(size)) => {
            let seed = seed.as_str().parse().unwrap_or(0);
            let size = size.as_str().parse().unwrap_or(0);
            let words = Words::new(rt.alloc())?;
            match job.as_str() {
                "all" => report_all(&rt, &words, seed, size),
                "compare" => again_compared::compare(&rt, &words, seed, size),
                job => report(&rt, &words, job, seed, size),
            }
        }
        _ => println!(rt; "{USAGE}"),
    }
}
