//! Work of the upper crates repeated for timing by hand: `benchmarks_upper WORK ROUNDS`.
//!
//! | WORK | what is done in each round |
//! |---|---|
//! | `run_manifest` | an engine is made, and installs an attached payload of 8 MiB, which it matches by its digest |
//! | `fetch_manifest` | an engine is made, waits for that payload, and goes on with it |
//! | `hash_payload` | the SHA-256 digest of that payload |
//! | `small_exchange` | a POST with a body of 100 bytes is written to a connection in memory, and read |
//! | `large_body` | a connection in memory is made, by a copy, and a POST with a body of 16 MiB is read from it |
//! | `mount_half` | a store in memory, which keeps half of the greatest quota, is mounted |
//! | `make_image` | `store.img` and `puts.img` are made in the working directory, for a new device |
//! | `commit_leaf` | the next leaf alone is prepared and committed to the store in `store.img` |
//! | `bare_puts` | what such a commit puts is put into `puts.img`, with as many syncs |
//!
//! It prints in how many rounds the work was done with a good answer. Other words print nothing and end with
//! status 2.
#![tactic(auto)]

mod exchanges;
mod runs;
mod stores;
mod work;

use std::process::ExitCode;
use std::rt::Env;
use std::{env, io};
use work::Work;

const USAGE: u8 = 2;

fn words<R: Env + AllocGlobal>(rt: &R) -> io::Result<Vec<String>> {
    let mut words = Vec::new(rt.alloc());
    for word in env::args(rt)?.skip(1) {
        words.push(word)?;
    }
    Ok(words)
}

fn parsed(words: &[String]) -> Option<(Work, u64)> {
    let [name, number] = words else {
        return None;
    };
    let rounds = number.as_str().parse().ok()?;
    let work = Work::named(name.as_str())?;
    Some((work, rounds))
}

fn main(rt: HostRuntime) -> io::Result<ExitCode> {
    let words = words(&rt)?;
    let Some((work, rounds)) = parsed(&words) else {
        return Ok(ExitCode::from(USAGE));
    };
    let good = work.done(&rt, rounds);
    println!(rt; "{good} of {rounds}")?;
    Ok(ExitCode::SUCCESS)
}
