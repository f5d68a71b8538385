//! Work repeated for timing by hand: `benchmarks WORK ROUNDS`, over standard input.
//!
//! | WORK | standard input | what is done in each round |
//! |---|---|---|
//! | `decode` | one CBOR item | it is decoded |
//! | `encode` | one CBOR item | it is encoded |
//! | `verify` | an HSS public key, a length as four bytes, a message of it, a signature | it is verified |
//! | `cases` | for each round, a length as four bytes and what `verify` takes | the next one is verified |
//! | `hash` | bytes | their SHA-256 digest |
//! | `chain` | none | the 255 steps of one hash chain of LM-OTS at width 8 |
//! | `append` | none | a body of 100 bytes is put at the end of a journal over a board in memory |
//! | `grow` | none | the two trees of a key of two levels, height 10 and width 4, are grown by one worker |
//! | `grow_by_four` | none | the same by four workers |
//! | `sign_one` | none | a key of one level, height 5 and width 8, signs at the next leaf |
//! | `sign_two` | none | a key of two levels, height 10 and width 4, signs at the next leaf of its first lower tree |
//! | `sign_below` | none | that key signs at the first leaf of the next lower tree |
//! | `read_envelope` | none | an envelope with an attached payload of 1 MiB is read |
//! | `hold_digest` | none | the digest of that envelope's manifest, of 17 bytes, is looked at |
//! | `read_sequence` | none | a sequence of 10,000 commands is read, one of four of which sets a size and a URI |
//! | `write_sequence` | none | that sequence is written |
//!
//! It prints in how many rounds the work was done with a good answer. `benchmarks vectors LEAF` prints what
//! keys of each kind sign, with the seed of 32 bytes and the message of standard input. Other words print
//! nothing and end with status 2.
#![tactic(auto)]

mod append;
mod keys;
mod manifests;
mod vectors;
mod work;

use std::env;
use std::io::{self, Input, Read};
use std::process::ExitCode;
use std::rt::Env;
use vectors::print_vectors;
use work::Work;

const USAGE: u8 = 2;

fn words<R: Env + AllocGlobal>(rt: &R) -> io::Result<Vec<String>> {
    let mut words = Vec::new(rt.alloc());
    for word in env::args(rt)?.skip(1) {
        words.push(word)?;
    }
    Ok(words)
}

fn input<R: Input + AllocGlobal>(rt: &R) -> io::Result<Vec<u8>> {
    let mut bytes = Vec::new(rt.alloc());
    rt.reader().read_to_end(&mut bytes)?;
    Ok(bytes)
}

/// What the words ask for.
#[derive(Clone, Copy, Debug)]
enum Asked {
    Vectors { leaf: u64 },
    Rounds { work: Work, rounds: u64 },
}

fn parsed(words: &[String]) -> Option<Asked> {
    let [name, number] = words else {
        return None;
    };
    let number = number.as_str().parse().ok()?;
    if name.as_str() == "vectors" {
        return Some(Asked::Vectors { leaf: number });
    }
    let work = Work::named(name.as_str())?;
    Some(Asked::Rounds {
        work,
        rounds: number,
    })
}

fn main(rt: HostRuntime) -> io::Result<ExitCode> {
    let words = words(&rt)?;
    let Some(asked) = parsed(&words) else {
        return Ok(ExitCode::from(USAGE));
    };
    let bytes = input(&rt)?;
    match asked {
        Asked::Vectors { leaf } => print_vectors(&rt, &bytes, leaf)?,
        Asked::Rounds { work, rounds } => {
            let good = work.done(&rt, &bytes, rounds);
            println!(rt; "{good} of {rounds}")?;
        }
    }
    Ok(ExitCode::SUCCESS)
}
