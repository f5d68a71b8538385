use crate::exchanges::{exchanges_small, reads_large};
use crate::runs::{fetches_manifest, hashes_payload, runs_manifest};
use crate::stores::{commits_leaves, makes_files, mounts_half, puts_bare};
use std::alloc::{AllocError, Global};
use std::fs::File;
use std::rt::Files;

/// What is done in each round.
#[derive(Clone, Copy, Debug)]
pub enum Work {
    RunManifest,
    FetchManifest,
    HashPayload,
    SmallExchange,
    LargeBody,
    MountHalf,
    MakeImage,
    CommitLeaf,
    BarePuts,
}

impl Work {
    /// The work of that name.
    pub fn named(name: &str) -> Option<Work> {
        match name {
            "run_manifest" => Some(Work::RunManifest),
            "fetch_manifest" => Some(Work::FetchManifest),
            "hash_payload" => Some(Work::HashPayload),
            "small_exchange" => Some(Work::SmallExchange),
            "large_body" => Some(Work::LargeBody),
            "mount_half" => Some(Work::MountHalf),
            "make_image" => Some(Work::MakeImage),
            "commit_leaf" => Some(Work::CommitLeaf),
            "bare_puts" => Some(Work::BarePuts),
            _ => None,
        }
    }

    /// In how many of the rounds the work had a good answer.
    pub fn done<R: Input + Print + Files<File = File> + AllocGlobal>(
        self,
        rt: &R,
        rounds: u64,
    ) -> u64 {
        let alloc = rt.alloc();
        keep_memory(alloc);
        match self {
            Work::RunManifest => runs_manifest(alloc, rounds),
            Work::FetchManifest => fetches_manifest(alloc, rounds),
            Work::HashPayload => hashes_payload(alloc, rounds),
            Work::SmallExchange => exchanges_small(alloc, rounds),
            Work::LargeBody => reads_large(alloc, rounds),
            Work::MountHalf => mounts_half(alloc, rounds),
            Work::MakeImage => makes_files(rt, alloc, rounds),
            Work::CommitLeaf => commits_leaves(rt, alloc, rounds),
            Work::BarePuts => puts_bare(rt, rounds),
        }
    }
}

// Takes 30 MiB and gives them back, so that what the rounds give back stays with the process. Else glibc
// hands it to the system after each round, and the next round takes a fault for each page that it gets anew.
fn keep_memory(alloc: Global) {
    let _much: Result<Vec<u8>, AllocError> = Vec::with_capacity(alloc, 30 << 20);
}
