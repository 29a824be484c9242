//! The benchmark's program: it does a job that a user waits for on so many drawn documents, and prints a digest of all
//! that the engines wrote. Its words: JOB SEED DOCUMENTS, or `all` with a seed, for each job on one document.
#![tactic(auto)]

mod engines;
mod jobs;
mod runs;
mod shape;
mod sheets;
mod tables;
mod text;

use crate::engines::Digest;
use crate::jobs::Job;
use std::alloc::Global;
use std::rt::Runtime;
use std::{env, io};

const JOBS: [&str; 6] = ["certify", "frames", "runs", "captures", "tables", "designs"];

// A word of the command line as a number; 0 where it is none.
fn number_of(words: &[String], place: usize) -> u64 {
    match words.get(place) {
        None => 0,
        Some(word) => word.as_str().parse::<u64>().unwrap_or(0),
    }
}

// The digest of a job on so many documents.
fn digest_of(alloc: Global, job: Job, seed: u64, documents: u64) -> u64 {
    let mut digest = Digest(seed);
    for number in 0..documents {
        job.carry_out(alloc, seed, number, &mut digest);
    }
    digest.0
}

// Does a job, and prints its digest.
fn tell(rt: &impl Runtime, alloc: Global, word: &str, seed: u64, documents: u64) -> io::Result<()> {
    if let Some(job) = Job::named(word) {
        let digest = digest_of(alloc, job, seed, documents);
        println!(rt; "{word} {documents} digest {digest:016x}")?;
    }
    Ok(())
}

fn main(rt: HostRuntime) -> io::Result<()> {
    let words: Vec<String> = env::args(&rt)?.collect(rt.alloc())?;
    let words = words.as_slice();
    let seed = number_of(words, 2);
    match words.get(1) {
        None => Ok(()),
        Some(word) if word.as_str() == "all" => {
            for job in JOBS {
                tell(&rt, rt.alloc(), job, seed, 1)?;
            }
            Ok(())
        }
        Some(word) => tell(&rt, rt.alloc(), word.as_str(), seed, number_of(words, 3)),
    }
}
