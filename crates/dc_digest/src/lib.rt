//! The engine of `check --digest`: the verdict on a certificate, and behind it the digests of both texts.
#![tactic(auto)]

mod check;
mod digests;
mod hashed;
mod stages;
mod texts;

pub use check::{CHECK_DIGEST, digest_workers_engine, run_check_digest, run_check_par_digest};
pub use hashed::{Hashed, Hashing};
pub use stages::{DigestCertificate, DigestTables};
pub use texts::read_text;
