//! The engines over texts in memory, and a digest of what they write.
ghost use Rattle.std.specs.Prelude.{◌≡◌, None, true};

use crate::text::Text;
use dc_answer::Exit;
use dc_device::{Broken, MemSource, Sink};
use dc_run::{run_check, run_find, run_replay};
use dc_run_audit::run_audit;
use dc_run_design::{Plan, run_design};
use dc_run_margins::{InTime, run_margins};
use dc_run_observe::run_observe;
use dc_run_report::run_report;
use dc_run_survey::run_survey;
use dc_run_trace::run_trace;
use std::alloc::Global;

/// How many bytes a source gives at a time.
const PIECE: usize = 65536;

/// What an engine writes.
#[derive(Drop)]
struct Kept {
    bytes: Vec<u8>,
    failures: u64,
    has_failed: bool,
    is_hidden: bool,
}

impl Kept {
    /// Nothing is written yet.
    fn new(alloc: Global) -> Kept
        ensures { result.failures ≡ 0 }
    {
        Kept {
            bytes: Vec::new(alloc),
            failures: 0,
            has_failed: false,
            is_hidden: false,
        }
    }
}

impl Sink for Kept {
    ghost state = { λ s. record { contents = None; failed = s.failures; last_failed = s.has_failed; hidden = s.is_hidden; answered = None } };

    ghost has_readers = { true };

    fn push(&mut self, bytes: &[u8]) -> Result<usize, Broken> {
        match self.bytes.extend_from_slice(bytes) {
            Ok(()) => {
                self.has_failed = false;
                self.is_hidden = true;
                Ok(bytes.len())
            }
            Err(_) => {
                self.has_failed = true;
                self.failures += 1;
                Err(Broken)
            }
        }
    }

    fn flush(&mut self) -> Result<(), Broken> {
        self.has_failed = false;
        self.is_hidden = false;
        Ok(())
    }

    fn note_ask(&mut self) {}

    fn failures(&self) -> u64 {
        self.failures
    }

    fn hides(&self) -> bool {
        self.is_hidden
    }
}

/// A digest of all that was written, and how it ended.
#[derive(Clone, Copy)]
pub struct Digest(pub u64);

impl Digest {
    /// Takes in a number.
    fn take(&mut self, number: u64) {
        self.0 = (self.0 ^ number)
            .wrapping_mul(0x9E37_79B9_7F4A_7C15)
            .rotate_left(29);
    }

    /// Takes in a text: its bytes, eight at a time, and how many they are.
    fn take_all(&mut self, bytes: &[u8]) {
        for part in 0..bytes.len() / 8 {
            let at = part * 8;
            self.take(u64::from_le_bytes([
                bytes[at],
                bytes[at + 1],
                bytes[at + 2],
                bytes[at + 3],
                bytes[at + 4],
                bytes[at + 5],
                bytes[at + 6],
                bytes[at + 7],
            ]));
        }
        for at in bytes.len() / 8 * 8..bytes.len() {
            self.take(u64::from(bytes[at]));
        }
        self.take(bytes.len() as u64);
    }

    /// Takes in what was written, and the status.
    fn end(&mut self, kept: &Kept, exit: Exit) {
        self.take_all(kept.bytes.as_slice());
        self.take(u64::from(exit.code()));
    }
}

/// The least certificate for tables, as it is printed.
pub fn find(alloc: Global, tables: &Text, digest: &mut Digest) -> Vec<u8> {
    let mut kept = Kept::new(alloc);
    let mut tables = MemSource::new(tables.bytes(), PIECE, 0);
    let exit = run_find(alloc, &mut tables, &mut kept);
    digest.end(&kept, exit);
    kept.bytes
}

/// The verdict on a certificate.
pub fn check(alloc: Global, tables: &Text, certificate: &[u8], digest: &mut Digest) {
    let mut kept = Kept::new(alloc);
    let mut tables = MemSource::new(tables.bytes(), PIECE, 0);
    let mut certificate = MemSource::new(certificate, PIECE, 0);
    let exit = run_check(alloc, &mut tables, &mut certificate, &mut kept);
    digest.end(&kept, exit);
}

/// The margins of a certificate.
pub fn margins(alloc: Global, tables: &Text, certificate: &[u8], digest: &mut Digest) {
    let mut kept = Kept::new(alloc);
    let mut tables = MemSource::new(tables.bytes(), PIECE, 0);
    let mut certificate = MemSource::new(certificate, PIECE, 0);
    let told = InTime {
        microseconds: false,
        drift: None,
    };
    let exit = run_margins(alloc, told, &mut tables, &mut certificate, &mut kept);
    digest.end(&kept, exit);
}

/// The page on a certificate.
pub fn report(alloc: Global, tables: &Text, certificate: &[u8], digest: &mut Digest) {
    let mut kept = Kept::new(alloc);
    let mut tables = MemSource::new(tables.bytes(), PIECE, 0);
    let mut certificate = MemSource::new(certificate, PIECE, 0);
    let exit = run_report(alloc, None, &mut tables, &mut certificate, &mut kept);
    digest.end(&kept, exit);
}

/// The replies to a run, all of them.
pub fn replay(alloc: Global, tables: &Text, trace: &Text, digest: &mut Digest) {
    let mut kept = Kept::new(alloc);
    let mut tables = MemSource::new(tables.bytes(), PIECE, 0);
    let mut trace = MemSource::new(trace.bytes(), PIECE, 0);
    let exit = run_replay(alloc, true, true, &mut tables, &mut trace, &mut kept);
    digest.end(&kept, exit);
}

/// Where a run breaks what was promised.
pub fn audit(alloc: Global, tables: &Text, certificate: &[u8], trace: &Text, digest: &mut Digest) {
    let mut kept = Kept::new(alloc);
    let mut tables = MemSource::new(tables.bytes(), PIECE, 0);
    let mut certificate = MemSource::new(certificate, PIECE, 0);
    let mut trace = MemSource::new(trace.bytes(), PIECE, 0);
    let exit = run_audit(
        alloc,
        true,
        &mut tables,
        &mut certificate,
        &mut trace,
        &mut kept,
    );
    digest.end(&kept, exit);
}

/// How near a run came to its bounds.
pub fn observe(
    alloc: Global,
    tables: &Text,
    certificate: &[u8],
    trace: &Text,
    digest: &mut Digest,
) {
    let mut kept = Kept::new(alloc);
    let mut tables = MemSource::new(tables.bytes(), PIECE, 0);
    let mut certificate = MemSource::new(certificate, PIECE, 0);
    let mut trace = MemSource::new(trace.bytes(), PIECE, 0);
    let exit = run_observe(alloc, &mut tables, &mut certificate, &mut trace, &mut kept);
    digest.end(&kept, exit);
}

/// What a recording kept.
pub fn survey(alloc: Global, tables: &Text, capture: &Text, digest: &mut Digest) {
    let mut kept = Kept::new(alloc);
    let mut tables = MemSource::new(tables.bytes(), PIECE, 0);
    let mut capture = MemSource::new(capture.bytes(), PIECE, 0);
    let exit = run_survey(alloc, &mut tables, &mut capture, &mut kept);
    digest.end(&kept, exit);
}

/// A recording as a run.
pub fn trace(alloc: Global, tables: &Text, capture: &Text, digest: &mut Digest) {
    let mut kept = Kept::new(alloc);
    let mut tables = MemSource::new(tables.bytes(), PIECE, 0);
    let mut capture = MemSource::new(capture.bytes(), PIECE, 0);
    let exit = run_trace(alloc, None, &mut tables, &mut capture, &mut kept);
    digest.end(&kept, exit);
}

/// The tables that are designed for two sheets, and their certificate.
pub fn design(alloc: Global, inputs: &Text, outputs: &Text, digest: &mut Digest) {
    let mut kept = Kept::new(alloc);
    let mut certificate = Vec::new(alloc);
    let mut inputs = MemSource::new(inputs.bytes(), PIECE, 0);
    let mut outputs = MemSource::new(outputs.bytes(), PIECE, 0);
    let plan = Plan {
        tick: None,
        headroom: None,
        police: false,
    };
    let exit = run_design(
        alloc,
        plan,
        &mut inputs,
        &mut outputs,
        &mut kept,
        &mut certificate,
    );
    digest.end(&kept, exit);
    digest.take_all(certificate.as_slice());
}
