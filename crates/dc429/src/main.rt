//! `dc429`: an ARINC 429 concentrator that is certified before it flies.
#![tactic(auto)]

mod again;

use crate::again::Readers;
use dc_answer::Exit;
use dc_command::Order;
use dc_device::{ReadSource, WriteSink};
use dc_explain::explain_end;
use dc_keep::{Cleared, Noted, Notes, Watched, Written};
use dc_program::{Disk, Started, run_words, unasked};
use std::alloc::AllocError;
use std::io::IsTerminal;
use std::process::ExitCode;
use std::rt::{Clock, Env, Files};
use std::sync::Wait;
use std::thread::Threads;
use std::{env, fmt, fs, io};

/// What who runs the program sees.
#[derive(Clone, Copy, Debug)]
struct Screen {
    /// Whether standard error stands there.
    has_errors: bool,
    /// Whether what is written does.
    has_output: bool,
}

/// What keeps the program from its work.
#[derive(Debug, Drop)]
enum Failure {
    Memory,
    Device,
}

impl fmt::Display for Failure {
    fn fmt<W: fmt::Write>(&self, f: &mut fmt::Formatter<W>) -> fmt::Result {
        match self {
            Failure::Memory => f.write_str("failed memory"),
            Failure::Device => f.write_str("failed device"),
        }
    }
}

impl From<AllocError> for Failure {
    fn from(_: AllocError) -> Failure {
        Failure::Memory
    }
}

impl From<io::Error> for Failure {
    fn from(error: io::Error) -> Failure {
        if error.kind() == io::ErrorKind::OutOfMemory {
            Failure::Memory
        } else {
            Failure::Device
        }
    }
}

/// The end where the command line can't be had: one that is not UTF-8 is a wrong one.
fn end_unread<R: Eprint>(rt: &R, error: io::Error) -> Result<Exit, Failure> {
    if error.kind() == io::ErrorKind::InvalidData {
        rt.eprintln("error: an argument is not UTF-8")?;
        return Ok(Exit::Unreadable);
    }
    Err(Failure::from(error))
}

/// The end where the command line asks nothing: clap's text is shown, where it has one.
fn end_unasked<R: Print + Eprint>(rt: &R, error: clap::Error) -> Result<Exit, Failure> {
    match unasked(&error) {
        Exit::Failed => Err(Failure::Memory),
        exit => {
            error.print(rt)?;
            Ok(exit)
        }
    }
}

/// Explains on standard error how a run ended, where there is something to say and memory and the device allow it.
fn explain<R: AllocGlobal + Eprint>(rt: &R, order: Order<'_>, exit: Exit, notes: &Notes) {
    if let Ok(Some(text)) = explain_end(rt.alloc(), &Readers, order, exit, notes) {
        let _ = eprint!(rt; "{text}");
    }
}

/// Carries out what words ask, over real files and devices, and keeps notes of it, by which the end is explained where
/// that is asked.
fn carry<
    'a,
    R: AllocGlobal
        + Clock
        + Files<File = fs::File>
        + Input
        + Print
        + Eprint
        + Threads
        + Wait
        + Sync,
>(rt: &'a R, words: &'a [String], notes: &'a Notes, is_seen: bool) -> Result<Exit, clap::Error> {
    let threads = Started(rt);
    let alloc = rt.alloc();
    let mut world = Disk::new(rt, notes, is_seen);
    let progress = &notes.progress;
    let noted = Noted::new(rt.reader(), alloc, &notes.input);
    let written = Written::new(io::writer(rt), alloc, &notes.output);
    let mut input = ReadSource::new(Watched::new(rt, noted, progress));
    let mut sink = WriteSink::new(Cleared::new(rt, written, progress));
    let exit = run_words(alloc, &threads, words, &mut world, &mut input, &mut sink)?;
    progress.wipe(rt);
    if let Some(order) = world.explained() {
        explain(rt, order, exit, notes);
    }
    Ok(exit)
}

/// Reads the command line and carries it out, or shows clap's text; the end is explained where who runs the program sees
/// standard error, or asks for it.
fn run<
    R: AllocGlobal
        + Clock
        + Env
        + Files<File = fs::File>
        + Input
        + Print
        + Eprint
        + Threads
        + Wait
        + Sync,
>(rt: &R, screen: Screen) -> Result<Exit, Failure> {
    let words: Vec<String> = match env::args(rt) {
        Ok(words) => words.collect(rt.alloc())?,
        Err(error) => return end_unread(rt, error),
    };
    let asked = words.as_slice();
    let notes = Notes::new(rt.alloc());
    if screen.has_output {
        notes.progress.share();
    }
    match carry(rt, asked, &notes, screen.has_errors) {
        Ok(exit) => Ok(exit),
        Err(error) => end_unasked(rt, error),
    }
}

fn main(rt: HostRuntime) -> ExitCode {
    let screen = Screen {
        has_errors: rt.stderr().is_terminal(),
        has_output: rt.stdout().is_terminal(),
    };
    match run(&rt, screen) {
        Ok(exit) => ExitCode::from(exit.code()),
        Err(failure) => {
            let _ = rt.println(failure);
            ExitCode::from(Exit::Failed.code())
        }
    }
}
