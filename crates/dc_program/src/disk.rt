//! The world of real files.
ghost use Rattle.std.specs.Prelude.{◌≡◌, ◌≢◌, [], None, map, option_map};
ghost use Rattle.std.proofs.Common.{◌∙◌, refl};
ghost use Rattle.std.specs.IoError.{error_kind};

use crate::limits::MOST_FILES;
use crate::world::{Crew, NotOpened, World};
use arrayvec::ArrayVec;
use dc_answer::Failure;
use dc_command::{Asked, Order, When};
use dc_device::ReadSource;
use dc_keep::{Noted, Notes, Origin, Slot};
use dc_run_network::Shelf;
use std::fs::{self, File};
use std::io::{self, ErrorKind};
use std::rt::Files;

/// Real files, of which no clause knows what they hold, and standard input in place of one that is named `-`. Notes are
/// kept of what is read of them where it is asked to explain how a run ended.
#[derive(Drop)]
pub struct Disk<'a, R> {
    runtime: &'a R,
    notes: &'a Notes,
    is_seen: bool,
    explained: Option<Order<'a>>,
    opened: ArrayVec<&'a str, MOST_FILES>,
    refused: Option<NotOpened>,
    crew: Option<Crew>,
    saved: Option<Saved<'a>>,
}

/// A file that was to be made.
#[derive(Drop)]
struct Saved<'a> {
    name: &'a str,
    text: Vec<u8>,
}

/// How much is read before it is shown how far a command is that answers what it reads.
const GIGABYTE: u64 = 1_000_000_000;

/// What standard input is called as a file.
const STANDARD_INPUT: &str = "-";

impl<'a, R> Disk<'a, R> {
    /// The world of this runtime, which was asked for nothing yet, with notes of it and whether who runs the program sees
    /// what stands on standard error.
    pub fn new(runtime: &'a R, notes: &'a Notes, is_seen: bool) -> Self
        ensures opened { result.opened.items ≡ [] }
        ensures refused { result.refused ≡ None }
        ensures crew { result.crew ≡ None }
        ensures saved { result.saved ≡ None }
    {
        Disk {
            runtime,
            notes,
            is_seen,
            explained: None,
            opened: ArrayVec::new(),
            refused: None,
            crew: None,
            saved: None,
        }
    }

    /// What was asked, where its end is to be explained.
    pub fn explained(&self) -> Option<Order<'a>> {
        self.explained
    }
}

/// What failed, where a file was not opened.
fn failure_of(why: NotOpened) -> Failure {
    match why {
        NotOpened::Device => Failure::Source,
        NotOpened::Memory => Failure::Memory,
    }
}

/// Why a file was not opened, by the error of the call.
fn reason_of(error: io::Error) -> NotOpened
    ensures memory { error_kind error ≡ ErrorKind.OutOfMemory → result ≡ NotOpened.Memory }
    ensures device { error_kind error ≢ ErrorKind.OutOfMemory → result ≡ NotOpened.Device }
{
    if error.kind() == ErrorKind::OutOfMemory {
        NotOpened::Memory
    } else {
        NotOpened::Device
    }
}

impl<'a, R: Files<File = File> + Input> Disk<'a, R> {
    /// The file of this name, or standard input.
    fn origin(&self, name: &str) -> io::Result<Origin<File, R::Reader>> {
        if name == STANDARD_INPUT {
            return Ok(Origin::Input(self.runtime.reader()));
        }
        let file = fs::open(self.runtime, name)?;
        Ok(Origin::File(file))
    }

    /// Begins to show how far a command is that reads standard input as it comes: one that answers what it reads once it
    /// has read much, unless it is to be long.
    fn show_progress(&self, order: Order<'_>) {
        match order {
            Order::Audit { long: false, .. } => {}
            Order::Decode(_) | Order::Replay { long: false, .. } => {
                self.notes.progress.want(GIGABYTE)
            }
            _ => self.notes.progress.want(0),
        }
    }

    /// The notes of the file that is opened next.
    fn slot(&self) -> &'a Slot {
        match self.opened.len() {
            0 => &self.notes.first,
            1 => &self.notes.second,
            _ => &self.notes.third,
        }
    }
}

impl<'a, R: AllocGlobal + Files<File = File> + Input> Shelf for Disk<'a, R> {
    type File = ReadSource<Noted<'a, Origin<File, R::Reader>>>;

    ghost holds = { λ w name. None };

    ghost keeps = { λ w w'. (w'.opened ≡ w.opened) × (w'.crew ≡ w.crew) × (w'.saved ≡ w.saved) };

    ghost keeps_same = { λ s. (refl, refl, refl) };

    ghost keeps_on = { λ r s t one next. (next.0 ∙ one.0, next.1 ∙ one.1, next.2 ∙ one.2) };

    fn open_named(
        &mut self,
        name: &str,
    ) -> Result<ReadSource<Noted<'a, Origin<File, R::Reader>>>, Failure> {
        let slot = self.notes.next_named();
        match fs::open(self.runtime, name) {
            Ok(file) => {
                let noted = Noted::new(Origin::File(file), self.runtime.alloc(), slot);
                Ok(ReadSource::new(noted))
            }
            Err(error) => {
                slot.blame(error);
                Err(failure_of(reason_of(error)))
            }
        }
    }
}

impl<'a, R: AllocGlobal + Files<File = File> + Input> World<'a> for Disk<'a, R> {
    ghost state = { λ w. record { holds = λ name. None; opened = map (λ name. name.now) w.opened.items; refused = w.refused; crew = w.crew; saved = option_map (λ s. (s.name.now, s.text.items)) w.saved } };

    fn is_shelf(&self) {}

    fn open(
        &mut self,
        name: &'a str,
    ) -> Result<ReadSource<Noted<'a, Origin<File, R::Reader>>>, NotOpened> {
        let slot = self.slot();
        self.opened.push(name);
        match self.origin(name) {
            Ok(origin) => {
                self.refused = None;
                let noted = Noted::new(origin, self.runtime.alloc(), slot);
                Ok(ReadSource::new(noted))
            }
            Err(error) => {
                slot.blame(error);
                let why = reason_of(error);
                self.refused = Some(why);
                Err(why)
            }
        }
    }

    fn save(&mut self, name: &'a str, text: Vec<u8>) -> Result<(), NotOpened> {
        let made = fs::write(self.runtime, name, text.as_slice());
        self.saved = Some(Saved { name, text });
        match made {
            Ok(()) => {
                self.refused = None;
                Ok(())
            }
            Err(error) => {
                self.notes.output.blame(error);
                let why = reason_of(error);
                self.refused = Some(why);
                Err(why)
            }
        }
    }

    fn note(&mut self, asked: Asked<'a>) {
        let is_wanted = match asked.explain {
            When::Always => true,
            When::Never => false,
            When::Auto => self.is_seen,
        };
        if is_wanted {
            self.notes.want(matches!(asked.order, Order::Audit { .. }));
            self.explained = Some(asked.order);
            if self.is_seen {
                self.show_progress(asked.order);
            }
        }
    }

    fn ask_threads(&mut self, crew: Crew) {
        self.crew = Some(crew);
    }
}
