//! What the program works in: files, opened or made by their names, and a note of who asked for threads.
ghost use Rattle.std.specs.Prelude.{◌≡◌, ◌∷◌, [], ◌++◌, ◌<◌, length, IfOk, None, Some};
ghost use Rattle.dc_program.specs.World.{IsKept, WorldState, new_source, refusal_of};
ghost use Rattle.dc_program.specs.declared.limits.TheConstants.{MOST_FILES};

use dc_command::Asked;
use dc_run_network::Shelf;

/// Why a file was not opened.
#[derive(Clone, Copy, Debug, PartialEq, Eq)]
pub enum NotOpened {
    /// The call failed.
    Device,
    /// Memory was refused.
    Memory,
}

/// For whom threads are asked.
#[derive(Clone, Copy, Debug, PartialEq, Eq)]
pub enum Crew {
    /// So many workers of a check.
    Workers(u8),
    /// The actors of a bench.
    Actors,
}

/// Files, and a note of for whom threads are asked. The names of files that the command line has live as long as `'a`;
/// those that a text names are opened as of a [`Shelf`].
pub trait World<'a>: Shelf {
    // What is known of it.
    ghost state: { Self → WorldState };

    /// Opens the file of this name.
    ///
    /// # Errors
    /// `Memory` where memory was refused, else `Device`.
    fn open(&mut self, name: &'a str) -> Result<Self::File, NotOpened>
        requires { length (state self.old).opened < MOST_FILES }
        ensures world { state self.new ≡ record (state self.old) { opened = (state self.old).opened ++ name.now ∷ []; refused = refusal_of result } }
        ensures file { IfOk result (λ f. Self.File.state f ≡ new_source ((state self.old).holds name.now)) };

    /// Makes the file of this name, over what stands there, with this text.
    ///
    /// # Errors
    /// `Memory` where memory was refused, else `Device`. Of what stands there then no clause says anything.
    fn save(&mut self, name: &'a str, text: Vec<u8>) -> Result<(), NotOpened>
        requires { (state self.old).saved ≡ None }
        ensures { state self.new ≡ record (state self.old) { saved = Some (name.now, text.items); refused = refusal_of result } };

    /// Notes what is asked of the program, for who explains how it ended.
    fn note(&mut self, asked: Asked<'a>)
        ensures { state self.new ≡ state self.old };

    /// Notes that threads are asked for these.
    fn ask_threads(&mut self, crew: Crew)
        ensures { state self.new ≡ record (state self.old) { crew = Some crew } };

    /// The files of the shelf hold what its own do, and opening them leaves all but why one was not opened. The call does
    /// nothing.
    fn is_shelf(&self)
        ensures held { Self.holds self.now ≡ (state self.now).holds }
        ensures stays { (w w' : Self) → Self.keeps w w' → IsKept (state w) (state w') };
}
