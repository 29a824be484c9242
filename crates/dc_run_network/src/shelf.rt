//! Files that are opened by their names.
ghost use Rattle.std.specs.Prelude.{◌≡◌, IfOk};
ghost use Rattle.dc_device.specs.States.{IsCountable};
ghost use Rattle.dc_run_network.specs.Members.{Holds};

use dc_answer::Failure;
use dc_device::Source;

/// Files that are opened by their names.
pub trait Shelf {
    /// A file that is read.
    type File: Source + Drop;

    // What they hold.
    ghost holds: { Self → Holds };

    // What opening them leaves as it was.
    ghost keeps: { Self → Self → Type 0 };

    // It is kept where nothing is opened.
    ghost keeps_same: { (s : Self) → keeps s s };

    // It is kept by two that keep it.
    ghost keeps_on: { (r s t : Self) → keeps r s → keeps s t → keeps r t };

    /// Opens the file of this name.
    ///
    /// # Errors
    /// `Memory` where memory was refused, else another.
    fn open_named(&mut self, name: &str) -> Result<Self::File, Failure>
        ensures same { holds self.new ≡ holds self.old }
        ensures keeps { keeps self.old self.new }
        ensures text { IfOk result (λ f. (Self.File.state f).remaining ≡ holds self.old name.now) }
        ensures countable { IfOk result (λ f. IsCountable (Self.File.state f)) };
}
