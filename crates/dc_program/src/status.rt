//! What a command line ends with that asks nothing.
ghost use Rattle.std.specs.Prelude.{◌≡◌};
ghost use Rattle.clap.specs.Values.{kind_of};
ghost use Rattle.dc_program.specs.Status.{exit_by};

use clap::error::ErrorKind;
use dc_answer::Exit;

/// The exit of a command line that asks nothing, by clap's answer: `Done` where help or the version was asked for,
/// `Failed` where memory was refused, else `Unreadable`.
pub fn unasked(error: &clap::Error) -> Exit
    ensures { result ≡ exit_by (kind_of error.now) }
{
    match error.kind() {
        ErrorKind::DisplayHelp | ErrorKind::DisplayVersion => Exit::Done,
        ErrorKind::OutOfMemory => Exit::Failed,
        _ => Exit::Unreadable,
    }
}
