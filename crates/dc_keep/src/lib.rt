//! What a run read and wrote last is kept beside it, for who explains afterwards what ended it: readers and writers that
//! do what those do which they stand for.
#![tactic(auto)]

mod notes;
mod origin;
mod passed;
mod progress;
mod reader;
mod watched;
mod writer;

pub use notes::{Kept, Notes, Slot};
pub use origin::Origin;
pub use passed::Passed;
pub use progress::Progress;
pub use reader::Noted;
pub use watched::{Cleared, Watched};
pub use writer::Written;
