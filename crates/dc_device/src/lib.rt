//! Devices: where bytes come from and go to, and the lines read from and written to them through fixed buffers.
#![tactic(auto)]

mod device;
mod memory;
mod pen;
mod reader;
mod whole;
mod wrappers;
mod writer;

pub use device::{Broken, Sink, Source};
pub use memory::{MemSink, MemSource};
pub use pen::Pen;
pub use reader::{BLOCK, LINE_LIMIT, Line, LineEnd, LineReader};
pub use whole::{Unread, read_at_most};
pub use wrappers::{Nowhere, ReadSource, WriteSink};
pub use writer::LineWriter;
