//! What is kept of an answer until it is written.
ghost use Rattle.std.specs.Prelude.{◌≡◌, ◌∷◌, [], ◌++◌, ◌+◌, IfOk};
ghost use Rattle.dc_device.specs.Bytes.{Writes};
ghost use Rattle.dc_device.specs.Device.{Settles, failures_of};
ghost use Rattle.dc_device.specs.States.{CanFail};

use dc_device::{Broken, LineWriter, Sink};
use dc_print::Text;
use std::alloc::{AllocError, Global};
use std::marker::Model;

/// What is kept of an answer until it is written: a line that takes no memory, and what stands behind it. Contracts see
/// both as one text.
#[derive(Drop)]
pub struct Page {
    line: Text,
    more: Vec<u8>,
}

impl Model for Page {
    ghost use Rattle.std.specs.Prelude.{List, ℕ, ◌++◌};

    ghost Value = { List ℕ };

    ghost view = { λ p. p.line.items ++ p.more.items };
}

impl Page {
    /// An empty page.
    pub fn new(alloc: Global) -> Self
        ensures { result ≡ [] }
    {
        Page {
            line: Text::new(),
            more: Vec::new(alloc),
        }
    }

    /// Makes it this line alone.
    pub fn tell(&mut self, line: Text)
        ensures { self.new ≡ line.items }
    {
        self.line = line;
        self.more.clear();
    }

    /// Makes it these bytes alone.
    ///
    /// # Errors
    /// `AllocError` where memory was refused.
    pub fn keep(&mut self, bytes: &[u8]) -> Result<(), AllocError>
        ensures { IfOk result (λ _. self.new ≡ bytes.now) }
    {
        self.line.clear();
        self.more.clear();
        self.more.extend_from_slice(bytes)
    }

    /// Puts bytes at the end.
    ///
    /// # Errors
    /// `AllocError` where memory was refused.
    pub fn add(&mut self, bytes: &[u8]) -> Result<(), AllocError>
        ensures { IfOk result (λ _. self.new ≡ self.old ++ bytes.now) }
    {
        self.more.extend_from_slice(bytes)
    }

    /// Writes it as the last line, pushes all that waits, and lets everyone see it.
    ///
    /// # Errors
    /// `Broken` where the sink failed: that call is its last.
    pub fn write<K: Sink>(&self, writer: &mut LineWriter, sink: &mut K) -> Result<(), Broken>
        requires { CanFail (K.state sink.old) }
        ensures bytes { Writes (K.state sink.old).contents (K.state sink.new).contents
            (writer.old ++ (self.now ++ 10 ∷ [])) result }
        ensures empty { writer.new ≡ [] }
        ensures count { (K.state sink.new).failed ≡ (K.state sink.old).failed + failures_of result }
        ensures settled { Settles result (K.state sink.new).last_failed (K.state sink.new).hidden }
        ensures answered { (K.state sink.new).answered ≡ (K.state sink.old).answered }
    {
        writer.line_of(sink, self.line.as_slice(), self.more.as_slice())?;
        writer.flush(sink)
    }
}
