//! How far a text was gone through.

/// How far a text was gone through: its lines, and those of them that are a Tick of a trace.
#[derive(Clone, Copy, Debug)]
pub struct Passed {
    /// How many lines have ended.
    pub lines: u64,
    /// How many of them are `T` alone.
    pub ticks: u64,
    /// Whether the next byte begins a line.
    is_at_start: bool,
    /// Whether the line is `T` so far.
    is_tick: bool,
}

impl Passed {
    /// The beginning of a text.
    pub fn new() -> Self {
        Passed {
            lines: 0,
            ticks: 0,
            is_at_start: true,
            is_tick: false,
        }
    }

    /// Goes on by one byte.
    pub fn pass(&mut self, byte: u8) {
        if byte == b'\n' {
            self.lines = self.lines.saturating_add(1);
            self.ticks = self.ticks.saturating_add(u64::from(self.is_tick));
            self.is_at_start = true;
            self.is_tick = false;
            return;
        }
        self.is_tick = self.is_at_start && byte == b'T';
        self.is_at_start = false;
    }
}
