//! How far a command has read, shown while it reads.
use std::cell::Cell;
use std::rt::Clock;
use std::time::Duration;

/// How long a command reads before it is shown how far it is, and how long each line of that stands, in milliseconds.
const SHOWN_EACH: u64 = 1_000;

/// How many bytes a megabyte has.
const MEGABYTE: u64 = 1_000_000;

/// How much was read.
#[derive(Clone, Copy, Debug)]
struct Reach {
    bytes: u64,
    lines: u64,
}

/// How much was read when.
#[derive(Clone, Copy, Debug)]
struct Mark {
    at: Duration,
    reach: Reach,
}

/// How far a command has read. Where that is wanted, it is shown on standard error: one line, written over each second.
#[derive(Drop)]
pub struct Progress {
    shown_from: Cell<Option<u64>>,
    is_shared: Cell<bool>,
    is_shown: Cell<bool>,
    reach: Cell<Reach>,
    last: Cell<Option<Mark>>,
}

/// How many line feeds there are among bytes.
fn feeds_in(bytes: &[u8]) -> u64 {
    let mut feeds: u64 = 0;
    for byte in bytes {
        feeds = feeds.wrapping_add(u64::from(*byte == b'\n'));
    }
    feeds
}

/// How much was read a second, where so much was read in so many milliseconds.
fn rate(amount: u64, millis: u64) -> u64 {
    amount.saturating_mul(1_000) / millis.max(1)
}

/// The milliseconds from one time to another.
fn millis_from(earlier: Duration, later: Duration) -> u64 {
    let passed = later.saturating_sub(earlier);
    let seconds = passed.as_secs().saturating_mul(1_000);
    seconds.saturating_add(u64::from(passed.subsec_millis()))
}

impl Reach {
    /// How much was read, with these bytes.
    fn after(self, given: &[u8]) -> Self {
        Reach {
            bytes: self.bytes.saturating_add(given.len() as u64),
            lines: self.lines.saturating_add(feeds_in(given)),
        }
    }
}

impl Progress {
    /// Nothing was read, and nothing is to be shown.
    pub fn new() -> Self {
        Progress {
            shown_from: Cell::new(None),
            is_shared: Cell::new(false),
            is_shown: Cell::new(false),
            reach: Cell::new(Reach { bytes: 0, lines: 0 }),
            last: Cell::new(None),
        }
    }

    /// It is to be shown, once so many bytes were read.
    pub fn want(&self, from: u64) {
        self.shown_from.set(Some(from));
    }

    /// What is written stands where it is shown.
    pub fn share(&self) {
        self.is_shared.set(true);
    }

    /// Whether what is written stands where it is shown.
    pub fn is_shared(&self) -> bool {
        self.is_shared.get()
    }

    /// Goes on by bytes that were read, and shows it where a second has passed.
    pub fn pass<H: Eprint + Clock>(&self, runtime: &H, given: &[u8]) {
        let Some(from) = self.shown_from.get() else {
            return;
        };
        let before = self.reach.get();
        let reach = before.after(given);
        self.reach.set(reach);
        let Ok(now) = runtime.monotonic() else {
            return;
        };
        let Some(last) = self.last.get() else {
            self.last.set(Some(Mark {
                at: now,
                reach: before,
            }));
            return;
        };
        if reach.bytes >= from && millis_from(last.at, now) >= SHOWN_EACH {
            self.show(runtime, last, now);
        }
    }

    /// Shows it, and how much was read a second since it was shown last.
    fn show<H: Eprint>(&self, runtime: &H, last: Mark, now: Duration) {
        let reach = self.reach.get();
        let millis = millis_from(last.at, now);
        let lines = reach.lines;
        let megabytes = reach.bytes / MEGABYTE;
        let more_lines = rate(reach.lines.saturating_sub(last.reach.lines), millis);
        let more_bytes = rate(reach.bytes.saturating_sub(last.reach.bytes), millis) / MEGABYTE;
        let _ = eprint!(runtime;
            "\r{lines} lines, {megabytes} MB, {more_lines} lines/s, {more_bytes} MB/s\x1b[K"
        );
        self.is_shown.set(true);
        self.last.set(Some(Mark { at: now, reach }));
    }

    /// Wipes the line that is shown, before anything else is written there.
    pub fn wipe<H: Eprint>(&self, runtime: &H) {
        if self.is_shown.get() {
            let _ = eprint!(runtime; "\r\x1b[K");
            self.is_shown.set(false);
        }
    }

    /// Wipes it where what is written stands there too.
    pub fn make_way<H: Eprint>(&self, runtime: &H) {
        if self.is_shared.get() {
            self.wipe(runtime);
        }
    }
}
