//! What is kept of texts.
use crate::passed::Passed;
use crate::progress::Progress;
use std::alloc::{AllocError, Global};
use std::cell::{Cell, RefCell};
use std::io::Error;
use std::mem;

/// How many bytes of a file are kept: more than an engine reads of one.
const MOST_OF_FILE: usize = 4_194_304;

/// How many bytes of the end of a stream are kept at least: more than an engine holds of one.
const MOST_OF_STREAM: usize = 65_536;

/// How many bytes of the end of what was written are kept at least: fifty lines of what stands in the way of a design.
pub(crate) const MOST_OF_OUTPUT: usize = 16_384;

/// The end of a text, in two parts.
#[derive(Drop)]
struct Held {
    earlier: Vec<u8>,
    later: Vec<u8>,
    before: Passed,
    is_cut: bool,
}

/// What is kept of one text while it is read or written, where it is wanted.
#[derive(Drop)]
pub struct Slot {
    is_wanted: Cell<bool>,
    most: Cell<usize>,
    held: RefCell<Held>,
    cause: Cell<Option<Error>>,
}

/// What was kept of one text.
#[derive(Drop)]
pub struct Kept {
    /// The last bytes of it; all of it, where it is short.
    pub text: Vec<u8>,
    /// What stood before these.
    pub before: Passed,
    /// Whether memory was refused for more of it.
    pub is_cut: bool,
    /// Why it could not be opened, read or written, where that is so.
    pub cause: Option<Error>,
}

impl Held {
    /// Holds these bytes too, and of those before at least so many.
    fn take(&mut self, alloc: Global, bytes: &[u8], most: usize) -> Result<(), AllocError> {
        if self.later.len().saturating_add(bytes.len()) > most {
            let earlier = mem::replace(&mut self.earlier, Vec::new(alloc));
            for byte in earlier.as_slice() {
                self.before.pass(*byte);
            }
            self.earlier = mem::replace(&mut self.later, Vec::new(alloc));
        }
        self.later.extend_from_slice(bytes)
    }
}

impl Slot {
    /// A slot that keeps at least so many of the last bytes, once it is wanted.
    fn new(alloc: Global, most: usize) -> Self {
        let held = Held {
            earlier: Vec::new(alloc),
            later: Vec::new(alloc),
            before: Passed::new(),
            is_cut: false,
        };
        Slot {
            is_wanted: Cell::new(false),
            most: Cell::new(most),
            held: RefCell::new(held),
            cause: Cell::new(None),
        }
    }

    /// Begins to keep.
    fn want(&self) {
        self.is_wanted.set(true);
    }

    /// Keeps these bytes, where it is wanted and memory is granted.
    pub fn take(&self, alloc: Global, bytes: &[u8]) {
        if !self.is_wanted.get() {
            return;
        }
        let Ok(mut guard) = self.held.try_borrow_mut() else {
            return;
        };
        let held = &mut *guard;
        if held.is_cut {
            return;
        }
        if held.take(alloc, bytes, self.most.get()).is_err() {
            held.is_cut = true;
        }
    }

    /// Keeps why a call failed.
    pub fn blame(&self, cause: Error) {
        self.cause.set(Some(cause));
    }

    /// Forgets what was kept so far.
    fn forget(&self) {
        self.cause.set(None);
        let Ok(mut guard) = self.held.try_borrow_mut() else {
            return;
        };
        let held = &mut *guard;
        held.earlier.clear();
        held.later.clear();
        held.before = Passed::new();
        held.is_cut = false;
    }

    /// What was kept; nothing of it is kept any more.
    ///
    /// # Errors
    /// Where memory is refused.
    pub fn end(&self, alloc: Global) -> Result<Kept, AllocError> {
        let cause = self.cause.get();
        let Ok(mut guard) = self.held.try_borrow_mut() else {
            return Ok(Kept {
                text: Vec::new(alloc),
                before: Passed::new(),
                is_cut: true,
                cause,
            });
        };
        let held = &mut *guard;
        let mut text = mem::replace(&mut held.earlier, Vec::new(alloc));
        text.extend_from_slice(held.later.as_slice())?;
        Ok(Kept {
            text,
            before: held.before,
            is_cut: held.is_cut,
            cause,
        })
    }
}

/// What is kept of a run: of its files, three at most, in the order in which it opens them, of the last two that a text
/// named and of the first of each pair before, of standard input and of what it writes.
#[derive(Drop)]
pub struct Notes {
    alloc: Global,
    /// The file that is opened first.
    pub first: Slot,
    /// The file that is opened next.
    pub second: Slot,
    /// The file that is opened behind these two.
    pub third: Slot,
    /// Of the last pair of files that a text named, the one that was opened first.
    pub named_first: Slot,
    /// The one that was opened next.
    pub named_second: Slot,
    /// Of the pairs before, the files that were opened first, in their order.
    earlier: RefCell<Vec<Kept>>,
    /// Whether the next file that a text names is the second of a pair.
    is_paired: Cell<bool>,
    /// Whether one was opened.
    is_named: Cell<bool>,
    /// Standard input, where it is read as a stream.
    pub input: Slot,
    /// What is written.
    pub output: Slot,
    /// How far standard input was read, where it is read as a stream.
    pub progress: Progress,
}

impl Notes {
    /// Notes that keep nothing yet.
    pub fn new(alloc: Global) -> Self {
        Notes {
            alloc,
            first: Slot::new(alloc, MOST_OF_FILE),
            second: Slot::new(alloc, MOST_OF_FILE),
            third: Slot::new(alloc, MOST_OF_FILE),
            named_first: Slot::new(alloc, MOST_OF_FILE),
            named_second: Slot::new(alloc, MOST_OF_FILE),
            earlier: RefCell::new(Vec::new(alloc)),
            is_paired: Cell::new(false),
            is_named: Cell::new(false),
            input: Slot::new(alloc, MOST_OF_STREAM),
            output: Slot::new(alloc, MOST_OF_OUTPUT),
            progress: Progress::new(),
        }
    }

    /// Begins to keep: of standard input the end alone, or as much as of a file, where its `events` are judged together.
    pub fn want(&self, events: bool) {
        if events {
            self.input.most.set(MOST_OF_FILE);
        }
        self.first.want();
        self.second.want();
        self.third.want();
        self.named_first.want();
        self.named_second.want();
        self.input.want();
        self.output.want();
    }

    /// Puts the first file of the pair before beside those of earlier ones, where memory is granted.
    fn put_away(&self) {
        let Ok(kept) = self.named_first.end(self.alloc) else {
            return;
        };
        if let Ok(mut earlier) = self.earlier.try_borrow_mut() {
            let _ = earlier.push(kept);
        }
    }

    /// Of the pairs before the last one, the files that were opened first, in their order: fewer where memory was refused.
    /// None of them is kept any more.
    pub fn earlier(&self) -> Vec<Kept> {
        match self.earlier.try_borrow_mut() {
            Ok(mut earlier) => mem::replace(&mut *earlier, Vec::new(self.alloc)),
            Err(_) => Vec::new(self.alloc),
        }
    }

    /// The slot of a file that a text names and that is opened next: they come in pairs, and of the pair before what was
    /// kept of the second is forgotten.
    pub fn next_named(&self) -> &Slot {
        let is_second = self.is_paired.get();
        self.is_paired.set(!is_second);
        if is_second {
            return &self.named_second;
        }
        if self.is_named.get() {
            self.put_away();
        }
        self.is_named.set(true);
        self.named_first.forget();
        self.named_second.forget();
        &self.named_first
    }
}
