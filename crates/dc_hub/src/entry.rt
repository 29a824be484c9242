//! The entries of a book, and receipts.

ghost use Rattle.std.specs.Prelude.{◌≡◌, ◌≢◌, true, false};
ghost use Rattle.dc_hub.specs.Closing.{receipt_at};
ghost use Rattle.dc_hub.specs.Entries.{entry};

use dc_event::{Event, Reply};

/// What the book keeps of a call.
#[derive(Clone, Copy, Debug, PartialEq)]
pub struct Entry {
    /// The event that was applied.
    pub event: Event,
    /// The reply that it was answered.
    pub reply: Reply,
}

/// What a call is answered.
#[derive(Clone, Copy, Debug, PartialEq)]
pub struct Receipt {
    /// The place of its entry in the book, from 1.
    pub index: u64,
    /// The event that was applied.
    pub event: Event,
    /// The reply that it was answered.
    pub reply: Reply,
}

impl Receipt {
    /// What the book keeps of the call.
    pub fn entry(&self) -> Entry
        ensures { result ≡ entry self.now.event self.now.reply }
    {
        Entry {
            event: self.event,
            reply: self.reply,
        }
    }

    /// Whether it is the receipt of this entry at this place, from 1.
    pub fn is_of(&self, index: u64, entry: &Entry) -> bool
        ensures yes { result ≡ true → self.now ≡ receipt_at index entry.now }
        ensures no { result ≡ false → self.now ≢ receipt_at index entry.now }
    {
        self.index == index && self.event == entry.event && self.reply == entry.reply
    }
}
