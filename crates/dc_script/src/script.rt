//! The words that wires bring while a hub is driven.

ghost use Rattle.std.specs.Prelude.{◌≡◌, ◌<◌, ◌≤◌, All, List, length, slice_index_or, [], map};
ghost use Rattle.dc_script.specs.Script.{ScriptView, IsScript};
ghost use Rattle.dc_script.specs.declared.script.Timed.{Timed};
ghost use Rattle.dc_script.specs.declared.limits.TheConstants.{LONGEST_SCRIPT};

use dc_word::Word;
use std::marker::Model;

/// A word of a wire.
#[derive(Clone, Copy, Debug, PartialEq)]
pub struct Timed {
    /// The tick in which it comes, from 0; in a [`Script`] below its ticks.
    pub tick: u64,
    /// The word.
    pub word: Word,
}

/// The words of one wire. Contracts see the list.
#[derive(Drop)]
pub struct WireWords {
    pub(crate) items: Vec<Timed>,
}

impl Model for WireWords {
    ghost Value = { List Timed };

    ghost view = { λ w. w.items.items };
}

impl WireWords {
    /// These words.
    pub fn new(items: Vec<Timed>) -> WireWords
        ensures { result ≡ items.items }
    {
        WireWords { items }
    }

    /// The words, in order.
    pub fn as_slice(&self) -> &[Timed]
        ensures { result.now ≡ self.now }
    {
        self.items.as_slice()
    }
}

/// What the wires bring: 1 to [`LONGEST_SCRIPT`](crate::LONGEST_SCRIPT) ticks, and for each bus words whose ticks never
/// fall and lie below these.
#[derive(Drop)]
pub struct Script {
    ticks: u64,
    words: Vec<WireWords>,
}

impl Model for Script {
    ghost Value = { ScriptView };

    ghost view = { λ s. record { ticks = s.ticks; words = s.words.items } };

    ghost invariant = { λ s. IsScript (record { ticks = s.ticks; words = s.words.items }) };
}

impl Script {
    /// A script of so many ticks, 1 to [`LONGEST_SCRIPT`](crate::LONGEST_SCRIPT), with the words of each bus, whose
    /// ticks never fall and lie below these.
    pub fn new(ticks: u64, words: Vec<WireWords>) -> Script
        requires { IsScript (record { ticks = ticks; words = words.items }) }
        ensures { result ≡ record { ticks = ticks; words = words.items } }
    {
        Script { ticks, words }
    }

    /// How many ticks it is long, 1 to [`LONGEST_SCRIPT`](crate::LONGEST_SCRIPT).
    pub fn ticks(&self) -> u64
        ensures value { result ≡ self.now.ticks }
        ensures range { (1 ≤ result) × (result ≤ LONGEST_SCRIPT) }
    {
        self.ticks
    }

    /// For how many buses it has words.
    pub fn bus_count(&self) -> usize
        ensures { result ≡ length self.now.words }
    {
        self.words.len()
    }

    /// The words of the bus of this number, from 0, in order.
    pub fn words(&self, bus: usize) -> &[Timed]
        requires { bus < length self.now.words }
        ensures { result.now ≡ slice_index_or self.now.words bus [] }
    {
        self.words[bus].as_slice()
    }

    /// Every script is 1 to [`LONGEST_SCRIPT`](crate::LONGEST_SCRIPT) ticks long, and the ticks of a bus's words never
    /// fall and lie below. The call does nothing.
    pub fn holds(&self)
        ensures { IsScript self.now }
    {
        let _ = &self.words;
    }
}
