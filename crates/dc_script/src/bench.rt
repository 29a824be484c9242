//! The script of a bench: on each bus as many words as its streams and its wire let come.

ghost use Rattle.std.specs.Prelude.{◌≡◌, ℕ, ◌+◌, ◌<◌, ◌≤◌, IfOk, OnOk, Option, List, length};
ghost use Rattle.dc_script.specs.Script.{Writing as WritingView, bench_script, comes, good_ssm, is_rested, sdi_or_zero, turn, turns, unwritten, word_of, written};
ghost use Rattle.dc_tables.specs.TableRows.{bus_row, stream_row};
ghost use Rattle.dc_script.specs.declared.limits.TheConstants.{LONGEST_SCRIPT};

use crate::limits::DATA_VALUES;
use crate::script::{Script, Timed, WireWords};
use dc_tables::Tables;
use dc_word::{Format, Sdi, Word};
use std::alloc::{AllocError, Global};
use std::marker::Model;

/// While the words of a bus are written.
#[derive(Drop)]
struct Writing {
    free_us: u64,
    lasts: Vec<Option<u64>>,
    words: Vec<Timed>,
}

impl Model for Writing {
    ghost Value = { WritingView };

    ghost view = { λ w. record { free_us = w.free_us; lasts = w.lasts.items; words = w.words.items } };
}

/// The SSM of data that are good: 11 for BNR, 00 else.
fn good_ssm(format: Format) -> u32
    ensures value { result ≡ good_ssm format }
    ensures range { result < 4 }
{
    match format {
        Format::Bnr => 3,
        _ => 0,
    }
}

/// The declared SDI, or 0 for any.
fn sdi_of(declared: Option<Sdi>) -> Sdi
    ensures { result ≡ sdi_or_zero declared }
{
    if let Some(sdi) = declared {
        return sdi;
    }
    match Sdi::new(0) {
        Some(zero) => zero,
        None => unreachable!(),
    }
}

/// The word of a stream in a tick.
fn word_of(tables: &Tables, stream: usize, tick: u64) -> Word
    requires { stream < length tables.now.streams }
    ensures { result ≡ word_of tables.now stream tick }
{
    let row = tables.stream(stream);
    let data = (tick % DATA_VALUES) as u32;
    Word::compose(row.label, sdi_of(row.sdi), data, good_ssm(row.format))
}

/// Whether a stream's last word is at least its minimum back, or it had none.
fn is_rested(minimum: u32, tick: u64, last: Option<u64>) -> bool
    ensures { result ≡ is_rested minimum tick last }
{
    match last {
        None => true,
        Some(last) => u64::from(minimum) <= tick.saturating_sub(last),
    }
}

impl Writing {
    /// Nothing is written, for a bus of so many streams.
    fn new(alloc: Global, streams: usize) -> Result<Writing, AllocError>
        ensures { IfOk result (λ w. w ≡ unwritten streams) }
    {
        Ok(Writing {
            free_us: 0,
            lasts: vec![in alloc; None; streams]?,
            words: Vec::new(alloc),
        })
    }

    /// The turn of the bus's stream k in this tick.
    fn turn(&mut self, tables: &Tables, bus: usize, tick: u64, k: usize) -> Result<(), AllocError>
        requires bus { bus < length tables.now.buses }
        requires tick { tick < LONGEST_SCRIPT }
        requires k { k < (bus_row tables.now bus).streams }
        requires lasts { length self.old.lasts ≡ (bus_row tables.now bus).streams }
        ensures turn { OnOk result (self.new ≡ turn tables.now bus tick k self.old) }
        ensures lasts { length self.new.lasts ≡ length self.old.lasts }
    {
        tables.valid();
        let row = tables.bus(bus);
        let stream = row.first + k;
        if !is_rested(tables.stream(stream).minimum, tick, self.lasts[k]) {
            return Ok(());
        }
        let tick_us = u64::from(tables.tick_us());
        let time_us = (tick * tick_us).max(self.free_us);
        if time_us >= (tick + 1) * tick_us {
            return Ok(());
        }
        self.words.push(Timed {
            tick,
            word: word_of(tables, stream, tick),
        })?;
        self.free_us = time_us + u64::from(row.spacing);
        self.lasts[k] = Some(tick);
        Ok(())
    }

    /// The turns of all streams of the bus in this tick.
    fn write_tick(&mut self, tables: &Tables, bus: usize, tick: u64) -> Result<(), AllocError>
        requires bus { bus < length tables.now.buses }
        requires tick { tick < LONGEST_SCRIPT }
        requires lasts { length self.old.lasts ≡ (bus_row tables.now bus).streams }
        ensures turns { OnOk result (self.new ≡ turns tables.now bus tick (bus_row tables.now bus).streams self.old) }
        ensures lasts { length self.new.lasts ≡ length self.old.lasts }
    {
        for k in 0..tables.bus(bus).streams {
            self.turn(tables, bus, tick, k)?;
        }
        Ok(())
    }
}

/// The words of a bus in so many ticks.
fn words_of(alloc: Global, tables: &Tables, bus: usize, ticks: u64) -> Result<WireWords, AllocError>
    requires bus { bus < length tables.now.buses }
    requires ticks { ticks ≤ LONGEST_SCRIPT }
    ensures { IfOk result (λ words. words ≡ (written tables.now bus ticks).words) }
{
    let mut writing = Writing::new(alloc, tables.bus(bus).streams)?;
    for tick in 0..ticks {
        writing.write_tick(tables, bus, tick)?;
    }
    let Writing {
        free_us: _,
        lasts: _,
        words,
    } = writing;
    Ok(WireWords::new(words))
}

impl Script {
    /// The script of a bench of so many ticks, 1 to [`LONGEST_SCRIPT`](crate::LONGEST_SCRIPT). On each bus words have
    /// times in microseconds, and the first possible time is 0; each word moves it the input spacing on from its own
    /// time. In each tick, for each stream in order whose last word is at least its minimum back or that had none, a
    /// word comes at the greater of the tick's beginning and the possible time, if that lies before the tick's end.
    /// This is the project's own choice.
    ///
    /// # Errors
    /// Out of memory.
    #[tactic(auto, unfolding(crate::specs::Script::bench_script))]
    pub fn bench(alloc: Global, tables: &Tables, ticks: u64) -> Result<Script, AllocError>
        requires { (1 ≤ ticks) × (ticks ≤ LONGEST_SCRIPT) }
        ensures { IfOk result (λ s. s ≡ bench_script tables.now ticks) }
    {
        let mut words = Vec::new(alloc);
        for bus in 0..tables.bus_count() {
            words.push(words_of(alloc, tables, bus, ticks)?)?;
        }
        Ok(Script::new(ticks, words))
    }
}
