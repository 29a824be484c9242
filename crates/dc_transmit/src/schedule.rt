//! The transmit schedule of an output.

ghost use Rattle.std.specs.Prelude.{◌≡◌, ℕ, ◌+◌, ◌<◌, ◌≤◌, ◌^◌, length, slice_index_or};
ghost use Rattle.dc_tables.specs.TableRows.{TableRows, output_row};
ghost use Rattle.dc_transmit.specs.Gaps.{first_off, least_gap, greatest_gap};
ghost use Rattle.dc_transmit.specs.Schedule.{ScheduleData, schedule_of, label_at, due_at, due_count, least_label_gap, greatest_label_gap, off, is_of_label};
ghost use Rattle.dc_transmit.specs.declared.limits.TheConstants.{LAST_TICK, MOST_SENT};

use dc_tables::{Entry, Tables};
use std::marker::Model;

/// The transmit schedule of an output: its frame, which comes again and again, and the entries of the frame, which the
/// tables hold in order of offset.
#[derive(Drop)]
pub struct Schedule<'a> {
    entries: &'a [Entry],
    frame: u32,
}

impl<'a> Model for Schedule<'a> {
    ghost use Rattle.dc_transmit.specs.Schedule.{ScheduleData, IsSchedule};

    ghost Value = { ScheduleData };

    ghost view = { λ s. record { frame = s.frame; entries = s.entries.now } };

    ghost invariant = { λ s. IsSchedule s.frame s.entries.now };
}

impl<'a> Schedule<'a> {
    /// The schedule of the output of this number.
    pub fn of(tables: &'a Tables, output: usize) -> Schedule<'a>
        requires { output < length tables.now.outputs }
        ensures { result ≡ schedule_of tables.now output }
    {
        tables.valid();
        let row = tables.output(output);
        Schedule {
            entries: row.entries.as_slice(),
            frame: row.frame,
        }
    }

    /// How many entries are due at the tick, at most [`LAST_TICK`](crate::LAST_TICK), or before it.
    pub fn due_by(&self, tick: u64) -> u64
        requires { tick ≤ LAST_TICK }
        ensures due { result ≡ due_count self.now tick }
        ensures few { result ≤ tick + 1 }
    {
        let frame = u64::from(self.frame);
        let rest = tick % frame;
        let in_frame = self
            .entries
            .partition_point(|entry| entry.offset as u64 <= rest);
        tick / frame * self.entries.len() as u64 + in_frame as u64
    }

    /// The label of entry number `sent`, 0 to [`MOST_SENT`](crate::MOST_SENT), which is the oldest unsent one, and the
    /// tick in which it is due.
    pub fn next(&self, sent: u64) -> (usize, u64)
        requires { sent ≤ MOST_SENT }
        ensures label { result.0 ≡ label_at self.now sent }
        ensures due { result.1 ≡ due_at self.now sent }
    {
        let len = self.entries.len() as u64;
        let entry = self.entries[(sent % len) as usize];
        (
            entry.label,
            sent / len * u64::from(self.frame) + u64::from(entry.offset),
        )
    }

    /// The least gap between neighbouring entries of the label, round the frame: the frame where it has one entry, or
    /// none.
    pub fn min_gap(&self, label: usize) -> u64
        ensures { result ≡ least_label_gap self.now label }
    {
        gaps(self.frame, self.entries, label).0
    }

    /// The greatest gap between neighbouring entries of the label, round the frame: the frame where it has one entry, 0
    /// where it has none.
    pub fn max_gap(&self, label: usize) -> u64
        ensures { result ≡ greatest_label_gap self.now label }
    {
        gaps(self.frame, self.entries, label).1
    }
}

/// The offset of the label's first entry, 0 where it has none.
fn first_offset(entries: &[Entry], label: usize) -> u32
    ensures { result ≡ first_off off (is_of_label label) entries.now 0 }
{
    for entry in entries {
        if entry.label == label {
            return entry.offset;
        }
    }
    0
}

/// The least and the greatest gap between the label's entries, by one pass from the last entry to the first.
fn gaps(frame: u32, entries: &[Entry], label: usize) -> (u64, u64)
    ensures least { result.0 ≡ least_gap off (is_of_label label) frame entries.now }
    ensures greatest { result.1 ≡ greatest_gap off (is_of_label label) frame entries.now }
{
    let mut next = u64::from(frame) + u64::from(first_offset(entries, label));
    let mut least = u64::from(frame);
    let mut greatest: u64 = 0;
    for k in 0..entries.len() {
        let entry = entries[entries.len() - 1 - k];
        if entry.label == label {
            let gap = next.saturating_sub(u64::from(entry.offset));
            least = least.min(gap);
            greatest = greatest.max(gap);
            next = u64::from(entry.offset);
        }
    }
    (least, greatest)
}
