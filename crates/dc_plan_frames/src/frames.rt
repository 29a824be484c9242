//! Frames in which the least numbers of entries have room.
use crate::counts::{ENTRIES, LABEL_ENTRIES, Loads, fits};
use crate::windows::{Group, Spacing, Windows};
use dc_bound::LONGEST_FRAME;
use dc_plan_ticks::{part, up};
use std::alloc::AllocError;

/// The longest frame, in ticks.
pub(crate) const LONGEST: u64 = LONGEST_FRAME as u64;

/// So many words, in billionths of one.
pub(crate) const WORD: u64 = 1_000_000_000;

/// What a frame is for labels with whole numbers of entries.
#[derive(Clone, Copy)]
enum Fit {
    /// All have some; at least so many together.
    Whole(u64),
    /// A label has none, nor in a frame shorter than this one.
    From(u64),
    /// A label has too many or all together have, also in any longer frame.
    Never,
}

/// What a frame is for labels with these windows.
fn fit_of(frame: u64, groups: &[Group]) -> Fit {
    let mut entries = 0u64;
    for group in groups {
        let count = up(frame, group.window.high);
        if count > LABEL_ENTRIES {
            return Fit::Never;
        }
        let shortest = count.saturating_mul(group.window.low);
        if shortest > frame {
            return Fit::From(shortest);
        }
        entries = entries.saturating_add(count.saturating_mul(group.labels));
    }
    if entries > ENTRIES {
        Fit::Never
    } else {
        Fit::Whole(entries)
    }
}

/// Whether labels with these windows want more sends than there are, or more of the wire than so many percent, in a frame of
/// any length.
fn is_flooded(groups: &[Group], spacing: &Spacing, most: u64) -> bool {
    let mut words = 0u64;
    for group in groups {
        let own = part(WORD, group.window.high).saturating_mul(group.labels);
        words = words.saturating_add(own);
    }
    let ticks = WORD.saturating_mul(spacing.unit);
    let used = words.saturating_mul(spacing.gap).saturating_mul(100);
    words.saturating_mul(spacing.within) >= ticks.saturating_mul(spacing.steps)
        || used > ticks.saturating_mul(most)
}

/// Lists the first so many frames, in units, in which the least numbers of entries have room.
pub(crate) fn list_frames(
    windows: &Windows,
    spacing: &Spacing,
    most: u64,
    count: usize,
    frames: &mut Vec<u64>,
) -> Result<(), AllocError> {
    frames.truncate(0);
    if is_flooded(&windows.groups, spacing, most) {
        return Ok(());
    }
    let last = part(LONGEST, spacing.unit).min(windows.fastest.saturating_mul(LABEL_ENTRIES));
    let mut frame = windows.slowest;
    for _ in frame..last.saturating_add(1) {
        if frame > last || frames.len() >= count {
            return Ok(());
        }
        match fit_of(frame, &windows.groups) {
            Fit::Never => return Ok(()),
            Fit::From(next) => frame = next,
            Fit::Whole(entries) => {
                if fits(frame, entries, spacing, &Loads { over: 0, most }) {
                    frames.push(frame)?;
                }
                frame = frame.saturating_add(1);
            }
        }
    }
    Ok(())
}
