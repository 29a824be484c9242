//! How many entries labels have in a frame.
use crate::windows::{Group, Spacing, Window, Windows};
use dc_document::MOST_OFFSETS;
use dc_plan_ticks::{part, up};

/// The most entries of a label.
pub(crate) const LABEL_ENTRIES: u64 = MOST_OFFSETS as u64;

/// The most entries of an output.
pub(crate) const ENTRIES: u64 = 1_024;

/// So many halvings bring a frame below any gap.
const HALVINGS: usize = 17;

/// How the entries of labels are counted.
#[derive(Clone, Copy)]
pub(crate) enum Kind {
    /// In an even rhythm: gaps are a base, twice, four times it.
    Even,
    /// For the wanted mean gap.
    Any,
    /// As for any; of the frames the shortest are taken.
    Short,
}

/// How much of the wire may be used: over the first percentage, at most the second.
#[derive(Clone, Copy)]
pub(crate) struct Loads {
    pub(crate) over: u64,
    pub(crate) most: u64,
}

/// A way to count entries: a kind, and so many sixteenths of its window that a mean gap lies below the greatest.
#[derive(Clone, Copy)]
pub(crate) struct Rhythm {
    pub(crate) kind: Kind,
    pub(crate) share: u64,
    /// The least of the wanted mean gaps.
    pub(crate) fastest: u64,
}

/// How many entries a label has, and whether it is odd: in no rhythm, or without play.
#[derive(Clone, Copy)]
pub(crate) struct Count {
    pub(crate) entries: u64,
    pub(crate) is_odd: bool,
}

/// How many entries all labels have, and how many labels are odd.
#[derive(Clone, Copy)]
pub(crate) struct Tally {
    pub(crate) entries: u64,
    pub(crate) odd: u64,
}

impl Rhythm {
    /// A way to count the entries of labels with these windows.
    pub(crate) fn of(kind: Kind, share: u64, windows: &Windows) -> Rhythm {
        let mut fastest = u64::MAX;
        for group in &windows.groups {
            fastest = fastest.min(group.window.mean(share));
        }
        Rhythm {
            kind,
            share,
            fastest,
        }
    }

    /// The base of a frame: its part that is no longer than the least wanted gap. Nothing where it has none.
    pub(crate) fn base(&self, frame: u64) -> Option<u64> {
        if !matches!(self.kind, Kind::Even) {
            return Some(frame);
        }
        let mut base = frame;
        for _ in 0..HALVINGS {
            if base > self.fastest && base % 2 == 0 {
                base /= 2;
            }
        }
        if base > self.fastest {
            None
        } else {
            Some(base)
        }
    }

    /// How many entries a label with this window has in a frame with this base.
    pub(crate) fn count(&self, frame: u64, base: u64, window: &Window) -> Count {
        let wanted = window.mean(self.share);
        let entries = part(frame, window.low)
            .min(LABEL_ENTRIES)
            .min(up(frame, wanted));
        match self.kind {
            Kind::Even => even_count(frame, base, window, wanted, entries),
            _ => Count {
                entries,
                is_odd: window.low < window.high && is_tight(frame, entries, window),
            },
        }
    }

    /// How many entries all labels have in a frame; nothing where it has no base.
    pub(crate) fn tally(&self, frame: u64, groups: &[Group]) -> Option<Tally> {
        let base = self.base(frame)?;
        let mut tally = Tally { entries: 0, odd: 0 };
        for group in groups {
            let count = self.count(frame, base, &group.window);
            let entries = count.entries.saturating_mul(group.labels);
            tally.entries = tally.entries.saturating_add(entries);
            if count.is_odd {
                tally.odd = tally.odd.saturating_add(group.labels);
            }
        }
        Some(tally)
    }
}

/// Whether so many entries leave a label no play: all gaps are the least one, or the greatest.
fn is_tight(frame: u64, entries: u64, window: &Window) -> bool {
    frame == entries.saturating_mul(window.low) || frame == entries.saturating_mul(window.high)
}

/// How many entries a label has in the rhythm of a base: by the greatest gap of the rhythm up to the wanted one, else
/// the least over it; where none is in its window, the entries that any frame has.
fn even_count(frame: u64, base: u64, window: &Window, wanted: u64, entries: u64) -> Count {
    let mut gap = base;
    for _ in 0..HALVINGS {
        if gap < frame && (gap < window.low || gap.saturating_mul(2) <= wanted) {
            gap = gap.saturating_mul(2);
        }
    }
    let own = part(frame, gap);
    if gap <= window.high && own <= LABEL_ENTRIES {
        Count {
            entries: own,
            is_odd: false,
        }
    } else {
        Count {
            entries,
            is_odd: true,
        }
    }
}

/// Whether so many entries have room in a frame: fewer than its sends, no more than an output may have, and within the
/// loads of the wire.
pub(crate) fn fits(frame: u64, entries: u64, spacing: &Spacing, loads: &Loads) -> bool {
    let ticks = frame.saturating_mul(spacing.unit);
    let used = entries.saturating_mul(spacing.gap).saturating_mul(100);
    entries <= ENTRIES
        && entries.saturating_mul(spacing.within) < ticks.saturating_mul(spacing.steps)
        && ticks.saturating_mul(loads.over) < used
        && used <= ticks.saturating_mul(loads.most)
}
