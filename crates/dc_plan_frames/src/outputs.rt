//! The frame of an output, and its filling.
use crate::choices::{Choice, choose};
use crate::counts::{Kind, Loads, Rhythm};
use crate::filling::{Filling, Trial, fill_frame};
use crate::frames::list_frames;
use crate::windows::{Scene, Spacing, Windows};
use dc_plan_ticks::{Knobs, Sends, up};
use std::alloc::AllocError;

/// So many frames are filled, each in so many orders.
#[derive(Clone, Copy)]
struct Effort {
    frames: usize,
    orders: usize,
}

/// A few frames first, then more.
static EFFORTS: [Effort; 2] = [
    Effort {
        frames: 4,
        orders: 6,
    },
    Effort {
        frames: 16,
        orders: 16,
    },
];

/// The mean gap of a label lies so many sixteenths of its window below the greatest: the middle first.
static SHARES: [u64; 5] = [8, 6, 4, 2, 0];

/// So many frames are looked at for one spacing.
const MOST_FRAMES: usize = 1_024;

/// An even rhythm first, then any, then the shortest frame.
static KINDS: [Kind; 3] = [Kind::Even, Kind::Any, Kind::Short];

/// Who found no place last.
#[derive(Clone, Copy)]
pub(crate) struct Lost {
    /// The number of the label among those of the output.
    pub(crate) label: usize,
    /// The length of the frame, in ticks.
    pub(crate) frame: u64,
}

/// What is known of an output for one spacing: its windows, and the frames in which the least numbers of entries have room.
#[derive(Drop)]
pub(crate) struct Room {
    pub(crate) windows: Windows,
    pub(crate) frames: Vec<u64>,
}

/// A search for a frame: the frames that are chosen, the one that is filled, what was found, and who found no place before.
#[derive(Drop)]
pub(crate) struct Search {
    pub(crate) choices: Vec<Choice>,
    pub(crate) trial: Trial,
    pub(crate) filling: Filling,
    pub(crate) lost: Option<Lost>,
}

/// A frame that was filled.
#[derive(Clone, Copy)]
pub(crate) struct Filled {
    /// Its length, in units.
    pub(crate) frame: u64,
    /// How its entries lie.
    pub(crate) spacing: Spacing,
}

/// What is tried for one spacing.
#[derive(Clone, Copy)]
struct Attempt<'a> {
    room: &'a Room,
    spacing: &'a Spacing,
    effort: &'a Effort,
}

/// The spacing of this number for sends as the rows say them: entries in units of the ticks in which one is surely sent
/// first, then anywhere.
fn spacing_said(scene: &Scene<'_>, number: usize) -> Option<Spacing> {
    let Sends { steps, within } = scene.sends;
    let apart = up(within, steps);
    if number >= 2 || (number == 1 && apart == 1) {
        return None;
    }
    Some(Spacing {
        unit: if number == 0 { apart } else { 1 },
        steps,
        within,
        gap: scene.gap,
    })
}

/// The spacing of this number: sends that may be late by a gap first, then such as must leave on time; entries in units
/// of these first, then anywhere.
fn spacing_chosen(gap: u64, number: usize) -> Option<Spacing> {
    let within = if number < 2 {
        gap.saturating_mul(2)
    } else {
        gap
    };
    let is_whole = number % 2 == 0;
    if number >= 4 || (!is_whole && within == 1) {
        return None;
    }
    Some(Spacing {
        unit: if is_whole { within } else { 1 },
        steps: 1,
        within,
        gap,
    })
}

/// The spacing of this number.
fn spacing_at(scene: &Scene<'_>, number: usize) -> Option<Spacing> {
    match scene.output.task {
        Some(_) => spacing_said(scene, number),
        None => spacing_chosen(scene.gap, number),
    }
}

/// The loads of this number: with room on the wire first.
fn loads_at(knobs: &Knobs, number: usize) -> Option<Loads> {
    let used = knobs.used();
    match number {
        0 => Some(Loads {
            over: 0,
            most: used,
        }),
        1 if !knobs.is_hard => Some(Loads {
            over: used,
            most: 100,
        }),
        _ => None,
    }
}

/// Fills the best frames of a rhythm; what is left is the first that is filled, in units.
fn fill_choices(
    attempt: &Attempt<'_>,
    loads: &Loads,
    rhythm: &Rhythm,
    search: &mut Search,
) -> Result<Option<u64>, AllocError> {
    choose(
        &attempt.room.frames,
        &attempt.room.windows.groups,
        attempt.spacing,
        loads,
        rhythm,
        attempt.effort.frames,
        &mut search.choices,
    )?;
    for number in 0..search.choices.len() {
        let Some(choice) = search.choices.get(number).copied() else {
            return Ok(None);
        };
        let lost = fill_frame(
            &mut search.trial,
            choice.frame,
            &attempt.room.windows,
            rhythm,
            attempt.spacing.apart(),
            attempt.effort.orders,
            &mut search.filling,
        )?;
        let Some(label) = lost else {
            return Ok(Some(choice.frame));
        };
        search.lost = Some(Lost {
            label,
            frame: choice.frame.saturating_mul(attempt.spacing.unit),
        });
    }
    Ok(None)
}

/// Fills frames with mean gaps in the middle of their windows first, and an even rhythm.
fn fill_rhythms(
    attempt: &Attempt<'_>,
    loads: &Loads,
    search: &mut Search,
) -> Result<Option<u64>, AllocError> {
    for share in &SHARES {
        for kind in &KINDS {
            let rhythm = Rhythm::of(*kind, *share, &attempt.room.windows);
            if let Some(frame) = fill_choices(attempt, loads, &rhythm, search)? {
                return Ok(Some(frame));
            }
        }
    }
    Ok(None)
}

/// Fills frames with room on the wire first.
fn fill_loads(
    attempt: &Attempt<'_>,
    knobs: &Knobs,
    search: &mut Search,
) -> Result<Option<u64>, AllocError> {
    for number in 0..2usize {
        if let Some(loads) = loads_at(knobs, number) {
            if let Some(frame) = fill_rhythms(attempt, &loads, search)? {
                return Ok(Some(frame));
            }
        }
    }
    Ok(None)
}

/// Fills frames for one spacing.
fn fill_spacing(
    scene: &Scene<'_>,
    spacing: &Spacing,
    effort: &Effort,
    room: &mut Room,
    search: &mut Search,
) -> Result<Option<u64>, AllocError> {
    room.windows.fill(scene, spacing)?;
    if room.windows.is_some_empty() {
        return Ok(None);
    }
    list_frames(
        &room.windows,
        spacing,
        scene.knobs.share,
        MOST_FRAMES,
        &mut room.frames,
    )?;
    let attempt = Attempt {
        room,
        spacing,
        effort,
    };
    fill_loads(&attempt, scene.knobs, search)
}

/// Fills frames, each spacing in turn, with little effort and then with more.
pub(crate) fn fill_output(
    scene: &Scene<'_>,
    room: &mut Room,
    search: &mut Search,
) -> Result<Option<Filled>, AllocError> {
    for effort in &EFFORTS {
        for number in 0..4usize {
            if let Some(spacing) = spacing_at(scene, number) {
                if let Some(frame) = fill_spacing(scene, &spacing, effort, room, search)? {
                    return Ok(Some(Filled { frame, spacing }));
                }
            }
        }
    }
    Ok(None)
}
