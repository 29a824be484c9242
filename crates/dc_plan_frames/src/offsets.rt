//! Stage 4: the frame and the offsets of an output.
use crate::filling::{Filling, Trial};
use crate::frames::list_frames;
use crate::outputs::{Filled, Room, Search, fill_output};
use crate::planned::{Frames, OutputPlan};
use crate::whys::{tell_no_frame, tell_no_place};
use crate::windows::{Scene, Spacing, Windows};
use dc_design_rows::{Document, Output, Span};
use dc_plan_ticks::{Knobs, Obstacles, are_windows_told, gap_of, part, sends_of};
use std::alloc::{AllocError, Global};

/// Adds the offsets of a label in ascending order.
fn add_offsets(
    filling: &Filling,
    span: Span,
    filled: &Filled,
    offsets: &mut Vec<u64>,
) -> Result<(), AllocError> {
    for is_first in [true, false] {
        for place in span.first..span.end {
            let spot = filling.spots.get(place).copied().unwrap_or(0);
            let is_behind = spot >= filled.frame;
            if is_behind == is_first {
                let tick = if is_behind {
                    spot.saturating_sub(filled.frame)
                } else {
                    spot
                };
                offsets.push(tick.saturating_mul(filled.spacing.unit))?;
            }
        }
    }
    Ok(())
}

/// Adds an output whose frame was filled.
fn keep_output(
    scene: &Scene<'_>,
    filling: &Filling,
    filled: &Filled,
    frames: &mut Frames,
) -> Result<(), AllocError> {
    for span in &filling.spans {
        let first = frames.offsets.len();
        add_offsets(filling, *span, filled, &mut frames.offsets)?;
        let end = frames.offsets.len();
        frames.labels.push(Span { first, end })?;
    }
    let frame = filled.frame.saturating_mul(filled.spacing.unit);
    let entries = filling.spots.len() as u64;
    let used = entries.saturating_mul(scene.gap).saturating_mul(100);
    frames.outputs.push(OutputPlan {
        steps: filled.spacing.steps,
        within: filled.spacing.within,
        frame,
        entries,
        load: part(used, frame),
    })?;
    Ok(())
}

/// Whether some frame has room for the least numbers of entries; where none has, that is told.
fn has_frame(
    scene: &Scene<'_>,
    room: &mut Room,
    obstacles: &mut Obstacles,
) -> Result<bool, AllocError> {
    if are_windows_told(scene.document, scene.output, scene.knobs, obstacles) {
        return Ok(false);
    }
    let spacing = Spacing {
        unit: 1,
        steps: scene.sends.steps,
        within: scene.sends.within,
        gap: scene.gap,
    };
    room.windows.fill(scene, &spacing)?;
    let share = scene.knobs.share;
    list_frames(&room.windows, &spacing, share, 1, &mut room.frames)?;
    if room.frames.is_empty() {
        tell_no_frame(scene, &room.windows, obstacles);
    }
    Ok(!room.frames.is_empty())
}

/// Adds the frame of an output that is looked at, or tells what stands in its way.
fn seek(
    scene: &Scene<'_>,
    room: &mut Room,
    search: &mut Search,
    frames: &mut Frames,
    obstacles: &mut Obstacles,
) -> Result<(), AllocError> {
    let is_plain = obstacles.is_any();
    if !has_frame(scene, room, obstacles)? || is_plain {
        return Ok(());
    }
    match fill_output(scene, room, search)? {
        Some(filled) => keep_output(scene, &search.filling, &filled, frames),
        None => {
            tell_no_place(scene, search.lost, obstacles);
            Ok(())
        }
    }
}

/// Adds the frame of an output, or tells what stands in its way. Where something stands in the way already, only what no
/// search could mend is looked for.
///
/// # Errors
///
/// Memory was refused.
pub fn plan_output(
    alloc: Global,
    document: &Document,
    output: &Output,
    knobs: &Knobs,
    frames: &mut Frames,
    obstacles: &mut Obstacles,
) -> Result<(), AllocError> {
    let scene = Scene {
        document,
        output,
        knobs,
        gap: gap_of(output, knobs),
        sends: sends_of(output, knobs),
    };
    let mut room = Room {
        windows: Windows::new(alloc),
        frames: Vec::new(alloc),
    };
    let mut search = Search {
        choices: Vec::new(alloc),
        trial: Trial::new(alloc),
        filling: Filling {
            spots: Vec::new(alloc),
            spans: Vec::new(alloc),
        },
        lost: None,
    };
    seek(&scene, &mut room, &mut search, frames, obstacles)
}
