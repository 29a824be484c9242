//! Stage 4: stale times and ages of labels.
use dc_design_rows::{Document, Label, Output};
use dc_plan_ticks::{Knobs, Obstacles, Pace, age_of, part, share_of};
use dc_plan_visits::BusPlan;
use std::alloc::AllocError;

/// A label.
#[derive(Clone, Copy)]
pub struct LabelPlan {
    /// So many ticks after it was routed a word is fresh.
    pub stale: u64,
    /// The limit on the age of its data, in ticks.
    pub age: u64,
    /// The least limit that holds, in ticks.
    pub least_age: u64,
}

/// How late the sources of a label may be.
#[derive(Clone, Copy)]
struct Late {
    /// The greatest delay of a bus.
    delay: u64,
    /// The longest silence of a live source.
    silence: u64,
}

/// How late the sources of a label may be.
fn late_of(document: &Document, buses: &[BusPlan], paces: &[Pace], label: &Label) -> Late {
    let mut late = Late {
        delay: 0,
        silence: 0,
    };
    for place in label.sources.first..label.sources.end {
        let number = document.sources.get(place).copied().unwrap_or(0);
        let Some(stream) = document.streams.get(number) else {
            continue;
        };
        let Some(bus) = buses.get(stream.bus) else {
            continue;
        };
        let Some(pace) = paces.get(number) else {
            continue;
        };
        late.delay = late.delay.max(bus.delay);
        late.silence = late.silence.max(bus.delay.saturating_add(pace.most));
    }
    late
}

/// After how many ticks a source of a label is given up, where so many are left for the age of its data: at its timeout, or
/// sooner where the age asks for that. Where the sources are later than that, buses are to be visited by timeouts too.
fn stale_of(
    label: &Label,
    late: &Late,
    left: u64,
    knobs: &Knobs,
    obstacles: &mut Obstacles,
) -> u64 {
    let Some(timeout) = label.timeout else {
        return late.silence;
    };
    let ticks = part(timeout, knobs.tick);
    let stale = ticks.min(left.saturating_sub(late.delay));
    if !knobs.is_prompt && (stale < ticks || ticks < late.silence) {
        obstacles.is_late = true;
    }
    stale
}

/// The stale time and the ages of a label.
fn aged(label: &Label, late: &Late, knobs: &Knobs, obstacles: &mut Obstacles) -> LabelPlan {
    let left = match label.max_age {
        Some(max_age) => share_of(age_of(max_age, knobs.tick), knobs.share),
        None => u64::MAX,
    };
    let stale = stale_of(label, late, left, knobs, obstacles);
    let least_age = stale.saturating_add(late.delay);
    LabelPlan {
        stale,
        age: match label.max_age {
            Some(max_age) => age_of(max_age, knobs.tick),
            None => least_age,
        },
        least_age,
    }
}

/// Adds the stale times and the ages of the labels of an output, or notes that a timeout is not kept.
pub(crate) fn age_all(
    document: &Document,
    output: &Output,
    buses: &[BusPlan],
    paces: &[Pace],
    knobs: &Knobs,
    plans: &mut Vec<LabelPlan>,
    obstacles: &mut Obstacles,
) -> Result<(), AllocError> {
    for place in output.labels.first..output.labels.end {
        let number = document.on_output.get(place).copied().unwrap_or(0);
        let Some(label) = document.labels.get(number) else {
            continue;
        };
        let late = late_of(document, buses, paces, label);
        plans.push(aged(label, &late, knobs, obstacles))?;
    }
    Ok(())
}
