//! How far apart the sends of an output lie, and which labels that leaves no gap.
use crate::knobs::Knobs;
use crate::numbers::{part, up};
use crate::obstacles::Obstacles;
use dc_design_rows::{Document, Fact, Label, Output, Parameter, TimeUnit};
use dc_document::{Speed, output_gap};

/// So many ticks lie between two sends of an output at least.
pub fn gap_of(output: &Output, knobs: &Knobs) -> u64 {
    let spacing_us = u64::from(output_gap(1, output.speed));
    up(spacing_us, knobs.tick)
}

/// What the task of an output surely does, in ticks: so many sends in any so many.
#[derive(Clone, Copy)]
pub struct Sends {
    /// So many sends ..
    pub steps: u64,
    /// .. in any so many ticks.
    pub within: u64,
}

/// What the task of an output surely does, as its rows say it, and its wire takes; where no row does the wire's own pace.
pub fn sends_of(output: &Output, knobs: &Knobs) -> Sends {
    let gap = gap_of(output, knobs);
    match output.task {
        Some(task) => Sends {
            steps: task.steps,
            within: up(task.within, knobs.tick).max(gap.saturating_mul(task.steps)),
        },
        None => Sends {
            steps: 1,
            within: gap,
        },
    }
}

/// A label whose gaps leave nothing beside the waiting of its sends.
#[derive(Clone, Copy)]
struct Narrow {
    /// Its parameter.
    parameter: Parameter,
    /// Its gaps are so many ticks at least ..
    low: u64,
    /// .. and less than so many.
    high: u64,
    /// A send may wait so many.
    late: u64,
}

impl Narrow {
    /// The label of this parameter, where its gaps leave nothing beside such sends.
    fn of(document: &Document, number: usize, late: u64, tick: u64) -> Option<Narrow> {
        let parameter = document.parameter(number)?;
        let found = Narrow {
            parameter,
            low: up(parameter.min, tick).saturating_add(1),
            high: part(parameter.max, tick),
            late,
        };
        if found.wanted() > found.high {
            Some(found)
        } else {
            None
        }
    }

    /// So many ticks its greatest interval has to be.
    fn wanted(&self) -> u64 {
        let both = self.late.saturating_mul(2);
        self.low.saturating_add(both).saturating_add(1)
    }

    /// So many ticks a send may wait for it to have a gap.
    fn longest(&self) -> u64 {
        part(self.high.saturating_sub(self.low).saturating_sub(1), 2)
    }

    /// So many ticks its least interval may be for it to have a gap; 0 where none does.
    fn least(&self) -> u64 {
        let both = self.late.saturating_mul(2);
        self.high.saturating_sub(both).saturating_sub(2)
    }
}

/// What so many ticks are called.
fn ticks(count: u64) -> Fact {
    Fact::Word(if count == 1 { "tick" } else { "ticks" })
}

/// Tells what gaps a label has, and what its sends want.
fn tell_gaps(narrow: &Narrow, unit: TimeUnit, tick: u64, obstacles: &mut Obstacles) {
    let (low, high, late) = (narrow.low, narrow.high, narrow.late);
    obstacles.lines.say(
        "{} to {} are {} to {} ticks of {} us, ",
        &[
            Fact::Time(narrow.parameter.min, unit),
            Fact::Time(narrow.parameter.max, unit),
            Fact::Number(low),
            Fact::Less(high, 1),
            Fact::Number(tick),
        ],
    );
    if high <= low {
        obstacles.lines.say("which are none (T12), ", &[]);
    } else {
        let apart = high.saturating_sub(low).saturating_sub(1);
        obstacles
            .lines
            .say("which are {} apart, ", &[Fact::Number(apart)]);
    }
    obstacles.lines.say(
        "and sends that may each wait up to {} {} want {} between the two (C08, C09); ",
        &[
            Fact::Number(late),
            ticks(late),
            Fact::Number(late.saturating_mul(2)),
        ],
    );
}

/// Tells which intervals leave a gap beside such sends, and whether an input has the parameter of this number too.
fn tell_interval(
    document: &Document,
    number: usize,
    narrow: &Narrow,
    tick: u64,
    obstacles: &mut Obstacles,
) {
    let unit = document.units.max;
    let most = narrow.wanted().saturating_mul(tick);
    let least = narrow.least();
    obstacles
        .lines
        .say("a max of {}", &[Fact::Time(most, unit)]);
    if least > 0 {
        let time = Fact::Time(least.saturating_mul(tick), unit);
        obstacles.lines.say(" or a min of at most {}", &[time]);
    }
    if document.streams.iter().any(|s| s.parameter == number) {
        obstacles.lines.say(
            " under another equipment code, since an input has this one",
            &[],
        );
    }
}

/// Tells what the task of an output is to do for a label to have a gap, where it is said and the wire lets it be so quick.
fn tell_task(
    document: &Document,
    output: &Output,
    narrow: &Narrow,
    knobs: &Knobs,
    obstacles: &mut Obstacles,
) {
    let Some(task) = output.task else {
        return;
    };
    let longest = narrow.longest();
    let steps = part(longest, gap_of(output, knobs));
    if steps == 0 {
        return;
    }
    if task.steps > steps {
        obstacles.lines.say(
            ", or at most {} {} in a within",
            &[
                Fact::Number(steps),
                Fact::Word(if steps == 1 { "step" } else { "steps" }),
            ],
        );
    } else {
        obstacles.lines.say(", or a within", &[]);
    }
    let within = if document.is_of_tables {
        Fact::Number(longest)
    } else {
        Fact::Time(longest.saturating_mul(knobs.tick), document.units.max)
    };
    obstacles.lines.say(" of at most {}", &[within]);
}

/// What helps beside, where an output is slow, and its task quick enough for a wire that is not.
fn faster(output: &Output, narrow: &Narrow, knobs: &Knobs) -> &'static str {
    let quick = Output {
        speed: Speed::High,
        ..*output
    };
    if output.speed == Speed::Low && sends_of(&quick, knobs).within <= narrow.longest() {
        ", or high speed"
    } else {
        ""
    }
}

/// Tells a label whose gaps leave nothing beside the waiting of its sends.
fn tell_window(
    document: &Document,
    output: &Output,
    label: &Label,
    narrow: &Narrow,
    knobs: &Knobs,
    obstacles: &mut Obstacles,
) {
    let unit = document.units.max;
    document.begin_label(label, "max", &mut obstacles.lines);
    tell_gaps(narrow, unit, knobs.tick, obstacles);
    tell_interval(document, label.parameter, narrow, knobs.tick, obstacles);
    tell_task(document, output, narrow, knobs, obstacles);
    obstacles.lines.line(
        "{}{}",
        &[
            Fact::Word(faster(output, narrow, knobs)),
            Fact::Word(knobs.shorter),
        ],
    );
}

/// Tells the labels of an output whose gaps leave nothing beside the waiting of its sends; whether there is one.
pub fn are_windows_told(
    document: &Document,
    output: &Output,
    knobs: &Knobs,
    obstacles: &mut Obstacles,
) -> bool {
    let late = sends_of(output, knobs).within;
    let mut is_any = false;
    for place in output.labels.first..output.labels.end {
        let number = document.on_output.get(place).copied().unwrap_or(0);
        let Some(label) = document.labels.get(number) else {
            continue;
        };
        if let Some(narrow) = Narrow::of(document, label.parameter, late, knobs.tick) {
            tell_window(document, output, label, &narrow, knobs, obstacles);
            is_any = true;
        }
    }
    is_any
}
