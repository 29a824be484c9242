//! Stage 2: how late a bus may be.
use crate::knobs::Knobs;
use crate::numbers::{part, share_of, up, whole_of};
use crate::obstacles::Obstacles;
use crate::paces::Pace;
use dc_design_rows::{Document, Fact, Label, Letters, Stream, TimeUnit};
use std::alloc::AllocError;

/// No word waits longer than so many microseconds, or one tick, where the plan chooses what tasks are to do.
const POLL_US: u64 = 5_000;

/// So many microseconds long are the ticks of most tasks.
const USUAL: u64 = 1_000;

/// Of the sources of a label the one whose words lie farthest apart.
#[derive(Clone, Copy)]
struct Slowest {
    /// So many ticks they lie apart.
    most: u64,
    /// So many microseconds.
    us: u64,
    /// What it is called.
    name: Letters,
}

/// What a label asks of its sources that may be too little for one of them.
#[derive(Clone, Copy)]
struct Asked {
    /// What is told, up to how many ticks are left.
    sentence: &'static str,
    /// What takes ticks beside those between two words of that source, and what would do.
    remedy: &'static str,
    /// The unit of its column's title.
    unit: TimeUnit,
    /// The microseconds that are asked.
    us: u64,
    /// So many ticks they leave.
    ticks: u64,
    /// So many percent of these may be used.
    share: u64,
    /// So many ticks are wanted beside those between two words of that source.
    beside: u64,
    /// So many of what is asked are not left: the running one, or none.
    running: u64,
}

impl Asked {
    /// So many of the ticks that are left may be used.
    fn used(&self) -> u64 {
        share_of(self.ticks, self.share)
    }

    /// So many ticks are wanted where words may lie so many apart.
    fn wanted(&self, most: u64) -> u64 {
        most.saturating_add(self.beside)
    }

    /// What would do with ticks of this length, where words may lie so many of them apart.
    fn enough(&self, most: u64, tick: u64) -> Fact {
        let ticks = whole_of(self.wanted(most), self.share).saturating_add(self.running);
        Fact::Time(ticks.saturating_mul(tick), self.unit)
    }
}

/// The age that a label may have in ticks, by the microseconds that its data may be old and those of a tick.
pub fn age_of(max_age: u64, tick: u64) -> u64 {
    part(max_age, tick).saturating_sub(1)
}

/// How far apart the words of a stream may lie, in microseconds.
fn greatest_of(document: &Document, stream: &Stream) -> u64 {
    match document.parameter(stream.parameter) {
        Some(parameter) => parameter.max,
        None => 0,
    }
}

/// Of the sources of a label the first one whose words lie farthest apart.
fn slowest_of(document: &Document, paces: &[Pace], label: &Label) -> Slowest {
    let mut slowest = Slowest {
        most: 0,
        us: 0,
        name: Letters::empty(),
    };
    for place in label.sources.first..label.sources.end {
        let number = document.sources.get(place).copied().unwrap_or(0);
        let Some(stream) = document.streams.get(number) else {
            continue;
        };
        let Some(pace) = paces.get(number) else {
            continue;
        };
        if pace.most > slowest.most {
            slowest = Slowest {
                most: pace.most,
                us: greatest_of(document, stream),
                name: stream.name,
            };
        }
    }
    slowest
}

/// Tells that the headroom leaves less than there is, where it does, and whether there would be enough without it.
fn tell_headroom(asked: &Asked, wanted: u64, knobs: &Knobs, obstacles: &mut Obstacles) {
    let used = asked.used();
    if used < asked.ticks {
        obstacles.lines.say(
            if asked.ticks < wanted {
                "of which --headroom {} lets {} be used, "
            } else {
                "enough without --headroom {}, which lets {} of them be used, "
            },
            &[Fact::Number(knobs.leave), Fact::Number(used)],
        );
    }
}

/// Whether usual ticks are tried too, are longer than these and no longer than the least interval of any words.
fn are_usual_longer(document: &Document, knobs: &Knobs) -> bool {
    for parameter in &document.parameters {
        if parameter.min < USUAL {
            return false;
        }
    }
    knobs.tick < USUAL && !knobs.is_only
}

/// Tells what would do: with ticks of this length, and with usual ones where these are longer.
fn tell_enough(
    document: &Document,
    asked: &Asked,
    slowest: &Slowest,
    knobs: &Knobs,
    obstacles: &mut Obstacles,
) {
    let enough = asked.enough(slowest.most, knobs.tick);
    obstacles.lines.say(asked.remedy, &[enough]);
    if are_usual_longer(document, knobs) {
        let usual = asked.enough(up(slowest.us, USUAL), USUAL);
        obstacles.lines.say(", of {} with ticks of {} us", &[usual, Fact::Number(USUAL)]);
    }
    obstacles.lines.line(
        "{}, or a quicker {}{}",
        &[
            Fact::Word(if asked.ticks < asked.wanted(slowest.most) {
                ""
            } else {
                ", less headroom"
            }),
            Fact::Name(slowest.name),
            Fact::Word(knobs.shorter),
        ],
    );
}

/// Tells that the words of a source lie too far apart for what a label asks.
fn tell_late(
    document: &Document,
    label: &Label,
    asked: &Asked,
    slowest: &Slowest,
    knobs: &Knobs,
    obstacles: &mut Obstacles,
) {
    let wanted = asked.wanted(slowest.most);
    obstacles.lines.begin("");
    obstacles.lines.say(
        asked.sentence,
        &[
            Fact::Number(label.row),
            Fact::Time(asked.us, asked.unit),
            Fact::Number(asked.ticks),
            Fact::Number(knobs.tick),
        ],
    );
    tell_headroom(asked, wanted, knobs, obstacles);
    obstacles.lines.say(
        "but {} are wanted: {} since words of {} may lie {} apart, ",
        &[
            Fact::Number(wanted),
            Fact::Number(slowest.most),
            Fact::Name(slowest.name),
            Fact::Time(slowest.us, asked.unit),
        ],
    );
    tell_enough(document, asked, slowest, knobs, obstacles);
}

/// How late the buses of a label's sources may be, by its age.
fn spare_by_age(
    document: &Document,
    label: &Label,
    slowest: &Slowest,
    knobs: &Knobs,
    obstacles: &mut Obstacles,
) -> u64 {
    let Some(max_age) = label.max_age else {
        return u64::MAX;
    };
    let asked = Asked {
        sentence: "outputs row {} column max_age: {} leave {} ticks of {} us besides the running one, ",
        remedy: "1 since a word may wait on its bus, and 1 since it stays chosen while the next one waits there (C11, C12); a max_age of {}",
        unit: document.units.max_age,
        us: max_age,
        ticks: age_of(max_age, knobs.tick),
        share: knobs.share,
        beside: 2,
        running: 1,
    };
    let spare = asked.used().saturating_sub(slowest.most) / 2;
    if spare < 1 {
        tell_late(document, label, &asked, slowest, knobs, obstacles);
    }
    spare
}

/// How long a source of a label may be silent with the delay of its bus, by its timeout, in a prompt plan.
fn ticks_by_timeout(
    document: &Document,
    label: &Label,
    slowest: &Slowest,
    knobs: &Knobs,
    obstacles: &mut Obstacles,
) -> u64 {
    let Some(timeout) = label.timeout else {
        return u64::MAX;
    };
    if !knobs.is_prompt {
        return u64::MAX;
    }
    let ticks = part(timeout, knobs.tick);
    if ticks <= slowest.most {
        let asked = Asked {
            sentence: "outputs row {} column timeout: {} are {} ticks of {} us, ",
            remedy: "and 1 since the next one may wait on its bus (C12); a timeout of {}",
            unit: document.units.timeout,
            us: timeout,
            ticks,
            share: 100,
            beside: 1,
            running: 0,
        };
        tell_late(document, label, &asked, slowest, knobs, obstacles);
    }
    ticks
}

/// Lets the bus of each source of a label be no later than this, and than so many ticks leave beside the intervals of that
/// source; or than 1.
fn limit(
    document: &Document,
    paces: &[Pace],
    label: &Label,
    spare: u64,
    ticks: u64,
    wanted: &mut Vec<u64>,
) {
    for place in label.sources.first..label.sources.end {
        let number = document.sources.get(place).copied().unwrap_or(0);
        let Some(stream) = document.streams.get(number) else {
            continue;
        };
        let Some(pace) = paces.get(number) else {
            continue;
        };
        if let Some(most) = wanted.get_mut(stream.bus) {
            let left = ticks.saturating_sub(pace.most);
            let least = left.min(spare).min(*most).max(1);
            *most = least;
        }
    }
}

/// Adds how late each bus may be in ticks, at least 1, in the order of the buses, or tells the labels whose sources come too
/// seldom for their ages or timeouts.
///
/// # Errors
///
/// Memory was refused.
pub fn limit_all(
    document: &Document,
    paces: &[Pace],
    knobs: &Knobs,
    wanted: &mut Vec<u64>,
    obstacles: &mut Obstacles,
) -> Result<(), AllocError> {
    for bus in &document.buses {
        wanted.push(match bus.task {
            Some(_) => u64::MAX,
            None => up(POLL_US, knobs.tick).max(1),
        })?;
    }
    for number in &document.on_output {
        if let Some(label) = document.labels.get(*number) {
            let slowest = slowest_of(document, paces, label);
            let spare = spare_by_age(document, label, &slowest, knobs, obstacles);
            let ticks = ticks_by_timeout(document, label, &slowest, knobs, obstacles);
            limit(document, paces, label, spare, ticks, wanted);
        }
    }
    Ok(())
}
