//! Why an output has no frame.
use crate::counts::{ENTRIES, LABEL_ENTRIES};
use crate::frames::{LONGEST, WORD};
use crate::outputs::Lost;
use crate::windows::{Scene, Window, Windows};
use dc_design_rows::{Fact, Label};
use dc_document::Speed;
use dc_plan_ticks::{Obstacles, part, up};

/// The label of this number among those of an output.
fn label_at(scene: &Scene<'_>, number: usize) -> Option<Label> {
    let place = scene.output.labels.first.saturating_add(number);
    let label = scene.document.on_output.get(place).copied()?;
    scene.document.labels.get(label).copied()
}

/// Begins a line on an output.
fn begin(scene: &Scene<'_>, obstacles: &mut Obstacles) {
    obstacles.lines.begin("");
    obstacles
        .lines
        .say("output {}: ", &[Fact::Name(scene.output.name)]);
}

/// Names a label by its octal number and its row, or in tables by its name.
fn say_label(scene: &Scene<'_>, number: usize, obstacles: &mut Obstacles) {
    let Some(label) = label_at(scene, number) else {
        return;
    };
    if scene.document.is_of_tables {
        return obstacles.lines.say("label {}", &[Fact::Name(label.name)]);
    }
    obstacles.lines.say(
        "label {} (outputs row {})",
        &[Fact::Octal(label.label), Fact::Number(label.row)],
    );
}

/// Tells that the labels of an output want more of the wire than there is.
fn tell_wire(scene: &Scene<'_>, words: u64, obstacles: &mut Obstacles) {
    let share = scene.knobs.share;
    let (labels, sends) = (scene.output.labels, scene.sends);
    begin(scene, obstacles);
    obstacles.lines.say(
        "its {} labels want {} % of the sends, {} in 1000 ticks, and {} are there{} (F1, T24); ",
        &[
            Fact::Number(labels.end.saturating_sub(labels.first) as u64),
            Fact::Number(up(
                words.saturating_mul(sends.within),
                (WORD / 100).saturating_mul(sends.steps),
            )),
            Fact::Number(up(words, WORD / 1_000)),
            Fact::Number(part(
                share.saturating_mul(10).saturating_mul(sends.steps),
                sends.within,
            )),
            Fact::Word(scene.knobs.with_headroom()),
        ],
    );
    obstacles.lines.line(
        "longer intervals, {}{}{}or another output for some{}",
        &[
            Fact::Word(match scene.output.task {
                Some(_) => "more steps or a shorter within, ",
                None => "",
            }),
            Fact::Word(match scene.output.speed {
                Speed::Low => "high speed, ",
                Speed::High => "",
            }),
            Fact::Word(if share < 100 { "less headroom, " } else { "" }),
            Fact::Word(scene.knobs.shorter),
        ],
    );
}

/// Which labels of an output decide about its frames, and how much all of them want at least.
#[derive(Clone, Copy)]
struct Deciding {
    /// The first one with the greatest least gap.
    slow: usize,
    /// The first one with the least greatest gap.
    fast: usize,
    /// The first one with the fewest gaps.
    narrow: usize,
    /// So many words a tick, in billionths.
    words: u64,
    /// So many entries in a frame as long as the greatest least gap.
    entries: u64,
}

/// Which labels decide, and how much all want.
fn deciding_of(windows: &Windows) -> Deciding {
    let mut found = Deciding {
        slow: 0,
        fast: 0,
        narrow: 0,
        words: 0,
        entries: 0,
    };
    let (mut slow, mut fast, mut narrow) = (0u64, u64::MAX, u64::MAX);
    for (number, window) in windows.of_labels.iter().enumerate() {
        let entries = up(windows.slowest, window.high);
        found.words = found.words.saturating_add(part(WORD, window.high));
        found.entries = found.entries.saturating_add(entries);
        if window.low > slow {
            slow = window.low;
            found.slow = number;
        }
        if window.high < fast {
            fast = window.high;
            found.fast = number;
        }
        if window.width() < narrow {
            narrow = window.width();
            found.narrow = number;
        }
    }
    found
}

/// Tells that one label wants too many entries beside a slow one.
fn tell_fast(
    scene: &Scene<'_>,
    found: &Deciding,
    slowest: u64,
    fastest: u64,
    obstacles: &mut Obstacles,
) {
    begin(scene, obstacles);
    say_label(scene, found.slow, obstacles);
    obstacles.lines.say(
        " lies at least {} ticks apart, and in a frame of so many ",
        &[Fact::Number(slowest)],
    );
    say_label(scene, found.fast, obstacles);
    obstacles.lines.line(
        " wants {} entries, at most {} (T08); a lesser min of the slow one, or another output for one of them",
        &[
            Fact::Number(up(slowest, fastest)),
            Fact::Number(LABEL_ENTRIES),
        ],
    );
}

/// Tells that all labels together want too many entries beside a slow one.
fn tell_entries(scene: &Scene<'_>, found: &Deciding, slowest: u64, obstacles: &mut Obstacles) {
    begin(scene, obstacles);
    say_label(scene, found.slow, obstacles);
    obstacles.lines.say(
        " lies at least {} ticks apart, and in a frame of so many all labels want {} entries, at most {} (T08); ",
        &[
            Fact::Number(slowest),
            Fact::Number(found.entries),
            Fact::Number(ENTRIES),
        ],
    );
    obstacles.lines.line(
        "a lesser min of the slow one, or another output for it or for fast ones",
        &[],
    );
}

/// Tells that no frame gives every label a whole number of gaps.
fn tell_frames(scene: &Scene<'_>, found: &Deciding, windows: &[Window], obstacles: &mut Obstacles) {
    begin(scene, obstacles);
    obstacles.lines.say(
        "no frame up to {} ticks gives every label a whole number of gaps (",
        &[Fact::Number(LONGEST)],
    );
    say_label(scene, found.narrow, obstacles);
    if let Some(window) = windows.get(found.narrow) {
        obstacles.lines.say(
            ": {} to {} ticks) ",
            &[Fact::Number(window.low), Fact::Number(window.high)],
        );
    }
    obstacles.lines.line(
        "within {} entries and the wire{} (C08, C09, T08); a wider interval for it, or a lesser min of the slow ones{}{}",
        &[
            Fact::Number(ENTRIES),
            Fact::Word(scene.knobs.with_headroom()),
            Fact::Word(scene.knobs.freer()),
            Fact::Word(scene.knobs.shorter),
        ],
    );
}

/// Tells why no frame has room for the least numbers of entries: the first necessary condition that fails.
pub(crate) fn tell_no_frame(scene: &Scene<'_>, windows: &Windows, obstacles: &mut Obstacles) {
    let found = deciding_of(windows);
    let share = (WORD / 100).saturating_mul(scene.knobs.share);
    let sends = scene.sends;
    if found.words.saturating_mul(sends.within) >= share.saturating_mul(sends.steps) {
        return tell_wire(scene, found.words, obstacles);
    }
    let (slowest, fastest) = (windows.slowest, windows.fastest);
    if slowest > fastest.saturating_mul(LABEL_ENTRIES) {
        return tell_fast(scene, &found, slowest, fastest, obstacles);
    }
    if found.entries > ENTRIES {
        return tell_entries(scene, &found, slowest, obstacles);
    }
    tell_frames(scene, &found, &windows.of_labels, obstacles)
}

/// Tells that no place was found for a label, or that no frame was filled at all. It is no proof that there is none.
pub(crate) fn tell_no_place(scene: &Scene<'_>, lost: Option<Lost>, obstacles: &mut Obstacles) {
    begin(scene, obstacles);
    let Some(lost) = lost else {
        obstacles.lines.say(
            "with sends {} ticks apart no frame was found that gives every label its number of entries (C08, C09); ",
            &[Fact::Number(scene.gap)],
        );
        return obstacles.lines.line(
            "this is no proof that there is none: a wider interval for the narrowest{}{}",
            &[
                Fact::Word(scene.knobs.freer()),
                Fact::Word(scene.knobs.shorter),
            ],
        );
    };
    obstacles.lines.say("no place was found for ", &[]);
    say_label(scene, lost.label, obstacles);
    obstacles.lines.say(
        " beside the others, at last in a frame of {} ticks (C08, C09, T21); ",
        &[Fact::Number(lost.frame)],
    );
    obstacles.lines.line(
        "this is no proof that there is none: a wider interval for it, or another output for some labels{}{}",
        &[
            Fact::Word(scene.knobs.freer()),
            Fact::Word(scene.knobs.shorter),
        ],
    );
}
