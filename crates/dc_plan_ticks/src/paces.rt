//! Stage 1: how streams come, in ticks.
use crate::knobs::Knobs;
use crate::numbers::{part, up};
use crate::obstacles::Obstacles;
use dc_design_rows::{Document, Fact, Parameter, Stream, TimeUnit};
use std::alloc::AllocError;

/// How a stream comes, in ticks.
#[derive(Clone, Copy)]
pub struct Pace {
    /// The least interval between two words.
    pub least: u64,
    /// The greatest interval between two words.
    pub most: u64,
    /// How late of their rhythm its words may come.
    pub jitter: u64,
}

/// How a stream of this parameter comes.
fn pace_of(parameter: &Parameter, stream: &Stream, tick: u64) -> Pace {
    Pace {
        least: part(parameter.min, tick),
        most: up(parameter.max, tick),
        jitter: up(stream.jitter, tick),
    }
}

/// Tells that the words of a stream may follow one another in less than a tick.
fn tell_short(stream: &Stream, min: u64, unit: TimeUnit, tick: u64, obstacles: &mut Obstacles) {
    obstacles.lines.begin("");
    obstacles.lines.line(
        "inputs row {} column min: {} is below one tick of {} us (T11); {}",
        &[
            Fact::Number(stream.row),
            Fact::Time(min, unit),
            Fact::Number(tick),
            Fact::Word(if min >= 100 {
                "a shorter tick"
            } else {
                "no tick is shorter than 100 us"
            }),
        ],
    );
}

/// Tells the streams of a parameter whose words may follow one another in less than a tick.
fn tell_all_short(
    document: &Document,
    number: usize,
    parameter: &Parameter,
    obstacles: &mut Obstacles,
) {
    let tick = obstacles.tick;
    for stream in &document.streams {
        if stream.parameter == number {
            tell_short(stream, parameter.min, document.units.min, tick, obstacles);
        }
    }
}

/// Adds how each stream comes, in the order of the streams, or tells those whose words may follow one another in less than
/// a tick.
///
/// # Errors
///
/// Memory was refused.
pub fn pace_all(
    document: &Document,
    knobs: &Knobs,
    paces: &mut Vec<Pace>,
    obstacles: &mut Obstacles,
) -> Result<(), AllocError> {
    for (number, parameter) in document.parameters.iter().enumerate() {
        if parameter.min < knobs.tick {
            tell_all_short(document, number, parameter, obstacles);
        }
    }
    for stream in &document.streams {
        if let Some(parameter) = document.parameters.get(stream.parameter) {
            paces.push(pace_of(parameter, stream, knobs.tick))?;
        }
    }
    Ok(())
}
