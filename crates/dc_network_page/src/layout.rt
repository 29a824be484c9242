//! Where the boxes of concentrators and the ends of links stand in the drawing, in the points of its picture.

use crate::shown::Shown;
use dc_ways::Connection;
use std::alloc::{AllocError, Global};

/// The most columns.
const MOST_COLUMNS: usize = 64;

/// How wide a box is.
pub const BOX_WIDTH: u64 = 170;

/// The least height of a box.
const BOX_HEIGHT: u64 = 78;

/// How far a box is from the next one of its column.
const BETWEEN: u64 = 40;

/// How far the boxes are from the edge of the picture.
const MARGIN: u64 = 10;

/// How far the curve of a link that passes a column sinks.
pub const SINKS: u64 = 84;

/// With more links than this the drawing has no texts at its links.
const MOST_TEXTS: usize = 48;

/// A box: its column, where it stands, and how many links come to it and leave it.
#[derive(Clone, Copy)]
pub struct Slot {
    pub column: usize,
    pub x: u64,
    pub y: u64,
    pub height: u64,
    come: u64,
    leave: u64,
}

/// A box before anything is known of it.
const EMPTY: Slot = Slot {
    column: 0,
    x: 0,
    y: MARGIN,
    height: BOX_HEIGHT,
    come: 0,
    leave: 0,
};

impl Slot {
    /// The height at which one of so many links ends, counted from 1.
    fn port(&self, place: u64, count: u64) -> u64 {
        let part = place.saturating_mul(self.height) / count.saturating_add(1);
        self.y.saturating_add(part)
    }
}

/// Of a link the place of its ends, counted from 1, among the links that leave its first box and that come to its last.
#[derive(Clone, Copy)]
struct Ends {
    leave: u64,
    come: u64,
}

/// From where to where a link is drawn.
#[derive(Clone, Copy)]
pub struct Line {
    pub from_x: u64,
    pub from_y: u64,
    pub to_x: u64,
    pub to_y: u64,
    /// Whether it passes a column.
    pub passes: bool,
}

/// The places of all boxes and links.
#[derive(Drop)]
pub struct Layout {
    boxes: Vec<Slot>,
    ends: Vec<Ends>,
    /// How wide and how high the picture is.
    pub width: u64,
    pub height: u64,
    /// How far a link goes sideways at least where it bends, and how far it goes straight before its end.
    pub bend: u64,
    pub run: u64,
    /// Whether the links have texts.
    pub has_texts: bool,
}

/// The column of a box.
fn column_at(boxes: &[Slot], number: usize) -> usize {
    match boxes.get(number) {
        Some(own) => own.column,
        None => 0,
    }
}

/// Puts each box into the column whose number is the length of the longest path of links that leads to it.
fn put_in_columns(boxes: &mut [Slot], connections: &[Connection]) {
    for _ in 0..MOST_COLUMNS {
        for link in connections {
            let next = column_at(boxes, link.from).saturating_add(1);
            if let Some(own) = boxes.get_mut(link.to) {
                own.column = own.column.max(next).min(MOST_COLUMNS - 1);
            }
        }
    }
}

/// Counts a link at both of its boxes.
fn count_ends(boxes: &mut [Slot], link: &Connection) -> Ends {
    let mut ends = Ends { leave: 1, come: 1 };
    if let Some(own) = boxes.get_mut(link.from) {
        own.leave = own.leave.saturating_add(1);
        ends.leave = own.leave;
    }
    if let Some(own) = boxes.get_mut(link.to) {
        own.come = own.come.saturating_add(1);
        ends.come = own.come;
    }
    ends
}

/// Counts each link at both of its boxes.
fn count_all(
    alloc: Global,
    boxes: &mut [Slot],
    connections: &[Connection],
) -> Result<Vec<Ends>, AllocError> {
    let mut ends = Vec::new(alloc);
    for link in connections {
        ends.push(count_ends(boxes, link))?;
    }
    Ok(ends)
}

/// Puts the boxes of each column one below the other, given where the next one of each column begins, and how far links
/// are from one another.
fn stack(boxes: &mut [Slot], feet: &mut [u64], pitch: u64, step: u64) {
    for number in 0..boxes.len() {
        if let Some(own) = boxes.get_mut(number) {
            let most = own.come.max(own.leave).saturating_add(1);
            own.height = most.saturating_mul(pitch).max(BOX_HEIGHT);
            own.x = step
                .saturating_mul(own.column as u64)
                .saturating_add(MARGIN);
            if let Some(foot) = feet.get_mut(own.column) {
                own.y = *foot;
                *foot = foot.saturating_add(own.height).saturating_add(BETWEEN);
            }
        }
    }
}

/// Puts each column into the middle of the picture.
fn center(boxes: &mut [Slot], feet: &[u64], height: u64) {
    for number in 0..boxes.len() {
        if let Some(own) = boxes.get_mut(number) {
            if let Some(foot) = feet.get(own.column) {
                own.y = own.y.saturating_add(height.saturating_sub(*foot) / 2);
            }
        }
    }
}

/// The greatest of some numbers.
fn greatest(numbers: &[u64]) -> u64 {
    let mut most: u64 = 0;
    for number in numbers {
        most = most.max(*number);
    }
    most
}

/// How wide the picture is.
fn width_of(boxes: &[Slot]) -> u64 {
    let mut most: u64 = 0;
    for own in boxes {
        most = own.x.max(most);
    }
    most.saturating_add(BOX_WIDTH + MARGIN)
}

/// Whether a link passes a column.
fn passes(boxes: &[Slot], link: &Connection) -> bool {
    let first = column_at(boxes, link.from);
    first.saturating_add(1) < column_at(boxes, link.to)
}

/// How far the picture reaches below its boxes: further where a link passes a column.
fn room_below(boxes: &[Slot], connections: &[Connection]) -> u64 {
    for link in connections {
        if passes(boxes, link) {
            return SINKS;
        }
    }
    0
}

impl Layout {
    /// The places of a network's boxes and links.
    ///
    /// # Errors
    /// `AllocError` where an allocation failed.
    pub fn of(alloc: Global, shown: &Shown<'_>) -> Result<Layout, AllocError> {
        let mut boxes = vec![in alloc; EMPTY; shown.concentrators.len()]?;
        put_in_columns(&mut boxes, shown.connections);
        let ends = count_all(alloc, &mut boxes, shown.connections)?;
        let has_texts = shown.connections.len() <= MOST_TEXTS;
        let (bend, run, pitch) = if has_texts { (50, 120, 30) } else { (65, 0, 5) };
        let mut feet = [MARGIN; MOST_COLUMNS];
        stack(&mut boxes, &mut feet, pitch, BOX_WIDTH + 2 * bend + run);
        let height = greatest(&feet);
        center(&mut boxes, &feet, height);
        let below = room_below(&boxes, shown.connections);
        Ok(Layout {
            width: width_of(&boxes),
            height: height
                .saturating_sub(BETWEEN - MARGIN)
                .saturating_add(below),
            boxes,
            ends,
            bend,
            run,
            has_texts,
        })
    }

    /// The box of a concentrator.
    pub fn slot(&self, concentrator: usize) -> Option<Slot> {
        self.boxes.get(concentrator).copied()
    }

    /// Where the link of this number is drawn.
    pub fn line(&self, link: &Connection, number: usize) -> Option<Line> {
        let ends = self.ends.get(number).copied()?;
        let from = self.boxes.get(link.from).copied()?;
        let to = self.boxes.get(link.to).copied()?;
        Some(Line {
            from_x: from.x.saturating_add(BOX_WIDTH),
            from_y: from.port(ends.leave, from.leave),
            to_x: to.x,
            to_y: to.port(ends.come, to.come),
            passes: passes(self.boxes.as_slice(), link),
        })
    }

    /// How many links come to a concentrator, and how many leave it.
    pub fn degrees(&self, concentrator: usize) -> (u64, u64) {
        match self.boxes.get(concentrator) {
            Some(own) => (own.come, own.leave),
            None => (0, 0),
        }
    }
}
