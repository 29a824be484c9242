//! A frame that is filled with the entries of labels.
use crate::board::Board;
use crate::counts::Rhythm;
use crate::windows::{Window, Windows};
use dc_design_rows::Span;
use dc_plan_ticks::part;
use std::alloc::{AllocError, Global};

/// So many entries of a label, with gaps of its window.
#[derive(Clone, Copy, PartialEq)]
pub(crate) struct Need {
    window: Window,
    entries: u64,
}

/// A label with this need found its first place just before this one.
#[derive(Clone, Copy)]
struct Start {
    need: Need,
    next: u64,
}

/// A frame that is being filled: its places, what its labels need, in which order they look, and where.
#[derive(Drop)]
pub(crate) struct Trial {
    board: Board,
    needs: Vec<Need>,
    order: Vec<usize>,
    starts: Vec<Start>,
}

/// The places that labels found.
#[derive(Drop)]
pub(crate) struct Filling {
    /// The places of all, those of each label from its first on; some are behind the frame's end.
    pub(crate) spots: Vec<u64>,
    /// Where those of each label stand.
    pub(crate) spans: Vec<Span>,
}

impl Trial {
    /// A frame of no places.
    pub(crate) fn new(alloc: Global) -> Trial {
        Trial {
            board: Board::new(alloc),
            needs: Vec::new(alloc),
            order: Vec::new(alloc),
            starts: Vec::new(alloc),
        }
    }
}

/// Where the next entry of a label is wanted.
#[derive(Clone, Copy)]
struct Wanted {
    /// One frame behind the first entry.
    round: u64,
    /// Where the last one stands.
    last: u64,
    /// Where it stands in an even rhythm.
    even: u64,
    /// So many are left with it.
    left: u64,
}

/// The free place for the next entry of a label that is nearest to an even rhythm; of two the later one.
fn nearest(board: &Board, window: &Window, next: &Wanted) -> Option<u64> {
    let least = next.left.saturating_mul(window.low);
    let most = next.left.saturating_mul(window.high);
    let low = next
        .last
        .saturating_add(window.low)
        .max(next.round.saturating_sub(most));
    let high = next
        .last
        .saturating_add(window.high)
        .min(next.round.saturating_sub(least));
    let wanted = next.even.max(low).min(high);
    let Some(later) = board.free_from(wanted, high) else {
        return board.free_up_to(wanted, low);
    };
    let nearer = wanted
        .saturating_sub(later.saturating_sub(wanted))
        .saturating_add(1);
    match board.free_up_to(wanted, low.max(nearer)) {
        Some(earlier) => Some(earlier),
        None => Some(later),
    }
}

/// Adds the places of a label whose first entry stands here; whether all its entries found one.
fn walk(board: &Board, need: &Need, first: u64, spots: &mut Vec<u64>) -> Result<bool, AllocError> {
    let frame = board.frame();
    let gap = part(frame, need.entries);
    let rest = frame.saturating_sub(gap.saturating_mul(need.entries));
    let (mut last, mut even, mut over) = (first, first, 0u64);
    spots.push(first)?;
    for number in 1..need.entries {
        even = even.saturating_add(gap);
        over = over.saturating_add(rest);
        if over >= need.entries {
            over = over.saturating_sub(need.entries);
            even = even.saturating_add(1);
        }
        let next = Wanted {
            round: first.saturating_add(frame),
            last,
            even,
            left: need.entries.saturating_sub(number),
        };
        let Some(place) = nearest(board, &need.window, &next) else {
            return Ok(false);
        };
        spots.push(place)?;
        last = place;
    }
    Ok(true)
}

/// Where the first place of a label is looked for: one like it found none before there.
fn start_of(starts: &[Start], need: &Need) -> u64 {
    for start in starts {
        if start.need == *need {
            return start.next;
        }
    }
    0
}

/// Notes where the next label like this one is to look.
fn note_start(starts: &mut Vec<Start>, need: &Need, next: u64) -> Result<(), AllocError> {
    for start in starts.iter_mut() {
        if start.need == *need {
            start.next = next;
            return Ok(());
        }
    }
    starts.push(Start { need: *need, next })?;
    Ok(())
}

/// Adds the places of a label; nothing where it finds none, else its first.
fn settle(
    board: &Board,
    need: &Need,
    start: u64,
    spots: &mut Vec<u64>,
) -> Result<Option<u64>, AllocError> {
    let count = spots.len();
    let end = need.window.high.min(board.frame());
    let mut from = start;
    for _ in start..end {
        let Some(first) = board.free_from(from, end.saturating_sub(1)) else {
            return Ok(None);
        };
        if walk(board, need, first, spots)? {
            return Ok(Some(first));
        }
        spots.truncate(count);
        from = first.saturating_add(1);
    }
    Ok(None)
}

/// Takes the places of a label.
fn take_all(board: &mut Board, spots: &[u64], first: usize, apart: u64) {
    for (number, spot) in spots.iter().enumerate() {
        if number >= first {
            board.take(*spot, apart);
        }
    }
}

/// Adds the places of the next label in the order, any two so far apart; whether it found them.
fn place_label(
    trial: &mut Trial,
    label: usize,
    apart: u64,
    filling: &mut Filling,
) -> Result<bool, AllocError> {
    let Some(need) = trial.needs.get(label).copied() else {
        return Ok(true);
    };
    let first = filling.spots.len();
    let start = start_of(&trial.starts, &need);
    let Some(found) = settle(&trial.board, &need, start, &mut filling.spots)? else {
        return Ok(false);
    };
    note_start(&mut trial.starts, &need, found.saturating_add(1))?;
    take_all(&mut trial.board, &filling.spots, first, apart);
    let end = filling.spots.len();
    if let Some(span) = filling.spans.get_mut(label) {
        *span = Span { first, end };
    }
    Ok(true)
}

/// Fills a frame with labels in their order; what is left is the first label that finds no place.
fn place(
    trial: &mut Trial,
    apart: u64,
    filling: &mut Filling,
) -> Result<Option<usize>, AllocError> {
    for number in 0..trial.order.len() {
        let label = trial.order.get(number).copied().unwrap_or(0);
        if !place_label(trial, label, apart, filling)? {
            return Ok(Some(label));
        }
    }
    Ok(None)
}

/// Whether a label comes before another one: the narrow windows first.
fn is_before(windows: &[Window], one: usize, other: usize) -> bool {
    let Some(left) = windows.get(one) else {
        return one < other;
    };
    let Some(right) = windows.get(other) else {
        return one < other;
    };
    if left.width() != right.width() {
        return left.width() < right.width();
    }
    if left.high != right.high {
        return left.high < right.high;
    }
    one < other
}

/// Lists the labels in the order in which they are placed first.
fn order_labels(windows: &[Window], order: &mut Vec<usize>) -> Result<(), AllocError> {
    order.truncate(0);
    for label in 0..windows.len() {
        let mut carried = label;
        for other in order.iter_mut() {
            if is_before(windows, carried, *other) {
                let next = *other;
                *other = carried;
                carried = next;
            }
        }
        order.push(carried)?;
    }
    Ok(())
}

/// Brings a label to the front.
fn bring_forward(order: &mut [usize], label: usize) {
    let mut carried = label;
    for slot in order.iter_mut() {
        let next = *slot;
        *slot = carried;
        if next == label {
            return;
        }
        carried = next;
    }
}

/// Lists how many entries each label has in a frame.
fn list_needs(
    rhythm: &Rhythm,
    frame: u64,
    windows: &[Window],
    needs: &mut Vec<Need>,
) -> Result<(), AllocError> {
    needs.truncate(0);
    let Some(base) = rhythm.base(frame) else {
        return Ok(());
    };
    for window in windows {
        needs.push(Need {
            window: *window,
            entries: rhythm.count(frame, base, window).entries,
        })?;
    }
    Ok(())
}

/// Makes a frame ready to be filled once more, and empties what was filled, with room for all labels.
fn begin(trial: &mut Trial, filling: &mut Filling) -> Result<(), AllocError> {
    trial.board.clear();
    trial.starts.truncate(0);
    filling.spots.truncate(0);
    filling.spans.truncate(0);
    for _ in 0..trial.needs.len() {
        filling.spans.push(Span { first: 0, end: 0 })?;
    }
    Ok(())
}

/// Fills a frame in so many orders.
fn fill_orders(
    trial: &mut Trial,
    apart: u64,
    orders: usize,
    filling: &mut Filling,
) -> Result<Option<usize>, AllocError> {
    let mut lost = None;
    for _ in 0..orders {
        begin(trial, filling)?;
        let Some(label) = place(trial, apart, filling)? else {
            return Ok(None);
        };
        lost = Some(label);
        bring_forward(&mut trial.order, label);
    }
    Ok(lost)
}

/// Fills a frame in so many orders: who found no place comes first in the next one. What is left is who found none in
/// the last one.
pub(crate) fn fill_frame(
    trial: &mut Trial,
    frame: u64,
    windows: &Windows,
    rhythm: &Rhythm,
    apart: u64,
    orders: usize,
    filling: &mut Filling,
) -> Result<Option<usize>, AllocError> {
    trial.board.resize(frame)?;
    list_needs(rhythm, frame, &windows.of_labels, &mut trial.needs)?;
    order_labels(&windows.of_labels, &mut trial.order)?;
    fill_orders(trial, apart, orders, filling)
}
