//! Offsets past the frame, or that two entries have.
use dc_explain_text::{Refused, number};
use dc_tell::{Explanation, Kind, Span};

/// The first offset of the label with the fault that is not below a frame, and where it stands.
fn past(refused: &Refused<'_>, frame: u64) -> Option<(Span, u64)> {
    for member in refused.layout.members(refused.row, "offsets") {
        let offset = number(refused.layout.piece(*member)).unwrap_or(0);
        if offset >= frame {
            return Some((*member, offset));
        }
    }
    None
}

/// The first entry of an output that has this offset: its label, and where it stands.
fn entry_at(refused: &Refused<'_>, output: usize, offset: u64) -> Option<(usize, Span)> {
    for (row, it) in refused.layout.rows.iter().enumerate() {
        if it.parent != output || !matches!(it.kind, Kind::Label) {
            continue;
        }
        for member in refused.layout.members(row, "offsets") {
            if number(refused.layout.piece(*member)).unwrap_or(0) == offset {
                return Some((row, *member));
            }
        }
    }
    None
}

/// The first offset of an output that no entry has; its frame where each has one.
fn free(refused: &Refused<'_>, output: usize, frame: u64) -> u64 {
    for at in 0..frame {
        if entry_at(refused, output, at).is_none() {
            return at;
        }
    }
    frame
}

/// How far an offset lies at least from the entries of an output, round its frame; the frame where it has none.
fn room_at(refused: &Refused<'_>, output: usize, offset: u64, frame: u64) -> u64 {
    let mut room = frame;
    for (row, it) in refused.layout.rows.iter().enumerate() {
        if it.parent != output || !matches!(it.kind, Kind::Label) {
            continue;
        }
        for member in refused.layout.members(row, "offsets") {
            let other = number(refused.layout.piece(*member)).unwrap_or(0);
            let apart = offset.max(other).saturating_sub(offset.min(other));
            room = room.min(apart).min(frame.saturating_sub(apart));
        }
    }
    room
}

/// The first offset of an output that lies so far behind one of its entries, and as far from all others, round its frame;
/// the frame where there is none.
fn apart(refused: &Refused<'_>, output: usize, frame: u64, far: u64) -> u64 {
    let mut first = frame;
    for (row, it) in refused.layout.rows.iter().enumerate() {
        if it.parent != output || !matches!(it.kind, Kind::Label) {
            continue;
        }
        for member in refused.layout.members(row, "offsets") {
            let own = number(refused.layout.piece(*member)).unwrap_or(0);
            let offset = own.saturating_add(far);
            if offset < first && room_at(refused, output, offset, frame) >= far {
                first = offset;
            }
        }
    }
    first
}

/// Tells of an offset that is not below the frame of its output.
pub(crate) fn tell_offset(out: &mut Explanation, refused: &Refused<'_>) -> bool {
    let output = refused.parent(refused.row);
    let frame = refused.count(output, "frame");
    let Some((member, offset)) = past(refused, frame) else {
        return false;
    };
    let at = free(refused, output, frame);
    let last = frame.saturating_sub(1);
    let longer = offset.saturating_add(1);
    refused.fill_where(
        out,
        "`offsets` of {row} has {number 0}, and the ticks of the frame of {row 0} are counted from 0 to {number 1}, by its `frame` of {number 2}{here 1}\nhelp: write an offset of 0 to {number 1} that no entry of this output has\n{if 0}note: the first that is free is {number 3}\nhelp: or a `frame` of {number 4} or more, up to 100000 (line {line 0 frame}); this weakens what is promised: all labels of this output are then sent less often, and may break rules that they keep now",
        &[output, member.from],
        &[offset, last, frame, at, longer],
        &[at < frame],
    );
    true
}

/// The first entry of the label with the fault that has the offset of an earlier entry of its output, and the label of that
/// one.
fn doubled(refused: &Refused<'_>, output: usize) -> Option<(u64, Span, usize)> {
    for member in refused.layout.members(refused.row, "offsets") {
        let offset = number(refused.layout.piece(*member)).unwrap_or(0);
        if let Some((holder, first)) = entry_at(refused, output, offset) {
            if first.from != member.from {
                return Some((offset, *member, holder));
            }
        }
    }
    None
}

/// Tells of two entries of an output that have one offset.
pub(crate) fn tell_offset_twice(out: &mut Explanation, refused: &Refused<'_>) -> bool {
    let output = refused.parent(refused.row);
    let Some((offset, member, holder)) = doubled(refused, output) else {
        return false;
    };
    let frame = refused.count(output, "frame");
    let far = refused.count(output, "within").saturating_add(1);
    let at = free(refused, output, frame);
    let clear = apart(refused, output, frame, far);
    refused.fill_where(
        out,
        "`offsets` of {row} has {number 0}, where in {row 0} there is an entry already, of {row 1} in line {line 1 offsets}{here 2}\n{if 0}help: move one of the two, to a free offset near it, since C08 and C09 judge the gaps; {number 3} is {number 4} ticks or more from all others of this output, so that no word waits for another\n{if 1}help: move one of the two, to a free offset near it, since C08 and C09 judge the gaps; the first that is free in this output is {number 1}\n{if 2}help: or take one of the two out, if the label is due there once\n{if 3}help: each of the {number 2} ticks of this frame has an entry: take one out, or write a longer `frame` (line {line 0 frame}); both weaken what is promised: labels are then sent less often",
        &[output, holder, member.from],
        &[offset, at, frame, clear, far],
        &[
            clear < frame,
            at < frame && clear >= frame,
            at < frame && holder == refused.row,
            at >= frame,
        ],
    );
    true
}
