//! What rows without a name are called.
use crate::document::{Document, Label, Stream};
use crate::letters::Letters;
use crate::lines::{Fact, Lines};
use dc_document::NAME_LIMIT;

/// The name of a row by its bus or output, its label and, where that is there with another SDI too, its SDI.
fn name_by(group: &Letters, label: u64, is_twice: bool, sdi: Option<u64>) -> Letters {
    let mut name = *group;
    name.add(b"-");
    name.add_digit(label / 64 % 8);
    name.add_digit(label / 8 % 8);
    name.add_digit(label % 8);
    if is_twice {
        name.add(b"-");
        match sdi {
            Some(number) => name.add_digit(number),
            None => name.add(b"any"),
        }
    }
    name
}

/// Tells what is wrong with the name of a row, which a row before it may have.
fn check_name(
    faults: &mut Lines,
    place: &[Fact; 3],
    group: &[Fact; 2],
    length: usize,
    other: Option<u64>,
) {
    if length > NAME_LIMIT {
        faults.begin("unreadable ");
        faults.say("{} row {} column name: {} has over 16 letters; ", place);
        faults.line("give the row a name, or a shorter one to {} {}", group);
        return;
    }
    if let Some(row) = other {
        faults.begin("unreadable ");
        faults.say("{} row {} column name: {} stands ", place);
        faults.line(
            "in row {} already (T13); another name for one of the two",
            &[Fact::Number(row)],
        );
    }
}

/// Whether two SDIs are the same; `None` is any.
fn is_same_sdi(one: Option<u64>, other: Option<u64>) -> bool {
    let Some(one) = one else {
        return other.is_none();
    };
    match other {
        Some(other) => one == other,
        None => false,
    }
}

/// Whether a stream has the bus and the label of another.
fn is_label_of(stream: &Stream, one: &Stream) -> bool {
    stream.bus == one.bus && stream.label == one.label
}

/// Whether a label has the output and the label of another.
fn is_label_like(label: &Label, one: &Label) -> bool {
    label.output == one.output && label.label == one.label
}

/// Whether the label of a stream is on its bus with another SDI too.
fn is_stream_twice(streams: &[Stream], one: &Stream) -> bool {
    for stream in streams {
        if is_label_of(stream, one) && !is_same_sdi(stream.sdi, one.sdi) {
            return true;
        }
    }
    false
}

/// Whether the label of a label is on its output with another SDI too.
fn is_label_twice(labels: &[Label], one: &Label) -> bool {
    for label in labels {
        if is_label_like(label, one) && label.sdi != one.sdi {
            return true;
        }
    }
    false
}

/// Whether a stream that no row names is another one again, of which T15 is told: it has that one's name.
fn is_stream_again(stream: &Stream, one: &Stream) -> bool {
    one.name.is_empty() && is_label_of(stream, one) && is_same_sdi(stream.sdi, one.sdi)
}

/// Whether a label that no row names is another one again, of which T22 is told: it has that one's name.
fn is_label_again(label: &Label, one: &Label) -> bool {
    one.name.is_empty() && is_label_like(label, one) && label.sdi == one.sdi
}

/// The row of the first stream among these places that has the name of one that is none of them again.
fn stream_row(
    streams: &[Stream],
    places: &[usize],
    before: usize,
    one: &Stream,
    name: &Letters,
) -> Option<u64> {
    for (count, place) in places.iter().enumerate() {
        if count >= before {
            return None;
        }
        if let Some(stream) = streams.get(*place) {
            if stream.name == *name && !is_stream_again(stream, one) {
                return Some(stream.row);
            }
        }
    }
    None
}

/// The row of the first label among these places that has the name of one that is none of them again.
fn label_row(
    labels: &[Label],
    places: &[usize],
    before: usize,
    one: &Label,
    name: &Letters,
) -> Option<u64> {
    for (count, place) in places.iter().enumerate() {
        if count >= before {
            return None;
        }
        if let Some(label) = labels.get(*place) {
            if label.name == *name && !is_label_again(label, one) {
                return Some(label.row);
            }
        }
    }
    None
}

/// What a stream is called.
fn stream_name(document: &Document, stream: &Stream, group: &Letters) -> Letters {
    if stream.name.is_empty() {
        let is_twice = is_stream_twice(&document.streams, stream);
        name_by(group, stream.label, is_twice, stream.sdi)
    } else {
        stream.name
    }
}

/// What a label is called.
fn label_name(document: &Document, label: &Label, group: &Letters) -> Letters {
    if label.name.is_empty() {
        let is_twice = is_label_twice(&document.labels, label);
        name_by(group, label.label, is_twice, Some(label.sdi))
    } else {
        label.name
    }
}

/// The name of the stream at this place of the order by buses; what is wrong with it is told.
fn settled_stream(document: &Document, count: usize, place: usize, faults: &mut Lines) -> Letters {
    let Some(stream) = document.streams.get(place) else {
        return Letters::empty();
    };
    let Some(bus) = document.buses.get(stream.bus) else {
        return Letters::empty();
    };
    let name = stream_name(document, stream, &bus.name);
    let at = [
        Fact::Word("inputs"),
        Fact::Number(stream.row),
        Fact::Name(name),
    ];
    let group = [Fact::Word("bus"), Fact::Name(bus.name)];
    let other = stream_row(&document.streams, &document.on_bus, count, stream, &name);
    check_name(faults, &at, &group, name.len(), other);
    name
}

/// The name of the label at this place of the order by outputs; what is wrong with it is told.
fn settled_label(document: &Document, count: usize, place: usize, faults: &mut Lines) -> Letters {
    let Some(label) = document.labels.get(place) else {
        return Letters::empty();
    };
    let Some(output) = document.outputs.get(label.output) else {
        return Letters::empty();
    };
    let name = label_name(document, label, &output.name);
    let at = [
        Fact::Word("outputs"),
        Fact::Number(label.row),
        Fact::Name(name),
    ];
    let group = [Fact::Word("output"), Fact::Name(output.name)];
    let other = label_row(&document.labels, &document.on_output, count, label, &name);
    check_name(faults, &at, &group, name.len(), other);
    name
}

/// Names the streams, bus by bus.
pub(crate) fn name_streams(document: &mut Document, faults: &mut Lines) {
    for count in 0..document.on_bus.len() {
        let place = document.on_bus.get(count).copied().unwrap_or(0);
        let name = settled_stream(document, count, place, faults);
        if let Some(stream) = document.streams.get_mut(place) {
            stream.name = name;
        }
    }
}

/// Names the labels, output by output.
pub(crate) fn name_labels(document: &mut Document, faults: &mut Lines) {
    for count in 0..document.on_output.len() {
        let place = document.on_output.get(count).copied().unwrap_or(0);
        let name = settled_label(document, count, place, faults);
        if let Some(label) = document.labels.get_mut(place) {
            label.name = name;
        }
    }
}
