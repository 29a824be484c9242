//! Rules on several tables of a system's text: N09 to N12.
use crate::ends::{concentrator_at, end_of};
use dc_explain_text::Refused;
use dc_tell::{Explanation, Kind, Span, Value};

/// The first table of the kind of that with the fault that has the same at a key.
fn twin_of(refused: &Refused<'_>, key: &str) -> Option<usize> {
    let row = refused.row;
    let kind = refused.kind(row);
    for (other, it) in refused.layout.rows.iter().enumerate() {
        if other >= row {
            break;
        }
        if it.kind == kind && refused.layout.value(other, key) == refused.layout.value(row, key) {
            return Some(other);
        }
    }
    None
}

/// What is told of two concentrators of one name.
const NAMESAKES: &str =
    "{row} stands there twice{place own name}\nnote: {row 0} is here{place 0 name}\nhelp: give one of the two another name, here or in line {line 0 name}, and write it in the `from` and `to` of the links that mean it";

/// What is told of two links to one bus.
const RIVALS: &str =
    "{row} leads to a bus to which another leads{place own to}\nnote: {row 0} is here{place 0 to}\nhelp: one link feeds a bus: let one of the two lead to a bus of its own, here or in line {line 0 to}, or take it out";

/// Tells of a concentrator with the name of another, or of a link to a bus to which another leads.
pub(crate) fn tell_twin(out: &mut Explanation, refused: &Refused<'_>, key: &str) -> bool {
    let Some(twin) = twin_of(refused, key) else {
        return false;
    };
    let is_link = refused.kind(refused.row) == Kind::Link;
    refused.fill(out, if is_link { RIVALS } else { NAMESAKES }, &[twin]);
    true
}

/// Writes which concentrator may be meant by a name that none has.
fn tell_meant(out: &mut Explanation, refused: &Refused<'_>, name: Span) {
    let names = refused.layout.names(refused.alloc, Kind::Concentrator);
    if names.is_lost() {
        return out.lose();
    }
    let text = str::from_utf8(refused.layout.piece(name)).unwrap_or("");
    let Some((like, _)) = out.nearest(text, names.as_slice()) else {
        out.help("write one of these, if it is meant: ", &[]);
        return out.put(Value::Names(names.as_slice()));
    };
    let meant = [Value::Text(like)];
    out.help(
        "there is a concentrator `{}`: write its name here, if it is meant",
        &meant,
    );
}

/// Tells of a link from or to a concentrator that is not there.
pub(crate) fn tell_no_concentrator(out: &mut Explanation, refused: &Refused<'_>) -> bool {
    let row = refused.row;
    let key = if concentrator_at(refused, row, "from").is_some() {
        "to"
    } else {
        "from"
    };
    let (name, _) = end_of(refused, row, key);
    let place = refused.place(row, key);
    out.say("`{}` of ", &[Value::Text(key)]);
    refused.fill(
        out,
        "{row} names concentrator `{piece 0}`, and there is none of this name{here 2}",
        &[name.from, name.to, place],
    );
    tell_meant(out, refused, name);
    refused.fill(
        out,
        "\nhelp: or add the concentrator that is meant, with `name = \"{piece 0}\"`",
        &[name.from, name.to],
    );
    true
}

/// Tells of a link whose least latency is over its greatest.
pub(crate) fn tell_reversed(out: &mut Explanation, refused: &Refused<'_>) -> bool {
    refused.fill(
        out,
        "`least_us` of {row} is {at own least_us}, more than its `most_us` of {at own most_us}{place own least_us}\nhelp: exchange the two (line {line own most_us}): a word is on the link for `least_us` microseconds at least and for `most_us` at most",
        &[],
    );
    true
}
