//! Lists that are empty or too long, and totals that are passed.
use dc_explain_text::{Fact, Refused, Sort, Wanted, keys_of, tell_wanted};
use dc_tell::{Kind, kind_at};

/// The most streams of all buses, the most labels of all outputs, and the most offsets of one output.
const MOST_IN_ALL: u64 = 1_024;

/// How many tables of a kind stand in the table with the fault.
fn tables_in(refused: &Refused<'_>, kind: Kind) -> u64 {
    let mut count = 0u64;
    for it in refused.layout.rows.as_slice() {
        if it.kind == kind && it.parent == refused.row {
            count = count.saturating_add(1);
        }
    }
    count
}

/// How many members the list at a key has, visits as often as they are repeated; the fewest that it may have where it is no
/// list.
fn members_at(refused: &Refused<'_>, wanted: &Wanted) -> u64 {
    let members = refused.layout.members(refused.row, wanted.name).len() as u64;
    match wanted.sort {
        Sort::Names if wanted.name == "visits" => {
            members.saturating_mul(refused.count(refused.row, "looks").max(1))
        }
        Sort::Names | Sort::Offsets => members,
        Sort::Tables => tables_in(refused, kind_at(wanted.kind, wanted.name.as_bytes())),
        _ => wanted.least,
    }
}

/// How many offsets the labels of an output have together.
fn offsets_in(refused: &Refused<'_>, output: usize) -> u64 {
    let mut count = 0u64;
    for (row, it) in refused.layout.rows.iter().enumerate() {
        if it.kind == Kind::Label && it.parent == output {
            count = count.saturating_add(refused.layout.members(row, "offsets").len() as u64);
        }
    }
    count
}

/// The total that the table with the fault passes: how many there are, and of what.
fn total_past(refused: &Refused<'_>) -> Option<(u64, &'static str)> {
    let kind = refused.kind(refused.row);
    let streams = refused.tables_of(Kind::Stream) as u64;
    if matches!(kind, Kind::Bus) && streams > MOST_IN_ALL {
        return Some((streams, "streams in the whole file"));
    }
    let labels = refused.tables_of(Kind::Label) as u64;
    if matches!(kind, Kind::Output) && labels > MOST_IN_ALL {
        return Some((labels, "labels in the whole file"));
    }
    let offsets = offsets_in(refused, refused.row);
    if offsets > MOST_IN_ALL {
        return Some((offsets, "offsets of one output"));
    }
    None
}

/// The first list of the table with the fault that is empty or too long: its key with what is wanted there, and how many
/// members it has.
fn list_past(refused: &Refused<'_>) -> Option<(Wanted, u64)> {
    for wanted in keys_of(refused.kind(refused.row)) {
        let count = members_at(refused, wanted);
        let is_past = count < wanted.least || count > wanted.most;
        if is_past
            && refused
                .layout
                .key(refused.row, wanted.name.as_bytes())
                .is_some()
        {
            return Some((*wanted, count));
        }
    }
    None
}

/// Tells of a total that is passed.
fn tell_total(refused: &mut Refused<'_>) -> bool {
    let row = refused.row;
    let Some((count, what)) = total_past(refused) else {
        return false;
    };
    refused.say(
        "there are {} {}, where {} are the most: {} passes that{}\nhelp: split the tables: two concentrators, each with tables of its own",
        &[
            Fact::Number(count),
            Fact::Word(what),
            Fact::Number(MOST_IN_ALL),
            Fact::Row(row),
            Fact::Place(row, ""),
        ],
    );
    true
}

/// Tells of a list that is empty or too long, or of a total that is passed.
pub fn tell_count(refused: &mut Refused<'_>) -> bool {
    let row = refused.row;
    let Some((wanted, count)) = list_past(refused) else {
        return tell_total(refused);
    };
    let how = if count == 0 {
        "and at least one is wanted"
    } else {
        "more than it may have"
    };
    refused.say(
        "`{}` of {} has {}, {}{}\nhelp: write `{}` as ",
        &[
            Fact::Word(wanted.name),
            Fact::Row(row),
            Fact::Several(count, "member", "members"),
            Fact::Word(how),
            Fact::Place(row, wanted.name),
            Fact::Word(wanted.name),
        ],
    );
    tell_wanted(refused, wanted);
    true
}
