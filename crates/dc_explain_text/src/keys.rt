//! Which keys the tables of a configuration and the objects of a certificate have, and what is wanted at each.
use dc_tell::{Kind, top_of};

/// Of which sort a value is that is wanted.
#[derive(Clone, Copy, PartialEq, Eq)]
pub enum Sort {
    /// A whole number.
    Number,
    /// A whole number of JSON.
    Count,
    /// A name.
    Name,
    /// A label: three octal digits.
    Label,
    /// An equipment code: three hexadecimal digits.
    Equipment,
    /// One of some words.
    Word,
    /// The SDI of a stream.
    Sdi,
    /// True or false.
    Truth,
    /// The name of a file.
    File,
    /// An end of a link: two names with a dot between them.
    End,
    /// A list of names.
    Names,
    /// A list of offsets.
    Offsets,
    /// Tables, each under a heading of its own.
    Tables,
    /// A list of objects.
    List,
}

/// A key of tables of a kind, and what is wanted at it.
#[derive(Clone, Copy)]
pub struct Wanted {
    /// Of which kind the tables are.
    pub kind: Kind,
    /// The key.
    pub name: &'static str,
    /// The sort of its value.
    pub sort: Sort,
    /// The least number, or the fewest members of a list.
    pub least: u64,
    /// The greatest number, or the most members of a list.
    pub most: u64,
    /// The unit of a number, what a list holds, the heading of tables, or the words.
    pub what: &'static str,
    /// What the key means.
    pub meaning: &'static str,
}

/// The keys, those of a kind one behind the other.
static KEYS: [Wanted; 65] = [
    Wanted {
        kind: Kind::Top,
        name: "version",
        sort: Sort::Number,
        least: 1,
        most: 2,
        what: "the version of the format",
        meaning: "of which version the file is",
    },
    Wanted {
        kind: Kind::Top,
        name: "tick_us",
        sort: Sort::Number,
        least: 100,
        most: 10_000,
        what: "microseconds",
        meaning: "how long a tick of the concentrator is",
    },
    Wanted {
        kind: Kind::Top,
        name: "parameter",
        sort: Sort::Tables,
        least: 1,
        most: 2_048,
        what: "[[parameter]]",
        meaning: "the dictionary of what words mean",
    },
    Wanted {
        kind: Kind::Top,
        name: "bus",
        sort: Sort::Tables,
        least: 1,
        most: 64,
        what: "[[bus]]",
        meaning: "the buses that are received",
    },
    Wanted {
        kind: Kind::Top,
        name: "router",
        sort: Sort::Tables,
        least: 1,
        most: 64,
        what: "[[router]]",
        meaning: "what takes words from the queues of the buses",
    },
    Wanted {
        kind: Kind::Top,
        name: "output",
        sort: Sort::Tables,
        least: 1,
        most: 32,
        what: "[[output]]",
        meaning: "the buses that are sent",
    },
    Wanted {
        kind: Kind::Parameter,
        name: "label",
        sort: Sort::Label,
        least: 0,
        most: 0,
        what: "",
        meaning: "the label of its words",
    },
    Wanted {
        kind: Kind::Parameter,
        name: "equipment",
        sort: Sort::Equipment,
        least: 0,
        most: 0,
        what: "",
        meaning: "the code of the equipment that sends them",
    },
    Wanted {
        kind: Kind::Parameter,
        name: "format",
        sort: Sort::Word,
        least: 0,
        most: 0,
        what: "bnr, bcd, disc",
        meaning: "how its words are read: binary, decimal or discrete",
    },
    Wanted {
        kind: Kind::Parameter,
        name: "min_us",
        sort: Sort::Number,
        least: 1,
        most: 60_000_000,
        what: "microseconds",
        meaning: "the least time between two of its words",
    },
    Wanted {
        kind: Kind::Parameter,
        name: "max_us",
        sort: Sort::Number,
        least: 1,
        most: 60_000_000,
        what: "microseconds",
        meaning: "the greatest time between two of its words",
    },
    Wanted {
        kind: Kind::Bus,
        name: "name",
        sort: Sort::Name,
        least: 0,
        most: 0,
        what: "",
        meaning: "how routers name it",
    },
    Wanted {
        kind: Kind::Bus,
        name: "speed",
        sort: Sort::Word,
        least: 0,
        most: 0,
        what: "high, low",
        meaning: "high is 100 kbit/s, low 12.5 kbit/s",
    },
    Wanted {
        kind: Kind::Bus,
        name: "queue",
        sort: Sort::Number,
        least: 1,
        most: 4_096,
        what: "words",
        meaning: "how many words wait in its queue at most",
    },
    Wanted {
        kind: Kind::Bus,
        name: "police",
        sort: Sort::Truth,
        least: 0,
        most: 0,
        what: "",
        meaning: "whether words that come too early are dropped",
    },
    Wanted {
        kind: Kind::Bus,
        name: "stream",
        sort: Sort::Tables,
        least: 1,
        most: 256,
        what: "[[bus.stream]]",
        meaning: "the streams of words that it may carry",
    },
    Wanted {
        kind: Kind::Stream,
        name: "name",
        sort: Sort::Name,
        least: 0,
        most: 0,
        what: "",
        meaning: "how labels name it",
    },
    Wanted {
        kind: Kind::Stream,
        name: "label",
        sort: Sort::Label,
        least: 0,
        most: 0,
        what: "",
        meaning: "the label of its words",
    },
    Wanted {
        kind: Kind::Stream,
        name: "equipment",
        sort: Sort::Equipment,
        least: 0,
        most: 0,
        what: "",
        meaning: "the code of the equipment that sends them",
    },
    Wanted {
        kind: Kind::Stream,
        name: "sdi",
        sort: Sort::Sdi,
        least: 0,
        most: 3,
        what: "",
        meaning: "the two bits behind the label, or \"any\" for all four",
    },
    Wanted {
        kind: Kind::Stream,
        name: "jitter_us",
        sort: Sort::Number,
        least: 0,
        most: 60_000_000,
        what: "microseconds",
        meaning: "how much sooner than its interval a word may come",
    },
    Wanted {
        kind: Kind::Router,
        name: "name",
        sort: Sort::Name,
        least: 0,
        most: 0,
        what: "",
        meaning: "how traces and lines name it",
    },
    Wanted {
        kind: Kind::Router,
        name: "steps",
        sort: Sort::Number,
        least: 1,
        most: 1_000,
        what: "steps",
        meaning: "how many steps the router makes at least in each `within` ticks",
    },
    Wanted {
        kind: Kind::Router,
        name: "within",
        sort: Sort::Number,
        least: 1,
        most: 1_000,
        what: "ticks",
        meaning: "in how many ticks it makes at least `steps` steps",
    },
    Wanted {
        kind: Kind::Router,
        name: "most",
        sort: Sort::Number,
        least: 1,
        most: 1_000,
        what: "steps in a tick",
        meaning: "how many steps the router makes at most in one tick",
    },
    Wanted {
        kind: Kind::Router,
        name: "visits",
        sort: Sort::Names,
        least: 1,
        most: 256,
        what: "buses",
        meaning: "the buses in the order in which its steps visit them, over and over",
    },
    Wanted {
        kind: Kind::Router,
        name: "looks",
        sort: Sort::Number,
        least: 1,
        most: 256,
        what: "steps in a row",
        meaning: "how many steps in a row visit each bus of `visits`",
    },
    Wanted {
        kind: Kind::Output,
        name: "name",
        sort: Sort::Name,
        least: 0,
        most: 0,
        what: "",
        meaning: "how traces and lines name it",
    },
    Wanted {
        kind: Kind::Output,
        name: "speed",
        sort: Sort::Word,
        least: 0,
        most: 0,
        what: "high, low",
        meaning: "high is 100 kbit/s, low 12.5 kbit/s",
    },
    Wanted {
        kind: Kind::Output,
        name: "steps",
        sort: Sort::Number,
        least: 1,
        most: 1_000,
        what: "words",
        meaning: "how many words it may send at least in each `within` ticks",
    },
    Wanted {
        kind: Kind::Output,
        name: "within",
        sort: Sort::Number,
        least: 1,
        most: 1_000,
        what: "ticks",
        meaning: "in how many ticks it may send at least `steps` words",
    },
    Wanted {
        kind: Kind::Output,
        name: "frame",
        sort: Sort::Number,
        least: 1,
        most: 100_000,
        what: "ticks",
        meaning: "after how many ticks its transmit table begins again",
    },
    Wanted {
        kind: Kind::Output,
        name: "label",
        sort: Sort::Tables,
        least: 1,
        most: 256,
        what: "[[output.label]]",
        meaning: "the labels that it sends",
    },
    Wanted {
        kind: Kind::Label,
        name: "name",
        sort: Sort::Name,
        least: 0,
        most: 0,
        what: "",
        meaning: "how certificates and lines name it",
    },
    Wanted {
        kind: Kind::Label,
        name: "label",
        sort: Sort::Label,
        least: 0,
        most: 0,
        what: "",
        meaning: "the label of its words",
    },
    Wanted {
        kind: Kind::Label,
        name: "equipment",
        sort: Sort::Equipment,
        least: 0,
        most: 0,
        what: "",
        meaning: "the code of the equipment that it is sent as",
    },
    Wanted {
        kind: Kind::Label,
        name: "sdi",
        sort: Sort::Number,
        least: 0,
        most: 3,
        what: "its two bits",
        meaning: "the two bits behind the label",
    },
    Wanted {
        kind: Kind::Label,
        name: "sources",
        sort: Sort::Names,
        least: 1,
        most: 8,
        what: "streams",
        meaning: "the streams that its words come from, the preferred first",
    },
    Wanted {
        kind: Kind::Label,
        name: "stale",
        sort: Sort::Number,
        least: 1,
        most: 1_000_000,
        what: "ticks",
        meaning: "how old a word may be to be sent as it is",
    },
    Wanted {
        kind: Kind::Label,
        name: "age",
        sort: Sort::Number,
        least: 1,
        most: 2_000_000,
        what: "ticks",
        meaning: "how many ticks ago a word that is sent came in at most, as is promised",
    },
    Wanted {
        kind: Kind::Label,
        name: "max_age_us",
        sort: Sort::Number,
        least: 200,
        most: 60_000_000,
        what: "microseconds",
        meaning: "the time within which a word that is sent came in, in place of `age`",
    },
    Wanted {
        kind: Kind::Label,
        name: "offsets",
        sort: Sort::Offsets,
        least: 1,
        most: 256,
        what: "ticks",
        meaning: "in which ticks of the frame it is sent",
    },
    Wanted {
        kind: Kind::Certificate,
        name: "version",
        sort: Sort::Number,
        least: 1,
        most: 1,
        what: "the version of the format",
        meaning: "the version of the format: 1",
    },
    Wanted {
        kind: Kind::Certificate,
        name: "inputs",
        sort: Sort::List,
        least: 0,
        most: 0,
        what: "",
        meaning: "a list with one object for each bus of the tables, in their order",
    },
    Wanted {
        kind: Kind::Certificate,
        name: "outputs",
        sort: Sort::List,
        least: 0,
        most: 0,
        what: "",
        meaning: "a list with one object for each output of the tables, in their order",
    },
    Wanted {
        kind: Kind::Certificate,
        name: "labels",
        sort: Sort::List,
        least: 0,
        most: 0,
        what: "",
        meaning: "a list with one object for each label of the tables, in their order",
    },
    Wanted {
        kind: Kind::InputClaim,
        name: "bus",
        sort: Sort::Name,
        least: 0,
        most: 0,
        what: "",
        meaning: "the name of a bus of the tables",
    },
    Wanted {
        kind: Kind::InputClaim,
        name: "window",
        sort: Sort::Count,
        least: 0,
        most: 0,
        what: "",
        meaning: "a time in ticks, 1 to 100000, after which all that came is surely taken",
    },
    Wanted {
        kind: Kind::InputClaim,
        name: "backlog",
        sort: Sort::Count,
        least: 0,
        most: 0,
        what: "",
        meaning: "how many words wait in the queue of the bus at most",
    },
    Wanted {
        kind: Kind::InputClaim,
        name: "delay",
        sort: Sort::Count,
        least: 0,
        most: 0,
        what: "",
        meaning: "how many ticks, up to 100000, a word waits in the queue of the bus at most",
    },
    Wanted {
        kind: Kind::OutputClaim,
        name: "output",
        sort: Sort::Name,
        least: 0,
        most: 0,
        what: "",
        meaning: "the name of an output of the tables",
    },
    Wanted {
        kind: Kind::OutputClaim,
        name: "window",
        sort: Sort::Count,
        least: 0,
        most: 0,
        what: "",
        meaning: "a time in ticks, 1 to 100000, after which all that was due is surely sent",
    },
    Wanted {
        kind: Kind::OutputClaim,
        name: "delay",
        sort: Sort::Count,
        least: 0,
        most: 0,
        what: "",
        meaning: "how many ticks, up to 100000, a word that is due waits at most until it is sent",
    },
    Wanted {
        kind: Kind::LabelClaim,
        name: "label",
        sort: Sort::Name,
        least: 0,
        most: 0,
        what: "",
        meaning: "the name of a label of the tables (its `name`, not its octal number)",
    },
    Wanted {
        kind: Kind::LabelClaim,
        name: "age",
        sort: Sort::Count,
        least: 0,
        most: 0,
        what: "",
        meaning: "how many ticks ago a word that is sent came in at most",
    },
    Wanted {
        kind: Kind::System,
        name: "version",
        sort: Sort::Number,
        least: 1,
        most: 1,
        what: "the version of the format",
        meaning: "the version of the format: 1",
    },
    Wanted {
        kind: Kind::System,
        name: "concentrator",
        sort: Sort::Tables,
        least: 1,
        most: 64,
        what: "[[concentrator]]",
        meaning: "the concentrators of the network",
    },
    Wanted {
        kind: Kind::System,
        name: "link",
        sort: Sort::Tables,
        least: 0,
        most: 1_024,
        what: "[[link]]",
        meaning: "the links between them",
    },
    Wanted {
        kind: Kind::Concentrator,
        name: "name",
        sort: Sort::Name,
        least: 0,
        most: 0,
        what: "",
        meaning: "how links name it",
    },
    Wanted {
        kind: Kind::Concentrator,
        name: "tables",
        sort: Sort::File,
        least: 0,
        most: 0,
        what: "",
        meaning: "where its tables stand",
    },
    Wanted {
        kind: Kind::Concentrator,
        name: "certificate",
        sort: Sort::File,
        least: 0,
        most: 0,
        what: "",
        meaning: "where its certificate stands",
    },
    Wanted {
        kind: Kind::Link,
        name: "from",
        sort: Sort::End,
        least: 0,
        most: 0,
        what: "output",
        meaning: "the output whose words it carries",
    },
    Wanted {
        kind: Kind::Link,
        name: "to",
        sort: Sort::End,
        least: 0,
        most: 0,
        what: "bus",
        meaning: "the bus that it feeds",
    },
    Wanted {
        kind: Kind::Link,
        name: "least_us",
        sort: Sort::Number,
        least: 0,
        most: 1_000_000,
        what: "microseconds",
        meaning: "how long a word is on it at least",
    },
    Wanted {
        kind: Kind::Link,
        name: "most_us",
        sort: Sort::Number,
        least: 0,
        most: 1_000_000,
        what: "microseconds",
        meaning: "how long a word is on it at most",
    },
];

/// The keys of all kinds.
fn rows() -> &'static [Wanted] {
    &KEYS
}

/// The keys of tables of a kind, in their order.
pub fn keys_of(kind: Kind) -> &'static [Wanted] {
    let all = rows();
    let (mut first, mut behind) = (all.len(), 0usize);
    for (number, row) in all.iter().enumerate() {
        if row.kind == kind {
            first = first.min(number);
            behind = number.saturating_add(1);
        }
    }
    all.get(first..behind).unwrap_or(&[])
}

/// Which keys there are besides those of all tables.
#[derive(Clone, Copy)]
pub(crate) struct Extent {
    /// Those of version 2.
    pub(crate) is_policed: bool,
    /// Those of tables to lay out.
    pub(crate) is_unlaid: bool,
}

/// All keys.
pub(crate) const ALL: Extent = Extent {
    is_policed: true,
    is_unlaid: true,
};

/// Whether tables to lay out alone have the key of this name.
pub(crate) fn is_of_unlaid(name: &[u8]) -> bool {
    name == b"looks".as_slice() || name == b"max_age_us".as_slice()
}

/// Whether the key of this name is one of those that there are.
pub(crate) fn is_there(name: &str, extent: Extent) -> bool {
    if name == "police" || name == "jitter_us" {
        return extent.is_policed;
    }
    extent.is_unlaid || !is_of_unlaid(name.as_bytes())
}

/// What is wanted at a key of tables of a kind, where there is such a key.
pub(crate) fn key_of(kind: Kind, name: &[u8], extent: Extent) -> Option<Wanted> {
    for row in keys_of(kind) {
        if row.name.as_bytes() == name && is_there(row.name, extent) {
            return Some(*row);
        }
    }
    None
}

/// The kind of table, but this one, that has a key of this name, the first of its language.
pub(crate) fn other_with(kind: Kind, name: &[u8], is_list: bool) -> Kind {
    let top = top_of(kind);
    for row in rows() {
        if row.kind == kind || row.name.as_bytes() != name {
            continue;
        }
        if is_list && row.sort != Sort::Tables {
            continue;
        }
        if top_of(row.kind) == top {
            return row.kind;
        }
    }
    Kind::None
}
