//! What the tables of TOML and the objects of a certificate are.

/// What a table of TOML, or an object of JSON, is.
#[derive(Clone, Copy, PartialEq, Eq)]
pub enum Kind {
    /// Of no kind that is known.
    None,
    /// The top of the tables.
    Top,
    /// A `[[parameter]]`.
    Parameter,
    /// A `[[bus]]`.
    Bus,
    /// A `[[bus.stream]]`.
    Stream,
    /// A `[[router]]`.
    Router,
    /// An `[[output]]`.
    Output,
    /// An `[[output.label]]`.
    Label,
    /// A certificate.
    Certificate,
    /// A member of its `inputs`.
    InputClaim,
    /// A member of its `outputs`.
    OutputClaim,
    /// A member of its `labels`.
    LabelClaim,
    /// The top of a system.
    System,
    /// A `[[concentrator]]`.
    Concentrator,
    /// A `[[link]]`.
    Link,
}

/// What the tables of a kind are called, and where they stand.
struct KindRow {
    kind: Kind,
    /// What one is called.
    name: &'static str,
    /// The same with its article.
    article: &'static str,
    /// The kind that it stands in.
    holder: Kind,
    /// The key of its list there.
    list: &'static str,
}

/// The kinds.
static KINDS: [KindRow; 14] = [
    KindRow {
        kind: Kind::Top,
        name: "the top of the tables",
        article: "the top of the tables",
        holder: Kind::None,
        list: "",
    },
    KindRow {
        kind: Kind::Parameter,
        name: "parameter",
        article: "a parameter",
        holder: Kind::Top,
        list: "parameter",
    },
    KindRow {
        kind: Kind::Bus,
        name: "bus",
        article: "a bus",
        holder: Kind::Top,
        list: "bus",
    },
    KindRow {
        kind: Kind::Stream,
        name: "stream",
        article: "a stream",
        holder: Kind::Bus,
        list: "stream",
    },
    KindRow {
        kind: Kind::Router,
        name: "router",
        article: "a router",
        holder: Kind::Top,
        list: "router",
    },
    KindRow {
        kind: Kind::Output,
        name: "output",
        article: "an output",
        holder: Kind::Top,
        list: "output",
    },
    KindRow {
        kind: Kind::Label,
        name: "label",
        article: "a label",
        holder: Kind::Output,
        list: "label",
    },
    KindRow {
        kind: Kind::Certificate,
        name: "the certificate",
        article: "a certificate",
        holder: Kind::None,
        list: "",
    },
    KindRow {
        kind: Kind::InputClaim,
        name: "input",
        article: "a member of `inputs`",
        holder: Kind::Certificate,
        list: "inputs",
    },
    KindRow {
        kind: Kind::OutputClaim,
        name: "output",
        article: "a member of `outputs`",
        holder: Kind::Certificate,
        list: "outputs",
    },
    KindRow {
        kind: Kind::LabelClaim,
        name: "label",
        article: "a member of `labels`",
        holder: Kind::Certificate,
        list: "labels",
    },
    KindRow {
        kind: Kind::System,
        name: "the system",
        article: "a system",
        holder: Kind::None,
        list: "",
    },
    KindRow {
        kind: Kind::Concentrator,
        name: "concentrator",
        article: "a concentrator",
        holder: Kind::System,
        list: "concentrator",
    },
    KindRow {
        kind: Kind::Link,
        name: "link",
        article: "a link",
        holder: Kind::System,
        list: "link",
    },
];

/// The kinds of objects whose name stands at another key than `name`.
static NAMED_BY: [(Kind, &'static str); 3] = [
    (Kind::InputClaim, "bus"),
    (Kind::OutputClaim, "output"),
    (Kind::LabelClaim, "label"),
];

/// The key of the name of a table of a kind.
pub fn naming(kind: Kind) -> &'static str {
    for (own, key) in &NAMED_BY {
        if *own == kind {
            return key;
        }
    }
    "name"
}

/// What a table of a kind is called, and that with its article.
pub fn called(kind: Kind) -> (&'static str, &'static str) {
    for row in &KINDS {
        if row.kind == kind {
            return (row.name, row.article);
        }
    }
    ("table", "a table")
}

/// The kind of the tables that a list at this key of a table holds.
pub fn kind_at(parent: Kind, key: &[u8]) -> Kind {
    for row in &KINDS {
        if row.holder == parent && row.list.as_bytes() == key {
            return row.kind;
        }
    }
    Kind::None
}

/// The kind of the top of the texts that have a kind.
pub fn top_of(kind: Kind) -> Kind {
    match kind {
        Kind::System | Kind::Concentrator | Kind::Link => Kind::System,
        Kind::Certificate | Kind::InputClaim | Kind::OutputClaim | Kind::LabelClaim => {
            Kind::Certificate
        }
        _ => Kind::Top,
    }
}

/// Whether a kind is one of certificates, and not of tables or of a system.
pub fn is_of_certificate(kind: Kind) -> bool {
    matches!(top_of(kind), Kind::Certificate)
}
