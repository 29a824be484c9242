//! What a code is a code of.

/// What a code is a code of, in the order of docs/formats.md.
#[derive(Clone, Copy, Debug, PartialEq, Eq)]
pub enum Kind {
    /// A fault of a line of words that `decode` reads.
    Decoded,
    /// What kept the program from its work.
    Failure,
    /// A fault of tables.
    Table,
    /// A fault of a certificate.
    Certificate,
    /// A condition of certificates.
    Condition,
    /// What stands in the way of each certificate.
    Finder,
    /// A fault of a trace.
    Trace,
    /// A reply of `replay`.
    Reply,
    /// A step that may not follow those before it.
    Step,
    /// A line of `audit`.
    Audit,
    /// A fault of the lines of `observe` that a report reads.
    Observed,
    /// A line of `bench`.
    Bench,
    /// A fault of a capture.
    Capture,
    /// A word of a line of `survey`.
    Survey,
    /// A fault of a system.
    System,
    /// A fault of a link.
    Link,
}

impl Kind {
    /// What it is a code of, in words.
    pub fn words(self) -> &'static str {
        match self {
            Kind::Decoded => "a fault of the words that `decode` reads",
            Kind::Failure => "what kept the program from its work",
            Kind::Table => "a fault of tables",
            Kind::Certificate => "a fault of a certificate",
            Kind::Condition => "a condition of certificates",
            Kind::Finder => "what stands in the way of each certificate for the tables",
            Kind::Trace => "a fault of a trace",
            Kind::Reply => "a reply of `replay`",
            Kind::Step => "a step that may not follow those before it",
            Kind::Audit => "a line of `audit`",
            Kind::Observed => "a fault of the lines that `report --observed` reads",
            Kind::Bench => "a line of `bench`",
            Kind::Capture => "a fault of a capture",
            Kind::Survey => "a word of a line of `survey`",
            Kind::System => "a fault of a system",
            Kind::Link => "a fault of a link",
        }
    }

    /// What its meaning begins with.
    pub fn heading(self) -> &'static str {
        match self {
            Kind::Decoded
            | Kind::Table
            | Kind::Certificate
            | Kind::Finder
            | Kind::Trace
            | Kind::Observed
            | Kind::Capture
            | Kind::System
            | Kind::Link => { "Refused where: " }
            Kind::Condition => {
                "Refused where (in formulas `a` is the most that may come in so many ticks, `s` the least that is surely taken, by `steps` and `within`): "
            }
            Kind::Failure | Kind::Reply | Kind::Step | Kind::Audit | Kind::Bench | Kind::Survey =>
                "Means: ",
        }
    }

    /// What its example begins with: of what it is a change, or a trace.
    pub fn setting(self) -> &'static str {
        match self {
            Kind::Decoded | Kind::Failure | Kind::Bench => "For example: ",
            Kind::Table | Kind::Finder => "For example, a change of examples/small.toml: ",
            Kind::Certificate | Kind::Condition => {
                "For example, a change of examples/small-certificate.json: "
            }
            Kind::Trace | Kind::Reply | Kind::Step | Kind::Audit => {
                "For example, a trace for examples/small.toml: "
            }
            Kind::Observed => {
                "For example, a change of what `observe` writes of examples/small.trace: "
            }
            Kind::Capture | Kind::Survey => "For example, a capture for examples/small.toml: ",
            Kind::System | Kind::Link => {
                "For example, a change of examples/network/system.toml: "
            }
        }
    }
}
