//! What a run was to do, as far as its end is explained by that.
use dc_codes::Kind;
use dc_command::Order;

/// What standard input is called as a file on the command line.
const STANDARD_INPUT: &str = "-";

/// What a certificate is called.
pub(crate) const CERTIFICATE: &str = "the certificate";

/// What a third file is to be.
pub(crate) const OBSERVED: &str = "the lines that `observe` wrote";

/// What two files are to be that are judged.
pub(crate) const JUDGED: (&'static str, &'static str) = ("the tables", CERTIFICATE);

/// How many events an audit reads that is not asked for a long run.
const MOST_EVENTS: u64 = 100_000;

/// What a run was to do.
#[derive(Clone, Copy)]
pub(crate) struct Task<'a> {
    /// What its files are to be.
    pub(crate) wanted: (&'static str, &'static str),
    /// The text of the system of the network that it was to judge or to report on, as the command line names it.
    pub(crate) system: Option<&'a str>,
    /// Of what the codes are with which lines are refused, of its standard input or of its third file.
    pub(crate) lines: Kind,
    /// How many events it reads, where it reads no more of what is not long.
    pub(crate) most_events: u64,
    /// Whether its standard input may be long.
    pub(crate) is_long: bool,
    /// Whether it was to survey.
    pub(crate) is_survey: bool,
    /// Whether it was to audit.
    pub(crate) is_audit: bool,
    /// Whether it was to design tables.
    pub(crate) is_design: bool,
    /// Whether it was to lay tables out.
    pub(crate) is_layout: bool,
    /// Whether it was to find a certificate.
    pub(crate) is_found: bool,
}

/// What most orders ask: to judge tables and a certificate.
fn usual<'a>() -> Task<'a> {
    Task {
        wanted: JUDGED,
        system: None,
        lines: Kind::Trace,
        most_events: u64::MAX,
        is_long: false,
        is_survey: false,
        is_audit: false,
        is_design: false,
        is_layout: false,
        is_found: false,
    }
}

/// What an order asks.
pub(crate) fn task_of(order: Order<'_>) -> Task<'_> {
    let mut task = usual();
    match order {
        Order::Decode(_) => task.lines = Kind::Decoded,
        Order::Trace { .. } => task.lines = Kind::Capture,
        Order::Survey { .. } => {
            task.lines = Kind::Capture;
            task.is_survey = true;
        }
        Order::Replay { long, .. } => task.is_long = long,
        Order::Observe { .. } => task.is_long = true,
        Order::Audit { long, .. } => {
            task.is_long = long;
            task.is_audit = true;
            task.most_events = MOST_EVENTS;
        }
        Order::ReportObserved { .. } => task.lines = Kind::Observed,
        Order::Network { system, .. } | Order::ReportNetwork { system } => {
            task.system = Some(system);
            task.wanted = ("the system", "");
        }
        Order::Design { .. } => {
            task.is_design = true;
            task.wanted = ("the sheet of inputs", "the sheet of outputs");
        }
        Order::Find { .. } => task.is_found = true,
        Order::Layout { .. } => task.is_layout = true,
        Order::Report { certificate, .. } | Order::Margins { certificate, .. } => task.is_found =
            certificate.is_none(),
        _ => {}
    }
    task
}

/// The name of a file as it is told.
pub(crate) fn told(name: &str) -> &str {
    if name == STANDARD_INPUT {
        "<stdin>"
    } else {
        name
    }
}

/// The first file that an order opens; no name where it opens none.
fn first_of(order: Order<'_>) -> &str {
    match order {
        Order::Decode(_) | Order::Explain { .. } => "",
        Order::Network { system, .. } | Order::ReportNetwork { system } => system,
        Order::Design { inputs, .. } => inputs,
        Order::Find { tables, .. }
        | Order::Layout { tables }
        | Order::Survey { tables }
        | Order::Trace { tables, .. }
        | Order::Replay { tables, .. }
        | Order::Report { tables, .. }
        | Order::ReportObserved { tables, .. }
        | Order::Margins { tables, .. }
        | Order::Check { tables, .. }
        | Order::Audit { tables, .. }
        | Order::Observe { tables, .. }
        | Order::Bench { tables, .. } => tables,
    }
}

/// The second file that an order opens, as the first.
fn second_of(order: Order<'_>) -> &str {
    match order {
        Order::Design { outputs, .. } => outputs,
        Order::Report { certificate, .. } | Order::Margins { certificate, .. } =>
            certificate.unwrap_or(""),
        Order::ReportObserved { certificate, .. }
        | Order::Check { certificate, .. }
        | Order::Audit { certificate, .. }
        | Order::Observe { certificate, .. }
        | Order::Bench { certificate, .. } => certificate,
        _ => "",
    }
}

/// The names of the files of an order, in the order in which it opens them; an empty one where it has none.
pub(crate) fn names_of(order: Order<'_>) -> (&str, &str, &str) {
    let third = if let Order::ReportObserved { observed, .. } = order {
        observed
    } else {
        ""
    };
    (told(first_of(order)), told(second_of(order)), told(third))
}
