//! What the words of a command line ask.
ghost use Rattle.std.specs.Prelude.{codes, map, IfOk, IfSome, MatchResult};
ghost use Rattle.std.specs.String.{string_bytes};
ghost use Rattle.clap.specs.Words.{first_value, found_of, rows_of, subcommand_rows_of};
ghost use Rattle.dc_command.specs.Asked.{AreGiven, Asks, AsksBy, AsksIn, BeginIs, Explains, ExplainsIn, DriftIs, HeadroomIs, IsBegin, IsCount, IsDrift, IsHeadroom, IsInRange, IsNoBegin, IsNoCount, IsNoDrift, IsNoHeadroom, IsNoTick, IsNoTickCount, IsTick, IsTickCount, TickIs, TicksAre};
ghost use Rattle.dc_command.specs.Inputs.{HasOneInput};

use crate::explained::{When, when_in};
use crate::inputs::refuse_second_input;
use crate::known::program;
use crate::limits::{
    LAST_BEGIN, LONGEST_TICK, MOST_DRIFT, MOST_HEADROOM, MOST_TICKS, MOST_WORKERS, SHORTEST_TICK,
    USUAL_TICKS,
};
use clap::error::ErrorKind;
use clap::{ArgMatches, Error};
use dc_codes::Code;
use dc_word::Format;
use std::alloc::Global;

/// What is asked.
#[derive(Clone, Copy, Debug, PartialEq, Eq)]
pub enum Order<'a> {
    /// Decode words in this format.
    Decode(Format),
    /// Judge the certificate in a file for the tables in another.
    Check {
        /// The path of the tables.
        tables: &'a str,
        /// The path of the certificate.
        certificate: &'a str,
        /// By how many workers, 1 to [`MOST_WORKERS`](crate::MOST_WORKERS), where that is said.
        workers: Option<u8>,
        /// Whether the digests of both texts are told.
        digest: bool,
    },
    /// Find the least certificate for the tables in a file.
    Find {
        /// The path of the tables.
        tables: &'a str,
    },
    /// Lay out the tables in a file.
    Layout {
        /// The path of the tables.
        tables: &'a str,
    },
    /// Report on the certificate in a file, or on the least one, for the tables in another.
    Report {
        /// The path of the tables.
        tables: &'a str,
        /// The path of the certificate, where there is one.
        certificate: Option<&'a str>,
        /// The drift of clocks, in millionths, 0 to [`MOST_DRIFT`](crate::MOST_DRIFT), where one is said.
        drift: Option<u16>,
    },
    /// Report on the certificate in a file for the tables in another, beside what a run was observed to do by a third.
    ReportObserved {
        /// The path of the tables.
        tables: &'a str,
        /// The path of the certificate.
        certificate: &'a str,
        /// The path of the lines that `observe` wrote of the run.
        observed: &'a str,
        /// The drift of clocks, in millionths, 0 to [`MOST_DRIFT`](crate::MOST_DRIFT), where one is said.
        drift: Option<u16>,
    },
    /// Report on the network of certified concentrators that a text of a system says.
    ReportNetwork {
        /// The path of the text of the system.
        system: &'a str,
    },
    /// Tell the margins of the certificate in a file, or of the least one, for the tables in another.
    Margins {
        /// The path of the tables.
        tables: &'a str,
        /// The path of the certificate, where there is one.
        certificate: Option<&'a str>,
        /// Whether they are told in microseconds too.
        microseconds: bool,
        /// The drift of clocks, in millionths, 0 to [`MOST_DRIFT`](crate::MOST_DRIFT), where one is said.
        drift: Option<u16>,
        /// Whether each line is told as a JSON object.
        json: bool,
    },
    /// Survey the capture on standard input for the tables in a file.
    Survey {
        /// The path of the tables.
        tables: &'a str,
    },
    /// Write the capture on standard input as a trace of the tables in a file.
    Trace {
        /// The path of the tables.
        tables: &'a str,
        /// When tick 0 begins, in microseconds, 0 to [`LAST_BEGIN`](crate::LAST_BEGIN), where that is said.
        from: Option<u64>,
    },
    /// Replay the trace on standard input through the concentrator of the tables in a file.
    Replay {
        /// The path of the tables.
        tables: &'a str,
        /// Whether every reply is printed.
        all: bool,
        /// Whether the trace may be long.
        long: bool,
    },
    /// Audit the trace on standard input against the certificate in a file, for the tables in another.
    Audit {
        /// The path of the tables.
        tables: &'a str,
        /// The path of the certificate.
        certificate: &'a str,
        /// Whether the run may be long.
        long: bool,
    },
    /// Observe the run of the trace on standard input beside the certificate in a file, for the tables in another.
    Observe {
        /// The path of the tables.
        tables: &'a str,
        /// The path of the certificate.
        certificate: &'a str,
    },
    /// Run the concentrator of the tables in a file, with the certificate in another.
    Bench {
        /// The path of the tables.
        tables: &'a str,
        /// The path of the certificate.
        certificate: &'a str,
        /// For how many ticks, 1 to [`MOST_TICKS`](crate::MOST_TICKS).
        ticks: u16,
        /// Whether the greatest backlog of each bus is told.
        marks: bool,
    },
    /// Judge the network of certified concentrators that a text of a system says.
    Network {
        /// The path of the text of the system.
        system: &'a str,
        /// By how many workers each certificate is judged, 1 to [`MOST_WORKERS`](crate::MOST_WORKERS), where that is said.
        workers: Option<u8>,
    },
    /// Design tables for the two sheets of an interface document.
    Design {
        /// The path of the sheet of the inputs.
        inputs: &'a str,
        /// The path of the sheet of the outputs.
        outputs: &'a str,
        /// The length of a tick in microseconds, [`SHORTEST_TICK`](crate::SHORTEST_TICK) to
        /// [`LONGEST_TICK`](crate::LONGEST_TICK), where it is said.
        tick: Option<u16>,
        /// How much is to be left free, in percent, 0 to [`MOST_HEADROOM`](crate::MOST_HEADROOM), where it is said.
        headroom: Option<u8>,
        /// Whether every bus is to refuse early words.
        police: bool,
        /// The path of the file that is to be made for the certificate, where there is one.
        certificate: Option<&'a str>,
    },
    /// Tell what a code means.
    Explain {
        /// The code, or every one where none is said.
        code: Option<Code<'a>>,
    },
}

/// What a command line asks.
#[derive(Clone, Copy, Debug, PartialEq, Eq)]
pub struct Asked<'a> {
    /// What is to be done.
    pub order: Order<'a>,
    /// When it is explained what was refused.
    pub explain: When,
}

/// A text says no number that is in its range.
#[derive(Clone, Copy, Debug, PartialEq, Eq)]
struct OutOfRange;

/// The number of workers that a text says.
fn count_of(text: &str) -> Result<u8, OutOfRange>
    ensures { MatchResult result (λ n. IsCount text.now n) (λ _. IsNoCount text.now) }
{
    match text.parse::<u8>() {
        Ok(count) if 1 <= count && count <= MOST_WORKERS => Ok(count),
        _ => Err(OutOfRange),
    }
}

/// The number of ticks that a text says.
fn tick_count_of(text: &str) -> Result<u16, OutOfRange>
    ensures { MatchResult result (λ n. IsTickCount text.now n) (λ _. IsNoTickCount text.now) }
{
    match text.parse::<u16>() {
        Ok(ticks) if 1 <= ticks && ticks <= MOST_TICKS => Ok(ticks),
        _ => Err(OutOfRange),
    }
}

/// The drift of clocks that a text says, in millionths.
fn drift_of(text: &str) -> Result<u16, OutOfRange>
    ensures { MatchResult result (λ n. IsDrift text.now n) (λ _. IsNoDrift text.now) }
{
    match text.parse::<u16>() {
        Ok(drift) if drift <= MOST_DRIFT => Ok(drift),
        _ => Err(OutOfRange),
    }
}

/// The begin of tick 0 that a text says, in microseconds.
fn begin_of(text: &str) -> Result<u64, OutOfRange>
    ensures { MatchResult result (λ n. IsBegin text.now n) (λ _. IsNoBegin text.now) }
{
    match text.parse::<u64>() {
        Ok(begin) if begin <= LAST_BEGIN => Ok(begin),
        _ => Err(OutOfRange),
    }
}

/// The length of a tick that a text says, in microseconds.
fn tick_of(text: &str) -> Result<u16, OutOfRange>
    ensures { MatchResult result (λ n. IsTick text.now n) (λ _. IsNoTick text.now) }
{
    match text.parse::<u16>() {
        Ok(tick) if SHORTEST_TICK <= tick && tick <= LONGEST_TICK => Ok(tick),
        _ => Err(OutOfRange),
    }
}

/// The headroom that a text says, in percent.
fn headroom_of(text: &str) -> Result<u8, OutOfRange>
    ensures { MatchResult result (λ n. IsHeadroom text.now n) (λ _. IsNoHeadroom text.now) }
{
    match text.parse::<u8>() {
        Ok(headroom) if headroom <= MOST_HEADROOM => Ok(headroom),
        _ => Err(OutOfRange),
    }
}

/// The number of ticks that the matches of `bench` say, `USUAL_TICKS` where they say none.
fn ticks_in(matches: &ArgMatches<'_>) -> Result<u16, OutOfRange>
    ensures { MatchResult result (TicksAre (first_value (found_of matches.now) (codes "ticks")))
        (λ _. IfSome (first_value (found_of matches.now) (codes "ticks")) IsNoTickCount) }
{
    match matches.get_str("ticks") {
        Some(text) => tick_count_of(text),
        None => Ok(USUAL_TICKS),
    }
}

/// The number of workers that the matches of `check` or `network` say.
fn workers_in(matches: &ArgMatches<'_>) -> Result<Option<u8>, OutOfRange>
    ensures { MatchResult result (AreGiven (first_value (found_of matches.now) (codes "workers")))
        (λ _. IfSome (first_value (found_of matches.now) (codes "workers")) IsNoCount) }
{
    match matches.get_str("workers") {
        Some(text) => match count_of(text) {
            Ok(count) => Ok(Some(count)),
            Err(out) => Err(out),
        },
        None => Ok(None),
    }
}

/// The drift of clocks that the matches of `report` or `margins` say.
fn drift_in(matches: &ArgMatches<'_>) -> Result<Option<u16>, OutOfRange>
    ensures { MatchResult result (DriftIs (first_value (found_of matches.now) (codes "drift")))
        (λ _. IfSome (first_value (found_of matches.now) (codes "drift")) IsNoDrift) }
{
    match matches.get_str("drift") {
        Some(text) => match drift_of(text) {
            Ok(drift) => Ok(Some(drift)),
            Err(out) => Err(out),
        },
        None => Ok(None),
    }
}

/// The begin of tick 0 that the matches of `trace` say.
fn begin_in(matches: &ArgMatches<'_>) -> Result<Option<u64>, OutOfRange>
    ensures { MatchResult result (BeginIs (first_value (found_of matches.now) (codes "from")))
        (λ _. IfSome (first_value (found_of matches.now) (codes "from")) IsNoBegin) }
{
    match matches.get_str("from") {
        Some(text) => match begin_of(text) {
            Ok(begin) => Ok(Some(begin)),
            Err(out) => Err(out),
        },
        None => Ok(None),
    }
}

/// The length of a tick that the matches of `design` say.
fn tick_in(matches: &ArgMatches<'_>) -> Result<Option<u16>, OutOfRange>
    ensures { MatchResult result (TickIs (first_value (found_of matches.now) (codes "tick")))
        (λ _. IfSome (first_value (found_of matches.now) (codes "tick")) IsNoTick) }
{
    match matches.get_str("tick") {
        Some(text) => match tick_of(text) {
            Ok(tick) => Ok(Some(tick)),
            Err(out) => Err(out),
        },
        None => Ok(None),
    }
}

/// The headroom that the matches of `design` say.
fn headroom_in(matches: &ArgMatches<'_>) -> Result<Option<u8>, OutOfRange>
    ensures { MatchResult result (HeadroomIs (first_value (found_of matches.now) (codes "headroom")))
        (λ _. IfSome (first_value (found_of matches.now) (codes "headroom")) IsNoHeadroom) }
{
    match matches.get_str("headroom") {
        Some(text) => match headroom_of(text) {
            Ok(headroom) => Ok(Some(headroom)),
            Err(out) => Err(out),
        },
        None => Ok(None),
    }
}

/// What the matches of `decode` ask.
fn decode_in<'a>(matches: &ArgMatches<'a>) -> Option<Order<'a>>
    ensures { IfSome result (AsksBy (codes "decode") (rows_of (found_of matches.now))) }
{
    match matches.get_str("format")? {
        "bnr" => Some(Order::Decode(Format::Bnr)),
        "bcd" => Some(Order::Decode(Format::Bcd)),
        "disc" => Some(Order::Decode(Format::Disc)),
        _ => None,
    }
}

/// What the matches of `check` ask.
fn check_in<'a>(matches: &ArgMatches<'a>) -> Option<Order<'a>>
    ensures { IfSome result (AsksBy (codes "check") (rows_of (found_of matches.now))) }
{
    let tables = matches.get_str("TABLES")?;
    let certificate = matches.get_str("CERT")?;
    let digest = matches.get_flag("digest");
    match workers_in(matches) {
        Ok(workers) => Some(Order::Check {
            tables,
            certificate,
            workers,
            digest,
        }),
        Err(_) => None,
    }
}

/// What the matches of `find` ask.
fn find_in<'a>(matches: &ArgMatches<'a>) -> Option<Order<'a>>
    ensures { IfSome result (AsksBy (codes "find") (rows_of (found_of matches.now))) }
{
    let tables = matches.get_str("TABLES")?;
    Some(Order::Find { tables })
}

/// What the matches of `layout` ask.
fn layout_in<'a>(matches: &ArgMatches<'a>) -> Option<Order<'a>>
    ensures { IfSome result (AsksBy (codes "layout") (rows_of (found_of matches.now))) }
{
    let tables = matches.get_str("TABLES")?;
    Some(Order::Layout { tables })
}

/// What the matches of `report` ask of tables and of what a run was observed to do.
fn observed_report_in<'a>(matches: &ArgMatches<'a>) -> Option<Order<'a>>
    ensures { IfSome result (AsksBy (codes "report") (rows_of (found_of matches.now))) }
{
    let tables = matches.get_str("TABLES")?;
    let certificate = matches.get_str("CERT")?;
    let observed = matches.get_str("observed")?;
    match drift_in(matches) {
        Ok(drift) => Some(Order::ReportObserved {
            tables,
            certificate,
            observed,
            drift,
        }),
        Err(_) => None,
    }
}

/// What the matches of `report` ask of tables.
fn tables_report_in<'a>(matches: &ArgMatches<'a>) -> Option<Order<'a>>
    ensures { IfSome result (AsksBy (codes "report") (rows_of (found_of matches.now))) }
{
    let tables = matches.get_str("TABLES")?;
    let certificate = matches.get_str("CERT");
    match matches.get_str("observed") {
        Some(_) => observed_report_in(matches),
        None => match drift_in(matches) {
            Ok(drift) => Some(Order::Report {
                tables,
                certificate,
                drift,
            }),
            Err(_) => None,
        },
    }
}

/// What the matches of `report` ask.
fn report_in<'a>(matches: &ArgMatches<'a>) -> Option<Order<'a>>
    ensures { IfSome result (AsksBy (codes "report") (rows_of (found_of matches.now))) }
{
    match matches.get_str("network") {
        Some(system) => Some(Order::ReportNetwork { system }),
        None => tables_report_in(matches),
    }
}

/// What the matches of `margins` ask.
fn margins_in<'a>(matches: &ArgMatches<'a>) -> Option<Order<'a>>
    ensures { IfSome result (AsksBy (codes "margins") (rows_of (found_of matches.now))) }
{
    let tables = matches.get_str("TABLES")?;
    let certificate = matches.get_str("CERT");
    let microseconds = matches.get_flag("us");
    let json = matches.get_flag("json");
    match drift_in(matches) {
        Ok(drift) => Some(Order::Margins {
            tables,
            certificate,
            microseconds,
            drift,
            json,
        }),
        Err(_) => None,
    }
}

/// What the matches of `survey` ask.
fn survey_in<'a>(matches: &ArgMatches<'a>) -> Option<Order<'a>>
    ensures { IfSome result (AsksBy (codes "survey") (rows_of (found_of matches.now))) }
{
    let tables = matches.get_str("TABLES")?;
    Some(Order::Survey { tables })
}

/// What the matches of `trace` ask.
fn trace_in<'a>(matches: &ArgMatches<'a>) -> Option<Order<'a>>
    ensures { IfSome result (AsksBy (codes "trace") (rows_of (found_of matches.now))) }
{
    let tables = matches.get_str("TABLES")?;
    match begin_in(matches) {
        Ok(from) => Some(Order::Trace { tables, from }),
        Err(_) => None,
    }
}

/// What the matches of `replay` ask.
fn replay_in<'a>(matches: &ArgMatches<'a>) -> Option<Order<'a>>
    ensures { IfSome result (AsksBy (codes "replay") (rows_of (found_of matches.now))) }
{
    let tables = matches.get_str("TABLES")?;
    let all = matches.get_flag("all");
    let long = matches.get_flag("long");
    Some(Order::Replay { tables, all, long })
}

/// What the matches of `audit` ask.
fn audit_in<'a>(matches: &ArgMatches<'a>) -> Option<Order<'a>>
    ensures { IfSome result (AsksBy (codes "audit") (rows_of (found_of matches.now))) }
{
    let tables = matches.get_str("TABLES")?;
    let certificate = matches.get_str("CERT")?;
    let long = matches.get_flag("long");
    Some(Order::Audit {
        tables,
        certificate,
        long,
    })
}

/// What the matches of `observe` ask.
fn observe_in<'a>(matches: &ArgMatches<'a>) -> Option<Order<'a>>
    ensures { IfSome result (AsksBy (codes "observe") (rows_of (found_of matches.now))) }
{
    let tables = matches.get_str("TABLES")?;
    let certificate = matches.get_str("CERT")?;
    Some(Order::Observe {
        tables,
        certificate,
    })
}

/// What the matches of `bench` ask.
fn bench_in<'a>(matches: &ArgMatches<'a>) -> Option<Order<'a>>
    ensures { IfSome result (AsksBy (codes "bench") (rows_of (found_of matches.now))) }
{
    let tables = matches.get_str("TABLES")?;
    let certificate = matches.get_str("CERT")?;
    let marks = matches.get_flag("marks");
    match ticks_in(matches) {
        Ok(ticks) => Some(Order::Bench {
            tables,
            certificate,
            ticks,
            marks,
        }),
        Err(_) => None,
    }
}

/// What the matches of `network` ask.
fn network_in<'a>(matches: &ArgMatches<'a>) -> Option<Order<'a>>
    ensures { IfSome result (AsksBy (codes "network") (rows_of (found_of matches.now))) }
{
    let system = matches.get_str("SYSTEM")?;
    match workers_in(matches) {
        Ok(workers) => Some(Order::Network { system, workers }),
        Err(_) => None,
    }
}

/// What the matches of `design` ask.
fn design_in<'a>(matches: &ArgMatches<'a>) -> Option<Order<'a>>
    ensures { IfSome result (AsksBy (codes "design") (rows_of (found_of matches.now))) }
{
    let inputs = matches.get_str("INPUTS")?;
    let outputs = matches.get_str("OUTPUTS")?;
    let certificate = matches.get_str("certificate");
    let police = matches.get_flag("police");
    match tick_in(matches) {
        Ok(tick) => match headroom_in(matches) {
            Ok(headroom) => Some(Order::Design {
                inputs,
                outputs,
                tick,
                headroom,
                police,
                certificate,
            }),
            Err(_) => None,
        },
        Err(_) => None,
    }
}

/// What the matches of `explain` ask.
fn explain_in<'a>(matches: &ArgMatches<'a>) -> Option<Order<'a>>
    ensures { IfSome result (AsksBy (codes "explain") (rows_of (found_of matches.now))) }
{
    let all = matches.get_flag("all");
    match matches.get_str("CODE") {
        Some(text) => {
            if all {
                return None;
            }
            let code = Code::named(text)?;
            Some(Order::Explain { code: Some(code) })
        }
        None => {
            if all {
                Some(Order::Explain { code: None })
            } else {
                None
            }
        }
    }
}

/// What the matches of a command of this name ask, where they have what is required.
fn order_by<'a>(name: &str, matches: &ArgMatches<'a>) -> Option<Order<'a>>
    ensures { IfSome result (AsksBy name.now (rows_of (found_of matches.now))) }
{
    match name {
        "decode" => decode_in(matches),
        "check" => check_in(matches),
        "find" => find_in(matches),
        "layout" => layout_in(matches),
        "report" => report_in(matches),
        "margins" => margins_in(matches),
        "survey" => survey_in(matches),
        "trace" => trace_in(matches),
        "replay" => replay_in(matches),
        "audit" => audit_in(matches),
        "observe" => observe_in(matches),
        "bench" => bench_in(matches),
        "network" => network_in(matches),
        "design" => design_in(matches),
        "explain" => explain_in(matches),
        _ => None,
    }
}

/// What the matches of the program ask.
fn order_in<'a>(matches: &ArgMatches<'a>) -> Option<Order<'a>>
    ensures { IfSome result (Asks (subcommand_rows_of matches.now)) }
{
    let (name, matches) = matches.subcommand()?;
    order_by(name, matches)
}

/// When the matches of the program ask to explain.
fn when_asked(matches: &ArgMatches<'_>) -> Option<When>
    ensures { IfSome result (Explains (subcommand_rows_of matches.now)) }
{
    let (_, matches) = matches.subcommand()?;
    when_in(matches)
}

/// What is said of a command line that asks for nothing which there is.
fn fault_of(matches: &ArgMatches<'_>) -> &'static str {
    match matches.subcommand() {
        Some(("explain", _)) => "explain wants one code that is printed, as C06, or --all alone",
        _ => "a value is out of its range",
    }
}

/// What the matches of the program ask, and when they ask to explain; else what is said of them.
fn asked_in<'a>(matches: &ArgMatches<'a>) -> Result<Asked<'a>, &'static str>
    ensures asks { IfOk result (λ asked. Asks (subcommand_rows_of matches.now) asked.order) }
    ensures explains { IfOk result (λ asked. Explains (subcommand_rows_of matches.now) asked.explain) }
    ensures one_input { IfOk result (λ asked. HasOneInput asked.order) }
{
    let Some(order) = order_in(matches) else {
        return Err(fault_of(matches));
    };
    let Some(explain) = when_asked(matches) else {
        return Err("invalid value for '--explain <WHEN>' [possible values: always, never, auto]");
    };
    refuse_second_input(&order)?;
    Ok(Asked { order, explain })
}

/// What the words ask, of which the first is the program's name.
///
/// # Errors
/// With clap's text, which is to be printed, and its exit code: when it comes no clause says. That it does for words
/// that ask for help or the version, or are no command line of the program, is tested.
pub fn command<'a>(alloc: Global, words: &'a [String]) -> Result<Asked<'a>, Error>
    ensures asks { IfOk result (λ asked. AsksIn (map string_bytes words.now) asked.order) }
    ensures explains { IfOk result (λ asked. ExplainsIn (map string_bytes words.now) asked.explain) }
    ensures range { IfOk result (λ asked. IsInRange asked.order) }
    ensures one_input { IfOk result (λ asked. HasOneInput asked.order) }
{
    let mut program = program(alloc)?;
    let matches = program.try_get_matches_from_mut(words)?;
    match asked_in(&matches) {
        Ok(asked) => Ok(asked),
        Err(fault) => Err(program.error(ErrorKind::InvalidValue, fault)?),
    }
}
