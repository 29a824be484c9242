//! The commands that there are, with their arguments and what is said of them.
ghost use Rattle.std.specs.Prelude.{◌≡◌, false, codes, IfOk};
ghost use Rattle.clap.specs.Words.{App, Rule, new_app, new_rule, rule_of, with_rule, with_subcommand};
ghost use Rattle.dc_command.specs.Program.{IsDecode, IsProgram, IsRead, IsReadOf, audit_app, bare_app, bench_app, certificate_app, certificate_rule, certified_report_app, check_app, design_app, drift_rule, explain_app, explain_rule, file_rule, flag_rule, from_rule, headroom_rule, margins_app, network_app, network_rule, observed_rule, replay_app, report_app, reported_tables_rule, sheets_app, some_certificate_rule, tables_app, tick_rule, ticks_rule, tied_rule, trace_app, workers_rule};

use crate::after::{
    AFTER_AUDIT, AFTER_BENCH, AFTER_CHECK, AFTER_DECODE, AFTER_DESIGN, AFTER_EXPLAIN, AFTER_FIND,
    AFTER_LAYOUT, AFTER_MARGINS, AFTER_NETWORK, AFTER_OBSERVE, AFTER_REPLAY, AFTER_REPORT,
    AFTER_SURVEY, AFTER_TRACE,
};
use crate::identity::VERSION;
use crate::limits::{
    LAST_BEGIN, LONGEST_TICK, MOST_DRIFT, MOST_HEADROOM, MOST_TICKS, MOST_WORKERS, SHORTEST_TICK,
};
use clap::builder::ValueParser;
use clap::{Arg, ArgAction, Command, Error, value_parser};
use std::alloc::Global;

/// A file that is read.
fn file<'a>(alloc: Global, name: &'a str, help: &'a str) -> Arg<'a>
    ensures rule { rule_of result ≡ file_rule name.entry.now }
    ensures local { result.global ≡ false }
{
    Arg::new(alloc, name).help(help).required(true)
}

/// What need not be said.
fn optional<'a>(alloc: Global, name: &'a str, help: &'a str) -> Arg<'a>
    ensures rule { rule_of result ≡ new_rule name.entry.now }
    ensures local { result.global ≡ false }
{
    Arg::new(alloc, name).help(help)
}

/// The option `--explain`, told behind the others.
fn explained<'a>(alloc: Global) -> Arg<'a>
    ensures rule { rule_of result ≡ explain_rule }
    ensures local { result.global ≡ false }
{
    Arg::new(alloc, "explain")
        .long("explain")
        .value_name("WHEN")
        .help("Explains refusals on stderr: always, never or auto")
        .display_order(100)
}

/// A flag.
fn flag<'a>(alloc: Global, name: &'a str, help: &'a str) -> Arg<'a>
    ensures rule { rule_of result ≡ flag_rule name.entry.now }
    ensures local { result.global ≡ false }
{
    Arg::new(alloc, name)
        .long(name)
        .help(help)
        .action(ArgAction::SetTrue)
}

/// A subcommand without its arguments.
fn named<'a>(alloc: Global, name: &'a str, about: &'a str, after: &'a str) -> Command<'a>
    ensures { IsRead (new_app name.entry.now) result }
{
    Command::new(alloc, name).about(about).after_help(after)
}

/// A command with one argument more.
fn with_argument<'a>(
    command: Result<Command<'a>, Error>,
    argument: Arg<'a>,
) -> Result<Command<'a>, Error>
    ensures { (app : App) (rule : Rule) → IfOk command.entry (IsRead app) → rule_of argument.entry ≡ rule → argument.entry.global ≡ false
        → IfOk result (IsRead (with_rule app rule)) }
{
    Ok(command?.arg(argument)?)
}

/// A program with one command more.
fn with_command<'a>(
    program: Result<Command<'a>, Error>,
    command: Result<Command<'a>, Error>,
) -> Result<Command<'a>, Error>
    ensures { (app own : App) → IfOk program.entry (IsRead app) → IfOk command.entry (IsRead own)
        → IfOk result (IsRead (with_subcommand app own.top)) }
{
    Ok(program?.subcommand(command?)?)
}

/// A subcommand that reads tables.
fn on_tables<'a>(
    alloc: Global,
    name: &'a str,
    about: &'a str,
    after: &'a str,
) -> Result<Command<'a>, Error>
    ensures { IfOk result (IsRead (tables_app name.entry.now)) }
{
    let explaining = with_argument(Ok(named(alloc, name, about, after)), explained(alloc));
    with_argument(explaining, file(alloc, "TABLES", "The tables, in TOML"))
}

/// A subcommand that reads tables and a certificate.
fn on_certificate<'a>(
    alloc: Global,
    name: &'a str,
    about: &'a str,
    after: &'a str,
) -> Result<Command<'a>, Error>
    ensures { IfOk result (IsRead (certificate_app name.entry.now)) }
{
    let on_tables = on_tables(alloc, name, about, after);
    with_argument(on_tables, file(alloc, "CERT", "The certificate, in JSON"))
}

/// A certificate that need not be given.
fn some_certificate<'a>(alloc: Global) -> Arg<'a>
    ensures rule { rule_of result ≡ some_certificate_rule }
    ensures local { result.global ≡ false }
{
    optional(
        alloc,
        "CERT",
        "The certificate, in JSON; without it the least one is taken",
    )
}

/// The command `decode`.
fn decode<'a>(alloc: Global) -> Result<Command<'a>, Error>
    ensures { IfOk result IsDecode }
{
    let format = Arg::new(alloc, "format")
        .help("How the words' data is written")
        .required(true)
        .value_parser(["bnr", "bcd", "disc"].as_slice());
    Ok(
        named(
            alloc,
            "decode",
            "Decodes ARINC 429 words from standard input, one a line",
            AFTER_DECODE,
        )
        .arg(explained(alloc))?
        .arg(format)?,
    )
}

/// The option `--workers`.
fn workers<'a>(alloc: Global) -> Arg<'a>
    ensures rule { rule_of result ≡ workers_rule }
    ensures local { result.global ≡ false }
{
    Arg::new(alloc, "workers")
        .long("workers")
        .value_name("N")
        .help("Checks by so many threads, 1 to 64")
        .value_parser(value_parser!(u8).range(1..=i64::from(MOST_WORKERS)))
}

/// The command `check`.
fn check<'a>(alloc: Global) -> Result<Command<'a>, Error>
    ensures { IfOk result (IsRead check_app) }
{
    let digest = flag(
        alloc,
        "digest",
        "Prints the SHA-256 of both texts behind the verdict",
    );
    let check = on_certificate(
        alloc,
        "check",
        "Judges a certificate for tables, and prints the verdict",
        AFTER_CHECK,
    );
    with_argument(with_argument(check, workers(alloc)), digest)
}

/// The command `find`.
fn find<'a>(alloc: Global) -> Result<Command<'a>, Error>
    ensures { IfOk result (IsRead (tables_app (codes "find"))) }
{
    on_tables(
        alloc,
        "find",
        "Finds the least certificate for tables, or what is in its way",
        AFTER_FIND,
    )
}

/// The command `layout`.
fn layout<'a>(alloc: Global) -> Result<Command<'a>, Error>
    ensures { IfOk result (IsRead (tables_app (codes "layout"))) }
{
    on_tables(
        alloc,
        "layout",
        "Lays tables out: frames, offsets and stale times, certified",
        AFTER_LAYOUT,
    )
}

/// The option `--drift`.
fn drift<'a>(alloc: Global) -> Arg<'a>
    ensures rule { rule_of result ≡ drift_rule }
    ensures local { result.global ≡ false }
{
    Arg::new(alloc, "drift")
        .long("drift")
        .value_name("PPM")
        .help("Tells of clocks that drift by 0 to 1000 millionths")
        .value_parser(value_parser!(u16).range(0..=i64::from(MOST_DRIFT)))
}

/// The tables of `report`, which are wanted where no network is said.
fn reported_tables<'a>(alloc: Global) -> Result<Arg<'a>, Error>
    ensures { IfOk result (IsReadOf reported_tables_rule) }
{
    Ok(optional(alloc, "TABLES", "The tables, in TOML").required_unless_present("network")?)
}

/// The option `--observed`.
fn observed<'a>(alloc: Global) -> Arg<'a>
    ensures rule { rule_of result ≡ observed_rule }
    ensures local { result.global ≡ false }
{
    Arg::new(alloc, "observed")
        .long("observed")
        .value_name("FILE")
        .help("Shows what observe wrote into this file beside CERT")
}

/// The option `--observed`, which wants a certificate.
fn observed_beside<'a>(alloc: Global) -> Result<Arg<'a>, Error>
    ensures { IfOk result (IsReadOf (tied_rule observed_rule)) }
{
    Ok(observed(alloc).requires_arg("CERT")?)
}

/// The option `--network`.
fn reported<'a>(alloc: Global) -> Arg<'a>
    ensures rule { rule_of result ≡ network_rule }
    ensures local { result.global ≡ false }
{
    Arg::new(alloc, "network")
        .long("network")
        .value_name("SYSTEM")
        .help("Reports on this system's network, in place of TABLES")
}

/// The option `--network`, beside which nothing else stands that `report` reads.
fn reported_alone<'a>(alloc: Global) -> Result<Arg<'a>, Error>
    ensures { IfOk result (IsReadOf (tied_rule network_rule)) }
{
    let no_tables = reported(alloc).conflicts_with("TABLES")?;
    let no_certificate = no_tables.conflicts_with("CERT")?;
    let no_observed = no_certificate.conflicts_with("observed")?;
    Ok(no_observed.conflicts_with("drift")?)
}

/// The command `report` on tables, and on a certificate where one is given.
fn certified_report<'a>(alloc: Global) -> Result<Command<'a>, Error>
    ensures { IfOk result (IsRead certified_report_app) }
{
    let tables = reported_tables(alloc)?;
    let report = named(
        alloc,
        "report",
        "Writes a page of HTML: why a certificate is accepted or refused",
        AFTER_REPORT,
    );
    let explaining = with_argument(Ok(report), explained(alloc));
    let reading = with_argument(explaining, tables);
    with_argument(reading, some_certificate(alloc))
}

/// The command `report`.
fn report<'a>(alloc: Global) -> Result<Command<'a>, Error>
    ensures { IfOk result (IsRead report_app) }
{
    let observed = observed_beside(alloc)?;
    let network = reported_alone(alloc)?;
    let drifting = with_argument(certified_report(alloc), drift(alloc));
    with_argument(with_argument(drifting, observed), network)
}

/// The command `margins`.
fn margins<'a>(alloc: Global) -> Result<Command<'a>, Error>
    ensures { IfOk result (IsRead margins_app) }
{
    let us = flag(
        alloc,
        "us",
        "Tells margins that count ticks in microseconds too",
    );
    let margins = on_tables(
        alloc,
        "margins",
        "Judges a certificate, and how far each condition is from failing",
        AFTER_MARGINS,
    );
    let certified = with_argument(margins, some_certificate(alloc));
    let drifting = with_argument(with_argument(certified, us), drift(alloc));
    let json = flag(
        alloc,
        "json",
        "Tells each line as a JSON object, for scripts",
    );
    with_argument(drifting, json)
}

/// The command `survey`.
fn survey<'a>(alloc: Global) -> Result<Command<'a>, Error>
    ensures { IfOk result (IsRead (tables_app (codes "survey"))) }
{
    on_tables(
        alloc,
        "survey",
        "Surveys the capture on standard input: what buses and streams kept",
        AFTER_SURVEY,
    )
}

/// The option `--from`.
fn from<'a>(alloc: Global) -> Arg<'a>
    ensures rule { rule_of result ≡ from_rule }
    ensures local { result.global ≡ false }
{
    Arg::new(alloc, "from")
        .long("from")
        .value_name("US")
        .help("Begins tick 0 at this microsecond, 0 to 9007199254740992")
        .value_parser(ValueParser::unsigned(0, LAST_BEGIN))
}

/// The command `trace`.
fn trace<'a>(alloc: Global) -> Result<Command<'a>, Error>
    ensures { IfOk result (IsRead trace_app) }
{
    let trace = on_tables(
        alloc,
        "trace",
        "Writes the capture on standard input as a trace of the steady run",
        AFTER_TRACE,
    );
    with_argument(trace, from(alloc))
}

/// The command `replay`.
fn replay<'a>(alloc: Global) -> Result<Command<'a>, Error>
    ensures { IfOk result (IsRead replay_app) }
{
    let all = flag(
        alloc,
        "all",
        "Prints every reply, not only words that are sent or lost",
    );
    let long = flag(alloc, "long", "Takes up to 1099511627776 bytes of trace");
    let replay = on_tables(
        alloc,
        "replay",
        "Replays the trace on standard input through the concentrator",
        AFTER_REPLAY,
    );
    with_argument(with_argument(replay, all), long)
}

/// The command `audit`.
fn audit<'a>(alloc: Global) -> Result<Command<'a>, Error>
    ensures { IfOk result (IsRead audit_app) }
{
    let long = flag(
        alloc,
        "long",
        "Takes any number of events, up to 1099511627776 bytes",
    );
    let audit = on_certificate(
        alloc,
        "audit",
        "Audits the trace on standard input: budgets, sources and claims",
        AFTER_AUDIT,
    );
    with_argument(audit, long)
}

/// The command `observe`.
fn observe<'a>(alloc: Global) -> Result<Command<'a>, Error>
    ensures { IfOk result (IsRead (certificate_app (codes "observe"))) }
{
    on_certificate(
        alloc,
        "observe",
        "Tells how near the trace on standard input came to a certificate",
        AFTER_OBSERVE,
    )
}

/// The option `--ticks`.
fn ticks<'a>(alloc: Global) -> Arg<'a>
    ensures rule { rule_of result ≡ ticks_rule }
    ensures local { result.global ≡ false }
{
    Arg::new(alloc, "ticks")
        .long("ticks")
        .value_name("N")
        .help("Runs for so many ticks, 1 to 1000; else for 200")
        .value_parser(value_parser!(u16).range(1..=i64::from(MOST_TICKS)))
}

/// The command `bench`.
fn bench<'a>(alloc: Global) -> Result<Command<'a>, Error>
    ensures { IfOk result (IsRead bench_app) }
{
    let marks = flag(
        alloc,
        "marks",
        "Prints each bus's greatest backlog and the certificate's",
    );
    let bench = on_certificate(
        alloc,
        "bench",
        "Runs the concentrator by a thread for each actor, and audits it",
        AFTER_BENCH,
    );
    with_argument(with_argument(bench, ticks(alloc)), marks)
}

/// The command `network`.
fn network<'a>(alloc: Global) -> Result<Command<'a>, Error>
    ensures { IfOk result (IsRead network_app) }
{
    let network = named(
        alloc,
        "network",
        "Judges a network of concentrators, and tells how old data can be",
        AFTER_NETWORK,
    );
    let explaining = with_argument(Ok(network), explained(alloc));
    let reading = with_argument(explaining, file(alloc, "SYSTEM", "The system, in TOML"));
    with_argument(reading, workers(alloc))
}

/// The option `--tick`.
fn tick<'a>(alloc: Global) -> Arg<'a>
    ensures rule { rule_of result ≡ tick_rule }
    ensures local { result.global ≡ false }
{
    Arg::new(alloc, "tick")
        .long("tick")
        .value_name("US")
        .help("Takes ticks of so many microseconds, 100 to 10000")
        .value_parser(value_parser!(u16).range(i64::from(SHORTEST_TICK)..=i64::from(LONGEST_TICK)))
}

/// The option `--headroom`.
fn headroom<'a>(alloc: Global) -> Arg<'a>
    ensures rule { rule_of result ≡ headroom_rule }
    ensures local { result.global ≡ false }
{
    Arg::new(alloc, "headroom")
        .long("headroom")
        .value_name("PERCENT")
        .help("Leaves so many percent free everywhere, 0 to 90")
        .value_parser(value_parser!(u8).range(0..=i64::from(MOST_HEADROOM)))
}

/// The option `--certificate`.
fn certificate<'a>(alloc: Global) -> Arg<'a>
    ensures rule { rule_of result ≡ certificate_rule }
    ensures local { result.global ≡ false }
{
    Arg::new(alloc, "certificate")
        .long("certificate")
        .value_name("FILE")
        .help("Writes the tables' certificate into this file")
}

/// The command `design` without its options.
fn on_sheets<'a>(alloc: Global) -> Result<Command<'a>, Error>
    ensures { IfOk result (IsRead sheets_app) }
{
    let design = named(
        alloc,
        "design",
        "Designs certified tables for the two sheets of a document",
        AFTER_DESIGN,
    );
    let explaining = with_argument(Ok(design), explained(alloc));
    let one = with_argument(
        explaining,
        file(alloc, "INPUTS", "The sheet of the inputs, in CSV"),
    );
    with_argument(
        one,
        file(alloc, "OUTPUTS", "The sheet of the outputs, in CSV"),
    )
}

/// The command `design`.
fn design<'a>(alloc: Global) -> Result<Command<'a>, Error>
    ensures { IfOk result (IsRead design_app) }
{
    let police = flag(alloc, "police", "Lets every bus refuse early words");
    let timed = with_argument(on_sheets(alloc), tick(alloc));
    let roomy = with_argument(timed, headroom(alloc));
    with_argument(with_argument(roomy, police), certificate(alloc))
}

/// The command `explain`.
fn explain<'a>(alloc: Global) -> Result<Command<'a>, Error>
    ensures { IfOk result (IsRead explain_app) }
{
    let code = optional(
        alloc,
        "CODE",
        "A code or word as it is printed, in either case: C06, t16, owed",
    );
    let explain = named(
        alloc,
        "explain",
        "Tells what a printed code means, and what to do: explain C06",
        AFTER_EXPLAIN,
    );
    with_argument(
        with_argument(Ok(explain), code),
        flag(alloc, "all", "Tells every code"),
    )
}

/// The program without its commands.
fn bare<'a>(alloc: Global) -> Command<'a>
    ensures { IsRead bare_app result }
{
    Command::new(alloc, "dc429")
        .about("An ARINC 429 concentrator that is certified before it flies")
        .version(VERSION)
        .subcommand_required(true)
}

/// The program with its commands, in the order in which its help tells them.
pub fn program<'a>(alloc: Global) -> Result<Command<'a>, Error>
    ensures { IfOk result IsProgram }
{
    let decode = decode(alloc)?;
    let program = with_command(Ok(bare(alloc)), Ok(decode));
    let program = with_command(program, check(alloc));
    let program = with_command(program, find(alloc));
    let program = with_command(program, survey(alloc));
    let program = with_command(program, trace(alloc));
    let program = with_command(program, replay(alloc));
    let program = with_command(program, audit(alloc));
    let program = with_command(program, observe(alloc));
    let program = with_command(program, bench(alloc));
    let program = with_command(program, network(alloc));
    let program = with_command(program, report(alloc));
    let program = with_command(program, margins(alloc));
    let program = with_command(program, design(alloc));
    let program = with_command(program, layout(alloc));
    with_command(program, explain(alloc))
}
