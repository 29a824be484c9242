//! The engines whose certificate may be left out, and the page on what was observed beside it.
ghost use Rattle.std.specs.Prelude.{◌≡◌, None, Some};
ghost use Rattle.dc_answer.specs.Judging.{Leaves};
ghost use Rattle.dc_device.specs.States.{CanFail, SourceState};
ghost use Rattle.dc_command.specs.declared.asked.Order.TheVariants.{Margins, Report, ReportObserved};
ghost use Rattle.dc_program.specs.Carries.{Carries};
ghost use Rattle.dc_program.specs.World.{IsNew};

use crate::opening::{end_unopened, open_both, open_one, open_three};
use crate::world::World;
use dc_answer::Exit;
use dc_command::{LOGIC, VERSION};
use dc_device::Sink;
use dc_digest::{Hashed, Hashing};
use dc_run_margins::{Telling, run_margins_least_told, run_margins_told};
use dc_run_report::{PageOf, TextOf, run_report_least_of, run_report_observed, run_report_of};
use std::alloc::Global;

/// The digests of the texts of a page while these are read.
#[derive(Drop)]
struct Digests {
    tables: Hashing,
    certificate: Hashing,
    observed: Hashing,
}

impl Digests {
    /// Those of texts of which nothing was read yet.
    fn new() -> Self {
        Digests {
            tables: Hashing::new(),
            certificate: Hashing::new(),
            observed: Hashing::new(),
        }
    }
}

/// What a page on the least certificate says that it is of.
fn of_tables<'n, 'h>(tables: &'n str, hashing: &'h Hashing) -> PageOf<'n, 'h> {
    PageOf {
        tables: TextOf {
            name: tables,
            hashing,
        },
        certificate: None,
        observed: None,
        version: VERSION,
        logic: LOGIC,
    }
}

/// What a page on a certificate says that it is of.
fn of_both<'n, 'h>(tables: &'n str, certificate: &'n str, digests: &'h Digests) -> PageOf<'n, 'h> {
    PageOf {
        certificate: Some(TextOf {
            name: certificate,
            hashing: &digests.certificate,
        }),
        ..of_tables(tables, &digests.tables)
    }
}

/// What a page on a certificate and on what was observed says that it is of.
fn of_three<'n, 'h>(
    tables: &'n str,
    certificate: &'n str,
    observed: &'n str,
    digests: &'h Digests,
) -> PageOf<'n, 'h> {
    PageOf {
        observed: Some(TextOf {
            name: observed,
            hashing: &digests.observed,
        }),
        ..of_both(tables, certificate, digests)
    }
}

/// Writes the page on the least certificate.
fn page_least<'a, W: World<'a>, K: Sink>(
    alloc: Global,
    world: &mut W,
    sink: &mut K,
    tables: &'a str,
    drift: Option<u16>,
) -> Exit
    requires new { IsNew (W.state world.old) }
    requires sink { CanFail (K.state sink.old) }
    ensures carries { (input : SourceState) → Carries (Report tables.entry None drift) (W.state world.old) (W.state world.new) input input (K.state sink.old)
        (K.state sink.new) result }
    ensures left { Leaves (K.state sink.old) (K.state sink.new) }
{
    match open_one(world, tables) {
        Ok(source) => {
            let hashing = Hashing::new();
            let of = of_tables(tables, &hashing);
            let mut hashed = Hashed {
                source,
                hashing: &hashing,
            };
            run_report_least_of(alloc, drift, Some(of), &mut hashed, sink)
        }
        Err(why) => end_unopened(why, sink),
    }
}

/// Writes the page on a certificate.
fn page_given<'a, W: World<'a>, K: Sink>(
    alloc: Global,
    world: &mut W,
    sink: &mut K,
    tables: &'a str,
    certificate: &'a str,
    drift: Option<u16>,
) -> Exit
    requires new { IsNew (W.state world.old) }
    requires sink { CanFail (K.state sink.old) }
    ensures carries { (input : SourceState) → Carries (Report tables.entry (Some certificate.entry) drift) (W.state world.old) (W.state world.new) input input
        (K.state sink.old) (K.state sink.new) result }
    ensures left { Leaves (K.state sink.old) (K.state sink.new) }
{
    match open_both(world, tables, certificate) {
        Ok((rows, claims)) => {
            let digests = Digests::new();
            let of = of_both(tables, certificate, &digests);
            let mut rows = Hashed {
                source: rows,
                hashing: &digests.tables,
            };
            let mut claims = Hashed {
                source: claims,
                hashing: &digests.certificate,
            };
            run_report_of(alloc, drift, Some(of), &mut rows, &mut claims, sink)
        }
        Err(why) => end_unopened(why, sink),
    }
}

/// Writes the page on a certificate, or on the least one.
pub fn page<'a, W: World<'a>, K: Sink>(
    alloc: Global,
    world: &mut W,
    sink: &mut K,
    tables: &'a str,
    certificate: Option<&'a str>,
    drift: Option<u16>,
) -> Exit
    requires new { IsNew (W.state world.old) }
    requires sink { CanFail (K.state sink.old) }
    ensures carries { (input : SourceState) → Carries (Report tables.entry certificate.entry drift) (W.state world.old) (W.state world.new) input input
        (K.state sink.old) (K.state sink.new) result }
    ensures left { Leaves (K.state sink.old) (K.state sink.new) }
{
    match certificate {
        None => page_least(alloc, world, sink, tables, drift),
        Some(certificate) => page_given(alloc, world, sink, tables, certificate, drift),
    }
}

/// Writes the page on a certificate and on what was observed of a run.
pub fn page_observed<'a, W: World<'a>, K: Sink>(
    alloc: Global,
    world: &mut W,
    sink: &mut K,
    tables: &'a str,
    certificate: &'a str,
    observed: &'a str,
    drift: Option<u16>,
) -> Exit
    requires new { IsNew (W.state world.old) }
    requires sink { CanFail (K.state sink.old) }
    ensures carries { (input : SourceState) → Carries (ReportObserved tables.entry certificate.entry observed.entry drift) (W.state world.old) (W.state world.new)
        input input (K.state sink.old) (K.state sink.new) result }
    ensures left { Leaves (K.state sink.old) (K.state sink.new) }
{
    match open_three(world, tables, certificate, observed) {
        Ok((rows, claims, lines)) => {
            let digests = Digests::new();
            let of = of_three(tables, certificate, observed, &digests);
            let mut rows = Hashed {
                source: rows,
                hashing: &digests.tables,
            };
            let mut claims = Hashed {
                source: claims,
                hashing: &digests.certificate,
            };
            let mut lines = Hashed {
                source: lines,
                hashing: &digests.observed,
            };
            run_report_observed(
                alloc,
                drift,
                Some(of),
                &mut rows,
                &mut claims,
                &mut lines,
                sink,
            )
        }
        Err(why) => end_unopened(why, sink),
    }
}

/// Tells the margins of the least certificate.
fn margins_least<'a, W: World<'a>, K: Sink>(
    alloc: Global,
    world: &mut W,
    sink: &mut K,
    tables: &'a str,
    told: Telling,
) -> Exit
    requires new { IsNew (W.state world.old) }
    requires sink { CanFail (K.state sink.old) }
    ensures carries { (input : SourceState) → Carries (Margins tables.entry None told.microseconds told.drift told.json) (W.state world.old) (W.state world.new) input input (K.state sink.old)
        (K.state sink.new) result }
    ensures left { Leaves (K.state sink.old) (K.state sink.new) }
{
    match open_one(world, tables) {
        Ok(mut tables) => run_margins_least_told(alloc, told, &mut tables, sink),
        Err(why) => end_unopened(why, sink),
    }
}

/// Tells the margins of a certificate.
fn margins_given<'a, W: World<'a>, K: Sink>(
    alloc: Global,
    world: &mut W,
    sink: &mut K,
    tables: &'a str,
    certificate: &'a str,
    told: Telling,
) -> Exit
    requires new { IsNew (W.state world.old) }
    requires sink { CanFail (K.state sink.old) }
    ensures carries { (input : SourceState) → Carries (Margins tables.entry (Some certificate.entry) told.microseconds told.drift told.json) (W.state world.old) (W.state world.new) input input
        (K.state sink.old) (K.state sink.new) result }
    ensures left { Leaves (K.state sink.old) (K.state sink.new) }
{
    match open_both(world, tables, certificate) {
        Ok((mut tables, mut certificate)) => {
            run_margins_told(alloc, told, &mut tables, &mut certificate, sink)
        }
        Err(why) => end_unopened(why, sink),
    }
}

/// Tells the margins of a certificate, or of the least one.
pub fn margins<'a, W: World<'a>, K: Sink>(
    alloc: Global,
    world: &mut W,
    sink: &mut K,
    tables: &'a str,
    certificate: Option<&'a str>,
    told: Telling,
) -> Exit
    requires new { IsNew (W.state world.old) }
    requires sink { CanFail (K.state sink.old) }
    ensures carries { (input : SourceState) → Carries (Margins tables.entry certificate.entry told.microseconds told.drift told.json) (W.state world.old) (W.state world.new) input input
        (K.state sink.old) (K.state sink.new) result }
    ensures left { Leaves (K.state sink.old) (K.state sink.new) }
{
    match certificate {
        None => margins_least(alloc, world, sink, tables, told),
        Some(certificate) => margins_given(alloc, world, sink, tables, certificate, told),
    }
}
