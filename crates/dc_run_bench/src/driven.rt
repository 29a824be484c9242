//! A hub over certified tables that runs and closes, and what is seen of its book.
ghost use Rattle.std.specs.Prelude.{◌≡◌, ◌≢◌, ◌⊎◌, ℕ, List, [], ◌∷◌, ◌++◌, ◌+◌, ◌<◌, ◌≤◌, IfErr, IfOk, IfSome, IsSome, Ok, Err, codes, decimal, length};
ghost use Rattle.arrayvec.specs.ArrayVec.{array_vec_len};
ghost use Rattle.dc_answer.specs.Judging.{Keeps, Says};
ghost use Rattle.dc_answer.specs.declared.exit.Outcome.TheVariants.{Refused as WasRefused};
ghost use Rattle.dc_run_bench.specs.Bench.{AnswersRun, HasRefused, IsSeen, WentAstray, count_text, seen_lines, seen_outcome};
ghost use Rattle.dc_run_bench.specs.Marks.{lines_behind};
ghost use Rattle.dc_check.specs.Lent.{tables_of};
ghost use Rattle.dc_device.specs.Lines.{spelled};
ghost use Rattle.dc_drive.specs.Played.{AreOfHub, HaveRoles, IsDriven};
ghost use Rattle.dc_drive.specs.Refusals.{HaltsAs};
ghost use Rattle.dc_hub.specs.Closing.{all_seats};
ghost use Rattle.dc_hub.specs.Entries.{events as events_in};
ghost use Rattle.dc_hub.specs.Opening.{IsCharterOf};
ghost use Rattle.dc_hub.specs.Views.{AreTablesOf, receipts_in};
ghost use Rattle.dc_drive.specs.declared.fault.DriveFault.TheVariants.{Spawn, Memory as DriveMemory, Hub as Refused};
ghost use Rattle.dc_hub.specs.declared.fault.HubFault.TheVariants.{Astray, Memory as HubMemory};
ghost use Rattle.dc_hub.specs.declared.limits.TheConstants.{LONGEST_TRACE};
ghost use Rattle.dc_print.specs.declared.text.TheConstants.{TEXT_CAPACITY};
ghost use Rattle.dc_script.specs.Script.{bench_script};
ghost use Rattle.dc_script.specs.declared.limits.TheConstants.{LONGEST_SCRIPT};

use crate::marks::append_marks;
use dc_answer::{Outcome, Page, Unjudged};
use dc_check::Certified;
use dc_checkpar::Open;
use dc_drive::{DriveFault, drive};
use dc_event::{Claim, Event};
use dc_hub::{Charter, Closed, Entry, Hub, HubFault, LONGEST_TRACE, MOST_ACTORS, OpenFault, Seats};
use dc_oracle::claims;
use dc_print::{Text, append, append_number};
use dc_run::append_claims;
use dc_script::Script;
use dc_tables::Tables;
use std::alloc::{AllocError, Global};
use std::marker::{Brand, Sync};
use std::sync::Wait;
use std::sync::ledger::Blank;
use std::thread::Threads;

/// What is seen of a hub that ran and closed.
#[derive(Clone, Copy, Debug, PartialEq, Eq)]
pub struct Seen {
    /// For how many ticks it was to run.
    pub ticks: u64,
    /// How many entries its book has.
    pub entries: usize,
    /// How many of them are overruns.
    pub overruns: u64,
    /// The least claim that fails at the first entry at which any does, by places that count from 1.
    pub claims: Option<(Claim, usize)>,
}

/// The events of entries.
fn events_of(alloc: Global, entries: &[Entry]) -> Result<Vec<Event>, AllocError>
    ensures { IfOk result (λ events. events.items ≡ events_in entries.now) }
{
    let mut events = Vec::new(alloc);
    for k in 0..entries.len() {
        events.push(entries[k].event)?;
    }
    Ok(events)
}

/// What is seen of a book.
fn seen_of(alloc: Global, ticks: u64, closed: &Closed) -> Result<Seen, AllocError>
    requires fits { length closed.now.entries ≤ LONGEST_TRACE }
    requires driven { IsDriven (tables_of closed.now.certified) (bench_script (tables_of closed.now.certified) ticks) (events_in closed.now.entries) }
    ensures { IfOk result (IsSeen closed.now.certified ticks closed.now) }
{
    closed.legal();
    let certified = closed.certified();
    let events = events_of(alloc, closed.entries())?;
    let claims = claims(
        alloc,
        certified.tables(),
        certified.certificate(),
        events.as_slice(),
    )?;
    Ok(Seen {
        ticks,
        entries: closed.entries().len(),
        overruns: closed.overruns(),
        claims,
    })
}

/// Puts a line of a count at the end.
fn append_count(text: &mut Text, subject: &[u8], count: u64)
    requires { array_vec_len text.old + length subject.now + 21 ≤ TEXT_CAPACITY }
    ensures items { text.new.items ≡ text.old.items ++ (count_text subject.now count ++ 10 ∷ []) }
    ensures len { array_vec_len text.new ≤ array_vec_len text.old + length subject.now + 21 }
{
    append(text, subject);
    append_number(text, count);
    append(text, b"\n");
}

/// The lines of what was seen.
fn print_seen(text: &mut Text, seen: Seen)
    ensures { text.new.items ++ 10 ∷ [] ≡ spelled (seen_lines seen) }
{
    text.clear();
    append_count(text, b"ticks ", seen.ticks);
    append_count(text, b"entries ", seen.entries as u64);
    append_count(text, b"overruns ", seen.overruns);
    append_claims(text, seen.claims);
}

/// What ends a bench with what was seen.
fn outcome_of(seen: Seen) -> Outcome
    ensures { result ≡ seen_outcome seen }
{
    if seen.claims.is_none() {
        Outcome::Done
    } else {
        Outcome::Refused
    }
}

/// Keeps the lines of what was seen, and behind them those of the book's marks where they are asked for.
fn keep_seen(seen: Seen, marks: bool, closed: &Closed, page: &mut Page) -> Result<(), AllocError>
    ensures { IfOk result (λ _. page.new ++ 10 ∷ [] ≡ spelled (seen_lines seen ++ lines_behind marks closed.now)) }
{
    let mut text = Text::new();
    print_seen(&mut text, seen);
    page.tell(text);
    if marks {
        append_marks(closed, page)
    } else {
        Ok(())
    }
}

/// Keeps what is seen of a book, with its marks or without.
fn judge_book(
    alloc: Global,
    ticks: u64,
    marks: bool,
    closed: &Closed,
    page: &mut Page,
) -> Result<Outcome, Unjudged>
    requires fits { length closed.now.entries ≤ LONGEST_TRACE }
    requires driven { IsDriven (tables_of closed.now.certified) (bench_script (tables_of closed.now.certified) ticks) (events_in closed.now.entries) }
    ensures answer { Keeps (AnswersRun closed.now.certified ticks marks) page.new result }
    ensures memory { IfErr result (λ e. e ≡ Unjudged.Memory) }
{
    let Ok(seen) = seen_of(alloc, ticks, closed) else {
        return Err(Unjudged::Memory);
    };
    match keep_seen(seen, marks, closed, page) {
        Ok(()) => Ok(outcome_of(seen)),
        Err(_) => Err(Unjudged::Memory),
    }
}

/// Keeps that the hub refused: a call, or to close.
fn refuse_hub<L: Charter>(ticks: u64, marks: bool, page: &mut Page) -> Outcome
    requires { IfSome L.certified (λ c. HasRefused c ticks) }
    ensures answer { IfSome L.certified (λ c. Says (AnswersRun c ticks marks) page.new result) }
{
    let _asked = (ticks, marks);
    let mut text = Text::new();
    append(&mut text, b"refused hub");
    page.tell(text);
    Outcome::Refused
}

/// Closes a hub, and keeps what is seen of its book.
fn close_hub<L: Charter>(
    alloc: Global,
    ticks: u64,
    marks: bool,
    hub: Hub<L>,
    seats: Seats<L>,
    page: &mut Page,
) -> Result<Outcome, Unjudged>
    requires limit { L.limit ≡ LONGEST_TRACE }
    requires roles { IfSome L.certified (λ c. HaveRoles (tables_of c) (bench_script (tables_of c) ticks)
        (all_seats seats.wires.items seats.routers.items seats.outputs.items seats.clock)) }
    ensures answer { IfSome L.certified (λ c. Keeps (AnswersRun c ticks marks) page.new result) }
    ensures memory { IfErr result (λ e. e ≡ Unjudged.Memory) }
{
    match hub.close(seats) {
        Ok(closed) => judge_book(alloc, ticks, marks, &closed, page),
        Err(_) => Ok(refuse_hub::<L>(ticks, marks, page)),
    }
}

/// What a call of the hub that was refused, or a seat that went astray, ends with.
fn end_of_call<L: Charter>(
    fault: HubFault,
    ticks: u64,
    marks: bool,
    page: &mut Page,
) -> Result<Outcome, Unjudged>
    requires limit { L.limit ≡ LONGEST_TRACE }
    requires halts { Refused fault ≢ Refused Astray → HaltsAs L.certified L.limit ⊥ (Refused fault) }
    requires astray { Refused fault ≡ Refused Astray → IfSome L.certified (λ c. WentAstray (tables_of c) (bench_script (tables_of c) ticks)) }
    ensures answer { IfSome L.certified (λ c. Keeps (AnswersRun c ticks marks) page.new result) }
    ensures memory { IfErr result (λ e. (e ≡ Unjudged.Memory) × (fault ≡ HubMemory)) }
{
    match fault {
        HubFault::Memory => Err(Unjudged::Memory),
        HubFault::Step(_) => Ok(refuse_hub::<L>(ticks, marks, page)),
        HubFault::TraceFull => Ok(refuse_hub::<L>(ticks, marks, page)),
        HubFault::Astray => Ok(refuse_hub::<L>(ticks, marks, page)),
    }
}

/// What a drive that was not answered Ok ends with.
fn end_of<L: Charter>(
    fault: DriveFault,
    ticks: u64,
    marks: bool,
    page: &mut Page,
) -> Result<Outcome, Unjudged>
    requires limit { L.limit ≡ LONGEST_TRACE }
    requires halts { fault ≢ Refused Astray → HaltsAs L.certified L.limit ⊥ fault }
    requires astray { fault ≡ Refused Astray → IfSome L.certified (λ c. WentAstray (tables_of c) (bench_script (tables_of c) ticks)) }
    ensures answer { IfSome L.certified (λ c. Keeps (AnswersRun c ticks marks) page.new result) }
    ensures cause { IfErr result (λ e. ((e ≡ Unjudged.Memory) × ((fault ≡ DriveMemory) ⊎ (fault ≡ Refused HubMemory)))
        ⊎ ((e ≡ Unjudged.Threads) × (fault ≡ Spawn))) }
{
    match fault {
        DriveFault::Memory => Err(Unjudged::Memory),
        DriveFault::Spawn => Err(Unjudged::Threads),
        DriveFault::GateStuck => unreachable!(),
        DriveFault::Hub(refused) => end_of_call::<L>(refused, ticks, marks, page),
    }
}

/// What is asked of a hub.
#[derive(Clone, Copy)]
struct Plan<'s> {
    /// What it is driven by.
    script: &'s Script,
    /// Whether its marks are told.
    marks: bool,
}

/// Drives a hub and closes it.
fn drive_hub<L: Charter + Send + Sync, R: Threads + Wait + Sync>(
    rt: &R,
    alloc: Global,
    tables: &Tables,
    plan: &Plan<'_>,
    hub: Hub<L>,
    mut seats: Seats<L>,
    page: &mut Page,
) -> Result<Outcome, Unjudged>
    requires tables { AreTablesOf L.certified tables.now }
    requires limit { L.limit ≡ LONGEST_TRACE }
    requires script { plan.now.script.now ≡ bench_script tables.now plan.now.script.now.ticks }
    requires of_hub { AreOfHub hub seats.wires.items }
    requires clock { IsSome seats.clock }
    requires unused { receipts_in (all_seats seats.wires.items seats.routers.items seats.outputs.items seats.clock) ≡ 0 }
    ensures answer { IfSome L.certified (λ c. Keeps (AnswersRun c plan.now.script.now.ticks plan.now.marks) page.new result) }
    ensures cause { IfErr result (λ e. e ≢ Unjudged.Device) }
{
    match drive(rt, alloc, tables, &hub, &mut seats, plan.script, &Open) {
        Ok(()) => close_hub(alloc, plan.script.ticks(), plan.marks, hub, seats, page),
        Err(fault) => end_of::<L>(fault, plan.script.ticks(), plan.marks, page),
    }
}

/// Opens a hub, drives it and closes it.
fn run_hub<L: Charter + Send + Sync, R: Threads + Wait + Sync>(
    rt: &R,
    alloc: Global,
    blank: Blank,
    tables: &Tables,
    plan: &Plan<'_>,
    certified: Certified,
    page: &mut Page,
) -> Result<Outcome, Unjudged>
    requires blank { (blank.name ≡ L.name) × (blank.parts ≡ L.parts) }
    requires charter { IsCharterOf L.certified L.limit L.whole L.parts certified LONGEST_TRACE }
    requires tables { tables_of certified ≡ tables.now }
    requires script { plan.now.script.now ≡ bench_script tables.now plan.now.script.now.ticks }
    ensures answer { Keeps (AnswersRun certified plan.now.script.now.ticks plan.now.marks) page.new result }
    ensures cause { IfErr result (λ e. e ≢ Unjudged.Device) }
{
    match Hub::<L>::open(alloc, blank, certified, LONGEST_TRACE) {
        Ok((hub, seats)) => drive_hub(rt, alloc, tables, plan, hub, seats, page),
        Err(OpenFault::Memory) => Err(Unjudged::Memory),
    }
}

/// Runs a hub over certified tables, which are these, for so many ticks by the script of a bench, closes it, and keeps
/// what is seen of its book, with its marks or without.
pub fn run_certified<R: Threads + Wait + Sync>(
    rt: &R,
    alloc: Global,
    ticks: u64,
    marks: bool,
    tables: &Tables,
    certified: Certified,
    page: &mut Page,
) -> Result<Outcome, Unjudged>
    requires ticks { (1 ≤ ticks) × (ticks ≤ LONGEST_SCRIPT) }
    requires tables { tables_of certified ≡ tables.now }
    ensures answer { Keeps (AnswersRun certified ticks marks) page.new result }
    ensures cause { IfErr result (λ e. e ≢ Unjudged.Device) }
{
    certified.tables().valid();
    match Script::bench(alloc, tables, ticks) {
        Ok(script) => run_hub::<Brand, R>(
            rt,
            alloc,
            Blank::new(MOST_ACTORS),
            tables,
            &Plan {
                script: &script,
                marks,
            },
            certified,
            page,
        ),
        Err(_) => Err(Unjudged::Memory),
    }
}
