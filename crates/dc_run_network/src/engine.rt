//! `network` and `report --network`: the network of a system's text is judged.
ghost use Rattle.std.specs.Prelude.{◌≡◌, ◌≢◌, ◌≤◌, IfErr, IfOk, IfSome, [], length};
ghost use Rattle.dc_answer.specs.Judging.{Leaves};
ghost use Rattle.dc_checkpar.specs.declared.limits.TheConstants.{MOST_WORKERS};
ghost use Rattle.dc_device.specs.States.{AsksUpTo, CanFail, IsCountable};
ghost use Rattle.dc_document.specs.declared.limits.TheConstants.{TEXT_LIMIT};
ghost use Rattle.dc_run_network.specs.Answer.{AnswersMembers, AnswersOrdered, AnswersRows, EndsKept, IsAnyPage, IsLines, IsLinked, IsRing, JudgesNetwork, ReportsNetwork, SaysNetwork, Tells, TellsFault, end_of, line_of, unjudged_text};
ghost use Rattle.dc_run_network.specs.Paths.{folder_of};
ghost use Rattle.dc_system.specs.Judged.{IsNetworkFault};
ghost use Rattle.dc_ways.specs.Members.{AreConnections, connection_at, rows_of};

use crate::lines::{tell_link_fault, tell_ring, tell_system_fault};
use crate::links::{connections, hops};
use crate::members::{Halt, add_members};
use crate::paths::folder_of;
use crate::shelf::Shelf;
use crate::telling::{Lines, Paper, Telling};
use crate::verdicts::{Alone, Verdicts, Workers};
use dc_answer::{Exit, Page, Unjudged, end_with};
use dc_device::{LineWriter, Sink, Source, Unread, read_at_most};
use dc_document::TEXT_LIMIT;
use dc_order::{OrderError, places};
use dc_system::{NetworkFault, judge};
use dc_system_text::{System, SystemError, SystemFault, SystemPart, SystemRule, read_system};
use dc_tables::Tables;
use dc_ways::{Connection, Member};
use std::alloc::{AllocError, Global};
use std::marker::Sync;
use std::sync::Wait;
use std::thread::Threads;

/// By what a network is judged, and what tells of it where it is accepted.
#[derive(Clone, Copy)]
struct By<J, T> {
    verdicts: J,
    telling: T,
}

/// What a command ends with whose page was kept.
fn ends(kept: Result<(), AllocError>, exit: Exit) -> Result<Exit, Unjudged>
    ensures ends { EndsKept kept exit result }
    ensures threads { IfErr result (λ why. why ≢ Unjudged.Threads) }
{
    match kept {
        Ok(()) => Ok(exit),
        Err(_) => Err(Unjudged::Memory),
    }
}

/// Makes the page the answer to a network's fault.
fn refuse(
    page: &mut Page,
    members: &[Member],
    connections: &[Connection],
    fault: NetworkFault,
) -> Result<Exit, Unjudged>
    requires connections { AreConnections (length members.now) connections.now }
    requires fault { IsNetworkFault members.now connections.now fault }
    ensures told { TellsFault members.now connections.now page.new fault result }
    ensures threads { IfErr result (λ why. why ≢ Unjudged.Threads) }
{
    match fault {
        NetworkFault::Ring(i) => ends(tell_ring(page, i), Exit::Unreadable),
        NetworkFault::Link(k, fault) => {
            let tables = tables_to(members, connections, k);
            ends(tell_link_fault(page, tables, k, fault), Exit::Refused)
        }
        NetworkFault::Memory(_) => Err(Unjudged::Memory),
    }
}

/// The tables to whose bus link `k` leads.
fn tables_to<'a>(members: &'a [Member], connections: &[Connection], k: usize) -> &'a Tables
    requires { IsLinked members.now connections.now k }
    ensures { result.now ≡ rows_of members.now (connection_at connections.now k).to }
{
    members[connections[k].to].tables()
}

/// Judges concentrators that are accepted, and their links.
fn judge_members<T: Telling>(
    alloc: Global,
    telling: &T,
    system: &System,
    members: &[Member],
    page: &mut Page,
) -> Result<Exit, Unjudged>
    requires { length members.now ≡ length system.now.concentrators }
    ensures answers { IfOk result (AnswersMembers T.says system.now members.now page.new) }
    ensures threads { IfErr result (λ why. why ≢ Unjudged.Threads) }
{
    system.keeps_rules();
    let links = system.links();
    let Ok(connections) = connections(alloc, system.concentrators(), members, links) else {
        return Err(Unjudged::Memory);
    };
    match judge(alloc, members, &connections) {
        Ok(ways) => {
            let told = telling.tell(alloc, system, members, &connections, &ways, page);
            ends(told, Exit::Done)
        }
        Err(fault) => refuse(page, members, &connections, fault),
    }
}

/// Judges a system without a ring: its concentrators in order, which are added where none is there, and then their links.
fn judge_into<J: Verdicts, T: Telling, F: Shelf>(
    alloc: Global,
    by: &By<J, T>,
    folder: &str,
    system: &System,
    shelf: &mut F,
    members: &mut Vec<Member>,
    page: &mut Page,
) -> Result<Exit, Unjudged>
    requires may { J.may_judge by.now.verdicts }
    requires none { members.old.items ≡ [] }
    ensures keeps { F.keeps shelf.old shelf.new }
    ensures answers { IfOk result (AnswersOrdered T.says (F.holds shelf.old) folder.now system.now page.new) }
    ensures threads { IfErr result (λ why. why ≡ Unjudged.Threads → J.starts_threads by.now.verdicts) }
{
    match add_members(
        alloc,
        &by.verdicts,
        shelf,
        folder,
        system.concentrators(),
        members,
        page,
    ) {
        Ok(()) => judge_members(alloc, &by.telling, system, members.as_slice(), page),
        Err(Halt::Told(outcome)) => Ok(outcome.exit()),
        Err(Halt::NoFile) => Ok(Exit::Failed),
        Err(Halt::Memory) => Err(Unjudged::Memory),
        Err(Halt::Threads) => Err(Unjudged::Threads),
    }
}

/// Judges a system without a ring.
fn judge_ordered<J: Verdicts, T: Telling, F: Shelf>(
    alloc: Global,
    by: &By<J, T>,
    folder: &str,
    system: &System,
    shelf: &mut F,
    page: &mut Page,
) -> Result<Exit, Unjudged>
    requires { J.may_judge by.now.verdicts }
    ensures keeps { F.keeps shelf.old shelf.new }
    ensures answers { IfOk result (AnswersOrdered T.says (F.holds shelf.old) folder.now system.now page.new) }
    ensures threads { IfErr result (λ why. why ≡ Unjudged.Threads → J.starts_threads by.now.verdicts) }
{
    let mut members = Vec::new(alloc);
    judge_into(alloc, by, folder, system, shelf, &mut members, page)
}

/// The first concentrator of a system that is on a ring, where there is one.
fn ring_in(alloc: Global, system: &System) -> Result<Option<usize>, AllocError>
    ensures { IfOk result (IsRing system.now) }
{
    system.keeps_rules();
    let hops = hops(alloc, system.concentrators(), system.links())?;
    match places(alloc, system.concentrators().len(), &hops) {
        Ok(_) => Ok(None),
        Err(OrderError::Ring(i)) => Ok(Some(i)),
        Err(OrderError::Memory(error)) => Err(error),
    }
}

/// Judges a system: whether it has a ring, its concentrators in order, and then their links.
fn judge_system<J: Verdicts, T: Telling, F: Shelf>(
    alloc: Global,
    by: &By<J, T>,
    folder: &str,
    system: &System,
    shelf: &mut F,
    page: &mut Page,
) -> Result<Exit, Unjudged>
    requires { J.may_judge by.now.verdicts }
    ensures keeps { F.keeps shelf.old shelf.new }
    ensures answers { IfOk result (AnswersRows T.says (F.holds shelf.old) folder.now system.now page.new) }
    ensures threads { IfErr result (λ why. why ≡ Unjudged.Threads → J.starts_threads by.now.verdicts) }
{
    match ring_in(alloc, system) {
        Ok(None) => judge_ordered(alloc, by, folder, system, shelf, page),
        Ok(Some(i)) => ends(tell_ring(page, i), Exit::Unreadable),
        Err(_) => Err(Unjudged::Memory),
    }
}

/// Judges the text of a system.
fn judge_text<J: Verdicts, T: Telling, F: Shelf>(
    alloc: Global,
    by: &By<J, T>,
    folder: &str,
    text: &[u8],
    shelf: &mut F,
    page: &mut Page,
) -> Result<Exit, Unjudged>
    requires { J.may_judge by.now.verdicts }
    ensures keeps { F.keeps shelf.old shelf.new }
    ensures answers { JudgesNetwork T.says (F.holds shelf.old) folder.now text.now page.new result }
    ensures threads { IfErr result (λ why. why ≡ Unjudged.Threads → J.starts_threads by.now.verdicts) }
{
    match read_system(alloc, text) {
        Ok(system) => judge_system(alloc, by, folder, &system, shelf, page),
        Err(SystemError::Refused(fault)) => {
            ends(tell_system_fault(page, fault), Exit::Unreadable)
        }
        Err(SystemError::Memory(_)) => Err(Unjudged::Memory),
    }
}

/// The fault of a text that is longer than a text may be.
const TOO_LONG: SystemFault = SystemFault {
    rule: SystemRule::NotToml,
    part: SystemPart::Top,
    index: 0,
};

/// Judges the text that a source gives.
fn judge_source<J: Verdicts, T: Telling, S: Source, F: Shelf>(
    alloc: Global,
    by: &By<J, T>,
    folder: &str,
    system: &mut S,
    shelf: &mut F,
    page: &mut Page,
) -> Result<Exit, Unjudged>
    requires may { J.may_judge by.now.verdicts }
    requires source { IsCountable (S.state system.old) }
    ensures keeps { F.keeps shelf.old shelf.new }
    ensures answers { IfSome (S.state system.old).remaining (λ text. JudgesNetwork T.says (F.holds shelf.old) folder.now text page.new result) }
    ensures threads { IfErr result (λ why. why ≡ Unjudged.Threads → J.starts_threads by.now.verdicts) }
    ensures asks { AsksUpTo TEXT_LIMIT (S.state system.old) (S.state system.new) }
{
    match read_at_most(alloc, system, TEXT_LIMIT) {
        Ok(text) => judge_text(alloc, by, folder, text.as_slice(), shelf, page),
        Err(Unread::TooLong) => ends(tell_system_fault(page, TOO_LONG), Exit::Unreadable),
        Err(Unread::Device) => Err(Unjudged::Device),
        Err(Unread::Memory) => Err(Unjudged::Memory),
    }
}

/// What is told where nothing was judged.
fn unjudged_text(why: Unjudged) -> &'static [u8]
    ensures { result.now ≡ unjudged_text why }
{
    match why {
        Unjudged::Device => b"failed device",
        Unjudged::Memory => b"failed memory",
        Unjudged::Threads => b"failed threads",
    }
}

/// Writes what was judged, or what failed, and ends.
fn finish<K: Sink>(judged: Result<Exit, Unjudged>, page: &Page, sink: &mut K) -> Exit
    requires { CanFail (K.state sink.old) }
    ensures tells { Tells (line_of judged page.now) (end_of judged) (K.state sink.old) (K.state sink.new) result }
    ensures left { Leaves (K.state sink.old) (K.state sink.new) }
{
    let mut writer = LineWriter::new();
    let (written, ended) = match judged {
        Ok(exit) => (page.write(&mut writer, sink), exit),
        Err(why) => (
            end_with(&mut writer, sink, unjudged_text(why)),
            Exit::Failed,
        ),
    };
    match written {
        Ok(()) => ended,
        Err(_) => Exit::Failed,
    }
}

/// Judges the network of a system's text, and writes what is told of it.
fn run_by<J: Verdicts, T: Telling, S: Source, F: Shelf, K: Sink>(
    alloc: Global,
    by: &By<J, T>,
    path: &str,
    system: &mut S,
    shelf: &mut F,
    sink: &mut K,
) -> Exit
    requires may { J.may_judge by.now.verdicts }
    requires source { IsCountable (S.state system.old) }
    requires sink { CanFail (K.state sink.old) }
    ensures reports { IfSome (S.state system.old).remaining (λ text. ReportsNetwork T.says (J.starts_threads by.now.verdicts) (F.holds shelf.old) (folder_of path.now) text (K.state sink.old) (K.state sink.new) result) }
    ensures yes { result ≡ Exit.Done → IfSome (S.state system.old).remaining (λ text. SaysNetwork T.says (F.holds shelf.old) (folder_of path.now) text (K.state sink.old) (K.state sink.new)) }
    ensures keeps { F.keeps shelf.old shelf.new }
    ensures asks { AsksUpTo TEXT_LIMIT (S.state system.old) (S.state system.new) }
    ensures left { Leaves (K.state sink.old) (K.state sink.new) }
{
    let mut page = Page::new(alloc);
    let judged = judge_source(alloc, by, folder_of(path), system, shelf, &mut page);
    finish(judged, &page, sink)
}

/// Judges the network of a system's text, which is read whole from its source, and writes the answer onto a sink. Files
/// that it names and that do not begin with a slash are taken from the folder of the file of this name.
///
/// It ends `Done` where the network is accepted: then in every joint run of it each concentrator keeps its claims in
/// microseconds, and each word that leaves a label is no computed data or came to a bus that no link feeds less than the
/// label's way before, which is written. `Refused` or `Unreadable` with the first fault; `Failed` where a file was not to
/// be had, which is told behind the name of its concentrator, or where a device failed or memory was refused. A push or
/// flush that failed is the last call of the sink.
pub fn run_network<S: Source, F: Shelf, K: Sink>(
    alloc: Global,
    path: &str,
    system: &mut S,
    shelf: &mut F,
    sink: &mut K,
) -> Exit
    requires source { IsCountable (S.state system.old) }
    requires sink { CanFail (K.state sink.old) }
    ensures reports { IfSome (S.state system.old).remaining (λ text. ReportsNetwork IsLines ⊥ (F.holds shelf.old) (folder_of path.now) text (K.state sink.old) (K.state sink.new) result) }
    ensures yes { result ≡ Exit.Done → IfSome (S.state system.old).remaining (λ text. SaysNetwork IsLines (F.holds shelf.old) (folder_of path.now) text (K.state sink.old) (K.state sink.new)) }
    ensures keeps { F.keeps shelf.old shelf.new }
    ensures asks { AsksUpTo TEXT_LIMIT (S.state system.old) (S.state system.new) }
    ensures left { Leaves (K.state sink.old) (K.state sink.new) }
{
    let by = By {
        verdicts: Alone,
        telling: Lines,
    };
    run_by(alloc, &by, path, system, shelf, sink)
}

/// The same, where each certificate is judged by so many workers, 1 to [`MOST_WORKERS`](dc_checkpar::MOST_WORKERS), that
/// a runtime starts.
///
/// It ends as [`run_network`] does, and `Failed` with `failed threads` alone, of which no clause says when: that it is
/// where a thread could not be started is tested.
pub fn run_network_par<R: Threads + Wait + Sync, S: Source, F: Shelf, K: Sink>(
    runtime: &R,
    alloc: Global,
    workers: u8,
    path: &str,
    system: &mut S,
    shelf: &mut F,
    sink: &mut K,
) -> Exit
    requires workers { (1 ≤ workers) × (workers ≤ MOST_WORKERS) }
    requires source { IsCountable (S.state system.old) }
    requires sink { CanFail (K.state sink.old) }
    ensures reports { IfSome (S.state system.old).remaining (λ text. ReportsNetwork IsLines (Unit {0}) (F.holds shelf.old) (folder_of path.now) text (K.state sink.old) (K.state sink.new) result) }
    ensures yes { result ≡ Exit.Done → IfSome (S.state system.old).remaining (λ text. SaysNetwork IsLines (F.holds shelf.old) (folder_of path.now) text (K.state sink.old) (K.state sink.new)) }
    ensures keeps { F.keeps shelf.old shelf.new }
    ensures asks { AsksUpTo TEXT_LIMIT (S.state system.old) (S.state system.new) }
    ensures left { Leaves (K.state sink.old) (K.state sink.new) }
{
    let verdicts = Workers {
        runtime,
        alloc,
        count: workers,
    };
    let by = By {
        verdicts,
        telling: Lines,
    };
    run_by(alloc, &by, path, system, shelf, sink)
}

/// The same as [`run_network`], where in place of its lines a page in HTML is written of a network that is accepted. No
/// clause says what stands in the page: it is tested.
pub fn run_network_page<S: Source, F: Shelf, K: Sink>(
    alloc: Global,
    path: &str,
    system: &mut S,
    shelf: &mut F,
    sink: &mut K,
) -> Exit
    requires source { IsCountable (S.state system.old) }
    requires sink { CanFail (K.state sink.old) }
    ensures reports { IfSome (S.state system.old).remaining (λ text. ReportsNetwork IsAnyPage ⊥ (F.holds shelf.old) (folder_of path.now) text (K.state sink.old) (K.state sink.new) result) }
    ensures yes { result ≡ Exit.Done → IfSome (S.state system.old).remaining (λ text. SaysNetwork IsAnyPage (F.holds shelf.old) (folder_of path.now) text (K.state sink.old) (K.state sink.new)) }
    ensures keeps { F.keeps shelf.old shelf.new }
    ensures asks { AsksUpTo TEXT_LIMIT (S.state system.old) (S.state system.new) }
    ensures left { Leaves (K.state sink.old) (K.state sink.new) }
{
    let by = By {
        verdicts: Alone,
        telling: Paper,
    };
    run_by(alloc, &by, path, system, shelf, sink)
}
