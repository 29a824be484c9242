//! `find`: the least certificate, or what stands in the way of one, in one line.
ghost use Rattle.std.specs.Prelude.{◌≡◌, ◌≢◌, ℕ, List, ◌+◌, ◌-◌, ◌<◌, ◌≤◌, length, take, IfOk, Some};
ghost use Rattle.dc_answer.specs.Answer.{Any, LeavesSink, Reported};
ghost use Rattle.dc_answer.specs.Judging.{Keeps};
ghost use Rattle.dc_cert.specs.NamedRows.{named_rows};
ghost use Rattle.dc_device.specs.States.{AsksUpTo, CanFail, IsCountable};
ghost use Rattle.dc_find.specs.Ways.{IsFirstInTheWay};
ghost use Rattle.dc_document.specs.declared.limits.TheConstants.{TEXT_LIMIT};
ghost use Rattle.dc_run.specs.Find.{AnswersRows, ReportsFind, Tells, obstacle_text};

use crate::obstacles::print_obstacle;
use dc_answer::{End, Exit, Outcome, Page, ReadTables, Tell, Then, With, run};
use dc_cert::{Certificate, cert_text};
use dc_check::laws::accepted_certificates_keep_their_claims;
use dc_device::{Sink, Source};
use dc_find::FindFault;
use dc_print::Text;
use dc_tables::Tables;
use std::alloc::{AllocError, Global};

/// Keeps the line of a text that ends in a line feed.
fn keep_line(text: &[u8], page: &mut Page) -> Result<Outcome, AllocError>
    ensures kept { IfOk result (λ _. page.new ≡ take (length text.now - 1) text.now) }
    ensures outcome { IfOk result (λ o. o ≡ Outcome.Done) }
{
    let (line, _) = text.split_at(text.len().saturating_sub(1));
    page.keep(line)?;
    Ok(Outcome::Done)
}

/// Keeps the text of a certificate.
fn keep_certificate(
    alloc: Global,
    certificate: &Certificate,
    page: &mut Page,
) -> Result<Outcome, AllocError>
    ensures kept { IfOk result (λ _. Tells (named_rows certificate.now) page.new) }
    ensures outcome { IfOk result (λ o. o ≡ Outcome.Done) }
{
    match cert_text(alloc, certificate) {
        Ok(text) => keep_line(text.as_bytes(), page),
        Err(e) => Err(e),
    }
}

/// Tells the line of what stands in the way, for `Refused`.
///
/// # Errors
/// `AllocError` where memory was refused before.
pub fn tell_obstacle(
    tables: &Tables,
    fault: FindFault,
    page: &mut Page,
) -> Result<Outcome, AllocError>
    requires { fault ≢ FindFault.Memory → IsFirstInTheWay tables.now fault }
    ensures kept { IfOk result (λ _. page.new ≡ obstacle_text tables.now fault) }
    ensures outcome { IfOk result (λ o. o ≡ Outcome.Refused) }
    ensures fault { IfOk result (λ _. fault ≢ FindFault.Memory) }
{
    if fault.obstacle().is_none() {
        return Err(AllocError);
    }
    let mut line = Text::new();
    print_obstacle(&mut line, tables, fault);
    page.tell(line);
    Ok(Outcome::Refused)
}

/// Finds the least certificate for tables, and keeps the line.
fn find_for(alloc: Global, tables: &Tables, page: &mut Page) -> Result<Outcome, AllocError>
    ensures { Keeps (AnswersRows tables.now) page.new result }
{
    accepted_certificates_keep_their_claims(tables);
    match dc_find::find(alloc, tables) {
        Ok(certificate) => keep_certificate(alloc, &certificate, page),
        Err(fault) => tell_obstacle(tables, fault, page),
    }
}

/// Finds the least certificate for tables: its text; where none is accepted, one line that says what stands first in the
/// way of every certificate. It ends `Done` where a certificate was found, and then it keeps its claims in every
/// admissible run of the tables; `Refused` where none is accepted.
#[derive(Clone, Copy, Debug)]
pub struct Find;

impl Tell<Tables> for Find {
    ghost answers = { λ _. AnswersRows };

    fn tell(&self, alloc: Global, tables: Tables, page: &mut Page) -> Result<Outcome, AllocError> {
        find_for(alloc, &tables, page)
    }
}

/// The engine of `find`.
pub const FIND: ReadTables<Then<Find>> = ReadTables(Then(Find));

/// Finds the least certificate for tables that are read whole from their source, and writes its text onto a sink; where
/// none is accepted, one line that says what stands first in the way of every certificate.
///
/// It ends `Done` where a certificate was found, and then it keeps its claims in every admissible run of the tables;
/// `Refused` where none is accepted; `Unreadable` where the tables can't be read; `Failed` where a device failed or
/// memory was refused: `failed memory` alone was written, or `failed device` behind the line or nothing; where a push
/// or flush failed, a front of one of these or of the line. That call is the last of the sink, and at most one pull of
/// the source gives no byte.
pub fn run_find<T: Source, K: Sink>(alloc: Global, tables: &mut T, sink: &mut K) -> Exit
    requires tables { IsCountable (T.state tables.old) }
    requires sink { CanFail (K.state sink.old) }
    ensures reports { (rows : List ℕ) → (T.state tables.old).remaining ≡ Some rows
        → ReportsFind rows (K.state sink.old).contents (K.state sink.new).contents (T.state tables.old).failed (T.state tables.new).failed
        (K.state sink.old).failed (K.state sink.new).failed result }
    ensures reported { Reported Any (K.state sink.old).contents (K.state sink.new).contents (T.state tables.old).failed (T.state tables.new).failed
        (K.state sink.old).failed (K.state sink.new).failed result }
    ensures asks { AsksUpTo TEXT_LIMIT (T.state tables.old) (T.state tables.new) }
    ensures left { LeavesSink (K.state sink.old).failed (K.state sink.new).failed (K.state sink.new).last_failed (K.state sink.new).hidden }
    ensures quiet { result ≢ Exit.Failed → (T.state tables.new).failed + (K.state sink.new).failed ≡ (T.state tables.old).failed + (K.state sink.old).failed }
{
    let mut given = With {
        first: tables,
        rest: End,
    };
    run(&(), alloc, &FIND, &mut given, sink)
}
