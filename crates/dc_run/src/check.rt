//! `check`: the verdict on a certificate, in one line.
ghost use Rattle.std.specs.Prelude.{◌≡◌, ◌≢◌, ℕ, List, ◌+◌, ◌<◌, ◌≤◌, IfSome, Some};
ghost use Rattle.dc_answer.specs.Answer.{Any, LeavesSink, Reported};
ghost use Rattle.dc_answer.specs.Inputs.{OnlyBehind};
ghost use Rattle.dc_answer.specs.Judging.{Says};
ghost use Rattle.dc_cert.specs.NamedRows.{named_rows};
ghost use Rattle.dc_device.specs.States.{AsksUpTo, CanFail, IsCountable};
ghost use Rattle.dc_document.specs.declared.limits.TheConstants.{TEXT_LIMIT};
ghost use Rattle.dc_toml.specs.Reading.{tables_of};
ghost use Rattle.dc_run.specs.Check.{AnswersVerdict, ReportsCheck};

use dc_answer::{End, Exit, Outcome, Page, ReadCertificate, ReadTables, Tell, Then, With, run};
use dc_cert::Certificate;
use dc_check::laws::{accepted_certificates_keep_their_claims, no_fault_is_acceptance};
use dc_check::verdict;
use dc_device::{Sink, Source};
use dc_print::{Text, print_accepted, print_refused};
use dc_tables::Tables;
use std::alloc::{AllocError, Global};

/// Judges a certificate, and prints the verdict.
fn print_verdict(tables: &Tables, certificate: &Certificate, line: &mut Text) -> Outcome
    ensures { Says (AnswersVerdict tables.now (named_rows certificate.now)) line.new.items result }
{
    accepted_certificates_keep_their_claims(tables);
    no_fault_is_acceptance(tables);
    match verdict(tables, certificate) {
        Ok(()) => {
            print_accepted(line, tables);
            Outcome::Done
        }
        Err(fault) => {
            print_refused(line, tables, fault);
            Outcome::Refused
        }
    }
}

/// Judges a certificate, and keeps the verdict.
pub fn judge(tables: &Tables, certificate: &Certificate, page: &mut Page) -> Outcome
    ensures { Says (AnswersVerdict tables.now (named_rows certificate.now)) page.new result }
{
    let mut line = Text::new();
    let outcome = print_verdict(tables, certificate, &mut line);
    page.tell(line);
    outcome
}

/// Judges a certificate for tables: the verdict in one line. It ends `Done` where the certificate is accepted, and then
/// it keeps its claims in every admissible run of the tables; `Refused` where it is refused.
#[derive(Clone, Copy, Debug)]
pub struct Check;

impl Tell<(Tables, Certificate)> for Check {
    ghost answers = { λ _ known. AnswersVerdict known.0 (named_rows known.1) };

    fn tell(
        &self,
        _alloc: Global,
        known: (Tables, Certificate),
        page: &mut Page,
    ) -> Result<Outcome, AllocError> {
        let (tables, certificate) = known;
        Ok(judge(&tables, &certificate, page))
    }
}

/// The engine of `check`.
pub const CHECK: ReadTables<ReadCertificate<Then<Check>>> = ReadTables(ReadCertificate(Then(
    Check,
)));

/// Judges a certificate for tables, both read whole from their sources, the tables first, and writes the verdict as one
/// line onto a sink.
///
/// It ends `Done` where the certificate is accepted, and then it keeps its claims in every admissible run of the
/// tables; `Refused` where it is refused; `Unreadable` where a text can't be read; `Failed` where a device failed or
/// memory was refused: `failed memory` alone was written, or `failed device` behind the line or nothing; where a push or
/// flush failed, a front of one of these or of the line. That call is the last of the sink, and at most one pull of each
/// source gives no byte.
pub fn run_check<T: Source, C: Source, K: Sink>(
    alloc: Global,
    tables: &mut T,
    certificate: &mut C,
    sink: &mut K,
) -> Exit
    requires tables { IsCountable (T.state tables.old) }
    requires certificate { IsCountable (C.state certificate.old) }
    requires sink { CanFail (K.state sink.old) }
    ensures reports { (rows text : List ℕ) → (T.state tables.old).remaining ≡ Some rows → (C.state certificate.old).remaining ≡ Some text
        → ReportsCheck rows text (K.state sink.old).contents (K.state sink.new).contents
        ((T.state tables.old).failed + (C.state certificate.old).failed) ((T.state tables.new).failed + (C.state certificate.new).failed)
        (K.state sink.old).failed (K.state sink.new).failed result }
    ensures reported { Reported Any (K.state sink.old).contents (K.state sink.new).contents
        ((T.state tables.old).failed + (C.state certificate.old).failed) ((T.state tables.new).failed + (C.state certificate.new).failed)
        (K.state sink.old).failed (K.state sink.new).failed result }
    ensures asks_tables { AsksUpTo TEXT_LIMIT (T.state tables.old) (T.state tables.new) }
    ensures asks_certificate { AsksUpTo TEXT_LIMIT (C.state certificate.old) (C.state certificate.new) }
    ensures order { IfSome (T.state tables.old).remaining (λ rows. OnlyBehind (tables_of rows) (certificate.new ≡ certificate.old)) }
    ensures left { LeavesSink (K.state sink.old).failed (K.state sink.new).failed (K.state sink.new).last_failed (K.state sink.new).hidden }
    ensures quiet { result ≢ Exit.Failed → (T.state tables.new).failed + (C.state certificate.new).failed + (K.state sink.new).failed
        ≡ (T.state tables.old).failed + (C.state certificate.old).failed + (K.state sink.old).failed }
{
    let mut given = With {
        first: tables,
        rest: With {
            first: certificate,
            rest: End,
        },
    };
    run(&(), alloc, &CHECK, &mut given, sink)
}
