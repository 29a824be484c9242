//! What `check --digest` reads: tables, and then a certificate, with the digests of both texts behind its answer.
ghost use Rattle.std.specs.Prelude.{◌≡◌, ℕ, ◌≤◌, List, [], ◌∷◌, ◌++◌, length, codes, IfErr};
ghost use Rattle.dc_answer.specs.Inputs.{AnswersCertificate, TablesGoOn};
ghost use Rattle.dc_answer.specs.Judging.{Keeps, Raised};
ghost use Rattle.dc_cert.specs.Faults.{fault_text};
ghost use Rattle.dc_document.specs.declared.limits.TheConstants.{TEXT_LIMIT};
ghost use Rattle.dc_digest.specs.Behind.{AnswersBehind, AnswersDigested};

use crate::digests::with_digests;
use crate::texts::{load_digested, read_text};
use dc_answer::{End, Given, Judge, Outcome, Page, Unjudged, Unloaded, With, unread};
use dc_cert::{CertFault, CertRule, Certificate, Fault, TextPlace, read_cert};
use dc_device::Source;
use dc_print::{Text, print_cert_fault, print_table_fault};
use dc_tables::Tables;
use std::alloc::Global;

/// Reads tables, and then judges with the digest of their text.
#[derive(Clone, Copy, Debug)]
pub struct DigestTables<J>(pub J);

impl<'a, H, S: Source, R: Given, J: Judge<H, (Tables, [u8; 32]), R>> Judge<H, (), With<'a, S, R>>
    for DigestTables<J> {
    ghost may_judge = { λ j. J.may_judge j.0 };

    ghost starts_threads = { λ j. J.starts_threads j.0 };

    ghost limits = { λ j. TEXT_LIMIT ∷ J.limits j.0 };

    ghost goes_on = { λ j known. TablesGoOn (λ t texts. Unit {0}) };

    ghost answers = { λ j known. AnswersDigested (J.answers j.0) };

    fn judge(
        &self,
        rt: &H,
        alloc: Global,
        _known: (),
        given: &mut With<'a, S, R>,
        page: &mut Page,
    ) -> Result<Outcome, Unjudged> {
        match load_digested(alloc, given.first) {
            Ok(known) => self.0.judge(rt, alloc, known, &mut given.rest, page),
            Err(Unloaded::Refused(fault)) => {
                let mut line = Text::new();
                print_table_fault(&mut line, fault);
                page.tell(line);
                Ok(Outcome::Unreadable)
            }
            Err(Unloaded::Failed(failure)) => Err(unread(failure)),
        }
    }
}

/// The fault of a text of a certificate that is longer than a text may be.
const TOO_LONG: Fault = Fault {
    rule: CertRule::NotJson,
    place: TextPlace::Top,
};

/// Keeps the line of the first fault of a certificate's text, and is unreadable.
fn tell_fault(fault: Fault, page: &mut Page) -> Outcome
    ensures page { page.new ≡ codes "unreadable " ++ fault_text fault }
    ensures outcome { result ≡ Outcome.Unreadable }
{
    let mut line = Text::new();
    print_cert_fault(&mut line, fault);
    page.tell(line);
    Outcome::Unreadable
}

/// Judges the certificate that a text says, and keeps the answer.
fn judge_plain<H, T: Drop, J: Judge<H, (T, Certificate), End>>(
    rt: &H,
    alloc: Global,
    judge: &J,
    known: T,
    text: &[u8],
    page: &mut Page,
) -> Result<Outcome, Unjudged>
    requires { J.may_judge judge.now }
    ensures answer { Keeps (AnswersCertificate (λ c. J.answers judge.now (known, c)) (text.now ∷ [])) page.new result }
    ensures raises { Raised 0 0 result }
    ensures threads { IfErr result (λ e. e ≡ Unjudged.Threads → J.starts_threads judge.now) }
{
    match read_cert(alloc, text) {
        Ok(certificate) => judge.judge(rt, alloc, (known, certificate), &mut End, page),
        Err(CertFault::Unreadable(fault)) => Ok(tell_fault(fault, page)),
        Err(CertFault::Memory) => Err(Unjudged::Memory),
    }
}

/// The same, with the digests of both texts behind the answer: that of the tables is known.
fn judge_text<H, T: Drop, J: Judge<H, (T, Certificate), End>>(
    rt: &H,
    alloc: Global,
    judge: &J,
    known: (T, [u8; 32]),
    text: &[u8],
    page: &mut Page,
) -> Result<Outcome, Unjudged>
    requires may { J.may_judge judge.now }
    requires whole { length text.now ≤ TEXT_LIMIT }
    ensures answer { Keeps (AnswersBehind known.1 (λ c. J.answers judge.now (known.0, c)) (text.now ∷ [])) page.new result }
    ensures raises { Raised 0 0 result }
    ensures threads { IfErr result (λ e. e ≡ Unjudged.Threads → J.starts_threads judge.now) }
{
    let (known, digest) = known;
    match judge_plain(rt, alloc, judge, known, text, page) {
        Ok(outcome) => with_digests(outcome, &digest, text, page),
        Err(unjudged) => Err(unjudged),
    }
}

/// Reads a certificate behind what is known already and the digest of the text of tables, judges, and puts the digests of both texts behind the
/// answer where that of the certificate was read whole.
#[derive(Clone, Copy, Debug)]
pub struct DigestCertificate<J>(pub J);

impl<'a, H, T: Drop, S: Source, J: Judge<H, (T, Certificate), End>> Judge<
    H,
    (T, [u8; 32]),
    With<'a, S, End>,
> for DigestCertificate<J> {
    ghost may_judge = { λ j. J.may_judge j.0 };

    ghost starts_threads = { λ j. J.starts_threads j.0 };

    ghost limits = { λ j. TEXT_LIMIT ∷ [] };

    ghost goes_on = { λ j known texts. Unit {0} };

    ghost answers = { λ j known. AnswersBehind known.1 (λ certificate. J.answers j.0 (known.0, certificate)) };

    fn judge(
        &self,
        rt: &H,
        alloc: Global,
        known: (T, [u8; 32]),
        given: &mut With<'a, S, End>,
        page: &mut Page,
    ) -> Result<Outcome, Unjudged> {
        match read_text(alloc, given.first, TOO_LONG) {
            Ok(text) => judge_text(rt, alloc, &self.0, known, text.as_slice(), page),
            Err(Unloaded::Refused(fault)) => Ok(tell_fault(fault, page)),
            Err(Unloaded::Failed(failure)) => Err(unread(failure)),
        }
    }
}
