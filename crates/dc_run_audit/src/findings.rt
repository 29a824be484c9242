//! What was found of a run, and its lines.
ghost use Rattle.std.specs.Prelude.{◌≡◌, ◌∷◌, [], ◌++◌, ◌+◌, ◌≤◌, length};
ghost use Rattle.arrayvec.specs.ArrayVec.{array_vec_len};
ghost use Rattle.dc_answer.specs.Judging.{Says};
ghost use Rattle.dc_device.specs.Lines.{spelled};
ghost use Rattle.dc_print.specs.declared.text.TheConstants.{TEXT_CAPACITY};
ghost use Rattle.dc_run_audit.specs.Audit.{answer_findings, findings_lines, holds_text};

use dc_answer::{Outcome, Page};
use dc_event::Claim;
use dc_oracle::AuditCourse;
use dc_print::{Text, append, append_number};
use dc_run::append_claims;

/// Where a run first fails, by places that count from 1.
#[derive(Clone, Copy, Debug, PartialEq, Eq)]
pub struct Findings {
    /// The first event that breaks the budgets.
    pub budgets: Option<usize>,
    /// The first event that breaks what is asked of the sources.
    pub sources: Option<usize>,
    /// The least claim that fails at the first event at which any does.
    pub claims: Option<(Claim, usize)>,
}

/// What was found of a run that was followed to its end.
pub(crate) fn findings_of(course: &AuditCourse) -> Findings
    ensures budgets { result.budgets ≡ course.now.budgets.broken }
    ensures sources { result.sources ≡ course.now.sources.broken }
    ensures claims { result.claims ≡ course.now.claims.broken }
{
    Findings {
        budgets: course.budgets(),
        sources: course.sources(),
        claims: course.claims(),
    }
}

/// Puts the line of the budgets or of the sources at the end.
fn append_holds(text: &mut Text, subject: &[u8], place: Option<usize>)
    requires { array_vec_len text.old + length subject.now + 30 ≤ TEXT_CAPACITY }
    ensures items { text.new.items ≡ text.old.items ++ holds_text subject.now place }
    ensures len { array_vec_len text.new ≤ array_vec_len text.old + length subject.now + 29 }
{
    append(text, subject);
    match place {
        None => append(text, b" hold"),
        Some(place) => {
            append(text, b" fail at ");
            append_number(text, place as u64);
        }
    }
}

/// The lines of what was found.
fn print_findings(text: &mut Text, found: Findings)
    ensures { text.new.items ++ 10 ∷ [] ≡ spelled (findings_lines found) }
{
    text.clear();
    append_holds(text, b"budgets", found.budgets);
    append(text, b"\n");
    append_holds(text, b"sources", found.sources);
    append(text, b"\n");
    append_claims(text, found.claims);
}

/// What an audit ends with that found this.
fn outcome(found: Findings) -> Outcome
    ensures { result ≡ (answer_findings found).outcome }
{
    if found.budgets.is_none() && found.sources.is_none() && found.claims.is_none() {
        Outcome::Done
    } else {
        Outcome::Refused
    }
}

/// Keeps what was found.
pub(crate) fn tell_findings(page: &mut Page, found: Findings) -> Outcome
    ensures { Says (λ answer. answer ≡ answer_findings found) page.new result }
{
    let mut text = Text::new();
    print_findings(&mut text, found);
    page.tell(text);
    outcome(found)
}
