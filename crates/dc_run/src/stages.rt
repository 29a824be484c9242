//! What engines ask behind tables and a certificate.
ghost use Rattle.std.specs.Prelude.{◌≡◌, Ok, Some};
ghost use Rattle.dc_answer.specs.Judging.{Says};
ghost use Rattle.dc_cert.specs.NamedRows.{named_rows};
ghost use Rattle.dc_check.specs.Verdict.{verdict_of};
ghost use Rattle.dc_run.specs.Check.{Certifies};
ghost use Rattle.dc_run.specs.Refusals.{trace_end};
ghost use Rattle.dc_run.specs.Stages.{AnswersAccepted};

use crate::check;
use crate::replay::code_of;
use dc_answer::{Given, Judge, Outcome, Page, Unjudged, print_fault};
use dc_cert::Certificate;
use dc_event::TraceFault;
use dc_print::Text;
use dc_tables::Tables;
use std::alloc::Global;

/// Judges a certificate, and goes on only where it is accepted.
#[derive(Clone, Copy, Debug)]
pub struct OnlyAccepted<J>(pub J);

impl<H, G: Given, J: Judge<H, (Tables, Certificate), G>> Judge<H, (Tables, Certificate), G>
    for OnlyAccepted<J> {
    ghost may_judge = { λ j. J.may_judge j.0 };

    ghost starts_threads = { λ j. J.starts_threads j.0 };

    ghost limits = { λ j. J.limits j.0 };

    ghost goes_on = { λ j known texts. Certifies known.0 (Ok (named_rows known.1)) × J.goes_on j.0 known texts };

    ghost answers = { λ j known texts answer. AnswersAccepted known.0 (J.answers j.0 known texts) answer (verdict_of known.0 (named_rows known.1)) };

    fn judge(
        &self,
        rt: &H,
        alloc: Global,
        known: (Tables, Certificate),
        given: &mut G,
        page: &mut Page,
    ) -> Result<Outcome, Unjudged> {
        match check::judge(&known.0, &known.1, page) {
            Outcome::Done => self.0.judge(rt, alloc, known, given, page),
            refused => Ok(refused),
        }
    }
}

/// Keeps the line of a fault of a trace, and is unreadable.
pub fn tell_fault(page: &mut Page, fault: TraceFault) -> Outcome
    ensures { Says (λ answer. answer ≡ trace_end (Some fault)) page.new result }
{
    let mut line = Text::new();
    print_fault(&mut line, code_of(fault.rule), fault.line);
    page.tell(line);
    Outcome::Unreadable
}
