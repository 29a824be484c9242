//! What the engines that start threads do alike: a certificate is judged for tables that threads share.
ghost use Rattle.std.specs.Prelude.{◌≡◌, ◌≢◌, List, [], IfErr};
ghost use Rattle.std.specs.Arc.{arc_value};
ghost use Rattle.std.specs.Thread.{IsSync};
ghost use Rattle.dc_answer.specs.Answer.{Answer};
ghost use Rattle.dc_answer.specs.Judging.{Keeps};
ghost use Rattle.dc_cert.specs.NamedRows.{NamedRows, named_rows};
ghost use Rattle.dc_tables.specs.TableRows.{TableRows};

use dc_answer::{End, Judge, Outcome, Page, Unjudged};
use dc_cert::Certificate;
use dc_print::Text;
use dc_tables::Tables;
use std::alloc::Global;
use std::marker::Sync;
use std::sync::{Arc, Wait};
use std::thread::Threads;

/// What judges a certificate for tables that threads share.
pub trait JudgeShared {
    // That it may be asked to.
    ghost may_judge: { Self → Type 0 };

    // What it answers to a certificate, for tables.
    ghost answers: { Self → TableRows → NamedRows → Answer → Type 0 };

    /// Judges a certificate, and prints the answer.
    ///
    /// # Errors
    /// `Memory` where memory was refused; `Threads`, of which no clause says when.
    fn judge_shared<R: Threads + Wait + Sync>(
        &self,
        rt: &R,
        alloc: Global,
        tables: &Arc<Tables>,
        certificate: Certificate,
        text: &mut Text,
    ) -> Result<Outcome, Unjudged>
        requires may { may_judge self.now }
        requires sync { IsSync R.row }
        ensures answer { Keeps (answers self.now (arc_value tables.now) (named_rows certificate)) text.new.items result }
        ensures cause { IfErr result (λ e. e ≢ Unjudged.Device) };
}

/// Judges a certificate for shared tables, and keeps the answer on a page.
fn keep_shared<J: JudgeShared, R: Threads + Wait + Sync>(
    rt: &R,
    alloc: Global,
    judge: &J,
    tables: &Arc<Tables>,
    certificate: Certificate,
    page: &mut Page,
) -> Result<Outcome, Unjudged>
    requires { J.may_judge judge.now }
    ensures answer { Keeps (J.answers judge.now (arc_value tables.now) (named_rows certificate)) page.new result }
    ensures cause { IfErr result (λ e. e ≢ Unjudged.Device) }
{
    let mut text = Text::new();
    let judged = judge.judge_shared(rt, alloc, tables, certificate, &mut text);
    page.tell(text);
    judged
}

/// The same, for tables that are to be shared.
fn share_and_judge<J: JudgeShared, R: Threads + Wait + Sync>(
    rt: &R,
    alloc: Global,
    judge: &J,
    tables: Tables,
    certificate: Certificate,
    page: &mut Page,
) -> Result<Outcome, Unjudged>
    requires { J.may_judge judge.now }
    ensures answer { Keeps (J.answers judge.now tables (named_rows certificate)) page.new result }
    ensures cause { IfErr result (λ e. e ≢ Unjudged.Device) }
{
    match Arc::new(alloc, tables) {
        Ok(tables) => keep_shared(rt, alloc, judge, &tables, certificate, page),
        Err(_) => Err(Unjudged::Memory),
    }
}

/// The end of an engine that starts threads: they share the tables.
#[derive(Clone, Copy, Debug)]
pub struct Shared<J>(pub J);

impl<R: Threads + Wait + Sync, J: JudgeShared> Judge<R, (Tables, Certificate), End> for Shared<J> {
    ghost may_judge = { λ j. J.may_judge j.0 × IsSync R.row };

    ghost starts_threads = { λ j. Unit {0} };

    ghost limits = { λ j. [] };

    ghost goes_on = { λ j known texts. Unit {0} };

    ghost answers = { λ j known texts answer. J.answers j.0 known.0 (named_rows known.1) answer };

    fn judge(
        &self,
        rt: &R,
        alloc: Global,
        known: (Tables, Certificate),
        _given: &mut End,
        page: &mut Page,
    ) -> Result<Outcome, Unjudged> {
        let (tables, certificate) = known;
        share_and_judge(rt, alloc, &self.0, tables, certificate, page)
    }
}
