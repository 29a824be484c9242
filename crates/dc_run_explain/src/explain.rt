//! `explain`: what a code means, or what every code does. Nothing is read.
ghost use Rattle.std.specs.Prelude.{◌≡◌, ◌≢◌};
ghost use Rattle.dc_answer.specs.Answer.{LeavesSink};
ghost use Rattle.dc_answer.specs.Judging.{Keeps};
ghost use Rattle.dc_device.specs.States.{CanFail};
ghost use Rattle.dc_run_explain.specs.Explain.{IsPage, ReportsExplain};

use crate::telling::tell_meanings;
use dc_answer::{End, Exit, Outcome, Page, Tell, Then, run};
use dc_codes::Code;
use dc_device::Sink;
use std::alloc::{AllocError, Global};

/// Makes the page on a code, or on all.
fn page_on(code: Option<Code<'_>>, page: &mut Page) -> Result<Outcome, AllocError>
    ensures { Keeps IsPage page.new result }
{
    tell_meanings(code, page)?;
    Ok(Outcome::Done)
}

/// Makes the page on a code in each of its meanings, or on all where none is said. No clause says what stands in the
/// page: it is tested.
#[derive(Clone, Copy, Debug)]
pub struct Explain<'n>(pub Option<Code<'n>>);

impl<'n> Tell<()> for Explain<'n> {
    ghost answers = { λ _ known. IsPage };

    fn tell(&self, _alloc: Global, _known: (), page: &mut Page) -> Result<Outcome, AllocError> {
        page_on(self.0, page)
    }
}

/// Writes the page on a code in each of its meanings onto a sink, or on all codes where none is said. No clause says what
/// stands in the page: it is tested.
///
/// It ends `Done`, or `Failed` where the sink failed or memory was refused: `failed memory` alone was written; where a
/// push or flush failed, a front of that or of the page. That call is the last of the sink.
pub fn run_explain<K: Sink>(alloc: Global, code: Option<Code<'_>>, sink: &mut K) -> Exit
    requires { CanFail (K.state sink.old) }
    ensures reports { ReportsExplain (K.state sink.old).contents (K.state sink.new).contents (K.state sink.old).failed (K.state sink.new).failed result }
    ensures done { result ≢ Exit.Failed → result ≡ Exit.Done }
    ensures left { LeavesSink (K.state sink.old).failed (K.state sink.new).failed (K.state sink.new).last_failed (K.state sink.new).hidden }
    ensures quiet { result ≢ Exit.Failed → (K.state sink.new).failed ≡ (K.state sink.old).failed }
{
    run(&(), alloc, &Then(Explain(code)), &mut End, sink)
}
