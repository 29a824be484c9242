//! What C is answered by an engine that it opened. The call does nothing.
ghost use Rattle.dc_embed.specs.Runs.{OpenedAnswerTheirRuns};

use dc_engine::{answers_are_outputs, claims_hold_for_the_calls};

/// Where an engine was opened of two texts, and events were called of it, however many: those that it carried out are a
/// run of the tables of the one text that keeps the budgets, what was answered to them are the outputs of that run, in
/// order, and each other call was refused since its event may not follow the run before it. Where the run keeps what is
/// asked of the sources too, the claims of the other text hold for it.
pub fn opened_engines_answer_their_runs()
    ensures { OpenedAnswerTheirRuns }
{
    answers_are_outputs();
    claims_hold_for_the_calls();
}
