//! What the answers of an engine mean, one by one and over a whole run. The calls do nothing.
ghost use Rattle.dc_engine.specs.Answers.{AreToldApart};
ghost use Rattle.dc_engine.specs.Runs.{AnswersAreOutputs, ClaimsHoldForCalls};

/// No two replies or refusals have one answer.
pub fn told_apart()
    ensures { AreToldApart }
{}

/// Of an engine that stood for the empty run, however many calls were made: those that it carried out are a run of its
/// tables that keeps the budgets, its answers to them are the outputs of that run, in order, and each other call was
/// refused since its event may not follow the run before it.
pub fn answers_are_outputs()
    ensures { AnswersAreOutputs }
{}

/// Where these calls keep what is asked of the sources too, the claims of the certificate hold for them.
pub fn claims_hold_for_the_calls()
    ensures { ClaimsHoldForCalls }
{}
