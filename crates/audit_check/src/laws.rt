//! What verdicts say. Each law is a function with nothing to do, whose contract is the law.

ghost use Rattle.audit_check.specs.Laws.{OneVerdict, YesIsRun, YesIsSafe};

/// A history has one verdict.
#[tactic(auto, using(crate::proofs::Verdicts::one_verdict))]
pub fn one_verdict()
    ensures { OneVerdict }
{}

/// Yes is the verdict on every run, and on nothing else.
#[tactic(auto, using(crate::proofs::Verdicts::yes_is_run))]
pub fn yes_is_run()
    ensures { YesIsRun }
{}

/// What gets Yes is safe at every point.
#[tactic(auto, using(crate::proofs::Verdicts::yes_is_safe))]
pub fn yes_is_safe()
    ensures { YesIsSafe }
{}
