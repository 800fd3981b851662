//! What the fence promises, whatever program sends whatever lines. Each law is a function with nothing to do, whose
//! contract is the law.

ghost use Rattle.store_server.specs.Laws.{FencedIsRun, FencedIsSafe, ServedIsHistory};

/// With the fence the history is a run.
#[tactic(auto, using(crate::proofs::Fenced::fenced_is_run))]
pub fn fenced_is_run()
    ensures { FencedIsRun }
{}

/// With the fence the history is safe at every point.
#[tactic(auto, using(crate::proofs::Fenced::fenced_is_safe))]
pub fn fenced_is_safe()
    ensures { FencedIsSafe }
{}

/// With the fence or without it, each reply is the world's.
#[tactic(auto, using(crate::proofs::Fenced::served_is_history))]
pub fn served_is_history()
    ensures { ServedIsHistory }
{}
