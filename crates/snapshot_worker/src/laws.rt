//! What holds of each life of a worker.

ghost use Rattle.snapshot_worker.specs.Workers.{EachAskIsLicensed};

/// Each ask that a worker gives is licensed by its own earlier calls, whatever they were told.
#[tactic(auto, using(crate::proofs::Lives::each_ask_is_licensed))]
pub fn each_ask_is_licensed()
    ensures { EachAskIsLicensed }
{}
