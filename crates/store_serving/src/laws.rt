//! What was written is one history. The law is a function with nothing to do, whose contract is the law.

ghost use Rattle.store_serving.specs.Laws.{OneHistoryIsWritten};

/// Once a setup was read, what was written without the lines at fault and those that the fence refused is, with the line
/// end, one history: that of the entries in their order.
#[tactic(auto, using(crate::proofs::Kept::one_history_is_written))]
pub fn one_history_is_written()
    ensures { OneHistoryIsWritten }
{}
