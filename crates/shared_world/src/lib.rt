//! A world that threads share: one kept world behind the lock, called with passes.
//!
//! Promises: a call by a pass is answered as the world answers at that point, and leaves one entry; the pass then knows
//! just its own entries, and what it has seen begins the history and is a run (`shared::SharedWorld::call`). `close` gives
//! the kept world back exactly where no pass is missing, with each pass's own entries and no others. A pass may fork and
//! meet, and learn what another had seen. Not said: what the lock does not say: that a call returns, who comes first, fairness,
//! progress.
#![tactic(auto)]

pub mod behind;
pub mod shared;
