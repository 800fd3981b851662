//! How a drain of a world ended.

use kube_types::key::Key;
use kube_types::names::Due;

/// How a drain ended: with nothing due, or with its budget of calls spent and this action due first.
#[derive(Debug)]
pub enum Drained {
    Settled { made: u64 },
    Spent { made: u64, key: Key, due: Due },
}

impl Drop for Drained {
    fn drop(self) {
        match self {
            Drained::Settled { made: _ } => {}
            Drained::Spent {
                made: _,
                key,
                due: _,
            } => drop(key),
        }
    }
}
