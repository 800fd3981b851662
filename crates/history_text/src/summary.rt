//! What the summary of a run says.

use kube_types::key::Key;
use kube_types::names::Due;

/// The number of volumes in each phase.
#[derive(Clone, Copy)]
pub struct VolumeCounts {
    pub pending: u64,
    pub available: u64,
    pub bound: u64,
    pub released: u64,
    pub failed: u64,
}

/// The number of claims in each phase.
#[derive(Clone, Copy)]
pub struct ClaimCounts {
    pub pending: u64,
    pub bound: u64,
    pub lost: u64,
}

/// How a run ended: with nothing left to do, or after so many calls with the action `due` for the
/// object of the key.
pub enum Ending {
    Settled,
    Unsettled { calls: u64, key: Key, due: Due },
}

impl Drop for Ending {
    fn drop(self) {
        match self {
            Ending::Settled => {}
            Ending::Unsettled {
                calls: _,
                key,
                due: _,
            } => drop(key),
        }
    }
}

/// The numbers of a run. `writes` is the version of the store, `mounted` the number of mounted pods
/// over all nodes, `stored` the number of data that are there, and `calls` the number of calls of
/// Provision and Erase.
pub struct Summary {
    pub writes: u64,
    pub objects: u64,
    pub volumes: VolumeCounts,
    pub claims: ClaimCounts,
    pub pods: u64,
    pub mounted: u64,
    pub stored: u64,
    pub calls: u64,
    pub ending: Ending,
}

impl Drop for Summary {
    fn drop(self) {
        let Summary {
            writes: _,
            objects: _,
            volumes: _,
            claims: _,
            pods: _,
            mounted: _,
            stored: _,
            calls: _,
            ending,
        } = self;
        drop(ending);
    }
}
