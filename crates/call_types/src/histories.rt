//! A history as it is handed over: what its world began with, and the entries of its calls.
//!
//! Promises: nothing beside the type; `History` has a setup and entries, the oldest first. Not said: that it is the history
//! of any world. `audit_check` judges that.

use crate::entry::Entry;
use crate::setup::Setup;
use kube_types::items::Items;

/// A setup, and entries, the oldest first.
#[derive(Debug)]
pub struct History {
    pub setup: Setup,
    pub entries: Items<Entry>,
}

impl Drop for History {
    fn drop(self) {
        let History { setup, entries } = self;
        drop(setup);
        drop(entries);
    }
}
