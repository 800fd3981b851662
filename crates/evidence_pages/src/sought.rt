//! What is sought on a page, so that a row of the licence reads it and not the whole page.

use kube_types::objects::Version;
use kube_types::uid::Uid;

/// A telling on a page, or a stretch of the page that begins with one and ends with a read. Nothing is promised of
/// what is found: the row that asks decides on it.
#[derive(Clone, Copy)]
pub enum Sought {
    /// All that the page has.
    All,
    /// An object of the version.
    Version(Option<Version>),
    /// The last object that was told.
    Last,
    /// The claim of the UID.
    Claim(Uid),
    /// The claim of the UID, where it names no volume.
    Nameless(Uid),
    /// The claim of the UID, where it names a volume.
    Named(Uid),
    /// A claim that is deleting.
    Deleting,
    /// A claim that is completed.
    Completed,
    /// A pod that has a node.
    Scheduled,
    /// A volume that refers to a claim with a UID.
    Referring,
    /// A volume that is Bound for the claim of the UID.
    Bound(Uid),
    /// The same, where the volume has so many bytes.
    Shown(Uid, u64),
    /// From the volume that refers to the claim to the last read that found no claim of the UID.
    Released { volume: Uid, claim: Uid },
    /// From the claim, completed, to the last read that found no volume for it.
    Lost(Uid),
    /// From the claim, deleting, to the last list of pods of which none uses it.
    Unused(Uid),
    /// From the volume of the version to the last Erase that failed.
    Failed(Option<Version>),
    /// From the volume of the UID, which has ended, to the last Erase that was done.
    Erased(Uid),
    /// From the claim of the version to the last Provision for which no pool had the bytes.
    Exhausted(Option<Version>),
    /// From the first object to the last Provision that was answered with data.
    Provisioned,
}
