//! The look-ups of what one seat was told.

ghost use Rattle.std.specs.Prelude.{◌≡◌, List, None, Some, IfNone, IfSome, IsTrue, reverse};
ghost use Rattle.kube_objects.specs.declared.objects.Object.{Object};
ghost use Rattle.call_types.specs.declared.entry.Entry.{Entry};
ghost use Rattle.binder_model.specs.AgentLicence.{MayFinish, MayMount, MayReadMounts, MayUnmount};
ghost use Rattle.binder_model.specs.Licence.{AreOfKind};
ghost use Rattle.binder_model.specs.ObjectKeys.{node_key};
ghost use Rattle.binder_model.specs.Reading.{AsksForMount, IsFrom, IsUnlisted, LacksUid, following_of};
ghost use Rattle.binder_model.specs.Told.{IsNewest, IsNewestAbsent, last_found, newest, object_of};
ghost use Rattle.licence_scans.specs.Keyed.{key_at};
ghost use Rattle.evidence_pages.specs.Parts.{IsPart};
ghost use Rattle.licence_record.specs.Defaulted.{IsDefaultNamed};
ghost use Rattle.licence_record.specs.Judged.{Judges};

use call_types::entry::Entry;
use call_types::request::SeatKind;
use evidence_pages::sought::Sought;
use kube_types::key::Key;
use kube_types::objects::{DataId, Object, Version, Volume};
use kube_types::parts::Kind;
use kube_types::text::Text;
use kube_types::uid::Uid;

/// The entries of one seat, of which it is asked what they tell. `told` are all of them, the newest first. Where
/// the record is `whole`, a look-up that finds nothing shows that there is nothing.
pub trait Record {
    ghost told: { Self → List Entry };

    ghost whole: { Self → Type 0 };

    /// Whether all entries have this kind.
    fn is_of_kind(&self, kind: SeatKind) -> bool
        ensures { Judges (whole self.now) result (AreOfKind kind (told self.now)) };

    // what was told newest

    /// The newest told object of the key, unless its absence is newer.
    fn newest(&self, kind: Kind, namespace: &str, name: &str) -> Option<&Object>
        ensures some { IfSome result (λ o. IsNewest (told self.now) (key_at kind namespace.now name.now) o.now) }
        ensures none { whole self.now → IfNone result ((o : Object) → IsNewest (told self.now) (key_at kind namespace.now name.now) o → ⊥) };

    /// Whether what was told newest of the node is its absence.
    fn is_node_absent(&self, name: &str) -> bool
        ensures { Judges (whole self.now) result (IsNewestAbsent (told self.now) (node_key name.now)) };

    /// Whether what was told newest of the key is no claim with this UID.
    fn lacks_claim(&self, key: &Key, uid: Uid) -> bool
        ensures { Judges (whole self.now) result (LacksUid (object_of (newest (told self.now) key.now)) uid) };

    /// Whether the class of this name is the default one of those that were told newest.
    fn is_default(&self, name: &str) -> bool
        ensures { Judges (whole self.now) result (IsDefaultNamed (told self.now) name.now) };

    // parts of the entries

    /// What is sought among the entries that speak of the key, the oldest first.
    fn about(&self, kind: Kind, namespace: &str, name: &str, sought: Sought) -> &[Entry]
        ensures part { IsPart (reverse result.now) (told self.now) }
        ensures all { whole self.now → reverse result.now ≡ told self.now };

    /// The same among those that speak of data provisioned under this name.
    fn provisioned(&self, name: &Text, sought: Sought) -> &[Entry]
        ensures part { IsPart (reverse result.now) (told self.now) }
        ensures all { whole self.now → reverse result.now ≡ told self.now };

    /// The same among those that speak of data provisioned for the claim with the UID of this text.
    fn wanted(&self, uid: &str, sought: Sought) -> &[Entry]
        ensures part { IsPart (reverse result.now) (told self.now) }
        ensures all { whole self.now → reverse result.now ≡ told self.now };

    // what was told last

    /// The volume over these data that a read found last.
    fn last_over(&self, id: &DataId) -> Option<&Volume>
        ensures some { IfSome result (λ v. last_found id.now (told self.now) ≡ Some v.now) }
        ensures none { whole self.now → IfNone result (last_found id.now (told self.now) ≡ None) };

    /// Whether no list of the kind was told since the last Gone.
    fn is_unlisted(&self, kind: Kind) -> bool
        ensures { Judges (whole self.now) result (IsUnlisted (following_of (told self.now) kind)) };

    /// Whether a watch of the kind may begin at this version.
    fn is_from(&self, kind: Kind, from: Version) -> bool
        ensures { Judges (whole self.now) result (IsFrom from (following_of (told self.now) kind)) };

    // the rows of a node agent, which each record judges in its own way

    /// Whether the node's mounts may be read at this epoch.
    fn is_current(&self, node: &Text, epoch: u64) -> bool
        ensures { Judges (whole self.now) result (MayReadMounts (told self.now) node.now epoch) };

    /// Whether the pod may be mounted with these claims.
    fn may_mount(&self, node: &Text, epoch: u64, pod: Uid, claims: &[Uid]) -> bool
        ensures { Judges (whole self.now) result (MayMount (told self.now) node.now epoch pod claims.now) };

    /// Whether the pod may be unmounted.
    fn may_unmount(&self, node: &Text, epoch: u64, pod: Uid) -> bool
        ensures { Judges (whole self.now) result (MayUnmount (told self.now) node.now epoch pod) };

    /// Whether the pod may be finished.
    fn may_finish(&self, key: &Key, pod: Uid, node: &Text, epoch: u64) -> bool
        ensures { Judges (whole self.now) result (MayFinish (told self.now) key.now pod node.now epoch) };

    /// Whether an agent may read the claim or volume of the key.
    fn asks_for_mount(&self, key: &Key) -> bool
        ensures { Judges (whole self.now) result (AsksForMount (told self.now) key.now) };
}
