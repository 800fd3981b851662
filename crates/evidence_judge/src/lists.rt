//! The versions of the lists with which a seat follows the kinds.

ghost use Rattle.std.specs.Prelude.{◌≡◌, ℕ, [], ◌∷◌, IsTrue, List, None, Some};
ghost use Rattle.call_types.specs.declared.entry.Entry.{Entry};
ghost use Rattle.call_types.specs.declared.request.Request.TheVariants as requests;
ghost use Rattle.binder_model.specs.Reading.{Following, follow_on, following_of};
ghost use Rattle.evidence_judge.specs.Steps.Lists.{AreListsOf, list_version, version_in};

use call_types::entry::Entry;
use call_types::reply::{Refusal, Reply};
use call_types::request::Request;
use kube_types::key::same_kind;
use kube_types::objects::Version;
use kube_types::parts::Kind;

/// Of each kind the version of the list that was told last, where no watch was told Gone since.
#[derive(Clone, Copy)]
pub struct LastLists {
    pub classes: Option<Version>,
    pub nodes: Option<Version>,
    pub volumes: Option<Version>,
    pub claims: Option<Version>,
    pub pods: Option<Version>,
}

/// The version of the list of the kind after the answer to a list of a whole kind.
fn after_list(kind: Kind, listed: Kind, reply: &Reply, before: Option<Version>) -> Option<Version>
    ensures { (f : Following) → before ≡ list_version f → result ≡ list_version (follow_on (requests.List listed None) reply.now kind f) }
{
    match reply {
        Reply::Listed { items: _, version } => {
            if same_kind(listed, kind) {
                Some(*version)
            } else {
                before
            }
        }
        _ => before,
    }
}

/// The same after the answer to a watch.
#[tactic(auto, using(crate::proofs::Listed::watched))]
fn after_watch(kind: Kind, watched: Kind, reply: &Reply, before: Option<Version>) -> Option<Version>
    ensures { (from : ℕ) (f : Following) → before ≡ list_version f → result ≡ list_version (follow_on (requests.Watch watched from) reply.now kind f) }
{
    match reply {
        Reply::Refused(Refusal::Gone { oldest: _ }) => {
            if same_kind(watched, kind) {
                None
            } else {
                before
            }
        }
        _ => before,
    }
}

/// The same after one more entry.
fn version_after(kind: Kind, entry: &Entry, before: Option<Version>) -> Option<Version>
    ensures { (mine : List Entry) → before ≡ list_version (following_of mine kind) → result ≡ list_version (following_of (entry.now ∷ mine) kind) }
{
    if !entry.told {
        return before;
    }
    match &entry.request {
        Request::List {
            kind: listed,
            namespace: None,
        } => after_list(kind, *listed, &entry.reply, before),
        Request::Watch {
            kind: watched,
            from: _,
        } => after_watch(kind, *watched, &entry.reply, before),
        _ => before,
    }
}

impl LastLists {
    /// No kind was listed.
    pub(crate) fn new() -> LastLists
        ensures { AreListsOf result [] }
    {
        LastLists {
            classes: None,
            nodes: None,
            volumes: None,
            claims: None,
            pods: None,
        }
    }

    /// The versions after one more entry.
    pub(crate) fn after(&self, entry: &Entry) -> LastLists
        ensures { (mine : List Entry) → AreListsOf self.now mine → AreListsOf result (entry.now ∷ mine) }
    {
        LastLists {
            classes: version_after(Kind::StorageClass, entry, self.classes),
            nodes: version_after(Kind::Node, entry, self.nodes),
            volumes: version_after(Kind::PersistentVolume, entry, self.volumes),
            claims: version_after(Kind::PersistentVolumeClaim, entry, self.claims),
            pods: version_after(Kind::Pod, entry, self.pods),
        }
    }

    fn version(&self, kind: Kind) -> Option<Version>
        ensures { result ≡ version_in self.now kind }
    {
        match kind {
            Kind::StorageClass => self.classes,
            Kind::Node => self.nodes,
            Kind::PersistentVolume => self.volumes,
            Kind::PersistentVolumeClaim => self.claims,
            Kind::Pod => self.pods,
        }
    }

    /// Whether the list of the kind had this version.
    pub(crate) fn has(&self, kind: Kind, from: Version) -> bool
        ensures { IsTrue result → version_in self.now kind ≡ Some from }
    {
        match self.version(kind) {
            None => false,
            Some(version) => version == from,
        }
    }
}
