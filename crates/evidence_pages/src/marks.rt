//! Where on a page the tellings and the reads stand that a row of the licence asks for. EntryMarks are hints: the row that
//! asks reads what stands there.

use crate::sought::Sought;
use crate::uses::Uses;
use call_types::entry::Entry;
use call_types::reply::{Refusal, Reply};
use call_types::request::Request;
use kube_types::bindings::{is_completed, is_deleting, is_ended, is_scheduled};
use kube_types::copies::OutOfMemory;
use kube_types::key::{kind_index, kind_of, meta_of};
use kube_types::objects::{Claim, Object, Pod, Version, Volume};
use kube_types::parts::{Kind, Policy, VolumePhase};
use kube_types::text::Text;
use kube_types::uid::Uid;
use std::alloc::Global;
use std::collections::BTreeMap;
use std::marker::Model;

/// What stands at a mark.
#[derive(Clone, Copy, PartialEq, Eq, PartialOrd, Ord)]
enum MarkMatter {
    /// The first object of a version and a kind.
    Version,
    /// The first object, and the last.
    First,
    Last,
    /// The last telling of a claim; where it names no volume; and where it names one.
    Claim,
    Nameless,
    Named,
    /// The last claim that is deleting, or completed, and the first telling of each.
    Deleting,
    Completed,
    DeletingClaim,
    CompletedClaim,
    /// The last pod that has a node.
    Scheduled,
    /// The last volume that refers to a claim with a UID, and the first telling of a volume with this claim.
    Referring,
    ReferringVolume,
    /// The last volume that is Bound for a claim, and with so many bytes.
    Bound,
    Shown,
    /// The first telling of a volume that has ended.
    Ended,
    /// The last read, and the last one that found something else.
    Read,
    OtherRead,
    /// The last answer of the back end of each sort.
    Failed,
    Erased,
    Exhausted,
    Provisioned,
}

/// A matter, and of what.
#[derive(Clone, Copy, PartialEq, Eq, PartialOrd, Ord)]
struct EntryMark {
    matter: MarkMatter,
    one: u128,
    other: u128,
}

fn mark_alone(matter: MarkMatter) -> EntryMark {
    EntryMark {
        matter,
        one: 0,
        other: 0,
    }
}

fn mark_of(matter: MarkMatter, uid: Uid) -> EntryMark {
    EntryMark {
        matter,
        one: uid.0,
        other: 0,
    }
}

fn mark_at(version: Version, kind: u8) -> EntryMark {
    EntryMark {
        matter: MarkMatter::Version,
        one: version as u128,
        other: kind as u128,
    }
}

fn mark_shown(claim: Uid, bytes: u64) -> EntryMark {
    EntryMark {
        matter: MarkMatter::Shown,
        one: claim.0,
        other: bytes as u128,
    }
}

/// The UID of the claim to which the volume refers.
fn claim_uid(volume: &Volume) -> Option<Uid> {
    match &volume.claim_ref {
        None => None,
        Some(reference) => reference.uid,
    }
}

/// Whether the volume has ended and goes with its data.
pub(crate) fn is_ended_for_good(volume: &Volume) -> bool {
    if !is_ended(volume.phase) {
        return false;
    }
    match volume.policy {
        Policy::Delete => true,
        _ => false,
    }
}

/// The UID of the claim that a read found, or of the claim to which the volume refers that it found, or 0 where it
/// found none. Nothing is said where it found a volume without one.
fn found_uid(reply: &Reply) -> Option<u128> {
    match reply {
        Reply::Found(object) => match object {
            Object::Claim(claim) => match claim.meta.uid {
                None => Some(0),
                Some(uid) => Some(uid.0),
            },
            Object::Volume(volume) => match claim_uid(volume) {
                None => None,
                Some(uid) => Some(uid.0),
            },
            _ => Some(0),
        },
        Reply::Refused(Refusal::NotFound) => Some(0),
        _ => None,
    }
}

/// The name of the claim that the entry at the place tells alone.
fn claim_name<'a>(entries: &'a [Entry], place: usize) -> Option<&'a Text> {
    if place >= entries.len() {
        return None;
    }
    match &entries[place].reply {
        Reply::Done(object) => match object {
            Object::Claim(claim) => Some(&claim.meta.name),
            _ => None,
        },
        _ => None,
    }
}

/// The marks of the first entries of a page, `known` of them. Contracts see that number, and no place.
pub(crate) struct EntryMarks {
    places: BTreeMap<EntryMark, usize>,
    known: usize,
    found: u128,
    uses: Uses,
}

impl Drop for EntryMarks {
    fn drop(self) {
        let EntryMarks {
            places,
            known: _,
            found: _,
            uses,
        } = self;
        drop(places);
        drop(uses);
    }
}

impl Model for EntryMarks {
    ghost use Rattle.std.specs.Prelude.{ℕ};

    ghost Value = { ℕ };

    ghost view = { λ m. m.known };
}

impl EntryMarks {
    /// No entry is marked. It takes no memory.
    pub(crate) fn new(alloc: Global) -> EntryMarks {
        EntryMarks {
            places: BTreeMap::new(alloc),
            known: 0,
            found: 0,
            uses: Uses::new(alloc),
        }
    }

    fn place(&self, mark: EntryMark) -> Option<usize> {
        match self.places.get(&mark) {
            None => None,
            Some(place) => Some(*place),
        }
    }

    /// Where an object of this version and kind was told first.
    pub(crate) fn of_version(&self, object: &Object) -> Option<usize> {
        let version = meta_of(object).version;
        self.place(mark_at(version, kind_index(kind_of(object))))
    }

    // one entry more

    /// Sets the mark anew.
    fn put(&mut self, mark: EntryMark, place: usize) -> Result<(), OutOfMemory> {
        let _ = self.places.insert(mark, place)?;
        Ok(())
    }

    /// Sets the mark where it was not set.
    fn put_first(&mut self, mark: EntryMark, place: usize) -> Result<(), OutOfMemory> {
        match self.place(mark) {
            Some(_) => Ok(()),
            None => self.put(mark, place),
        }
    }

    fn learn_claim_of(&mut self, claim: &Claim, uid: Uid, place: usize) -> Result<(), OutOfMemory> {
        self.put(mark_of(MarkMatter::Claim, uid), place)?;
        if claim.volume_name.as_str().is_empty() {
            self.put(mark_of(MarkMatter::Nameless, uid), place)?;
        } else {
            self.put(mark_of(MarkMatter::Named, uid), place)?;
        }
        if is_deleting(&claim.meta) {
            self.put_first(mark_of(MarkMatter::DeletingClaim, uid), place)?;
        }
        if is_completed(claim) {
            self.put_first(mark_of(MarkMatter::CompletedClaim, uid), place)?;
        }
        Ok(())
    }

    fn learn_claim(&mut self, claim: &Claim, place: usize) -> Result<(), OutOfMemory> {
        if is_deleting(&claim.meta) {
            self.put(mark_alone(MarkMatter::Deleting), place)?;
        }
        if is_completed(claim) {
            self.put(mark_alone(MarkMatter::Completed), place)?;
        }
        match claim.meta.uid {
            None => Ok(()),
            Some(uid) => self.learn_claim_of(claim, uid, place),
        }
    }

    fn learn_reference(
        &mut self,
        volume: &Volume,
        claim: Uid,
        place: usize,
    ) -> Result<(), OutOfMemory> {
        self.put(mark_alone(MarkMatter::Referring), place)?;
        match volume.meta.uid {
            None => {}
            Some(uid) => self.put_first(
                EntryMark {
                    matter: MarkMatter::ReferringVolume,
                    one: uid.0,
                    other: claim.0,
                },
                place,
            )?,
        }
        match volume.phase {
            VolumePhase::Bound => self.learn_bound(volume, claim, place),
            _ => Ok(()),
        }
    }

    fn learn_bound(
        &mut self,
        volume: &Volume,
        claim: Uid,
        place: usize,
    ) -> Result<(), OutOfMemory> {
        self.put(mark_of(MarkMatter::Bound, claim), place)?;
        self.put(mark_shown(claim, volume.amount.bytes), place)
    }

    fn learn_volume(&mut self, volume: &Volume, place: usize) -> Result<(), OutOfMemory> {
        match volume.meta.uid {
            None => {}
            Some(uid) => {
                if is_ended_for_good(volume) {
                    self.put_first(mark_of(MarkMatter::Ended, uid), place)?;
                }
            }
        }
        match claim_uid(volume) {
            None => Ok(()),
            Some(claim) => self.learn_reference(volume, claim, place),
        }
    }

    fn learn_pod(&mut self, pod: &Pod, place: usize) -> Result<(), OutOfMemory> {
        if !is_scheduled(pod) {
            return Ok(());
        }
        self.put(mark_alone(MarkMatter::Scheduled), place)
    }

    fn learn_object(&mut self, object: &Object, place: usize) -> Result<(), OutOfMemory> {
        let version = meta_of(object).version;
        self.put_first(mark_at(version, kind_index(kind_of(object))), place)?;
        self.put_first(mark_alone(MarkMatter::First), place)?;
        self.put(mark_alone(MarkMatter::Last), place)?;
        match object {
            Object::Claim(claim) => self.learn_claim(claim, place),
            Object::Volume(volume) => self.learn_volume(volume, place),
            Object::Pod(pod) => self.learn_pod(pod, place),
            _ => Ok(()),
        }
    }

    fn learn_get(&mut self, reply: &Reply, place: usize) -> Result<(), OutOfMemory> {
        match found_uid(reply) {
            None => Ok(()),
            Some(found) => {
                if found != self.found {
                    match self.place(mark_alone(MarkMatter::Read)) {
                        None => {}
                        Some(last) => self.put(mark_alone(MarkMatter::OtherRead), last)?,
                    }
                }
                self.found = found;
                self.put(mark_alone(MarkMatter::Read), place)
            }
        }
    }

    /// What the back end answered.
    fn learn_answer(&mut self, reply: &Reply, place: usize) -> Result<(), OutOfMemory> {
        match reply {
            Reply::Provisioned { id: _, topology: _ } => {
                self.put(mark_alone(MarkMatter::Provisioned), place)
            }
            Reply::Erased { removed: _ } => self.put(mark_alone(MarkMatter::Erased), place),
            Reply::Refused(Refusal::Exhausted { free: _ }) => {
                self.put(mark_alone(MarkMatter::Exhausted), place)
            }
            Reply::Refused(Refusal::BackFault { planned: _ }) => {
                self.put(mark_alone(MarkMatter::Failed), place)
            }
            _ => Ok(()),
        }
    }

    fn learn_list(&mut self, reply: &Reply, place: usize) -> Result<(), OutOfMemory> {
        match reply {
            Reply::Listed { items, version: _ } => self.uses.learn(items.as_slice(), place),
            _ => Ok(()),
        }
    }

    fn learn(&mut self, entry: &Entry, place: usize) -> Result<(), OutOfMemory> {
        match &entry.reply {
            Reply::Done(object) => self.learn_object(object, place),
            reply => match &entry.request {
                Request::Get { key: _ } => self.learn_get(reply, place),
                Request::List {
                    kind: _,
                    namespace: _,
                } => self.learn_list(reply, place),
                _ => self.learn_answer(reply, place),
            },
        }
    }

    /// EntryMarks the entries of the page that are not marked.
    pub(crate) fn catch_up(&mut self, entries: &[Entry]) -> Result<(), OutOfMemory> {
        if self.known > entries.len() {
            return Ok(());
        }
        let (_marked, rest) = entries.split_at(self.known);
        for entry in rest {
            let place = self.known;
            self.learn(entry, place)?;
            self.known = place.saturating_add(1);
        }
        Ok(())
    }

    // what is sought

    /// The place of a mark, as a stretch.
    fn at(&self, mark: EntryMark) -> Option<(usize, usize)> {
        self.between(mark, mark)
    }

    /// From the one mark to the other.
    fn between(&self, from: EntryMark, to: EntryMark) -> Option<(usize, usize)> {
        match self.place(from) {
            None => None,
            Some(first) => match self.place(to) {
                None => None,
                Some(last) => Some((first, last)),
            },
        }
    }

    fn at_version(&self, kind: Kind, given: Option<Version>) -> Option<(usize, usize)> {
        match given {
            None => None,
            Some(version) => self.at(mark_at(version, kind_index(kind))),
        }
    }

    /// From the version of the kind to the mark.
    fn since_version(
        &self,
        kind: Kind,
        given: Option<Version>,
        to: MarkMatter,
    ) -> Option<(usize, usize)> {
        match given {
            None => None,
            Some(version) => self.between(mark_at(version, kind_index(kind)), mark_alone(to)),
        }
    }

    /// From the mark to the last read that found another than the claim of the UID.
    fn lacking(&self, from: EntryMark, claim: Uid) -> Option<(usize, usize)> {
        if self.found == claim.0 {
            self.between(from, mark_alone(MarkMatter::OtherRead))
        } else {
            self.between(from, mark_alone(MarkMatter::Read))
        }
    }

    /// From the first telling of the claim, deleting, to the last list whose pods do not use it.
    fn unused(&self, entries: &[Entry], claim: Uid) -> Option<(usize, usize)> {
        match self.place(mark_of(MarkMatter::DeletingClaim, claim)) {
            None => None,
            Some(first) => match claim_name(entries, first) {
                None => None,
                Some(name) => match self.uses.unused(name.as_str()) {
                    None => None,
                    Some(last) => Some((first, last)),
                },
            },
        }
    }

    /// A stretch that begins with a telling and ends with a read.
    fn stretch(&self, sought: Sought) -> Option<(usize, usize)> {
        match sought {
            Sought::Released { volume, claim } => {
                let from = EntryMark {
                    matter: MarkMatter::ReferringVolume,
                    one: volume.0,
                    other: claim.0,
                };
                self.lacking(from, claim)
            }
            Sought::Lost(claim) => self.lacking(mark_of(MarkMatter::CompletedClaim, claim), claim),
            Sought::Failed(given) => {
                self.since_version(Kind::PersistentVolume, given, MarkMatter::Failed)
            }
            Sought::Erased(volume) => {
                self.between(
                    mark_of(MarkMatter::Ended, volume),
                    mark_alone(MarkMatter::Erased),
                )
            }
            Sought::Exhausted(given) => {
                self.since_version(Kind::PersistentVolumeClaim, given, MarkMatter::Exhausted)
            }
            Sought::Provisioned => self.between(
                mark_alone(MarkMatter::First),
                mark_alone(MarkMatter::Provisioned),
            ),
            _ => None,
        }
    }

    /// Where what is sought on a page of this kind, with these entries, begins, and its last entry.
    pub(crate) fn find(
        &self,
        entries: &[Entry],
        kind: Kind,
        sought: Sought,
    ) -> Option<(usize, usize)> {
        match sought {
            Sought::Unused(claim) => self.unused(entries, claim),
            Sought::Version(given) => self.at_version(kind, given),
            Sought::Last => self.at(mark_alone(MarkMatter::Last)),
            Sought::Claim(uid) => self.at(mark_of(MarkMatter::Claim, uid)),
            Sought::Nameless(uid) => self.at(mark_of(MarkMatter::Nameless, uid)),
            Sought::Named(uid) => self.at(mark_of(MarkMatter::Named, uid)),
            Sought::Deleting => self.at(mark_alone(MarkMatter::Deleting)),
            Sought::Completed => self.at(mark_alone(MarkMatter::Completed)),
            Sought::Scheduled => self.at(mark_alone(MarkMatter::Scheduled)),
            Sought::Referring => self.at(mark_alone(MarkMatter::Referring)),
            Sought::Bound(uid) => self.at(mark_of(MarkMatter::Bound, uid)),
            Sought::Shown(uid, bytes) => self.at(mark_shown(uid, bytes)),
            _ => self.stretch(sought),
        }
    }
}
