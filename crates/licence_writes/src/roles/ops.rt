//! Where the provisioner and reclaimer may write and call the back end.

ghost use Rattle.std.specs.Prelude.{◌≡◌, ◌↔◌, IsTrue, Some, reverse};
ghost use Rattle.kube_objects.specs.declared.objects.Object.TheVariants as objects;
ghost use Rattle.plain_data.specs.Pairs.{without_key};
ghost use Rattle.kube_objects.specs.Bindings.{selected_node};
ghost use Rattle.kube_objects.specs.Sources.{data_id_of};
ghost use Rattle.binder_model.specs.OpsLicence.{IsEndedOver, IsThisClaim, IsThisVolume, MayDelete, MayFail, TellsEraseFailed, TellsErased, TellsExhausted};
ghost use Rattle.binder_model.specs.Provisioning.{data_name, is_wanting, provisions};
ghost use Rattle.binder_model.specs.Told.{After, IsVolumeWith, ToldClaim};
ghost use Rattle.licence_writes.specs.OpsRows.Providing.{IsAsked, IsAskedFor, IsEnded, IsOverSame, WasEnded, WasErased};

use call_types::entry::Entry;
use call_types::reply::{Refusal, Reply};
use call_types::request::Request;
use kube_types::bindings::{NO_PROVISIONER, SELECTED_NODE, is_completed, is_deleting, is_ended};
use kube_types::objects::{Claim, Class, DataId, Object, Volume};
use kube_types::uid::Uid;
use licence_rows::ids::{is_data_name, is_id_of};
use licence_rows::parts::{is_delete, is_known};
use licence_scans::changes::{is_claim_meta, is_unannotated};
use licence_scans::entries::{EntryTest, after, last_place};
use licence_scans::rows::{ClaimTest, OfClaims, OfVolumes, VolumeTest, told_volume};
use licence_scans::shared::{SharedTest, told_shared};
use plain_data::copies::Plain;
use plain_data::text::Text;

// provisioning

/// Whether the claim is one that may be provisioned, as far as the claim itself says.
fn is_wanting(claim: &Claim) -> bool
    ensures { result ≡ is_wanting claim.now }
{
    !is_completed(claim)
        && !is_deleting(&claim.meta)
        && kube_types::bindings::is_empty(&claim.volume_name)
        && claim.selector.is_none()
}

/// Whether a provisioner makes volumes of the class.
pub fn provisions(class: &Class) -> bool
    ensures { result ≡ provisions class.now }
{
    !class.provisioner.is(NO_PROVISIONER)
}

/// The data of this name and size are asked for the claim, which wants a volume.
#[derive(Drop)]
pub struct Asked<'a> {
    pub name: &'a Text,
    pub bytes: u64,
}

impl<'a> ClaimTest for Asked<'a> {
    ghost allows = { λ t c. IsAsked t.name.now t.bytes c };

    fn test(&self, claim: &Claim) -> bool {
        match claim.meta.uid {
            None => false,
            Some(uid) => self.is_for(claim, uid),
        }
    }
}

impl<'a> Asked<'a> {
    fn is_for(&self, claim: &Claim, uid: Uid) -> bool
        ensures { IsTrue result ↔ IsAskedFor self.now.name.now self.now.bytes claim.now uid }
    {
        if self.bytes != claim.amount.bytes {
            return false;
        }
        if !is_data_name(self.name, uid) {
            return false;
        }
        is_wanting(claim)
    }
}

// failing

/// This version of the volume.
#[derive(Drop)]
struct ThisVolume<'a> {
    old: &'a Volume,
}

impl<'a> VolumeTest for ThisVolume<'a> {
    ghost allows = { λ t v. IsThisVolume t.old.now v };

    fn test(&self, volume: &Volume) -> bool {
        volume.same(self.old)
    }
}

/// An Erase of the volume's data failed.
#[derive(Drop)]
struct EraseFails<'a> {
    volume: &'a Volume,
}

impl<'a> EntryTest for EraseFails<'a> {
    ghost allows = { λ t e. TellsEraseFailed (data_id_of t.volume.now.source) e };

    fn test(&self, entry: &Entry) -> bool {
        if !entry.told {
            return false;
        }
        match &entry.request {
            Request::Erase { id } => match &entry.reply {
                Reply::Refused(Refusal::BackFault { planned: _ }) => {
                    is_id_of(id, &self.volume.source)
                }
                _ => false,
            },
            _ => false,
        }
    }
}

/// Phase Failed may be written on the volume.
#[derive(Drop)]
pub struct Fail<'a> {
    pub mine: &'a [Entry],
}

impl<'a> VolumeTest for Fail<'a> {
    ghost allows = { λ t v. MayFail (reverse t.mine.now) v };

    fn test(&self, volume: &Volume) -> bool {
        if !is_ended(volume.phase) {
            return false;
        }
        let test = ThisVolume { old: volume };
        let told = OfVolumes { test: &test };
        let fails = EraseFails { volume };
        after(&told, &fails, self.mine)
    }
}

// deleting

/// The volume of the UID, told ended with policy Delete, over this data.
#[derive(Drop)]
struct EndedOver<'a> {
    uid: Uid,
    id: &'a DataId,
}

impl<'a> VolumeTest for EndedOver<'a> {
    ghost allows = { λ t v. IsEndedOver t.uid t.id.now v };

    fn test(&self, volume: &Volume) -> bool {
        if !is_ended_as(self.uid, volume) {
            return false;
        }
        is_id_of(self.id, &volume.source)
    }
}

/// Whether the volume has the UID, and has ended with policy Delete.
fn is_ended_as(uid: Uid, volume: &Volume) -> bool
    ensures { IsTrue result ↔ IsEnded uid volume.now }
{
    if !is_known(&volume.meta, uid) {
        return false;
    }
    if !is_ended(volume.phase) {
        return false;
    }
    is_delete(volume.policy)
}

/// An Erase of the volume's data was done.
#[derive(Drop)]
struct EraseDoneOf<'a> {
    volume: &'a Volume,
}

impl<'a> EntryTest for EraseDoneOf<'a> {
    ghost allows = { λ t e. TellsErased (data_id_of t.volume.now.source) e };

    fn test(&self, entry: &Entry) -> bool {
        if !entry.told {
            return false;
        }
        match &entry.request {
            Request::Erase { id } => match &entry.reply {
                Reply::Erased { removed: _ } => is_id_of(id, &self.volume.source),
                _ => false,
            },
            _ => false,
        }
    }
}

/// Whether the volume's data were erased after it was told ended.
fn was_erased(mine: &[Entry], uid: Uid, volume: &Volume) -> bool
    ensures { IsTrue result ↔ WasErased (reverse mine.now) uid volume.now }
{
    let done = EraseDoneOf { volume };
    match last_place(&done, mine) {
        None => false,
        Some(place) => was_ended(&mine[..place], uid, &mine[place].request),
    }
}

/// Whether the volume of the UID was told ended over the data that the request erases.
fn was_ended(mine: &[Entry], uid: Uid, request: &Request) -> bool
    ensures { IsTrue result ↔ WasEnded (reverse mine.now) uid request.now }
{
    match request {
        Request::Erase { id } => {
            let test = EndedOver { uid, id };
            told_volume(&test, mine)
        }
        _ => false,
    }
}

/// A volume of the UID, told ended with policy Delete, whose data were erased after such a volume was told.
#[derive(Drop)]
struct ErasedVolume<'a> {
    mine: &'a [Entry],
    uid: Uid,
}

impl<'a> SharedTest for ErasedVolume<'a> {
    ghost allows = { λ t o. IsVolumeWith (IsEnded t.uid) o };

    ghost pairs = { λ t o x. IsOverSame o x };

    ghost holds = { λ t o. IsVolumeWith (WasErased (reverse t.mine.now) t.uid) o };

    fn may(&self, object: &Object) -> bool {
        match object {
            Object::Volume(volume) => is_ended_as(self.uid, volume),
            _ => false,
        }
    }

    fn alike(&self, object: &Object, other: &Object) -> bool {
        match object {
            Object::Volume(volume) => is_over_same(volume, other),
            _ => false,
        }
    }

    fn row(&self, object: &Object) -> bool {
        match object {
            Object::Volume(volume) => was_erased(self.mine, self.uid, volume),
            _ => false,
        }
    }

    fn shares(&self) {
        let _mine = self.mine;
    }
}

/// Whether the other object is a volume with the same source.
fn is_over_same(volume: &Volume, object: &Object) -> bool
    ensures { IsTrue result ↔ IsOverSame (objects.Volume volume.now) object.now }
{
    match object {
        Object::Volume(other) => volume.source.same(&other.source),
        _ => false,
    }
}

/// Whether the volume of the UID may be deleted.
pub fn may_delete(mine: &[Entry], uid: Uid) -> bool
    ensures { IsTrue result ↔ MayDelete (reverse mine.now) uid }
{
    let test = ErasedVolume { mine, uid };
    told_shared(&test, mine)
}

// a node that cannot serve

/// This version of the claim.
#[derive(Drop)]
struct ThisClaim<'a> {
    old: &'a Claim,
}

impl<'a> ClaimTest for ThisClaim<'a> {
    ghost allows = { λ t c. IsThisClaim t.old.now c };

    fn test(&self, claim: &Claim) -> bool {
        claim.same(self.old)
    }
}

/// A Provision of the name was answered that no pool has the bytes.
#[derive(Drop)]
struct ExhaustedFor {
    uid: Uid,
}

impl EntryTest for ExhaustedFor {
    ghost allows = { λ t e. TellsExhausted (data_name t.uid) e };

    fn test(&self, entry: &Entry) -> bool {
        if !entry.told {
            return false;
        }
        match &entry.request {
            Request::Provision {
                name,
                provisioner: _,
                bytes: _,
                labels: _,
            } => match &entry.reply {
                Reply::Refused(Refusal::Exhausted { free: _ }) => is_data_name(name, self.uid),
                _ => false,
            },
            _ => false,
        }
    }
}

/// Whether after this version of the claim was told a Provision for it was answered that no pool has the
/// bytes.
pub fn was_exhausted(mine: &[Entry], claim: &Claim, uid: Uid) -> bool
    ensures { IsTrue result ↔ After (ToldClaim (IsThisClaim claim.now)) (TellsExhausted (data_name uid)) (reverse mine.now) }
{
    let test = ThisClaim { old: claim };
    let told = OfClaims { test: &test };
    let exhausted = ExhaustedFor { uid };
    after(&told, &exhausted, mine)
}

/// Whether the new claim is the old one without the annotation that names a node.
pub fn is_without_node(old: &Claim, new: &Claim) -> bool
    ensures { IsTrue result ↔ (new.now ≡ record old.now { meta = record old.now.meta { annotations = without_key selected_node old.now.meta.annotations } }) }
{
    if !is_claim_meta(old, new) {
        return false;
    }
    is_unannotated(SELECTED_NODE, &old.meta, &new.meta)
}
