//! What a controller may read.

ghost use Rattle.std.specs.Prelude.{◌≡◌, ◌↔◌, IsTrue};
ghost use Rattle.call_types.specs.declared.request.Request.TheVariants as requests;
ghost use Rattle.call_types.specs.declared.request.SeatKind.TheVariants as seats;
ghost use Rattle.binder_model.specs.Reading.{IsDeletingIn, MayGet, MayListNamespace, MayRead};
ghost use Rattle.binder_model.specs.Told.{ToldClaim};
ghost use Rattle.licence_record.specs.Judged.{Judges};

use crate::asking::{asks_for_claim, asks_for_ended, asks_for_volume};
use call_types::request::{Request, SeatKind};
use evidence_pages::sought::Sought;
use kube_types::bindings::is_deleting;
use kube_types::key::Key;
use kube_types::objects::{Claim, Version};
use kube_types::parts::Kind;
use licence_record::record::Record;
use licence_scans::following::follows;
use licence_scans::rows::{ClaimTest, told_claim};
use plain_data::copies::Plain;
use plain_data::text::Text;

/// A claim of the namespace, deleting.
#[derive(Drop)]
struct DeletingIn<'a> {
    namespace: &'a Text,
}

impl<'a> ClaimTest for DeletingIn<'a> {
    ghost allows = { λ t c. IsDeletingIn t.namespace.now c };

    fn test(&self, claim: &Claim) -> bool {
        if !claim.meta.namespace.same(self.namespace) {
            return false;
        }
        is_deleting(&claim.meta)
    }
}

/// Whether a claim of the namespace was told deleting.
fn told_deleting<R: Record>(seat: &R, namespace: &Text) -> bool
    ensures { Judges (R.whole seat.now) result (ToldClaim (IsDeletingIn namespace.now) (R.told seat.now)) }
{
    let test = DeletingIn { namespace };
    let page = seat.about(Kind::Pod, namespace.as_str(), "", Sought::Deleting);
    told_claim(&test, page)
}

/// Whether the objects of a kind may be listed in this namespace.
fn may_list_namespace<R: Record>(seat: &R, kind: SeatKind, of: Kind, namespace: &Text) -> bool
    ensures { Judges (R.whole seat.now) result (MayListNamespace kind (R.told seat.now) of namespace.now) }
{
    match (kind, of) {
        (SeatKind::ClaimProtect, Kind::Pod) => told_deleting(seat, namespace),
        _ => false,
    }
}

fn may_list<R: Record>(seat: &R, kind: SeatKind, of: Kind, namespace: &Option<Text>) -> bool
    ensures { Judges (R.whole seat.now) result (MayRead kind (R.told seat.now) (requests.List of namespace.now)) }
{
    match namespace {
        None => {
            if !follows(kind, of) {
                return false;
            }
            seat.is_unlisted(of)
        }
        Some(namespace) => may_list_namespace(seat, kind, of, namespace),
    }
}

fn may_watch<R: Record>(seat: &R, kind: SeatKind, of: Kind, from: Version) -> bool
    ensures { Judges (R.whole seat.now) result (MayRead kind (R.told seat.now) (requests.Watch of from)) }
{
    if !follows(kind, of) {
        return false;
    }
    seat.is_from(of, from)
}

/// Whether the binder may read the object of the key, by what is sought of it.
fn asks_for<R: Record>(seat: &R, key: &Key, volume: Sought, claim: Sought) -> bool
    ensures { Judges (R.whole seat.now) result (MayGet seats.Binder (R.told seat.now) key.now) }
{
    let namespace = key.namespace.as_str();
    let name = key.name.as_str();
    let page = seat.about(key.kind, namespace, name, volume);
    if asks_for_claim(seat, page, key) {
        return true;
    }
    let page = seat.about(key.kind, namespace, name, claim);
    asks_for_volume(seat, page, key)
}

/// Whether the binder may read the object of the key. The last that was told to refer to it is looked at first.
fn binder_may_get<R: Record>(seat: &R, key: &Key) -> bool
    ensures { Judges (R.whole seat.now) result (MayGet seats.Binder (R.told seat.now) key.now) }
{
    if asks_for(seat, key, Sought::Referring, Sought::Completed) {
        return true;
    }
    asks_for(seat, key, Sought::All, Sought::All)
}

fn may_get<R: Record>(seat: &R, kind: SeatKind, key: &Key) -> bool
    ensures { Judges (R.whole seat.now) result (MayGet kind (R.told seat.now) key.now) }
{
    match kind {
        SeatKind::Binder => binder_may_get(seat, key),
        SeatKind::Ops => asks_for_ended(seat, key),
        SeatKind::Agent => seat.asks_for_mount(key),
        _ => false,
    }
}

/// Whether the row on reading allows the request of a seat of this kind.
pub(crate) fn may_read<R: Record>(seat: &R, kind: SeatKind, request: &Request) -> bool
    ensures { Judges (R.whole seat.now) result (MayRead kind (R.told seat.now) request.now) }
{
    match request {
        Request::List {
            kind: of,
            namespace,
        } => may_list(seat, kind, *of, namespace),
        Request::Watch { kind: of, from } => may_watch(seat, kind, *of, *from),
        Request::Get { key } => may_get(seat, kind, key),
        _ => false,
    }
}
