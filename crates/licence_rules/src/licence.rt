//! Whether a controller may make a request, and which rule refuses it else.

ghost use Rattle.std.specs.Prelude.{◌≡◌, ◌↔◌, IsTrue, MatchResult, reverse, if◌then◌else◌};
ghost use Rattle.kube_parts.specs.declared.names.LicenceRule.TheVariants as rules;
ghost use Rattle.call_types.specs.declared.request.SeatKind.TheVariants as seats;
ghost use Rattle.binder_model.specs.Licence.{AreOfKind, IsRefusedBy, Licensed, RowAllows, binder_claim_phase, binder_phase, claim_phase_rule, delete_rule, is_kind, ops_phase, phase_rule, read_rule, row_rule};
ghost use Rattle.licence_record.specs.Judged.{Judges};

use crate::allowed::row_allows;
use call_types::entry::Entry;
use call_types::request::{NewStatus, Request, SeatKind};
use kube_types::bindings::{is_completed, is_protected_claim, is_protected_volume};
use kube_types::key::{Key, same_kind};
use kube_types::names::LicenceRule;
use kube_types::objects::Object;
use kube_types::parts::{ClaimPhase, Kind, VolumePhase};
use kube_types::uid::Uid;
use licence_record::record::Record;
use licence_record::whole::Whole;
use licence_rows::parts::ref_uid;

fn read_rule(request: &Request) -> LicenceRule
    ensures { result ≡ read_rule request.now }
{
    match request {
        Request::List {
            kind: _,
            namespace: _,
        } => LicenceRule::Reading,
        Request::Watch { kind: _, from: _ } => LicenceRule::Reading,
        Request::Get { key: _ } => LicenceRule::Reading,
        _ => LicenceRule::Kind,
    }
}

fn is_kind(kind: Kind, key: &Key) -> bool
    ensures { result ≡ is_kind kind key.now }
{
    same_kind(key.kind, kind)
}

/// The rule, where the key is one of the kind.
fn of_kind(kind: Kind, key: &Key, rule: LicenceRule) -> LicenceRule
    ensures { result ≡ (if is_kind kind key.now then rule else rules.Kind) }
{
    if is_kind(kind, key) {
        rule
    } else {
        LicenceRule::Kind
    }
}

fn binder_phase_rule(phase: VolumePhase) -> LicenceRule
    ensures { result ≡ phase_rule (binder_phase phase) }
{
    match phase {
        VolumePhase::Available => LicenceRule::Available,
        VolumePhase::Bound => LicenceRule::PhaseBound,
        VolumePhase::Released => LicenceRule::Released,
        _ => LicenceRule::Kind,
    }
}

fn binder_claim_rule(phase: ClaimPhase) -> LicenceRule
    ensures { result ≡ claim_phase_rule (binder_claim_phase phase) }
{
    match phase {
        ClaimPhase::Bound => LicenceRule::ClaimStatus,
        ClaimPhase::Lost => LicenceRule::Lost,
        ClaimPhase::Pending => LicenceRule::Kind,
    }
}

fn binder_rule(request: &Request) -> LicenceRule
    ensures { result ≡ row_rule seats.Binder request.now }
{
    match request {
        Request::Update {
            object: Object::Volume(new),
            version: _,
        } => match ref_uid(&new.claim_ref) {
            Some(_) => LicenceRule::ClaimRef,
            None => LicenceRule::Unbind,
        },
        Request::Update {
            object: Object::Claim(new),
            version: _,
        } => {
            if is_completed(new) {
                LicenceRule::Completion
            } else {
                LicenceRule::DefaultClass
            }
        }
        Request::UpdateStatus {
            key,
            status: NewStatus::Volume(phase),
            version: _,
        } => of_kind(Kind::PersistentVolume, key, binder_phase_rule(*phase)),
        Request::UpdateStatus {
            key,
            status: NewStatus::Claim {
                phase,
                modes: _,
                amount: _,
            },
            version: _,
        } => of_kind(Kind::PersistentVolumeClaim, key, binder_claim_rule(*phase)),
        _ => read_rule(request),
    }
}

fn ops_phase_rule(phase: VolumePhase) -> LicenceRule
    ensures { result ≡ phase_rule (ops_phase phase) }
{
    match phase {
        VolumePhase::Failed => LicenceRule::Failed,
        _ => LicenceRule::Kind,
    }
}

fn delete_rule(key: &Key, uid: Option<Uid>) -> LicenceRule
    ensures { result ≡ delete_rule key.now uid }
{
    match uid {
        None => LicenceRule::Kind,
        Some(_) => of_kind(Kind::PersistentVolume, key, LicenceRule::DeleteVolume),
    }
}

fn ops_rule(request: &Request) -> LicenceRule
    ensures { result ≡ row_rule seats.Ops request.now }
{
    match request {
        Request::Provision {
            name: _,
            provisioner: _,
            bytes: _,
            labels: _,
        } => LicenceRule::Provision,
        Request::Create {
            object: Object::Volume(_),
        } => LicenceRule::CreateVolume,
        Request::Erase { id: _ } => LicenceRule::Erase,
        Request::UpdateStatus {
            key,
            status: NewStatus::Volume(phase),
            version: _,
        } => of_kind(Kind::PersistentVolume, key, ops_phase_rule(*phase)),
        Request::Delete { key, uid } => delete_rule(key, *uid),
        Request::Update {
            object: Object::Claim(_),
            version: _,
        } => LicenceRule::SelectedNode,
        _ => read_rule(request),
    }
}

fn scheduler_rule(request: &Request) -> LicenceRule
    ensures { result ≡ row_rule seats.Scheduler request.now }
{
    match request {
        Request::Update {
            object: Object::Volume(_),
            version: _,
        } => LicenceRule::ClaimRef,
        Request::Update {
            object: Object::Claim(_),
            version: _,
        } => LicenceRule::SelectedNode,
        Request::BindPod {
            key,
            uid: _,
            node: _,
        } => of_kind(Kind::Pod, key, LicenceRule::BindPod),
        _ => read_rule(request),
    }
}

fn volume_protect_rule(request: &Request) -> LicenceRule
    ensures { result ≡ row_rule seats.VolumeProtect request.now }
{
    match request {
        Request::Update {
            object: Object::Volume(new),
            version: _,
        } => {
            if is_protected_volume(new) {
                LicenceRule::AddGuard
            } else {
                LicenceRule::DropVolumeGuard
            }
        }
        _ => read_rule(request),
    }
}

fn claim_protect_rule(request: &Request) -> LicenceRule
    ensures { result ≡ row_rule seats.ClaimProtect request.now }
{
    match request {
        Request::Update {
            object: Object::Claim(new),
            version: _,
        } => {
            if is_protected_claim(new) {
                LicenceRule::AddGuard
            } else {
                LicenceRule::DropClaimGuard
            }
        }
        _ => read_rule(request),
    }
}

fn agent_rule(request: &Request) -> LicenceRule
    ensures { result ≡ row_rule seats.Agent request.now }
{
    match request {
        Request::Mounts { node: _, epoch: _ } => LicenceRule::Mount,
        Request::Mount {
            node: _,
            epoch: _,
            pod: _,
            claims: _,
        } => LicenceRule::Mount,
        Request::Unmount {
            node: _,
            epoch: _,
            pod: _,
        } => LicenceRule::FinishPod,
        Request::FinishPod {
            key,
            uid: _,
            node: _,
            epoch: _,
        } => of_kind(Kind::Pod, key, LicenceRule::FinishPod),
        _ => read_rule(request),
    }
}

/// The rule of the request's row.
fn row_rule(kind: SeatKind, request: &Request) -> LicenceRule
    ensures { result ≡ row_rule kind request.now }
{
    match kind {
        SeatKind::User => LicenceRule::Kind,
        SeatKind::Binder => binder_rule(request),
        SeatKind::Ops => ops_rule(request),
        SeatKind::Scheduler => scheduler_rule(request),
        SeatKind::ClaimProtect => claim_protect_rule(request),
        SeatKind::VolumeProtect => volume_protect_rule(request),
        SeatKind::Agent => agent_rule(request),
    }
}

fn is_user(kind: SeatKind) -> bool
    ensures { IsTrue result ↔ (kind ≡ seats.User) }
{
    match kind {
        SeatKind::User => true,
        _ => false,
    }
}

/// Whether the record shows that a seat of this kind may make the request after its own earlier entries. Users are
/// bound by the store's guard alone.
pub fn is_licensed<R: Record>(kind: SeatKind, seat: &R, request: &Request) -> bool
    ensures { Judges (R.whole seat.now) result (Licensed kind (R.told seat.now) request.now) }
{
    if is_user(kind) {
        return true;
    }
    is_allowed(kind, seat, request)
}

fn is_allowed<R: Record>(kind: SeatKind, seat: &R, request: &Request) -> bool
    ensures { Judges (R.whole seat.now) result (AreOfKind kind (R.told seat.now) × RowAllows kind (R.told seat.now) request.now) }
{
    if !seat.is_of_kind(kind) {
        return false;
    }
    row_allows(kind, seat, request)
}

/// Whether all entries, the oldest first, have this kind.
fn are_of_kind(kind: SeatKind, mine: &[Entry]) -> bool
    ensures { IsTrue result ↔ AreOfKind kind (reverse mine.now) }
{
    let whole = Whole { entries: mine };
    whole.is_of_kind(kind)
}

/// Whether the row of the request allows it after the entries, the oldest first.
fn list_allows(kind: SeatKind, mine: &[Entry], request: &Request) -> bool
    ensures { IsTrue result ↔ RowAllows kind (reverse mine.now) request.now }
{
    let whole = Whole { entries: mine };
    row_allows(kind, &whole, request)
}

/// Ok exactly where a seat of this kind may make the request after its own earlier entries, the oldest
/// first; else the rule that refuses it. Users are bound by the store's guard alone.
///
/// It takes a few passes over the objects told, and for a pod some for each of its claims. What takes a
/// pass of its own is asked once for all told objects of one key, over one source, on one node or that
/// are one, and not at each telling.
pub fn licensed(kind: SeatKind, mine: &[Entry], request: &Request) -> Result<(), LicenceRule>
    ensures { MatchResult result (λ _. Licensed kind (reverse mine.now) request.now) (IsRefusedBy kind (reverse mine.now) request.now) }
{
    if is_user(kind) {
        return Ok(());
    }
    if !are_of_kind(kind, mine) {
        return Err(LicenceRule::Kind);
    }
    if list_allows(kind, mine, request) {
        Ok(())
    } else {
        Err(row_rule(kind, request))
    }
}
