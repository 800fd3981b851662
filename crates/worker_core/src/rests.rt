//! Rows on which nothing is begun. A decision that begins something answers with a whole task, which is large; most keys
//! that are decided rest, and that is found out here without one.

ghost use Rattle.std.specs.Prelude.{◌≡◌, ℕ, List, None};
ghost use Rattle.std.specs.Bool.{OnTrue};
ghost use Rattle.std.specs.Option.{option_copied};
ghost use Rattle.kube_objects.specs.declared.key.Key.{Key};
ghost use Rattle.kube_objects.specs.declared.objects.Object.{Object};
ghost use Rattle.kube_objects.specs.Keys.{row_at};
ghost use Rattle.binder_machines.specs.declared.decide.FirstMachine.TheVariants as binder_firsts;
ghost use Rattle.binder_machines.specs.FirstSteps.{IsFirst};
ghost use Rattle.pod_scheduler.specs.Decisions.{BeginsOn};
ghost use Rattle.pod_scheduler.specs.declared.tries.Tried.{Tried};
ghost use Rattle.protect_sync.specs.Decisions.{claim_guard_begins, volume_guard_begins};
ghost use Rattle.reclaim_ops.specs.Decisions.{claim_begins, volume_begins};
ghost use Rattle.worker_core.specs.declared.task.First.TheVariants as firsts;
ghost use Rattle.worker_core.specs.Memories.{Memory};
ghost use Rattle.worker_core.specs.Tasks.{IsFirstOf, claim_guard_first, ops_first, volume_guard_first};

use call_types::request::SeatKind;
use kube_types::bindings::{
    is_deleting, is_empty, is_ended, is_protected_claim, is_protected_volume,
};
use kube_types::lookup::{Live, Lookup};
use kube_types::objects::Object;
use volume_sync::{VolumeAction, decide_volume};

/// Whether it is plain that an actor of the kind begins nothing on this row, whatever it remembers, and queues no other key.
pub(crate) fn rests<L: Lookup>(kind: SeatKind, lookup: &L, row: Option<&Object>) -> bool
    ensures { OnTrue result ((node : List ℕ) (m : Memory) (key : Key) → row_at key (L.rows lookup.now) ≡ option_copied row.entry → IsFirstOf kind node m (L.rows lookup.now) key firsts.Drops) }
{
    match kind {
        SeatKind::Binder => rests_for_binder(lookup, row),
        SeatKind::Ops => rests_for_ops(row),
        SeatKind::Scheduler => rests_for_scheduler(row),
        SeatKind::ClaimProtect => rests_for_claims(row),
        SeatKind::VolumeProtect => rests_for_volumes(row),
        SeatKind::Agent | SeatKind::User => false,
    }
}

/// The tables say of the volume that nothing is to be done. A claim is decided where that is asked.
fn rests_for_binder<L: Lookup>(lookup: &L, row: Option<&Object>) -> bool
    ensures { OnTrue result (IsFirst (L.rows lookup.now) (option_copied row.entry) binder_firsts.Drops) }
{
    match row {
        Some(Object::Volume(volume)) => match decide_volume(lookup, volume, Live::NotAsked) {
            VolumeAction::Nothing => true,
            _ => false,
        },
        Some(Object::Claim(_)) => false,
        _ => true,
    }
}

/// A claim names a volume, or a volume has not ended.
#[tactic(auto, using(crate::proofs::Resting::named_claim, crate::proofs::Resting::lasting_volume))]
fn rests_for_ops(row: Option<&Object>) -> bool
    ensures { OnTrue result ((rows : List Object) → ops_first (claim_begins rows (option_copied row.entry)) (volume_begins (option_copied row.entry)) ≡ firsts.Drops) }
{
    match row {
        Some(Object::Claim(claim)) => {
            if is_empty(&claim.volume_name) {
                return false;
            }
            true
        }
        Some(Object::Volume(volume)) => {
            if is_ended(volume.phase) {
                return false;
            }
            true
        }
        _ => true,
    }
}

/// It is no pod.
fn rests_for_scheduler(row: Option<&Object>) -> bool
    ensures { OnTrue result ((rows : List Object) (refused : List Tried) → BeginsOn rows refused (option_copied row.entry) None) }
{
    match row {
        Some(Object::Pod(_)) => false,
        _ => true,
    }
}

/// A claim stays, and is protected.
fn rests_for_claims(row: Option<&Object>) -> bool
    ensures { OnTrue result ((rows : List Object) → claim_guard_first (claim_guard_begins rows (option_copied row.entry)) ≡ firsts.Drops) }
{
    match row {
        Some(Object::Claim(claim)) => {
            if is_deleting(&claim.meta) {
                return false;
            }
            if is_protected_claim(claim) {
                return true;
            }
            false
        }
        _ => true,
    }
}

/// A volume stays, and is protected.
fn rests_for_volumes(row: Option<&Object>) -> bool
    ensures { OnTrue result (volume_guard_first (volume_guard_begins (option_copied row.entry)) ≡ firsts.Drops) }
{
    match row {
        Some(Object::Volume(volume)) => {
            if is_deleting(&volume.meta) {
                return false;
            }
            if is_protected_volume(volume) {
                return true;
            }
            false
        }
        _ => true,
    }
}
