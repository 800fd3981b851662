//! Laws over the machines.

ghost use Rattle.std.specs.Prelude.{◌≡◌, true, List, ◌∷◌, Some};
ghost use Rattle.kube_objects.specs.declared.key.Key.{Key};
ghost use Rattle.kube_objects.specs.Keys.{row_at};
ghost use Rattle.call_types.specs.declared.entry.Entry.{Entry};
ghost use Rattle.call_types.specs.declared.request.Request.{Request};
ghost use Rattle.call_types.specs.declared.request.SeatKind.TheVariants.{Ops};
ghost use Rattle.binder_model.specs.Licence.{AreOfKind, Licensed};
ghost use Rattle.informer_cache.specs.All.{AllKnown, AllStandFor, all_objects};
ghost use Rattle.reclaim_ops.specs.declared.provision.ProvisionOp.{ProvisionOp};
ghost use Rattle.reclaim_ops.specs.declared.erase.EraseOp.{EraseOp};
ghost use Rattle.reclaim_ops.specs.BeginLaw.{BegunErasuresHaveCalls, BegunProvisionsHaveCalls, DecidesStill, EraseCallsReadNoKind, ListedMayDecide, ParkedErasuresHaveEnded, ParkedProvisionsHaveEnded, ProvisionCallsReadNoKind};
ghost use Rattle.reclaim_ops.specs.Decisions.{claim_begins, volume_begins};
ghost use Rattle.reclaim_ops.specs.DueLaw.{BeginsWhatIsDue};
ghost use Rattle.reclaim_ops.specs.Erasures.{erase_call, erase_moved};
ghost use Rattle.reclaim_ops.specs.Evidence.{EraseKeeps, MayDecide, ProvisionKeeps};
ghost use Rattle.reclaim_ops.specs.Provisions.{provision_call, provision_moved};

/// The next call of a claim's machine is allowed by its evidence.
pub fn provision_calls_are_allowed()
    ensures { (op : ProvisionOp) (mine : List Entry) (request : Request) → AreOfKind Ops mine → ProvisionKeeps op mine → provision_call op ≡ Some request → Licensed Ops mine request }
{}

/// The evidence of a claim's machine goes on with the answer to its call.
pub fn provision_evidence_goes_on()
    ensures { (op : ProvisionOp) (mine : List Entry) (e : Entry) → ProvisionKeeps op mine → provision_call op ≡ Some e.request → e.told ≡ true → ProvisionKeeps (provision_moved op e.reply) (e ∷ mine) }
{}

/// Where the caches stand for what was told and the nodes were listed, a claim's machine that begins has its
/// evidence.
pub fn provision_decisions_keep()
    ensures { (caches : AllKnown) (mine : List Entry) (key : Key) (op : ProvisionOp) → AllStandFor caches mine → MayDecide mine → claim_begins (all_objects caches) (row_at key (all_objects caches)) ≡ Some op → ProvisionKeeps op mine }
{}

/// Caches that stand for what was told and have the nodes listed are enough for a decision.
pub fn listed_may_decide()
    ensures { ListedMayDecide }
{}

/// What a decision stands on beside the caches stays with each further entry.
pub fn decides_still()
    ensures { DecidesStill }
{}

/// Each claim's machine that begins has a next call.
pub fn begun_provisions_have_calls()
    ensures { BegunProvisionsHaveCalls }
{}

/// No call of a claim's machine lists or watches.
pub fn provision_calls_read_no_kind()
    ensures { ProvisionCallsReadNoKind }
{}

/// A claim's machine whose key is parked has ended.
pub fn parked_provisions_have_ended()
    ensures { ParkedProvisionsHaveEnded }
{}

/// Where the look-up sees the store itself, what begins on a claim is what is due of provisioning, as far as
/// the devices can give it and the store would take the volume.
pub fn begins_what_is_due()
    ensures { BeginsWhatIsDue }
{}

/// The next call of a volume's machine is allowed by its evidence.
pub fn erase_calls_are_allowed()
    ensures { (op : EraseOp) (mine : List Entry) (request : Request) → AreOfKind Ops mine → EraseKeeps op mine → erase_call op ≡ Some request → Licensed Ops mine request }
{}

/// The evidence of a volume's machine goes on with the answer to its call.
pub fn erase_evidence_goes_on()
    ensures { (op : EraseOp) (mine : List Entry) (e : Entry) → EraseKeeps op mine → erase_call op ≡ Some e.request → e.told ≡ true → EraseKeeps (erase_moved op e.reply) (e ∷ mine) }
{}

/// Where the caches stand for what was told, a volume's machine that begins has its evidence.
pub fn erase_decisions_keep()
    ensures { (caches : AllKnown) (mine : List Entry) (key : Key) (op : EraseOp) → AllStandFor caches mine → volume_begins (row_at key (all_objects caches)) ≡ Some op → EraseKeeps op mine }
{}

/// Each volume's machine that begins has a next call.
pub fn begun_erasures_have_calls()
    ensures { BegunErasuresHaveCalls }
{}

/// No call of a volume's machine lists or watches.
pub fn erase_calls_read_no_kind()
    ensures { EraseCallsReadNoKind }
{}

/// A volume's machine whose key is parked has ended.
pub fn parked_erasures_have_ended()
    ensures { ParkedErasuresHaveEnded }
{}
