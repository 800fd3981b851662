//! Laws over the machines.

ghost use Rattle.std.specs.Prelude.{◌≡◌, true, List, ◌∷◌, Some};
ghost use Rattle.kube_objects.specs.declared.key.Key.{Key};
ghost use Rattle.kube_objects.specs.Keys.{row_at};
ghost use Rattle.call_types.specs.declared.entry.Entry.{Entry};
ghost use Rattle.call_types.specs.declared.request.Request.{Request};
ghost use Rattle.call_types.specs.declared.request.SeatKind.TheVariants.{ClaimProtect, VolumeProtect};
ghost use Rattle.binder_model.specs.Licence.{AreOfKind, Licensed};
ghost use Rattle.informer_cache.specs.All.{AllKnown, AllStandFor, all_objects};
ghost use Rattle.protect_sync.specs.declared.claims.ClaimGuardOp.{ClaimGuardOp};
ghost use Rattle.protect_sync.specs.declared.volumes.VolumeGuardOp.{VolumeGuardOp};
ghost use Rattle.protect_sync.specs.BeginLaw.{BegunClaimsHaveCalls, BegunVolumesHaveCalls, ClaimCallsReadNoKind, ParkedClaimsHaveEnded, ParkedVolumesHaveEnded, VolumeCallsReadNoKind};
ghost use Rattle.protect_sync.specs.ClaimGuards.{claim_guard_call, claim_moved};
ghost use Rattle.protect_sync.specs.Decisions.{claim_guard_begins, volume_guard_begins};
ghost use Rattle.protect_sync.specs.Evidence.{ClaimKeeps, VolumeKeeps};
ghost use Rattle.protect_sync.specs.VolumeGuards.{volume_guard_call, volume_moved};

/// The next call of a claim's machine is allowed by its evidence.
pub fn claim_calls_are_allowed()
    ensures { (op : ClaimGuardOp) (mine : List Entry) (request : Request) → AreOfKind ClaimProtect mine → ClaimKeeps op mine → claim_guard_call op ≡ Some request → Licensed ClaimProtect mine request }
{}

/// The evidence of a claim's machine goes on with the answer to its call.
pub fn claim_evidence_goes_on()
    ensures { (op : ClaimGuardOp) (mine : List Entry) (e : Entry) → ClaimKeeps op mine → claim_guard_call op ≡ Some e.request → e.told ≡ true → ClaimKeeps (claim_moved op e.reply) (e ∷ mine) }
{}

/// Where the caches stand for what was told, a claim's machine that begins has its evidence.
pub fn claim_decisions_keep()
    ensures { (caches : AllKnown) (mine : List Entry) (key : Key) (op : ClaimGuardOp) → AllStandFor caches mine → claim_guard_begins (all_objects caches) (row_at key (all_objects caches)) ≡ Some op → ClaimKeeps op mine }
{}

/// On a look-up whose objects have UIDs, each claim's machine that begins has a next call.
pub fn begun_claims_have_calls()
    ensures { BegunClaimsHaveCalls }
{}

/// No call of a claim's machine lists or watches a whole kind.
pub fn claim_calls_read_no_kind()
    ensures { ClaimCallsReadNoKind }
{}

/// The next call of a volume's machine is allowed by its evidence.
pub fn volume_calls_are_allowed()
    ensures { (op : VolumeGuardOp) (mine : List Entry) (request : Request) → AreOfKind VolumeProtect mine → VolumeKeeps op mine → volume_guard_call op ≡ Some request → Licensed VolumeProtect mine request }
{}

/// The evidence of a volume's machine goes on with the answer to its call.
pub fn volume_evidence_goes_on()
    ensures { (op : VolumeGuardOp) (mine : List Entry) (e : Entry) → VolumeKeeps op mine → volume_guard_call op ≡ Some e.request → e.told ≡ true → VolumeKeeps (volume_moved op e.reply) (e ∷ mine) }
{}

/// Where the caches stand for what was told, a volume's machine that begins has its evidence.
pub fn volume_decisions_keep()
    ensures { (caches : AllKnown) (mine : List Entry) (key : Key) (op : VolumeGuardOp) → AllStandFor caches mine → volume_guard_begins (row_at key (all_objects caches)) ≡ Some op → VolumeKeeps op mine }
{}

/// Each volume's machine that begins has a next call.
pub fn begun_volumes_have_calls()
    ensures { BegunVolumesHaveCalls }
{}

/// No call of a volume's machine lists or watches a whole kind.
pub fn volume_calls_read_no_kind()
    ensures { VolumeCallsReadNoKind }
{}

/// A claim's machine whose key is parked has ended.
pub fn parked_claims_have_ended()
    ensures { ParkedClaimsHaveEnded }
{}

/// A volume's machine whose key is parked has ended.
pub fn parked_volumes_have_ended()
    ensures { ParkedVolumesHaveEnded }
{}
