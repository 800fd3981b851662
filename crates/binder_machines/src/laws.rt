//! Laws over the machines.

ghost use Rattle.std.specs.Prelude.{◌≡◌, true, List, ◌∷◌, Some};
ghost use Rattle.kube_objects.specs.declared.key.Key.{Key};
ghost use Rattle.kube_objects.specs.Keys.{AreRows, row_at};
ghost use Rattle.call_types.specs.declared.entry.Entry.{Entry};
ghost use Rattle.call_types.specs.declared.request.Request.{Request};
ghost use Rattle.call_types.specs.declared.request.SeatKind.TheVariants.{Binder};
ghost use Rattle.binder_model.specs.Licence.{AreOfKind, Licensed};
ghost use Rattle.informer_cache.specs.All.{AllKnown, AllStandFor, all_objects};
ghost use Rattle.binder_machines.specs.declared.decide.FirstMachine.TheVariants.{Begins};
ghost use Rattle.binder_machines.specs.declared.machine.Machine.{Machine};
ghost use Rattle.binder_machines.specs.BeginLaw.{BegunHaveCalls, ReadHaveCalls};
ghost use Rattle.binder_machines.specs.Evidence.{MachineKeeps};
ghost use Rattle.binder_machines.specs.FirstSteps.{IsFirst};
ghost use Rattle.binder_machines.specs.KindLaw.{CallsReadNoKind, VolumesQueueClaims};
ghost use Rattle.binder_machines.specs.Machines.{call_of, moved};
ghost use Rattle.binder_machines.specs.ReadLaw.{ClaimReadDecides, ParkedHaveEnded, VolumeReadDecides};

/// The next call of a machine is allowed by its evidence.
pub fn calls_are_allowed()
    ensures { (machine : Machine) (mine : List Entry) (request : Request) → AreOfKind Binder mine → MachineKeeps machine mine → call_of machine ≡ Some request → Licensed Binder mine request }
{}

/// The evidence of a machine goes on with the answer to its call.
pub fn evidence_goes_on()
    ensures { (machine next : Machine) (mine : List Entry) (e : Entry) → MachineKeeps machine mine → call_of machine ≡ Some e.request → e.told ≡ true → moved machine e.reply ≡ Some next → MachineKeeps next (e ∷ mine) }
{}

/// Where the caches stand for what was told, a machine that begins has its evidence.
pub fn decisions_keep()
    ensures { (caches : AllKnown) (mine : List Entry) (key : Key) (machine : Machine) → AllStandFor caches mine → AreRows (all_objects caches) → IsFirst (all_objects caches) (row_at key (all_objects caches)) (Begins machine) → MachineKeeps machine mine }
{}

/// After the claim of a volume was read by itself, what goes on is what the table of volumes says of
/// what was read.
#[tactic(auto, using(crate::proofs::Reading::claim_read_decides))]
pub fn claim_read_decides()
    ensures { ClaimReadDecides }
{}

/// After the volume of a claim was read by itself, what goes on is what the table of claims says of
/// what was read.
#[tactic(auto, using(crate::proofs::Reading::volume_read_decides))]
pub fn volume_read_decides()
    ensures { VolumeReadDecides }
{}

/// A machine whose key is parked has ended.
#[tactic(auto, using(crate::proofs::Reading::parked_have_ended))]
pub fn parked_have_ended()
    ensures { ParkedHaveEnded }
{}

/// On what a store can hold, each machine that begins has a next call.
#[tactic(auto, using(crate::proofs::Calling::begun_have_calls))]
pub fn begun_have_calls()
    ensures { BegunHaveCalls }
{}

/// No call of a machine lists or watches a whole kind.
pub fn calls_read_no_kind()
    ensures { CallsReadNoKind }
{}

/// A key that queues another is a volume's, and the other is a claim's.
#[tactic(auto, using(crate::proofs::Reaching::volumes_queue_claims))]
pub fn volumes_queue_claims()
    ensures { VolumesQueueClaims }
{}

/// After a read that was asked, each machine that goes on has a next call.
#[tactic(auto, using(crate::proofs::Calling::read_have_calls))]
pub fn read_have_calls()
    ensures { ReadHaveCalls }
{}
