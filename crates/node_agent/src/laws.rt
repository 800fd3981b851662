//! Laws over the machines.

ghost use Rattle.std.specs.Prelude.{ℕ, ◌≡◌, true, List, ◌∷◌, Some};
ghost use Rattle.kube_objects.specs.declared.key.Key.{Key};
ghost use Rattle.kube_objects.specs.Keys.{row_at};
ghost use Rattle.call_types.specs.declared.entry.Entry.{Entry};
ghost use Rattle.call_types.specs.declared.request.Request.{Request};
ghost use Rattle.call_types.specs.declared.request.SeatKind.TheVariants.{Agent};
ghost use Rattle.call_types.specs.declared.reply.MountRow.{MountRow};
ghost use Rattle.binder_model.specs.Licence.{AreOfKind, Licensed};
ghost use Rattle.informer_cache.specs.All.{AllKnown, AllStandFor, all_objects};
ghost use Rattle.node_agent.specs.declared.agent.AgentOp.{AgentOp};
ghost use Rattle.node_agent.specs.Agents.{agent_begins, agent_call, agent_moved};
ghost use Rattle.node_agent.specs.BeginLaw.{BegunAgentsHaveCalls, CallsReadNoKind};
ghost use Rattle.node_agent.specs.Evidence.{AgentKeeps, MayDecide};
ghost use Rattle.node_agent.specs.HistoryLaw.{HistoriesTellByReads, TakersHaveStarted, TakersMayDecide, TakersTookFirst};
ghost use Rattle.node_agent.specs.StartLaw.{LicensedHasStarted, ParkedAgentsHaveEnded, StartGoesOn, UntoldHasStarted, UntoldIsUnfinished};

/// The next call of a machine is allowed by its evidence.
pub fn calls_are_allowed()
    ensures { (op : AgentOp) (mine : List Entry) (request : Request) → AreOfKind Agent mine → AgentKeeps op mine → agent_call op ≡ Some request → Licensed Agent mine request }
{}

/// The evidence of a machine goes on with the answer to its call.
pub fn evidence_goes_on()
    ensures { (op : AgentOp) (mine : List Entry) (e : Entry) → AgentKeeps op mine → agent_call op ≡ Some e.request → e.told ≡ true → AgentKeeps (agent_moved op e.reply) (e ∷ mine) }
{}

/// Where the caches of an agent that has started stand for what was told, a machine that begins has its
/// evidence.
pub fn decisions_keep()
    ensures { (caches : AllKnown) (mine : List Entry) (node : List ℕ) (epoch : ℕ) (mounts : List MountRow) (key : Key) (op : AgentOp) → AllStandFor caches mine → MayDecide node epoch (row_at key (all_objects caches)) mine → agent_begins node epoch mounts (row_at key (all_objects caches)) ≡ Some op → AgentKeeps op mine }
{}

/// Each machine that begins has a next call.
pub fn begun_have_calls()
    ensures { BegunAgentsHaveCalls }
{}

/// No call of a machine lists or watches a whole kind.
pub fn calls_read_no_kind()
    ensures { CallsReadNoKind }
{}

/// A machine whose key is parked has ended.
pub fn parked_have_ended()
    ensures { ParkedAgentsHaveEnded }
{}

/// A seat that was told no pod has started.
pub fn untold_has_started()
    ensures { UntoldHasStarted }
{}

/// An answer that takes no node leaves the start, where it tells no pod, is a list of all pods, or comes
/// after one.
pub fn start_goes_on()
    ensures { StartGoesOn }
{}

/// An agent that took its node first has started, by the licence of its reads.
pub fn licensed_has_started()
    ensures { LicensedHasStarted }
{}

/// A seat that was never told the pod deleting never asked to finish it.
pub fn untold_is_unfinished()
    ensures { UntoldIsUnfinished }
{}

/// In a history, an agent that asked what it may is told of pods by lists of all of them and by watches alone.
#[tactic(auto, using(crate::proofs::Histories::histories_tell_by_reads))]
pub fn histories_tell_by_reads()
    ensures { HistoriesTellByReads }
{}

/// In a history, a seat that asked for the node alone until it was told an epoch of it, and never again, took it
/// before it was told a pod.
#[tactic(auto, using(crate::proofs::Histories::takers_took_first))]
pub fn takers_took_first()
    ensures { TakersTookFirst }
{}

/// So an agent that asked so has started.
#[tactic(auto, using(crate::proofs::Histories::takers_have_started))]
pub fn takers_have_started()
    ensures { TakersHaveStarted }
{}

/// And it may decide each key by caches that stand for what it was told.
pub fn takers_may_decide()
    ensures { TakersMayDecide }
{}
