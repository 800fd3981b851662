//! What an actor has under way for one key. The machines of each kind of actor stand in crates of their own.

ghost use Rattle.std.specs.Prelude.{◌≡◌, IfOk, Some};
ghost use Rattle.kube_objects.specs.Keys.{row_at};
ghost use Rattle.node_agent.specs.Agents.{agent_begins};
ghost use Rattle.protect_sync.specs.Decisions.{claim_guard_begins, volume_guard_begins};
ghost use Rattle.reclaim_ops.specs.Decisions.{claim_begins, volume_begins};
ghost use Rattle.worker_core.specs.declared.task.Task.TheVariants as tasks;
ghost use Rattle.worker_core.specs.Tasks.{IsBinderFirst, IsPodFirst, agent_first, claim_guard_first, ops_first, task_call, task_moved, task_parks, under_after, volume_guard_first, with_call, with_task};

use binder_machines::decide as binder;
use binder_machines::machine::Machine;
use call_types::reply::{MountRow, Reply};
use call_types::request::Request;
use kube_types::copies::{OutOfMemory, Plain};
use kube_types::key::Key;
use kube_types::lookup::Lookup;
use kube_types::text::Text;
use node_agent::agent::AgentOp;
use node_agent::decide as agents;
use pod_scheduler::decide::decide_pod;
use pod_scheduler::schedule::ScheduleOp;
use pod_scheduler::tries::Tried;
use protect_sync::claims::ClaimGuardOp;
use protect_sync::decide::{decide_claim, decide_volume};
use protect_sync::volumes::VolumeGuardOp;
use reclaim_ops::decide as ops;
use reclaim_ops::erase::EraseOp;
use reclaim_ops::provision::ProvisionOp;
use std::alloc::Global;

/// A machine of one of the kinds of actors.
pub enum Task {
    Binder(Machine),
    ClaimProtect(ClaimGuardOp),
    VolumeProtect(VolumeGuardOp),
    Agent(AgentOp),
    Provision(ProvisionOp),
    Erase(EraseOp),
    Schedule(ScheduleOp),
}

impl Drop for Task {
    fn drop(self) {
        match self {
            Task::Binder(machine) => drop(machine),
            Task::ClaimProtect(op) => drop(op),
            Task::VolumeProtect(op) => drop(op),
            Task::Agent(op) => drop(op),
            Task::Provision(op) => drop(op),
            Task::Erase(op) => drop(op),
            Task::Schedule(op) => drop(op),
        }
    }
}

/// A task under way, the key for which it is, and its next call.
pub struct Under {
    pub key: Key,
    pub task: Task,
    pub call: Request,
}

impl Drop for Under {
    fn drop(self) {
        let Under { key, task, call } = self;
        drop(key);
        drop(task);
        drop(call);
    }
}

/// What is done about a key: nothing, another key is queued, or a task begins.
#[derive(Drop)]
pub enum First {
    Drops,
    Queues(Key),
    Begins(Task),
}

/// A task after an answer, or none where it has ended; and whether its key is to be parked, where it ends at this answer.
#[derive(Drop)]
pub struct Moved {
    pub task: Option<Task>,
    pub parks: bool,
}

impl Task {
    /// The next call, or none where nothing is left to be asked.
    pub fn next(&self, alloc: Global) -> Result<Option<Request>, OutOfMemory>
        ensures { IfOk result (λ call. call ≡ task_call self.now) }
    {
        match self {
            Task::Binder(machine) => machine.next(alloc),
            Task::ClaimProtect(op) => op.next(alloc),
            Task::VolumeProtect(op) => op.next(alloc),
            Task::Agent(op) => op.next(alloc),
            Task::Provision(op) => op.next(alloc),
            Task::Erase(op) => op.next(alloc),
            Task::Schedule(op) => op.next(alloc),
        }
    }

    /// What the answer to the next call makes of the task. After want of memory the task is let go.
    pub fn absorb(self, alloc: Global, reply: &Reply) -> Result<Moved, OutOfMemory>
        ensures task { IfOk result (λ moved. moved.task ≡ task_moved self reply.now) }
        ensures parks { IfOk result (λ moved. moved.parks ≡ task_parks self reply.now) }
    {
        match self {
            Task::Binder(machine) => moved_machine(alloc, &machine, reply),
            Task::ClaimProtect(op) => Ok(moved_claim(op, reply)),
            Task::VolumeProtect(op) => Ok(moved_volume(op, reply)),
            Task::Agent(op) => moved_agent(alloc, op, reply),
            Task::Provision(op) => moved_provision(alloc, op, reply),
            Task::Erase(op) => moved_erase(alloc, op, reply),
            Task::Schedule(op) => Ok(moved_schedule(op, reply)),
        }
    }
}

/// The binder's machine after the answer.
fn moved_machine(alloc: Global, machine: &Machine, reply: &Reply) -> Result<Moved, OutOfMemory>
    ensures task { IfOk result (λ moved. moved.task ≡ task_moved (tasks.Binder machine.now) reply.now) }
    ensures parks { IfOk result (λ moved. moved.parks ≡ task_parks (tasks.Binder machine.now) reply.now) }
{
    let parks = machine.parks(reply);
    let task = match machine.absorb(alloc, reply)? {
        None => None,
        Some(machine) => Some(Task::Binder(machine)),
    };
    Ok(Moved { task, parks })
}

/// The machine of a claim after the answer. It takes no memory.
fn moved_claim(mut op: ClaimGuardOp, reply: &Reply) -> Moved
    ensures task { result.task ≡ task_moved (tasks.ClaimProtect op) reply.now }
    ensures parks { result.parks ≡ task_parks (tasks.ClaimProtect op) reply.now }
{
    op.absorb(reply);
    let parks = op.parks();
    Moved {
        task: Some(Task::ClaimProtect(op)),
        parks,
    }
}

/// The machine of a volume after the answer. It takes no memory.
fn moved_volume(mut op: VolumeGuardOp, reply: &Reply) -> Moved
    ensures task { result.task ≡ task_moved (tasks.VolumeProtect op) reply.now }
    ensures parks { result.parks ≡ task_parks (tasks.VolumeProtect op) reply.now }
{
    op.absorb(reply);
    let parks = op.parks();
    Moved {
        task: Some(Task::VolumeProtect(op)),
        parks,
    }
}

/// The machine of a pod after the answer.
fn moved_agent(alloc: Global, mut op: AgentOp, reply: &Reply) -> Result<Moved, OutOfMemory>
    ensures task { IfOk result (λ moved. moved.task ≡ task_moved (tasks.Agent op) reply.now) }
    ensures parks { IfOk result (λ moved. moved.parks ≡ task_parks (tasks.Agent op) reply.now) }
{
    op.absorb(alloc, reply)?;
    let parks = op.parks();
    Ok(Moved {
        task: Some(Task::Agent(op)),
        parks,
    })
}

/// The machine of a claim that is provisioned, after the answer.
fn moved_provision(alloc: Global, mut op: ProvisionOp, reply: &Reply) -> Result<Moved, OutOfMemory>
    ensures task { IfOk result (λ moved. moved.task ≡ task_moved (tasks.Provision op) reply.now) }
    ensures parks { IfOk result (λ moved. moved.parks ≡ task_parks (tasks.Provision op) reply.now) }
{
    op.absorb(alloc, reply)?;
    let parks = op.parks();
    Ok(Moved {
        task: Some(Task::Provision(op)),
        parks,
    })
}

/// The machine of a volume that is reclaimed, after the answer.
fn moved_erase(alloc: Global, mut op: EraseOp, reply: &Reply) -> Result<Moved, OutOfMemory>
    ensures task { IfOk result (λ moved. moved.task ≡ task_moved (tasks.Erase op) reply.now) }
    ensures parks { IfOk result (λ moved. moved.parks ≡ task_parks (tasks.Erase op) reply.now) }
{
    op.absorb(alloc, reply)?;
    let parks = op.parks();
    Ok(Moved {
        task: Some(Task::Erase(op)),
        parks,
    })
}

/// The machine of a pod that is scheduled, after the answer. It takes no memory.
fn moved_schedule(mut op: ScheduleOp, reply: &Reply) -> Moved
    ensures task { result.task ≡ task_moved (tasks.Schedule op) reply.now }
    ensures parks { result.parks ≡ task_parks (tasks.Schedule op) reply.now }
{
    op.absorb(reply);
    let parks = op.parks();
    Moved {
        task: Some(Task::Schedule(op)),
        parks,
    }
}

/// The binder's decision on a key.
pub(crate) fn first_of_binder<L: Lookup>(
    alloc: Global,
    lookup: &L,
    key: &Key,
) -> Result<First, OutOfMemory>
    ensures { IfOk result (λ first. IsBinderFirst (L.rows lookup.now) key.now first) }
{
    match binder::first_for(alloc, lookup, key)? {
        binder::FirstMachine::Drops => Ok(First::Drops),
        binder::FirstMachine::Queues(other) => Ok(First::Queues(other)),
        binder::FirstMachine::Begins(machine) => Ok(First::Begins(Task::Binder(machine))),
    }
}

/// Claim protection's decision on a key.
pub(crate) fn first_of_claims<L: Lookup>(
    alloc: Global,
    lookup: &L,
    key: &Key,
) -> Result<First, OutOfMemory>
    ensures { IfOk result (λ first. first ≡ claim_guard_first (claim_guard_begins (L.rows lookup.now) (row_at key.now (L.rows lookup.now)))) }
{
    match decide_claim(alloc, lookup, key)? {
        None => Ok(First::Drops),
        Some(op) => Ok(First::Begins(Task::ClaimProtect(op))),
    }
}

/// Volume protection's decision on a key.
pub(crate) fn first_of_volumes<L: Lookup>(
    alloc: Global,
    lookup: &L,
    key: &Key,
) -> Result<First, OutOfMemory>
    ensures { IfOk result (λ first. first ≡ volume_guard_first (volume_guard_begins (row_at key.now (L.rows lookup.now)))) }
{
    match decide_volume(alloc, lookup, key)? {
        None => Ok(First::Drops),
        Some(op) => Ok(First::Begins(Task::VolumeProtect(op))),
    }
}

/// A node agent's decision on a key, by its epoch and the mounts that it was told last.
pub(crate) fn first_of_agent<L: Lookup>(
    alloc: Global,
    lookup: &L,
    node: &Text,
    epoch: u64,
    mounts: &[MountRow],
    key: &Key,
) -> Result<First, OutOfMemory>
    ensures { IfOk result (λ first. first ≡ agent_first (agent_begins node.now epoch mounts.now (row_at key.now (L.rows lookup.now)))) }
{
    match agents::decide_pod(alloc, lookup, node, epoch, mounts, key)? {
        None => Ok(First::Drops),
        Some(op) => Ok(First::Begins(Task::Agent(op))),
    }
}

/// The decision of the provisioner and reclaimer on a key.
pub(crate) fn first_of_ops<L: Lookup>(
    alloc: Global,
    lookup: &L,
    key: &Key,
) -> Result<First, OutOfMemory>
    ensures { IfOk result (λ first. first ≡ ops_first (claim_begins (L.rows lookup.now) (row_at key.now (L.rows lookup.now))) (volume_begins (row_at key.now (L.rows lookup.now)))) }
{
    if let Some(op) = ops::decide_claim(alloc, lookup, key)? {
        return Ok(First::Begins(Task::Provision(op)));
    }
    match ops::decide_volume(alloc, lookup, key)? {
        None => Ok(First::Drops),
        Some(op) => Ok(First::Begins(Task::Erase(op))),
    }
}

/// The scheduler's decision on a key, by the nodes that were refused, the last one first.
pub(crate) fn first_of_scheduler<L: Lookup>(
    alloc: Global,
    lookup: &L,
    refused: &[Tried],
    key: &Key,
) -> Result<First, OutOfMemory>
    ensures { IfOk result (λ first. IsPodFirst (L.rows lookup.now) refused.now (row_at key.now (L.rows lookup.now)) first) }
{
    match decide_pod(alloc, lookup, refused, key)? {
        None => Ok(First::Drops),
        Some(op) => Ok(First::Begins(Task::Schedule(op))),
    }
}

/// The task with its next call, where it has one.
pub(crate) fn with_call(alloc: Global, key: &Key, task: Task) -> Result<Option<Under>, OutOfMemory>
    ensures { IfOk result (λ next. next ≡ with_call key.now task (task_call task)) }
{
    match task.next(alloc)? {
        None => Ok(None),
        Some(call) => Ok(Some(Under {
            key: key.copy(alloc)?,
            task,
            call,
        })),
    }
}

fn with_task(alloc: Global, key: &Key, task: Option<Task>) -> Result<Option<Under>, OutOfMemory>
    ensures { IfOk result (λ next. next ≡ with_task key.now task) }
{
    match task {
        None => Ok(None),
        Some(task) => with_call(alloc, key, task),
    }
}

/// What is under way for the key after an answer, or none where the task has ended; and whether the key is then to be parked.
#[derive(Drop)]
pub(crate) struct After {
    pub(crate) key: Key,
    pub(crate) next: Option<Under>,
    pub(crate) parks: bool,
}

impl Under {
    /// What the answer to the call makes of it. After want of memory it is let go.
    pub(crate) fn after(self, alloc: Global, reply: &Reply) -> Result<After, OutOfMemory>
        ensures key { IfOk result (λ after. after.key ≡ self.key) }
        ensures next { IfOk result (λ after. after.next ≡ under_after self reply.now) }
        ensures parks { IfOk result (λ after. after.parks ≡ task_parks self.task reply.now) }
    {
        let Under { key, task, call } = self;
        drop(call);
        let Moved { task, parks } = task.absorb(alloc, reply)?;
        let next = with_task(alloc, &key, task)?;
        Ok(After { key, next, parks })
    }
}
