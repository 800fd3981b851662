//! What the scheduler has under way for one pod.

ghost use Rattle.std.specs.Prelude.{◌≡◌, IfOk, Some};
ghost use Rattle.pod_scheduler.specs.Schedules.{is_refused, is_write, is_written, schedule_call, schedule_moved, schedule_parks, schedule_step_after, only_write};

use call_types::reply::Reply;
use call_types::request::Request;
use kube_types::copies::{OutOfMemory, Plain};
use kube_types::items::Items;
use kube_types::objects::Object;
use std::alloc::Global;

/// Which write is to be made next, or how the machine has ended.
#[derive(Clone, Copy, Debug)]
pub enum ScheduleStep {
    /// The write at this place, from 0, is to be made, if there is one.
    Writes(usize),
    /// Nothing is left to be done.
    Done,
    /// A write was refused: the key waits for an event or a wake.
    Parked,
}

/// The writes for a pod, in order, and which of them is to be made next: those that prepare a node, or the one that
/// binds the pod to its node.
pub struct ScheduleOp {
    pub writes: Items<Request>,
    pub step: ScheduleStep,
}

impl Drop for ScheduleOp {
    fn drop(self) {
        let ScheduleOp { writes, step: _ } = self;
        drop(writes);
    }
}

impl ScheduleOp {
    /// The next call, or none where the machine has nothing more to do.
    #[tactic(auto, unfolding(crate::specs::Schedules::schedule_call))]
    pub fn next(&self, alloc: Global) -> Result<Option<Request>, OutOfMemory>
        ensures { IfOk result (λ call. call ≡ schedule_call self.now) }
    {
        match self.step {
            ScheduleStep::Writes(place) => match self.writes.as_slice().get(place) {
                None => Ok(None),
                Some(request) => write_of(alloc, request),
            },
            ScheduleStep::Done | ScheduleStep::Parked => Ok(None),
        }
    }

    /// Takes the answer to the next call.
    #[tactic(auto, unfolding(crate::specs::Schedules::schedule_moved))]
    pub fn absorb(&mut self, reply: &Reply)
        ensures { self.new ≡ schedule_moved self.old reply.now }
    {
        self.step = self.step_after(reply);
    }

    /// Where the step leads.
    fn step_after(&self, reply: &Reply) -> ScheduleStep
        ensures { result ≡ schedule_step_after self.now.writes self.now.step reply.now }
    {
        match self.step {
            ScheduleStep::Done => ScheduleStep::Done,
            ScheduleStep::Parked => ScheduleStep::Parked,
            ScheduleStep::Writes(place) => {
                if is_refused(reply) {
                    return ScheduleStep::Parked;
                }
                if is_written(reply) && place < self.writes.as_slice().len() {
                    return ScheduleStep::Writes(place + 1);
                }
                ScheduleStep::Done
            }
        }
    }

    /// Whether a write was refused, so that the key is parked.
    pub fn parks(&self) -> bool
        ensures { result ≡ schedule_parks self.now.step }
    {
        match self.step {
            ScheduleStep::Parked => true,
            _ => false,
        }
    }
}

/// Whether a write of a volume or of a claim was done.
fn is_written(reply: &Reply) -> bool
    ensures { result ≡ is_written reply.now }
{
    match reply {
        Reply::Done(Object::Volume(_)) | Reply::Done(Object::Claim(_)) => true,
        _ => false,
    }
}

fn is_refused(reply: &Reply) -> bool
    ensures { result ≡ is_refused reply.now }
{
    match reply {
        Reply::Refused(_) => true,
        _ => false,
    }
}

/// The request, where it updates an object or binds a pod.
fn write_of(alloc: Global, request: &Request) -> Result<Option<Request>, OutOfMemory>
    ensures { IfOk result (λ call. call ≡ only_write (Some request.now)) }
{
    if !is_write(request) {
        return Ok(None);
    }
    Ok(Some(request.copy(alloc)?))
}

fn is_write(request: &Request) -> bool
    ensures { result ≡ is_write request.now }
{
    match request {
        Request::Update {
            object: _,
            version: _,
        } => true,
        Request::BindPod {
            key: _,
            uid: _,
            node: _,
        } => true,
        _ => false,
    }
}
