//! Many workers on one shared world, by threads.

ghost use Rattle.std.specs.Prelude.{◌≡◌, ℕ, ◌+◌, ◌^◌, ◌<◌, All, IfOk, vec_len, map, length, slice_index_or};
ghost use Rattle.std.specs.List.{flat_map};
ghost use Rattle.shared_world.specs.Passes.{AddsNoSeats, Begins, IsOf};
ghost use Rattle.shared_work.specs.Crew.{Each, all_seats};
ghost use Rattle.shared_work.specs.Seats.{seats_at};
ghost use Rattle.shared_work.specs.Steps.Jobs.{AreAllOk, CanWork, HasWorked, all_items};

use crate::worker::Worker;
use kube_types::copies::OutOfMemory;
use shared_world::shared::{SharedWorld, WorldPass};
use std::alloc::{AllocError, Global};
use std::sync::Wait;
use std::thread;
use std::thread::Threads;
use world_core::kept::KeptWorld;

/// A worker, and how many seats it has.
#[derive(Drop)]
pub struct Hired<W> {
    pub worker: W,
    pub seats: usize,
}

/// A worker, and the passes of its seats.
#[derive(Drop)]
struct Job<W> {
    worker: W,
    passes: Vec<WorldPass>,
}

/// What came of a job: its passes.
type Done = Result<Vec<WorldPass>, OutOfMemory>;

/// How many seats all workers have.
fn all_seats<W>(crew: &[Hired<W>]) -> usize
    requires { all_seats crew.now < 65536 }
    ensures { result ≡ all_seats crew.now }
{
    let mut seats = 0;
    for hired in crew {
        seats += hired.seats;
    }
    seats
}

/// Gives each worker the passes of its seats, in order.
fn deal<W: Drop>(
    alloc: Global,
    crew: Vec<Hired<W>>,
    passes: Vec<WorldPass>,
) -> Result<Vec<Job<W>>, OutOfMemory>
    requires { vec_len passes ≡ all_seats crew.items }
    ensures passes { IfOk result (λ jobs. flat_map (λ job. job.passes.items) jobs.items ≡ passes.items) }
    ensures workers { IfOk result (λ jobs. map (λ job. record { worker = job.worker; seats = length job.passes.items }) jobs.items ≡ crew.items) }
{
    let mut left = passes;
    let mut jobs = Vec::new(alloc);
    for hired in crew {
        let Hired { worker, seats } = hired;
        let rest = left.split_off(seats)?;
        let passes = left;
        left = rest;
        jobs.push(Job { worker, passes })?;
    }
    Ok(jobs)
}

/// All jobs, each on a thread of its own where one can be made, and else by the caller. So many passes were made.
fn work_all<R: Threads + Wait + Sync, W: Worker + Send + Drop>(
    rt: &R,
    shared: &SharedWorld,
    made: u64,
    jobs: Vec<Job<W>>,
) -> Result<Vec<Done>, AllocError>
    requires { All (λ job. CanWork W.needs shared.now made job.worker job.passes.items) jobs.items }
    ensures many { IfOk result (λ done. vec_len done ≡ vec_len jobs) }
    ensures each { IfOk result (λ done. (i : ℕ) (d : _) (e : _) → i < vec_len jobs → IfOk (slice_index_or done.items i e) (λ after. HasWorked W.does W.leaves shared.now (slice_index_or jobs.items i d).worker (slice_index_or jobs.items i d).passes.items after.items)) }
{
    thread::map_vec(
        rt,
        jobs,
        &|job: Job<W>| -> Done
            requires { CanWork W.needs shared.now made job.worker job.passes.items }
            ensures { IfOk result (λ after. HasWorked W.does W.leaves shared.entry.now job.worker job.passes.items after.items) }
        {
            let Job { worker, passes } = job;
            worker.work(rt, shared, made, passes)
        },
    )
}

/// All passes, in order.
fn gather(alloc: Global, done: Vec<Done>) -> Result<Vec<WorldPass>, OutOfMemory>
    ensures none_failed { IfOk result (λ all. AreAllOk done.items) }
    ensures all { IfOk result (λ all. all.items ≡ all_items (λ passes. passes.items) done.items) }
{
    let mut all = Vec::new(alloc);
    for passes in done {
        let mut passes = passes?;
        all.append(&mut passes)?;
    }
    Ok(all)
}

/// Lets the workers work on the world, which they share. The first seat is 1, and those of a later worker come after those of an
/// earlier one.
pub fn run_crew<R: Threads + Wait + Sync, W: Worker + Send + Drop>(
    rt: &R,
    alloc: Global,
    world: KeptWorld,
    crew: Vec<Hired<W>>,
) -> Result<KeptWorld, OutOfMemory>
    requires seats { (0 < all_seats crew.items) × (all_seats crew.items < 65536) }
    requires needs { Each (λ worker seats. W.needs worker (seats_at world.past seats)) 1 crew.items }
    ensures setup { IfOk result (λ after. after.setup ≡ world.setup) }
    ensures begins { IfOk result (λ after. Begins after.past world.past) }
    ensures does { IfOk result (λ after. Each (λ worker seats. W.does worker (seats_at world.past seats) (seats_at after.past seats)) 1 crew.items) }
    ensures leaves { IfOk result (λ after. Each (λ worker seats. W.leaves worker after.past) 1 crew.items) }
    ensures others { IfOk result (λ after. AddsNoSeats (all_seats crew.items) world.past after.past) }
{
    let seats = all_seats(crew.as_slice());
    let Ok((shared, passes)) = SharedWorld::new(alloc, world, seats) else {
        return Err(OutOfMemory);
    };
    let jobs = deal(alloc, crew, passes)?;
    let done = work_all(rt, &shared, seats as u64, jobs)?;
    let passes = gather(alloc, done)?;
    match shared.close(passes) {
        Ok(world) => Ok(world),
        Err(_) => unreachable!(),
    }
}
