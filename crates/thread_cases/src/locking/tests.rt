//! A counter behind the lock, on one thread and on two.
ghost use Rattle.std.specs.Prelude.{◌≡◌, ◌<◌, IfSome, reverse};
ghost use Rattle.thread_cases.specs.Lock.Counter.{sum_of, IsSummed};
ghost use Rattle.seat_lock.specs.Passes.{forks_of, IsPassOf};

use seat_lock::{Entry, Keeps, OutOfMemory, Pass, SeatLock};
use std::alloc::Global;
use std::marker::Model;
use std::process::Abort;
use std::sync::Wait;
use std::thread::{Threads, join};

/// A sum, with the history of what was added.
#[derive(Drop)]
struct Counter {
    first: u64,
    sum: u64,
    log: Vec<Entry<u64, u64>>,
}

impl Model for Counter {
    ghost use Rattle.std.specs.Prelude.{◌≡◌, ℕ, List, reverse};
    ghost use Rattle.seat_lock.specs.declared.keeps.Entry.{Entry as Line};
    ghost use Rattle.thread_cases.specs.Lock.Counter.{sum_of, IsSummed};

    ghost Value = { ℕ × List (Line ℕ ℕ) };

    ghost view = { λ c. (c.first, reverse c.log.items) };

    ghost invariant = { λ c. IsSummed c.first (reverse c.log.items)
        × (c.sum ≡ sum_of c.first (reverse c.log.items)) };
}

impl Counter {
    fn new(alloc: Global, first: u64) -> Counter {
        Counter {
            first,
            sum: first,
            log: Vec::new(alloc),
        }
    }

    fn has(&self, seat: u64, ask: u64, answer: u64, at: usize) -> bool {
        match self.log.get(at) {
            Some(entry) => entry.seat == seat
                && entry.ask == ask
                && entry.answer == answer
                && entry.told,
            None => false,
        }
    }

    fn count_of(&self, seat: u64) -> usize {
        self.log.iter().filter(|entry| entry.seat == seat).count()
    }
}

impl Keeps for Counter {
    type Ask = u64;

    type Answer = u64;

    type Base = u64;

    ghost history = { λ c. c.1 };

    ghost base = { λ c. c.0 };

    ghost lawful = { λ first log. IsSummed first log };

    ghost allows = { λ mine ask. Unit {0} };

    fn act(&mut self, seat: u64, ask: &u64, told: bool) -> Result<u64, OutOfMemory> {
        if self.log.reserve(1).is_err() {
            return Err(OutOfMemory);
        }
        let answer = self.sum.wrapping_add(*ask);
        self.log.push_reserved(Entry {
            seat,
            ask: *ask,
            told,
            answer,
        });
        self.sum = answer;
        Ok(answer)
    }

    fn count(&self) -> u64 {
        self.log.len() as u64
    }
}

type Mine = Pass<Counter>;

/// A lock over a counter from 10 on, and its two passes.
fn two_passes<R: Abort>(rt: &R, alloc: Global) -> (SeatLock<Counter>, Mine, Mine)
    ensures passes { IsPassOf result.0 result.1 × IsPassOf result.0 result.2 }
    ensures forks { 0 < forks_of result.1 }
{
    let Ok((lock, mut passes)) = SeatLock::new(alloc, Counter::new(alloc, 10), 2) else {
        panic!(rt; "memory")
    };
    let second = passes.pop().unwrap();
    let first = passes.pop().unwrap();
    (lock, first, second)
}

/// An end of the lock that is refused: what comes back, and how many passes are missing.
fn refused<R: Abort>(
    rt: &R,
    alloc: Global,
    lock: SeatLock<Counter>,
    pass: Mine,
) -> (SeatLock<Counter>, Mine, u64)
    requires { IsPassOf lock pass }
    ensures lock { result.0 ≡ lock }
    ensures pass { IsPassOf lock result.1 }
{
    let passes = vec![in alloc; pass].expect(rt, "memory");
    let Err(mut left) = lock.close(passes) else {
        panic!(rt; "a pass is missing")
    };
    let pass = left.passes.pop().unwrap();
    (left.lock, pass, left.missing)
}

/// How many passes are missing where a fork is lost. The clauses say that the end is refused.
fn lost_fork(alloc: Global, lock: SeatLock<Counter>, pass: Mine) -> Option<u64>
    requires { IsPassOf lock pass × (0 < forks_of pass) }
    ensures { IfSome result (λ missing. 0 < missing) }
{
    let mut pass = pass;
    drop(lock.fork(&mut pass));
    let passes = vec![in alloc; pass].ok()?;
    match lock.close(passes) {
        Ok(_) => unreachable!(),
        Err(left) => Some(left.missing),
    }
}

fn add<R: Wait>(rt: &R, lock: &SeatLock<Counter>, pass: &mut Mine, ask: u64) -> Option<u64>
    requires { IsPassOf lock.now pass.old }
    ensures { IsPassOf lock.now pass.new }
{
    lock.enter(rt, pass, &ask, true).ok()
}

/// The end of the lock, with these passes.
fn close<R: Abort>(
    rt: &R,
    alloc: Global,
    lock: SeatLock<Counter>,
    first: Mine,
    second: Mine,
) -> Counter
    requires { IsPassOf lock first × IsPassOf lock second }
{
    let passes = vec![in alloc; first, second].expect(rt, "memory");
    lock.close(passes).ok().expect(rt, "no pass is missing")
}

#[test]
fn two_passes_in_turn(rt: HostRuntime) {
    let (lock, mut first, mut second) = two_passes(&rt, rt.alloc());
    assert_eq!(rt; add(&rt, &lock, &mut second, 5), Some(15));
    assert_eq!(rt; add(&rt, &lock, &mut first, 7), Some(22));
    let (lock, first, missing) = refused(&rt, rt.alloc(), lock, first);
    assert_eq!(rt; missing, 1);
    let counter = close(&rt, rt.alloc(), lock, first, second);
    assert!(rt; counter.has(2, 5, 15, 0));
    assert!(rt; counter.has(1, 7, 22, 1));
    assert_eq!(rt; counter.count(), 2);
}

#[test]
fn a_fork_is_lost(rt: HostRuntime) {
    let (lock, first, _) = two_passes(&rt, rt.alloc());
    assert_eq!(rt; lost_fork(rt.alloc(), lock, first), Some(2));
}

#[test]
fn a_fork_and_a_meeting(rt: HostRuntime) {
    let (lock, mut first, second) = two_passes(&rt, rt.alloc());
    let mut fork = lock.fork(&mut first);
    assert_eq!(rt; first.forks(), 4_294_967_295);
    assert_eq!(rt; (fork.forks(), fork.number()), (0, 3));
    assert_eq!(rt; add(&rt, &lock, &mut fork, 5), Some(15));
    lock.meet(&mut first, fork);
    assert_eq!(rt; (first.number(), first.met()), (1, 1));
    assert_eq!(rt; add(&rt, &lock, &mut first, 5), Some(20));
    let counter = close(&rt, rt.alloc(), lock, first, second);
    assert!(rt; counter.has(3, 5, 15, 0));
    assert!(rt; counter.has(1, 5, 20, 1));
    assert_eq!(rt; counter.count(), 2);
}

const ROUNDS: u64 = 500;

/// Each round has a call of the pass, and one of a fork that it meets.
fn work<R: Wait>(rt: &R, lock: &SeatLock<Counter>, pass: Mine) -> Mine
    requires { IsPassOf lock.now pass }
    ensures { IsPassOf lock.now result }
{
    let mut pass = pass;
    for _ in 0..ROUNDS {
        if pass.forks() > 0 {
            let mut fork = lock.fork(&mut pass);
            add(rt, lock, &mut fork, 2);
            add(rt, lock, &mut pass, 1);
            lock.meet(&mut pass, fork);
        }
    }
    pass
}

fn both<R: Threads + Wait + Sync>(
    rt: &R,
    lock: &SeatLock<Counter>,
    a: Mine,
    b: Mine,
) -> (Mine, Mine)
    requires { IsPassOf lock.now a × IsPassOf lock.now b }
    ensures { IsPassOf lock.now result.0 × IsPassOf lock.now result.1 }
{
    join(rt, || work(rt, lock, a), || work(rt, lock, b))
}

#[test]
fn two_threads(rt: HostRuntime) {
    let (lock, first, second) = two_passes(&rt, rt.alloc());
    let (first, second) = both(&rt, &lock, first, second);
    let (lock, second, missing) = refused(&rt, rt.alloc(), lock, second);
    assert_eq!(rt; missing, 1 + ROUNDS);
    let (first, second) = both(&rt, &lock, first, second);
    assert_eq!(rt; (first.met(), second.met()), (2 * ROUNDS, 2 * ROUNDS));
    let counter = close(&rt, rt.alloc(), lock, first, second);
    assert_eq!(rt; counter.count(), 8 * ROUNDS);
    assert_eq!(rt; counter.count_of(1) as u64, 2 * ROUNDS);
    assert_eq!(rt; counter.count_of(2) as u64, 2 * ROUNDS);
    assert_eq!(rt; counter.count_of(3 + 4 * ROUNDS), 0);
    assert_eq!(rt; counter.sum, 10 + 12 * ROUNDS);
}
