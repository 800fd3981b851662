//! Gates that count, and one that holds a call back.

use fault_io::gate::Gate;
use std::sync::atomic::{AtomicU64, Ordering};
use std::thread;

/// How many calls of a seat the gate was told of.
#[derive(Drop)]
struct Told {
    before: AtomicU64,
    after: AtomicU64,
}

/// How many calls of each seat it was told of, before and after; and how often it was told out of order.
#[derive(Drop)]
pub struct Counts {
    told: [Told; 12],
    out_of_order: AtomicU64,
}

fn none() -> Told {
    Told {
        before: AtomicU64::new(0),
        after: AtomicU64::new(0),
    }
}

impl Counts {
    pub fn new() -> Counts {
        Counts {
            told: [
                none(),
                none(),
                none(),
                none(),
                none(),
                none(),
                none(),
                none(),
                none(),
                none(),
                none(),
                none(),
            ],
            out_of_order: AtomicU64::new(0),
        }
    }

    fn of(&self, seat: u64) -> Option<&Told> {
        self.told.get(seat.checked_sub(1)? as usize)
    }

    fn is_out_of_order(&self) {
        self.out_of_order.fetch_add(1, Ordering::SeqCst);
    }

    /// How many calls of the seat were answered.
    pub fn answered(&self, seat: u64) -> u64 {
        match self.of(seat) {
            Some(told) => told.after.load(Ordering::SeqCst),
            None => 0,
        }
    }

    /// Whether it was told of so many calls of each seat, from the first one on, each before and after, in order, and of no
    /// other.
    pub fn are(&self, many: &[u64]) -> bool {
        self.out_of_order.load(Ordering::SeqCst) == 0
            && self.told.iter().enumerate().all(|(place, told)| {
                let wanted = match many.get(place) {
                    Some(wanted) => *wanted,
                    None => 0,
                };
                told.before.load(Ordering::SeqCst) == wanted
                    && told.after.load(Ordering::SeqCst) == wanted
            })
    }
}

impl Gate for Counts {
    fn before(&self, seat: u64, nth: u64) {
        match self.of(seat) {
            Some(told) => {
                let open = told.after.load(Ordering::SeqCst);
                let was = told.before.fetch_add(1, Ordering::SeqCst);
                if was != open || was.wrapping_add(1) != nth {
                    self.is_out_of_order();
                }
            }
            None => self.is_out_of_order(),
        }
    }

    fn after(&self, seat: u64, nth: u64) {
        match self.of(seat) {
            Some(told) => {
                let was = told.after.fetch_add(1, Ordering::SeqCst);
                if was.wrapping_add(1) != nth || told.before.load(Ordering::SeqCst) != nth {
                    self.is_out_of_order();
                }
            }
            None => self.is_out_of_order(),
        }
    }
}

/// How often the gate looks before it gives up.
const LOOKS: u32 = 10_000_000;

/// Holds the first call of one seat until the first call of another was answered, and the second call of the other until the
/// first call of the one was answered. So whichever of the two is done first, alone it cannot go on.
#[derive(Drop)]
pub struct Holds {
    pub counts: Counts,
    one: u64,
    other: u64,
    gave_up: AtomicU64,
}

impl Holds {
    pub fn new(one: u64, other: u64) -> Holds {
        Holds {
            counts: Counts::new(),
            one,
            other,
            gave_up: AtomicU64::new(0),
        }
    }

    pub fn has_given_up(&self) -> bool {
        self.gave_up.load(Ordering::SeqCst) > 0
    }

    /// Waits until a call of this seat was answered.
    fn hold(&self, seat: u64) {
        for _ in 0..LOOKS {
            if self.counts.answered(seat) > 0 {
                return;
            }
            thread::yield_now();
        }
        self.gave_up.store(1, Ordering::SeqCst);
    }
}

impl Gate for Holds {
    fn before(&self, seat: u64, nth: u64) {
        self.counts.before(seat, nth);
        if seat == self.one && nth == 1 {
            self.hold(self.other);
        }
        if seat == self.other && nth == 2 {
            self.hold(self.one);
        }
    }

    fn after(&self, seat: u64, nth: u64) {
        self.counts.after(seat, nth);
    }
}
