//! Who is told of each call. It answers nothing, so it changes no result.

/// Told right before and after each call that a seat makes, counted from 1. Whatever makes calls takes one.
pub trait Listener {
    /// The call is made next.
    fn comes(&self, seat: u64, nth: u64);

    /// The call was answered or lost.
    fn went(&self, seat: u64, nth: u64);
}

/// A listener that threads share. Whatever starts threads takes one.
pub trait Gate: Sync {
    /// The call is made next.
    fn before(&self, seat: u64, nth: u64);

    /// The call was answered or lost.
    fn after(&self, seat: u64, nth: u64);
}

impl<G: Gate> Listener for G {
    fn comes(&self, seat: u64, nth: u64) {
        self.before(seat, nth)
    }

    fn went(&self, seat: u64, nth: u64) {
        self.after(seat, nth)
    }
}

/// The gate that does nothing.
#[derive(Clone, Copy, Debug)]
pub struct NoGate;

impl Gate for NoGate {
    fn before(&self, _seat: u64, _nth: u64) {}

    fn after(&self, _seat: u64, _nth: u64) {}
}
