//! Cases of the lock: a counter behind it, and a world, on one thread and on two.
//!
//! It has tests alone, so no call and no promise. Not said: anything of other values and other interleavings; what holds of
//! the lock is said by `seat_lock`, and of a world behind it by `shared_world`.

#[cfg(test)]
mod tests;
#[cfg(test)]
mod worlds;
