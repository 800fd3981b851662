//! Which volume is the first of its class and volume mode, or of those that refer to a claim, which is the second, and so on.

mod indexed;
mod next;
mod nth;
mod wanted;

pub use indexed::{nth_by_size, nth_for};
