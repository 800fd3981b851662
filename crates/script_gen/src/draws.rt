//! Draws of numbers.

ghost use Rattle.std.specs.Prelude.{◌≡◌, ◌+◌, ◌<◌, ◌^◌};
ghost use Rattle.script_gen.specs.Draws.{draw, next_state};

use std::marker::Model;

/// A generator of numbers. Contracts see its seed, and how many draws it made.
#[derive(Debug, Drop)]
pub struct Draws {
    seed: u64,
    made: u64,
    state: u64,
}

impl Model for Draws {
    ghost use Rattle.std.specs.Prelude.{◌≡◌};
    ghost use Rattle.script_gen.specs.Draws.{Made, state_after};

    ghost Value = { Made };

    ghost view = { λ d. record { seed = d.seed; made = d.made } };

    ghost invariant = { λ d. d.state ≡ state_after d.seed d.made };
}

const MULTIPLIER: u64 = 6_364_136_223_846_793_005;

const INCREMENT: u64 = 1_442_695_040_888_963_407;

fn next_state(state: u64) -> u64
    ensures { result ≡ next_state state }
{
    state.wrapping_mul(MULTIPLIER).wrapping_add(INCREMENT)
}

impl Draws {
    /// A generator that made no draw.
    #[tactic(auto, using(crate::proofs::States::first_state))]
    pub fn new(seed: u64) -> Draws
        ensures { result ≡ record { seed = seed; made = 0 } }
    {
        Draws {
            seed,
            made: 0,
            state: seed,
        }
    }

    /// The next draw of a number below `most`.
    #[tactic(auto, using(crate::proofs::States::next_is, crate::proofs::States::drawn_next))]
    pub fn draw(&mut self, most: u64) -> u64
        requires some { 0 < most }
        requires few { self.old.made < 2 ^ 32 }
        ensures seed { self.new.seed ≡ self.old.seed }
        ensures made { self.new.made ≡ self.old.made + 1 }
        ensures value { result ≡ draw self.old.seed (self.old.made + 1) most }
        ensures below { result < most }
    {
        self.state = next_state(self.state);
        self.made += 1;
        (self.state >> 33) % most
    }
}
