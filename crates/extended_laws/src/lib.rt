//! Laws of extended runs.
//!
//! Promises: the history of an extended run is that of a replay of the lines that reached its world, which are all lines of
//! its script but creates of claims; each reply of the side is its answer, what a quota refuses is held back, and what users
//! ask stands once among the steps, in the order of the lines (`extended_runs_keep`, for the works of an extended script by
//! `works_have_lines`). A script with some creates of claims left out is one that a text can give (`kept_are_scripts`), and so
//! is the script of an extended script that a text gives (`extended_gives`). Each law is a function with nothing to do, whose
//! contract is the law. Not said: that quotas are kept and growth goes in turn, which follows by `side_laws`.
#![tactic(auto)]

ghost use Rattle.extended_laws.specs.Laws.{ExtendedGives, ExtendedRunsKeep, KeptAreScripts, WorksHaveLines};

/// The script of an extended script that was read is one that a text can give.
pub fn extended_gives()
    ensures { ExtendedGives }
{}

/// So is a script with some creates of claims left out.
#[tactic(auto, using(crate::proofs::Leaving::kept_is_script))]
pub fn kept_are_scripts()
    ensures { KeptAreScripts }
{}

/// An extended run replays the lines that reached its world, and holds back what quotas refuse.
pub fn extended_runs_keep()
    ensures { ExtendedRunsKeep }
{}

/// The works of an extended script have the lines of its script, in their order.
#[tactic(auto, using(crate::proofs::Keeping::works_have_lines))]
pub fn works_have_lines()
    ensures { WorksHaveLines }
{}
