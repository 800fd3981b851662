//! Computed examples of the definitions of an extended run's side: of quotas, of growth, of what the side answers, and of
//! short lists of steps.
//!
//! Promises: the cases of each function here, from `noted_examples` on: it has nothing to do, and its contract has them.
//! Not said: anything of other cases.
#![tactic(auto)]

ghost use Rattle.side_examples.specs.Quotas.{GrownInExamples, NotedExamples, UsedExamples};
ghost use Rattle.side_examples.specs.Growing.{FaultExamples, LetsExamples, RowExamples};
ghost use Rattle.side_examples.specs.Sizes.{GrowthExamples, LeavingExamples, StepExamples};
ghost use Rattle.side_examples.specs.Sides.{AfterExamples, CountedExamples, HeldExamples, ReplyExamples};
ghost use Rattle.side_examples.specs.Points.{GrownExamples, HoldsBackExamples, MergedExamples, SideRunExamples, WithinExamples};

/// Which calls make a claim count, and which end it.
pub fn noted_examples()
    ensures { NotedExamples }
{}

/// Whose growth counts, and where there is room for it.
pub fn grown_in_examples()
    ensures { GrownInExamples }
{}

/// What is used, and what a quota allows up to its limits.
pub fn used_examples()
    ensures { UsedExamples }
{}

/// Classes that let their claims grow, and some that do not.
pub fn lets_examples()
    ensures { LetsExamples }
{}

/// A claim that grows, and each reason why another does not.
pub fn fault_examples()
    ensures { FaultExamples }
{}

/// What a growth makes of the rows.
pub fn row_examples()
    ensures { RowExamples }
{}

/// Steps of growth, and rows that make none.
pub fn step_examples()
    ensures { StepExamples }
{}

/// Rows in turn and within the reserve, and some that are not.
pub fn growth_examples()
    ensures { GrowthExamples }
{}

/// Rows that go with their claims, and rows that stay.
pub fn leaving_examples()
    ensures { LeavingExamples }
{}

/// What claims count with.
pub fn counted_examples()
    ensures { CountedExamples }
{}

/// Creates that are held back, and some that pass.
pub fn held_examples()
    ensures { HeldExamples }
{}

/// What the side answers, and what has no answer.
pub fn reply_examples()
    ensures { ReplyExamples }
{}

/// What the side keeps after an ask.
pub fn after_examples()
    ensures { AfterExamples }
{}

/// The two parts of a merged list, and its points.
pub fn merged_examples()
    ensures { MergedExamples }
{}

/// Runs of the side, and lists that are none.
pub fn side_run_examples()
    ensures { SideRunExamples }
{}

/// Lists that hold back what they should, and one that does not.
pub fn holds_back_examples()
    ensures { HoldsBackExamples }
{}

/// Points at which quotas are kept, and one at which they are not.
pub fn within_examples()
    ensures { WithinExamples }
{}

/// Growth that goes in turn, and rows that fell.
pub fn grown_examples()
    ensures { GrownExamples }
{}
