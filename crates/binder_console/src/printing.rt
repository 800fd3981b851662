//! The text of a replay.

ghost use Rattle.std.specs.Prelude.{◌≡◌, ◌<◌, [], IfOk, length};
ghost use Rattle.history_text.specs.Output.{with_line};
ghost use Rattle.binder_model.specs.Promises.{most_entries};
ghost use Rattle.binder_model.specs.World.{world as world_of};
ghost use Rattle.binder_console.specs.Extends.{played_text};
ghost use Rattle.binder_console.specs.Replays.{ending_of, last_summary, replay_text, summary_text};

use extended_runs::sides::KeptSide;
use history_text::counts::summary_of;
use history_text::histories::print_all;
use history_text::lines::Lines;
use history_text::summaries::push_summary;
use history_text::summary::{Ending, Summary};
use kube_types::copies::Plain;
use piece_print::pieces::PieceText;
use plain_data::copies::OutOfMemory;
use side_text::output::print_all as print_beside;
use std::alloc::Global;
use world_core::drained::Drained;
use world_core::world::World;

/// A line alone.
pub fn print_line(alloc: Global, line: &str) -> Result<PieceText, OutOfMemory>
    ensures { IfOk result (λ text. text ≡ with_line [] line.now) }
{
    let mut lines = Lines::new(alloc);
    lines.push(line.as_bytes())?;
    Ok(PieceText::of(alloc, lines.into_bytes()))
}

fn ending_of(alloc: Global, ending: &Drained) -> Result<Ending, OutOfMemory>
    ensures { IfOk result (λ e. e ≡ ending_of ending.now) }
{
    match ending {
        Drained::Settled { made: _ } => Ok(Ending::Settled),
        Drained::Spent { made, key, due } => Ok(Ending::Unsettled {
            calls: *made,
            key: key.copy(alloc)?,
            due: *due,
        }),
    }
}

/// The numbers of a world, and how its drains ended.
#[tactic(auto, unfolding(crate::specs::Replays::last_summary))]
fn summary(alloc: Global, world: &World, ending: &Drained) -> Result<Summary, OutOfMemory>
    ensures { IfOk result (λ s. s ≡ last_summary (world_of world.now.setup world.now.past) ending.now) }
{
    let counts = world.devices().counts();
    let ending = ending_of(alloc, ending)?;
    Ok(summary_of(
        world.store().objects(),
        world.store().version(),
        counts.mounted,
        counts.stored,
        counts.calls,
        ending,
    ))
}

/// The numbers of a world, and how its drains ended: seven lines.
#[tactic(auto, unfolding(crate::specs::Replays::summary_text))]
pub fn print_summary(
    alloc: Global,
    world: &World,
    ending: &Drained,
) -> Result<PieceText, OutOfMemory>
    ensures { IfOk result (λ text. text ≡ summary_text world.now.setup world.now.past ending.now) }
{
    let summary = summary(alloc, world, ending)?;
    let mut lines = Lines::new(alloc);
    push_summary(&mut lines, alloc, &summary)?;
    Ok(PieceText::of(alloc, lines.into_bytes()))
}

/// The history of a world, its objects and its numbers.
#[tactic(auto, unfolding(crate::specs::Replays::replay_text))]
pub fn print_replay(
    alloc: Global,
    world: &World,
    ending: &Drained,
) -> Result<PieceText, OutOfMemory>
    ensures text { IfOk result (λ text. text ≡ replay_text world.now.setup world.now.past ending.now) }
    ensures short { IfOk result (λ text. length world.now.past < most_entries) }
{
    let summary = summary(alloc, world, ending)?;
    print_all(
        alloc,
        world.setup(),
        world.history(),
        world.store().objects(),
        &summary,
    )
}

/// The history of a world, what stands of its side, its objects and its numbers.
#[tactic(auto, unfolding(crate::specs::Extends::played_text))]
pub fn print_played(
    alloc: Global,
    world: &World,
    side: &KeptSide,
    ending: &Drained,
) -> Result<PieceText, OutOfMemory>
    ensures text { IfOk result (λ text. text ≡ played_text world.now.setup world.now.past side.now.entered side.now.sizes.rows ending.now) }
    ensures short { IfOk result (λ text. length world.now.past < most_entries) }
{
    let summary = summary(alloc, world, ending)?;
    let history = world.history();
    print_beside(
        alloc,
        world.setup(),
        history,
        side.entered.as_slice(),
        side.sizes.rows(),
        world.store().objects(),
        &summary,
    )
}
