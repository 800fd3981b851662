//! The last drain of a script ends settled with the stated budget, and the rounds of its drains are short.
//!
//! Promises: the last drain of a replay ends settled, and the replay says so (`last_drains_settle`), where, as the
//! drain begins, claims are shared well, its world is small, what earlier drains have left of the budget is the stated
//! one, and no agent of the drains is stale: none was told an epoch of its node but the one that the node has. Claims
//! are shared well where each claim that two pods without a node name is completed or of a class that binds at once. In
//! place of this it serves that no class that ever stood both binds late and provisions. None is stale where no turn
//! line names an agent behind the first line that drains (`left_agents_are_awake`); nor is one of the drain with which
//! a run on threads ends, which ends settled under the same premises (`threaded_drains_settle`). The premises on the
//! script are those that a text gives, and the history is a run that a text can give.
//!
//! Of such a replay each round of each of its drains makes at most 256 calls for each object and each claim that a pod
//! names, for each planned fault that is ahead, and for 16 more (`replayed_drains_are_short`); and so does each round
//! of the drain with which a run on threads ends (`threaded_drains_are_short`), whatever its actors have under way as it
//! begins. Nothing is asked of the sizes: at most 2,048 objects ever stand, twice what the script may import and create.
//!
//! It rests on what a text can give: the annotations of claims are in order in each world of such a run
//! (`given_runs_stay_in_order`), and the UIDs of its imports have 128 bits (`given_imports_fit`). So a drain of new
//! drainers in it ends settled, where no class binds late and provisions (`given_drains_settle`). Not said: anything of
//! a drain with the budget of a replay to which none was given, which is never as much as the stated one.

ghost use Rattle.replay_laws.specs.Settles.Given.{GivenDrainsSettle, GivenImportsFit, GivenRunsStayInOrder};
ghost use Rattle.replay_laws.specs.Settles.Settling.{LastDrainsSettle, LeftAgentsAreAwake, ThreadedDrainsSettle};
ghost use Rattle.replay_laws.specs.Settles.Short.{ReplayedDrainsAreShort, ThreadedDrainsAreShort};

/// Annotations of claims are in order in each world of such a run.
pub fn given_runs_stay_in_order()
    ensures { GivenRunsStayInOrder }
{}

/// The UIDs of its imports have 128 bits.
pub fn given_imports_fit()
    ensures { GivenImportsFit }
{}

/// A drain of new drainers in such a run ends settled.
pub fn given_drains_settle()
    ensures { GivenDrainsSettle }
{}

/// The last drain of a replay ends settled with the stated budget, where no agent of the drains is stale as it begins.
pub fn last_drains_settle()
    ensures { LastDrainsSettle }
{}

/// No agent of the drains is stale where no turn line behind the first drain line names an agent.
pub fn left_agents_are_awake()
    ensures { LeftAgentsAreAwake }
{}

/// The drain of a run on threads ends settled with the stated budget.
pub fn threaded_drains_settle()
    ensures { ThreadedDrainsSettle }
{}

/// Each round of the drains of a replay makes few calls.
pub fn replayed_drains_are_short()
    ensures { ReplayedDrainsAreShort }
{}

/// So does each round of the drain of a run on threads.
pub fn threaded_drains_are_short()
    ensures { ThreadedDrainsAreShort }
{}
