//! A script replayed on one kept world: whose calls its history has.
//!
//! Promises: `replay::replay` goes through the lines of a script in order and then drains; `specs/Replays` says what each
//! line does to the history, so whose calls it has, and how it ends. Each life of each actor that a turn line names is
//! one that its actor played (`specs/Played`): each call is the one that its turn gave, and a turn that gives fewer calls
//! than its line says is one after which the life is idle. What follows of such lives is `actor_turns::laws`. A drain is
//! rounds of all controllers in their order, as `worker_threads` says, and nothing else; the first one begins with new
//! actors, and each goes on from where the last one left them, with their queues and what they have under way.
//! `drains::drains_come_to` and `drains::drainers_stay` have what follows. The history is a run, and safe at every point.
//! Each request of a binder or a scheduler was given by an actor. What a script says of one actor is `parts::part_from`
//! (`specs/Parts`): whether a turn names it, which of its calls are lost, after how many calls it begins a new life;
//! `actor_turns` makes the turns. `stage::Stage` does what one line says. `budget::raised` says how many calls all drains
//! together may make (`specs/Budget`), `limits::reads_readable` that the reader of scripts gives readable ones alone
//! (`specs/Limits`). Not said: that a drain's budget is enough; that the actors of drains are diligent.
#![tactic(auto)]

pub mod budget;
pub mod drains;
pub mod examples;
pub mod limits;
pub mod parts;
pub mod replay;
pub mod settled;
pub mod stage;
