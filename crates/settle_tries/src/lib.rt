//! Rounds without progress are few, so a drain ends settled.
//!
//! Promises: a round that leaves as much to do moves the nodes of claims alone, and tries a node less for each pod
//! that is still to be prepared. So no more than ten such rounds come after one another where claims are shared well,
//! and a drain of a small world then ends settled with the stated budget (`shared_drains_settle` of `tries_laws`).
//! Nothing may be held back, no agent may be stale, and each node needs an agent. Not said: that a drain settles
//! where claims are not shared well: two pods without a node that name one claim might move it for ever, unless it is
//! completed or its class binds at once.
#![tactic(auto)]

pub mod tries_laws;
