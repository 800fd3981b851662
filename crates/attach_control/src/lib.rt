//! The attach and detach controller: which volumes stand attached to which nodes, and which of them come and go.
//!
//! Promises: `attachments::Attachments` answers attach and detach exactly as `attach_law` defines them, and after a refusal or
//! want of memory nothing has changed. `passes` is false exactly for a Mount of a claim whose own volume is not attached to
//! the node, and `holds` true exactly of the Mounts that no attach can help. `next` is what is to be done next, and `turn`
//! does it until nothing is left: all detaches in one pass over what is attached, then all attaches in one pass over pods
//! and claims, each tried once. Not said: who takes turns, and when.
#![tactic(auto)]

mod asking;
pub mod attachments;
mod blocked;
pub mod error;
mod idle;
mod list;
mod objects;
mod turns;
