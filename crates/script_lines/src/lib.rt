//! Lines of scripts: what their members give, and why one is refused.
//!
//! Promises: each reader (`edit_at`, `object_at`, `actor_at`) gives what `specs/Members` says of the line's JSON, or the
//! first refusal; `refusal_line` prints a refusal by its name. Not said: what a line means after others, which is
//! `script_text`'s to say.
#![tactic(auto)]

pub mod actors;
pub mod edit_members;
pub mod edits;
pub mod errors;
pub mod imports;
pub mod keys;
pub mod line_member;
pub mod members;
pub mod refusals;
pub mod verbs;
