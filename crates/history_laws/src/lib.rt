//! Laws of the texts of histories: what is printed is read again, a text has at most one history, and a run has only
//! values that a text can give.
//!
//! Promises: a text is read as the one history that it has (`printed_is_read`, within the limits of what is read,
//! `one_history`, `read_is_only`). What is read is what the text has (`read_is_printed`), and a text can give it
//! (`read_gives`). A call that a text can give is answered so, and leaves a world of such values (`calls_keep_given`);
//! what the licence allows a controller is such a call, whatever its machine (`licensed_ask_given`). So a run of a setup
//! and of users that a text can give is a history that a text can give (`runs_give`), and its printed text has no other
//! (`run_texts_have_one`). Each is a function with nothing to do, whose contract is the law. Not said: that a printed line
//! is short enough, or nests little enough, to be read.
#![tactic(auto)]

pub mod read_laws;
pub mod runs_laws;
