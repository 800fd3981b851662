//! A claim never gets less than it asked for.
//!
//! The premise: each write that gives a volume the reference of a claim was decided on a volume that fits, or on one
//! of the two cases of `specs/Law/Fitting` in which Kubernetes does not ask for the size. Promises: then each completed
//! claim names a volume of at least its bytes and of its volume mode, but for those that were bound by hand on both
//! sides (`runs_get_enough`), and each volume fits the claim of its reference (`runs_refer_fitting`). Binders and
//! schedulers that are actors keep the premise: each call that a turn gives does (`calls_give_fitting`), so each history
//! of theirs (`actors_are_fitting`), and in such a run each claim that counts gets enough (`actors_give_enough`). What ops
//! creates is made to the measure of a claim that it was told (`histories_make_fitting`). Of the calls of a binding only
//! the first gives a reference, of those of ops only the creation of a volume. Not said: anything of binders and
//! schedulers that are no actors; of access modes, classes and selectors; of claims that were imported as Lost; and of
//! those to which an imported volume refers that does not fit.
#![tactic(auto)]

pub mod calls_laws;
pub mod law_laws;
