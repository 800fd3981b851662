//! Rounds of a drain that leave as much to do are few after one another, so a drain ends settled.
//!
//! Promises: a drain of a small world in which claims are shared well ends settled with the stated budget
//! (`shared_drains_settle`). The files of `specs/Tries` say how, each with its sentence. An entry that pays and
//! leaves as much to do moves the node of a claim, if anything: the scheduler gives one, ops takes one back (Moving).
//! A slot that ends idle decides each key that the actor had cached (Deciding), and each lasting entry of it is a
//! call of what was decided in it (Coming). So a quiet round, a whole one that leaves as much to do, leaves the world
//! near, and at its end nothing is due but that pods are prepared (Quiet). A claim that has no node at the end of the
//! next such round had none behind the scheduler's slot, or was written in it by a decision of the scheduler
//! (Taking). Claims stay shared well in each round (Sharing).
//!
//! A pod that is to be prepared at the end of a quiet round, where nothing but pods was to be prepared when it began
//! and claims are shared well, was to be prepared then too, and was tried: the scheduler decided it in its slot, on
//! the first node that serves it behind the one that was refused last, and the devices cannot give there what is to
//! be provisioned. Up to this decision no claim of the pod was written, and when the slot ends each of them that
//! needs a volume has this node (Waiting). Where a pod was tried in two quiet rounds after one another, the second
//! search begins behind the node that was tried in the first: this is the node that the scheduler remembers as
//! refused last for one of the pod's claims (Going). So quiet rounds after one another are ten at most where a drain
//! begins, and nine behind a whole round (Trying).
//!
//! What the search rests on: no row that a seat was told refuses the node that stands selected, so that this node is
//! the claim's, where the seat sees the claim open; what the scheduler is told in a slot stands then, or was written
//! since its last slot began; and a claim that needs no volume keeps its node in a quiet round.

ghost use Rattle.settle_tries.specs.Tries.Trying.{SharedDrainsSettle};

/// Drains of small worlds in which claims are shared well end settled.
pub fn shared_drains_settle()
    ensures { SharedDrainsSettle }
{}
