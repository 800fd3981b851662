//! Worlds that differ in the nodes of claims, in versions, epochs and the count of device calls alone.
//!
//! Promises: worlds that are alike are near so (`alike_are_near`). A node that serves a pod serves it in each world
//! that is near, with the same shares. So a pod that can be prepared can be prepared there (`near_prepares`), and has as many nodes left to be tried (`near_tries`). What the provisioner has to do for a claim
//! that has the same node is the same there, whatever nodes the others have (`near_provisions`); where its class does
//! not wait for a pod, whatever node it has itself (`near_immediates`). A pod that is to be bound to a node is so there
//! (`near_assigns`), and one that is to be prepared, where one of its claims is not under way (`near_searches`). Not
//! said: which calls leave a world near.

ghost use Rattle.settle_alike.specs.Near.Near.{AlikeAreNear, NearAssigns, NearImmediates, NearPrepares, NearProvisions, NearSearches, NearTries};

/// Worlds that are alike are near.
pub fn alike_are_near()
    ensures { AlikeAreNear }
{}

/// A pod that can be prepared can be prepared in a world that is near.
pub fn near_prepares()
    ensures { NearPrepares }
{}

/// As many nodes are left to be tried for it.
pub fn near_tries()
    ensures { NearTries }
{}

/// What is to be provisioned for a claim does not rest on the nodes of others.
pub fn near_provisions()
    ensures { NearProvisions }
{}

/// Where a class does not wait for a pod, nor on the node of the claim.
pub fn near_immediates()
    ensures { NearImmediates }
{}

/// A pod that is to be bound to a node is so in a world that is near.
pub fn near_assigns()
    ensures { NearAssigns }
{}

/// So is one that is to be prepared, where one of its claims is not under way.
pub fn near_searches()
    ensures { NearSearches }
{}
