//! On which nodes pods are.
//!
//! Promises, in every history: each node that stands was imported or is the name of a node that an entry asked to create
//! (`nodes_were_given`), and so is the node of each pod that a node runs, or a pod was imported on it
//! (`pods_are_on_given_nodes`). So a script names the nodes of all pods of its runs. Not said: that such a node still
//! stands, nor that any pod is on it.

ghost use Rattle.settle_budget.specs.Nodes.Nodes.{NodesWereGiven, PodsAreOnGivenNodes};

/// Each node that stands was given.
pub fn nodes_were_given()
    ensures { NodesWereGiven }
{}

/// So was the node of each pod that a node runs.
pub fn pods_are_on_given_nodes()
    ensures { PodsAreOnGivenNodes }
{}
