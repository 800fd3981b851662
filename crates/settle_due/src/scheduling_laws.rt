//! What is due for a pod to the scheduler begins a call that lasts.
//!
//! Promises, of a scheduler past its pass, in any world that is like that of the start: its caches are the rows of the
//! store, so the nodes and volumes at which it looks are the store's, place by place (`schedulers_see_all`). It acts on
//! each pod that no node runs and for which something is due (`pods_act`). Where a volume is taken, the first write lasts;
//! where claims get their node alone, one of the writes does. Where the devices cannot give what is to be provisioned on
//! the first node that serves a pod, and can on another, one node less is left to be tried from it on (`one_node_less`). Not said: that a node which the provisioner takes back is the one refused last.

ghost use Rattle.settle_due.specs.Scheduling.Acts.{PodsAct, SchedulersSeeAll};
ghost use Rattle.settle_due.specs.Scheduling.Firsts.{OneNodeLess};

/// Past its pass a scheduler has the rows of the store.
pub fn schedulers_see_all()
    ensures { SchedulersSeeAll }
{}

/// The scheduler acts on a pod that no node runs, where something is due for it.
pub fn pods_act()
    ensures { PodsAct }
{}

/// From a node that could not give what the claims need, one node less is left to be tried.
pub fn one_node_less()
    ensures { OneNodeLess }
{}
