//! What is due begins a call that lasts; and what a controller begins comes to one.
//!
//! Promises: where something is due for an object, the decision of its controller begins a call that lasts, at once or after
//! others, for each controller but the agents: protection, the reclaimer and the binder on a volume (`upkeep_laws`), the binder
//! on a claim (`claims_act`), the provisioner (`provisions_act`, `clears_act`) and the scheduler (`pods_act`). A node that was
//! refused leaves one node less to be tried (`one_node_less`). Conversely what a controller begins on the store as it is comes
//! to such a call where its calls pass (`begun_is_lasting`); what the provisioner begins does so where something is due for it
//! (`ops_last`). Not said: that the controller's slot comes.
#![tactic(auto)]

pub mod begun_laws;
pub mod binding_laws;
pub mod provisioning_laws;
pub mod scheduling_laws;
pub mod upkeep_laws;
