//! What is due of provisioning begins a call that lasts.
//!
//! Promises, of a provisioner that sees the store as it is, in any world that is like that of the start: it acts on a
//! claim for which a volume is to be provisioned (`provisions_act`), and on one whose node is to be cleared
//! (`clears_act`). It asks for data: they are new, or a planned fault comes, or the volume over them is created next,
//! whose name is free and whose fields the store takes. Where no pool has the bytes, or the node is absent, the node is
//! cleared. To act is that the decision on the key begins a call that lasts, at once or after the one for data. Not
//! said: which data are given, which is for the devices to say.

ghost use Rattle.settle_due.specs.Provisioning.Provisioning.{ClearsAct, ProvisionsAct};

/// The provisioner acts on a claim for which a volume is to be provisioned.
pub fn provisions_act()
    ensures { ProvisionsAct }
{}

/// The provisioner acts on a claim whose node is to be cleared.
pub fn clears_act()
    ensures { ClearsAct }
{}
