//! What a controller begins on the store as it is comes to a write: no task of it makes reads alone.
//!
//! Promises, of an actor that decides a key where it sees the store as it is, in any world that is like that of the start:
//! each task that volume protection begins, claim protection, the binder, or the scheduler would make a call that lasts,
//! at once or after calls that leave the world alike. So where the calls for the key pass, it makes one (`begun_is_lasting`). The provisioner and
//! reclaimer is no such actor: it asks a back end also where nothing is due of provisioning, as where no pool has room
//! for a claim whose class binds at once, and then it may write nothing. But for such claims what it begins would last
//! too (`ops_last`). A scheduler begins a task also where no devices can give what is to be provisioned, so where nothing
//! is due; its writes last all the same. The other laws here have the other direction: what is due begins such a
//! task. Not said: the same of agents.

ghost use Rattle.settle_due.specs.Begun.Begun.{BegunIsLasting, OpsLast};

/// So would each task of the provisioner and reclaimer, but for claims of which nothing is due of provisioning.
pub fn ops_last()
    ensures { OpsLast }
{}

/// Where the calls for the key pass, what the first four begin makes a call that lasts.
pub fn begun_is_lasting()
    ensures { BegunIsLasting }
{}
