//! What an audit keeps of the entries that it has gone through.

ghost use Rattle.std.specs.Prelude.{◌≡◌, List, [], IfOk};
ghost use Rattle.call_types.specs.declared.entry.Entry.{Entry};
ghost use Rattle.call_types.specs.declared.setup.Setup.{Setup};
ghost use Rattle.binder_model.specs.Imports.{ImportsPass};
ghost use Rattle.binder_model.specs.Safe.{Safe};
ghost use Rattle.audit_check.specs.Steps.Judged.{Judges, AuditorStands, rule_of};

use crate::seats::Seats;
use crate::verdict::AuditRule;
use call_types::entry::Entry;
use call_types::setup::Setup;
use kube_types::copies::{OutOfMemory, Plain};
use kube_types::names::LicenceRule;
use std::alloc::Global;
use world_core::world::World;

/// A world, and what each seat was told of it.
pub struct Auditor {
    world: World,
    seats: Seats,
}

impl Drop for Auditor {
    fn drop(self) {
        let Auditor { world, seats } = self;
        drop(world);
        drop(seats);
    }
}

/// The rule by which an entry breaks. A wrong answer comes first.
fn rule_of(is_answer: bool, allowed: Result<(), LicenceRule>) -> Option<AuditRule>
    ensures { result ≡ rule_of is_answer allowed }
{
    if !is_answer {
        return Some(AuditRule::Answer);
    }
    match allowed {
        Ok(()) => None,
        Err(rule) => Some(AuditRule::Licence(rule)),
    }
}

impl Auditor {
    /// With no entry yet.
    pub fn new(alloc: Global, setup: &Setup) -> Result<Auditor, OutOfMemory>
        requires { ImportsPass setup.now.imports }
        ensures { IfOk result (λ a. AuditorStands a setup.now []) }
    {
        let world = World::new(alloc, setup, 0)?;
        Ok(Auditor {
            world,
            seats: Seats::new(alloc),
        })
    }

    /// Goes through one more entry. Where it breaks, nothing more may be asked.
    pub fn judge(&mut self, entry: &Entry) -> Result<Option<AuditRule>, OutOfMemory>
        ensures { IfOk result (λ rule. (setup : Setup) (past : List Entry) → AuditorStands self.old setup past → Judges rule self.new setup past entry.now) }
    {
        let allowed = self.seats.judge(entry.seat, entry.kind, &entry.request);
        let reply = self
            .world
            .call(entry.seat, entry.kind, &entry.request, entry.told)?;
        match rule_of(reply.same(&entry.reply), allowed) {
            Some(rule) => Ok(Some(rule)),
            None => {
                self.seats.note(entry)?;
                Ok(None)
            }
        }
    }

    /// The entries that stand are safe at every point.
    #[tactic(auto, using(safety_law::proofs::Law::Law::run_implies_safe))]
    pub fn is_safe(&self)
        ensures { (setup : Setup) (past : List Entry) → AuditorStands self.now setup past → Safe setup past }
    {
        let _ = self.world.history();
    }
}
