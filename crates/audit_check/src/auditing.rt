//! Audits of histories.

ghost use Rattle.std.specs.Prelude.{◌≡◌, IfOk, reverse};
ghost use Rattle.binder_model.specs.Imports.{ImportsPass};
ghost use Rattle.binder_model.specs.Safe.{Safe};
ghost use Rattle.audit_check.specs.declared.verdict.Verdict.TheVariants as verdicts;
ghost use Rattle.audit_check.specs.Verdicts.{IsVerdict};

use crate::auditor::Auditor;
use crate::verdict::Verdict;
use call_types::entry::Entry;
use call_types::histories::History;
use call_types::setup::Setup;
use kube_types::copies::OutOfMemory;
use std::alloc::Global;

/// The verdict on entries, the oldest first, of a history of this setup. It goes through them once, and keeps a copy of
/// each in the world and one in what its seat was told.
pub fn audit_entries(
    alloc: Global,
    setup: &Setup,
    entries: &[Entry],
) -> Result<Verdict, OutOfMemory>
    requires { ImportsPass setup.now.imports }
    ensures verdict { IfOk result (λ v. IsVerdict setup.now entries.now v) }
    ensures safe { result ≡ Ok verdicts.Yes → Safe setup.now (reverse entries.now) }
{
    let mut auditor = Auditor::new(alloc, setup)?;
    for (i, entry) in entries.iter().enumerate() {
        if let Some(rule) = auditor.judge(entry)? {
            return Ok(Verdict::No {
                entry: i as u64 + 1,
                rule,
            });
        }
    }
    auditor.is_safe();
    Ok(Verdict::Yes)
}

/// Yes exactly where the history is a run; else the first entry that breaks it, and its rule.
pub fn audit(alloc: Global, history: &History) -> Result<Verdict, OutOfMemory>
    requires { ImportsPass history.now.setup.imports }
    ensures verdict { IfOk result (λ v. IsVerdict history.now.setup history.now.entries v) }
    ensures safe { result ≡ Ok verdicts.Yes → Safe history.now.setup (reverse history.now.entries) }
{
    audit_entries(alloc, &history.setup, history.entries.as_slice())
}
