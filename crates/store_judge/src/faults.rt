//! What an entry breaks.

ghost use Rattle.std.specs.Prelude.{◌≡◌, ◌++◌, OnOk};
ghost use Rattle.store_judge.specs.Faults.{at_entry};
ghost use Rattle.store_judge.specs.Steps.Judged.{refusing, rules_in};

use audit_check::verdict::AuditRule;
use kube_types::copies::OutOfMemory;
use kube_types::items::Items;
use kube_types::names::LicenceRule;

/// A fault of the entry of this number, counted from 1: its answer is not the world's, or a rule of the licence refuses its
/// request.
#[derive(Clone, Copy)]
pub struct EntryFault {
    pub entry: u64,
    pub rule: AuditRule,
}

/// Whether an entry has the world's answer, and the rule that refuses its request, if one does.
#[derive(Clone, Copy)]
pub(crate) struct Judged {
    pub answered: bool,
    pub refused: Option<LicenceRule>,
}

/// The rule that refuses, if one does.
pub(crate) fn refusing(allowed: Result<(), LicenceRule>) -> Option<LicenceRule>
    ensures { result ≡ refusing allowed }
{
    match allowed {
        Ok(()) => None,
        Err(rule) => Some(rule),
    }
}

/// Puts the faults of an entry at the end.
pub(crate) fn push_faults(
    faults: &mut Items<EntryFault>,
    entry: u64,
    judged: Judged,
) -> Result<(), OutOfMemory>
    ensures { OnOk result (faults.new ≡ faults.old ++ at_entry entry (rules_in judged)) }
{
    if !judged.answered {
        faults.push(EntryFault {
            entry,
            rule: AuditRule::Answer,
        })?;
    }
    if let Some(rule) = judged.refused {
        faults.push(EntryFault {
            entry,
            rule: AuditRule::Licence(rule),
        })?;
    }
    Ok(())
}
