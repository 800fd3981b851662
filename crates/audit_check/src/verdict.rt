//! Verdicts on histories.

ghost use Rattle.std.specs.Prelude.{◌≡◌};
ghost use Rattle.audit_check.specs.Words.{audit_word};

use kube_types::names::LicenceRule;

/// Why an entry breaks a history: its answer is not the world's, or a rule of the licence refuses its request.
#[derive(Clone, Copy, Debug)]
pub enum AuditRule {
    Answer,
    Licence(LicenceRule),
}

impl AuditRule {
    /// The printed word.
    pub fn name(&self) -> &str
        ensures { result.now ≡ audit_word self.now }
    {
        match self {
            AuditRule::Answer => "Answer",
            AuditRule::Licence(rule) => rule.name(),
        }
    }
}

/// Whether a history is a run, else the first entry that breaks it, counted from 1, and its rule.
#[derive(Clone, Copy, Debug)]
pub enum Verdict {
    Yes,
    No { entry: u64, rule: AuditRule },
}
