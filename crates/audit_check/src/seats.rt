//! What each seat of a history was told.

ghost use Rattle.std.specs.Prelude.{◌≡◌, ℕ, [], MatchResult, OnOk, unwrap_or};
ghost use Rattle.std.specs.Option.{option_copied};
ghost use Rattle.binder_model.specs.Licence.{IsRefusedBy, Licensed};
ghost use Rattle.audit_check.specs.Steps.Noted.{IsNoted, noted};

use call_types::entry::Entry;
use call_types::request::{Request, SeatKind};
use evidence_judge::Evidence;
use kube_types::copies::OutOfMemory;
use kube_types::names::LicenceRule;
use std::alloc::Global;
use std::collections::BTreeMap;

/// The evidence of each seat that made a call.
pub struct Seats {
    alloc: Global,
    evidence: BTreeMap<u64, Evidence>,
}

impl Drop for Seats {
    fn drop(self) {
        let Seats { alloc: _, evidence } = self;
        drop(evidence);
    }
}

/// The evidence of a seat, which has none where it made no call.
fn evidence_of(alloc: Global, kept: Option<Evidence>) -> Evidence
    ensures { result ≡ unwrap_or kept [] }
{
    match kept {
        Some(evidence) => evidence,
        None => Evidence::new(alloc),
    }
}

/// The judgement by the evidence of a seat.
fn judge_by(
    alloc: Global,
    evidence: Option<&Evidence>,
    kind: SeatKind,
    request: &Request,
) -> Result<(), LicenceRule>
    ensures { MatchResult result (λ _. Licensed kind (unwrap_or (option_copied evidence.entry) []) request.now) (IsRefusedBy kind (unwrap_or (option_copied evidence.entry) []) request.now) }
{
    match evidence {
        Some(evidence) => evidence.judge(kind, request),
        None => {
            let fresh = Evidence::new(alloc);
            fresh.judge(kind, request)
        }
    }
}

impl Seats {
    /// No seat made a call.
    pub fn new(alloc: Global) -> Seats
        ensures { (seat : ℕ) → noted result seat ≡ [] }
    {
        Seats {
            alloc,
            evidence: BTreeMap::new(alloc),
        }
    }

    /// Ok exactly where a seat of this kind may make the request after its entries that were noted; else the rule that
    /// refuses it.
    pub fn judge(&self, seat: u64, kind: SeatKind, request: &Request) -> Result<(), LicenceRule>
        ensures { MatchResult result (λ _. Licensed kind (noted self.now seat) request.now) (IsRefusedBy kind (noted self.now seat) request.now) }
    {
        judge_by(self.alloc, self.evidence.get(&seat), kind, request)
    }

    /// Notes one more entry, which is its seat's. Where memory is wanting, nothing more may be asked.
    pub fn note(&mut self, entry: &Entry) -> Result<(), OutOfMemory>
        ensures { OnOk result (IsNoted self.old self.new entry.now) }
    {
        let kept = self.evidence.remove(&entry.seat);
        let mut evidence = evidence_of(self.alloc, kept);
        evidence.note(entry)?;
        let _ = self.evidence.insert(entry.seat, evidence)?;
        Ok(())
    }
}
