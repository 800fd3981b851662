//! The sizes of the claims that grew.

ghost use Rattle.std.specs.Prelude.{◌≡◌, [], IfOk, OnErr, OnOk};
ghost use Rattle.kube_objects.specs.Keys.{AreRows, key_of};
ghost use Rattle.kube_objects.specs.declared.objects.Object.TheVariants.{Claim};
ghost use Rattle.expand_ops.specs.Growing.{asked_by, grow_fault, rows_grown};
ghost use Rattle.expand_ops.specs.Sizes.{IsGrowth, after_step, kept_after, next_step, size_at};

use crate::growing::{asked_by, fault_of, grow_row};
use crate::rows::{first_step, make, note_reply, row_of_claim, taken_by};
use call_types::entry::Entry;
use kube_objects::key::Key;
use kube_objects::objects::{Claim as ClaimData, Object};
use plain_data::copies::OutOfMemory;
use quota_rules::quotas::Quotas;
use side_calls::sizes::{GrowError, SizeRow, SizeStep};
use std::alloc::Global;
use std::marker::Model;

/// The reserve, and the rows of the claims that grew. Contracts see both.
pub struct Sizes {
    alloc: Global,
    reserve: u64,
    rows: Vec<SizeRow>,
}

impl Drop for Sizes {
    fn drop(self) {
        let Sizes {
            alloc: _,
            reserve: _,
            rows,
        } = self;
        drop(rows);
    }
}

impl Model for Sizes {
    ghost use Rattle.expand_ops.specs.Sizes.{Growth, IsGrowth};

    ghost Value = { Growth };

    ghost view = { λ s. record { reserve = s.reserve; rows = s.rows.items } };

    ghost invariant = { λ s. IsGrowth (record { reserve = s.reserve; rows = s.rows.items }) };
}

impl Sizes {
    /// No claim has grown. It takes no memory.
    pub fn new(alloc: Global, reserve: u64) -> Sizes
        ensures { result ≡ record { reserve = reserve; rows = [] } }
    {
        Sizes {
            alloc,
            reserve,
            rows: Vec::new(alloc),
        }
    }

    /// The rows, in the order of their keys.
    pub fn rows(&self) -> &[SizeRow]
        ensures rows { result.now ≡ self.now.rows }
        ensures are { IsGrowth self.now }
    {
        &self.rows
    }

    /// What a claim asks for: what it grew to, or else its request. It takes no memory.
    pub fn asked(&self, claim: &ClaimData) -> u64
        ensures { result ≡ asked_by (size_at (key_of (Claim claim.now)) self.now.rows) claim.now }
    {
        asked_by(row_of_claim(&self.rows, claim), claim)
    }

    /// Has the claim of the key ask for so many bytes, among these objects. The answer says what stands against it; None
    /// where nothing does and its row asks for them.
    pub fn grow(
        &mut self,
        objects: &[Object],
        quotas: &Quotas,
        key: &Key,
        bytes: u64,
    ) -> Result<Option<GrowError>, OutOfMemory>
        requires { AreRows objects.now }
        ensures fault { IfOk result (λ fault. fault ≡ grow_fault quotas.now self.old.rows objects.now key.now bytes) }
        ensures grown { OnOk result (self.new ≡ record self.old { rows = rows_grown quotas.now self.old.rows objects.now key.now bytes }) }
        ensures err { OnErr result (self.new ≡ self.old) }
    {
        match fault_of(self.alloc, quotas, &self.rows, objects, key, bytes)? {
            Some(error) => Ok(Some(error)),
            None => {
                grow_row(self.alloc, &mut self.rows, objects, key, bytes)?;
                Ok(None)
            }
        }
    }

    /// Takes out the row of a claim that has left. It takes no memory.
    pub fn note(&mut self, entry: &Entry)
        ensures { self.new ≡ record self.old { rows = kept_after entry.now.reply self.old.rows } }
    {
        note_reply(&mut self.rows, &entry.reply);
    }

    /// Makes the first step that a row can make, and answers it. None exactly where no row can make one. It takes no memory.
    #[tactic(auto, using(crate::proofs::Turns::taken_few))]
    pub fn step(&mut self) -> Option<SizeStep>
        ensures step { result ≡ next_step self.old }
        ensures made { self.new ≡ record self.old { rows = after_step result self.old.rows } }
    {
        let free = self.reserve - taken_by(&self.rows);
        let step = first_step(&self.rows, free);
        if let Some(step) = step {
            make(&mut self.rows, step);
        }
        step
    }
}
