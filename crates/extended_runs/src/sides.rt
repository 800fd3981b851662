//! The side of an extended run, which is kept beside its world.

ghost use Rattle.std.specs.Prelude.{◌≡◌, ◌<◌, ◌∷◌, ◌++◌, [], IfOk, OnOk, List, Some, length, slice_get};
ghost use Rattle.call_types.specs.declared.setup.Setup.{Setup};
ghost use Rattle.side_calls.specs.declared.asks.SideAsk.TheVariants.{Create};
ghost use Rattle.side_calls.specs.declared.asks.SideReply.TheVariants as replies;
ghost use Rattle.kube_objects.specs.Keys.{AreRows, row_at};
ghost use Rattle.binder_model.specs.Choice.{claim_in};
ghost use Rattle.side_model.specs.Answers.{held_by};
ghost use Rattle.side_model.specs.Merged.{OfSide, Step, entries};
ghost use Rattle.side_model.specs.Sides.{SideSetup};
ghost use Rattle.extended_runs.specs.Steps.Sides.{CatchesUp, HasRested, IsAsked, SideStands, SomeSide, asking_in};

use expand_ops::sizes::Sizes;
use kube_types::copies::{OutOfMemory, Plain};
use kube_types::items::Items;
use kube_types::key::Key;
use kube_types::objects::Object;
use kube_types::table::row;
use kube_types::uid::Uid;
use quota_rules::quotas::Quotas;
use side_calls::asks::{SideAsk, SideEntry, SideReply};
use side_calls::quotas::{OverQuota, Quota, Used};
use side_calls::sizes::SizeRow;
use side_text::entries::PlacedEntry;
use std::alloc::Global;
use world_core::world::World;

/// The quotas and what counts of them, the claims that grew, what the side was asked, and how many entries of the world it
/// was told of.
pub struct KeptSide {
    pub alloc: Global,
    pub quotas: Quotas,
    pub sizes: Sizes,
    pub entered: Items<PlacedEntry>,
    pub noted: usize,
}

impl Drop for KeptSide {
    fn drop(self) {
        let KeptSide {
            alloc: _,
            quotas,
            sizes,
            entered,
            noted: _,
        } = self;
        drop(quotas);
        drop(sizes);
        drop(entered);
    }
}

/// What holds the create of an object back, if anything does.
pub fn held_by(quotas: &Quotas, object: &Object) -> Option<OverQuota>
    ensures { result ≡ held_by quotas.now object.now }
{
    match object {
        Object::Claim(claim) => {
            let more = Used {
                bytes: claim.amount.bytes as u128,
                claims: 1,
            };
            match quotas.allows(&claim.meta.namespace, more) {
                Ok(()) => None,
                Err(over) => Some(over),
            }
        }
        _ => None,
    }
}

/// The row at a place.
fn row_at_place(rows: &[SizeRow], place: usize) -> &SizeRow
    requires { place < length rows.now }
    ensures { slice_get rows.now place ≡ Some result.now }
{
    &rows[place]
}

impl KeptSide {
    /// Puts an entry behind those of the side.
    fn enter(&mut self, ask: SideAsk, reply: SideReply) -> Result<(), OutOfMemory>
        ensures ok { OnOk result (self.new ≡ record self.old { entered = self.old.entered ++ (record { after = self.old.noted; entry = record { ask = ask; reply = reply } }) ∷ [] }) }
    {
        self.entered.push(PlacedEntry {
            after: self.noted as u64,
            entry: SideEntry { ask, reply },
        })
    }

    /// The side of a world before its first call.
    pub fn new(
        alloc: Global,
        quotas: &[Quota],
        reserve: u64,
        world: &World,
    ) -> Result<KeptSide, OutOfMemory>
        requires { world.now.past ≡ [] }
        ensures { IfOk result (SideStands world.now.setup (record { quotas = quotas.now; reserve = reserve }) []) }
    {
        Ok(KeptSide {
            alloc,
            quotas: Quotas::of(alloc, quotas, world.store().objects())?,
            sizes: Sizes::new(alloc, reserve),
            entered: Items::new(alloc),
            noted: 0,
        })
    }

    /// Takes note of the entries of the world that were made since it did so last.
    pub fn catch_up(&mut self, world: &World) -> Result<(), OutOfMemory>
        ensures { OnOk result (CatchesUp world.now.setup world.now.past self.old self.new) }
    {
        let history = world.history();
        'notes: while self.noted < history.len() {
            let entry = &history[self.noted];
            self.quotas.note(entry)?;
            self.sizes.note(entry);
            self.noted += 1;
        }
        Ok(())
    }

    /// Enters a user's create that a quota holds back.
    pub fn hold(&mut self, user: u64, object: &Object, over: OverQuota) -> Result<(), OutOfMemory>
        ensures { OnOk result ((setup : Setup) (given : SideSetup) (m : List Step) → SideStands setup given m self.old
            → SideStands setup given (OfSide (record { ask = Create user object.now; reply = replies.OverQuota over }) ∷ m) self.new) }
    {
        let ask = SideAsk::Create {
            user,
            object: object.copy(self.alloc)?,
        };
        self.enter(ask, SideReply::OverQuota(over))
    }

    /// The UID of the claim of a key, and how many bytes it asks for.
    fn asking(&self, objects: &[Object], key: &Key) -> Option<(Uid, u64)>
        requires { AreRows objects.now }
        ensures { result ≡ asking_in self.now.sizes.rows (claim_in (row_at key.now objects.now)) }
    {
        match row(objects, key) {
            Some(Object::Claim(claim)) => {
                let asked = self.sizes.asked(claim);
                match claim.meta.uid {
                    Some(uid) => Some((uid, asked)),
                    None => None,
                }
            }
            _ => None,
        }
    }

    /// Answers a user's wish that the claim of a key grow to so many bytes, in a world of whose entries it was told.
    pub fn grow(
        &mut self,
        world: &World,
        user: u64,
        key: &Key,
        bytes: u64,
    ) -> Result<(), OutOfMemory>
        requires { SomeSide world.now.setup world.now.past self.old }
        ensures { OnOk result ((given : SideSetup) (m : List Step) → SideStands world.now.setup given m self.old → entries m ≡ world.now.past
            → IsAsked world.now.setup given m user key.now bytes self.new) }
    {
        let _ = world.history();
        let objects = world.store().objects();
        let before = self.asking(objects, key);
        let ask = SideAsk::Grow {
            user,
            key: key.copy(self.alloc)?,
            bytes,
        };
        match self.sizes.grow(objects, &self.quotas, key, bytes)? {
            Some(error) => self.enter(ask, SideReply::NotGrown(error)),
            None => match before {
                Some((uid, asked)) => {
                    self.quotas.grown(&key.namespace, uid, bytes - asked);
                    self.enter(ask, SideReply::Done)
                }
                None => self.enter(ask, SideReply::Done),
            },
        }
    }

    /// Has growth go on by the steps that rows can make, until none can.
    pub fn rest(&mut self) -> Result<(), OutOfMemory>
        ensures { OnOk result ((setup : Setup) (given : SideSetup) (m : List Step) → SideStands setup given m self.old → HasRested setup given m self.new) }
    {
        'steps: while let Some(step) = self.sizes.step() {
            let row = row_at_place(self.sizes.rows(), step.place);
            let key = row.key.copy(self.alloc)?;
            let ask = SideAsk::Step {
                kind: step.kind,
                key,
            };
            self.enter(ask, SideReply::Bytes(step.bytes))?;
        }
        Ok(())
    }
}
