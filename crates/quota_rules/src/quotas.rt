//! The quotas of namespaces, and what is used of them.

ghost use Rattle.std.specs.Prelude.{◌≡◌, ◌+◌, nat_lt, IfOk, OnErr, OnOk, Some, option_map};
ghost use Rattle.kube_objects.specs.Keys.{AreRows};
ghost use Rattle.quota_rules.specs.Counting.{AreCounted, HasRoom, claims_in, grown_in, is_claim_of, noted};
ghost use Rattle.quota_rules.specs.Using.{allowed, over_in, over_quota, quota_of, used_by};
ghost use Rattle.quota_rules.specs.Steps.Places.{place_of_uid};

use crate::counted::{Counted, add_claim, counted_of, drop_claim};
use call_types::entry::Entry;
use call_types::reply::Reply;
use kube_objects::bindings::is_uid;
use kube_objects::objects::Object;
use kube_parts::uid::Uid;
use plain_data::copies::{OutOfMemory, copy_all};
use plain_data::text::Text;
use side_calls::quotas::{OverQuota, Quota, Used};
use std::alloc::Global;
use std::marker::Model;

/// The quotas, and each claim that is counted. Contracts see both lists.
pub struct Quotas {
    alloc: Global,
    quotas: Vec<Quota>,
    counted: Vec<Counted>,
}

impl Drop for Quotas {
    fn drop(self) {
        let Quotas {
            alloc: _,
            quotas,
            counted,
        } = self;
        drop(quotas);
        drop(counted);
    }
}

impl Model for Quotas {
    ghost use Rattle.quota_rules.specs.Counting.{AreCounted};
    ghost use Rattle.quota_rules.specs.Using.{Tally};

    ghost Value = { Tally };

    ghost view = { λ q. record { quotas = q.quotas.items; counted = q.counted.items } };

    ghost invariant = { λ q. AreCounted q.counted.items };
}

/// What is counted of these objects, none of which has grown.
fn claims_in(alloc: Global, objects: &[Object]) -> Result<Vec<Counted>, OutOfMemory>
    ensures { IfOk result (λ counted. counted.items ≡ claims_in objects.now) }
{
    let mut counted = Vec::new(alloc);
    for object in objects {
        if let Object::Claim(claim) = object {
            counted.push(counted_of(alloc, claim)?)?;
        }
    }
    Ok(counted)
}

/// Counts what a reply says was made, and no more what it says has left.
fn note_reply(alloc: Global, counted: &mut Vec<Counted>, reply: &Reply) -> Result<(), OutOfMemory>
    requires { AreCounted counted.old.items }
    ensures ok { OnOk result (counted.new.items ≡ noted reply.now counted.old.items) }
    ensures err { OnErr result (counted.new.items ≡ counted.old.items) }
    ensures rising { AreCounted counted.new.items }
{
    match reply {
        Reply::Done(Object::Claim(claim)) => add_claim(alloc, counted, claim),
        Reply::Left(Object::Claim(claim)) => {
            drop_claim(counted, claim);
            Ok(())
        }
        _ => Ok(()),
    }
}

/// Whether this is the claim of the id in the namespace.
fn is_claim_of(x: &Counted, namespace: &Text, uid: Uid) -> bool
    ensures { result ≡ is_claim_of namespace.now uid x.now }
{
    x.key.namespace.is(namespace.as_str()) && is_uid(x.claim, uid)
}

/// Where the claim of the id in the namespace stands, or how many are counted where none does.
fn place_of_uid(counted: &[Counted], namespace: &Text, uid: Uid) -> usize
    ensures { result ≡ place_of_uid namespace.now uid counted.now }
{
    let mut place = 0;
    for x in counted {
        if is_claim_of(x, namespace, uid) {
            return place;
        }
        place += 1;
    }
    place
}

/// The claim of the id in the namespace asks for so many bytes more.
#[tactic(auto, using(crate::proofs::Orders::grows_at, crate::proofs::Orders::grown_rise))]
fn grow_in(counted: &mut Vec<Counted>, namespace: &Text, uid: Uid, more: u64)
    requires order { AreCounted counted.old.items }
    requires room { HasRoom namespace.now uid more counted.old.items }
    ensures grown { counted.new.items ≡ grown_in namespace.now uid more counted.old.items }
    ensures rising { AreCounted counted.new.items }
{
    let place = place_of_uid(counted, namespace, uid);
    counted[place].asked += more;
}

/// What the claims of a namespace use.
fn used_by(counted: &[Counted], namespace: &Text) -> Used
    ensures { result ≡ used_by namespace.now counted.now }
{
    let mut bytes: u128 = 0;
    let mut claims = 0;
    for x in counted {
        if x.key.namespace.is(namespace.as_str()) {
            bytes += x.asked as u128;
            claims += 1;
        }
    }
    Used { bytes, claims }
}

/// The quota of a namespace.
fn quota_of<'a>(quotas: &'a [Quota], namespace: &Text) -> Option<&'a Quota>
    ensures { option_map (λ q. q.now) result ≡ quota_of namespace.now quotas.now }
{
    for quota in quotas {
        if quota.namespace.is(namespace.as_str()) {
            return Some(quota);
        }
    }
    None
}

/// Whether a use and more of it together pass a limit. The sum need not fit.
fn passes(limit: u128, used: u128, more: u128) -> bool
    ensures { result ≡ nat_lt limit (used + more) }
{
    if limit < more {
        return true;
    }
    limit - more < used
}

/// The limit of a quota that a use and more of it together pass, the bytes first.
fn over(quota: &Quota, used: Used, more: Used) -> Option<OverQuota>
    ensures { result ≡ over_quota (Some quota.now) used more }
{
    if passes(quota.bytes as u128, used.bytes, more.bytes) {
        return Some(OverQuota::OverBytes {
            used: used.bytes,
            limit: quota.bytes,
        });
    }
    let claims = quota.claims as u128;
    if passes(claims, used.claims as u128, more.claims as u128) {
        return Some(OverQuota::OverClaims {
            used: used.claims,
            limit: quota.claims,
        });
    }
    None
}

impl Quotas {
    /// The quotas, where these objects stand and no claim has grown.
    #[tactic(auto, using(crate::proofs::Orders::claims_rise))]
    pub fn of(alloc: Global, quotas: &[Quota], objects: &[Object]) -> Result<Quotas, OutOfMemory>
        requires { AreRows objects.now }
        ensures { IfOk result (λ q. q ≡ record { quotas = quotas.now; counted = claims_in objects.now }) }
    {
        let quotas = copy_all(alloc, quotas)?;
        let counted = claims_in(alloc, objects)?;
        Ok(Quotas {
            alloc,
            quotas,
            counted,
        })
    }

    /// Brings what is counted up to date with a call of the world.
    pub fn note(&mut self, entry: &Entry) -> Result<(), OutOfMemory>
        ensures ok { OnOk result (self.new ≡ record self.old { counted = noted entry.now.reply self.old.counted }) }
        ensures err { OnErr result (self.new ≡ self.old) }
    {
        note_reply(self.alloc, &mut self.counted, &entry.reply)
    }

    /// Counts so many bytes more for a claim that has grown. It takes no memory.
    pub fn grown(&mut self, namespace: &Text, claim: Uid, more: u64)
        requires { HasRoom namespace.now claim more self.old.counted }
        ensures { self.new ≡ record self.old { counted = grown_in namespace.now claim more self.old.counted } }
    {
        grow_in(&mut self.counted, namespace, claim, more);
    }

    /// What the claims of a namespace ask for together, and how many they are. It takes no memory.
    pub fn used(&self, namespace: &Text) -> Used
        ensures { result ≡ used_by namespace.now self.now.counted }
    {
        used_by(&self.counted, namespace)
    }

    /// Whether so much more may be used in a namespace; one without a quota has no limit. It takes no memory.
    pub fn allows(&self, namespace: &Text, more: Used) -> Result<(), OverQuota>
        ensures { result ≡ allowed (over_in self.now namespace.now more) }
    {
        match quota_of(&self.quotas, namespace) {
            None => Ok(()),
            Some(quota) => match over(quota, self.used(namespace), more) {
                None => Ok(()),
                Some(over) => Err(over),
            },
        }
    }
}
