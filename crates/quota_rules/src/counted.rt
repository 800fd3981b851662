//! The claims that are counted.

ghost use Rattle.std.specs.Prelude.{◌≡◌, IfErr, IfOk, OnOk, OnErr, length};
ghost use Rattle.std.specs.List.Sorted.{IsSearchInRange};
ghost use Rattle.std.specs.Option.{option_copied};
ghost use Rattle.plain_data.specs.Rows.{IsAt, IsGap, find, put, without};
ghost use Rattle.kube_objects.specs.Keys.{key_cmp, key_of};
ghost use Rattle.kube_objects.specs.declared.objects.Object.TheVariants.{Claim};
ghost use Rattle.quota_rules.specs.Counting.{AreCounted, counted_key, counted_of, is_same_claim, shares_uid, with_claim};

use kube_objects::bindings::is_uid;
use kube_objects::key::{Key, claim_key};
use kube_objects::objects::Claim as ClaimData;
use kube_parts::uid::Uid;
use plain_data::copies::{OutOfMemory, Plain};
use plain_data::rows::{Ranked, place_of};
use side_calls::sizes::compare_with_claim;
use std::alloc::Global;
use std::cmp::Ordering;

/// A claim that is counted, and the bytes that it asks for: its request and its growth.
#[derive(Debug)]
pub struct Counted {
    pub key: Key,
    pub claim: Option<Uid>,
    pub asked: u64,
}

impl Drop for Counted {
    fn drop(self) {
        let Counted {
            key,
            claim: _,
            asked: _,
        } = self;
        drop(key);
    }
}

impl Ranked<ClaimData> for Counted {
    ghost use Rattle.kube_objects.specs.Keys.{key_cmp, key_of};
    ghost use Rattle.kube_objects.specs.declared.objects.Object.TheVariants.{Claim};

    ghost rank = { λ x c. key_cmp x.key (key_of (Claim c)) };

    fn rank(&self, claim: &ClaimData) -> Ordering {
        compare_with_claim(&self.key, claim)
    }
}

/// Where a claim of the key is counted, or where one would be.
fn counted_place(items: &[Counted], claim: &ClaimData) -> Result<usize, usize>
    requires { AreCounted items.now }
    ensures bound { IsSearchInRange result (length items.now) }
    ensures at { IfOk result (IsAt key_cmp counted_key (key_of (Claim claim.now)) items.now) }
    ensures gap { IfErr result (IsGap key_cmp counted_key (key_of (Claim claim.now)) items.now) }
{
    place_of(items, claim)
}

/// What is counted at the key of the claim.
fn counted_at<'a>(items: &'a [Counted], claim: &ClaimData) -> Option<&'a Counted>
    requires { AreCounted items.now }
    ensures { option_copied result ≡ find key_cmp counted_key (key_of (Claim claim.now)) items.now }
{
    match counted_place(items, claim) {
        Ok(at) => Some(&items[at]),
        Err(_) => None,
    }
}

/// Whether both ids are there, and are one.
fn shares_uid(given: Option<Uid>, other: Option<Uid>) -> bool
    ensures { result ≡ shares_uid given other }
{
    match given {
        Some(uid) => is_uid(other, uid),
        None => false,
    }
}

/// Whether this very claim is counted, and no earlier one of its key.
fn is_counted(items: &[Counted], claim: &ClaimData) -> bool
    requires { AreCounted items.now }
    ensures { result ≡ is_same_claim (find key_cmp counted_key (key_of (Claim claim.now)) items.now) claim.now.meta.uid }
{
    match counted_at(items, claim) {
        Some(x) => shares_uid(x.claim, claim.meta.uid),
        None => false,
    }
}

/// What is counted of a claim that did not grow.
pub(crate) fn counted_of(alloc: Global, claim: &ClaimData) -> Result<Counted, OutOfMemory>
    ensures { IfOk result (λ x. x ≡ counted_of claim.now) }
{
    Ok(Counted {
        key: claim_key(alloc, &claim.meta.namespace, &claim.meta.name)?,
        claim: claim.meta.uid,
        asked: claim.amount.bytes,
    })
}

/// Puts what is counted of a claim over what was counted at its key, or at its place in the order.
fn put_counted(items: &mut Vec<Counted>, claim: &ClaimData, x: Counted) -> Result<(), OutOfMemory>
    requires order { AreCounted items.old.items }
    requires key { x.key ≡ key_of (Claim claim.now) }
    ensures ok { OnOk result (items.new.items ≡ put key_cmp counted_key x items.old.items) }
    ensures err { OnErr result (items.new.items ≡ items.old.items) }
    ensures rising { AreCounted items.new.items }
{
    match counted_place(items, claim) {
        Ok(at) => items[at] = x,
        Err(at) => items.insert(at, x)?,
    }
    Ok(())
}

/// Counts the claim, unless it is counted already.
pub(crate) fn add_claim(
    alloc: Global,
    items: &mut Vec<Counted>,
    claim: &ClaimData,
) -> Result<(), OutOfMemory>
    requires { AreCounted items.old.items }
    ensures ok { OnOk result (items.new.items ≡ with_claim claim.now items.old.items) }
    ensures err { OnErr result (items.new.items ≡ items.old.items) }
    ensures rising { AreCounted items.new.items }
{
    if is_counted(items, claim) {
        return Ok(());
    }
    let x = counted_of(alloc, claim)?;
    put_counted(items, claim, x)
}

/// Counts the claim no more.
pub(crate) fn drop_claim(items: &mut Vec<Counted>, claim: &ClaimData)
    requires { AreCounted items.old.items }
    ensures without { items.new.items ≡ without key_cmp counted_key (key_of (Claim claim.now)) items.old.items }
    ensures rising { AreCounted items.new.items }
{
    match counted_place(items, claim) {
        Ok(at) => {
            let _ = items.remove(at);
        }
        Err(_) => {}
    }
}
