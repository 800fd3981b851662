//! Why a claim does not grow, and the row of one that does.

ghost use Rattle.std.specs.Prelude.{◌≡◌, IfOk, OnErr, OnOk, Some, option_map};
ghost use Rattle.kube_objects.specs.Keys.{AreRows, row_at};
ghost use Rattle.binder_model.specs.Choice.{claim_in};
ghost use Rattle.binder_model.specs.ObjectKeys.{class_key};
ghost use Rattle.expand_ops.specs.Growing.{asked_by, asked_now, claim_lets, class_in, class_lets, lets_grow, volume_in};
ghost use Rattle.expand_ops.specs.Growing.{has_bytes, holds_volume, is_bound_claim, why_bound, why_claim, why_volume};
ghost use Rattle.expand_ops.specs.Growing.{fault_by, first_row, grow_fault, over_by, row_from, sizes_grown};
ghost use Rattle.expand_ops.specs.Sizes.{AreSizes, size_at};

use crate::rows::{put_grown, row_of_key};
use json_text::look::boolean_in;
use json_text::tree::{NoTree, Tree};
use kube_objects::bindings::{PROVISIONED_BY, carries, class_of_claim, is_completed, is_deleting};
use kube_objects::key::{Key, volume_key};
use kube_objects::objects::{
    Amount, Claim as ClaimData, Class as ClassData, Object, Volume as VolumeData,
};
use kube_parts::parts::{ClaimPhase, Kind};
use kube_parts::uid::Uid;
use kube_types::table::row;
use plain_data::copies::{OutOfMemory, Plain};
use plain_data::text::Text;
use quota_rules::quotas::Quotas;
use side_calls::quotas::{OverQuota, Used};
use side_calls::sizes::{GrowError, SizeRow, Why};
use std::alloc::Global;

/// The member of a class that lets its claims grow.
const LETS_GROW: &str = "allowVolumeExpansion";

/// The claim of a key.
fn claim_at<'a>(objects: &'a [Object], key: &Key) -> Option<&'a ClaimData>
    requires { AreRows objects.now }
    ensures { option_map (λ c. c.now) result ≡ claim_in (row_at key.now objects.now) }
{
    match row(objects, key) {
        Some(Object::Claim(claim)) => Some(claim),
        _ => None,
    }
}

/// The volume of a key.
fn volume_at<'a>(objects: &'a [Object], key: &Key) -> Option<&'a VolumeData>
    requires { AreRows objects.now }
    ensures { option_map (λ v. v.now) result ≡ volume_in (row_at key.now objects.now) }
{
    match row(objects, key) {
        Some(Object::Volume(volume)) => Some(volume),
        _ => None,
    }
}

/// The class of a key.
fn class_at<'a>(objects: &'a [Object], key: &Key) -> Option<&'a ClassData>
    requires { AreRows objects.now }
    ensures { option_map (λ k. k.now) result ≡ class_in (row_at key.now objects.now) }
{
    match row(objects, key) {
        Some(Object::Class(class)) => Some(class),
        _ => None,
    }
}

/// The key of the class of this name.
fn class_key(alloc: Global, name: &str) -> Result<Key, OutOfMemory>
    ensures { IfOk result (λ k. k ≡ class_key name.now) }
{
    Ok(Key {
        kind: Kind::StorageClass,
        namespace: Text::new(alloc, "")?,
        name: Text::new(alloc, name)?,
    })
}

/// Whether these kept members of a class let its claims grow.
fn lets_grow(alloc: Global, extra: &str) -> Result<bool, OutOfMemory>
    ensures { IfOk result (λ lets. lets ≡ lets_grow extra.now) }
{
    match Tree::read(alloc, extra) {
        Ok(tree) => match boolean_in(tree.value().get(LETS_GROW)) {
            Some(lets) => Ok(lets),
            None => Ok(false),
        },
        Err(NoTree::NotJson) => Ok(false),
        Err(NoTree::OutOfMemory) => Err(OutOfMemory),
    }
}

/// Whether the class is there and lets its claims grow.
fn class_lets(alloc: Global, class: Option<&ClassData>) -> Result<bool, OutOfMemory>
    ensures { IfOk result (λ lets. lets ≡ class_lets (option_map (λ k. k.now) class.entry)) }
{
    match class {
        Some(class) => lets_grow(alloc, class.extra.as_str()),
        None => Ok(false),
    }
}

/// Whether the class that the claim names lets its claims grow.
fn claim_lets(
    alloc: Global,
    objects: &[Object],
    claim: Option<&ClaimData>,
) -> Result<bool, OutOfMemory>
    requires { AreRows objects.now }
    ensures { IfOk result (λ lets. lets ≡ claim_lets objects.now (option_map (λ c. c.now) claim.entry)) }
{
    match claim {
        Some(claim) => {
            let key = class_key(alloc, class_of_claim(claim))?;
            class_lets(alloc, class_at(objects, &key))
        }
        None => Ok(false),
    }
}

fn is_bound_claim(phase: ClaimPhase) -> bool
    ensures { result ≡ is_bound_claim phase }
{
    match phase {
        ClaimPhase::Bound => true,
        _ => false,
    }
}

fn has_bytes(got: &Option<Amount>, bytes: u64) -> bool
    ensures { result ≡ has_bytes got.now bytes }
{
    match got {
        Some(amount) => amount.bytes == bytes,
        None => false,
    }
}

/// Whether the claim is bound to the volume, and its status shows all that the volume has.
fn holds_volume(claim: &ClaimData, volume: &VolumeData) -> bool
    ensures { result ≡ holds_volume claim.now volume.now }
{
    is_bound_claim(claim.phase)
        && is_completed(claim)
        && carries(volume, claim)
        && has_bytes(&claim.got, volume.amount.bytes)
}

/// Why a claim that holds the volume may not grow.
fn why_bound(grows: bool, volume: &VolumeData) -> Option<Why>
    ensures { result ≡ why_bound grows volume.now }
{
    if volume.meta.annotations.get(PROVISIONED_BY).is_none() {
        return Some(Why::Static);
    }
    if !grows {
        return Some(Why::Class);
    }
    None
}

/// Why a claim may not grow, by the volume that it names.
fn why_volume(grows: bool, claim: &ClaimData, volume: Option<&VolumeData>) -> Option<Why>
    ensures { result ≡ why_volume grows claim.now (option_map (λ v. v.now) volume.entry) }
{
    match volume {
        None => Some(Why::NotBound),
        Some(volume) => {
            if holds_volume(claim, volume) {
                why_bound(grows, volume)
            } else {
                Some(Why::NotBound)
            }
        }
    }
}

/// Why a claim may not grow, whatever it asks for.
fn why_claim(
    alloc: Global,
    grows: bool,
    objects: &[Object],
    claim: Option<&ClaimData>,
) -> Result<Option<Why>, OutOfMemory>
    requires { AreRows objects.now }
    ensures { IfOk result (λ why. why ≡ why_claim grows objects.now (option_map (λ c. c.now) claim.entry)) }
{
    match claim {
        None => Ok(Some(Why::Absent)),
        Some(claim) => {
            if is_deleting(&claim.meta) {
                return Ok(Some(Why::Deleting));
            }
            let key = volume_key(alloc, &claim.volume_name)?;
            Ok(why_volume(grows, claim, volume_at(objects, &key)))
        }
    }
}

/// What the quota of a namespace has against so many bytes more.
#[tactic(auto, using(crate::proofs::Bytes::bytes_alone))]
fn over_by(quotas: &Quotas, namespace: &Text, more: u64) -> Option<GrowError>
    ensures { result ≡ over_by quotas.now namespace.now more }
{
    let more = Used {
        bytes: more as u128,
        claims: 0,
    };
    match quotas.allows(namespace, more) {
        Err(OverQuota::OverBytes { used, limit }) => Some(GrowError::OverBytes { used, limit }),
        Err(OverQuota::OverClaims { used: _, limit: _ }) => None,
        Ok(()) => None,
    }
}

/// What stands against a claim that may grow, by what it asks for already.
fn fault_by(quotas: &Quotas, key: &Key, bytes: u64, asked: u64) -> Option<GrowError>
    ensures { result ≡ fault_by quotas.now key.now bytes asked }
{
    if bytes < asked {
        return Some(GrowError::NotGrowable(Why::Smaller));
    }
    over_by(quotas, &key.namespace, bytes - asked)
}

/// What a claim asks for: what it grew to, or else its request.
pub(crate) fn asked_by(row: Option<&SizeRow>, claim: &ClaimData) -> u64
    ensures { result ≡ asked_by (option_map (λ x. x.now) row.entry) claim.now }
{
    match row {
        Some(row) => row.asked,
        None => claim.amount.bytes,
    }
}

/// What the claim of the key asks for; nothing where there is none.
fn asked_now(rows: &[SizeRow], key: &Key, claim: Option<&ClaimData>) -> u64
    requires { AreSizes rows.now }
    ensures { result ≡ asked_now rows.now key.now (option_map (λ c. c.now) claim.entry) }
{
    match claim {
        Some(claim) => asked_by(row_of_key(rows, key), claim),
        None => 0,
    }
}

/// Why the claim of the key does not grow to so many bytes, the first reason that applies.
pub(crate) fn fault_of(
    alloc: Global,
    quotas: &Quotas,
    rows: &[SizeRow],
    objects: &[Object],
    key: &Key,
    bytes: u64,
) -> Result<Option<GrowError>, OutOfMemory>
    requires rows { AreRows objects.now }
    requires sizes { AreSizes rows.now }
    ensures { IfOk result (λ fault. fault ≡ grow_fault quotas.now rows.now objects.now key.now bytes) }
{
    let claim = claim_at(objects, key);
    let grows = claim_lets(alloc, objects, claim)?;
    if let Some(why) = why_claim(alloc, grows, objects, claim)? {
        return Ok(Some(GrowError::NotGrowable(why)));
    }
    Ok(fault_by(quotas, key, bytes, asked_now(rows, key, claim)))
}

/// The row that the first growth of a claim makes.
fn first_row(
    alloc: Global,
    key: &Key,
    uid: Uid,
    got: &Amount,
    volume: &VolumeData,
    bytes: u64,
) -> Result<SizeRow, OutOfMemory>
    ensures { IfOk result (λ x. x ≡ first_row key.now uid got.now volume.now bytes) }
{
    Ok(SizeRow {
        key: key.copy(alloc)?,
        claim: uid,
        asked: bytes,
        given: got.bytes,
        volume: volume.amount.bytes,
        stored: volume.amount.bytes,
        first: volume.amount.bytes,
    })
}

/// Puts the row of a claim that grows, where it has an id and a capacity, and its volume is there.
fn row_from(
    alloc: Global,
    rows: &mut Vec<SizeRow>,
    key: &Key,
    bytes: u64,
    claim: &ClaimData,
    volume: Option<&VolumeData>,
) -> Result<(), OutOfMemory>
    requires { AreSizes rows.old.items }
    ensures ok { OnOk result (rows.new.items
        ≡ row_from rows.old.items key.now bytes claim.now.meta.uid claim.now.got (option_map (λ v. v.now) volume.entry)) }
    ensures err { OnErr result (rows.new.items ≡ rows.old.items) }
{
    let Some(uid) = claim.meta.uid else {
        return Ok(());
    };
    let Some(got) = &claim.got else {
        return Ok(());
    };
    let Some(volume) = volume else {
        return Ok(());
    };
    let first = first_row(alloc, key, uid, got, volume, bytes)?;
    put_grown(rows, first)
}

/// The row of the claim of the key asks for so many bytes.
pub(crate) fn grow_row(
    alloc: Global,
    rows: &mut Vec<SizeRow>,
    objects: &[Object],
    key: &Key,
    bytes: u64,
) -> Result<(), OutOfMemory>
    requires rows { AreRows objects.now }
    requires sizes { AreSizes rows.old.items }
    ensures ok { OnOk result (rows.new.items ≡ sizes_grown rows.old.items objects.now key.now bytes (claim_in (row_at key.now objects.now))) }
    ensures err { OnErr result (rows.new.items ≡ rows.old.items) }
{
    match claim_at(objects, key) {
        Some(claim) => {
            let volume = volume_key(alloc, &claim.volume_name)?;
            row_from(alloc, rows, key, bytes, claim, volume_at(objects, &volume))
        }
        None => Ok(()),
    }
}
