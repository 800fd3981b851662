//! The objects of the five kinds from values: each member in its turn, the first refusal answered.

ghost use Rattle.std.specs.Prelude.{◌≡◌, false, option_map};
ghost use Rattle.serde_json.specs.View.{view};
ghost use Rattle.serde_json.specs.Written.{has_float};
ghost use Rattle.object_text.specs.Answers.{Gives};
ghost use Rattle.object_text.specs.KindReaders.{volume_shape, volume_ties, volume_spec_of, volume_status_of, volume_with, volume_of, claim_shape, claim_ties, claim_status_of, claim_of, class_of, node_of, pod_of};

use crate::errors::{Member, ObjectError};
use crate::extra::{Listed, extra_at};
use crate::member_readers::{needed_text, needed_way, object_at, optional_text, pairs_at, text_or};
use crate::meta_readers::meta_of;
use crate::part_readers::{
    block_at, claim_phase_at, claim_ref_at, claims_at, class_policy_at, delayed_at, modes_at,
    optional_modes, optional_quantity, policy_at, quantity_at, selector_at, source_at, terms_at,
    volume_phase_at,
};
use kube_types::objects::{
    Amount, Claim, Class, Meta, Node, NodeTerms, Pod, Ref, Selector, Source, Volume,
};
use kube_types::parts::{ClaimPhase, Modes, Policy, VolumePhase};
use kube_types::text::Text;
use serde_json::Value;
use std::alloc::Global;

// ---- volumes

/// What a volume offers.
pub struct VolumeShape {
    pub amount: Amount,
    pub modes: Modes,
    pub block: bool,
    pub class: Text,
    pub policy: Policy,
}

impl Drop for VolumeShape {
    fn drop(self) {
        let VolumeShape {
            amount,
            modes: _,
            block: _,
            class,
            policy: _,
        } = self;
        drop(amount);
        drop(class);
    }
}

impl VolumeShape {
    fn into_parts(self) -> (Amount, Modes, bool, Text, Policy)
        ensures { result ≡ (self.amount, self.modes, self.block, self.class, self.policy) }
    {
        let VolumeShape {
            amount,
            modes,
            block,
            class,
            policy,
        } = self;
        (amount, modes, block, class, policy)
    }
}

/// What a volume is tied to.
pub struct VolumeTies {
    pub claim_ref: Option<Ref>,
    pub source: Source,
    pub terms: Option<NodeTerms>,
}

impl Drop for VolumeTies {
    fn drop(self) {
        let VolumeTies {
            claim_ref,
            source,
            terms,
        } = self;
        drop(claim_ref);
        drop(source);
        drop(terms);
    }
}

impl VolumeTies {
    fn into_parts(self) -> (Option<Ref>, Source, Option<NodeTerms>)
        ensures { result ≡ (self.claim_ref, self.source, self.terms) }
    {
        let VolumeTies {
            claim_ref,
            source,
            terms,
        } = self;
        (claim_ref, source, terms)
    }
}

#[tactic(auto, unfolding(crate::specs::KindReaders::volume_shape))]
fn volume_shape(alloc: Global, spec: Option<&Value>) -> Result<VolumeShape, ObjectError>
    ensures { Gives result (volume_shape (option_map (λ v. view v.now) spec.entry)) }
{
    let capacity = needed_way(spec, Member::Capacity)?;
    let amount = quantity_at(alloc, capacity, Member::Storage)?;
    let modes = modes_at(spec)?;
    let block = block_at(spec)?;
    let class = text_or(alloc, spec, Member::StorageClassName, "")?;
    let policy = policy_at(spec)?;
    Ok(VolumeShape {
        amount,
        modes,
        block,
        class,
        policy,
    })
}

#[tactic(auto, unfolding(crate::specs::KindReaders::volume_ties))]
fn volume_ties(alloc: Global, spec: Option<&Value>) -> Result<VolumeTies, ObjectError>
    ensures { Gives result (volume_ties (option_map (λ v. view v.now) spec.entry)) }
{
    let claim_ref = claim_ref_at(alloc, spec)?;
    let source = source_at(alloc, spec)?;
    let terms = terms_at(alloc, spec)?;
    Ok(VolumeTies {
        claim_ref,
        source,
        terms,
    })
}

/// The spec of a volume.
pub struct VolumeSpec {
    pub shape: VolumeShape,
    pub ties: VolumeTies,
    pub extra: Text,
}

impl Drop for VolumeSpec {
    fn drop(self) {
        let VolumeSpec { shape, ties, extra } = self;
        drop(shape);
        drop(ties);
        drop(extra);
    }
}

impl VolumeSpec {
    /// The volume with this metadata and phase.
    fn into_volume(self, meta: Meta, phase: VolumePhase) -> Volume
        ensures { result ≡ volume_with meta self phase }
    {
        let VolumeSpec { shape, ties, extra } = self;
        let (amount, modes, block, class, policy) = shape.into_parts();
        let (claim_ref, source, terms) = ties.into_parts();
        Volume {
            meta,
            amount,
            modes,
            block,
            class,
            policy,
            claim_ref,
            source,
            terms,
            extra,
            phase,
        }
    }
}

#[tactic(auto, unfolding(crate::specs::KindReaders::volume_spec_of))]
fn volume_spec_of(alloc: Global, value: &Value) -> Result<VolumeSpec, ObjectError>
    requires { has_float (view value.now) ≡ false }
    ensures { Gives result (volume_spec_of (view value.now)) }
{
    let spec = needed_way(Some(value), Member::Spec)?;
    let shape = volume_shape(alloc, spec)?;
    let ties = volume_ties(alloc, spec)?;
    let extra = extra_at(alloc, Listed::Volume(ties.source.kind), spec)?;
    Ok(VolumeSpec { shape, ties, extra })
}

#[tactic(auto, unfolding(crate::specs::KindReaders::volume_status_of))]
fn volume_status_of(value: &Value) -> Result<VolumePhase, ObjectError>
    ensures { Gives result (volume_status_of (view value.now)) }
{
    let status = object_at(Some(value), Member::Status)?;
    volume_phase_at(status)
}

/// The volume of a value.
#[tactic(auto, using(crate::proofs::Refusals::phase_fails), unfolding(crate::specs::KindReaders::volume_of))]
pub fn volume_of(alloc: Global, value: &Value) -> Result<Volume, ObjectError>
    requires { has_float (view value.now) ≡ false }
    ensures { Gives result (volume_of (view value.now)) }
{
    let meta = meta_of(alloc, false, value)?;
    let spec = volume_spec_of(alloc, value)?;
    match volume_status_of(value) {
        Ok(phase) => Ok(spec.into_volume(meta, phase)),
        Err(e) => Err(e),
    }
}

// ---- claims

/// What a claim asks for.
#[derive(Drop)]
pub struct ClaimShape {
    pub modes: Modes,
    pub block: bool,
    pub amount: Amount,
}

/// What ties a claim to volumes.
pub struct ClaimTies {
    pub class: Option<Text>,
    pub selector: Option<Selector>,
    pub volume_name: Text,
}

impl Drop for ClaimTies {
    fn drop(self) {
        let ClaimTies {
            class,
            selector,
            volume_name,
        } = self;
        drop(class);
        drop(selector);
        drop(volume_name);
    }
}

impl ClaimTies {
    fn into_parts(self) -> (Option<Text>, Option<Selector>, Text)
        ensures { result ≡ (self.class, self.selector, self.volume_name) }
    {
        let ClaimTies {
            class,
            selector,
            volume_name,
        } = self;
        (class, selector, volume_name)
    }
}

/// The status of a claim.
pub struct ClaimStatus {
    pub phase: ClaimPhase,
    pub got_modes: Modes,
    pub got: Option<Amount>,
}

impl Drop for ClaimStatus {
    fn drop(self) {
        let ClaimStatus {
            phase: _,
            got_modes: _,
            got,
        } = self;
        drop(got);
    }
}

impl ClaimStatus {
    fn into_parts(self) -> (ClaimPhase, Modes, Option<Amount>)
        ensures { result ≡ (self.phase, self.got_modes, self.got) }
    {
        let ClaimStatus {
            phase,
            got_modes,
            got,
        } = self;
        (phase, got_modes, got)
    }
}

#[tactic(auto, unfolding(crate::specs::KindReaders::claim_shape))]
fn claim_shape(alloc: Global, spec: Option<&Value>) -> Result<ClaimShape, ObjectError>
    ensures { Gives result (claim_shape (option_map (λ v. view v.now) spec.entry)) }
{
    let modes = modes_at(spec)?;
    let block = block_at(spec)?;
    let resources = needed_way(spec, Member::Resources)?;
    let requests = needed_way(resources, Member::Requests)?;
    let amount = quantity_at(alloc, requests, Member::Storage)?;
    Ok(ClaimShape {
        modes,
        block,
        amount,
    })
}

#[tactic(auto, unfolding(crate::specs::KindReaders::claim_ties))]
fn claim_ties(alloc: Global, spec: Option<&Value>) -> Result<ClaimTies, ObjectError>
    ensures { Gives result (claim_ties (option_map (λ v. view v.now) spec.entry)) }
{
    let class = optional_text(alloc, spec, Member::StorageClassName)?;
    let selector = selector_at(alloc, spec)?;
    let volume_name = text_or(alloc, spec, Member::VolumeName, "")?;
    Ok(ClaimTies {
        class,
        selector,
        volume_name,
    })
}

#[tactic(auto, unfolding(crate::specs::KindReaders::claim_status_of))]
fn claim_status_of(alloc: Global, value: &Value) -> Result<ClaimStatus, ObjectError>
    ensures { Gives result (claim_status_of (view value.now)) }
{
    let status = object_at(Some(value), Member::Status)?;
    let phase = claim_phase_at(status)?;
    let got_modes = optional_modes(status)?;
    let capacity = object_at(status, Member::Capacity)?;
    let got = optional_quantity(alloc, capacity, Member::Storage)?;
    Ok(ClaimStatus {
        phase,
        got_modes,
        got,
    })
}

/// The claim of a value.
#[tactic(auto, unfolding(crate::specs::KindReaders::claim_of))]
pub fn claim_of(alloc: Global, value: &Value) -> Result<Claim, ObjectError>
    requires { has_float (view value.now) ≡ false }
    ensures { Gives result (claim_of (view value.now)) }
{
    let meta = meta_of(alloc, true, value)?;
    let spec = needed_way(Some(value), Member::Spec)?;
    let shape = claim_shape(alloc, spec)?;
    let ties = claim_ties(alloc, spec)?;
    let status = claim_status_of(alloc, value)?;
    let extra = extra_at(alloc, Listed::Claim, spec)?;
    let ClaimShape {
        modes,
        block,
        amount,
    } = shape;
    let (class, selector, volume_name) = ties.into_parts();
    let (phase, got_modes, got) = status.into_parts();
    Ok(Claim {
        meta,
        modes,
        amount,
        block,
        class,
        selector,
        volume_name,
        extra,
        phase,
        got_modes,
        got,
    })
}

// ---- classes

/// The class of a value.
#[tactic(auto, unfolding(crate::specs::KindReaders::class_of))]
pub fn class_of(alloc: Global, value: &Value) -> Result<Class, ObjectError>
    requires { has_float (view value.now) ≡ false }
    ensures { Gives result (class_of (view value.now)) }
{
    let meta = meta_of(alloc, false, value)?;
    let provisioner = needed_text(alloc, Some(value), Member::Provisioner)?;
    let policy = class_policy_at(Some(value))?;
    let delayed = delayed_at(Some(value))?;
    let parameters = pairs_at(alloc, Some(value), Member::Parameters)?;
    Ok(Class {
        meta,
        provisioner,
        policy,
        delayed,
        parameters,
        extra: extra_at(alloc, Listed::Class, Some(value))?,
    })
}

// ---- nodes and pods

/// The node of a value.
#[tactic(auto, unfolding(crate::specs::KindReaders::node_of))]
pub fn node_of(alloc: Global, value: &Value) -> Result<Node, ObjectError>
    requires { has_float (view value.now) ≡ false }
    ensures { Gives result (node_of (view value.now)) }
{
    let meta = meta_of(alloc, false, value)?;
    let spec = object_at(Some(value), Member::Spec)?;
    Ok(Node {
        meta,
        extra: extra_at(alloc, Listed::Node, spec)?,
    })
}

/// The pod of a value.
#[tactic(auto, unfolding(crate::specs::KindReaders::pod_of))]
pub fn pod_of(alloc: Global, value: &Value) -> Result<Pod, ObjectError>
    requires { has_float (view value.now) ≡ false }
    ensures { Gives result (pod_of (view value.now)) }
{
    let meta = meta_of(alloc, true, value)?;
    let spec = object_at(Some(value), Member::Spec)?;
    let node = text_or(alloc, spec, Member::NodeName, "")?;
    let claims = claims_at(alloc, spec)?;
    Ok(Pod {
        meta,
        claims,
        node,
        extra: extra_at(alloc, Listed::Pod, spec)?,
    })
}
