//! Where the provisioner may create a volume.

ghost use Rattle.std.specs.Prelude.{◌≡◌, ◌↔◌, IsTrue, [], ◌∷◌, reverse};
ghost use Rattle.kube_parts.specs.declared.parts.Op.TheVariants as ops;
ghost use Rattle.kube_parts.specs.declared.parts.VolumePhase.TheVariants as phases;
ghost use Rattle.binder_model.specs.At.{HasUid};
ghost use Rattle.binder_model.specs.Provisioning.{data_name, provisioned_meta, terms_for};
ghost use Rattle.binder_model.specs.Told.{After, ToldClaim};
ghost use Rattle.licence_writes.specs.OpsRows.Providing.{Creates, TellsShown, made_volume, source_of};

use call_types::entry::Entry;
use call_types::reply::Reply;
use call_types::request::Request;
use kube_types::bindings::{BOUND_BY_CONTROLLER, PROVISIONED_BY, YES};
use kube_types::objects::{Claim, Class, DataId, Expr, Meta, NodeTerms, Source, Volume};
use kube_types::parts::{Op, SourceKind, VolumePhase};
use kube_types::uid::Uid;
use licence_rows::ids::is_data_name;
use licence_rows::parts::is_known;
use licence_scans::changes::is_ref_to;
use licence_scans::entries::{EntryTest, after};
use licence_scans::rows::{ClaimTest, OfClaims};
use licence_scans::walks::is_put_twice;
use plain_data::copies::Plain;
use plain_data::items::Items;
use plain_data::text::Text;

/// Whether the metadata are those of the volume that is made for the claim of the UID.
fn is_made_meta(uid: Uid, provisioner: &Text, meta: &Meta) -> bool
    ensures { IsTrue result ↔ (meta.now ≡ provisioned_meta uid provisioner.now) }
{
    if !meta.namespace.as_str().is_empty() {
        return false;
    }
    if !is_data_name(&meta.name, uid) {
        return false;
    }
    if !meta.uid.is_none() {
        return false;
    }
    if meta.version != 0 {
        return false;
    }
    if !meta.created.as_str().is_empty() {
        return false;
    }
    if !meta.deleted.is_none() {
        return false;
    }
    if !meta.labels.as_slice().is_empty() {
        return false;
    }
    if !meta.finalizers.as_slice().is_empty() {
        return false;
    }
    is_put_twice(
        BOUND_BY_CONTROLLER,
        YES,
        PROVISIONED_BY,
        provisioner.as_str(),
        &[],
        meta.annotations.as_slice(),
    )
}

fn is_pending(phase: VolumePhase) -> bool
    ensures { IsTrue result ↔ (phase ≡ phases.Pending) }
{
    match phase {
        VolumePhase::Pending => true,
        _ => false,
    }
}

/// Whether the volume is the one that is made for the claim, over the data that it shows.
#[tactic(auto, unfolding(binder_model::specs::Provisioning::provisioned_volume))]
fn is_made_volume(claim: &Claim, uid: Uid, class: &Class, new: &Volume) -> bool
    ensures { IsTrue result ↔ (new.now ≡ made_volume claim.now uid class.now new.now) }
{
    if !new.amount.same(&claim.amount) {
        return false;
    }
    if !new.modes.same(&claim.modes) {
        return false;
    }
    if new.block != claim.block {
        return false;
    }
    if !new.class.same(&class.meta.name) {
        return false;
    }
    if !new.policy.same(&class.policy) {
        return false;
    }
    if !is_ref_to(claim, &new.claim_ref) {
        return false;
    }
    if !new.extra.as_str().is_empty() {
        return false;
    }
    if !is_pending(new.phase) {
        return false;
    }
    is_made_meta(uid, &class.provisioner, &new.meta)
}

/// The claim has the UID.
#[derive(Drop)]
struct WithUid {
    uid: Uid,
}

impl ClaimTest for WithUid {
    ghost allows = { λ t c. HasUid t.uid c };

    fn test(&self, claim: &Claim) -> bool {
        is_known(&claim.meta, self.uid)
    }
}

/// Whether the source is the data of a driver.
fn is_source_of(source: &Source, id: &DataId) -> bool
    ensures { IsTrue result ↔ (source.now ≡ source_of id.now) }
{
    if !source.kind.same(&SourceKind::Csi) {
        return false;
    }
    if !source.first.same(&id.driver) {
        return false;
    }
    source.second.same(&id.id)
}

/// Whether the expression asks for the label with this value.
fn is_expr_for(expr: &Expr, pair: &(Text, Text)) -> bool
    ensures { IsTrue result ↔ (expr.now ≡ (record { key = pair.now.0; op = ops.In; values = pair.now.1 ∷ [] })) }
{
    if !expr.key.same(&pair.0) {
        return false;
    }
    if !expr.op.same(&Op::In) {
        return false;
    }
    is_one(expr.values.as_slice(), &pair.1)
}

fn is_one(names: &[Text], name: &Text) -> bool
    ensures { IsTrue result ↔ (names.now ≡ name.now ∷ []) }
{
    if names.len() != 1 {
        return false;
    }
    names[0].same(name)
}

fn is_only_expr(exprs: &[Expr], pair: &(Text, Text)) -> bool
    ensures { IsTrue result ↔ (exprs.now ≡ (record { key = pair.now.0; op = ops.In; values = pair.now.1 ∷ [] }) ∷ []) }
{
    if exprs.len() != 1 {
        return false;
    }
    is_expr_for(&exprs[0], pair)
}

fn is_only_term(terms: &[Items<Expr>], pair: &(Text, Text)) -> bool
    ensures { IsTrue result ↔ (terms.now ≡ ((record { key = pair.now.0; op = ops.In; values = pair.now.1 ∷ [] }) ∷ []) ∷ []) }
{
    if terms.len() != 1 {
        return false;
    }
    is_only_expr(terms[0].as_slice(), pair)
}

/// Whether the terms ask for a node of this place, or where there is none are absent.
fn are_terms_for(terms: &Option<NodeTerms>, topology: &Option<(Text, Text)>) -> bool
    ensures { IsTrue result ↔ (terms.now ≡ terms_for topology.now) }
{
    match topology {
        None => terms.is_none(),
        Some(pair) => match terms {
            None => false,
            Some(terms) => is_only_term(terms.terms.as_slice(), pair),
        },
    }
}

/// A Provision for the claim of the UID gave the data and the place that the volume shows.
#[derive(Drop)]
struct ShownData<'a> {
    uid: Uid,
    new: &'a Volume,
}

impl<'a> EntryTest for ShownData<'a> {
    ghost allows = { λ t e. TellsShown (data_name t.uid) t.new.now e };

    fn test(&self, entry: &Entry) -> bool {
        if !entry.told {
            return false;
        }
        match &entry.request {
            Request::Provision {
                name,
                provisioner: _,
                bytes: _,
                labels: _,
            } => match &entry.reply {
                Reply::Provisioned { id, topology } => {
                    if !is_data_name(name, self.uid) {
                        return false;
                    }
                    if !is_source_of(&self.new.source, id) {
                        return false;
                    }
                    are_terms_for(&self.new.terms, topology)
                }
                _ => false,
            },
            _ => false,
        }
    }
}

/// Whether the data that the volume shows were given for the claim of the UID after it was told.
fn was_given(mine: &[Entry], uid: Uid, new: &Volume) -> bool
    ensures { IsTrue result ↔ After (ToldClaim (HasUid uid)) (TellsShown (data_name uid) new.now) (reverse mine.now) }
{
    let test = WithUid { uid };
    let told = OfClaims { test: &test };
    let shown = ShownData { uid, new };
    after(&told, &shown, mine)
}

/// Whether the volume is the one that is made for the claim, over data that were given for it.
pub fn creates(mine: &[Entry], claim: &Claim, uid: Uid, class: &Class, new: &Volume) -> bool
    ensures { IsTrue result ↔ Creates (reverse mine.now) claim.now uid class.now new.now }
{
    if !is_known(&claim.meta, uid) {
        return false;
    }
    if !is_made_volume(claim, uid, class, new) {
        return false;
    }
    was_given(mine, uid, new)
}
