//! The volume that is made for a claim, over the data that were given for it.

ghost use Rattle.std.specs.Prelude.{◌≡◌, [], IfOk};
ghost use Rattle.plain_data.specs.Pairs.{put_pair};
ghost use Rattle.kube_objects.specs.Bindings.{bound_by_controller, provisioned_by, yes};
ghost use Rattle.binder_model.specs.Provisioning.{data_name, provisioned_meta, provisioned_volume, terms_for};
ghost use Rattle.reclaim_ops.specs.Steps.Volumes.{csi_source, label_expr};

use kube_types::bindings::{BOUND_BY_CONTROLLER, PROVISIONED_BY, YES, ref_to};
use kube_types::copies::{OutOfMemory, Plain};
use kube_types::items::Items;
use kube_types::objects::{Claim, Class, DataId, Expr, Meta, NodeTerms, Source, Volume};
use kube_types::pairs::Pairs;
use kube_types::parts::{Op, SourceKind, VolumePhase};
use kube_types::text::{Names, Text};
use kube_types::uid::Uid;
use std::alloc::Global;

/// The name of the data of the claim with this UID, and of the volume over them.
pub fn data_name(alloc: Global, uid: Uid) -> Result<Text, OutOfMemory>
    ensures { IfOk result (λ name. name ≡ data_name uid) }
{
    let mut name = Text::new(alloc, "pvc-")?;
    let text = uid.text(alloc)?;
    name.push_str(text.as_str())?;
    Ok(name)
}

/// The volume that is made for the claim, over these data.
#[tactic(auto, unfolding(binder_model::specs::Provisioning::provisioned_volume))]
pub(crate) fn volume_over(
    alloc: Global,
    claim: &Claim,
    uid: Uid,
    class: &Class,
    id: &DataId,
    topology: &Option<(Text, Text)>,
) -> Result<Volume, OutOfMemory>
    ensures { IfOk result (λ volume. volume ≡ provisioned_volume claim.now uid class.now id.now topology.now) }
{
    Ok(Volume {
        meta: meta_for(alloc, uid, &class.provisioner)?,
        amount: claim.amount.copy(alloc)?,
        modes: claim.modes,
        block: claim.block,
        class: class.meta.name.copy(alloc)?,
        policy: class.policy,
        claim_ref: Some(ref_to(alloc, claim)?),
        source: source_of(alloc, id)?,
        terms: terms_for(alloc, topology)?,
        extra: Text::new(alloc, "")?,
        phase: VolumePhase::Pending,
    })
}

fn meta_for(alloc: Global, uid: Uid, provisioner: &Text) -> Result<Meta, OutOfMemory>
    ensures { IfOk result (λ meta. meta ≡ provisioned_meta uid provisioner.now) }
{
    Ok(Meta {
        namespace: Text::new(alloc, "")?,
        name: data_name(alloc, uid)?,
        uid: None,
        version: 0,
        created: Text::new(alloc, "")?,
        deleted: None,
        labels: Pairs::new(alloc),
        annotations: annotations_for(alloc, provisioner)?,
        finalizers: Names::new(alloc),
    })
}

/// The marks of the controller and of the provisioner.
fn annotations_for(alloc: Global, provisioner: &Text) -> Result<Pairs, OutOfMemory>
    ensures { IfOk result (λ pairs. pairs ≡ put_pair bound_by_controller yes (put_pair provisioned_by provisioner.now [])) }
{
    let provisioned_by = Text::new(alloc, PROVISIONED_BY)?;
    let bound_by_controller = Text::new(alloc, BOUND_BY_CONTROLLER)?;
    let yes = Text::new(alloc, YES)?;
    let mut pairs = Pairs::new(alloc);
    pairs.set(&provisioned_by, provisioner)?;
    pairs.set(&bound_by_controller, &yes)?;
    Ok(pairs)
}

fn source_of(alloc: Global, id: &DataId) -> Result<Source, OutOfMemory>
    ensures { IfOk result (λ source. source ≡ csi_source id.now) }
{
    Ok(Source {
        kind: SourceKind::Csi,
        first: id.driver.copy(alloc)?,
        second: id.id.copy(alloc)?,
    })
}

/// The nodes on which the volume can be used, where its pool has a place.
fn terms_for(
    alloc: Global,
    topology: &Option<(Text, Text)>,
) -> Result<Option<NodeTerms>, OutOfMemory>
    ensures { IfOk result (λ terms. terms ≡ terms_for topology.now) }
{
    match topology {
        None => Ok(None),
        Some((label, value)) => {
            let mut term = Items::new(alloc);
            term.push(label_expr(alloc, label, value)?)?;
            let mut terms = Items::new(alloc);
            terms.push(term)?;
            Ok(Some(NodeTerms { terms }))
        }
    }
}

/// The expression that asks for the label with this value.
fn label_expr(alloc: Global, label: &Text, value: &Text) -> Result<Expr, OutOfMemory>
    ensures { IfOk result (λ expr. expr ≡ label_expr label.now value.now) }
{
    let mut values = Names::new(alloc);
    values.push(value)?;
    Ok(Expr {
        key: label.copy(alloc)?,
        op: Op::In,
        values,
    })
}
