//! What objects are made of.

ghost use Rattle.std.specs.Prelude.{◌≡◌, ◌∷◌, ◌++◌, [], IfOk, OnOk, true};
ghost use Rattle.plain_data.specs.Pairs.{put_pair};
ghost use Rattle.kube_objects.specs.Bindings.{is_deleting};
ghost use Rattle.sample_objects.specs.Samples.{IsStamped, folder, reference_to, zone_labels};

use crate::keys::NAMESPACE;
use kube_types::copies::OutOfMemory;
use kube_types::objects::{Amount, DataId, Meta, Ref, Source, Version};
use kube_types::pairs::Pairs;
use kube_types::parts::{Modes, SourceKind};
use kube_types::text::{Names, Text};
use kube_types::uid::Uid;
use std::alloc::Global;

/// The class of all volumes, and of claims that want one.
pub const CLASS: &str = "fast";

/// Who provisions for the class, and drives the data.
pub const PROVISIONER: &str = "csi";

/// The members that are kept as they were read: none.
pub const NO_MEMBERS: &str = "{}";

const CREATED: &str = "2026-01-01T08:00:00Z";

const DELETED: &str = "2026-01-01T09:00:00Z";

pub const NO_MODES: Modes = Modes {
    rwo: false,
    rox: false,
    rwx: false,
    rwop: false,
};

pub const ONE_WRITER: Modes = Modes {
    rwo: true,
    rox: false,
    rwx: false,
    rwop: false,
};

/// What every object has. One of version 0 was never stored, and has no creation.
pub fn meta(
    alloc: Global,
    namespace: &str,
    name: &str,
    uid: Option<Uid>,
    version: Version,
) -> Result<Meta, OutOfMemory>
    ensures { IfOk result (λ m. IsStamped name.now uid version m) }
{
    let created = if version == 0 { "" } else { CREATED };
    Ok(Meta {
        namespace: Text::new(alloc, namespace)?,
        name: Text::new(alloc, name)?,
        uid,
        version,
        created: Text::new(alloc, created)?,
        deleted: None,
        labels: Pairs::new(alloc),
        annotations: Pairs::new(alloc),
        finalizers: Names::new(alloc),
    })
}

/// Gives an annotation its value.
pub fn annotate(alloc: Global, meta: &mut Meta, name: &str, value: &str) -> Result<(), OutOfMemory>
    ensures { OnOk result (meta.new ≡ record meta.old { annotations = put_pair name.now value.now meta.old.annotations }) }
{
    let name = Text::new(alloc, name)?;
    let value = Text::new(alloc, value)?;
    meta.annotations.set(&name, &value)
}

/// Puts a finalizer behind the others.
pub fn guard(alloc: Global, meta: &mut Meta, name: &str) -> Result<(), OutOfMemory>
    ensures { OnOk result (meta.new ≡ record meta.old { finalizers = meta.old.finalizers ++ name.now ∷ [] }) }
{
    let name = Text::new(alloc, name)?;
    meta.finalizers.push(&name)
}

/// Marks the object as being deleted.
pub fn mark_deleted(alloc: Global, meta: &mut Meta) -> Result<(), OutOfMemory>
    ensures { OnOk result (is_deleting meta.new ≡ true) }
{
    meta.deleted = Some(Text::new(alloc, DELETED)?);
    Ok(())
}

/// Five gibibytes, what each volume has and each claim asks for.
pub const BYTES: u64 = 5_368_709_120;

pub fn amount(alloc: Global) -> Result<Amount, OutOfMemory>
    ensures { IfOk result (λ amount. amount.bytes ≡ 5368709120) }
{
    Ok(Amount {
        text: Text::new(alloc, "5Gi")?,
        bytes: BYTES,
    })
}

/// A folder of a file server.
pub fn folder(alloc: Global) -> Result<Source, OutOfMemory>
    ensures { IfOk result (λ source. source ≡ folder) }
{
    Ok(Source {
        kind: SourceKind::Nfs,
        first: Text::new(alloc, "files")?,
        second: Text::new(alloc, "/a")?,
    })
}

/// The data of this id.
pub fn data(alloc: Global, id: &str) -> Result<DataId, OutOfMemory>
    ensures { IfOk result (λ d. d.id ≡ id.now) }
{
    Ok(DataId {
        driver: Text::new(alloc, PROVISIONER)?,
        id: Text::new(alloc, id)?,
    })
}

/// The source of a volume over the data of this id.
pub fn data_source(alloc: Global, id: &str) -> Result<Source, OutOfMemory>
    ensures { IfOk result (λ source. source.second ≡ id.now) }
{
    Ok(Source {
        kind: SourceKind::Csi,
        first: Text::new(alloc, PROVISIONER)?,
        second: Text::new(alloc, id)?,
    })
}

/// A reference to the claim of this name, if any.
pub fn reference(alloc: Global, claim: &str, uid: Option<Uid>) -> Result<Option<Ref>, OutOfMemory>
    ensures { IfOk result (λ reference. reference ≡ reference_to claim.now uid) }
{
    if claim.is_empty() {
        return Ok(None);
    }
    Ok(Some(Ref {
        namespace: Text::new(alloc, NAMESPACE)?,
        name: Text::new(alloc, claim)?,
        uid,
    }))
}

/// The label of the zone, if any.
pub fn zone_labels(alloc: Global, zone: &str) -> Result<Pairs, OutOfMemory>
    ensures { IfOk result (λ labels. labels ≡ zone_labels zone.now) }
{
    let mut labels = Pairs::new(alloc);
    if !zone.is_empty() {
        labels.set(&Text::new(alloc, "zone")?, &Text::new(alloc, zone)?)?;
    }
    Ok(labels)
}
