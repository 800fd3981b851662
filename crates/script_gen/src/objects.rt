//! The objects of a generated script.

ghost use Rattle.std.specs.Prelude.{◌≡◌, ◌<◌, IfOk};
ghost use Rattle.script_gen.specs.Objects.{numbered, pool, named_meta, gibibytes, writers, class_named, zoned_node, nfs_source, volumes_of, volume_of, sized_claim, pod_with, claim_key};

use call_types::setup::Pool;
use itoa::Buffer;
use kube_types::copies::OutOfMemory;
use kube_types::key::Key;
use kube_types::objects::{Amount, Claim, Class, Meta, Node, Pod, Source, Volume};
use kube_types::pairs::Pairs;
use kube_types::parts::{ClaimPhase, Kind, Modes, Policy, SourceKind, VolumePhase};
use kube_types::text::{Names, Text};
use std::alloc::Global;

const PROVISIONER: &str = "example.com/block";

/// A letter and a number.
pub fn numbered(alloc: Global, letter: &str, i: u64) -> Result<Text, OutOfMemory>
    ensures { IfOk result (λ t. t ≡ numbered letter.now i) }
{
    let mut buffer = Buffer::new();
    let mut name = Text::new(alloc, letter)?;
    name.push_str(buffer.format(i))?;
    Ok(name)
}

/// The pool of 1 TiB.
pub fn pool(alloc: Global) -> Result<Pool, OutOfMemory>
    ensures { IfOk result (λ p. p ≡ pool) }
{
    Ok(Pool {
        name: Text::new(alloc, "p")?,
        provisioner: Text::new(alloc, PROVISIONER)?,
        bytes: 1_099_511_627_776,
        topology: None,
    })
}

fn named_meta(alloc: Global, namespace: &str, name: Text) -> Result<Meta, OutOfMemory>
    ensures { IfOk result (λ m. m ≡ named_meta namespace.now name) }
{
    Ok(Meta {
        namespace: Text::new(alloc, namespace)?,
        name,
        uid: None,
        version: 0,
        created: Text::new(alloc, "")?,
        deleted: None,
        labels: Pairs::new(alloc),
        annotations: Pairs::new(alloc),
        finalizers: Names::new(alloc),
    })
}

/// So many GiB.
fn gibibytes(alloc: Global, size: u64) -> Result<Amount, OutOfMemory>
    requires { size < 32 }
    ensures { IfOk result (λ a. a ≡ gibibytes size) }
{
    let mut text = numbered(alloc, "", size)?;
    text.push_str("Gi")?;
    Ok(Amount {
        text,
        bytes: size * 1_073_741_824,
    })
}

/// ReadWriteOnce, and ReadWriteMany or not.
fn writers(many: bool) -> Modes
    ensures { result ≡ writers many }
{
    Modes {
        rwo: true,
        rox: false,
        rwx: many,
        rwop: false,
    }
}

pub fn class_named(alloc: Global, name: &str, delayed: bool) -> Result<Class, OutOfMemory>
    ensures { IfOk result (λ c. c ≡ class_named name.now delayed) }
{
    let name = Text::new(alloc, name)?;
    Ok(Class {
        meta: named_meta(alloc, "", name)?,
        provisioner: Text::new(alloc, PROVISIONER)?,
        policy: Policy::Delete,
        delayed,
        parameters: Pairs::new(alloc),
        extra: Text::new(alloc, "")?,
    })
}

pub fn node_in(alloc: Global, name: &str, zone: &str) -> Result<Node, OutOfMemory>
    ensures { IfOk result (λ n. n ≡ zoned_node name.now zone.now) }
{
    let label = Text::new(alloc, "zone")?;
    let zone = Text::new(alloc, zone)?;
    let name = Text::new(alloc, name)?;
    let mut meta = named_meta(alloc, "", name)?;
    meta.labels.set(&label, &zone)?;
    Ok(Node {
        meta,
        extra: Text::new(alloc, "")?,
    })
}

fn nfs_source(alloc: Global) -> Result<Source, OutOfMemory>
    ensures { IfOk result (λ s. s ≡ nfs_source) }
{
    Ok(Source {
        kind: SourceKind::Nfs,
        first: Text::new(alloc, "s")?,
        second: Text::new(alloc, "/x")?,
    })
}

/// A volume of class slow, of so many GiB, with many writers or one.
pub fn volume_of(alloc: Global, i: u64, size: u64, many: bool) -> Result<Volume, OutOfMemory>
    requires { size < 32 }
    ensures { IfOk result (λ v. v ≡ volume_of i size many) }
{
    let name = numbered(alloc, "v", i)?;
    let meta = named_meta(alloc, "", name)?;
    let amount = gibibytes(alloc, size)?;
    Ok(Volume {
        meta,
        amount,
        modes: writers(many),
        block: false,
        class: Text::new(alloc, "slow")?,
        policy: Policy::Retain,
        claim_ref: None,
        source: nfs_source(alloc)?,
        terms: None,
        extra: Text::new(alloc, "")?,
        phase: VolumePhase::Pending,
    })
}

/// A claim of so many GiB.
pub fn claim_of(alloc: Global, name: Text, size: u64, class: &str) -> Result<Claim, OutOfMemory>
    requires { size < 32 }
    ensures { IfOk result (λ c. c ≡ sized_claim name size class.now) }
{
    let amount = gibibytes(alloc, size)?;
    let class = Text::new(alloc, class)?;
    Ok(Claim {
        meta: named_meta(alloc, "default", name)?,
        modes: writers(false),
        amount,
        block: false,
        class: Some(class),
        selector: None,
        volume_name: Text::new(alloc, "")?,
        extra: Text::new(alloc, "")?,
        phase: ClaimPhase::Pending,
        got_modes: Modes {
            rwo: false,
            rox: false,
            rwx: false,
            rwop: false,
        },
        got: None,
    })
}

/// The volumes of a pod with one claim, as they are written.
fn volumes_of(alloc: Global, claim: &str) -> Result<Text, OutOfMemory>
    ensures { IfOk result (λ t. t ≡ volumes_of claim.now) }
{
    let mut text = Text::new(
        alloc,
        "{\"volumes\":[{\"persistentVolumeClaim\":{\"claimName\":\"",
    )?;
    text.push_str(claim)?;
    text.push_str("\"}}]}")?;
    Ok(text)
}

/// A pod with one claim.
pub fn pod_with(alloc: Global, name: Text, claim: &Text) -> Result<Pod, OutOfMemory>
    ensures { IfOk result (λ p. p ≡ pod_with name claim.now) }
{
    let mut claims = Names::new(alloc);
    claims.push(claim)?;
    let extra = volumes_of(alloc, claim.as_str())?;
    Ok(Pod {
        meta: named_meta(alloc, "default", name)?,
        claims,
        node: Text::new(alloc, "")?,
        extra,
    })
}

/// The key of a claim in the default namespace.
pub fn claim_key(alloc: Global, name: Text) -> Result<Key, OutOfMemory>
    ensures { IfOk result (λ k. k ≡ claim_key name) }
{
    Ok(Key {
        kind: Kind::PersistentVolumeClaim,
        namespace: Text::new(alloc, "default")?,
        name,
    })
}
