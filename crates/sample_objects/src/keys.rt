//! Names, ids and keys.

ghost use Rattle.std.specs.Prelude.{◌≡◌, ◌<◌, ◌++◌, IfOk, decimal};
ghost use Rattle.kube_parts.specs.Uids.{uid_of_serial};
ghost use Rattle.sample_objects.specs.Samples.{claim_key, data_name, pod_key, volume_key};

use kube_types::copies::OutOfMemory;
use kube_types::key::Key;
use kube_types::parts::Kind;
use kube_types::text::Text;
use kube_types::uid::Uid;
use std::alloc::Global;

/// The namespace of claims and pods.
pub const NAMESPACE: &str = "default";

/// More than any case or benchmark comes to.
const MOST_SERIALS: u64 = 1_000_000_000;

/// The id of this serial; of one that is too great, that of 0.
pub fn uid_of(number: u64) -> Uid
    ensures { number < 1000000000 → result ≡ uid_of_serial number }
{
    if number < MOST_SERIALS {
        Uid::from_serial(number)
    } else {
        Uid::from_serial(0)
    }
}

/// The name of a letter and a number.
pub fn numbered(alloc: Global, letter: &str, number: u64) -> Result<Text, OutOfMemory>
    ensures { IfOk result (λ name. name ≡ letter.now ++ decimal number) }
{
    let name = format!(in alloc; "{letter}{number}")?;
    Text::new(alloc, &name)
}

/// The name of the data and of the volume that are made for the claim of this id.
pub fn data_name(alloc: Global, uid: Option<Uid>) -> Result<Text, OutOfMemory>
    ensures { IfOk result (λ name. name ≡ data_name uid) }
{
    let mut name = Text::new(alloc, "pvc-")?;
    match uid {
        None => {}
        Some(uid) => name.push_str(uid.text(alloc)?.as_str())?,
    }
    Ok(name)
}

pub fn volume_key(alloc: Global, name: &str) -> Result<Key, OutOfMemory>
    ensures { IfOk result (λ key. key ≡ volume_key name.now) }
{
    Ok(Key {
        kind: Kind::PersistentVolume,
        namespace: Text::new(alloc, "")?,
        name: Text::new(alloc, name)?,
    })
}

pub fn claim_key(alloc: Global, name: &str) -> Result<Key, OutOfMemory>
    ensures { IfOk result (λ key. key ≡ claim_key name.now) }
{
    Ok(Key {
        kind: Kind::PersistentVolumeClaim,
        namespace: Text::new(alloc, NAMESPACE)?,
        name: Text::new(alloc, name)?,
    })
}

pub fn pod_key(alloc: Global, name: &str) -> Result<Key, OutOfMemory>
    ensures { IfOk result (λ key. key ≡ pod_key name.now) }
{
    Ok(Key {
        kind: Kind::Pod,
        namespace: Text::new(alloc, NAMESPACE)?,
        name: Text::new(alloc, name)?,
    })
}
