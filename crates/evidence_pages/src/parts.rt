//! The parts of a key, by which a page is looked up without memory.

ghost use Rattle.std.specs.Prelude.{◌≡◌, ◌++◌, [], List, ℕ, MatchOption, codes};
ghost use Rattle.binder_model.specs.ObjectKeys.{claim_key};
ghost use Rattle.evidence_pages.specs.Keyed.{key_by};

use kube_types::objects::DataId;
use kube_types::parts::Kind;

/// The kind, namespace and name of an object.
#[derive(Drop)]
pub struct KeyParts<'a> {
    pub kind: Kind,
    pub namespace: &'a str,
    pub name: &'a str,
}

/// The UID in the name of data that are provisioned, by which they are told apart.
pub fn uid_in<'a>(name: &'a str) -> Option<&'a str>
    ensures { MatchOption result ((rest : List ℕ) → name.now ≡ codes "pvc-" ++ rest → ⊥) (λ uid. name.now ≡ codes "pvc-" ++ uid.now) }
{
    name.strip_prefix("pvc-")
}

/// The page of what is provisioned for the claim with the UID of this text. No claim has such a key.
pub fn wanted_by<'a>(uid: &'a str) -> KeyParts<'a>
    ensures { key_by result ≡ claim_key [] uid.now }
{
    KeyParts {
        kind: Kind::PersistentVolumeClaim,
        namespace: "",
        name: uid,
    }
}

/// The page of the volumes that have ended over the data, and of the calls by which these were erased. No volume has such a
/// key, since none is in a namespace.
pub(crate) fn erased_of<'a>(id: &'a DataId) -> KeyParts<'a> {
    KeyParts {
        kind: Kind::PersistentVolume,
        namespace: id.driver.as_str(),
        name: id.id.as_str(),
    }
}

/// The same of the calls that failed to erase them. No node has such a key.
pub(crate) fn failed_of<'a>(id: &'a DataId) -> KeyParts<'a> {
    KeyParts {
        kind: Kind::Node,
        namespace: id.driver.as_str(),
        name: id.id.as_str(),
    }
}
