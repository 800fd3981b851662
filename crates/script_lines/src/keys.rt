//! Keys in lines.

ghost use Rattle.std.specs.Prelude.{◌≡◌};
ghost use Rattle.script_lines.specs.Members.{is_namespaced};

use kube_types::parts::Kind;

/// Whether objects of the kind have a namespace.
pub fn is_namespaced(kind: Kind) -> bool
    ensures { result ≡ is_namespaced kind }
{
    match kind {
        Kind::StorageClass => false,
        Kind::Node => false,
        Kind::PersistentVolume => false,
        Kind::PersistentVolumeClaim => true,
        Kind::Pod => true,
    }
}
