//! Where the objects of each kind begin among the rows of the ordered map.

ghost use Rattle.std.specs.Prelude.{◌≡◌};
ghost use Rattle.kube_objects.specs.Keys.{AreRows, rows_of};
ghost use Rattle.version_store.specs.Steps.Starts.{AreStarts};

use kube_types::objects::Object;
use kube_types::parts::Kind;
use kube_types::table::{between_starts, kind_start};

/// Where the objects of each kind but the first begin.
#[derive(Clone, Copy)]
pub struct Starts {
    pub nodes: usize,
    pub volumes: usize,
    pub claims: usize,
    pub pods: usize,
}

/// Where the kinds begin among these rows.
pub(crate) fn starts_of(rows: &[Object]) -> Starts
    requires { AreRows rows.now }
    ensures { AreStarts rows.now result }
{
    Starts {
        nodes: kind_start(rows, 1),
        volumes: kind_start(rows, 2),
        claims: kind_start(rows, 3),
        pods: kind_start(rows, 4),
    }
}

/// The objects of a kind, without a search.
#[tactic(auto, using(crate::proofs::KindStarts::first_start, crate::proofs::KindStarts::last_start))]
pub(crate) fn objects_of<'a>(rows: &'a [Object], starts: Starts, kind: Kind) -> &'a [Object]
    requires { AreStarts rows.now starts }
    ensures { result.now ≡ rows_of kind rows.now }
{
    match kind {
        Kind::StorageClass => between_starts(rows, Kind::StorageClass, 0, starts.nodes),
        Kind::Node => between_starts(rows, Kind::Node, starts.nodes, starts.volumes),
        Kind::PersistentVolume => {
            between_starts(rows, Kind::PersistentVolume, starts.volumes, starts.claims)
        }
        Kind::PersistentVolumeClaim => {
            between_starts(
                rows,
                Kind::PersistentVolumeClaim,
                starts.claims,
                starts.pods,
            )
        }
        Kind::Pod => between_starts(rows, Kind::Pod, starts.pods, rows.len()),
    }
}
