//! What an actor is.

ghost use Rattle.std.specs.Prelude.{◌≡◌, ◌≢◌, ◌≤◌, Some, length, slice_get};
ghost use Rattle.call_types.specs.declared.request.SeatKind.TheVariants as seats;
ghost use Rattle.worker_core.specs.Roles.{kinds_of};

use call_types::request::SeatKind;
use kube_types::parts::Kind;
use kube_types::text::Text;

/// The kind of an actor's seat, and the node that an agent serves.
pub struct Role {
    pub kind: SeatKind,
    pub node: Text,
}

impl Drop for Role {
    fn drop(self) {
        let Role { kind: _, node } = self;
        drop(node);
    }
}

/// The kinds that an actor follows, in the order in which it lists and watches them.
pub fn kinds_of(kind: SeatKind) -> &'static [Kind]
    ensures kinds { result.now ≡ kinds_of kind }
    ensures few { length result.now ≤ 5 }
{
    match kind {
        SeatKind::User => &[],
        SeatKind::Binder => &[
            Kind::PersistentVolume,
            Kind::PersistentVolumeClaim,
            Kind::StorageClass,
        ],
        SeatKind::Ops => &[
            Kind::PersistentVolume,
            Kind::PersistentVolumeClaim,
            Kind::StorageClass,
            Kind::Node,
        ],
        SeatKind::Scheduler => &[
            Kind::PersistentVolume,
            Kind::PersistentVolumeClaim,
            Kind::StorageClass,
            Kind::Node,
            Kind::Pod,
        ],
        SeatKind::ClaimProtect => &[Kind::PersistentVolumeClaim, Kind::Pod],
        SeatKind::VolumeProtect => &[Kind::PersistentVolume],
        SeatKind::Agent => &[Kind::Pod],
    }
}

/// The first of the kinds. A user follows none.
pub(crate) fn first_kind(kind: SeatKind) -> Kind
    requires { kind ≢ seats.User }
    ensures { slice_get (kinds_of kind) 0 ≡ Some result }
{
    match kind {
        SeatKind::ClaimProtect => Kind::PersistentVolumeClaim,
        SeatKind::Agent => Kind::Pod,
        _ => Kind::PersistentVolume,
    }
}
