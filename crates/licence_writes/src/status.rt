//! Writes of a status at an object that a page tells.

ghost use Rattle.std.specs.Prelude.{◌≡◌, ◌↔◌, IsTrue, reverse};
ghost use Rattle.binder_model.specs.Licence.{AtClaimKey, AtVolumeKey};

use call_types::entry::Entry;
use kube_types::copies::Plain;
use kube_types::key::Key;
use kube_types::objects::Version;
use kube_types::parts::Kind;
use licence_scans::rows::{ClaimTest, VolumeTest, told_claim_at, told_volume_at};

/// Whether a volume's status is written at a told volume of which the condition holds.
pub(crate) fn volume_status<T: VolumeTest>(
    row: &T,
    page: &[Entry],
    key: &Key,
    given: Option<Version>,
) -> bool
    ensures { IsTrue result ↔ AtVolumeKey (reverse page.now) key.now given (T.allows row.now) }
{
    if !key.kind.same(&Kind::PersistentVolume) {
        return false;
    }
    told_volume_at(row, page, given, &key.namespace, &key.name)
}

/// Whether a claim's status is written at a told claim of which the condition holds.
pub(crate) fn claim_status<T: ClaimTest>(
    row: &T,
    page: &[Entry],
    key: &Key,
    given: Option<Version>,
) -> bool
    ensures { IsTrue result ↔ AtClaimKey (reverse page.now) key.now given (T.allows row.now) }
{
    if !key.kind.same(&Kind::PersistentVolumeClaim) {
        return false;
    }
    told_claim_at(row, page, given, &key.namespace, &key.name)
}
