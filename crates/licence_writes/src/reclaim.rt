//! Where data may be erased, and a volume failed or deleted.

ghost use Rattle.std.specs.Prelude.{◌≡◌, ◌↔◌, IsTrue, Some, reverse};
ghost use Rattle.call_types.specs.declared.entry.Entry.{Entry};
ghost use Rattle.binder_model.specs.Licence.{AtVolumeKey, MayDeleteVolume};
ghost use Rattle.binder_model.specs.OpsLicence.{MayErase, MayFail};
ghost use Rattle.licence_record.specs.Judged.{Judges};

use crate::pages::called;
use crate::roles::ops::{Fail, may_delete as page_deletes};
use crate::status::volume_status;
use call_types::entry::Entry;
use evidence_pages::sought::Sought;
use kube_types::copies::Plain;
use kube_types::key::Key;
use kube_types::objects::{DataId, Version};
use kube_types::parts::Kind;
use kube_types::uid::Uid;
use licence_record::record::Record;
use licence_rows::asking::is_to_erase;

/// Whether the data may be erased.
pub fn may_erase<R: Record>(seat: &R, id: &DataId) -> bool
    ensures { Judges (R.whole seat.now) result (MayErase (R.told seat.now) id.now) }
{
    match seat.last_over(id) {
        None => false,
        Some(volume) => is_to_erase(volume),
    }
}

/// Whether phase Failed may be written on the volume.
pub fn may_fail<R: Record>(seat: &R, key: &Key, given: Option<Version>) -> bool
    ensures { Judges (R.whole seat.now) result (AtVolumeKey (R.told seat.now) key.now given (λ o. MayFail (R.told seat.now) o)) }
{
    let page = called(seat, &key.name, Sought::Version(given));
    let mine = called(seat, &key.name, Sought::Failed(given));
    volume_status(&Fail { mine }, page, key, given)
}

fn deletes(page: &[Entry], key: &Key, given: Option<Uid>) -> bool
    ensures { IsTrue result ↔ MayDeleteVolume (reverse page.now) key.now given }
{
    match given {
        None => false,
        Some(uid) => {
            if !key.kind.same(&Kind::PersistentVolume) {
                return false;
            }
            page_deletes(page, uid)
        }
    }
}

/// That the data of the volume were erased.
fn sought_erased(given: Option<Uid>) -> Sought {
    match given {
        None => Sought::All,
        Some(uid) => Sought::Erased(uid),
    }
}

/// Whether the volume may be deleted.
pub fn may_delete<R: Record>(seat: &R, key: &Key, given: Option<Uid>) -> bool
    ensures { Judges (R.whole seat.now) result (MayDeleteVolume (R.told seat.now) key.now given) }
{
    deletes(called(seat, &key.name, sought_erased(given)), key, given)
}
