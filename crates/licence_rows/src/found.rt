//! The last volume over some data that a read found.

ghost use Rattle.std.specs.Prelude.{◌≡◌, reverse};
ghost use Rattle.std.specs.Option.{option_copied};
ghost use Rattle.binder_model.specs.Told.{found_over, last_found};

use crate::ids::is_id_of;
use call_types::entry::Entry;
use call_types::reply::Reply;
use kube_types::objects::{DataId, Object, Volume};

/// The volume with this data id that the entry's Get found.
pub fn found_over<'a>(id: &DataId, entry: &'a Entry) -> Option<&'a Volume>
    ensures { option_copied result ≡ found_over id.now entry.now.told entry.now.reply }
{
    if !entry.told {
        return None;
    }
    match &entry.reply {
        Reply::Found(Object::Volume(volume)) => {
            if is_id_of(id, &volume.source) {
                Some(volume)
            } else {
                None
            }
        }
        _ => None,
    }
}

/// The last volume with this data id that a Get found.
#[tactic(auto, using(model_laws::proofs::Evidence::newest_first))]
pub fn last_found<'a>(mine: &'a [Entry], id: &DataId) -> Option<&'a Volume>
    ensures { option_copied result ≡ last_found id.now (reverse mine.now) }
{
    let mut left = mine.len();
    while left > 0 {
        left -= 1;
        match found_over(id, &mine[left]) {
            Some(volume) => return Some(volume),
            None => {}
        }
    }
    None
}
