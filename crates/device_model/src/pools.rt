//! Pools, and the data that they gave.

ghost use Rattle.std.specs.Prelude.{◌≡◌, ◌&&◌, bytes_eq, map, option_map};
ghost use Rattle.std.specs.List.{list_any};
ghost use Rattle.std.specs.Option.{option_copied};
ghost use Rattle.binder_model.specs.Devices.{data_named, erase_one, data_after_erase, first_fit, free_bytes, has_id, is_planned, most_free, same_id, serves, topology_at, would_serve};
ghost use Rattle.device_model.specs.Kept.{count_there, stored_data};

use crate::kept::StoredData;
use call_types::setup::Pool;
use kube_types::objects::DataId;
use kube_types::pairs::Pairs;
use kube_types::text::Text;

/// Whether a pool with this topology serves a node with these labels. Without a topology it serves
/// each request; without a node it is asked by none.
fn serves(topology: Option<&(Text, Text)>, labels: Option<&Pairs>) -> bool
    ensures { result ≡ serves (option_copied topology.entry) (option_copied labels.entry) }
{
    match topology {
        None => true,
        Some(pair) => match labels {
            None => true,
            Some(labels) => match labels.get(pair.0.as_str()) {
                None => false,
                Some(value) => value.is(pair.1.as_str()),
            },
        },
    }
}

/// Whether the pool is of the provisioner and serves.
fn would_serve(pool: &Pool, provisioner: &Text, labels: Option<&Pairs>) -> bool
    ensures { result ≡ would_serve provisioner.now (option_copied labels.entry) pool.now }
{
    pool.provisioner.is(provisioner.as_str()) && serves(pool.topology.as_ref(), labels)
}

/// The bytes that the pool at the place has left.
fn free(pool: &Pool, place: usize, stored: &[StoredData]) -> u64
    ensures { result ≡ free_bytes pool.now place (map stored_data stored.now) }
{
    let mut left = pool.bytes;
    for item in stored {
        if item.there && item.pool == place {
            left = left.saturating_sub(item.bytes);
        }
    }
    left
}

/// The place of the first pool that serves and has the bytes free.
pub fn first_fit(
    pools: &[Pool],
    provisioner: &Text,
    bytes: u64,
    labels: Option<&Pairs>,
    stored: &[StoredData],
) -> Option<usize>
    ensures { result ≡ first_fit provisioner.now bytes (option_copied labels.entry) (map stored_data stored.now) 0 pools.now }
{
    let mut place = 0;
    for pool in pools {
        if would_serve(pool, provisioner, labels) && bytes <= free(pool, place, stored) {
            return Some(place);
        }
        place += 1;
    }
    None
}

/// The greatest number of free bytes of a pool that would serve, or 0.
pub fn most_free(
    pools: &[Pool],
    provisioner: &Text,
    labels: Option<&Pairs>,
    stored: &[StoredData],
) -> u64
    ensures { result ≡ most_free provisioner.now (option_copied labels.entry) (map stored_data stored.now) 0 pools.now }
{
    let mut most = 0;
    let mut place = 0;
    for pool in pools {
        if would_serve(pool, provisioner, labels) {
            most = most.max(free(pool, place, stored));
        }
        place += 1;
    }
    most
}

/// The topology of the pool at the place.
pub fn topology_at(pools: &[Pool], place: usize) -> Option<&(Text, Text)>
    ensures { option_copied result ≡ topology_at place pools.now }
{
    let mut left = place;
    for pool in pools {
        if left == 0 {
            return pool.topology.as_ref();
        }
        left -= 1;
    }
    None
}

/// The data of the name that are there.
pub fn data_named<'a>(stored: &'a [StoredData], name: &Text) -> Option<&'a StoredData>
    ensures { option_map stored_data (option_copied result) ≡ data_named name.now (map stored_data stored.now) }
{
    for item in stored {
        if item.there && item.name.is(name.as_str()) {
            return Some(item);
        }
    }
    None
}

/// Whether data of the name are there.
pub fn has_name(stored: &[StoredData], name: &Text) -> bool
    ensures { result ≡ list_any (λ x. x.there && bytes_eq x.name name.now) (map stored_data stored.now) }
{
    for item in stored {
        if item.there && item.name.is(name.as_str()) {
            return true;
        }
    }
    false
}

fn same_id(a: &DataId, b: &DataId) -> bool
    ensures { result ≡ same_id a.now b.now }
{
    a.driver.is(b.driver.as_str()) && a.id.is(b.id.as_str())
}

/// Whether data of the id are there.
pub fn has_id(stored: &[StoredData], id: &DataId) -> bool
    ensures { result ≡ has_id id.now (map stored_data stored.now) }
{
    for item in stored {
        if item.there && same_id(&item.id, id) {
            return true;
        }
    }
    false
}

/// Takes the data away where they have the id.
fn erase_one(stored: &mut StoredData, id: &DataId)
    ensures { stored_data stored.new ≡ erase_one id.now (stored_data stored.old) }
{
    if same_id(&stored.id, id) {
        stored.there = false;
    }
}

/// Takes the data of the id away.
pub fn erase_all(stored: &mut [StoredData], id: &DataId)
    ensures { map stored_data stored.new ≡ data_after_erase id.now (map stored_data stored.old) }
{
    let mut at = 0;
    while at < stored.len() {
        erase_one(&mut stored[at], id);
        at += 1;
    }
}

/// Whether the call is one that fails.
pub fn is_planned(faults: &[u64], call: u64) -> bool
    ensures { result ≡ is_planned call faults.now }
{
    for fault in faults {
        if *fault == call {
            return true;
        }
    }
    false
}

/// How many of the data are there.
pub fn count_there(stored: &[StoredData]) -> u64
    ensures { result ≡ count_there (map stored_data stored.now) }
{
    let mut count = 0;
    for item in stored {
        if item.there {
            count += 1;
        }
    }
    count
}
