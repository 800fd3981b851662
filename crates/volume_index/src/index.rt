//! The index: volumes that are put in, replaced and taken out.

ghost use Rattle.std.specs.Prelude.{◌≡◌, List, [], ◌∷◌, IfOk, OnOk, OnErr, Some, true};
ghost use Rattle.std.specs.List.{Contains};
ghost use Rattle.std.specs.Option.{option_copied};
ghost use Rattle.kube_objects.specs.declared.objects.Volume.{Volume};
ghost use Rattle.kube_objects.specs.declared.objects.Object.{Object};
ghost use Rattle.kube_objects.specs.Keys.{AreRows};
ghost use Rattle.volume_index.specs.VolumeOrders.{AreInOrder, by_owner, by_size};
ghost use Rattle.volume_index.specs.Steps.IndexEdits.{HaveOwnNames};
ghost use Rattle.volume_index.specs.VolumeIndex.{as_volume, AreApart, IsNew, StandsFor, others, same_name, volumes_in};

use crate::lists::{
    leave_all, leave_free, leave_owned, put_all, put_free, put_owned, take_by_size, take_free,
    take_owned,
};
use crate::order::compare_by_size;
use kube_objects::objects::{Object, Volume};
use plain_data::copies::{OutOfMemory, Plain};
use plain_data::shared::Shared;
use std::alloc::Global;
use std::marker::Model;

/// An index of volumes: all of them and those that are free, in the order of class, volume mode, number of access modes and
/// bytes; and those that refer to a claim, by its namespace and name. It shares the volumes.
pub struct VolumeIndex {
    all: Vec<Shared<Volume>>,
    free: Vec<Shared<Volume>>,
    owned: Vec<Shared<Volume>>,
}

impl Drop for VolumeIndex {
    fn drop(self) {
        let VolumeIndex { all, free, owned } = self;
        drop(all);
        drop(free);
        drop(owned);
    }
}

impl Model for VolumeIndex {
    ghost use Rattle.volume_index.specs.VolumeIndex.{Index};
    ghost use Rattle.volume_index.specs.Steps.IndexEdits.{IsOrdered};

    ghost Value = { Index };

    ghost view = { λ i. record { all = i.all.items; free = i.free.items; owned = i.owned.items } };

    ghost invariant = { λ i. IsOrdered (record { all = i.all.items; free = i.free.items; owned = i.owned.items }) };
}

/// The volume that the object is, if it is one.
fn volume_of(object: &Object) -> Option<&Shared<Volume>>
    ensures { option_copied result ≡ as_volume (Some object.now) }
{
    match object {
        Object::Volume(volume) => Some(volume),
        _ => None,
    }
}

/// The volumes among objects, which they share.
fn volumes_of(alloc: Global, objects: &[Object]) -> Result<Vec<Shared<Volume>>, OutOfMemory>
    ensures { IfOk result (λ volumes. volumes.items ≡ volumes_in objects.now) }
{
    let mut volumes = Vec::new(alloc);
    for object in objects {
        if let Some(volume) = volume_of(object) {
            let own = volume.copy(alloc)?;
            volumes.push(own)?;
        }
    }
    Ok(volumes)
}

impl VolumeIndex {
    /// All volumes, in the order of class, volume mode, number of access modes, bytes and name.
    pub fn all(&self) -> &[Shared<Volume>]
        ensures list { result.now ≡ self.now.all }
        ensures order { AreInOrder by_size result.now }
    {
        &self.all
    }

    /// The free volumes, in the order of class, volume mode, number of access modes, bytes and name.
    pub fn free(&self) -> &[Shared<Volume>]
        ensures list { result.now ≡ self.now.free }
        ensures order { AreInOrder by_size result.now }
    {
        &self.free
    }

    /// The volumes that refer to a claim, in the order of its namespace and name, and then as claims prefer them.
    pub fn owned(&self) -> &[Shared<Volume>]
        ensures list { result.now ≡ self.now.owned }
        ensures order { AreInOrder by_owner result.now }
    {
        &self.owned
    }

    /// An index of no volumes. It takes no memory.
    pub fn new(alloc: Global) -> VolumeIndex
        ensures { StandsFor result [] }
    {
        VolumeIndex {
            all: Vec::new(alloc),
            free: Vec::new(alloc),
            owned: Vec::new(alloc),
        }
    }

    /// An index of the volumes among rows in order.
    pub fn of(alloc: Global, rows: &[Object]) -> Result<VolumeIndex, OutOfMemory>
        requires { AreRows rows.now }
        ensures { IfOk result (λ index. StandsFor index (volumes_in rows.now)) }
    {
        let mut volumes = volumes_of(alloc, rows)?;
        volumes.sort_unstable_by(|left, right| compare_by_size(right, left));
        VolumeIndex::of_volumes(alloc, &volumes)
    }

    /// An index of these volumes, each of a name of its own. It is quickest where the greatest comes first, since each then
    /// goes to the end of its lists.
    fn of_volumes(alloc: Global, volumes: &[Shared<Volume>]) -> Result<VolumeIndex, OutOfMemory>
        requires { HaveOwnNames volumes.now }
        ensures { IfOk result (λ index. StandsFor index volumes.now) }
    {
        let mut index = VolumeIndex::new(alloc);
        let mut left = volumes.len();
        while left > 0 {
            left -= 1;
            index.insert(alloc, &volumes[left])?;
        }
        Ok(index)
    }

    /// Puts in a volume whose name no volume of the index has.
    pub fn insert(&mut self, alloc: Global, volume: &Shared<Volume>) -> Result<(), OutOfMemory>
        ensures ok { OnOk result ((volumes : List Volume) → IsNew volume.now volumes → StandsFor self.old volumes → StandsFor self.new (volume.now ∷ volumes)) }
        ensures err { OnErr result (self.new ≡ self.old) }
    {
        let own = volume.copy(alloc)?;
        self.all.reserve(1)?;
        put_free(alloc, &mut self.free, volume)?;
        put_owned(alloc, &mut self.owned, volume)?;
        put_all(&mut self.all, own);
        Ok(())
    }

    /// Takes out a volume, which is given as it was put in.
    pub fn remove(&mut self, volume: &Shared<Volume>)
        ensures { (volumes : List Volume) → AreApart volumes → Contains volumes volume.now → StandsFor self.old volumes → StandsFor self.new (others volume.now volumes) }
    {
        take_by_size(&mut self.all, volume);
        take_free(&mut self.free, volume);
        take_owned(&mut self.owned, volume)
    }

    /// Puts a volume in the place of an earlier one of its name, which is given as it was put in.
    pub fn replace(
        &mut self,
        alloc: Global,
        before: &Shared<Volume>,
        after: &Shared<Volume>,
    ) -> Result<(), OutOfMemory>
        ensures ok { OnOk result ((volumes : List Volume) → AreApart volumes → Contains volumes before.now → same_name before.now after.now ≡ true → StandsFor self.old volumes → StandsFor self.new (after.now ∷ others before.now volumes)) }
        ensures err { OnErr result (self.new ≡ self.old) }
    {
        let own = after.copy(alloc)?;
        self.all.reserve(1)?;
        put_free(alloc, &mut self.free, after)?;
        put_owned(alloc, &mut self.owned, after)?;
        put_all(&mut self.all, own);
        leave_all(&mut self.all, before, after);
        leave_free(&mut self.free, before, after);
        leave_owned(&mut self.owned, before, after);
        Ok(())
    }
}
