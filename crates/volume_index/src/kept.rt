//! An index of the volumes among rows that change.
//!
//! Promises: where there is an index, it stands for the volumes among the rows that it follows (`Keeps`). Whoever is told that
//! there was no memory for an entry has no index any more.
ghost use Rattle.std.specs.Prelude.{◌≡◌, List, [], None, IfOk, IfSome, OnOk, OnErr};
ghost use Rattle.std.specs.Option.{option_copied};
ghost use Rattle.kube_objects.specs.declared.key.Key.{Key};
ghost use Rattle.kube_objects.specs.declared.objects.Object.{Object};
ghost use Rattle.kube_objects.specs.declared.objects.Volume.{Volume};
ghost use Rattle.kube_objects.specs.Keys.{AreRows, key_of, row_at, without_row};
ghost use Rattle.volume_index.specs.VolumeIndex.{StandsFor, as_volume};
ghost use Rattle.volume_index.specs.Keeping.{Keeps, rows_with};
ghost use Rattle.volume_index.specs.Steps.Edits.{CanEdit, edit_of};

use crate::index::VolumeIndex;
use kube_objects::objects::{Object, Volume};
use plain_data::copies::OutOfMemory;
use plain_data::shared::Shared;
use std::alloc::Global;
use std::marker::Model;

/// An index of the volumes among rows, or none where nobody asked for one, or there was no memory for an entry.
pub struct KeptIndex {
    index: Option<VolumeIndex>,
}

impl Drop for KeptIndex {
    fn drop(self) {
        let KeptIndex { index } = self;
        drop(index);
    }
}

impl Model for KeptIndex {
    ghost use Rattle.std.specs.Prelude.{Option};
    ghost use Rattle.volume_index.specs.VolumeIndex.{Index};

    ghost Value = { Option Index };

    ghost view = { λ k. k.index };
}

/// The volume that the object is, if there is one and it is a volume.
fn volume_of(object: Option<&Object>) -> Option<&Shared<Volume>>
    ensures { option_copied result ≡ as_volume (option_copied object.entry) }
{
    match object {
        Some(Object::Volume(volume)) => Some(volume),
        _ => None,
    }
}

/// Edits the index: a volume that stood under a key, and one that stands there now.
fn edited(
    alloc: Global,
    index: &mut VolumeIndex,
    before: Option<&Shared<Volume>>,
    after: Option<&Shared<Volume>>,
) -> Result<(), OutOfMemory>
    ensures { OnOk result ((volumes : List Volume) → CanEdit (option_copied before.entry) (option_copied after.entry) volumes → StandsFor index.old volumes → StandsFor index.new (edit_of (option_copied before.entry) (option_copied after.entry) volumes)) }
{
    match (before, after) {
        (None, None) => Ok(()),
        (None, Some(after)) => index.insert(alloc, after),
        (Some(before), None) => {
            index.remove(before);
            Ok(())
        }
        (Some(before), Some(after)) => index.replace(alloc, before, after),
    }
}

impl KeptIndex {
    /// No index. It takes no memory.
    pub fn none() -> KeptIndex
        ensures { result ≡ None }
    {
        KeptIndex { index: None }
    }

    /// An index of no volumes. It takes no memory.
    pub fn new(alloc: Global) -> KeptIndex
        ensures { Keeps result [] }
    {
        KeptIndex {
            index: Some(VolumeIndex::new(alloc)),
        }
    }

    /// An index of the volumes among the rows.
    pub fn of(alloc: Global, rows: &[Object]) -> Result<KeptIndex, OutOfMemory>
        requires { AreRows rows.now }
        ensures { IfOk result (λ kept. Keeps kept rows.now) }
    {
        let index = VolumeIndex::of(alloc, rows)?;
        Ok(KeptIndex { index: Some(index) })
    }

    /// The index, if there is one.
    pub fn get(&self) -> Option<&VolumeIndex>
        ensures { option_copied result ≡ self.now }
    {
        self.index.as_ref()
    }

    /// Follows a change of the rows: what stood under a key, and what stands there now.
    pub fn follow(
        &mut self,
        alloc: Global,
        before: Option<&Object>,
        after: Option<&Object>,
    ) -> Result<(), OutOfMemory>
        ensures keeps { (rows : List Object) (key : Key) → AreRows rows → row_at key rows ≡ option_copied before.entry → IfSome (option_copied after.entry) (λ o. key_of o ≡ key) → Keeps self.old rows → Keeps self.new (rows_with key (option_copied after.entry) rows) }
        ensures err { OnErr result (self.new ≡ None) }
    {
        match &mut self.index {
            None => Ok(()),
            Some(index) => match edited(alloc, index, volume_of(before), volume_of(after)) {
                Ok(()) => Ok(()),
                Err(error) => {
                    self.index = None;
                    Err(error)
                }
            },
        }
    }

    /// Follows rows of which one leaves: what stood under its key. It takes no memory.
    pub fn leave(&mut self, alloc: Global, before: Option<&Object>)
        ensures { (rows : List Object) (key : Key) → AreRows rows → row_at key rows ≡ option_copied before.entry → Keeps self.old rows → Keeps self.new (without_row key rows) }
    {
        let _ = self.follow(alloc, before, None);
    }
}
