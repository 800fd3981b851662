//! Looking up objects.

ghost use Rattle.std.specs.Prelude.{◌≡◌, List, length, slice_get, IfSome};
ghost use Rattle.std.specs.Option.{option_copied};
ghost use Rattle.kube_objects.specs.Keys.{AreRows, row_at, rows_of};
ghost use Rattle.kube_types.specs.Lookups.{is_asked, is_present};
ghost use Rattle.volume_index.specs.VolumeIndex.{StandsFor, volumes_in};
ghost use Rattle.volume_index.specs.VolumePlaces.{IsNth, has_size, is_of_claim};
ghost use Rattle.kube_objects.specs.declared.objects.Object.{Object};

use kube_objects::key::Key;
use kube_objects::objects::Object;
use kube_parts::parts::Kind;
use plain_data::text::Text;
use volume_index::index::VolumeIndex;
use volume_index::places::{nth_by_size, nth_for};

/// Objects that can be looked up. `rows` are all of them, in the order of their keys.
pub trait Lookup {
    ghost rows: { Self → List Object };

    /// How many objects of the kind there are.
    fn count(&self, kind: Kind) -> usize
        ensures count { result ≡ length (rows_of kind (rows self.now)) }
        ensures order { AreRows (rows self.now) };

    /// The objects of the kind, in the order of namespace and name.
    fn of_kind(&self, kind: Kind) -> &[Object]
        ensures objects { result.now ≡ rows_of kind (rows self.now) }
        ensures order { AreRows (rows self.now) };

    /// The object at a place, from 0, among those of the kind in the order of namespace and name.
    fn at(&self, kind: Kind, place: usize) -> Option<&Object>
        ensures object { option_copied result ≡ slice_get (rows_of kind (rows self.now)) place }
        ensures order { AreRows (rows self.now) };

    /// The object of a key.
    fn row(&self, key: &Key) -> Option<&Object>
        ensures object { option_copied result ≡ row_at key.now (rows self.now) }
        ensures order { AreRows (rows self.now) };

    /// An index of the volumes, where one is kept: it saves looking at all of them.
    fn volumes(&self) -> Option<&VolumeIndex>
        ensures { IfSome (option_copied result) (λ index. StandsFor index (volumes_in (rows self.now))) };

    /// The place of the volume of this number, from 0, among those of the volume mode and the class: by number of access
    /// modes, bytes and name; by the index where one is kept. None where there are not so many.
    fn volume_by_size(&self, block: bool, class: &Text, nth: usize) -> Option<usize>
        ensures { IsNth (has_size block class.now) (rows self.now) nth result }
    {
        nth_by_size(
            self.of_kind(Kind::PersistentVolume),
            self.volumes(),
            block,
            class,
            nth,
        )
    }

    /// The place of the volume of this number, from 0, among those that refer to the claim, whatever its UID: by the index
    /// where one is kept. None where there are not so many.
    fn volume_for(&self, namespace: &Text, name: &Text, nth: usize) -> Option<usize>
        ensures { IsNth (is_of_claim namespace.now name.now) (rows self.now) nth result }
    {
        nth_for(
            self.of_kind(Kind::PersistentVolume),
            self.volumes(),
            namespace,
            name,
            nth,
        )
    }
}

/// What is known of an object that was read by itself.
#[derive(Clone, Copy, Debug)]
pub enum Live<'a> {
    NotAsked,
    Absent,
    Present(&'a Object),
}

impl<'a> Live<'a> {
    /// Whether the read was made.
    pub fn is_asked(self) -> bool
        ensures { result ≡ is_asked self.entry }
    {
        match self {
            Live::NotAsked => false,
            Live::Absent | Live::Present(_) => true,
        }
    }

    /// Whether the read found an object.
    pub fn is_present(self) -> bool
        ensures { result ≡ is_present self.entry }
    {
        match self {
            Live::NotAsked | Live::Absent => false,
            Live::Present(_) => true,
        }
    }
}
