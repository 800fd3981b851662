//! The versions of the lists that were told: of the whole kind, and of namespaces.

ghost use Rattle.std.specs.Prelude.{◌≡◌, ℕ, List, [], Some, None, IfOk, IfErr, OnOk, OnErr, length, bytes_eq, if◌then◌else◌};
ghost use Rattle.std.specs.List.Sorted.{IsSearchInRange};
ghost use Rattle.kube_objects.specs.declared.key.Key.{Key};
ghost use Rattle.informer_cache.specs.Marks.{AreSpaces, IsSpaceAt, IsSpaceGap, greater, put_space, space_version};
ghost use Rattle.informer_cache.specs.Knowledge.{covers, lacked};
ghost use Rattle.informer_cache.specs.Steps.Sights.{lacked_after};

use kube_types::copies::{OutOfMemory, Plain};
use kube_types::key::Key;
use kube_types::objects::Version;
use kube_types::rows::{Ranked, place_of};
use kube_types::text::Text;
use std::alloc::Global;
use std::cmp::Ordering;
use std::marker::Model;

/// A namespace, and the version of its newest list.
#[derive(Drop)]
pub struct Space {
    pub namespace: Text,
    pub version: Version,
}

impl Ranked<Text> for Space {
    ghost use Rattle.plain_data.specs.Pairs.{text_cmp};

    ghost rank = { λ s n. text_cmp s.namespace n };

    fn rank(&self, namespace: &Text) -> Ordering {
        self.namespace.as_str().cmp(namespace.as_str())
    }
}

/// Where the namespace is, or where it would stand.
fn space_place(spaces: &[Space], namespace: &Text) -> Result<usize, usize>
    requires { AreSpaces spaces.now }
    ensures bound { IsSearchInRange result (length spaces.now) }
    ensures at { IfOk result (IsSpaceAt spaces.now namespace.now) }
    ensures gap { IfErr result (IsSpaceGap spaces.now namespace.now) }
{
    place_of(spaces, namespace)
}

/// The version of the newest list of the namespace.
pub fn version_in(spaces: &[Space], namespace: &Text) -> Option<Version>
    requires { AreSpaces spaces.now }
    ensures { result ≡ space_version namespace.now spaces.now }
{
    match space_place(spaces, namespace) {
        Ok(at) => Some(spaces[at].version),
        Err(_) => None,
    }
}

/// Puts the list in place of the one of its namespace, or in its place in the order.
pub fn put_in(spaces: &mut Vec<Space>, space: Space) -> Result<(), OutOfMemory>
    requires { AreSpaces spaces.old.items }
    ensures ok { OnOk result (spaces.new.items ≡ put_space space spaces.old.items) }
    ensures err { OnErr result (spaces.new.items ≡ spaces.old.items) }
    ensures rising { AreSpaces spaces.new.items }
{
    match space_place(spaces, &space.namespace) {
        Ok(at) => spaces[at] = space,
        Err(at) => spaces.insert(at, space)?,
    }
    Ok(())
}

/// The greater of two versions that may be absent.
pub fn greater(first: Option<Version>, second: Option<Version>) -> Option<Version>
    ensures { result ≡ greater first second }
{
    match (first, second) {
        (None, other) => other,
        (Some(version), None) => Some(version),
        (Some(version), Some(other)) => {
            if version < other {
                Some(other)
            } else {
                Some(version)
            }
        }
    }
}

/// The version, or the one that is known, where that is greater.
fn raised(version: Version, known: Option<Version>) -> Version
    ensures { Some result ≡ greater (Some version) known }
{
    match known {
        None => version,
        Some(known) => { if version < known { known } else { version } }
    }
}

/// Notes a list of the namespace.
fn raise_space(
    alloc: Global,
    spaces: &mut Vec<Space>,
    namespace: &Text,
    version: Version,
) -> Result<(), OutOfMemory>
    requires { AreSpaces spaces.old.items }
    ensures ok { OnOk result ((n : List ℕ) → space_version n spaces.new.items ≡ (if bytes_eq namespace.now n then greater (Some version) (space_version n spaces.old.items) else space_version n spaces.old.items)) }
    ensures err { OnErr result (spaces.new.items ≡ spaces.old.items) }
    ensures rising { AreSpaces spaces.new.items }
{
    let known = version_in(spaces, namespace);
    let namespace = namespace.copy(alloc)?;
    let version = raised(version, known);
    put_in(spaces, Space { namespace, version })
}

/// Whether a list of this namespace, or of all, has the key if there is such an object.
pub fn covers(namespace: &Option<Text>, key: &Key) -> bool
    ensures { result ≡ covers namespace.now key.now }
{
    match namespace {
        None => true,
        Some(namespace) => namespace.is(key.namespace.as_str()),
    }
}

/// The versions of the newest lists: of the whole kind, and of each namespace of which one was told.
pub struct Lists {
    whole: Option<Version>,
    spaces: Vec<Space>,
}

impl Drop for Lists {
    fn drop(self) {
        let Lists { whole: _, spaces } = self;
        drop(spaces);
    }
}

impl Model for Lists {
    ghost use Rattle.informer_cache.specs.Knowledge.{ListState};
    ghost use Rattle.informer_cache.specs.Marks.{AreSpaces};

    ghost Value = { ListState };

    ghost view = { λ l. record { whole = l.whole; spaces = l.spaces.items } };

    ghost invariant = { λ l. AreSpaces l.spaces.items };
}

impl Lists {
    /// No list was told. It takes no memory.
    pub fn new(alloc: Global) -> Lists
        ensures { result ≡ record { whole = None; spaces = [] } }
    {
        Lists {
            whole: None,
            spaces: Vec::new(alloc),
        }
    }

    /// The version of the newest list in which the key would stand.
    pub fn version(&self, key: &Key) -> Option<Version>
        ensures { result ≡ lacked self.now key.now }
    {
        greater(version_in(&self.spaces, &key.namespace), self.whole)
    }

    /// Notes a list of the namespace, or of all.
    pub fn raise(
        &mut self,
        alloc: Global,
        namespace: &Option<Text>,
        version: Version,
    ) -> Result<(), OutOfMemory>
        ensures ok { OnOk result ((key : Key) → lacked self.new key ≡ lacked_after self.old namespace.now version key) }
        ensures err { OnErr result (self.new ≡ self.old) }
    {
        match namespace {
            None => {
                self.whole = greater(Some(version), self.whole);
                Ok(())
            }
            Some(namespace) => raise_space(alloc, &mut self.spaces, namespace, version),
        }
    }
}
