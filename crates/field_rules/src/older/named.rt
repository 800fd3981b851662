//! Objects as the set of keys holds them.

ghost use Rattle.std.specs.Prelude.{◌≡◌, ◌++◌};
ghost use Rattle.std.proofs.Common.{ap};
ghost use Rattle.std.specs.Hash as fed;
ghost use Rattle.std.specs.Cmp.{partial_equiv_from_equiv};
ghost use Rattle.kube_objects.specs.declared.key.Key.{Key};
ghost use Rattle.kube_objects.specs.Keys.{key_of, kind_index, same_key};
ghost use Rattle.kube_objects.proofs.SameKeys.{same_key-Decides, same_key_equivalence};

use crate::has_same_key;
use kube_types::key::{kind_index, kind_of, meta_of};
use kube_types::objects::Object;
use std::hash::{Hash, Hasher};
use std::marker::Model;

/// An object that stands for its key, which is not copied.
pub(crate) struct Named<'o> {
    object: &'o Object,
}

impl<'o> Drop for Named<'o> {
    fn drop(self) {
        let Named { object: _ } = self;
    }
}

impl<'o> Model for Named<'o> {
    ghost use Rattle.kube_objects.specs.declared.key.Key.{Key};
    ghost use Rattle.kube_objects.specs.Keys.{key_of};

    ghost Value = { Key };

    ghost view = { λ n. key_of n.object.now };
}

impl<'o> Named<'o> {
    pub(crate) fn of(object: &'o Object) -> Named<'o>
        ensures { result ≡ key_of object.now }
    {
        Named { object }
    }

    fn object(&self) -> &Object
        ensures { key_of result.now ≡ self.now }
    {
        self.object
    }
}

impl<'o> PartialEq for Named<'o> {
    ghost eq = { same_key };

    ghost laws = { partial_equiv_from_equiv same_key_equivalence };

    fn eq(&self, other: &Named<'o>) -> bool {
        has_same_key(self.object(), other.object())
    }
}

impl<'o> Eq for Named<'o> {
    ghost laws = { same_key_equivalence };
}

impl<'o> Hash for Named<'o> {
    ghost hash_input = { λ k. fed.u8 (kind_index k.kind) ++ fed.str k.namespace ++ fed.str k.name };

    ghost respects_eq = { λ k q e. ap (λ (x : Key). fed.u8 (kind_index x.kind) ++ fed.str x.namespace ++ fed.str x.name) ((same_key-Decides k q).0 e) };

    fn hash<H: Hasher>(&self, state: &mut H) {
        let object = self.object();
        let meta = meta_of(object);
        kind_index(kind_of(object)).hash(state);
        meta.namespace.as_str().hash(state);
        meta.name.as_str().hash(state);
    }
}
