//! Whether a name stands twice in a list.

ghost use Rattle.std.specs.Prelude.{◌≡◌, ◌++◌, [], ◌∷◌, true, not, bytes_eq, IfOk, IfSome};
ghost use Rattle.std.proofs.Common.{ap};
ghost use Rattle.std.specs.Hash as fed;
ghost use Rattle.std.specs.List.{list_any};
ghost use Rattle.std.specs.Cmp.{partial_equiv_from_equiv};
ghost use Rattle.std.proofs.lemmas.Cmp.{nat_list_eq_equiv};
ghost use Rattle.std.proofs.lemmas.Slice.Eq.{bytes_eq-Decides};
ghost use Rattle.kube_objects.specs.Bindings.{has_name};
ghost use Rattle.binder_model.specs.Fields.{has_twice};

use indexmap::IndexSet;
use kube_types::copies::OutOfMemory;
use kube_types::text::{Names, Text};
use std::alloc::Global;
use std::hash::{Hash, Hasher};
use std::marker::Model;

/// So many names are compared by pairs, which costs less than to keep them.
const FEW: usize = 16;

/// A name of the list, which is not copied.
struct Name<'n> {
    text: &'n Text,
}

impl<'n> Drop for Name<'n> {
    fn drop(self) {
        let Name { text: _ } = self;
    }
}

impl<'n> Model for Name<'n> {
    ghost use Rattle.std.specs.Prelude.{List, ℕ};

    ghost Value = { List ℕ };

    ghost view = { λ n. n.text.now };
}

impl<'n> Name<'n> {
    fn of(text: &'n Text) -> Name<'n>
        ensures { result ≡ text.now }
    {
        Name { text }
    }

    fn as_str(&self) -> &str
        ensures { result.now ≡ self.now }
    {
        self.text.as_str()
    }
}

impl<'n> PartialEq for Name<'n> {
    ghost eq = { bytes_eq };

    ghost laws = { partial_equiv_from_equiv nat_list_eq_equiv };

    fn eq(&self, other: &Name<'n>) -> bool {
        self.as_str() == other.as_str()
    }
}

impl<'n> Eq for Name<'n> {
    ghost laws = { nat_list_eq_equiv };
}

impl<'n> Hash for Name<'n> {
    ghost hash_input = { λ n. fed.str n };

    ghost respects_eq = { λ a b e. ap (λ n. fed.str n) ((bytes_eq-Decides a b).0 e) };

    fn hash<H: Hasher>(&self, state: &mut H) {
        self.as_str().hash(state);
    }
}

/// Whether the name is none of these. It then stands among them.
fn is_new<'n>(seen: &mut IndexSet<Name<'n>>, name: &'n Text) -> Result<bool, OutOfMemory>
    ensures new { IfOk result (λ new. new ≡ not (list_any (bytes_eq name.now) seen.old.keys)) }
    ensures keys { IfOk result (λ new. new ≡ true → seen.new.keys ≡ seen.old.keys ++ name.now ∷ []) }
{
    Ok(seen.insert(Name::of(name))?)
}

/// The same as `has_twice`, in time that grows with the number of names on average.
#[tactic(auto, using(crate::proofs::Repeats::comes_first))]
fn finds_twice(alloc: Global, names: &[Text]) -> Result<bool, OutOfMemory>
    ensures { IfOk result (λ twice. twice ≡ has_twice names.now) }
{
    let mut seen = IndexSet::new(alloc);
    for name in names {
        if !is_new(&mut seen, name)? {
            return Ok(true);
        }
    }
    Ok(false)
}

/// Whether the name is one of these.
fn has_name(name: &str, names: &[Text]) -> bool
    ensures { result ≡ has_name name.now names.now }
{
    names.iter().any(|n| n.is(name))
}

/// The same as `has_twice`, by pairs, without memory.
fn has_equal_pair(names: &[Text]) -> bool
    ensures { result ≡ has_twice names.now }
{
    for (i, name) in names.iter().enumerate() {
        if has_name(name.as_str(), &names[i + 1..]) {
            return true;
        }
    }
    false
}

/// Whether a name stands twice in the list, by what is known of it, else by pairs.
pub(crate) fn has_twice(known: Option<bool>, names: &Names) -> bool
    requires { IfSome known (λ twice. twice ≡ has_twice names.now) }
    ensures { result ≡ has_twice names.now }
{
    match known {
        Some(twice) => twice,
        None => has_equal_pair(names.as_slice()),
    }
}

/// Whether a name stands twice in the list. Many names are kept in a set, which takes memory.
pub(crate) fn stands_twice(alloc: Global, names: &Names) -> Result<bool, OutOfMemory>
    ensures { IfOk result (λ twice. twice ≡ has_twice names.now) }
{
    let list = names.as_slice();
    if list.len() > FEW {
        finds_twice(alloc, list)
    } else {
        Ok(has_equal_pair(list))
    }
}
