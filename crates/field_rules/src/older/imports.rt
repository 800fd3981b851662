//! The test of all imports.

ghost use Rattle.std.specs.Prelude.{◌≡◌, ◌↔◌, ◌++◌, [], ◌∷◌, true, is_some, map, IsTrue, IfOk, IfSome};
ghost use Rattle.std.specs.List.{list_any};
ghost use Rattle.std.specs.Option.{option_copied};
ghost use Rattle.kube_objects.specs.Bindings.{ref_uid};
ghost use Rattle.kube_objects.specs.Keys.{key_of};
ghost use Rattle.binder_model.specs.Imports.{ImportsPass, reference_of};
ghost use Rattle.field_rules.specs.Stores.Steps.Passing.{clash, come_new, is_new, referred, refers_wrongly, uid_number};

use crate::older::named::Named;
use crate::{check_import, is_ended_for, reference_uid, refers_to_another};
use indexmap::IndexSet;
use kube_types::key::meta_of;
use kube_types::objects::Object;
use plain_data::copies::OutOfMemory;
use std::alloc::Global;

/// The keys of imports, in their order.
type Keys<'o> = IndexSet<Named<'o>>;

/// The UIDs of imports, in their order.
type Uids = IndexSet<u128>;

/// The UID of the object as a number, or 0 where it has none.
fn uid_number(object: &Object) -> u128
    ensures { result ≡ uid_number object.now }
{
    match meta_of(object).uid {
        None => 0,
        Some(uid) => uid.0,
    }
}

/// Whether the object passes alone and its key and UID are new. They then stand in the sets.
fn is_new<'o>(keys: &mut Keys<'o>, uids: &mut Uids, object: &'o Object) -> Result<bool, OutOfMemory>
    ensures new { IfOk result (λ new. new ≡ is_new keys.old.keys uids.old.keys object.now) }
    ensures keys { IfOk result (λ new. new ≡ true → keys.new.keys ≡ keys.old.keys ++ key_of object.now ∷ []) }
    ensures uids { IfOk result (λ new. new ≡ true → uids.new.keys ≡ uids.old.keys ++ uid_number object.now ∷ []) }
{
    if check_import(&[], object).is_err() {
        return Ok(false);
    }
    if !keys.insert(Named::of(object))? {
        return Ok(false);
    }
    if !uids.insert(uid_number(object))? {
        return Ok(false);
    }
    Ok(true)
}

/// The UIDs, where each object passes alone and no key and no UID comes twice.
fn new_uids(alloc: Global, imports: &[Object]) -> Result<Option<Uids>, OutOfMemory>
    ensures new { IfOk result (λ uids. is_some uids ≡ come_new [] [] imports.now) }
    ensures uids { IfOk result (λ uids. IfSome uids (λ u. u.keys ≡ map uid_number imports.now)) }
{
    let mut keys = IndexSet::new(alloc);
    let mut uids = IndexSet::new(alloc);
    for object in imports {
        if !is_new(&mut keys, &mut uids, object)? {
            return Ok(None);
        }
    }
    Ok(Some(uids))
}

/// The import whose UID the volume's reference has.
fn referred<'o>(uids: &Uids, imports: &'o [Object], volume: &Object) -> Option<&'o Object>
    ensures { option_copied result ≡ referred uids.now.keys imports.now (ref_uid (reference_of volume.now)) }
{
    let uid = reference_uid(volume)?;
    let place = uids.get_index_of(&uid.0)?;
    imports.get(place)
}

/// Whether the volume refers to the other object wrongly, or has ended for it too early.
fn clash(volume: &Object, other: &Object) -> bool
    ensures { result ≡ clash volume.now other.now }
{
    refers_to_another(volume, other) || is_ended_for(volume, other)
}

fn refers_wrongly(uids: &Uids, imports: &[Object], volume: &Object) -> bool
    ensures { result ≡ refers_wrongly uids.now.keys imports.now volume.now }
{
    match referred(uids, imports, volume) {
        None => false,
        Some(other) => clash(volume, other),
    }
}

fn any_refers_wrongly(uids: &Uids, imports: &[Object]) -> bool
    ensures { result ≡ list_any (refers_wrongly uids.now.keys imports.now) imports.now }
{
    imports
        .iter()
        .any(|volume| refers_wrongly(uids, imports, volume))
}

/// Whether each of the objects passes after those before it. Look-ups are by hash, so the time
/// grows with the number of objects on average.
#[tactic(auto, using(crate::proofs::Stores::Passing::passing, crate::proofs::Stores::Passing::failing))]
pub fn imports_pass(alloc: Global, imports: &[Object]) -> Result<bool, OutOfMemory>
    ensures { IfOk result (λ passes. IsTrue passes ↔ ImportsPass imports.now) }
{
    match new_uids(alloc, imports)? {
        None => Ok(false),
        Some(uids) => Ok(!any_refers_wrongly(&uids, imports)),
    }
}
