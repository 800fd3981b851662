//! The store with which a world of imports begins.

ghost use Rattle.std.specs.Prelude.{◌≡◌, IfOk, OnOk};
ghost use Rattle.std.specs.List.{list_any};
ghost use Rattle.kube_objects.specs.Bindings.{is_bound, pv_protection, pvc_protection, ref_uid};
ghost use Rattle.kube_objects.specs.Keys.{AreRows, meta_of};
ghost use Rattle.binder_model.specs.Store.{with_finalizer, with_meta};
ghost use Rattle.binder_model.specs.Imports.{base_of, binds_claim, greatest_number, imported_meta, imported_object, imported_phase, is_dropped, reference_of, rows_of_imports, serial_of, serial_or_zero};
ghost use Rattle.version_store.specs.Steps.Made.{with_import};

use crate::metadata::{MetaChange, write_meta};
use field_rules::add_finalizer;
use finalizer_rules::leaves;
use kube_types::bindings::{
    PV_PROTECTION, PVC_PROTECTION, carries, is_completed, is_deleting, is_empty, is_scheduled,
};
use kube_types::copies::{OutOfMemory, Plain};
use kube_types::key::{key_of, meta_of};
use kube_types::objects::{Claim, Meta, Object, Version, Volume};
use kube_types::parts::{ClaimPhase, VolumePhase};
use kube_types::shared::Shared;
use kube_types::table::put_in;
use kube_types::text::Text;
use kube_types::uid::Uid;
use std::alloc::Global;

/// The creation of an object that names none.
const FIRST_MOMENT: &str = "2000-01-01T00:00:00Z";

/// The UID of serial 0, and how many serials there are.
const FIRST_UID: u128 = 0x0000_0000_0000_8000_8000_0000_0000_0000;

const SERIALS: u128 = 0x4000_0000_0000_0000;

fn serial_of(uid: Uid) -> Option<u64>
    ensures { result ≡ serial_of uid }
{
    if FIRST_UID <= uid.0 && uid.0 < FIRST_UID + SERIALS {
        Some((uid.0 - FIRST_UID) as u64)
    } else {
        None
    }
}

fn serial_or_zero(uid: Option<Uid>) -> u64
    ensures { result ≡ serial_or_zero uid }
{
    match uid {
        None => 0,
        Some(uid) => serial_of(uid).unwrap_or(0),
    }
}

fn reference_uid(object: &Object) -> Option<Uid>
    ensures { result ≡ ref_uid (reference_of object.now) }
{
    match object {
        Object::Volume(volume) => match &volume.claim_ref {
            None => None,
            Some(reference) => reference.uid,
        },
        _ => None,
    }
}

/// The greatest of the object's version and of the serials that stand in it.
fn greatest_number(object: &Object) -> Version
    ensures { result ≡ greatest_number object.now }
{
    let meta = meta_of(object);
    let serial = serial_or_zero(meta.uid);
    let reference = serial_or_zero(reference_uid(object));
    meta.version.max(serial.max(reference))
}

/// The version with which a world of these imports begins.
pub fn base_of(imports: &[Object]) -> Version
    ensures { result ≡ base_of imports.now }
{
    let mut base = 0;
    let mut left = imports.len();
    while left > 0 {
        left -= 1;
        base = greatest_number(&imports[left]).max(base);
    }
    base
}

fn is_bound(phase: VolumePhase) -> bool
    ensures { result ≡ is_bound phase }
{
    match phase {
        VolumePhase::Bound => true,
        _ => false,
    }
}

fn binds_claim(object: &Object, claim: &Claim) -> bool
    ensures { result ≡ binds_claim claim.now object.now }
{
    match object {
        Object::Volume(volume) => {
            volume.meta.name.is(claim.volume_name.as_str())
                && carries(volume, claim)
                && is_bound(volume.phase)
        }
        _ => false,
    }
}

fn is_bound_among(imports: &[Object], claim: &Claim) -> bool
    ensures { result ≡ list_any (binds_claim claim.now) imports.now }
{
    for object in imports {
        if binds_claim(object, claim) {
            return true;
        }
    }
    false
}

fn imported_phase(imports: &[Object], claim: &Claim) -> ClaimPhase
    ensures { result ≡ imported_phase imports.now claim.now }
{
    if !is_completed(claim) {
        return ClaimPhase::Pending;
    }
    if is_bound_among(imports, claim) {
        claim.phase
    } else {
        ClaimPhase::Lost
    }
}

/// The moment of creation that an import gets.
fn imported_creation(alloc: Global, meta: &Meta) -> Result<Text, OutOfMemory>
    ensures { IfOk result (λ created. created ≡ (imported_meta meta.now).created) }
{
    if is_empty(&meta.created) {
        return Text::new(alloc, FIRST_MOMENT);
    }
    meta.created.copy(alloc)
}

/// Gives an imported object its moment of creation and this finalizer.
fn protect(alloc: Global, meta: &mut Meta, finalizer: &str) -> Result<(), OutOfMemory>
    ensures { OnOk result (meta.new ≡ record (imported_meta meta.old) { finalizers = with_finalizer finalizer.now meta.old.finalizers }) }
{
    meta.created = imported_creation(alloc, meta)?;
    add_finalizer(alloc, &mut meta.finalizers, finalizer)
}

fn imported_volume(alloc: Global, volume: &Shared<Volume>) -> Result<Shared<Volume>, OutOfMemory>
    ensures { IfOk result (λ v. v ≡ record volume.now { meta = record (imported_meta volume.now.meta) { finalizers = with_finalizer pv_protection volume.now.meta.finalizers } }) }
{
    let mut imported = volume.copy(alloc)?;
    let own = imported.value_mut(alloc)?;
    protect(alloc, &mut own.meta, PV_PROTECTION)?;
    Ok(imported)
}

/// Gives an imported claim this phase, its moment of creation and its finalizer.
fn begin_claim(alloc: Global, claim: &mut Claim, phase: ClaimPhase) -> Result<(), OutOfMemory>
    ensures { OnOk result (claim.new ≡ record claim.old { meta = record (imported_meta claim.old.meta) { finalizers = with_finalizer pvc_protection claim.old.meta.finalizers }; phase = phase }) }
{
    claim.phase = phase;
    protect(alloc, &mut claim.meta, PVC_PROTECTION)
}

fn imported_claim(
    alloc: Global,
    imports: &[Object],
    claim: &Shared<Claim>,
) -> Result<Shared<Claim>, OutOfMemory>
    ensures { IfOk result (λ c. c ≡ record claim.now { meta = record (imported_meta claim.now.meta) { finalizers = with_finalizer pvc_protection claim.now.meta.finalizers }; phase = imported_phase imports.now claim.now }) }
{
    let phase = imported_phase(imports, claim);
    let mut imported = claim.copy(alloc)?;
    begin_claim(alloc, imported.value_mut(alloc)?, phase)?;
    Ok(imported)
}

/// The object with the metadata of an import.
fn with_imported_meta(alloc: Global, object: &Object) -> Result<Object, OutOfMemory>
    ensures { IfOk result (λ o. o ≡ with_meta object.now (imported_meta (meta_of object.now))) }
{
    let created = imported_creation(alloc, meta_of(object))?;
    let mut imported = object.copy(alloc)?;
    write_meta(alloc, &mut imported, MetaChange::Creation(created))?;
    Ok(imported)
}

/// What is made of an imported object.
#[tactic(auto, unfolding(binder_model::specs::Imports::imported_object, binder_model::specs::Store::with_meta))]
fn imported_object(
    alloc: Global,
    imports: &[Object],
    object: &Object,
) -> Result<Object, OutOfMemory>
    ensures { IfOk result (λ o. o ≡ imported_object imports.now object.now) }
{
    match object {
        Object::Volume(volume) => Ok(Object::Volume(imported_volume(alloc, volume)?)),
        Object::Claim(claim) => Ok(Object::Claim(imported_claim(alloc, imports, claim)?)),
        _ => with_imported_meta(alloc, object),
    }
}

/// Whether the object would have left.
fn is_dropped(object: &Object) -> bool
    ensures { result ≡ is_dropped object.now }
{
    match object {
        Object::Class(_) | Object::Node(_) => leaves(object),
        Object::Pod(pod) => is_deleting(&pod.meta) && !is_scheduled(pod),
        _ => false,
    }
}

/// Puts one of the imports in, unless it would have left.
fn put_import(
    alloc: Global,
    rows: &mut Vec<Object>,
    imports: &[Object],
    object: &Object,
) -> Result<(), OutOfMemory>
    requires { AreRows rows.old.items }
    ensures ok { OnOk result (rows.new.items ≡ with_import imports.now object.now rows.old.items) }
    ensures rising { AreRows rows.new.items }
{
    if is_dropped(object) {
        return Ok(());
    }
    let imported = imported_object(alloc, imports, object)?;
    let key = key_of(alloc, &imported)?;
    let _ = put_in(alloc, rows, &key, imported)?;
    Ok(())
}

/// The rows that the imports make.
pub fn rows_of_imports(alloc: Global, imports: &[Object]) -> Result<Vec<Object>, OutOfMemory>
    ensures rows { IfOk result (λ rows. rows.items ≡ rows_of_imports imports.now imports.now) }
    ensures rising { IfOk result (λ rows. AreRows rows.items) }
{
    let mut rows = Vec::new(alloc);
    let mut left = imports.len();
    while left > 0 {
        left -= 1;
        put_import(alloc, &mut rows, imports, &imports[left])?;
    }
    Ok(rows)
}
