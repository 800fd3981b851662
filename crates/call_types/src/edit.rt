//! Typed edits.

use kube_types::copies::{OutOfMemory, Plain};
use kube_types::parts::Policy;
use kube_types::text::Text;
use std::alloc::Global;

/// One typed change to the object that stands in the store.
#[derive(Debug)]
pub enum Edit {
    AddFinalizer(Text),
    DropFinalizer(Text),
    DropLabel(Text),
    DropAnnotation(Text),
    SetLabel { key: Text, value: Text },
    SetAnnotation { key: Text, value: Text },
    SetVolumeName(Text),
    SetPolicy(Policy),
    SetClaimRef { namespace: Text, name: Text },
    ClearClaimRef,
}

impl Drop for Edit {
    fn drop(self) {
        match self {
            Edit::AddFinalizer(finalizer) => drop(finalizer),
            Edit::DropFinalizer(finalizer) => drop(finalizer),
            Edit::DropLabel(key) => drop(key),
            Edit::DropAnnotation(key) => drop(key),
            Edit::SetLabel { key, value } => {
                drop(key);
                drop(value);
            }
            Edit::SetAnnotation { key, value } => {
                drop(key);
                drop(value);
            }
            Edit::SetVolumeName(name) => drop(name),
            Edit::SetPolicy(_) => {}
            Edit::SetClaimRef { namespace, name } => {
                drop(namespace);
                drop(name);
            }
            Edit::ClearClaimRef => {}
        }
    }
}

impl Plain for Edit {
    fn copy(&self, alloc: Global) -> Result<Edit, OutOfMemory> {
        match self {
            Edit::AddFinalizer(finalizer) => Ok(Edit::AddFinalizer(finalizer.copy(alloc)?)),
            Edit::DropFinalizer(finalizer) => Ok(Edit::DropFinalizer(finalizer.copy(alloc)?)),
            Edit::DropLabel(key) => Ok(Edit::DropLabel(key.copy(alloc)?)),
            Edit::DropAnnotation(key) => Ok(Edit::DropAnnotation(key.copy(alloc)?)),
            Edit::SetLabel { key, value } => Ok(Edit::SetLabel {
                key: key.copy(alloc)?,
                value: value.copy(alloc)?,
            }),
            Edit::SetAnnotation { key, value } => Ok(Edit::SetAnnotation {
                key: key.copy(alloc)?,
                value: value.copy(alloc)?,
            }),
            Edit::SetVolumeName(name) => Ok(Edit::SetVolumeName(name.copy(alloc)?)),
            Edit::SetPolicy(policy) => Ok(Edit::SetPolicy(*policy)),
            Edit::SetClaimRef { namespace, name } => Ok(Edit::SetClaimRef {
                namespace: namespace.copy(alloc)?,
                name: name.copy(alloc)?,
            }),
            Edit::ClearClaimRef => Ok(Edit::ClearClaimRef),
        }
    }

    fn same(&self, other: &Edit) -> bool {
        match (self, other) {
            (Edit::AddFinalizer(finalizer), Edit::AddFinalizer(other_finalizer)) => {
                finalizer.same(other_finalizer)
            }
            (Edit::DropFinalizer(finalizer), Edit::DropFinalizer(other_finalizer)) => {
                finalizer.same(other_finalizer)
            }
            (Edit::DropLabel(key), Edit::DropLabel(other_key)) => { key.same(other_key) }
            (Edit::DropAnnotation(key), Edit::DropAnnotation(other_key)) => { key.same(other_key) }
            (
                Edit::SetLabel { key, value },
                Edit::SetLabel {
                    key: other_key,
                    value: other_value,
                },
            ) => { key.same(other_key) && value.same(other_value) }
            (
                Edit::SetAnnotation { key, value },
                Edit::SetAnnotation {
                    key: other_key,
                    value: other_value,
                },
            ) => { key.same(other_key) && value.same(other_value) }
            (Edit::SetVolumeName(name), Edit::SetVolumeName(other_name)) => {
                name.same(other_name)
            }
            (Edit::SetPolicy(policy), Edit::SetPolicy(other_policy)) => { *policy == *other_policy }
            (
                Edit::SetClaimRef { namespace, name },
                Edit::SetClaimRef {
                    namespace: other_namespace,
                    name: other_name,
                },
            ) => { namespace.same(other_namespace) && name.same(other_name) }
            (Edit::ClearClaimRef, Edit::ClearClaimRef) => true,
            _ => false,
        }
    }
}
