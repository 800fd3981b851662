//! The objects of one manifest, or of a list of manifests.

ghost use Rattle.std.specs.Prelude.{◌≡◌, [], Some};
ghost use Rattle.object_text.specs.declared.errors.Member.TheVariants as members;
ghost use Rattle.serde_json.specs.View.{view, items_view};
ghost use Rattle.object_text.specs.Answers.{Gives, ListGives};
ghost use Rattle.object_text.specs.Listing.{is_long, item_of, items_from, is_list, list_items, one_item, list_in, list_of};
ghost use Rattle.object_text.specs.MemberReaders.{needed_items};

use crate::errors::{ListError, Member, ObjectError};
use crate::member_readers::{at, needed_items};
use crate::reading::{MOST_BYTES, object_of, value_of};
use json_text::look::text_in;
use json_text::sizes::is_longer;
use kube_types::items::Items;
use kube_types::objects::Object;
use serde_json::Value;
use std::alloc::Global;

fn is_long(value: &Value) -> bool
    ensures { result ≡ is_long (view value.now) }
{
    is_longer(value, MOST_BYTES)
}

/// The object of an item, whose compact text has at most 8 KiB.
#[tactic(auto, unfolding(crate::specs::Listing::item_of))]
pub fn item_of(alloc: Global, value: &Value) -> Result<Object, ObjectError>
    ensures { Gives result (item_of (view value.now)) }
{
    if is_long(value) {
        return Err(ObjectError::TooLong);
    }
    object_of(alloc, value)
}

fn items_of(alloc: Global, values: &[Value]) -> Result<Items<Object>, ListError>
    ensures { ListGives result (items_from 1 (items_view values.now) []) }
{
    let mut found = Items::new(alloc);
    let mut item = 1;
    for value in values {
        match item_of(alloc, value) {
            Ok(object) => {
                if found.push(object).is_err() {
                    return Err(ListError {
                        item,
                        reason: ObjectError::OutOfMemory,
                    });
                }
            }
            Err(reason) => return Err(ListError { item, reason }),
        }
        item += 1;
    }
    Ok(found)
}

fn is_list(value: &Value) -> bool
    ensures { result ≡ is_list (view value.now) }
{
    match text_in(at(Some(value), Member::Kind)) {
        Some(kind) => kind == "List",
        None => false,
    }
}

fn list_items(alloc: Global, value: &Value) -> Result<Items<Object>, ListError>
    ensures { ListGives result (list_items (needed_items members.Items (Some (view value.now)))) }
{
    match needed_items(Some(value), Member::Items) {
        Ok(values) => items_of(alloc, values),
        Err(reason) => Err(ListError { item: 1, reason }),
    }
}

fn one_item(alloc: Global, value: &Value) -> Result<Items<Object>, ListError>
    ensures { ListGives result (one_item (item_of (view value.now))) }
{
    let mut found = Items::new(alloc);
    match item_of(alloc, value) {
        Ok(object) => {
            if found.push(object).is_err() {
                return Err(ListError {
                    item: 1,
                    reason: ObjectError::OutOfMemory,
                });
            }
            Ok(found)
        }
        Err(reason) => Err(ListError { item: 1, reason }),
    }
}

#[tactic(auto, unfolding(crate::specs::Listing::list_in))]
fn list_in(alloc: Global, value: &Value) -> Result<Items<Object>, ListError>
    ensures { ListGives result (list_in (view value.now)) }
{
    if value.as_object().is_none() {
        return Err(ListError {
            item: 1,
            reason: ObjectError::NotObject,
        });
    }
    if is_list(value) {
        list_items(alloc, value)
    } else {
        one_item(alloc, value)
    }
}

/// The objects of a text, in order: of one manifest, or of an object of kind `List`, whose other
/// members are not looked at.
#[tactic(auto, unfolding(crate::specs::Listing::list_of))]
pub fn read_list(alloc: Global, text: &[u8]) -> Result<Items<Object>, ListError>
    ensures { ListGives result (list_of text.now) }
{
    match value_of(alloc, text) {
        Ok(tree) => list_in(alloc, tree.value()),
        Err(reason) => Err(ListError { item: 1, reason }),
    }
}
