//! Lines of the scheduler's choice: the name of the node that was refused last, or `-`, a blank and a List of objects with
//! one pod.

mod words;

use crate::delayed::words::choice_word;
use crate::words::{table_of, word, write_line};
use delayed_binding::{Choice, choose, prepare_write};
use kube_types::lookup::Lookup;
use kube_types::objects::{Object, Pod};
use kube_types::parts::Kind;
use kube_types::table::Table;
use kube_types::text::Text;
use object_text::listing::read_list;
use plain_data::copies::OutOfMemory;
use std::alloc::Global;

/// The node that was refused last, if any.
fn last_node(alloc: Global, word: &str) -> Result<Option<Text>, OutOfMemory> {
    if word == "-" {
        return Ok(None);
    }
    Ok(Some(Text::new(alloc, word)?))
}

/// The choice, and each of its writes.
fn with_writes(alloc: Global, table: &Table, choice: &Choice) -> Result<String, OutOfMemory> {
    let mut text = choice_word(alloc, choice)?;
    for nth in 0..9 {
        match prepare_write(alloc, table, choice, nth)? {
            None => return Ok(text),
            Some(request) => {
                text.push_str("; ")?;
                text.push_str(write_line(alloc, &request)?.as_str())?;
            }
        }
    }
    Ok(text)
}

fn for_pod(alloc: Global, table: &Table, pod: &Pod, last: &str) -> Result<String, OutOfMemory> {
    let last = last_node(alloc, last)?;
    let choice = choose(alloc, table, pod, last.as_ref())?;
    with_writes(alloc, table, &choice)
}

fn of_objects(alloc: Global, last: &str, objects: &[Object]) -> Result<String, OutOfMemory> {
    let table = table_of(alloc, objects)?;
    match table.at(Kind::Pod, 0) {
        Some(Object::Pod(pod)) => for_pod(alloc, &table, pod, last),
        _ => word(alloc, "no pod"),
    }
}

fn of_list(alloc: Global, last: &str, list: &str) -> Result<String, OutOfMemory> {
    match read_list(alloc, list.as_bytes()) {
        Err(_) => word(alloc, "no list"),
        Ok(objects) => of_objects(alloc, last, objects.as_slice()),
    }
}

/// What is chosen for the pod of a line, and each write that it comes to on the same objects.
pub fn answer(alloc: Global, line: &str) -> Result<String, OutOfMemory> {
    match line.split_once(' ') {
        None => word(alloc, "no list"),
        Some((last, list)) => of_list(alloc, last, list),
    }
}
