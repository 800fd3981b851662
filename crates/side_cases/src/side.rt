//! Lines of the side: `objects` and a List, `quota` with a namespace, bytes and claims, `begin` with the bytes for growth;
//! then `used`, `allows`, `done`, `left`, `asked`, `grow`, `step` and `rows`. `grown` and `copied` stand on nothing before.

use crate::{growth, quotas};
use expand_ops::sizes::Sizes;
use kube_types::table::Table;
use object_text::listing::read_list;
use plain_data::copies::{OutOfMemory, Plain};
use quota_rules::quotas::Quotas;
use sample_objects::lines::{split, word};
use sample_objects::words::{number, words_of};
use side_calls::quotas::Quota;
use std::alloc::Global;

/// The objects of a world, the quotas that were named, and what stands against them and grows.
pub struct Side {
    pub objects: Table,
    pub named: Vec<Quota>,
    pub tally: Quotas,
    pub sizes: Sizes,
}

impl Drop for Side {
    fn drop(self) {
        let Side {
            objects,
            named,
            tally,
            sizes,
        } = self;
        drop(objects);
        drop(named);
        drop(tally);
        drop(sizes);
    }
}

impl Side {
    /// No objects, no quotas, and nothing for growth.
    pub fn new(alloc: Global) -> Result<Side, OutOfMemory> {
        Ok(Side {
            objects: Table::new(alloc),
            named: Vec::new(alloc),
            tally: Quotas::of(alloc, &[], &[])?,
            sizes: Sizes::new(alloc, 0),
        })
    }

    /// The objects of a List stand, and no others.
    fn give(&mut self, alloc: Global, list: &str) -> Result<String, OutOfMemory> {
        match read_list(alloc, list.as_bytes()) {
            Err(_) => word(alloc, "no list"),
            Ok(objects) => {
                let mut table = Table::new(alloc);
                for object in objects.as_slice() {
                    let _ = table.put(alloc, object.copy(alloc)?)?;
                }
                self.objects = table;
                word(alloc, "given")
            }
        }
    }

    /// The claims of the objects count against the quotas that were named, and none has grown.
    fn begin(&mut self, alloc: Global, reserve: u64) -> Result<String, OutOfMemory> {
        self.tally = Quotas::of(alloc, &self.named, self.objects.as_slice())?;
        self.sizes = Sizes::new(alloc, reserve);
        self.named = Vec::new(alloc);
        word(alloc, "begun")
    }

    fn name(
        &mut self,
        alloc: Global,
        namespace: &str,
        bytes: &str,
        claims: &str,
    ) -> Result<String, OutOfMemory> {
        self.named
            .push(quotas::quota(alloc, namespace, bytes, claims)?)?;
        word(alloc, "named")
    }
}

fn of_words(
    alloc: Global,
    side: &mut Side,
    call: &str,
    words: &[&str],
) -> Result<String, OutOfMemory> {
    match (call, words) {
        ("begin", [reserve]) => side.begin(alloc, number(reserve)),
        ("quota", [namespace, bytes, claims]) => side.name(alloc, namespace, bytes, claims),
        ("used", [namespace]) => quotas::used(alloc, &side.tally, namespace),
        ("allows", [namespace, bytes, claims]) => {
            quotas::allows(alloc, &side.tally, namespace, bytes, claims)
        }
        ("grow", [namespace, name, bytes]) => growth::grow(alloc, side, namespace, name, bytes),
        ("step", _) => growth::step(alloc, &mut side.sizes),
        ("rows", _) => growth::rows(alloc, side.sizes.rows()),
        _ => word(alloc, "no such call"),
    }
}

/// What is written for a line.
pub fn answer(alloc: Global, side: &mut Side, line: &str) -> Result<String, OutOfMemory> {
    let (call, rest) = split(line);
    match call {
        "objects" => side.give(alloc, rest),
        "grown" => growth::grown(alloc, rest),
        "done" | "left" | "asked" | "copied" => growth::of_object(alloc, side, call, rest),
        _ => {
            let words = words_of(alloc, rest)?;
            of_words(alloc, side, call, &words)
        }
    }
}
