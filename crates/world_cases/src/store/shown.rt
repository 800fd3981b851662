//! What the store, the log and the devices show without a request.

use crate::store::bench::Bench;
use crate::words::word;
use call_types::reply::{Refusal, Reply};
use call_types::request::Request;
use call_types::setup::Setup;
use history_text::setups::print_setup;
use kube_types::key::meta_of;
use kube_types::lookup::Lookup;
use kube_types::objects::Object;
use plain_data::copies::{OutOfMemory, Plain, copy_all};
use plain_data::items::Items;
use plain_data::text::Text;
use sample_objects::lines::text_of;
use sample_objects::nodes::labels;
use sample_objects::words::{Named, key, kind, number, text};
use std::alloc::Global;
use watch_log::log::LogError;

fn flag(holds: bool) -> &'static str {
    if holds { "yes" } else { "no" }
}

fn name_of(found: Option<&Object>) -> &str {
    match found {
        None => "none",
        Some(object) => meta_of(object).name.as_str(),
    }
}

// The name of the object at a place, as a look-up shows it.
fn at_place<L: Lookup>(
    alloc: Global,
    lookup: &L,
    one: &str,
    place: &str,
) -> Result<String, OutOfMemory> {
    let place = usize::try_from(number(place)).unwrap_or(0);
    let name = name_of(lookup.at(kind(one), place));
    let count = lookup.count(kind(one));
    Ok(format!(in alloc; "{name} of {count}")?)
}

fn by_key(alloc: Global, bench: &Bench, named: Named) -> Result<String, OutOfMemory> {
    let key = key(alloc, named)?;
    let name = name_of(bench.store.row(&key));
    let count = bench.store.objects().len();
    Ok(format!(in alloc; "{name} of {count}")?)
}

fn counts(alloc: Global, bench: &Bench) -> Result<String, OutOfMemory> {
    let counts = bench.devices.counts();
    let mounted = counts.mounted;
    let stored = counts.stored;
    let calls = counts.calls;
    Ok(format!(in alloc; "mounted {mounted} data {stored} calls {calls}")?)
}

fn versions(alloc: Global, bench: &Bench) -> Result<String, OutOfMemory> {
    let store = bench.store.version();
    let log = bench.log.version();
    let oldest = bench.log.oldest();
    Ok(format!(in alloc; "store {store} log {log} oldest {oldest}")?)
}

fn has_pool(
    alloc: Global,
    bench: &Bench,
    provisioner: &str,
    bytes: &str,
    rest: &[&str],
) -> Result<String, OutOfMemory> {
    let provisioner = text(alloc, provisioner)?;
    let labels = labels(alloc, rest)?;
    let fits = bench
        .devices
        .fits(&provisioner, number(bytes), labels.as_ref());
    word(alloc, flag(fits))
}

fn of_devices(alloc: Global, bench: &Bench, verb: &str, name: &str) -> Result<String, OutOfMemory> {
    let name = text(alloc, name)?;
    if verb == "epoch" {
        let epoch = bench.devices.epoch(&name);
        return Ok(format!(in alloc; "{epoch}")?);
    }
    let has = flag(bench.devices.has_data(&name));
    word(alloc, has)
}

// The ids of the pods that are mounted on a node.
fn mounted(alloc: Global, bench: &Bench, node: &str) -> Result<String, OutOfMemory> {
    let node = text(alloc, node)?;
    let mut line = Text::new(alloc, "pods")?;
    for row in bench.devices.mounts(&node) {
        let pod = row.pod.text(alloc)?;
        line.push_str(" ")?;
        line.push_str(pod.as_str())?;
    }
    word(alloc, line.as_str())
}

fn watch(alloc: Global, bench: &Bench, one: &str, from: &str) -> Result<String, OutOfMemory> {
    let kind = kind(one);
    let from = number(from);
    match bench.log.since(kind, from) {
        Err(LogError::Gone { oldest }) => {
            let reply = Reply::Refused(Refusal::Gone { oldest });
            bench.line(Request::Watch { kind, from }, reply, true)
        }
        Err(LogError::Ahead { current }) => Ok(format!(in alloc; "Ahead {current}")?),
        Err(LogError::OutOfMemory) => Err(OutOfMemory),
        Ok(events) => bench.line(Request::Watch { kind, from }, Reply::Events(events), true),
    }
}

// The number of a watch's events, and the first and last version of them.
fn span(alloc: Global, bench: &Bench, one: &str, from: &str) -> Result<String, OutOfMemory> {
    match bench.log.since(kind(one), number(from)) {
        Err(_) => word(alloc, "none"),
        Ok(events) => {
            let count = events.events.as_slice().len();
            let first = events
                .events
                .as_slice()
                .first()
                .map_or(0, |event| event.version);
            let upto = events.upto;
            Ok(format!(in alloc; "{count} from {first} to {upto}")?)
        }
    }
}

fn setup_of(alloc: Global, bench: &Bench) -> Result<Setup, OutOfMemory> {
    let pools = Items::from_vec(copy_all(alloc, &bench.pools)?);
    let faults = Items::from_vec(copy_all(alloc, &bench.faults)?);
    Ok(Setup {
        pools,
        faults,
        imports: Items::new(alloc),
    })
}

// The setup line of the pools and faults that were named, from a copy that is the same.
fn setup(alloc: Global, bench: &Bench) -> Result<String, OutOfMemory> {
    let setup = setup_of(alloc, bench)?;
    let copy = setup.copy(alloc)?;
    if !copy.same(&setup) {
        return word(alloc, "not the same");
    }
    text_of(alloc, print_setup(alloc, &copy)?)
}

/// What is shown for the words, or none where they show nothing.
pub fn shown(
    alloc: Global,
    bench: &Bench,
    verb: &str,
    words: &[&str],
) -> Result<Option<String>, OutOfMemory> {
    match (verb, words) {
        ("versions", _) => Ok(Some(versions(alloc, bench)?)),
        ("setup", _) => Ok(Some(setup(alloc, bench)?)),
        ("counts", _) => Ok(Some(counts(alloc, bench)?)),
        ("watch", [one, from]) => Ok(Some(watch(alloc, bench, one, from)?)),
        ("span", [one, from]) => Ok(Some(span(alloc, bench, one, from)?)),
        ("place", [one, place]) => Ok(Some(at_place(alloc, &bench.store, one, place)?)),
        ("row", [kind, namespace, name]) => Ok(Some(by_key(
            alloc,
            bench,
            Named {
                kind,
                namespace,
                name,
            },
        )?)),
        ("fits", [provisioner, bytes, rest @ ..]) => {
            Ok(Some(has_pool(alloc, bench, provisioner, bytes, rest)?))
        }
        ("mounted", [node]) => Ok(Some(mounted(alloc, bench, node)?)),
        ("epoch" | "has", [word]) => Ok(Some(of_devices(alloc, bench, verb, word)?)),
        _ => Ok(None),
    }
}
