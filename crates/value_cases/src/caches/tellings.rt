//! What the caches are told, and what they then know.

use crate::caches::words::{key, keys_line, objects_line};
use crate::words::word;
use call_types::reply::{Change, Event, Events, Refusal, Reply};
use call_types::request::Request;
use informer_cache::cache::{Cache, NextRead};
use informer_cache::caches::Caches;
use kube_types::key::meta_of;
use kube_types::lookup::Lookup;
use kube_types::objects::Object;
use object_text::listing::read_list;
use object_text::reading::read_object;
use plain_data::copies::{OutOfMemory, Plain};
use plain_data::items::Items;
use sample_objects::lines::split;
use sample_objects::words::{kind, number, text};
use std::alloc::Global;

fn list(alloc: Global, one: &str, namespace: &str) -> Result<Request, OutOfMemory> {
    match namespace {
        "*" => Ok(Request::List {
            kind: kind(one),
            namespace: None,
        }),
        _ => Ok(Request::List {
            kind: kind(one),
            namespace: Some(text(alloc, namespace)?),
        }),
    }
}

fn items(alloc: Global, manifests: &str) -> Items<Object> {
    match read_list(alloc, manifests.as_bytes()) {
        Err(_) => Items::new(alloc),
        Ok(items) => items,
    }
}

fn told(
    alloc: Global,
    caches: &mut Caches,
    request: &Request,
    reply: &Reply,
) -> Result<String, OutOfMemory> {
    let keys = caches.absorb(request, reply)?;
    keys_line(alloc, keys.as_slice())
}

/// The keys of the list of a kind, a namespace or `*`, a version and the objects.
pub fn listed(alloc: Global, caches: &mut Caches, words: &str) -> Result<String, OutOfMemory> {
    let (one, rest) = split(words);
    let (namespace, rest) = split(rest);
    let (version, manifests) = split(rest);
    let request = list(alloc, one, namespace)?;
    let reply = Reply::Listed {
        items: items(alloc, manifests),
        version: number(version),
    };
    told(alloc, caches, &request, &reply)
}

fn change(word: &str) -> Change {
    match word.as_bytes() {
        [b'A', ..] => Change::Added,
        [b'D', ..] => Change::Deleted,
        _ => Change::Modified,
    }
}

// The events of the objects, each with the change whose word stands at its place.
fn events(alloc: Global, changes: &str, objects: &[Object]) -> Result<Items<Event>, OutOfMemory> {
    let mut found = Items::new(alloc);
    let mut words = changes.split(',');
    for object in objects {
        let word = words.next().unwrap_or("M");
        let version = meta_of(object).version;
        found.push(Event {
            change: change(word),
            version,
            object: object.copy(alloc)?,
        })?;
    }
    Ok(found)
}

/// The keys of the events of a kind, a start, an end, changes `A`, `M` or `D`, and the objects.
pub fn watched(alloc: Global, caches: &mut Caches, words: &str) -> Result<String, OutOfMemory> {
    let (one, rest) = split(words);
    let (from, rest) = split(rest);
    let (upto, rest) = split(rest);
    let (changes, manifests) = split(rest);
    let objects = items(alloc, manifests);
    let request = Request::Watch {
        kind: kind(one),
        from: number(from),
    };
    let reply = Reply::Events(Events {
        events: events(alloc, changes, objects.as_slice())?,
        upto: number(upto),
    });
    told(alloc, caches, &request, &reply)
}

/// A watch that was answered Gone.
pub fn gone(alloc: Global, caches: &mut Caches, words: &str) -> Result<String, OutOfMemory> {
    let (one, from) = split(words);
    let request = Request::Watch {
        kind: kind(one),
        from: number(from),
    };
    let reply = Reply::Refused(Refusal::Gone { oldest: 9 });
    told(alloc, caches, &request, &reply)
}

/// An own write of the manifest's object, at its version.
pub fn note(alloc: Global, caches: &mut Caches, manifest: &str) -> Result<String, OutOfMemory> {
    match read_object(alloc, manifest.as_bytes()) {
        Err(_) => word(alloc, "no object"),
        Ok(object) => {
            caches.note(&object)?;
            word(alloc, "noted")
        }
    }
}

/// An own write of this version with which the object of the key left.
pub fn forget(alloc: Global, caches: &mut Caches, words: &str) -> Result<String, OutOfMemory> {
    let (version, named) = split(words);
    let key = key(alloc, named)?;
    caches.forget(&key, number(version))?;
    word(alloc, "forgotten")
}

fn ask_line(alloc: Global, ask: NextRead) -> Result<String, OutOfMemory> {
    match ask {
        NextRead::List => word(alloc, "list"),
        NextRead::Watch { from } => Ok(format!(in alloc; "watch {from}")?),
    }
}

/// The read that keeps the cache of a kind up to date.
pub fn ask(alloc: Global, caches: &Caches, one: &str) -> Result<String, OutOfMemory> {
    ask_line(alloc, caches.ask(kind(one)))
}

/// The objects of a kind.
pub fn rows(alloc: Global, caches: &Caches, one: &str) -> Result<String, OutOfMemory> {
    objects_line(alloc, caches.cache(kind(one)).objects())
}

fn named(alloc: Global, object: Option<&Object>) -> Result<String, OutOfMemory> {
    match object {
        None => word(alloc, "none"),
        Some(object) => word(alloc, meta_of(object).name.as_str()),
    }
}

/// The name of the object of a key, if it is there.
pub fn row(alloc: Global, caches: &Caches, words: &str) -> Result<String, OutOfMemory> {
    let key = key(alloc, words)?;
    named(alloc, caches.row(&key))
}

/// The name of the object at a place among those of a kind, and how many there are.
pub fn place(alloc: Global, caches: &Caches, words: &str) -> Result<String, OutOfMemory> {
    let (one, at) = split(words);
    let at = usize::try_from(number(at)).unwrap_or(0);
    let name = named(alloc, caches.at(kind(one), at))?;
    let count = caches.count(kind(one));
    Ok(format!(in alloc; "{name} of {count}")?)
}

/// What a cache of a kind alone knows after one list of that kind: a version and the objects.
pub fn alone(alloc: Global, words: &str) -> Result<String, OutOfMemory> {
    let (one, rest) = split(words);
    let (version, manifests) = split(rest);
    let mut cache = Cache::new(alloc, kind(one));
    let request = list(alloc, one, "*")?;
    let reply = Reply::Listed {
        items: items(alloc, manifests),
        version: number(version),
    };
    let _ = cache.absorb(&request, &reply)?;
    objects_line(alloc, cache.objects())
}
