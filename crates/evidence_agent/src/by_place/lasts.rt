//! The place of the last entry on each topic.

ghost use Rattle.std.specs.Prelude.{◌≡◌, [], ◌∷◌, List, IfErr, IfOk, OnOk, length, option_map, Some};
ghost use Rattle.std.specs.List.Sorted.{IsSearchInRange};
ghost use Rattle.call_types.specs.declared.entry.Entry.{Entry};
ghost use Rattle.evidence_agent.specs.Places.Topics.{found_topic, last_of, object_topic, topic_by};
ghost use Rattle.evidence_agent.specs.Places.Rows.{AreLasts, AreLastsOf, place_in};
ghost use Rattle.evidence_agent.specs.Places.Steps.Putting.{IsLastAt, IsLastGap, Puts, last_row, put_last};

use crate::by_place::topics::{About, Matter, Topic, asked_topic, matter_index, read_topic};
use call_types::entry::Entry;
use call_types::reply::Reply;
use kube_types::copies::OutOfMemory;
use kube_types::data::data_id;
use kube_types::key::{Key, kind_index};
use kube_types::objects::Object;
use kube_types::parts::Kind;
use kube_types::rows::{Ranked, place_of};
use kube_types::text::Text;
use std::alloc::Global;
use std::cmp::Ordering;
use std::marker::Model;

/// A topic, and where the last entry on it stands.
pub struct Last {
    pub topic: Topic,
    pub place: usize,
}

impl Drop for Last {
    fn drop(self) {
        let Last { topic, place: _ } = self;
        drop(topic);
    }
}

impl<'a> Ranked<About<'a>> for Last {
    ghost use Rattle.evidence_agent.specs.Places.Topics.{topic_by, topic_cmp};

    ghost rank = { λ r a. topic_cmp r.topic (topic_by a) };

    fn rank(&self, key: &About<'a>) -> Ordering {
        matter_index(self.topic.matter)
            .cmp(&matter_index(key.matter))
            .then(
                kind_index(self.topic.key.kind)
                    .cmp(&kind_index(key.kind))
                    .then(self.topic.key.namespace.as_str().cmp(key.namespace))
                    .then(self.topic.key.name.as_str().cmp(key.name)),
            )
            .then(self.topic.uid.0.cmp(&key.uid.0))
    }
}

/// Where the row of the topic is, or where it would stand.
fn row_place(rows: &[Last], about: &About<'_>) -> Result<usize, usize>
    requires { AreLasts rows.now }
    ensures bound { IsSearchInRange result (length rows.now) }
    ensures at { IfOk result (IsLastAt rows.now (topic_by about.now)) }
    ensures gap { IfErr result (IsLastGap rows.now (topic_by about.now)) }
{
    place_of(rows, about)
}

/// The place in the row of the topic.
fn place_in(rows: &[Last], about: &About<'_>) -> Option<usize>
    requires { AreLasts rows.now }
    ensures { result ≡ place_in (topic_by about.now) rows.now }
{
    match row_place(rows, about) {
        Ok(at) => Some(rows[at].place),
        Err(_) => None,
    }
}

fn new_row(alloc: Global, about: &About<'_>, place: usize) -> Result<Last, OutOfMemory>
    ensures { IfOk result (λ row. row ≡ last_row (topic_by about.now) place) }
{
    Ok(Last {
        topic: Topic {
            matter: about.matter,
            key: Key {
                kind: about.kind,
                namespace: Text::new(alloc, about.namespace)?,
                name: Text::new(alloc, about.name)?,
            },
            uid: about.uid,
        },
        place,
    })
}

/// Puts the place into the row of the topic.
fn put_at(
    alloc: Global,
    rows: &mut Vec<Last>,
    about: &About<'_>,
    place: usize,
) -> Result<(), OutOfMemory>
    requires { AreLasts rows.old.items }
    ensures ok { OnOk result (rows.new.items ≡ put_last (topic_by about.now) place rows.old.items) }
    ensures rising { AreLasts rows.new.items }
{
    let row = new_row(alloc, about, place)?;
    match row_place(rows, about) {
        Ok(at) => {
            rows[at] = row;
            Ok(())
        }
        Err(at) => {
            rows.insert(at, row)?;
            Ok(())
        }
    }
}

/// The same, by what is told then.
fn put_about(
    alloc: Global,
    rows: &mut Vec<Last>,
    about: &About<'_>,
    place: usize,
) -> Result<(), OutOfMemory>
    requires { AreLasts rows.old.items }
    ensures ok { OnOk result (Puts (Some (topic_by about.now)) place rows.old.items rows.new.items) }
    ensures rising { AreLasts rows.new.items }
{
    put_at(alloc, rows, about, place)
}

/// The same, where there is a topic.
fn put_some(
    alloc: Global,
    rows: &mut Vec<Last>,
    about: Option<About<'_>>,
    place: usize,
) -> Result<(), OutOfMemory>
    requires { AreLasts rows.old.items }
    ensures ok { OnOk result (Puts (option_map topic_by about.entry) place rows.old.items rows.new.items) }
    ensures rising { AreLasts rows.new.items }
{
    match about {
        None => Ok(()),
        Some(about) => put_about(alloc, rows, &about, place),
    }
}

/// Puts the place into the row of the topic of which an object that was read speaks.
fn put_object(
    alloc: Global,
    rows: &mut Vec<Last>,
    object: &Object,
    place: usize,
) -> Result<(), OutOfMemory>
    requires { AreLasts rows.old.items }
    ensures ok { OnOk result (Puts (object_topic object.now) place rows.old.items rows.new.items) }
    ensures rising { AreLasts rows.new.items }
{
    match object {
        Object::Claim(claim) => {
            let name = claim.volume_name.as_str();
            let about = About::object(Matter::Naming, Kind::Node, "", name);
            put_about(alloc, rows, &about, place)
        }
        Object::Volume(volume) => {
            let id = data_id(alloc, &volume.source)?;
            put_about(alloc, rows, &About::data(Matter::Over, &id), place)
        }
        _ => Ok(()),
    }
}

/// Puts the place into the row of the topic of which an answer speaks.
fn put_found(
    alloc: Global,
    rows: &mut Vec<Last>,
    reply: &Reply,
    place: usize,
) -> Result<(), OutOfMemory>
    requires { AreLasts rows.old.items }
    ensures ok { OnOk result (Puts (found_topic reply.now) place rows.old.items rows.new.items) }
    ensures rising { AreLasts rows.new.items }
{
    match reply {
        Reply::Found(object) => put_object(alloc, rows, object, place),
        _ => Ok(()),
    }
}

/// Puts the entry's place into the rows of the topics of which it speaks.
fn learn(
    alloc: Global,
    rows: &mut Vec<Last>,
    entry: &Entry,
    place: usize,
) -> Result<(), OutOfMemory>
    requires { AreLasts rows.old.items }
    ensures ok { OnOk result ((mine : List Entry) → length mine ≡ place → AreLastsOf rows.old.items mine → AreLastsOf rows.new.items (entry.now ∷ mine)) }
    ensures rising { AreLasts rows.new.items }
{
    put_some(alloc, rows, asked_topic(&entry.request), place)?;
    if !entry.told {
        return Ok(());
    }
    put_some(alloc, rows, read_topic(&entry.request, &entry.reply), place)?;
    put_found(alloc, rows, &entry.reply, place)
}

/// The place of the last entry on each topic.
pub struct Lasts {
    rows: Vec<Last>,
}

impl Drop for Lasts {
    fn drop(self) {
        let Lasts { rows } = self;
        drop(rows);
    }
}

impl Model for Lasts {
    ghost use Rattle.std.specs.Prelude.{List};
    ghost use Rattle.evidence_agent.specs.declared.by_place.lasts.Last.{Last};
    ghost use Rattle.evidence_agent.specs.Places.Rows.{AreLasts};

    ghost Value = { List Last };

    ghost view = { λ l. l.rows.items };

    ghost invariant = { λ l. AreLasts l.rows.items };
}

impl Lasts {
    /// The places in no entries.
    pub fn new(alloc: Global) -> Lasts
        ensures { AreLastsOf result [] }
    {
        Lasts {
            rows: Vec::new(alloc),
        }
    }

    /// Where the last entry on the topic stands.
    pub fn place(&self, about: &About<'_>) -> Option<usize>
        ensures { (mine : List Entry) → AreLastsOf self.now mine → result ≡ last_of (topic_by about.now) mine }
    {
        place_in(&self.rows, about)
    }

    /// Takes one more entry, which stands at the place.
    pub fn learn(&mut self, alloc: Global, entry: &Entry, place: usize) -> Result<(), OutOfMemory>
        ensures { OnOk result ((mine : List Entry) → length mine ≡ place → AreLastsOf self.old mine → AreLastsOf self.new (entry.now ∷ mine)) }
    {
        learn(alloc, &mut self.rows, entry, place)
    }
}
