//! The pods that were told, by their ids.

ghost use Rattle.std.specs.Prelude.{◌≡◌, [], ◌∷◌, ◌++◌, List, IfOk, OnOk, length};
ghost use Rattle.std.specs.List.Sorted.{IsSearchInRange};
ghost use Rattle.kube_objects.specs.declared.objects.Object.{Object};
ghost use Rattle.kube_objects.specs.declared.objects.Object.TheVariants as objects;
ghost use Rattle.call_types.specs.declared.entry.Entry.{Entry};
ghost use Rattle.binder_model.specs.Told.{SomeOf, objects_in, objects_of_event, objects_of_events};
ghost use Rattle.evidence_agent.specs.Places.Places.{TellsAt};
ghost use Rattle.evidence_agent.specs.Pods.{ArePods, AreTold};

use call_types::entry::Entry;
use call_types::reply::{Change, Event, Reply};
use kube_types::copies::{OutOfMemory, Plain};
use kube_types::items::Items;
use kube_types::objects::{Object, Pod};
use kube_types::rows::{Ranked, place_of};
use kube_types::uid::Uid;
use std::alloc::Global;
use std::cmp::Ordering;
use std::marker::Model;

/// A pod, and the place of the entry that told it.
pub struct ToldPod {
    pub place: usize,
    pub pod: Pod,
}

impl Drop for ToldPod {
    fn drop(self) {
        let ToldPod { place: _, pod } = self;
        drop(pod);
    }
}

/// The tellings of the pod with this id, the oldest first.
pub struct PodPage {
    pub uid: Uid,
    pub told: Items<ToldPod>,
}

impl Drop for PodPage {
    fn drop(self) {
        let PodPage { uid: _, told } = self;
        drop(told);
    }
}

impl Ranked<Uid> for PodPage {
    ghost use Rattle.std.specs.Ordering.{nat_cmp};

    ghost rank = { λ p k. nat_cmp p.uid.0 k.0 };

    fn rank(&self, key: &Uid) -> Ordering {
        self.uid.0.cmp(&key.0)
    }
}

/// Pages in the order of their ids.
pub struct Pods {
    list: Vec<PodPage>,
}

impl Drop for Pods {
    fn drop(self) {
        let Pods { list } = self;
        drop(list);
    }
}

impl Model for Pods {
    ghost use Rattle.std.specs.Prelude.{List};
    ghost use Rattle.evidence_agent.specs.declared.pods.PodPage.{PodPage};

    ghost Value = { List PodPage };

    ghost view = { λ p. p.list.items };
}

/// Where the page of the pod is, or where it would stand.
fn page_place(pages: &[PodPage], uid: &Uid) -> Result<usize, usize>
    ensures { IsSearchInRange result (length pages.now) }
{
    place_of(pages, uid)
}

fn new_page(alloc: Global, uid: Uid, told: ToldPod) -> Result<PodPage, OutOfMemory>
    ensures { IfOk result (λ page. page.told ≡ told ∷ []) }
{
    let mut page = Items::new(alloc);
    page.push(told)?;
    Ok(PodPage { uid, told: page })
}

fn put_last(page: &mut PodPage, told: ToldPod) -> Result<(), OutOfMemory>
    ensures { OnOk result (page.new.told ≡ page.old.told ++ told ∷ []) }
{
    page.told.push(told)
}

/// Puts the telling last on the page of the pod.
fn add_to(
    alloc: Global,
    pages: &mut Vec<PodPage>,
    uid: Uid,
    told: ToldPod,
) -> Result<(), OutOfMemory>
    ensures { OnOk result ((mine : List Entry) → TellsAt mine told.place (objects.Pod told.pod) → ArePods pages.old.items mine → ArePods pages.new.items mine) }
{
    match page_place(pages, &uid) {
        Ok(at) => put_last(&mut pages[at], told),
        Err(at) => {
            let page = new_page(alloc, uid, told)?;
            pages.insert(at, page)?;
            Ok(())
        }
    }
}

/// Keeps a pod that was told at the place.
fn tell_pod(
    alloc: Global,
    pages: &mut Vec<PodPage>,
    place: usize,
    pod: &Pod,
) -> Result<(), OutOfMemory>
    ensures { OnOk result ((mine : List Entry) → TellsAt mine place (objects.Pod pod.now) → ArePods pages.old.items mine → ArePods pages.new.items mine) }
{
    match pod.meta.uid {
        None => Ok(()),
        Some(uid) => {
            let kept = pod.copy(alloc)?;
            add_to(alloc, pages, uid, ToldPod { place, pod: kept })
        }
    }
}

fn tell_object(
    alloc: Global,
    pages: &mut Vec<PodPage>,
    place: usize,
    object: &Object,
) -> Result<(), OutOfMemory>
    ensures { OnOk result ((mine : List Entry) → TellsAt mine place object.now → ArePods pages.old.items mine → ArePods pages.new.items mine) }
{
    match object {
        Object::Pod(pod) => tell_pod(alloc, pages, place, pod),
        _ => Ok(()),
    }
}

fn tell_list(
    alloc: Global,
    pages: &mut Vec<PodPage>,
    place: usize,
    objects: &[Object],
) -> Result<(), OutOfMemory>
    ensures { OnOk result ((mine : List Entry) → ((o : Object) → SomeOf (λ x. x ≡ o) objects.now → TellsAt mine place o) → ArePods pages.old.items mine → ArePods pages.new.items mine) }
{
    for object in objects {
        tell_object(alloc, pages, place, object)?;
    }
    Ok(())
}

fn tell_event(
    alloc: Global,
    pages: &mut Vec<PodPage>,
    place: usize,
    event: &Event,
) -> Result<(), OutOfMemory>
    ensures { OnOk result ((mine : List Entry) → ((o : Object) → SomeOf (λ x. x ≡ o) (objects_of_event event.now.change event.now.object) → TellsAt mine place o) → ArePods pages.old.items mine → ArePods pages.new.items mine) }
{
    match event.change {
        Change::Added => tell_object(alloc, pages, place, &event.object),
        Change::Modified => tell_object(alloc, pages, place, &event.object),
        Change::Deleted => Ok(()),
    }
}

fn tell_events(
    alloc: Global,
    pages: &mut Vec<PodPage>,
    place: usize,
    events: &[Event],
) -> Result<(), OutOfMemory>
    ensures { OnOk result ((mine : List Entry) → ((o : Object) → SomeOf (λ x. x ≡ o) (objects_of_events events.now) → TellsAt mine place o) → ArePods pages.old.items mine → ArePods pages.new.items mine) }
{
    for event in events {
        tell_event(alloc, pages, place, event)?;
    }
    Ok(())
}

fn tell_reply(
    alloc: Global,
    pages: &mut Vec<PodPage>,
    place: usize,
    reply: &Reply,
) -> Result<(), OutOfMemory>
    ensures { OnOk result ((mine : List Entry) → ((o : Object) → SomeOf (λ x. x ≡ o) (objects_in reply.now) → TellsAt mine place o) → ArePods pages.old.items mine → ArePods pages.new.items mine) }
{
    match reply {
        Reply::Done(object) => tell_object(alloc, pages, place, object),
        Reply::Found(object) => tell_object(alloc, pages, place, object),
        Reply::Listed { items, version: _ } => tell_list(alloc, pages, place, items.as_slice()),
        Reply::Events(events) => tell_events(alloc, pages, place, events.events.as_slice()),
        _ => Ok(()),
    }
}

/// Keeps the pods that the entry at the place tells.
fn learn(
    alloc: Global,
    pages: &mut Vec<PodPage>,
    entry: &Entry,
    place: usize,
) -> Result<(), OutOfMemory>
    ensures { OnOk result ((mine : List Entry) → length mine ≡ place → ArePods pages.old.items mine → ArePods pages.new.items (entry.now ∷ mine)) }
{
    if !entry.told {
        return Ok(());
    }
    tell_reply(alloc, pages, place, &entry.reply)
}

fn told_at<'a>(pages: &'a [PodPage], uid: &Uid) -> &'a [ToldPod]
    ensures { (mine : List Entry) → ArePods pages.now mine → AreTold result.now mine }
{
    match page_place(pages, uid) {
        Ok(at) => pages[at].told.as_slice(),
        Err(_) => &[],
    }
}

impl Pods {
    pub fn new(alloc: Global) -> Pods
        ensures { result ≡ [] }
    {
        Pods {
            list: Vec::new(alloc),
        }
    }

    /// The tellings of the pod with this id, the oldest first.
    pub fn told(&self, uid: Uid) -> &[ToldPod]
        ensures { (mine : List Entry) → ArePods self.now mine → AreTold result.now mine }
    {
        told_at(&self.list, &uid)
    }

    /// Takes one more entry, which stands at the place.
    pub fn learn(&mut self, alloc: Global, entry: &Entry, place: usize) -> Result<(), OutOfMemory>
        ensures { OnOk result ((mine : List Entry) → length mine ≡ place → ArePods self.old mine → ArePods self.new (entry.now ∷ mine)) }
    {
        learn(alloc, &mut self.list, entry, place)
    }
}
