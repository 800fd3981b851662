//! The side store.

ghost use Rattle.std.specs.Prelude.{◌≡◌, ◌+◌, ◌^◌, ◌<◌, Some, IfOk, OnOk, OnErr, is_some};
ghost use Rattle.std.specs.Option.{option_copied};
ghost use Rattle.snapshot_bind.specs.SideStore.{after, bound_content, bound_snapshot, claimed_data, content_at, content_of_version, cut, cut_content, cut_from, cut_name, data_in, effect_of, empty_side, erased_content, get, has_uid, new_content, new_snapshot, refuse, refused, release, reply_of, snapshot_at, snapshot_of_version, source_of, uncontent, unsnap, worker_effect, write};
ghost use Rattle.snapshot_bind.specs.declared.calls.SnapRefusal.TheVariants.{AlreadyExists};
ghost use Rattle.snapshot_bind.specs.declared.effect.Effect.TheVariants.{Answers, PutsContent, PutsSnapshot, TakesContent, TakesSnapshot};
ghost use Rattle.snapshot_bind.specs.declared.calls.SnapReply.TheVariants.{Listed};

use crate::calls::{SnapAsk, SnapRefusal, SnapReply};
use crate::effect::Effect;
use crate::rows::{Content, SnapRow, Snapshot};
use crate::table::{content_in, snapshot_in};
use itoa::Buffer;
use kube_types::bindings::is_completed;
use kube_types::copies::{OutOfMemory, Plain, copy_all};
use kube_types::data::data_id;
use kube_types::items::Items;
use kube_types::key::{claim_key, volume_key};
use kube_types::lookup::Lookup;
use kube_types::objects::{DataId, Object};
use kube_types::parts::Policy;
use kube_types::text::Text;
use std::alloc::Global;
use std::marker::Model;

/// The snapshots and the contents of a side, and the number of its writes.
pub struct SnapStore {
    alloc: Global,
    number: u64,
    snapshots: Vec<Snapshot>,
    contents: Vec<Content>,
}

impl Drop for SnapStore {
    fn drop(self) {
        let SnapStore {
            alloc: _,
            number: _,
            snapshots,
            contents,
        } = self;
        drop(snapshots);
        drop(contents);
    }
}

impl Model for SnapStore {
    ghost use Rattle.snapshot_bind.specs.SideStore.{AreContents, AreSnapshots, Side, side_of};

    ghost Value = { Side };

    ghost view = { λ s. side_of s.number s.snapshots.items s.contents.items };

    ghost invariant = { λ s. AreSnapshots s.snapshots.items × AreContents s.contents.items };
}

fn refused(why: SnapRefusal) -> Effect
    ensures { result ≡ refused why }
{
    Effect::Answers(SnapReply::Refused(why))
}

/// Whether some snapshot has the UID.
fn has_uid(rows: &[Snapshot], uid: u64) -> bool
    ensures { result ≡ has_uid uid rows.now }
{
    for row in rows {
        if row.uid == uid {
            return true;
        }
    }
    false
}

/// The data of an object, where it is a volume.
#[tactic(auto, unfolding(crate::specs::SideStore::data_in))]
fn data_in(alloc: Global, object: Option<&Object>) -> Result<Option<DataId>, OutOfMemory>
    ensures { IfOk result (λ found. found ≡ data_in (option_copied object.entry)) }
{
    match object {
        Some(Object::Volume(volume)) => Ok(Some(data_id(alloc, &volume.source)?)),
        _ => Ok(None),
    }
}

/// The data of the volume that an object names, where it is a completed claim.
#[tactic(auto, unfolding(crate::specs::SideStore::claimed_data, crate::specs::SideStore::data_in))]
fn claimed_data<L: Lookup>(
    alloc: Global,
    world: &L,
    object: Option<&Object>,
) -> Result<Option<DataId>, OutOfMemory>
    ensures { IfOk result (λ found. found ≡ claimed_data (L.rows world.now) (option_copied object.entry)) }
{
    match object {
        Some(Object::Claim(claim)) => {
            if !is_completed(claim) {
                return Ok(None);
            }
            let key = volume_key(alloc, &claim.volume_name)?;
            data_in(alloc, world.row(&key))
        }
        _ => Ok(None),
    }
}

/// The data from which a snapshot of the claim is cut.
fn source_of<L: Lookup>(
    alloc: Global,
    world: &L,
    namespace: &Text,
    claim: &Text,
) -> Result<Option<DataId>, OutOfMemory>
    ensures { IfOk result (λ found. found ≡ source_of (L.rows world.now) namespace.now claim.now) }
{
    let key = claim_key(alloc, namespace, claim)?;
    claimed_data(alloc, world, world.row(&key))
}

/// The name of the content that is cut for the snapshot of this UID.
pub fn cut_name(alloc: Global, uid: u64) -> Result<Text, OutOfMemory>
    ensures { IfOk result (λ name. name ≡ cut_name uid) }
{
    let mut digits = Buffer::new();
    let mut name = Text::new(alloc, "snapcontent-")?;
    name.push_str(digits.format(uid))?;
    Ok(name)
}

#[tactic(auto, unfolding(crate::specs::SideStore::cut_from))]
fn cut_from(
    alloc: Global,
    number: u64,
    name: Text,
    snapshot: &Snapshot,
    source: Option<DataId>,
) -> Result<Effect, OutOfMemory>
    requires { name ≡ cut_name snapshot.now.uid }
    ensures { IfOk result (λ effect. effect ≡ cut_from number snapshot.now source) }
{
    match source {
        None => Ok(refused(SnapRefusal::NoSource)),
        Some(source) => Ok(Effect::PutsContent(Content {
            name,
            version: number,
            namespace: snapshot.namespace.copy(alloc)?,
            snapshot: snapshot.name.copy(alloc)?,
            uid: Some(snapshot.uid),
            policy: snapshot.policy,
            source,
            there: true,
        })),
    }
}

impl SnapStore {
    /// A side without rows. It takes no memory.
    pub fn new(alloc: Global) -> SnapStore
        ensures { result ≡ empty_side }
    {
        SnapStore {
            alloc,
            number: 0,
            snapshots: Vec::new(alloc),
            contents: Vec::new(alloc),
        }
    }

    /// How many writes were made. Each gives its number to the row that it writes as its version.
    pub fn number(&self) -> u64
        ensures { result ≡ self.now.number }
    {
        self.number
    }

    /// The snapshots, by namespace and name.
    pub fn snapshots(&self) -> &[Snapshot]
        ensures { result.now ≡ self.now.snapshots }
    {
        &self.snapshots
    }

    /// The contents, by name.
    pub fn contents(&self) -> &[Content]
        ensures { result.now ≡ self.now.contents }
    {
        &self.contents
    }

    fn snapshot(&self, namespace: &Text, name: &Text) -> Option<&Snapshot>
        ensures { option_copied result ≡ snapshot_at (namespace.now, name.now) self.now.snapshots }
    {
        snapshot_in(&self.snapshots, namespace.as_str(), name.as_str())
    }

    fn content(&self, name: &Text) -> Option<&Content>
        ensures { option_copied result ≡ content_at name.now self.now.contents }
    {
        content_in(&self.contents, name.as_str())
    }

    #[tactic(auto, unfolding(crate::specs::SideStore::refuse))]
    fn make_snapshot(
        &self,
        namespace: &Text,
        name: &Text,
        claim: &Text,
        policy: Policy,
    ) -> Result<Effect, OutOfMemory>
        requires { self.now.number < 2 ^ 63 }
        ensures { IfOk result (λ effect. effect ≡ refuse (is_some (snapshot_at (namespace.now, name.now) self.now.snapshots)) AlreadyExists (PutsSnapshot (new_snapshot (self.now.number + 1) namespace.now name.now claim.now policy))) }
    {
        if self.snapshot(namespace, name).is_some() {
            return Ok(refused(SnapRefusal::AlreadyExists));
        }
        let number = self.number + 1;
        Ok(Effect::PutsSnapshot(Snapshot {
            namespace: namespace.copy(self.alloc)?,
            name: name.copy(self.alloc)?,
            claim: claim.copy(self.alloc)?,
            content: Text::new(self.alloc, "")?,
            uid: number,
            version: number,
            policy,
            deleting: false,
        }))
    }

    #[tactic(auto, unfolding(crate::specs::SideStore::refuse))]
    fn make_content(
        &self,
        name: &Text,
        namespace: &Text,
        snapshot: &Text,
        policy: Policy,
        source: &DataId,
    ) -> Result<Effect, OutOfMemory>
        requires { self.now.number < 2 ^ 63 }
        ensures { IfOk result (λ effect. effect ≡ refuse (is_some (content_at name.now self.now.contents)) AlreadyExists (PutsContent (new_content (self.now.number + 1) name.now namespace.now snapshot.now policy source.now))) }
    {
        if self.content(name).is_some() {
            return Ok(refused(SnapRefusal::AlreadyExists));
        }
        Ok(Effect::PutsContent(Content {
            name: name.copy(self.alloc)?,
            namespace: namespace.copy(self.alloc)?,
            snapshot: snapshot.copy(self.alloc)?,
            source: source.copy(self.alloc)?,
            version: self.number + 1,
            uid: None,
            policy,
            there: true,
        }))
    }

    #[tactic(auto, unfolding(crate::specs::SideStore::unsnap))]
    fn unsnap(&self, namespace: &Text, name: &Text) -> Result<Effect, OutOfMemory>
        requires { self.now.number < 2 ^ 63 }
        ensures { IfOk result (λ effect. effect ≡ unsnap (self.now.number + 1) (snapshot_at (namespace.now, name.now) self.now.snapshots)) }
    {
        match self.snapshot(namespace, name) {
            None => Ok(refused(SnapRefusal::NotFound)),
            Some(row) => {
                let mut row = row.copy(self.alloc)?;
                if row.deleting {
                    return Ok(Effect::Answers(SnapReply::Made(SnapRow::Snapshot(row))));
                }
                row.version = self.number + 1;
                row.deleting = true;
                Ok(Effect::PutsSnapshot(row))
            }
        }
    }

    #[tactic(auto, unfolding(crate::specs::SideStore::release, crate::specs::SideStore::refuse))]
    fn release(&self, content: &Content) -> Result<Effect, OutOfMemory>
        ensures { IfOk result (λ effect. effect ≡ release self.now.snapshots content.now content.now.uid) }
    {
        if let Some(uid) = content.uid {
            if has_uid(&self.snapshots, uid) {
                return Ok(refused(SnapRefusal::SnapshotBound { uid }));
            }
        }
        Ok(Effect::TakesContent(content.copy(self.alloc)?))
    }

    #[tactic(auto, unfolding(crate::specs::SideStore::uncontent))]
    fn uncontent(&self, name: &Text) -> Result<Effect, OutOfMemory>
        ensures { IfOk result (λ effect. effect ≡ uncontent self.now.snapshots (content_at name.now self.now.contents)) }
    {
        match self.content(name) {
            None => Ok(refused(SnapRefusal::NotFound)),
            Some(row) => self.release(row),
        }
    }

    fn list(&self) -> Result<Effect, OutOfMemory>
        ensures { IfOk result (λ effect. effect ≡ Answers (Listed self.now.snapshots self.now.contents self.now.number)) }
    {
        let snapshots = copy_all(self.alloc, &self.snapshots)?;
        let contents = copy_all(self.alloc, &self.contents)?;
        Ok(Effect::Answers(SnapReply::Listed {
            snapshots: Items::from_vec(snapshots),
            contents: Items::from_vec(contents),
            number: self.number,
        }))
    }

    #[tactic(auto, unfolding(crate::specs::SideStore::get))]
    fn get(&self, namespace: &Text, name: &Text) -> Result<Effect, OutOfMemory>
        ensures { IfOk result (λ effect. effect ≡ get (snapshot_at (namespace.now, name.now) self.now.snapshots)) }
    {
        match self.snapshot(namespace, name) {
            None => Ok(refused(SnapRefusal::NotFound)),
            Some(row) => Ok(Effect::Answers(SnapReply::Found(row.copy(self.alloc)?))),
        }
    }

    #[tactic(auto, unfolding(crate::specs::SideStore::refuse))]
    fn cut_for<L: Lookup>(&self, world: &L, row: &Snapshot) -> Result<Effect, OutOfMemory>
        requires { self.now.number < 2 ^ 63 }
        ensures { IfOk result (λ effect. effect ≡ refuse (is_some (content_at (cut_name row.now.uid) self.now.contents)) AlreadyExists (cut_from (self.now.number + 1) row.now (source_of (L.rows world.now) row.now.namespace row.now.claim))) }
    {
        let name = cut_name(self.alloc, row.uid)?;
        if self.content(&name).is_some() {
            return Ok(refused(SnapRefusal::AlreadyExists));
        }
        let source = source_of(self.alloc, world, &row.namespace, &row.claim)?;
        cut_from(self.alloc, self.number + 1, name, row, source)
    }

    #[tactic(auto, unfolding(crate::specs::SideStore::cut))]
    fn cut<L: Lookup>(
        &self,
        world: &L,
        namespace: &Text,
        name: &Text,
        uid: u64,
    ) -> Result<Effect, OutOfMemory>
        requires { self.now.number < 2 ^ 63 }
        ensures { IfOk result (λ effect. effect ≡ cut self.now uid (L.rows world.now) (snapshot_at (namespace.now, name.now) self.now.snapshots)) }
    {
        match self.snapshot(namespace, name) {
            None => Ok(refused(SnapRefusal::NotFound)),
            Some(row) => {
                if row.uid != uid {
                    return Ok(refused(SnapRefusal::NotFound));
                }
                self.cut_for(world, row)
            }
        }
    }

    /// A copy of the snapshot that stands at the version, or why a write at it is refused.
    #[tactic(auto, unfolding(crate::specs::SideStore::snapshot_of_version))]
    fn snapshot_of_version(
        &self,
        namespace: &Text,
        name: &Text,
        version: u64,
    ) -> Result<Result<Snapshot, SnapRefusal>, OutOfMemory>
        ensures { IfOk result (λ row. row ≡ snapshot_of_version version (snapshot_at (namespace.now, name.now) self.now.snapshots)) }
    {
        match self.snapshot(namespace, name) {
            None => Ok(Err(SnapRefusal::NotFound)),
            Some(row) => {
                let current = row.version;
                if current != version {
                    return Ok(Err(SnapRefusal::Conflict { current }));
                }
                Ok(Ok(row.copy(self.alloc)?))
            }
        }
    }

    /// A copy of the content that stands at the version, or why a write at it is refused.
    #[tactic(auto, unfolding(crate::specs::SideStore::content_of_version))]
    fn content_of_version(
        &self,
        name: &Text,
        version: u64,
    ) -> Result<Result<Content, SnapRefusal>, OutOfMemory>
        ensures { IfOk result (λ row. row ≡ content_of_version version (content_at name.now self.now.contents)) }
    {
        match self.content(name) {
            None => Ok(Err(SnapRefusal::NotFound)),
            Some(row) => {
                let current = row.version;
                if current != version {
                    return Ok(Err(SnapRefusal::Conflict { current }));
                }
                Ok(Ok(row.copy(self.alloc)?))
            }
        }
    }

    #[tactic(auto, unfolding(crate::specs::SideStore::write))]
    fn bind_content(&self, name: &Text, version: u64, uid: u64) -> Result<Effect, OutOfMemory>
        requires { self.now.number < 2 ^ 63 }
        ensures { IfOk result (λ effect. effect ≡ write (content_of_version version (content_at name.now self.now.contents)) (λ c. PutsContent (bound_content (self.now.number + 1) uid c))) }
    {
        match self.content_of_version(name, version)? {
            Err(why) => Ok(refused(why)),
            Ok(mut row) => {
                row.version = self.number + 1;
                row.uid = Some(uid);
                Ok(Effect::PutsContent(row))
            }
        }
    }

    #[tactic(auto, unfolding(crate::specs::SideStore::write))]
    fn bind_snapshot(
        &self,
        namespace: &Text,
        name: &Text,
        version: u64,
        content: &Text,
    ) -> Result<Effect, OutOfMemory>
        requires { self.now.number < 2 ^ 63 }
        ensures { IfOk result (λ effect. effect ≡ write (snapshot_of_version version (snapshot_at (namespace.now, name.now) self.now.snapshots)) (λ s. PutsSnapshot (bound_snapshot (self.now.number + 1) content.now s))) }
    {
        match self.snapshot_of_version(namespace, name, version)? {
            Err(why) => Ok(refused(why)),
            Ok(mut row) => {
                row.content = content.copy(self.alloc)?;
                row.version = self.number + 1;
                Ok(Effect::PutsSnapshot(row))
            }
        }
    }

    #[tactic(auto, unfolding(crate::specs::SideStore::write))]
    fn drop_snapshot(
        &self,
        namespace: &Text,
        name: &Text,
        version: u64,
    ) -> Result<Effect, OutOfMemory>
        ensures { IfOk result (λ effect. effect ≡ write (snapshot_of_version version (snapshot_at (namespace.now, name.now) self.now.snapshots)) (λ s. TakesSnapshot s)) }
    {
        match self.snapshot_of_version(namespace, name, version)? {
            Err(why) => Ok(refused(why)),
            Ok(row) => Ok(Effect::TakesSnapshot(row)),
        }
    }

    #[tactic(auto, unfolding(crate::specs::SideStore::write))]
    fn erase(&self, name: &Text, version: u64) -> Result<Effect, OutOfMemory>
        requires { self.now.number < 2 ^ 63 }
        ensures { IfOk result (λ effect. effect ≡ write (content_of_version version (content_at name.now self.now.contents)) (λ c. PutsContent (erased_content (self.now.number + 1) c))) }
    {
        match self.content_of_version(name, version)? {
            Err(why) => Ok(refused(why)),
            Ok(mut row) => {
                row.version = self.number + 1;
                row.there = false;
                Ok(Effect::PutsContent(row))
            }
        }
    }

    #[tactic(auto, unfolding(crate::specs::SideStore::write))]
    fn drop_content(&self, name: &Text, version: u64) -> Result<Effect, OutOfMemory>
        ensures { IfOk result (λ effect. effect ≡ write (content_of_version version (content_at name.now self.now.contents)) (λ c. TakesContent c)) }
    {
        match self.content_of_version(name, version)? {
            Err(why) => Ok(refused(why)),
            Ok(row) => Ok(Effect::TakesContent(row)),
        }
    }

    /// What a worker's call does. A user's is none of a worker's.
    #[tactic(auto, unfolding(crate::specs::SideStore::worker_effect))]
    fn worker_effect<L: Lookup>(&self, world: &L, ask: &SnapAsk) -> Result<Effect, OutOfMemory>
        requires { self.now.number < 2 ^ 63 }
        ensures { IfOk result (λ effect. effect ≡ worker_effect (L.rows world.now) self.now ask.now) }
    {
        match ask {
            SnapAsk::SnapList => self.list(),
            SnapAsk::SnapGet { namespace, name } => self.get(namespace, name),
            SnapAsk::Cut {
                namespace,
                name,
                uid,
            } => self.cut(world, namespace, name, *uid),
            SnapAsk::BindContent { name, version, uid } => self.bind_content(name, *version, *uid),
            SnapAsk::BindSnapshot {
                namespace,
                name,
                version,
                content,
            } => self.bind_snapshot(namespace, name, *version, content),
            SnapAsk::DropSnapshot {
                namespace,
                name,
                version,
            } => self.drop_snapshot(namespace, name, *version),
            SnapAsk::EraseSnap { name, version } => self.erase(name, *version),
            SnapAsk::DropContent { name, version } => self.drop_content(name, *version),
            _ => Ok(refused(SnapRefusal::NotFound)),
        }
    }

    /// What a call does. Nothing has changed by it yet.
    #[tactic(auto, unfolding(crate::specs::SideStore::effect_of))]
    fn effect<L: Lookup>(&self, world: &L, ask: &SnapAsk) -> Result<Effect, OutOfMemory>
        requires { self.now.number < 2 ^ 63 }
        ensures { IfOk result (λ effect. effect ≡ effect_of (L.rows world.now) self.now ask.now) }
    {
        match ask {
            SnapAsk::Snapshot {
                namespace,
                name,
                claim,
                policy,
            } => self.make_snapshot(namespace, name, claim, *policy),
            SnapAsk::Content {
                name,
                namespace,
                snapshot,
                policy,
                source,
            } => self.make_content(name, namespace, snapshot, *policy, source),
            SnapAsk::Unsnap { namespace, name } => self.unsnap(namespace, name),
            SnapAsk::Uncontent { name } => self.uncontent(name),
            _ => self.worker_effect(world, ask),
        }
    }

    /// Makes the one write of an effect, if there is one, and answers it.
    fn apply(&mut self, effect: Effect) -> Result<SnapReply, OutOfMemory>
        requires { self.old.number < 2 ^ 63 }
        ensures state { OnOk result (self.new ≡ after self.old effect) }
        ensures reply { IfOk result (λ reply. reply ≡ reply_of effect) }
        ensures err { OnErr result (self.new ≡ self.old) }
    {
        effect.write(
            self.alloc,
            &mut self.number,
            &mut self.snapshots,
            &mut self.contents,
        )
    }

    /// Answers a call in this world, and makes its one write. A refusal changes nothing, nor does want of memory.
    pub fn call<L: Lookup>(&mut self, world: &L, ask: &SnapAsk) -> Result<SnapReply, OutOfMemory>
        requires { self.old.number < 2 ^ 63 }
        ensures state { OnOk result (self.new ≡ after self.old (effect_of (L.rows world.now) self.old ask.now)) }
        ensures reply { IfOk result (λ reply. reply ≡ reply_of (effect_of (L.rows world.now) self.old ask.now)) }
        ensures err { OnErr result (self.new ≡ self.old) }
    {
        let effect = self.effect(world, ask)?;
        self.apply(effect)
    }
}
