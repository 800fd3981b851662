//! Claims that grow, the steps of it, and what calls of a world change of them.

ghost use Rattle.std.specs.Prelude.{◌≡◌};

use crate::copies::copied;
use crate::quotas;
use crate::side::Side;
use call_types::entry::Entry;
use call_types::reply::Reply;
use call_types::request::{Request, SeatKind};
use expand_ops::sizes::Sizes;
use kube_types::key::{Key, key_of};
use kube_types::objects::Object;
use kube_types::parts::Kind;
use object_text::reading::read_object;
use plain_data::copies::{OutOfMemory, Plain};
use plain_data::text::Text;
use quota_rules::quotas::Quotas;
use sample_objects::lines::{split, word};
use sample_objects::words::number;
use side_calls::sizes::{GrowError, SizeRow, StepKind, Why};
use std::alloc::Global;

fn why_word(why: Why) -> &'static str {
    match why {
        Why::Absent => "Absent",
        Why::Deleting => "Deleting",
        Why::NotBound => "NotBound",
        Why::Static => "Static",
        Why::Class => "Class",
        Why::Smaller => "Smaller",
    }
}

fn refusal(alloc: Global, error: GrowError) -> Result<String, OutOfMemory> {
    match error {
        GrowError::NotGrowable(why) => word(alloc, why_word(why)),
        GrowError::OverBytes { used, limit } => {
            Ok(format!(in alloc; "OverBytes {used} of {limit}")?)
        }
    }
}

/// Whether the claim of the key grows to so many bytes, or why not.
pub fn grow(
    alloc: Global,
    side: &mut Side,
    namespace: &str,
    name: &str,
    bytes: &str,
) -> Result<String, OutOfMemory> {
    let key = Key {
        kind: Kind::PersistentVolumeClaim,
        namespace: Text::new(alloc, namespace)?,
        name: Text::new(alloc, name)?,
    };
    let objects = side.objects.as_slice();
    match side.sizes.grow(objects, &side.tally, &key, number(bytes))? {
        None => word(alloc, "grows"),
        Some(error) => refusal(alloc, error),
    }
}

fn kind_word(kind: StepKind) -> &'static str {
    match kind {
        StepKind::Data => "data",
        StepKind::Volume => "volume",
        StepKind::Given => "given",
    }
}

/// Makes the next step.
pub fn step(alloc: Global, sizes: &mut Sizes) -> Result<String, OutOfMemory> {
    match sizes.step() {
        None => word(alloc, "none"),
        Some(step) => {
            let kind = kind_word(step.kind);
            let (place, bytes) = (step.place, step.bytes);
            Ok(format!(in alloc; "{kind} of row {place}: {bytes}")?)
        }
    }
}

fn row_text(alloc: Global, shown: &SizeRow) -> Result<String, OutOfMemory> {
    let row = shown.copy(alloc)?;
    let (namespace, name) = (row.key.namespace.as_str(), row.key.name.as_str());
    let (asked, given) = (row.asked, row.given);
    let (volume, stored, first) = (row.volume, row.stored, row.first);
    Ok(format!(in alloc;
        "{namespace}/{name} asked {asked} given {given} volume {volume} stored {stored} first {first}"
    )?)
}

/// The rows of the claims that grew.
pub fn rows(alloc: Global, rows: &[SizeRow]) -> Result<String, OutOfMemory> {
    let mut all = String::from_str(alloc, "rows")?;
    for row in rows {
        all.push_str("; ")?;
        all.push_str(row_text(alloc, row)?.as_str())?;
    }
    Ok(all)
}

fn entry_of(key: Key, reply: Reply) -> Entry
    ensures { result.reply ≡ reply }
{
    Entry {
        seat: 1,
        kind: SeatKind::User,
        request: Request::Get { key },
        reply,
        told: true,
    }
}

fn note(alloc: Global, side: &mut Side, entry: &Entry) -> Result<String, OutOfMemory> {
    side.tally.note(entry)?;
    side.sizes.note(entry);
    word(alloc, "noted")
}

fn asked(alloc: Global, sizes: &Sizes, object: &Object) -> Result<String, OutOfMemory> {
    match object {
        Object::Claim(claim) => {
            let bytes = sizes.asked(claim);
            Ok(format!(in alloc; "{bytes}")?)
        }
        _ => word(alloc, "no claim"),
    }
}

/// What is used where the claim stands alone and has grown by so many bytes.
#[tactic(auto, using(crate::proofs::Alone::room_alone))]
fn grown_alone(alloc: Global, object: &Object, more: u64) -> Result<String, OutOfMemory> {
    let Object::Claim(claim) = object else {
        return word(alloc, "no claim");
    };
    let Some(uid) = claim.meta.uid else {
        return word(alloc, "no id");
    };
    if claim.amount.bytes > u64::MAX - more {
        return word(alloc, "too many bytes");
    }
    let key = key_of(alloc, object)?;
    let entry = entry_of(key, Reply::Done(object.copy(alloc)?));
    let mut tally = Quotas::of(alloc, &[], &[])?;
    tally.note(&entry)?;
    tally.grown(&claim.meta.namespace, uid, more);
    quotas::used(alloc, &tally, claim.meta.namespace.as_str())
}

fn with_object(
    alloc: Global,
    side: &mut Side,
    call: &str,
    object: Object,
) -> Result<String, OutOfMemory> {
    let key = key_of(alloc, &object)?;
    match call {
        "done" => note(alloc, side, &entry_of(key, Reply::Done(object))),
        "left" => note(alloc, side, &entry_of(key, Reply::Left(object))),
        "copied" => copied(alloc, &object),
        _ => asked(alloc, &side.sizes, &object),
    }
}

/// What is noted of the object of a manifest, which was written or has left; or what it asks for.
pub fn of_object(
    alloc: Global,
    side: &mut Side,
    call: &str,
    manifest: &str,
) -> Result<String, OutOfMemory> {
    match read_object(alloc, manifest.as_bytes()) {
        Ok(object) => with_object(alloc, side, call, object),
        Err(_) => word(alloc, "no such object"),
    }
}

/// What the claim of a manifest uses, alone, and grown by the bytes that stand before it.
pub fn grown(alloc: Global, line: &str) -> Result<String, OutOfMemory> {
    let (more, manifest) = split(line);
    match read_object(alloc, manifest.as_bytes()) {
        Ok(object) => grown_alone(alloc, &object, number(more)),
        Err(_) => word(alloc, "no such object"),
    }
}
