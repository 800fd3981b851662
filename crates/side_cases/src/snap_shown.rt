//! Rows and answers of the store of snapshots as text.

use plain_data::copies::OutOfMemory;
use sample_objects::lines::word;
use snapshot_bind::calls::{SnapRefusal, SnapReply};
use snapshot_bind::rows::{Content, SnapRow, Snapshot};
use std::alloc::Global;

fn snapshot(alloc: Global, row: &Snapshot) -> Result<String, OutOfMemory> {
    let (namespace, name) = (row.namespace.as_str(), row.name.as_str());
    let (uid, version) = (row.uid, row.version);
    let (claim, content) = (row.claim.as_str(), row.content.as_str());
    let policy = row.policy.name();
    let stays = if row.deleting { "deleting" } else { "stays" };
    Ok(format!(in alloc;
        "snapshot {namespace}/{name} uid {uid} at {version} of {claim} {policy} content '{content}' {stays}"
    )?)
}

fn uid_text(alloc: Global, uid: Option<u64>) -> Result<String, OutOfMemory> {
    match uid {
        None => word(alloc, "none"),
        Some(uid) => Ok(format!(in alloc; "{uid}")?),
    }
}

fn content(alloc: Global, row: &Content) -> Result<String, OutOfMemory> {
    let (name, version) = (row.name.as_str(), row.version);
    let (namespace, snapshot) = (row.namespace.as_str(), row.snapshot.as_str());
    let uid = uid_text(alloc, row.uid)?;
    let policy = row.policy.name();
    let (driver, id) = (row.source.driver.as_str(), row.source.id.as_str());
    let there = if row.there { "there" } else { "erased" };
    Ok(format!(in alloc;
        "content {name} at {version} for {namespace}/{snapshot} uid {uid} {policy} of {driver} {id} {there}"
    )?)
}

fn row_text(alloc: Global, row: &SnapRow) -> Result<String, OutOfMemory> {
    match row {
        SnapRow::Snapshot(row) => snapshot(alloc, row),
        SnapRow::Content(row) => content(alloc, row),
    }
}

fn listed(
    alloc: Global,
    snapshots: &[Snapshot],
    contents: &[Content],
    number: u64,
) -> Result<String, OutOfMemory> {
    let mut all = format!(in alloc; "listed at {number}")?;
    for row in snapshots {
        all.push_str("; ")?;
        all.push_str(snapshot(alloc, row)?.as_str())?;
    }
    for row in contents {
        all.push_str("; ")?;
        all.push_str(content(alloc, row)?.as_str())?;
    }
    Ok(all)
}

fn refusal(alloc: Global, why: SnapRefusal) -> Result<String, OutOfMemory> {
    match why {
        SnapRefusal::NotFound => word(alloc, "NotFound"),
        SnapRefusal::AlreadyExists => word(alloc, "AlreadyExists"),
        SnapRefusal::Conflict { current } => Ok(format!(in alloc; "Conflict {current}")?),
        SnapRefusal::SnapshotBound { uid } => Ok(format!(in alloc; "SnapshotBound {uid}")?),
        SnapRefusal::NoSource => word(alloc, "NoSource"),
    }
}

fn told(alloc: Global, what: &str, row: &str) -> Result<String, OutOfMemory> {
    Ok(format!(in alloc; "{what} {row}")?)
}

pub fn reply_text(alloc: Global, reply: &SnapReply) -> Result<String, OutOfMemory> {
    match reply {
        SnapReply::Listed {
            snapshots,
            contents,
            number,
        } => listed(alloc, snapshots.as_slice(), contents.as_slice(), *number),
        SnapReply::Found(row) => told(alloc, "found", snapshot(alloc, row)?.as_str()),
        SnapReply::Made(row) => told(alloc, "made", row_text(alloc, row)?.as_str()),
        SnapReply::Left(row) => told(alloc, "left", row_text(alloc, row)?.as_str()),
        SnapReply::Refused(why) => refusal(alloc, *why),
    }
}
