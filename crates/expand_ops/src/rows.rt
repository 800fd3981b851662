//! The rows of claims that grew, in the order of their keys.

ghost use Rattle.std.specs.Prelude.{◌≡◌, ◌<◌, ◌^◌, IfErr, IfOk, OnErr, OnOk, length};
ghost use Rattle.std.specs.List.Sorted.{IsSearchInRange};
ghost use Rattle.std.specs.Option.{option_copied};
ghost use Rattle.plain_data.specs.Rows.{IsAt, IsGap, without};
ghost use Rattle.kube_objects.specs.Keys.{key_cmp, key_of};
ghost use Rattle.kube_objects.specs.declared.objects.Object.TheVariants.{Claim};
ghost use Rattle.expand_ops.specs.Growing.{grown_row, grown_rows};
ghost use Rattle.expand_ops.specs.Sizes.{AreInTurn, AreSizes, changed_at, first_step, kept_after, made, size_at, size_key, step_of, taken_by};

use call_types::reply::Reply;
use kube_objects::key::Key;
use kube_objects::objects::{Claim as ClaimData, Object};
use plain_data::copies::OutOfMemory;
use plain_data::rows::place_of;
use side_calls::sizes::{SizeRow, SizeStep, StepKind};

/// Where the row of a key stands, or where one would stand.
fn place_of_key(rows: &[SizeRow], key: &Key) -> Result<usize, usize>
    requires { AreSizes rows.now }
    ensures bound { IsSearchInRange result (length rows.now) }
    ensures at { IfOk result (IsAt key_cmp size_key key.now rows.now) }
    ensures gap { IfErr result (IsGap key_cmp size_key key.now rows.now) }
{
    place_of(rows, key)
}

/// Where the row of a claim stands, or where one would stand.
fn place_of_claim(rows: &[SizeRow], claim: &ClaimData) -> Result<usize, usize>
    requires { AreSizes rows.now }
    ensures bound { IsSearchInRange result (length rows.now) }
    ensures at { IfOk result (IsAt key_cmp size_key (key_of (Claim claim.now)) rows.now) }
    ensures gap { IfErr result (IsGap key_cmp size_key (key_of (Claim claim.now)) rows.now) }
{
    place_of(rows, claim)
}

/// The row of a key.
pub(crate) fn row_of_key<'a>(rows: &'a [SizeRow], key: &Key) -> Option<&'a SizeRow>
    requires { AreSizes rows.now }
    ensures { option_copied result ≡ size_at key.now rows.now }
{
    match place_of_key(rows, key) {
        Ok(at) => Some(&rows[at]),
        Err(_) => None,
    }
}

/// The row of a claim.
pub(crate) fn row_of_claim<'a>(rows: &'a [SizeRow], claim: &ClaimData) -> Option<&'a SizeRow>
    requires { AreSizes rows.now }
    ensures { option_copied result ≡ size_at (key_of (Claim claim.now)) rows.now }
{
    match place_of_claim(rows, claim) {
        Ok(at) => Some(&rows[at]),
        Err(_) => None,
    }
}

/// Puts the row, where its key has none; else the row of its key asks for what this one asks for.
pub(crate) fn put_grown(rows: &mut Vec<SizeRow>, first: SizeRow) -> Result<(), OutOfMemory>
    requires { AreSizes rows.old.items }
    ensures ok { OnOk result (rows.new.items ≡ grown_rows (grown_row (size_at first.key rows.old.items) first first.asked) rows.old.items) }
    ensures err { OnErr result (rows.new.items ≡ rows.old.items) }
{
    match place_of_key(rows, &first.key) {
        Ok(at) => rows[at].asked = first.asked,
        Err(at) => rows.insert(at, first)?,
    }
    Ok(())
}

/// Takes the row of a claim out.
fn drop_row(rows: &mut Vec<SizeRow>, claim: &ClaimData)
    requires { AreSizes rows.old.items }
    ensures { rows.new.items ≡ without key_cmp size_key (key_of (Claim claim.now)) rows.old.items }
{
    match place_of_claim(rows, claim) {
        Ok(at) => {
            let _ = rows.remove(at);
        }
        Err(_) => {}
    }
}

/// Takes out the row of a claim that a reply says has left.
pub(crate) fn note_reply(rows: &mut Vec<SizeRow>, reply: &Reply)
    requires { AreSizes rows.old.items }
    ensures { rows.new.items ≡ kept_after reply.now rows.old.items }
{
    match reply {
        Reply::Left(Object::Claim(claim)) => drop_row(rows, claim),
        _ => {}
    }
}

/// The bytes of the reserve that the rows have taken.
pub(crate) fn taken_by(rows: &[SizeRow]) -> u64
    requires turns { AreInTurn rows.now }
    requires few { taken_by rows.now < 2 ^ 64 }
    ensures { result ≡ taken_by rows.now }
{
    let mut taken = 0;
    for row in rows {
        taken += row.stored.saturating_sub(row.first);
    }
    taken
}

/// The step that a row can make, where so many bytes are free.
fn step_of(row: &SizeRow, free: u64) -> Option<(StepKind, u64)>
    ensures { result ≡ step_of free row.now }
{
    if row.stored < row.asked && row.asked - row.stored <= free {
        return Some((StepKind::Data, row.asked));
    }
    if row.volume < row.stored {
        return Some((StepKind::Volume, row.stored));
    }
    if row.given < row.volume {
        return Some((StepKind::Given, row.volume));
    }
    None
}

/// The first step that a row can make.
pub(crate) fn first_step(rows: &[SizeRow], free: u64) -> Option<SizeStep>
    ensures { result ≡ first_step free 0 rows.now }
{
    let mut place = 0;
    for row in rows {
        if let Some((kind, bytes)) = step_of(row, free) {
            return Some(SizeStep { kind, place, bytes });
        }
        place += 1;
    }
    None
}

/// Makes a step.
pub(crate) fn make(rows: &mut Vec<SizeRow>, step: SizeStep)
    requires { step.place < length rows.old.items }
    ensures { rows.new.items ≡ changed_at step.place (made step.kind step.bytes) rows.old.items }
{
    match step.kind {
        StepKind::Data => rows[step.place].stored = step.bytes,
        StepKind::Volume => rows[step.place].volume = step.bytes,
        StepKind::Given => rows[step.place].given = step.bytes,
    }
}
