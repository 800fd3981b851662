//! Replies as JSON, the text of each object once.

ghost use Rattle.std.specs.Prelude.{◌≡◌, Some, OnOk, codes};
ghost use Rattle.json_text.specs.Members.{items_data, array_data, object_of, within, with_options, with_member_text};
ghost use Rattle.json_text.specs.Writing.{written, with_some, with_value, items_after};
ghost use Rattle.object_print.specs.Objects.{object_data};
ghost use Rattle.piece_print.specs.Writing.{whole};
ghost use Rattle.history_text.specs.Replies.{event_data, mount_data, topology_pairs, refused, refused_number, refused_text, refusal_pairs, listed_pairs, events_pairs, provisioned_pairs, reply_data};

use crate::asks::put_data_id;
use call_types::reply::{Event, Events, MountRow, Refusal, Reply};
use json_text::member_texts::MemberTexts;
use json_text::writing::JsonText;
use kube_types::copies::OutOfMemory;
use kube_types::objects::{DataId, Object, Version};
use kube_types::text::Text;
use kube_types::words::Worded;
use object_print::members::{AsJson, MemberSink};
use piece_print::writing::JsonPieces;

#[tactic(auto, unfolding(json_text::specs::Members::with_option))]
fn put_object<'a>(
    out: &mut JsonPieces<'a>,
    key: &str,
    object: &'a Object,
) -> Result<(), OutOfMemory>
    ensures ok { OnOk result (whole out.new ≡ with_some key.now (Some (object_data object.now)) (whole out.old)) }
{
    out.key(key)?;
    out.object(object)
}

/// An object as the only member.
#[tactic(auto, using(json_text::proofs::Closing::closes_within))]
fn write_told<'a>(
    out: &mut JsonPieces<'a>,
    key: &str,
    object: &'a Object,
) -> Result<(), OutOfMemory>
    ensures ok { OnOk result (whole out.new ≡ with_value (within key.now (object_data object.now)) (whole out.old)) }
{
    out.begin_object()?;
    put_object(out, key, object)?;
    out.end_object()
}

/// A value as the only member.
#[tactic(auto, using(json_text::proofs::Closing::closes_within))]
fn write_only<T: AsJson>(out: &mut JsonText, key: &str, value: &T) -> Result<(), OutOfMemory>
    ensures ok { OnOk result (written out.new ≡ with_value (within key.now (T.json value.now)) (written out.old)) }
{
    out.begin_object()?;
    out.put(key, value)?;
    out.end_object()
}

fn write_objects<'a>(out: &mut JsonPieces<'a>, objects: &'a [Object]) -> Result<(), OutOfMemory>
    ensures ok { OnOk result (whole out.new ≡ items_after (items_data object_data objects.now) (whole out.old)) }
{
    for object in objects {
        out.object(object)?;
    }
    Ok(())
}

#[tactic(auto, using(crate::proofs::Closings::closes_objects))]
fn put_objects<'a>(out: &mut JsonPieces<'a>, objects: &'a [Object]) -> Result<(), OutOfMemory>
    ensures ok { OnOk result (whole out.new ≡ with_some (codes "items") (Some (array_data object_data objects.now)) (whole out.old)) }
{
    out.key("items")?;
    out.begin_array()?;
    write_objects(out, objects)?;
    out.end_array()
}

#[tactic(auto, using(crate::proofs::Closings::closes_listed))]
fn write_listed<'a>(
    out: &mut JsonPieces<'a>,
    objects: &'a [Object],
    version: Version,
) -> Result<(), OutOfMemory>
    ensures ok { OnOk result (whole out.new ≡ with_value (object_of (listed_pairs objects.now version)) (whole out.old)) }
{
    out.begin_object()?;
    put_objects(out, objects)?;
    out.put("listed", &version)?;
    out.end_object()
}

#[tactic(auto, using(crate::proofs::Closings::closes_event))]
fn write_event<'a>(out: &mut JsonPieces<'a>, event: &'a Event) -> Result<(), OutOfMemory>
    ensures ok { OnOk result (whole out.new ≡ with_value (event_data event.now) (whole out.old)) }
{
    out.begin_object()?;
    out.put_text("change", event.change.word())?;
    put_object(out, "object", &event.object)?;
    out.put("version", &event.version)?;
    out.end_object()
}

fn write_event_items<'a>(out: &mut JsonPieces<'a>, events: &'a [Event]) -> Result<(), OutOfMemory>
    ensures ok { OnOk result (whole out.new ≡ items_after (items_data event_data events.now) (whole out.old)) }
{
    for event in events {
        write_event(out, event)?;
    }
    Ok(())
}

#[tactic(auto, using(crate::proofs::Closings::closes_event_items))]
fn put_events<'a>(out: &mut JsonPieces<'a>, events: &'a [Event]) -> Result<(), OutOfMemory>
    ensures ok { OnOk result (whole out.new ≡ with_some (codes "events") (Some (array_data event_data events.now)) (whole out.old)) }
{
    out.key("events")?;
    out.begin_array()?;
    write_event_items(out, events)?;
    out.end_array()
}

#[tactic(auto, using(crate::proofs::Closings::closes_events))]
fn write_events<'a>(out: &mut JsonPieces<'a>, events: &'a Events) -> Result<(), OutOfMemory>
    ensures ok { OnOk result (whole out.new ≡ with_value (object_of (events_pairs events.now)) (whole out.old)) }
{
    out.begin_object()?;
    put_events(out, events.events.as_slice())?;
    out.put("upto", &events.upto)?;
    out.end_object()
}

#[tactic(auto, using(crate::proofs::Closings::closes_mount))]
fn write_mount(out: &mut JsonText, row: &MountRow) -> Result<(), OutOfMemory>
    ensures ok { OnOk result (written out.new ≡ with_value (mount_data row.now) (written out.old)) }
{
    out.begin_object()?;
    out.put_list("claims", row.claims.as_slice())?;
    out.put("pod", &row.pod)?;
    out.end_object()
}

fn write_mount_items(out: &mut JsonText, rows: &[MountRow]) -> Result<(), OutOfMemory>
    ensures ok { OnOk result (written out.new ≡ items_after (items_data mount_data rows.now) (written out.old)) }
{
    for row in rows {
        write_mount(out, row)?;
    }
    Ok(())
}

#[tactic(auto, using(crate::proofs::Closings::closes_mount_items))]
fn put_mounts(out: &mut JsonText, rows: &[MountRow]) -> Result<(), OutOfMemory>
    ensures ok { OnOk result (written out.new ≡ with_some (codes "mounted") (Some (array_data mount_data rows.now)) (written out.old)) }
{
    out.key("mounted")?;
    out.begin_array()?;
    write_mount_items(out, rows)?;
    out.end_array()
}

#[tactic(auto, using(json_text::proofs::Closing::closes_within))]
fn write_mounted(out: &mut JsonText, rows: &[MountRow]) -> Result<(), OutOfMemory>
    ensures ok { OnOk result (written out.new ≡ with_value (within (codes "mounted") (array_data mount_data rows.now)) (written out.old)) }
{
    out.begin_object()?;
    put_mounts(out, rows)?;
    out.end_object()
}

/// The label and the value of a topology, if there is one.
pub fn put_topology(
    out: &mut MemberTexts,
    topology: &Option<(Text, Text)>,
) -> Result<(), OutOfMemory>
    ensures ok { OnOk result (out.new ≡ with_options with_member_text (topology_pairs topology.now) out.old) }
{
    match topology {
        None => Ok(()),
        Some(pair) => {
            out.put_text("label", pair.0.as_str())?;
            out.put_text("value", pair.1.as_str())
        }
    }
}

#[tactic(auto, using(crate::proofs::Closings::closes_provisioned))]
fn write_provisioned(
    out: &mut JsonText,
    id: &DataId,
    topology: &Option<(Text, Text)>,
) -> Result<(), OutOfMemory>
    ensures ok { OnOk result (written out.new ≡ with_value (object_of (provisioned_pairs id.now topology.now)) (written out.old)) }
{
    let mut members = MemberTexts::new(out.allocator());
    put_data_id(&mut members, id)?;
    put_topology(&mut members, topology)?;
    members.write(out)
}

fn put_refused(out: &mut MemberTexts, word: &str) -> Result<(), OutOfMemory>
    ensures ok { OnOk result (out.new ≡ with_options with_member_text (refused word.now) out.old) }
{
    out.put_text("refused", word)
}

fn put_refused_number(
    out: &mut MemberTexts,
    word: &str,
    name: &str,
    n: u64,
) -> Result<(), OutOfMemory>
    ensures ok { OnOk result (out.new ≡ with_options with_member_text (refused_number word.now name.now n) out.old) }
{
    put_refused(out, word)?;
    out.put(name, &n)
}

fn put_refused_text(
    out: &mut MemberTexts,
    word: &str,
    name: &str,
    text: &str,
) -> Result<(), OutOfMemory>
    ensures ok { OnOk result (out.new ≡ with_options with_member_text (refused_text word.now name.now text.now) out.old) }
{
    put_refused(out, word)?;
    out.put_text(name, text)
}

fn put_refusal(out: &mut MemberTexts, refusal: &Refusal) -> Result<(), OutOfMemory>
    ensures ok { OnOk result (out.new ≡ with_options with_member_text (refusal_pairs refusal.now) out.old) }
{
    match refusal {
        Refusal::NotFound => put_refused(out, "NotFound"),
        Refusal::AlreadyExists => put_refused(out, "AlreadyExists"),
        Refusal::Conflict { current } => put_refused_number(out, "Conflict", "current", *current),
        Refusal::Invalid(field) => put_refused_text(out, "Invalid", "field", field.name()),
        Refusal::Forbidden(rule) => put_refused_text(out, "Forbidden", "rule", rule.name()),
        Refusal::Gone { oldest } => put_refused_number(out, "Gone", "oldest", *oldest),
        Refusal::Exhausted { free } => put_refused_number(out, "Exhausted", "free", *free),
        Refusal::BackFault { planned } => {
            put_refused_number(out, "BackFault", "planned", *planned)
        }
        Refusal::StaleEpoch { current } => {
            put_refused_number(out, "StaleEpoch", "current", *current)
        }
        Refusal::Assigned { node } => put_refused_text(out, "Assigned", "node", node.as_str()),
    }
}

#[tactic(auto, using(crate::proofs::Closings::closes_refusal))]
fn write_refusal(out: &mut JsonText, refusal: &Refusal) -> Result<(), OutOfMemory>
    ensures ok { OnOk result (written out.new ≡ with_value (object_of (refusal_pairs refusal.now)) (written out.old)) }
{
    let mut members = MemberTexts::new(out.allocator());
    put_refusal(&mut members, refusal)?;
    members.write(out)
}

// ---- replies that tell no object, behind the rest of the text

fn put_only<T: AsJson>(out: &mut JsonPieces<'_>, key: &str, value: &T) -> Result<(), OutOfMemory>
    ensures ok { OnOk result (whole out.new ≡ with_value (within key.now (T.json value.now)) (whole out.old)) }
{
    write_only(&mut out.tail, key, value)
}

fn put_mounted(out: &mut JsonPieces<'_>, rows: &[MountRow]) -> Result<(), OutOfMemory>
    ensures ok { OnOk result (whole out.new ≡ with_value (within (codes "mounted") (array_data mount_data rows.now)) (whole out.old)) }
{
    write_mounted(&mut out.tail, rows)
}

fn put_provisioned(
    out: &mut JsonPieces<'_>,
    id: &DataId,
    topology: &Option<(Text, Text)>,
) -> Result<(), OutOfMemory>
    ensures ok { OnOk result (whole out.new ≡ with_value (object_of (provisioned_pairs id.now topology.now)) (whole out.old)) }
{
    write_provisioned(&mut out.tail, id, topology)
}

fn put_refused_reply(out: &mut JsonPieces<'_>, refusal: &Refusal) -> Result<(), OutOfMemory>
    ensures ok { OnOk result (whole out.new ≡ with_value (object_of (refusal_pairs refusal.now)) (whole out.old)) }
{
    write_refusal(&mut out.tail, refusal)
}

/// Puts a reply at the end.
#[tactic(auto, unfolding(crate::specs::Replies::reply_data))]
pub fn write_reply<'a>(out: &mut JsonPieces<'a>, reply: &'a Reply) -> Result<(), OutOfMemory>
    ensures ok { OnOk result (whole out.new ≡ with_value (reply_data reply.now) (whole out.old)) }
{
    match reply {
        Reply::Done(object) => write_told(out, "done", object),
        Reply::Left(object) => write_told(out, "left", object),
        Reply::Found(object) => write_told(out, "found", object),
        Reply::Listed { items, version } => write_listed(out, items.as_slice(), *version),
        Reply::Events(events) => write_events(out, events),
        Reply::Provisioned { id, topology } => put_provisioned(out, id, topology),
        Reply::Erased { removed } => put_only(out, "erased", removed),
        Reply::Epoch(epoch) => put_only(out, "epoch", epoch),
        Reply::Mounted(rows) => put_mounted(out, rows.as_slice()),
        Reply::Timed => put_only(out, "timed", &true),
        Reply::Refused(refusal) => put_refused_reply(out, refusal),
    }
}
