//! The reply that an entry has.

ghost use Rattle.serde_json.specs.View.{view};
ghost use Rattle.history_lines.specs.Answers.{PartGives};
ghost use Rattle.history_lines.specs.Members.{look_in};
ghost use Rattle.history_lines.specs.Replies.{event_in, mounted_in, invalid_at, forbidden_at, refusal_by, refusal_at, listed_at, events_at, provisioned_at, reply_by, reply_in};

use crate::errors::Unread;
use crate::members::{
    FromJson, data_id_at, flag_at, found, list_at, number_at, object_at, standing, text_at,
    topology_at, uid_at, word_at,
};
use crate::words::{
    ALL_REPLIES, RefusalWord, ReplyWord, change_named, field_named, refusal_named, rule_named,
};
use call_types::reply::{Event, Events, MountRow, Refusal, Reply};
use serde_json::Value;
use std::alloc::Global;

// ---- events, and pods that are mounted

impl FromJson for Event {
    ghost use Rattle.history_lines.specs.Replies.{event_in};

    ghost read = { event_in };

    #[tactic(auto, unfolding(crate::specs::Replies::event_in))]
    fn read(alloc: Global, value: &Value) -> Result<Event, Unread> {
        let word = word_at(value, "change")?;
        let change = found(change_named(word))?;
        let object = object_at(alloc, value, "object")?;
        let version = number_at(value, "version")?;
        Ok(Event {
            change,
            object,
            version,
        })
    }
}

impl FromJson for MountRow {
    ghost use Rattle.history_lines.specs.Replies.{mounted_in};

    ghost read = { mounted_in };

    #[tactic(auto, unfolding(crate::specs::Replies::mounted_in))]
    fn read(alloc: Global, value: &Value) -> Result<MountRow, Unread> {
        let claims = list_at(alloc, value, "claims")?;
        let pod = uid_at(value, "pod")?;
        Ok(MountRow { pod, claims })
    }
}

// ---- refusals

fn invalid_at(value: &Value) -> Result<Refusal, Unread>
    ensures { PartGives result (invalid_at (look_in (view value.now))) }
{
    let word = word_at(value, "field")?;
    let field = found(field_named(word))?;
    Ok(Refusal::Invalid(field))
}

fn forbidden_at(value: &Value) -> Result<Refusal, Unread>
    ensures { PartGives result (forbidden_at (look_in (view value.now))) }
{
    let word = word_at(value, "rule")?;
    let rule = found(rule_named(word))?;
    Ok(Refusal::Forbidden(rule))
}

/// The refusal of this name.
fn refusal_by(alloc: Global, name: RefusalWord, value: &Value) -> Result<Refusal, Unread>
    ensures { PartGives result (refusal_by name (look_in (view value.now))) }
{
    match name {
        RefusalWord::NotFound => Ok(Refusal::NotFound),
        RefusalWord::AlreadyExists => Ok(Refusal::AlreadyExists),
        RefusalWord::Conflict => Ok(Refusal::Conflict {
            current: number_at(value, "current")?,
        }),
        RefusalWord::Invalid => invalid_at(value),
        RefusalWord::Forbidden => forbidden_at(value),
        RefusalWord::Gone => Ok(Refusal::Gone {
            oldest: number_at(value, "oldest")?,
        }),
        RefusalWord::Exhausted => Ok(Refusal::Exhausted {
            free: number_at(value, "free")?,
        }),
        RefusalWord::BackFault => Ok(Refusal::BackFault {
            planned: number_at(value, "planned")?,
        }),
        RefusalWord::StaleEpoch => Ok(Refusal::StaleEpoch {
            current: number_at(value, "current")?,
        }),
        RefusalWord::Assigned => Ok(Refusal::Assigned {
            node: text_at(alloc, value, "node")?,
        }),
    }
}

fn refusal_at(alloc: Global, value: &Value) -> Result<Refusal, Unread>
    ensures { PartGives result (refusal_at (look_in (view value.now))) }
{
    let word = word_at(value, "refused")?;
    let name = found(refusal_named(word))?;
    refusal_by(alloc, name, value)
}

// ---- each reply

fn listed_at(alloc: Global, value: &Value) -> Result<Reply, Unread>
    ensures { PartGives result (listed_at (look_in (view value.now))) }
{
    let items = list_at(alloc, value, "items")?;
    let version = number_at(value, "listed")?;
    Ok(Reply::Listed { items, version })
}

fn events_at(alloc: Global, value: &Value) -> Result<Reply, Unread>
    ensures { PartGives result (events_at (look_in (view value.now))) }
{
    let events = list_at(alloc, value, "events")?;
    let upto = number_at(value, "upto")?;
    Ok(Reply::Events(Events { events, upto }))
}

fn provisioned_at(alloc: Global, value: &Value) -> Result<Reply, Unread>
    ensures { PartGives result (provisioned_at (look_in (view value.now))) }
{
    let id = data_id_at(alloc, value)?;
    let topology = topology_at(alloc, value)?;
    Ok(Reply::Provisioned { id, topology })
}

/// The reply of the member that stands.
fn reply_by(alloc: Global, word: ReplyWord, value: &Value) -> Result<Reply, Unread>
    ensures { PartGives result (reply_by word (look_in (view value.now))) }
{
    match word {
        ReplyWord::Done => Ok(Reply::Done(object_at(alloc, value, "done")?)),
        ReplyWord::Left => Ok(Reply::Left(object_at(alloc, value, "left")?)),
        ReplyWord::Found => Ok(Reply::Found(object_at(alloc, value, "found")?)),
        ReplyWord::Listed => listed_at(alloc, value),
        ReplyWord::Events => events_at(alloc, value),
        ReplyWord::Provisioned => provisioned_at(alloc, value),
        ReplyWord::Erased => Ok(Reply::Erased {
            removed: flag_at(value, "erased")?,
        }),
        ReplyWord::Epoch => Ok(Reply::Epoch(number_at(value, "epoch")?)),
        ReplyWord::Mounted => Ok(Reply::Mounted(list_at(alloc, value, "mounted")?)),
        ReplyWord::Timed => Ok(Reply::Timed),
        ReplyWord::Refused => Ok(Reply::Refused(refusal_at(alloc, value)?)),
    }
}

/// The reply that a value gives.
#[tactic(auto, unfolding(crate::specs::Replies::reply_in))]
pub fn reply_in(alloc: Global, value: &Value) -> Result<Reply, Unread>
    ensures { PartGives result (reply_in (view value.now)) }
{
    let word = standing(&ALL_REPLIES, value)?;
    reply_by(alloc, word, value)
}
