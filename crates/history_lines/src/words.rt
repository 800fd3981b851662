//! The words that tell what stands in a line.

ghost use Rattle.std.specs.Prelude.{◌≡◌};
ghost use Rattle.history_lines.specs.Words.{ask_named, change_named, field_named, refusal_named, rule_named, seat_named};

use call_types::reply::Change;
use call_types::request::SeatKind;
use kube_types::names::{Field, Rule};
use kube_types::words::{Worded, value_named};

/// What is asked, by the member `do`.
#[derive(Clone, Copy)]
pub enum AskWord {
    Create,
    Update,
    Status,
    Edit,
    Delete,
    Get,
    List,
    Watch,
    Bind,
    Finish,
    Provision,
    Erase,
    Take,
    Mounts,
    Mount,
    Unmount,
    Time,
}

impl Worded for AskWord {
    ghost use Rattle.history_lines.specs.Words.{asked_word};

    ghost word = { asked_word };

    fn word(&self) -> &str {
        match self {
            AskWord::Create => "create",
            AskWord::Update => "update",
            AskWord::Status => "status",
            AskWord::Edit => "edit",
            AskWord::Delete => "delete",
            AskWord::Get => "get",
            AskWord::List => "list",
            AskWord::Watch => "watch",
            AskWord::Bind => "bind",
            AskWord::Finish => "finish",
            AskWord::Provision => "provision",
            AskWord::Erase => "erase",
            AskWord::Take => "take",
            AskWord::Mounts => "mounts",
            AskWord::Mount => "mount",
            AskWord::Unmount => "unmount",
            AskWord::Time => "time",
        }
    }
}

/// An edit, by the member that stands.
#[derive(Clone, Copy)]
pub enum EditWord {
    AddFinalizer,
    DropFinalizer,
    DropLabel,
    DropAnnotation,
    SetLabel,
    SetAnnotation,
    SetVolumeName,
    SetPolicy,
    SetClaimRef,
    ClearClaimRef,
}

impl Worded for EditWord {
    ghost use Rattle.history_lines.specs.Words.{edited_word};

    ghost word = { edited_word };

    fn word(&self) -> &str {
        match self {
            EditWord::AddFinalizer => "addFinalizer",
            EditWord::DropFinalizer => "dropFinalizer",
            EditWord::DropLabel => "dropLabel",
            EditWord::DropAnnotation => "dropAnnotation",
            EditWord::SetLabel => "setLabel",
            EditWord::SetAnnotation => "setAnnotation",
            EditWord::SetVolumeName => "setVolumeName",
            EditWord::SetPolicy => "setPolicy",
            EditWord::SetClaimRef => "setClaimRef",
            EditWord::ClearClaimRef => "clearClaimRef",
        }
    }
}

/// A reply, by the member that stands.
#[derive(Clone, Copy)]
pub enum ReplyWord {
    Done,
    Left,
    Found,
    Listed,
    Events,
    Provisioned,
    Erased,
    Epoch,
    Mounted,
    Timed,
    Refused,
}

impl Worded for ReplyWord {
    ghost use Rattle.history_lines.specs.Words.{replied_word};

    ghost word = { replied_word };

    fn word(&self) -> &str {
        match self {
            ReplyWord::Done => "done",
            ReplyWord::Left => "left",
            ReplyWord::Found => "found",
            ReplyWord::Listed => "listed",
            ReplyWord::Events => "events",
            ReplyWord::Provisioned => "driver",
            ReplyWord::Erased => "erased",
            ReplyWord::Epoch => "epoch",
            ReplyWord::Mounted => "mounted",
            ReplyWord::Timed => "timed",
            ReplyWord::Refused => "refused",
        }
    }
}

/// A refusal, by the member `refused`.
#[derive(Clone, Copy)]
pub enum RefusalWord {
    NotFound,
    AlreadyExists,
    Conflict,
    Invalid,
    Forbidden,
    Gone,
    Exhausted,
    BackFault,
    StaleEpoch,
    Assigned,
}

impl Worded for RefusalWord {
    ghost use Rattle.history_lines.specs.Words.{refused_word};

    ghost word = { refused_word };

    fn word(&self) -> &str {
        match self {
            RefusalWord::NotFound => "NotFound",
            RefusalWord::AlreadyExists => "AlreadyExists",
            RefusalWord::Conflict => "Conflict",
            RefusalWord::Invalid => "Invalid",
            RefusalWord::Forbidden => "Forbidden",
            RefusalWord::Gone => "Gone",
            RefusalWord::Exhausted => "Exhausted",
            RefusalWord::BackFault => "BackFault",
            RefusalWord::StaleEpoch => "StaleEpoch",
            RefusalWord::Assigned => "Assigned",
        }
    }
}

pub(crate) const ALL_EDITS: [EditWord; 10] = [
    EditWord::AddFinalizer,
    EditWord::DropFinalizer,
    EditWord::DropLabel,
    EditWord::DropAnnotation,
    EditWord::SetLabel,
    EditWord::SetAnnotation,
    EditWord::SetVolumeName,
    EditWord::SetPolicy,
    EditWord::SetClaimRef,
    EditWord::ClearClaimRef,
];

pub(crate) const ALL_REPLIES: [ReplyWord; 11] = [
    ReplyWord::Done,
    ReplyWord::Left,
    ReplyWord::Found,
    ReplyWord::Listed,
    ReplyWord::Events,
    ReplyWord::Provisioned,
    ReplyWord::Erased,
    ReplyWord::Epoch,
    ReplyWord::Mounted,
    ReplyWord::Timed,
    ReplyWord::Refused,
];

/// What the word asks.
pub fn ask_named(word: &str) -> Option<AskWord>
    ensures { result ≡ ask_named word.now }
{
    value_named(
        &[
            AskWord::Create,
            AskWord::Update,
            AskWord::Status,
            AskWord::Edit,
            AskWord::Delete,
            AskWord::Get,
            AskWord::List,
            AskWord::Watch,
            AskWord::Bind,
            AskWord::Finish,
            AskWord::Provision,
            AskWord::Erase,
            AskWord::Take,
            AskWord::Mounts,
            AskWord::Mount,
            AskWord::Unmount,
            AskWord::Time,
        ],
        word,
    )
}

/// The refusal that the word names.
pub fn refusal_named(word: &str) -> Option<RefusalWord>
    ensures { result ≡ refusal_named word.now }
{
    value_named(
        &[
            RefusalWord::NotFound,
            RefusalWord::AlreadyExists,
            RefusalWord::Conflict,
            RefusalWord::Invalid,
            RefusalWord::Forbidden,
            RefusalWord::Gone,
            RefusalWord::Exhausted,
            RefusalWord::BackFault,
            RefusalWord::StaleEpoch,
            RefusalWord::Assigned,
        ],
        word,
    )
}

/// The kind of a seat that the word names.
pub fn seat_named(word: &str) -> Option<SeatKind>
    ensures { result ≡ seat_named word.now }
{
    value_named(
        &[
            SeatKind::User,
            SeatKind::Binder,
            SeatKind::Ops,
            SeatKind::Scheduler,
            SeatKind::ClaimProtect,
            SeatKind::VolumeProtect,
            SeatKind::Agent,
        ],
        word,
    )
}

/// The change that the word names.
pub fn change_named(word: &str) -> Option<Change>
    ensures { result ≡ change_named word.now }
{
    value_named(&[Change::Added, Change::Modified, Change::Deleted], word)
}

/// The field that the word names.
pub fn field_named(word: &str) -> Option<Field>
    ensures { result ≡ field_named word.now }
{
    value_named(
        &[
            Field::Name,
            Field::Namespace,
            Field::Capacity,
            Field::Request,
            Field::AccessModes,
            Field::ClaimRef,
            Field::Provisioner,
            Field::NodeName,
            Field::Claims,
            Field::Finalizers,
            Field::Time,
            Field::Kind,
            Field::From,
            Field::Spec,
            Field::VolumeName,
            Field::Source,
            Field::VolumeMode,
            Field::NodeAffinity,
            Field::Parameters,
            Field::Policy,
            Field::BindingMode,
            Field::Deletion,
        ],
        word,
    )
}

/// The rule that the word names.
pub fn rule_named(word: &str) -> Option<Rule>
    ensures { result ≡ rule_named word.now }
{
    value_named(
        &[
            Rule::Verb,
            Rule::Annotation,
            Rule::Finalizer,
            Rule::ClaimRef,
            Rule::Policy,
        ],
        word,
    )
}
