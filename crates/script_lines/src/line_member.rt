//! The members of lines.

ghost use Rattle.std.specs.Prelude.{◌≡◌};
ghost use Rattle.script_lines.specs.MemberWords.{line_word};

use kube_types::names::Field;
use object_text::errors::Member;

/// A member that readers of lines look at. `Edit` stands for the edit members together; a member of a
/// manifest is `Of` that. A field of an imported object that is invalid stands by its own name.
#[derive(Clone, Copy)]
pub enum LineMember {
    Do,
    Object,
    User,
    At,
    Bytes,
    Label,
    Value,
    Call,
    Actor,
    When,
    After,
    Calls,
    Claims,
    Edit,
    AddFinalizer,
    DropFinalizer,
    DropLabel,
    DropAnnotation,
    SetLabel,
    SetAnnotation,
    SetVolumeName,
    SetPolicy,
    SetClaimRef,
    ClearClaimRef,
    Of(Member),
    Field(Field),
}

impl LineMember {
    /// The name in JSON, which refusals print.
    pub fn name(&self) -> &str
        ensures { result.now ≡ line_word self.now }
    {
        match self {
            LineMember::Do => "do",
            LineMember::Object => "object",
            LineMember::User => "user",
            LineMember::At => "at",
            LineMember::Bytes => "bytes",
            LineMember::Label => "label",
            LineMember::Value => "value",
            LineMember::Call => "call",
            LineMember::Actor => "actor",
            LineMember::When => "when",
            LineMember::After => "after",
            LineMember::Calls => "calls",
            LineMember::Claims => "claims",
            LineMember::Edit => "edit",
            LineMember::AddFinalizer => "addFinalizer",
            LineMember::DropFinalizer => "dropFinalizer",
            LineMember::DropLabel => "dropLabel",
            LineMember::DropAnnotation => "dropAnnotation",
            LineMember::SetLabel => "setLabel",
            LineMember::SetAnnotation => "setAnnotation",
            LineMember::SetVolumeName => "setVolumeName",
            LineMember::SetPolicy => "setPolicy",
            LineMember::SetClaimRef => "setClaimRef",
            LineMember::ClearClaimRef => "clearClaimRef",
            LineMember::Of(member) => member.name(),
            LineMember::Field(field) => field.name(),
        }
    }
}
