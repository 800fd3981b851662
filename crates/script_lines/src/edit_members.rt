//! The edit members of a line.

ghost use Rattle.std.specs.Prelude.{◌≡◌};
ghost use Rattle.script_lines.specs.Members.{edit_member};

use crate::line_member::LineMember;

/// An edit member.
#[derive(Clone, Copy)]
pub enum EditMember {
    AddFinalizer,
    DropFinalizer,
    DropLabel,
    DropAnnotation,
    SetLabel,
    SetAnnotation,
    SetVolumeName,
    SetPolicy,
    SetClaimRef,
    ClearClaimRef,
}

impl EditMember {
    /// The member of the line that it is.
    pub fn member(&self) -> LineMember
        ensures { result ≡ edit_member self.now }
    {
        match self {
            EditMember::AddFinalizer => LineMember::AddFinalizer,
            EditMember::DropFinalizer => LineMember::DropFinalizer,
            EditMember::DropLabel => LineMember::DropLabel,
            EditMember::DropAnnotation => LineMember::DropAnnotation,
            EditMember::SetLabel => LineMember::SetLabel,
            EditMember::SetAnnotation => LineMember::SetAnnotation,
            EditMember::SetVolumeName => LineMember::SetVolumeName,
            EditMember::SetPolicy => LineMember::SetPolicy,
            EditMember::SetClaimRef => LineMember::SetClaimRef,
            EditMember::ClearClaimRef => LineMember::ClearClaimRef,
        }
    }
}
