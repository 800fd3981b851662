//! Why an object of an older store is refused.

ghost use Rattle.std.specs.Prelude.{◌≡◌};
ghost use Rattle.script_lines.specs.Imports.{import_reason};

use crate::errors::Reason;
use crate::line_member::LineMember;
use kube_types::names::ImportFault;
use object_text::errors::Member;

/// The reason that a line gives for the fault of its object.
pub fn import_reason(fault: ImportFault) -> Reason
    ensures { result ≡ import_reason fault }
{
    match fault {
        ImportFault::MissingUid => Reason::Missing(LineMember::Of(Member::Uid)),
        ImportFault::Version => Reason::BadValue(LineMember::Of(Member::ResourceVersion)),
        ImportFault::Serial => Reason::BadValue(LineMember::Of(Member::Uid)),
        ImportFault::Value(field) => Reason::BadValue(LineMember::Field(field)),
        ImportFault::NameAgain => Reason::BadValue(LineMember::Of(Member::Name)),
        ImportFault::UidAgain => Reason::BadValue(LineMember::Of(Member::Uid)),
        ImportFault::ClaimRef => Reason::BadValue(LineMember::Of(Member::ClaimRef)),
        ImportFault::Phase => Reason::BadValue(LineMember::Of(Member::Phase)),
    }
}
