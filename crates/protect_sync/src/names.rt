//! A list of names with one more.

ghost use Rattle.std.specs.Prelude.{◌≡◌, ◌++◌, ◌∷◌, [], IfOk};

use kube_types::copies::{OutOfMemory, Plain};
use kube_types::text::{Names, Text};
use std::alloc::Global;

/// The names, and this one at the end.
pub(crate) fn with_name(alloc: Global, names: &Names, name: &str) -> Result<Names, OutOfMemory>
    ensures { IfOk result (λ more. more ≡ names.now ++ name.now ∷ []) }
{
    let name = Text::new(alloc, name)?;
    let mut more = names.copy(alloc)?;
    more.push(&name)?;
    Ok(more)
}
