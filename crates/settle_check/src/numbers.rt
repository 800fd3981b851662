//! What is due as a number, which is the action of a row.

ghost use Rattle.std.specs.Prelude.{◌≡◌};
ghost use Rattle.settle_check.specs.DueTables.{due_number, due_numbered};

use kube_types::names::Due;

/// The number of what is due in a table.
pub(crate) fn due_number(action: Option<Due>) -> u8
    ensures { result ≡ due_number action }
{
    match action {
        None => 0,
        Some(Due::Available) => 1,
        Some(Due::Bound) => 2,
        Some(Due::Release) => 3,
        Some(Due::Unbind) => 4,
        Some(Due::Reclaim) => 5,
        Some(Due::Guard) => 6,
        Some(Due::Unguard) => 7,
        Some(Due::Bind) => 8,
        Some(Due::AssignClass) => 9,
        Some(Due::Lost) => 10,
        Some(Due::Provision) => 11,
        Some(Due::ClearNode) => 12,
        Some(Due::Prepare) => 13,
        Some(Due::Assign) => 14,
        Some(Due::Mount) => 15,
        Some(Due::Finish) => 16,
    }
}

/// What is due by a number of a table.
pub(crate) fn due_numbered(number: u8) -> Option<Due>
    ensures { result ≡ due_numbered number }
{
    match number {
        1 => Some(Due::Available),
        2 => Some(Due::Bound),
        3 => Some(Due::Release),
        4 => Some(Due::Unbind),
        5 => Some(Due::Reclaim),
        6 => Some(Due::Guard),
        7 => Some(Due::Unguard),
        8 => Some(Due::Bind),
        9 => Some(Due::AssignClass),
        10 => Some(Due::Lost),
        11 => Some(Due::Provision),
        12 => Some(Due::ClearNode),
        13 => Some(Due::Prepare),
        14 => Some(Due::Assign),
        15 => Some(Due::Mount),
        16 => Some(Due::Finish),
        _ => None,
    }
}
