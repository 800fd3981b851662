//! What a script says of an actor.

use crate::loss::Loss;
use call_types::request::SeatKind;
use kube_types::items::Items;
use kube_types::text::Text;

/// An actor's name and kind; whether a turn names it; the seat of its first life; which of its calls are lost; and after how
/// many calls a new life begins.
#[derive(Debug)]
pub struct Part {
    pub name: Text,
    pub kind: SeatKind,
    pub named: bool,
    pub first: u64,
    pub losses: Items<Loss>,
    pub restarts: Items<u64>,
}

impl Drop for Part {
    fn drop(self) {
        let Part {
            name,
            kind: _,
            named: _,
            first: _,
            losses,
            restarts,
        } = self;
        drop(name);
        drop(losses);
        drop(restarts);
    }
}
