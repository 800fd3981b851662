//! What a pass has seen, for other passes.

ghost use Rattle.std.specs.Prelude.{◌≡◌};
ghost use Rattle.seat_lock.specs.Passes.{HasLearnt, IsPassOf, IsSightOf, KeepsNumbers, shown_by, view_of};

use crate::keeps::Keeps;
use crate::pass::{Pass, Sight};
use crate::plays::{Compare, Learn, Show};
use crate::table::{NUMBERS, SeatLock};

impl<V: Keeps> SeatLock<V> {
    /// What the pass has seen, for another pass to learn. The pass stays as it was.
    pub fn sight(&self, pass: &mut Pass<V>) -> Sight<V>
        requires lock { IsPassOf self.now pass.old }
        ensures lock { IsPassOf self.now pass.new × IsSightOf self.now result }
        ensures numbers { KeepsNumbers pass.old pass.new }
        ensures view { view_of pass.new ≡ view_of pass.old }
        ensures shown { shown_by result ≡ (view_of pass.old).front }
    {
        let seat = self.table.shared.split_seat::<Show>(&mut pass.seat);
        Sight { seat }
    }

    /// The pass has then seen what the sight shows. So each entry that it makes from now on is newer than all that the pass
    /// of the sight had seen, and made, up to then.
    pub fn learn(&self, pass: &mut Pass<V>, sight: Sight<V>)
        requires lock { IsPassOf self.now pass.old × IsSightOf self.now sight }
        ensures lock { IsPassOf self.now pass.new }
        ensures learnt { HasLearnt (shown_by sight) pass.old pass.new }
    {
        let words = &self.table.shared;
        let Sight { seat } = sight;
        words.join_seat::<Learn>(&mut pass.seat, seat);
        words.load::<Compare>(&mut pass.seat, NUMBERS);
    }
}
