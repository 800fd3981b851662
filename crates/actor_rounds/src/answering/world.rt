//! A kept world answers all seats, and holds nothing back.

use crate::answering::answers::Answers;
use call_types::ask::Ask;
use call_types::reply::Reply;
use kube_types::copies::OutOfMemory;
use world_core::kept::KeptWorld;

impl Answers for KeptWorld {
    ghost use Rattle.std.specs.Prelude.{true};

    type Lent = ();

    ghost past = { λ k. k.past };

    ghost serves = { λ k seat. Unit {0} };

    ghost orders = { λ k seat. ⊥ };

    ghost lets = { λ k past request. true };

    ghost setup = { λ k. k.setup };

    ghost lent = { λ k. tt };

    fn call(&mut self, seat: u64, ask: &Ask, told: bool) -> Result<Option<Reply>, OutOfMemory> {
        let reply = KeptWorld::call(self, seat, ask.kind, &ask.request, told)?;
        let _ = self.world().history();
        Ok(Some(reply))
    }
}
