//! The world and the actors that stand while the lines are read.

ghost use Rattle.worker_core.specs.Roles.{IsBuiltKind};

use call_types::edit::Edit;
use call_types::request::{Request, SeatKind};
use call_types::setup::{Pool, Setup};
use kube_types::items::Items;
use plain_data::copies::OutOfMemory;
use plain_data::text::Text;
use sample_objects::keys::volume_key;
use sample_objects::setups::bare;
use std::alloc::Global;
use worker_core::actor::Actor;
use worker_core::turn::{Next, Outcome};
use world_core::world::World;

/// A call that is lost: its number, and whether it is lost after its effect.
#[derive(Clone, Copy, Debug)]
pub struct Loss {
    pub call: u64,
    pub after: bool,
}

/// An actor at its seat, with the number of its calls.
#[derive(Drop)]
pub struct Seat {
    pub number: u64,
    pub kind: SeatKind,
    pub actor: Actor,
    pub made: u64,
    pub losses: Vec<Loss>,
}

/// A world, its actors, and how many of its entries were written.
#[derive(Drop)]
pub struct Bench {
    pub alloc: Global,
    pub world: World,
    pub seats: Vec<Seat>,
    pub written: usize,
}

/// An empty world.
fn empty_world(alloc: Global) -> Result<World, OutOfMemory> {
    let setup = bare(alloc);
    World::new(alloc, &setup, 0)
}

/// An empty world with one pool, where the call of this number on the back end fails.
fn pool_world(
    alloc: Global,
    provisioner: &str,
    bytes: u64,
    fault: u64,
) -> Result<World, OutOfMemory> {
    let mut pools = Items::new(alloc);
    pools.push(Pool {
        name: Text::new(alloc, "pool")?,
        provisioner: Text::new(alloc, provisioner)?,
        bytes,
        topology: None,
    })?;
    let mut faults = Items::new(alloc);
    faults.push(fault)?;
    let setup = Setup {
        pools,
        faults,
        imports: Items::new(alloc),
    };
    World::new(alloc, &setup, 0)
}

impl Bench {
    pub fn new(alloc: Global) -> Result<Bench, OutOfMemory> {
        let world = empty_world(alloc)?;
        Ok(Bench {
            alloc,
            world,
            seats: Vec::new(alloc),
            written: 0,
        })
    }

    /// An empty world without actors.
    pub fn clear(&mut self) -> Result<(), OutOfMemory> {
        let world = empty_world(self.alloc)?;
        self.begin(world);
        Ok(())
    }

    /// An empty world without actors, with one pool; the call of this number on the back end fails.
    pub fn provide(
        &mut self,
        provisioner: &str,
        bytes: u64,
        fault: u64,
    ) -> Result<(), OutOfMemory> {
        let world = pool_world(self.alloc, provisioner, bytes, fault)?;
        self.begin(world);
        Ok(())
    }

    fn begin(&mut self, world: World) {
        self.world = world;
        self.seats = Vec::new(self.alloc);
        self.written = 0;
    }

    /// A user's write.
    pub fn write(&mut self, request: &Request) -> Result<(), OutOfMemory> {
        let _reply = self.world.call(1, SeatKind::User, request, true)?;
        Ok(())
    }

    /// So many writes of a user, each of another label of the volume.
    pub fn stir(&mut self, volume: &str, count: u64) -> Result<(), OutOfMemory> {
        for number in 0..count {
            let value = format!(in self.alloc; "{number}")?;
            let key = volume_key(self.alloc, volume)?;
            let edit = Edit::SetLabel {
                key: Text::new(self.alloc, "stirred")?,
                value: Text::new(self.alloc, &value)?,
            };
            self.write(&Request::Edit { key, edit })?;
        }
        Ok(())
    }

    /// The place of the actor of this seat; a binder is made where there is none.
    pub fn place(&mut self, number: u64) -> Result<usize, OutOfMemory> {
        for (place, seat) in self.seats.iter().enumerate() {
            if seat.number == number {
                return Ok(place);
            }
        }
        let place = self.seats.len();
        self.add(number, SeatKind::Binder)?;
        Ok(place)
    }

    /// An actor of this kind at a further seat.
    pub fn add(&mut self, number: u64, kind: SeatKind) -> Result<(), OutOfMemory>
        requires { IsBuiltKind kind }
    {
        let node = Text::new(self.alloc, "")?;
        self.seats.push(Seat {
            number,
            kind,
            actor: Actor::new(self.alloc, kind, &node)?,
            made: 0,
            losses: Vec::new(self.alloc),
        })?;
        Ok(())
    }

    /// Makes so many calls of the actor, or fewer where it is idle. Answers whether it is idle.
    pub fn turn(&mut self, number: u64, calls: u64) -> Result<bool, OutOfMemory> {
        let place = self.place(number)?;
        let Bench { world, seats, .. } = self;
        match seats.get_mut(place) {
            None => Ok(false),
            Some(seat) => seat.turn(world, calls),
        }
    }
}

impl Seat {
    fn turn(&mut self, world: &mut World, calls: u64) -> Result<bool, OutOfMemory> {
        for _ in 0..calls {
            if !self.step(world)? {
                return Ok(true);
            }
        }
        Ok(false)
    }

    /// Makes one call; false where the actor is idle.
    fn step(&mut self, world: &mut World) -> Result<bool, OutOfMemory> {
        let next = self.actor.next()?;
        match &next {
            Next::Idle => Ok(false),
            Next::Call(request) => {
                self.made = self.made.wrapping_add(1);
                let outcome = made(world, self.number, self.kind, request, self.loss())?;
                self.actor.absorb(request, outcome)?;
                Ok(true)
            }
        }
    }

    /// Whether the present call is lost, and then whether after its effect.
    fn loss(&self) -> Option<bool> {
        for loss in &self.losses {
            if loss.call == self.made {
                return Some(loss.after);
            }
        }
        None
    }
}

/// What comes of an actor's call.
fn made(
    world: &mut World,
    seat: u64,
    kind: SeatKind,
    request: &Request,
    lost: Option<bool>,
) -> Result<Outcome, OutOfMemory> {
    match lost {
        None => Ok(Outcome::Told(world.call(seat, kind, request, true)?)),
        Some(false) => Ok(Outcome::Lost),
        Some(true) => {
            let _reply = world.call(seat, kind, request, false)?;
            Ok(Outcome::Lost)
        }
    }
}
