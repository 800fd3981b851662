//! How many calls all drains together may make.

ghost use Rattle.std.specs.Prelude.{◌≡◌, ◌≤◌, ◌<◌, ◌+◌, Some, None};
ghost use Rattle.binder_model.specs.World.{world};
ghost use Rattle.script_runs.specs.Budget.{at_most, faults_ahead, most_budget, raised, size_of_object, size_of_all};

use kube_types::objects::Object;
use world_core::world::World;

/// The most calls of all drains together where no budget is given.
const MOST_BUDGET: u64 = 133120;

/// A size past this one raises the budget to the most at once.
const MOST_SIZE: u64 = 1040;

/// The sum, or the most size.
fn capped(sum: u64, more: u64) -> u64
    requires { sum ≤ 1040 }
    ensures { result ≡ at_most 1040 (sum + more) }
{
    if more > MOST_SIZE - sum {
        MOST_SIZE
    } else {
        sum + more
    }
}

/// An object, and the claims that it names if it is a pod.
fn claims_of(object: &Object) -> u64
    ensures { 1 + result ≡ size_of_object object.now }
{
    match object {
        Object::Pod(pod) => pod.claims.as_slice().len() as u64,
        _ => 0,
    }
}

/// The objects, and the claims that pods name.
fn size_of_all(objects: &[Object]) -> u64
    ensures { result ≡ at_most 1040 (size_of_all objects.now) }
{
    let mut sum = 0;
    for object in objects {
        sum = capped(capped(sum, 1), claims_of(object));
    }
    sum
}

/// The planned faults whose number the devices have not reached.
fn faults_ahead(calls: u64, faults: &[u64]) -> u64
    ensures { result ≡ at_most 1040 (faults_ahead calls faults.now) }
{
    let mut sum = 0;
    for fault in faults {
        if calls < *fault {
            sum = capped(sum, 1);
        }
    }
    sum
}

/// The budget as a drain begins.
pub fn raised(option: Option<u64>, world: &World, budget: u64) -> u64
    requires { option ≡ None → budget ≤ most_budget }
    ensures value { result ≡ raised option world.now.setup world.now.past budget }
    ensures most { option ≡ None → result ≤ most_budget }
    ensures more { option ≡ None → budget ≤ result }
{
    if let Some(given) = option {
        return given;
    }
    let size = size_of_all(world.store().objects());
    let faults = faults_ahead(
        world.devices().counts().calls,
        world.setup().faults.as_slice(),
    );
    let raise = 128 * ((size + 16) * (faults + 1));
    if budget + raise > MOST_BUDGET {
        MOST_BUDGET
    } else {
        budget + raise
    }
}
