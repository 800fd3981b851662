//! The setup of a line.

ghost use Rattle.std.specs.Prelude.{◌≡◌, None, IfOk};
ghost use Rattle.binder_model.specs.Imports.{ImportsPass};
ghost use Rattle.serde_json.specs.View.{view};
ghost use Rattle.history_text.specs.Entries.{setup_line};
ghost use Rattle.history_lines.specs.Answers.{PartGives};
ghost use Rattle.history_lines.specs.Entries.{pool_in, is_above, rise_from, imports_pass, parts_with, parts_in, setup_in, printed_as, setup_of};

use crate::entries::json_of;
use crate::errors::Unread;
use crate::members::{FromJson, list_at, member_at, number_at, some_list_at, text_at, topology_at};
use call_types::setup::{Pool, Setup};
use history_text::setups::print_setup;
use kube_types::copies::OutOfMemory;
use kube_types::items::Items;
use kube_types::objects::Object;
use serde_json::Value;
use std::alloc::Global;

impl FromJson for Pool {
    ghost use Rattle.history_lines.specs.Entries.{pool_in};

    ghost read = { pool_in };

    #[tactic(auto, unfolding(crate::specs::Entries::pool_in))]
    fn read(alloc: Global, value: &Value) -> Result<Pool, Unread> {
        let bytes = number_at(value, "bytes")?;
        let name = text_at(alloc, value, "name")?;
        let provisioner = text_at(alloc, value, "provisioner")?;
        let topology = topology_at(alloc, value)?;
        Ok(Pool {
            name,
            provisioner,
            bytes,
            topology,
        })
    }
}

fn is_above(last: Option<u64>, number: u64) -> bool
    ensures { result ≡ is_above last number }
{
    match last {
        None => true,
        Some(last) => last < number,
    }
}

fn rise(numbers: &[u64]) -> bool
    ensures { result ≡ rise_from None numbers.now }
{
    let mut last = None;
    for number in numbers {
        if !is_above(last, *number) {
            return false;
        }
        last = Some(*number);
    }
    true
}

/// Whether each object is imported after those before it.
#[tactic(auto, using(crate::proofs::Imports::test_of))]
fn imports_pass(alloc: Global, imports: &[Object]) -> Result<bool, OutOfMemory>
    ensures { IfOk result (λ passes. passes ≡ imports_pass imports.now) }
{
    field_rules::older::imports_pass(alloc, imports)
}

fn parts_with(
    alloc: Global,
    pools: Items<Pool>,
    faults: Items<u64>,
    imports: Items<Object>,
) -> Result<Setup, Unread>
    ensures { PartGives result (parts_with pools faults imports) }
{
    if rise(faults.as_slice()) && imports_pass(alloc, imports.as_slice())? {
        Ok(Setup {
            pools,
            faults,
            imports,
        })
    } else {
        Err(Unread::NotCanonical)
    }
}

#[tactic(auto, unfolding(crate::specs::Entries::parts_in))]
fn parts_in(alloc: Global, value: &Value) -> Result<Setup, Unread>
    ensures { PartGives result (parts_in (view value.now)) }
{
    let faults = list_at(alloc, value, "faults")?;
    let imports = some_list_at(alloc, value, "imports")?;
    let pools = list_at(alloc, value, "pools")?;
    parts_with(alloc, pools, faults, imports)
}

/// The setup that a value gives.
#[tactic(auto, unfolding(crate::specs::Entries::setup_in))]
pub fn setup_in(alloc: Global, value: &Value) -> Result<Setup, Unread>
    ensures { PartGives result (setup_in (view value.now)) }
{
    parts_in(alloc, member_at(value, "setup")?)
}

fn printed_as(alloc: Global, line: &[u8], setup: Setup) -> Result<Setup, Unread>
    ensures { PartGives result (printed_as setup_line line.now setup) }
{
    let printed = print_setup(alloc, &setup)?;
    if printed.as_slice() == line {
        Ok(setup)
    } else {
        Err(Unread::NotCanonical)
    }
}

#[tactic(auto, unfolding(crate::specs::Entries::setup_of))]
fn read_setup(alloc: Global, line: &[u8]) -> Result<Setup, Unread>
    ensures { PartGives result (setup_of line.now) }
{
    let tree = json_of(alloc, line)?;
    let setup = setup_in(alloc, tree.value())?;
    printed_as(alloc, line, setup)
}

/// The setup of a line: the one whose printed line it is. A world may begin with its imports.
#[tactic(auto, using(crate::proofs::Imports::read_passes))]
pub fn setup_of(alloc: Global, line: &[u8]) -> Result<Setup, Unread>
    ensures gives { PartGives result (setup_of line.now) }
    ensures imports { IfOk result (λ s. ImportsPass s.imports) }
{
    read_setup(alloc, line)
}
