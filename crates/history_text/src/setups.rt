//! The line of a setup.

ghost use Rattle.std.specs.Prelude.{◌≡◌, Some, OnOk, IfOk, codes};
ghost use Rattle.json_text.specs.Members.{items_data, array_data, object_of, with_options, with_member_text};
ghost use Rattle.json_text.specs.Writing.{written, with_some, with_all, with_value, items_after};
ghost use Rattle.history_text.specs.Entries.{pool_pairs, pool_data, setup_pairs, setup_data, setup_line};

use crate::replies::put_topology;
use call_types::setup::{Pool, Setup};
use json_text::member_texts::MemberTexts;
use json_text::writing::JsonText;
use kube_types::copies::OutOfMemory;
use kube_types::text::Bytes;
use object_print::members::{MemberSink, put_filled_list};
use std::alloc::Global;

fn put_pool(out: &mut MemberTexts, pool: &Pool) -> Result<(), OutOfMemory>
    ensures ok { OnOk result (out.new ≡ with_options with_member_text (pool_pairs pool.now) out.old) }
{
    out.put("bytes", &pool.bytes)?;
    out.put_text("name", pool.name.as_str())?;
    out.put_text("provisioner", pool.provisioner.as_str())?;
    put_topology(out, &pool.topology)
}

#[tactic(auto, using(crate::proofs::Closings::closes_pool))]
fn write_pool(out: &mut JsonText, pool: &Pool) -> Result<(), OutOfMemory>
    ensures ok { OnOk result (written out.new ≡ with_value (pool_data pool.now) (written out.old)) }
{
    let mut members = MemberTexts::new(out.allocator());
    put_pool(&mut members, pool)?;
    members.write(out)
}

fn write_pool_items(out: &mut JsonText, pools: &[Pool]) -> Result<(), OutOfMemory>
    ensures ok { OnOk result (written out.new ≡ items_after (items_data pool_data pools.now) (written out.old)) }
{
    for pool in pools {
        write_pool(out, pool)?;
    }
    Ok(())
}

#[tactic(auto, using(crate::proofs::Closings::closes_pools))]
fn put_pools(out: &mut JsonText, pools: &[Pool]) -> Result<(), OutOfMemory>
    ensures ok { OnOk result (written out.new ≡ with_some (codes "pools") (Some (array_data pool_data pools.now)) (written out.old)) }
{
    out.key("pools")?;
    out.begin_array()?;
    write_pool_items(out, pools)?;
    out.end_array()
}

fn put_parts(out: &mut JsonText, setup: &Setup) -> Result<(), OutOfMemory>
    ensures ok { OnOk result (written out.new ≡ with_all (setup_pairs setup.now) (written out.old)) }
{
    out.put_list("faults", setup.faults.as_slice())?;
    put_filled_list(out, "imports", setup.imports.as_slice())?;
    put_pools(out, setup.pools.as_slice())
}

#[tactic(auto, using(crate::proofs::Closings::closes_parts))]
fn write_parts(out: &mut JsonText, setup: &Setup) -> Result<(), OutOfMemory>
    ensures ok { OnOk result (written out.new ≡ with_value (object_of (setup_pairs setup.now)) (written out.old)) }
{
    out.begin_object()?;
    put_parts(out, setup)?;
    out.end_object()
}

#[tactic(auto, unfolding(json_text::specs::Members::with_option))]
fn put_setup(out: &mut JsonText, setup: &Setup) -> Result<(), OutOfMemory>
    ensures ok { OnOk result (written out.new ≡ with_some (codes "setup") (Some (object_of (setup_pairs setup.now))) (written out.old)) }
{
    out.key("setup")?;
    write_parts(out, setup)
}

/// Puts a setup at the end.
#[tactic(auto, using(crate::proofs::Closings::closes_setup))]
pub fn write_setup(out: &mut JsonText, setup: &Setup) -> Result<(), OutOfMemory>
    ensures ok { OnOk result (written out.new ≡ with_value (setup_data setup.now) (written out.old)) }
{
    out.begin_object()?;
    put_setup(out, setup)?;
    out.end_object()
}

/// The first line of a history, without a line feed.
#[tactic(auto, using(json_text::proofs::Closing::alone), unfolding(crate::specs::Entries::setup_line))]
pub fn print_setup(alloc: Global, setup: &Setup) -> Result<Bytes, OutOfMemory>
    ensures { IfOk result (λ b. b ≡ setup_line setup.now) }
{
    let mut out = JsonText::new(alloc);
    write_setup(&mut out, setup)?;
    Ok(out.into_bytes())
}
