//! What the lines so far said.

ghost use Rattle.std.specs.Prelude.{◌≡◌, false, length, IfOk, IfErr, OnOk};
ghost use Rattle.std.specs.List.Sorted.{IsSearchInRange};
ghost use Rattle.std.specs.Ordering.{nat_cmp};
ghost use Rattle.plain_data.specs.Rows.{IsAt, IsGap, put};
ghost use Rattle.script_text.specs.declared.script.Meaning.TheVariants as meanings;
ghost use Rattle.script_lines.specs.Members.{is_given};
ghost use Rattle.script_text.specs.Said.{nothing_said, and_said, has_begun, agents_of, losses_of, restarts_of, nodes_of, numbered_of};
ghost use Rattle.script_text.specs.Grammar.{limit_of, unless_passed};
ghost use Rattle.script_text.specs.Steps.Indexed.{AreFaults, ProgressStands, Takes, said_by};

use crate::index::{Index, no_index, note_import, note_line};
use crate::script::{Line, Numbered, Script};
use call_types::setup::{Pool, Setup};
use kube_types::copies::OutOfMemory;
use kube_types::items::Items;
use kube_types::objects::Object;
use kube_types::text::{Names, Text};
use script_lines::errors::{LineError, Reason};
use std::alloc::Global;

const MOST_POOLS: usize = 64;

const MOST_FAULTS: usize = 256;

/// What was said, and the index of its objects and lines.
pub struct Progress {
    pub pools: Items<Pool>,
    pub sizes: Names,
    pub faults: Vec<u64>,
    pub imports: Items<Object>,
    pub lines: Items<Line>,
    pub numbers: Items<u64>,
    pub index: Index,
}

impl Drop for Progress {
    fn drop(self) {
        let Progress {
            pools,
            sizes,
            faults,
            imports,
            lines,
            numbers,
            index,
        } = self;
        drop(pools);
        drop(sizes);
        drop(faults);
        drop(imports);
        drop(lines);
        drop(numbers);
        drop(index);
    }
}

/// Where the number is among these, or where it would stand.
fn fault_place(faults: &[u64], call: u64) -> Result<usize, usize>
    requires { AreFaults faults.now }
    ensures bound { IsSearchInRange result (length faults.now) }
    ensures at { IfOk result (IsAt nat_cmp (λ n. n) call faults.now) }
    ensures gap { IfErr result (IsGap nat_cmp (λ n. n) call faults.now) }
{
    faults.binary_search(&call)
}

fn put_fault(faults: &mut Vec<u64>, call: u64) -> Result<(), OutOfMemory>
    requires { AreFaults faults.old.items }
    ensures ok { OnOk result (faults.new.items ≡ put nat_cmp (λ n. n) call faults.old.items) }
    ensures rising { AreFaults faults.new.items }
{
    match fault_place(faults, call) {
        Ok(_) => Ok(()),
        Err(at) => {
            faults.insert(at, call)?;
            Ok(())
        }
    }
}

impl Progress {
    /// Nothing was said. It takes no memory.
    pub fn new(alloc: Global) -> Progress
        ensures stands { ProgressStands result }
        ensures said { said_by result ≡ nothing_said }
    {
        Progress {
            pools: Items::new(alloc),
            sizes: Names::new(alloc),
            faults: Vec::new(alloc),
            imports: Items::new(alloc),
            lines: Items::new(alloc),
            numbers: Items::new(alloc),
            index: no_index(alloc),
        }
    }

    /// Whether a fault line gave the number.
    pub fn has_fault(&self, call: u64) -> bool
        requires { ProgressStands self.now }
        ensures { result ≡ is_given call self.now.faults.items }
    {
        fault_place(&self.faults, call).is_ok()
    }

    /// Whether a line lost this call of the actor of this name.
    pub fn has_loss(&self, name: &Text, call: u64) -> bool
        requires { ProgressStands self.now }
        ensures { result ≡ is_given call (losses_of name.now self.now.lines) }
    {
        self.index.losses.has(name.as_str(), call)
    }

    /// Whether a line began a new life after this call of the actor of this name.
    pub fn has_restart(&self, name: &Text, call: u64) -> bool
        requires { ProgressStands self.now }
        ensures { result ≡ is_given call (restarts_of name.now self.now.lines) }
    {
        self.index.restarts.has(name.as_str(), call)
    }
}

pub(crate) fn take_pool(
    progress: &mut Progress,
    _number: u64,
    pool: Pool,
    size: &Text,
) -> Result<(), LineError>
    requires { ProgressStands progress.old }
    ensures { Takes result progress.new (unless_passed (limit_of (and_said (said_by progress.old) _number (meanings.Pool pool size.now)) (meanings.Pool pool size.now)) (and_said (said_by progress.old) _number (meanings.Pool pool size.now))) }
{
    progress.pools.push(pool)?;
    progress.sizes.push(size)?;
    if progress.pools.as_slice().len() > MOST_POOLS {
        return Err(LineError::Refused(Reason::TooManyPools));
    }
    Ok(())
}

pub(crate) fn take_fault(progress: &mut Progress, _number: u64, call: u64) -> Result<(), LineError>
    requires { ProgressStands progress.old }
    ensures { Takes result progress.new (unless_passed (limit_of (and_said (said_by progress.old) _number (meanings.Fault call)) (meanings.Fault call)) (and_said (said_by progress.old) _number (meanings.Fault call))) }
{
    put_fault(&mut progress.faults, call)?;
    if progress.faults.len() > MOST_FAULTS {
        return Err(LineError::Refused(Reason::TooManyFaults));
    }
    Ok(())
}

pub(crate) fn take_import(
    alloc: Global,
    progress: &mut Progress,
    _number: u64,
    object: Object,
) -> Result<(), LineError>
    requires stands { ProgressStands progress.old }
    requires early { has_begun progress.old.lines ≡ false }
    ensures { Takes result progress.new (unless_passed (limit_of (and_said (said_by progress.old) _number (meanings.Import object)) (meanings.Import object)) (and_said (said_by progress.old) _number (meanings.Import object))) }
{
    note_import(
        alloc,
        &mut progress.index,
        progress.imports.as_slice(),
        progress.lines.as_slice(),
        &object,
    )?;
    progress.imports.push(object)?;
    Ok(())
}

pub(crate) fn take_line(
    alloc: Global,
    progress: &mut Progress,
    number: u64,
    line: Line,
) -> Result<(), LineError>
    requires { ProgressStands progress.old }
    ensures { Takes result progress.new (unless_passed (limit_of (and_said (said_by progress.old) number (meanings.Line line)) (meanings.Line line)) (and_said (said_by progress.old) number (meanings.Line line))) }
{
    note_line(
        alloc,
        &mut progress.index,
        progress.imports.as_slice(),
        progress.lines.as_slice(),
        &line,
    )?;
    progress.lines.push(line)?;
    progress.numbers.push(number)?;
    Ok(())
}

fn node_names(alloc: Global, index: &Index) -> Result<Names, OutOfMemory>
    ensures { IfOk result (λ names. names ≡ nodes_of index.now.agents) }
{
    let mut names = Names::new(alloc);
    for agent in index.agents.as_slice() {
        names.push(&agent.1)?;
    }
    Ok(names)
}

impl Progress {
    /// The script that was said, with the numbers of its lines.
    #[tactic(auto, unfolding(crate::specs::Said::numbered_of))]
    pub fn into_numbered(self, alloc: Global) -> Result<Numbered, OutOfMemory>
        requires { ProgressStands self }
        ensures said { IfOk result (λ n. n ≡ numbered_of (said_by self)) }
        ensures nodes { IfOk result (λ n. n.script.node_names ≡ nodes_of (agents_of n.script.setup.imports n.script.lines)) }
    {
        let names = node_names(alloc, &self.index)?;
        let Progress {
            pools,
            sizes,
            faults,
            imports,
            lines,
            numbers,
            index: _,
        } = self;
        Ok(Numbered {
            script: Script {
                setup: Setup {
                    pools,
                    faults: Items::from_vec(faults),
                    imports,
                },
                lines,
                node_names: names,
                sizes,
            },
            numbers,
        })
    }
}
