//! Numbers by the names of actors.

ghost use Rattle.std.specs.Prelude.{◌≡◌, [], length, IfOk, IfErr, OnOk, option_map};
ghost use Rattle.std.specs.List.Sorted.{IsSearchInRange};
ghost use Rattle.script_lines.specs.Members.{is_given};
ghost use Rattle.script_text.specs.Steps.Numbers.{AreNumbers, IsNumbersAt, IsNumbersGap, numbers_shown, numbers_at, and_number};

use kube_types::copies::{OutOfMemory, Plain};
use kube_types::items::Items;
use kube_types::rows::{Ranked, place_of};
use kube_types::text::Text;
use std::alloc::Global;
use std::cmp::Ordering;
use std::marker::Model;

/// The numbers of an actor.
pub struct NumberRow {
    pub name: Text,
    pub numbers: Items<u64>,
}

impl Drop for NumberRow {
    fn drop(self) {
        let NumberRow { name, numbers } = self;
        drop(name);
        drop(numbers);
    }
}

impl<'a> Ranked<&'a str> for NumberRow {
    ghost use Rattle.plain_data.specs.Pairs.{text_cmp};

    ghost rank = { λ r k. text_cmp r.name k.now };

    fn rank(&self, key: &&'a str) -> Ordering {
        let key: &str = key;
        self.name.as_str().cmp(key)
    }
}

/// Numbers by name, in the order of the names.
pub struct Numbers {
    rows: Vec<NumberRow>,
}

impl Drop for Numbers {
    fn drop(self) {
        let Numbers { rows } = self;
        drop(rows);
    }
}

impl Model for Numbers {
    ghost use Rattle.std.specs.Prelude.{List};
    ghost use Rattle.script_text.specs.declared.numbers.NumberRow.{NumberRow};
    ghost use Rattle.script_text.specs.Steps.Numbers.{AreNumbers};

    ghost Value = { List NumberRow };

    ghost view = { λ n. n.rows.items };

    ghost invariant = { λ n. AreNumbers n.rows.items };
}

fn number_place(rows: &[NumberRow], name: &str) -> Result<usize, usize>
    requires { AreNumbers rows.now }
    ensures bound { IsSearchInRange result (length rows.now) }
    ensures at { IfOk result (IsNumbersAt rows.now name.now) }
    ensures gap { IfErr result (IsNumbersGap rows.now name.now) }
{
    place_of(rows, &name)
}

/// Whether the number is among these.
pub(crate) fn is_given(number: u64, numbers: &[u64]) -> bool
    ensures { result ≡ is_given number numbers.now }
{
    for given in numbers {
        if *given == number {
            return true;
        }
    }
    false
}

fn numbers_of<'a>(rows: &'a [NumberRow], name: &str) -> Option<&'a Items<u64>>
    requires { AreNumbers rows.now }
    ensures { numbers_shown (option_map (λ n. n.now) result) ≡ numbers_at name.now rows.now }
{
    match number_place(rows, name) {
        Ok(at) => Some(&rows[at].numbers),
        Err(_) => None,
    }
}

fn put_number(rows: &mut Vec<NumberRow>, name: &Text, number: u64) -> Result<(), OutOfMemory>
    requires { AreNumbers rows.old.items }
    ensures ok { OnOk result (rows.new.items ≡ and_number name.now number rows.old.items) }
    ensures rising { AreNumbers rows.new.items }
{
    let alloc = *rows.allocator();
    match number_place(rows, name.as_str()) {
        Ok(at) => rows[at].numbers.push(number)?,
        Err(at) => {
            let name = name.copy(alloc)?;
            let mut numbers = Items::new(alloc);
            numbers.push(number)?;
            rows.insert(at, NumberRow { name, numbers })?;
        }
    }
    Ok(())
}

impl Numbers {
    /// No numbers. It takes no memory.
    pub fn new(alloc: Global) -> Numbers
        ensures { result ≡ [] }
    {
        Numbers {
            rows: Vec::new(alloc),
        }
    }

    /// Whether the name has the number.
    pub fn has(&self, name: &str, number: u64) -> bool
        ensures { result ≡ is_given number (numbers_at name.now self.now) }
    {
        match numbers_of(&self.rows, name) {
            Some(numbers) => is_given(number, numbers.as_slice()),
            None => false,
        }
    }

    /// How many numbers the name has.
    pub fn count(&self, name: &str) -> usize
        ensures { result ≡ length (numbers_at name.now self.now) }
    {
        match numbers_of(&self.rows, name) {
            Some(numbers) => numbers.as_slice().len(),
            None => 0,
        }
    }

    /// Gives the name one number more.
    pub fn add(&mut self, name: &Text, number: u64) -> Result<(), OutOfMemory>
        ensures ok { OnOk result (self.new ≡ and_number name.now number self.old) }
    {
        put_number(&mut self.rows, name, number)
    }
}
