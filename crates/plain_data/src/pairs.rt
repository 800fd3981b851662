//! Pairs of texts in the order of their keys.

ghost use Rattle.std.specs.Prelude.{◌≡◌, [], OnOk, OnErr, IfOk, IfErr, length};
ghost use Rattle.std.specs.List.Sorted.{IsSearchInRange};
ghost use Rattle.std.specs.Option.{option_copied};
ghost use Rattle.plain_data.specs.Pairs.{ArePairs, IsPairAt, IsPairGap, put_pair, value_at, without_key};

use crate::copies::{OutOfMemory, Plain, copy_all, same_all};
use crate::rows::{Ranked, place_of};
use crate::text::Text;
use std::alloc::Global;
use std::cmp::Ordering;
use std::marker::Model;

/// Pairs of a key and a value, sorted by key, no key twice.
#[derive(Debug)]
pub struct Pairs {
    items: Vec<(Text, Text)>,
}

impl Drop for Pairs {
    fn drop(self) {
        let Pairs { items } = self;
        drop(items);
    }
}

impl Model for Pairs {
    ghost use Rattle.std.specs.Prelude.{List, ℕ};
    ghost use Rattle.plain_data.specs.Pairs.{Pair, ArePairs};

    ghost Value = { List Pair };

    ghost view = { λ p. p.items.items };

    ghost invariant = { λ p. ArePairs p.items.items };
}

impl Plain for (Text, Text) {
    fn copy(&self, alloc: Global) -> Result<(Text, Text), OutOfMemory> {
        Ok((self.0.copy(alloc)?, self.1.copy(alloc)?))
    }

    fn same(&self, other: &(Text, Text)) -> bool {
        self.0.same(&other.0) && self.1.same(&other.1)
    }
}

impl<'a> Ranked<&'a str> for (Text, Text) {
    ghost use Rattle.plain_data.specs.Pairs.{text_cmp};

    ghost rank = { λ p k. text_cmp p.0 k.now };

    fn rank(&self, key: &&'a str) -> Ordering {
        let key: &str = key;
        self.0.as_str().cmp(key)
    }
}

/// Where the key is, or where it would stand.
fn pair_place(items: &[(Text, Text)], key: &str) -> Result<usize, usize>
    requires { ArePairs items.now }
    ensures bound { IsSearchInRange result (length items.now) }
    ensures at { IfOk result (IsPairAt items.now key.now) }
    ensures gap { IfErr result (IsPairGap items.now key.now) }
{
    place_of(items, &key)
}

fn value_in<'a>(items: &'a [(Text, Text)], key: &str) -> Option<&'a Text>
    requires { ArePairs items.now }
    ensures { option_copied result ≡ value_at key.now items.now }
{
    match pair_place(items, key) {
        Ok(at) => Some(&items[at].1),
        Err(_) => None,
    }
}

fn put_in(items: &mut Vec<(Text, Text)>, pair: (Text, Text)) -> Result<(), OutOfMemory>
    requires { ArePairs items.old.items }
    ensures ok { OnOk result (items.new.items ≡ put_pair pair.0 pair.1 items.old.items) }
    ensures err { OnErr result (items.new.items ≡ items.old.items) }
    ensures rising { ArePairs items.new.items }
{
    match pair_place(items, pair.0.as_str()) {
        Ok(at) => items[at] = pair,
        Err(at) => items.insert(at, pair)?,
    }
    Ok(())
}

fn drop_in(items: &mut Vec<(Text, Text)>, key: &str)
    requires { ArePairs items.old.items }
    ensures without { items.new.items ≡ without_key key.now items.old.items }
    ensures rising { ArePairs items.new.items }
{
    match pair_place(items, key) {
        Ok(at) => {
            let _ = items.remove(at);
        }
        Err(_) => {}
    }
}

impl Pairs {
    pub fn new(alloc: Global) -> Pairs
        ensures { result ≡ [] }
    {
        Pairs {
            items: Vec::new(alloc),
        }
    }

    pub fn as_slice(&self) -> &[(Text, Text)]
        ensures pairs { result.now ≡ self.now }
        ensures rising { ArePairs self.now }
    {
        &self.items
    }

    /// The value of a key.
    pub fn get(&self, key: &str) -> Option<&Text>
        ensures { option_copied result ≡ value_at key.now self.now }
    {
        value_in(&self.items, key)
    }

    /// Puts a copy of the pair in place of the one of its key, or in its place in the order.
    pub fn set(&mut self, key: &Text, value: &Text) -> Result<(), OutOfMemory>
        ensures ok { OnOk result (self.new ≡ put_pair key.now value.now self.old) }
        ensures err { OnErr result (self.new ≡ self.old) }
    {
        let alloc = *self.items.allocator();
        let pair = (key.copy(alloc)?, value.copy(alloc)?);
        put_in(&mut self.items, pair)
    }

    /// Takes out the pair of the key. An absent key changes nothing.
    pub fn drop_key(&mut self, key: &Text)
        ensures { self.new ≡ without_key key.now self.old }
    {
        drop_in(&mut self.items, key.as_str());
    }
}

impl Plain for Pairs {
    fn copy(&self, alloc: Global) -> Result<Pairs, OutOfMemory> {
        Ok(Pairs {
            items: copy_all(alloc, self.as_slice())?,
        })
    }

    fn same(&self, other: &Pairs) -> bool {
        same_all(self.as_slice(), other.as_slice())
    }
}
