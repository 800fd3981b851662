//! Keys with the versions at which they were told, in the order of the keys.

ghost use Rattle.std.specs.Prelude.{◌≡◌, ◌-◌, Some, IfOk, IfErr, OnOk, OnErr, length, option_map, slice_get};
ghost use Rattle.std.specs.Bool.{OnTrue};
ghost use Rattle.std.specs.declared.cmp.Ordering.TheVariants.{Less};
ghost use Rattle.std.specs.List.Sorted.{IsSearchInRange};
ghost use Rattle.informer_cache.specs.Marks.{AreMarks, IsMarkAt, IsMarkGap, mark_at, put_mark};

use kube_types::copies::OutOfMemory;
use kube_types::key::Key;
use kube_types::objects::Version;
use kube_types::rows::{Ranked, place_of};
use std::cmp::Ordering;

/// A key, and the version at which it was told.
#[derive(Drop)]
pub struct Mark {
    pub key: Key,
    pub version: Version,
}

impl Ranked<Key> for Mark {
    ghost use Rattle.kube_objects.specs.Keys.{key_cmp};

    ghost rank = { λ m k. key_cmp m.key k };

    fn rank(&self, key: &Key) -> Ordering {
        self.key.compare(key)
    }
}

/// Whether the key comes after the last row: so it does where rows are put in order.
pub(crate) fn comes_last<T: Ranked<Key>>(rows: &[T], key: &Key) -> bool
    ensures { OnTrue result ((last : T) → slice_get rows.now (length rows.now - 1) ≡ Some last → T.rank last key.now ≡ Less) }
{
    match rows.last() {
        None => true,
        Some(last) => last.rank(key).is_lt(),
    }
}

/// Where the mark of the key is, or where it would stand.
fn mark_place(marks: &[Mark], key: &Key) -> Result<usize, usize>
    requires { AreMarks marks.now }
    ensures bound { IsSearchInRange result (length marks.now) }
    ensures at { IfOk result (IsMarkAt marks.now key.now) }
    ensures gap { IfErr result (IsMarkGap marks.now key.now) }
{
    if comes_last(marks, key) {
        return Err(marks.len());
    }
    searched_place(marks, key)
}

fn searched_place(marks: &[Mark], key: &Key) -> Result<usize, usize>
    requires { AreMarks marks.now }
    ensures bound { IsSearchInRange result (length marks.now) }
    ensures at { IfOk result (IsMarkAt marks.now key.now) }
    ensures gap { IfErr result (IsMarkGap marks.now key.now) }
{
    place_of(marks, key)
}

/// The version at which the key was told.
pub fn version_in(marks: &[Mark], key: &Key) -> Option<Version>
    requires { AreMarks marks.now }
    ensures { result ≡ option_map (λ m. m.version) (mark_at key.now marks.now) }
{
    match mark_place(marks, key) {
        Ok(at) => Some(marks[at].version),
        Err(_) => None,
    }
}

/// Puts the mark in place of the one of its key, or in its place in the order.
pub fn put_in(marks: &mut Vec<Mark>, mark: Mark) -> Result<(), OutOfMemory>
    requires { AreMarks marks.old.items }
    ensures ok { OnOk result (marks.new.items ≡ put_mark mark marks.old.items) }
    ensures err { OnErr result (marks.new.items ≡ marks.old.items) }
    ensures rising { AreMarks marks.new.items }
{
    match mark_place(marks, &mark.key) {
        Ok(at) => marks[at] = mark,
        Err(at) => marks.insert(at, mark)?,
    }
    Ok(())
}
