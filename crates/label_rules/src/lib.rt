//! Label selectors and node selector terms.
//!
//! Promises: `selects` and `admits` answer exactly what the definition says of a selector and of node
//! terms; both take no memory. Not said: that a selector was valid where it was made.
#![tactic(auto)]

ghost use Rattle.std.specs.Prelude.{◌≡◌, bytes_eq};
ghost use Rattle.std.specs.List.{list_all, list_any};
ghost use Rattle.std.specs.Option.{option_copied};
ghost use Rattle.plain_data.specs.Pairs.{ArePairs, text_cmp};
ghost use Rattle.label_rules.specs.Selectors.{admits, has_pair, holds, holds_by, is_one_of, selects, term_matches};

use kube_types::items::Items;
use kube_types::objects::{Expr, NodeTerms, Selector};
use kube_types::pairs::Pairs;
use kube_types::parts::Op;
use kube_types::text::{Names, Text};
use std::cmp::Ordering;

/// With more labels than this for each wanted pair, the pairs are sought one by one, by halves.
const LABELS_A_PAIR: usize = 8;

/// A text of fewer bytes is compared byte by byte, which costs less than by words.
const WORD: usize = 8;

/// Whether the selector selects an object with these labels. The empty selector selects each object.
pub fn selects(selector: &Selector, labels: &Pairs) -> bool
    ensures { result ≡ selects selector.now labels.now }
{
    has_all(labels, &selector.labels) && all_hold(labels, selector.exprs.as_slice())
}

/// Whether the terms admit a node with these labels. Without terms each node is admitted; the empty
/// term matches no node.
pub fn admits(terms: Option<&NodeTerms>, labels: &Pairs) -> bool
    ensures { result ≡ admits (option_copied terms.entry) labels.now }
{
    match terms {
        None => true,
        Some(terms) => any_matches(labels, terms.terms.as_slice()),
    }
}

fn any_matches(labels: &Pairs, terms: &[Items<Expr>]) -> bool
    ensures { result ≡ list_any (term_matches labels.now) terms.now }
{
    for term in terms {
        if term_matches(labels, term.as_slice()) {
            return true;
        }
    }
    false
}

fn term_matches(labels: &Pairs, exprs: &[Expr]) -> bool
    ensures { result ≡ term_matches labels.now exprs.now }
{
    !exprs.is_empty() && all_hold(labels, exprs)
}

fn has_all(labels: &Pairs, wanted: &Pairs) -> bool
    ensures { result ≡ list_all (has_pair labels.now) wanted.now }
{
    if wanted.as_slice().len() < labels.as_slice().len() / LABELS_A_PAIR {
        return has_each(labels, wanted);
    }
    stand_among(labels.as_slice(), wanted.as_slice())
}

fn has_each(labels: &Pairs, wanted: &Pairs) -> bool
    ensures { result ≡ list_all (has_pair labels.now) wanted.now }
{
    for pair in wanted.as_slice() {
        if !has_pair(labels, &pair.0, &pair.1) {
            return false;
        }
    }
    true
}

/// Whether the two texts are the same.
#[inline(always)]
fn is_same(one: &Text, other: &Text) -> bool
    ensures { result ≡ bytes_eq one.now other.now }
{
    let (one, other) = (one.as_str(), other.as_str());
    if other.len() < WORD {
        return one.as_bytes() == other.as_bytes();
    }
    one == other
}

/// The order of the two keys. Whether they are the same is asked first: it costs less.
#[inline(always)]
fn key_order(label: &Text, wanted: &Text) -> Ordering
    ensures { result ≡ text_cmp label.now wanted.now }
{
    if is_same(label, wanted) {
        return Ordering::Equal;
    }
    label.as_str().cmp(wanted.as_str())
}

/// One walk over both, since the keys of both rise.
fn stand_among(labels: &[(Text, Text)], wanted: &[(Text, Text)]) -> bool
    requires labels { ArePairs labels.now }
    requires wanted { ArePairs wanted.now }
    ensures { result ≡ list_all (has_pair labels.now) wanted.now }
{
    let mut left = wanted;
    for label in labels {
        match left {
            [] => return true,
            [pair, rest @ ..] => match key_order(&label.0, &pair.0) {
                Ordering::Less => {}
                Ordering::Equal => {
                    if !is_same(&pair.1, &label.1) {
                        return false;
                    }
                    left = rest;
                }
                Ordering::Greater => return false,
            },
        }
    }
    left.is_empty()
}

fn has_pair(labels: &Pairs, key: &Text, value: &Text) -> bool
    ensures { result ≡ has_pair labels.now (key.now, value.now) }
{
    match labels.get(key.as_str()) {
        None => false,
        Some(found) => value.is(found.as_str()),
    }
}

fn all_hold(labels: &Pairs, exprs: &[Expr]) -> bool
    ensures { result ≡ list_all (holds labels.now) exprs.now }
{
    for expr in exprs {
        if !holds(labels, expr) {
            return false;
        }
    }
    true
}

fn holds(labels: &Pairs, expr: &Expr) -> bool
    ensures { result ≡ holds labels.now expr.now }
{
    let found = labels.get(expr.key.as_str());
    match expr.op {
        Op::In => is_one_of(found, &expr.values),
        Op::NotIn => !is_one_of(found, &expr.values),
        Op::Exists => found.is_some(),
        Op::DoesNotExist => found.is_none(),
    }
}

fn is_one_of(found: Option<&Text>, values: &Names) -> bool
    ensures { result ≡ is_one_of (option_copied found.entry) values.now }
{
    match found {
        None => false,
        Some(value) => values.contains(value.as_str()),
    }
}
