//! Comparisons of parts of objects.

ghost use Rattle.std.specs.Prelude.{◌≡◌, bytes_eq};
ghost use Rattle.std.specs.Bool.{beq};
ghost use Rattle.binder_model.specs.Same.{same_option, same_names, same_pairs, same_modes, same_amount, same_policy, same_selector, same_terms, same_source, same_ref};

use kube_types::copies::{Plain, same_option};
use kube_types::objects::{Amount, NodeTerms, Ref, Selector, Source};
use kube_types::pairs::Pairs;
use kube_types::parts::{Modes, Policy};
use kube_types::text::{Names, Text};

pub fn is_same_text(a: &Text, b: &Text) -> bool
    ensures { result ≡ bytes_eq a.now b.now }
{
    a.is(b.as_str())
}

pub fn is_same_class(a: &Option<Text>, b: &Option<Text>) -> bool
    ensures { result ≡ same_option bytes_eq a.now b.now }
{
    same_option(a, b)
}

pub fn are_same_names(a: &Names, b: &Names) -> bool
    ensures { result ≡ same_names a.now b.now }
{
    a.same(b)
}

pub fn are_same_pairs(a: &Pairs, b: &Pairs) -> bool
    ensures { result ≡ same_pairs a.now b.now }
{
    a.same(b)
}

pub fn is_same_modes(a: &Modes, b: &Modes) -> bool
    ensures { result ≡ same_modes a.now b.now }
{
    *a == *b
}

pub fn is_same_amount(a: &Amount, b: &Amount) -> bool
    ensures { result ≡ same_amount a.now b.now }
{
    a.same(b)
}

pub fn is_same_policy(a: &Policy, b: &Policy) -> bool
    ensures { result ≡ same_policy a.now b.now }
{
    *a == *b
}

pub fn is_same_selector(a: &Option<Selector>, b: &Option<Selector>) -> bool
    ensures { result ≡ same_option same_selector a.now b.now }
{
    same_option(a, b)
}

pub fn are_same_terms(a: &Option<NodeTerms>, b: &Option<NodeTerms>) -> bool
    ensures { result ≡ same_option same_terms a.now b.now }
{
    same_option(a, b)
}

pub fn is_same_source(a: &Source, b: &Source) -> bool
    ensures { result ≡ same_source a.now b.now }
{
    a.same(b)
}

pub fn is_same_reference(a: &Option<Ref>, b: &Option<Ref>) -> bool
    ensures { result ≡ same_option same_ref a.now b.now }
{
    same_option(a, b)
}

pub fn is_same_flag(a: &bool, b: &bool) -> bool
    ensures { result ≡ beq a.now b.now }
{
    *a == *b
}
