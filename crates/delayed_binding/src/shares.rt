//! What a node gives to the claims of a pod.

ghost use Rattle.std.specs.Prelude.{◌≡◌, [], ◌∷◌, ◌++◌, false, Some, IfOk, OnOk, IfSome, IfNone};
ghost use Rattle.std.specs.Bool.{OnTrue};
ghost use Rattle.std.specs.Option.{option_copied};
ghost use Rattle.kube_objects.specs.Bindings.{class_of_claim};
ghost use Rattle.kube_objects.specs.Keys.{AreRows, key_of, row_at};
ghost use Rattle.kube_objects.specs.declared.objects.Object.TheVariants.{Claim as ClaimObject};
ghost use Rattle.binder_model.specs.Choice.{can_provision, claim_cmp, class_provisions, insert_claim, is_other};
ghost use Rattle.binder_model.specs.Matching.{IsBest};
ghost use Rattle.binder_model.specs.ObjectKeys.{class_key};
ghost use Rattle.volume_match.specs.Passing.{IsFoundThere, found_place};
ghost use Rattle.volume_match.specs.Volumes.{volume_at};
ghost use Rattle.delayed_binding.specs.Choices.{IsPreparedOn, others_in, pair_of};
ghost use Rattle.delayed_binding.specs.Steps.Alike.{HasRefused, IsBarred, IsGivenOn, IsLikeOne, IsOpenNode};
ghost use Rattle.delayed_binding.specs.Steps.Scans.{IsFirstInTurn};
ghost use Rattle.delayed_binding.specs.Steps.Sharing.{ArePassed, ArePassedIn, AreSame, HaveNoShares, IsIndexOf, IsPassedToo, IsServedAs, IsSharedOut, IsUnserved, held_by, nothing_held, place_in};

use crate::choice::Choice;
use crate::counts::{all_ask_like, are_fewer};
use crate::marks::PassedMarks;
use crate::nodes::node_in_turn;
use crate::volumes::{all_fixed_admit, are_alike, has_carrier, set_aside, volume_at};
use kube_types::bindings::{NO_PROVISIONER, class_of_claim, is_completed};
use kube_types::copies::{OutOfMemory, Plain};
use kube_types::key::Key;
use kube_types::lookup::Lookup;
use kube_types::objects::{Claim, Meta, Node, Object, Volume};
use kube_types::parts::Kind;
use kube_types::shared::Shared;
use kube_types::text::Text;
use plain_data::items::Items;
use std::alloc::Global;
use std::cmp::Ordering;
use volume_index::index::VolumeIndex;
use volume_match::{Found, best, best_outside, best_passing, row_named};

/// The claims that are neither completed nor carried by a volume, by rising size and name.
pub(crate) fn others_in<L: Lookup>(
    alloc: Global,
    lookup: &L,
    claims: &[Shared<Claim>],
) -> Result<Vec<Shared<Claim>>, OutOfMemory>
    ensures { IfOk result (λ others. others.items ≡ others_in (L.rows lookup.now) claims.now) }
{
    let mut others = Vec::new(alloc);
    for place in (0..claims.len()).rev() {
        let claim = &claims[place];
        if is_other(lookup, claim.get()) {
            insert_claim(alloc, claim, &mut others)?;
        }
    }
    Ok(others)
}

/// Puts the claim before those that it does not come after.
fn insert_claim(
    alloc: Global,
    claim: &Shared<Claim>,
    claims: &mut Vec<Shared<Claim>>,
) -> Result<(), OutOfMemory>
    ensures { OnOk result (claims.new.items ≡ insert_claim claim.now claims.old.items) }
{
    let place = place_in(claim.get(), claims);
    claims.insert(place, claim.copy(alloc)?)?;
    Ok(())
}

fn is_other<L: Lookup>(lookup: &L, claim: &Claim) -> bool
    ensures { result ≡ is_other (L.rows lookup.now) claim.now }
{
    !is_completed(claim) && !has_carrier(lookup, claim)
}

/// How many of the claims, at the front, the claim comes after.
fn place_in(claim: &Claim, claims: &[Shared<Claim>]) -> usize
    ensures { result ≡ place_in claim.now claims.now }
{
    for (place, other) in claims.iter().enumerate() {
        if !compare(claim, other).is_gt() {
            return place;
        }
    }
    claims.len()
}

/// The order in which claims take volumes.
fn compare(left: &Claim, right: &Claim) -> Ordering
    ensures { result ≡ claim_cmp left.now right.now }
{
    left.amount
        .bytes
        .cmp(&right.amount.bytes)
        .then(left.meta.name.as_str().cmp(right.meta.name.as_str()))
}

/// What claims get on a node, the places of the volumes that are taken or set aside, and, of those that are taken, the places
/// among the free volumes of the index.
#[derive(Debug, Drop)]
struct Shares {
    taken: PassedMarks,
    passed: PassedMarks,
    binds: Vec<(Key, Key)>,
    provisions: Vec<Key>,
}

impl Shares {
    /// Gives the claim its share: the best volume that is left, else its own provisioning. False where nothing
    /// serves it.
    fn give<L: Lookup>(
        &mut self,
        alloc: Global,
        lookup: &L,
        index: Option<&VolumeIndex>,
        node: &Node,
        claim: &Claim,
    ) -> Result<bool, OutOfMemory>
        requires order { AreRows (L.rows lookup.now) }
        requires index { IsIndexOf (L.rows lookup.now) (option_copied index) }
        requires passed { ArePassed (L.rows lookup.now) (option_copied index) self.now }
        ensures given { IfOk result (λ given. IsServedAs (L.rows lookup.now) node.now claim.now (held_by self.old) (held_by self.new) given) }
        ensures passed { OnOk result (ArePassed (L.rows lookup.now) (option_copied index.entry) self.new) }
    {
        match best_left(lookup, index, node, claim, &self.taken, &self.passed) {
            Some(found) => {
                self.take(alloc, lookup, claim, &found)?;
                Ok(true)
            }
            None => self.provision(alloc, lookup, claim),
        }
    }

    /// The claim takes the volume that was found.
    fn take<L: Lookup>(
        &mut self,
        alloc: Global,
        lookup: &L,
        claim: &Claim,
        found: &Found,
    ) -> Result<(), OutOfMemory>
        ensures taken { OnOk result (AreSame self.new.taken (found.now.place ∷ self.old.taken)) }
        ensures passed { OnOk result (IsPassedToo found.now.free self.old.passed self.new.passed) }
        ensures binds { OnOk result (self.new.binds.items ≡ self.old.binds.items ++ pair_of claim.now (volume_at (L.rows lookup.now) found.now.place)) }
        ensures provisions { OnOk result (self.new.provisions.items ≡ self.old.provisions.items) }
    {
        self.bind(alloc, claim, volume_at(lookup, found.place))?;
        self.taken.put(found.place)?;
        match found.free {
            None => Ok(()),
            Some(place) => self.passed.put(place),
        }
    }

    fn bind(
        &mut self,
        alloc: Global,
        claim: &Claim,
        volume: Option<&Volume>,
    ) -> Result<(), OutOfMemory>
        ensures taken { OnOk result (self.new.taken ≡ self.old.taken) }
        ensures passed { OnOk result (self.new.passed ≡ self.old.passed) }
        ensures binds { OnOk result (self.new.binds.items ≡ self.old.binds.items ++ pair_of claim.now (option_copied volume.entry)) }
        ensures provisions { OnOk result (self.new.provisions.items ≡ self.old.provisions.items) }
    {
        match volume {
            None => Ok(()),
            Some(volume) => {
                let claim = key_with(alloc, Kind::PersistentVolumeClaim, &claim.meta)?;
                let volume = key_with(alloc, Kind::PersistentVolume, &volume.meta)?;
                self.binds.push((claim, volume))?;
                Ok(())
            }
        }
    }

    /// The claim is to be provisioned, if it can be.
    fn provision<L: Lookup>(
        &mut self,
        alloc: Global,
        lookup: &L,
        claim: &Claim,
    ) -> Result<bool, OutOfMemory>
        ensures can { IfOk result (λ given. given ≡ can_provision (L.rows lookup.now) claim.now) }
        ensures taken { OnOk result (self.new.taken ≡ self.old.taken) }
        ensures passed { OnOk result (self.new.passed ≡ self.old.passed) }
        ensures binds { OnOk result (self.new.binds.items ≡ self.old.binds.items) }
        ensures provisions { IfOk result (λ given. OnTrue given (self.new.provisions.items ≡ self.old.provisions.items ++ key_of (ClaimObject claim.now) ∷ [])) }
    {
        if !can_provision(lookup, claim) {
            return Ok(false);
        }
        let key = key_with(alloc, Kind::PersistentVolumeClaim, &claim.meta)?;
        self.provisions.push(key)?;
        Ok(true)
    }
}

/// The best volume that is left for the claim on the node: by the index, where there is one.
fn best_left<L: Lookup>(
    lookup: &L,
    index: Option<&VolumeIndex>,
    node: &Node,
    claim: &Claim,
    taken: &PassedMarks,
    passed: &PassedMarks,
) -> Option<Found>
    requires index { IsIndexOf (L.rows lookup.now) (option_copied index) }
    requires passed { ArePassedIn (L.rows lookup.now) (option_copied index) passed.now taken.now }
    ensures best { IsBest (L.rows lookup.now) claim.now (Some node.now) false taken.now (found_place result) }
    ensures there { IfSome (option_copied index.entry) (λ i. IsFoundThere (L.rows lookup.now) i.free result) }
{
    match index {
        Some(index) => best_passing(index, lookup, claim, Some(node), false, taken, passed),
        None => match best_outside(lookup, claim, Some(node), false, taken) {
            None => None,
            Some(place) => Some(Found { place, free: None }),
        },
    }
}

fn key_with(alloc: Global, kind: Kind, meta: &Meta) -> Result<Key, OutOfMemory>
    ensures { IfOk result (λ key. key ≡ record { kind = kind; namespace = meta.now.namespace; name = meta.now.name }) }
{
    Ok(Key {
        kind,
        namespace: meta.namespace.copy(alloc)?,
        name: meta.name.copy(alloc)?,
    })
}

/// Whether the claim can be provisioned, if no volume is there for it.
fn can_provision<L: Lookup>(lookup: &L, claim: &Claim) -> bool
    ensures { result ≡ can_provision (L.rows lookup.now) claim.now }
{
    claim.selector.is_none() && class_provisions(lookup, claim)
}

fn class_provisions<L: Lookup>(lookup: &L, claim: &Claim) -> bool
    ensures { result ≡ class_provisions (row_at (class_key (class_of_claim claim.now)) (L.rows lookup.now)) }
{
    match row_named(lookup, Kind::StorageClass, "", class_of_claim(claim)) {
        Some(Object::Class(class)) => !class.provisioner.is(NO_PROVISIONER),
        _ => false,
    }
}

/// Whether the node has no volume for the claim, even where all are left, and the claim cannot be provisioned.
fn is_unserved<L: Lookup>(lookup: &L, node: &Node, claim: &Claim) -> bool
    ensures { OnTrue result (IsUnserved (L.rows lookup.now) node.now claim.now nothing_held) }
{
    !can_provision(lookup, claim) && best(lookup, claim, Some(node), false, &[]).is_none()
}

/// Whether the last of the claims is so, which is the largest. It is the first to find none, and is asked before anything is
/// given to the others.
fn is_last_unserved<L: Lookup>(lookup: &L, node: &Node, claims: &[Shared<Claim>]) -> bool
    ensures { OnTrue result (HaveNoShares (L.rows lookup.now) node.now claims.now) }
{
    let count = claims.len();
    if count == 0 {
        return false;
    }
    is_unserved(lookup, node, claims[count - 1].get())
}

/// What the claims get on the node, each the best volume that is left or its own provisioning.
fn shares_on<L: Lookup>(
    alloc: Global,
    lookup: &L,
    node: &Node,
    claims: &[Shared<Claim>],
) -> Result<Option<Shares>, OutOfMemory>
    ensures some { IfOk result (λ found. IfSome found (λ shares. IsSharedOut (L.rows lookup.now) node.now claims.now (held_by shares))) }
    ensures none { IfOk result (λ found. IfNone found (HaveNoShares (L.rows lookup.now) node.now claims.now)) }
{
    // The index is asked for once: the places among its free volumes are those of this one.
    let index = lookup.volumes();
    let mut shares = Shares {
        taken: set_aside(alloc, lookup)?,
        passed: PassedMarks::new(alloc),
        binds: Vec::new(alloc),
        provisions: Vec::new(alloc),
    };
    for claim in claims {
        if !shares.give(alloc, lookup, index, node, claim.get())? {
            return Ok(None);
        }
    }
    Ok(Some(shares))
}

/// What the node gives to the claims, where it has something for each.
fn given_on<L: Lookup>(
    alloc: Global,
    lookup: &L,
    node: &Node,
    claims: &[Shared<Claim>],
) -> Result<Option<Choice>, OutOfMemory>
    ensures { IfOk result (λ found. IsGivenOn (L.rows lookup.now) claims.now node.now found) }
{
    match shares_on(alloc, lookup, node, claims)? {
        None => Ok(None),
        Some(shares) => Ok(Some(Choice::Prepare {
            node: node.meta.name.copy(alloc)?,
            binds: Items::from_vec(shares.binds),
            provisions: Items::from_vec(shares.provisions),
        })),
    }
}

/// Whether it is seen before anything is given that the node does not serve all claims: by the last of the others, or by the
/// volumes that are fixed.
fn is_barred<L: Lookup>(
    lookup: &L,
    node: &Node,
    claims: &[Shared<Claim>],
    others: &[Shared<Claim>],
) -> bool
    requires { others.now ≡ others_in (L.rows lookup.now) claims.now }
    ensures { IsBarred (L.rows lookup.now) claims.now node.now result }
{
    is_last_unserved(lookup, node, others) || !all_fixed_admit(lookup, node, claims)
}

/// What is prepared on the node, where it serves all claims.
pub(crate) fn prepared_on<L: Lookup>(
    alloc: Global,
    lookup: &L,
    node: &Node,
    claims: &[Shared<Claim>],
    others: &[Shared<Claim>],
) -> Result<Option<Choice>, OutOfMemory>
    requires { others.now ≡ others_in (L.rows lookup.now) claims.now }
    ensures { IfOk result (λ found. IsPreparedOn (L.rows lookup.now) claims.now node.now found) }
{
    if is_barred(lookup, node, claims, others) {
        return Ok(None);
    }
    given_on(alloc, lookup, node, others)
}

/// Whether each volume admits the node and the one that was refused alike. Then this one has no more for the claims than that.
fn is_like_refused<L: Lookup>(lookup: &L, refused: Option<&Node>, node: &Node) -> bool
    ensures { OnTrue result (IsLikeOne (L.rows lookup.now) (option_copied refused.entry) node.now) }
{
    match refused {
        None => false,
        Some(refused) => are_alike(lookup, refused, node),
    }
}

/// Whether the claims are all of the class of this one, which provisions none, and as large, and the node may give fewer volumes
/// to such claims.
fn has_too_few_of<L: Lookup>(lookup: &L, node: &Node, one: &Claim, claims: &[Shared<Claim>]) -> bool
    ensures { OnTrue result (HaveNoShares (L.rows lookup.now) node.now claims.now) }
{
    if class_provisions(lookup, one) {
        return false;
    }
    if !all_ask_like(one, claims) {
        return false;
    }
    are_fewer(lookup, one, node, claims.len())
}

/// Whether the claims are all of one class, which provisions none, and the node may give fewer volumes to such as the smallest.
fn has_too_few<L: Lookup>(lookup: &L, node: &Node, claims: &[Shared<Claim>]) -> bool
    ensures { OnTrue result (HaveNoShares (L.rows lookup.now) node.now claims.now) }
{
    match claims.get(0) {
        None => false,
        Some(one) => has_too_few_of(lookup, node, one.get(), claims),
    }
}

/// The node, where nothing tells yet that it does not serve all claims. The one that was refused had nothing for one of the
/// others.
fn open_node<'a, L: Lookup>(
    lookup: &L,
    claims: &[Shared<Claim>],
    others: &[Shared<Claim>],
    refused: Option<&Node>,
    node: Option<&'a Node>,
) -> Option<&'a Node>
    requires others { others.now ≡ others_in (L.rows lookup.now) claims.now }
    requires refused { HasRefused (L.rows lookup.now) others.now (option_copied refused) }
    ensures { IsOpenNode (L.rows lookup.now) claims.now (option_copied node.entry) (option_copied result) }
{
    match node {
        None => None,
        Some(node) => {
            if is_barred(lookup, node, claims, others) {
                return None;
            }
            if is_like_refused(lookup, refused, node) {
                return None;
            }
            if has_too_few(lookup, node, others) {
                return None;
            }
            Some(node)
        }
    }
}

/// What is prepared on the first node that serves all claims, of those past the node that was refused last
/// or of the others.
pub(crate) fn first_in_turn<L: Lookup>(
    alloc: Global,
    lookup: &L,
    claims: &[Shared<Claim>],
    others: &[Shared<Claim>],
    last: Option<&Text>,
    past: bool,
) -> Result<Option<Choice>, OutOfMemory>
    requires { others.now ≡ others_in (L.rows lookup.now) claims.now }
    ensures found { IfOk result (λ found. IsFirstInTurn (L.rows lookup.now) claims.now (option_copied last.entry) past found) }
    ensures order { AreRows (L.rows lookup.now) }
{
    let mut refused: Option<&Node> = None;
    for place in 0..lookup.count(Kind::Node) {
        let node = node_in_turn(lookup, last, past, place);
        if let Some(node) = open_node(lookup, claims, others, refused, node) {
            if let Some(choice) = given_on(alloc, lookup, node, others)? {
                return Ok(Some(choice));
            }
            refused = Some(node);
        }
    }
    Ok(None)
}
