//! Parts of the specs of objects from values.

ghost use Rattle.std.specs.Prelude.{◌≡◌, [], option_map};
ghost use Rattle.serde_json.specs.View.{view, items_view};
ghost use Rattle.object_text.specs.Answers.{Gives};
ghost use Rattle.object_text.specs.PartReaders.{amount_from, amount_in, quantity_at, optional_quantity, with_mode, no_modes, modes_from, modes_at, optional_modes, known, block_at, policy_at, class_policy_at, delayed_at, volume_phase_at, claim_phase_at, op_at, ref_at, claim_ref_at, two_texts, one_text, there, source_at, expr_of, exprs_from, exprs_at, term_of, terms_from, terms_at, selector_of, selector_at, claim_name_of, claims_from, claims_at};
ghost use Rattle.quantity_text.specs.Quantity.{amount_of};

use crate::errors::{Member, ObjectError};
use crate::member_readers::{
    at, needed, needed_items, needed_text, needed_word, object_at, object_of, optional_items,
    optional_text, pairs_at, texts_at, uid_at, word_of, word_or,
};
use itoa::Buffer;
use json_text::look::unless_null;
use kube_types::items::Items;
use kube_types::objects::{Amount, Expr, NodeTerms, Ref, Selector, Source};
use kube_types::parts::{ClaimPhase, Modes, Op, Policy, SourceKind, VolumePhase};
use kube_types::text::{Names, Text};
use kube_types::words::{binding_mode, block_named, delayed_named, value_named, volume_mode};
use quantity_text::{AmountError, read_amount};
use serde_json::Value;
use std::alloc::Global;

// ---- quantities

fn amount_named(alloc: Global, word: &str, member: Member) -> Result<Amount, ObjectError>
    ensures { Gives result (amount_from member word.now (amount_of word.now)) }
{
    match read_amount(alloc, word.as_bytes()) {
        Ok(amount) => Ok(amount),
        Err(AmountError::OutOfMemory) => Err(ObjectError::OutOfMemory),
        Err(_) => Err(ObjectError::BadQuantity(member)),
    }
}

/// The quantity that a value is, a text or a whole number that is not negative. The member stands in errors.
pub fn amount_counted(alloc: Global, value: &Value, member: Member) -> Result<Amount, ObjectError>
    ensures { Gives result (amount_in member (view value.now)) }
{
    match value {
        Value::String(word) => amount_named(alloc, word.as_str(), member),
        Value::Number(number) => {
            if number.is_f64() {
                return Err(ObjectError::NotWhole);
            }
            match number.as_u64() {
                Some(n) => {
                    let mut buffer = Buffer::new();
                    amount_named(alloc, buffer.format(n), member)
                }
                None => Err(ObjectError::WrongType(member)),
            }
        }
        _ => Err(ObjectError::WrongType(member)),
    }
}

/// A quantity that has to be there: a text, or a whole number that is not negative.
#[tactic(auto, unfolding(crate::specs::PartReaders::quantity_at))]
pub fn quantity_at(
    alloc: Global,
    place: Option<&Value>,
    member: Member,
) -> Result<Amount, ObjectError>
    ensures { Gives result (quantity_at member (option_map (λ v. view v.now) place.entry)) }
{
    amount_counted(alloc, needed(place, member)?, member)
}

/// A quantity that may be absent.
#[tactic(auto, unfolding(crate::specs::PartReaders::optional_quantity))]
pub fn optional_quantity(
    alloc: Global,
    place: Option<&Value>,
    member: Member,
) -> Result<Option<Amount>, ObjectError>
    ensures { Gives result (optional_quantity member (option_map (λ v. view v.now) place.entry)) }
{
    match at(place, member) {
        None => Ok(None),
        Some(value) => Ok(Some(amount_counted(alloc, value, member)?)),
    }
}

// ---- texts that are listed

fn with_mode(word: &str, mut modes: Modes) -> Result<Modes, ObjectError>
    ensures { Gives result (with_mode word.now modes) }
{
    if word == "ReadWriteOnce" {
        modes.rwo = true;
    } else if word == "ReadOnlyMany" {
        modes.rox = true;
    } else if word == "ReadWriteMany" {
        modes.rwx = true;
    } else if word == "ReadWriteOncePod" {
        modes.rwop = true;
    } else {
        return Err(ObjectError::WrongType(Member::AccessModes));
    }
    Ok(modes)
}

const NO_MODES: Modes = Modes {
    rwo: false,
    rox: false,
    rwx: false,
    rwop: false,
};

/// The access modes that the values name.
pub fn modes_of(values: &[Value]) -> Result<Modes, ObjectError>
    ensures { Gives result (modes_from (items_view values.now) no_modes) }
{
    let mut modes = NO_MODES;
    for value in values {
        modes = with_mode(word_of(value, Member::AccessModes)?, modes)?;
    }
    Ok(modes)
}

/// Access modes that have to be there.
#[tactic(auto, unfolding(crate::specs::PartReaders::modes_at))]
pub fn modes_at(place: Option<&Value>) -> Result<Modes, ObjectError>
    ensures { Gives result (modes_at (option_map (λ v. view v.now) place.entry)) }
{
    modes_of(needed_items(place, Member::AccessModes)?)
}

/// Access modes, none where they are absent.
#[tactic(auto, unfolding(crate::specs::PartReaders::optional_modes))]
pub fn optional_modes(place: Option<&Value>) -> Result<Modes, ObjectError>
    ensures { Gives result (optional_modes (option_map (λ v. view v.now) place.entry)) }
{
    match optional_items(place, Member::AccessModes)? {
        None => Ok(NO_MODES),
        Some(values) => modes_of(values),
    }
}

/// The value that a word names; a word that is none of those listed is of the wrong type.
fn known<T>(value: Option<T>, member: Member) -> Result<T, ObjectError>
    ensures { Gives result (known member value) }
{
    match value {
        Some(value) => Ok(value),
        None => Err(ObjectError::WrongType(member)),
    }
}

/// Whether a volume is a block device.
#[tactic(auto, unfolding(crate::specs::PartReaders::block_at))]
pub fn block_at(place: Option<&Value>) -> Result<bool, ObjectError>
    ensures { Gives result (block_at (option_map (λ v. view v.now) place.entry)) }
{
    let word = word_or(place, Member::VolumeMode, volume_mode(false))?;
    known(block_named(word), Member::VolumeMode)
}

/// The policy of a volume.
#[tactic(auto, unfolding(crate::specs::PartReaders::policy_at))]
pub fn policy_at(place: Option<&Value>) -> Result<Policy, ObjectError>
    ensures { Gives result (policy_at (option_map (λ v. view v.now) place.entry)) }
{
    let member = Member::PersistentVolumeReclaimPolicy;
    let word = word_or(place, member, Policy::Retain.name())?;
    known(Policy::named(word), member)
}

/// The policy of a class.
#[tactic(auto, unfolding(crate::specs::PartReaders::class_policy_at))]
pub fn class_policy_at(place: Option<&Value>) -> Result<Policy, ObjectError>
    ensures { Gives result (class_policy_at (option_map (λ v. view v.now) place.entry)) }
{
    let word = word_or(place, Member::ReclaimPolicy, Policy::Delete.name())?;
    let policy = value_named(&[Policy::Delete, Policy::Retain], word);
    known(policy, Member::ReclaimPolicy)
}

/// Whether the claims of a class wait for their first pod.
#[tactic(auto, unfolding(crate::specs::PartReaders::delayed_at))]
pub fn delayed_at(place: Option<&Value>) -> Result<bool, ObjectError>
    ensures { Gives result (delayed_at (option_map (λ v. view v.now) place.entry)) }
{
    let word = word_or(place, Member::VolumeBindingMode, binding_mode(false))?;
    known(delayed_named(word), Member::VolumeBindingMode)
}

/// The phase of a volume.
#[tactic(auto, unfolding(crate::specs::PartReaders::volume_phase_at))]
pub fn volume_phase_at(place: Option<&Value>) -> Result<VolumePhase, ObjectError>
    ensures { Gives result (volume_phase_at (option_map (λ v. view v.now) place.entry)) }
{
    let word = word_or(place, Member::Phase, VolumePhase::Pending.name())?;
    known(VolumePhase::named(word), Member::Phase)
}

/// The phase of a claim.
#[tactic(auto, unfolding(crate::specs::PartReaders::claim_phase_at))]
pub fn claim_phase_at(place: Option<&Value>) -> Result<ClaimPhase, ObjectError>
    ensures { Gives result (claim_phase_at (option_map (λ v. view v.now) place.entry)) }
{
    let word = word_or(place, Member::Phase, ClaimPhase::Pending.name())?;
    known(ClaimPhase::named(word), Member::Phase)
}

#[tactic(auto, unfolding(crate::specs::PartReaders::op_at))]
fn op_at(place: Option<&Value>) -> Result<Op, ObjectError>
    ensures { Gives result (op_at (option_map (λ v. view v.now) place.entry)) }
{
    let word = needed_word(place, Member::Operator)?;
    known(Op::named(word), Member::Operator)
}

// ---- the claim of a volume

#[tactic(auto, unfolding(crate::specs::PartReaders::ref_at))]
fn ref_at(alloc: Global, place: Option<&Value>) -> Result<Ref, ObjectError>
    ensures { Gives result (ref_at (option_map (λ v. view v.now) place.entry)) }
{
    let namespace = needed_text(alloc, place, Member::Namespace)?;
    let name = needed_text(alloc, place, Member::Name)?;
    let uid = uid_at(place, Member::Uid)?;
    Ok(Ref {
        namespace,
        name,
        uid,
    })
}

/// The reference of a volume to its claim.
#[tactic(auto, unfolding(crate::specs::PartReaders::claim_ref_at))]
pub fn claim_ref_at(alloc: Global, place: Option<&Value>) -> Result<Option<Ref>, ObjectError>
    ensures { Gives result (claim_ref_at (option_map (λ v. view v.now) place.entry)) }
{
    match object_at(place, Member::ClaimRef)? {
        None => Ok(None),
        Some(value) => Ok(Some(ref_at(alloc, Some(value))?)),
    }
}

// ---- the source of a volume

fn two_texts(
    alloc: Global,
    kind: SourceKind,
    member: Member,
    one: Member,
    two: Member,
    value: &Value,
) -> Result<Source, ObjectError>
    ensures { Gives result (two_texts kind member one two (view value.now)) }
{
    let source = object_of(value, member)?;
    let first = needed_text(alloc, Some(source), one)?;
    let second = needed_text(alloc, Some(source), two)?;
    Ok(Source {
        kind,
        first,
        second,
    })
}

fn one_text(
    alloc: Global,
    kind: SourceKind,
    member: Member,
    value: &Value,
) -> Result<Source, ObjectError>
    ensures { Gives result (one_text kind member (view value.now)) }
{
    let source = object_of(value, member)?;
    let first = needed_text(alloc, Some(source), Member::Path)?;
    Ok(Source {
        kind,
        first,
        second: Text::new(alloc, "")?,
    })
}

fn there<'v>(place: Option<&'v Value>, member: Member) -> Option<&'v Value>
    ensures { option_map (λ v. view v.now) result ≡ there member (option_map (λ v. view v.now) place.entry) }
{
    unless_null(at(place, member))
}

/// The source of a volume: the first that is there.
#[tactic(auto, unfolding(crate::specs::PartReaders::source_at))]
pub fn source_at(alloc: Global, place: Option<&Value>) -> Result<Source, ObjectError>
    ensures { Gives result (source_at (option_map (λ v. view v.now) place.entry)) }
{
    if let Some(value) = there(place, Member::Csi) {
        let (one, two) = (Member::Driver, Member::VolumeHandle);
        return two_texts(alloc, SourceKind::Csi, Member::Csi, one, two, value);
    }
    if let Some(value) = there(place, Member::Nfs) {
        let (one, two) = (Member::Server, Member::Path);
        return two_texts(alloc, SourceKind::Nfs, Member::Nfs, one, two, value);
    }
    if let Some(value) = there(place, Member::Local) {
        return one_text(alloc, SourceKind::Local, Member::Local, value);
    }
    match there(place, Member::HostPath) {
        Some(value) => one_text(alloc, SourceKind::HostPath, Member::HostPath, value),
        None => Err(ObjectError::Missing(Member::Source)),
    }
}

// ---- expressions

#[tactic(auto, unfolding(crate::specs::PartReaders::expr_of))]
fn expr_of(alloc: Global, value: &Value) -> Result<Expr, ObjectError>
    ensures { Gives result (expr_of (view value.now)) }
{
    let expr = object_of(value, Member::MatchExpressions)?;
    let key = needed_text(alloc, Some(expr), Member::Key)?;
    let op = op_at(Some(expr))?;
    let values = texts_at(alloc, Some(expr), Member::Values)?;
    Ok(Expr { key, op, values })
}

fn exprs_of(alloc: Global, values: &[Value]) -> Result<Items<Expr>, ObjectError>
    ensures { Gives result (exprs_from (items_view values.now) []) }
{
    let mut found = Items::new(alloc);
    for value in values {
        found.push(expr_of(alloc, value)?)?;
    }
    Ok(found)
}

#[tactic(auto, unfolding(crate::specs::PartReaders::exprs_at))]
fn exprs_at(alloc: Global, place: Option<&Value>) -> Result<Items<Expr>, ObjectError>
    ensures { Gives result (exprs_at (option_map (λ v. view v.now) place.entry)) }
{
    match optional_items(place, Member::MatchExpressions)? {
        None => Ok(Items::new(alloc)),
        Some(values) => exprs_of(alloc, values),
    }
}

#[tactic(auto, unfolding(crate::specs::PartReaders::term_of))]
fn term_of(alloc: Global, value: &Value) -> Result<Items<Expr>, ObjectError>
    ensures { Gives result (term_of (view value.now)) }
{
    let term = object_of(value, Member::NodeSelectorTerms)?;
    exprs_at(alloc, Some(term))
}

fn terms_of(alloc: Global, values: &[Value]) -> Result<Items<Items<Expr>>, ObjectError>
    ensures { Gives result (terms_from (items_view values.now) []) }
{
    let mut found = Items::new(alloc);
    for value in values {
        found.push(term_of(alloc, value)?)?;
    }
    Ok(found)
}

/// The node affinity of a volume.
#[tactic(auto, unfolding(crate::specs::PartReaders::terms_at))]
pub fn terms_at(alloc: Global, place: Option<&Value>) -> Result<Option<NodeTerms>, ObjectError>
    ensures { Gives result (terms_at (option_map (λ v. view v.now) place.entry)) }
{
    let affinity = object_at(place, Member::NodeAffinity)?;
    let required = object_at(affinity, Member::Required)?;
    match optional_items(required, Member::NodeSelectorTerms)? {
        None => Ok(None),
        Some(values) => Ok(Some(NodeTerms {
            terms: terms_of(alloc, values)?,
        })),
    }
}

// ---- the selector of a claim

#[tactic(auto, unfolding(crate::specs::PartReaders::selector_of))]
fn selector_of(alloc: Global, place: Option<&Value>) -> Result<Selector, ObjectError>
    ensures { Gives result (selector_of (option_map (λ v. view v.now) place.entry)) }
{
    let labels = pairs_at(alloc, place, Member::MatchLabels)?;
    let exprs = exprs_at(alloc, place)?;
    Ok(Selector { labels, exprs })
}

/// The selector of a claim.
#[tactic(auto, unfolding(crate::specs::PartReaders::selector_at))]
pub fn selector_at(alloc: Global, place: Option<&Value>) -> Result<Option<Selector>, ObjectError>
    ensures { Gives result (selector_at (option_map (λ v. view v.now) place.entry)) }
{
    match object_at(place, Member::Selector)? {
        None => Ok(None),
        Some(value) => Ok(Some(selector_of(alloc, Some(value))?)),
    }
}

// ---- the claims of a pod

#[tactic(auto, unfolding(crate::specs::PartReaders::claim_name_of))]
fn claim_name_of(alloc: Global, value: &Value) -> Result<Option<Text>, ObjectError>
    ensures { Gives result (claim_name_of (view value.now)) }
{
    let volume = object_of(value, Member::Volumes)?;
    let claim = object_at(Some(volume), Member::PersistentVolumeClaim)?;
    optional_text(alloc, claim, Member::ClaimName)
}

fn claims_of(alloc: Global, values: &[Value]) -> Result<Names, ObjectError>
    ensures { Gives result (claims_from (items_view values.now) []) }
{
    let mut found = Names::new(alloc);
    for value in values {
        if let Some(name) = claim_name_of(alloc, value)? {
            found.push(&name)?;
        }
    }
    Ok(found)
}

/// The claims that the volumes of a pod name, in order.
#[tactic(auto, unfolding(crate::specs::PartReaders::claims_at))]
pub fn claims_at(alloc: Global, place: Option<&Value>) -> Result<Names, ObjectError>
    ensures { Gives result (claims_at (option_map (λ v. view v.now) place.entry)) }
{
    match optional_items(place, Member::Volumes)? {
        None => Ok(Names::new(alloc)),
        Some(values) => claims_of(alloc, values),
    }
}
