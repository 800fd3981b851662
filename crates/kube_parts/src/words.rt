//! Values with one printed word, and the value that a word names.

ghost use Rattle.std.specs.Prelude.{◌≡◌, ℕ, List, Bool, true, false};
ghost use Rattle.kube_parts.specs.Named.{AreInverse, value_named, kind_named, policy_named, block_named, delayed_named, volume_phase_named, claim_phase_named, op_named};
ghost use Rattle.kube_parts.specs.Words.{kind_word, policy_word, volume_mode, binding_mode, volume_phase_word, claim_phase_word, op_word, field_word, rule_word};

use crate::names::{Field, Rule};
use crate::parts::{ClaimPhase, Kind, Op, Policy, VolumePhase};

/// A value with one printed word.
pub trait Worded: Copy {
    ghost word: { Self → List ℕ };

    fn word(&self) -> &str
        ensures { result.now ≡ word self.now };
}

/// The first of these values that has the word.
pub fn value_named<T: Worded>(all: &[T], word: &str) -> Option<T>
    ensures { result ≡ value_named T.word all.now word.now }
{
    for value in all {
        if word == value.word() {
            return Some(*value);
        }
    }
    None
}

impl Worded for Kind {
    ghost word = { kind_word };

    fn word(&self) -> &str {
        self.name()
    }
}

impl Worded for Policy {
    ghost word = { policy_word };

    fn word(&self) -> &str {
        self.name()
    }
}

impl Worded for VolumePhase {
    ghost word = { volume_phase_word };

    fn word(&self) -> &str {
        self.name()
    }
}

impl Worded for ClaimPhase {
    ghost word = { claim_phase_word };

    fn word(&self) -> &str {
        self.name()
    }
}

impl Worded for Op {
    ghost word = { op_word };

    fn word(&self) -> &str {
        self.name()
    }
}

impl Worded for Field {
    ghost word = { field_word };

    fn word(&self) -> &str {
        self.name()
    }
}

impl Worded for Rule {
    ghost word = { rule_word };

    fn word(&self) -> &str {
        self.name()
    }
}

impl Kind {
    /// The kind that the word names.
    pub fn named(word: &str) -> Option<Kind>
        ensures { result ≡ kind_named word.now }
    {
        value_named(
            &[
                Kind::StorageClass,
                Kind::Node,
                Kind::PersistentVolume,
                Kind::PersistentVolumeClaim,
                Kind::Pod,
            ],
            word,
        )
    }
}

impl Policy {
    /// The policy that the word names.
    pub fn named(word: &str) -> Option<Policy>
        ensures { result ≡ policy_named word.now }
    {
        value_named(&[Policy::Retain, Policy::Delete, Policy::Recycle], word)
    }
}

impl VolumePhase {
    /// The phase that the word names.
    pub fn named(word: &str) -> Option<VolumePhase>
        ensures { result ≡ volume_phase_named word.now }
    {
        value_named(
            &[
                VolumePhase::Pending,
                VolumePhase::Available,
                VolumePhase::Bound,
                VolumePhase::Released,
                VolumePhase::Failed,
            ],
            word,
        )
    }
}

impl ClaimPhase {
    /// The phase that the word names.
    pub fn named(word: &str) -> Option<ClaimPhase>
        ensures { result ≡ claim_phase_named word.now }
    {
        value_named(
            &[ClaimPhase::Pending, ClaimPhase::Bound, ClaimPhase::Lost],
            word,
        )
    }
}

impl Op {
    /// The operator that the word names.
    pub fn named(word: &str) -> Option<Op>
        ensures { result ≡ op_named word.now }
    {
        value_named(&[Op::In, Op::NotIn, Op::Exists, Op::DoesNotExist], word)
    }
}

/// The printed word of a block device, or of a file system.
pub fn volume_mode(block: bool) -> &'static str
    ensures { result.now ≡ volume_mode block }
{
    if block { "Block" } else { "Filesystem" }
}

/// The printed word of binding that waits for the first pod, or does not.
pub fn binding_mode(delayed: bool) -> &'static str
    ensures { result.now ≡ binding_mode delayed }
{
    if delayed {
        "WaitForFirstConsumer"
    } else {
        "Immediate"
    }
}

/// Whether the volume is a block device, by the word.
pub fn block_named(word: &str) -> Option<bool>
    ensures { result ≡ block_named word.now }
{
    if word == volume_mode(false) {
        Some(false)
    } else if word == volume_mode(true) {
        Some(true)
    } else {
        None
    }
}

/// Whether binding waits for the first pod, by the word.
pub fn delayed_named(word: &str) -> Option<bool>
    ensures { result ≡ delayed_named word.now }
{
    if word == binding_mode(false) {
        Some(false)
    } else if word == binding_mode(true) {
        Some(true)
    } else {
        None
    }
}

/// The law that a word names the value that has it, and nothing else.
#[tactic(auto, using(crate::proofs::NamedWords::kinds_inverse, crate::proofs::NamedWords::policies_inverse, crate::proofs::NamedWords::blocks_inverse, crate::proofs::NamedWords::delays_inverse, crate::proofs::NamedWords::volume_phases_inverse, crate::proofs::NamedWords::claim_phases_inverse, crate::proofs::NamedWords::ops_inverse))]
pub fn words_are_inverse()
    ensures kinds { AreInverse kind_word kind_named }
    ensures policies { AreInverse policy_word policy_named }
    ensures blocks { AreInverse volume_mode block_named }
    ensures delays { AreInverse binding_mode delayed_named }
    ensures volume_phases { AreInverse volume_phase_word volume_phase_named }
    ensures claim_phases { AreInverse claim_phase_word claim_phase_named }
    ensures operators { AreInverse op_word op_named }
{}
