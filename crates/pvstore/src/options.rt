//! The words behind `judge`.

ghost use Rattle.std.specs.Prelude.{◌≡◌, IfOk, map, string_bytes};
ghost use Rattle.pvstore.specs.Options.{IsTaken, is_among, is_rule, options_from, options_of, take_option, take_rule, take_word};

use kube_types::copies::OutOfMemory;
use kube_types::text::{Names, Text};
use std::alloc::Global;
use store_judge::printing::JudgeOptions;

/// The words of the rules.
const RULES: [&str; 24] = [
    "Answer",
    "ClaimRef",
    "PhaseBound",
    "Completion",
    "DefaultClass",
    "Available",
    "Released",
    "Failed",
    "Unbind",
    "DropVolumeGuard",
    "DropClaimGuard",
    "AddGuard",
    "Provision",
    "CreateVolume",
    "Erase",
    "DeleteVolume",
    "Lost",
    "ClaimStatus",
    "SelectedNode",
    "BindPod",
    "Mount",
    "FinishPod",
    "Reading",
    "Kind",
];

/// What was said so far, and whether a rule has to come next.
struct TakenWords {
    json: bool,
    without: Names,
    waits: bool,
}

impl Drop for TakenWords {
    fn drop(self) {
        let TakenWords {
            json: _,
            without,
            waits: _,
        } = self;
        drop(without);
    }
}

fn is_among(word: &str, words: &[&str]) -> bool
    ensures { result ≡ is_among word.now (map (λ w. w.now) words.now) }
{
    for one in words {
        if word == *one {
            return true;
        }
    }
    false
}

fn is_rule(word: &str) -> bool
    ensures { result ≡ is_rule word.now }
{
    is_among(word, &RULES)
}

impl TakenWords {
    fn take_option(&mut self, word: &str) -> bool
        ensures { IsTaken result self.new (take_option self.old word.now) }
    {
        if word == "--json" {
            self.json = true;
            return true;
        }
        if word == "--without" {
            self.waits = true;
            return true;
        }
        false
    }

    fn take_rule(&mut self, alloc: Global, word: &str) -> Result<bool, OutOfMemory>
        ensures { IfOk result (λ known. IsTaken known self.new (take_rule self.old word.now)) }
    {
        if !is_rule(word) {
            return Ok(false);
        }
        let rule = Text::new(alloc, word)?;
        self.without.push(&rule)?;
        self.waits = false;
        Ok(true)
    }

    /// Takes a word. False where it is not known.
    fn take_word(&mut self, alloc: Global, word: &str) -> Result<bool, OutOfMemory>
        ensures { IfOk result (λ known. IsTaken known self.new (take_word self.old word.now)) }
    {
        if self.waits {
            self.take_rule(alloc, word)
        } else {
            Ok(self.take_option(word))
        }
    }

    fn options(self) -> Option<JudgeOptions>
        ensures { result ≡ options_from (Some self) }
    {
        let TakenWords {
            json,
            without,
            waits,
        } = self;
        if waits {
            return None;
        }
        Some(JudgeOptions { json, without })
    }
}

/// The options of the words behind `judge`, where all are known.
pub fn options_of(alloc: Global, words: &[String]) -> Result<Option<JudgeOptions>, OutOfMemory>
    ensures { IfOk result (λ options. options ≡ options_of (map string_bytes words.now)) }
{
    let mut taken = TakenWords {
        json: false,
        without: Names::new(alloc),
        waits: false,
    };
    for word in words {
        if !taken.take_word(alloc, word.as_str())? {
            return Ok(None);
        }
    }
    Ok(taken.options())
}
