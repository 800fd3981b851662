//! Reads the words by `clap`, as one command with one place for the command word and four options.

ghost use Rattle.std.specs.Prelude.{◌≡◌, ◌≤◌, IfOk, Some, None, true, false, if◌then◌else◌, map, option_map, codes, string_bytes, length};
ghost use Rattle.std.specs.List.{list_all};
ghost use Rattle.std.specs.Char.{is_ascii_digit};
ghost use Rattle.std.specs.Str.Parse.{digits_value};
ghost use Rattle.clap.specs.Words.{app_of, first_value, found_of, rule_of};
ghost use Rattle.command_words.specs.Grammar.{command_named, is_number, number_between, options_by, words_by, words_of, Reads};
ghost use Rattle.command_words.specs.Steps.Line.{Matches, bare_line, line, option_rule};

use crate::words::{Command, CommandWords, Options, WordsError};
use clap::error::ErrorKind;
use clap::{Arg, ArgAction, ArgMatches};
use std::alloc::{AllocError, Global};

fn command_named(word: &str) -> Option<Command>
    ensures { result ≡ command_named word.now }
{
    if word == "replay" {
        Some(Command::Replay)
    } else if word == "run" {
        Some(Command::Run)
    } else if word == "audit" {
        Some(Command::Audit)
    } else if word == "check" {
        Some(Command::Check)
    } else if word == "gen" {
        Some(Command::Gen)
    } else if word == "extend" {
        Some(Command::Extend)
    } else {
        None
    }
}

fn are_digits(bytes: &[u8]) -> bool
    ensures { result ≡ list_all is_ascii_digit bytes.now }
{
    bytes.iter().all(|byte| byte.is_ascii_digit())
}

fn number_of(word: &str, least: u64, most: u64) -> Option<u64>
    requires digits { list_all is_ascii_digit word.now ≡ true }
    requires some { 1 ≤ length word.now }
    requires few { length word.now ≤ 9 }
    ensures { result ≡ (if is_number least most word.now then Some (digits_value 10 word.now) else None) }
{
    match word.parse::<u64>() {
        Ok(number) => {
            if least <= number && number <= most {
                Some(number)
            } else {
                None
            }
        }
        Err(_) => None,
    }
}

fn number_in(given: Option<&str>, least: u64, most: u64) -> Option<Option<u64>>
    ensures { result ≡ number_between least most (option_map (λ s. s.now) given.entry) }
{
    match given {
        None => Some(None),
        Some(word) => {
            if !are_digits(word.as_bytes()) || word.len() < 1 || 9 < word.len() {
                return None;
            }
            match number_of(word, least, most) {
                Some(number) => Some(Some(number)),
                None => None,
            }
        }
    }
}

fn options_in(matches: &ArgMatches<'_>) -> Option<Options>
    ensures { result ≡ options_by (first_value (found_of matches.now)) }
{
    let workers = number_in(matches.get_str("workers"), 1, 4)?;
    let seed = number_in(matches.get_str("seed"), 0, 999_999_999)?;
    let calls = number_in(matches.get_str("calls"), 0, 1000)?;
    let budget = number_in(matches.get_str("budget"), 0, 999_999_999)?;
    Some(Options {
        workers: workers.unwrap_or(2),
        seed: seed.unwrap_or(1),
        calls: calls.unwrap_or(200),
        budget,
    })
}

fn words_in(matches: &ArgMatches<'_>) -> Option<CommandWords>
    ensures { result ≡ words_by (first_value (found_of matches.now)) }
{
    let command = command_named(matches.get_str("command")?)?;
    let options = options_in(matches)?;
    Some(CommandWords { command, options })
}

fn option<'a>(alloc: Global, name: &'a str) -> Arg<'a>
    ensures rule { rule_of result ≡ option_rule name.entry.now }
    ensures local { result.global ≡ false }
{
    Arg::new(alloc, name).long(name).action(ArgAction::Set)
}

fn bare_line<'a>(alloc: Global) -> clap::Command<'a>
    ensures { app_of result ≡ bare_line }
{
    clap::Command::new(alloc, "pvbind")
        .no_binary_name(true)
        .disable_help_flag(true)
        .disable_version_flag(true)
}

fn line<'a>(alloc: Global) -> Result<clap::Command<'a>, AllocError>
    ensures { IfOk result (λ l. app_of l ≡ line) }
{
    let command = Arg::new(alloc, "command").action(ArgAction::Set);
    bare_line(alloc)
        .arg(command)?
        .arg(option(alloc, "workers"))?
        .arg(option(alloc, "seed"))?
        .arg(option(alloc, "calls"))?
        .arg(option(alloc, "budget"))
}

fn matches_of<'a>(alloc: Global, words: &'a [String]) -> Result<ArgMatches<'a>, WordsError>
    ensures { Matches (map string_bytes words.entry.now) result }
{
    match line(alloc)?.try_get_matches_from(words) {
        Ok(matches) => Ok(matches),
        Err(error) => {
            if error.kind() == ErrorKind::OutOfMemory {
                Err(WordsError::OutOfMemory)
            } else {
                Err(WordsError::Usage)
            }
        }
    }
}

/// The command and the options that the words after the program's name give.
pub fn read_words(alloc: Global, words: &[String]) -> Result<CommandWords, WordsError>
    ensures { Reads result (words_of (map string_bytes words.now)) }
{
    let matches = matches_of(alloc, words)?;
    match words_in(&matches) {
        Some(said) => Ok(said),
        None => Err(WordsError::Usage),
    }
}
