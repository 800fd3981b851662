//! Lines of the words of the command line: the words with a blank between them, and none where the line is empty; `~`
//! stands for an empty word.

use crate::words::word;
use command_words::reading::read_words;
use command_words::words::{Command, CommandWords, WordsError};
use plain_data::copies::OutOfMemory;
use std::alloc::Global;

fn words_of(alloc: Global, line: &str) -> Result<Vec<String>, OutOfMemory> {
    let mut found = Vec::new(alloc);
    if !line.is_empty() {
        for word in line.split(' ') {
            let word = if word == "~" { "" } else { word };
            found.push(String::from_str(alloc, word)?)?;
        }
    }
    Ok(found)
}

fn name(command: Command) -> &'static str {
    match command {
        Command::Replay => "replay",
        Command::Run => "run",
        Command::Audit => "audit",
        Command::Check => "check",
        Command::Gen => "gen",
        Command::Extend => "extend",
    }
}

fn shown(alloc: Global, said: CommandWords) -> Result<String, OutOfMemory> {
    let command = name(said.command);
    let workers = said.options.workers;
    let seed = said.options.seed;
    let calls = said.options.calls;
    match said.options.budget {
        None => Ok(format!(in alloc; "{command} {workers} {seed} {calls} -")?),
        Some(budget) => Ok(format!(in alloc; "{command} {workers} {seed} {calls} {budget}")?),
    }
}

/// What the words say: the command, then workers, seed, calls and the budget, `-` where it was not given.
pub fn answer(alloc: Global, line: &str) -> Result<String, OutOfMemory> {
    let words = words_of(alloc, line)?;
    match read_words(alloc, &words) {
        Ok(said) => shown(alloc, said),
        Err(WordsError::Usage) => word(alloc, "Usage"),
        Err(WordsError::OutOfMemory) => Err(OutOfMemory),
    }
}
