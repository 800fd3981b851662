//! The judgement on an input.

ghost use Rattle.std.specs.Prelude.{◌≡◌, [], IfOk};
ghost use Rattle.history_read.specs.Refusals.{refusal_line};
ghost use Rattle.history_text.specs.Output.{with_line};
ghost use Rattle.store_judge.specs.Shown.{AnswersJudge};

use crate::judging::judge_entries;
use crate::printing::{JudgeOptions, judge_text, shows};
use history_read::errors::{BadHistoryLine, HistoryError};
use history_read::reading::read_history;
use history_read::refusals::refusal_line;
use history_text::lines::Lines;
use kube_types::copies::OutOfMemory;
use kube_types::text::Bytes;
use std::alloc::Global;

/// What came of an input: its faults, and whether one is shown; or that it is no history.
#[derive(Drop)]
pub enum JudgeAnswer {
    Judged { text: Bytes, shown: bool },
    NoHistory { text: Bytes },
}

fn refusal(alloc: Global, bad: BadHistoryLine) -> Result<Bytes, OutOfMemory>
    ensures { IfOk result (λ text. text ≡ with_line [] (refusal_line bad)) }
{
    let line = refusal_line(alloc, bad)?;
    let mut lines = Lines::new(alloc);
    lines.push(line.as_bytes())?;
    Ok(lines.into_bytes())
}

/// What comes of an input: every fault of the history that it is.
pub fn judged(
    alloc: Global,
    input: &[u8],
    options: &JudgeOptions,
) -> Result<JudgeAnswer, OutOfMemory>
    ensures { IfOk result (AnswersJudge options.now input.now) }
{
    match read_history(alloc, input) {
        Ok(history) => {
            let entries = history.entries.as_slice();
            let faults = judge_entries(alloc, &history.setup, entries)?;
            let text = judge_text(alloc, options, entries.len() as u64, faults.as_slice())?;
            let shown = shows(options, faults.as_slice());
            Ok(JudgeAnswer::Judged { text, shown })
        }
        Err(HistoryError::BadLine(bad)) => {
            let text = refusal(alloc, bad)?;
            Ok(JudgeAnswer::NoHistory { text })
        }
        Err(HistoryError::OutOfMemory) => Err(OutOfMemory),
    }
}
