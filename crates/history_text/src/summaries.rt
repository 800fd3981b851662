//! The lines of a summary.

ghost use Rattle.std.specs.Prelude.{◌≡◌, OnOk, IfOk, string_bytes};
ghost use Rattle.history_text.specs.Output.{with_line, with_lines};
ghost use Rattle.history_text.specs.Summaries.{full_name, writes_line, objects_line, volumes_line, claims_line, pods_line, data_line, unsettled_line, ending_line, count_lines, end_lines, summary_lines};

use crate::lines::Lines;
use crate::summary::{ClaimCounts, Ending, Summary, VolumeCounts};
use kube_types::copies::OutOfMemory;
use kube_types::key::Key;
use kube_types::names::Due;
use kube_types::parts::Kind;
use std::alloc::Global;

#[tactic(auto, unfolding(crate::specs::Summaries::writes_line))]
fn writes_line(alloc: Global, n: u64) -> Result<String, OutOfMemory>
    ensures { IfOk result (λ s. string_bytes s ≡ writes_line n) }
{
    Ok(format!(in alloc; "writes {n}")?)
}

#[tactic(auto, unfolding(crate::specs::Summaries::objects_line))]
fn objects_line(alloc: Global, n: u64) -> Result<String, OutOfMemory>
    ensures { IfOk result (λ s. string_bytes s ≡ objects_line n) }
{
    Ok(format!(in alloc; "objects {n}")?)
}

#[tactic(auto, unfolding(crate::specs::Summaries::volumes_line))]
fn volumes_line(alloc: Global, counts: &VolumeCounts) -> Result<String, OutOfMemory>
    ensures { IfOk result (λ s. string_bytes s ≡ volumes_line counts.now) }
{
    Ok(format!(in alloc;
        "volumes Pending {} Available {} Bound {} Released {} Failed {}",
        counts.pending, counts.available, counts.bound, counts.released, counts.failed
    )?)
}

#[tactic(auto, unfolding(crate::specs::Summaries::claims_line))]
fn claims_line(alloc: Global, counts: &ClaimCounts) -> Result<String, OutOfMemory>
    ensures { IfOk result (λ s. string_bytes s ≡ claims_line counts.now) }
{
    Ok(format!(in alloc;
        "claims Pending {} Bound {} Lost {}",
        counts.pending, counts.bound, counts.lost
    )?)
}

#[tactic(auto, unfolding(crate::specs::Summaries::pods_line))]
fn pods_line(alloc: Global, pods: u64, mounted: u64) -> Result<String, OutOfMemory>
    ensures { IfOk result (λ s. string_bytes s ≡ pods_line pods mounted) }
{
    Ok(format!(in alloc; "pods {pods} mounted {mounted}")?)
}

#[tactic(auto, unfolding(crate::specs::Summaries::data_line))]
fn data_line(alloc: Global, stored: u64, calls: u64) -> Result<String, OutOfMemory>
    ensures { IfOk result (λ s. string_bytes s ≡ data_line stored calls) }
{
    Ok(format!(in alloc; "data {stored} calls {calls}")?)
}

/// The name of an object, with its namespace where its kind has one.
pub fn full_name(alloc: Global, key: &Key) -> Result<String, OutOfMemory>
    ensures { IfOk result (λ s. string_bytes s ≡ full_name key.now) }
{
    let namespace = key.namespace.as_str();
    let name = key.name.as_str();
    match key.kind {
        Kind::PersistentVolumeClaim => Ok(format!(in alloc; "{namespace}/{name}")?),
        Kind::Pod => Ok(format!(in alloc; "{namespace}/{name}")?),
        _ => Ok(String::from_str(alloc, name)?),
    }
}

#[tactic(auto, unfolding(crate::specs::Summaries::unsettled_line))]
fn unsettled_line(alloc: Global, calls: u64, key: &Key, due: Due) -> Result<String, OutOfMemory>
    ensures { IfOk result (λ s. string_bytes s ≡ unsettled_line calls key.now due) }
{
    let name = full_name(alloc, key)?;
    Ok(format!(in alloc;
        "unsettled after {calls} calls: {} {} {}",
        key.kind.name(),
        name.as_str(),
        due.name()
    )?)
}

fn ending_line(alloc: Global, ending: &Ending) -> Result<String, OutOfMemory>
    ensures { IfOk result (λ s. string_bytes s ≡ ending_line ending.now) }
{
    match ending {
        Ending::Settled => Ok(String::from_str(alloc, "settled")?),
        Ending::Unsettled { calls, key, due } => unsettled_line(alloc, *calls, key, *due),
    }
}

fn push_text(lines: &mut Lines, text: String) -> Result<(), OutOfMemory>
    ensures ok { OnOk result (lines.new ≡ with_line lines.old (string_bytes text)) }
{
    lines.push(text.as_bytes())
}

fn push_counts(lines: &mut Lines, alloc: Global, summary: &Summary) -> Result<(), OutOfMemory>
    ensures ok { OnOk result (lines.new ≡ with_lines lines.old (count_lines summary.now)) }
{
    push_text(lines, writes_line(alloc, summary.writes)?)?;
    push_text(lines, objects_line(alloc, summary.objects)?)?;
    push_text(lines, volumes_line(alloc, &summary.volumes)?)?;
    push_text(lines, claims_line(alloc, &summary.claims)?)
}

fn push_ends(lines: &mut Lines, alloc: Global, summary: &Summary) -> Result<(), OutOfMemory>
    ensures ok { OnOk result (lines.new ≡ with_lines lines.old (end_lines summary.now)) }
{
    push_text(lines, pods_line(alloc, summary.pods, summary.mounted)?)?;
    push_text(lines, data_line(alloc, summary.stored, summary.calls)?)?;
    push_text(lines, ending_line(alloc, &summary.ending)?)
}

/// Puts the seven lines of a summary at the end.
pub fn push_summary(lines: &mut Lines, alloc: Global, summary: &Summary) -> Result<(), OutOfMemory>
    ensures ok { OnOk result (lines.new ≡ with_lines lines.old (summary_lines summary.now)) }
{
    push_counts(lines, alloc, summary)?;
    push_ends(lines, alloc, summary)
}
