//! The limits that the reader of scripts keeps.

ghost use Rattle.script_runs.specs.Limits.{ReadsNumberedReadable, ReadsReadable};

/// It does nothing: its contract is what callers know of each script that the reader answers.
pub fn reads_readable()
    ensures script { ReadsReadable }
    ensures numbered { ReadsNumberedReadable }
{}
