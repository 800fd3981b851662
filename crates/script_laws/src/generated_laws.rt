//! Laws of generated scripts.

ghost use Rattle.script_laws.specs.Generated.Laws.{CountsLines, GeneratedIsScript};

/// The script of each seed is one that a text can give.
pub fn generated_is_script()
    ensures { GeneratedIsScript }
{}

/// It has 712 lines.
#[tactic(auto, using(crate::proofs::Generated::Whole::counts_lines))]
pub fn counts_lines()
    ensures { CountsLines }
{}
