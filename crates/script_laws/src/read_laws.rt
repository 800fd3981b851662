//! Laws of scripts that are printed and read.

ghost use Rattle.script_laws.specs.Read.Laws.{ImportsGiven, LineMeansItself, ScriptGives, ScriptIsRead, ScriptIsReadAgain};

/// The JSON of a line that a text can give means the line.
#[tactic(auto, using(crate::proofs::Read::LinesBack::line_means))]
pub fn line_means_itself()
    ensures { LineMeansItself }
{}

/// The text of a script that a text can give gives the script, within the limits of what is read.
#[tactic(auto, using(crate::proofs::Read::TextsRead::script_is_read))]
pub fn script_is_read()
    ensures { ScriptIsRead }
{}

/// What a text gives is a script that a text can give.
pub fn script_gives()
    ensures { ScriptGives }
{}

/// The imported objects of a script that a text can give are such as manifests give, and each passes after those before it.
pub fn imports_given()
    ensures { ImportsGiven }
{}

/// What a text gives is printed as it is read again, within the limits of what is read.
#[tactic(auto, using(crate::proofs::Read::Again::script_is_read_again))]
pub fn script_is_read_again()
    ensures { ScriptIsReadAgain }
{}
