//! The words of the commands over a script that take no number.
ghost use Rattle.std.specs.Prelude.{ℕ, Bool, MatchOption, map};
ghost use Rattle.std.specs.String.{string_bytes};
ghost use Rattle.cmd_dispatch.specs.CertificateWords.{AreAdvise, AreSplitTexts, AreSplit, AdviseCommand, ScriptCommand};

use crate::command::Command;
use crate::words::{is_alone, last_words, words_behind};

// Whether a file is named behind `advise`; nothing where the words are neither that word alone nor the word and a file.
fn advise_file(words: &[String]) -> Option<bool>
    ensures { MatchOption result ((file : Bool) → AreAdvise words.now file → ⊥) (λ file. AreAdvise words.now file) }
{
    match words_behind(words, "advise") {
        Some(others) => last_words(others),
        None => None,
    }
}

// Whether a file is named behind `--split`; nothing where the words are neither that word alone nor the word and a file.
fn file_behind_split(words: &[String]) -> Option<bool>
    ensures { MatchOption result ((file : Bool) → AreSplitTexts (map string_bytes words.now) file → ⊥) (λ file. AreSplitTexts (map string_bytes words.now) file) }
{
    match words_behind(words, "--split") {
        Some(others) => last_words(others),
        None => None,
    }
}

// Whether a file is named behind `advise --split`; nothing where the words are neither these two alone nor these and a file.
fn split_file(words: &[String]) -> Option<bool>
    ensures { MatchOption result ((file : Bool) → AreSplit words.now file → ⊥) (λ file. AreSplit words.now file) }
{
    match words_behind(words, "advise") {
        Some(others) => file_behind_split(others),
        None => None,
    }
}

// The command that has the word `advise`, where the words ask for one.
fn advise_command(words: &[String]) -> Option<Command>
    ensures { AdviseCommand words.now result }
{
    match advise_file(words) {
        Some(file) => Some(Command::Advise { file }),
        None => match split_file(words) {
            Some(file) => Some(Command::Split { file }),
            None => None,
        },
    }
}

/// Returns the command over a script that the words ask for, where they do.
#[tactic(auto, using(crate::proofs::ScriptForms::advise_or_none))]
pub fn script_command(words: &[String]) -> Option<Command>
    ensures { ScriptCommand words.now result }
{
    if is_alone(words, "certify") {
        Some(Command::Certify)
    } else if is_alone(words, "check") {
        Some(Command::Check)
    } else {
        advise_command(words)
    }
}
