//! What the words ask for.
ghost use Rattle.std.specs.Prelude.{◌≡◌, ◌↔◌, MatchOption, IfSome, IsTrue};
ghost use Rattle.cmd_dispatch.specs.declared.command.Command.{Command};
ghost use Rattle.cmd_dispatch.specs.Commands.{Asks, IsAllowed, NameFile, names_file};

use crate::certificate_words::script_command;
use crate::help_words::help_command;
use crate::load_words::load_rows;
use crate::lower_words::lower_form;
use crate::words::{RunForm, run_form};
use cmd_lower::LowerForm;

/// What the words ask for.
#[derive(Clone, Copy, Debug, PartialEq, Eq)]
pub enum Command {
    /// A session over the lines of a file, where one is named, and of the input.
    Run(RunForm),
    /// A session over a generated script of so many rows: 1 to 100,000.
    Load(u32),
    /// A family of so many rows for the query of a script: 1 to 1,000.
    Lower(LowerForm),
    /// A certificate of the query of a script.
    Certify,
    /// The check of the certificate behind a script.
    Check,
    /// Advice on each line of a script, which a file has, or the input.
    Advise { file: bool },
    /// Choices of keys for the streams of a script, which a file has, or the input.
    Split { file: bool },
    /// How the program is used.
    Help,
    /// Which version of the program this is.
    Version,
}

/// Returns what the words ask for; nothing where they are none of the forms.
pub fn command_of(words: &[String]) -> Option<Command>
    ensures asks { MatchOption result ((command : Command) → Asks words.now command → ⊥) (λ command. Asks words.now command) }
    ensures allowed { IfSome result (λ command. IsAllowed command) }
{
    match run_form(words) {
        Some(form) => Some(Command::Run(form)),
        None => match load_rows(words) {
            Some(rows) => Some(Command::Load(rows)),
            None => match lower_form(words) {
                Some(form) => Some(Command::Lower(form)),
                None => match script_command(words) {
                    Some(command) => Some(command),
                    None => help_command(words),
                },
            },
        },
    }
}

/// Returns whether a command reads a file.
pub fn names_file(command: Command) -> bool
    ensures { result ≡ names_file command }
{
    match command {
        Command::Run(form) => form.file,
        Command::Advise { file } => file,
        Command::Split { file } => file,
        Command::Load(_) => false,
        Command::Lower(_) => false,
        Command::Certify => false,
        Command::Check => false,
        Command::Help => false,
        Command::Version => false,
    }
}

/// Returns whether the words ask for a command that reads a file. The last word is its name then.
pub fn name_file(words: &[String]) -> bool
    ensures { IsTrue result ↔ NameFile words.now }
{
    match command_of(words) {
        Some(command) => names_file(command),
        None => false,
    }
}
