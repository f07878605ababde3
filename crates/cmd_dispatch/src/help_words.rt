//! The words that ask what the program is.
ghost use Rattle.cmd_dispatch.specs.HelpWords.{HelpCommand};

use crate::command::Command;
use crate::words::is_alone;

/// Gives the command that the words ask for where they ask for help or the version.
pub fn help_command(words: &[String]) -> Option<Command>
    ensures { HelpCommand words.now result }
{
    if is_alone(words, "--help") || is_alone(words, "-h") {
        Some(Command::Help)
    } else if is_alone(words, "--version") || is_alone(words, "-V") {
        Some(Command::Version)
    } else {
        None
    }
}
