//! Laws of the definitions, as public functions without a body: the clause is the law.
ghost use Rattle.cmd_dispatch.specs.Laws.{AskForOne, LinesOfBoth, WritesAsOneInput};

/// The words ask for one thing at most. So what `run` says of the words `run` and `run --rows N` is said of a session over the
/// input, with this limit, what it says of the words with a file of a session over that file first, and what it says of `load N` of a load of N rows.
pub fn one_command()
    ensures { AskForOne }
{}

/// The lines of a file and of what follows it stay apart: the last line of the file and the first line behind it never run together.
pub fn lines_of_both()
    ensures { LinesOfBoth }
{}

/// A session over a file and the input writes what a session over one input writes that has the file's bytes, an LF where they do not end in one,
/// and then those of the input.
pub fn writes_as_one_input()
    ensures { WritesAsOneInput }
{}
