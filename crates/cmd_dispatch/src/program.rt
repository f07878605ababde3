//! The program over its words, its input, its files and its output.
ghost use Rattle.std.specs.Prelude.{◌≤◌, ◌↔◌, IsTrue, map};
ghost use Rattle.io_streams.specs.Counts.{Rose};
ghost use Rattle.cmd_session.specs.Run.{IsNoFault};
ghost use Rattle.cmd_dispatch.specs.Commands.{HasFile, IsAllowed, names_file};
ghost use Rattle.cmd_dispatch.specs.Ends.{Ends, EndsOn};
ghost use Rattle.cmd_dispatch.specs.Files.{NoneFell, SomeRose};

use crate::command::{Command, command_of, names_file};
use crate::ended::Ended;
use crate::help::{help, version};
use crate::load::load;
use crate::session::run_session;
use cmd_advise::advise_script;
use cmd_advise_split::split_script;
use cmd_certify::{certify, check_script};
use cmd_lower::lower;
use io_streams::{Sink, Source, Status};
use std::alloc::Global;

// Does what a command asks for, where there is a file for it if it reads one.
fn run_command<F: Source, I: Source, O: Sink>(
    alloc: Global,
    command: Command,
    files: &mut [F],
    input: &mut I,
    output: &mut O,
) -> Ended
    requires allowed { IsAllowed command }
    requires file { HasFile (names_file command) (map F.seen files.old) }
    ensures ends { EndsOn (names_file command) result.status result.file_failed command (I.seen input.old) (I.seen input.new) (map F.seen files.old) (map F.seen files.new) (O.seen output.old) (O.seen output.new) }
    ensures input_later { (I.seen input.old).faults ≤ (I.seen input.new).faults }
    ensures files_later { NoneFell (map F.seen files.old) (map F.seen files.new) }
    ensures output_later { (O.seen output.old).faults ≤ (O.seen output.new).faults }
{
    match command {
        Command::Run(form) => run_session(alloc, form, files, input, output),
        Command::Load(rows) => Ended::by(load(alloc, rows, output)),
        Command::Help => Ended::by(help(output)),
        Command::Version => Ended::by(version(output)),
        Command::Lower(form) => Ended::by(lower(alloc, form, input, output)),
        Command::Certify => Ended::by(certify(alloc, input, output)),
        Command::Check => Ended::by(check_script(alloc, input, output)),
        Command::Advise { file } => {
            if file {
                Ended::in_file(advise_script(alloc, &mut files[0], output))
            } else {
                Ended::by(advise_script(alloc, input, output))
            }
        }
        Command::Split { file } => {
            if file {
                Ended::in_file(split_script(alloc, &mut files[0], output))
            } else {
                Ended::by(split_script(alloc, input, output))
            }
        }
    }
}

/// Does all that the program does over the words after its name. `files` has the file that the words name, where they name one.
///
/// `run [--rows N] [--each] [FILE]`, the options in any order, answers each line before it reads on, without end, in buffers of fixed size: the
/// lines of FILE, where it is named, and then those of the input. They are one text: FILE's bytes, an LF where they do not end in one, and the
/// bytes of the input. Nothing of the input is read before FILE was read to its end. Replies are gathered, and written before each read, at the
/// end and where 4,096 bytes are held. With `--each` each reply is written as one line. `Ends` says of each status what was read and
/// written: for `Done` all bytes, and their session text; for `ReadFault` and `ByteLimit` the session text of the lines that
/// ended before; for `WriteFault` the replies to the lines before one line and a front of the reply to it; for `Memory` nothing, or
/// the replies to the lines before a line that creates a stream or a query. Such a line ended in the last read of its source that
/// gave some bytes, or it is the last line of all: each line that ended before that read was answered in full.
///
/// `load N` answers the script of N generated rows, 1 to 100,000, reads nothing, and writes one line: N, how many lines the session
/// text of the script has, and the sums of the cells and of the answers that the live queries announce. For `Done` that line was
/// written, for `WriteFault` a front of it, and for `Memory` nothing.
///
/// `certify` reads a script of one query, and writes its statements with a certificate of the query's parts and decision. `check`
/// reads such a text, and writes what the certificate shows, or its first fault. Both write when all is known, and end with `Invalid`
/// where a line is refused or the certificate has a fault. For `ReadFault`, `ByteLimit` and `Memory` nothing was written.
///
/// `lower N` reads such a script, and writes a family of N rows for its query, 1 to 1,000, with the rows that ask for each of them: whatever set of
/// the N rows came before, the answers to the rows that ask tell the set. `lower --c3 N` makes families for refusals by C3, too. Where the query has no
/// family, one line says so. It writes when all is known, and ends with `Invalid` where a line is refused. For `ReadFault`, `ByteLimit` and `Memory`
/// nothing was written.
///
/// `advise [FILE]` reads a script to its end, and takes no row into any query. It writes what is wrong with each line that a session would refuse, why
/// a query is refused and what would mend it, what a query of several parts costs, and at the end one line with what all lines came to. It writes
/// when all is known, and ends with `Invalid` where a line is at fault or a query is refused. For `ReadFault`, `ByteLimit` and `Memory` nothing
/// was written. It reads FILE, where that is named, and does not touch the input then; else it reads the input.
///
/// `advise --split [FILE]` reads a script to its end, and takes no row. It writes choices of keys for its streams by which rows are dealt to shards, and how
/// the shards answer each query under each of them. It writes when all is known, and ends with `Invalid` where a line is refused or there are too many
/// choices. For `ReadFault`, `ByteLimit` and `Memory` nothing was written. FILE is as for `advise`.
///
/// `--help` or `-h`, alone, writes how the program is used, and `--version` or `-V`, alone, its version. Nothing is read.
///
/// `Usage` comes exactly where the words are none of these forms, or name a file and `files` is empty, and then nothing was read or written.
/// `ReadFault` and `WriteFault` come only where the count of faults of that object rose in this call. `file_failed` tells a file that failed from an
/// input that failed.
///
/// No query outgrows what its line announced: that is the clause `within` of `Registry::row`, and of `Session::line`, whose clause
/// `announced` bounds the reads and writes of each line.
pub fn run<I: Source, F: Source, O: Sink>(
    alloc: Global,
    words: &[String],
    input: &mut I,
    files: &mut [F],
    output: &mut O,
) -> Ended
    ensures ends { Ends result.status result.file_failed words.now (I.seen input.old) (I.seen input.new) (map F.seen files.old) (map F.seen files.new) (O.seen output.old) (O.seen output.new) }

    // Where neither the input nor a file nor the sink fails, the status is Done, Invalid, Memory, ByteLimit or Usage.
    ensures complete { ¬ (Rose (I.seen input.old).faults (I.seen input.new).faults) → ¬ (SomeRose (map F.seen files.old) (map F.seen files.new))
        → ¬ (Rose (O.seen output.old).faults (O.seen output.new).faults) → IsNoFault result.status }
    ensures input_later { (I.seen input.old).faults ≤ (I.seen input.new).faults }
    ensures files_later { NoneFell (map F.seen files.old) (map F.seen files.new) }
    ensures output_later { (O.seen output.old).faults ≤ (O.seen output.new).faults }
{
    match command_of(words) {
        Some(command) => {
            if has_file(names_file(command), files) {
                run_command(alloc, command, files, input, output)
            } else {
                Ended::by(Status::Usage)
            }
        }
        None => Ended::by(Status::Usage),
    }
}

// Whether there is a file, where one is named.
fn has_file<F: Source>(named: bool, files: &[F]) -> bool
    ensures { IsTrue result ↔ HasFile named (map F.seen files.now) }
{
    !named || !files.is_empty()
}
