//! What the program says of itself.
ghost use Rattle.std.specs.Prelude.{◌≤◌};
ghost use Rattle.cmd_dispatch.specs.Help.{TextEnds, help_text, version_text};

use io_streams::{Sink, Status, write_all};

/// What `--help` writes.
const HELP: &str = "\
bq answers select-project-join queries over endless streams, in fixed memory.

bq run [--rows N] [--each] [FILE]
                   read a script from FILE, where one is named, and then more
                   lines and rows from standard input, and answer each line
                   at once; at most N rows are taken. --each writes one line
                   for each line read, replies joined by a semicolon:
                   bq run rooms.bq < rows
bq feeds [--rows N] [--script FILE] FILE FILE ..
                   the same over 2 to 8 files or named pipes, a line of each
                   in turn; behind a script feeds give rows alone, S,T@FILE
                   rows of S and T alone:
                   bq feeds --script rooms.bq Temp@temps Lim@limits
bq certify         read a script of one query, and write it with a certificate
                   of the decision on it:    bq certify < script > certified
bq check           read such a text, and write what its certificate shows:
                   bq certify < script | bq check
bq lower [--c3] N  read a script of one query, and write N rows that show why the
                   query is refused; with --c3 also where that is by C3:
                   bq lower 3 < script
bq advise [FILE]   read a script to its end, and write what is wrong with its
                   lines, and what would mend or better its queries:
                   bq advise rooms.bq && bq run rooms.bq < rows
bq advise --split [FILE]
                   read a script to its end, and write by which columns rows
                   may be dealt to several processes, and what then holds of
                   each query:               bq advise --split rooms.bq
bq load N          answer N generated rows, and write one line of sums:
                   bq load 1000
bq --help          write this text; also -h
bq --version       write the version; also -V

The lines of a script; keywords are read in any case of letters:
  CREATE STREAM S (a IN 0..99, b)   columns of integers, a with a domain
  CREATE QUERY q AS SELECT DISTINCT S.a FROM S, T WHERE S.b < T.c AND S.b > 1
                                    DISTINCT and WHERE may be left out;
                                    compared by < = > <= >= <>
  CREATE SHARED QUERY q AS ..       cells that several parts would keep alike
                                    are kept once
  CREATE COMPACT QUERY q AS ..      columns that nothing relates stay apart
  EXPLAIN q                         how q runs
  DROP QUERY q
  CHECKPOINT                        the lines from which a fresh session goes on
  RESUME ..                         one of these lines
  LOCK 7 TO S, T                    from here on rows of S and T alone, up to
                                    UNLOCK 7; both the number and TO may be
                                    left out
  S,1,2                             a row of S: all new answers are written
What cannot be taken is answered by error, the number of the line and a word.

Status 0  done
       1  certify, check or lower refuses a line, or a certificate has a fault;
          advise finds a line at fault or a query that is refused;
          with --split, a line is refused or the choices are too many
       2  the words are none of these forms; nothing was read, and standard
          error says so
       4  the file, the input or one of the feeds failed
       5  the output failed
       6  no memory was found
       7  the input has more bytes than can be counted, 2^64 - 1 or more

To read on: README.md; docs/QUERIES.md, on what a query may say and why one
is refused; docs/OPERATING.md, on running it; or man bq.
";

/// What `--version` writes.
const VERSION: &str = "bq 0.1.0\n";

// Writes a text, and gives the status.
fn tell<O: Sink>(text: &str, output: &mut O) -> Status
    ensures ends { TextEnds result text.now (O.seen output.old) (O.seen output.new) }
    ensures later { (O.seen output.old).faults ≤ (O.seen output.new).faults }
{
    match write_all(output, text.as_bytes()) {
        Ok(()) => Status::Done,
        Err(_) => Status::WriteFault,
    }
}

/// Writes how the program is used.
pub fn help<O: Sink>(output: &mut O) -> Status
    ensures ends { TextEnds result help_text (O.seen output.old) (O.seen output.new) }
    ensures output_later { (O.seen output.old).faults ≤ (O.seen output.new).faults }
{
    tell(HELP, output)
}

/// Writes which version of the program this is.
pub fn version<O: Sink>(output: &mut O) -> Status
    ensures ends { TextEnds result version_text (O.seen output.old) (O.seen output.new) }
    ensures output_later { (O.seen output.old).faults ≤ (O.seen output.new).faults }
{
    tell(VERSION, output)
}
