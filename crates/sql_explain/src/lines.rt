//! The lines of the text of a plan. Each is one call that writes a list of pieces.
ghost use Rattle.std.specs.Prelude.{◌≡◌, ◌++◌, ◌∷◌, [], codes, decimal};
ghost use Rattle.io_streams.specs.Sink.{Writes};
ghost use Rattle.sql_explain.specs.Text.{sign_text, soft_word, part_line, name_line};
ghost use Rattle.sql_parser.specs.Naming.{column_text};

use io_streams::{Sink, WriteFault, write_pieces};
use itoa::Buffer;
use sem_query::{Op, Sign};
use sql_parser::ColumnAst;

/// Returns a sign between two spaces.
pub fn sign_text(sign: Sign) -> &'static [u8]
    ensures { result.now ≡ sign_text sign }
{
    match sign {
        Sign::Lt => b" < ",
        Sign::Eq => b" = ",
        Sign::Gt => b" > ",
    }
}

/// Returns the word of a link that is neither an equality nor `<`.
pub fn soft_word(op: Op) -> &'static [u8]
    ensures { result.now ≡ soft_word op }
{
    match op {
        Op::Ne => b"unlike ",
        Op::Lt | Op::Eq | Op::Gt | Op::Le | Op::Ge => b"most ",
    }
}

/// Writes `end q`: a word and a name.
#[tactic(auto, unfolding(crate::specs::Text::name_line))]
pub fn write_name_line<'a, O: Sink>(
    out: &mut O,
    word: &'a [u8],
    name: &'a [u8],
) -> Result<(), WriteFault>
    ensures { Writes result (O.seen out.old) (O.seen out.new) (name_line word.now name.now) }
{
    let pieces: [&[u8]; 3] = [word, name, b"\n"];
    write_pieces(out, &pieces)
}

/// Writes `part 1`: the number of a part.
#[tactic(auto, unfolding(crate::specs::Text::part_line))]
pub fn write_part_line<O: Sink>(out: &mut O, number: u32) -> Result<(), WriteFault>
    ensures { Writes result (O.seen out.old) (O.seen out.new) (part_line number) }
{
    let mut buffer = Buffer::new();
    let digits = buffer.format(number).as_bytes();
    let pieces: [&[u8]; 3] = [b"part ", digits, b"\n"];
    write_pieces(out, &pieces)
}

/// Writes `least S.b`: a word and a column.
pub fn write_column_line<'a, O: Sink>(
    out: &mut O,
    word: &'a [u8],
    column: &'a ColumnAst,
) -> Result<(), WriteFault>
    ensures { Writes result (O.seen out.old) (O.seen out.new) (word.now ++ column_text column.now ++ 10 ∷ []) }
{
    let pieces: [&[u8]; 5] = [
        word,
        column.stream.bytes(),
        b".",
        column.column.bytes(),
        b"\n",
    ];
    write_pieces(out, &pieces)
}

/// Writes `sign S.a > 10`: a word, a column, the text of a sign, and a text.
pub fn write_text_compared<'a, O: Sink>(
    out: &mut O,
    word: &'a [u8],
    left: &'a ColumnAst,
    sign: &'a [u8],
    right: &'a [u8],
) -> Result<(), WriteFault>
    ensures { Writes result (O.seen out.old) (O.seen out.new) (word.now ++ column_text left.now ++ sign.now ++ right.now ++ 10 ∷ []) }
{
    let pieces: [&[u8]; 7] = [
        word,
        left.stream.bytes(),
        b".",
        left.column.bytes(),
        sign,
        right,
        b"\n",
    ];
    write_pieces(out, &pieces)
}

/// Writes `equal S.a = T.c`: a word, a column, the text of a sign, and a column.
pub fn write_columns_compared<'a, O: Sink>(
    out: &mut O,
    word: &'a [u8],
    left: &'a ColumnAst,
    sign: &'a [u8],
    right: &'a ColumnAst,
) -> Result<(), WriteFault>
    ensures { Writes result (O.seen out.old) (O.seen out.new) (word.now ++ column_text left.now ++ sign.now ++ column_text right.now ++ 10 ∷ []) }
{
    let pieces: [&[u8]; 9] = [
        word,
        left.stream.bytes(),
        b".",
        left.column.bytes(),
        sign,
        right.stream.bytes(),
        b".",
        right.column.bytes(),
        b"\n",
    ];
    write_pieces(out, &pieces)
}

/// Writes `dim S.a 11 12`: a column and the texts of its least and greatest value.
pub fn write_dim_line<'a, O: Sink>(
    out: &mut O,
    column: &'a ColumnAst,
    lo: &'a [u8],
    hi: &'a [u8],
) -> Result<(), WriteFault>
    ensures { Writes result (O.seen out.old) (O.seen out.new) (codes "dim " ++ column_text column.now ++ 32 ∷ lo.now ++ 32 ∷ hi.now ++ 10 ∷ []) }
{
    let pieces: [&[u8]; 9] = [
        b"dim ",
        column.stream.bytes(),
        b".",
        column.column.bytes(),
        b" ",
        lo,
        b" ",
        hi,
        b"\n",
    ];
    write_pieces(out, &pieces)
}
