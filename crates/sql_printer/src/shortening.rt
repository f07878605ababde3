//! Tokens as text, in the printed form or in the short one.
ghost use Rattle.std.specs.Prelude.{◌≡◌, ◌≤◌, ◌+◌, ◌++◌, ◌∷◌, [], length, map, nat_le};
ghost use Rattle.std.specs.Fmt.{signed_decimal};
ghost use Rattle.io_streams.specs.Sink.{Writes};
ghost use Rattle.sql_parser.specs.declared.tree.Statement.TheVariants.{CreateQuery};
ghost use Rattle.sql_printer.specs.Printed as printed;
ghost use Rattle.sql_printer.specs.Printed.{text_for, gap_by, spaced_by, create_line};
ghost use Rattle.sql_parser.specs.Syntax.{lexeme_as};
ghost use Rattle.sql_printer.specs.Pieces.{said, close_by, behind_by};

use crate::pieces::{Piece, query_pieces};
use crate::printing::{put_integer, put_name};
use io_streams::{Sink, WriteFault, write_pieces};
use itoa::Buffer;
use sql_lexer::TokenKind;
use sql_parser::SelectAst;
use sql_text::{Key, Name};

/// The most bytes of a line.
const MOST_BYTES: usize = 1024;

// A reserved word in capitals.
fn key_text(key: Key) -> &'static [u8]
    ensures text { result.now ≡ printed.key_text key }
    ensures short { length result.now ≤ 40 }
{
    match key {
        Key::CreateKey => b"CREATE",
        Key::StreamKey => b"STREAM",
        Key::QueryKey => b"QUERY",
        Key::AsKey => b"AS",
        Key::SelectKey => b"SELECT",
        Key::DistinctKey => b"DISTINCT",
        Key::FromKey => b"FROM",
        Key::WhereKey => b"WHERE",
        Key::AndKey => b"AND",
        Key::ExplainKey => b"EXPLAIN",
        Key::DropKey => b"DROP",
        Key::InKey => b"IN",
        Key::SharedKey => b"SHARED",
        Key::CheckpointKey => b"CHECKPOINT",
        Key::ResumeKey => b"RESUME",
    }
}

// The text of a token that is told by its kind: no name has no text, and no integer is 0.
fn kind_text(kind: TokenKind) -> &'static [u8]
    ensures text { result.now ≡ text_for (lexeme_as kind []) }
    ensures short { length result.now ≤ 40 }
{
    match kind {
        TokenKind::Word => b"",
        TokenKind::Reserved(key) => key_text(key),
        TokenKind::Integer => b"0",
        TokenKind::Comma => b",",
        TokenKind::Point => b".",
        TokenKind::Open => b"(",
        TokenKind::Close => b")",
        TokenKind::Less => b"<",
        TokenKind::Equal => b"=",
        TokenKind::Greater => b">",
        TokenKind::LessEqual => b"<=",
        TokenKind::GreaterEqual => b">=",
        TokenKind::Unequal => b"<>",
        TokenKind::Semi => b";",
    }
}

// A text, and what stands before it.
fn put_text<O: Sink>(out: &mut O, lead: &[u8], text: &[u8]) -> Result<(), WriteFault>
    ensures { Writes result (O.seen out.old) (O.seen out.new) (lead.now ++ text.now) }
{
    let pieces: [&[u8]; 2] = [lead, text];
    write_pieces(out, &pieces)
}

// A token, and what stands before it.
fn put_piece<O: Sink>(out: &mut O, lead: &[u8], piece: &Piece) -> Result<(), WriteFault>
    ensures { Writes result (O.seen out.old) (O.seen out.new) (lead.now ++ text_for (said piece.now)) }
{
    match piece {
        Piece::Word(name) => put_name(out, lead, name),
        Piece::Integer(integer) => put_integer(out, lead, integer),
        Piece::Other(kind) => put_text(out, lead, kind_text(*kind)),
    }
}

// How many bytes an integer has.
fn integer_size(integer: &i64) -> usize
    ensures size { result ≡ length (signed_decimal integer.now) }
    ensures short { result ≤ 40 }
{
    let mut buffer = Buffer::new();
    buffer.format(*integer).as_bytes().len()
}

// How many bytes a token has.
fn size_of(piece: &Piece) -> usize
    ensures size { result ≡ length (text_for (said piece.now)) }
    ensures short { result ≤ 40 }
{
    match piece {
        Piece::Word(name) => name.bytes().len(),
        Piece::Integer(integer) => integer_size(integer),
        Piece::Other(kind) => kind_text(*kind).len(),
    }
}

// Whether a token is a word.
fn is_any_word(piece: &Piece) -> bool
    ensures { result ≡ printed.is_any_word (said piece.now) }
{
    match piece {
        Piece::Word(_) => true,
        Piece::Integer(_) => false,
        Piece::Other(kind) => matches!(kind, TokenKind::Word | TokenKind::Reserved(_)),
    }
}

// Whether a word would go on with a token.
fn goes_on(piece: &Piece) -> bool
    ensures { result ≡ printed.goes_on (said piece.now) }
{
    match piece {
        Piece::Word(_) => true,
        Piece::Integer(integer) => 0 <= *integer,
        Piece::Other(kind) => matches!(
            kind,
            TokenKind::Word | TokenKind::Reserved(_) | TokenKind::Integer
        ),
    }
}

// Whether no space stands behind a token.
fn joins_next(piece: &Piece) -> bool
    ensures { result ≡ printed.joins_next (said piece.now) }
{
    matches!(
        piece,
        Piece::Other(TokenKind::Point) | Piece::Other(TokenKind::Open)
    )
}

// Whether no space stands before a token.
fn joins_last(piece: &Piece) -> bool
    ensures { result ≡ printed.joins_last (said piece.now) }
{
    matches!(
        piece,
        Piece::Other(TokenKind::Comma)
            | Piece::Other(TokenKind::Point)
            | Piece::Other(TokenKind::Close)
    )
}

// Whether no space stands between two tokens, in the short form or in the printed one.
fn stand_close(short: bool, last: &Piece, next: &Piece) -> bool
    ensures { result ≡ close_by short (said last.now) (said next.now) }
{
    if short {
        !(is_any_word(last) && goes_on(next))
    } else {
        joins_next(last) || joins_last(next)
    }
}

// What stands between two tokens.
fn gap(short: bool, last: &Piece, next: &Piece) -> &'static [u8]
    ensures gap { result.now ≡ gap_by (close_by short) (said last.now) (said next.now) }
    ensures small { length result.now ≤ 1 }
{
    if stand_close(short, last, next) {
        b""
    } else {
        b" "
    }
}

// What stands behind a token.
fn put_behind<O: Sink>(
    out: &mut O,
    short: bool,
    last: &Piece,
    others: &[Piece],
) -> Result<(), WriteFault>
    ensures { Writes result (O.seen out.old) (O.seen out.new) (behind_by (close_by short) (said last.now) (map said others.now)) }
{
    match others {
        [] => Ok(()),
        [next, rest @ ..] => match put_piece(out, gap(short, last, next), next) {
            Ok(()) => put_behind(out, short, next, rest),
            Err(fault) => Err(fault),
        },
    }
}

// Tokens, in the short form or in the printed one.
fn put_pieces<O: Sink>(out: &mut O, short: bool, pieces: &[Piece]) -> Result<(), WriteFault>
    ensures { Writes result (O.seen out.old) (O.seen out.new) (spaced_by (close_by short) (map said pieces.now)) }
{
    match pieces {
        [] => Ok(()),
        [first, others @ ..] => match put_piece(out, b"", first) {
            Ok(()) => put_behind(out, short, first, others),
            Err(fault) => Err(fault),
        },
    }
}

// Whether what is printed behind a token has at most so many bytes.
fn fits_behind(room: usize, last: &Piece, others: &[Piece]) -> bool
    ensures { result ≡ nat_le (length (behind_by printed.joins (said last.now) (map said others.now))) room }
{
    match others {
        [] => true,
        [next, rest @ ..] => {
            let size = gap(false, last, next).len() + size_of(next);
            size <= room && fits_behind(room - size, next, rest)
        }
    }
}

// Whether the printed form has at most so many bytes.
fn fits(room: usize, pieces: &[Piece]) -> bool
    ensures { result ≡ nat_le (length (spaced_by printed.joins (map said pieces.now))) room }
{
    match pieces {
        [] => true,
        [first, others @ ..] => {
            let size = size_of(first);
            size <= room && fits_behind(room - size, first, others)
        }
    }
}

/// Writes the line that creates a query: its printed form where that has at most 1,024 bytes, else its short form. Where the sink
/// fails, a front of it was written.
pub fn put_create<O: Sink>(
    out: &mut O,
    name: &Name,
    select: &SelectAst,
    shared: bool,
) -> Result<(), WriteFault>
    ensures { Writes result (O.seen out.old) (O.seen out.new) (create_line (CreateQuery name.now select.now shared)) }
{
    let pieces = query_pieces(name, select, shared);
    let short = !fits(MOST_BYTES, pieces.as_slice());
    put_pieces(out, short, pieces.as_slice())
}
