//! Queries as lists of tokens.
ghost use Rattle.std.specs.Prelude.{◌≡◌, ◌≤◌, ◌<◌, ◌+◌, ◌*◌, ◌∷◌, ◌++◌, [], length, map, codes};
ghost use Rattle.std.specs.List.{flat_map};
ghost use Rattle.sql_lexer.specs.declared.token.TokenKind.TheVariants as kinds;
ghost use Rattle.sql_text.specs.declared.key.Key.TheVariants as keys;
ghost use Rattle.sql_parser.specs.declared.tree.Statement.TheVariants.{CreateQuery};
ghost use Rattle.sql_parser.specs.Grammar as grammar;
ghost use Rattle.sql_parser.specs.Grammar.{separated, comma, key, name_tokens, column_tokens, operand_tokens, atom_tokens, where_tokens, distinct_tokens, shared_tokens, compact_tokens, select_tokens, statement_tokens};
ghost use Rattle.sql_parser.specs.Syntax.{lexeme_as};
ghost use Rattle.sql_printer.specs.Pieces.{said};

use arrayvec::ArrayVec;
use sem_query::Op;
use sql_lexer::TokenKind;
use sql_parser::{AtomAst, ColumnAst, OperandAst, SelectAst};
use sql_text::{Key, Name};

/// A token to be written: a name, an integer, or one that is told by its kind.
#[derive(Clone, Copy)]
pub enum Piece {
    Word(Name),
    Integer(i64),
    Other(TokenKind),
}

/// The piece that fills places of an array that no clause speaks of.
impl Default for Piece {
    fn default() -> Piece {
        Piece::Other(TokenKind::Semi)
    }
}

// Adds a token.
fn put(pieces: &mut ArrayVec<Piece, 177>, piece: Piece)
    requires { length pieces.old.items < 177 }
    ensures tokens { map said pieces.new.items ≡ map said pieces.old.items ++ said piece ∷ [] }
    ensures room { length pieces.new.items ≡ length pieces.old.items + 1 }
{
    pieces.push(piece);
}

// Adds a reserved word.
fn put_key(pieces: &mut ArrayVec<Piece, 177>, reserved: Key)
    requires { length pieces.old.items < 177 }
    ensures tokens { map said pieces.new.items ≡ map said pieces.old.items ++ key reserved ∷ [] }
    ensures room { length pieces.new.items ≡ length pieces.old.items + 1 }
{
    put(pieces, Piece::Other(TokenKind::Reserved(reserved)));
}

// Adds a column.
fn put_column(pieces: &mut ArrayVec<Piece, 177>, column: &ColumnAst)
    requires { length pieces.old.items + 3 ≤ 177 }
    ensures tokens { map said pieces.new.items ≡ map said pieces.old.items ++ column_tokens column.now }
    ensures room { length pieces.new.items ≡ length pieces.old.items + 3 }
{
    put(pieces, Piece::Word(column.stream));
    put(pieces, Piece::Other(TokenKind::Point));
    put(pieces, Piece::Word(column.column));
}

// Adds each column behind a comma.
fn put_more_columns(pieces: &mut ArrayVec<Piece, 177>, columns: &[ColumnAst])
    requires { length pieces.old.items + 4 * length columns.now ≤ 177 }
    ensures tokens { map said pieces.new.items ≡ map said pieces.old.items ++ flat_map (λ c. comma ∷ column_tokens c) columns.now }
    ensures room { length pieces.new.items ≡ length pieces.old.items + 4 * length columns.now }
{
    for column in columns {
        put(pieces, Piece::Other(TokenKind::Comma));
        put_column(pieces, column);
    }
}

// Adds columns.
fn put_columns(pieces: &mut ArrayVec<Piece, 177>, columns: &[ColumnAst])
    requires { length pieces.old.items + 4 * length columns.now ≤ 177 }
    ensures tokens { map said pieces.new.items ≡ map said pieces.old.items ++ separated comma column_tokens columns.now }
    ensures room { length pieces.new.items ≤ length pieces.old.items + 4 * length columns.now }
{
    match columns {
        [] => {}
        [first, others @ ..] => {
            put_column(pieces, first);
            put_more_columns(pieces, others);
        }
    }
}

// Adds each name behind a comma.
fn put_more_names(pieces: &mut ArrayVec<Piece, 177>, names: &[Name])
    requires { length pieces.old.items + 2 * length names.now ≤ 177 }
    ensures tokens { map said pieces.new.items ≡ map said pieces.old.items ++ flat_map (λ n. comma ∷ name_tokens n) names.now }
    ensures room { length pieces.new.items ≡ length pieces.old.items + 2 * length names.now }
{
    for name in names {
        put(pieces, Piece::Other(TokenKind::Comma));
        put(pieces, Piece::Word(*name));
    }
}

// Adds names.
fn put_names(pieces: &mut ArrayVec<Piece, 177>, names: &[Name])
    requires { length pieces.old.items + 2 * length names.now ≤ 177 }
    ensures tokens { map said pieces.new.items ≡ map said pieces.old.items ++ separated comma name_tokens names.now }
    ensures room { length pieces.new.items ≤ length pieces.old.items + 2 * length names.now }
{
    match names {
        [] => {}
        [first, others @ ..] => {
            put(pieces, Piece::Word(*first));
            put_more_names(pieces, others);
        }
    }
}

// Adds a side of an atom.
fn put_operand(pieces: &mut ArrayVec<Piece, 177>, operand: &OperandAst)
    requires { length pieces.old.items + 3 ≤ 177 }
    ensures tokens { map said pieces.new.items ≡ map said pieces.old.items ++ operand_tokens operand.now }
    ensures room { length pieces.new.items ≤ length pieces.old.items + 3 }
{
    match operand {
        OperandAst::Column(column) => put_column(pieces, column),
        OperandAst::Integer(integer) => put(pieces, Piece::Integer(*integer)),
    }
}

// The kind of a comparison.
fn op_kind(op: Op) -> TokenKind
    ensures { lexeme_as result [] ≡ grammar.op_token op }
{
    match op {
        Op::Lt => TokenKind::Less,
        Op::Eq => TokenKind::Equal,
        Op::Gt => TokenKind::Greater,
        Op::Le => TokenKind::LessEqual,
        Op::Ge => TokenKind::GreaterEqual,
        Op::Ne => TokenKind::Unequal,
    }
}

// Adds an atom.
fn put_atom(pieces: &mut ArrayVec<Piece, 177>, atom: &AtomAst)
    requires { length pieces.old.items + 7 ≤ 177 }
    ensures tokens { map said pieces.new.items ≡ map said pieces.old.items ++ atom_tokens atom.now }
    ensures room { length pieces.new.items ≤ length pieces.old.items + 7 }
{
    put_operand(pieces, &atom.left);
    put(pieces, Piece::Other(op_kind(atom.op)));
    put_operand(pieces, &atom.right);
}

// Adds each atom behind AND.
fn put_more_atoms(pieces: &mut ArrayVec<Piece, 177>, atoms: &[AtomAst])
    requires { length pieces.old.items + 8 * length atoms.now ≤ 177 }
    ensures tokens { map said pieces.new.items ≡ map said pieces.old.items ++ flat_map (λ a. key keys.AndKey ∷ atom_tokens a) atoms.now }
    ensures room { length pieces.new.items ≤ length pieces.old.items + 8 * length atoms.now }
{
    for atom in atoms {
        put_key(pieces, Key::AndKey);
        put_atom(pieces, atom);
    }
}

// Adds the atoms behind WHERE, where there are any.
fn put_atoms(pieces: &mut ArrayVec<Piece, 177>, atoms: &[AtomAst])
    requires { length pieces.old.items + 8 * length atoms.now ≤ 177 }
    ensures tokens { map said pieces.new.items ≡ map said pieces.old.items ++ where_tokens atoms.now }
    ensures room { length pieces.new.items ≤ length pieces.old.items + 8 * length atoms.now }
{
    match atoms {
        [] => {}
        [first, others @ ..] => {
            put_key(pieces, Key::WhereKey);
            put_atom(pieces, first);
            put_more_atoms(pieces, others);
        }
    }
}

// Adds DISTINCT, or nothing.
fn put_distinct(pieces: &mut ArrayVec<Piece, 177>, distinct: bool)
    requires { length pieces.old.items < 177 }
    ensures tokens { map said pieces.new.items ≡ map said pieces.old.items ++ distinct_tokens distinct }
    ensures room { length pieces.new.items ≤ length pieces.old.items + 1 }
{
    if distinct {
        put_key(pieces, Key::DistinctKey);
    }
}

// Adds SHARED, or nothing.
fn put_shared(pieces: &mut ArrayVec<Piece, 177>, shared: bool)
    requires { length pieces.old.items < 177 }
    ensures tokens { map said pieces.new.items ≡ map said pieces.old.items ++ shared_tokens shared }
    ensures room { length pieces.new.items ≤ length pieces.old.items + 1 }
{
    if shared {
        put_key(pieces, Key::SharedKey);
    }
}

// The word COMPACT.
#[tactic(auto, unfolding(sql_text::specs::Name::is_name, sql_text::specs::Key::key_of))]
fn compact_word() -> Name
    ensures { result ≡ codes "COMPACT" }
{
    match Name::read(b"COMPACT") {
        Some(name) => name,
        None => unreachable!(),
    }
}

// Adds COMPACT, or nothing.
fn put_compact(pieces: &mut ArrayVec<Piece, 177>, compact: bool)
    requires { length pieces.old.items < 177 }
    ensures tokens { map said pieces.new.items ≡ map said pieces.old.items ++ compact_tokens (grammar.word (codes "COMPACT") ∷ []) compact }
    ensures room { length pieces.new.items ≤ length pieces.old.items + 1 }
{
    if compact {
        put(pieces, Piece::Word(compact_word()));
    }
}

// Adds what stands from SELECT on.
fn put_select(pieces: &mut ArrayVec<Piece, 177>, select: &SelectAst)
    requires { length pieces.old.items ≤ 6 }
    ensures { map said pieces.new.items ≡ map said pieces.old.items ++ select_tokens select.now }
{
    put_key(pieces, Key::SelectKey);
    put_distinct(pieces, select.distinct);
    put_columns(pieces, select.select.as_slice());
    put_key(pieces, Key::FromKey);
    put_names(pieces, select.from.as_slice());
    put_atoms(pieces, select.atoms.as_slice());
}

/// Returns the tokens of a CREATE QUERY statement. There are at most 175.
pub fn query_pieces(name: &Name, select: &SelectAst, shared: bool) -> ArrayVec<Piece, 177>
    ensures { map said result.items ≡ statement_tokens (CreateQuery name.now select.now shared) }
{
    let mut pieces = ArrayVec::new();
    put_key(&mut pieces, Key::CreateKey);
    put_shared(&mut pieces, shared);
    put_compact(&mut pieces, select.compact);
    put_key(&mut pieces, Key::QueryKey);
    put(&mut pieces, Piece::Word(*name));
    put_key(&mut pieces, Key::AsKey);
    put_select(&mut pieces, select);
    pieces
}
