//! The limits of a statement, in their order.
ghost use Rattle.std.specs.Prelude.{◌≡◌, ◌≤◌, ◌<◌, ◌+◌, ◌++◌, length};
ghost use Rattle.std.specs.List.{list_any};
ghost use Rattle.std.specs.Ordering.{int_eq};
ghost use Rattle.sql_parser.specs.Limits as limits;
ghost use Rattle.sql_parser.specs.Limits.{soft_in, column_in, columns_in, integer_in, integers_in, number_of_different, is_reversed};
ghost use Rattle.sql_parser.specs.DraftLimits.{is_long_token, is_wide_token, ends_in, limit_in_atoms, limit_in_columns, limit_in_values, limit_in_lock, limit_by, limit_with};

use crate::draft::{Draft, Form};
use crate::parsing::What;
use crate::tree::{AtomAst, ColumnAst, OperandAst};
use arrayvec::ArrayVec;
use sql_catalog::ColumnDef;
use sql_lexer::{Token, TokenKind};
use sql_text::Name;

/// The greatest integer that a statement may name; the least one is its negative.
const FARTHEST: i64 = 999_999_999_999_999;

/// The most atoms of a statement that may be soft.
const MOST_SOFT: usize = 8;

/// The most columns that the atoms of a statement may name.
const MOST_ATTRS: usize = 12;

/// The most integers that the atoms of a statement may name.
const MOST_CONSTS: usize = 6;

/// Returns whether the token is a word that is too long for a name.
pub fn is_long(token: &Token) -> bool
    ensures { result ≡ is_long_token token.now }
{
    match token.kind {
        TokenKind::Word => usize::from(token.from) + Name::MOST_BYTES < usize::from(token.to),
        _ => false,
    }
}

/// Returns whether the token is an integer of more than 64 bits.
pub fn is_wide(line: &[u8], token: &Token) -> bool
    requires { (token.now.from ≤ token.now.to) × (token.now.to ≤ length line.now) }
    ensures { result ≡ is_wide_token line.now token.now }
{
    match token.kind {
        TokenKind::Integer => {
            sql_text::read_i64(&line[usize::from(token.from)..usize::from(token.to)]).is_none()
        }
        _ => false,
    }
}

// Whether an integer lies outside the range of those that may be written.
fn is_far(integer: i64) -> bool
    ensures { result ≡ limits.is_far integer }
{
    integer < -FARTHEST || FARTHEST < integer
}

// Whether an integer is too far.
fn has_far(integers: &[i64]) -> bool
    ensures { result ≡ list_any limits.is_far integers.now }
{
    integers.iter().any(|integer| is_far(*integer))
}

// Whether two columns have the same names.
fn same_column(a: &ColumnAst, b: &ColumnAst) -> bool
    ensures { result ≡ limits.same_column a.now b.now }
{
    a.stream == b.stream && a.column == b.column
}

// Whether a column stands among others.
fn is_among(column: &ColumnAst, others: &[ColumnAst]) -> bool
    ensures { result ≡ list_any (limits.same_column column.now) others.now }
{
    others.iter().any(|other| same_column(column, other))
}

// How many different columns there are.
fn different_columns(columns: &[ColumnAst]) -> usize
    ensures { result ≡ number_of_different limits.same_column columns.now }
{
    let mut count = 0;
    let mut rest = columns;
    'counting: while let [column, others @ ..] = rest {
        if !is_among(column, others) {
            count += 1;
        }
        rest = others;
    }
    count
}

// Whether an integer stands among others.
fn holds_integer(integer: i64, others: &[i64]) -> bool
    ensures { result ≡ list_any (int_eq integer) others.now }
{
    others.iter().any(|other| integer == *other)
}

// How many different integers there are.
fn different_integers(integers: &[i64]) -> usize
    ensures { result ≡ number_of_different int_eq integers.now }
{
    let mut count = 0;
    let mut rest = integers;
    'counting: while let [integer, others @ ..] = rest {
        if !holds_integer(*integer, others) {
            count += 1;
        }
        rest = others;
    }
    count
}

// How many atoms are soft.
fn soft_comparisons(atoms: &[AtomAst]) -> usize
    ensures { result ≡ length (soft_in atoms.now) }
{
    atoms.iter().filter(|atom| atom.op.is_soft()).count()
}

// Adds the column that a side of an atom is.
fn put_column(columns: &mut ArrayVec<ColumnAst, 32>, operand: OperandAst)
    requires { length columns.old.items < 32 }
    ensures items { columns.new.items ≡ columns.old.items ++ column_in operand }
    ensures short { length columns.new.items ≤ length columns.old.items + 1 }
{
    match operand {
        OperandAst::Column(column) => columns.push(column),
        OperandAst::Integer(_) => {}
    }
}

// Adds the integer that a side of an atom is.
fn put_integer(integers: &mut ArrayVec<i64, 32>, operand: OperandAst)
    requires { length integers.old.items < 32 }
    ensures items { integers.new.items ≡ integers.old.items ++ integer_in operand }
    ensures short { length integers.new.items ≤ length integers.old.items + 1 }
{
    match operand {
        OperandAst::Column(_) => {}
        OperandAst::Integer(integer) => integers.push(integer),
    }
}

/// Returns the columns that atoms name.
pub fn columns_named(atoms: &[AtomAst]) -> ArrayVec<ColumnAst, 32>
    requires { length atoms.now ≤ 16 }
    ensures { result.items ≡ columns_in atoms.now }
{
    let mut columns = ArrayVec::new();
    for atom in atoms {
        put_column(&mut columns, atom.left);
        put_column(&mut columns, atom.right);
    }
    columns
}

// The integers that atoms name.
fn integers_named(atoms: &[AtomAst]) -> ArrayVec<i64, 32>
    requires { length atoms.now ≤ 16 }
    ensures { result.items ≡ integers_in atoms.now }
{
    let mut integers = ArrayVec::new();
    for atom in atoms {
        put_integer(&mut integers, atom.left);
        put_integer(&mut integers, atom.right);
    }
    integers
}

// The first limit that the atoms pass, where there are not too many of them.
fn atoms_limit(atoms: &[AtomAst]) -> Option<What>
    requires { length atoms.now ≤ 16 }
    ensures { result ≡ limit_in_atoms atoms.now }
{
    if MOST_SOFT < soft_comparisons(atoms) {
        return Some(What::Soft);
    }
    let columns = columns_named(atoms);
    if MOST_ATTRS < different_columns(columns.as_slice()) {
        return Some(What::Attrs);
    }
    let integers = integers_named(atoms);
    if has_far(integers.as_slice()) {
        return Some(What::Value);
    }
    if MOST_CONSTS < different_integers(integers.as_slice()) {
        return Some(What::Consts);
    }
    None
}

// Whether an end of a domain is too far.
fn has_far_end(domain: Option<(i64, i64)>) -> bool
    ensures { result ≡ list_any limits.is_far (ends_in domain) }
{
    match domain {
        Some((lo, hi)) => is_far(lo) || is_far(hi),
        None => false,
    }
}

// Whether the first integer of a domain is greater than the second.
fn is_reversed_domain(domain: Option<(i64, i64)>) -> bool
    ensures { result ≡ is_reversed domain }
{
    match domain {
        Some((lo, hi)) => hi < lo,
        None => false,
    }
}

// Whether an end of the domain of a column is too far.
fn has_far_ends(columns: &[ColumnDef]) -> bool
    ensures { result ≡ list_any (λ c. list_any limits.is_far (ends_in c.domain)) columns.now }
{
    columns.iter().any(|column| has_far_end(column.domain))
}

// Whether the domain of a column is reversed.
fn has_reversed(columns: &[ColumnDef]) -> bool
    ensures { result ≡ list_any (λ c. is_reversed c.domain) columns.now }
{
    columns
        .iter()
        .any(|column| is_reversed_domain(column.domain))
}

// The first limit that the columns of a stream pass, where there are not too many of them.
fn columns_limit(columns: &[ColumnDef]) -> Option<What>
    ensures { result ≡ limit_in_columns columns.now }
{
    if has_far_ends(columns) {
        Some(What::Value)
    } else if has_reversed(columns) {
        Some(What::Domain)
    } else {
        None
    }
}

// The first limit that the integers of a line of a checkpoint pass, of which one has more than 64 bits or none, and which are too many
// or not.
fn values_limit(wide: bool, over: bool) -> Option<What>
    ensures { result ≡ limit_in_values wide over }
{
    if wide {
        Some(What::Value)
    } else if over {
        Some(What::Tuple)
    } else {
        None
    }
}

// The first limit that the integer and the streams of a lock pass, which are too many or not.
fn lock_limit(wide: bool, over: bool) -> Option<What>
    ensures { result ≡ limit_in_lock wide over }
{
    if wide {
        Some(What::Value)
    } else if over {
        Some(What::Streams)
    } else {
        None
    }
}

// The first limit that the lists of a statement pass, by whether an integer of its line has more than 64 bits.
fn lists_limit(wide: bool, draft: &Draft) -> Option<What>
    ensures { result ≡ limit_by wide draft.now.form draft.now }
{
    match draft.form {
        Form::Stream => {
            if draft.columns.over {
                Some(What::Columns)
            } else {
                columns_limit(draft.columns.list.as_slice())
            }
        }
        Form::Query => {
            if draft.select.over {
                Some(What::Select)
            } else if draft.from.over {
                Some(What::From)
            } else if draft.atoms.over {
                Some(What::Atoms)
            } else {
                atoms_limit(draft.atoms.list.as_slice())
            }
        }
        Form::Explain | Form::Drop | Form::Checkpoint => None,
        Form::Rows | Form::Given | Form::Cell | Form::Unlock => values_limit(wide, false),
        Form::Tuple => values_limit(wide, draft.values.over),
        Form::Lock => lock_limit(wide, draft.lock_streams.over),
    }
}

/// Returns the first limit that a statement passes, by whether a word of its line is too long for a name, whether an integer there has
/// more than 64 bits, and what is kept of it.
pub fn limit_passed(long: bool, wide: bool, draft: &Draft) -> Option<What>
    ensures { result ≡ limit_with long wide draft.now }
{
    if long {
        return Some(What::Name);
    }
    lists_limit(wide, draft)
}
