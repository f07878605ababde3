//! What a line of a script creates.
ghost use Rattle.std.specs.Prelude.{◌≡◌, ◌≤◌, None, List, length};
ghost use Rattle.sql_lexer.specs.Tokens.{tokens};
ghost use Rattle.sql_catalog.specs.Streams.{Shape};
ghost use Rattle.sql_parser.specs.Grammar.{IsWhole};
ghost use Rattle.sql_parser.specs.Limits.{limit_of};
ghost use Rattle.sql_parser.specs.Refusal.{IsRefusal};
ghost use Rattle.sql_script.specs.Script.{IsScriptStatement, SaysNothing, statement_line, refused};
ghost use Rattle.sql_script.specs.Creations.{Takes, TakesText, TakesLine, begin_with_create};

use sem_query::Query;
use sql_catalog::Catalog;
use sql_lexer::{Key, TokenKind, lex};
use sql_parser::{LineKind, ParseError, Statement, classify, parse, resolve};
use sql_replies::{Refusal, parse_refusal, resolve_refusal, stream_refusal};

/// A query, and the statement that asks for it.
#[derive(Drop)]
pub struct Asked {
    pub statement: Statement,
    pub query: Query,
}

/// What a line creates.
#[derive(Drop)]
pub enum Creation {
    /// A stream, which is in the catalog now.
    Stream,
    /// The query.
    Query(Asked),
}

// Whether a text begins with CREATE.
fn begins_with_create(text: &[u8]) -> bool
    requires { length text.now ≤ 1024 }
    ensures { result ≡ begin_with_create (tokens text.now) }
{
    match lex(text) {
        Ok(tokens) => match tokens.first() {
            Some(token) => token.kind == TokenKind::Reserved(Key::CreateKey),
            None => false,
        },
        Err(_) => false,
    }
}

// Why a text is refused that is no statement within the limits. One that creates nothing has no place, whether or not it passes a
// limit.
fn refusal_of(text: &[u8], error: ParseError) -> Refusal
    requires short { length text.now ≤ 1024 }
    requires refusal { IsRefusal text.now error }
    ensures { (streams : List Shape) → IsScriptStatement streams text.now (refused result) }
{
    if begins_with_create(text) {
        parse_refusal(error)
    } else {
        Refusal::Syntax
    }
}

// Creates what a statement asks for.
fn take_statement(catalog: &mut Catalog, statement: Statement) -> Result<Creation, Refusal>
    requires whole { IsWhole statement }
    requires within { limit_of statement ≡ None }
    ensures { Takes result catalog.old (statement_line catalog.old statement) catalog.new }
{
    match statement {
        Statement::CreateStream { name, columns } => {
            match catalog.add_stream(name, columns.as_slice()) {
                Ok(_) => Ok(Creation::Stream),
                Err(error) => Err(stream_refusal(error)),
            }
        }
        Statement::CreateQuery {
            name,
            select,
            shared,
        } => match resolve(&select, catalog) {
            Ok(query) => {
                let statement = Statement::CreateQuery {
                    name,
                    select,
                    shared,
                };
                Ok(Creation::Query(Asked { statement, query }))
            }
            Err(error) => Err(resolve_refusal(error)),
        },
        Statement::Explain { .. }
        | Statement::DropQuery { .. }
        | Statement::Checkpoint
        | Statement::ResumeRows { .. }
        | Statement::ResumeGiven { .. }
        | Statement::ResumeCell { .. }
        | Statement::ResumeTuple { .. }
        | Statement::Lock { .. }
        | Statement::Unlock { .. } => Err(Refusal::Syntax),
    }
}

// Creates what a text asks for that is read as a statement.
fn take_text(catalog: &mut Catalog, text: &[u8]) -> Result<Creation, Refusal>
    requires { length text.now ≤ 1024 }
    ensures { TakesText result catalog.old text.now catalog.new }
{
    match parse(text) {
        Ok(statement) => take_statement(catalog, statement),
        Err(error) => Err(refusal_of(text, error)),
    }
}

/// Creates what a line asks for that says something: a stream, which is added to the catalog, or the query; or gives the word that
/// refuses it, and leaves the catalog as it was.
pub fn take_line(catalog: &mut Catalog, line: &[u8]) -> Result<Creation, Refusal>
    requires short { length line.now ≤ 1024 }
    requires loud { ¬ (SaysNothing line.now) }
    ensures { TakesLine result catalog.old line.now catalog.new }
{
    let (kind, text) = classify(line);
    match kind {
        LineKind::StatementLine => take_text(catalog, text),
        LineKind::RowLine | LineKind::Nothing => Err(Refusal::Syntax),
    }
}
