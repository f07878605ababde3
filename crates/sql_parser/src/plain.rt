//! Statements without lists.
ghost use Rattle.std.specs.Prelude.{◌≡◌, ◌≤◌, length};
ghost use Rattle.sql_parser.specs.Outlines as specs;
ghost use Rattle.sql_parser.specs.Outlines.{IsReading, whole_of};

use crate::draft::Form;
use crate::outline::{Outline, outline_of};
use crate::parsing::{ParseError, What, is_end};
use crate::tree::Statement;
use sql_text::Name;

/// A statement that has no list: it names a query, integers or nothing.
#[derive(Clone, Copy)]
pub enum PlainStatement {
    Explain {
        name: Name,
    },
    DropQuery {
        name: Name,
    },
    Checkpoint,
    ResumeRows {
        rows: i64,
    },
    ResumeGiven {
        name: Name,
        rows: i64,
    },
    ResumeCell {
        name: Name,
        index: i64,
        content: i64,
    },
    Unlock {
        key: i64,
    },
}

/// What a line is that is read without its lists: a statement that has none, or one that has and is not read yet, or neither.
#[derive(Clone, Copy)]
pub enum PlainReading {
    Plain(PlainStatement),
    Listed,
    Refused(ParseError),
}

impl PlainStatement {
    /// Returns the statement.
    pub fn whole(&self) -> Statement
        ensures { result ≡ whole_of self.now }
    {
        match self {
            PlainStatement::Explain { name } => Statement::Explain { name: *name },
            PlainStatement::DropQuery { name } => Statement::DropQuery { name: *name },
            PlainStatement::Checkpoint => Statement::Checkpoint,
            PlainStatement::ResumeRows { rows } => Statement::ResumeRows { rows: *rows },
            PlainStatement::ResumeGiven { name, rows } => Statement::ResumeGiven {
                name: *name,
                rows: *rows,
            },
            PlainStatement::ResumeCell {
                name,
                index,
                content,
            } => Statement::ResumeCell {
                name: *name,
                index: *index,
                content: *content,
            },
            PlainStatement::Unlock { key } => Statement::Unlock { key: *key },
        }
    }
}

// A statement whose integers all have 64 bits, or none.
fn unless_wide(wide: bool, statement: PlainStatement) -> PlainReading
    ensures { result ≡ specs.unless_wide wide statement }
{
    if wide {
        PlainReading::Refused(ParseError::Limit { what: What::Value })
    } else {
        PlainReading::Plain(statement)
    }
}

// What a line is within the grammar, by its outline.
fn reading_in(outline: &Outline) -> PlainReading
    ensures { result ≡ specs.reading_in outline.now }
{
    if outline.long {
        return PlainReading::Refused(ParseError::Limit { what: What::Name });
    }
    let head = outline.head;
    let (name, index, count) = (head.name, head.index, head.count);
    match head.form {
        Form::Explain => PlainReading::Plain(PlainStatement::Explain { name }),
        Form::Drop => PlainReading::Plain(PlainStatement::DropQuery { name }),
        Form::Checkpoint => PlainReading::Plain(PlainStatement::Checkpoint),
        Form::Rows => unless_wide(outline.wide, PlainStatement::ResumeRows { rows: count }),
        Form::Given => unless_wide(
            outline.wide,
            PlainStatement::ResumeGiven { name, rows: count },
        ),
        Form::Cell => unless_wide(
            outline.wide,
            PlainStatement::ResumeCell {
                name,
                index,
                content: count,
            },
        ),
        Form::Unlock => unless_wide(outline.wide, PlainStatement::Unlock { key: count }),
        Form::Stream => PlainReading::Listed,
        Form::Query => PlainReading::Listed,
        Form::Tuple => PlainReading::Listed,
        Form::Lock => PlainReading::Listed,
    }
}

/// Returns what a line is, read without its lists: the statement, where it has none and is within its limits; why it is refused; or
/// that it is within the grammar and has lists, where nothing is said of limits.
pub fn parse_plain(line: &[u8]) -> PlainReading
    requires { length line.now ≤ 1024 }
    ensures { IsReading line.now result }
{
    match outline_of(line) {
        Err(at) => PlainReading::Refused(ParseError::Syntax { at }),
        Ok(outline) => {
            if is_end(outline.state) {
                reading_in(&outline)
            } else {
                PlainReading::Refused(ParseError::Syntax {
                    at: line.len() as u16,
                })
            }
        }
    }
}
