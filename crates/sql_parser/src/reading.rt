//! The parts of a statement, read from its tokens.
//!
//! One pass over the tokens keeps the outline of the line, and a draft of the statement. Whether a statement may end in the state that
//! they lead to, and whether it is within its limits, is asked behind the last token.
ghost use Rattle.std.specs.Prelude.{◌≡◌, ◌≤◌, length, slice_range, MatchResult};
ghost use Rattle.sql_parser.specs.Syntax.{IsFault};
ghost use Rattle.sql_parser.specs.Reading.{no_parts};
ghost use Rattle.sql_parser.specs.Keeping.{kept_parts};
ghost use Rattle.sql_parser.specs.Outlines.{IsDraft};

use crate::draft::Draft;
use crate::outline::{Outline, fault_or};
use crate::transitions::transition_of;
use sql_lexer::{Token, next_token};

/// Returns the bytes of a token.
pub fn text_at<'a>(line: &'a [u8], token: &Token) -> &'a [u8]
    requires { (token.now.from ≤ token.now.to) × (token.now.to ≤ length line.now) }
    ensures { result.now ≡ slice_range line.now token.now.from token.now.to }
{
    &line[token.from as usize..token.to as usize]
}

/// Keeps in a draft, where nothing is read, what a line says; and returns the outline of the line, or the place at which it is outside the
/// grammar.
pub fn read_draft(line: &[u8], draft: &mut Draft) -> Result<Outline, u16>
    requires short { length line.now ≤ 1024 }
    requires none { draft.old ≡ kept_parts no_parts }
    ensures { MatchResult result (λ o. IsDraft line.now o draft.new) (λ at. IsFault line.now at) }
{
    let mut outline = Outline::start();
    let mut place = 0;
    while usize::from(place) < line.len() {
        match next_token(line, place) {
            Err(fault) => return Err(fault.at),
            Ok(None) => return Ok(outline),
            Ok(Some(token)) => {
                match transition_of(outline.state, token.kind, text_at(line, &token)) {
                    Some((to, action)) => {
                        draft.take(action, text_at(line, &token));
                        outline.take(line, &token, to, action);
                    }
                    None => return Err(fault_or(line, token.to, token.from)),
                }
                place = token.to;
            }
        }
    }
    Ok(outline)
}
