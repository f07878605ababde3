//! Lines, read without their lists.
//!
//! One pass over the tokens keeps the state that they lead to, and what the statement says apart from its lists. It takes no room
//! for tokens and none for lists, which are large: so a line that is no statement, and one of few tokens, costs little.
ghost use Rattle.std.specs.Prelude.{◌≡◌, ◌≤◌, ◌||◌, length, slice_range, MatchResult};
ghost use Rattle.sql_lexer.specs.Tokens.{tokens_at};
ghost use Rattle.sql_parser.specs.Syntax.{IsFault};
ghost use Rattle.sql_parser.specs.Keeping.{IsCut};
ghost use Rattle.sql_parser.specs.DraftLimits.{is_long_token, is_wide_token};
ghost use Rattle.sql_parser.specs.Outlines as specs;
ghost use Rattle.sql_parser.specs.Outlines.{IsOutline, headed};

use crate::head::Head;
use crate::limits::{is_long, is_wide};
use crate::reading::text_at;
use crate::transitions::{Action, State, transition_of};
use sql_lexer::{Token, next_token};

/// How far a line is read, what it says apart from its lists, whether a word of it is too long for a name, and whether an integer of it
/// has more than 64 bits.
#[derive(Clone, Copy)]
pub struct Outline {
    pub state: State,
    pub head: Head,
    pub long: bool,
    pub wide: bool,
}

impl Outline {
    /// Returns the outline where nothing is read.
    pub fn start() -> Outline
        ensures { result ≡ specs.no_outline }
    {
        Outline {
            state: State::Start,
            head: Head::start(),
            long: false,
            wide: false,
        }
    }

    /// Takes what a token adds.
    pub fn take(&mut self, line: &[u8], token: &Token, to: State, action: Action)
        requires { (token.now.from ≤ token.now.to) × (token.now.to ≤ length line.now) }
        ensures { self.new ≡ specs.outlined line.now token.now to action self.old }
    {
        let wide = is_wide(line, token);
        self.state = to;
        self.head.take(action, text_at(line, token));
        self.long = self.long || is_long(token);
        self.wide = self.wide || wide;
    }
}

/// Returns the first place from one on at which no token begins, or else another place.
pub fn fault_or(line: &[u8], place: u16, at: u16) -> u16
    requires short { length line.now ≤ 1024 }
    requires inside { place ≤ length line.now }
    ensures { result ≡ specs.fault_or (tokens_at line.now place) at }
{
    let mut from = place;
    while usize::from(from) < line.len() {
        match next_token(line, from) {
            Err(fault) => return fault.at,
            Ok(None) => return at,
            Ok(Some(token)) => from = token.to,
        }
    }
    at
}

/// Returns what is read of a line without its lists, or the place at which it is outside the grammar.
pub fn outline_of(line: &[u8]) -> Result<Outline, u16>
    requires { length line.now ≤ 1024 }
    ensures { MatchResult result (λ o. IsOutline line.now o) (λ at. IsFault line.now at) }
{
    let mut outline = Outline::start();
    let mut place = 0;
    while usize::from(place) < line.len() {
        match next_token(line, place) {
            Err(fault) => return Err(fault.at),
            Ok(None) => return Ok(outline),
            Ok(Some(token)) => {
                match transition_of(outline.state, token.kind, text_at(line, &token)) {
                    Some((to, action)) => outline.take(line, &token, to, action),
                    None => return Err(fault_or(line, token.to, token.from)),
                }
                place = token.to;
            }
        }
    }
    Ok(outline)
}
