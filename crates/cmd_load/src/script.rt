//! The lines of a script, one after another.
ghost use Rattle.std.specs.Prelude.{◌≡◌, ◌+◌, ◌∷◌, [], ◌<◌, ◌≤◌, length, drop, MatchOption};
ghost use Rattle.cmd_load.specs.Script.{head_lines, script_lines};

use crate::row::{LoadLine, line_of, next_number, row_line};
use std::marker::Model;

/// The script of a number of rows, as far as its lines are not given yet: four lines that create two streams and two queries, and
/// then the rows. A clause sees it as the lines that are left.
#[derive(Drop)]
pub struct LoadScript {
    /// How many of the lines before the rows were given.
    heads: usize,
    /// How many rows there are in all.
    rows: u32,
    /// How many rows were given.
    given: u32,
    /// The number that made the row given last, and 1 before the first.
    number: u64,
}

impl Model for LoadScript {
    ghost use Rattle.std.specs.Prelude.{◌≡◌, ℕ, ◌+◌, ◌-◌, ◌≤◌, List, ◌++◌, drop};
    ghost use Rattle.cmd_load.specs.Script.{number_at, head_lines, rows_from};

    ghost Value = { List (List ℕ) };

    ghost view = { λ s. drop s.heads head_lines ++ rows_from (s.given + 1) (s.rows - s.given) };

    ghost invariant = { λ s. (s.heads ≤ 4) × (s.given ≤ s.rows) × (s.number ≡ number_at s.given) };
}

// The line before the rows at this place.
#[tactic(auto, unfolding(crate::specs::Script::head_lines))]
fn head_line(place: usize) -> &'static [u8]
    requires { place < 4 }
    ensures line { drop place head_lines ≡ result.now ∷ drop (place + 1) head_lines }
    ensures short { length result.now ≤ 128 }
{
    match place {
        0 => b"CREATE STREAM S (a, b)",
        1 => b"CREATE STREAM T (c)",
        2 => b"CREATE QUERY g AS SELECT S.a FROM S, T WHERE S.a = T.c AND S.a > 0 AND S.a < 1001",
        _ =>
            b"CREATE QUERY h AS SELECT DISTINCT S.a FROM S, T WHERE S.b < T.c AND S.a > 10 AND S.a < 12",
    }
}

impl LoadScript {
    /// Returns the script of this many rows, of which no line was given.
    #[tactic(auto, using(crate::proofs::Left::length_script))]
    pub fn new(rows: u32) -> LoadScript
        ensures lines { result ≡ script_lines rows }
        ensures len { length result ≡ rows + 4 }
    {
        LoadScript {
            heads: 0,
            rows,
            given: 0,
            number: 1,
        }
    }

    /// Returns the next line, without its LF; None, and for good, where every line was given.
    #[tactic(auto, using(crate::proofs::Left::none_left, crate::proofs::Left::row_left))]
    pub fn next(&mut self) -> Option<LoadLine>
        ensures { MatchOption result ((self.old ≡ []) × (self.new ≡ [])) (λ line. self.old ≡ line.items ∷ self.new) }
    {
        if self.heads < 4 {
            let line = line_of(head_line(self.heads));
            self.heads += 1;
            return Some(line);
        }
        if self.given == self.rows {
            return None;
        }
        self.number = next_number(self.number);
        self.given += 1;
        Some(row_line(self.number))
    }
}
