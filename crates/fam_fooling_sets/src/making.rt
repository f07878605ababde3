//! The rows of all numbers.
ghost use Rattle.std.specs.Prelude.{◌≡◌, ◌<◌, ◌≤◌, [], length};
ghost use Rattle.fam_fooling_sets.specs.Members.{IsGround, AddsMember, Fills};
ghost use Rattle.fam_fooling_sets.specs.Moving.{IsMotionFor, AddsMoved, FillsMoved};
ghost use Rattle.fam_fooling_sets.specs.Shown.{rows_in, asking_in};

use crate::error::LowerError;
use crate::family::Asked;
use crate::ground::Ground;
use crate::motion::Motion;
use crate::point::{Member, member_of, moved_member};
use sem_query::Row;

// Adds the row of a number, and what asks for it.
fn add(
    ground: &Ground,
    own: u8,
    number: u16,
    m: &mut Vec<Row>,
    g: &mut Vec<Asked>,
) -> Result<(), LowerError>
    requires ground { IsGround ground.now }
    requires many { length ground.now.from.now ≡ length ground.now.blanks.now }
    requires few { length ground.now.from.now ≤ 4 }
    requires own { own < length ground.now.from.now }
    ensures { AddsMember result ground.now own number m.old.items g.old.items m.new.items g.new.items }
{
    let Member { row, asked } = member_of(ground, own, number);
    match m.push(row) {
        Ok(()) => match g.push(asked) {
            Ok(()) => Ok(()),
            Err(_) => Err(LowerError::Memory),
        },
        Err(_) => Err(LowerError::Memory),
    }
}

/// Adds the rows of so many numbers, from 0, and what asks for each.
pub fn fill(
    ground: &Ground,
    own: u8,
    n: u16,
    m: &mut Vec<Row>,
    g: &mut Vec<Asked>,
) -> Result<(), LowerError>
    requires ground { IsGround ground.now }
    requires many { length ground.now.from.now ≡ length ground.now.blanks.now }
    requires few { length ground.now.from.now ≤ 4 }
    requires own { own < length ground.now.from.now }
    requires no_rows { m.old.items ≡ [] }
    requires no_asked { g.old.items ≡ [] }
    ensures { Fills result ground.now own n (rows_in m.new.items) (asking_in g.new.items) }
{
    for number in 0..n {
        match add(ground, own, number, m, g) {
            Ok(()) => {}
            Err(error) => return Err(error),
        }
    }
    Ok(())
}

// Adds the row of a number with the values of a motion, and what asks for it.
fn add_moved(
    ground: &Ground,
    motion: &Motion,
    own: u8,
    number: u16,
    m: &mut Vec<Row>,
    g: &mut Vec<Asked>,
) -> Result<(), LowerError>
    requires motion { IsMotionFor ground.now own motion.now }
    requires number { number < motion.now.n }
    ensures { AddsMoved result ground.now motion.now own number m.old.items g.old.items m.new.items g.new.items }
{
    let Member { row, asked } = moved_member(ground, motion, own, number);
    match m.push(row) {
        Ok(()) => match g.push(asked) {
            Ok(()) => Ok(()),
            Err(_) => Err(LowerError::Memory),
        },
        Err(_) => Err(LowerError::Memory),
    }
}

/// Adds the rows of all numbers of a motion, from 0, and what asks for each.
pub fn fill_moved(
    ground: &Ground,
    motion: &Motion,
    own: u8,
    m: &mut Vec<Row>,
    g: &mut Vec<Asked>,
) -> Result<(), LowerError>
    requires motion { IsMotionFor ground.now own motion.now }
    requires no_rows { m.old.items ≡ [] }
    requires no_asked { g.old.items ≡ [] }
    ensures { FillsMoved result ground.now motion.now own motion.now.n (rows_in m.new.items) (asking_in g.new.items) }
{
    for number in 0..motion.n {
        match add_moved(ground, motion, own, number, m, g) {
            Ok(()) => {}
            Err(error) => return Err(error),
        }
    }
    Ok(())
}
