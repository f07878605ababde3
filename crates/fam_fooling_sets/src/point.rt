//! The rows of one number.
ghost use Rattle.std.specs.Prelude.{◌≡◌, ◌<◌, ◌≤◌, All, length, slice_index_or, nat_eq, cond, ◌∷◌, ◌++◌, ◌+◌, ◌-◌, [], pos};
ghost use Rattle.sem_query.specs.Meaning.{by_column};
ghost use Rattle.fam_fooling_sets.specs.Members.{cell_for, row_for, blank_at, others_for, asked_for, IsFarWithin, IsGround, IsPoint, HasMember};
ghost use Rattle.fam_fooling_sets.specs.Moving.{IsMotionFor, IsMovedMember};
ghost use Rattle.fam_fooling_sets.specs.Drawing.{drawn_value, IsDrawnMember};
ghost use Rattle.fam_fooling_sets.specs.Shown.{arrivals};

use crate::family::Asked;
use crate::ground::{Ground, solution, value_of};
use crate::motion::{Motion, moved_values};
use fam_motions::value_of as value_at;
use plan_constraints::place_of;
use sem_query::{Attr, Row};

/// A solution of the bounds, and the value of the column in which the rows differ.
#[derive(Drop)]
pub struct Point<'a> {
    pub ground: &'a Ground<'a>,
    pub values: &'a [i128],
    pub value: i128,
}

/// The row of a number, and what asks for it.
#[derive(Drop)]
pub struct Member {
    pub row: Row,
    pub asked: Asked,
}

// The same integer in 64 bits.
fn narrow(value: i128) -> i64
    requires { IsFarWithin value }
    ensures { result ≡ value }
{
    value as i64
}

// The value of a column: that of the column in which the rows differ, of an attribute, or what stands in its place.
fn cell(point: &Point, attr: Attr, blank: i64) -> i64
    requires { IsPoint point.now }
    ensures { result ≡ cell_for point.now.ground.now.attrs.now point.now.values.now point.now.ground.now.named point.now.value attr blank }
{
    if attr == point.ground.named {
        return narrow(point.value);
    }
    let place = place_of(point.ground.attrs, attr);
    if place < point.values.len() {
        narrow(point.values[place])
    } else {
        blank
    }
}

// The value of the column at a place of the row that stands for those at a place of FROM.
fn cell_in(point: &Point, place: u8, blank: &[i64], column: usize) -> i64
    requires point { IsPoint point.now }
    requires column { column < length blank.now }
    requires few { length blank.now ≤ 8 }
    ensures { result ≡ cell_for point.now.ground.now.attrs.now point.now.values.now point.now.ground.now.named point.now.value (record { stream = place; column = column }) (by_column blank.now column) }
{
    let attr = Attr {
        stream: place,
        column: column as u8,
    };
    cell(point, attr, blank[column])
}

// The row at a place of FROM.
fn row_at(point: &Point, place: u8) -> Row
    requires point { IsPoint point.now }
    requires place { place < length point.now.ground.now.blanks.now }
    ensures { result.items ≡ row_for point.now.ground.now.attrs.now point.now.values.now point.now.ground.now.named point.now.value place (blank_at point.now.ground.now.blanks.now place) }
{
    let blank = point.ground.blanks[usize::from(place)].as_slice();
    let mut row = Row::new();
    for column in 0..blank.len() {
        row.push(cell_in(point, place, blank, column));
    }
    row
}

// Adds the row at a place of FROM, with the number of its stream.
fn add_row(point: &Point, place: u8, list: &mut Asked)
    requires point { IsPoint point.now }
    requires many { length point.now.ground.now.from.now ≡ length point.now.ground.now.blanks.now }
    requires place { place < length point.now.ground.now.from.now }
    requires room { length list.old.items < 4 }
    ensures rows { arrivals list.new.items ≡ arrivals list.old.items ++ record { stream = slice_index_or point.now.ground.now.from.now place 0; values = row_for point.now.ground.now.attrs.now point.now.values.now point.now.ground.now.named point.now.value place (blank_at point.now.ground.now.blanks.now place) } ∷ [] }
    ensures more { length list.new.items ≡ length list.old.items + 1 }
{
    list.push((point.ground.from[usize::from(place)], row_at(point, place)));
}

// Adds the same where the place is not the row's own.
fn add_other(point: &Point, own: u8, place: u8, list: &mut Asked)
    requires point { IsPoint point.now }
    requires many { length point.now.ground.now.from.now ≡ length point.now.ground.now.blanks.now }
    requires place { place < length point.now.ground.now.from.now }
    requires room { length list.old.items < 4 }
    ensures rows { arrivals list.new.items ≡ arrivals list.old.items ++ cond (nat_eq place own) [] (record { stream = slice_index_or point.now.ground.now.from.now place 0; values = row_for point.now.ground.now.attrs.now point.now.values.now point.now.ground.now.named point.now.value place (blank_at point.now.ground.now.blanks.now place) } ∷ []) }
    ensures few { length list.new.items ≤ length list.old.items + 1 }
{
    if place == own {
        return;
    }
    add_row(point, place, list);
}

// The rows at all places of FROM but one.
fn others(point: &Point, own: u8) -> Asked
    requires point { IsPoint point.now }
    requires many { length point.now.ground.now.from.now ≡ length point.now.ground.now.blanks.now }
    requires few { length point.now.ground.now.from.now ≤ 4 }
    ensures { arrivals result.items ≡ others_for (λ place. row_for point.now.ground.now.attrs.now point.now.values.now point.now.ground.now.named point.now.value place (blank_at point.now.ground.now.blanks.now place)) point.now.ground.now.from.now own (length point.now.ground.now.from.now) }
{
    let mut list = Asked::new();
    for place in 0..point.ground.from.len() as u8 {
        add_other(point, own, place, &mut list);
    }
    list
}

// The row at a place of FROM alone.
fn alone(point: &Point, own: u8) -> Asked
    requires point { IsPoint point.now }
    requires many { length point.now.ground.now.from.now ≡ length point.now.ground.now.blanks.now }
    requires own { own < length point.now.ground.now.from.now }
    ensures { arrivals result.items ≡ record { stream = slice_index_or point.now.ground.now.from.now own 0; values = row_for point.now.ground.now.attrs.now point.now.values.now point.now.ground.now.named point.now.value own (blank_at point.now.ground.now.blanks.now own) } ∷ [] }
{
    let mut list = Asked::new();
    add_row(point, own, &mut list);
    list
}

// What asks for the row: over one stream the row itself, over several the rows at all other places of FROM.
fn asked_at(point: &Point, own: u8) -> Asked
    requires point { IsPoint point.now }
    requires many { length point.now.ground.now.from.now ≡ length point.now.ground.now.blanks.now }
    requires few { length point.now.ground.now.from.now ≤ 4 }
    requires own { own < length point.now.ground.now.from.now }
    ensures { arrivals result.items ≡ asked_for (λ place. row_for point.now.ground.now.attrs.now point.now.values.now point.now.ground.now.named point.now.value place (blank_at point.now.ground.now.blanks.now place)) point.now.ground.now.from.now own }
{
    if point.ground.from.len() == 1 {
        alone(point, own)
    } else {
        others(point, own)
    }
}

/// Returns the row of a number at a place of FROM, and what asks for it.
pub fn member_of(ground: &Ground, own: u8, number: u16) -> Member
    requires ground { IsGround ground.now }
    requires many { length ground.now.from.now ≡ length ground.now.blanks.now }
    requires few { length ground.now.from.now ≤ 4 }
    requires own { own < length ground.now.from.now }
    ensures { HasMember ground.now own number result.row.items (arrivals result.asked.items) }
{
    let values = solution(ground, number);
    let point = Point {
        ground,
        values: values.as_slice(),
        value: value_of(ground.low, ground.high, number),
    };
    Member {
        row: row_at(&point, own),
        asked: asked_at(&point, own),
    }
}

// The value of the column in which the rows differ, of these values.
fn named_value(ground: &Ground, values: &[i128]) -> i128
    requires node { 0 < ground.now.node }
    requires many { ground.now.node ≤ length values.now }
    ensures { result ≡ slice_index_or values.now (ground.now.node - 1) (pos 0) }
{
    values[usize::from(ground.node) - 1]
}

/// Returns the row of a number at a place of FROM, and what asks for it, with the values of a motion.
pub fn moved_member(ground: &Ground, motion: &Motion, own: u8, number: u16) -> Member
    requires motion { IsMotionFor ground.now own motion.now }
    requires number { number < motion.now.n }
    ensures { IsMovedMember ground.now motion.now own number result.row.items (arrivals result.asked.items) }
{
    let values = moved_values(motion, number);
    let values = values.as_slice();
    let point = Point {
        ground,
        values,
        value: named_value(ground, values),
    };
    Member {
        row: row_at(&point, own),
        asked: asked_at(&point, own),
    }
}

// The value of the column in which the rows differ: that of an attribute, or the number.
fn drawn_value(ground: &Ground, values: &[i128], number: u16) -> i128
    ensures { result ≡ drawn_value ground.now.attrs.now values.now ground.now.named number }
{
    let place = place_of(ground.attrs, ground.named);
    if place < values.len() {
        value_at(ground.attrs, values, ground.named)
    } else {
        i128::from(number)
    }
}

/// Returns the row of a number at a place of FROM, and what asks for it, with these values of the attributes.
pub fn drawn_member(ground: &Ground, values: &[i128], own: u8, number: u16) -> Member
    requires values { length values.now ≡ length ground.now.attrs.now }
    requires far { All IsFarWithin values.now }
    requires many { length ground.now.from.now ≡ length ground.now.blanks.now }
    requires few { length ground.now.from.now ≤ 4 }
    requires own { own < length ground.now.from.now }
    ensures { IsDrawnMember ground.now values.now own number result.row.items (arrivals result.asked.items) }
{
    let point = Point {
        ground,
        values,
        value: drawn_value(ground, values, number),
    };
    Member {
        row: row_at(&point, own),
        asked: asked_at(&point, own),
    }
}
