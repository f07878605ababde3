//! Parts over two streams in which columns of a row tell the one cell of the other stream that can answer with it, listed when a part is
//! prepared: such a row is answered by one look-up, and no walk is made.
ghost use Rattle.std.specs.Prelude.{◌≡◌, not, ◌+◌, ◌-◌, ◌<◌, ◌≤◌, ◌^◌, ℕ, ℤ, length, map, Option, Some, slice_get, IfSome, MatchOption, true, false};
ghost use Rattle.std.specs.List.{list_all};
ghost use Rattle.sem_query.specs.Boxes.{box_size};
ghost use Rattle.sem_query.specs.Admission.{alone, in_range, keeps_signs, keeps_local};
ghost use Rattle.sem_query.specs.Cells.{row_place};
ghost use Rattle.sem_query.specs.Meaning.{by_column};
ghost use Rattle.sem_query.specs.Parts.{is_within};
ghost use Rattle.sem_query.specs.Plan.{dims_at};
ghost use Rattle.exec_synopsis.specs.Axes.{AreAxes};
ghost use Rattle.exec_synopsis.specs.Joining.{key_dim, column_at, or_none, told_column, same_column, is_told, class_at, asks_none, IsJoinLookup};
ghost use Rattle.exec_synopsis.specs.Keeping.{keeps_part};
ghost use Rattle.exec_synopsis.specs.Preparing.{AreTests, AreAsked, asks_nothing, ask_nothing};

use crate::admission::stream_at;
use crate::axes::{Axis, are_numbered, place_among, put_axes};
use crate::key_columns::{KeyColumn, key_columns_at};
use arrayvec::ArrayVec;
use sem_query::{Attr, Dim, Link, LocalCondition, Pair, PartPlan, Sign, is_within};

/// How a row finds the one cell of the other stream that can answer with it: the ranges of the dims there, each of the column of the row that
/// fixes the dim, also as a row is asked of them; for the first eight columns there the column of the row that has the same value in
/// all answers, where there is one; the first cell of the box; its place of FROM; and whether a row that lies in the ranges of the dims of its own
/// place is admitted.
#[derive(Drop, Default)]
pub struct JoinLookup {
    dims: ArrayVec<Dim, 2>,
    axes: ArrayVec<Axis, 4>,
    told: ArrayVec<Option<u8>, 8>,
    base: u32,
    place: u8,
    signed: bool,
}

impl JoinLookup {
    /// Returns whether a row that lies in the ranges of the dims of its own place is admitted.
    pub fn is_signed(&self) -> bool
        ensures { result ≡ self.now.signed }
    {
        self.signed
    }

    /// Returns the number of the cell that can answer with a row, where the row's columns lie in the ranges of the dims.
    pub fn cell_of(&self, row: &[i64]) -> Option<u32>
        requires axes { AreAxes self.now.dims.items self.now.axes.items }
        requires few { self.now.base + box_size self.now.dims.items < 2 ^ 32 }
        ensures { MatchOption result (list_all (in_range (by_column row.now)) self.now.dims.items ≡ false) (λ number. (list_all (in_range (by_column row.now)) self.now.dims.items ≡ true) × (number ≡ self.now.base + row_place self.now.dims.items (by_column row.now)) × (row_place self.now.dims.items (by_column row.now) < box_size self.now.dims.items)) }
    {
        match place_among(self.dims.as_slice(), self.axes.as_slice(), row) {
            Some(place) => Some(self.base + place),
            None => None,
        }
    }

    /// Returns the column of the arriving row that has the value of a column in all answers, where it is listed.
    pub fn column_of(&self, arriving: u8, a: Attr) -> Option<u8>
        ensures { result ≡ told_column self.now.told.items self.now.place arriving a }
    {
        told_column(self.told.as_slice(), self.place, arriving, a)
    }
}

// What is listed of a column of the other stream.
fn listed_column(told: &[Option<u8>], column: u8) -> Option<u8>
    ensures { result ≡ or_none (slice_get told.now column) }
{
    match told.get(usize::from(column)) {
        Some(listed) => *listed,
        None => None,
    }
}

// The column of the arriving row that has the value of a column in all answers, where it is told.
fn told_column(told: &[Option<u8>], place: u8, arriving: u8, a: Attr) -> Option<u8>
    ensures { result ≡ told_column told.now place arriving a }
{
    if a.stream == arriving {
        Some(a.column)
    } else if a.stream == place {
        listed_column(told, a.column)
    } else {
        None
    }
}

// Whether two columns are told, and are the same.
fn same_column(left: Option<u8>, right: Option<u8>) -> bool
    ensures { result ≡ same_column left right }
{
    match left {
        Some(m) => match right {
            Some(n) => m == n,
            None => false,
        },
        None => false,
    }
}

// Whether one column of the arriving row has the values of both sides of a link.
fn is_told(told: &[Option<u8>], place: u8, arriving: u8, link: Link) -> bool
    ensures { result ≡ is_told told.now place arriving link }
{
    same_column(
        told_column(told, place, arriving, link.left),
        told_column(told, place, arriving, link.right),
    )
}

// Whether that is so for all links.
fn are_told(told: &[Option<u8>], place: u8, arriving: u8, links: &[Link]) -> bool
    ensures { result ≡ list_all (is_told told.now place arriving) links.now }
{
    links
        .iter()
        .all(|link| is_told(told, place, arriving, *link))
}

// The column of the arriving row that fixes the dim of a class.
fn column_at(keys: &[KeyColumn], class: Option<u8>) -> Option<u8>
    ensures { result ≡ column_at keys.now class }
{
    match class {
        Some(k) => match keys.get(usize::from(k)) {
            Some(key) => Some(key.column.column),
            None => None,
        },
        None => None,
    }
}

// For columns of the stream at a place, of which these are the classes, the columns of the arriving row that have their values.
fn told_at(
    pairs: &[Pair],
    part: &PartPlan,
    place: u8,
    keys: &[KeyColumn],
    classes: &[Option<u8>],
) -> ArrayVec<Option<u8>, 8>
    requires few { length classes.now ≤ 8 }
    requires classes { (column : ℕ) (class : Option ℕ) → slice_get classes.now column ≡ Some class → class ≡ class_at pairs.now part.now place column }
    ensures { (column c : ℕ) → slice_get result.items column ≡ Some (Some c) → column_at keys.now (class_at pairs.now part.now place column) ≡ Some c }
{
    // Named for the proof alone: the contract speaks of them.
    let (_pairs, _part, _place) = (pairs, part, place);
    let mut told: ArrayVec<Option<u8>, 8> = ArrayVec::new();
    'classes: for class in classes {
        told.push(column_at(keys, *class));
    }
    told
}

// The range of a dim, of the column that fixes the dim.
fn key_dim(key: KeyColumn) -> Dim
    ensures { result ≡ key_dim key }
{
    Dim {
        attr: key.column,
        lo: key.dim.lo,
        hi: key.dim.hi,
    }
}

// The ranges of the dims, each of the column that fixes the dim.
fn key_dims(keys: &[KeyColumn]) -> ArrayVec<Dim, 2>
    requires { length keys.now ≤ 2 }
    ensures { result.items ≡ map key_dim keys.now }
{
    let mut dims: ArrayVec<Dim, 2> = ArrayVec::new();
    'keys: for key in keys {
        dims.push(key_dim(*key));
    }
    dims
}

// Whether nothing is asked of a row at a place by the pair and the sign of a number: both are there, and the pair is of no such row.
fn asks_nothing(place: u8, pair: Option<Pair>, sign: Option<Sign>) -> bool
    ensures { result ≡ asks_nothing place pair sign }
{
    match pair {
        Some(pair) => match sign {
            Some(_) => !is_within(usize::from(place), pair),
            None => false,
        },
        None => false,
    }
}

// Whether that is so for the pair of a number.
fn test_asks_nothing(place: u8, pairs: &[Pair], signs: &[Sign], i: u8) -> bool
    ensures { result ≡ asks_nothing place (slice_get pairs.now i) (slice_get signs.now i) }
{
    let i = usize::from(i);
    asks_nothing(place, pairs.get(i).copied(), signs.get(i).copied())
}

// Whether that is so for all pairs of these numbers.
fn ask_nothing(place: u8, pairs: &[Pair], signs: &[Sign], tests: &[u8]) -> bool
    ensures { result ≡ ask_nothing place pairs.now signs.now tests.now }
{
    tests
        .iter()
        .all(|i| test_asks_nothing(place, pairs, signs, *i))
}

// Whether a row that lies in the ranges of the dims of a place has all signs of the part.
fn has_signs(pairs: &[Pair], part: &PartPlan, place: u8, tests: &[u8]) -> bool
    requires { AreTests pairs.now part.now tests.now }
    ensures { result ≡ true → (v : ℕ → ℤ) → list_all (in_range v) (dims_at part.now place) ≡ true → keeps_signs place (alone v) pairs.now part.now.signs.items ≡ true }
{
    ask_nothing(place, pairs, part.signs.as_slice(), tests)
}

// Whether no condition is of the stream at a place.
fn asks_none(place: u8, conditions: &[LocalCondition]) -> bool
    ensures { result ≡ asks_none place conditions.now }
{
    conditions
        .iter()
        .all(|condition| is_beside(place, *condition))
}

// Whether a condition is not of the stream at a place.
fn is_beside(place: u8, condition: LocalCondition) -> bool
    ensures { result ≡ not (is_within place condition.left condition.right) }
{
    let (left, right) = (condition.left, condition.right);
    !is_within(usize::from(place), Pair { left, right })
}

// Whether a row that lies in the ranges of the dims of a place stands as else it is asked.
fn meets_all(part: &PartPlan, place: u8, asked: &[LocalCondition]) -> bool
    requires { AreAsked part.now asked.now }
    ensures { result ≡ true → (v : ℕ → ℤ) → list_all (in_range v) (dims_at part.now place) ≡ true → keeps_local place (alone v) part.now.local ≡ true }
{
    asks_none(place, asked)
}

// Whether a row that lies in the ranges of the dims of a place is admitted.
fn is_signed(
    pairs: &[Pair],
    part: &PartPlan,
    place: u8,
    tests: &[u8],
    asked: &[LocalCondition],
) -> bool
    requires tests { AreTests pairs.now part.now tests.now }
    requires asked { AreAsked part.now asked.now }
    ensures { result ≡ true → (v : ℕ → ℤ) → list_all (in_range v) (dims_at part.now place) ≡ true → keeps_part pairs.now part.now place v ≡ true }
{
    has_signs(pairs, part, place, tests) && meets_all(part, place, asked)
}

// Whether each link of a part is an equality.
fn has_equalities_alone(part: &PartPlan) -> bool
    ensures less { result ≡ true → length part.now.less.items ≡ 0 }
    ensures soft { result ≡ true → length part.now.soft.items ≡ 0 }
{
    part.less.as_slice().is_empty() && part.soft.as_slice().is_empty()
}

/// Returns how a row that arrives at a place of FROM finds the one cell that can answer with it, where its columns tell it: columns of the row
/// fix all dims of the other place, which has these classes, and no link stands in the part but equalities that then hold. The tests are the
/// numbers of the pairs whose signs do not follow from the ranges of the dims, and what else is asked are the conditions that do not.
pub fn join_lookup_at(
    pairs: &[Pair],
    part: &PartPlan,
    tests: &[u8],
    asked: &[LocalCondition],
    classes: &[Option<u8>],
    arriving: u8,
) -> Option<JoinLookup>
    requires two { length part.now.streams.items ≡ 2 }
    requires here { arriving < 2 }
    requires tests { AreTests pairs.now part.now tests.now }
    requires asked { AreAsked part.now asked.now }
    requires few { length classes.now ≤ 8 }
    requires classes { (column : ℕ) (class : Option ℕ) → slice_get classes.now column ≡ Some class → class ≡ class_at pairs.now part.now (1 - arriving) column }
    ensures { IfSome result (λ listed. IsJoinLookup pairs.now part.now arriving listed) }
{
    let place = 1 - arriving;
    let Some(keys) = key_columns_at(part, arriving, place) else {
        return None;
    };
    let told = told_at(pairs, part, place, keys.as_slice(), classes);
    if !has_equalities_alone(part) {
        return None;
    }
    if !are_told(told.as_slice(), place, arriving, part.equal.as_slice()) {
        return None;
    }
    let dims = key_dims(keys.as_slice());
    let mut axes: ArrayVec<Axis, 4> = ArrayVec::new();
    let Some(cells) = put_axes(dims.as_slice(), &mut axes) else {
        return None;
    };
    let base = stream_at(part, usize::from(place)).base;
    if !are_numbered(base, cells) {
        return None;
    }
    Some(JoinLookup {
        dims,
        axes,
        told,
        base,
        place,
        signed: is_signed(pairs, part, arriving, tests, asked),
    })
}
