//! What a part is asked of every row, worked out once.
ghost use Rattle.std.specs.Prelude.{◌≡◌, ◌≤◌, ◌<◌, ℕ, ℤ, true, length, position, Option, Some, slice_get, slice_index_or, [], ◌≤ℤ◌, ◌+ℤ◌, MatchOption, IfSome, IfOk, ⊤, false, ◌||◌};
ghost use Rattle.std.specs.List.{list_all, list_any};
ghost use Rattle.sem_query.specs.declared.atom.Attr.{Attr};
ghost use Rattle.sem_query.specs.Parts.{pairs, sign, sign_at};
ghost use Rattle.sem_query.specs.Assignment.{value, compares};
ghost use Rattle.sem_query.specs.Meaning.{by_column};
ghost use Rattle.sem_query.specs.Plan.{dims_at};
ghost use Rattle.sem_query.specs.Query.{attr_eq};
ghost use Rattle.sem_query.specs.Combinations.{ties, any_ties, binds};
ghost use Rattle.sem_query.specs.Admission.{alone, in_range, meets_local};
ghost use Rattle.exec_synopsis.specs.Joining.{IsJoinLookup};
ghost use Rattle.exec_synopsis.specs.Preparing.{IsPrepared, AreTests, AreAsked, class_of, listed, access_of, joins};

use crate::accesses::{PlaceAccess, all_accesses};
use crate::axes::{BoxLayout, places_of};
use crate::classes::{any_binds, dim_of};
use crate::join_lookup::{JoinLookup, join_lookup_at};
use crate::key_columns::{LookupKey, all_pinned};
use arrayvec::ArrayVec;
use sem_query::{
    Attr, Dim, Element, LocalCondition, Op, Pair, PartPlan, Query, Sign, dims_at, is_same,
    is_same_sign, value_alone, value_at,
};
use std::alloc::{AllocError, Global};

/// Two columns of one stream that are equal in a part.
#[derive(Clone, Copy, Debug, Default, PartialEq, Eq)]
struct Tie {
    left: Attr,
    right: Attr,
}

/// What a part is asked of every row: for each of the first eight columns of each stream the place of the dim of the
/// column's class, where there is one; the numbers of the pairs whose signs do not follow from the ranges of the dims, and the
/// conditions on rows of one stream that do not.
/// By place the dims and the box, for one pass over a row. And for walks: by arriving stream a place of which the row's own
/// columns fix all dims, by arriving stream and by place what the links with known columns leave there,
/// and by arriving stream how the row finds the one cell that can answer with it.
#[derive(Drop)]
pub struct Prepared {
    pinned: Vec<Option<LookupKey>>,
    classes: ArrayVec<ArrayVec<Option<u8>, 8>, 4>,
    tests: ArrayVec<u8, 114>,
    asked: Vec<LocalCondition>,
    accesses: ArrayVec<ArrayVec<PlaceAccess, 4>, 4>,
    places: Vec<BoxLayout>,
    joins: Vec<Option<JoinLookup>>,
}

impl Prepared {
    // What is listed of a column.
    fn listed(&self, a: Attr) -> Option<Option<u8>>
        ensures { result ≡ listed self.now a }
    {
        match self.classes.as_slice().get(usize::from(a.stream)) {
            Some(classes) => classes.as_slice().get(usize::from(a.column)).copied(),
            None => None,
        }
    }

    /// Returns what is listed of a place, for a row that arrives at another one.
    pub fn pinned(&self, arriving: u8, place: usize) -> Option<&LookupKey>
        ensures { IfSome result (λ listed. (slice_get self.now.pinned.items arriving ≡ Some (Some listed.now)) × (listed.now.place ≡ place)) }
    {
        match self.pinned.as_slice().get(usize::from(arriving)) {
            Some(listed) => match listed {
                Some(pinned) => {
                    if usize::from(pinned.place) == place {
                        Some(pinned)
                    } else {
                        None
                    }
                }
                None => None,
            },
            None => None,
        }
    }

    /// Returns how a row that arrives at a place of FROM finds the one cell that can answer with it, where that is listed.
    pub fn join_lookup(&self, arriving: u8) -> Option<&JoinLookup>
        ensures { IfSome result (λ listed. slice_get self.now.joins.items arriving ≡ Some (Some listed.now)) }
    {
        match self.joins.as_slice().get(usize::from(arriving)) {
            Some(listed) => match listed {
                Some(lookup) => Some(lookup),
                None => None,
            },
            None => None,
        }
    }

    /// Returns what is listed of what the links with known columns leave at a place.
    pub fn access(&self, arriving: u8, place: usize) -> Option<PlaceAccess>
        ensures { result ≡ access_of self.now arriving place }
    {
        match self.accesses.as_slice().get(usize::from(arriving)) {
            Some(places) => places.as_slice().get(place).copied(),
            None => None,
        }
    }

    /// Returns the numbers of the pairs whose signs must be tested.
    pub fn tests(&self) -> &[u8]
        ensures { result.now ≡ self.now.tests.items }
    {
        self.tests.as_slice()
    }

    /// Returns the conditions on rows of one stream that must be asked.
    pub fn asked(&self) -> &[LocalCondition]
        ensures { result.now ≡ self.now.asked.items }
    {
        self.asked.as_slice()
    }

    /// Returns what a row is asked at the first places of FROM.
    pub fn places(&self) -> &[BoxLayout]
        ensures { result.now ≡ self.now.places.items }
    {
        self.places.as_slice()
    }
}

// The place of the dim of the class of a column, searched for. It is rarely asked, and so not inlined.
#[inline(never)]
fn search_class(pairs: &[Pair], part: &PartPlan, a: Attr) -> Option<u8>
    ensures { result ≡ class_of pairs.now part.now a }
{
    match dim_of(pairs, part, dims_at(part, usize::from(a.stream)), a) {
        Some(k) => Some(k as u8),
        None => None,
    }
}

/// Returns the place of the dim of the class of a column, where there is one.
pub fn class_of(pairs: &[Pair], part: &PartPlan, prepared: &Prepared, a: Attr) -> Option<u8>
    requires { IsPrepared pairs.now part.now prepared.now }
    ensures { result ≡ class_of pairs.now part.now a }
{
    match prepared.listed(a) {
        Some(class) => class,
        None => search_class(pairs, part, a),
    }
}

// The tie that a pair is by its sign, if it is one.
fn tie_of(pair: Pair, sign: Sign) -> Option<Tie>
    ensures { MatchOption result ((a b : Attr) → ties a b pair sign ≡ false) (λ tie. (a b : Attr) → ties a b pair sign ≡ joins a b tie) }
{
    match pair.right {
        Element::Attr(right) => {
            if is_same_sign(sign, Sign::Eq) {
                Some(Tie {
                    left: pair.left,
                    right,
                })
            } else {
                None
            }
        }
        Element::Const(_) => None,
    }
}

// The columns that the signs of a part tie, in place of all pairs: they are few, and asked of often.
fn ties_of(pairs: &[Pair], signs: &[Sign]) -> ArrayVec<Tie, 114>
    requires { length pairs.now ≤ 114 }
    ensures { (a b : Attr) → list_any (joins a b) result.items ≡ any_ties a b pairs.now signs.now }
{
    let mut ties: ArrayVec<Tie, 114> = ArrayVec::new();
    'pairs: for (i, pair) in pairs.iter().enumerate() {
        if i >= signs.len() {
            return ties;
        }
        match tie_of(*pair, signs[i]) {
            Some(tie) => ties.push(tie),
            None => {}
        }
    }
    ties
}

// Whether a tie is between these columns.
fn joins(tie: Tie, a: Attr, b: Attr) -> bool
    ensures { result ≡ joins a b tie }
{
    (is_same(tie.left, a) && is_same(tie.right, b))
        || (is_same(tie.left, b) && is_same(tie.right, a))
}

// Whether some tie is between these columns.
fn any_joins(ties: &[Tie], a: Attr, b: Attr) -> bool
    ensures { result ≡ list_any (joins a b) ties.now }
{
    ties.iter().any(|tie| joins(*tie, a, b))
}

// Whether two columns are the same, or a tie is between them.
fn are_joined(ties: &[Tie], a: Attr, b: Attr) -> bool
    ensures { result ≡ (attr_eq a b || list_any (joins a b) ties.now) }
{
    is_same(a, b) || any_joins(ties, a, b)
}

// Whether two columns are of one class.
fn are_tied(ties: &[Tie], local: &[LocalCondition], a: Attr, b: Attr) -> bool
    ensures { result ≡ ((attr_eq a b || list_any (joins a b) ties.now) || list_any (binds a b) local.now) }
{
    are_joined(ties, a, b) || any_binds(local, a, b)
}

// The place of the dim of the class of a column.
fn dim_among(ties: &[Tie], local: &[LocalCondition], dims: &[Dim], a: Attr) -> Option<usize>
    ensures place { result ≡ position (λ d. (attr_eq d.attr a || list_any (joins d.attr a) ties.now) || list_any (binds d.attr a) local.now) dims.now }
    ensures below { IfSome result (λ k. k < length dims.now) }
{
    dims.iter()
        .position(|dim| are_tied(ties, local, dim.attr, a))
}

// The same as a short number.
fn class_among(ties: &[Tie], local: &[LocalCondition], dims: &[Dim], a: Attr) -> Option<u8>
    requires { length dims.now ≤ 8 }
    ensures { result ≡ position (λ d. (attr_eq d.attr a || list_any (joins d.attr a) ties.now) || list_any (binds d.attr a) local.now) dims.now }
{
    match dim_among(ties, local, dims, a) {
        Some(k) => Some(k as u8),
        None => None,
    }
}

// The classes of the first eight columns of a stream.
fn classes_at(pairs: &[Pair], part: &PartPlan, ties: &[Tie], stream: u8) -> ArrayVec<Option<u8>, 8>
    requires { (a b : Attr) → list_any (joins a b) ties.now ≡ any_ties a b pairs.now part.now.signs.items }
    ensures { (column : ℕ) (class : Option ℕ) → slice_get result.items column ≡ Some class → class ≡ class_of pairs.now part.now (record { stream = stream; column = column }) }
{
    // Named for the proof alone: the contract speaks of it.
    let _pairs = pairs;
    let mut classes: ArrayVec<Option<u8>, 8> = ArrayVec::new();
    let dims = dims_at(part, usize::from(stream));
    let local = part.local.as_slice();
    'columns: for column in 0..8u8 {
        classes.push(class_among(ties, local, dims, Attr { stream, column }));
    }
    classes
}

// The classes of the first eight columns of each stream. Of one stream alone none is asked: all values are the row's own.
fn all_classes(pairs: &[Pair], part: &PartPlan) -> ArrayVec<ArrayVec<Option<u8>, 8>, 4>
    requires { length pairs.now ≤ 114 }
    ensures { (stream column : ℕ) (class : Option ℕ) → slice_get (slice_index_or result.items stream (record { items = [] })).items column ≡ Some class → class ≡ class_of pairs.now part.now (record { stream = stream; column = column }) }
{
    let mut classes: ArrayVec<ArrayVec<Option<u8>, 8>, 4> = ArrayVec::new();
    let streams = part.streams.as_slice().len() as u8;
    if streams == 1 {
        return classes;
    }
    let ties = ties_of(pairs, part.signs.as_slice());
    'streams: for stream in 0..streams {
        classes.push(classes_at(pairs, part, ties.as_slice(), stream));
    }
    classes
}

// The least and the greatest value of a column over all rows in the ranges of the dims, where a dim tells them.
fn range_of_column(dims: &[Dim], attr: Attr) -> Option<(i64, i64)>
    ensures { MatchOption result ⊤ (λ range. (v : ℕ → ℤ) → list_all (in_range v) dims.now ≡ true → (range.0 ≤ℤ v attr.column) × (v attr.column ≤ℤ range.1)) }
{
    'dims: for dim in dims {
        if dim.attr.column == attr.column {
            return Some((dim.lo, dim.hi));
        }
    }
    None
}

// The least and the greatest value of an element over all rows in the ranges of the dims, where a dim tells them.
fn range_of(dims: &[Dim], element: Element) -> Option<(i64, i64)>
    ensures { MatchOption result ⊤ (λ range. (v : ℕ → ℤ) → list_all (in_range v) dims.now ≡ true → (range.0 ≤ℤ value element (alone v)) × (value element (alone v) ≤ℤ range.1)) }
{
    match element {
        Element::Const(integer) => Some((integer, integer)),
        Element::Attr(attr) => range_of_column(dims, attr),
    }
}

// Whether every value of one range stands to every value of the other by this sign.
fn is_apart(left: (i64, i64), right: (i64, i64), wanted: Sign) -> bool
    ensures { result ≡ true → (x y : ℤ) → left.0 ≤ℤ x → x ≤ℤ left.1 → right.0 ≤ℤ y → y ≤ℤ right.1 → sign x y ≡ wanted }
{
    match wanted {
        Sign::Lt => left.1 < right.0,
        Sign::Eq => left.0 == right.1 && left.1 == right.0,
        Sign::Gt => right.1 < left.0,
    }
}

// Whether the sign of a pair follows from the ranges of the dims of its stream.
fn is_implied(dims: &[Dim], pair: Pair, wanted: Sign) -> bool
    ensures { result ≡ true → (v : ℕ → ℤ) → list_all (in_range v) dims.now ≡ true → sign_at (alone v) pair ≡ wanted }
{
    match range_of_column(dims, pair.left) {
        Some(left) => match range_of(dims, pair.right) {
            Some(right) => is_apart(left, right, wanted),
            None => false,
        },
        None => false,
    }
}

// The numbers of the pairs whose signs do not follow from the ranges of the dims.
fn tests_of(pairs: &[Pair], part: &PartPlan) -> ArrayVec<u8, 114>
    requires { length pairs.now ≤ 114 }
    ensures { AreTests pairs.now part.now result.items }
{
    let mut tests: ArrayVec<u8, 114> = ArrayVec::new();
    let signs = part.signs.as_slice();
    'pairs: for (i, pair) in pairs.iter().enumerate() {
        if i >= signs.len() {
            return tests;
        }
        if !is_implied(
            dims_at(part, usize::from(pair.left.stream)),
            *pair,
            signs[i],
        ) {
            tests.push(i as u8);
        }
    }
    tests
}

// How two integers compare.
fn compares(op: Op, left: i128, right: i128) -> bool
    ensures { result ≡ compares op left right }
{
    match op {
        Op::Lt => left < right,
        Op::Eq => left == right,
        Op::Gt => right < left,
        Op::Le => !(right < left),
        Op::Ge => !(left < right),
        Op::Ne => !(left == right),
    }
}

// Whether a value stands so to another, moved by a number. The sum has 128 bits: a row's type does not say how long its values are.
#[inline(never)]
fn stands_wide(left: i64, op: Op, right: i64, by: i64) -> bool
    ensures { result ≡ compares op left (right +ℤ by) }
{
    compares(op, i128::from(left), i128::from(right) + i128::from(by))
}

// Whether a value stands so to another, moved by a number. Only a sum that has no 64 bits is compared as a longer one.
fn stands(left: i64, op: Op, right: i64, by: i64) -> bool
    ensures { result ≡ compares op left (right +ℤ by) }
{
    match right.checked_add(by) {
        Some(bound) => op.compares(left, bound),
        None => stands_wide(left, op, right, by),
    }
}

/// Returns whether the left side of a condition stands in a row as it asks to the right side, which is moved by a number.
pub fn meets_local(row: &[i64], condition: LocalCondition) -> bool
    ensures { result ≡ meets_local (alone (by_column row.now)) condition }
{
    stands(
        value_at(row, condition.left.column),
        condition.op,
        value_alone(row, condition.right),
        condition.by,
    )
}

// Whether every value of one range stands so to every value of the other, moved by a number: the ends of the ranges tell it.
fn is_always(left: (i64, i64), op: Op, right: (i64, i64), by: i64) -> bool
    ensures { result ≡ true → (x y : ℤ) → left.0 ≤ℤ x → x ≤ℤ left.1 → right.0 ≤ℤ y → y ≤ℤ right.1 → compares op x (y +ℤ by) ≡ true }
{
    match op {
        Op::Lt => stands(left.1, Op::Lt, right.0, by),
        Op::Eq => stands(left.1, Op::Le, right.0, by) && stands(left.0, Op::Ge, right.1, by),
        Op::Gt => stands(left.0, Op::Gt, right.1, by),
        Op::Le => stands(left.1, Op::Le, right.0, by),
        Op::Ge => stands(left.0, Op::Ge, right.1, by),
        Op::Ne => stands(left.1, Op::Lt, right.0, by) || stands(left.0, Op::Gt, right.1, by),
    }
}

// Whether a condition follows from the ranges of the dims of its stream.
fn is_told(dims: &[Dim], condition: LocalCondition) -> bool
    ensures { result ≡ true → (v : ℕ → ℤ) → list_all (in_range v) dims.now ≡ true → meets_local (alone v) condition ≡ true }
{
    match range_of_column(dims, condition.left) {
        Some(left) => match range_of(dims, condition.right) {
            Some(right) => is_always(left, condition.op, right, condition.by),
            None => false,
        },
        None => false,
    }
}

// The conditions on rows of one stream that do not follow from the ranges of the dims. An error says that memory was not found.
fn asked_of(alloc: Global, part: &PartPlan) -> Result<Vec<LocalCondition>, AllocError>
    ensures { IfOk result (λ asked. AreAsked part.now asked.items) }
{
    let mut asked: Vec<LocalCondition> = Vec::new(alloc);
    let local = part.local.as_slice();
    'conditions: for condition in local {
        if !is_told(
            dims_at(part, usize::from(condition.left.stream)),
            *condition,
        ) {
            asked.push(*condition)?;
        }
    }
    Ok(asked)
}

// The classes of the columns of a stream, of which there are at most eight; none where it is not listed.
fn classes_among(classes: &[ArrayVec<Option<u8>, 8>], stream: u8) -> &[Option<u8>]
    ensures few { length result.now ≤ 8 }
    ensures classes { (column : ℕ) (class : Option ℕ) → slice_get result.now column ≡ Some class → slice_get (slice_index_or classes.now stream (record { items = [] })).items column ≡ Some class }
{
    match classes.get(usize::from(stream)) {
        Some(listed) => listed.as_slice(),
        None => &[],
    }
}

// For each arriving stream how a row finds the one cell that can answer with it, where the part is over two streams.
fn all_joins(
    alloc: Global,
    pairs: &[Pair],
    part: &PartPlan,
    tests: &[u8],
    asked: &[LocalCondition],
    classes: &[ArrayVec<Option<u8>, 8>],
) -> Result<Vec<Option<JoinLookup>>, AllocError>
    requires tests { AreTests pairs.now part.now tests.now }
    requires asked { AreAsked part.now asked.now }
    requires classes { (stream column : ℕ) (class : Option ℕ) → slice_get (slice_index_or classes.now stream (record { items = [] })).items column ≡ Some class → class ≡ class_of pairs.now part.now (record { stream = stream; column = column }) }
    ensures { IfOk result (λ all. (arriving : ℕ) (listed : Option JoinLookup) → slice_get all.items arriving ≡ Some listed → IfSome listed (λ p. IsJoinLookup pairs.now part.now arriving p)) }
{
    if part.streams.as_slice().len() != 2 {
        return Ok(Vec::new(alloc));
    }
    let mut all: Vec<Option<JoinLookup>> = Vec::with_capacity(alloc, 2)?;
    'streams: for arriving in 0..2u8 {
        let others = classes_among(classes, 1 - arriving);
        all.push(join_lookup_at(pairs, part, tests, asked, others, arriving))?;
    }
    Ok(all)
}

/// Returns what a part is asked of every row. An error says that memory was not found.
pub fn prepare(alloc: Global, q: &Query, part: &PartPlan) -> Result<Prepared, AllocError>
    ensures { IfOk result (λ prepared. IsPrepared (pairs q.now) part.now prepared) }
{
    let pairs = q.pairs().as_slice();
    let classes = all_classes(pairs, part);
    let tests = tests_of(pairs, part);
    let asked = asked_of(alloc, part)?;
    let joins = all_joins(
        alloc,
        pairs,
        part,
        tests.as_slice(),
        asked.as_slice(),
        classes.as_slice(),
    )?;
    let pinned = all_pinned(alloc, part)?;
    let places = places_of(alloc, part)?;
    Ok(Prepared {
        pinned,
        classes,
        tests,
        asked,
        accesses: all_accesses(part),
        places,
        joins,
    })
}
