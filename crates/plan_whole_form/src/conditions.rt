//! What the rows of each stream are asked.
ghost use Rattle.std.specs.Prelude.{◌≡◌, ◌≢◌, ◌⊎◌, ◌↔◌, ◌≤◌, ◌<◌, ◌++◌, ◌&&◌, ◌/◌, ◌%◌, ℕ, ℤ, length, Contains, IsTrue, IsFalse, IfOk, OnOk};
ghost use Rattle.sem_query.specs.declared.atom.Op.{Op};
ghost use Rattle.sem_query.specs.Query.{QueryValue, attrs_of, is_attr};
ghost use Rattle.sem_query.specs.Admission.{alone, keeps_local};
ghost use Rattle.sem_whole.specs.System.{IsOf};
ghost use Rattle.sem_whole.specs.Whole.{RowMeets};
ghost use Rattle.sem_whole.specs.Plan.{NamesClass};
ghost use Rattle.plan_whole.specs.Columns.{listed};
ghost use Rattle.plan_whole.specs.Extremes.{column_at};
ghost use Rattle.plan_whole_form.specs.Conditions.{condition, IsKnownColumn, AreKnownColumns, AreTwoNames, IsTie, IsLeastEnd, IsGreatestEnd, IsUnsaid, IsBetween, IsOwnUnlike, IsTurned, IsUnlikeAt, AreConditions};
ghost use Rattle.plan_whole_form.specs.Listed.{AreListed, AreUnlikes, IsWithStream};

use arrayvec::ArrayVec;
use plan_whole::{ClosedSystem, ColumnBound, follows_by_ranges, name_of};
use sem_query::{Atom, Attr, Element, LocalCondition, Op, is_same};
use std::alloc::{AllocError, Global};

fn condition(left: Attr, op: Op, right: Element, by: i64) -> LocalCondition
    ensures { result ≡ condition left op right by }
{
    LocalCondition {
        left,
        op,
        right,
        by,
    }
}

/// What is known of a column: the one that names its class, and whether a comparison of the query names it.
#[derive(Clone, Copy)]
pub struct KnownColumn {
    pub name: Attr,
    pub is_compared: bool,
}

// Whether a column is among some.
fn is_among(columns: &[Attr], a: Attr) -> bool
    ensures { IsTrue result ↔ Contains columns.now a }
{
    columns.contains(&a)
}

// Whether a comparison of the query names a column.
fn is_compared(closed: &ClosedSystem, a: Attr) -> bool
    ensures { IsTrue result ↔ Contains (attrs_of closed.now.atoms) a }
{
    is_among(closed.query().attrs(), a)
}

// What is known of a column.
fn known_column(closed: &ClosedSystem, a: Attr) -> KnownColumn
    ensures { IsKnownColumn closed.now a result }
{
    KnownColumn {
        name: name_of(closed, a),
        is_compared: is_compared(closed, a),
    }
}

// What is known of the columns of a stream. Each is asked often, and the name of its class is found by a search over the columns before it.
fn columns_at(closed: &ClosedSystem, place: u8) -> [KnownColumn; 8]
    ensures { AreKnownColumns closed.now place result }
{
    let mut columns = [KnownColumn {
        name: Attr {
            stream: 0,
            column: 0,
        },
        is_compared: false,
    }; 8];
    for column in 0..8 {
        let attr = Attr {
            stream: place,
            column,
        };
        columns[usize::from(column)] = known_column(closed, attr);
    }
    columns
}

// What is known of a column, of what is known of those of its stream.
fn column_in(columns: &[KnownColumn; 8], a: Attr) -> KnownColumn
    requires { a.column < 8 }
    ensures { (q : QueryValue) → AreKnownColumns q a.stream columns.now → IsKnownColumn q a result }
{
    columns[usize::from(a.column)]
}

// Whether a column names its class.
fn names_class(columns: &[KnownColumn; 8], a: Attr) -> bool
    requires { a.column < 8 }
    ensures { (q : QueryValue) → AreKnownColumns q a.stream columns.now → IsTrue result ↔ NamesClass q a }
{
    is_same(column_in(columns, a).name, a)
}

// The equality with the column that names the class of a column, where that is another.
fn tie(columns: &[KnownColumn; 8], a: Attr) -> Option<LocalCondition>
    requires { a.column < 8 }
    ensures { (q : QueryValue) → AreKnownColumns q a.stream columns.now → IsTie q a result }
{
    let name = column_in(columns, a).name;
    if is_same(name, a) {
        return None;
    }
    Some(condition(a, Op::Eq, Element::Attr(name), 0))
}

// The least value of a column that names its class, where there is one.
fn least_end(closed: &ClosedSystem, columns: &[KnownColumn; 8], a: Attr) -> Option<LocalCondition>
    requires column { a.column < 8 }
    requires columns { AreKnownColumns closed.now a.stream columns.now }
    ensures { IsLeastEnd closed.now a result }
{
    if !names_class(columns, a) {
        return None;
    }
    let ends = closed.ends(a);
    match ends.lo {
        Some(low) => Some(condition(a, Op::Ge, Element::Const(low), 0)),
        None => None,
    }
}

// The greatest value of a column that names its class, where there is one.
fn greatest_end(
    closed: &ClosedSystem,
    columns: &[KnownColumn; 8],
    a: Attr,
) -> Option<LocalCondition>
    requires column { a.column < 8 }
    requires columns { AreKnownColumns closed.now a.stream columns.now }
    ensures { IsGreatestEnd closed.now a result }
{
    if !names_class(columns, a) {
        return None;
    }
    let ends = closed.ends(a);
    match ends.hi {
        Some(high) => Some(condition(a, Op::Le, Element::Const(high), 0)),
        None => None,
    }
}

// Whether both of two things hold.
fn both(left: bool, right: bool) -> bool
    ensures { result ≡ (left && right) }
{
    left && right
}

// Whether two columns of a stream name two classes.
fn are_two_names(columns: &[KnownColumn; 8], a: Attr, b: Attr) -> bool
    requires left { a.column < 8 }
    requires right { b.column < 8 }
    requires beside { b.stream ≡ a.stream }
    ensures { (q : QueryValue) → AreKnownColumns q a.stream columns.now → IsTrue result ↔ AreTwoNames q a b }
{
    let left = names_class(columns, a);
    let right = names_class(columns, b);
    let same = is_same(a, b);
    both(both(left, right), !same)
}

// Whether comparisons name both of two columns. What bounds others is said by their ranges.
fn are_compared(columns: &[KnownColumn; 8], a: Attr, b: Attr) -> bool
    requires left { a.column < 8 }
    requires right { b.column < 8 }
    requires beside { b.stream ≡ a.stream }
    ensures { IsFalse result → (q : QueryValue) → AreKnownColumns q a.stream columns.now → (¬ Contains (attrs_of q.atoms) a) ⊎ (¬ Contains (attrs_of q.atoms) b) }
{
    let left = column_in(columns, a);
    let right = column_in(columns, b);
    both(left.is_compared, right.is_compared)
}

// Says that a column is at most so much above another, where their ranges do not.
fn unsaid(closed: &ClosedSystem, a: Attr, b: Attr, by: i64) -> Option<LocalCondition>
    ensures { IsUnsaid closed.now a b by result }
{
    let bound = ColumnBound {
        left: a,
        right: b,
        by,
    };
    if follows_by_ranges(closed, bound) {
        None
    } else {
        Some(condition(a, Op::Le, Element::Attr(b), by))
    }
}

// The most that a column is above another of its stream, where both name classes, and their ranges do not say it.
fn between(
    closed: &ClosedSystem,
    columns: &[KnownColumn; 8],
    a: Attr,
    b: Attr,
) -> Option<LocalCondition>
    requires left { a.column < 8 }
    requires right { b.column < 8 }
    requires beside { b.stream ≡ a.stream }
    requires columns { AreKnownColumns closed.now a.stream columns.now }
    ensures { IsBetween closed.now a b result }
{
    // Named for the proof alone: the system has a solution.
    let _query = closed.query();
    if !are_two_names(columns, a, b) {
        return None;
    }
    if !are_compared(columns, a, b) {
        return None;
    }
    match closed.above(a, b) {
        Some(by) => unsaid(closed, a, b, by),
        None => None,
    }
}

fn is_disequality(op: Op) -> bool
    ensures { IsTrue result ↔ (op ≡ Op.Ne) }
{
    match op {
        Op::Ne => true,
        Op::Lt | Op::Gt | Op::Le | Op::Ge | Op::Eq => false,
    }
}

// Whether an element is an integer or a column of the stream at a place.
fn is_of(place: u8, element: Element) -> bool
    ensures { IsTrue result ↔ IsOf place element }
{
    match element {
        Element::Attr(attr) => attr.stream == place,
        Element::Const(_) => true,
    }
}

// Whether one of two elements is a column.
fn has_column(left: Element, right: Element) -> bool
    ensures { IsTrue result ↔ (IsTrue (is_attr left) ⊎ IsTrue (is_attr right)) }
{
    match left {
        Element::Attr(_) => true,
        Element::Const(_) => match right {
            Element::Attr(_) => true,
            Element::Const(_) => false,
        },
    }
}

// Whether a comparison is a `<>` of a column of the stream at a place.
#[tactic(auto, using(crate::proofs::Conditioned::own_told))]
fn is_own_unlike(place: u8, atom: &Atom) -> bool
    ensures { IsTrue result ↔ IsOwnUnlike place atom.now }
{
    let unlike = is_disequality(atom.op);
    let column = has_column(atom.left, atom.right);
    let left = is_of(place, atom.left);
    let right = is_of(place, atom.right);
    unlike && column && left && right
}

// The `<>` of two elements with a column on the left.
fn turned(left: Element, right: Element) -> LocalCondition
    requires { IsTrue (is_attr left) ⊎ IsTrue (is_attr right) }
    ensures { IsTurned left right result }
{
    match left {
        Element::Attr(a) => condition(a, Op::Ne, right, 0),
        Element::Const(k) => match right {
            Element::Attr(b) => condition(b, Op::Ne, Element::Const(k), 0),
            Element::Const(_) => LocalCondition::default(),
        },
    }
}

// A comparison, where it is a `<>` of the stream at a place.
fn unlike(place: u8, atom: &Atom) -> Option<LocalCondition>
    ensures { IsUnlikeAt place atom.now result }
{
    if is_own_unlike(place, atom) {
        Some(turned(atom.left, atom.right))
    } else {
        None
    }
}

// Adds a condition, where there is one.
fn add<const N: usize>(list: &mut ArrayVec<LocalCondition, N>, condition: Option<LocalCondition>)
    requires { length list.old.items < N }
    ensures { list.new.items ≡ list.old.items ++ listed condition }
{
    match condition {
        None => {}
        Some(condition) => list.push(condition),
    }
}

// The ties of the columns of a stream.
fn ties(columns: &[KnownColumn; 8], place: u8) -> ArrayVec<LocalCondition, 8>
    ensures { (q : QueryValue) → AreKnownColumns q place columns.now → AreListed (λ c o. IsTie q (column_at place c) o) 8 result.items }
{
    let mut list = ArrayVec::new();
    for column in 0..8 {
        let attr = Attr {
            stream: place,
            column,
        };
        add(&mut list, tie(columns, attr));
    }
    list
}

// The least values of the columns of a stream.
fn least_ends(
    closed: &ClosedSystem,
    columns: &[KnownColumn; 8],
    place: u8,
) -> ArrayVec<LocalCondition, 8>
    requires { AreKnownColumns closed.now place columns.now }
    ensures { AreListed (λ c o. IsLeastEnd closed.now (column_at place c) o) 8 result.items }
{
    let mut list = ArrayVec::new();
    for column in 0..8 {
        let attr = Attr {
            stream: place,
            column,
        };
        add(&mut list, least_end(closed, columns, attr));
    }
    list
}

// The greatest values of the columns of a stream.
fn greatest_ends(
    closed: &ClosedSystem,
    columns: &[KnownColumn; 8],
    place: u8,
) -> ArrayVec<LocalCondition, 8>
    requires { AreKnownColumns closed.now place columns.now }
    ensures { AreListed (λ c o. IsGreatestEnd closed.now (column_at place c) o) 8 result.items }
{
    let mut list = ArrayVec::new();
    for column in 0..8 {
        let attr = Attr {
            stream: place,
            column,
        };
        add(&mut list, greatest_end(closed, columns, attr));
    }
    list
}

// The bounds of the columns of a stream above each other.
fn differences(
    closed: &ClosedSystem,
    columns: &[KnownColumn; 8],
    place: u8,
) -> ArrayVec<LocalCondition, 64>
    requires { AreKnownColumns closed.now place columns.now }
    ensures { AreListed (λ i o. IsBetween closed.now (column_at place (i / 8)) (column_at place (i % 8)) o) 64 result.items }
{
    let mut list = ArrayVec::new();
    for i in 0..64 {
        let left = Attr {
            stream: place,
            column: i / 8,
        };
        let right = Attr {
            stream: place,
            column: i % 8,
        };
        add(&mut list, between(closed, columns, left, right));
    }
    list
}

// The comparisons `<>` of a stream among some.
fn unlikes_among(atoms: &[Atom], place: u8) -> ArrayVec<LocalCondition, 16>
    requires { length atoms.now ≤ 16 }
    ensures { AreUnlikes place atoms.now result.items }
{
    let mut list = ArrayVec::new();
    for atom in atoms {
        add(&mut list, unlike(place, atom));
    }
    list
}

// The comparisons `<>` of a stream: those of the query, since no sign says one.
fn unlikes(closed: &ClosedSystem, place: u8) -> ArrayVec<LocalCondition, 16>
    ensures { AreUnlikes place closed.now.atoms result.items }
{
    unlikes_among(closed.query().atoms(), place)
}

// Adds what the rows of the stream at a place are asked. An error says that memory was not found.
fn add_stream(
    list: &mut Vec<LocalCondition>,
    closed: &ClosedSystem,
    place: u8,
) -> Result<(), AllocError>
    ensures { OnOk result (IsWithStream closed.now place list.old.items list.new.items) }
{
    let columns = columns_at(closed, place);
    list.extend_from_slice(ties(&columns, place).as_slice())?;
    list.extend_from_slice(least_ends(closed, &columns, place).as_slice())?;
    list.extend_from_slice(greatest_ends(closed, &columns, place).as_slice())?;
    list.extend_from_slice(differences(closed, &columns, place).as_slice())?;
    list.extend_from_slice(unlikes(closed, place).as_slice())?;
    Ok(())
}

/// Returns what the rows of each stream are asked: that a column equals the one that names its class, that this is within its range and no
/// further above another than it can be, where the ranges do not say so, and the comparisons `<>` of the stream. A row that meets all of its
/// stream is admitted. An error says that memory was not found.
pub fn conditions_of(
    alloc: Global,
    closed: &ClosedSystem,
) -> Result<Vec<LocalCondition>, AllocError>
    ensures asked { IfOk result (λ list. AreConditions closed.now list.items) }
    ensures admitted { IfOk result (λ list. (place : ℕ) → place < length closed.now.from → (v : ℕ → ℤ) → IsTrue (keeps_local place (alone v) list.items) ↔ RowMeets closed.now place v) }
{
    let mut list = Vec::new(alloc);
    let from = closed.query().from();
    for place in 0..from.len() {
        add_stream(&mut list, closed, place as u8)?;
    }
    Ok(list)
}
