//! Families whose rows move in equal steps.
ghost use Rattle.std.specs.Prelude.{◌≡◌, ◌≢◌, ◌<◌, ◌≤◌, [], length, Contains, IsTrue, IsFalse, IfOk, IfSome, OnOk};
ghost use Rattle.std.specs.List.{All};
ghost use Rattle.sem_query.specs.declared.atom.Domain.{Domain};
ghost use Rattle.sem_query.specs.declared.condition.Condition.TheVariants.{C1, C3};
ghost use Rattle.sem_query.specs.Query.{attrs_of, is_filter};
ghost use Rattle.fam_motions.specs.Apart.{AreSolutions};
ghost use Rattle.fam_motions.specs.Values.{IsFarWithin};
ghost use Rattle.fam_fooling_sets.specs.Blanks.{AreBlanks};
ghost use Rattle.fam_fooling_sets.specs.Drawing.{AddsDrawnRow, AreDrawnMembers, IsOpenIn, IsDrawnFamily, IsFamilyLike, IsFoundFor, IsDrawnGround};
ghost use Rattle.fam_fooling_sets.specs.Shown.{rows_in, asking_in};

use crate::family::{Asked, Family};
use crate::ground::Ground;
use crate::point::{Member, drawn_member};
use fam_motions::{Values, apart, apart_as_next, apart_once, different};
use plan_closure::Bounds;
use plan_constraints::place_of;
use sem_query::{Attr, Condition, Query, Row, is_same};
use std::alloc::{AllocError, Global};

/// A family, and the column for which it is one.
#[derive(Drop)]
pub struct FoundFamily {
    pub attr: Attr,
    pub family: Family,
}

// Adds the row of a number with these values, and what asks for it.
fn add_drawn(
    ground: &Ground,
    values: &[i128],
    own: u8,
    number: u16,
    m: &mut Vec<Row>,
    g: &mut Vec<Asked>,
) -> Result<(), AllocError>
    requires values { length values.now ≡ length ground.now.attrs.now }
    requires far { All IsFarWithin values.now }
    requires many { length ground.now.from.now ≡ length ground.now.blanks.now }
    requires few { length ground.now.from.now ≤ 4 }
    requires own { own < length ground.now.from.now }
    ensures { OnOk result (AddsDrawnRow ground.now values.now own number m.old.items g.old.items m.new.items g.new.items) }
{
    let Member { row, asked } = drawn_member(ground, values, own, number);
    match m.push(row) {
        Ok(()) => match g.push(asked) {
            Ok(()) => Ok(()),
            Err(_) => Err(AllocError),
        },
        Err(_) => Err(AllocError),
    }
}

// Adds the rows of all numbers, and what asks for each.
fn fill_drawn(
    ground: &Ground,
    all: &[Values],
    own: u8,
    m: &mut Vec<Row>,
    g: &mut Vec<Asked>,
) -> Result<(), AllocError>
    requires ground { IsDrawnGround ground.now all.now own }
    requires no_rows { m.old.items ≡ [] }
    requires no_asked { g.old.items ≡ [] }
    ensures { OnOk result (AreDrawnMembers ground.now all.now own (length all.now) (rows_in m.new.items) (asking_in g.new.items)) }
{
    for number in 0..all.len() {
        match add_drawn(ground, all[number].as_slice(), own, number as u16, m, g) {
            Ok(()) => {}
            Err(error) => return Err(error),
        }
    }
    Ok(())
}

// The rows of these values at the place of a column, and what asks for them.
fn drawn(
    alloc: Global,
    q: &Query,
    attr: Attr,
    blanks: &[Row],
    all: &[Values],
) -> Result<Family, AllocError>
    requires open { IsOpenIn q.now attr }
    requires blanks { AreBlanks q.now (rows_in blanks.now) }
    requires solutions { AreSolutions q.now (length all.now) all.now }
    requires few { length all.now ≤ 65535 }
    ensures { IfOk result (IsDrawnFamily q.now attr (rows_in blanks.now) all.now) }
{
    let bounds = Bounds::of_query(q);
    let ground = Ground {
        attrs: q.attrs(),
        from: q.from(),
        blanks,
        bounds: &bounds,
        named: attr,
        node: 0,
        low: None,
        high: None,
    };
    let mut m = Vec::new(alloc);
    let mut g = Vec::new(alloc);
    match fill_drawn(&ground, all, attr.stream, &mut m, &mut g) {
        Ok(()) => Ok(Family {
            stream: q.from()[usize::from(attr.stream)],
            m,
            g,
        }),
        Err(error) => Err(error),
    }
}

// Whether a column is an attribute of the query.
fn is_attribute(q: &Query, attr: Attr) -> bool
    ensures { IsTrue result → Contains (attrs_of q.now.atoms) attr }
{
    let attrs = q.attrs();
    place_of(attrs, attr) < attrs.len()
}

// Whether a column has a domain.
fn has_domain(q: &Query, attr: Attr) -> bool
    ensures { (d : Domain) → Contains q.now.domains d → IsFalse result → d.attr ≢ attr }
{
    q.domains().iter().any(|d| is_same(d.attr, attr))
}

// Whether a column is selected.
fn is_selected(q: &Query, attr: Attr) -> bool
    ensures { IsTrue result → Contains q.now.select attr }
{
    q.select().iter().any(|a| is_same(*a, attr))
}

// Whether a column is selected, and is an attribute or has no domain.
fn is_open_selected(q: &Query, attr: Attr) -> bool
    ensures selected { IsTrue result → Contains q.now.select attr }
    ensures open { IsTrue result → IsOpenIn q.now attr }
{
    if !is_selected(q, attr) {
        return false;
    }
    if is_attribute(q, attr) {
        return true;
    }
    !has_domain(q, attr)
}

// A family for a selected column, with another value at each number.
fn by_value(
    alloc: Global,
    q: &Query,
    attr: Attr,
    blanks: &[Row],
    n: u16,
) -> Result<Option<Family>, AllocError>
    requires counted { IsFalse (is_filter q.now) }
    requires blanks { AreBlanks q.now (rows_in blanks.now) }
    ensures { IfOk result (λ found. IfSome found (IsFamilyLike q.now (rows_in blanks.now) C1 attr n)) }
{
    if !is_open_selected(q, attr) {
        return Ok(None);
    }
    match different(alloc, q, attr, n)? {
        Some(all) => Ok(Some(drawn(alloc, q, attr, blanks, &all)?)),
        None => Ok(None),
    }
}

// A family for a column of which no mixtures satisfy the query.
fn by_mixtures(
    alloc: Global,
    q: &Query,
    condition: Condition,
    attr: Attr,
    blanks: &[Row],
    n: u16,
) -> Result<Option<Family>, AllocError>
    requires inequality { ¬ (condition ≡ C1) }
    requires several { 1 < length q.now.from }
    requires named { Contains (attrs_of q.now.atoms) attr }
    requires blanks { AreBlanks q.now (rows_in blanks.now) }
    ensures { IfOk result (λ found. IfSome found (IsFamilyLike q.now (rows_in blanks.now) condition attr n)) }
{
    // Named for the proof alone: the contract speaks of it.
    let _condition = condition;
    match apart(alloc, q, attr.stream, n)? {
        Some(all) => Ok(Some(drawn(alloc, q, attr, blanks, &all)?)),
        None => Ok(None),
    }
}

// A family for a column of which no mixtures of one kind satisfy the query.
fn by_one_kind(
    alloc: Global,
    q: &Query,
    condition: Condition,
    attr: Attr,
    blanks: &[Row],
    n: u16,
) -> Result<Option<Family>, AllocError>
    requires inequality { ¬ (condition ≡ C1) }
    requires plain { IsFalse q.now.distinct }
    requires several { 1 < length q.now.from }
    requires named { Contains (attrs_of q.now.atoms) attr }
    requires blanks { AreBlanks q.now (rows_in blanks.now) }
    ensures { IfOk result (λ found. IfSome found (IsFamilyLike q.now (rows_in blanks.now) condition attr n)) }
{
    // Named for the proof alone: the contract speaks of it.
    let _condition = condition;
    match apart_once(alloc, q, attr.stream, n)? {
        Some(all) => Ok(Some(drawn(alloc, q, attr, blanks, &all)?)),
        None => Ok(None),
    }
}

// A family for a column of which the mixtures of the next number fail, and no others.
fn by_next(
    alloc: Global,
    q: &Query,
    condition: Condition,
    attr: Attr,
    blanks: &[Row],
    n: u16,
) -> Result<Option<Family>, AllocError>
    requires inequality { ¬ (condition ≡ C1) }
    requires plain { IsFalse q.now.distinct }
    requires several { 1 < length q.now.from }
    requires named { Contains (attrs_of q.now.atoms) attr }
    requires blanks { AreBlanks q.now (rows_in blanks.now) }
    ensures { IfOk result (λ found. IfSome found (IsFamilyLike q.now (rows_in blanks.now) condition attr n)) }
{
    // Named for the proof alone: the contract speaks of it.
    let _condition = condition;
    match apart_as_next(alloc, q, attr.stream, n)? {
        Some(all) => Ok(Some(drawn(alloc, q, attr, blanks, &all)?)),
        None => Ok(None),
    }
}

/// Which mixtures of assignments fail: those of both kinds, those of one kind, or those of the next number alone.
#[derive(Clone, Copy)]
enum Failing {
    Both,
    One,
    Next,
}

// A family for a column of which these mixtures fail. With DISTINCT it takes both kinds.
fn by_failing(
    alloc: Global,
    q: &Query,
    condition: Condition,
    attr: Attr,
    blanks: &[Row],
    n: u16,
    failing: Failing,
) -> Result<Option<Family>, AllocError>
    requires inequality { ¬ (condition ≡ C1) }
    requires several { 1 < length q.now.from }
    requires named { Contains (attrs_of q.now.atoms) attr }
    requires blanks { AreBlanks q.now (rows_in blanks.now) }
    ensures { IfOk result (λ found. IfSome found (IsFamilyLike q.now (rows_in blanks.now) condition attr n)) }
{
    match failing {
        Failing::Both => by_mixtures(alloc, q, condition, attr, blanks, n),
        Failing::One => if q.distinct() {
            Ok(None)
        } else {
            by_one_kind(alloc, q, condition, attr, blanks, n)
        },
        Failing::Next => if q.distinct() {
            Ok(None)
        } else {
            by_next(alloc, q, condition, attr, blanks, n)
        },
    }
}

// The same of any column: none of one that is no attribute, nor over one stream.
fn by_column(
    alloc: Global,
    q: &Query,
    condition: Condition,
    attr: Attr,
    blanks: &[Row],
    n: u16,
    failing: Failing,
) -> Result<Option<FoundFamily>, AllocError>
    requires inequality { ¬ (condition ≡ C1) }
    requires blanks { AreBlanks q.now (rows_in blanks.now) }
    ensures { IfOk result (λ found. IfSome found (IsFoundFor q.now (rows_in blanks.now) condition n)) }
{
    if !is_attribute(q, attr) {
        return Ok(None);
    }
    if q.from().len() < 2 {
        return Ok(None);
    }
    match by_failing(alloc, q, condition, attr, blanks, n, failing)? {
        Some(family) => Ok(Some(FoundFamily { attr, family })),
        None => Ok(None),
    }
}

// The same of the first of these columns that is of another stream than one, and has one.
fn by_others(
    alloc: Global,
    q: &Query,
    condition: Condition,
    attr: Attr,
    blanks: &[Row],
    n: u16,
    failing: Failing,
) -> Result<Option<FoundFamily>, AllocError>
    requires inequality { ¬ (condition ≡ C1) }
    requires blanks { AreBlanks q.now (rows_in blanks.now) }
    ensures { IfOk result (λ found. IfSome found (IsFoundFor q.now (rows_in blanks.now) condition n)) }
{
    for other in q.attrs() {
        if other.stream != attr.stream {
            match by_column(alloc, q, condition, *other, blanks, n, failing)? {
                Some(found) => return Ok(Some(found)),
                None => {}
            }
        }
    }
    Ok(None)
}

// The same of a column, or else of one of another stream.
fn by_columns(
    alloc: Global,
    q: &Query,
    condition: Condition,
    attr: Attr,
    blanks: &[Row],
    n: u16,
    failing: Failing,
) -> Result<Option<FoundFamily>, AllocError>
    requires inequality { ¬ (condition ≡ C1) }
    requires blanks { AreBlanks q.now (rows_in blanks.now) }
    ensures { IfOk result (λ found. IfSome found (IsFoundFor q.now (rows_in blanks.now) condition n)) }
{
    match by_column(alloc, q, condition, attr, blanks, n, failing)? {
        Some(found) => Ok(Some(found)),
        None => by_others(alloc, q, condition, attr, blanks, n, failing),
    }
}

// The same where mixtures of one kind fail, or else those of the next number.
fn by_counts(
    alloc: Global,
    q: &Query,
    condition: Condition,
    attr: Attr,
    blanks: &[Row],
    n: u16,
) -> Result<Option<FoundFamily>, AllocError>
    requires inequality { ¬ (condition ≡ C1) }
    requires blanks { AreBlanks q.now (rows_in blanks.now) }
    ensures { IfOk result (λ found. IfSome found (IsFoundFor q.now (rows_in blanks.now) condition n)) }
{
    match by_columns(alloc, q, condition, attr, blanks, n, Failing::One)? {
        Some(found) => Ok(Some(found)),
        None => by_columns(alloc, q, condition, attr, blanks, n, Failing::Next),
    }
}

// The same where mixtures of both kinds fail, or else as without DISTINCT the numbers of answers tell sets apart.
fn by_mixtures_or_counts(
    alloc: Global,
    q: &Query,
    condition: Condition,
    attr: Attr,
    blanks: &[Row],
    n: u16,
) -> Result<Option<FoundFamily>, AllocError>
    requires inequality { ¬ (condition ≡ C1) }
    requires blanks { AreBlanks q.now (rows_in blanks.now) }
    ensures { IfOk result (λ found. IfSome found (IsFoundFor q.now (rows_in blanks.now) condition n)) }
{
    match by_columns(alloc, q, condition, attr, blanks, n, Failing::Both)? {
        Some(found) => Ok(Some(found)),
        None => by_counts(alloc, q, condition, attr, blanks, n),
    }
}

// The same for an unbounded inequality. Where both kinds fail, so does one, so without DISTINCT both are not asked for.
fn by_inequality(
    alloc: Global,
    q: &Query,
    attr: Attr,
    blanks: &[Row],
    n: u16,
) -> Result<Option<FoundFamily>, AllocError>
    requires blanks { AreBlanks q.now (rows_in blanks.now) }
    ensures { IfOk result (λ found. IfSome found (IsFoundFor q.now (rows_in blanks.now) C3 n)) }
{
    if q.distinct() {
        return by_columns(alloc, q, Condition::C3, attr, blanks, n, Failing::Both);
    }
    by_counts(alloc, q, Condition::C3, attr, blanks, n)
}

/// Returns a family of n rows for a condition that is broken at a column, or none where none is found: for an unbounded selected column at that column, and else
/// at the column or at one of another stream. Its rows move in equal steps from one assignment that satisfies the query. `blanks` has for each place of FROM a
/// row with a value for each column that the query reads, in the domains of the query; what the query does not read stays as it is there. An error says that
/// memory was not found.
pub fn moved_family(
    alloc: Global,
    q: &Query,
    condition: Condition,
    attr: Attr,
    blanks: &[Row],
    n: u16,
) -> Result<Option<FoundFamily>, AllocError>
    requires counted { IsFalse (is_filter q.now) }
    requires blanks { AreBlanks q.now (rows_in blanks.now) }
    ensures { IfOk result (λ found. IfSome found (IsFoundFor q.now (rows_in blanks.now) condition n)) }
{
    match condition {
        Condition::C1 => match by_value(alloc, q, attr, blanks, n)? {
            Some(family) => Ok(Some(FoundFamily { attr, family })),
            None => Ok(None),
        },
        Condition::C2 => by_mixtures_or_counts(alloc, q, condition, attr, blanks, n),
        Condition::C3 => by_inequality(alloc, q, attr, blanks, n),
    }
}
