//! A query with a change.
ghost use Rattle.std.specs.Prelude.{◌≡◌, ◌↔◌, ◌+◌, ◌*◌, ◌<◌, ◌≤◌, ◌++◌, ◌∷◌, [], length, filter, take_while, true, All, AllPairs, IsTrue, IfOk};
ghost use Rattle.sem_query.specs.Query.{attr_lt, is_soft, attrs_of, consts_of, with_new, AreNamed, IsDomain};
ghost use Rattle.sem_query.specs.declared.atom.Op.TheVariants as op;
ghost use Rattle.adv_mends.specs.Mended.{AreEnds, mended, domain_on, domain_lt, domains_with, compared, bounds_of, bounds_on, with_atoms, IsBound, Fit, Mends, IsWritten, IsWrittenAs};
ghost use Rattle.adv_mends.specs.declared.mend.Mend.TheVariants as changes;
ghost use Rattle.adv_mends.specs.Ends.{StaysMet};
ghost use Rattle.adv_mends.specs.Sublists.{IsSublist};
ghost use Rattle.adv_mends.specs.Sets.{IsMendOf, open_columns};

use crate::meeting::{meets, stands};
use crate::mend::{Ends, Mend, copied};
use arrayvec::ArrayVec;
use sem_query::{Atom, Attr, Domain, Element, Op, Query, is_before, put_element};
use std::alloc::{AllocError, Global};

/// The most domains that a query may have.
const MOST_DOMAINS: usize = 20;

/// The most comparisons that a query may have.
const MOST_COMPARISONS: usize = 16;

/// The most of them that may be soft.
const MOST_SOFT: usize = 8;

/// The most columns that they may name.
const MOST_ATTRS: usize = 12;

/// The most integers that they may name.
const MOST_CONSTS: usize = 6;

// The integers between two ends, both included, as the domain of a column.
pub(crate) fn domain_on(column: Attr, ends: Ends) -> Domain
    ensures { result ≡ domain_on ends column }
{
    Domain {
        attr: column,
        lo: ends.lo,
        hi: ends.hi,
    }
}

// How many domains are of columns before a column.
fn domains_before(domains: &[Domain], column: Attr) -> usize
    ensures { result ≡ length (take_while (λ d. attr_lt d.attr column) domains.now) }
{
    domains
        .iter()
        .take_while(|d| is_before(d.attr, column))
        .count()
}

// Puts a domain of a column among ascending domains, where the column has none.
fn put(domains: &mut ArrayVec<Domain, 23>, column: Attr, ends: Ends)
    requires { length domains.old.items < 23 }
    ensures { domains.new.items ≡ with_new domain_lt (domain_on ends column) domains.old.items }
{
    let place = domains_before(domains.as_slice(), column);
    if place == domains.len() || is_before(column, domains.as_slice()[place].attr) {
        domains.insert(place, domain_on(column, ends));
    }
}

// The domains, with one between two ends for each of the columns that has none.
fn domains_with(domains: &[Domain], columns: &[Attr], ends: Ends) -> ArrayVec<Domain, 23>
    requires { length domains.now + length columns.now ≤ 23 }
    ensures { result.items ≡ domains_with ends domains.now columns.now }
{
    let mut list = copied(domains);
    'columns: for column in columns {
        put(&mut list, *column, ends);
    }
    list
}

// A query like another, with DISTINCT or without, with these domains, compact or not.
fn like(query: &Query, distinct: bool, domains: &[Domain], compact: bool) -> Query
    requires few { length domains.now ≤ 20 }
    requires domains { All (IsDomain query.now) domains.now }
    requires ascending { AllPairs (λ d e. IsTrue (attr_lt d.attr e.attr)) domains.now }
    ensures { result ≡ record query.now { distinct = distinct; domains = domains.now; compact = compact } }
{
    Query::new(
        distinct,
        query.from(),
        query.select(),
        query.atoms(),
        domains,
        compact,
    )
}

// The query with a domain on each of some columns.
fn with_domains(query: &Query, columns: &[Attr], ends: Ends) -> Option<Query>
    requires few { length columns.now ≤ 3 }
    requires columns { IsSublist columns.now (open_columns query.now) }
    requires ends { AreEnds ends }
    ensures { IsWritten (changes.Domains columns.now ends) query.now result }
{
    let domains = domains_with(query.domains(), columns, ends);
    if domains.len() > MOST_DOMAINS {
        return None;
    }
    Some(like(query, query.distinct(), domains.as_slice(), query.compact()))
}

// The comparisons, with more behind them.
fn atoms_with(atoms: &[Atom], more: &[Atom]) -> ArrayVec<Atom, 22>
    requires { length atoms.now + length more.now ≤ 22 }
    ensures { result.items ≡ atoms.now ++ more.now }
{
    let mut list = copied(atoms);
    for atom in more {
        list.push(*atom);
    }
    list
}

// A column compared with an integer.
pub(crate) fn compared(column: Attr, op: Op, value: i64) -> Atom
    ensures { result ≡ compared column op value }
{
    Atom {
        left: Element::Attr(column),
        op,
        right: Element::Const(value),
    }
}

// Adds a column above the first of two integers, and below the second.
fn add_bounds(list: &mut ArrayVec<Atom, 6>, column: Attr, ends: Ends)
    requires { length list.old.items + 2 ≤ 6 }
    ensures { list.new.items ≡ list.old.items ++ bounds_of ends column }
{
    list.push(compared(column, Op::Gt, ends.lo));
    list.push(compared(column, Op::Lt, ends.hi));
}

// Each of some columns above the first of two integers, and below the second.
fn bounds_on(columns: &[Attr], ends: Ends) -> ArrayVec<Atom, 6>
    requires { length columns.now ≤ 3 }
    ensures { result.items ≡ bounds_on ends columns.now }
{
    let mut list = ArrayVec::new();
    'columns: for column in columns {
        add_bounds(&mut list, *column, ends);
    }
    list
}

// The columns and the integers of some comparisons.
fn named(atoms: &[Atom]) -> (ArrayVec<Attr, 32>, ArrayVec<i64, 32>)
    requires few_attrs { length (attrs_of atoms.now) ≤ 32 }
    requires few_consts { length (consts_of atoms.now) ≤ 32 }
    ensures { AreNamed atoms.now result.0.items result.1.items }
{
    match atoms {
        [] => (ArrayVec::new(), ArrayVec::new()),
        [atom, others @ ..] => {
            let (mut attrs, mut consts) = named(others);
            put_element(atom.right, &mut attrs, &mut consts);
            put_element(atom.left, &mut attrs, &mut consts);
            (attrs, consts)
        }
    }
}

// How many comparisons are soft.
fn soft_count(atoms: &[Atom]) -> usize
    ensures { result ≡ length (filter (λ t. is_soft t.op) atoms.now) }
{
    atoms.iter().filter(|t| t.op.is_soft()).count()
}

// Whether comparisons name few enough columns and integers for a query, of at most 16 comparisons.
fn names_few(atoms: &[Atom]) -> bool
    requires { length atoms.now ≤ 16 }
    ensures { IsTrue result ↔ (length (attrs_of atoms.now) ≤ 12) × (length (consts_of atoms.now) ≤ 6) }
{
    let (attrs, consts) = named(atoms);
    attrs.len() <= MOST_ATTRS && consts.len() <= MOST_CONSTS
}

// Whether there are few enough comparisons for a query, and of the columns and the integers that they name.
fn fit(atoms: &[Atom]) -> bool
    ensures { IsTrue result ↔ Fit atoms.now }
{
    if atoms.len() > MOST_COMPARISONS || soft_count(atoms) > MOST_SOFT {
        return false;
    }
    names_few(atoms)
}

// The query with more comparisons.
fn with_atoms(query: &Query, more: &[Atom]) -> Option<Query>
    requires few { length more.now ≤ 6 }
    requires bounds { All (IsBound query.now) more.now }
    ensures { IsWrittenAs (with_atoms more.now query.now) result }
{
    let atoms = atoms_with(query.atoms(), more);
    if !fit(atoms.as_slice()) {
        return None;
    }
    Some(Query::new(
        query.distinct(),
        query.from(),
        query.select(),
        atoms.as_slice(),
        query.domains(),
        query.compact(),
    ))
}

/// Returns the query with a change, or none where it would pass a limit of a statement.
pub fn written(query: &Query, mend: &Mend) -> Option<Query>
    requires { IsMendOf query.now mend.now }
    ensures { IsWritten mend.now query.now result }
{
    match mend {
        Mend::Distinct => Some(like(query, true, query.domains(), query.compact())),
        Mend::Domains(set, ends) => with_domains(query, set.columns(), *ends),
        Mend::Bounds(set, ends) => with_atoms(query, bounds_on(set.columns(), *ends).as_slice()),
        Mend::Comparison(atom) => with_atoms(query, &[*atom]),
        Mend::Compact => Some(like(query, query.distinct(), query.domains(), true)),
        Mend::Shared => Some(like(query, query.distinct(), query.domains(), query.compact())),
    }
}

/// Returns whether the query with a change is within the limits of a statement and meets all conditions, with a part or without one. `AllocError` where the
/// decision finds no memory.
pub fn stays_met(alloc: Global, query: &Query, mend: &Mend) -> Result<bool, AllocError>
    requires { IsMendOf query.now mend.now }
    ensures { IfOk result (λ is. IsTrue is ↔ StaysMet mend.now query.now) }
{
    match written(query, mend) {
        Some(other) => meets(alloc, &other),
        None => Ok(false),
    }
}

/// Returns whether a change mends the query: with it the query is within the limits of a statement, meets all conditions, and has a part. `AllocError` where the
/// decision finds no memory.
pub fn mends(alloc: Global, query: &Query, mend: &Mend) -> Result<bool, AllocError>
    requires { IsMendOf query.now mend.now }
    ensures { IfOk result (λ is. IsTrue is ↔ Mends mend.now query.now) }
{
    match written(query, mend) {
        Some(other) => stands(alloc, &other),
        None => Ok(false),
    }
}
