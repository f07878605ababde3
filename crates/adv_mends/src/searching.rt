//! The search for least sets of columns.
ghost use Rattle.std.specs.Prelude.{◌≡◌, ◌↔◌, ◌<◌, ◌≤◌, length, min, IsTrue, OnOk, IfOk, ◌+◌, ◌++◌, filter, not};
ghost use Rattle.std.specs.List.{list_any};
ghost use Rattle.sem_query.specs.Query.{attr_eq};
ghost use Rattle.adv_mends.specs.Mended.{on};
ghost use Rattle.adv_mends.specs.Ends.{MendsBy};
ghost use Rattle.adv_mends.specs.Sublists.{IsSublist};
ghost use Rattle.adv_mends.specs.Sets.{HasWithin, AreLeastAmong, AreLeastSets, has_domain, with_column, columns_with, open_columns, sets_with, sets_of};
ghost use Rattle.adv_mends.specs.SetSearch.{behind, Looks};

use crate::mend::{ChangeKind, ColumnSet, Ends, Mend, above, below, copied, span, widest_ends};
use crate::writing::{mends, stays_met};
use arrayvec::ArrayVec;
use sem_query::{Attr, Domain, Query, is_same};
use std::alloc::{AllocError, Global};

/// Least sets of columns, and whether sets were left out of the search that found them.
#[derive(Drop)]
pub struct LeastSets {
    pub found: Vec<ColumnSet>,
    pub cut_short: bool,
}

fn is_among(columns: &[Attr], column: Attr) -> bool
    ensures { result ≡ list_any (λ b. attr_eq b column) columns.now }
{
    columns.iter().any(|b| is_same(*b, column))
}

fn has_domain(domains: &[Domain], column: Attr) -> bool
    ensures { result ≡ has_domain domains.now column }
{
    domains.iter().any(|d| is_same(d.attr, column))
}

// Adds a column behind some, where it is not among them.
fn add_column(columns: &mut ArrayVec<Attr, 20>, column: Attr)
    requires { length columns.old.items < 20 }
    ensures { columns.new.items ≡ with_column columns.old.items column }
{
    if !is_among(columns.as_slice(), column) {
        columns.push(column);
    }
}

// Some columns, and behind them those of others that are not among them.
fn columns_with(columns: &[Attr], others: &[Attr]) -> ArrayVec<Attr, 20>
    requires { length columns.now + length others.now ≤ 20 }
    ensures { result.items ≡ columns_with columns.now others.now }
{
    let mut list = copied(columns);
    'columns: for column in others {
        add_column(&mut list, *column);
    }
    list
}

// Those of some columns that have no domain, in their order.
fn without_domains(columns: &[Attr], domains: &[Domain]) -> ArrayVec<Attr, 20>
    requires { length columns.now ≤ 20 }
    ensures { result.items ≡ filter (λ a. not (has_domain domains.now a)) columns.now }
{
    let mut list = ArrayVec::new();
    'columns: for column in columns {
        if !has_domain(domains, *column) {
            list.push(*column);
        }
    }
    list
}

// The columns that may be given a domain: the attributes, and then the selected columns that are no attributes, without those that have one.
#[tactic(auto, unfolding(crate::specs::Sets::open_columns))]
fn open_columns(query: &Query) -> ArrayVec<Attr, 20>
    ensures { result.items ≡ open_columns query.now }
{
    let columns = columns_with(query.attrs(), query.select());
    without_domains(columns.as_slice(), query.domains())
}

// Adds the sets that begin with some columns and have so many more of others.
fn add_sets(
    list: &mut Vec<ColumnSet>,
    first: &[Attr],
    more: u8,
    columns: &[Attr],
) -> Result<(), AllocError>
    requires { length first.now + more ≤ 3 }
    ensures { OnOk result (list.new.items ≡ list.old.items ++ sets_with first.now more columns.now) }
{
    if more == 0 {
        list.push(ColumnSet::of(first))?;
        return Ok(());
    }
    match columns {
        [] => Ok(()),
        [column, others @ ..] => {
            let longer = ColumnSet::with(first, *column);
            add_sets(list, longer.columns(), more - 1, others)?;
            add_sets(list, first, more, others)
        }
    }
}

// The sets of at most three columns, the smaller ones first. `AllocError` where their list finds no memory.
#[tactic(auto, unfolding(crate::specs::Sets::sets_of))]
fn sets_of(alloc: Global, columns: &[Attr]) -> Result<Vec<ColumnSet>, AllocError>
    ensures { IfOk result (λ list. list.items ≡ sets_of columns.now) }
{
    let mut list = Vec::new(alloc);
    add_sets(&mut list, &[], 0, columns)?;
    add_sets(&mut list, &[], 1, columns)?;
    add_sets(&mut list, &[], 2, columns)?;
    add_sets(&mut list, &[], 3, columns)?;
    Ok(list)
}

// The columns behind the first, where that is the column, and else all.
fn behind(column: Attr, columns: &[Attr]) -> &[Attr]
    ensures { result.now ≡ behind column columns.now }
{
    match columns {
        [] => columns,
        [first, others @ ..] => {
            if is_same(*first, column) {
                others
            } else {
                columns
            }
        }
    }
}

// Whether some columns stand among others, in their order.
fn is_sublist(columns: &[Attr], others: &[Attr]) -> bool
    ensures { IsTrue result ↔ IsSublist columns.now others.now }
{
    match others {
        [] => columns.len() == 0,
        [other, rest @ ..] => is_sublist(behind(*other, columns), rest),
    }
}

// Whether a set contains one of some sets.
fn has_within(sets: &[ColumnSet], columns: &[Attr]) -> bool
    ensures { IsTrue result ↔ HasWithin sets.now columns.now }
{
    for i in 0..sets.len() {
        if is_sublist(sets[i].columns(), columns) {
            return true;
        }
    }
    false
}

// The change that bounds the columns of a set in one of two ways, between two ends.
fn on(kind: ChangeKind, ends: Ends, set: &ColumnSet) -> Mend
    ensures { result ≡ on kind ends set.now }
{
    let columns = ColumnSet::of(set.columns());
    match kind {
        ChangeKind::Bounds => Mend::Bounds(columns, ends),
        ChangeKind::Domains => Mend::Domains(columns, ends),
    }
}

// Whether bounds or domains on the columns of a set mend the query with the widest ends, and no condition refuses it with the two pairs close together, below all
// integers that it names and above them.
fn set_mends(
    alloc: Global,
    query: &Query,
    kind: ChangeKind,
    set: &ColumnSet,
) -> Result<bool, AllocError>
    requires { IsSublist set.now (open_columns query.now) }
    ensures { IfOk result (λ is. IsTrue is ↔ MendsBy kind set.now query.now) }
{
    if !mends(alloc, query, &on(kind, widest_ends(), set))? {
        return Ok(false);
    }
    let span = span(query);
    if !stays_met(alloc, query, &on(kind, below(&span), set))? {
        return Ok(false);
    }
    stays_met(alloc, query, &on(kind, above(&span), set))
}

// Adds a set to those that were found, where it contains none of them and mends the query.
fn look_at(
    alloc: Global,
    query: &Query,
    kind: ChangeKind,
    set: &ColumnSet,
    found: &mut Vec<ColumnSet>,
) -> Result<(), AllocError>
    requires { IsSublist set.now (open_columns query.now) }
    ensures { OnOk result (Looks kind query.now set.now found.old.items found.new.items) }
{
    if has_within(found.as_slice(), set.columns()) {
        return Ok(());
    }
    if !set_mends(alloc, query, kind, set)? {
        return Ok(());
    }
    found.push(ColumnSet::of(set.columns()))?;
    Ok(())
}

// Adds the least sets among the first of some, so many as may be looked at; the smaller ones stand first.
fn look_through(
    alloc: Global,
    query: &Query,
    kind: ChangeKind,
    sets: &[ColumnSet],
    most: u16,
) -> Result<Vec<ColumnSet>, AllocError>
    requires { sets.now ≡ sets_of (open_columns query.now) }
    ensures { IfOk result (λ found. AreLeastAmong kind query.now (min (length sets.now) most) found.items) }
{
    let mut found = Vec::new(alloc);
    for i in 0..sets.len().min(usize::from(most)) {
        look_at(alloc, query, kind, &sets[i], &mut found)?;
    }
    Ok(found)
}

/// Returns the least sets of at most three columns such that the query is mended with each of them bounded, by two comparisons or by a domain, among the first sets,
/// so many as may be looked at, in the order of their sizes. A set is looked at by the decision on the query with the change, with the widest ends and with two
/// pairs close together, below and above all integers that the query names; but one that contains a set that was found is passed over. Where the search is cut short, larger sets may be missing. `AllocError` where a list finds no memory.
pub fn least_sets(
    alloc: Global,
    query: &Query,
    most: u16,
    kind: ChangeKind,
) -> Result<LeastSets, AllocError>
    ensures { IfOk result (λ sets. AreLeastSets kind query.now most sets.found.items sets.cut_short) }
{
    let columns = open_columns(query);
    let sets = sets_of(alloc, columns.as_slice())?;
    let found = look_through(alloc, query, kind, &sets, most)?;
    Ok(LeastSets {
        found,
        cut_short: usize::from(most) < sets.len(),
    })
}
