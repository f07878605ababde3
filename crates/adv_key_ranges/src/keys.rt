//! The keys that a query reads, and the values that their domains have in common.
ghost use Rattle.std.specs.Prelude.{◌≡◌, ◌≤◌, ◌<◌, ◌++◌, ◌∷◌, [], length, filter};
ghost use Rattle.std.specs.List.{slice_index_or};
ghost use Rattle.adv_key_decision.specs.Judged.{by_stream, key_of_place};
ghost use Rattle.adv_key_ranges.specs.Keys.{is_among, reads, read_key, read_keys, met, common, range_between, key_range, AreKeyEnds};

use adv_key_decision::key_at;
use adv_mends::Ends;
use arrayvec::ArrayVec;
use sem_query::{Attr, Domain, Query, is_same};

/// Returns whether a column is among some columns.
pub(crate) fn is_among(columns: &[Attr], column: Attr) -> bool
    ensures { result ≡ is_among columns.now column }
{
    columns.iter().any(|other| is_same(*other, column))
}

// Whether a query compares or selects a column.
fn reads(query: &Query, column: Attr) -> bool
    ensures { result ≡ reads query.now column }
{
    if is_among(query.attrs(), column) {
        true
    } else {
        is_among(query.select(), column)
    }
}

// Puts a key behind others, where the query reads it.
fn add_read(list: &mut ArrayVec<Attr, 4>, query: &Query, key: Option<Attr>)
    requires { length list.old.items < 4 }
    ensures { list.new.items ≡ list.old.items ++ read_key query.now key }
{
    match key {
        Some(column) => {
            if reads(query, column) {
                list.push(column);
            }
        }
        None => {}
    }
}

/// Returns the key columns of the streams of FROM that the query compares or selects, where rows go by these keys, one for each stream by its number, or
/// none where it is broadcast.
pub(crate) fn read_keys(query: &Query, choice: &[Option<u8>]) -> ArrayVec<Attr, 4>
    ensures { result.items ≡ read_keys query.now (by_stream choice.now) }
{
    let mut list = ArrayVec::new();
    for place in 0..query.from().len() {
        add_read(&mut list, query, key_at(query, choice, place));
    }
    list
}

// What a domain has in common with a range, which is none where no domain was met.
fn met(domain: Domain, range: Option<Ends>) -> Ends
    ensures { result ≡ met domain range }
{
    match range {
        Some(ends) => Ends {
            lo: if ends.lo < domain.lo {
                domain.lo
            } else {
                ends.lo
            },
            hi: if domain.hi < ends.hi {
                domain.hi
            } else {
                ends.hi
            },
        },
        None => Ends {
            lo: domain.lo,
            hi: domain.hi,
        },
    }
}

// The ends of what the domains of some columns have in common, or none where no one has a domain.
fn common(domains: &[Domain], columns: &[Attr]) -> Option<Ends>
    ensures { result ≡ common (filter (λ d. is_among columns.now d.attr) domains.now) }
{
    match domains {
        [] => None,
        [domain, others @ ..] => {
            let range = common(others, columns);
            if is_among(columns, domain.attr) {
                Some(met(*domain, range))
            } else {
                range
            }
        }
    }
}

// A range that has a value, or none.
fn some_value(range: Option<Ends>) -> Option<Ends>
    ensures { result ≡ range_between range }
{
    match range {
        Some(ends) => { if ends.hi < ends.lo { None } else { Some(ends) } }
        None => None,
    }
}

/// Returns the ends of the values that the domains of some columns of a query have in common, or none where no one has a domain or there is no such value.
pub(crate) fn key_range(query: &Query, columns: &[Attr]) -> Option<Ends>
    ensures range { result ≡ key_range query.now columns.now }
    ensures ends { AreKeyEnds result }
{
    some_value(common(query.domains(), columns))
}
