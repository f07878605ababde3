//! A query whose keys have narrower domains.
ghost use Rattle.std.specs.Prelude.{◌≡◌, ◌≤◌, ◌<◌, ◌+◌, ◌++◌, length, take_while, All, AllPairs, IsTrue};
ghost use Rattle.sem_query.specs.Query.{attr_lt, with_new, IsDomain};
ghost use Rattle.adv_mends.specs.Mended.{AreEnds, domain_on, domain_lt, domains_with, IsWrittenAs};
ghost use Rattle.adv_key_ranges.specs.Keys.{AreRead};
ghost use Rattle.adv_key_ranges.specs.Narrowed.{other, of_others, narrowed};

use crate::keys::is_among;
use adv_mends::Ends;
use arrayvec::ArrayVec;
use sem_query::{Attr, Domain, Query, is_before};

/// The most domains that a query may have.
const MOST_DOMAINS: usize = 20;

// The integers between two ends, both included, as the domain of a column.
fn domain_on(column: Attr, ends: Ends) -> Domain
    ensures { result ≡ domain_on ends column }
{
    Domain {
        attr: column,
        lo: ends.lo,
        hi: ends.hi,
    }
}

// How many domains are of columns before a column.
fn domains_before(domains: &[Domain], column: Attr) -> usize
    ensures { result ≡ length (take_while (λ d. attr_lt d.attr column) domains.now) }
{
    domains
        .iter()
        .take_while(|d| is_before(d.attr, column))
        .count()
}

// Puts a domain of a column among ascending domains, where the column has none.
fn put(domains: &mut ArrayVec<Domain, 24>, column: Attr, ends: Ends)
    requires { length domains.old.items < 24 }
    ensures { domains.new.items ≡ with_new domain_lt (domain_on ends column) domains.old.items }
{
    let place = domains_before(domains.as_slice(), column);
    if place == domains.len() || is_before(column, domains.as_slice()[place].attr) {
        domains.insert(place, domain_on(column, ends));
    }
}

// Puts a domain behind others, where its column is not among some.
fn add_other(list: &mut ArrayVec<Domain, 24>, columns: &[Attr], domain: Domain)
    requires { length list.old.items < 24 }
    ensures { list.new.items ≡ list.old.items ++ other columns.now domain }
{
    if !is_among(columns, domain.attr) {
        list.push(domain);
    }
}

// The domains of all columns but some.
fn of_others(domains: &[Domain], columns: &[Attr]) -> ArrayVec<Domain, 24>
    requires { length domains.now ≤ 20 }
    ensures others { result.items ≡ of_others columns.now domains.now }
    ensures few { length result.items ≤ 20 }
{
    let mut list = ArrayVec::new();
    'domains: for domain in domains {
        add_other(&mut list, columns, *domain);
    }
    list
}

// The domains, with these ends at each of some columns.
fn domains_with(domains: &[Domain], columns: &[Attr], ends: Ends) -> ArrayVec<Domain, 24>
    requires domains { length domains.now ≤ 20 }
    requires columns { length columns.now ≤ 4 }
    ensures { result.items ≡ domains_with ends (of_others columns.now domains.now) columns.now }
{
    let mut list = of_others(domains, columns);
    'columns: for column in columns {
        put(&mut list, *column, ends);
    }
    list
}

// A query with other domains.
fn with_domains(query: &Query, domains: &[Domain]) -> Query
    requires few { length domains.now ≤ 20 }
    requires domains { All (IsDomain query.now) domains.now }
    requires ascending { AllPairs (λ d e. IsTrue (attr_lt d.attr e.attr)) domains.now }
    ensures { result ≡ record query.now { domains = domains.now } }
{
    Query::new(
        query.distinct(),
        query.from(),
        query.select(),
        query.atoms(),
        domains,
        query.compact(),
    )
}

/// Returns the query with the values between two ends as the domain of each of some columns that it reads, or none where it would have more domains than
/// a statement may.
pub(crate) fn narrowed(query: &Query, columns: &[Attr], ends: Ends) -> Option<Query>
    requires few { length columns.now ≤ 4 }
    requires columns { AreRead query.now columns.now }
    requires ends { AreEnds ends }
    ensures { IsWrittenAs (narrowed columns.now ends query.now) result }
{
    let domains = domains_with(query.domains(), columns, ends);
    if domains.len() > MOST_DOMAINS {
        return None;
    }
    Some(with_domains(query, domains.as_slice()))
}
