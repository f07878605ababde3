//! Rows of which nothing is asked.
ghost use Rattle.std.specs.Prelude.{◌≡◌, ◌<◌, ◌≤◌, length, map};
ghost use Rattle.std.specs.List.{All};
ghost use Rattle.fam_fooling_sets.specs.Shown.{rows_in};
ghost use Rattle.fam_text.specs.Blank as blank;

use arrayvec::ArrayVec;
use sem_query::Row;
use sql_catalog::Catalog;

// The least value of a domain, or 0 where there is none.
fn least(domain: Option<(i64, i64)>) -> i64
    ensures { result ≡ blank.least domain }
{
    match domain {
        Some((low, _)) => low,
        None => 0,
    }
}

// The row of a stream that has the least value of each domain, and 0 elsewhere.
fn blank_row(catalog: &Catalog, stream: u8) -> Row
    requires { stream < length catalog.now }
    ensures { result.items ≡ blank.blank_row catalog.now stream }
{
    let width = catalog.width(stream);
    let mut row = Row::new();
    for column in 0..width {
        row.push(least(catalog.domain(stream, column)));
    }
    row
}

/// Returns such a row for each of these streams.
pub fn blanks(catalog: &Catalog, from: &[u8]) -> ArrayVec<Row, 4>
    requires few { length from.now ≤ 4 }
    requires known { All (λ n. n < length catalog.now) from.now }
    ensures { rows_in result.items ≡ map (blank.blank_row catalog.now) from.now }
{
    let mut list = ArrayVec::new();
    for i in 0..from.len() {
        list.push(blank_row(catalog, from[i]));
    }
    list
}
