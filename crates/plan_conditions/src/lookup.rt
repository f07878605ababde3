//! Columns among columns and domains.
ghost use Rattle.std.specs.Prelude.{◌≡◌, ◌↔◌, IsTrue};
ghost use Rattle.std.specs.List.{Any};
ghost use Rattle.plan_conditions.specs.Deciding.{IsPlace, IsDomainOf};

use sem_query::{Attr, Domain};

/// Returns whether a column is among some.
pub fn is_among(columns: &[Attr], attr: Attr) -> bool
    ensures { IsTrue result ↔ Any (λ a. a ≡ attr) columns.now }
{
    for i in 0..columns.len() {
        if columns[i] == attr {
            return true;
        }
    }
    false
}

/// Returns whether some column is of a stream.
pub fn has_stream(columns: &[Attr], stream: u8) -> bool
    ensures { IsTrue result ↔ Any (λ a. a.stream ≡ stream) columns.now }
{
    for a in columns {
        if a.stream == stream {
            return true;
        }
    }
    false
}

/// Returns the place of a column among some, or none where it is not there.
pub fn place_of(columns: &[Attr], attr: Attr) -> Option<usize>
    ensures { IsPlace columns.now attr result }
{
    for i in 0..columns.len() {
        if columns[i] == attr {
            return Some(i);
        }
    }
    None
}

/// Returns the domain of a column, or none where it has none.
pub fn domain_of(domains: &[Domain], attr: Attr) -> Option<Domain>
    ensures { IsDomainOf domains.now attr result }
{
    for i in 0..domains.len() {
        if domains[i].attr == attr {
            return Some(domains[i]);
        }
    }
    None
}
