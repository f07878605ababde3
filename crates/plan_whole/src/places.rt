//! Where columns stand in a list, by a table with a place for each of the first 8 columns of the first 4 streams.
ghost use Rattle.std.specs.Prelude.{◌≡◌, ◌<◌, ◌≤◌, ◌↔◌, ◌+◌, ◌*◌, length, IsTrue};
ghost use Rattle.plan_constraints.specs.Nodes.{place_of};
ghost use Rattle.plan_whole.specs.Places.{ArePlaces};

use plan_constraints::place_of;
use sem_query::Attr;

// Whether a column has a place of its own in the table.
fn is_tabled(a: Attr) -> bool
    ensures { IsTrue result ↔ ((a.stream < 4) × (a.column < 8)) }
{
    a.stream < 4 && a.column < 8
}

// Where the table tells the place of a column.
fn index_of(a: Attr) -> usize
    requires stream { a.stream < 4 }
    requires column { a.column < 8 }
    ensures { result ≡ 8 * a.stream + a.column }
{
    8 * usize::from(a.stream) + usize::from(a.column)
}

/// Returns the table of the places of columns in a list, or of its length where a column is not in it.
pub fn places_of(attrs: &[Attr]) -> [u8; 32]
    requires { length attrs.now ≤ 12 }
    ensures { ArePlaces attrs.now result }
{
    let mut places = [attrs.len() as u8; 32];
    for i in 0..attrs.len() {
        // From the last to the first, so that the first of equal columns is the one that stays.
        let place = attrs.len() - (i + 1);
        let attr = attrs[place];
        if is_tabled(attr) {
            places[index_of(attr)] = place as u8;
        }
    }
    places
}

/// Returns the place of a column in a list, or its length where the column is not in it, by the table of the places in it.
pub fn place_in(places: &[u8; 32], attrs: &[Attr], a: Attr) -> usize
    requires { ArePlaces attrs.now places.now }
    ensures { result ≡ place_of attrs.now a }
{
    if is_tabled(a) {
        usize::from(places[index_of(a)])
    } else {
        place_of(attrs, a)
    }
}
