//! The streams as entries of a map from name to columns, whose clauses speak of the shapes that the entries are.
ghost use Rattle.std.specs.Prelude.{◌≡◌, ◌<◌, ◌≤◌, ◌+◌, [], ◌∷◌, ◌++◌, false, IfSome};
ghost use Rattle.std.specs.List.{list_any};
ghost use Rattle.std.specs.Str.{bytes_eq};
ghost use Rattle.indexmap.specs.IndexMap.{index_map_len, spare};
ghost use Rattle.sql_catalog.specs.Streams.{IsName, shapes_of, shape_at, stream_number};

use crate::columns::Columns;
use indexmap::IndexMap;
use sql_text::Name;

/// Returns whether a stream has the name.
pub fn has_name(streams: &IndexMap<Name, Columns>, name: &Name) -> bool
    ensures { result ≡ list_any (λ s. bytes_eq s.name name.now) (shapes_of streams.now.entries) }
{
    streams.contains_key(name)
}

/// Returns the place of the stream of this name.
pub fn place_of_name(streams: &IndexMap<Name, Columns>, name: &Name) -> Option<usize>
    ensures place { result ≡ stream_number (shapes_of streams.now.entries) name.now }
    ensures inside { IfSome result (λ place. place < index_map_len streams.now) }
{
    streams.get_index_of(name)
}

/// Returns the name of the stream at a place.
pub fn name_at(streams: &IndexMap<Name, Columns>, place: usize) -> &Name
    requires { place < index_map_len streams.now }
    ensures { result.now ≡ (shape_at (shapes_of streams.now.entries) place).name }
{
    streams.get_index(place).unwrap().0
}

/// Returns the columns of the stream at a place.
pub fn columns_at(streams: &IndexMap<Name, Columns>, place: usize) -> &Columns
    requires { place < index_map_len streams.now }
    ensures { result.now ≡ (shape_at (shapes_of streams.now.entries) place).columns }
{
    streams.get_index(place).unwrap().1
}

/// Returns the place of the stream that has these bytes as its name. It hashes nothing, since names are few and short.
pub fn place_of_bytes(streams: &IndexMap<Name, Columns>, name: &[u8]) -> Option<usize>
    ensures place { result ≡ stream_number (shapes_of streams.now.entries) name.now }
    ensures inside { IfSome result (λ place. place < index_map_len streams.now) }
    ensures name { IfSome result (λ place. IsName name.now) }
{
    for place in 0..streams.len() {
        if *name_at(streams, place).bytes() == *name {
            return Some(place);
        }
    }
    None
}

/// Puts a stream behind the others, where no other has its name and there is room for it.
pub fn add_entry(streams: &mut IndexMap<Name, Columns>, name: Name, columns: Columns)
    requires new { list_any (λ s. bytes_eq s.name name) (shapes_of streams.old.entries) ≡ false }
    requires room { 0 < spare streams.old }
    ensures entries { shapes_of streams.new.entries ≡ shapes_of streams.old.entries ++ record { name = name; columns = columns } ∷ [] }
    ensures room { index_map_len streams.old + spare streams.old ≤ index_map_len streams.new + spare streams.new }
{
    // There is room, so this is done.
    let _stored = streams.insert(name, columns).is_ok();
}
