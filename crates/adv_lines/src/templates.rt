//! The templates of the lines. Each `_` is a hole, which a name or a number fills.

/// The four numbers of a query.
pub const NUMBERS: &[u8] = b": parts _ cells _ answers _ work _\n";

/// A query by its line and its name, and what is said of it.
pub const QUERY: &[u8] = b"line _: query __";

/// A query that needs more pages than are free.
pub const POOL: &[u8] = b"line _: query _ is refused: pages _ of _ that are free\n";

/// A query of which a number is above its limit.
pub const ABOVE: &[u8] = b"line _: query _ is refused: _ __ of _\n";

/// A query that breaks a condition.
pub const VIOLATION: &[u8] = b"line _: query _ is refused: _ in part _, _.__";

/// A change that has a name.
pub const CHANGE: &[u8] = b"    with _";

/// A column in a domain.
pub const DOMAIN: &[u8] = b" _._ IN LO..HI";

/// A part that has the elements that follow.
pub const PART: &[u8] = b"  part _ has";

/// How many cells a part keeps, all of one stream.
pub const KEPT: &[u8] = b"  part _ keeps __";

/// How many cells a part keeps, and how many of them are of one stream.
pub const MOST_KEPT: &[u8] = b"  part _ keeps __ cells, __ of them of _";

/// A column with its least and greatest value.
pub const RANGE: &[u8] = b"__._ _.._";
