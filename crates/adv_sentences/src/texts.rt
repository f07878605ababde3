//! The sentences. Each `_` of one that tells a name or a number is a hole, which these fill.

// Faults of names.
pub const STREAM_THERE: &[u8] =
    b"there is a stream _ already: leave this line out, or take another name";

pub const COLUMN_TWICE: &[u8] = b"two columns have the name _: rename one of them";

pub const QUERY_LIVE: &[u8] =
    b"a live query has the name _: drop that one before, or take another name";

pub const NO_STREAM: &[u8] = b"FROM names _, and there is no such stream; ";

pub const LOCK_NO_STREAM: &[u8] = b"TO names _, and there is no such stream; ";

pub const NOT_IN_FROM: &[u8] =
    b"_._ is a column of a stream that FROM does not name: add it to FROM";

pub const NO_COLUMN: &[u8] = b"there is no column _._; ";

pub const TWICE_IN_FROM: &[u8] =
    b"FROM names _ twice: create a second stream with the same columns, and send it the same rows";

pub const NO_QUERY: &[u8] = b"no live query has the name _; ";

// Lines that come too late, or are too long or too many.
pub const LONG_LINE: &[u8] = b"a line has at most 1024 bytes, and this has more";

pub const MANY_STREAMS: &[u8] =
    b"there are 16 streams, and that is the most: let one stand for two, with a column that tells them apart";

pub const MANY_QUERIES: &[u8] = b"64 queries are live, and that is the most: drop one before";

pub const LOCKED: &[u8] = b"the session was locked in line _; lines like this stand before it";

// Rows, and their fields.
pub const ROW_KEY: &[u8] = b"a row begins with the name of its stream, and this word is reserved";

pub const ROW_NAME: &[u8] = b"a name has at most 24 bytes, and this has _";

pub const ROW_STREAM: &[u8] =
    b"a row begins with the name of its stream, and there is no such stream; ";

pub const ROW_COUNTS: &[u8] = b"fields wanted by a row of _: _, found: _; its columns are: ";

pub const FIELD_OUTSIDE: &[u8] = b"field _, _._, lies outside ";

// What was most likely meant, by the number of the hint.
pub const HINTS: [&[u8]; 38] = [
    b"a byte order mark stands here, which many editors do not show: save the file without one",
    b"nothing is quoted: a name and an integer stand as they are; docs/DATA.md has a filter, tools/filters/names, that makes integers of texts",
    b"unequal is written <>",
    b"* stands for no columns: name each that is selected",
    b"at most is written <=",
    b"at least is written >=",
    b"equal is written = once",
    b"an integer has no point: count in smaller units, as 125 tenths for 12.5",
    b"comparisons are joined by AND alone: create a query for each side of OR",
    b"a column is written with its stream, as ",
    b"this word is reserved, and no name: take another, as one with _ behind it",
    b"a row has commas between its stream and its integers, as Stream,1,2",
    b"a comment stands on a line of its own, which begins with --",
    b"a domain has two points between its first and its last integer, as IN 1..39",
    b"there is no arithmetic: a comparison has a column or an integer on each side",
    b"a name has letters, digits and _ alone",
    b"a comma stands before this, and nothing between them: leave the comma out",
    b"there are no functions as COUNT, SUM or MAX: a query answers with columns of its rows",
    b"comparisons stand without parentheses, and with AND between them",
    b"there is no NOT: turn the comparison around, as >= for what is not <",
    b"BETWEEN is written as two comparisons with AND between them, one for each end",
    b"there is no LIKE: each value is an integer; docs/DATA.md has a filter, tools/filters/names, that makes integers of texts",
    b"there is no NULL: a row has an integer for each column",
    b"SHARED stands behind CREATE, and before COMPACT and QUERY",
    b"streams are joined by FROM with a comma between them, and by comparisons behind WHERE",
    b"a query ends with its comparisons: answers have no order, no groups, no windows and no bound on their number",
    b"IN gives a column of a stream its domain: create a query for each value",
    b"a query has a name: write CREATE QUERY, its name and AS before SELECT",
    b"streams and columns have one name each: leave the other name out",
    b"a column has no type, since each value is an integer: write its name alone, or a domain as IN 1..39 behind it",
    b"a comparison has two sides: write 0 < S.a AND S.a < 9 for 0 < S.a < 9",
    b"a row begins with the name of its stream, as Stream,1,2",
    b"an integer has no exponent: write all digits, as 1000 for 1e3; docs/DATA.md tells of numbers",
    b"a stream is not dropped: write DROP QUERY for each of its queries, and create a stream with another name; docs/QUERIES.md tells what may be said",
    b"EXPLAIN stands before the name of a live query: create the query, and then write EXPLAIN and its name; docs/QUERIES.md tells of EXPLAIN",
    b"nothing is replaced: write DROP QUERY and CREATE QUERY, on a line each; docs/QUERIES.md tells what may be said",
    b"there is no SHOW: EXPLAIN shows one live query, and CHECKPOINT all streams and queries; docs/OPERATING.md tells of CHECKPOINT",
    b"a statement stands on one line: put this behind the line before; docs/QUERIES.md tells what may be said",
];

// What is said of a limit, by its number, with a hole for the number that is found where there is one.
pub const LIMITS: [&[u8]; 12] = [
    b"a name has at most 24 bytes, and this has ",
    b"a stream has at most 8 columns, and this has ",
    b"a query selects at most 8 columns, and this selects ",
    b"FROM names at most 4 streams, and here it names ",
    b"a query has at most 16 comparisons, and this has ",
    b"a query has at most 8 comparisons with <=, >= or <>, and this has _: write a < 6 for a <= 5, and a > 4 for a >= 5",
    b"the comparisons name at most 12 different columns, and here they name ",
    b"an integer has at most 15 digits, and one of a line of a checkpoint or a lock at most 64 bits; one here has more",
    b"the comparisons name at most 6 different integers, and here they name ",
    b"the first integer of a domain is at most the second, and here one is greater: exchange the two",
    b"a tuple has at most 8 integers, and this has ",
    b"a lock names at most 16 streams, and this names ",
];

// What stands at a place, by the number of its kind.
pub const STANDINGS: [&[u8]; 6] = [
    b"a statement stands on one line, and the line ends here",
    b"a word stands here",
    b"a reserved word stands here",
    b"an integer stands here",
    b"a sign stands here",
    b"a byte stands here that begins no word, integer or sign",
];
