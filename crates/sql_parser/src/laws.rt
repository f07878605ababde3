//! Laws of the definitions, as public functions without a body: the clause is the law.
ghost use Rattle.sql_parser.specs.Laws.{RowsAreRows, ResolvesBack, NamesBack, NamesStay, StaysNamed, AttributesAreNamed, DomainsHaveEnds, RowsKeepDomains};

/// The row lines are those of one word, blanks or none, and a comma, with anything behind.
pub fn rows_are_rows()
    ensures { RowsAreRows }
{}

/// A query that is named with the names of a catalog is the query that these names stand for.
pub fn resolves_back()
    ensures { ResolvesBack }
{}

/// A query that names stand for is named with these very names.
pub fn names_back()
    ensures { NamesBack }
{}

/// A query is named as before after more streams were added.
pub fn names_stay()
    ensures { NamesStay }
{}

/// The streams and columns that a query names are still there after more streams were added.
pub fn stays_named()
    ensures { StaysNamed }
{}

/// The columns that the atoms of a query name are there, where the query is named by a catalog.
pub fn attributes_are_named()
    ensures { AttributesAreNamed }
{}

/// Each domain of a stream that a statement within the limits creates has ends of at most 15 digits, the first at most the second.
pub fn domains_have_ends()
    ensures { DomainsHaveEnds }
{}

/// A row whose values lie in the domains of the columns of its stream keeps to the domains of each query that is named by the
/// catalog.
pub fn rows_keep_domains()
    ensures { RowsKeepDomains }
{}
