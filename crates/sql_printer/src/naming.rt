//! Queries, printed with the names of a catalog.
ghost use Rattle.io_streams.specs.Sink.{Writes};
ghost use Rattle.sql_parser.specs.Grammar.{select_tokens};
ghost use Rattle.sql_printer.specs.Printed.{printed, create_line};
ghost use Rattle.sql_parser.specs.declared.tree.Statement.TheVariants.{CreateQuery};
ghost use Rattle.sql_parser.specs.Resolution as names;
ghost use Rattle.sql_parser.specs.Resolution.{HasNamed};

use crate::names::named_select;
use crate::printing::put_select;
use crate::shortening::put_create;
use io_streams::{Sink, WriteFault};
use sem_query::Query;
use sql_catalog::Catalog;
use sql_text::Name;

/// Writes the printed form of a query from SELECT on, with the names of a catalog that has its streams and columns. Where the
/// sink fails, a front of it was written.
pub fn print_query<O: Sink>(query: &Query, catalog: &Catalog, out: &mut O) -> Result<(), WriteFault>
    requires { HasNamed catalog.now query.now }
    ensures { Writes result (O.seen out.old) (O.seen out.new) (printed (select_tokens (names.named_select catalog.now query.now))) }
{
    let select = named_select(query, catalog);
    put_select(out, &select)
}

/// Writes the line that creates a query again, with the names of a catalog that has its streams and columns: the printed form where
/// that has at most 1,024 bytes, else the short form. Where the sink fails, a front of it was written.
pub fn put_create_line<O: Sink>(
    name: &Name,
    query: &Query,
    shared: bool,
    catalog: &Catalog,
    out: &mut O,
) -> Result<(), WriteFault>
    requires { HasNamed catalog.now query.now }
    ensures { Writes result (O.seen out.old) (O.seen out.new) (create_line (CreateQuery name.now (names.named_select catalog.now query.now) shared)) }
{
    let select = named_select(query, catalog);
    put_create(out, name, &select, shared)
}
