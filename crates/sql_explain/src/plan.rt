//! The text of a plan, between the name of its query and this name again.
ghost use Rattle.std.specs.Prelude.{◌≡◌, Bool};
ghost use Rattle.io_streams.specs.Sink.{Writes};
ghost use Rattle.sem_forms.specs.Forms.{IsFormPlanOf};
ghost use Rattle.sql_parser.specs.Resolution.{HasNamed};
ghost use Rattle.sql_explain.specs.Text.{query_line, plan_text, explain_text};

use crate::lines::write_name_line;
use crate::parts::write_parts;
use io_streams::{Sink, WriteFault, write_all};
use sem_query::{Plan, Query};
use sql_catalog::Catalog;
use sql_printer::print_query;
use sql_text::Name;

// The query in its printed form, from SELECT on.
#[tactic(auto, using(crate::proofs::Writers::writes_after))]
fn write_query_line<O: Sink>(
    out: &mut O,
    query: &Query,
    catalog: &Catalog,
) -> Result<(), WriteFault>
    requires { HasNamed catalog.now query.now }
    ensures { Writes result (O.seen out.old) (O.seen out.new) (query_line catalog.now query.now) }
{
    print_query(query, catalog, out)?;
    write_all(out, b"\n")
}

// `filter`, or the parts.
fn write_plan<O: Sink>(
    out: &mut O,
    query: &Query,
    plan: &Plan,
    catalog: &Catalog,
) -> Result<(), WriteFault>
    requires named { HasNamed catalog.now query.now }
    requires plan { (shared : Bool) × IsFormPlanOf shared query.now plan.now }
    ensures { Writes result (O.seen out.old) (O.seen out.new) (plan_text catalog.now query.now plan.now) }
{
    match plan {
        Plan::Filter => write_all(out, b"filter\n"),
        Plan::Parts { parts, .. } => {
            // No effect at run time. The proof reads from this call that the query is within its limits.
            let _from = query.from();
            write_parts(out, query, parts, catalog)
        }
    }
}

/// Writes the text of the plan of a query, one line after another, each ended by LF. Where its cells begin, and whether equal
/// boxes of them are shared, is no part of the text. The names of its streams and columns are those of a catalog that has
/// them. Where the sink fails, a front of the text was written.
pub fn explain<O: Sink>(
    name: &Name,
    query: &Query,
    plan: &Plan,
    catalog: &Catalog,
    out: &mut O,
) -> Result<(), WriteFault>
    requires named { HasNamed catalog.now query.now }
    requires plan { (shared : Bool) × IsFormPlanOf shared query.now plan.now }
    ensures { Writes result (O.seen out.old) (O.seen out.new) (explain_text catalog.now name.now query.now plan.now) }
{
    write_name_line(out, b"explain ", name.bytes())?;
    write_query_line(out, query, catalog)?;
    write_plan(out, query, plan, catalog)?;
    write_name_line(out, b"end ", name.bytes())
}
