//! The parts of a plan.
ghost use Rattle.std.specs.Prelude.{◌+◌, length};
ghost use Rattle.std.specs.List.{All};
ghost use Rattle.io_streams.specs.Sink.{Writes};
ghost use Rattle.sql_parser.specs.Resolution.{HasNamed};
ghost use Rattle.sql_explain.specs.Named.{HasPart};
ghost use Rattle.sql_explain.specs.Text.{part_text, parts_text};

use crate::lines::write_part_line;
use crate::links::write_links;
use crate::signs::write_signs;
use crate::streams::write_streams;
use io_streams::{Sink, WriteFault};
use sem_query::{PartPlan, PartPlans, Query};
use sql_catalog::Catalog;

// A part, by its number from 1.
fn write_part<O: Sink>(
    out: &mut O,
    number: u32,
    query: &Query,
    part: &PartPlan,
    catalog: &Catalog,
) -> Result<(), WriteFault>
    requires named { HasNamed catalog.now query.now }
    requires part { HasPart catalog.now query.now part.now }
    ensures { Writes result (O.seen out.old) (O.seen out.new) (part_text catalog.now query.now number part.now) }
{
    let from = query.from();
    write_part_line(out, number)?;
    write_signs(out, query, part.signs.as_slice(), catalog)?;
    write_links(out, part, from, catalog)?;
    write_streams(out, part.streams.as_slice(), from, catalog)
}

/// Writes each part, by its number from 1.
pub fn write_parts<O: Sink>(
    out: &mut O,
    query: &Query,
    parts: &PartPlans,
    catalog: &Catalog,
) -> Result<(), WriteFault>
    requires named { HasNamed catalog.now query.now }
    requires parts { All (HasPart catalog.now query.now) parts.now }
    ensures { Writes result (O.seen out.old) (O.seen out.new) (parts_text catalog.now query.now parts.now) }
{
    for i in 0..parts.len() {
        write_part(out, i + 1, query, parts.get(i), catalog)?;
    }
    Ok(())
}
