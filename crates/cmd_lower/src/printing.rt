//! The text of what is found for a script.
ghost use Rattle.std.specs.Prelude.{◌≡◌, ◌<◌, ◌++◌, length, decimal};
ghost use Rattle.io_streams.specs.Sink.{Writes};
ghost use Rattle.sql_parser.specs.Resolution.{HasNamed};
ghost use Rattle.sql_parser.specs.Naming.{column_text};
ghost use Rattle.sql_replies.specs.Texts as texts;
ghost use Rattle.sql_script.specs.Script as scripts;
ghost use Rattle.fam_text.specs.Answer.{AreTakenRows};
ghost use Rattle.fam_text.specs.Text.{rows_text};
ghost use Rattle.cmd_lower.specs.Finding.{IsShown};
ghost use Rattle.cmd_lower.specs.Found.{IsSound, text_of};
ghost use Rattle.cmd_lower.specs.declared.finding.LowerFinding.TheVariants as findings;
ghost use Rattle.cmd_lower.specs.declared.form.Families.{Families};
ghost use Rattle.cmd_lower.specs.Text.{head_text, end_text, finding_text};

use crate::finding::LowerFinding;
use crate::form::LowerForm;
use crate::lines::{write_end, write_head, write_nothing};
use crate::lower_command::Lowered;
use fam_fooling_sets::Family;
use fam_text::write_rows;
use io_streams::{Sink, WriteFault};
use sem_query::{Attr, Condition};
use sql_catalog::Catalog;
use sql_printer::column_named;
use sql_script::{Script, name_of};

// The rows of a family, and its last line.
#[tactic(auto, using(sql_printer::proofs::WritesBehind::writes_behind))]
fn write_behind<O: Sink>(
    out: &mut O,
    name: &[u8],
    catalog: &Catalog,
    family: &Family,
) -> Result<(), WriteFault>
    requires taken { AreTakenRows catalog.now (length family.now.rows) family.now }
    requires many { length family.now.asking ≡ length family.now.rows }
    requires few { length family.now.rows < 65536 }
    ensures { Writes result (O.seen out.old) (O.seen out.new) (rows_text catalog.now (length family.now.rows) family.now ++ end_text name.now) }
{
    match write_rows(out, catalog, family) {
        Ok(()) => write_end(out, name),
        Err(fault) => Err(fault),
    }
}

// A family: its first line, its rows, and its last line.
fn write_family<O: Sink>(
    out: &mut O,
    script: &Script,
    part: u32,
    condition: Condition,
    attr: Attr,
    family: &Family,
    n: u16,
) -> Result<(), WriteFault>
    requires named { HasNamed script.now.catalog script.now.query }
    requires shown { (asked : Families) × IsShown script.now.catalog script.now.query asked n part condition attr family.now }
    ensures { Writes result (O.seen out.old) (O.seen out.new) (finding_text script.now.catalog (scripts.name_of script.now.statement) script.now.query n (findings.Rows part condition attr family.now)) }
{
    let name = name_of(&script.statement);
    let column = column_named(attr, script.query.from(), &script.catalog);
    match write_head(out, name, part, condition, &column, n) {
        Ok(()) => write_behind(out, name, &script.catalog, family),
        Err(fault) => Err(fault),
    }
}

/// Writes what is found for a script: a family of so many rows, or that there is none, and why.
pub fn print<O: Sink>(lowered: &Lowered, form: LowerForm, out: &mut O) -> Result<(), WriteFault>
    requires { IsSound form lowered.now }
    ensures { Writes result (O.seen out.old) (O.seen out.new) (text_of lowered.now form) }
{
    match &lowered.finding {
        LowerFinding::Nothing(reason) => write_nothing(out, *reason),
        LowerFinding::Rows {
            part,
            condition,
            attr,
            family,
        } => write_family(
            out,
            &lowered.script,
            *part,
            *condition,
            *attr,
            family,
            form.rows,
        ),
    }
}
