//! What single parts of a query keep and order, as text.
ghost use Rattle.std.specs.List.{flat_map};
ghost use Rattle.io_streams.specs.Sink.{Writes};
ghost use Rattle.cmd_advise.specs.Parts as said;

use adv_lines::{Names, stream_at, write_element, write_kept, write_part, write_ranges};
use adv_mends::DearPart;
use adv_order::{Chain, Step};
use adv_templates::Written;
use io_streams::{Sink, write_all};

// What a part keeps.
#[tactic(auto, using(crate::proofs::Texts::writes_behind, crate::proofs::Texts::broke_off, crate::proofs::Texts::stopped))]
fn write_part_kept<O: Sink>(out: &mut O, part: &DearPart, names: &Names<'_>) -> Written
    ensures { Writes result (O.seen out.old) (O.seen out.new) (said.kept_line names.now.catalog.now names.now.from.now part.now) }
{
    let stream = stream_at(part.place, names);
    write_kept(out, part.part, part.cells, part.kept, stream)?;
    write_ranges(out, part.dims.as_slice(), names)?;
    write_all(out, b"\n")
}

/// Writes what each of some parts keeps, in a line: `  part 5 keeps 1369 cells: Temp by Temp.room 1..37, Temp.val 3..39`.
pub fn write_dearest<O: Sink>(out: &mut O, parts: &[DearPart], names: &Names<'_>) -> Written
    ensures { Writes result (O.seen out.old) (O.seen out.new) (flat_map (said.kept_line names.now.catalog.now names.now.from.now) parts.now) }
{
    for part in parts {
        write_part_kept(out, part, names)?;
    }
    Ok(())
}

// An element behind the first, with the sign between it and the one before it.
fn write_step<O: Sink>(out: &mut O, step: &Step, names: &Names<'_>) -> Written
    ensures { Writes result (O.seen out.old) (O.seen out.new) (said.next_step names.now.catalog.now names.now.from.now step.now) }
{
    let sign: &[u8] = if step.equal { b" = " } else { b" < " };
    write_element(out, sign, &step.element, names)
}

// The elements behind the first.
fn write_more_steps<O: Sink>(out: &mut O, steps: &[Step], names: &Names<'_>) -> Written
    ensures { Writes result (O.seen out.old) (O.seen out.new) (flat_map (said.next_step names.now.catalog.now names.now.from.now) steps.now) }
{
    for step in steps {
        write_step(out, step, names)?;
    }
    Ok(())
}

// The elements in ascending order.
fn write_steps<O: Sink>(out: &mut O, steps: &[Step], names: &Names<'_>) -> Written
    ensures { Writes result (O.seen out.old) (O.seen out.new) (said.steps_text names.now.catalog.now names.now.from.now steps.now) }
{
    match steps {
        [] => Ok(()),
        [first, others @ ..] => {
            write_element(out, b" ", &first.element, names)?;
            write_more_steps(out, others, names)
        }
    }
}

// A chain of a part. One element alone is in no order, and nothing is said of it.
#[tactic(auto, using(crate::proofs::Texts::writes_behind, crate::proofs::Texts::broke_off, crate::proofs::Texts::stopped))]
fn write_chain<O: Sink>(out: &mut O, part: u32, chain: &Chain, names: &Names<'_>) -> Written
    ensures { Writes result (O.seen out.old) (O.seen out.new) (said.chain_line names.now.catalog.now names.now.from.now part chain.now) }
{
    if 1 < chain.steps.len() {
        write_part(out, part)?;
        write_steps(out, chain.steps.as_slice(), names)?;
        write_all(out, b"\n")
    } else {
        Ok(())
    }
}

/// Writes the chains of a part of more than one element, each in a line: `  part 23 has 0 < Tank.id < Tank.level = 100`.
pub fn write_chains<O: Sink>(out: &mut O, part: u32, chains: &[Chain], names: &Names<'_>) -> Written
    ensures { Writes result (O.seen out.old) (O.seen out.new) (flat_map (said.chain_line names.now.catalog.now names.now.from.now part) chains.now) }
{
    for chain in chains {
        write_chain(out, part, chain, names)?;
    }
    Ok(())
}
