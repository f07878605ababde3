//! The changes that make a query cheaper, lift a limit or mend it, as text.
ghost use Rattle.std.specs.Prelude.{◌≡◌};
ghost use Rattle.std.specs.List.{flat_map};
ghost use Rattle.io_streams.specs.Sink.{Writes};
ghost use Rattle.adv_lines.specs.Items.{set_line};
ghost use Rattle.cmd_advise.specs.Changes as change;

use adv_lines::{Names, Remedy, write_change, write_comparison, write_if, write_set};
use adv_mends::{Cheaper, ColumnSet, QueryAdvice};
use adv_templates::Written;
use io_streams::{Sink, write_all};

/// The heading of the changes that keep every answer.
const SAME_ANSWERS: &[u8] = b"  the same answers:\n";

/// The heading of the changes that leave rows out.
const LEAVES_OUT: &[u8] = b"  leaves rows out, so take one that every row that counts meets:\n";

/// That DISTINCT mends the query, and what it does to its answers.
const BY_DISTINCT: &[u8] = b"    mended by DISTINCT, with which each answer comes once\n";

/// Which integers were tried.
const ENDS: &[u8] =
    b"    LO and HI are two integers of your own for all columns: -999999999999999 and 999999999999999 were tried, and two close together, below and above all integers of the query; the numbers may still pass a limit, so write yours and then ask again for the numbers\n";

/// That there is no mend.
const NOTHING: &[u8] = b"  nothing that was tried mends it\n";

/// That not all was tried.
const CUT_SHORT: &[u8] = b"  not all was tried\n";

/// That no change lifts the limit, where ranges are named.
const NARROW: &[u8] =
    b"  nothing that was tried lifts it: narrow the ranges named above, or ask for parts of them in several queries\n";

/// That no change lifts the limit, where no range is named.
const NOT_LIFTED: &[u8] =
    b"  nothing that was tried lifts it: add COMPACT, if it is not there, and ask again what it lacks then\n";

// Whether a comparison is told.
fn has_comparisons(advice: &QueryAdvice) -> bool
    ensures { result ≡ change.has_comparisons advice.now }
{
    !advice.cheaper.is_empty() || !advice.narrowed.is_empty()
}

// Whether some set of columns mends the query.
fn has_sets(advice: &QueryAdvice) -> bool
    ensures { result ≡ change.has_sets advice.now }
{
    !advice.bounds.found.is_empty() || !advice.domains.found.is_empty()
}

// Whether a change is told that keeps every answer.
fn keeps_answers(advice: &QueryAdvice) -> bool
    ensures { result ≡ change.keeps_answers advice.now }
{
    advice.compact.is_some() || advice.shared.is_some() || advice.distinct
}

// Whether a change is told that leaves rows out.
fn leaves_out(advice: &QueryAdvice) -> bool
    ensures { result ≡ change.leaves_out advice.now }
{
    has_comparisons(advice) || has_sets(advice)
}

// Whether anything mends the query.
fn has_mend(advice: &QueryAdvice) -> bool
    ensures { result ≡ change.has_mend advice.now }
{
    keeps_answers(advice) || leaves_out(advice)
}

// Comparisons, each in a line with the numbers of the query that has it.
fn write_comparisons<O: Sink>(out: &mut O, list: &[Cheaper], names: &Names<'_>) -> Written
    ensures { Writes result (O.seen out.old) (O.seen out.new) (flat_map (change.cheaper_line names.now.catalog.now names.now.from.now) list.now) }
{
    for cheaper in list {
        write_comparison(out, &cheaper.atom, cheaper.numbers, names)?;
    }
    Ok(())
}

// Sets of columns, of which each mends the query.
fn write_sets<O: Sink>(out: &mut O, by: Remedy, sets: &[ColumnSet], names: &Names<'_>) -> Written
    ensures { Writes result (O.seen out.old) (O.seen out.new) (flat_map (set_line by names.now.catalog.now names.now.from.now) sets.now) }
{
    for set in sets {
        write_set(out, by, set.columns(), names)?;
    }
    Ok(())
}

// All comparisons that are told.
#[tactic(auto, using(crate::proofs::Texts::writes_behind, crate::proofs::Texts::broke_off, crate::proofs::Texts::stopped))]
fn write_compared<O: Sink>(out: &mut O, advice: &QueryAdvice, names: &Names<'_>) -> Written
    ensures { Writes result (O.seen out.old) (O.seen out.new) (change.compared_text names.now.catalog.now names.now.from.now advice.now) }
{
    write_comparisons(out, advice.cheaper.as_slice(), names)?;
    write_comparisons(out, advice.narrowed.as_slice(), names)
}

/// Writes the changes that keep every answer, each in a line under one heading, where there are some: COMPACT and shared cells with the numbers of the query
/// that has them, and DISTINCT.
#[tactic(auto, using(crate::proofs::Texts::writes_behind, crate::proofs::Texts::broke_off, crate::proofs::Texts::stopped), unfolding(crate::specs::Changes::same_text))]
pub fn write_same<O: Sink>(out: &mut O, advice: &QueryAdvice) -> Written
    ensures { Writes result (O.seen out.old) (O.seen out.new) (change.same_text advice.now) }
{
    write_if(out, keeps_answers(advice), SAME_ANSWERS)?;
    write_change(out, b"COMPACT", advice.compact)?;
    write_change(out, b"SHARED", advice.shared)?;
    write_if(out, advice.distinct, BY_DISTINCT)
}

/// Writes what makes a query cheaper, first what keeps every answer and then what leaves rows out, each change in a line with the numbers of the query that has
/// it.
#[tactic(auto, using(crate::proofs::Texts::writes_behind, crate::proofs::Texts::broke_off, crate::proofs::Texts::stopped))]
pub fn write_changes<O: Sink>(out: &mut O, advice: &QueryAdvice, names: &Names<'_>) -> Written
    ensures { Writes result (O.seen out.old) (O.seen out.new) (change.changes_text names.now.catalog.now names.now.from.now advice.now) }
{
    write_same(out, advice)?;
    write_if(out, has_comparisons(advice), LEAVES_OUT)?;
    write_compared(out, advice, names)
}

// That no change lifts the limit.
fn write_not_lifted<O: Sink>(out: &mut O, advice: &QueryAdvice) -> Written
    ensures { Writes result (O.seen out.old) (O.seen out.new) (change.not_lifted advice.now) }
{
    if keeps_answers(advice) || has_comparisons(advice) {
        Ok(())
    } else if advice.dearest.is_empty() {
        write_all(out, NOT_LIFTED)
    } else {
        write_all(out, NARROW)
    }
}

/// Writes what lifts the limit that refuses a query, each change in a line, or that nothing does.
#[tactic(auto, using(crate::proofs::Texts::writes_behind, crate::proofs::Texts::broke_off, crate::proofs::Texts::stopped))]
pub fn write_lifting<O: Sink>(out: &mut O, advice: &QueryAdvice, names: &Names<'_>) -> Written
    ensures { Writes result (O.seen out.old) (O.seen out.new) (change.lifting_text names.now.catalog.now names.now.from.now advice.now) }
{
    write_changes(out, advice, names)?;
    write_not_lifted(out, advice)?;
    write_if(out, advice.cut_short, CUT_SHORT)
}

// The sets of columns that mend a query, and which integers were tried.
#[tactic(auto, using(crate::proofs::Texts::writes_behind, crate::proofs::Texts::broke_off, crate::proofs::Texts::stopped))]
fn write_all_sets<O: Sink>(out: &mut O, advice: &QueryAdvice, names: &Names<'_>) -> Written
    ensures { Writes result (O.seen out.old) (O.seen out.new) (change.sets_text names.now.catalog.now names.now.from.now advice.now) }
{
    let bounds = advice.bounds.found.as_slice();
    write_sets(out, Remedy::Comparisons, bounds, names)?;
    write_sets(out, Remedy::Domains, advice.domains.found.as_slice(), names)?;
    write_if(out, has_sets(advice), ENDS)
}

/// Writes what mends a query, each change in a line: first what keeps every answer, and then what leaves rows out.
#[tactic(auto, using(crate::proofs::Texts::writes_behind, crate::proofs::Texts::broke_off, crate::proofs::Texts::stopped))]
pub fn write_mends<O: Sink>(out: &mut O, advice: &QueryAdvice, names: &Names<'_>) -> Written
    ensures { Writes result (O.seen out.old) (O.seen out.new) (change.mends_text names.now.catalog.now names.now.from.now advice.now) }
{
    write_same(out, advice)?;
    write_if(out, leaves_out(advice), LEAVES_OUT)?;
    write_all_sets(out, advice, names)?;
    write_compared(out, advice, names)?;
    write_if(out, !has_mend(advice), NOTHING)?;
    write_if(out, advice.cut_short, CUT_SHORT)
}
