//! What is advised for a query.
ghost use Rattle.std.specs.Prelude.{◌≡◌, ◌↔◌, IsTrue, IsFalse, IfOk};
ghost use Rattle.adv_mends.specs.declared.mend.Mend.TheVariants as changes;
ghost use Rattle.adv_mends.specs.Mended.{Mends};
ghost use Rattle.adv_mends.specs.Advised.{breaks_condition, has_cost, passes_limit, is_lifted, AreSetsFor, AreBetterNumbers, AreComparisonsFor, AreNarrowingsFor, IsAdvice};
ghost use Rattle.adv_mends.specs.Sets.{IsMendOf};
ghost use Rattle.adv_mends.specs.Violating.{AreChainsFor, Shows};

use crate::comparing::{Base, BestComparisons, Cheaper, best_comparisons, tried};
use crate::dearest::{DearPart, dearest_for};
use crate::judging::{Judgement, judge};
use crate::meeting::never_meets;
use crate::mend::{ChangeKind, Mend};
use crate::narrowing::narrowings;
use crate::searching::{LeastSets, least_sets};
use crate::writing::mends;
use adv_order::{Chain, chains_of};
use plan_parts::{SplitError, split};
use sem_query::{Numbers, Query};
use std::alloc::{AllocError, Global};

/// The most sets of columns of each kind that are looked at: all of eight columns.
const MOST_SETS: u16 = 93;

/// The most comparisons that are tried: all of 12 columns and 6 integers.
const MOST_COMPARISONS: u16 = 144;

/// What a query comes to, and what would mend it or make it cheaper.
#[derive(Drop)]
pub struct QueryAdvice {
    pub judgement: Judgement,
    /// Whether no combination of rows meets its comparisons. With more than 4,096 parts some does.
    pub never: bool,
    /// What the first part that breaks a condition orders, where one does and the query is not compact.
    pub chains: Vec<Chain>,
    /// The parts that keep most cells, at most three, the most cells first: where it is accepted with more than one part, or passes a limit on cells, answers or
    /// work.
    pub dearest: Vec<DearPart>,
    /// Whether DISTINCT mends it, where a condition refuses it and it has none.
    pub distinct: bool,
    /// The least sets of columns of which each mends it by two comparisons a column, where a condition refuses it.
    pub bounds: LeastSets,
    /// The same by a domain on each column.
    pub domains: LeastSets,
    /// Its numbers with COMPACT, where it has it not and is accepted with it with fewer cells.
    pub compact: Option<Numbers>,
    /// Its numbers with SHARED, where it is accepted with it and has fewer cells.
    pub shared: Option<Numbers>,
    /// The best comparisons, at most five, with its numbers, the fewest cells first; of a compact query none is tried.
    pub cheaper: Vec<Cheaper>,
    /// Where a limit refuses it and no other change lifts that: comparisons that leave the lower part of the range of a column, the widest with which it is accepted,
    /// at most five, with its numbers, the fewest cells first.
    pub narrowed: Vec<Cheaper>,
    /// Whether one of the searches was cut short.
    pub cut_short: bool,
}

fn breaks_condition(judgement: Judgement) -> bool
    ensures { result ≡ breaks_condition judgement }
{
    matches!(judgement, Judgement::Violation { .. })
}

fn has_cost(judgement: Judgement) -> bool
    ensures { result ≡ has_cost judgement }
{
    match judgement {
        Judgement::Accepted(numbers) => 1 < numbers.parts,
        Judgement::Above { .. } | Judgement::Violation { .. } | Judgement::ManyParts => true,
        Judgement::Filter => false,
    }
}

// Whether a limit refuses a query.
fn passes_limit(judgement: Judgement) -> bool
    ensures { result ≡ passes_limit judgement }
{
    matches!(judgement, Judgement::Above { .. } | Judgement::ManyParts)
}

// Whether a change is told with which the query is accepted.
fn is_lifted(cheaper: &[Cheaper], compact: Option<Numbers>, shared: Option<Numbers>) -> bool
    ensures { result ≡ is_lifted cheaper.now compact shared }
{
    !cheaper.is_empty() || compact.is_some() || shared.is_some()
}

// The chains of the part that breaks a condition first, where one does and the query is not compact. `AllocError` where a list finds no memory.
fn chains_for(alloc: Global, query: &Query, own: Judgement) -> Result<Vec<Chain>, AllocError>
    requires { Shows query.now own }
    ensures { IfOk result (λ list. AreChainsFor query.now own list.items) }
{
    if query.compact() {
        return Ok(Vec::new(alloc));
    }
    match own {
        Judgement::Violation { part, .. } => match split(alloc, query) {
            Ok(parts) => chains_of(alloc, query, &parts[part as usize - 1]),
            Err(SplitError::TooManyParts) => unreachable!(),
            Err(SplitError::Memory) => Err(AllocError),
        },
        _ => Ok(Vec::new(alloc)),
    }
}

// Whether DISTINCT mends the query, where a condition refuses it and it has none.
fn distinct_mends(base: &Base<'_>) -> Result<bool, AllocError>
    ensures { IfOk result (λ is. IsTrue is ↔ (IsTrue (breaks_condition base.now.own) × IsFalse base.now.query.now.distinct × Mends changes.Distinct base.now.query.now)) }
{
    if base.query.distinct() || !breaks_condition(base.own) {
        return Ok(false);
    }
    mends(base.alloc, base.query, &Mend::Distinct)
}

// The least sets of columns that mend the query in one of two ways, where a condition refuses it.
fn sets_for(base: &Base<'_>, kind: ChangeKind) -> Result<LeastSets, AllocError>
    ensures { IfOk result (AreSetsFor kind base.now.query.now base.now.own) }
{
    if breaks_condition(base.own) {
        return least_sets(base.alloc, base.query, MOST_SETS, kind);
    }
    Ok(LeastSets {
        found: Vec::new(base.alloc),
        cut_short: false,
    })
}

// The numbers of the query with a change, where it has it not and has fewer cells with it.
fn better_numbers(base: &Base<'_>, mend: &Mend, has: bool) -> Result<Option<Numbers>, AllocError>
    requires { IsMendOf base.now.query.now mend.now }
    ensures { IfOk result (AreBetterNumbers base.now.shared base.now.query.now base.now.own mend.now has) }
{
    if has {
        return Ok(None);
    }
    tried(base, mend)
}

// The best comparisons, where the query is refused or has more than one part and is not compact.
fn comparisons_for(base: &Base<'_>) -> Result<BestComparisons, AllocError>
    ensures { IfOk result (λ found. AreComparisonsFor base.now.shared base.now.query.now base.now.own found.best.items found.cut_short) }
{
    if base.query.compact() || !has_cost(base.own) {
        return Ok(BestComparisons {
            best: Vec::new(base.alloc),
            cut_short: false,
        });
    }
    best_comparisons(
        base.alloc,
        base.query,
        base.shared,
        base.own,
        MOST_COMPARISONS,
    )
}

// The widest ranges of single columns that lift the limit which refuses the query, where no other change does.
fn narrowings_for(base: &Base<'_>, lifted: bool) -> Result<Vec<Cheaper>, AllocError>
    ensures { IfOk result (λ list. AreNarrowingsFor base.now.shared base.now.query.now base.now.own lifted list.items) }
{
    if lifted || !passes_limit(base.own) {
        return Ok(Vec::new(base.alloc));
    }
    narrowings(base.alloc, base.query, base.shared, base.own)
}

/// Returns what the query comes to, with shared cells or without, and what would mend it or make it cheaper, each change tried by the decision on the query with it.
/// Where a condition refuses it, that is DISTINCT, the least sets of columns to bound and single comparisons; where a limit does, or it is accepted with more than
/// one part, the best comparisons, and where nothing lifts the limit, narrower ranges of single columns. Of a compact query no comparison with one of
/// its integers is tried. `AllocError` where a list or a plan finds no memory.
pub fn advise(alloc: Global, query: &Query, shared: bool) -> Result<QueryAdvice, AllocError>
    ensures { IfOk result (IsAdvice shared query.now) }
{
    let judgement = judge(alloc, query, shared)?;
    let never = never_meets(alloc, query)?;
    let chains = chains_for(alloc, query, judgement)?;
    let dearest = dearest_for(alloc, query, judgement)?;
    let base = Base {
        alloc,
        query,
        shared,
        own: judgement,
    };
    let distinct = distinct_mends(&base)?;
    let bounds = sets_for(&base, ChangeKind::Bounds)?;
    let domains = sets_for(&base, ChangeKind::Domains)?;
    let compact = better_numbers(&base, &Mend::Compact, query.compact())?;
    let fewer = better_numbers(&base, &Mend::Shared, shared)?;
    let BestComparisons { best, cut_short } = comparisons_for(&base)?;
    let lifted = is_lifted(best.as_slice(), compact, fewer);
    let narrowed = narrowings_for(&base, lifted)?;
    let cut_short = bounds.cut_short || domains.cut_short || cut_short;
    Ok(QueryAdvice {
        judgement,
        never,
        chains,
        dearest,
        distinct,
        bounds,
        domains,
        compact,
        shared: fewer,
        cheaper: best,
        narrowed,
        cut_short,
    })
}
