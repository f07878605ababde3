//! The family of a query that is refused.
ghost use Rattle.std.specs.Prelude.{◌≡◌, ◌<◌, ◌≤◌, [], length};
ghost use Rattle.sem_query.specs.declared.condition.Condition.TheVariants.{C3};
ghost use Rattle.sem_query.specs.declared.decision.Decision.TheVariants as decisions;
ghost use Rattle.sem_query.specs.Order.{IsBounded};
ghost use Rattle.sem_query.specs.Parts.{IsPart, AreParts, sign_lists};
ghost use Rattle.sem_query.specs.Verdict.{IsDecision};
ghost use Rattle.plan_constraints.specs.Solutions.{IsSatisfiable};
ghost use Rattle.plan_closure.specs.Answers.{IsSmall};
ghost use Rattle.plan_links.specs.Known.{IsKnown};
ghost use Rattle.fam_fooling_sets.specs.Laws.{AreLocalFor};
ghost use Rattle.fam_fooling_sets.specs.Blanks.{IsRead, AreBlanks};
ghost use Rattle.fam_fooling_sets.specs.Members.{IsGroundOf, IsNodeOf, IsLowEnd, IsHighEnd};
ghost use Rattle.fam_fooling_sets.specs.Lowered.{Lowers, LowersBroken, MakesFamily, IsBroken, IsWhole};
ghost use Rattle.fam_fooling_sets.specs.Shown.{rows_in};

use crate::across::pair_across;
use crate::error::LowerError;
use crate::family::Family;
use crate::ground::Ground;
use crate::making::{fill, fill_moved};
use crate::searching::find_motion;
use plan_closure::Bounds;
use plan_constraints::place_of;
use plan_links::{Basis, bounds_of, refs};
use sem_query::{Attr, Condition, Decision, Part, Query, Row};
use std::alloc::Global;

// The node of a column, which is 0 where it is no attribute.
fn node_of(attrs: &[Attr], attr: Attr) -> u8
    requires { length attrs.now ≤ 12 }
    ensures { IsNodeOf attrs.now attr result }
{
    let place = place_of(attrs, attr);
    if place < attrs.len() {
        place as u8 + 1
    } else {
        0
    }
}

// The least value of a node but the first.
fn low_end(bounds: &Bounds, node: u8) -> Option<i128>
    requires node { node ≤ bounds.now.attrs }
    requires satisfiable { IsSatisfiable bounds.now.constraints }
    ensures answer { IsLowEnd bounds.now.constraints node result }
    ensures small { IsSmall result }
{
    if node == 0 { None } else { bounds.lo(node) }
}

// The greatest value of a node but the first.
fn high_end(bounds: &Bounds, node: u8) -> Option<i128>
    requires node { node ≤ bounds.now.attrs }
    requires satisfiable { IsSatisfiable bounds.now.constraints }
    ensures answer { IsHighEnd bounds.now.constraints node result }
    ensures small { IsSmall result }
{
    if node == 0 { None } else { bounds.hi(node) }
}

// What the rows of a part are made from that differ at a column that is not bounded in it.
fn ground_of<'a>(
    q: &'a Query,
    p: &Part,
    bounds: &'a Bounds,
    blanks: &'a [Row],
    attr: Attr,
) -> Ground<'a>
    requires known { IsKnown q.now p.now.signs.items bounds.now }
    requires free { ¬ IsBounded q.now p.now.signs.items attr }
    ensures ground { IsGroundOf q.now p.now.signs.items attr result }
    ensures blanks { result.blanks.now ≡ blanks.now }
{
    // Named for the proof alone: the contract speaks of it.
    let _part = p;
    let attrs = q.attrs();
    let node = node_of(attrs, attr);
    Ground {
        attrs,
        from: q.from(),
        blanks,
        bounds,
        named: attr,
        node,
        low: low_end(bounds, node),
        high: high_end(bounds, node),
    }
}

// Rows of the stream of a column, as many as are asked for, from assignments of the part in which the column has different values.
fn make(
    alloc: Global,
    q: &Query,
    p: &Part,
    attr: Attr,
    blanks: &[Row],
    n: u16,
) -> Result<Family, LowerError>
    requires part { IsPart q.now p.now.signs.items }
    requires read { IsRead q.now attr }
    requires there { attr.stream < length q.now.from }
    requires free { ¬ IsBounded q.now p.now.signs.items attr }
    requires blanks { AreBlanks q.now (rows_in blanks.now) }
    ensures { MakesFamily q.now p.now.signs.items attr (rows_in blanks.now) n result }
{
    let basis = Basis::new(q);
    let bounds = bounds_of(q, p, &basis);
    let ground = ground_of(q, p, &bounds, blanks, attr);
    let mut m = Vec::new(alloc);
    let mut g = Vec::new(alloc);
    match fill(&ground, attr.stream, n, &mut m, &mut g) {
        Ok(()) => Ok(Family {
            stream: q.from()[usize::from(attr.stream)],
            m,
            g,
        }),
        Err(error) => Err(error),
    }
}

// The same where the part breaks one of the first two conditions at the column.
fn make_for(
    alloc: Global,
    q: &Query,
    p: &Part,
    condition: Condition,
    attr: Attr,
    blanks: &[Row],
    n: u16,
) -> Result<Family, LowerError>
    requires broken { IsBroken q.now p.now.signs.items condition attr }
    requires first_two { ¬ (condition ≡ C3) }
    requires local { AreLocalFor q.now condition }
    requires blanks { AreBlanks q.now (rows_in blanks.now) }
    ensures { LowersBroken q.now (rows_in blanks.now) condition attr n result }
{
    // Named for the proof alone: the contract speaks of it.
    let _condition = condition;
    make(alloc, q, p, attr, blanks, n)
}

// Rows of the stream of a column that links of the part keep apart, as many as are asked for.
fn make_apart(
    alloc: Global,
    q: &Query,
    p: &Part,
    attr: Attr,
    blanks: &[Row],
    n: u16,
) -> Result<Family, LowerError>
    requires broken { IsBroken q.now p.now.signs.items C3 attr }
    requires whole { IsWhole q.now }
    requires local { AreLocalFor q.now C3 }
    requires blanks { AreBlanks q.now (rows_in blanks.now) }
    ensures { LowersBroken q.now (rows_in blanks.now) C3 attr n result }
{
    let basis = Basis::new(q);
    let bounds = bounds_of(q, p, &basis);
    let ground = ground_of(q, p, &bounds, blanks, attr);
    let mut distances = basis.begin();
    let refs = refs(q, p, &basis, &mut distances);
    let motion = find_motion(q, p, &bounds, refs.less.as_slice(), attr, n);
    let mut m = Vec::new(alloc);
    let mut g = Vec::new(alloc);
    match fill_moved(&ground, &motion, attr.stream, &mut m, &mut g) {
        Ok(()) => Ok(Family {
            stream: q.from()[usize::from(attr.stream)],
            m,
            g,
        }),
        Err(error) => Err(error),
    }
}

// A family for an unbounded inequality: none where the query is compact, a column has a domain, or a pair lies between streams.
fn lower_apart(
    alloc: Global,
    q: &Query,
    p: &Part,
    attr: Attr,
    blanks: &[Row],
    n: u16,
) -> Result<Family, LowerError>
    requires broken { IsBroken q.now p.now.signs.items C3 attr }
    requires blanks { AreBlanks q.now (rows_in blanks.now) }
    ensures { LowersBroken q.now (rows_in blanks.now) C3 attr n result }
{
    if q.compact() || !q.domains().is_empty() {
        return Err(LowerError::C3);
    }
    match pair_across(q.pairs().as_slice()) {
        Some(_) => Err(LowerError::C3),
        None => make_apart(alloc, q, p, attr, blanks, n),
    }
}

// A family for a condition that the part breaks at a column.
fn lower(
    alloc: Global,
    q: &Query,
    p: &Part,
    condition: Condition,
    attr: Attr,
    blanks: &[Row],
    n: u16,
) -> Result<Family, LowerError>
    requires broken { IsBroken q.now p.now.signs.items condition attr }
    requires blanks { AreBlanks q.now (rows_in blanks.now) }
    ensures { LowersBroken q.now (rows_in blanks.now) condition attr n result }
{
    match condition {
        Condition::C1 => make_for(alloc, q, p, condition, attr, blanks, n),
        Condition::C2 => match pair_across(q.pairs().as_slice()) {
            Some(_) => Err(LowerError::C2),
            None => make_for(alloc, q, p, condition, attr, blanks, n),
        },
        Condition::C3 => lower_apart(alloc, q, p, attr, blanks, n),
    }
}

// The part of this number, from 1, which the decision names.
fn part_at<'a>(
    q: &Query,
    parts: &'a [Part],
    part: u32,
    condition: Condition,
    attr: Attr,
) -> &'a Part
    requires parts { AreParts q.now (sign_lists parts.now) }
    requires decision { IsDecision q.now (decisions.Violation part condition attr) }
    ensures { IsBroken q.now result.now.signs.items condition attr }
{
    // No effect at run time. The proof reads the limits of the query from this call.
    let _from = q.from();
    let _condition = condition;
    let _attr = attr;
    &parts[part as usize - 1]
}

/// Returns a family of n rows for the condition that the decision names, at its column, or why there is none. `blanks` has for each place of
/// FROM a row with a value for each column that the query reads, in the domains of the query; what the query does not read stays as it is there.
pub fn family_over(
    alloc: Global,
    q: &Query,
    parts: &[Part],
    decision: Decision,
    blanks: &[Row],
    n: u16,
) -> Result<Family, LowerError>
    requires parts { AreParts q.now (sign_lists parts.now) }
    requires decision { IsDecision q.now decision }
    requires blanks { AreBlanks q.now (rows_in blanks.now) }
    ensures { Lowers q.now (rows_in blanks.now) decision n result }
{
    match decision {
        Decision::Bounded => Err(LowerError::Bounded),
        Decision::Violation {
            part,
            condition,
            attr,
        } => {
            let p = part_at(q, parts, part, condition, attr);
            lower(alloc, q, p, condition, attr, blanks, n)
        }
    }
}
