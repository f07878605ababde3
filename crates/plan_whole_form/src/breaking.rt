//! The first condition that the whole form breaks, and the first column that shows it.
ghost use Rattle.std.specs.Prelude.{◌≡◌, ◌↔◌, map, IsTrue};
ghost use Rattle.sem_query.specs.declared.condition.Condition.{Condition};
ghost use Rattle.sem_query.specs.declared.condition.Condition.TheVariants.{C1, C2, C3};
ghost use Rattle.sem_query.specs.FirstBreak.{IsFirst, IsFirstAmong};
ghost use Rattle.sem_whole.specs.Links.{AreLinks};
ghost use Rattle.sem_whole.specs.Whole.{WholeBreaks};
ghost use Rattle.sem_whole.specs.Failing.{IsFirstWholeBreak};
ghost use Rattle.plan_whole.specs.Columns.{atom_of};
ghost use Rattle.plan_whole_form.specs.Breaking.{IsFixed, MayNotBeExtreme};

use crate::sides::{has_earlier, has_open_range, is_open_side, is_unlike};
use plan_whole::{ClosedSystem, ColumnLink, is_kept_as_it_is, is_one_way};
use sem_query::{Attr, Break, Condition, first_of_three, sooner_if};

// Whether a column is kept as it is, or in a link `<>`.
fn is_fixed(closed: &ClosedSystem, links: &[ColumnLink], a: Attr) -> bool
    ensures { IsTrue result ↔ IsFixed closed.now (map atom_of links.now) a }
{
    is_kept_as_it_is(closed, links, a) || is_unlike(closed, links, a)
}

// Whether a column is not the extreme of its stream: cells count, its links go both ways, or another class comes before it.
fn may_not_be_extreme(closed: &ClosedSystem, links: &[ColumnLink], a: Attr) -> bool
    ensures { IsTrue result ↔ MayNotBeExtreme closed.now (map atom_of links.now) a }
{
    if !closed.query().distinct() {
        return true;
    }
    if !is_one_way(closed, links, a) {
        return true;
    }
    has_earlier(closed, links, a)
}

// Whether a column in a link has an open kept range, and is kept as it is or in a link `<>`.
#[tactic(auto, using(crate::proofs::Breaks::second_told))]
fn breaks_second(closed: &ClosedSystem, links: &[ColumnLink], a: Attr) -> bool
    ensures { IsTrue result ↔ WholeBreaks closed.now (map atom_of links.now) C2 a }
{
    is_open_side(closed, links, a) && is_fixed(closed, links, a)
}

// Whether a column in a link has an open kept range, is neither kept as it is nor in a link `<>`, and is not the extreme.
fn breaks_third(closed: &ClosedSystem, links: &[ColumnLink], a: Attr) -> bool
    ensures { IsTrue result ↔ WholeBreaks closed.now (map atom_of links.now) C3 a }
{
    if !is_open_side(closed, links, a) {
        return false;
    }
    if is_fixed(closed, links, a) {
        return false;
    }
    may_not_be_extreme(closed, links, a)
}

// Whether a selected column has an open range.
#[tactic(auto, using(crate::proofs::Breaks::first_told))]
fn breaks_first(closed: &ClosedSystem, links: &[ColumnLink], a: Attr) -> bool
    ensures { IsTrue result ↔ WholeBreaks closed.now (map atom_of links.now) C1 a }
{
    // Named for the proof alone: the contract speaks of it.
    let _links = links;
    let selected = closed.query().select().contains(&a);
    let open = has_open_range(closed, a);
    selected && open
}

// Whether the form breaks a condition and a column shows it.
fn breaks(closed: &ClosedSystem, links: &[ColumnLink], condition: Condition, a: Attr) -> bool
    ensures { IsTrue result ↔ WholeBreaks closed.now (map atom_of links.now) condition a }
{
    match condition {
        Condition::C1 => breaks_first(closed, links, a),
        Condition::C2 => breaks_second(closed, links, a),
        Condition::C3 => breaks_third(closed, links, a),
    }
}

// The first of some columns that shows that the form breaks a condition.
fn first_among(
    closed: &ClosedSystem,
    links: &[ColumnLink],
    condition: Condition,
    columns: &[Attr],
) -> Option<Attr>
    ensures { IsFirstAmong (WholeBreaks closed.now (map atom_of links.now) condition) columns.now result }
{
    let mut found = None;
    for i in 0..columns.len() {
        let attr = columns[i];
        let counts = breaks(closed, links, condition, attr);
        let first = sooner_if(counts, found, attr);
        found = first;
    }
    found
}

// The first selected column that has an open range.
fn first_selected(closed: &ClosedSystem, links: &[ColumnLink]) -> Option<Attr>
    ensures { IsFirst (WholeBreaks closed.now (map atom_of links.now) C1) result }
{
    first_among(closed, links, Condition::C1, closed.query().select())
}

// The first column in a link that has an open kept range and is kept as it is or in a link `<>`.
fn first_fixed(closed: &ClosedSystem, links: &[ColumnLink]) -> Option<Attr>
    requires { AreLinks closed.now (map atom_of links.now) }
    ensures { IsFirst (WholeBreaks closed.now (map atom_of links.now) C2) result }
{
    first_among(closed, links, Condition::C2, closed.query().attrs())
}

// The first column in a link that has an open kept range and is one that the extreme of its stream does not stand for.
fn first_other(closed: &ClosedSystem, links: &[ColumnLink]) -> Option<Attr>
    requires { AreLinks closed.now (map atom_of links.now) }
    ensures { IsFirst (WholeBreaks closed.now (map atom_of links.now) C3) result }
{
    first_among(closed, links, Condition::C3, closed.query().attrs())
}

/// Returns the first condition that the whole form of a query with these links breaks, with the first column that shows it, or none where
/// it meets all. C1: a selected column has an open range. C2: so has the kept range of a column in a link, which is kept as it is or in a link
/// `<>`. C3: so has that of another column in a link, for which no extreme stands.
#[tactic(auto, using(crate::proofs::Breaks::first_break_is))]
pub fn first_break(closed: &ClosedSystem, links: &[ColumnLink]) -> Option<Break>
    requires { AreLinks closed.now (map atom_of links.now) }
    ensures { IsFirstWholeBreak closed.now (map atom_of links.now) result }
{
    let first = first_selected(closed, links);
    let second = first_fixed(closed, links);
    let third = first_other(closed, links);
    first_of_three(first, second, third)
}
