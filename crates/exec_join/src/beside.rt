//! Rows whose own columns leave, at the last place that a walk would come to, no cell that holds anything.
ghost use Rattle.std.specs.Prelude.{◌≡◌, ◌⊎◌, ◌+◌, ◌*◌, ◌<◌, ◌≤◌, [], ◌∷◌, length, true, false};
ghost use Rattle.sem_query.specs.Combinations.{read_from};
ghost use Rattle.sem_query.specs.Meaning.{by_column};
ghost use Rattle.sem_query.specs.Boxes.{box_size};
ghost use Rattle.sem_query.specs.Plan.{stream_at, dims_at};
ghost use Rattle.exec_pool.specs.Extents.{cells_of, IsLive};
ghost use Rattle.exec_join.specs.Beside.{last_beside, third_beside, beside_dims, IsEmptyBeside, IsInnerBox, IsEmptyIn};
ghost use Rattle.exec_synopsis.specs.Premises.{IsLaidOut};
ghost use Rattle.exec_synopsis.specs.Narrowing.{clip_by, clip};

use exec_pool::{Extent, Pool, Steps};
use exec_ranges::{Dims, above, below, dim_size, line_of, offset_of};
use exec_synopsis::{is_known, stream_at};
use sem_query::{Dim, Link, PartPlan, StreamPlan, dims_at, is_same, size_of, value_at};
use std::sync::ledger::Ledger;

// The dim with the values that an inequality with a column of the row leaves.
fn clip_by(arriving: u8, row: &[i64], link: Link, dim: Dim) -> Dim
    ensures { result ≡ clip_by arriving 0 link (λ a. by_column row.now a.column) dim }
{
    if is_same(link.left, dim.attr) && is_known(arriving, 0, link.right) {
        return below(dim, value_at(row, link.right.column));
    }
    if is_same(link.right, dim.attr) && is_known(arriving, 0, link.left) {
        return above(dim, value_at(row, link.left.column));
    }
    dim
}

// The dim with the values that the inequalities with columns of the row leave.
fn clip(arriving: u8, row: &[i64], links: &[Link], dim: Dim) -> Dim
    ensures { result ≡ clip arriving 0 links.now (λ a. by_column row.now a.column) dim }
{
    let mut left = dim;
    'links: for link in links {
        left = clip_by(arriving, row, *link, left);
    }
    left
}

// Puts into `dims` the dims of a place, each with the values that the inequalities with columns of the row leave.
fn beside_dims(part: &PartPlan, arriving: u8, row: &[i64], place: usize, dims: &mut Dims)
    ensures { dims.new.items ≡ beside_dims part.now arriving row.now place }
{
    dims.clear();
    'dims: for dim in dims_at(part, place) {
        dims.push(clip(arriving, row, part.less.as_slice(), *dim));
    }
}

// Whether the cells of a box for the values of these dims are seen to be empty, where they stand side by side.
fn holds_nothing<L: Ledger>(
    pool: &Pool,
    e: &Extent,
    plan: &StreamPlan,
    dims: &[Dim],
    steps: &mut Steps<L>,
) -> bool
    requires live { IsLive pool.now e.now }
    requires laid { IsLaidOut plan.now (64 * e.now.pages) }
    requires inner { IsInnerBox plan.now.dims.items dims.now }
    ensures empty { result ≡ true → IsEmptyIn plan.now (cells_of pool.now e.now) dims.now }
    ensures reads { steps.new.reads ≤ steps.old.reads + box_size dims.now }
    ensures writes { steps.new.writes ≡ steps.old.writes }
{
    let size = size_of(dims);
    if size == 0 {
        return true;
    }
    let Some(line) = line_of(plan.base, plan.dims.as_slice(), dims) else {
        return false;
    };
    if line.stride != 1 {
        return false;
    }
    pool.first_marked(e, line.first, size, steps).is_none()
}

// Whether the cells of a box of one dim are seen to be empty for these of its values.
fn holds_none<L: Ledger>(
    pool: &Pool,
    e: &Extent,
    plan: &StreamPlan,
    whole: Dim,
    left: Dim,
    steps: &mut Steps<L>,
) -> bool
    requires live { IsLive pool.now e.now }
    requires laid { IsLaidOut plan.now (64 * e.now.pages) }
    requires only { plan.now.dims.items ≡ whole ∷ [] }
    requires inner { IsInnerBox plan.now.dims.items (left ∷ []) }
    ensures empty { result ≡ true → IsEmptyIn plan.now (cells_of pool.now e.now) (left ∷ []) }
    ensures reads { steps.new.reads ≤ steps.old.reads + box_size (left ∷ []) }
    ensures writes { steps.new.writes ≡ steps.old.writes }
{
    let size = dim_size(left);
    if size == 0 {
        return true;
    }
    pool.first_marked(e, plan.base + offset_of(whole, left), size, steps)
        .is_none()
}

// The place that a walk over four streams comes to before the last one.
fn third_beside(arriving: u8) -> usize
    ensures { result ≡ third_beside arriving }
{
    if arriving < 2 { 2 } else { 1 }
}

// The last place that a walk comes to.
fn last_beside(streams: usize, arriving: u8) -> usize
    requires { 2 ≤ streams }
    ensures { result ≡ last_beside streams arriving }
{
    if usize::from(arriving) == streams - 1 {
        streams - 2
    } else {
        streams - 1
    }
}

/// Returns whether the last two places that a walk over four streams comes to have one cell each: then it may read all that three times the
/// share leaves.
pub fn has_single_cells(part: &PartPlan, arriving: u8) -> bool
    requires four { 3 < length part.now.streams.items }
    ensures { result ≡ false → (2 ≤ (stream_at part.now (third_beside arriving)).size) ⊎ (2 ≤ (stream_at part.now (last_beside (length part.now.streams.items) arriving)).size) }
{
    if stream_at(part, third_beside(arriving)).size > 1 {
        return false;
    }
    let last = last_beside(part.streams.as_slice().len(), arriving);
    stream_at(part, last).size <= 1
}

/// Returns whether it is seen that the row's own columns leave no cell that holds anything at the last place that a walk comes to. A
/// word of marks that is looked at is one read.
pub fn leaves_nothing<L: Ledger>(
    pool: &Pool,
    e: &Extent,
    part: &PartPlan,
    arriving: u8,
    row: &[i64],
    dims: &mut Dims,
    steps: &mut Steps<L>,
) -> bool
    requires several { 2 ≤ length part.now.streams.items }
    requires live { IsLive pool.now e.now }
    requires laid { IsLaidOut (stream_at part.now (last_beside (length part.now.streams.items) arriving)) (64 * e.now.pages) }
    ensures empty { result ≡ true → IsEmptyBeside part.now (read_from (cells_of pool.now e.now)) arriving row.now (last_beside (length part.now.streams.items) arriving) }
    ensures reads { steps.new.reads ≤ steps.old.reads + box_size (dims_at part.now (last_beside (length part.now.streams.items) arriving)) }
    ensures writes { steps.new.writes ≡ steps.old.writes }
{
    let place = last_beside(part.streams.as_slice().len(), arriving);
    let plan = stream_at(part, place);
    if let [dim] = plan.dims.as_slice() {
        let left = clip(arriving, row, part.less.as_slice(), *dim);
        return holds_none(pool, e, plan, *dim, left, steps);
    }
    beside_dims(part, arriving, row, place, dims);
    holds_nothing(pool, e, plan, dims.as_slice(), steps)
}
