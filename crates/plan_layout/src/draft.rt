//! The plans of the parts, one after another, with what they come to.
ghost use Rattle.std.specs.Prelude.{◌≡◌, ◌+◌, ◌<◌, ◌≤◌, ◌^◌, ◌++◌, [], ◌∷◌, length, OnOk, None};
ghost use Rattle.sem_query.specs.Query.{IsWithinLimits};
ghost use Rattle.sem_query.specs.Parts.{IsPart};
ghost use Rattle.sem_query.specs.Ranges.{different};
ghost use Rattle.plan_links.specs.Refs.{AreRefs};
ghost use Rattle.sem_query.specs.FirstBreak.{IsFirstBreak};
ghost use Rattle.plan_layout.specs.Capped.{capped};
ghost use Rattle.plan_layout.specs.Boxed.{cells_over, boxed_part, cells_for};
ghost use Rattle.plan_layout.specs.Drafts.{AreSet, IsDraft, signs_of};
ghost use Rattle.plan_layout.specs.Sums.{AreDrafted};

use crate::dims::dims;
use crate::kinds::kind_of;
use crate::selecting::tuples_in;
use crate::shares::share;
use crate::sizes::box_size;
use arrayvec::ArrayVec;
use plan_links::Refs;
use sem_query::{Attr, Dim, Locals, Part, PartPlan, Query, Sign, Signs, StreamPlan};
use std::alloc::{AllocError, Global};

/// The plans of the parts so far, and how many cells and answers they have and how much work they are.
#[derive(Drop)]
pub struct PlanDraft {
    pub parts: Vec<PartPlan>,
    pub cells: u64,
    pub answers: u64,
    pub work: u64,
}

/// Returns a number as far as 32 bits keep it.
pub fn narrowed(n: u64) -> u32
    ensures { n < 2 ^ 32 → result ≡ n }
{
    if n < 4_294_967_296 {
        n as u32
    } else {
        u32::MAX
    }
}

/// Returns how many cells a stream with these dims has: a query over one stream keeps none.
pub fn cells_over(q: &Query, dims: &[Dim]) -> u64
    ensures { result ≡ capped (cells_over q.now dims.now) }
{
    if q.from().len() == 1 {
        0
    } else {
        box_size(dims)
    }
}

// What is kept of each stream, the boxes set from a number of cells on, and that number with the cells of the streams.
fn streams(q: &Query, p: &Part, refs: &Refs, first: u64) -> (ArrayVec<StreamPlan, 4>, u64)
    requires part { IsPart q.now p.now.signs.items }
    requires refs { AreRefs q.now p.now.signs.items refs.now }
    ensures { AreSet q.now p.now.signs.items first (length q.now.from) result.1 result.0.items }
{
    let mut list = ArrayVec::new();
    let mut next = first;
    'places: for place in 0..q.from().len() {
        let dims = dims(q, p, refs, place);
        let size = cells_over(q, dims.as_slice());
        list.push(StreamPlan {
            dims,
            kind: kind_of(q, p, refs, place),
            base: narrowed(next),
            size: narrowed(size),
        });
        next = next.saturating_add(size);
    }
    (list, next)
}

// A list with these signs.
fn copied(signs: &[Sign]) -> Signs
    requires { length signs.now ≤ 114 }
    ensures { result.items ≡ signs.now }
{
    let mut copy = ArrayVec::new();
    for sign in signs {
        copy.push(*sign);
    }
    copy
}

// The plan of a part, its boxes set from a number of cells on, and that number with the cells of the part. Signs say all that rows of a stream are
// asked, and each link is an equality or `<`.
fn part_plan(alloc: Global, q: &Query, p: &Part, refs: Refs, first: u64) -> (PartPlan, u64)
    requires part { IsPart q.now p.now.signs.items }
    requires refs { AreRefs q.now p.now.signs.items refs }
    ensures signs { result.0.signs.items ≡ p.now.signs.items }
    ensures draft { IsDraft q.now result.0 }
    ensures cells { result.1 ≡ capped (first + cells_for q.now result.0) }
    ensures boxes { result.1 < 2 ^ 32 → boxed_part q.now first result.0 ≡ result.0 }
{
    let (streams, next) = streams(q, p, &refs, first);
    let part = PartPlan {
        signs: copied(p.signs.as_slice()),
        local: Locals::of(Vec::new(alloc)),
        streams,
        equal: refs.equal,
        less: refs.less,
        soft: ArrayVec::new(),
    };
    (part, next)
}

/// Adds the plan of a part that breaks no condition, where there is memory for it.
pub fn add_part(
    alloc: Global,
    q: &Query,
    p: &Part,
    refs: Refs,
    columns: &[Attr],
    draft: &mut PlanDraft,
) -> Result<(), AllocError>
    requires limits { IsWithinLimits q.now }
    requires part { IsPart q.now p.now.signs.items }
    requires columns { columns.now ≡ different q.now.select }
    requires refs { AreRefs q.now p.now.signs.items refs }
    requires fine { IsFirstBreak q.now p.now.signs.items None }
    requires drafted { AreDrafted q.now draft.old }
    ensures drafted { OnOk result (AreDrafted q.now draft.new) }
    ensures signs { OnOk result (signs_of draft.new.parts.items ≡ signs_of draft.old.parts.items ++ p.now.signs.items ∷ []) }
{
    let answers = tuples_in(q, p, &refs, columns);
    let (part, cells) = part_plan(alloc, q, p, refs, draft.cells);
    draft.cells = cells;
    draft.answers = draft.answers.saturating_add(answers);
    draft.work = draft.work.saturating_add(share(&part));
    match draft.parts.push(part) {
        Ok(()) => Ok(()),
        Err(_) => Err(AllocError),
    }
}
