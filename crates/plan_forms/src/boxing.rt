//! The plan of a part, of what is made of its form: its boxes set from a number of cells on.
ghost use Rattle.std.specs.Prelude.{◌≡◌, ◌+◌, ◌<◌, ◌≤◌, ◌^◌, [], length};
ghost use Rattle.plan_layout.specs.Capped.{capped};
ghost use Rattle.plan_layout.specs.Boxed.{boxed_part, cells_for};
ghost use Rattle.sem_forms.specs.Split.{part_query};
ghost use Rattle.plan_forms.specs.Boxing.{AreSet};
ghost use Rattle.plan_forms.specs.Made.{IsMade};
ghost use Rattle.plan_forms.specs.Drafts.{IsPartDraft};

use crate::making::Made;
use crate::placing::plan_of;
use arrayvec::ArrayVec;
use plan_layout::{cells_over, narrowed};
use plan_split_parts::Front;
use plan_whole_form::WholeStream;
use sem_query::{PartPlan, Query, StreamPlan};

// The plans of streams, their boxes set from a number of cells on as far as 32 bits keep them, and that number with the cells of the streams.
fn stream_plans(q: &Query, streams: &[WholeStream], first: u64) -> (ArrayVec<StreamPlan, 4>, u64)
    requires { length streams.now ≤ 4 }
    ensures { AreSet q.now first streams.now result.1 result.0.items }
{
    let mut list = ArrayVec::new();
    let mut next = first;
    'streams: for i in 0..streams.len() {
        let stream = &streams[i];
        let size = cells_over(q, stream.dims.as_slice());
        list.push(plan_of(stream, narrowed(next), narrowed(size)));
        next = next.saturating_add(size);
    }
    (list, next)
}

/// Returns the plan of a part, of what is made of its form, its boxes set from a number of cells on, and that number with the cells of the part.
pub fn part_plan(q: &Query, front: &Front, made: Made, first: u64) -> (PartPlan, u64)
    requires { IsMade (part_query q.now front.now.signs.items) made }
    ensures signs { result.0.signs.items ≡ [] }
    ensures draft { IsPartDraft q.now front.now.signs.items result.0 }
    ensures cells { result.1 ≡ capped (first + cells_for q.now result.0) }
    ensures boxes { result.1 < 2 ^ 32 → boxed_part q.now first result.0 ≡ result.0 }
{
    // Named for the proof alone: the contract speaks of it.
    let _front = front;
    let Made {
        streams: kept,
        equal,
        less,
        soft,
        local,
        numbers: _numbers,
        selected: _selected,
    } = made;
    let (streams, next) = stream_plans(q, kept.as_slice(), first);
    let plan = PartPlan {
        signs: ArrayVec::new(),
        local,
        streams,
        equal,
        less,
        soft,
    };
    (plan, next)
}
