//! Room for a walk, and the values that there are to try at the next place.
ghost use Rattle.std.specs.Prelude.{◌≡◌, ◌≢◌, ◌⊎◌, ◌+◌, ◌*◌, ◌<◌, ◌≤◌, ◌^◌, length, [], ◌∷◌, ◌++◌, IfSome, map, true, false, Option, Some};
ghost use Rattle.sem_query.specs.Boxes.{box_size, values_at, AreInside, AreNumbered};
ghost use Rattle.sem_query.specs.Combinations.{Reading, read_from};
ghost use Rattle.sem_query.specs.Meaning.{by_column};
ghost use Rattle.sem_query.specs.Parts.{pairs};
ghost use Rattle.sem_query.specs.Plan.{stream_at, dims_at};
ghost use Rattle.sem_query.specs.Probing.{found_beside};
ghost use Rattle.exec_pool.specs.Extents.{cells_of, IsLive};
ghost use Rattle.exec_join.specs.Along.{SeenAlong, IsCandidate};
ghost use Rattle.exec_join.specs.declared.along.Along.TheVariants as along;
ghost use Rattle.exec_join.specs.Beside.{last_beside, IsEmptyBeside};
ghost use Rattle.exec_join.specs.Choosing.{setting, start, both, chosen};
ghost use Rattle.exec_join.specs.Costs.{tried_size, walk_reads};
ghost use Rattle.exec_join.specs.Joining.{Tells};
ghost use Rattle.exec_join.specs.declared.join.FirstLook.TheVariants as look;
ghost use Rattle.exec_join.specs.Walk.{walk};
ghost use Rattle.exec_ranges.specs.Lined.{StandOn, AreFixed};
ghost use Rattle.exec_synopsis.specs.Preparing.{IsPrepared};
ghost use Rattle.exec_ranges.specs.Narrowed.{narrowed_dims};
ghost use Rattle.exec_synopsis.specs.Premises.{IsLaidOut, IsReady};

use crate::along::{Along, line_ahead};
use crate::beside::leaves_nothing;
use crate::join::FirstLook;
use crate::links::{meets_links, tuple_of};
use crate::stack::Bindings;
use exec_pool::{Extent, Pool, Steps, StridedCells};
use exec_ranges::{
    Counts, Dims, RowAt, fixed_dims, is_empty, line_of, narrowed_dims, pinned_dims, rows_in,
    single_dims,
};
use exec_synopsis::{is_scan, stream_at};
use sem_query::{Cell, Dim, PartPlan, Tuple, size_of};
use std::sync::ledger::Ledger;

/// Room for a walk. What it holds between two walks means nothing.
#[derive(Drop, Default)]
pub struct ProbeScratch {
    pub(crate) chosen: Bindings,
    pub(crate) numbers: Counts,
    pub(crate) sizes: Counts,
    pub(crate) dims: Dims,
    pub(crate) line: Option<StridedCells>,
}

/// Room to work in, of which nothing is asked: that of a walk, and a tuple.
#[derive(Drop)]
pub struct Scratch {
    pub room: ProbeScratch,
    pub tuple: Tuple,
}

impl Scratch {
    /// Returns room to work in.
    pub fn new() -> Scratch {
        Scratch {
            room: ProbeScratch::default(),
            tuple: Tuple::new(),
        }
    }
}

impl ProbeScratch {
    // Sees the values to try after these choices, where it is listed that the row's own columns fix
    // them all; else it may not tell.
    pub(crate) fn look_pinned(&mut self, at: &RowAt<'_>) -> bool
        requires more { length self.old.chosen.items < length at.now.part.now.streams.items }
        requires prepared { IsPrepared (pairs at.now.q.now) at.now.part.now at.now.prepared.now }
        requires laid { length self.old.chosen.items ≢ at.now.arriving → IsLaidOut (stream_at at.now.part.now (length self.old.chosen.items)) (2 ^ 32) }
        ensures chosen { self.new.chosen ≡ self.old.chosen }
        ensures numbers { self.new.numbers ≡ self.old.numbers }
        ensures sizes { self.new.sizes ≡ self.old.sizes }
        ensures fixed { result ≡ true → (self.new.dims.items ≡ narrowed_dims (pairs at.now.q.now) at.now.part.now at.now.arriving at.now.row.now.items self.old.chosen.items) × (box_size (narrowed_dims (pairs at.now.q.now) at.now.part.now at.now.arriving at.now.row.now.items self.old.chosen.items) ≡ 1) × StandOn at.now.part.now at.now.arriving (length self.old.chosen.items) (narrowed_dims (pairs at.now.q.now) at.now.part.now at.now.arriving at.now.row.now.items self.old.chosen.items) self.new.line }
    {
        let place = self.chosen.len();
        if at.arriving as usize == place {
            return false;
        }
        let Some(first) = pinned_dims(at, self.chosen.as_slice(), &mut self.dims) else {
            return false;
        };
        self.line = Some(StridedCells { first, stride: 1 });
        true
    }

    // Sees which values there are to try after these choices, and tells for how many combinations: one where known columns fix them all, the
    // whole box where no link with a known column says anything of them, else what is left of one dim after the other.
    pub(crate) fn look_other(&mut self, at: &RowAt<'_>) -> u32
        requires more { length self.old.chosen.items < length at.now.part.now.streams.items }
        requires prepared { IsPrepared (pairs at.now.q.now) at.now.part.now at.now.prepared.now }
        requires laid { length self.old.chosen.items ≢ at.now.arriving → IsLaidOut (stream_at at.now.part.now (length self.old.chosen.items)) (2 ^ 32) }
        ensures size { result ≡ box_size (narrowed_dims (pairs at.now.q.now) at.now.part.now at.now.arriving at.now.row.now.items self.old.chosen.items) }
        ensures dims { self.new.dims.items ≡ narrowed_dims (pairs at.now.q.now) at.now.part.now at.now.arriving at.now.row.now.items self.old.chosen.items }
        ensures chosen { self.new.chosen ≡ self.old.chosen }
        ensures numbers { self.new.numbers ≡ self.old.numbers }
        ensures sizes { self.new.sizes ≡ self.old.sizes }
        ensures line { StandOn at.now.part.now at.now.arriving (length self.old.chosen.items) (narrowed_dims (pairs at.now.q.now) at.now.part.now at.now.arriving at.now.row.now.items self.old.chosen.items) self.new.line }
    {
        let place = self.chosen.len();
        if at.arriving as usize == place {
            self.dims.clear();
            self.line = None;
            return 1;
        }
        if let Some(first) = fixed_dims(at, self.chosen.as_slice(), &mut self.dims) {
            self.line = Some(StridedCells { first, stride: 1 });
            return 1;
        }
        let plan = stream_at(at.part, place);
        if is_scan(at.prepared.access(at.arriving, place)) {
            self.dims.copy_from(plan.dims.as_slice());
            self.line = Some(StridedCells {
                first: plan.base,
                stride: 1,
            });
            return plan.size;
        }
        narrowed_dims(at, self.chosen.as_slice(), &mut self.dims);
        let size = size_of(self.dims.as_slice());
        if size == 0 {
            self.line = None;
            return size;
        }
        self.line = line_of(plan.base, plan.dims.as_slice(), self.dims.as_slice());
        size
    }

    // Takes up what a walk has chosen where it comes to its first cell.
    fn begin(&mut self, arriving: u8)
        ensures { self.new.chosen.items ≡ start arriving }
    {
        self.chosen.clear();
        if arriving == 0 {
            self.chosen.push_own();
        }
    }

    /// Tells the number of the cell to which a walk comes first, where it is listed that this one alone is left there.
    pub(crate) fn first_cell(&mut self, at: &RowAt<'_>) -> Option<u32>
        requires prepared { IsPrepared (pairs at.now.q.now) at.now.part.now at.now.prepared.now }
        requires laid { length (start at.now.arriving) < length at.now.part.now.streams.items → IsLaidOut (stream_at at.now.part.now (length (start at.now.arriving))) (2 ^ 32) }
        ensures chosen { self.new.chosen.items ≡ start at.now.arriving }
        ensures first { IfSome result (λ first. (length (start at.now.arriving) < length at.now.part.now.streams.items) × AreFixed at.now.part.now (length (start at.now.arriving)) (narrowed_dims (pairs at.now.q.now) at.now.part.now at.now.arriving at.now.row.now.items (start at.now.arriving)) self.new.dims.items first) }
    {
        self.begin(at.arriving);
        if self.chosen.len() >= at.part.streams.as_slice().len() {
            return None;
        }
        let known = self.chosen.as_slice();
        let pinned = pinned_dims(at, known, &mut self.dims);
        if pinned.is_some() {
            return pinned;
        }
        single_dims(at, known, &mut self.dims)
    }

    // Takes up the cell to which a walk over two streams comes first, where it alone is left there, and the arriving row behind it, where
    // that is not taken up yet.
    fn take_both(&mut self, arriving: u8, cell: Cell)
        requires chosen { self.old.chosen.items ≡ start arriving }
        requires one { box_size self.old.dims.items ≡ 1 }
        ensures { self.new.chosen.items ≡ both arriving (map (λ d. d.lo) self.old.dims.items) cell }
    {
        self.chosen.push(self.dims.as_slice(), 1, 0, cell);
        if arriving == 0 {
            return;
        }
        self.chosen.push_own();
    }

    /// Tells what the cell tells to which a walk over two streams comes first, where it alone is left there and is not empty, and puts the
    /// tuple where there is one. It is not inlined: most cells are empty.
    #[inline(never)]
    pub(crate) fn look_alone(&mut self, at: &RowAt<'_>, cell: Cell, tuple: &mut Tuple) -> FirstLook
        requires prepared { IsPrepared (pairs at.now.q.now) at.now.part.now at.now.prepared.now }
        requires chosen { self.old.chosen.items ≡ start at.now.arriving }
        requires one { box_size self.old.dims.items ≡ 1 }
        ensures sure { result ≡ look.Unknown → ⊥ }
        ensures found { (read : Reading) → Tells result tuple.new.items (walk (setting (pairs at.now.q.now) at.now.q.now.select at.now.part.now at.now.arriving at.now.row.now.items read) 0 (both at.now.arriving (map (λ d. d.lo) self.old.dims.items) cell)) }
    {
        self.take_both(at.arriving, cell);
        let known = self.chosen.as_slice();
        if !meets_links(at, known) {
            return FirstLook::Nothing;
        }
        tuple_of(at, known, at.q.select(), tuple);
        FirstLook::One(rows_in(cell))
    }

    /// Looks along the cells that the links leave where a walk begins, where they stand equally far apart: each that is seen is one read. Where all
    /// are empty nothing is answered.
    #[inline(always)]
    pub fn look_along<L: Ledger>(
        &mut self,
        pool: &Pool,
        e: &Extent,
        at: &RowAt<'_>,
        steps: &mut Steps<L>,
    ) -> Along
        requires here { at.now.arriving < length at.now.q.now.from }
        requires ready { IsReady at.now.q.now at.now.part.now pool.now e.now }
        requires prepared { IsPrepared (pairs at.now.q.now) at.now.part.now at.now.prepared.now }
        ensures seen { SeenAlong (pairs at.now.q.now) at.now.part.now (read_from (cells_of pool.now e.now)) at.now.arriving at.now.row.now.items (start at.now.arriving) steps.old.reads result steps.new.reads }
        ensures found { IsCandidate (pairs at.now.q.now) at.now.part.now at.now.arriving at.now.row.now.items (start at.now.arriving) result }
        ensures nothing { result ≡ along.Nothing → found_beside at.now.q.now at.now.part.now (read_from (cells_of pool.now e.now)) at.now.arriving (by_column at.now.row.now.items) ≡ [] }
        ensures few { result ≡ along.Nothing → steps.new.reads ≤ steps.old.reads + walk_reads at.now.part.now at.now.arriving }
        ensures writes { steps.new.writes ≡ steps.old.writes }
    {
        // Read for the proof alone: the call tells how many streams there are.
        let _from = at.q.from();
        self.begin(at.arriving);
        if self.chosen.len() >= at.part.streams.as_slice().len() {
            return Along::Unasked;
        }
        let Some(line) = line_ahead(at, self.chosen.as_slice()) else {
            return Along::Unasked;
        };
        let cells = StridedCells {
            first: line.first,
            stride: line.stride,
        };
        match pool.first_occupied(e, cells, 0, line.count, steps) {
            Some(filled) => Along::Found(filled),
            None => Along::Nothing,
        }
    }

    /// Tells whether it is seen that the row's own columns leave no cell that holds anything at the last place that a walk comes to. Over
    /// two streams a walk sees that itself, and where links say that columns are equal one cell mostly tells it. A word of marks that is
    /// looked at is one read.
    #[inline(never)]
    pub(crate) fn is_cut_off<L: Ledger>(
        &mut self,
        pool: &Pool,
        e: &Extent,
        part: &PartPlan,
        arriving: u8,
        row: &[i64],
        steps: &mut Steps<L>,
    ) -> bool
        requires live { IsLive pool.now e.now }
        requires laid { 2 < length part.now.streams.items → IsLaidOut (stream_at part.now (last_beside (length part.now.streams.items) arriving)) (64 * e.now.pages) }
        ensures empty { result ≡ true → (2 < length part.now.streams.items) × IsEmptyBeside part.now (read_from (cells_of pool.now e.now)) arriving row.now (last_beside (length part.now.streams.items) arriving) }
        ensures reads { (steps.new.reads ≡ steps.old.reads) ⊎ ((2 < length part.now.streams.items) × (part.now.equal.items ≡ []) × (steps.new.reads ≤ steps.old.reads + tried_size part.now arriving (last_beside (length part.now.streams.items) arriving))) }
        ensures writes { steps.new.writes ≡ steps.old.writes }
    {
        if part.streams.as_slice().len() < 3 {
            return false;
        }
        if !part.equal.as_slice().is_empty() {
            return false;
        }
        leaves_nothing(pool, e, part, arriving, row, &mut self.dims, steps)
    }

    // Takes up a cell with the values at a place of these dims.
    pub(crate) fn choose(&mut self, size: u32, place: u32, cell: Cell)
        requires room { length self.old.chosen.items < 4 }
        requires sound { AreNumbered self.old.dims.items }
        requires size { size ≡ box_size self.old.dims.items }
        requires below { place < size }
        ensures chosen { self.new.chosen.items ≡ self.old.chosen.items ++ chosen (values_at self.old.dims.items place) cell ∷ [] }
        ensures numbers { self.new.numbers ≡ self.old.numbers }
        ensures sizes { self.new.sizes ≡ self.old.sizes }
        ensures dims { self.new.dims ≡ self.old.dims }
        ensures line { self.new.line ≡ self.old.line }
    {
        self.chosen.push(self.dims.as_slice(), size, place, cell);
    }
}
