//! The walk over the combinations of cells that answer a row.
ghost use Rattle.std.specs.Prelude.{◌≡◌, ◌≢◌, ℕ, List, ◌+◌, ◌-◌, ◌*◌, ◌<◌, ◌≤◌, ◌^◌, length, [], ◌∷◌, MatchOption, All, take, true, false, Option, Some};
ghost use Rattle.sem_query.specs.Boxes.{box_size, values_at, AreInside, AreNumbered};
ghost use Rattle.sem_query.specs.Meaning.{by_column};
ghost use Rattle.sem_query.specs.Combinations.{Reading, read_from};
ghost use Rattle.sem_query.specs.Numbers.{share};
ghost use Rattle.sem_query.specs.Parts.{pairs};
ghost use Rattle.sem_query.specs.Plan.{stream_at};
ghost use Rattle.sem_query.specs.Probing.{found_beside};
ghost use Rattle.sem_query.specs.declared.atom.Attr.{Attr};
ghost use Rattle.sem_query.specs.declared.cell.Cell.TheVariants.{Present};
ghost use Rattle.exec_pool.specs.Extents.{cells_of, IsLive};
ghost use Rattle.exec_pool.specs.Strides.{IsFirst};
ghost use Rattle.exec_join.specs.Along.{tried_cell, SeenAlong, IsCandidate};
ghost use Rattle.exec_join.specs.declared.along.Along.TheVariants as along;
ghost use Rattle.exec_join.specs.Choosing.{start, chosen, cell_in, meets_links, tuple_of, product_of};
ghost use Rattle.exec_ranges.specs.Narrowed.{dims_in};
ghost use Rattle.exec_join.specs.Costs.{read_at, walk_reads};
ghost use Rattle.exec_ranges.specs.Lined.{StandOn};
ghost use Rattle.exec_join.specs.Repeats.{IsTold, ArePassed};
ghost use Rattle.exec_synopsis.specs.Preparing.{IsPrepared};
ghost use Rattle.exec_ranges.specs.Values.{rows_in};
ghost use Rattle.exec_synopsis.specs.Premises.{IsWalked, IsReady, IsLaidOut, AreFitting};
ghost use Rattle.exec_join.specs.Remaining.{left_of, outer_of, reads_left, turns_left, limit, IsAtStart, IsPlaced, IsUnderway, IsSameWalk, WentBack, HasOpened, HasEntered, dims_now, as_found};

use crate::along::Along;
use crate::links::{meets_links, tuple_of};
use crate::repeats::is_told;
use crate::scratch::ProbeScratch;
use exec_pool::{Extent, Occupied, Pool, Steps};
use exec_ranges::{Binding, RowAt, is_empty, rows_in, values_of};
use exec_synopsis::{Prepared, stream_at};
use sem_query::{Cell, PartPlan, Query, Row, Tuple, cell_index};
use std::sync::ledger::Ledger;

/// A level that no walk comes to.
const NO_LEVEL: usize = 8;

/// A walk over the combinations of cells that answer a row. The room tells of the dims at one level, after so many choices.
#[derive(Drop)]
pub struct Probe<'a> {
    arriving: u8,
    row: &'a Row,
    q: &'a Query,
    prepared: &'a Prepared,
    room: &'a mut ProbeScratch,
    level: usize,
    next: u32,
    size: u32,
    over: bool,
}

// What stands at a place of FROM for these values: the arriving row, or a cell.
#[tactic(auto, unfolding(crate::specs::Choosing::cell_in, exec_ranges::specs::Narrowed::dims_in))]
fn content<L: Ledger>(
    pool: &Pool,
    e: &Extent,
    part: &PartPlan,
    arriving: u8,
    place: usize,
    values: &[i64],
    steps: &mut Steps<L>,
) -> Cell
    requires here { place < length part.now.streams.items }
    requires live { IsLive pool.now e.now }
    requires laid { place ≢ arriving → IsLaidOut (stream_at part.now place) (64 * e.now.pages) }
    requires inside { AreInside (dims_in part.now arriving place) values.now }
    ensures cell { result ≡ cell_in part.now (read_from (cells_of pool.now e.now)) arriving place values.now }
    ensures reads { steps.new.reads ≡ steps.old.reads + read_at arriving place }
    ensures writes { steps.new.writes ≡ steps.old.writes }
{
    if place == arriving as usize {
        return Cell::Present;
    }
    pool.read(e, cell_index(stream_at(part, place), values), steps)
}

// For how many combinations of rows the chosen cells stand.
fn product_of(chosen: &[Binding]) -> u128
    requires { (k : ℕ) → product_of (take k chosen.now) ≤ 2 ^ 120 }
    ensures { result ≡ product_of chosen.now }
{
    let mut product: u128 = 1;
    'choices: for c in chosen {
        product *= u128::from(rows_in(c.cell));
    }
    product
}

impl<'a> Probe<'a> {
    /// Returns the walk for a row that arrives at a place of FROM, from its start: what it has to give is what the cells answer
    /// to the row, whatever they hold, and it reads at most the share of the part for each other stream, and so at most three
    /// times the share. With DISTINCT each count is 1.
    pub fn new(
        q: &'a Query,
        part: &PartPlan,
        prepared: &'a Prepared,
        pos: u8,
        row: &'a Row,
        room: &'a mut ProbeScratch,
    ) -> Probe<'a>
        requires here { pos < length q.now.from }
        requires walked { IsWalked q.now part.now }
        requires prepared { IsPrepared (pairs q.now) part.now prepared.now }
        ensures underway { IsUnderway part.now result }
        ensures starts { IsAtStart (pairs q.now) pos row.now.items result }
        ensures left { (read : Reading) → left_of q.now.select part.now read result ≡ found_beside q.now part.now read pos (by_column row.now.items) }
        ensures ones { (read : Reading) → AreFitting part.now read → q.now.distinct ≡ true → All (λ f. f.count ≡ 1) (left_of q.now.select part.now read result) }
        ensures reads { reads_left part.now result ≤ 3 * share part.now }
        ensures few { reads_left part.now result ≤ (length part.now.streams.items - 1) * share part.now }
        ensures whole { reads_left part.now result ≤ walk_reads part.now pos }
    {
        // Read for the proof alone: the call tells how many streams there are.
        let _from = q.from();
        let _streams = part.streams.as_slice();
        room.chosen.clear();
        room.numbers.clear();
        room.sizes.clear();
        let mut probe = Probe {
            arriving: pos,
            row,
            q,
            prepared,
            room,
            level: NO_LEVEL,
            next: 0,
            size: 0,
            over: false,
        };
        probe.open(q, part);
        probe
    }

    /// Returns the walk for a row that arrives, behind a look along the cells that the links leave at its first place: it goes on from the first
    /// of them that is not empty, where one was found.
    #[inline(always)]
    pub fn new_behind(
        q: &'a Query,
        part: &PartPlan,
        prepared: &'a Prepared,
        pos: u8,
        row: &'a Row,
        room: &'a mut ProbeScratch,
        seen: Along,
    ) -> Probe<'a>
        requires here { pos < length q.now.from }
        requires walked { IsWalked q.now part.now }
        requires prepared { IsPrepared (pairs q.now) part.now prepared.now }
        requires found { IsCandidate (pairs q.now) part.now pos row.now.items (start pos) seen }
        requires some { seen ≡ along.Nothing → ⊥ }
        ensures underway { IsUnderway part.now result }
        ensures left { (read : Reading) (before after : ℕ) → SeenAlong (pairs q.now) part.now read pos row.now.items (start pos) before seen after → left_of q.now.select part.now read result ≡ found_beside q.now part.now read pos (by_column row.now.items) }
        ensures reads { (read : Reading) (before after : ℕ) → SeenAlong (pairs q.now) part.now read pos row.now.items (start pos) before seen after → after + reads_left part.now result ≤ before + walk_reads part.now pos }
    {
        // Read for the proof alone: the calls tell how many streams there are.
        let _from = q.from();
        let _streams = part.streams.as_slice();
        let mut probe = Probe::new(q, part, prepared, pos, row, room);
        match seen {
            Along::Unasked => probe,
            Along::Nothing => probe,
            Along::Found(filled) => {
                probe.go_into(q, part, filled);
                probe
            }
        }
    }

    // On in the cell of a candidate of this level that is not empty, past those before it.
    #[inline(always)]
    fn go_into(&mut self, q: &Query, part: &PartPlan, filled: Occupied)
        requires walked { IsWalked q.now part.now }
        requires underway { IsUnderway part.now self.old }
        requires more { length self.old.room.now.chosen.items < length part.now.streams.items }
        requires beside { length self.old.room.now.chosen.items ≢ self.old.arriving }
        requires few { length part.now.streams.items ≤ 4 }
        requires going { self.old.over ≡ false }
        requires after { self.old.next ≤ filled.next }
        requires below { filled.next < self.old.size }
        requires light { rows_in filled.cell ≤ limit self.old.arriving (length self.old.room.now.chosen.items) }
        ensures underway { IsUnderway part.now self.new }
        ensures left { (read : Reading) → IsFirst (tried_cell (pairs self.old.q.now) part.now read self.old.arriving self.old.row.now.items self.old.room.now.chosen.items) self.old.next self.old.size filled → left_of q.now.select part.now read self.new ≡ left_of q.now.select part.now read self.old }
        ensures reads { reads_left part.now self.new + (filled.next - self.old.next) + 1 ≤ reads_left part.now self.old }
        ensures turns { turns_left part.now self.new < turns_left part.now self.old }
    {
        self.next = filled.next;
        self.enter(part, filled.cell);
        self.open(q, part);
    }

    // Sees which values there are to try at this level, where nothing more is listed of it.
    #[inline(never)]
    fn look_other(&mut self, part: &PartPlan)
        requires more { length self.old.room.now.chosen.items < length part.now.streams.items }
        requires prepared { IsPrepared (pairs self.old.q.now) part.now self.old.prepared.now }
        requires laid { length self.old.room.now.chosen.items ≢ self.old.arriving → IsLaidOut (stream_at part.now (length self.old.room.now.chosen.items)) (2 ^ 32) }
        ensures { HasOpened part.now self.old self.new }
    {
        self.level = self.room.chosen.len();
        let at = RowAt {
            q: self.q,
            part,
            prepared: self.prepared,
            arriving: self.arriving,
            row: self.row,
        };
        self.size = self.room.look_other(&at);
    }

    // Sees which values there are to try at this level.
    fn look(&mut self, part: &PartPlan)
        requires more { length self.old.room.now.chosen.items < length part.now.streams.items }
        requires prepared { IsPrepared (pairs self.old.q.now) part.now self.old.prepared.now }
        requires laid { length self.old.room.now.chosen.items ≢ self.old.arriving → IsLaidOut (stream_at part.now (length self.old.room.now.chosen.items)) (2 ^ 32) }
        ensures { HasOpened part.now self.old self.new }
    {
        let at = RowAt {
            q: self.q,
            part,
            prepared: self.prepared,
            arriving: self.arriving,
            row: self.row,
        };
        if self.room.look_pinned(&at) {
            self.level = self.room.chosen.len();
            self.size = 1;
            return;
        }
        self.look_other(part);
    }

    // Back to the last level at which there is something left to try, past all where there is not.
    fn retreat(&mut self, q: &Query, part: &PartPlan)
        requires walked { IsWalked q.now part.now }
        requires placed { IsPlaced part.now self.old }
        requires going { self.old.over ≡ false }
        ensures underway { IsUnderway part.now self.new }
        ensures left { (select : List Attr) (read : Reading) → left_of select part.now read self.new ≡ outer_of select part.now read self.old }
        ensures reads { reads_left part.now self.new ≤ reads_left part.now self.old }
        ensures turns { turns_left part.now self.new < turns_left part.now self.old }
    {
        // Named for the proof alone: the contract speaks of it.
        let _query = q;
        'levels: while let Some(next) = self.room.numbers.pop() {
            self.room.chosen.drop_last();
            self.next = next;
            self.size = self.room.sizes.pop().unwrap_or(0);
            if self.next >= self.size {
                continue 'levels;
            }
            if self.level == self.room.chosen.len() {
                return;
            }
            self.look(part);
            return;
        }
        self.over = true;
    }

    // On to the next level, in a cell that is not empty.
    fn enter(&mut self, part: &PartPlan, cell: Cell)
        requires placed { IsPlaced part.now self.old }
        requires more { length self.old.room.now.chosen.items < length part.now.streams.items }
        requires few { length part.now.streams.items ≤ 4 }
        requires apart { self.old.level ≢ length self.old.room.now.chosen.items + 1 }
        requires size { self.old.size ≡ box_size (dims_now part.now self.old) }
        requires dims { self.old.room.now.dims.items ≡ dims_now part.now self.old }
        requires sound { AreNumbered (dims_now part.now self.old) }
        requires below { self.old.next < self.old.size }
        requires light { rows_in cell ≤ limit self.old.arriving (length self.old.room.now.chosen.items) }
        ensures entered { HasEntered (values_at (dims_now part.now self.old) self.old.next) cell self.old self.new }
        ensures placed { IsPlaced part.now self.new }
    {
        // Named for the proof alone: the contract speaks of it.
        let _part = part;
        self.room.choose(self.size, self.next, cell);
        self.room.numbers.push(self.next + 1);
        self.room.sizes.push(self.size);
        self.next = 0;
    }

    // Past the level of the arriving row, where the walk stands before it: there is nothing to choose.
    fn pass_own(&mut self, part: &PartPlan)
        requires placed { IsPlaced part.now self.old }
        requires few { length part.now.streams.items ≤ 4 }
        requires apart { self.old.level ≢ length self.old.room.now.chosen.items + 1 }
        requires start { self.old.next ≡ 0 }
        requires going { self.old.over ≡ false }
        ensures placed { IsPlaced part.now self.new }
        ensures start { self.new.next ≡ 0 }
        ensures going { self.new.over ≡ false }
        ensures same { IsSameWalk self.old self.new }
        ensures first { self.old.room.now.chosen.items ≡ [] → self.new.room.now.chosen.items ≡ start self.old.arriving }
        ensures left { (select : List Attr) (read : Reading) → left_of select part.now read self.new ≡ left_of select part.now read self.old }
        ensures reads { reads_left part.now self.new ≤ reads_left part.now self.old }
        ensures turns { turns_left part.now self.new ≤ turns_left part.now self.old }
    {
        // Named for the proof alone: the contract speaks of it.
        let _part = part;
        if self.room.chosen.len() == self.arriving as usize {
            self.room.chosen.push_own();
            self.room.numbers.push(self.next + 1);
            self.room.sizes.push(1);
        }
    }

    // Sees what there is to try at a level that was entered.
    fn open(&mut self, q: &Query, part: &PartPlan)
        requires walked { IsWalked q.now part.now }
        requires placed { IsPlaced part.now self.old }
        requires few { length part.now.streams.items ≤ 4 }
        requires apart { self.old.level ≢ length self.old.room.now.chosen.items + 1 }
        requires start { self.old.next ≡ 0 }
        requires going { self.old.over ≡ false }
        ensures underway { IsUnderway part.now self.new }
        ensures first { self.old.room.now.chosen.items ≡ [] → IsAtStart (pairs self.old.q.now) self.old.arriving self.old.row.now.items self.new }
        ensures left { (select : List Attr) (read : Reading) → left_of select part.now read self.new ≡ left_of select part.now read self.old }
        ensures reads { reads_left part.now self.new ≤ reads_left part.now self.old }
        ensures turns { turns_left part.now self.new ≤ turns_left part.now self.old }
    {
        // Named for the proof alone: the contract speaks of it.
        let _query = q;
        self.pass_own(part);
        if self.room.chosen.len() >= part.streams.as_slice().len() {
            return;
        }
        self.look(part);
    }

    // One cell is read, and the walk goes on in it or past it.
    fn try_one<L: Ledger>(
        &mut self,
        pool: &Pool,
        e: &Extent,
        q: &Query,
        part: &PartPlan,
        steps: &mut Steps<L>,
    )
        requires ready { IsReady q.now part.now pool.now e.now }
        requires underway { IsUnderway part.now self.old }
        requires more { length self.old.room.now.chosen.items < length part.now.streams.items }
        requires few { length part.now.streams.items ≤ 4 }
        requires going { self.old.over ≡ false }
        requires below { self.old.next < self.old.size }
        ensures underway { IsUnderway part.now self.new }
        ensures left { left_of q.now.select part.now (read_from (cells_of pool.now e.now)) self.new ≡ left_of q.now.select part.now (read_from (cells_of pool.now e.now)) self.old }
        ensures reads { steps.new.reads + reads_left part.now self.new ≤ steps.old.reads + reads_left part.now self.old }
        ensures writes { steps.new.writes ≡ steps.old.writes }
        ensures turns { turns_left part.now self.new < turns_left part.now self.old }
    {
        let values = values_of(self.room.dims.as_slice(), self.size, self.next);
        let cell = content(
            pool,
            e,
            part,
            self.arriving,
            self.room.chosen.len(),
            values.as_slice(),
            steps,
        );
        if is_empty(cell) {
            self.next += 1;
            return;
        }
        self.enter(part, cell);
        self.open(q, part);
    }

    /// Returns the next combination that meets the links: puts its tuple into `tuple`, and gives the product of its counts. None
    /// comes exactly where nothing is left to give. What is read is paid from what was left to read, and no cell is written.
    pub fn next<L: Ledger>(
        &mut self,
        pool: &Pool,
        e: &Extent,
        q: &Query,
        part: &PartPlan,
        tuple: &mut Tuple,
        steps: &mut Steps<L>,
    ) -> Option<u128>
        requires ready { IsReady q.now part.now pool.now e.now }
        requires underway { IsUnderway part.now self.old }
        ensures underway { IsUnderway part.now self.new }
        ensures left { MatchOption result ((left_of q.now.select part.now (read_from (cells_of pool.now e.now)) self.old ≡ []) × (left_of q.now.select part.now (read_from (cells_of pool.now e.now)) self.new ≡ [])) (λ count. left_of q.now.select part.now (read_from (cells_of pool.now e.now)) self.old ≡ as_found tuple.new.items count ∷ left_of q.now.select part.now (read_from (cells_of pool.now e.now)) self.new) }
        ensures reads { steps.new.reads + reads_left part.now self.new ≤ steps.old.reads + reads_left part.now self.old }
        ensures writes { steps.new.writes ≡ steps.old.writes }
    {
        let streams = part.streams.as_slice().len();
        'turns: while !self.over {
            if self.room.chosen.len() >= streams {
                let at = RowAt {
                    q: self.q,
                    part,
                    prepared: self.prepared,
                    arriving: self.arriving,
                    row: self.row,
                };
                let chosen = self.room.chosen.as_slice();
                if meets_links(&at, chosen) {
                    tuple_of(&at, chosen, q.select(), tuple);
                    let count = product_of(chosen);
                    self.retreat(q, part);
                    return Some(count);
                }
                self.retreat(q, part);
            } else if self.next >= self.size {
                self.retreat(q, part);
            } else {
                match self.room.line {
                    Some(line) => match pool.first_occupied(e, line, self.next, self.size, steps) {
                        Some(filled) => self.go_into(q, part, filled),
                        None => {
                            self.next = self.size;
                            self.retreat(q, part);
                        }
                    },
                    None => self.try_one(pool, e, q, part, steps),
                }
            }
        }
        None
    }

    /// Passes what the walk would give next, as far as the cells chosen so far tell that it is this tuple again, where DISTINCT leaves
    /// that out. No cell is read.
    pub fn pass_repeats(&mut self, q: &Query, part: &PartPlan, tuple: &Tuple)
        requires walked { IsWalked q.now part.now }
        requires underway { IsUnderway part.now self.old }
        ensures underway { IsUnderway part.now self.new }
        ensures left { (read : Reading) → ArePassed q.now.distinct tuple.now.items (left_of q.now.select part.now read self.old) (left_of q.now.select part.now read self.new) }
        ensures reads { reads_left part.now self.new ≤ reads_left part.now self.old }
    {
        if !q.distinct() {
            return;
        }
        'levels: while !self.over {
            let at = RowAt {
                q: self.q,
                part,
                prepared: self.prepared,
                arriving: self.arriving,
                row: self.row,
            };
            let known = self.room.chosen.as_slice();
            if !is_told(&at, known, q.select(), tuple.as_slice()) {
                return;
            }
            self.retreat(q, part);
        }
    }
}
