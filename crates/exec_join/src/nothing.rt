//! What is seen of the answers to a row before a walk begins.
ghost use Rattle.std.specs.Prelude.{◌≡◌, ◌+◌, ◌*◌, ◌<◌, ◌≤◌, length, if◌then◌else◌};
ghost use Rattle.sem_query.specs.Combinations.{read_from};
ghost use Rattle.sem_query.specs.Meaning.{by_column};
ghost use Rattle.sem_query.specs.Numbers.{share};
ghost use Rattle.sem_query.specs.Parts.{pairs};
ghost use Rattle.sem_query.specs.Probing.{found_beside};
ghost use Rattle.exec_pool.specs.Extents.{cells_of};
ghost use Rattle.exec_join.specs.Costs.{walk_reads};
ghost use Rattle.exec_join.specs.Joining.{Tells};
ghost use Rattle.exec_join.specs.declared.join.FirstLook.TheVariants as look;
ghost use Rattle.exec_synopsis.specs.Premises.{IsReady};
ghost use Rattle.exec_synopsis.specs.Preparing.{IsPrepared};

use crate::beside::has_single_cells;
use crate::join::FirstLook;
use crate::scratch::ProbeScratch;
use exec_pool::{Extent, Pool, Steps};
use exec_ranges::{RowAt, is_empty};
use sem_query::Tuple;
use std::sync::ledger::Ledger;

/// Returns what is seen of the answers to a row before a walk begins, and puts the tuple where there is one. Where it is listed that one
/// cell is left where a walk begins, there is none if that cell is empty, and over two streams that cell alone tells all; and there is none
/// where the row's own columns leave no cell that holds anything where a walk ends. A walk may follow within three times the share of the
/// part; over two streams it follows at most half the share.
pub fn look_before_walk<L: Ledger>(
    pool: &Pool,
    e: &Extent,
    at: &RowAt<'_>,
    room: &mut ProbeScratch,
    tuple: &mut Tuple,
    steps: &mut Steps<L>,
) -> FirstLook
    requires here { at.now.arriving < length at.now.q.now.from }
    requires ready { IsReady at.now.q.now at.now.part.now pool.now e.now }
    requires prepared { IsPrepared (pairs at.now.q.now) at.now.part.now at.now.prepared.now }
    ensures found { Tells result tuple.new.items (found_beside at.now.q.now at.now.part.now (read_from (cells_of pool.now e.now)) at.now.arriving (by_column at.now.row.now.items)) }
    ensures alone { length at.now.part.now.streams.items ≡ 2 → result ≡ look.Unknown → 2 * steps.new.reads ≤ 2 * steps.old.reads + share at.now.part.now }
    ensures few { steps.new.reads ≤ steps.old.reads + share at.now.part.now }
    ensures reads { steps.new.reads + walk_reads at.now.part.now at.now.arriving ≤ steps.old.reads + 3 * share at.now.part.now }
    ensures writes { steps.new.writes ≡ steps.old.writes }
{
    let streams = at.part.streams.as_slice().len();
    let row = at.row.as_slice();
    if streams > 3 {
        if has_single_cells(at.part, at.arriving) {
            return FirstLook::Unknown;
        }
        if room.is_cut_off(pool, e, at.part, at.arriving, row, steps) {
            return FirstLook::Nothing;
        }
        return FirstLook::Unknown;
    }
    let Some(number) = room.first_cell(at) else {
        if !at.part.equal.as_slice().is_empty() {
            return FirstLook::Unknown;
        }
        if room.is_cut_off(pool, e, at.part, at.arriving, row, steps) {
            return FirstLook::Nothing;
        }
        return FirstLook::Unknown;
    };
    let cell = pool.read(e, number, steps);
    if is_empty(cell) {
        return FirstLook::Nothing;
    }
    if streams != 2 {
        return FirstLook::Unknown;
    }
    room.look_alone(at, cell, tuple)
}
