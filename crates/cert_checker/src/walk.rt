//! The walk over the nodes of a certificate.
ghost use Rattle.std.specs.Prelude.{◌≡◌, ◌≤◌, true, [], length};
ghost use Rattle.cert_format.specs.Nodes.{split as split_at, infeasible as infeasible_by, against as against_by, leaf as leaf_with, grouped};
ghost use Rattle.cert_checker.specs.Standing.{Stands};
ghost use Rattle.cert_checker.specs.Branching.{HasRoom};
ghost use Rattle.cert_checker.specs.Shown.{branching_of, breaks_by};
ghost use Rattle.cert_checker.specs.OnLeaf.{IsTableOf};
ghost use Rattle.cert_checker.specs.SoFar.{TakesLeaf};
ghost use Rattle.cert_checker.specs.Walking.{node_at, PassesOr, StepsOr, Walked};

use crate::answer::Reason;
use crate::cursor::TreeCursor;
use crate::decision::DecisionSoFar;
use crate::forming::first_break_at;
use crate::rules::{judge_against, judge_cycle, judge_leaf, judge_split};
use crate::shown::Shown;
use cert_format::Line;
use sem_query::{Decision, Pair, Query, Sign};

/// How far the nodes were read: where the next one stands, whether one may follow, how many nodes and leaves there
/// were, and the decision on the leaves.
#[derive(Drop)]
pub struct Walk {
    pub place: TreeCursor,
    pub more: bool,
    pub nodes: u32,
    pub leaves: u32,
    pub so_far: DecisionSoFar,
}

impl Walk {
    /// Begins before the first node.
    pub fn new(q: &Query, shown: Shown) -> Walk
        requires room { HasRoom (branching_of shown q.now) }
        ensures { Walked q.now shown [] result }
    {
        Walk {
            place: TreeCursor::root(q, shown),
            more: true,
            nodes: 0,
            leaves: 0,
            so_far: DecisionSoFar::new(),
        }
    }

    // Reads a split.
    fn split(&mut self, q: &Query, shown: Shown, pairs: &[Pair], pair: u16) -> Result<(), Reason>
        requires pairs { pairs.now ≡ (branching_of shown q.now).pairs }
        requires stands { Stands q.now shown self.old.place }
        requires more { self.old.more ≡ true }
        ensures { PassesOr q.now shown (split_at pair) self.old self.new result }
    {
        judge_split(pairs, self.place.signs.as_slice(), pair)?;
        self.place.push(q, shown, pairs, Sign::Lt);
        Ok(())
    }

    // Reads an infeasible node.
    fn infeasible(
        &mut self,
        q: &Query,
        shown: Shown,
        pairs: &[Pair],
        numbers: &[u16],
    ) -> Result<(), Reason>
        requires pairs { pairs.now ≡ (branching_of shown q.now).pairs }
        requires stands { Stands q.now shown self.old.place }
        requires few { length numbers.now ≤ 13 }
        ensures { PassesOr q.now shown (infeasible_by numbers.now) self.old self.new result }
    {
        judge_cycle(self.place.constraints.as_slice(), numbers)?;
        self.more = self.place.go_on(q, shown, pairs);
        Ok(())
    }

    // Reads a branch that a comparison closes.
    fn against(
        &mut self,
        q: &Query,
        shown: Shown,
        pairs: &[Pair],
        number: u16,
    ) -> Result<(), Reason>
        requires pairs { pairs.now ≡ (branching_of shown q.now).pairs }
        requires stands { Stands q.now shown self.old.place }
        ensures { PassesOr q.now shown (against_by number) self.old self.new result }
    {
        judge_against(q, shown, pairs, self.place.signs.as_slice(), number)?;
        self.more = self.place.go_on(q, shown, pairs);
        Ok(())
    }

    // The decision with the leaf that stands here, which is the last that is counted.
    fn decided(
        &self,
        q: &Query,
        shown: Shown,
        pairs: &[Pair],
        bounds: &[Option<i64>; 169],
    ) -> DecisionSoFar
        requires pairs { pairs.now ≡ (branching_of shown q.now).pairs }
        requires table { IsTableOf (branching_of shown q.now) self.now.place.signs.items bounds.now }
        ensures { TakesLeaf (breaks_by shown q.now) self.now.place.signs.items self.now.leaves self.now.so_far result }
    {
        match self.so_far.decision {
            Decision::Bounded => {
                let signs = self.place.signs.as_slice();
                DecisionSoFar::at(self.leaves, first_break_at(q, shown, pairs, signs, bounds))
            }
            Decision::Violation { .. } => self.so_far,
        }
    }

    // Reads a leaf, with the lines behind it.
    fn leaf(
        &mut self,
        q: &Query,
        shown: Shown,
        pairs: &[Pair],
        behind: &[Line],
    ) -> Result<(), Reason>
        requires pairs { pairs.now ≡ (branching_of shown q.now).pairs }
        requires stands { Stands q.now shown self.old.place }
        requires few { self.old.leaves ≤ 262144 }
        ensures { PassesOr q.now shown (leaf_with (grouped behind.now).paths) self.old self.new result }
    {
        let bounds = judge_leaf(q, shown, pairs, &self.place, behind)?;
        self.leaves += 1;
        self.so_far = self.decided(q, shown, pairs, &bounds);
        self.more = self.place.go_on(q, shown, pairs);
        Ok(())
    }

    /// Reads a line, with the lines behind it. An error is the rule that its node breaks.
    pub fn step(
        &mut self,
        q: &Query,
        shown: Shown,
        pairs: &[Pair],
        line: &Line,
        behind: &[Line],
    ) -> Result<(), Reason>
        requires pairs { pairs.now ≡ (branching_of shown q.now).pairs }
        requires stands { Stands q.now shown self.old.place }
        requires few { self.old.nodes ≤ 262144 }
        requires few_leaves { self.old.leaves ≤ 262144 }
        ensures { StepsOr q.now shown (node_at line.now behind.now) self.old self.new result }
    {
        if let Line::Path(_) = line {
            return Ok(());
        }
        self.nodes += 1;
        if !self.more {
            return Err(Reason::Shape);
        }
        match line {
            Line::Split(pair) => self.split(q, shown, pairs, *pair),
            Line::Infeasible(numbers) => self.infeasible(q, shown, pairs, numbers.as_slice()),
            Line::Against(number) => self.against(q, shown, pairs, *number),
            Line::Leaf => self.leaf(q, shown, pairs, behind),
            Line::Path(_) => Ok(()),
        }
    }
}
