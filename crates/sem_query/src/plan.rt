//! The plan of a query: what is kept of each stream in each part, and what that comes to.
ghost use Rattle.std.specs.Prelude.{◌≡◌, ◌<◌, ◌^◌, length};
ghost use Rattle.std.specs.List.{slice_index_or};
ghost use Rattle.sem_query.specs.declared.plan.PartPlan.{PartPlan};

use crate::atom::{Attr, Element, Op};
use crate::part::Signs;
use arrayvec::ArrayVec;
use std::marker::Model;

/// A class of bounded columns of one stream, by its first, with its least and greatest value in a part.
#[derive(Clone, Copy, Debug, Default, PartialEq, Eq)]
pub struct Dim {
    pub attr: Attr,
    pub lo: i64,
    pub hi: i64,
}

/// What a cell keeps of the rows that it stands for.
#[derive(Clone, Copy, Debug, Default, PartialEq, Eq)]
pub enum Kind {
    /// Their number.
    #[default]
    Count,
    /// That there are some.
    Present,
    /// The least value of a column.
    Least(Attr),
    /// The greatest value of a column.
    Greatest(Attr),
}

/// What is kept of one stream in one part: a cell for each combination of values of the dims, `size` cells from `base` on.
#[derive(Drop, Default)]
pub struct StreamPlan {
    pub dims: ArrayVec<Dim, 8>,
    pub kind: Kind,
    pub base: u32,
    pub size: u32,
}

/// Two columns of different streams.
#[derive(Clone, Copy, Debug, Default, PartialEq, Eq)]
pub struct Link {
    pub left: Attr,
    pub right: Attr,
}

/// What rows of one stream are asked: how a column stands to an integer, or to another column of the stream, moved by a number.
#[derive(Clone, Copy, Debug, Default, PartialEq, Eq)]
pub struct LocalCondition {
    pub left: Attr,
    pub op: Op,
    pub right: Element,
    pub by: i64,
}

/// What rows of the streams are asked beside signs. A clause sees the list.
#[derive(Drop)]
pub struct Locals {
    conditions: Vec<LocalCondition>,
}

impl Model for Locals {
    ghost use Rattle.std.specs.Prelude.{List};
    ghost use Rattle.sem_query.specs.declared.plan.LocalCondition.{LocalCondition};

    ghost Value = { List LocalCondition };

    ghost view = { λ locals. locals.conditions.items };
}

impl Locals {
    /// Returns these conditions.
    pub fn of(conditions: Vec<LocalCondition>) -> Locals
        ensures { result ≡ conditions.items }
    {
        Locals { conditions }
    }

    /// Returns them in their order.
    pub fn as_slice(&self) -> &[LocalCondition]
        ensures { result.now ≡ self.now }
    {
        self.conditions.as_slice()
    }
}

/// Two columns of different streams, and how they stand to each other: `<=` or `<>`.
#[derive(Clone, Copy, Debug, Default, PartialEq, Eq)]
pub struct SoftLink {
    pub left: Attr,
    pub op: Op,
    pub right: Attr,
}

/// A part: the signs of its pairs and what else rows of one stream are asked, what is kept of each stream of FROM, and its links between
/// streams, which are equalities, `<`, and others.
#[derive(Drop)]
pub struct PartPlan {
    pub signs: Signs,
    pub local: Locals,
    pub streams: ArrayVec<StreamPlan, 4>,
    pub equal: ArrayVec<Link, 66>,
    pub less: ArrayVec<Link, 66>,
    pub soft: ArrayVec<SoftLink, 16>,
}

/// The plans of all parts of a query. A clause sees their list.
#[derive(Drop)]
pub struct PartPlans {
    parts: Vec<PartPlan>,
}

impl Model for PartPlans {
    ghost use Rattle.std.specs.Prelude.{List, ◌<◌, ◌^◌, length};
    ghost use Rattle.sem_query.specs.declared.plan.PartPlan.{PartPlan};

    ghost Value = { List PartPlan };

    ghost view = { λ plans. plans.parts.items };

    ghost invariant = { λ plans. length plans.parts.items < 2 ^ 32 };
}

impl PartPlans {
    /// Returns the plans of a list of fewer than 2^32 parts.
    pub fn of(parts: Vec<PartPlan>) -> PartPlans
        requires { length parts.items < 2 ^ 32 }
        ensures { result ≡ parts.items }
    {
        PartPlans { parts }
    }

    /// Returns how many parts there are.
    pub fn len(&self) -> u32
        ensures { result ≡ length self.now }
    {
        self.parts.len() as u32
    }

    /// Returns the plan of a part, by its number from 0.
    pub fn get(&self, i: u32) -> &PartPlan
        requires { i < length self.now }
        ensures { (otherwise : PartPlan) → result.now ≡ slice_index_or self.now i otherwise }
    {
        &self.parts[i as usize]
    }
}

/// How many parts, cells and different answers a query has, and how many combinations of cells a row meets at most.
#[derive(Clone, Copy, Debug, Default, PartialEq, Eq)]
pub struct Numbers {
    pub parts: u32,
    pub cells: u32,
    pub answers: u32,
    pub work: u32,
}

/// What is kept of the rows of a query: nothing for a filter, or cells.
#[derive(Drop)]
pub enum Plan {
    Filter,
    Parts { parts: PartPlans, numbers: Numbers },
}
