//! The box of a part at a place of FROM as a row is asked of it, where it has at most two dims.
ghost use Rattle.std.specs.Prelude.{◌≡◌, [], ◌∷◌, IfSome};
ghost use Rattle.sem_query.specs.Meaning.{by_column};
ghost use Rattle.sem_query.specs.Plan.{dims_at};
ghost use Rattle.sem_query.specs.Admission.{in_range};
ghost use Rattle.exec_synopsis.specs.Axes.{IsAbove, IsShort, IsBoxLayout};
ghost use Rattle.exec_part_index.specs.SimpleBox.{IsSimpleBox, IsInBox, axis_in};

use crate::shift::CellAt;
use exec_synopsis::{BoxLayout, Placement};
use sem_query::{Dim, Kind, PartPlan, value_at};

/// The range of a dim: its least value, how many values there are, and the column.
#[derive(Clone, Copy, Debug, PartialEq, Eq, Drop)]
pub struct DimRange {
    pub lo: i64,
    pub size: u32,
    pub column: u8,
}

/// A box of one dim: its range, the first cell, and what the cells keep of rows.
#[derive(Clone, Copy, Debug, PartialEq, Eq, Drop)]
pub struct OneDimBox {
    pub range: DimRange,
    pub base: u32,
    pub kind: Kind,
}

/// A box of two dims: their ranges, the first cell, and what the cells keep of rows.
#[derive(Clone, Copy, Debug, PartialEq, Eq, Drop)]
pub struct TwoDimBox {
    pub first: DimRange,
    pub second: DimRange,
    pub base: u32,
    pub kind: Kind,
}

/// A box of at most two dims.
#[derive(Clone, Copy, Debug, PartialEq, Eq, Drop)]
pub enum SimpleBox {
    /// The box has more dims, or the numbers of its cells have no 32 bits.
    Unlisted,
    /// There is no dim, and so one cell.
    Cell(CellAt),
    /// There is one dim.
    OneDim(OneDimBox),
    /// There are two dims.
    TwoDim(TwoDimBox),
    /// There is one dim, and no cell, as in a query over one stream.
    Range(Dim),
}

impl DimRange {
    // How far the value of the dim is above its least one, where it is in range.
    fn offset_in(self, row: &[i64]) -> Option<u32>
        requires { IsShort (axis_in self) }
        ensures { IsAbove (by_column row.now self.column) (axis_in self) result }
    {
        let offset = value_at(row, self.column).wrapping_sub(self.lo);
        if 0 <= offset && offset < i64::from(self.size) {
            Some(offset as u32)
        } else {
            None
        }
    }
}

impl SimpleBox {
    /// Returns where a row stands by the ranges of the dims, where the box has at most one and there is a cell.
    #[inline(always)]
    pub fn placement(self, part: &PartPlan, pos: u8, row: &[i64]) -> Option<Placement>
        requires { IsSimpleBox part.now pos self }
        ensures { IfSome result (λ placement. IsInBox part.now pos row.now placement) }
    {
        // Named for the proof alone: the contract speaks of them.
        let (_part, _pos) = (part, pos);
        match self {
            SimpleBox::Cell(cell) => Some(cell.placement()),
            SimpleBox::OneDim(single) => match single.range.offset_in(row) {
                Some(offset) => Some(Placement::Cell {
                    number: single.base + offset,
                    kind: single.kind,
                }),
                None => Some(Placement::Outside),
            },
            SimpleBox::Unlisted | SimpleBox::TwoDim(_) | SimpleBox::Range(_) => None,
        }
    }

    /// Returns where a row stands by the ranges of the dims, where the box is listed.
    #[inline(always)]
    pub fn listed_placement(&self, part: &PartPlan, pos: u8, row: &[i64]) -> Option<Placement>
        requires { IsSimpleBox part.now pos self.now }
        ensures { IfSome result (λ placement. IsInBox part.now pos row.now placement) }
    {
        match self {
            SimpleBox::TwoDim(double) => {
                let Some(line) = double.first.offset_in(row) else {
                    return Some(Placement::Outside);
                };
                match double.second.offset_in(row) {
                    Some(offset) => Some(Placement::Cell {
                        number: double.base + (line * double.second.size + offset),
                        kind: double.kind,
                    }),
                    None => Some(Placement::Outside),
                }
            }
            SimpleBox::Range(dim) => Some(placement_in(part, pos, *dim, row)),
            _ => self.placement(part, pos, row),
        }
    }
}

// Whether a row lies in the range of a dim.
fn is_in_range(row: &[i64], dim: Dim) -> bool
    ensures { result ≡ in_range (by_column row.now) dim }
{
    let value = value_at(row, dim.attr.column);
    !(value < dim.lo) && !(dim.hi < value)
}

// Where a row stands in a part that has this dim alone and no cell.
fn placement_in(part: &PartPlan, pos: u8, dim: Dim, row: &[i64]) -> Placement
    requires { dims_at part.now pos ≡ dim ∷ [] }
    ensures { IsInBox part.now pos row.now result }
{
    // Named for the proof alone: the contract speaks of them.
    let (_part, _pos) = (part, pos);
    if is_in_range(row, dim) {
        Placement::Inside
    } else {
        Placement::Outside
    }
}

/// Returns the box of a part as it is listed for every row.
pub fn simple_box_of(part: &PartPlan, place: u8, listed: &BoxLayout) -> SimpleBox
    requires { IsBoxLayout part.now place listed.now }
    ensures { IsSimpleBox part.now place result }
{
    // Named for the proof alone: the contract speaks of them.
    let (_part, _place) = (part, place);
    match listed.axes.as_slice() {
        [] => SimpleBox::Cell(CellAt {
            number: listed.base,
            kind: listed.kind,
        }),
        [axis] => SimpleBox::OneDim(OneDimBox {
            range: DimRange {
                lo: axis.lo,
                size: axis.size,
                column: axis.column,
            },
            base: listed.base,
            kind: listed.kind,
        }),
        [first, second] => SimpleBox::TwoDim(TwoDimBox {
            first: DimRange {
                lo: first.lo,
                size: first.size,
                column: first.column,
            },
            second: DimRange {
                lo: second.lo,
                size: second.size,
                column: second.column,
            },
            base: listed.base,
            kind: listed.kind,
        }),
        _ => SimpleBox::Unlisted,
    }
}
