//! The cells that a row of a query of one part meets, where one column tells both: listed when the query is created.
ghost use Rattle.std.specs.Prelude.{◌≡◌, [], ◌∷◌, ◌<◌, ◌≤◌, ◌-◌, ◌*◌, length, map, slice_get, slice_index_or, Some, IfSome, true};
ghost use Rattle.sem_query.specs.Meaning.{by_column};
ghost use Rattle.sem_query.specs.Numbers.{parts_of};
ghost use Rattle.sem_query.specs.declared.plan.Kind.TheVariants as kinds;
ghost use Rattle.exec_synopsis.specs.Axes.{IsAbove, IsShort};
ghost use Rattle.exec_synopsis.specs.Joining.{told_column};
ghost use Rattle.exec_point_lookup.specs.Direct.{axis_of, IsListedIn, IsListedFrom, IsDirect, IsDirectFor, AreDirect};
ghost use Rattle.exec_part_index.specs.Prepared.{IsPreparedPlan};

use arrayvec::ArrayVec;
use exec_part_index::PreparedPlan;
use exec_synopsis::{BoxLayout, JoinLookup, Prepared};
use sem_query::{Attr, Kind, PartPlans, Plan, Query, Tuple, value_at};

/// A number that no stream has.
const NO_STREAM: u16 = 256;

/// The values of a column that are asked for: the least one, how many there are, and the column.
#[derive(Clone, Copy)]
pub struct ColumnRange {
    pub lo: i64,
    pub size: u32,
    pub column: u8,
}

/// How a row of a stream of FROM is taken into the only part of a query: the range of one column tells the cell that counts the row and the
/// cell of the other stream that can answer with it, each by the first cell of its box. A column of the other stream has the same value, and
/// each selected column has that of a column of the row. Where no row is taken so, the number is one that no stream has.
#[derive(Drop)]
pub struct DirectLookup {
    pub selected: ArrayVec<u8, 8>,
    pub range: ColumnRange,
    pub own: u32,
    pub other: u32,
    pub stream: u16,
    pub pos: u8,
    pub joined: u8,
}

/// How the rows of each of two streams are taken so, as far as they are.
#[derive(Drop)]
pub struct DirectLookups {
    pub first: DirectLookup,
    pub second: DirectLookup,
}

impl DirectLookups {
    /// Returns how a row of a stream is taken into the only part of the query, where that is listed.
    #[inline(always)]
    pub fn of_stream(&self, stream: u8) -> Option<&DirectLookup>
        ensures { IfSome result (λ d. IsListedIn self.now d.now × (d.now.stream ≡ stream)) }
    {
        let number = u16::from(stream);
        if self.first.stream == number {
            return Some(&self.first);
        }
        if self.second.stream == number {
            return Some(&self.second);
        }
        None
    }
}

/// Returns how far the value of a row is above the least one, where it is in range.
pub fn offset_in(range: ColumnRange, row: &[i64]) -> Option<u32>
    requires { IsShort (axis_of range) }
    ensures { IsAbove (by_column row.now range.column) (axis_of range) result }
{
    let offset = value_at(row, range.column).wrapping_sub(range.lo);
    if offset.cast_unsigned() < u64::from(range.size) {
        Some(offset as u32)
    } else {
        None
    }
}

// The columns of the row that are told for these columns, where one is told for each.
fn told_columns(listed: &JoinLookup, pos: u8, select: &[Attr]) -> Option<ArrayVec<u8, 8>>
    requires { length select.now ≤ 8 }
    ensures { IfSome result (λ columns. map (told_column listed.now.told.items listed.now.place pos) select.now ≡ map Some columns.items) }
{
    let mut columns: ArrayVec<u8, 8> = ArrayVec::new();
    'selected: for a in select {
        match listed.column_of(pos, *a) {
            Some(column) => columns.push(column),
            None => return None,
        }
    }
    Some(columns)
}

/// Puts the values of these columns of a row into a tuple.
pub fn put_selected(columns: &[u8], row: &[i64], tuple: &mut Tuple)
    requires { length columns.now ≤ 8 }
    ensures { tuple.new.items ≡ map (by_column row.now) columns.now }
{
    *tuple = Tuple::new();
    'columns: for column in columns {
        tuple.push(value_at(row, *column));
    }
}

// Whether the cells of a box count rows.
fn counts(layout: &BoxLayout) -> bool
    ensures { result ≡ true → layout.now.kind ≡ kinds.Count }
{
    match layout.kind {
        Kind::Count => true,
        Kind::Present | Kind::Least(_) | Kind::Greatest(_) => false,
    }
}

// The only range that a row is asked at a place.
fn only_range(layout: &BoxLayout) -> Option<ColumnRange>
    ensures { IfSome result (λ range. layout.now.axes.items ≡ axis_of range ∷ []) }
{
    let axes = layout.axes.as_slice();
    if axes.len() != 1 {
        return None;
    }
    let axis = axes[0];
    Some(ColumnRange {
        lo: axis.lo,
        size: axis.size,
        column: axis.column,
    })
}

// How a row is taken by what it is asked at its own place and what stands at the other, where each is one range, of the same values, and
// the row's column is told for that of the other stream.
fn direct_from(
    stream: u16,
    pos: u8,
    listed: &JoinLookup,
    selected: ArrayVec<u8, 8>,
    own: &BoxLayout,
    other: &BoxLayout,
) -> Option<DirectLookup>
    requires { pos < 2 }
    ensures from { IfSome result (λ d. IsListedFrom listed.now own.now other.now d) }
    ensures place { IfSome result (λ d. (d.stream ≡ stream) × (d.pos ≡ pos) × (d.selected.items ≡ selected.items)) }
{
    let Some(range) = only_range(own) else {
        return None;
    };
    let Some(across) = only_range(other) else {
        return None;
    };
    let joined = Attr {
        stream: 1 - pos,
        column: across.column,
    };
    let told = listed.column_of(pos, joined);
    if !listed.is_signed()
        || !counts(own)
        || range.lo != across.lo
        || range.size != across.size
        || !is_column(told, range.column)
    {
        return None;
    }
    Some(DirectLookup {
        selected,
        range,
        own: own.base,
        other: other.base,
        stream,
        pos,
        joined: across.column,
    })
}

// What is listed where no row is taken so.
fn none_listed() -> DirectLookup
    ensures { result.stream ≡ 256 }
{
    DirectLookup {
        selected: ArrayVec::new(),
        range: ColumnRange {
            lo: 0,
            size: 0,
            column: 0,
        },
        own: 0,
        other: 0,
        stream: NO_STREAM,
        pos: 0,
        joined: 0,
    }
}

// What is listed of a place of FROM, where rows are taken so there.
fn listed_at(q: &Query, parts: &PartPlans, prepared: &PreparedPlan, pos: u8) -> DirectLookup
    requires here { pos < 2 }
    requires prepared { IsPreparedPlan q.now parts.now prepared.now }
    ensures { IsDirectFor q.now parts.now result }
{
    match direct_at(q, parts, prepared, pos) {
        Some(direct) => direct,
        None => none_listed(),
    }
}

// Whether this column is told.
fn is_column(told: Option<u8>, column: u8) -> bool
    ensures { result ≡ true → told ≡ Some column }
{
    match told {
        Some(n) => n == column,
        None => false,
    }
}

// What a row is asked at a place, where it is listed.
fn layout_at(part: &Prepared, place: u8) -> Option<&BoxLayout>
    ensures { IfSome result (λ layout. slice_get part.now.places.items place ≡ Some layout.now) }
{
    match part.places().get(usize::from(place)) {
        Some(layout) => Some(layout),
        None => None,
    }
}

// The stream at a place of FROM.
fn stream_at(from: &[u8], pos: u8) -> u16
    requires { pos < length from.now }
    ensures { result ≡ slice_index_or from.now pos 0 }
{
    u16::from(from[usize::from(pos)])
}

// How a row of the stream at a place of FROM is taken into the only part, where it can be listed.
fn direct_at(q: &Query, parts: &PartPlans, prepared: &PreparedPlan, pos: u8) -> Option<DirectLookup>
    requires here { pos < 2 }
    requires prepared { IsPreparedPlan q.now parts.now prepared.now }
    ensures { IfSome result (λ d. IsDirect q.now parts.now d) }
{
    let from = q.from();
    if parts.len() != 1 || from.len() != 2 {
        return None;
    }
    let part = prepared.part(q, parts, 0);
    let Some(listed) = part.join_lookup(pos) else {
        return None;
    };
    let Some(own) = layout_at(part, pos) else {
        return None;
    };
    let Some(other) = layout_at(part, 1 - pos) else {
        return None;
    };
    let Some(selected) = told_columns(listed, pos, q.select()) else {
        return None;
    };
    direct_from(stream_at(from, pos), pos, listed, selected, own, other)
}

/// Returns how the rows of a query are taken into its only part, as far as one column of a row tells its cells.
pub fn direct_lookups(q: &Query, plan: &Plan, prepared: &PreparedPlan) -> DirectLookups
    requires { IsPreparedPlan q.now (parts_of plan.now) prepared.now }
    ensures { AreDirect q.now (parts_of plan.now) result }
{
    match plan {
        Plan::Filter => DirectLookups {
            first: none_listed(),
            second: none_listed(),
        },
        Plan::Parts { parts, .. } => DirectLookups {
            first: listed_at(q, parts, prepared, 0),
            second: listed_at(q, parts, prepared, 1),
        },
    }
}
