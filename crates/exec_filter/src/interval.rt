//! Between which integers the columns of a row lie where a query can care for it.
ghost use Rattle.std.specs.Prelude.{◌≡◌, ◌&&◌, ◌<◌, ◌==◌, ℕ, ℤ, List, [], ◌∷◌, true, int_lt, length, MatchOption, ⊤, ◌≤ℤ◌, ◌-ℤ◌, slice_index_or};
ghost use Rattle.std.specs.Int.{saturate_signed, w64};
ghost use Rattle.std.specs.List.{list_all};
ghost use Rattle.sem_query.specs.declared.plan.PartPlan.{PartPlan};
ghost use Rattle.sem_query.specs.Assignment.{compares, meets};
ghost use Rattle.sem_query.specs.Meaning.{by_column, assignment_of};
ghost use Rattle.sem_query.specs.Plan.{dims_at};
ghost use Rattle.sem_query.specs.Admission.{in_range};
ghost use Rattle.exec_filter.specs.Prefilter.{is_above, is_below, lies_in, Encloses};

use sem_query::{Atom, Attr, Dim, Element, Op, PartPlan, PartPlans};

/// The least and the greatest of some integers. The least integer of 64 bits is no bound, and neither is the greatest.
#[derive(Clone, Copy, Debug, Default, PartialEq, Eq)]
pub struct ValueInterval {
    pub least: i64,
    pub greatest: i64,
}

impl ValueInterval {
    /// Returns how far the greatest is from the least, at least -2^63 and at most 2^63 - 1.
    pub fn width(&self) -> i64
        ensures { result ≡ saturate_signed w64 (self.now.greatest -ℤ self.now.least) }
    {
        self.greatest.saturating_sub(self.least)
    }
}

/// Returns the interval of all integers.
pub fn unbounded() -> ValueInterval
    ensures { (x : ℤ) → lies_in result x ≡ true }
{
    ValueInterval {
        least: i64::MIN,
        greatest: i64::MAX,
    }
}

// The interval of the integers below one.
fn interval_below(k: i64) -> ValueInterval
    ensures { (x : ℤ) → int_lt x k ≡ true → lies_in result x ≡ true }
{
    ValueInterval {
        least: i64::MIN,
        greatest: if i64::MIN < k { k - 1 } else { k },
    }
}

// The interval of the integers above one.
fn interval_above(k: i64) -> ValueInterval
    ensures { (x : ℤ) → int_lt k x ≡ true → lies_in result x ≡ true }
{
    ValueInterval {
        least: if k < i64::MAX { k + 1 } else { k },
        greatest: i64::MAX,
    }
}

// The interval of the integers that stand so to one.
fn interval_left(op: Op, k: i64) -> ValueInterval
    ensures { (x : ℤ) → compares op x k ≡ true → lies_in result x ≡ true }
{
    match op {
        Op::Lt => interval_below(k),
        Op::Eq => ValueInterval {
            least: k,
            greatest: k,
        },
        Op::Gt => interval_above(k),
        Op::Le => ValueInterval {
            least: i64::MIN,
            greatest: k,
        },
        Op::Ge => ValueInterval {
            least: k,
            greatest: i64::MAX,
        },
        Op::Ne => unbounded(),
    }
}

// The interval of the integers to which one stands so.
fn interval_right(op: Op, k: i64) -> ValueInterval
    ensures { (x : ℤ) → compares op k x ≡ true → lies_in result x ≡ true }
{
    match op {
        Op::Lt => interval_above(k),
        Op::Eq => ValueInterval {
            least: k,
            greatest: k,
        },
        Op::Gt => interval_below(k),
        Op::Le => ValueInterval {
            least: k,
            greatest: i64::MAX,
        },
        Op::Ge => ValueInterval {
            least: i64::MIN,
            greatest: k,
        },
        Op::Ne => unbounded(),
    }
}

/// Returns whether this is a column of the first stream of FROM.
pub fn is_here(attr: Attr, column: u8) -> bool
    ensures { result ≡ ((attr.stream == 0) && (attr.column == column)) }
{
    attr.stream == 0 && attr.column == column
}

// The interval of a column of a row that meets a comparison by itself.
fn interval_of(atom: &Atom, column: u8) -> ValueInterval
    ensures { (values : List ℤ) → meets (assignment_of (values ∷ [])) atom.now ≡ true → lies_in result (by_column values column) ≡ true }
{
    match (atom.left, atom.right) {
        (Element::Attr(attr), Element::Const(k)) if is_here(attr, column) => {
            interval_left(atom.op, k)
        }
        (Element::Const(k), Element::Attr(attr)) if is_here(attr, column) => {
            interval_right(atom.op, k)
        }
        _ => unbounded(),
    }
}

// The greater least integer of two intervals.
fn least_of_both(a: ValueInterval, b: ValueInterval) -> i64
    ensures { (x : ℤ) → lies_in a x ≡ true → lies_in b x ≡ true → is_above result x ≡ true }
{
    if a.least < b.least { b.least } else { a.least }
}

// The less greatest integer of two intervals.
fn greatest_of_both(a: ValueInterval, b: ValueInterval) -> i64
    ensures { (x : ℤ) → lies_in a x ≡ true → lies_in b x ≡ true → is_below result x ≡ true }
{
    if b.greatest < a.greatest {
        b.greatest
    } else {
        a.greatest
    }
}

// The interval of the integers that lie within both.
fn narrowed(a: ValueInterval, b: ValueInterval) -> ValueInterval
    ensures { (x : ℤ) → lies_in a x ≡ true → lies_in b x ≡ true → lies_in result x ≡ true }
{
    ValueInterval {
        least: least_of_both(a, b),
        greatest: greatest_of_both(a, b),
    }
}

/// Returns the interval of a column of a row that meets some comparisons by itself.
pub fn interval_alone(atoms: &[Atom], column: u8) -> ValueInterval
    ensures { (values : List ℤ) → list_all (meets (assignment_of (values ∷ []))) atoms.now ≡ true → lies_in result (by_column values column) ≡ true }
{
    let mut interval = unbounded();
    'atoms: for atom in atoms {
        interval = narrowed(interval, interval_of(atom, column));
    }
    interval
}

// The interval of a column over all rows in the ranges of the dims, where a dim tells them.
fn interval_among(dims: &[Dim], column: u8) -> Option<ValueInterval>
    ensures { MatchOption result ⊤ (λ b. (v : ℕ → ℤ) → list_all (in_range v) dims.now ≡ true → Encloses b (v column)) }
{
    'dims: for dim in dims {
        if dim.attr.column == column {
            return Some(ValueInterval {
                least: dim.lo,
                greatest: dim.hi,
            });
        }
    }
    None
}

// The same over the rows of a stream in the ranges of a part.
fn interval_in(part: &PartPlan, place: u8, column: u8) -> Option<ValueInterval>
    ensures { MatchOption result ⊤ (λ b. (v : ℕ → ℤ) → list_all (in_range v) (dims_at part.now place) ≡ true → Encloses b (v column)) }
{
    match part.streams.as_slice().get(usize::from(place)) {
        Some(stream) => interval_among(stream.dims.as_slice(), column),
        None => None,
    }
}

// The interval of the integers that lie within one of both.
fn widened(a: ValueInterval, b: ValueInterval) -> ValueInterval
    ensures first { (x : ℤ) → Encloses a x → Encloses result x }
    ensures second { (x : ℤ) → Encloses b x → Encloses result x }
{
    ValueInterval {
        least: if a.least < b.least { a.least } else { b.least },
        greatest: if b.greatest < a.greatest {
            a.greatest
        } else {
            b.greatest
        },
    }
}

/// Returns the interval of a column over the rows of a stream in the ranges of all parts, where each part tells some.
pub fn interval_over(parts: &PartPlans, place: u8, column: u8) -> Option<ValueInterval>
    ensures { MatchOption result ⊤ (λ b. (n : ℕ) (d : PartPlan) → n < length parts.now → (v : ℕ → ℤ) → list_all (in_range v) (dims_at (slice_index_or parts.now n d) place) ≡ true → Encloses b (v column)) }
{
    if parts.len() == 0 {
        return None;
    }
    let mut all = interval_in(parts.get(0), place, column)?;
    'parts: for i in 1..parts.len() {
        let own = interval_in(parts.get(i), place, column)?;
        all = widened(all, own);
    }
    Some(all)
}
