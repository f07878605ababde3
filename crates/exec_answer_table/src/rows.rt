//! Rows in order of arrival with their counts, and their numbers in order of tuples.
ghost use Rattle.std.specs.Prelude.{◌≡◌, ℕ, ◌+◌, ◌*◌, ◌<◌, ◌≤◌, ◌^◌, ◌⊎◌, [], ◌∷◌, ◌++◌, length, filter, if◌then◌else◌, nat_lt, slice_index, slice_set, vec_capacity};
ghost use Rattle.std.specs.List.{insert};
ghost use Rattle.exec_answer_table.specs.Entries.{Ascends};
ghost use Rattle.exec_answer_table.specs.Fields.{entries_of};
ghost use Rattle.exec_answer_table.specs.Rows.{counts_for};

use crate::search::{rank, row};
use crate::tiered::TieredVec;
use arrayvec::ArrayVec;
use sem_query::Tuple;

/// Appends a row with the count 0, and puts its number at that place of the order.
pub fn insert_row(
    values: &mut Vec<i64>,
    counts: &mut Vec<u128>,
    order: &mut TieredVec,
    place: usize,
    t: &[i64],
)
    requires place { place ≤ length order.old.items }
    requires few { length counts.old.items < 2 ^ 32 }
    requires values { length values.old.items + length t.now ≤ vec_capacity values.old }
    requires counts { length counts.old.items < vec_capacity counts.old }
    requires order { length order.old.items < order.old.room }
    ensures values { values.new.items ≡ values.old.items ++ t.now }
    ensures counts { counts.new.items ≡ counts.old.items ++ 0 ∷ [] }
    ensures order { order.new.items ≡ insert order.old.items place (length counts.old.items) }
    ensures value_room { vec_capacity values.old ≤ vec_capacity values.new }
    ensures count_room { vec_capacity counts.old ≤ vec_capacity counts.new }
    ensures order_room { order.new.room ≡ order.old.room }
{
    let number = counts.len() as u32;
    // There is room, so this is done.
    let _values_stored = values.extend_from_slice(t).is_ok();
    let _count_stored = counts.push(0).is_ok();
    order.insert(place, number);
}

// Appends a value.
fn push_value(values: &mut Vec<i64>, value: &i64)
    requires { length values.old.items < vec_capacity values.old }
    ensures values { values.new.items ≡ values.old.items ++ value.now ∷ [] }
    ensures room { vec_capacity values.old ≤ vec_capacity values.new }
{
    // There is room, so this is done.
    let _stored = values.push(*value).is_ok();
}

// Appends the values of a tuple. Most tuples have one or two, and to copy a slice costs more than these.
fn push_all(values: &mut Vec<i64>, t: &[i64])
    requires { length values.old.items + length t.now ≤ vec_capacity values.old }
    ensures values { values.new.items ≡ values.old.items ++ t.now }
    ensures room { vec_capacity values.old ≤ vec_capacity values.new }
{
    for value in t {
        push_value(values, value);
    }
}

// Appends the number of a row to those that wait, where its count is not 0.
#[inline(always)]
fn push_due(due: &mut TieredVec, number: u32, count: u128)
    requires { length due.old.items < due.old.room }
    ensures due { due.new.items ≡ (if nat_lt 0 count then due.old.items ++ number ∷ [] else due.old.items) }
    ensures room { due.new.room ≡ due.old.room }
{
    if count > 0 {
        due.push(number);
    }
}

/// Appends a row that stands behind all others, with this count.
pub fn append_row(
    values: &mut Vec<i64>,
    counts: &mut Vec<u128>,
    order: &mut TieredVec,
    due: &mut TieredVec,
    t: &[i64],
    count: u128,
)
    requires few { length counts.old.items < 2 ^ 32 }
    requires values { length values.old.items + length t.now ≤ vec_capacity values.old }
    requires counts { length counts.old.items < vec_capacity counts.old }
    requires order { length order.old.items < order.old.room }
    requires due { length due.old.items < due.old.room }
    ensures values { values.new.items ≡ values.old.items ++ t.now }
    ensures counts { counts.new.items ≡ counts.old.items ++ count ∷ [] }
    ensures order { order.new.items ≡ order.old.items ++ length counts.old.items ∷ [] }
    ensures due { due.new.items ≡ (if nat_lt 0 count then due.old.items ++ length counts.old.items ∷ [] else due.old.items) }
    ensures value_room { vec_capacity values.old ≤ vec_capacity values.new }
    ensures count_room { vec_capacity counts.old ≤ vec_capacity counts.new }
    ensures order_room { order.new.room ≡ order.old.room }
    ensures due_room { due.new.room ≡ due.old.room }
{
    let number = counts.len() as u32;
    push_all(values, t);
    // There is room, so this is done.
    let _count_stored = counts.push(count).is_ok();
    order.push(number);
    push_due(due, number, count);
}

// Lists anew the numbers of the rows that wait. A count that falls to 0 is rare: nothing but a limit of 0 makes it so.
fn list_due(counts: &[u128], order: &TieredVec, due: &mut TieredVec)
    requires counts { (i : ℕ) → i < length order.now.items → slice_index order.now.items i < length counts.now }
    requires room { length order.now.items ≤ due.old.room }
    ensures due { due.new.items ≡ filter (counts_for counts.now) order.now.items }
    ensures room { due.new.room ≡ due.old.room }
{
    due.clear();
    for i in 0..order.len() {
        let number = order.get(i);
        push_due(due, number, counts[number as usize]);
    }
}

/// Sets the count of the row at that place of the order, and keeps the list of the numbers of those that wait.
pub fn set_count(
    values: &[i64],
    width: usize,
    order: &TieredVec,
    place: usize,
    count: u128,
    counts: &mut [u128],
    due: &mut TieredVec,
)
    requires place { place < length order.now.items }
    requires rows { (i : ℕ) → i < length order.now.items → slice_index order.now.items i * width + width ≤ length values.now }
    requires counts { (i : ℕ) → i < length order.now.items → slice_index order.now.items i < length counts.old }
    requires ascending { Ascends (entries_of values.now counts.old width order.now.items) }
    requires due { due.old.items ≡ filter (counts_for counts.old) order.now.items }
    requires room { length order.now.items ≤ due.old.room }
    ensures counts { counts.new ≡ slice_set counts.old (slice_index order.now.items place) count }
    ensures due { due.new.items ≡ filter (counts_for (slice_set counts.old (slice_index order.now.items place) count)) order.now.items }
    ensures due_room { due.new.room ≡ due.old.room }
{
    let number = order.get(place);
    let k = number as usize;
    let waited = counts[k] > 0;
    counts[k] = count;
    if waited {
        if count == 0 {
            list_due(counts, order, due);
        }
    } else if count > 0 {
        let i = rank(values, due, width, row(values, width, k));
        due.insert(i, number);
    }
}

// Sets the counts of these numbers to 0, one after another.
fn clear_each(counts: &mut [u128], numbers: &TieredVec)
    requires { (i : ℕ) → i < length numbers.now.items → slice_index numbers.now.items i < length counts.old }
    ensures cleared { (i : ℕ) → i < length numbers.now.items → slice_index counts.new (slice_index numbers.now.items i) ≡ 0 }
    ensures others { (k : ℕ) → (slice_index counts.new k ≡ 0) ⊎ (slice_index counts.new k ≡ slice_index counts.old k) }
{
    for i in 0..numbers.len() {
        counts[numbers.get(i) as usize] = 0;
    }
}

/// Sets the counts of these numbers to 0. Mostly there is one, which wants no loop.
pub fn clear_counts(counts: &mut [u128], numbers: &TieredVec)
    requires { (i : ℕ) → i < length numbers.now.items → slice_index numbers.now.items i < length counts.old }
    ensures cleared { (i : ℕ) → i < length numbers.now.items → slice_index counts.new (slice_index numbers.now.items i) ≡ 0 }
    ensures others { (k : ℕ) → (slice_index counts.new k ≡ 0) ⊎ (slice_index counts.new k ≡ slice_index counts.old k) }
{
    if numbers.len() == 1 {
        counts[numbers.get(0) as usize] = 0;
        return;
    }
    clear_each(counts, numbers);
}

/// Returns the values of a row as a tuple.
pub fn tuple_of(row: &[i64]) -> Tuple
    requires { length row.now ≤ 8 }
    ensures { result.items ≡ row.now }
{
    let mut tuple = ArrayVec::new();
    // There is room, so this is done.
    let _whole = tuple.try_extend_from_slice(row).is_ok();
    tuple
}
