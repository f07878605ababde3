//! Steps over the table of pages, the spare pages and the cells, which know no extent.

ghost use Rattle.std.specs.Prelude.{◌≡◌, ◌≢◌, ℕ, ◌+◌, ◌-◌, ◌*◌, ◌/◌, ◌<◌, ◌≤◌, ◌⊎◌, length, slice_index, slice_index_or, take, is_some, vec_capacity, [], ◌∷◌, ◌++◌};
ghost use Rattle.std.specs.List.{count_by};
ghost use Rattle.sem_query.specs.declared.cell.Cell.TheVariants.{Empty as empty};

use crate::counted::CountedCell;
use crate::marked::MarkedCells;
use sem_query::Cell;

// Makes the table so long at least.
fn reach(page_table: &mut Vec<u16>, places: usize)
    requires { places ≤ vec_capacity page_table.old }
    ensures same { (q : ℕ) → slice_index page_table.new.items q ≡ slice_index page_table.old.items q }
    ensures long { places ≤ length page_table.new.items }
    ensures longer { length page_table.old.items ≤ length page_table.new.items }
    ensures room { vec_capacity page_table.old ≤ vec_capacity page_table.new }
{
    if page_table.len() < places {
        // There is room, so this is done.
        let _stored = page_table.resize(places, 0).is_ok();
    }
}

// Copies pages onto the run of the table from a place on.
fn copy_pages(page_table: &mut [u16], to: usize, pages: &[u16])
    requires { to + length pages.now ≤ length page_table.old }
    ensures copied { (i : ℕ) → i < length pages.now → slice_index page_table.new (to + i) ≡ slice_index pages.now i }
    ensures others { (q : ℕ) → (q < to) ⊎ (to + length pages.now ≤ q) → slice_index page_table.new q ≡ slice_index page_table.old q }
{
    for i in 0..pages.len() {
        page_table[to + i] = pages[i];
    }
}

/// Moves the last so many spare pages to the table, from a place on. The table is made longer where it does not reach so far.
pub fn lend_pages(page_table: &mut Vec<u16>, to: usize, spare: &mut Vec<u16>, count: usize)
    requires few { count ≤ length spare.old.items }
    requires room { to + count ≤ vec_capacity page_table.old }
    ensures lent { (i : ℕ) → i < count → slice_index page_table.new.items (to + i) ≡ slice_index spare.old.items (length spare.old.items - count + i) }
    ensures others { (q : ℕ) → (q < to) ⊎ (to + count ≤ q) → slice_index page_table.new.items q ≡ slice_index page_table.old.items q }
    ensures reached { (i : ℕ) → i < count → to + i < length page_table.new.items }
    ensures longer { length page_table.old.items ≤ length page_table.new.items }
    ensures table_room { vec_capacity page_table.old ≤ vec_capacity page_table.new }
    ensures spare { spare.new.items ≡ take (length spare.old.items - count) spare.old.items }
    ensures spare_room { vec_capacity spare.old ≤ vec_capacity spare.new }
{
    if count == 0 {
        return;
    }
    reach(page_table, to + count);
    let rest = spare.len() - count;
    copy_pages(page_table, to, &spare[rest..]);
    spare.truncate(rest);
}

// Adds a page to the spare ones.
fn add_spare(spare: &mut Vec<u16>, page: u16)
    requires { length spare.old.items < vec_capacity spare.old }
    ensures spare { spare.new.items ≡ spare.old.items ++ page ∷ [] }
    ensures room { vec_capacity spare.old ≤ vec_capacity spare.new }
{
    // There is room, so this is done.
    let _stored = spare.push(page).is_ok();
}

/// Makes the pages of a run of the table spare.
pub fn return_pages(page_table: &[u16], from: usize, count: usize, spare: &mut Vec<u16>)
    requires run { (i : ℕ) → i < count → from + i < length page_table.now }
    requires room { length spare.old.items + count ≤ vec_capacity spare.old }
    ensures len { length spare.new.items ≡ length spare.old.items + count }
    ensures before { (k : ℕ) → k < length spare.old.items → slice_index spare.new.items k ≡ slice_index spare.old.items k }
    ensures back { (i : ℕ) → i < count → slice_index spare.new.items (length spare.old.items + i) ≡ slice_index page_table.now (from + i) }
    ensures room { vec_capacity spare.old ≤ vec_capacity spare.new }
{
    for i in 0..count {
        add_spare(spare, page_table[from + i]);
    }
}

/// Makes so many pages spare that were never lent. Their cells are empty.
pub fn add_pages(cells: &mut MarkedCells, spare: &mut Vec<u16>, count: usize)
    requires few { length cells.old.cells + count * 64 ≤ 1048576 }
    requires cell_room { length cells.old.cells + count * 64 ≤ cells.old.room * 64 }
    requires spare_room { length spare.old.items + count ≤ vec_capacity spare.old }
    ensures cells { length cells.new.cells ≡ length cells.old.cells + count * 64 }
    ensures empty { (q : ℕ) → slice_index_or cells.new.cells q empty ≡ slice_index_or cells.old.cells q empty }
    ensures cell_room { cells.new.room ≡ cells.old.room }
    ensures len { length spare.new.items ≡ length spare.old.items + count }
    ensures before { (k : ℕ) → k < length spare.old.items → slice_index spare.new.items k ≡ slice_index spare.old.items k }
    ensures fresh { (i : ℕ) → i < count → slice_index spare.new.items (length spare.old.items + i) * 64 ≡ length cells.old.cells + i * 64 }
    ensures spare_room { vec_capacity spare.old ≤ vec_capacity spare.new }
{
    let lent = cells.pages();
    cells.add_pages(count);
    for i in 0..count {
        add_spare(spare, (lent + i) as u16);
    }
}

/// Empties the cells of a page.
pub fn clear_page(cells: &mut [CountedCell], page: usize)
    requires { page * 64 + 64 ≤ length cells.old }
    ensures cleared { (q : ℕ) → q / 64 ≡ page → slice_index_or cells.new q empty ≡ empty }
    ensures others { (q : ℕ) → q / 64 ≢ page → slice_index_or cells.new q empty ≡ slice_index_or cells.old q empty }
{
    for i in 0..64 {
        cells[page * 64 + i] = CountedCell::new(Cell::Empty);
    }
}

/// Empties the cells of all pages of a run of the table.
pub fn clear_pages(cells: &mut MarkedCells, page_table: &[u16], from: usize, pages: usize)
    requires run { (j : ℕ) → j < pages → from + j < length page_table.now }
    requires inside { (j : ℕ) → j < pages → slice_index page_table.now (from + j) * 64 + 64 ≤ length cells.old.cells }
    ensures room { cells.new.room ≡ cells.old.room }
    ensures len { length cells.new.cells ≡ length cells.old.cells }
    ensures cleared { (j q : ℕ) → j < pages → q / 64 ≡ slice_index page_table.now (from + j) → slice_index_or cells.new.cells q empty ≡ empty }
    ensures others { (q : ℕ) → ((j : ℕ) → j < pages → q / 64 ≢ slice_index page_table.now (from + j)) → slice_index_or cells.new.cells q empty ≡ slice_index_or cells.old.cells q empty }
{
    for j in 0..pages {
        cells.clear_page(page_table[from + j] as usize);
    }
}

/// Returns the first slot where no extent is live.
pub fn vacant(slots: &[Option<u16>]) -> usize
    requires { count_by is_some slots.now < length slots.now }
    ensures within { result < length slots.now }
    ensures none { slice_index_or slots.now result None ≡ None }
{
    for (i, slot) in slots.iter().enumerate() {
        if slot.is_none() {
            return i;
        }
    }
    0
}
