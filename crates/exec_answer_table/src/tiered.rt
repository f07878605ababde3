//! Numbers in a list of two levels, in which an insertion moves few of them.
ghost use Rattle.std.specs.Prelude.{◌≡◌, ℕ, ◌+◌, ◌-◌, ◌*◌, ◌/◌, ◌%◌, ◌<◌, ◌≤◌, ◌^◌, ◌⊎◌, [], ◌∷◌, ◌++◌, length, slice_index, IfOk, IfSome};
ghost use Rattle.std.specs.List.{insert};
ghost use Rattle.exec_answer_table.specs.Tiers.{number_at, Shifted, StandsAt};

use std::alloc::{AllocError, Global};
use std::marker::Model;

/// The numbers of a block.
pub const BLOCK: usize = 256;

/// A list of numbers as a tiered vector: blocks of 256, of which all but the last are full. Each full block is a ring that begins at its
/// head, so that an insertion moves the numbers of one block, and turns each full block behind it by one. Until that comes, as where numbers
/// are only appended, all stand in order. Room for all is taken once.
#[derive(Drop)]
pub struct TieredVec {
    numbers: Vec<u32>,
    heads: Vec<usize>,
    room: usize,
    turned: bool,
}

impl Model for TieredVec {
    ghost use Rattle.std.specs.Prelude.{◌≤◌, vec_capacity};
    ghost use Rattle.exec_answer_table.specs.Tiers.{TieredValue, items_of, IsTiered, Unturned};

    ghost Value = { TieredValue };

    ghost view = { λ v. record { items = items_of v.numbers.items v.heads.items; room = v.room } };

    ghost invariant = { λ v. IsTiered v.numbers.items v.heads.items v.room × (v.room ≤ vec_capacity v.numbers) × Unturned v.turned v.heads.items };
}

impl TieredVec {
    /// Returns an empty list with room for so many numbers. An error says that memory was not found; no other call takes any.
    pub fn with_capacity(alloc: Global, room: usize) -> Result<TieredVec, AllocError>
        ensures { IfOk result (λ v. v ≡ record { items = []; room = room }) }
    {
        let numbers = Vec::with_capacity(alloc, room)?;
        let heads = first_places(alloc, room / BLOCK + 1)?;
        Ok(TieredVec {
            numbers,
            heads,
            room,
            turned: false,
        })
    }

    /// Returns how many numbers there are.
    #[inline(always)]
    pub fn len(&self) -> usize
        ensures { result ≡ length self.now.items }
    {
        self.numbers.len()
    }

    /// Returns the number at a place.
    #[inline(always)]
    pub fn get(&self, place: usize) -> u32
        requires { place < length self.now.items }
        ensures { result ≡ slice_index self.now.items place }
    {
        self.numbers[ring_place(self.heads[place / BLOCK], place)]
    }

    /// Returns how many blocks of 256 there are, of which the last may be less.
    #[inline(always)]
    pub fn blocks(&self) -> usize
        ensures enough { length self.now.items ≤ result * 256 }
        ensures most { result * 256 < length self.now.items + 256 }
        ensures few { length self.now.items < 2 ^ 63 }
    {
        self.numbers.len().div_ceil(BLOCK)
    }

    /// Returns the first number of a block.
    #[inline(always)]
    pub fn first(&self, block: usize) -> u32
        requires { block * 256 < length self.now.items }
        ensures { result ≡ slice_index self.now.items (block * 256) }
    {
        self.numbers[self.heads[block]]
    }

    /// Returns the numbers of a block in order, as two slices.
    #[inline(always)]
    pub fn block(&self, block: usize) -> (&[u32], &[u32])
        requires { block * 256 < length self.now.items }
        ensures inside { block * 256 + length result.0.now + length result.1.now ≤ length self.now.items }
        ensures all { (k : ℕ) → block * 256 + length result.0.now + length result.1.now ≤ k → k < length self.now.items → block * 256 + 256 ≤ k }
        ensures front { StandsAt result.0.now self.now.items (block * 256) }
        ensures back { StandsAt result.1.now self.now.items (block * 256 + length result.0.now) }
        ensures few { length self.now.items < 2 ^ 63 }
    {
        let head = self.heads[block];
        let (before, behind) = self.numbers.as_slice().split_at(head);
        let front = behind
            .split_at(behind.len().min((block + 1) * BLOCK - head))
            .0;
        let back = before.split_at(block * BLOCK).1;
        (front, back)
    }

    /// Returns the last number.
    #[inline(always)]
    pub fn last(&self) -> u32
        requires { 0 < length self.now.items }
        ensures { result ≡ slice_index self.now.items (length self.now.items - 1) }
    {
        self.numbers[self.numbers.len() - 1]
    }

    /// Returns the numbers in order as they stand, where no block was turned.
    #[inline(always)]
    pub fn plain(&self) -> Option<&[u32]>
        ensures { IfSome result (λ all. all.now ≡ self.now.items) }
    {
        if self.turned {
            return None;
        }
        Some(self.numbers.as_slice())
    }

    /// Appends a number.
    #[inline(always)]
    pub fn push(&mut self, number: u32)
        requires { length self.old.items < self.old.room }
        ensures items { self.new.items ≡ self.old.items ++ number ∷ [] }
        ensures room { self.new.room ≡ self.old.room }
    {
        // There is room, so this is done.
        let _stored = self.numbers.push(number).is_ok();
    }

    /// Inserts a number at a place.
    pub fn insert(&mut self, place: usize, number: u32)
        requires place { place ≤ length self.old.items }
        requires room { length self.old.items < self.old.room }
        ensures items { self.new.items ≡ insert self.old.items place number }
        ensures room { self.new.room ≡ self.old.room }
    {
        let full = self.numbers.len() / BLOCK;
        if place >= full * BLOCK {
            // There is room, so this is done.
            let _stored = self.numbers.insert(place, number).is_ok();
            return;
        }
        let last = shift_full(&mut self.numbers, &mut self.heads, place, full, number);
        self.turned = true;
        // Here too.
        let _stored = self.numbers.insert(full * BLOCK, last).is_ok();
    }

    /// Leaves no numbers.
    pub fn clear(&mut self)
        ensures items { self.new.items ≡ [] }
        ensures room { self.new.room ≡ self.old.room }
    {
        clear_heads(&mut self.heads, self.numbers.len() / BLOCK);
        self.numbers.clear();
        self.turned = false;
    }
}

// The heads of so many blocks, which all begin at their first places.
fn first_places(alloc: Global, blocks: usize) -> Result<Vec<usize>, AllocError>
    requires { blocks * 256 < 2 ^ 64 }
    ensures length { IfOk result (λ heads. length heads.items ≡ blocks) }
    ensures first { IfOk result (λ heads. (block : ℕ) → block < blocks → slice_index heads.items block ≡ block * 256) }
{
    let mut heads = Vec::with_capacity(alloc, blocks)?;
    for made in 0..blocks {
        heads.push(made * BLOCK)?;
    }
    Ok(heads)
}

// Where a number stands in its block.
#[inline(always)]
fn ring_place(head: usize, place: usize) -> usize
    ensures { result ≡ place / 256 * 256 + (head + place % 256) % 256 }
{
    place / BLOCK * BLOCK + (head % BLOCK + place % BLOCK) % BLOCK
}

// Moves the numbers of the full blocks on by one from a place on. The number comes in there, and the last one goes out.
fn shift_full(
    numbers: &mut [u32],
    heads: &mut [usize],
    place: usize,
    full: usize,
    number: u32,
) -> u32
    requires place { place < full * 256 }
    requires inside { full * 256 ≤ length numbers.old }
    requires heads { full ≤ length heads.old }
    ensures own { (block : ℕ) → slice_index heads.old block / 256 ≡ block → slice_index heads.new block / 256 ≡ block }
    ensures others { (block : ℕ) → full ≤ block → slice_index heads.new block ≡ slice_index heads.old block }
    ensures shifted { Shifted (number_at numbers.old heads.old) (number_at numbers.new heads.new) place (full * 256) number result }
{
    let carried = shift_block(numbers, heads, place, number);
    turn_blocks(numbers, heads, place / BLOCK + 1, full, carried)
}

// Moves the numbers of a block on by one from a place on. The number comes in there, and the last one goes out.
fn shift_block(numbers: &mut [u32], heads: &[usize], from: usize, number: u32) -> u32
    requires inside { (from / 256 + 1) * 256 ≤ length numbers.old }
    requires heads { from / 256 < length heads.now }
    ensures { Shifted (number_at numbers.old heads.now) (number_at numbers.new heads.now) from ((from / 256 + 1) * 256) number result }
{
    let head = heads[from / BLOCK];
    let mut carried = number;
    for place in from..(from / BLOCK + 1) * BLOCK {
        let at = ring_place(head, place);
        let next = numbers[at];
        numbers[at] = carried;
        carried = next;
    }
    carried
}

// Turns each of a run of full blocks by one: a number comes in at the front of each, and its last one goes on to the next.
fn turn_blocks(numbers: &mut [u32], heads: &mut [usize], from: usize, to: usize, number: u32) -> u32
    requires order { from ≤ to }
    requires inside { to * 256 ≤ length numbers.old }
    requires heads { to ≤ length heads.old }
    ensures own { (block : ℕ) → slice_index heads.old block / 256 ≡ block → slice_index heads.new block / 256 ≡ block }
    ensures others { (block : ℕ) → to ≤ block → slice_index heads.new block ≡ slice_index heads.old block }
    ensures shifted { Shifted (number_at numbers.old heads.old) (number_at numbers.new heads.new) (from * 256) (to * 256) number result }
{
    let mut carried = number;
    for block in from..to {
        let at = block * BLOCK + (heads[block] % BLOCK + BLOCK - 1) % BLOCK;
        let next = numbers[at];
        numbers[at] = carried;
        heads[block] = at;
        carried = next;
    }
    carried
}

// Lets so many blocks begin at their first places.
fn clear_heads(heads: &mut [usize], blocks: usize)
    requires { blocks ≤ length heads.old }
    ensures cleared { (block : ℕ) → block < blocks → slice_index heads.new block ≡ slice_index heads.old block / 256 * 256 }
    ensures others { (block : ℕ) → blocks ≤ block → slice_index heads.new block ≡ slice_index heads.old block }
{
    for block in 0..blocks {
        heads[block] = heads[block] / BLOCK * BLOCK;
    }
}
