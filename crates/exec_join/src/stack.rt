//! What a walk has chosen, in fixed room: an entry is written where it stands, and is let go by a number.
ghost use Rattle.std.specs.Prelude.{◌≡◌, ◌+◌, ◌-◌, ◌<◌, ◌≤◌, length, take, [], ◌∷◌, ◌++◌};
ghost use Rattle.sem_query.specs.Boxes.{box_size, values_at, AreNumbered};
ghost use Rattle.sem_query.specs.declared.cell.Cell.TheVariants.{Present};
ghost use Rattle.exec_join.specs.Choosing.{chosen};

use exec_ranges::{Binding, values_into};
use sem_query::{Cell, Dim};
use std::marker::Model;

/// The cells that a walk has chosen at the first places of FROM. A clause sees their list.
#[derive(Drop, Default)]
pub struct Bindings {
    entries: [Binding; 4],
    depth: usize,
}

impl Model for Bindings {
    ghost use Rattle.std.specs.Prelude.{take, ◌≤◌};
    ghost use Rattle.arrayvec.specs.ArrayVec.{ArrayVec};
    ghost use Rattle.exec_ranges.specs.declared.binding.Binding.{Binding};

    ghost Value = { ArrayVec Binding };

    ghost view = { λ choices. record { items = take choices.depth choices.entries } };

    ghost invariant = { λ choices. choices.depth ≤ 4 };
}

impl Bindings {
    /// Returns how many there are.
    pub fn len(&self) -> usize
        ensures value { result ≡ length self.now.items }
        ensures fits { result ≤ 4 }
    {
        self.as_slice().len()
    }

    /// Returns the choices.
    pub fn as_slice(&self) -> &[Binding]
        ensures value { result.now ≡ self.now.items }
        ensures fits { length result.now ≤ 4 }
    {
        &self.entries[..self.depth]
    }

    /// Lets all go.
    pub fn clear(&mut self)
        ensures { self.new.items ≡ [] }
    {
        self.depth = 0;
    }

    /// Puts a cell with the combination of values at a place behind the others.
    pub fn push(&mut self, dims: &[Dim], combinations: u32, place: u32, cell: Cell)
        requires room { length self.old.items < 4 }
        requires few { length dims.now ≤ 8 }
        requires sound { AreNumbered dims.now }
        requires size { combinations ≡ box_size dims.now }
        requires below { place < combinations }
        ensures items { self.new.items ≡ self.old.items ++ chosen (values_at dims.now place) cell ∷ [] }
    {
        let entry = &mut self.entries[self.depth];
        values_into(dims, combinations, place, &mut entry.values);
        entry.cell = cell;
        self.depth += 1;
    }

    /// Puts the arriving row behind the others.
    pub fn push_own(&mut self)
        requires room { length self.old.items < 4 }
        ensures items { self.new.items ≡ self.old.items ++ chosen [] Present ∷ [] }
    {
        let entry = &mut self.entries[self.depth];
        entry.values.clear();
        entry.cell = Cell::Present;
        self.depth += 1;
    }

    /// Lets the last one go, if there is one.
    pub fn drop_last(&mut self)
        ensures { self.new.items ≡ take (length self.old.items - 1) self.old.items }
    {
        let count = self.len();
        if count == 0 {
            return;
        }
        self.depth = count - 1;
    }
}
