//! Short lists in fixed room: what they hold is let go by a number, and nothing is filled.
ghost use Rattle.std.specs.Prelude.{◌≡◌, ◌+◌, ◌-◌, ◌<◌, ◌≤◌, length, take, [], ◌∷◌, ◌++◌, option_to_list};

use sem_query::Dim;
use std::marker::Model;

/// At most eight dims. A clause sees their list.
#[derive(Drop, Default)]
pub struct Dims {
    entries: [Dim; 8],
    count: usize,
}

impl Model for Dims {
    ghost use Rattle.std.specs.Prelude.{take, ◌≤◌};
    ghost use Rattle.arrayvec.specs.ArrayVec.{ArrayVec};
    ghost use Rattle.sem_query.specs.declared.plan.Dim.{Dim};

    ghost Value = { ArrayVec Dim };

    ghost view = { λ dims. record { items = take dims.count dims.entries } };

    ghost invariant = { λ dims. dims.count ≤ 8 };
}

impl Dims {
    /// Returns the dims.
    pub fn as_slice(&self) -> &[Dim]
        ensures value { result.now ≡ self.now.items }
        ensures fits { length result.now ≤ 8 }
    {
        &self.entries[..self.count]
    }

    /// Lets all go.
    pub fn clear(&mut self)
        ensures { self.new.items ≡ [] }
    {
        self.count = 0;
    }

    /// Puts one behind the others.
    pub fn push(&mut self, dim: Dim)
        requires { length self.old.items < 8 }
        ensures items { self.new.items ≡ self.old.items ++ dim ∷ [] }
    {
        self.entries[self.count] = dim;
        self.count += 1;
    }

    /// Holds a copy of these dims.
    pub fn copy_from(&mut self, dims: &[Dim])
        requires { length dims.now ≤ 8 }
        ensures { self.new.items ≡ dims.now }
    {
        self.clear();
        'dims: for dim in dims {
            self.push(*dim);
        }
    }
}

/// At most eight values, one of each dim. A clause sees their list.
#[derive(Drop, Default)]
pub struct Values {
    entries: [i64; 8],
    count: usize,
}

impl Model for Values {
    ghost use Rattle.std.specs.Prelude.{take, ◌≤◌, ℤ};
    ghost use Rattle.arrayvec.specs.ArrayVec.{ArrayVec};

    ghost Value = { ArrayVec ℤ };

    ghost view = { λ values. record { items = take values.count values.entries } };

    ghost invariant = { λ values. values.count ≤ 8 };
}

impl Values {
    /// Returns the values.
    pub fn as_slice(&self) -> &[i64]
        ensures value { result.now ≡ self.now.items }
        ensures fits { length result.now ≤ 8 }
    {
        &self.entries[..self.count]
    }

    /// Lets all go.
    pub fn clear(&mut self)
        ensures { self.new.items ≡ [] }
    {
        self.count = 0;
    }

    /// Puts one behind the others.
    pub fn push(&mut self, value: i64)
        requires { length self.old.items < 8 }
        ensures items { self.new.items ≡ self.old.items ++ value ∷ [] }
        ensures len { length self.new.items ≡ length self.old.items + 1 }
    {
        self.entries[self.count] = value;
        self.count += 1;
    }
}

/// At most four numbers, one of each level. A clause sees their list.
#[derive(Drop, Default)]
pub struct Counts {
    entries: [u32; 4],
    count: usize,
}

impl Model for Counts {
    ghost use Rattle.std.specs.Prelude.{take, ◌≤◌, ℕ};
    ghost use Rattle.arrayvec.specs.ArrayVec.{ArrayVec};

    ghost Value = { ArrayVec ℕ };

    ghost view = { λ numbers. record { items = take numbers.count numbers.entries } };

    ghost invariant = { λ numbers. numbers.count ≤ 4 };
}

impl Counts {
    /// Lets all go.
    pub fn clear(&mut self)
        ensures { self.new.items ≡ [] }
    {
        self.count = 0;
    }

    /// Puts one behind the others.
    pub fn push(&mut self, number: u32)
        requires { length self.old.items < 4 }
        ensures items { self.new.items ≡ self.old.items ++ number ∷ [] }
    {
        self.entries[self.count] = number;
        self.count += 1;
    }

    /// Takes the last one away, if there is one.
    pub fn pop(&mut self) -> Option<u32>
        ensures items { self.old.items ≡ self.new.items ++ option_to_list result }
        ensures rest { self.new.items ≡ take (length self.old.items - 1) self.old.items }
    {
        if self.count == 0 {
            return None;
        }
        self.count -= 1;
        Some(self.entries[self.count])
    }
}
