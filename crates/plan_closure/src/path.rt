//! Chains of numbers of constraints.
ghost use Rattle.std.specs.Prelude.{◌≡◌, ◌+◌, ◌<◌, ◌≤◌, ◌∷◌, [], ◌++◌, length, Option};
ghost use Rattle.plan_closure.specs.declared.entry.Entry.{Entry};

use crate::entry::{Entry, entry_between};
use arrayvec::ArrayVec;
use std::marker::Model;

/// At most 12 numbers of constraints. A clause sees them as a list.
#[derive(Clone, Copy)]
pub struct ConstraintPath {
    steps: [u16; 12],
    len: usize,
}

impl Model for ConstraintPath {
    ghost use Rattle.std.specs.Prelude.{List, ℕ};

    ghost Value = { List ℕ };

    ghost use Rattle.plan_closure.specs.Paths.{shown, IsStored, stored, stored_back};

    ghost view = { shown };

    ghost invariant = { IsStored };

    ghost inverse = { stored };

    ghost inverse_ok = { stored_back };
}

impl ConstraintPath {
    ghost use Rattle.plan_closure.specs.Entries.{walked};

    /// Returns the constraints of the chain between two nodes, of which there are `length`.
    pub fn walk(entries: &[Option<Entry>; 169], from: u8, to: u8, length: u8) -> ConstraintPath
        requires { length ≤ 12 }
        ensures { result ≡ walked entries.now length from to }
    {
        let mut steps: [u16; 12] = [0; 12];
        let mut at = from;
        for k in 0..usize::from(length) {
            match entry_between(entries, at, to) {
                Some(entry) => {
                    steps[k] = entry.number;
                    at = entry.next;
                }
                None => {
                    steps[k] = 0;
                    at = 0;
                }
            }
        }
        ConstraintPath {
            steps,
            len: usize::from(length),
        }
    }

    /// Returns its numbers as a list.
    pub fn list(&self) -> ArrayVec<u16, 12>
        ensures { result.items ≡ self.now }
    {
        let mut list = ArrayVec::new();
        for step in &self.steps[..self.len] {
            list.push(*step);
        }
        list
    }
}
