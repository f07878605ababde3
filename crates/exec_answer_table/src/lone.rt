//! An entry that a table keeps beside its lists, where it is the only one.
ghost use Rattle.std.specs.Prelude.{◌≡◌, ◌≤◌, true, false, length, map};
ghost use Rattle.sem_query.specs.Meaning.{by_column};

use crate::columns::put_columns;
use sem_query::Tuple;

/// Room for an entry, and whether one is there.
#[derive(Drop)]
pub struct Lone {
    pub waiting: u128,
    pub tuple: Tuple,
    pub is_there: bool,
}

impl Lone {
    /// Returns room in which no entry is.
    pub fn new() -> Lone
        ensures { result.is_there ≡ false }
    {
        Lone {
            waiting: 0,
            tuple: Tuple::new(),
            is_there: false,
        }
    }

    /// Puts the entry of a tuple there.
    pub fn put(&mut self, t: &[i64], waiting: u128)
        requires { length t.now ≤ 8 }
        ensures there { self.new.is_there ≡ true }
        ensures tuple { self.new.tuple.items ≡ t.now }
        ensures waiting { self.new.waiting ≡ waiting }
    {
        put_values(&mut self.tuple, t);
        self.waiting = waiting;
        self.is_there = true;
    }

    /// Puts the entry of the values of these columns of a row there, which waits once.
    pub fn put_selected(&mut self, columns: &[u8], row: &[i64])
        requires { length columns.now ≤ 8 }
        ensures there { self.new.is_there ≡ true }
        ensures tuple { self.new.tuple.items ≡ map (by_column row.now) columns.now }
        ensures waiting { self.new.waiting ≡ 1 }
    {
        put_columns(&mut self.tuple, columns, row);
        self.waiting = 1;
        self.is_there = true;
    }
}

// Puts the values of a tuple into another. Most tuples have one or two, and to copy a slice costs more than these.
fn put_values(tuple: &mut Tuple, t: &[i64])
    requires { length t.now ≤ 8 }
    ensures { tuple.new.items ≡ t.now }
{
    *tuple = Tuple::new();
    for value in t {
        tuple.push(*value);
    }
}
