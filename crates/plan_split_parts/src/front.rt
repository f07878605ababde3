//! Signs that the first pairs of a query can have at once.
ghost use Rattle.std.specs.Prelude.{◌≡◌, ◌≤◌, length};

use arrayvec::ArrayVec;
use plan_closure::Distances;
use sem_query::{Sign, Signs};

/// Signs of the first pairs, and the distances of the query's system with them.
#[derive(Drop)]
pub struct Front {
    pub signs: Signs,
    pub distances: Distances,
}

/// Returns a copy of some signs.
pub fn copy_of(signs: &[Sign]) -> Signs
    requires { length signs.now ≤ 114 }
    ensures { result.items ≡ signs.now }
{
    let mut copy = ArrayVec::new();
    match copy.try_extend_from_slice(signs) {
        Ok(()) => copy,
        Err(_) => unreachable!(),
    }
}
