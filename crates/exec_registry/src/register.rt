//! Taking a query among the live ones, and out of them.
ghost use Rattle.std.specs.Prelude.{◌≡◌, ◌<◌, ◌*◌, false, length, replicate};
ghost use Rattle.std.specs.List.{list_any};
ghost use Rattle.std.specs.Str.{bytes_eq};
ghost use Rattle.sem_query.specs.declared.cell.Cell.TheVariants as cell;
ghost use Rattle.sem_query.specs.Numbers.{pages_of};
ghost use Rattle.exec_pool.specs.Extents.{cells_of, IsLive};
ghost use Rattle.exec_query.specs.Executor.{IsAccepted};
ghost use Rattle.exec_registry.specs.Registry.{IsSound};
ghost use Rattle.exec_registry.specs.Admitted.{SettlesIn, Admits, IsDropped};

use crate::queries::Queries;
use crate::refusal::CreateError;
use crate::verdict::{Verdict, pages_of, verdict_of};
use exec_pool::{Extent, Pool, PoolError};
use exec_query::Executor;
use sem_query::{Plan, Query};
use sql_text::Name;
use std::alloc::{AllocError, AllocFailed, Global};

/// A query that is accepted, whether its cells are shared, and its plan.
#[derive(Drop)]
pub struct Planned {
    pub query: Query,
    pub shared: bool,
    pub plan: Plan,
}

// Takes a query among the live ones whose pages were taken; none of them has its name. For want of memory its pages are given
// back.
fn install(
    alloc: Global,
    pool: &mut Pool,
    live: &mut Queries,
    name: Name,
    planned: Planned,
    extent: Extent,
) -> Result<(), AllocError>
    requires accepted { IsAccepted planned.shared planned.query planned.plan }
    requires new { list_any (λ l. bytes_eq l.name name) live.old ≡ false }
    requires pages { extent.pages ≡ pages_of planned.plan }
    requires there { IsLive pool.old extent }
    requires empty { cells_of pool.old extent ≡ replicate (64 * extent.pages) cell.Empty }
    ensures { SettlesIn result name planned.query planned.shared planned.plan extent pool.old live.old pool.new live.new }
{
    let Planned {
        query,
        shared,
        plan,
    } = planned;
    let executor = match Executor::new(alloc, query, shared, plan, extent) {
        Ok(executor) => executor,
        Err((extent, error)) => {
            pool.give_back(extent);
            return Err(error);
        }
    };
    // Read for the proof alone: the call tells what holds of its plan.
    let _sound = executor.plan();
    match live.add_last(name, executor) {
        Ok(()) => Ok(()),
        Err(AllocFailed { value }) => {
            value.close(pool);
            Err(AllocError)
        }
    }
}

/// Takes a query that is accepted among the live ones, the last of them, if its pages are free. None of them has its name.
pub fn admit(
    alloc: Global,
    pool: &mut Pool,
    live: &mut Queries,
    name: Name,
    planned: Planned,
) -> Result<Verdict, CreateError>
    requires accepted { IsAccepted planned.shared planned.query planned.plan }
    requires new { list_any (λ l. bytes_eq l.name name) live.old ≡ false }
    requires sound { IsSound pool.old live.old }
    requires room { length live.old < 64 }
    ensures { Admits result name planned.query planned.shared planned.plan pool.old live.old pool.new live.new }
{
    let verdict = verdict_of(&planned.plan);
    match pool.take(pages_of(&planned.plan)) {
        Err(PoolError::Full { needed, free }) => Err(CreateError::Pool { needed, free }),
        Ok(extent) => match install(alloc, pool, live, name, planned, extent) {
            Ok(()) => Ok(verdict),
            Err(_) => Err(CreateError::Memory),
        },
    }
}

/// Takes the live query at a place out of the live ones; its pages are free again.
pub fn drop_at(pool: &mut Pool, live: &mut Queries, place: usize)
    requires sound { IsSound pool.old live.old }
    requires there { place < length live.old }
    ensures { IsDropped place pool.old live.old pool.new live.new }
{
    let executor = live.take_out(place);
    executor.close(pool);
}
