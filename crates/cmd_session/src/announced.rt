//! What the live queries announce.
ghost use Rattle.std.specs.Prelude.{◌≡◌, ◌<◌, ◌^◌};
ghost use Rattle.std.specs.List.{sum_by};
ghost use Rattle.exec_registry.specs.Live.{plan_cells};
ghost use Rattle.cmd_session.specs.Announced.{answers_of};

use exec_registry::Registry;
use sem_query::Plan;

/// The sums of the numbers that live queries announce. A filter announces none.
#[derive(Clone, Copy, Debug, PartialEq, Eq)]
pub struct Announced {
    /// How many cells they have.
    pub cells: u64,
    /// How many different answers they have at most.
    pub answers: u64,
}

/// Returns what a plan announces.
pub fn announced_by_plan(plan: &Plan) -> Announced
    ensures cells { result.cells ≡ plan_cells plan.now }
    ensures answers { result.answers ≡ answers_of plan.now }
    ensures few_cells { result.cells < 2 ^ 32 }
    ensures few_answers { result.answers < 2 ^ 32 }
{
    match plan {
        Plan::Filter => Announced {
            cells: 0,
            answers: 0,
        },
        Plan::Parts { parts: _, numbers } => Announced {
            cells: u64::from(numbers.cells),
            answers: u64::from(numbers.answers),
        },
    }
}

/// Returns what all live queries announce.
pub fn announced_in(registry: &Registry) -> Announced
    ensures cells { result.cells ≡ sum_by (λ l. plan_cells l.executor.plan) registry.now.live }
    ensures answers { result.answers ≡ sum_by (λ l. answers_of l.executor.plan) registry.now.live }
{
    let mut all = Announced {
        cells: 0,
        answers: 0,
    };
    for place in 0..registry.len() {
        let one = announced_by_plan(registry.plan(place));
        all.cells += one.cells;
        all.answers += one.answers;
    }
    all
}
