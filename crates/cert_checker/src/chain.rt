//! Chains of constraints that are named by their numbers.
ghost use Rattle.std.specs.Prelude.{◌≡◌, ℕ, ◌<◌, ◌≤◌, ◌*◌, pos, neg_ℤ, ◌≤ℤ◌, IfSome, IsTrue, ◌↔◌, length, All};
ghost use Rattle.plan_constraints.specs.Solutions.{IsWithin, IsNegativeCycle};
ghost use Rattle.cert_checker.specs.Chained.{Closes, numbered, IsChainFrom, IsChainOf};

use plan_constraints::Constraint;

/// The nodes at the ends of a chain, and the sum of its bounds.
#[derive(Clone, Copy)]
pub struct ChainSum {
    pub from: u8,
    pub to: u8,
    pub sum: i64,
}

// The constraint with this number, from 1.
fn numbered(cs: &[Constraint], number: u16) -> Option<Constraint>
    ensures { result ≡ numbered cs.now number }
{
    if number == 0 {
        return None;
    }
    cs.get(usize::from(number) - 1).copied()
}

// The chain that begins at a node, where the numbers are one.
fn chain_from(cs: &[Constraint], numbers: &[u16], from: u8) -> Option<ChainSum>
    requires within { All (IsWithin 12) cs.now }
    requires few { length numbers.now ≤ 13 }
    ensures chain { IsChainFrom cs.now numbers.now from result }
    ensures low { IfSome result (λ c. neg_ℤ (pos 13000000000000000) ≤ℤ c.sum) }
    ensures high { IfSome result (λ c. c.sum ≤ℤ pos 13000000000000000) }
{
    let mut to = from;
    let mut sum = 0;
    for number in numbers {
        let c = numbered(cs, *number)?;
        if c.left != to {
            return None;
        }
        to = c.right;
        sum += c.bound;
    }
    Some(ChainSum { from, to, sum })
}

/// Returns the chain of these constraints, by their numbers from 1. None where there is none, or no number.
pub fn chain_of(cs: &[Constraint], numbers: &[u16]) -> Option<ChainSum>
    requires within { All (IsWithin 12) cs.now }
    requires few { length numbers.now ≤ 13 }
    ensures chain { IsChainOf cs.now numbers.now result }
    ensures low { IfSome result (λ c. neg_ℤ (pos 13000000000000000) ≤ℤ c.sum) }
    ensures high { IfSome result (λ c. c.sum ≤ℤ pos 13000000000000000) }
{
    let first = numbered(cs, *numbers.first()?)?;
    chain_from(cs, numbers, first.left)
}

// Whether a chain ends where it begins, and has a negative sum.
fn closes(chain: ChainSum) -> bool
    ensures { IsTrue result ↔ Closes chain }
{
    chain.from == chain.to && chain.sum < 0
}

/// Returns whether these constraints close a chain with a negative sum.
pub fn is_negative_cycle(cs: &[Constraint], numbers: &[u16]) -> bool
    requires within { All (IsWithin 12) cs.now }
    requires few { length numbers.now ≤ 13 }
    ensures { IsTrue result ↔ IsNegativeCycle cs.now numbers.now }
{
    match chain_of(cs, numbers) {
        Some(chain) => closes(chain),
        None => false,
    }
}
