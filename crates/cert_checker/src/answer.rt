//! What a check answers.
use sem_query::Decision;

/// The rule that a node breaks. Where it breaks several, it is the first of these.
#[derive(Clone, Copy, Debug, PartialEq, Eq)]
pub enum Reason {
    /// The nodes are no tree here: a split is not at the next pair, a leaf not below all pairs, or a soft comparison
    /// is false at it, the nodes end too soon, or some stand behind the tree.
    Shape,
    /// The constraints of an infeasible node are not there, do not close a chain, or have no negative sum; or the comparison that
    /// closes a branch is not there, is not soft, or is not false there.
    Cycle,
    /// The paths of a leaf do not ascend, or one does not lead from a node to another.
    Path,
    /// The bounds that the paths of a leaf give are not closed.
    Bound,
}

/// Whether a certificate is good.
#[derive(Clone, Copy, Debug, PartialEq, Eq)]
pub enum CheckAnswer {
    /// It is: the decision on the query, and the number of its parts.
    Yes { decision: Decision, parts: u32 },
    /// It is not: the place of the first node that breaks a rule, from 1, and the rule.
    No { place: u32, reason: Reason },
}
