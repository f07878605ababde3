//! Laws of the definitions, as public functions without a body: the clause is the law.
ghost use Rattle.cert_checker.specs.TreeLaws.{GoodIsTree, ListOneTree, LeavesOfTreeAreParts, LeavesAreParts, WholeLeavesAreParts, SplitLeavesAreParts, HasOneAnswer, HasOneFault, FaultsAreBad};
ghost use Rattle.cert_checker.specs.LeafLaws.{LeavesAreTight};

/// Nodes are good, read one behind the other, exactly where they are those of a good tree in preorder.
pub fn good_is_tree()
    ensures { GoodIsTree }
{}

/// Nodes list one tree at most.
pub fn list_one_tree()
    ensures { ListOneTree }
{}

/// The leaves of a tree that is good for a query within the limits are the parts of the query, in order.
pub fn leaves_of_tree_are_parts()
    ensures { LeavesOfTreeAreParts }
{}

/// In a tree that is good for a query within the limits the bounds of a leaf are what its part implies: for any two columns or constants how much the one is at most above
/// the other, or that there is no limit.
pub fn leaves_are_tight()
    ensures { LeavesAreTight }
{}

/// The leaves of nodes that are a good tree of a query within the limits are the parts of the query, in order.
pub fn leaves_are_parts()
    ensures { LeavesAreParts }
{}

/// A good tree of the whole form of a query within the limits has one leaf where the comparisons can be met, and none where they cannot.
pub fn whole_leaves_are_parts()
    ensures { WholeLeavesAreParts }
{}

/// The leaves of nodes that are a good tree of the split form of a query within the limits are its split parts, in order.
pub fn split_leaves_are_parts()
    ensures { SplitLeavesAreParts }
{}

/// The nodes of a certificate have one answer at most.
pub fn one_answer()
    ensures { HasOneAnswer }
{}

/// The branching and the nodes determine the place of the first fault, and the rule that is broken there.
pub fn one_fault()
    ensures { HasOneFault }
{}

/// Nodes with a fault are no good tree.
pub fn faults_are_bad()
    ensures { FaultsAreBad }
{}
