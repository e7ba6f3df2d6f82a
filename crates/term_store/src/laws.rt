//! Laws of ids and trees. Each function does nothing: its contract is the law.
ghost use Rattle.term_nodes.specs.NodeLists.{NodeParts, AreNodes};
ghost use Rattle.term_store.specs.Laws.{TreesByNode, EqualIdsAreEqualTrees};

/// The tree of an id is built by its node from the trees of the ids that the node names.
pub fn trees_by_node()
    ensures { (store : NodeParts) → AreNodes store → TreesByNode store }
{}

/// Two ids of one store are equal if and only if their trees are equal.
pub fn equal_ids_are_equal_trees()
    ensures { (store : NodeParts) → AreNodes store → EqualIdsAreEqualTrees store }
{}
