//! The law of chains. The function does nothing: its contract is the law.
ghost use Rattle.chain_rules.specs.Laws.{ChainedAreSame};

/// If a chain is a proof, both sides denote the same relation in each table that satisfies the hypotheses, since each
/// axiom is sound in every such table and at every place.
pub fn chained_are_same()
    ensures { ChainedAreSame }
{}
