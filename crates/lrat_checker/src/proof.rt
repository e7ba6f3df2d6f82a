//! LRAT proofs.
use crate::literal::Clause;
use std::marker::Model;

/// Ids of clauses, each at least 1.
#[derive(Drop)]
pub struct Ids {
    pub list: Vec<u64>,
}

impl Model for Ids {
    ghost use Rattle.std.specs.Prelude.{List, ℕ};

    ghost Value = { List ℕ };

    ghost view = { λ i. i.list.items };
}

/// A line of a proof.
#[derive(Drop)]
pub enum Line {
    /// Adds a clause under a new id. Its hints are the ids of the clauses by which unit propagation leads to a
    /// conflict, in order. `resolvents` is whether hints for resolvents (negative numbers) follow these, which show a
    /// clause by resolution asymmetric tautology (RAT); they are not kept.
    Addition {
        id: u64,
        clause: Clause,
        hints: Ids,
        resolvents: bool,
    },
    /// Deletes the clauses with these ids. An id without a clause has no effect.
    Deletion {
        ids: Ids,
    },
}

/// The lines of a proof, in order.
#[derive(Drop)]
pub struct Proof {
    pub lines: Vec<Line>,
}

impl Model for Proof {
    ghost use Rattle.std.specs.Prelude.{List};
    ghost use Rattle.lrat_checker.specs.declared.proof.Line.{Line};

    ghost Value = { List Line };

    ghost view = { λ p. p.lines.items };
}
