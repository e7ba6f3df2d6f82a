//! Formulas in conjunctive normal form.
use crate::literal::Clause;
use std::marker::Model;

/// Clauses that must all be true, over the variables 1 to `variables`. The clauses have the ids 1, 2 and so on, in this
/// order.
#[derive(Drop)]
pub struct Cnf {
    pub variables: u32,
    pub clauses: Vec<Clause>,
}

impl Model for Cnf {
    ghost use Rattle.lrat_checker.specs.CnfParts.{CnfParts};

    ghost Value = { CnfParts };

    ghost view = { λ f. record { variables = f.variables; clauses = f.clauses.items } };
}
