//! Stores, the values of expressions in a store, and whether conditions hold in it.
ghost use Rattle.std.specs.Prelude.{◌≡◌, ◌<◌, set, slice_index_or};
ghost use Rattle.kat_model.specs.Expressions.{expr_tree, cond_tree};
ghost use Rattle.kat_model.specs.Stores.{modulus, IsStore, value, compares, holds};

use kat_model::{Cond, Expr, Rel, Width};
use std::marker::Model;

/// The values of the variables, variable 0 first.
#[derive(Drop)]
pub struct Store {
    pub values: Vec<u64>,
}

impl Model for Store {
    ghost use Rattle.std.specs.Prelude.{ℕ, List};
    ghost use Rattle.std.specs.Coded.{coded_ℕ, coded_list};

    ghost Value = { List ℕ };

    ghost coded = { coded_list coded_ℕ };

    ghost view = { λ s. s.values.items };
}

impl Store {
    // Sets a variable. Does nothing if the store does not have it.
    pub(crate) fn set(&mut self, var: usize, value: u64)
        ensures { self.new ≡ set self.old var value }
    {
        if var < self.values.len() {
            self.values[var] = value;
        }
    }
}

// Returns the value of a variable; 0 if the store does not have it.
fn value_at(store: &[u64], var: usize) -> u64
    ensures { result ≡ slice_index_or store.now var 0 }
{
    match store.get(var) {
        Some(value) => *value,
        None => 0,
    }
}

// Returns the value of an expression. A variable that the store does not have is 0.
pub(crate) fn value(width: Width, expr: &Expr, store: &[u64]) -> u64
    requires { IsStore width store.now }
    ensures value { result ≡ value width store.now (expr_tree expr.now) }
    ensures bound { result < modulus width }
{
    match expr {
        Expr::Num(n) => width.residue(*n),
        Expr::Var(k) => value_at(store, *k),
        Expr::Add(e, f) => width.add(value(width, e, store), value(width, f, store)),
        Expr::Sub(e, f) => width.sub(value(width, e, store), value(width, f, store)),
        Expr::Mul(e, f) => width.mul(value(width, e, store), value(width, f, store)),
    }
}

fn compares(rel: Rel, left: u64, right: u64) -> bool
    ensures { result ≡ compares rel left right }
{
    match rel {
        Rel::Eq => left == right,
        Rel::Ne => left != right,
        Rel::Lt => left < right,
        Rel::Le => left <= right,
        Rel::Gt => left > right,
        Rel::Ge => left >= right,
    }
}

/// Whether a condition holds in the store. A named test is false.
pub fn holds(width: Width, cond: &Cond, store: &[u64]) -> bool
    requires { IsStore width store.now }
    ensures { result ≡ holds width store.now (cond_tree cond.now) }
{
    match cond {
        Cond::True => true,
        Cond::False | Cond::Test(_) => false,
        Cond::Compare(rel, e, f) => {
            compares(*rel, value(width, e, store), value(width, f, store))
        }
        Cond::Not(b) => !holds(width, b, store),
        Cond::And(b, c) => holds(width, b, store) && holds(width, c, store),
        Cond::Or(b, c) => holds(width, b, store) || holds(width, c, store),
    }
}
