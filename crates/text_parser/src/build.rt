//! Builds the tree of a phrase.
ghost use Rattle.std.specs.Prelude.{◌≡◌, IfOk, map, slice_get};
ghost use Rattle.kat_model.specs.Trees.{kat_tree, test};
ghost use Rattle.kat_model.specs.Expressions.{expr_tree, cond_tree};
ghost use Rattle.text_parser.specs.ScopeParts.{meaning};
ghost use Rattle.text_parser.specs.Building.{joined, variable_tree, condition_tree, name_tree, defined_tree, trees};

use crate::convert::negated;
use crate::fault::TextFault;
use crate::meaning::Meaning;
use crate::reading::{Context, Operator, Reading};
use crate::scope::Scope;
use kat_model::{
    Cond, Expr, Kat, NoMemory, Rel, Test, all_of, any_of, seq_of, sum_of, test_without_comparisons,
};
use std::alloc::Global;

// The actions that build the tree of a phrase. The phrase was measured before.
#[derive(Clone, Copy)]
pub(crate) struct Build<'a> {
    pub(crate) alloc: Global,
    pub(crate) scope: &'a Scope,
}

fn join(alloc: Global, operator: Operator, left: Expr, right: Expr) -> Result<Expr, NoMemory>
    ensures { IfOk result (λ e. expr_tree e ≡ joined operator (expr_tree left) (expr_tree right)) }
{
    match operator {
        Operator::Add => Expr::new_add(alloc, left, right),
        Operator::Subtract => Expr::new_sub(alloc, left, right),
        Operator::Multiply => Expr::new_mul(alloc, left, right),
    }
}

fn variable(meaning: Option<Meaning>) -> Expr
    ensures { expr_tree result ≡ variable_tree meaning }
{
    match meaning {
        Some(Meaning::Var(k)) => Expr::Var(k),
        _ => Expr::Num(0),
    }
}

fn condition(meaning: Option<Meaning>) -> Cond
    ensures { cond_tree result ≡ condition_tree meaning }
{
    match meaning {
        Some(Meaning::Test(k)) => Cond::Test(k),
        _ => Cond::False,
    }
}

fn copy_of_definition(alloc: Global, scope: &Scope, i: usize) -> Result<Kat, NoMemory>
    ensures { IfOk result (λ e. kat_tree e ≡ defined_tree (slice_get scope.now.terms i)) }
{
    match scope.definition(i) {
        Some(definition) => definition.tree.copy(alloc),
        None => Ok(Kat::Zero),
    }
}

fn name(alloc: Global, scope: &Scope, meaning: Option<Meaning>) -> Result<Kat, NoMemory>
    ensures { IfOk result (λ e. kat_tree e ≡ name_tree scope.now meaning) }
{
    match meaning {
        Some(Meaning::Test(k)) => Ok(Kat::Test(Test::Prim(k))),
        Some(Meaning::Action(a)) => Ok(Kat::Act(a)),
        Some(Meaning::Term(i)) => copy_of_definition(alloc, scope, i),
        _ => Ok(Kat::Zero),
    }
}

impl Reading for Build<'_> {
    type Expr = Expr;

    type Cond = Cond;

    type Conds = Vec<Cond>;

    type Term = Kat;

    type Terms = Vec<Kat>;

    ghost use Rattle.std.specs.Prelude.{List};
    ghost use Rattle.kat_model.specs.Trees.{Term};
    ghost use Rattle.kat_model.specs.Expressions.{ExprTree, CondTree};

    ghost E = { ExprTree };

    ghost B = { CondTree };

    ghost L = { List CondTree };

    ghost T = { Term };

    ghost M = { List Term };

    ghost memory = { Unit {0} };

    ghost expr = { expr_tree };

    ghost cond = { cond_tree };

    ghost conds = { λ list. map cond_tree list.items };

    ghost term = { kat_tree };

    ghost terms = { λ list. map kat_tree list.items };

    ghost actions = { λ s. trees s.scope.now };

    fn number(&self, _: Context, _: usize, n: u64) -> Result<Expr, TextFault> {
        Ok(Expr::Num(n))
    }

    fn variable(&self, _: Context, _: usize, name: &str) -> Result<Expr, TextFault> {
        Ok(variable(self.scope.find(name)))
    }

    fn join(&self, operator: Operator, left: Expr, right: Expr) -> Result<Expr, TextFault> {
        Ok(join(self.alloc, operator, left, right)?)
    }

    fn enclosed_expr(&self, inside: Expr) -> Expr {
        inside
    }

    fn always(&self) -> Cond {
        Cond::True
    }

    fn never(&self) -> Cond {
        Cond::False
    }

    fn named_cond(&self, _: Context, _: usize, name: &str) -> Result<Cond, TextFault> {
        Ok(condition(self.scope.find(name)))
    }

    fn compare(&self, relation: Rel, left: Expr, right: Expr) -> Cond {
        Cond::Compare(relation, left, right)
    }

    fn negated_cond(&self, operand: Cond) -> Result<Cond, TextFault> {
        Ok(Cond::new_not(self.alloc, operand)?)
    }

    fn enclosed_cond(&self, inside: Cond) -> Cond {
        inside
    }

    fn one_cond(&self, first: Cond) -> Result<Vec<Cond>, TextFault> {
        let mut list = Vec::new(self.alloc);
        list.push(first)?;
        Ok(list)
    }

    fn more_conds(&self, mut list: Vec<Cond>, next: Cond) -> Result<Vec<Cond>, TextFault> {
        list.push(next)?;
        Ok(list)
    }

    fn all(&self, list: Vec<Cond>) -> Result<Cond, TextFault> {
        Ok(all_of(self.alloc, list)?)
    }

    fn any(&self, list: Vec<Cond>) -> Result<Cond, TextFault> {
        Ok(any_of(self.alloc, list)?)
    }

    fn zero(&self) -> Kat {
        Kat::Zero
    }

    fn one(&self) -> Kat {
        Kat::One
    }

    fn named_term(&self, _: Context, _: usize, text: &str) -> Result<Kat, TextFault> {
        Ok(name(self.alloc, self.scope, self.scope.find(text))?)
    }

    fn negated_term(&self, operand: Kat) -> Result<Kat, TextFault> {
        Ok(negated(self.alloc, operand)?)
    }

    fn tested(&self, inside: Cond) -> Result<Kat, TextFault> {
        Ok(Kat::Test(test_without_comparisons(self.alloc, inside)?))
    }

    fn enclosed_term(&self, inside: Kat) -> Kat {
        inside
    }

    fn starred(&self, _: Context, _: usize, operand: Kat) -> Result<Kat, TextFault> {
        Ok(Kat::new_star(self.alloc, operand)?)
    }

    fn one_term(&self, first: Kat) -> Result<Vec<Kat>, TextFault> {
        let mut list = Vec::new(self.alloc);
        list.push(first)?;
        Ok(list)
    }

    fn more_terms(&self, mut list: Vec<Kat>, next: Kat) -> Result<Vec<Kat>, TextFault> {
        list.push(next)?;
        Ok(list)
    }

    fn sum(&self, list: Vec<Kat>) -> Result<Kat, TextFault> {
        Ok(sum_of(self.alloc, list)?)
    }

    fn product(&self, list: Vec<Kat>) -> Result<Kat, TextFault> {
        Ok(seq_of(self.alloc, list)?)
    }
}
