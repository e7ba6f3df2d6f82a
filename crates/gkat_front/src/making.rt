//! Builds the expressions of a text.
ghost use Rattle.std.specs.Prelude.{◌≡◌};
ghost use Rattle.text_parser.specs.Parsed.{Makes};
ghost use Rattle.kat_model.specs.Trees.{test_tree};
ghost use Rattle.gkat_front.specs.Expressions.{gkat_tree};
ghost use Rattle.gkat_front.specs.GkatMaking.{named_by, making_expr};

use crate::gkat::Gkat;
use crate::gkat_reading::GkatReading;
use crate::products::gkat_product;
use kat_model::{Test, test_without_comparisons};
use std::alloc::Global;
use text_parser::{Meaning, Scope, TextFault, Token, build_cond, measure_cond};

// Builds the tree of an expression, with the names of the scope.
#[derive(Clone, Copy)]
pub(crate) struct MakeExpr<'a> {
    pub(crate) alloc: Global,
    pub(crate) scope: &'a Scope,
}

fn named_by(at: usize, found: Option<Meaning>) -> Result<Gkat, TextFault>
    ensures { Makes ⊥ gkat_tree result (named_by at found) }
{
    match found {
        None => Err(TextFault::UnknownName(at)),
        Some(Meaning::Test(k)) => Ok(Gkat::Test(Test::Prim(k))),
        Some(Meaning::Action(a)) => Ok(Gkat::Act(a)),
        Some(_) => Err(TextFault::Sort(at)),
    }
}

impl GkatReading for MakeExpr<'_> {
    type Guard = Test;

    type Factors = Vec<Gkat>;

    type Expr = Gkat;

    ghost use Rattle.std.specs.Prelude.{List, map};
    ghost use Rattle.kat_model.specs.Trees.{TestTree};
    ghost use Rattle.gkat_front.specs.Expressions.{GkatTree};

    ghost C = { TestTree };

    ghost P = { List GkatTree };

    ghost V = { GkatTree };

    ghost memory = { Unit {0} };

    ghost guard = { test_tree };

    ghost factors = { λ p. map gkat_tree p.items };

    ghost expr = { gkat_tree };

    ghost actions = { λ s. making_expr s.scope.now };

    fn read_cond(
        &self,
        toks: &[Token],
        from: usize,
        depth: usize,
    ) -> Result<(Test, usize), TextFault> {
        measure_cond(toks, from, depth, self.scope, false)?;
        let (cond, end) = build_cond(self.alloc, toks, from, depth, self.scope, false)?;
        Ok((test_without_comparisons(self.alloc, cond)?, end))
    }

    fn never(&self) -> Gkat {
        Gkat::Test(Test::False)
    }

    fn always(&self) -> Gkat {
        Gkat::Test(Test::True)
    }

    fn named(&self, at: usize, name: &str) -> Result<Gkat, TextFault> {
        named_by(at, self.scope.find(name))
    }

    fn tested(&self, cond: Test) -> Gkat {
        Gkat::Test(cond)
    }

    fn first(&self, only: Gkat) -> Result<Vec<Gkat>, TextFault> {
        let mut list = Vec::new(self.alloc);
        list.push(only)?;
        Ok(list)
    }

    fn more(&self, mut list: Vec<Gkat>, next: Gkat) -> Result<Vec<Gkat>, TextFault> {
        list.push(next)?;
        Ok(list)
    }

    fn product(&self, list: Vec<Gkat>) -> Result<Gkat, TextFault> {
        Ok(gkat_product(self.alloc, list)?)
    }

    fn choice(&self, cond: Test, left: Gkat, right: Gkat) -> Result<Gkat, TextFault> {
        Ok(Gkat::new_choice(self.alloc, cond, left, right)?)
    }

    fn repeat(&self, cond: Test, body: Gkat) -> Result<Gkat, TextFault> {
        Ok(Gkat::new_loop(self.alloc, cond, body)?)
    }
}
