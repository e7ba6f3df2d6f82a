//! Balanced trees over a list: sums and products of terms, and that some or all conditions hold.
ghost use Rattle.std.specs.Prelude.{◌≡◌, ◌-◌, ◌≤◌, map, take, drop, IfOk, vec_len};
ghost use Rattle.kat_model.specs.Trees.{kat_tree};
ghost use Rattle.kat_model.specs.Expressions.{cond_tree, any_of as any_tree, all_of as all_tree};
ghost use Rattle.kat_model.specs.Balanced.{balanced, sum_of as sum_tree, product_of};

use crate::expression::Cond;
use crate::tree::{Kat, NoMemory};
use std::alloc::Global;

// How to build one tree from the members of a list.
trait Joint {
    type Tree: Drop;

    // The value of a tree in contracts.
    ghost View: { Type 0 };

    ghost view: { Self.Tree → View };

    ghost unit: { View };

    ghost node: { View → View → View };

    // Returns the tree of the empty list.
    fn unit() -> Self::Tree
        ensures { view result ≡ unit };

    // Returns the node over the trees of two lists.
    fn node(alloc: Global, left: Self::Tree, right: Self::Tree) -> Result<Self::Tree, NoMemory>
        ensures { IfOk result (λ e. view e ≡ node (view left) (view right)) };
}

struct Sum;

struct Product;

struct Any;

struct All;

impl Joint for Sum {
    type Tree = Kat;

    ghost use Rattle.kat_model.specs.Trees.{Term, zero, sum};

    ghost View = { Term };

    ghost view = { kat_tree };

    ghost unit = { zero };

    ghost node = { sum };

    fn unit() -> Kat {
        Kat::Zero
    }

    fn node(alloc: Global, left: Kat, right: Kat) -> Result<Kat, NoMemory> {
        Kat::new_sum(alloc, left, right)
    }
}

impl Joint for Product {
    type Tree = Kat;

    ghost use Rattle.kat_model.specs.Trees.{Term, one, product};

    ghost View = { Term };

    ghost view = { kat_tree };

    ghost unit = { one };

    ghost node = { product };

    fn unit() -> Kat {
        Kat::One
    }

    fn node(alloc: Global, left: Kat, right: Kat) -> Result<Kat, NoMemory> {
        Kat::new_seq(alloc, left, right)
    }
}

impl Joint for Any {
    type Tree = Cond;

    ghost use Rattle.kat_model.specs.Expressions.{CondTree, never, either};

    ghost View = { CondTree };

    ghost view = { cond_tree };

    ghost unit = { never };

    ghost node = { either };

    fn unit() -> Cond {
        Cond::False
    }

    fn node(alloc: Global, left: Cond, right: Cond) -> Result<Cond, NoMemory> {
        Cond::new_or(alloc, left, right)
    }
}

impl Joint for All {
    type Tree = Cond;

    ghost use Rattle.kat_model.specs.Expressions.{CondTree, always, both};

    ghost View = { CondTree };

    ghost view = { cond_tree };

    ghost unit = { always };

    ghost node = { both };

    fn unit() -> Cond {
        Cond::True
    }

    fn node(alloc: Global, left: Cond, right: Cond) -> Result<Cond, NoMemory> {
        Cond::new_and(alloc, left, right)
    }
}

// Takes the last `count` members from the list, and returns their tree.
fn tree_of_last<J: Joint>(
    alloc: Global,
    list: &mut Vec<J::Tree>,
    count: usize,
) -> Result<J::Tree, NoMemory>
    requires { count ≤ vec_len list.old }
    ensures left { IfOk result (λ _. list.new.items ≡ take (vec_len list.old - count) list.old.items) }
    ensures tree { IfOk result (λ e. J.view e
        ≡ balanced J.unit J.node (map J.view (drop (vec_len list.old - count) list.old.items))) }
{
    if count == 0 {
        return Ok(J::unit());
    }
    if count == 1 {
        return match list.pop() {
            Some(tree) => Ok(tree),
            None => Ok(J::unit()),
        };
    }
    let right = tree_of_last::<J>(alloc, list, count - count / 2)?;
    let left = tree_of_last::<J>(alloc, list, count / 2)?;
    J::node(alloc, left, right)
}

fn tree_of<J: Joint>(alloc: Global, mut list: Vec<J::Tree>) -> Result<J::Tree, NoMemory>
    ensures { IfOk result (λ e. J.view e ≡ balanced J.unit J.node (map J.view list.items)) }
{
    let count = list.len();
    tree_of_last::<J>(alloc, &mut list, count)
}

/// Returns the balanced sum of a list of terms: `Zero` for no term, the term itself for one, and otherwise the sum of
/// the tree of the first half, rounded down, and the tree of the rest. Fails only when out of memory; the terms are
/// dropped then.
pub fn sum_of(alloc: Global, list: Vec<Kat>) -> Result<Kat, NoMemory>
    ensures { IfOk result (λ e. kat_tree e ≡ sum_tree (map kat_tree list.items)) }
{
    tree_of::<Sum>(alloc, list)
}

/// Returns the balanced product of a list of terms in order, built like the sum, with `One` for no term.
pub fn seq_of(alloc: Global, list: Vec<Kat>) -> Result<Kat, NoMemory>
    ensures { IfOk result (λ e. kat_tree e ≡ product_of (map kat_tree list.items)) }
{
    tree_of::<Product>(alloc, list)
}

/// Returns the balanced disjunction of a list of conditions: `False` for no condition, the condition itself for one,
/// and otherwise `Or` over the tree of the first half, rounded down, and the tree of the rest. Fails only when out of
/// memory; the conditions are dropped then.
pub fn any_of(alloc: Global, list: Vec<Cond>) -> Result<Cond, NoMemory>
    ensures { IfOk result (λ b. cond_tree b ≡ any_tree (map cond_tree list.items)) }
{
    tree_of::<Any>(alloc, list)
}

/// Returns the balanced conjunction of a list of conditions in order, built like the disjunction, with `True` for no
/// condition.
pub fn all_of(alloc: Global, list: Vec<Cond>) -> Result<Cond, NoMemory>
    ensures { IfOk result (λ b. cond_tree b ≡ all_tree (map cond_tree list.items)) }
{
    tree_of::<All>(alloc, list)
}
