//! Balanced products of expressions.
ghost use Rattle.std.specs.Prelude.{◌≡◌, ◌-◌, ◌≤◌, map, take, drop, IfOk, vec_len};
ghost use Rattle.gkat_front.specs.Expressions.{gkat_tree, gkat_product};

use crate::gkat::Gkat;
use kat_model::{NoMemory, Test};
use std::alloc::Global;

// Builds the product of the last members of a list, and removes them from the list.
fn product_of_last(alloc: Global, list: &mut Vec<Gkat>, count: usize) -> Result<Gkat, NoMemory>
    requires { count ≤ vec_len list.old }
    ensures left { IfOk result (λ _. list.new.items ≡ take (vec_len list.old - count) list.old.items) }
    ensures tree { IfOk result (λ e. gkat_tree e ≡ gkat_product (map gkat_tree (drop (vec_len list.old - count) list.old.items))) }
{
    if count == 0 {
        return Ok(Gkat::Test(Test::True));
    }
    if count == 1 {
        return match list.pop() {
            Some(expr) => Ok(expr),
            None => Ok(Gkat::Test(Test::True)),
        };
    }
    let second = product_of_last(alloc, list, count - count / 2)?;
    let first = product_of_last(alloc, list, count / 2)?;
    Gkat::new_seq(alloc, first, second)
}

/// Builds the balanced product of expressions in order: the test 1 for none, the expression itself for one, and
/// otherwise the product of the tree of the first half, rounded down, and that of the rest. Fails only when out of
/// memory; the expressions are then dropped.
pub(crate) fn gkat_product(alloc: Global, mut list: Vec<Gkat>) -> Result<Gkat, NoMemory>
    ensures { IfOk result (λ e. gkat_tree e ≡ gkat_product (map gkat_tree list.items)) }
{
    let count = list.len();
    product_of_last(alloc, &mut list, count)
}
