//! Matrices of relations: the identity, and unions, products and closures.
ghost use Rattle.std.specs.Prelude.{◌≡◌, ◌<◌, ◌≤◌, ◌&&◌, ◌||◌, eqb, ℕ, false, length, slice_index_or};
ghost use Rattle.kat_model.specs.Working.Decided.{some_below, warshall};
ghost use Rattle.string_tables.specs.Working.Matrices.{row_at, entry, Represents};

use crate::matrix::{Matrix, Row};

/// Makes the diagonal entries true.
fn mark_diagonal(m: &mut Matrix, n: usize)
    requires { n ≤ m.old.size }
    ensures marked { Represents n m.new (λ i j. eqb i j || entry m.old i j) }
    ensures size { m.new.size ≡ m.old.size }
{
    for i in 0..n {
        m.mark(i, i);
    }
}

/// Sets the matrix to the identity relation.
pub(crate) fn put_identity(m: &mut Matrix, n: usize)
    requires { n ≤ m.old.size }
    ensures given { Represents n m.new (λ i j. eqb i j) }
    ensures size { m.new.size ≡ m.old.size }
{
    m.clear(n);
    mark_diagonal(m, n);
}

/// Joins another relation to the matrix.
pub(crate) fn join(m: &mut Matrix, other: &Matrix, n: usize)
    requires own { n ≤ m.old.size }
    requires others { n ≤ other.now.size }
    ensures given { Represents n m.new (λ i j. entry m.old i j || entry other.now i j) }
    ensures size { m.new.size ≡ m.old.size }
{
    for i in 0..n {
        m.join_row(i, other.row(i), n);
    }
}

/// Sets `to` to one row of a product: the union of the rows of `right` that `row` names.
pub(crate) fn row_product(row: &Row, right: &Matrix, to: &mut Row, n: usize)
    requires row { n ≤ length row.now }
    requires right { n ≤ right.now.size }
    requires to { n ≤ length to.old }
    ensures given { (j : ℕ) → j < n → slice_index_or to.new j false ≡ some_below (λ k. slice_index_or row.now k false && entry right.now k j) n }
    ensures width { length to.new ≡ length to.old }
{
    to.clear(n);
    for k in 0..n {
        if row.at(k) {
            to.join(right.row(k), n);
        }
    }
}

/// Multiplies the matrix by another relation.
pub(crate) fn multiply(m: &mut Matrix, other: &Matrix, spare: &mut Row, n: usize)
    requires own { n ≤ m.old.size }
    requires others { n ≤ other.now.size }
    requires spare { n ≤ length spare.old }
    ensures given { Represents n m.new (λ i j. some_below (λ k. entry m.old i k && entry other.now k j) n) }
    ensures size { m.new.size ≡ m.old.size }
    ensures width { length spare.new ≡ length spare.old }
{
    for i in 0..n {
        row_product(m.row(i), other, spare, n);
        m.put_row(i, spare, n);
    }
}

// Joins row k to each row that relates its number to k.
fn join_through(m: &mut Matrix, k: usize, spare: &mut Row, n: usize)
    requires within { k < n }
    requires own { n ≤ m.old.size }
    requires spare { n ≤ length spare.old }
    ensures given { Represents n m.new (λ i j. entry m.old i j || (entry m.old i k && entry m.old k j)) }
    ensures size { m.new.size ≡ m.old.size }
    ensures width { length spare.new ≡ length spare.old }
{
    spare.copy_from(m.row(k), n);
    for i in 0..n {
        if m.at(i, k) {
            m.join_row(i, spare, n);
        }
    }
}

/// Sets the matrix to its reflexive and transitive closure, by Warshall's steps.
pub(crate) fn close(m: &mut Matrix, spare: &mut Row, n: usize)
    requires own { n ≤ m.old.size }
    requires spare { n ≤ length spare.old }
    ensures given { Represents n m.new (warshall (entry m.old) n) }
    ensures size { m.new.size ≡ m.old.size }
    ensures width { length spare.new ≡ length spare.old }
{
    mark_diagonal(m, n);
    for k in 0..n {
        join_through(m, k, spare, n);
    }
}
