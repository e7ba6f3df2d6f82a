//! Square matrices of truth values.
ghost use Rattle.std.specs.Prelude.{◌≡◌, ◌≢◌, ◌<◌, ◌≤◌, ◌&&◌, ◌||◌, eqb, ℕ, false, true, length, replicate, slice_index_or, slice_set, IfOk};
ghost use Rattle.string_tables.specs.Working.Matrices.{row_at, entry};

use kat_model::NoMemory;
use std::alloc::Global;
use std::marker::Model;

/// One row of a matrix.
#[derive(Drop)]
pub(crate) struct Row {
    values: Vec<bool>,
}

impl Model for Row {
    ghost use Rattle.std.specs.Prelude.{List, Bool};

    ghost Value = { List Bool };

    ghost view = { λ r. r.values.items };
}

impl Row {
    /// Returns a row of n entries that are false.
    pub(crate) fn new(alloc: Global, n: usize) -> Result<Row, NoMemory>
        ensures { IfOk result (λ r. r ≡ replicate n false) }
    {
        Ok(Row {
            values: vec![in alloc; false; n]?,
        })
    }

    pub(crate) fn at(&self, j: usize) -> bool
        requires { j < length self.now }
        ensures { result ≡ slice_index_or self.now j false }
    {
        self.values[j]
    }

    pub(crate) fn mark(&mut self, j: usize)
        requires { j < length self.old }
        ensures { self.new ≡ slice_set self.old j true }
    {
        self.values[j] = true;
    }

    pub(crate) fn unmark(&mut self, j: usize)
        requires { j < length self.old }
        ensures { self.new ≡ slice_set self.old j false }
    {
        self.values[j] = false;
    }

    /// Makes the first n entries false.
    pub(crate) fn clear(&mut self, n: usize)
        requires { n ≤ length self.old }
        ensures cleared { (j : ℕ) → j < n → slice_index_or self.new j false ≡ false }
        ensures width { length self.new ≡ length self.old }
    {
        for j in 0..n {
            self.values[j] = false;
        }
    }

    /// Copies the first n entries of the other row.
    pub(crate) fn copy_from(&mut self, other: &Row, n: usize)
        requires own { n ≤ length self.old }
        requires others { n ≤ length other.now }
        ensures copied { (j : ℕ) → j < n → slice_index_or self.new j false ≡ slice_index_or other.now j false }
        ensures width { length self.new ≡ length self.old }
    {
        copy_values(&mut self.values, &other.values, n);
    }

    /// Makes each of the first n entries true that is true in the other row.
    pub(crate) fn join(&mut self, other: &Row, n: usize)
        requires own { n ≤ length self.old }
        requires others { n ≤ length other.now }
        ensures joined { (j : ℕ) → j < n → slice_index_or self.new j false ≡ (slice_index_or self.old j false || slice_index_or other.now j false) }
        ensures width { length self.new ≡ length self.old }
    {
        join_values(&mut self.values, &other.values, n);
    }
}

// Copies the first n values of the other list.
fn copy_values(own: &mut [bool], other: &[bool], n: usize)
    requires own { n ≤ length own.old }
    requires others { n ≤ length other.now }
    ensures copied { (j : ℕ) → j < n → slice_index_or own.new j false ≡ slice_index_or other.now j false }
    ensures width { length own.new ≡ length own.old }
{
    own[..n].copy_from_slice(&other[..n]);
}

// Makes each of the first n values true that is true in the other list.
fn join_values(own: &mut [bool], other: &[bool], n: usize)
    requires own { n ≤ length own.old }
    requires others { n ≤ length other.now }
    ensures joined { (j : ℕ) → j < n → slice_index_or own.new j false ≡ (slice_index_or own.old j false || slice_index_or other.now j false) }
    ensures width { length own.new ≡ length own.old }
{
    for j in 0..n {
        own[j] |= other[j];
    }
}

/// A square matrix.
#[derive(Drop)]
pub(crate) struct Matrix {
    size: usize,
    rows: Vec<Row>,
}

impl Model for Matrix {
    ghost use Rattle.string_tables.specs.Working.Matrices.{Square, IsSquare};

    ghost Value = { Square };

    ghost view = { λ m. record { size = m.size; rows = m.rows.items } };

    ghost invariant = { λ m. IsSquare (record { size = m.size; rows = m.rows.items }) };
}

impl Matrix {
    pub(crate) fn new(alloc: Global, size: usize) -> Result<Matrix, NoMemory>
        ensures { IfOk result (λ m. m.size ≡ size) }
    {
        let mut rows = Vec::new(alloc);
        for _ in 0..size {
            rows.push(Row::new(alloc, size)?)?;
        }
        Ok(Matrix { size, rows })
    }

    pub(crate) fn at(&self, i: usize, j: usize) -> bool
        requires row { i < self.now.size }
        requires column { j < self.now.size }
        ensures { result ≡ entry self.now i j }
    {
        self.rows[i].at(j)
    }

    pub(crate) fn row(&self, i: usize) -> &Row
        requires { i < self.now.size }
        ensures value { result.now ≡ row_at self.now.rows i }
        ensures width { length result.now ≡ self.now.size }
    {
        &self.rows[i]
    }

    /// Makes one entry true.
    pub(crate) fn mark(&mut self, i: usize, j: usize)
        requires row { i < self.old.size }
        requires column { j < self.old.size }
        ensures marked { (a b : ℕ) → entry self.new a b ≡ (entry self.old a b || (eqb a i && eqb b j)) }
        ensures size { self.new.size ≡ self.old.size }
    {
        let row = &mut self.rows[i];
        row.mark(j);
    }

    /// Makes the first n entries of the first n rows false.
    pub(crate) fn clear(&mut self, n: usize)
        requires { n ≤ self.old.size }
        ensures cleared { (i j : ℕ) → i < n → j < n → entry self.new i j ≡ false }
        ensures size { self.new.size ≡ self.old.size }
    {
        for i in 0..n {
            let row = &mut self.rows[i];
            row.clear(n);
        }
    }

    /// Copies the first n entries of the other row to row i.
    pub(crate) fn put_row(&mut self, i: usize, other: &Row, n: usize)
        requires row { i < self.old.size }
        requires own { n ≤ self.old.size }
        requires others { n ≤ length other.now }
        ensures here { (j : ℕ) → j < n → entry self.new i j ≡ slice_index_or other.now j false }
        ensures elsewhere { (a j : ℕ) → a ≢ i → entry self.new a j ≡ entry self.old a j }
        ensures size { self.new.size ≡ self.old.size }
    {
        let row = &mut self.rows[i];
        row.copy_from(other, n);
    }

    /// Makes each of the first n entries of row i true that is true in the other row.
    pub(crate) fn join_row(&mut self, i: usize, other: &Row, n: usize)
        requires row { i < self.old.size }
        requires own { n ≤ self.old.size }
        requires others { n ≤ length other.now }
        ensures here { (j : ℕ) → j < n → entry self.new i j ≡ (entry self.old i j || slice_index_or other.now j false) }
        ensures elsewhere { (a j : ℕ) → a ≢ i → entry self.new a j ≡ entry self.old a j }
        ensures size { self.new.size ≡ self.old.size }
    {
        let row = &mut self.rows[i];
        row.join(other, n);
    }
}
