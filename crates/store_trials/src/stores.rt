//! The stores on which programs are tried.
ghost use Rattle.std.specs.Prelude.{◌≡◌, ◌<◌, ◌≤◌, ◌+◌, ◌++◌, length, All, IfOk, OnOk};
ghost use Rattle.kat_model.specs.Stores.{modulus, IsStore};
ghost use Rattle.store_trials.specs.StoreLists.{nth_store, store_count, listed_stores, drawn_store, after_store, drawn_stores, all_stores};

use crate::draws::Draws;
use kat_model::{NoMemory, Width};
use std::alloc::Global;
use while_lang::Store;

/// The greatest number of stores that are listed.
pub const MAX_LISTED: u64 = 10_000;

/// The number of stores that are drawn.
pub const DRAWN_STORES: u64 = 10_000;

/// Returns a copy of a store.
pub(crate) fn copy(alloc: Global, store: &Store) -> Result<Store, NoMemory>
    ensures { IfOk result (λ s. s ≡ store.now) }
{
    Ok(Store {
        values: store.values.as_slice().to_vec(alloc)?,
    })
}

// Returns store i over the numbers.
fn nth_store(alloc: Global, numbers: &[u64], vars: usize, i: u64) -> Result<Store, NoMemory>
    requires { 0 < length numbers.now }
    ensures { IfOk result (λ s. s ≡ nth_store numbers.now vars i) }
{
    let count = numbers.len() as u64;
    let mut values = Vec::new(alloc);
    let mut rest = i;
    for _ in 0..vars {
        values.push(numbers[(rest % count) as usize])?;
        rest /= count;
    }
    Ok(Store { values })
}

// Returns the number of stores whose variables have values of a list of numbers, at most `MAX_LISTED`.
fn store_count(numbers: usize, vars: usize) -> u64
    ensures number { result ≡ store_count numbers vars }
    ensures limit { result ≤ MAX_LISTED }
{
    let mut count = 1;
    for _ in 0..vars {
        count = MAX_LISTED.min((numbers as u64).saturating_mul(count));
    }
    count
}

// Returns the stores over the numbers.
fn listed_stores(alloc: Global, numbers: &[u64], vars: usize) -> Result<Vec<Store>, NoMemory>
    requires { 0 < length numbers.now }
    ensures { IfOk result (λ v. v.items ≡ listed_stores numbers.now vars) }
{
    let mut stores = Vec::new(alloc);
    for i in 0..store_count(numbers.len(), vars) {
        stores.push(nth_store(alloc, numbers, vars, i)?)?;
    }
    Ok(stores)
}

// Draws a store.
fn draw_store(
    alloc: Global,
    width: Width,
    numbers: &[u64],
    vars: usize,
    draws: &mut Draws,
) -> Result<Store, NoMemory>
    requires { 0 < length numbers.now }
    ensures store { IfOk result (λ s. s ≡ drawn_store width numbers.now vars draws.old.state) }
    ensures state { OnOk result (draws.new.state ≡ after_store vars draws.old.state) }
{
    let mut values = Vec::new(alloc);
    for _ in 0..vars {
        values.push(draws.value(width, numbers))?;
    }
    Ok(Store { values })
}

// Draws the stores and appends them.
fn add_drawn(
    alloc: Global,
    width: Width,
    numbers: &[u64],
    vars: usize,
    stores: &mut Vec<Store>,
) -> Result<(), NoMemory>
    requires { 0 < length numbers.now }
    ensures { OnOk result (stores.new.items ≡ stores.old.items ++ drawn_stores width numbers.now vars DRAWN_STORES 0) }
{
    let mut draws = Draws::new();
    for _ in 0..DRAWN_STORES {
        stores.push(draw_store(alloc, width, numbers, vars, &mut draws)?)?;
    }
    Ok(())
}

/// Returns the stores on which programs over `vars` variables are tried: all stores over the numbers, in the order of
/// their digits with variable 0 first, as far as `MAX_LISTED`, and then `DRAWN_STORES` that are drawn. Fails only when
/// out of memory.
pub fn all_stores(
    alloc: Global,
    width: Width,
    numbers: &[u64],
    vars: usize,
) -> Result<Vec<Store>, NoMemory>
    requires some { 0 < length numbers.now }
    requires within { All (λ n. n < modulus width) numbers.now }
    ensures stores { IfOk result (λ v. v.items ≡ all_stores width numbers.now vars) }
    ensures within { IfOk result (λ v. All (λ s. (length s ≡ vars) × IsStore width s) v.items) }
    ensures few { IfOk result (λ v. length v.items ≤ MAX_LISTED + DRAWN_STORES) }
{
    let mut stores = listed_stores(alloc, numbers, vars)?;
    add_drawn(alloc, width, numbers, vars, &mut stores)?;
    Ok(stores)
}
