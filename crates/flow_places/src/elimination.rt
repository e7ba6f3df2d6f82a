//! Elimination of places (Kleene 1956): the term of the paths through a graph, from the terms between its places.
ghost use Rattle.std.specs.Prelude.{◌≡◌, ◌-◌, [], map, IfOk};
ghost use Rattle.kat_model.specs.Trees.{kat_tree};
ghost use Rattle.flow_places.specs.Elimination.{is_nought, is_unit, plus, times, repeated};
ghost use Rattle.flow_places.specs.Rows.{row_tree, row_without, rows_without, first_step, later_steps};
ghost use Rattle.flow_places.specs.Working.Steps.{with_way_over, steps_over, rows_over, AddsTerms, AddsRows};

use kat_model::{Kat, NoMemory};
use std::alloc::Global;

/// The terms from a place: to each place, the last one first, and to the end.
#[derive(Drop)]
pub struct Row {
    pub steps: Vec<Kat>,
    pub end: Kat,
}

pub(crate) fn is_zero(term: &Kat) -> bool
    ensures { result ≡ is_nought (kat_tree term.now) }
{
    match term {
        Kat::Zero => true,
        Kat::One | Kat::Test(_) | Kat::Act(_) => false,
        Kat::Sum(_, _) | Kat::Seq(_, _) | Kat::Star(_) => false,
    }
}

pub(crate) fn is_one(term: &Kat) -> bool
    ensures { result ≡ is_unit (kat_tree term.now) }
{
    match term {
        Kat::One => true,
        Kat::Zero | Kat::Test(_) | Kat::Act(_) => false,
        Kat::Sum(_, _) | Kat::Seq(_, _) | Kat::Star(_) => false,
    }
}

/// Returns the sum of two terms; what adds 0 is left out. Fails only when out of memory.
pub fn plus(alloc: Global, left: Kat, right: Kat) -> Result<Kat, NoMemory>
    ensures { IfOk result (λ e. kat_tree e ≡ plus (kat_tree left) (kat_tree right)) }
{
    if is_zero(&left) {
        return Ok(right);
    }
    if is_zero(&right) {
        return Ok(left);
    }
    Kat::new_sum(alloc, left, right)
}

/// Returns the product of two terms; what multiplies by 0 or 1 is left out. Fails only when out of memory.
pub fn times(alloc: Global, first: Kat, second: Kat) -> Result<Kat, NoMemory>
    ensures { IfOk result (λ e. kat_tree e ≡ times (kat_tree first) (kat_tree second)) }
{
    if is_zero(&first) || is_zero(&second) {
        return Ok(Kat::Zero);
    }
    if is_one(&first) {
        return Ok(second);
    }
    if is_one(&second) {
        return Ok(first);
    }
    Kat::new_seq(alloc, first, second)
}

/// Returns the star of a term, or 1 for 0. Fails only when out of memory.
pub fn repeated(alloc: Global, term: Kat) -> Result<Kat, NoMemory>
    ensures { IfOk result (λ e. kat_tree e ≡ repeated (kat_tree term)) }
{
    if is_zero(&term) {
        return Ok(Kat::One);
    }
    Kat::new_star(alloc, term)
}

// Returns a term with the way to a place, around it and on.
fn with_way(alloc: Global, own: &Kat, to: &Kat, around: &Kat, onward: &Kat) -> Result<Kat, NoMemory>
    ensures { IfOk result (λ e. kat_tree e ≡ with_way_over own.now to.now around.now onward.now) }
{
    let back = times(alloc, around.copy(alloc)?, onward.copy(alloc)?)?;
    let way = times(alloc, to.copy(alloc)?, back)?;
    plus(alloc, own.copy(alloc)?, way)
}

// Appends each of the terms with the way to a place, around it and on.
fn push_steps(
    alloc: Global,
    own: &[Kat],
    to: &Kat,
    around: &Kat,
    onward: &[Kat],
    list: &mut Vec<Kat>,
) -> Result<(), NoMemory>
    ensures { AddsTerms result list.old list.new (steps_over to.now around.now own.now onward.now) }
{
    match own {
        [] => Ok(()),
        [term, terms @ ..] => match onward {
            [] => Ok(()),
            [next, others @ ..] => {
                list.push(with_way(alloc, term, to, around, next)?)?;
                push_steps(alloc, terms, to, around, others, list)
            }
        },
    }
}

// The step to the last place, or 0.
pub(crate) fn first_step(alloc: Global, steps: &[Kat]) -> Result<Kat, NoMemory>
    ensures { IfOk result (λ e. kat_tree e ≡ first_step (map kat_tree steps.now)) }
{
    match steps {
        [first, ..] => first.copy(alloc),
        [] => Ok(Kat::Zero),
    }
}

// The steps to the other places.
pub(crate) fn later_steps(steps: &[Kat]) -> &[Kat]
    ensures { map kat_tree result.now ≡ later_steps (map kat_tree steps.now) }
{
    match steps {
        [_, later @ ..] => later,
        [] => steps,
    }
}

// Returns a row without the last place, whose row and star are given.
fn row_without(alloc: Global, last: &Row, around: &Kat, row: &Row) -> Result<Row, NoMemory>
    requires { kat_tree around.now ≡ repeated (first_step (map kat_tree last.now.steps.items)) }
    ensures { IfOk result (λ r. row_tree r ≡ row_without (row_tree last.now) (row_tree row.now)) }
{
    let to = first_step(alloc, &row.steps)?;
    let mut steps = Vec::new(alloc);
    push_steps(
        alloc,
        later_steps(&row.steps),
        &to,
        around,
        later_steps(&last.steps),
        &mut steps,
    )?;
    let end = with_way(alloc, &row.end, &to, around, &last.end)?;
    Ok(Row { steps, end })
}

// Appends rows without the last place.
fn push_rows(
    alloc: Global,
    last: &Row,
    around: &Kat,
    rows: &[Row],
    list: &mut Vec<Row>,
) -> Result<(), NoMemory>
    requires { kat_tree around.now ≡ repeated (first_step (map kat_tree last.now.steps.items)) }
    ensures { AddsRows result list.old list.new (rows_over last.now rows.now) }
{
    for row in rows {
        list.push(row_without(alloc, last, around, row)?)?;
    }
    Ok(())
}

// Returns the rows without the last place, which is the first one.
pub(crate) fn rows_without(alloc: Global, rows: &[Row]) -> Result<Vec<Row>, NoMemory>
    ensures { IfOk result (λ v. map row_tree v.items ≡ rows_without (map row_tree rows.now)) }
{
    let mut list = Vec::new(alloc);
    let [last, others @ ..] = rows else {
        return Ok(list);
    };
    let around = repeated(alloc, first_step(alloc, &last.steps)?)?;
    push_rows(alloc, last, &around, others, &mut list)?;
    Ok(list)
}
