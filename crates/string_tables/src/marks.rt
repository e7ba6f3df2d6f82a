//! The places of a term that a string has come to, as marks of its actions (positions: Glushkov 1961), and the step from
//! one atom to the next. The marks are a tree beside the term, changed in place: a part without marks costs nothing unless
//! it begins.
ghost use Rattle.std.specs.Prelude.{◌≡◌, cond, length, IfOk, OnOk};
ghost use Rattle.kat_model.specs.Trees.{kat_tree};
ghost use Rattle.kat_model.specs.Problems.{HasTestsBelow};
ghost use Rattle.string_tables.specs.Working.Marks.{nowhere, here, both, mark_tree, is_nowhere as is_nowhere', is_here as is_here', left, right, joined, paired, reached, moved};

use kat_model::{Kat, NoMemory};
use std::alloc::Global;

/// Which actions of a term are marked: none, the action itself, or some in the parts of a sum or product. A star has the
/// marks of its body.
pub(crate) enum Marks {
    Nowhere,
    Here,
    Both(Box<Marks>, Box<Marks>),
}

// Explicit, so that it is proved once and not at each end of each function that owns marks.
impl Drop for Marks {
    fn drop(self) {
        match self {
            Marks::Nowhere => {}
            Marks::Here => {}
            Marks::Both(_first, _second) => {}
        }
    }
}

// Whether no action is marked.
fn is_nowhere(marks: &Marks) -> bool
    ensures { result ≡ is_nowhere' (mark_tree marks.now) }
{
    match marks {
        Marks::Nowhere => true,
        Marks::Here | Marks::Both(_, _) => false,
    }
}

// Whether the term is an action that is marked.
fn is_here(marks: &Marks) -> bool
    ensures { result ≡ is_here' (mark_tree marks.now) }
{
    match marks {
        Marks::Here => true,
        Marks::Nowhere | Marks::Both(_, _) => false,
    }
}

// Returns the mark of an action if `is` is set.
fn mark_if(is: bool) -> Marks
    ensures { mark_tree result ≡ cond is here nowhere }
{
    if is { Marks::Here } else { Marks::Nowhere }
}

// Returns the marks of the first part, or `none`.
fn left_of<'a>(marks: &'a Marks, none: &'a Marks) -> &'a Marks
    requires { mark_tree none.now ≡ nowhere }
    ensures { mark_tree result.now ≡ left (mark_tree marks.now) }
{
    match marks {
        Marks::Both(first, _) => first,
        Marks::Nowhere | Marks::Here => none,
    }
}

// Returns the marks of the second part, or `none`.
fn right_of<'a>(marks: &'a Marks, none: &'a Marks) -> &'a Marks
    requires { mark_tree none.now ≡ nowhere }
    ensures { mark_tree result.now ≡ right (mark_tree marks.now) }
{
    match marks {
        Marks::Both(_, second) => second,
        Marks::Nowhere | Marks::Here => none,
    }
}

// Returns the marks of a sum or product from those of its parts.
fn join(alloc: Global, first: Marks, second: Marks) -> Result<Marks, NoMemory>
    ensures { IfOk result (λ m. mark_tree m ≡ joined (mark_tree first) (mark_tree second)) }
{
    if is_nowhere(&first) && is_nowhere(&second) {
        return Ok(Marks::Nowhere);
    }
    let first = Box::new(alloc, first)?;
    let second = Box::new(alloc, second)?;
    Ok(Marks::Both(first, second))
}

/// Returns whether the end of the term is reached at the atom, from its marks or, with `begins`, from its beginning.
pub(crate) fn reach(term: &Kat, marks: &Marks, begins: bool, atom: &[bool]) -> bool
    requires { HasTestsBelow (length atom.now) (kat_tree term.now) }
    ensures { result ≡ reached (kat_tree term.now) (mark_tree marks.now) begins atom.now }
{
    if !begins && is_nowhere(marks) {
        return false;
    }
    let none = Marks::Nowhere;
    match term {
        Kat::Zero => false,
        Kat::One => begins,
        Kat::Test(b) => begins && b.truth_at(atom),
        Kat::Act(_) => is_here(marks),
        Kat::Sum(e, f) => {
            let first = reach(e, left_of(marks, &none), begins, atom);
            let second = reach(f, right_of(marks, &none), begins, atom);
            first || second
        }
        Kat::Seq(e, f) => {
            let between = reach(e, left_of(marks, &none), begins, atom);
            reach(f, right_of(marks, &none), between, atom)
        }
        Kat::Star(e) => begins || reach(e, marks, false, atom),
    }
}

/// Changes the marks by a move by the action from the atom. Returns whether the end of the term is reached at the atom.
#[cycle(steps)]
pub(crate) fn step(
    alloc: Global,
    term: &Kat,
    marks: &mut Marks,
    begins: bool,
    atom: &[bool],
    act: usize,
) -> Result<bool, NoMemory>
    requires { HasTestsBelow (length atom.now) (kat_tree term.now) }
    ensures end { IfOk result (λ is. is ≡ reached (kat_tree term.now) (mark_tree marks.old) begins atom.now) }
    ensures marks { OnOk result (mark_tree marks.new ≡ moved (kat_tree term.now) (mark_tree marks.old) begins atom.now act) }
{
    if !begins && is_nowhere(marks) {
        return Ok(false);
    }
    match term {
        Kat::Zero | Kat::One | Kat::Test(_) => {
            let ends = reach(term, marks, begins, atom);
            *marks = Marks::Nowhere;
            Ok(ends)
        }
        Kat::Act(own) => {
            let was = is_here(marks);
            *marks = mark_if(begins && act == *own);
            Ok(was)
        }
        Kat::Sum(e, f) => step_parts(alloc, e, f, false, marks, begins, atom, act),
        Kat::Seq(e, f) => step_parts(alloc, e, f, true, marks, begins, atom, act),
        Kat::Star(e) => {
            let starts = begins || reach(e, marks, false, atom);
            step(alloc, e, marks, starts, atom, act)?;
            Ok(starts)
        }
    }
}

// The same for the product of the terms if `chained` is set, and for their sum if not.
#[cycle(steps)]
fn step_parts(
    alloc: Global,
    e: &Kat,
    f: &Kat,
    chained: bool,
    marks: &mut Marks,
    begins: bool,
    atom: &[bool],
    act: usize,
) -> Result<bool, NoMemory>
    requires first { HasTestsBelow (length atom.now) (kat_tree e.now) }
    requires second { HasTestsBelow (length atom.now) (kat_tree f.now) }
    ensures end { IfOk result (λ is. is ≡ reached (paired chained (kat_tree e.now) (kat_tree f.now)) (mark_tree marks.old) begins atom.now) }
    ensures marks { OnOk result (mark_tree marks.new ≡ moved (paired chained (kat_tree e.now) (kat_tree f.now)) (mark_tree marks.old) begins atom.now act) }
{
    match marks {
        Marks::Both(first, second) => {
            let ends = step_both(alloc, e, f, chained, first, second, begins, atom, act)?;
            if is_nowhere(first) && is_nowhere(second) {
                *marks = Marks::Nowhere;
            }
            Ok(ends)
        }
        Marks::Nowhere | Marks::Here => {
            let mut first = Marks::Nowhere;
            let mut second = Marks::Nowhere;
            let ends = step_both(
                alloc,
                e,
                f,
                chained,
                &mut first,
                &mut second,
                begins,
                atom,
                act,
            )?;
            *marks = join(alloc, first, second)?;
            Ok(ends)
        }
    }
}

// The same for the marks of both parts.
#[cycle(steps)]
fn step_both(
    alloc: Global,
    e: &Kat,
    f: &Kat,
    chained: bool,
    first: &mut Marks,
    second: &mut Marks,
    begins: bool,
    atom: &[bool],
    act: usize,
) -> Result<bool, NoMemory>
    requires first { HasTestsBelow (length atom.now) (kat_tree e.now) }
    requires second { HasTestsBelow (length atom.now) (kat_tree f.now) }
    ensures end { IfOk result (λ is. is ≡ reached (paired chained (kat_tree e.now) (kat_tree f.now)) (both (mark_tree first.old) (mark_tree second.old)) begins atom.now) }
    ensures marks { OnOk result (joined (mark_tree first.new) (mark_tree second.new) ≡ moved (paired chained (kat_tree e.now) (kat_tree f.now)) (both (mark_tree first.old) (mark_tree second.old)) begins atom.now act) }
{
    let ends = step(alloc, e, first, begins, atom, act)?;
    if chained {
        return step(alloc, f, second, ends, atom, act);
    }
    let also = step(alloc, f, second, begins, atom, act)?;
    Ok(ends || also)
}
