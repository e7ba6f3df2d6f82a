//! Problems with known answers: the number of pairs of the certificate, or the number of moves of the string.
use bisim_worklist::{decide, decide_in};
use certificate::Evidence;
use kat_model::{Kat, NoMemory, Problem};
use problem_file::{File, Goal, Side, read};
use std::alloc::Global;
use std::test::Fail;
use term_store::Store;
use text_parser::TextFault;

// Returns the term of a side. No text here has a program as a side.
fn term(alloc: Global, side: &Side) -> Result<Kat, NoMemory> {
    match side {
        Side::Term(term) => term.copy(alloc),
        Side::Prog(_) => Ok(Kat::Zero),
    }
}

// Returns the sides of a goal `equal`.
fn sides(alloc: Global, goal: &Goal) -> Result<Option<(Kat, Kat)>, NoMemory> {
    match goal {
        Goal::Equal(left, right) => {
            let left = term(alloc, left)?;
            let right = term(alloc, right)?;
            Ok(Some((left, right)))
        }
        Goal::Below(_, _) | Goal::Triple(_, _, _) => Ok(None),
    }
}

// Returns the problem of the sides, if there are sides and they are within the limits.
fn problem_of(
    tests: usize,
    actions: usize,
    hyps: Vec<Kat>,
    sides: Option<(Kat, Kat)>,
) -> Option<Problem> {
    let (left, right) = sides?;
    Problem::new(tests, actions, hyps, left, right).ok()
}

fn copies(alloc: Global, terms: &[Kat]) -> Result<Vec<Kat>, NoMemory> {
    let mut list = Vec::new(alloc);
    for term in terms {
        list.push(term.copy(alloc)?)?;
    }
    Ok(list)
}

// Returns the problem of a file with the goal `equal`.
fn file_problem(alloc: Global, file: &File) -> Result<Option<Problem>, NoMemory> {
    let sides = sides(alloc, &file.goal)?;
    let hyps = copies(alloc, &file.hyps)?;
    Ok(problem_of(file.tests, file.actions, hyps, sides))
}

pub(crate) fn problem(alloc: Global, text: &str) -> Result<Problem, TextFault> {
    match file_problem(alloc, &read(alloc, text.as_bytes())?)? {
        Some(problem) => Ok(problem),
        None => Err(TextFault::NoGoal),
    }
}

// Returns whether the evidence is a certificate, and the number of its pairs or moves.
fn answer_of(evidence: &Evidence) -> (bool, usize) {
    match evidence {
        Evidence::Equal(cert) => (true, cert.pairs().len()),
        Evidence::Different(string) => (false, string.rest.as_slice().len()),
    }
}

fn own_answer(alloc: Global, problem: &Problem) -> Result<(bool, usize), NoMemory> {
    let evidence = decide(alloc, problem)?;
    Ok(answer_of(&evidence))
}

fn answer_in(
    alloc: Global,
    store: &mut Store,
    problem: &Problem,
) -> Result<(bool, usize), NoMemory> {
    let evidence = decide_in(alloc, store, problem)?;
    Ok(answer_of(&evidence))
}

// Whether the problem has this answer, both in a new store and in `store`.
fn is_answer(
    alloc: Global,
    store: &mut Store,
    problem: &Problem,
    expected: (bool, usize),
) -> Result<bool, NoMemory> {
    Ok(own_answer(alloc, problem)? == expected && answer_in(alloc, store, problem)? == expected)
}

fn holds(
    alloc: Global,
    store: &mut Store,
    text: &str,
    expected: (bool, usize),
) -> Result<bool, TextFault> {
    let problem = problem(alloc, text)?;
    Ok(is_answer(alloc, store, &problem, expected)?)
}

const ROWS: &[(&str, (bool, usize))] = &[
    ("action p, q; goal equal (p+q)*, (p*.q)*.p*;", (true, 2)),
    ("action p, q; goal equal p.q, q.p;", (false, 2)),
    (
        "test b, c; action p; hyp b.p.!c = 0; goal equal b.p.!c, 0;",
        (true, 2),
    ),
];

// Returns the number of the problems, from the first, that have their answers.
fn answered(alloc: Global, store: &mut Store) -> Result<usize, TextFault> {
    for (k, (text, expected)) in ROWS.iter().enumerate() {
        if !holds(alloc, store, text, *expected)? {
            return Ok(k);
        }
    }
    Ok(ROWS.len())
}

// One store serves all problems.
fn answered_in(alloc: Global) -> Result<usize, TextFault> {
    let mut store = Store::new(alloc);
    answered(alloc, &mut store)
}

#[test]
fn answers_are_short(rt: HostRuntime) -> Result<(), Fail> {
    assert_eq!(rt; answered_in(rt.alloc())?, ROWS.len());
    Ok(())
}
