//! What strings show of problems, and their tables.
use crate::deciding::problem;
use certificate::{Evidence, EvidenceFault, read};
use kat_model::{Items, Kat, NoMemory, Problem};
use std::alloc::Global;
use std::test::Fail;
use string_tables::{Bench, Finding, GString, Step, Table, refutes, table_of, verdict};

fn string_in(evidence: Evidence) -> Result<GString, EvidenceFault> {
    match evidence {
        Evidence::Different(string) => Ok(string),
        Evidence::Equal(_) => Err(EvidenceFault::Header),
    }
}

fn string(alloc: Global, text: &str) -> Result<GString, EvidenceFault> {
    string_in(read(alloc, text.as_bytes())?)
}

// Whether the string shows `expected`, and refutes the problem exactly if `expected` says so.
fn shows(
    alloc: Global,
    problem: &Problem,
    string: &GString,
    expected: Finding,
) -> Result<bool, NoMemory> {
    let refuted = refutes(alloc, problem, string)?;
    let finding = verdict(alloc, problem, string)?;
    Ok(finding == expected && refuted == matches!(expected, Finding::Refutes(_)))
}

fn holds(
    alloc: Global,
    problem: &Problem,
    text: &str,
    expected: Finding,
) -> Result<bool, EvidenceFault> {
    let string = string(alloc, text)?;
    Ok(shows(alloc, problem, &string, expected)?)
}

fn row_holds(alloc: Global, problem_text: &str, text: &str, expected: Finding) -> bool {
    match problem(alloc, problem_text) {
        Ok(problem) => matches!(holds(alloc, &problem, text, expected), Ok(true)),
        Err(_) => false,
    }
}

const ONE_MOVE: &str = "kat 1 different\nA 1\nM 0 0\nend\n";

const ACTION: &str = "test b; action p; goal equal p, 0;";

// A problem, the text of a string, and what it shows.
const ROWS: &[(&str, &str, Finding)] = &[
    (ACTION, ONE_MOVE, Finding::Refutes(true)),
    (
        ACTION,
        "kat 1 different\nA 1\nM 1 0\nend\n",
        Finding::Shape(1),
    ),
    (
        "test b; action p; hyp p = 0; goal equal p, 0;",
        ONE_MOVE,
        Finding::HypBroken(0, 0, 1),
    ),
    (
        "test b; action p; goal equal p, p;",
        ONE_MOVE,
        Finding::EndsAgree(true),
    ),
    (
        ACTION,
        "kat 1 different\nA 1\nend\n",
        Finding::EndsAgree(false),
    ),
    (
        "test b; action p; goal equal p*, 0;",
        "kat 1 different\nA 1\nM 0 0\nM 0 1\nend\n",
        Finding::Refutes(true),
    ),
];

#[test]
fn strings_show_the_first_that_holds(rt: HostRuntime) {
    for (problem_text, text, expected) in ROWS {
        assert!(rt;
            row_holds(rt.alloc(), problem_text, text, *expected),
            "{text} on {problem_text}"
        );
    }
}

fn is_move(step: &Step, from: usize, act: usize, to: usize) -> bool {
    step.from == from && step.act == act && step.to == to
}

fn is_atom(atom: &Items<bool>, value: bool) -> bool {
    atom.as_slice() == [value].as_slice()
}

// Whether the states of the table satisfy the test, do not, and do, with an action between neighbours.
fn is_table(table: &Table) -> bool {
    let are_atoms = match table.truths.as_slice() {
        [a, b, c] => is_atom(a, true) && is_atom(b, false) && is_atom(c, true),
        _ => false,
    };
    let are_moves = match table.moves.as_slice() {
        [first, second] => is_move(first, 0, 0, 1) && is_move(second, 1, 1, 2),
        _ => false,
    };
    table.states == 3 && are_atoms && are_moves
}

// Whether the action 0 leads from the first position of the string to the second.
fn leads_on(alloc: Global, string: &GString) -> Result<bool, NoMemory> {
    let table = table_of(alloc, string)?;
    if table.states < 2 {
        return Ok(false);
    }
    let mut bench = Bench::new(alloc, 1, table.states)?;
    Ok(bench.relates(&table, &Kat::Act(0), 0, 1))
}

fn has_table(alloc: Global, string: &GString) -> Result<bool, NoMemory> {
    let table = table_of(alloc, string)?;
    Ok(is_table(&table) && leads_on(alloc, string)?)
}

fn text_has_table(alloc: Global, text: &str) -> Result<bool, EvidenceFault> {
    let string = string(alloc, text)?;
    Ok(has_table(alloc, &string)?)
}

#[test]
fn tables_follow_strings(rt: HostRuntime) -> Result<(), Fail> {
    let text = "kat 1 different\nA 1\nM 0 0\nM 1 1\nend\n";
    assert!(rt; text_has_table(rt.alloc(), text)?);
    Ok(())
}
