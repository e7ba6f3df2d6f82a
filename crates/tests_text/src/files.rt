//! Problem files and their faults.
use problem_file::{File, Goal, read_all};
use std::alloc::Global;
use text_parser::TextFault;

// The numbers of tests, actions, terms, hypotheses and goals after the first, and whether the file is concrete and has a
// program P.
type Facts = ([usize; 5], bool);

fn facts(file: &File, more: &[Goal]) -> Facts {
    let counts = [
        file.tests,
        file.actions,
        file.terms,
        file.hyps.len(),
        more.len(),
    ];
    (counts, file.concrete() && file.prog("P").is_some())
}

fn facts_of(alloc: Global, text: &str) -> Result<Facts, TextFault> {
    let (file, more) = read_all(alloc, text.as_bytes())?;
    Ok(facts(&file, &more))
}

const FILES: &[(&str, Result<Facts, TextFault>)] = &[
    (
        "test b, c; action p; term t = b.p + !b; hyp t.c = 0; hyp triple {b} p {c}; goal below t*, (p);",
        Ok(([2, 1, 1, 2, 0], false)),
    ),
    ("test b; goal equal b, ;", Err(TextFault::Syntax(22))),
    (
        "test b; term t = !b; goal equal !t, b;",
        Ok(([1, 0, 1, 0, 0], false)),
    ),
    (
        "action p; term e = p; goal equal !e, 1;",
        Err(TextFault::Sort(34)),
    ),
    (
        "test b; goal equal b, b; goal below b, 1; goal triple {b} 1 {b};",
        Ok(([1, 0, 0, 0, 2], false)),
    ),
    (
        "width 16; rounds 2; var x, y; prog P { x := y; } goal triple {x == 1} P {true};",
        Ok(([0, 0, 0, 0, 0], true)),
    ),
    ("prog P { } goal equal P, 1;", Ok(([0, 0, 0, 0, 0], false))),
    ("prog Q { } goal equal Q, Q;", Ok(([0, 0, 0, 0, 0], false))),
];

#[test]
fn files_are_read(rt: HostRuntime) {
    for (text, expected) in FILES {
        assert!(rt; facts_of(rt.alloc(), text) == *expected, "in {text}");
    }
}
