//! Flow files and their faults.
use flow_text::{FlowFile, MatchName, MatchPart, read};
use std::alloc::Global;
use std::test::Fail;
use text_parser::TextFault;

const SEARCH: &str = "sort mem; fun u8 load(mem, u64); var u64 p, q, n; var mem m;
graph before {
  block entry { q := p; goto head; }
  cut block head { if load(m, q) == 0 goto done else next; }
  block next { q := q + 1; goto head; }
  block done { return q - p; }
}
graph after {
  block entry { n := 0; goto head; }
  block head { if load(m, p + n) == 0 goto done else next; }
  block next { n := n + 1; goto head; }
  block done { return n; }
}
rounds 2; split; equal before, after;";

// Returns the numbers of variables, graphs and rounds, and the numbers of both graphs of the goal.
fn counts(file: &FlowFile) -> [usize; 5] {
    [
        file.sorts.len(),
        file.graphs.len(),
        file.rounds as usize,
        file.before,
        file.after,
    ]
}

fn counts_of(alloc: Global, text: &str) -> Result<[usize; 5], TextFault> {
    let file = read(alloc, text.as_bytes())?;
    Ok(counts(&file))
}

#[test]
fn flow_files_are_read(rt: HostRuntime) -> Result<(), Fail> {
    assert!(rt; counts_of(rt.alloc(), SEARCH)? == [4, 2, 2, 0, 1]);
    Ok(())
}

fn is_name(names: &[String], number: usize, name: &str) -> bool {
    match names.get(number) {
        Some(found) => found.as_str() == name,
        None => false,
    }
}

#[test]
fn names_are_kept(rt: HostRuntime) -> Result<(), Fail> {
    let file = read(rt.alloc(), SEARCH.as_bytes())?;
    assert!(rt; is_name(&file.variable_names, 0, "p"));
    assert!(rt; is_name(&file.variable_names, 3, "m"));
    assert!(rt; is_name(&file.function_names, 0, "load"));
    Ok(())
}

// Returns the fault of a graph of this block, over `x` and `y` of u8, `a` and `b` of an opaque sort, and a function.
fn fault_of(alloc: Global, body: &str) -> Option<TextFault> {
    let Ok(text) = format!(in alloc; "{START}{body} }} }} equal g, g;") else {
        return Some(TextFault::NoMemory);
    };
    match read(alloc, text.as_bytes()) {
        Ok(_) => None,
        Err(fault) => Some(fault),
    }
}

// Its 70 bytes precede the block.
const START: &str = "sort s; var u8 x, y; var s a, b; fun u8 f(u8, s); graph g { block k { ";

const BODIES: &[(&str, Option<TextFault>)] = &[
    ("x, y := y, x; return x;", None),
    ("x := f(y, a); return x;", None),
    ("x := 255; return u32(x);", None),
    ("x := 256; return;", Some(TextFault::NumberTooWide(75))),
    ("a := x; return;", Some(TextFault::Sort(75))),
    ("a := b + 1; return;", Some(TextFault::Sort(77))),
    ("assert a < b; return;", Some(TextFault::Sort(79))),
    ("assert slt(a, b); return;", Some(TextFault::Sort(77))),
    ("x := f(y); return;", Some(TextFault::Sort(75))),
    ("x, y := 1; return;", Some(TextFault::Sort(75))),
    ("x, x := 1, 2; return;", Some(TextFault::DoubleName(73))),
    ("z := 1; return;", Some(TextFault::UnknownName(70))),
    ("goto l;", Some(TextFault::UnknownName(75))),
    ("assert u32(x) == 300; return;", None),
    (
        "assert x == 300; return;",
        Some(TextFault::NumberTooWide(82)),
    ),
];

#[test]
fn sorts_are_checked(rt: HostRuntime) {
    for (body, expected) in BODIES {
        assert!(rt; fault_of(rt.alloc(), body) == *expected, "in {body}");
    }
}

// Returns the number of matches of a file with this match, or its fault. The graphs have the blocks k, l and m, and k, l
// and n; `match` is a variable too.
fn matches_of(alloc: Global, item: &str) -> Result<usize, TextFault> {
    let Ok(text) = format!(in alloc; "{MATCH_START}{item}") else {
        return Err(TextFault::NoMemory);
    };
    let file = read(alloc, text.as_bytes())?;
    Ok(file.matches.len())
}

// Its 213 bytes precede the match.
const MATCH_START: &str =
    "var u8 x, y; var u64 match, back; graph g { block k { goto l; } block l { x := y; match := back; goto m; } block m { return; } } graph h { block k { goto l; } block l { goto n; } block n { return; } } equal g, h; ";

const MATCHES: &[(&str, Result<usize, TextFault>)] = &[
    ("", Ok(0)),
    ("match names;", Ok(1)),
    ("match m, n; match l, l;", Ok(2)),
    ("match l, l where x := y + 1, y := x;", Ok(1)),
    (
        "match l, l where x := y back match := 1 keeping y := 2 if x < 3 rounds 2 split;",
        Ok(1),
    ),
    ("match l, l split;", Ok(1)),
    ("match names", Err(TextFault::Syntax(224))),
    (
        "match l, l back x := 1 where y := 1;",
        Err(TextFault::Syntax(236)),
    ),
    ("match l, l where names := 1;", Err(TextFault::Syntax(230))),
    ("match m, m;", Err(TextFault::UnknownName(222))),
    ("match n, n;", Err(TextFault::UnknownName(219))),
    ("match k, k;", Err(TextFault::DoubleName(219))),
    ("match l, l; match l, l;", Err(TextFault::DoubleName(231))),
    ("match l, l; match names;", Err(TextFault::DoubleName(225))),
    (
        "match l, l where x := 1, x := 2;",
        Err(TextFault::DoubleName(238)),
    ),
    ("match l, l where z := 1;", Err(TextFault::UnknownName(230))),
    ("match l, l where x := match;", Err(TextFault::Sort(235))),
    ("match l, l if x == match;", Err(TextFault::Sort(232))),
    (
        "match l, l where x := 256;",
        Err(TextFault::NumberTooWide(235)),
    ),
    ("match l, l rounds 17;", Err(TextFault::TooMany(231))),
];

#[test]
fn matches_are_read(rt: HostRuntime) {
    for (item, expected) in MATCHES {
        assert!(rt; matches_of(rt.alloc(), item) == *expected, "in {item}");
    }
}

// Whether these are the names of the first match of a file with this match.
fn has_names(alloc: Global, item: &str, expected: &[MatchName]) -> Result<bool, TextFault> {
    let Ok(text) = format!(in alloc; "{MATCH_START}{item}") else {
        return Err(TextFault::NoMemory);
    };
    let file = read(alloc, text.as_bytes())?;
    match file.matches.get(0) {
        Some(matched) => Ok(matched.names.as_slice() == expected),
        None => Ok(false),
    }
}

// `x` is variable 0, `y` 1 and `match` 2.
const NAMES: &[(&str, &[MatchName])] = &[
    ("match names;", &[]),
    ("match l, l;", &[]),
    (
        "match l, l where x := y back match := match + 1 keeping y := x if x < 3 && !(y == 2) split;",
        &[
            MatchName {
                variable: 0,
                part: MatchPart::Where,
                is_set: true,
                at: 230,
            },
            MatchName {
                variable: 1,
                part: MatchPart::Where,
                is_set: false,
                at: 235,
            },
            MatchName {
                variable: 2,
                part: MatchPart::Back,
                is_set: true,
                at: 242,
            },
            MatchName {
                variable: 2,
                part: MatchPart::Back,
                is_set: false,
                at: 251,
            },
            MatchName {
                variable: 1,
                part: MatchPart::Keeping,
                is_set: true,
                at: 269,
            },
            MatchName {
                variable: 0,
                part: MatchPart::Keeping,
                is_set: false,
                at: 274,
            },
            MatchName {
                variable: 0,
                part: MatchPart::If,
                is_set: false,
                at: 279,
            },
            MatchName {
                variable: 1,
                part: MatchPart::If,
                is_set: false,
                at: 290,
            },
        ],
    ),
];

#[test]
fn names_of_matches_are_kept(rt: HostRuntime) {
    for (item, expected) in NAMES {
        assert!(rt;
            has_names(rt.alloc(), item, expected) == Ok(true),
            "in {item}"
        );
    }
}
