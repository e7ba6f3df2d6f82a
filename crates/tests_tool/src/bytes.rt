//! The calls on bytes.
use crate::fixtures::{DENESTING, DENESTING_EVIDENCE, STAR_TWICE};
use kat_model::NoMemory;
use kat_tool::{
    Reply, chain_bytes, check_bytes, decide_bytes, explain_bytes, flow_bytes, optimise_bytes,
    outline_bytes, outline_check_bytes, replay_bytes, run_bytes, show_bytes, try_bytes,
    try_with_bytes,
};
use std::alloc::Global;
use std::test::Fail;

enum Call {
    Decide,
    Check,
    Replay,
    Explain,
    Try,
    TryWith,
    Show,
    Flow,
    Run,
    Optimise,
    Outline,
    OutlineCheck,
    Chain,
}

// Returns the reply of a call on a text. The second text is evidence, a store, notes or a proof.
fn reply_of(alloc: Global, call: &Call, text: &str, second: &str) -> Result<Reply, NoMemory> {
    match call {
        Call::Decide => decide_bytes(alloc, text.as_bytes()),
        Call::Check => check_bytes(alloc, text.as_bytes(), second.as_bytes()),
        Call::Replay => replay_bytes(alloc, text.as_bytes(), second.as_bytes()),
        Call::Explain => explain_bytes(alloc, text.as_bytes(), second.as_bytes()),
        Call::Try => try_bytes(alloc, text.as_bytes(), 0),
        Call::TryWith => try_with_bytes(alloc, text.as_bytes(), second.as_bytes(), 0),
        Call::Show => show_bytes(alloc, text.as_bytes()),
        Call::Flow => flow_bytes(alloc, text.as_bytes()),
        Call::Run => run_bytes(alloc, text.as_bytes(), "P", second, 0),
        Call::Optimise => optimise_bytes(alloc, text.as_bytes(), "L", 1000),
        Call::Outline => outline_bytes(alloc, text.as_bytes()),
        Call::OutlineCheck => outline_check_bytes(alloc, text.as_bytes(), second.as_bytes()),
        Call::Chain => chain_bytes(alloc, text.as_bytes(), second.as_bytes()),
    }
}

// A call, its texts, its status and its output.
type Row = (Call, &'static str, &'static str, u8, &'static str);

const UNKEPT: &str = "test b; action p; goal triple {b} p {b};";

const UNKEPT_STRING: &str = "kat 1 different\nA 1\nM 0 0\nend\n";

const WRAP_AROUND: &str =
    "var x; prog P { x := 18446744073709551615; x := x + 1; } rounds 1; goal triple {true} P {x == 0};";

const ADDED: &str =
    "width 8; var x; prog P { x := x + 1; } prog Q { x := x + 2; } goal equal P, Q;";

const ADDED_STRING: &str = "kat 1 different\nA\nM 0\nend\n";

const ADDED_ENDS: &str = "x=0\ndone x=1\ndone x=2\n";

const SHOWN: &str =
    "# t0 is x == 0\n# t1 is x + 1 == 0\ntest t0, t1;\n# a0 is x := 18446744073709551615\n# a1 is x := x + 1\naction a0, a1;\n# assign a0 t0\nhyp ([false].(a0.[!t0])) = 0;\nhyp ([!false].(a0.t0)) = 0;\n# assign a0 t1\nhyp ([true].(a0.[!t1])) = 0;\nhyp ([!true].(a0.t1)) = 0;\n# assign a1 t0\nhyp (t1.(a1.[!t0])) = 0;\nhyp ([!t1].(a1.t0)) = 0;\n# F1 t0 t1\nhyp (t0.t1) = 0;\ngoal equal ([true].((a0.a1).[!t0])), 0;\n";

const TWO_ADDITIONS: &str =
    "var u64 x; graph f { block b { x := x + 1; x := x + 1; return x; } } graph g { block b { return x + 2; } } equal f, g;";

const UNCUT_LOOP: &str =
    "var u8 x; graph f { block a { goto b; } block b { if x == 0 goto c else b; } cut block c { return x; } } equal f, f;";

const MIXED: &str =
    "test b; action a; var x, y; prog P { } prog R { a; } prog T { assert b; } goal equal P, P;";

const UNFIT: &str = "refused: words\n";

const IF_AFTER_LOOP: &str =
    "test b; action p, q; prog L { while b { p; } if b { q; } } goal equal L, L;";

const PASSED_ON: &str =
    "test b, c; action p; hyp triple {b} p {c}; prog P { p; } goal triple {b} P {c};";

const PASSED_ON_NOTES: &str =
    "kat 1 outline\nD false\nD true\nD test 0 0 1\nD test 1 0 1\nC 2\nC 3\nend\n";

const ROWS: &[Row] = &[
    (
        Call::Decide,
        "test b; goal equal b, b;",
        "",
        0,
        "kat 2 equal\nT prim 0\nE test 0\nP 0 | 0\nend\n",
    ),
    (
        Call::Decide,
        "goal equal 0, 1;",
        "",
        1,
        "kat 1 different\nA\nend\n",
    ),
    (
        Call::Decide,
        "goal equal b, b;",
        "",
        2,
        "refused: UnknownName 11\n",
    ),
    (
        Call::Check,
        DENESTING,
        DENESTING_EVIDENCE,
        0,
        "accepted equal\n",
    ),
    (
        Call::Check,
        UNKEPT,
        UNKEPT_STRING,
        1,
        "accepted different\n",
    ),
    (
        Call::Check,
        STAR_TWICE,
        DENESTING_EVIDENCE,
        3,
        "rejected: TermNode 1\n",
    ),
    (
        Call::Replay,
        UNKEPT,
        UNKEPT_STRING,
        0,
        "0 t0\na0\n1 !t0\nrefutes: left relates the ends, right does not\n",
    ),
    (
        Call::Explain,
        UNKEPT,
        UNKEPT_STRING,
        0,
        "0: b\n  p\n1: !b\nbody relates the ends: the precondition holds at 0, the postcondition fails at 1\n",
    ),
    (
        Call::Explain,
        DENESTING,
        DENESTING_EVIDENCE,
        0,
        "equal: pairs 2, closed under all steps\nhypotheses 0, stated 0, used 0\n",
    ),
    (
        Call::Explain,
        STAR_TWICE,
        DENESTING_EVIDENCE,
        3,
        "rejected: TermNode 1\n",
    ),
    (Call::Try, ADDED, "", 1, ADDED_ENDS),
    (
        Call::Try,
        WRAP_AROUND,
        "",
        0,
        "stores tried 10005, runs cut short 0\n",
    ),
    (Call::Try, MIXED, "", 2, "refused: NotConcrete\n"),
    (Call::TryWith, ADDED, ADDED_STRING, 1, ADDED_ENDS),
    (
        Call::TryWith,
        ADDED,
        DENESTING_EVIDENCE,
        3,
        "rejected: NotAString\n",
    ),
    (Call::Show, WRAP_AROUND, "", 0, SHOWN),
    (
        Call::Flow,
        TWO_ADDITIONS,
        "",
        0,
        "# a0 is return x + 2\naction a0;\ngoal equal a0, a0;\n",
    ),
    (Call::Flow, UNCUT_LOOP, "", 2, "refused: UncutLoop\n"),
    (Call::Flow, "var u8 x;", "", 2, "refused: NoGoal\n"),
    (Call::Run, MIXED, "y=4,x=3", 0, "done x=3 y=4\n"),
    (Call::Run, MIXED, "x=3,x=4", 7, UNFIT),
    (Call::Run, MIXED, "", 7, UNFIT),
    (Call::Run, MIXED, "x= 3", 7, UNFIT),
    (Call::Run, MIXED, "x=3 ,y=4", 7, UNFIT),
    (
        Call::Optimise,
        IF_AFTER_LOOP,
        "",
        0,
        "S10 at 0\ndone\nprog L { while b { p; } }\n",
    ),
    (Call::Outline, PASSED_ON, "", 0, PASSED_ON_NOTES),
    (
        Call::OutlineCheck,
        PASSED_ON,
        PASSED_ON_NOTES,
        0,
        "accepted outline\n",
    ),
    (
        Call::Chain,
        "action p, q; goal equal p + q, p;",
        "a0 + a1 = a1 + a0 by comm;",
        3,
        "rejected: chain End\n",
    ),
];

fn is_reply(alloc: Global, row: &Row) -> Result<bool, NoMemory> {
    let (call, text, second, status, output) = row;
    let found = reply_of(alloc, call, text, second)?;
    Ok(found.status == *status && found.output.as_slice() == output.as_bytes())
}

#[test]
fn calls_on_bytes_reply(rt: HostRuntime) -> Result<(), Fail> {
    for row in ROWS {
        assert!(rt; is_reply(rt.alloc(), row)?, "on {} with {}", row.1, row.2);
    }
    Ok(())
}
