//! Command lines over files in memory.
use crate::fixtures::replies;
use std::test::Fail;

const EQUAL: &str = "test b; goal equal b, b;";

const UNFIT: (u8, &str) = (7, "refused: words\n");

// A line, the file `f`, and the reply.
const ROWS: &[(&str, &str, (u8, &str))] = &[
    (
        "decide f --json",
        "test b; action p; goal triple {b} p {b};",
        (
            1,
            "{\"answer\":\"different\",\"evidence\":\"kat 1 different\\nA 1\\nM 0 0\\nend\\n\",\"hypotheses\":0,\"size\":1}\n",
        ),
    ),
    (
        "batch f",
        "test b; goal equal b, b; goal equal b, 1;",
        (
            1,
            "goal 0\nkat 2 equal\nT prim 0\nE test 0\nP 0 | 0\nend\ngoal 1\nkat 1 different\nA 0\nend\n",
        ),
    ),
    (
        "gkat f",
        "test b; action p, q; equal p +[b] q, q +[!b] p;",
        (
            0,
            "test b;\naction p, q;\ngoal equal ((b.p) + ([!b].q)), (([!b].q) + ([!!b].p));\n",
        ),
    ),
    (
        "flow f",
        "var u64 x; graph g { block b { x := x + 1; x := x + 1; return x; } } equal g, g;",
        (0, "# a0 is return x + 2\naction a0;\ngoal equal a0, a0;\n"),
    ),
    (
        "bench 2",
        "",
        (0, "problems 2 equal 1 different 1 moves 0\n"),
    ),
    (
        "bench 008",
        "",
        (0, "problems 8 equal 4 different 4 moves 1\n"),
    ),
    (
        "bench 1000",
        "",
        (0, "problems 1000 equal 500 different 500 moves 374\n"),
    ),
    ("bench 0", "", UNFIT),
    ("bench 10001", "", UNFIT),
    ("", EQUAL, UNFIT),
    ("decide", EQUAL, UNFIT),
    ("decide ", EQUAL, UNFIT),
    ("decide f g", EQUAL, UNFIT),
    ("decide -f", EQUAL, UNFIT),
    ("Decide f", EQUAL, UNFIT),
    ("decide f --JSON", EQUAL, UNFIT),
    ("decide --json f", EQUAL, UNFIT),
    ("check f", EQUAL, UNFIT),
    ("outline f e e", EQUAL, UNFIT),
    ("run f P zero", EQUAL, UNFIT),
    ("run f P zero +1", EQUAL, UNFIT),
    ("run f P zero 18446744073709551616", EQUAL, UNFIT),
    ("run f P zero 000000000000000000001", EQUAL, UNFIT),
    ("run f P -x=1 1", EQUAL, UNFIT),
    ("run f P  1", EQUAL, UNFIT),
    ("optimise f --turns 1 L", EQUAL, UNFIT),
    ("oneloop f P P", EQUAL, UNFIT),
];

#[test]
fn lines_have_replies(rt: HostRuntime) -> Result<(), Fail> {
    for (line, text, expected) in ROWS {
        let is_reply = replies(rt.alloc(), line, text.as_bytes(), b"", *expected)?;
        assert!(rt; is_reply, "on {line}");
    }
    Ok(())
}
