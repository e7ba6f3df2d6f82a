//! Reads and checks proofs by axioms.
use crate::deciding::problem;
use chain_proofs::read_chain;
use chain_rules::{ChainAnswer, ChainReason, check_chain};
use kat_model::Problem;
use std::alloc::Global;
use std::test::Fail;
use text_parser::TextFault;

fn answer(alloc: Global, problem: &Problem, proof: &str) -> Result<ChainAnswer, TextFault> {
    let chain = read_chain(alloc, proof.as_bytes(), problem.tests(), problem.actions())?;
    Ok(check_chain(alloc, problem, &chain)?)
}

const SUM: &str = "action p, q; goal equal p + q, p;";

// A problem, a proof, and the answer or the fault of the proof's text.
const ROWS: &[(&str, &str, Result<ChainAnswer, TextFault>)] = &[
    (
        "action p; hyp p = 0; goal equal p.p, 0;",
        "a0.a0 = 0.a0 by hyp 0 at 0; = 0 by zeroleft;",
        Ok(ChainAnswer::Accepted),
    ),
    (
        SUM,
        "a0 + a1 = a0 by idem;",
        Ok(ChainAnswer::Rejected(ChainReason::Step(0))),
    ),
    (SUM, "a0 + a1", Ok(ChainAnswer::Rejected(ChainReason::End))),
    (SUM, "a0 = a0 by nosuch;", Err(TextFault::UnknownName(11))),
];

fn is_answered(
    alloc: Global,
    text: &str,
    proof: &str,
    expected: Result<ChainAnswer, TextFault>,
) -> Result<bool, TextFault> {
    let problem = problem(alloc, text)?;
    Ok(answer(alloc, &problem, proof) == expected)
}

#[test]
fn proofs_are_read_and_checked(rt: HostRuntime) -> Result<(), Fail> {
    for (text, proof, expected) in ROWS {
        assert!(rt;
            is_answered(rt.alloc(), text, proof, *expected)?,
            "on {proof}"
        );
    }
    Ok(())
}
