//! Reads clauses and proofs, and checks them.
use kat_model::NoMemory;
use lrat_checker::{Answer, CnfFault, ProofFault, Reason, check, read_clauses, read_proof};
use std::alloc::Global;
use std::test::Fail;

#[derive(Clone, Copy, PartialEq, Eq)]
enum Outcome {
    Answer(Answer),
    Clauses(CnfFault),
    Proof(ProofFault),
    NoMemory,
}

fn outcome_of(alloc: Global, clauses: &[u8], proof: &[u8]) -> Outcome {
    let cnf = match read_clauses(alloc, clauses) {
        Ok(cnf) => cnf,
        Err(fault) => return Outcome::Clauses(fault),
    };
    let proof = match read_proof(alloc, proof) {
        Ok(proof) => proof,
        Err(fault) => return Outcome::Proof(fault),
    };
    match check(alloc, &cnf.clauses, &proof) {
        Ok(answer) => Outcome::Answer(answer),
        Err(NoMemory) => Outcome::NoMemory,
    }
}

// Eight clauses over four variables that no assignment satisfies (Heule, Hunt and Wetzler, *Verifying refutations with
// extended resolution*, 2013), and a proof: the solver CaDiCaL found its clauses, and a program for unit propagation
// its hints.
const FOUR_VARIABLES: &str =
    "c four variables\np cnf 4 8\n 1  2 -3 0\n-1 -2  3 0\n 2  3 -4 0\n-2 -3  4 0\n\
    1  3  4 0\n-1 -3 -4 0\n-1  2  4 0\n 1 -2 -4 0\n";

const FOUR_VARIABLES_PROOF: &str =
    "9 -3 -4 0 6 1 8 0\n10 -4 0 9 3 2 8 0\n11 3 0 10 5 2 7 0\n12 -2 0 10 11 4 1 7 0\n\
    13 1 0 10 11 4 1 7 0\n14 0 10 11 4 1 7 0\n";

// Clauses over two variables that no assignment satisfies.
const CLAUSES: &str = "p cnf 2 4\n1 2 0 -1 2 0\n1 -2 0 -1 -2 0\n";

fn rejected(line: usize, reason: Reason) -> Outcome {
    Outcome::Answer(Answer::Rejected(line, reason))
}

#[test]
fn proofs_are_read_and_checked(rt: HostRuntime) -> Result<(), Fail> {
    let accepted = Outcome::Answer(Answer::Accepted);
    let rows: [(&str, &str, Outcome); 8] = [
        (FOUR_VARIABLES, FOUR_VARIABLES_PROOF, accepted),
        (
            CLAUSES,
            "5 2 0 1 2 0\n5 d 1 2 0\n6 0 5 3 4 0\n6 d 5 0\n",
            accepted,
        ),
        (
            CLAUSES,
            "5 2 0 1 2 0\n6 0 3 4 0\n",
            rejected(2, Reason::HintNotUnit(3)),
        ),
        (
            CLAUSES,
            "5 2 0 1 2 0\n5 d 3 0\n6 0 5 3 4 0\n",
            rejected(3, Reason::DeletedHint(3)),
        ),
        (CLAUSES, "5 2 0 1 0\n", rejected(1, Reason::NoConflict)),
        (CLAUSES, "5 2 0 1 2 0\n", rejected(1, Reason::NoEmptyClause)),
        (
            CLAUSES,
            "5 2 x 1 0\n",
            Outcome::Proof(ProofFault::NotLiteral(1)),
        ),
        (
            "p cnf 2 2\n1 2 0\n",
            "",
            Outcome::Clauses(CnfFault::WrongCount(3)),
        ),
    ];
    for (clauses, proof, want) in &rows {
        assert!(rt;
            outcome_of(rt.alloc(), clauses.as_bytes(), proof.as_bytes()) == *want,
            "on {proof}"
        );
    }
    Ok(())
}
