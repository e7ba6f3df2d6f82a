//! Laws of the definitions. Each function does nothing: its contract is the law.
ghost use Rattle.std.specs.Prelude.{ℕ};
ghost use Rattle.problem_file.specs.Laws.{HaveOneAnswer};
ghost use Rattle.chain_proofs.specs.Reads.{Reads, FirstFault};
ghost use Rattle.chain_proofs.specs.Laws.{ChainsAreScanned, ChainsAreMade};

/// The syntax test accepts exactly the phrases of the grammar in which nothing is too deep or too wide.
pub fn chains_are_scanned()
    ensures { ChainsAreScanned }
{}

/// The result for the tokens of a chain is the chain of its phrase, or the first fault of its names and sizes.
pub fn chains_are_made()
    ensures { ChainsAreMade }
{}

/// Bytes either spell exactly one chain or have exactly one first fault; a first fault is never out of memory.
pub fn have_one_answer()
    ensures { (tests actions : ℕ) → HaveOneAnswer (Reads tests actions) (FirstFault tests actions) }
{}
