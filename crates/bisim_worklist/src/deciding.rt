//! Decides a problem.
ghost use Rattle.std.specs.Prelude.{◌≡◌, ◌↔◌, IfOk, IsTrue};
ghost use Rattle.kat_model.specs.Relations.{Same};
ghost use Rattle.term_nodes.specs.NodeLists.{AreNodes};
ghost use Rattle.term_nodes.specs.Growth.{Grows};
ghost use Rattle.certificate.specs.Decisions.{IsDecision};
ghost use Rattle.walk_up_to.specs.Decisions.{IsWithinLimit};
ghost use Rattle.bisim_worklist.specs.StoredTerms.{HasIdsOf};
ghost use Rattle.bisim_worklist.specs.Working.Limits.{limit_of as limit_of'};

use certificate::Evidence;
use goal_forms::has_short;
use kat_model::{NoMemory, Problem};
use std::alloc::Global;
use term_store::Store;
use walk_under::{decide_under, is_same_under};
use walk_up_to::{EarlyStop, decide_up_to, is_same_up_to};

// The maximal number of pairs of a certificate without tests, if tests can replace hypotheses.
const UNTESTED_LIMIT: usize = 2_000;

// Returns the limit on the number of pairs of a walk without tests, if there is one.
fn limit_of(problem: &Problem) -> Option<usize>
    ensures value { result ≡ limit_of' problem.now }
    ensures room { IsWithinLimit result 1 }
{
    if has_short(problem) {
        return Some(UNTESTED_LIMIT);
    }
    None
}

/// Decides a problem like `decide`, over a store that may have nodes already. On success the store has ids of both
/// closed sides and of the terms of a certificate's nodes. All older ids keep their trees. Fails only when out of
/// memory; on failure, extra nodes may remain.
pub fn decide_in(alloc: Global, store: &mut Store, problem: &Problem) -> Result<Evidence, NoMemory>
    ensures decision { IfOk result (IsDecision problem.now) }
    ensures ids { IfOk result (HasIdsOf store.new problem.now) }
    ensures kept { Grows store.old store.new }
    ensures store { AreNodes store.new }
{
    let limit = limit_of(problem);
    match decide_up_to(alloc, store, problem, limit) {
        Ok(evidence) => Ok(evidence),
        Err(EarlyStop::NoMemory) => Err(NoMemory),
        Err(EarlyStop::PairLimit) => decide_under(alloc, store, problem),
        Err(EarlyStop::CostLimit) => decide_under(alloc, store, problem),
    }
}

/// Decides whether both sides of `problem` denote the same relation in each table that satisfies the hypotheses.
/// Returns evidence: a certificate whose pairs are a bisimulation up to congruence without redundant pairs (Bonchi and
/// Pous 2013), or a string that refutes the problem and has the fewest moves. If some hypothesis is short, and the search
/// for such pairs finds more than 2,000 or takes too many steps, the certificate has pairs under tests. Fails only when
/// out of memory.
pub fn decide(alloc: Global, problem: &Problem) -> Result<Evidence, NoMemory>
    ensures { IfOk result (IsDecision problem.now) }
{
    let mut store = Store::new(alloc);
    decide_in(alloc, &mut store, problem)
}

/// Returns whether both sides of `problem` denote the same relation in each table that satisfies the hypotheses. Walks
/// as `decide` does, but makes no evidence. Fails only when out of memory.
pub fn is_same(alloc: Global, problem: &Problem) -> Result<bool, NoMemory>
    ensures { IfOk result (λ same. IsTrue same ↔ Same problem.now) }
{
    let mut store = Store::new(alloc);
    let limit = limit_of(problem);
    match is_same_up_to(alloc, &mut store, problem, limit) {
        Ok(same) => Ok(same),
        Err(EarlyStop::NoMemory) => Err(NoMemory),
        Err(EarlyStop::PairLimit) => is_same_under(alloc, &mut store, problem),
        Err(EarlyStop::CostLimit) => is_same_under(alloc, &mut store, problem),
    }
}
