//! Decides a problem by a walk up to congruence.
ghost use Rattle.std.specs.Prelude.{◌≡◌, ◌↔◌, ℕ, Err, IfOk, OnOk, OnErr, IsSome, IsTrue};
ghost use Rattle.kat_model.specs.Trees.{Term};
ghost use Rattle.kat_model.specs.Members.{Has};
ghost use Rattle.kat_model.specs.Problems.{IsProblem};
ghost use Rattle.kat_model.specs.Relations.{Same};
ghost use Rattle.term_nodes.specs.NodeLists.{AreNodes};
ghost use Rattle.term_nodes.specs.NodeTrees.{HasTree};
ghost use Rattle.term_nodes.specs.Growth.{Grows};
ghost use Rattle.certificate.specs.Decisions.{node_terms};
ghost use Rattle.walk_up_to.specs.Decisions.{IsWithinLimit, IsDecisionUpTo, HasPairsPast};
ghost use Rattle.walk_up_to.specs.StoredSides.{HasSides};
ghost use Rattle.walk_up_to.specs.Working.Walking.{IsUnderWay};
ghost use Rattle.walk_up_to.specs.declared.stop.EarlyStop.TheVariants.{PairLimit, CostLimit};

use crate::pair::stored_pairs_of;
use crate::stop::EarlyStop;
use crate::string::string_to;
use crate::worklist::Worklist;
use certificate::{Evidence, Style};
use goal_forms::eliminate;
use kat_model::{NoMemory, Problem};
use std::alloc::Global;
use term_store::Store;
use walk_pairs::{cert_of, closed_ids};

// Returns a walk of the problem over the store that has listed the pair of the closed sides.
fn walk_of(
    alloc: Global,
    store: &mut Store,
    problem: &Problem,
    limit: Option<usize>,
) -> Result<Worklist, NoMemory>
    requires room { IsWithinLimit limit 1 }
    ensures under_way { IfOk result (λ w. IsProblem problem.now × IsUnderWay problem.now store.new w 0) }
    ensures limit { IfOk result (λ w. w.listed.limit ≡ limit) }
    ensures sides { OnOk result (HasSides store.new problem.now) }
    ensures kept { Grows store.old store.new }
    ensures store { AreNodes store.new }
{
    // The proof needs the invariants of the store.
    let _ = store.count();
    let closed = eliminate(alloc, problem)?;
    let sides = closed_ids(store, &closed)?;
    let tests = problem.tests();
    let count = store.count();
    Worklist::new(
        alloc,
        tests,
        sides.left,
        sides.right,
        sides.universal,
        count,
        limit,
    )
}

// Runs the walk and returns its evidence, unless it stops at a limit.
fn evidence_of(
    alloc: Global,
    store: &mut Store,
    problem: &Problem,
    walk: &mut Worklist,
) -> Result<Evidence, EarlyStop>
    requires within { IsProblem problem.now }
    requires under_way { IsUnderWay problem.now store.old walk.old 0 }
    ensures decision { IfOk result (IsDecisionUpTo problem.now walk.old.listed.limit) }
    ensures nodes { IfOk result (λ e. (t : Term) → Has (node_terms e) t → HasTree store.new t) }
    ensures past { result ≡ Err PairLimit → HasPairsPast problem.now walk.old.listed.limit }
    ensures limited { result ≡ Err CostLimit → IsSome walk.old.listed.limit }
    ensures kept { Grows store.old store.new }
    ensures store { AreNodes store.new }
{
    let found = walk.run(alloc, store, problem);
    // The proof needs the invariants of the store, also when out of memory.
    let _ = store.count();
    match found? {
        Some(difference) => {
            let string = string_to(alloc, walk.pairs(), difference.place, difference.atom)?;
            Ok(Evidence::Different(string))
        }
        None => {
            let pairs = stored_pairs_of(alloc, walk.pairs())?;
            let cert = cert_of(alloc, store, Style::UpTo, &pairs)?;
            Ok(Evidence::Equal(cert))
        }
    }
}

// Runs the walk. Returns whether it found no difference, unless it stops at a limit.
fn ends_same(
    alloc: Global,
    store: &mut Store,
    problem: &Problem,
    walk: &mut Worklist,
) -> Result<bool, EarlyStop>
    requires { IsUnderWay problem.now store.old walk.old 0 }
    ensures same { IfOk result (λ same. IsTrue same ↔ Same problem.now) }
    ensures past { result ≡ Err PairLimit → HasPairsPast problem.now walk.old.listed.limit }
    ensures limited { result ≡ Err CostLimit → IsSome walk.old.listed.limit }
    ensures kept { Grows store.old store.new }
{
    if let Some(_) = walk.run(alloc, store, problem)? {
        return Ok(false);
    }
    Ok(true)
}

/// Decides whether both sides of `problem` denote the same relation in each table that satisfies the hypotheses.
/// Returns evidence: a certificate whose pairs are a bisimulation up to congruence without redundant pairs (Bonchi and
/// Pous 2013), at most `limit` if there is a limit, or a string that refutes the problem and has the fewest moves. Fails
/// with `EarlyStop::PairLimit` only if there are more such pairs than the limit, and with `EarlyStop::CostLimit` only if
/// there is a limit. Unless it runs out of memory, the store has ids of both closed sides, and then of the terms of a
/// certificate's nodes. All older ids keep their trees; on failure, extra nodes may remain.
pub fn decide_up_to(
    alloc: Global,
    store: &mut Store,
    problem: &Problem,
    limit: Option<usize>,
) -> Result<Evidence, EarlyStop>
    requires room { IsWithinLimit limit 1 }
    ensures decision { IfOk result (IsDecisionUpTo problem.now limit) }
    ensures nodes { IfOk result (λ e. (t : Term) → Has (node_terms e) t → HasTree store.new t) }
    ensures sides { OnOk result (HasSides store.new problem.now) }
    ensures past { result ≡ Err PairLimit → HasPairsPast problem.now limit }
    ensures limited { result ≡ Err CostLimit → IsSome limit }
    ensures past_sides { result ≡ Err PairLimit → HasSides store.new problem.now }
    ensures limited_sides { result ≡ Err CostLimit → HasSides store.new problem.now }
    ensures kept { Grows store.old store.new }
    ensures store { AreNodes store.new }
{
    let mut walk = walk_of(alloc, store, problem, limit)?;
    evidence_of(alloc, store, problem, &mut walk)
}

/// Returns whether both sides of `problem` denote the same relation in each table that satisfies the hypotheses, by the
/// walk of `decide_up_to`, but without evidence. Fails with `EarlyStop::PairLimit` only if there are more pairs without a
/// redundant one than the limit, and with `EarlyStop::CostLimit` only if there is a limit. All older ids keep their
/// trees; on failure, extra nodes may remain.
pub fn is_same_up_to(
    alloc: Global,
    store: &mut Store,
    problem: &Problem,
    limit: Option<usize>,
) -> Result<bool, EarlyStop>
    requires room { IsWithinLimit limit 1 }
    ensures same { IfOk result (λ same. IsTrue same ↔ Same problem.now) }
    ensures past { result ≡ Err PairLimit → HasPairsPast problem.now limit }
    ensures limited { result ≡ Err CostLimit → IsSome limit }
    ensures kept { Grows store.old store.new }
{
    let mut walk = walk_of(alloc, store, problem, limit)?;
    ends_same(alloc, store, problem, &mut walk)
}
