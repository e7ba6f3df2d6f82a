//! The closed sides of a problem in a store.
ghost use Rattle.std.specs.Prelude.{IfOk, IfSome, OnErr, ◌≡◌};
ghost use Rattle.std.specs.Option.{option_map};
ghost use Rattle.goal_forms.specs.ClosedTrees.{closed_trees};
ghost use Rattle.term_nodes.specs.NodeLists.{AreNodes, IsTerm};
ghost use Rattle.term_nodes.specs.NodeTrees.{tree_at};
ghost use Rattle.term_nodes.specs.Growth.{Grows};
ghost use Rattle.walk_pairs.specs.ClosedTerms.{AreIdsOf};

use goal_forms::Closed;
use kat_model::NoMemory;
use term_store::{Store, TermId};

/// The ids of the closed sides, and of the universal term if there is one.
#[derive(Clone, Copy)]
pub struct ClosedIds {
    pub left: TermId,
    pub right: TermId,
    pub universal: Option<TermId>,
}

// Returns the id of the universal term, if there is one.
fn universal_id(store: &mut Store, closed: &Closed) -> Result<Option<TermId>, NoMemory>
    ensures tree { IfOk result (λ u. option_map (tree_at store.new) u ≡ (closed_trees closed.now).universal) }
    ensures is_id { IfOk result (λ u. IfSome u (IsTerm store.new)) }
    ensures kept { Grows store.old store.new }
    ensures refused { OnErr result (AreNodes store.new) }
{
    match &closed.universal {
        Some(term) => Ok(Some(store.of_tree(term)?)),
        None => Ok(None),
    }
}

/// Returns the ids of the closed sides and of the universal term. Fails only when out of memory; extra nodes may remain
/// then.
pub fn closed_ids(store: &mut Store, closed: &Closed) -> Result<ClosedIds, NoMemory>
    ensures ids { IfOk result (AreIdsOf store.new (closed_trees closed.now)) }
    ensures kept { Grows store.old store.new }
    ensures store { AreNodes store.new }
{
    // The proof needs the rules of the store.
    let _ = store.count();
    let left = store.of_tree(&closed.left)?;
    let right = store.of_tree(&closed.right)?;
    let universal = universal_id(store, closed)?;
    // It needs them again if no universal term was added.
    let _ = store.count();
    Ok(ClosedIds {
        left,
        right,
        universal,
    })
}
