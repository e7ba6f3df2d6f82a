//! Builds the string that leads to a listed pair.
ghost use Rattle.std.specs.Prelude.{◌≡◌, ◌<◌, [], ℕ, List, length, slice_get, Some, None, IfOk, MatchOption};
ghost use Rattle.walk_up_to.specs.Walks.{StepOrigin as StepOrigin', after_trail};
ghost use Rattle.walk_up_to.specs.Listings.{AreTraced, LeadsBack, origin_of};

use crate::pair::{ListedPair, StepOrigin};
use kat_model::{Items, NoMemory, append};
use std::alloc::Global;
use std::mem;
use string_tables::{GString, Move};

// Returns the step that led to the pair at `place`, if there is one.
fn origin_at(pairs: &[ListedPair], place: usize) -> Option<&StepOrigin>
    ensures { MatchOption result (origin_of pairs.now place ≡ None) (λ o. origin_of pairs.now place ≡ Some o.now) }
{
    match pairs.get(place) {
        Some(pair) => pair.origin.as_ref(),
        None => None,
    }
}

/// Returns the string of the steps from the first pair to the pair at `place`, with the atom `last` at its end.
pub(crate) fn string_to(
    alloc: Global,
    pairs: &[ListedPair],
    place: usize,
    last: Vec<bool>,
) -> Result<GString, NoMemory>
    requires traced { AreTraced pairs.now }
    requires place { place < length pairs.now }
    ensures { IfOk result (λ x. (trail : List StepOrigin') × LeadsBack pairs.now place trail × (x ≡ after_trail trail (record { first = last.items; rest = [] }))) }
{
    let mut place = place;
    let mut first = last;
    let mut moves = Vec::new(alloc);
    while let Some(origin) = origin_at(pairs, place) {
        let before = origin.atom.as_slice().to_vec(alloc)?;
        let atom = Items::of(mem::replace(&mut first, before));
        let act = origin.act;
        append(&mut moves, Move { act, atom })?;
        place = origin.place;
    }
    moves.reverse();
    Ok(GString {
        first: Items::of(first),
        rest: Items::of(moves),
    })
}
