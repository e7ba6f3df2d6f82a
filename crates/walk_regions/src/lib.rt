//! Pairs of sets with the atoms at which a walk reached them.
//!
//! The walk under tests lists them: lookup by sets, joining of sets at atoms, the parts into which a step divides its
//! atoms, and the merged pairs. `AllowedMoves` has the atoms and moves that short hypotheses allow, as diagrams: the image
//! of a region under the allowed moves by an action, and an atom from which one leads to a given atom.
#![tactic(auto)]

mod allowed;
mod bars;
mod entry;
mod entry_list;
mod listing;
mod merging;
mod parts;
mod querying;
mod reaching;
mod test_table;

pub use allowed::AllowedMoves;
pub use entry::{Entry, StepOrigin};
pub use entry_list::EntryList;
pub use listing::{Listing, TargetSets, listed_atoms, place_with, unlisted_part};
pub use merging::merged_pairs;
pub use parts::{Part, differing_part, parts_of};
