//! Where loops are cut, which variables are live, elimination of places.
//!
//! The places of a graph are its entry and the blocks at which its loops are cut, and the term of the paths through a
//! graph is found by elimination of its places.
#![tactic(auto)]

mod eliminating;
mod elimination;
mod fault;
mod finding;
mod inside;
mod laws;
mod live;
mod reads;
mod shape;
mod sizes;
mod term_fault;
mod walk;

pub use eliminating::eliminated;
pub use elimination::Row;
pub use fault::PlaceFault;
pub use finding::places;
pub use inside::blocks_from;
pub use laws::{
    back_edges_cut_loops, live_sets_are_least, places_cut_runs, rows_are_eliminated,
    walks_reach_blocks,
};
pub use live::live_sets;
pub use reads::{mark_expr, with_conditions, with_operands};
pub use term_fault::TermFault;
