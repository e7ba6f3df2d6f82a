//! Pairs of sets of stored terms, their moves and their certificate.
//!
//! Both walks use it: the moves of both sets side by side, atoms at which diagrams are true, and the certificate of listed
//! pairs.
#![tactic(auto)]

mod cert;
mod closed;
mod found;
mod items;
mod needed;
mod order;
mod outputs;
mod pair;

pub use cert::cert_of;
pub use closed::{ClosedIds, closed_ids};
pub use found::{BothSteps, Difference};
pub use items::{Ends, Item, Side, ends_of, guard_across, guard_on, items_of};
pub use order::actions_in_order;
pub use outputs::{and_not, difference, differing_atom, true_atom};
pub use pair::StoredPair;
