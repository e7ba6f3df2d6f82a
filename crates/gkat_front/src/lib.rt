//! Guarded Kleene algebra with tests: its texts and its terms.
//!
//! Source: Smolka et al. 2020. The crate also checks whether a term is guarded.
#![tactic(auto)]

mod bound;
mod encoding;
mod file;
mod gkat;
mod gkat_reading;
mod guards;
mod item_reading;
mod items;
mod laws;
mod making;
mod print;
mod products;
mod reader;
mod reading;
mod scan;
mod walk;

pub use bench_problems::bench_problem;
pub use bound::pair_bound;
pub use encoding::kat_of;
pub use file::GkatFile;
pub use gkat::Gkat;
pub use guards::guarded;
pub use laws::{
    expressions_are_guarded, have_one_answer, printed_expressions_read_back, texts_are_made,
    texts_are_scanned,
};
pub use print::print_gkat;
pub use reading::read_gkat;
