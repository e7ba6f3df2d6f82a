//! Evidence for an answer, and its text.
#![tactic(auto)]

mod cert;
mod draft;
mod entry;
mod evidence;
mod laws;
mod moves;
mod nodes;
mod reading;
mod string_draft;
mod texts;
mod writing;

pub use cert::Cert;
pub use evidence::{Evidence, EvidenceFault};
pub use laws::{
    accepted_are_same, faults_are_first, is_text_or_faulty, lines_have_one_spelling,
    nodes_have_trees, texts_are_plain, texts_differ,
};
pub use nodes::{Pair, Style, TermNode, TestNode};
pub use reading::read;
pub use writing::write;
