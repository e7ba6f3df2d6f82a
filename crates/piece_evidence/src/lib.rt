//! Evidence for pieces: sections of a number and a text each.
#![tactic(auto)]

mod draft;
mod fault;
mod laws;
mod reading;
mod section;
mod writing;

pub use fault::SectionFault;
pub use laws::{sections_are_read, texts_are_evidence};
pub use reading::read_sections;
pub use section::Section;
pub use writing::{put_end, put_header, put_section};
