//! Problem files, read and written.
//!
//! Tests, actions, variables, terms, programs, hypotheses and a goal, read from their text; and plain texts: the plainest
//! text that asks a question, with tests `t0`, `t1`, .., actions `a0`, `a1`, .., hypotheses, and a goal `equal`; the same
//! with other names; the plainest texts of goals about programs over variables `x0`, `x1`, ..; and the text of one program
//! over variables of any names.
#![tactic(auto)]

mod goal_limit;
mod item_reader;
mod item_reading;
mod items;
mod laws;
mod making;
mod names;
mod phrase;
mod program_writing;
mod reading;
mod scope;
mod syntax;
mod triple;
mod writing;

pub use laws::{
    are_in_ranges, commented_texts_read_back, files_are_scanned, have_one_answer, items_are_folded,
    items_are_made, named_programs_read_back, named_texts_read_back, plain_programs_read_back,
    plain_texts_read_back, plain_triples_read_back,
};
pub use names::{name_at, number_at};
pub use program_writing::one_program_text;
pub use reading::{fault_in_text, read, read_all, text_of};
pub use scope::{declare, numbered_scope, plain_scope};
pub use while_lang::{File, Goal, Side};
pub use writing::{put_action_name, put_actions, put_goal, put_hyp, put_test_name, put_tests};
