//! Programs over variables as terms over tests and actions, with hypotheses.
//!
//! The tests and actions of a goal have tables, over whose rows its conditions and programs are terms; each hypothesis
//! over these tables has the rule by which it holds.
#![tactic(auto)]

mod assignments;
mod comparisons;
mod conditions;
mod facts;
mod fault;
mod file_abstract;
mod file_tables;
mod flows;
mod goals;
mod hypotheses;
mod laws;
mod problem;
mod rounds;
mod rows;
mod rule;
mod shown;
mod tables;

pub use fault::AbstractFault;
pub use file_abstract::{abstracted, abstracted_for};
pub use laws::{
    derived_hypotheses_hold, goals_hold_by_readings, same_sides_agree, tables_are_shown,
};
pub use problem::Abstract;
pub use rows::{ActionRow, TestRow};
pub use rule::Rule;
pub use shown::{flow_of, test_of};
