//! An equivalent program with exactly one loop and one additional variable.
//!
//! One loop is enough: each program over variables has a form with exactly one loop and one additional variable, which
//! ends in the same stores (the folk theorem of while programs: Harel 1980; in Kleene algebra with tests Kozen 1997).
//!
//! The statements of the program are numbered from the last to the first, and the statements of blocks after the
//! statement that contains them. In the form, a counter holds the number of the next statement, and 0 is the end. The
//! loop finds the statement by bisection, runs it, and sets the counter to the number of the statement that follows. As
//! an example, the form of
//!
//! ```text
//! while (x < 3) {
//!   x := x + 1;
//! }
//! ```
//!
//! with the counter `pc` is
//!
//! ```text
//! pc := 1;
//! while (pc != 0) {
//!   if (pc < 2) {
//!     if (x < 3) {
//!       pc := 2;
//!     } else {
//!       pc := 0;
//!     }
//!   } else {
//!     x := x + 1;
//!     pc := 1;
//!   }
//! }
//! ```
#![tactic(auto)]

mod blocks;
mod choice;
mod fault;
mod form;
mod laws;
mod points;
mod statements;

pub use fault::OneLoopFault;
pub use form::one_loop;
pub use laws::forms_end_as_programs;
