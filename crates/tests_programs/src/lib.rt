//! Tests of GKAT, generated problems and the optimiser.
#![tactic(auto)]

#[cfg(test)]
mod bounds;
#[cfg(test)]
mod generated;
#[cfg(test)]
mod optimising;
#[cfg(test)]
mod texts;
