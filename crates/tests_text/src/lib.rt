//! Tests on texts, programs, problem files, goals and abstractions.
#![tactic(auto)]

#[cfg(test)]
mod abstractions;
#[cfg(test)]
mod comparisons;
#[cfg(test)]
mod files;
#[cfg(test)]
mod fixtures;
#[cfg(test)]
mod flow_files;
#[cfg(test)]
mod goals;
#[cfg(test)]
mod lists;
#[cfg(test)]
mod phrases;
#[cfg(test)]
mod programs;
#[cfg(test)]
mod token_texts;
