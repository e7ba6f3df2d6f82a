//! Tests of the prover, of evidence, strings and chains.
#![tactic(auto)]

#[cfg(test)]
mod chains;
#[cfg(test)]
mod deciding;
#[cfg(test)]
mod derivatives;
#[cfg(test)]
mod diagrams;
#[cfg(test)]
mod evidence_texts;
#[cfg(test)]
mod stores;
#[cfg(test)]
mod strings;
