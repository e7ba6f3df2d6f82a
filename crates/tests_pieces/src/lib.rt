//! Tests of evidence for pieces.
#![tactic(auto)]

#[cfg(test)]
mod evidence;
