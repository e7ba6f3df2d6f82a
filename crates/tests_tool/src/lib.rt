//! Tests of `run`, the calls on bytes, and the real ends.
#![tactic(auto)]

#[cfg(test)]
mod bytes;
#[cfg(test)]
mod ends;
#[cfg(test)]
mod faults;
#[cfg(test)]
mod fixtures;
#[cfg(test)]
mod generated;
#[cfg(test)]
mod lines;
