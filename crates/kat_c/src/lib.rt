//! The commands on bytes, for callers in C.
//!
//! `include/kat.h` declares them and `docs/embedding.md` says what a caller must keep to, since nothing checks it.
//!
//! Each call but `kat_version` takes its texts, a piece of memory for the output and a place for the length of the whole
//! output. If the output fits, it is written to the start of the memory and the status is that of the call on bytes.
//! Otherwise nothing is written there, and the status is 9. If memory ran out, the status is 6 and the length is 0. Nothing
//! is kept between calls.
#![tactic(auto)]

pub mod checking;
pub mod deciding;
mod giving;
pub mod outlining;
pub mod programs;
pub mod version;
