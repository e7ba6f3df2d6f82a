//! A shelf of named contents to read, and a sink of bytes.
#![tactic(auto)]

mod mem_shelf;
mod mem_sink;
mod outside;
mod system;

pub use mem_shelf::MemShelf;
pub use mem_sink::MemSink;
pub use outside::{Failed, GetFault, Shelf, Sink, send};
pub use system::{FileShelf, Folder, FolderShelf, Opener, StdoutSink, WriterSink};
