//! Named programs, which later programs may use.
ghost use Rattle.std.specs.Prelude.{◌≡◌};
ghost use Rattle.text_parser.specs.Sizes.{capped};
ghost use Rattle.while_lang.specs.ProgramSizes.{prog_size};

use crate::prog::Prog;
use crate::size::prog_size;
use kat_model::{Items, MAX_TERM_NODES};

/// A program of a file, its name, and the nesting of the block that defines it, including its own braces. Its size is
/// computed once, on construction.
#[derive(Drop)]
pub struct NamedProg {
    pub name: Items<u8>,
    pub prog: Prog,
    pub nesting: usize,
    size: u64,
    ghost measured: { size ≡ capped (prog_size prog) },
}

impl NamedProg {
    /// Makes a named program and computes its size, once, so that each use of the program in a block takes one look-up.
    pub fn new(name: Items<u8>, prog: Prog, nesting: usize) -> NamedProg
        ensures name { result.name ≡ name }
        ensures prog { result.prog ≡ prog }
        ensures nesting { result.nesting ≡ nesting }
    {
        let size = prog_size(&prog).min(MAX_TERM_NODES + 1);
        NamedProg {
            name,
            prog,
            nesting,
            size,
        }
    }

    /// Returns the number of nodes of the program, at most 100,001.
    pub fn size(&self) -> u64
        ensures { result ≡ capped (prog_size self.now.prog) }
    {
        self.size
    }
}
