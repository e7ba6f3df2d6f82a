//! Reads a text of GKAT.
ghost use Rattle.std.specs.Prelude.{◌≡◌, ◌≤◌, length, IfErr};
ghost use Rattle.text_parser.specs.declared.fault.TextFault.TheVariants.{NoMemory as NoRoom};
ghost use Rattle.text_parser.specs.declared.lexer.TheConstants.{MAX_LEN as MOST};
ghost use Rattle.text_parser.specs.Lexemes.{lexemes};
ghost use Rattle.text_parser.specs.Parsed.{Makes};
ghost use Rattle.problem_file.specs.Tokens.{AreTokens};
ghost use Rattle.gkat_front.specs.Files.{GkatFileParts};
ghost use Rattle.gkat_front.specs.FileViews.{file_parts};
ghost use Rattle.gkat_front.specs.Making.{parse_items, tested};
ghost use Rattle.gkat_front.specs.Reads.{Reads, Answers};
ghost use Rattle.gkat_front.specs.Working.States.{state_of};

use crate::file::GkatFile;
use crate::items::read_items;
use crate::reader::GkatReader;
use crate::scan::test_syntax;
use problem_file::{fault_in_text, text_of};
use std::alloc::Global;
use text_parser::{TextFault, Token, tokens};

fn parse_items(alloc: Global, toks: &[Token]) -> Result<GkatReader, TextFault>
    requires tokens { AreTokens toks.now }
    ensures { Makes (Unit {0}) state_of result (parse_items (lexemes toks.now)) }
{
    let mut reader = GkatReader::new(alloc);
    read_items(&mut reader, toks)?;
    Ok(reader)
}

// Returns the file, or the first fault of the tokens.
fn test(alloc: Global, toks: &[Token]) -> Result<GkatFile, TextFault>
    requires tokens { AreTokens toks.now }
    ensures { Makes (Unit {0}) file_parts result (tested (lexemes toks.now)) }
{
    test_syntax(toks)?;
    parse_items(alloc, toks)?.file()
}

fn read_text(alloc: Global, text: &str) -> Result<GkatFile, TextFault>
    requires within { length text.now ≤ MOST }
    ensures { Answers text.now result }
{
    let toks = tokens(alloc, text)?;
    match test(alloc, &toks) {
        Ok(file) => Ok(file),
        Err(fault) => Err(fault_in_text(fault, text.len())),
    }
}

/// Returns the contents of a text of GKAT. Otherwise fails with the first fault, in this order: `TooLong` for more than
/// `MAX_LEN` bytes; `NotUtf8`; `BadToken`; the first in text order of `Syntax`, of `TooDeep` if more than `MAX_OPEN`
/// constructs are open, and of `NumberTooWide` for 2^64 or more; the first fault of the first item that has one (at its
/// keyword `TwoGoals` for a second `equal`; at its tokens `DoubleName`, `TooMany`, `UnknownName`, `Sort`; and last, at
/// its keyword, `TooLarge` if a side has more than `MAX_TERM_NODES` nodes); `NoGoal` if no item is an `equal`.
pub fn read_gkat(alloc: Global, bytes: &[u8]) -> Result<GkatFile, TextFault>
    // The file is the one that the bytes denote; a failure is `NoMemory` or the first fault of the bytes.
    ensures answers { Answers bytes.now result }

    // Bytes that denote a file fail only when out of memory.
    ensures only { (f : GkatFileParts) → Reads bytes.now f → IfErr result (λ e. e ≡ NoRoom) }
{
    let text = text_of(bytes)?;
    read_text(alloc, text)
}
