//! Reads the text of a problem file.
ghost use Rattle.std.specs.Prelude.{◌≡◌, ◌≤◌, ◌⊎◌, List, map, length, IfOk, IfErr, MatchResult};
ghost use Rattle.text_parser.specs.declared.fault.TextFault.TheVariants.{NoMemory as NoRoom};
ghost use Rattle.text_parser.specs.Lexemes.{lexemes};
ghost use Rattle.text_parser.specs.Parsed.{Makes};
ghost use Rattle.text_parser.specs.declared.lexer.TheConstants.{MAX_LEN as MOST};
ghost use Rattle.while_lang.specs.Files.{GoalTree, FileParts};
ghost use Rattle.problem_file.specs.Files.{start};
ghost use Rattle.while_lang.specs.Trees.{goal_tree};
ghost use Rattle.problem_file.specs.Making.{parse_items};
ghost use Rattle.problem_file.specs.Tokens.{AreTokens};
ghost use Rattle.problem_file.specs.Working.States.{state_of};
ghost use Rattle.problem_file.specs.FirstFaults.{IsNoText, placed};
ghost use Rattle.problem_file.specs.Reads.{Denotes, HasFirstFault, Reads, ReadsAll, FirstFaultOfAll, tested, Answers};
ghost use Rattle.problem_file.specs.Working.Files.{AnswersFor};

use crate::goal_limit::GoalLimit;
use crate::item_reader::ItemReader;
use crate::items::read_items;
use crate::syntax::test_syntax;
use std::alloc::Global;
use text_parser::{MAX_LEN, TextFault, Token, tokens};
use while_lang::{File, Goal};

/// Returns the bytes as a text. Fails with `TooLong` past `MAX_LEN` bytes, or with `NotUtf8` and the length of the
/// longest prefix that is valid UTF-8.
pub fn text_of(bytes: &[u8]) -> Result<&str, TextFault>
    ensures text { IfOk result (λ text. text.now ≡ bytes.now) }
    ensures within { IfOk result (λ text. length text.now ≤ MOST) }
    ensures fault { IfErr result (IsNoText bytes.now) }
{
    if bytes.len() > MAX_LEN {
        return Err(TextFault::TooLong);
    }
    match std::str::from_utf8(bytes) {
        Ok(text) => Ok(text),
        Err(fault) => Err(TextFault::NotUtf8(fault.valid_up_to())),
    }
}

/// Returns the fault as reported for a text of length `len`: a `Syntax` after the last token is placed at the end of
/// the text.
pub fn fault_in_text(fault: TextFault, len: usize) -> TextFault
    ensures { result ≡ placed len fault }
{
    match fault {
        TextFault::Syntax(at) => TextFault::Syntax(at.min(len)),
        other => other,
    }
}

fn parse_items(alloc: Global, toks: &[Token], limit: GoalLimit) -> Result<ItemReader, TextFault>
    requires tokens { AreTokens toks.now }
    ensures { Makes (Unit {0}) state_of result (parse_items (start limit) (lexemes toks.now)) }
{
    let mut reader = ItemReader::new(alloc, limit);
    read_items(&mut reader, toks)?;
    Ok(reader)
}

// Returns the file and the goals after its first, or the first fault of the tokens.
fn test(alloc: Global, toks: &[Token], limit: GoalLimit) -> Result<(File, Vec<Goal>), TextFault>
    requires tokens { AreTokens toks.now }
    ensures { Makes (Unit {0}) (λ x. (x.0, map goal_tree x.1.items)) result (tested limit (lexemes toks.now)) }
{
    test_syntax(toks)?;
    parse_items(alloc, toks, limit)?.files()
}

fn read_text(alloc: Global, text: &str, limit: GoalLimit) -> Result<(File, Vec<Goal>), TextFault>
    requires within { length text.now ≤ MOST }
    ensures { AnswersFor limit text.now result }
{
    let toks = tokens(alloc, text)?;
    match test(alloc, &toks, limit) {
        Ok(files) => Ok(files),
        Err(fault) => Err(fault_in_text(fault, text.len())),
    }
}

fn read_files(alloc: Global, bytes: &[u8], limit: GoalLimit) -> Result<(File, Vec<Goal>), TextFault>
    ensures { AnswersFor limit bytes.now result }
{
    let text = text_of(bytes)?;
    read_text(alloc, text, limit)
}

/// Reads the text of a problem file. An invalid text is refused with its first fault, in this order: `TooLong` past
/// `MAX_LEN` bytes; `NotUtf8`; `BadToken`; the first in text order of `Syntax`, of `TooDeep` if more than `MAX_OPEN`
/// are open, and of `NumberTooWide` from 2^64 on; the first fault of the first item that has one (at its keyword
/// `TwoGoals`, `DoubleName`, `Sort` of a late `width`, `TooMany`; at its tokens `DoubleName`, `UnknownName`, `Sort`,
/// `TooDeep` through a defined name, `TooMany`; in a program or a goal `NumberTooWide` from 2 to the width on; and last
/// `TooLarge`); `NoGoal`.
pub fn read(alloc: Global, bytes: &[u8]) -> Result<File, TextFault>
    // The bytes denote the file; a fault is `NoMemory` or the first fault of the bytes.
    ensures answers { Answers bytes.now result }

    // Bytes that denote a file fail only when out of memory.
    ensures only { (f : FileParts) → Reads bytes.now f → IfErr result (λ e. e ≡ NoRoom) }
{
    match read_files(alloc, bytes, GoalLimit::One) {
        Ok((file, _)) => Ok(file),
        Err(fault) => Err(fault),
    }
}

/// Reads a text with one to `MAX_GOALS` goals: returns the file with its first goal, and the goals after it in text
/// order. The other fields of the file are those of the whole text, and the total size counts all goals. Refuses as
/// `read` does, except for `TwoGoals`: a 65th goal is `TooMany` at its keyword.
pub fn read_all(alloc: Global, bytes: &[u8]) -> Result<(File, Vec<Goal>), TextFault>
    // The bytes denote the file and the goals; a fault is `NoMemory` or the first fault of the bytes.
    ensures answers { MatchResult result (λ x. ReadsAll bytes.now x.0 (map goal_tree x.1.items)) (λ e. (e ≡ NoRoom) ⊎ FirstFaultOfAll bytes.now e) }

    // Bytes that denote a file fail only when out of memory.
    ensures only { (f : FileParts) (more : List GoalTree) → ReadsAll bytes.now f more → IfErr result (λ e. e ≡ NoRoom) }
{
    read_files(alloc, bytes, GoalLimit::Batch)
}
