//! The lines of a string: its first atom, and its moves.
ghost use Rattle.std.specs.Prelude.{◌≡◌, ◌==◌, map, IfOk};
ghost use Rattle.std.specs.List.{list_all};
ghost use Rattle.line_format.specs.Readings.{texts};
ghost use Rattle.certificate.specs.Forms.{is_bit, bits_of, atom_of_words, first_of, move_after, move_of};
ghost use Rattle.certificate.specs.Working.Readings.{ReadsMove};
ghost use Rattle.certificate.specs.declared.moves.MoveFault.TheVariants.{NoMemory as NoRoom};

use crate::texts::is_text;
use kat_model::{Items, NoMemory};
use line_format::{is_numeral, number_of, words_of};
use std::alloc::Global;
use string_tables::Move;

// Why a line is not a move.
#[derive(Clone, Copy)]
pub(crate) enum MoveFault {
    NoMemory,
    Form,
    Wide,
}

impl From<NoMemory> for MoveFault {
    ghost from_gives = { λ _ fault. fault ≡ NoRoom };

    fn from(_: NoMemory) -> Self {
        MoveFault::NoMemory
    }
}

fn all_bits(word: &[u8]) -> bool
    ensures { result ≡ list_all is_bit word.now }
{
    word.iter().all(|c| *c == b'0' || *c == b'1')
}

fn values_of(alloc: Global, word: &[u8]) -> Result<Vec<bool>, NoMemory>
    ensures { IfOk result (λ values. values.items ≡ map (λ c. c == 49) word.now) }
{
    Ok(word.iter().map(|c| *c == b'1').collect(alloc)?)
}

// Returns the truth values of a word of bits.
fn bits(alloc: Global, word: &[u8]) -> Result<Option<Items<bool>>, NoMemory>
    ensures { IfOk result (λ read. read ≡ bits_of word.now) }
{
    if word.is_empty() {
        return Ok(None);
    }
    if !all_bits(word) {
        return Ok(None);
    }
    Ok(Some(Items::of(values_of(alloc, word)?)))
}

// Returns the truth values of no word, or of a word of bits.
fn atom(alloc: Global, words: &[&[u8]]) -> Result<Option<Items<bool>>, NoMemory>
    ensures { IfOk result (λ read. read ≡ atom_of_words (texts words.now)) }
{
    match words {
        [] => Ok(Some(Items::of(Vec::new(alloc)))),
        [word] => bits(alloc, word),
        _ => Ok(None),
    }
}

// Reads the first atom of a string.
pub(crate) fn read_first(alloc: Global, line: &[u8]) -> Result<Option<Items<bool>>, NoMemory>
    ensures { IfOk result (λ read. read ≡ first_of line.now) }
{
    let words = words_of(alloc, line)?;
    match words.as_slice() {
        [kind, rest @ ..] => {
            if is_text(kind, b"A") {
                return atom(alloc, rest);
            }
            Ok(None)
        }
        _ => Ok(None),
    }
}

// Reads a move from an action and an atom.
fn move_from(alloc: Global, act: &[u8], words: &[&[u8]]) -> Result<Move, MoveFault>
    ensures { ReadsMove (move_after act.now (texts words.now)) result }
{
    if !is_numeral(act) {
        return Err(MoveFault::Form);
    }
    let Some(atom) = atom(alloc, words)? else {
        return Err(MoveFault::Form);
    };
    match number_of(act) {
        Some(act) => Ok(Move { act, atom }),
        None => Err(MoveFault::Wide),
    }
}

// Reads a move from a line.
pub(crate) fn read_move(alloc: Global, line: &[u8]) -> Result<Move, MoveFault>
    ensures { ReadsMove (move_of line.now) result }
{
    let words = words_of(alloc, line)?;
    match words.as_slice() {
        [kind, act, rest @ ..] => {
            if is_text(kind, b"M") {
                return move_from(alloc, act, rest);
            }
            Err(MoveFault::Form)
        }
        _ => Err(MoveFault::Form),
    }
}
