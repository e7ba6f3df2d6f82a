//! The lines of notes: first nodes, then notes.
ghost use Rattle.std.specs.Prelude.{◌≡◌};
ghost use Rattle.line_format.specs.Readings.{texts};
ghost use Rattle.line_format.specs.Numerals.{numbers_of};
ghost use Rattle.std.specs.Option.{option_map, option_and_then};
ghost use Rattle.outline_rules.specs.Forms.{node_of, note_of, line_of_words, read_line};
ghost use Rattle.outline_rules.specs.Faults.{section_of};
ghost use Rattle.outline_rules.specs.Working.Readings.{ReadsLine};
ghost use Rattle.outline_rules.specs.declared.line.NoteLine.TheVariants.{Node, Note};
ghost use Rattle.outline_rules.specs.declared.line.LineFault.TheVariants.{NoMemory as NoRoom};

use crate::notes::NoteNode;
use kat_model::NoMemory;
use line_format::{read_numbers, words_of};
use std::alloc::Global;

// The content of a line of notes.
#[derive(Clone, Copy)]
pub(crate) enum NoteLine {
    Node(NoteNode),
    Note(usize),
}

// The parts of notes, in the order of the text.
#[derive(Clone, Copy)]
pub(crate) enum Section {
    Nodes,
    Notes,
}

// Why a line cannot be read.
#[derive(Clone, Copy)]
pub(crate) enum LineFault {
    NoMemory,
    Form,
    Wide(Section),
}

impl From<NoMemory> for LineFault {
    ghost from_gives = { λ _ fault. fault ≡ NoRoom };

    fn from(_: NoMemory) -> Self {
        LineFault::NoMemory
    }
}

impl NoteLine {
    pub(crate) fn section(self) -> Section
        ensures { result ≡ section_of self }
    {
        match self {
            NoteLine::Node(_) => Section::Nodes,
            NoteLine::Note(_) => Section::Notes,
        }
    }
}

// Returns the node with this name and these numbers, if any.
fn node(name: &[u8], numbers: &[usize]) -> Option<NoteNode>
    ensures { result ≡ node_of name.now numbers.now }
{
    match numbers {
        [] => {
            if name == b"false".as_slice() {
                return Some(NoteNode::False);
            }
            if name == b"true".as_slice() {
                return Some(NoteNode::True);
            }
            None
        }
        [test, low, high] => {
            if name == b"test".as_slice() {
                return Some(NoteNode::Branch(*test, *low, *high));
            }
            None
        }
        _ => None,
    }
}

// Returns the note with these numbers, if there is exactly one number.
fn note(numbers: &[usize]) -> Option<NoteLine>
    ensures { result ≡ note_of numbers.now }
{
    match numbers {
        [node] => Some(NoteLine::Note(*node)),
        _ => None,
    }
}

fn node_line(alloc: Global, name: &[u8], words: &[&[u8]]) -> Result<NoteLine, LineFault>
    ensures { ReadsLine (option_map Node (option_and_then (node_of name.now) (numbers_of (texts words.now)))) result }
{
    let Some(numbers) = read_numbers(alloc, words)? else {
        return Err(LineFault::Form);
    };
    match node(name, &numbers.values) {
        None => Err(LineFault::Form),
        Some(node) => {
            if numbers.wide {
                return Err(LineFault::Wide(Section::Nodes));
            }
            Ok(NoteLine::Node(node))
        }
    }
}

fn note_line(alloc: Global, words: &[&[u8]]) -> Result<NoteLine, LineFault>
    ensures { ReadsLine (option_and_then note_of (numbers_of (texts words.now))) result }
{
    let Some(numbers) = read_numbers(alloc, words)? else {
        return Err(LineFault::Form);
    };
    match note(&numbers.values) {
        None => Err(LineFault::Form),
        Some(line) => {
            if numbers.wide {
                return Err(LineFault::Wide(Section::Notes));
            }
            Ok(line)
        }
    }
}

// Reads the content of a line from its words. The first word selects the form.
fn line_of(alloc: Global, words: &[&[u8]]) -> Result<NoteLine, LineFault>
    ensures { ReadsLine (line_of_words (texts words.now)) result }
{
    match words {
        [kind, name, rest @ ..] if *kind == b"D".as_slice() => node_line(alloc, name, rest),
        [kind, rest @ ..] if *kind == b"C".as_slice() => note_line(alloc, rest),
        _ => Err(LineFault::Form),
    }
}

// Reads the content of a line.
pub(crate) fn read_line(alloc: Global, line: &[u8]) -> Result<NoteLine, LineFault>
    ensures { ReadsLine (read_line line.now) result }
{
    let words = words_of(alloc, line)?;
    line_of(alloc, words.as_slice())
}
