//! The entries of a certificate, each on a line: test nodes, term nodes and pairs.
ghost use Rattle.std.specs.Prelude.{◌≡◌, ◌||◌, ◌∷◌, [], ℕ, List, map, Some, IfOk};
ghost use Rattle.std.specs.List.{slice_split};
ghost use Rattle.std.specs.Option.{option_map, option_and_then};
ghost use Rattle.line_format.specs.Numerals.{numbers_of};
ghost use Rattle.line_format.specs.Readings.{texts, HasNumbers};
ghost use Rattle.certificate.specs.Forms.{test_node_of, term_node_of, is_bar, pair_with, pair_of, entry_of_words, entry_of};
ghost use Rattle.certificate.specs.Faults.{section_of};
ghost use Rattle.certificate.specs.Working.Readings.{single_of, ReadsEntry};
ghost use Rattle.certificate.specs.declared.entry.Entry.TheVariants.{TestLine, TermLine, PairLine};
ghost use Rattle.certificate.specs.declared.entry.LineFault.TheVariants.{NoMemory as NoRoom};

use crate::nodes::{Pair, TermNode, TestNode};
use crate::texts::is_text;
use kat_model::{Items, NoMemory};
use line_format::{Numbers, read_numbers, words_of};
use std::alloc::Global;

// The content of a line of a certificate.
#[derive(Drop)]
pub(crate) enum Entry {
    TestLine(TestNode),
    TermLine(TermNode),
    PairLine(Pair),
}

// The parts of a certificate, in their order.
#[derive(Clone, Copy)]
pub(crate) enum Section {
    Tests,
    Terms,
    Pairs,
    TestedPairs,
}

// Why a line is not an entry.
#[derive(Clone, Copy)]
pub(crate) enum LineFault {
    NoMemory,
    Form,
    Wide(Section),
}

impl From<NoMemory> for LineFault {
    ghost from_gives = { λ _ fault. fault ≡ NoRoom };

    fn from(_: NoMemory) -> Self {
        LineFault::NoMemory
    }
}

impl Entry {
    pub(crate) fn section(&self) -> Section
        ensures { result ≡ section_of self.now }
    {
        match self {
            Entry::TestLine(_) => Section::Tests,
            Entry::TermLine(_) => Section::Terms,
            Entry::PairLine(pair) => match pair.test {
                None => Section::Pairs,
                Some(_) => Section::TestedPairs,
            },
        }
    }
}

// Returns the test node with this name and these numbers.
fn test_node(name: &[u8], numbers: &[usize]) -> Option<TestNode>
    ensures { result ≡ test_node_of name.now numbers.now }
{
    match numbers {
        [] => {
            if is_text(name, b"false") {
                return Some(TestNode::False);
            }
            if is_text(name, b"true") {
                return Some(TestNode::True);
            }
            None
        }
        [x] => {
            if is_text(name, b"prim") {
                return Some(TestNode::Prim(*x));
            }
            if is_text(name, b"not") {
                return Some(TestNode::Not(*x));
            }
            None
        }
        [x, y] => {
            if is_text(name, b"and") {
                return Some(TestNode::And(*x, *y));
            }
            if is_text(name, b"or") {
                return Some(TestNode::Or(*x, *y));
            }
            None
        }
        _ => None,
    }
}

// Returns the term node with this name and these numbers.
fn term_node(name: &[u8], numbers: &[usize]) -> Option<TermNode>
    ensures { result ≡ term_node_of name.now numbers.now }
{
    match numbers {
        [] => {
            if is_text(name, b"zero") {
                return Some(TermNode::Zero);
            }
            if is_text(name, b"one") {
                return Some(TermNode::One);
            }
            None
        }
        [x] => {
            if is_text(name, b"test") {
                return Some(TermNode::Test(*x));
            }
            if is_text(name, b"act") {
                return Some(TermNode::Act(*x));
            }
            if is_text(name, b"star") {
                return Some(TermNode::Star(*x));
            }
            None
        }
        [x, y] => {
            if is_text(name, b"sum") {
                return Some(TermNode::Sum(*x, *y));
            }
            if is_text(name, b"seq") {
                return Some(TermNode::Seq(*x, *y));
            }
            None
        }
        _ => None,
    }
}

fn test_line(alloc: Global, name: &[u8], words: &[&[u8]]) -> Result<Entry, LineFault>
    ensures { ReadsEntry (option_map TestLine (option_and_then (test_node_of name.now) (numbers_of (texts words.now)))) result }
{
    let Some(numbers) = read_numbers(alloc, words)? else {
        return Err(LineFault::Form);
    };
    match test_node(name, &numbers.values) {
        None => Err(LineFault::Form),
        Some(node) => {
            if numbers.wide {
                return Err(LineFault::Wide(Section::Tests));
            }
            Ok(Entry::TestLine(node))
        }
    }
}

fn term_line(alloc: Global, name: &[u8], words: &[&[u8]]) -> Result<Entry, LineFault>
    ensures { ReadsEntry (option_map TermLine (option_and_then (term_node_of name.now) (numbers_of (texts words.now)))) result }
{
    let Some(numbers) = read_numbers(alloc, words)? else {
        return Err(LineFault::Form);
    };
    match term_node(name, &numbers.values) {
        None => Err(LineFault::Form),
        Some(node) => {
            if numbers.wide {
                return Err(LineFault::Wide(Section::Terms));
            }
            Ok(Entry::TermLine(node))
        }
    }
}

fn is_bar(word: &[u8]) -> bool
    ensures { result ≡ is_bar word.now }
{
    is_text(word, b"|")
}

// Splits words at bars.
fn between_bars<'a, 'b>(
    alloc: Global,
    words: &'a [&'b [u8]],
) -> Result<Vec<&'a [&'b [u8]]>, NoMemory>
    ensures { IfOk result (λ parts. map (λ part. texts part.now) parts.items ≡ slice_split is_bar (texts words.now)) }
{
    Ok(words.split(|word| is_bar(word)).collect(alloc)?)
}

// Whether a number of one of these sets is too wide.
fn are_wide(left: &Numbers, right: &Numbers) -> bool
    ensures { result ≡ (left.now.wide || right.now.wide) }
{
    left.wide || right.wide
}

// Returns the number of a list with exactly one.
fn single(numbers: &[usize]) -> Option<usize>
    ensures { result ≡ single_of numbers.now }
{
    match numbers {
        [k] => Some(*k),
        _ => None,
    }
}

// Returns the pair of these sets, without a test.
fn pair(left: Numbers, right: Numbers) -> Result<Entry, LineFault>
    ensures { (ks ls : List ℕ) → HasNumbers ks left → HasNumbers ls right
        → ReadsEntry (option_map PairLine (pair_with (Some ks ∷ Some ls ∷ []))) result }
{
    if are_wide(&left, &right) {
        return Err(LineFault::Wide(Section::Pairs));
    }
    Ok(Entry::PairLine(Pair {
        left: Items::of(left.values),
        right: Items::of(right.values),
        test: None,
    }))
}

// Returns the pair of these sets under the test with a number.
fn tested_pair(left: Numbers, right: Numbers, test: &Numbers) -> Result<Entry, LineFault>
    ensures { (ks ls ts : List ℕ) → HasNumbers ks left → HasNumbers ls right → HasNumbers ts test.now
        → ReadsEntry (option_map PairLine (pair_with (Some ks ∷ Some ls ∷ Some ts ∷ []))) result }
{
    let Some(number) = single(test.values.as_slice()) else {
        return Err(LineFault::Form);
    };
    if test.wide {
        return Err(LineFault::Wide(Section::TestedPairs));
    }
    if are_wide(&left, &right) {
        return Err(LineFault::Wide(Section::TestedPairs));
    }
    Ok(Entry::PairLine(Pair {
        left: Items::of(left.values),
        right: Items::of(right.values),
        test: Some(number),
    }))
}

// Reads a pair from the words of two sets.
fn pair_of_two(alloc: Global, left: &[&[u8]], right: &[&[u8]]) -> Result<Entry, LineFault>
    ensures { ReadsEntry (option_map PairLine (pair_with (numbers_of (texts left.now) ∷ numbers_of (texts right.now) ∷ []))) result }
{
    let Some(left) = read_numbers(alloc, left)? else {
        return Err(LineFault::Form);
    };
    let Some(right) = read_numbers(alloc, right)? else {
        return Err(LineFault::Form);
    };
    pair(left, right)
}

// Reads a pair from the words of two sets and of the number of a test.
fn pair_of_three(
    alloc: Global,
    left: &[&[u8]],
    right: &[&[u8]],
    test: &[&[u8]],
) -> Result<Entry, LineFault>
    ensures { ReadsEntry (option_map PairLine (pair_with (numbers_of (texts left.now) ∷ numbers_of (texts right.now) ∷ numbers_of (texts test.now) ∷ []))) result }
{
    let Some(test) = read_numbers(alloc, test)? else {
        return Err(LineFault::Form);
    };
    let Some(left) = read_numbers(alloc, left)? else {
        return Err(LineFault::Form);
    };
    let Some(right) = read_numbers(alloc, right)? else {
        return Err(LineFault::Form);
    };
    tested_pair(left, right, &test)
}

// Reads a pair from the words of its parts.
fn pair_of_parts(alloc: Global, parts: &[&[&[u8]]]) -> Result<Entry, LineFault>
    ensures { ReadsEntry (option_map PairLine (pair_with (map (λ part. numbers_of (texts part.now)) parts.now))) result }
{
    match parts {
        [left, right] => pair_of_two(alloc, left, right),
        [left, right, test] => pair_of_three(alloc, left, right, test),
        _ => Err(LineFault::Form),
    }
}

fn pair_line(alloc: Global, words: &[&[u8]]) -> Result<Entry, LineFault>
    ensures { ReadsEntry (option_map PairLine (pair_of (texts words.now))) result }
{
    let parts = between_bars(alloc, words)?;
    pair_of_parts(alloc, parts.as_slice())
}

// Reads an entry from words.
fn entry_of_words(alloc: Global, words: &[&[u8]]) -> Result<Entry, LineFault>
    ensures { ReadsEntry (entry_of_words (texts words.now)) result }
{
    match words {
        [kind, name, rest @ ..] => {
            if is_text(kind, b"T") {
                return test_line(alloc, name, rest);
            }
            if is_text(kind, b"E") {
                return term_line(alloc, name, rest);
            }
            if is_text(kind, b"P") {
                return pair_line(alloc, &words[1..]);
            }
            Err(LineFault::Form)
        }
        _ => Err(LineFault::Form),
    }
}

// Reads an entry from a line.
pub(crate) fn read_entry(alloc: Global, line: &[u8]) -> Result<Entry, LineFault>
    ensures { ReadsEntry (entry_of line.now) result }
{
    let words = words_of(alloc, line)?;
    entry_of_words(alloc, &words)
}
