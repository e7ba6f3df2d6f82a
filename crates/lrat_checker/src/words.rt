//! Words of texts, and the numbers that they denote.
ghost use Rattle.std.specs.Prelude.{◌≡◌, not, ◌<◌, ◌+◌, ◌^◌, [], IfSome, IfNone, length, position};
ghost use Rattle.lrat_checker.specs.Words.{words_of, words_of_line, last_line, is_comment, is_gap, parts_in};
ghost use Rattle.lrat_checker.specs.Numbers.{number_of, unsigned, negated};
ghost use Rattle.lrat_checker.specs.Working.WordLists.{words_left, last_left, room, IsFromWord, IsFirstWord, IsFirstLine, IsNext, IsNumber};

use line_format::{first_line, is_numeral, number_of as size_of_numeral};

/// A word and the number of its line.
#[derive(Clone, Copy)]
pub(crate) struct Word<'a> {
    pub line: usize,
    pub bytes: &'a [u8],
}

/// The words of a text that are left, one by one.
#[derive(Clone, Copy)]
pub(crate) struct Words<'a> {
    // The number of the line.
    number: usize,
    // What is left of the line.
    line: &'a [u8],
    // What follows the line feed of the line, if it has one.
    after: Option<&'a [u8]>,
    ghost counted: { number + room after < 2 ^ 64 },
}

/// The number that a word denotes.
#[derive(Clone, Copy)]
pub(crate) enum Number {
    Zero,
    Positive(u64),
    Negative(u64),
    // A positive number of 2^64 or more.
    Wide,
    // A negative number whose size is 2^64 or more.
    WideBelow,
}

fn is_gap(byte: u8) -> bool
    ensures { result ≡ is_gap byte }
{
    byte == b' ' || (byte == b'\t' || byte == b'\r')
}

fn is_comment(line: &[u8]) -> bool
    ensures { result ≡ is_comment line.now }
{
    match line.first() {
        None => false,
        Some(byte) => *byte == b'c',
    }
}

fn gap_place(line: &[u8]) -> Option<usize>
    ensures { result ≡ position is_gap line.now }
{
    line.iter().position(|b| is_gap(*b))
}

fn word_place(line: &[u8]) -> Option<usize>
    ensures { result ≡ position (λ b. not (is_gap b)) line.now }
{
    line.iter().position(|b| !is_gap(*b))
}

// Returns the line from its first word on.
fn from_word(line: &[u8]) -> &[u8]
    ensures { IsFromWord line.now result.now }
{
    match word_place(line) {
        None => &[],
        Some(start) => &line[start..],
    }
}

// Returns the first word of a line and what follows it.
fn first_word(line: &[u8]) -> Option<(&[u8], &[u8])>
    ensures some { IfSome result (λ cut. IsFirstWord line.now cut.0.now cut.1.now) }
    ensures none { IfNone result (parts_in line.now ≡ []) }
{
    let rest = from_word(line);
    if rest.is_empty() {
        return None;
    }
    match gap_place(rest) {
        None => Some((rest, &[])),
        Some(end) => Some((&rest[..end], &rest[end + 1..])),
    }
}

// Returns the line, or nothing of a comment.
fn without_comment(line: &[u8]) -> &[u8]
    ensures { parts_in result.now ≡ words_of_line line.now }
{
    if is_comment(line) {
        return &[];
    }
    line
}

// Returns the first line of a text, without comment, and what follows its line feed.
fn next_line(text: &[u8]) -> (&[u8], Option<&[u8]>)
    ensures { IsFirstLine text.now result.0.now result.1 }
{
    match first_line(text) {
        None => (without_comment(text), None),
        Some((line, after)) => (without_comment(line), Some(after)),
    }
}

/// Returns the words of a text.
pub(crate) fn words_in(text: &[u8]) -> Words<'_>
    ensures words { words_left result.number result.line.now result.after ≡ words_of text.now }
    ensures last { last_left result.number result.after ≡ last_line text.now }
{
    Words {
        number: 0,
        line: &[],
        after: Some(text),
    }
}

impl Words<'_> {
    /// Returns the number of the line of the last word, or of the last line if no word is left.
    pub(crate) fn line(&self) -> usize
        ensures { result ≡ self.now.number }
    {
        self.number
    }
}

/// Returns the next word, if there is one, and moves on.
pub(crate) fn next_word<'a>(words: &mut Words<'a>) -> Option<Word<'a>>
    ensures next { IsNext (words_left words.old.number words.old.line.now words.old.after) (words_left words.new.number words.new.line.now words.new.after) result }
    ensures last { last_left words.new.number words.new.after ≡ last_left words.old.number words.old.after }
    ensures end { IfNone result (words.new.number ≡ last_left words.old.number words.old.after) }
{
    loop {
        if let Some((word, rest)) = first_word(words.line) {
            words.line = rest;
            return Some(Word {
                line: words.number,
                bytes: word,
            });
        }
        let Some(text) = words.after else {
            return None;
        };
        let (line, after) = next_line(text);
        *words = Words {
            number: words.number + 1,
            line,
            after,
        };
    }
}

fn unsigned(word: &[u8]) -> Option<Number>
    ensures { IsNumber (unsigned word.now) result }
{
    if !is_numeral(word) {
        return None;
    }
    match size_of_numeral(word) {
        None => Some(Number::Wide),
        Some(size) => {
            if size == 0 {
                return Some(Number::Zero);
            }
            Some(Number::Positive(size as u64))
        }
    }
}

// Returns the number of the digits after a minus sign.
fn negative(digits: &[u8]) -> Option<Number>
    ensures { IsNumber (negated (unsigned digits.now)) result }
{
    match unsigned(digits) {
        Some(Number::Positive(size)) => Some(Number::Negative(size)),
        Some(Number::Wide) => Some(Number::WideBelow),
        _ => None,
    }
}

/// Returns the number that a word denotes.
pub(crate) fn number_of(word: &[u8]) -> Option<Number>
    ensures { IsNumber (number_of word.now) result }
{
    match word.split_first() {
        None => None,
        Some((first, digits)) => {
            if *first == b'-' {
                return negative(digits);
            }
            unsigned(word)
        }
    }
}
