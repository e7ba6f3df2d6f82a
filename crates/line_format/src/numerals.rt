//! Numerals: the decimal notation of numbers.
ghost use Rattle.std.specs.Prelude.{◌≡◌, ◌≤◌, ◌<◌, ◌^◌, IfOk, IfSome, IfNone, true};
ghost use Rattle.std.specs.List.{list_all};
ghost use Rattle.std.specs.Char.{is_ascii_digit};
ghost use Rattle.line_format.specs.Numerals.{is_numeral, value_of};
ghost use Rattle.line_format.specs.Readings.{texts, ReadsNumbers};

use kat_model::NoMemory;
use std::alloc::Global;
use std::str;

fn all_digits(word: &[u8]) -> bool
    ensures { result ≡ list_all is_ascii_digit word.now }
{
    word.iter().all(|b| b.is_ascii_digit())
}

/// Returns whether a word is the decimal notation of a number, of any size.
pub fn is_numeral(word: &[u8]) -> bool
    ensures { result ≡ is_numeral word.now }
{
    !word.is_empty() && (word[0] != b'0' || word.len() == 1) && all_digits(word)
}

/// Returns the number of a numeral, or `None` if it is 2^64 or more.
pub fn number_of(word: &[u8]) -> Option<usize>
    requires { is_numeral word.now ≡ true }
    ensures some { IfSome result (λ n. (n ≡ value_of word.now) × (n < 2 ^ 64)) }
    ensures none { IfNone result (2 ^ 64 ≤ value_of word.now) }
{
    match str::from_utf8(word) {
        Err(_) => None,
        Ok(text) => match text.parse::<usize>() {
            Ok(n) => Some(n),
            Err(_) => None,
        },
    }
}

/// The numbers of numerals. If one of them is 2^64 or more, `wide` is true and only the number of values is meaningful.
#[derive(Drop)]
pub struct Numbers {
    pub values: Vec<usize>,
    pub wide: bool,
}

fn all_numerals(words: &[&[u8]]) -> bool
    ensures { result ≡ list_all (λ w. is_numeral w.now) words.now }
{
    words.iter().all(|word| is_numeral(word))
}

/// Returns the numbers of the words, or `None` if some word is not a numeral. Fails only when out of memory.
pub fn read_numbers(alloc: Global, words: &[&[u8]]) -> Result<Option<Numbers>, NoMemory>
    ensures { IfOk result (λ read. ReadsNumbers (texts words.now) read) }
{
    if !all_numerals(words) {
        return Ok(None);
    }
    let mut values = Vec::new(alloc);
    let mut wide = false;
    for word in words {
        match number_of(word) {
            Some(n) => values.push(n)?,
            None => {
                wide = true;
                values.push(0)?;
            }
        }
    }
    Ok(Some(Numbers { values, wide }))
}
