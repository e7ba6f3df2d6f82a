//! Numbers in words of the command line.
ghost use Rattle.std.specs.Prelude.{◌≡◌, ◌≤◌, ◌^◌, true};
ghost use Rattle.std.specs.Option.{option_map};
ghost use Rattle.std.specs.Char.{is_ascii_digit};
ghost use Rattle.std.specs.List.{list_all};
ghost use Rattle.kat_model.specs.Stores.{modulus};
ghost use Rattle.tool_commands.specs.Numbers.{is_number, number_below, count_of};

use kat_model::Width;

fn all_digits(word: &str) -> bool
    ensures { result ≡ list_all is_ascii_digit word.now }
{
    word.bytes().all(|b| b.is_ascii_digit())
}

fn is_number(word: &str) -> bool
    ensures { result ≡ is_number word.now }
{
    all_digits(word) && word.len() > 0 && word.len() < 21
}

/// Returns the value of a word that is a number: 1 to 20 ASCII digits with a value below 2^64. Leading zeros do not matter:
/// `bench 008` prints `problems 8`, and `--turns 001` allows one step.
pub(crate) fn number_of(word: &str) -> Option<u64>
    ensures { result ≡ number_below (2 ^ 64) word.now }
{
    if !is_number(word) {
        return None;
    }
    match word.parse::<u64>() {
        Ok(n) => Some(n),
        Err(_) => None,
    }
}

/// Returns the value of a word that is a number of the width.
pub(crate) fn number_within(width: Width, word: &str) -> Option<u64>
    ensures { result ≡ number_below (modulus width) word.now }
{
    match number_of(word) {
        Some(n) if n <= width.greatest() => Some(n),
        _ => None,
    }
}

/// A number of generated problems, at most 10,000.
#[derive(Clone, Copy)]
pub struct ProblemCount {
    pub number: u64,
    ghost within: { number ≤ 10000 },
}

/// Returns the word as a number of problems: from 1 to 10,000.
pub(crate) fn count_of(word: &str) -> Option<ProblemCount>
    ensures { option_map (λ c. c.number) result ≡ count_of word.now }
{
    match number_of(word) {
        Some(number) if 0 < number && number <= 10_000 => Some(ProblemCount { number }),
        _ => None,
    }
}
