//! Lines and words of a text.
ghost use Rattle.std.specs.Prelude.{◌≡◌, ◌==◌, [], ◌∷◌, IfOk, IfSome, IfNone, position};
ghost use Rattle.line_format.specs.Lines.{words_of, parts_of};
ghost use Rattle.line_format.specs.Readings.{texts, IsCutLine};

use kat_model::NoMemory;
use std::alloc::Global;

fn feed_place(bytes: &[u8]) -> Option<usize>
    ensures { result ≡ position (λ b. b == 10) bytes.now }
{
    bytes.iter().position(|b| *b == b'\n')
}

/// Returns the first complete line and what follows its line feed, or `None` if there is no line feed.
pub fn first_line(bytes: &[u8]) -> Option<(&[u8], &[u8])>
    ensures line { IfSome result (λ cut. IsCutLine bytes.now cut.0.now cut.1.now) }
    ensures none { IfNone result (parts_of bytes.now ≡ bytes.now ∷ []) }
{
    match feed_place(bytes) {
        None => None,
        Some(i) => Some((&bytes[..i], &bytes[i + 1..])),
    }
}

/// Returns the words of a line, separated by single blanks: n blanks give n + 1 words. Fails only when out of memory.
pub fn words_of<'a>(alloc: Global, line: &'a [u8]) -> Result<Vec<&'a [u8]>, NoMemory>
    ensures { IfOk result (λ words. texts words.items ≡ words_of line.now) }
{
    Ok(line.split(|b| *b == b' ').collect(alloc)?)
}
