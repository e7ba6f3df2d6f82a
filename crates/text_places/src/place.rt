//! The line and the column of an offset.
ghost use Rattle.std.specs.Prelude.{◌≡◌, ◌≤◌, ◌+◌, length, not, count_by, position, IfSome};
ghost use Rattle.std.specs.List.{after_last, before_first, suffix_len};
ghost use Rattle.text_places.specs.Places.{is_feed, begins_character, characters, line_before, line_from, line_at, column_at};

fn is_feed(byte: u8) -> bool
    ensures { result ≡ is_feed byte }
{
    byte == b'\n'
}

fn begins_character(byte: u8) -> bool
    ensures { result ≡ begins_character byte }
{
    byte < 128 || 192 <= byte
}

fn feeds(bytes: &[u8]) -> usize
    ensures { result ≡ count_by is_feed bytes.now }
{
    bytes.iter().filter(|byte| is_feed(**byte)).count()
}

fn characters(bytes: &[u8]) -> usize
    ensures { result ≡ characters bytes.now }
{
    bytes.iter().filter(|byte| begins_character(**byte)).count()
}

// Returns where what follows the last line feed begins, or 0 if there is none.
fn last_start(bytes: &[u8]) -> usize
    ensures { result + suffix_len (λ x. not (is_feed x)) bytes.now ≡ length bytes.now }
{
    let mut start = bytes.len();
    while start > 0 && !is_feed(bytes[start - 1]) {
        start -= 1;
    }
    start
}

// Returns what follows the last line feed, or all bytes if there is none.
#[tactic(auto, using(crate::proofs::LastLines::from_start))]
fn after_last_feed(bytes: &[u8]) -> &[u8]
    ensures { result.now ≡ after_last is_feed bytes.now }
{
    &bytes[last_start(bytes)..]
}

fn feed_place(bytes: &[u8]) -> Option<usize>
    ensures place { result ≡ position is_feed bytes.now }
    ensures within { IfSome result (λ end. end ≤ length bytes.now) }
{
    bytes.iter().position(|byte| is_feed(*byte))
}

// Returns what is before the first line feed, or all bytes if there is none.
#[tactic(auto, using(crate::proofs::FirstLines::some_before, crate::proofs::FirstLines::none_before))]
fn before_first_feed(bytes: &[u8]) -> &[u8]
    ensures { result.now ≡ before_first is_feed bytes.now }
{
    match feed_place(bytes) {
        None => bytes,
        Some(end) => &bytes[..end],
    }
}

/// Returns the part before the offset of the offset's line.
pub fn line_before(text: &[u8], at: usize) -> &[u8]
    requires { at ≤ length text.now }
    ensures { result.now ≡ line_before text.now at }
{
    after_last_feed(&text[..at])
}

/// Returns the part from the offset on of the offset's line, without its line feed.
pub fn line_from(text: &[u8], at: usize) -> &[u8]
    requires { at ≤ length text.now }
    ensures { result.now ≡ line_from text.now at }
{
    before_first_feed(&text[at..])
}

/// Returns the number of the offset's line, from 1.
pub fn line_at(text: &[u8], at: usize) -> usize
    requires { at ≤ length text.now }
    ensures { result ≡ line_at text.now at }
{
    feeds(&text[..at]) + 1
}

/// Returns the column of the offset, from 1, in characters.
pub fn column_at(text: &[u8], at: usize) -> usize
    requires { at ≤ length text.now }
    ensures { result ≡ column_at text.now at }
{
    characters(line_before(text, at)) + 1
}
