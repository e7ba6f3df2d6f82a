//! Keywords.
ghost use Rattle.std.specs.Prelude.{◌≡◌};
ghost use Rattle.text_parser.specs.Keywords.{is_keyword};

use crate::terminal::{Terminal, is_terminal, keyword_terminal};

/// Whether `text` is a keyword of the format, which cannot be declared as a name.
pub fn is_keyword(text: &str) -> bool
    ensures { result ≡ is_keyword text.now }
{
    !is_terminal(Terminal::Name, keyword_terminal(text))
}
