//! Tokens of a text.

/// The kind of a token.
#[derive(Clone, Copy, PartialEq, Eq)]
pub enum Kind {
    /// An identifier by Unicode Standard Annex 31 (`XID_Start` or `_`, then `XID_Continue`). Keywords are names.
    Name,
    /// A run of ASCII digits; leading zeros are allowed.
    Number,
    /// One of the 24 symbols of one or two ASCII characters.
    Symbol,
}

/// A token. Its text is the slice of the source at its place.
#[derive(Clone, Copy)]
pub struct Token<'a> {
    pub kind: Kind,
    pub text: &'a str,
    /// The offset of the token in the source, in bytes.
    pub at: usize,
}
