//! Sections of evidence for pieces.

/// The section of a piece.
#[derive(Clone, Copy)]
pub struct Section<'a> {
    /// The number of the piece.
    pub piece: usize,
    /// The line `same text`, or lines of which only the last is `end`: the certificate of the piece. Each line ends with
    /// a line feed.
    pub text: &'a [u8],
}
