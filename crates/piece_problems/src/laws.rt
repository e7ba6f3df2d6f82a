//! Laws of the definitions. Each function does nothing: its contract is the law.
ghost use Rattle.piece_problems.specs.Laws.{SamePiecesAgree};

/// If the entries of two graphs are matched, and the piece of each match holds, the graphs always return the same.
pub fn same_pieces_agree()
    ensures { SamePiecesAgree }
{}
