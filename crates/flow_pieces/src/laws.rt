//! The law of pieces. The function does nothing: its contract is the law.
ghost use Rattle.flow_pieces.specs.Laws.{PiecesAreEnough, AgreedPiecesAreEnough, MatchedGraphsAgree};

/// If the entries of two graphs are matched, and each piece of the matches holds under every interpretation, both graphs
/// return the same under every interpretation, from every state (cut points: Floyd, *Assigning meanings to programs*,
/// 1967; as a bisimulation of two programs Necula, *Translation validation for an optimizing compiler*, 2000).
pub fn pieces_are_enough()
    ensures { PiecesAreEnough }
{}

/// Each piece may be a question of two flow graphs of its own. If the entries of two graphs are matched, and the two
/// graphs of each piece always return the same, or both sides have the same text up to the next matched blocks, both
/// graphs always return the same.
pub fn agreed_pieces_are_enough()
    ensures { AgreedPiecesAreEnough }
{}

/// If the entries of two graphs are matched, each match is proper, and each piece has the same text on both sides, or two
/// graphs, with the exits that the matches give, that always return the same, both graphs always return the same.
pub fn matched_graphs_agree()
    ensures { MatchedGraphsAgree }
{}
