//! Laws of evidence for pieces. Each function does nothing: its contract is the law.
ghost use Rattle.piece_evidence.specs.Laws.{SectionsAreRead, TextsAreEvidence, EvidenceIsJoined};

/// Bytes are evidence with these sections if and only if these sections are read from them.
pub fn sections_are_read()
    ensures { SectionsAreRead }
{}

/// The text of sections is evidence with these sections. Evidence followed by evidence is evidence with the sections of
/// both.
pub fn texts_are_evidence()
    ensures written { TextsAreEvidence }
    ensures joined { EvidenceIsJoined }
{}
