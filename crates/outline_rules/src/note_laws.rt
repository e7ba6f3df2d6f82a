//! Laws of the text of notes. Each function does nothing: its contract is the law.
ghost use Rattle.outline_rules.specs.NoteLaws.{TextsDiffer, IsTextOrFaulty, EachHasOneSpelling, FaultsAreFirst};

/// Different notes have different texts.
pub fn texts_differ()
    ensures { TextsDiffer }
{}

/// Bytes are either the text of some notes or have a first fault.
pub fn is_text_or_faulty()
    ensures { IsTextOrFaulty }
{}

/// Each line of notes is read from its one spelling, and from no other line.
pub fn lines_have_one_spelling()
    ensures { EachHasOneSpelling }
{}

/// After correct lines, the first error gives the fault of the text: a line with an error, a text that ends too early,
/// or bytes after the last line.
pub fn faults_are_first()
    ensures { FaultsAreFirst }
{}
