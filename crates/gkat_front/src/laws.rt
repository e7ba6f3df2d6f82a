//! Laws of the definitions. Each function does nothing: its contract is the law.
ghost use Rattle.problem_file.specs.Laws.{HaveOneAnswer};
ghost use Rattle.gkat_front.specs.Reads.{Reads, FirstFault};
ghost use Rattle.gkat_front.specs.Laws.{TextsAreScanned, TextsAreMade, PrintedReadsBack};
ghost use Rattle.kat_model.specs.Guarded.{IsGuarded};
ghost use Rattle.gkat_front.specs.Expressions.{GkatTree, kat_of};

/// The syntax test accepts exactly the items of the grammar in which nothing is too deep or too wide.
pub fn texts_are_scanned()
    ensures { TextsAreScanned }
{}

/// The result for the tokens of items is the result of the items, or the first fault of their names, counts and sizes.
pub fn texts_are_made()
    ensures { TextsAreMade }
{}

/// Bytes either denote exactly one file or have exactly one first fault; a first fault is never out of memory.
pub fn have_one_answer()
    ensures { HaveOneAnswer Reads FirstFault }
{}

/// A printed expression reads back to the same expression, with nothing left, if the text and its nesting are within
/// the limits.
pub fn printed_expressions_read_back()
    ensures { PrintedReadsBack }
{}

/// The term of an expression is guarded, so the bound on pairs for guarded terms applies to expressions.
pub fn expressions_are_guarded()
    ensures { (e : GkatTree) → IsGuarded (kat_of e) }
{}
