//! Laws of certificates and of the text of evidence. Each function does nothing: its contract is the law.
ghost use Rattle.certificate.specs.Laws.{TextsDiffer, IsTextOrFaulty, EachHasOneSpelling, FaultsAreFirst, TextsArePlain, NodesHaveTrees, AcceptedAreSame};

/// Different evidence has different texts.
pub fn texts_differ()
    ensures { TextsDiffer }
{}

/// Bytes are the text of some evidence or have a first fault, and not both.
pub fn is_text_or_faulty()
    ensures { IsTextOrFaulty }
{}

/// Each line of evidence is read as an entry, an atom or a move if and only if it is its spelling.
pub fn lines_have_one_spelling()
    ensures { EachHasOneSpelling }
{}

/// After correct lines, the first wrong line is the fault of a text. The same holds for a text that ends too early, and
/// for bytes after its last line.
pub fn faults_are_first()
    ensures { FaultsAreFirst }
{}

/// The text of evidence consists of ASCII letters and digits, blanks, bars and line feeds.
pub fn texts_are_plain()
    ensures { TextsArePlain }
{}

/// Each node of a certificate has the tree that it describes, over the trees of the nodes that it names.
pub fn nodes_have_trees()
    ensures { NodesHaveTrees }
{}

/// An accepted certificate shows that both sides denote one relation in each table that satisfies the hypotheses. Its
/// origin does not matter.
pub fn accepted_are_same()
    ensures { AcceptedAreSame }
{}
