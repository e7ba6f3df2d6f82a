//! Laws of the definitions. Each function does nothing: its contract is the law.
ghost use Rattle.problem_file.specs.Laws.{HaveOneAnswer};
ghost use Rattle.flow_text.specs.Texts.{IsFlowText, FirstFault};

/// Bytes are the text of exactly one flow file or have exactly one first fault, never both; a first fault is never out of
/// memory.
pub fn have_one_answer()
    ensures { HaveOneAnswer IsFlowText FirstFault }
{}
