//! Laws of the definitions. Each function does nothing: its contract is the law.
ghost use Rattle.std.specs.Prelude.{ℕ, List, All};
ghost use Rattle.problem_file.specs.CommentedTexts.{IsComment};
ghost use Rattle.flow_text.specs.Checking.{FlowFileParts, pair_of};
ghost use Rattle.flow_text.specs.Texts.{IsFlowText};
ghost use Rattle.flow_text.specs.FileViews.{file_parts};
ghost use Rattle.flow_text.specs.declared.reading.FlowFile.{FlowFile};
ghost use Rattle.flow_laws.specs.SortedMatches.{IsMatchOf};
ghost use Rattle.flow_laws.specs.MatchNames.{NamesAreRead};
ghost use Rattle.flow_model.specs.WholeGraphs.{IsWholeGraph};
ghost use Rattle.flow_model.specs.WholeMatches.{IsWholeMatch};
ghost use Rattle.flow_problem.specs.PlacedProblems.{IsFlowPair};
ghost use Rattle.flow_laws.specs.Laws.{WholeOutcomes};

/// Both graphs of the goal of a flow file have a block, and each of their expressions has the sort that its place
/// requires.
pub fn files_are_sorted()
    ensures { (text : List ℕ) (f : FlowFileParts) → IsFlowText text f → IsFlowPair (pair_of f) }
{}

/// The blocks of each match of a flow file are blocks of its graphs, and each of its expressions has the sort that its
/// place requires.
pub fn matches_are_sorted()
    ensures { (text : List ℕ) (f : FlowFileParts) → IsFlowText text f → All (λ m. IsMatchOf (pair_of f) m.blocks) f.matches }
{}

/// The names of a match say what it gives and reads: some name of a part of the match sets a variable exactly if an
/// equation of the part gives it, and some name reads it exactly if an expression of the part or the condition does.
pub fn match_names_are_read()
    ensures { (text : List ℕ) (f : FlowFileParts) → IsFlowText text f → All (λ m. (x : ℕ) → NamesAreRead m x) f.matches }
{}

/// The nodes of each expression and of each condition of a graph that is read are exactly one tree.
pub fn graphs_are_whole()
    ensures { (text : List ℕ) (f : FlowFile) → IsFlowText text (file_parts f) → All IsWholeGraph f.graphs.items }
{}

/// The nodes of each expression and of the condition of a match that is read are exactly one tree.
pub fn matches_are_whole()
    ensures { (text : List ℕ) (f : FlowFile) → IsFlowText text (file_parts f) → All (λ m. IsWholeMatch m.blocks) f.matches.items }
{}

/// The names of the variables and of the functions of a flow file may be comments: they are UTF-8 without a line feed.
pub fn names_are_lines()
    ensures { (text : List ℕ) (f : FlowFileParts) → IsFlowText text f → All IsComment f.variable_names × All IsComment f.function_names }
{}

/// If each expression and each condition of a graph is one tree, all ways from a place, their number, and whether a form
/// on them is too large, are those of the graph as trees.
pub fn whole_graphs_have_one_outcome()
    ensures { WholeOutcomes }
{}
