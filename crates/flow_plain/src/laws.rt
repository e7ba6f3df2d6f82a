//! Laws of the definitions. Each function does nothing: its contract is the law.
ghost use Rattle.flow_plain.specs.Laws.{PlainGraphsReadBack};

/// The plainest text of two flow graphs is a flow file that compares these two, with the rounds and the split that the text
/// gives.
pub fn plain_graphs_read_back()
    ensures { PlainGraphsReadBack }
{}
