//! Laws of the top call. Each function does nothing: its contract is the law.
ghost use Rattle.kat_tool.specs.HeadlineAgreement.{HeadlinesAgree};
ghost use Rattle.kat_tool.specs.FlowAgreement.{FlowsAgree, PlainFlowsAgree};
ghost use Rattle.kat_tool.specs.Laws.{CausesExclude, WordsGiveStores, CheckAgrees, NotesFollow};

/// If the content of each file is known and the shelf did not fail, two replies to the same words have one status, so
/// each status occurs exactly when its cause holds.
pub fn causes_exclude()
    ensures { CausesExclude }
{}

/// The store that a word gives is a store of the file: it has a number of the width for each variable of the file.
pub fn words_give_stores()
    ensures { WordsGiveStores }
{}

/// If `decide` replies with 0 or 1, `check` of the same text and the printed evidence replies with the same status.
pub fn check_agrees()
    ensures { CheckAgrees }
{}

/// If `outline` replies with 0, `outline` of the same text and the printed notes accepts them.
pub fn notes_follow()
    ensures { NotesFollow }
{}

/// What the headline of `decide` allows as its output with a status, `check` answers with the same status. This speaks
/// of bytes alone, whatever wrote them.
pub fn headlines_agree()
    ensures { HeadlinesAgree }
{}

/// If `flow` replies to the text of two flow graphs with 0, and `decide` replies to the text that it printed with 0, both
/// graphs always return the same; and so if `check` replies with 0 to the printed text and evidence from any source.
pub fn flows_agree()
    ensures { FlowsAgree }
{}

/// The same for the plainest text of two flow graphs, which is read as these graphs: which graphs always return the same
/// is then said without a grammar.
pub fn plain_flows_agree()
    ensures { PlainFlowsAgree }
{}
