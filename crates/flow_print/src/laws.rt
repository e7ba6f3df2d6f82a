//! Laws of the definitions. Each function does nothing: its contract is the law.
ghost use Rattle.std.specs.Prelude.{List};
ghost use Rattle.problem_file.specs.TextLaws.{PosesEqual};
ghost use Rattle.flow_problem.specs.FlowFacts.{FlowRule};
ghost use Rattle.flow_problem.specs.Points.{FlowProblem};
ghost use Rattle.flow_print.specs.NameTables.{NameTable};
ghost use Rattle.flow_print.specs.FlowTexts.{flow_text, IsFlowPrintable};

/// The text of a flow problem is read as a problem file that asks exactly the question of the problem, if it is within
/// the limits of a text.
pub fn flow_texts_read_back()
    ensures { (names : NameTable) (rules : List FlowRule) (p : FlowProblem) → IsFlowPrintable names rules p → PosesEqual (flow_text names rules p) p.problem }
{}
