//! The tests and actions of a question, and the terms of its graphs.
ghost use Rattle.std.specs.Prelude.{◌≡◌, true, IfOk, IfErr};
ghost use Rattle.kat_model.specs.Trees.{kat_tree};
ghost use Rattle.flow_abstraction.specs.PosedQuestion.{HasFault};
ghost use Rattle.flow_abstraction.specs.Working.Stages.{posed_by, KeepsLimits, HasTables, IsSide, side_fits, HasSides};
ghost use Rattle.flow_abstraction.specs.Working.Questions.{first_tests_of, HasEdgesBefore, HasEdgesAfter, TermOnlyIfNot};
ghost use Rattle.flow_edges.specs.Working.Views.{comparison_trees};

use crate::edges::Question;
use crate::fault::FlowFault;
use crate::placed::PlacedEdges;
use crate::rounds::with_rounds;
use flow_edges::{FlowAction, action_rows, graph_term};
use flow_forms::FlowComparison;
use flow_places::TermFault;
use kat_model::Kat;
use std::alloc::Global;

/// The tests and actions of a question, each once.
#[derive(Drop)]
pub(crate) struct Tables {
    pub(crate) tests: Vec<FlowComparison>,
    pub(crate) actions: Vec<FlowAction>,
}

/// The terms of both graphs.
#[derive(Drop)]
pub(crate) struct Sides {
    pub(crate) left: Kat,
    pub(crate) right: Kat,
}

/// Returns the actions of a question, and its tests: the first ones and those that the rounds add.
pub(crate) fn tables_of(
    alloc: Global,
    question: &Question,
    tests: Vec<FlowComparison>,
    before: &PlacedEdges,
    after: &PlacedEdges,
) -> Result<Tables, FlowFault>
    requires tests { comparison_trees tests.items ≡ first_tests_of question.now }
    requires before { HasEdgesBefore question.now before.now }
    requires after { HasEdgesAfter question.now after.now }
    ensures made { IfOk result (HasTables (posed_by question.now)) }
    ensures refused { IfErr result (HasFault (posed_by question.now)) }
{
    let actions = action_rows(alloc, &before.edges, &after.edges)?;
    let tests = with_rounds(alloc, question.rounds, question.sorts, &actions, tests)?;
    Ok(Tables { tests, actions })
}

// Returns the term of the edges from places.
fn side_of(alloc: Global, tables: &Tables, placed: &PlacedEdges) -> Result<Kat, TermFault>
    ensures made { IfOk result (λ e. IsSide tables.now placed.now (kat_tree e)) }
    ensures fits { IfOk result (λ _. side_fits tables.now placed.now ≡ true) }
    ensures refused { TermOnlyIfNot result (side_fits tables.now placed.now) }
{
    graph_term(
        alloc,
        &tables.tests,
        &tables.actions,
        &placed.places,
        &placed.edges,
    )
}

/// Returns the terms of both graphs.
pub(crate) fn sides_of(
    alloc: Global,
    question: &Question,
    tables: &Tables,
    before: &PlacedEdges,
    after: &PlacedEdges,
) -> Result<Sides, FlowFault>
    requires limits { KeepsLimits (posed_by question.now) }
    requires tables { HasTables (posed_by question.now) tables.now }
    requires before { HasEdgesBefore question.now before.now }
    requires after { HasEdgesAfter question.now after.now }
    ensures made { IfOk result (HasSides (posed_by question.now)) }
    ensures refused { IfErr result (HasFault (posed_by question.now)) }
{
    let left = side_of(alloc, tables, before)?;
    let right = side_of(alloc, tables, after)?;
    Ok(Sides { left, right })
}
