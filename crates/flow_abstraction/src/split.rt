//! The edges of a graph, split by tests.
ghost use Rattle.std.specs.Prelude.{◌<◌, map, IfOk};
ghost use Rattle.flow_edges.specs.GraphRows.{row_edges};
ghost use Rattle.flow_abstraction.specs.Working.Splits.{AreShort};
ghost use Rattle.flow_abstraction.specs.Working.Questions.{rows_split, LongRowOnlyIf};
ghost use Rattle.flow_edges.specs.Working.Views.{MakesList};

use crate::placed::push_row;
use flow_edges::{FlowEdge, SplitFault, split_edges};
use flow_forms::FlowComparison;
use flow_model::Sort;
use std::alloc::Global;

/// Splits the edges from each place by tests.
pub(crate) fn split_rows(
    alloc: Global,
    sorts: &[Sort],
    tests: &[FlowComparison],
    rows: Vec<Vec<FlowEdge>>,
) -> Result<Vec<Vec<FlowEdge>>, SplitFault>
    ensures made { MakesList row_edges result (rows_split sorts.now tests.now rows) }
    ensures few { IfOk result (λ list. AreShort (map row_edges list.items)) }
    ensures many { LongRowOnlyIf result (rows_split sorts.now tests.now rows) }
{
    let mut list = Vec::new(alloc);
    for row in rows {
        push_row(&mut list, split_edges(alloc, sorts, tests, row)?)?;
    }
    Ok(list)
}
