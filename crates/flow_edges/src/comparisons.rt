//! The tests of flow graphs: the comparisons of their edges.
ghost use Rattle.std.specs.Prelude.{◌≡◌, ◌<◌, ◌≤◌, [], ◌∷◌, ◌++◌, map, length, vec_len, IfOk, IfErr};
ghost use Rattle.std.specs.List.{flat_map};
ghost use Rattle.kat_model.specs.declared.limits.TheConstants.{MAX_TESTS};
ghost use Rattle.flow_forms.specs.Comparisons.{comparison_tree, is_same_comparison};
ghost use Rattle.flow_ways.specs.CondTrees.{cond_tree};
ghost use Rattle.kat_model.specs.UniqueRows.{with_all_new};
ghost use Rattle.flow_problem.specs.EdgeTerms.{comparisons_of, edge_comparisons};
ghost use Rattle.flow_edges.specs.GraphRows.{row_edges};
ghost use Rattle.flow_edges.specs.Working.Views.{MakesList};
ghost use Rattle.flow_edges.specs.Working.Tables.{AddsComparison, AddsComparisons, comparisons_in, first_comparisons};

use crate::edge::FlowEdge;
use crate::edge_table::{EdgeTable, add_graphs};
use crate::fault::TableFault;
use crate::rows::is_left_out;
use flow_forms::FlowComparison;
use flow_ways::FlowCond;
use kat_model::{MAX_TESTS, NoMemory, append};
use std::alloc::Global;

// Adds a comparison, unless the table has it already or has too many.
fn add_comparison(
    alloc: Global,
    comparison: &FlowComparison,
    rows: &mut Vec<FlowComparison>,
) -> Result<(), NoMemory>
    ensures { AddsComparison result rows.old rows.new (comparison_tree comparison.now) }
{
    if is_left_out(rows, MAX_TESTS, comparison) {
        return Ok(());
    }
    let row = comparison.copy(alloc)?;
    append(rows, row)
}

// Adds the comparisons of a condition.
#[tactic(auto, using(crate::proofs::TableRows::first_then))]
fn add_cond(alloc: Global, cond: &FlowCond, rows: &mut Vec<FlowComparison>) -> Result<(), NoMemory>
    ensures { AddsComparisons result rows.old rows.new (comparisons_of (cond_tree cond.now)) }
{
    match cond {
        FlowCond::Constantly(_) => Ok(()),
        FlowCond::Atom(comparison) => add_comparison(alloc, comparison, rows),
        FlowCond::Negation(cond) => add_cond(alloc, cond, rows),
        FlowCond::Both(left, right) => {
            add_cond(alloc, left, rows)?;
            add_cond(alloc, right, rows)
        }
        FlowCond::Either(left, right) => {
            add_cond(alloc, left, rows)?;
            add_cond(alloc, right, rows)
        }
    }
}

#[cycle(add_conds)]
fn add_conds(
    alloc: Global,
    conds: &[FlowCond],
    rows: &mut Vec<FlowComparison>,
) -> Result<(), NoMemory>
    ensures { AddsComparisons result rows.old rows.new (comparisons_in conds.now) }
{
    match conds {
        [] => Ok(()),
        [cond, rest @ ..] => add_conds_from(alloc, cond, rest, rows),
    }
}

#[cycle(add_conds)]
fn add_conds_from(
    alloc: Global,
    cond: &FlowCond,
    rest: &[FlowCond],
    rows: &mut Vec<FlowComparison>,
) -> Result<(), NoMemory>
    ensures { AddsComparisons result rows.old rows.new (comparisons_in (cond.now ∷ rest.now)) }
{
    add_cond(alloc, cond, rows)?;
    add_conds(alloc, rest, rows)
}

impl EdgeTable for Vec<FlowComparison> {
    ghost use Rattle.std.specs.Prelude.{map};
    ghost use Rattle.kat_model.specs.declared.limits.TheConstants.{MAX_TESTS};
    ghost use Rattle.flow_forms.specs.Comparisons.{FlowComparisonTree, comparison_tree, is_same_comparison};
    ghost use Rattle.flow_problem.specs.EdgeTerms.{edge_comparisons};

    ghost Row = { FlowComparisonTree };

    ghost rows = { λ v. map comparison_tree v.items };

    ghost same = { is_same_comparison };

    ghost most = { MAX_TESTS };

    ghost edge_rows = { edge_comparisons };

    fn add_edge(&mut self, alloc: Global, edge: &FlowEdge) -> Result<(), NoMemory> {
        add_conds(alloc, &edge.tests, self)
    }
}

// Returns the comparisons of the edges of two graphs, each once; stops at `MAX_TESTS` + 1 of them.
fn first_rows(
    alloc: Global,
    before: &[Vec<FlowEdge>],
    after: &[Vec<FlowEdge>],
) -> Result<Vec<FlowComparison>, NoMemory>
    ensures { MakesList comparison_tree result (first_comparisons before.now after.now) }
{
    let mut rows = Vec::new(alloc);
    add_graphs(alloc, before, after, &mut rows)?;
    Ok(rows)
}

/// Returns the comparisons of the edges of two graphs, each once, in the order in which they are met. The edges of a
/// graph are given for each of its places, in the order of the places. Fails with `TooManyTests` exactly if there are
/// more than `MAX_TESTS`.
pub fn test_rows(
    alloc: Global,
    before: &[Vec<FlowEdge>],
    after: &[Vec<FlowEdge>],
) -> Result<Vec<FlowComparison>, TableFault>
    ensures made { IfOk result (λ rows. map comparison_tree rows.items ≡ with_all_new is_same_comparison [] (flat_map edge_comparisons (flat_map row_edges before.now ++ flat_map row_edges after.now))) }
    ensures few { IfOk result (λ rows. vec_len rows ≤ MAX_TESTS) }
    ensures many { IfErr result (λ f. f ≡ TableFault.TooManyTests → MAX_TESTS < length (with_all_new is_same_comparison [] (flat_map edge_comparisons (flat_map row_edges before.now ++ flat_map row_edges after.now)))) }
    ensures tests_alone { IfErr result (λ f. f ≡ TableFault.TooManyActions → ⊥) }
{
    let rows = first_rows(alloc, before, after)?;
    if rows.len() > MAX_TESTS {
        return Err(TableFault::TooManyTests);
    }
    Ok(rows)
}
