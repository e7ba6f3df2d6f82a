//! Reads flow files.
ghost use Rattle.std.specs.Prelude.{◌≡◌, ◌≤◌, [], length, map, None, Some, IfOk, IfErr, string_bytes};
ghost use Rattle.text_parser.specs.declared.fault.TextFault.TheVariants.{NoMemory as NoRoom};
ghost use Rattle.text_parser.specs.declared.lexer.TheConstants.{MAX_LEN as MOST};
ghost use Rattle.text_parser.specs.Parsed.{Makes};
ghost use Rattle.flow_text.specs.Trees.{graph_of};
ghost use Rattle.flow_text.specs.Checking.{FlowFileParts, shared_sorts, known_sorts, with_graph_results, sorts_returned, whole_graph, next_graph, graphs_after, with_goal, rounds_or_one, file_of};
ghost use Rattle.flow_text.specs.ScopeViews.{scope_parts};
ghost use Rattle.flow_text.specs.KnownViews.{graph_syntax, known_parts};
ghost use Rattle.flow_text.specs.FileViews.{graphs_of, file_parts};
ghost use Rattle.flow_syntax.specs.SyntaxViews.{items_syntax};
ghost use Rattle.flow_text.specs.Texts.{IsFlowText, Answers};

use crate::check_blocks::check_graph;
use crate::declared_names::{DeclaredNames, declared_names};
use crate::known::{Known, WrittenGraph, check_items};
use crate::matches::{FileMatch, file_matches};
use crate::results::{Results, sight_of};
use crate::scope::Scope;
use flow_model::{Block, Sort};
use flow_syntax::{Item, items};
use kat_model::{NoMemory, append};
use problem_file::text_of;
use std::alloc::Global;
use text_parser::{TextFault, tokens};

/// A flow file: the sorts of its variables, its graphs, which of them the goal compares, which blocks are matched beside
/// the entries, and names for comments.
#[derive(Drop)]
pub struct FlowFile {
    pub sorts: Vec<Sort>,
    pub graphs: Vec<Vec<Block>>,
    /// The numbers of the graphs of the goal.
    pub before: usize,
    pub after: usize,
    pub matches: Vec<FileMatch>,
    pub rounds: u64,
    pub splits: bool,
    /// The names of the variables and of the functions, in the order of their declarations.
    pub variable_names: Vec<String>,
    pub function_names: Vec<String>,
}

// Returns the sorts of the results of both graphs of the goal.
fn shared_sorts(
    alloc: Global,
    scope: &Scope,
    goal: (usize, usize),
    graphs: &[WrittenGraph],
) -> Result<Vec<Sort>, NoMemory>
    ensures { IfOk result (λ v. v.items ≡ shared_sorts (scope_parts scope.now) goal (map graph_syntax graphs.now)) }
{
    let mut results = Results::new(alloc);
    for (number, graph) in graphs.iter().enumerate() {
        results.add_named(scope, goal, number, graph)?;
    }
    results.known()
}

fn copied(alloc: Global, sorts: &[Sort]) -> Result<Vec<Sort>, NoMemory>
    ensures { IfOk result (λ v. v.items ≡ sorts.now) }
{
    let mut list = Vec::new(alloc);
    list.extend_from_slice(sorts)?;
    Ok(list)
}

// Returns the sorts of the results of a graph by itself.
fn own_sorts(alloc: Global, scope: &Scope, graph: &WrittenGraph) -> Result<Vec<Sort>, NoMemory>
    ensures { IfOk result (λ v. v.items ≡ known_sorts (with_graph_results (scope_parts scope.now) None (graph_syntax graph.now))) }
{
    let mut results = Results::new(alloc);
    results.add_graph(scope, graph)?;
    results.known()
}

// Returns the sorts of the results of the graph with this number.
fn sorts_returned(
    alloc: Global,
    scope: &Scope,
    goal: (usize, usize),
    shared: &[Sort],
    number: usize,
    graph: &WrittenGraph,
) -> Result<Vec<Sort>, NoMemory>
    ensures { IfOk result (λ v. v.items ≡ sorts_returned (scope_parts scope.now) goal shared.now number (graph_syntax graph.now)) }
{
    if number == goal.0 || number == goal.1 {
        return copied(alloc, shared);
    }
    own_sorts(alloc, scope, graph)
}

// Returns a graph with its results.
fn whole_graph(
    alloc: Global,
    scope: &Scope,
    results: &[Sort],
    graph: &WrittenGraph,
) -> Result<Vec<Block>, TextFault>
    ensures { Makes (Unit {0}) (λ v. graph_of v.items) result (whole_graph (scope_parts scope.now) results.now (graph_syntax graph.now)) }
{
    let visible_names = sight_of(scope, graph);
    check_graph(alloc, &visible_names, Some(results), &graph.blocks)
}

fn next_graph(
    alloc: Global,
    scope: &Scope,
    goal: (usize, usize),
    shared: &[Sort],
    number: usize,
    graph: &WrittenGraph,
) -> Result<Vec<Block>, TextFault>
    ensures { Makes (Unit {0}) (λ v. graph_of v.items) result (next_graph (scope_parts scope.now) goal shared.now number (graph_syntax graph.now)) }
{
    let results = sorts_returned(alloc, scope, goal, shared, number, graph)?;
    whole_graph(alloc, scope, &results, graph)
}

// Returns the graphs with their results.
#[tactic(auto, using(crate::proofs::FileSteps::graphs))]
fn all_graphs(
    alloc: Global,
    scope: &Scope,
    goal: (usize, usize),
    shared: &[Sort],
    graphs: &[WrittenGraph],
) -> Result<Vec<Vec<Block>>, TextFault>
    ensures { Makes (Unit {0}) (λ v. graphs_of v.items) result (graphs_after (scope_parts scope.now) goal shared.now [] (map graph_syntax graphs.now)) }
{
    let mut all = Vec::new(alloc);
    for graph in graphs {
        let whole = next_graph(alloc, scope, goal, shared, all.len(), graph)?;
        append(&mut all, whole)?;
    }
    Ok(all)
}

// Returns the graphs with their results, of which those of the goal have the same sorts.
fn whole_graphs(
    alloc: Global,
    known: &Known,
    goal: (usize, usize),
) -> Result<Vec<Vec<Block>>, TextFault>
    ensures { Makes (Unit {0}) (λ v. graphs_of v.items) result (graphs_after (known_parts known.now).scope goal (shared_sorts (known_parts known.now).scope goal (known_parts known.now).graphs) [] (known_parts known.now).graphs) }
{
    let shared = shared_sorts(alloc, &known.scope, goal, &known.graphs)?;
    all_graphs(alloc, &known.scope, goal, &shared, &known.graphs)
}

// Returns the file of what is known of all items, with its goal.
fn file_with_goal(
    alloc: Global,
    known: Known,
    goal: (usize, usize),
    names: DeclaredNames,
) -> Result<FlowFile, TextFault>
    ensures { Makes (Unit {0}) file_parts result (with_goal (map string_bytes names.variables.items) (map string_bytes names.functions.items) (known_parts known.entry) (Some goal)) }
{
    let matches = file_matches(alloc, &known, goal)?;
    let graphs = whole_graphs(alloc, &known, goal)?;
    let rounds = rounds_or_one(known.rounds);
    let splits = known.splits;
    let (variable_names, function_names) = names.into_lists();
    Ok(FlowFile {
        sorts: known.into_variables(),
        graphs,
        before: goal.0,
        after: goal.1,
        matches,
        rounds,
        splits,
        variable_names,
        function_names,
    })
}

fn rounds_or_one(rounds: Option<u64>) -> u64
    ensures { result ≡ rounds_or_one rounds }
{
    match rounds {
        Some(n) => n,
        None => 1,
    }
}

// Returns the file of the items, which are from the last to the first, or its first fault.
fn file(alloc: Global, items: Vec<Item>) -> Result<FlowFile, TextFault>
    ensures { Makes (Unit {0}) file_parts result (file_of (items_syntax items.entry.items)) }
{
    let names = declared_names(alloc, &items)?;
    let known = check_items(alloc, items)?;
    match known.goal {
        None => Err(TextFault::NoGoal),
        Some(goal) => file_with_goal(alloc, known, goal, names),
    }
}

fn read_text(alloc: Global, text: &str) -> Result<FlowFile, TextFault>
    requires within { length text.now ≤ MOST }
    ensures { Answers text.now result }
{
    let toks = tokens(alloc, text)?;
    let items = items(alloc, &toks, text.len())?;
    file(alloc, items)
}

/// Returns the contents of a flow file. The nodes of each of its expressions and conditions are exactly one tree. Otherwise
/// fails with the first fault, in this order: `TooLong` for more than `MAX_LEN` bytes; `NotUtf8`; `BadToken`; the first in
/// text order of `Syntax`, of `TooDeep` if more than `MAX_OPEN` constructs are open, and of `NumberTooWide` for 2^64 or
/// more; the first fault of the first item that has one, where a `match` has only `TooLarge`; `NoGoal` if no item is an `equal`;
/// the first fault of the first `match` that has one; and last the first fault of a result of a `return`.
pub fn read(alloc: Global, bytes: &[u8]) -> Result<FlowFile, TextFault>
    // The bytes spell the file; a failure is `NoMemory` or the first fault of the bytes.
    ensures answers { Answers bytes.now result }

    // Bytes that spell a file fail only when out of memory.
    ensures only { (f : FlowFileParts) → IsFlowText bytes.now f → IfErr result (λ e. e ≡ NoRoom) }
{
    let text = text_of(bytes)?;
    read_text(alloc, text)
}
