//! The sorts of results.
ghost use Rattle.std.specs.Prelude.{◌≡◌, None, Some, IfOk, OnOk};
ghost use Rattle.std.specs.Option.{option_map};
ghost use Rattle.flow_text.specs.Scopes.{counts, scope_before};
ghost use Rattle.flow_text.specs.Checking.{first_sort, first_sorts, named_sorts, with_return, with_jump, with_results, with_all_results, with_graph_results, with_named, known_sorts, sorts_or_u64};
ghost use Rattle.flow_text.specs.ScopeViews.{scope_parts, sight_parts};
ghost use Rattle.flow_text.specs.KnownViews.{graph_syntax};
ghost use Rattle.flow_text.specs.ResultViews.{result_sorts};
ghost use Rattle.flow_syntax.specs.SyntaxViews.{exprs_syntax, jump_syntax, block_syntax, blocks_syntax};

use crate::known::WrittenGraph;
use crate::scope::Scope;
use crate::visible_names::{VisibleNames, sort_or_u64};
use flow_model::Sort;
use flow_syntax::{Block, Jump, Node, first_name};
use kat_model::{NoMemory, append};
use std::alloc::Global;

/// The sorts of results, as far as they are known: `None` before the first `return`.
pub(crate) struct Results {
    alloc: Global,
    pub(crate) sorts: Option<Vec<Option<Sort>>>,
}

// Explicit, so that it is proved once and not at each end of each function that owns the sorts.
impl Drop for Results {
    fn drop(self) {
        let Results {
            alloc: _,
            sorts: _sorts,
        } = self;
    }
}

/// Returns what may be named when there are these numbers of declarations.
#[tactic(auto, using(std::proofs::lemmas::List::take_min, crate::proofs::ScopeLists::functions_before))]
pub(crate) fn sight_before<'s>(
    scope: &'s Scope,
    sorts: usize,
    functions: usize,
    variables: usize,
    graphs: usize,
) -> VisibleNames<'s>
    ensures { sight_parts result ≡ scope_before (scope_parts scope.now) (counts sorts functions variables graphs) }
{
    VisibleNames {
        scope,
        sorts,
        functions: &scope.functions[..functions.min(scope.functions.len())],
        variables: &scope.variables[..variables.min(scope.variables.len())],
        graphs,
    }
}

/// Returns what a graph may name.
pub(crate) fn sight_of<'s>(scope: &'s Scope, graph: &WrittenGraph) -> VisibleNames<'s>
    ensures { sight_parts result ≡ scope_before (scope_parts scope.now) (counts graph.now.sorts graph.now.functions graph.now.variables graph.now.graphs) }
{
    sight_before(
        scope,
        graph.sorts,
        graph.functions,
        graph.variables,
        graph.graphs,
    )
}

fn first_sort(sort: Option<Sort>, other: Option<Sort>) -> Option<Sort>
    ensures { result ≡ first_sort sort other }
{
    match sort {
        Some(sort) => Some(sort),
        None => other,
    }
}

// Gives each place that has no sort yet the sort of the first name of the expression there.
fn first_sorts(sorts: &mut [Option<Sort>], visible_names: &VisibleNames, exprs: &[Vec<Node>])
    ensures { sorts.new ≡ first_sorts (sight_parts visible_names.now) sorts.old (exprs_syntax exprs.now) }
{
    let mut rest = exprs;
    for sort in sorts.iter_mut() {
        let Some((expr, _)) = rest.split_last() else {
            return;
        };
        *sort = first_sort(*sort, visible_names.sort_of_first(&first_name(expr)));
        rest = &rest[..rest.len() - 1];
    }
}

// Returns the sorts of the first names of the expressions.
#[tactic(auto, using(flow_syntax::proofs::Stacked::pushes, crate::proofs::LastTaken::last))]
fn named_sorts(
    alloc: Global,
    visible_names: &VisibleNames,
    exprs: &[Vec<Node>],
) -> Result<Vec<Option<Sort>>, NoMemory>
    ensures { IfOk result (λ v. v.items ≡ named_sorts (sight_parts visible_names.now) (exprs_syntax exprs.now)) }
{
    let mut known = Vec::new(alloc);
    let mut rest = exprs;
    'exprs: while let Some((expr, _)) = rest.split_last() {
        append(&mut known, visible_names.sort_of_first(&first_name(expr)))?;
        rest = &rest[..rest.len() - 1];
    }
    Ok(known)
}

// Returns the sorts with those of one more `return`.
fn with_return(
    alloc: Global,
    sorts: Option<Vec<Option<Sort>>>,
    visible_names: &VisibleNames,
    exprs: &[Vec<Node>],
) -> Result<Vec<Option<Sort>>, NoMemory>
    ensures { IfOk result (λ v. Some v.items ≡ with_return (sight_parts visible_names.now) (option_map (λ w. w.items) sorts) (exprs_syntax exprs.now)) }
{
    match sorts {
        None => named_sorts(alloc, visible_names, exprs),
        Some(mut sorts) => {
            first_sorts(&mut sorts, visible_names, exprs);
            Ok(sorts)
        }
    }
}

fn all_or_u64(alloc: Global, sorts: &[Option<Sort>]) -> Result<Vec<Sort>, NoMemory>
    ensures { IfOk result (λ v. v.items ≡ sorts_or_u64 sorts.now) }
{
    let mut known = Vec::new(alloc);
    for sort in sorts {
        append(&mut known, sort_or_u64(*sort))?;
    }
    Ok(known)
}

impl Results {
    pub(crate) fn new(alloc: Global) -> Results
        ensures { result_sorts result ≡ None }
    {
        Results { alloc, sorts: None }
    }

    fn add_return(
        &mut self,
        visible_names: &VisibleNames,
        exprs: &[Vec<Node>],
    ) -> Result<(), NoMemory>
        ensures { OnOk result (result_sorts self.new ≡ with_return (sight_parts visible_names.now) (result_sorts self.old) (exprs_syntax exprs.now)) }
    {
        let sorts = with_return(self.alloc, self.sorts.take(), visible_names, exprs)?;
        self.sorts = Some(sorts);
        Ok(())
    }

    fn add_jump(&mut self, visible_names: &VisibleNames, jump: &Jump) -> Result<(), NoMemory>
        ensures { OnOk result (result_sorts self.new ≡ with_jump (sight_parts visible_names.now) (result_sorts self.old) (jump_syntax jump.now)) }
    {
        match jump {
            Jump::Goto(_) => Ok(()),
            Jump::Branch(_, _, _) => Ok(()),
            Jump::Return(_, exprs) => self.add_return(visible_names, exprs),
            Jump::Abort => Ok(()),
        }
    }

    fn add_block(&mut self, visible_names: &VisibleNames, block: &Block) -> Result<(), NoMemory>
        ensures { OnOk result (result_sorts self.new ≡ with_results (sight_parts visible_names.now) (result_sorts self.old) (block_syntax block.now)) }
    {
        self.add_jump(visible_names, &block.jump)
    }

    #[tactic(auto, using(flow_syntax::proofs::Stacked::pushes, crate::proofs::ResultSteps::results, crate::proofs::LastTaken::last))]
    fn add_blocks(&mut self, visible_names: &VisibleNames, blocks: &[Block]) -> Result<(), NoMemory>
        ensures { OnOk result (result_sorts self.new ≡ with_all_results (sight_parts visible_names.now) (result_sorts self.old) (blocks_syntax blocks.now)) }
    {
        let mut rest = blocks;
        'each: while let Some((block, _)) = rest.split_last() {
            self.add_block(visible_names, block)?;
            rest = &rest[..rest.len() - 1];
        }
        Ok(())
    }

    /// Adds the results of a graph.
    pub(crate) fn add_graph(&mut self, scope: &Scope, graph: &WrittenGraph) -> Result<(), NoMemory>
        ensures { OnOk result (result_sorts self.new ≡ with_graph_results (scope_parts scope.now) (result_sorts self.old) (graph_syntax graph.now)) }
    {
        let visible_names = sight_of(scope, graph);
        self.add_blocks(&visible_names, &graph.blocks)
    }

    /// Adds the results of the graph with this number, if the goal names it.
    pub(crate) fn add_named(
        &mut self,
        scope: &Scope,
        goal: (usize, usize),
        number: usize,
        graph: &WrittenGraph,
    ) -> Result<(), NoMemory>
        ensures { OnOk result (result_sorts self.new ≡ with_named (scope_parts scope.now) goal (result_sorts self.old) number (graph_syntax graph.now)) }
    {
        if number == goal.0 || number == goal.1 {
            return self.add_graph(scope, graph);
        }
        Ok(())
    }

    /// Returns the sorts, u64 where none is known.
    pub(crate) fn known(&self) -> Result<Vec<Sort>, NoMemory>
        ensures { IfOk result (λ v. v.items ≡ known_sorts (result_sorts self.now)) }
    {
        match &self.sorts {
            None => Ok(Vec::new(self.alloc)),
            Some(sorts) => all_or_u64(self.alloc, sorts),
        }
    }
}
